// Whether the machine computes as the proofs say.
ghost use Rattle.std.specs.Prelude.{◌≡◌};
ghost use Rattle.sim3_c_doubles.specs.Probe.{probe_call};

// 1 if the three numbers have the expected product, else 0.
#[unsafe(no_mangle)]
pub extern "C" fn sim3_environment(probe: &[f64]) -> u32
    ensures { result ≡ probe_call probe.now }
{
    match sim3_c_doubles::probe::sim3_environment(probe) {
        Ok(true) => 1,
        Ok(false) => 0,
        Err(refusal) => refusal.number() as u32,
    }
}
