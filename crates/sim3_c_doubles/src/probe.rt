// Whether the machine computes as the proofs say, by numbers that the caller passes, so that no compiler computes their
// product beforehand.
ghost use Rattle.std.specs.Prelude.{◌≡◌};
ghost use Rattle.sim3_c_doubles.specs.Probe.{probe_call, probe_view};

use linalg::refusal::Refusal;

const NUMBERS: usize = 3;

// Whether the three numbers have the expected product (`environment::product_is_due`). 4.75, 0x1p-1074 and
// 0x1.0000000000001p+1023 have it (proofs/Documented.antt).
#[tactic(auto, unfolding(crate::specs::Probe::probe_call))]
pub fn sim3_environment(probe: &[f64]) -> Result<bool, Refusal>
    ensures { probe_view result ≡ probe_call probe.now }
{
    if probe.len() != NUMBERS {
        return Err(Refusal::ListLength);
    }
    Ok(environment::product_is_due(probe[0], probe[1], probe[2]))
}
