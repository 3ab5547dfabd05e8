// The coefficients with their arms.
ghost use Rattle.std.specs.Prelude.{◌≡◌};
ghost use Rattle.std.specs.Float.{binary32};
ghost use Rattle.to_lists.specs.Written.{status, written};
ghost use Rattle.sim3_c.specs.Calls.{armed_call, armed_pair_call};

use to_lists::status;

// At sigma.
#[unsafe(no_mangle)]
pub extern "C" fn sim3_coeffs_armed_f32(sigma: f32, z: f32, values: &[f32], out: &mut [f32]) -> u32
    ensures value { result ≡ status (armed_call binary32 sigma z values.now out.old) }
    ensures out_after { out.new ≡ written (armed_call binary32 sigma z values.now out.old) out.old }
{
    status(sim3_c::armed::sim3_coeffs_armed(sigma, z, values, out))
}

// At sigma and at -sigma.
#[unsafe(no_mangle)]
pub extern "C" fn sim3_armed_pair_f32(sigma: f32, z: f32, values: &[f32], out: &mut [f32]) -> u32
    ensures value { result ≡ status (armed_pair_call binary32 sigma z values.now out.old) }
    ensures out_after { out.new ≡ written (armed_pair_call binary32 sigma z values.now out.old) out.old }
{
    status(sim3_c::armed::sim3_armed_pair(sigma, z, values, out))
}
