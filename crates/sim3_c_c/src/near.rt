// How near another arm is.
ghost use Rattle.std.specs.Prelude.{◌≡◌};
ghost use Rattle.std.specs.Float.{binary64};
ghost use Rattle.to_lists.specs.Written.{status, written};
ghost use Rattle.sim3_c.specs.Near.{near_call};

use to_lists::status;

// How many neighbouring numbers z must move for another arm, the direction, and the arm there.
#[unsafe(no_mangle)]
pub extern "C" fn sim3_nearest_arm(sigma: f64, z: f64, out: &mut [u64]) -> u32
    ensures value { result ≡ status (near_call binary64 sigma z out.old) }
    ensures out_after { out.new ≡ written (near_call binary64 sigma z out.old) out.old }
{
    status(sim3_c::near::sim3_nearest_arm(sigma, z, out))
}
