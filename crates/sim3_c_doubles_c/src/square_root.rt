// The square root with its remainder.
ghost use Rattle.std.specs.Prelude.{◌≡◌};
ghost use Rattle.to_lists.specs.Written.{status};
ghost use Rattle.sim3_c_doubles.specs.Root.{root_lists, root_call, root_written};

use to_lists::status;

// r and the remainder, the exponent, and the double nearest to the root.
#[unsafe(no_mangle)]
pub extern "C" fn sim3_root(
    z: f64,
    whole: &mut [u64],
    exponent: &mut [i64],
    nearest: &mut [f64],
) -> u32
    ensures value { result ≡ status (root_call z (root_lists whole.old exponent.old nearest.old)) }
    ensures nearest_after { root_lists whole.new exponent.new nearest.new
        ≡ root_written z (root_lists whole.old exponent.old nearest.old) }
{
    status(sim3_c_doubles::square_root::sim3_root(z, whole, exponent, nearest))
}
