// The action on lists of points.
ghost use Rattle.std.specs.Prelude.{◌≡◌};
ghost use Rattle.std.specs.Float.{binary64};
ghost use Rattle.to_lists.specs.Written.{status, written};
ghost use Rattle.sim3_c.specs.Calls.{act_many_call, act_each_call};

use to_lists::status;

// Every point by the matrix s R.
#[unsafe(no_mangle)]
pub extern "C" fn sim3_act_many(x: &[f64], up: f64, pts: &[f64], out: &mut [f64]) -> u32
    ensures value { result ≡ status (act_many_call binary64 x.now up pts.now out.old) }
    ensures out_after { out.new ≡ written (act_many_call binary64 x.now up pts.now out.old) out.old }
{
    status(sim3_c::points::sim3_act_many(x, up, pts, out))
}

// Every point separately.
#[unsafe(no_mangle)]
pub extern "C" fn sim3_act_each(x: &[f64], up: f64, pts: &[f64], out: &mut [f64]) -> u32
    ensures value { result ≡ status (act_each_call binary64 x.now up pts.now out.old) }
    ensures out_after { out.new ≡ written (act_each_call binary64 x.now up pts.now out.old) out.old }
{
    status(sim3_c::points::sim3_act_each(x, up, pts, out))
}
