// The action of a pose on a list of points, three numbers each: with the bits of the Rust's act_many, and each point
// separately, as the job moves one.
ghost use Rattle.std.specs.Prelude.{◌≡◌};
ghost use Rattle.linalg.specs.Answer.{answer};
ghost use Rattle.to_lists.specs.Written.{status, written};
ghost use Rattle.sim3_c.specs.Calls.{act_many_call, act_each_call};

use from_lists::pose_from;
use ieee::Real;
use linalg::refusal::Refusal;
use point_lists::{PointWidth, act_each, act_many};

// Every point by the matrix s R; up is e^sigma of X.
#[tactic(auto, unfolding(crate::proofs::Unfolds::sim3_act_many_unfolds))]
pub fn sim3_act_many<T: PointWidth>(x: &[T], up: T, pts: &[T], out: &mut [T]) -> Result<(), Refusal>
    ensures value { status (answer result)
        ≡ status (act_many_call T.format (T.floats x.now) (T.float up) (T.floats pts.now) (T.floats out.old)) }
    ensures out_after { T.floats out.new
        ≡ written (act_many_call T.format (T.floats x.now) (T.float up) (T.floats pts.now) (T.floats out.old))
        (T.floats out.old) }
{
    let a = pose_from(x)?;
    act_many(a, up, pts, out)
}

// Every point separately; up is e^sigma of X.
#[tactic(auto, unfolding(crate::proofs::Unfolds::sim3_act_each_unfolds))]
pub fn sim3_act_each<T: Real>(x: &[T], up: T, pts: &[T], out: &mut [T]) -> Result<(), Refusal>
    ensures value { status (answer result)
        ≡ status (act_each_call T.format (T.floats x.now) (T.float up) (T.floats pts.now) (T.floats out.old)) }
    ensures out_after { T.floats out.new
        ≡ written (act_each_call T.format (T.floats x.now) (T.float up) (T.floats pts.now) (T.floats out.old))
        (T.floats out.old) }
{
    let a = pose_from(x)?;
    act_each(a, up, pts, out)
}
