// Poses: quaternion w x y z, t, sigma, and in a second list the frames: from, to. A function that returns a pose writes
// its numbers and its frames to two lists; both or neither.
ghost use Rattle.std.specs.Prelude.{◌≡◌};
ghost use Rattle.linalg.specs.Answer.{answer};
ghost use Rattle.layout.specs.Lists.{pose_lists};
ghost use Rattle.to_lists.specs.Written.{status, written, framed_written};
ghost use Rattle.sim3_c.specs.Calls.{mul_inv_call, inv_mul_call, renormalize_call};

use from_lists::{framed_from, pose_from};
use ieee::Real;
use linalg::refusal::Refusal;
use so3::quat::Renormalize;
use to_lists::{put_framed, put_pose};

// X Y^-1, where both start from one frame; ds is e^(sigma of X - sigma of Y).
#[tactic(auto, unfolding(crate::proofs::Unfolds::sim3_mul_inv_unfolds))]
pub fn sim3_mul_inv<T: Real>(
    x: &[T],
    x_frames: &[u16],
    y: &[T],
    y_frames: &[u16],
    ds: T,
    out: &mut [T],
    out_frames: &mut [u16],
) -> Result<(), Refusal>
    ensures value { status (answer result)
        ≡ status (mul_inv_call T.format (pose_lists (T.floats x.now) x_frames.now)
        (pose_lists (T.floats y.now) y_frames.now) (T.float ds) (pose_lists (T.floats out.old) out_frames.old)) }
    ensures out_frames_after { pose_lists (T.floats out.new) out_frames.new
        ≡ framed_written (mul_inv_call T.format (pose_lists (T.floats x.now) x_frames.now)
        (pose_lists (T.floats y.now) y_frames.now) (T.float ds)) (pose_lists (T.floats out.old) out_frames.old) }
{
    let a = framed_from(x, x_frames)?;
    let b = framed_from(y, y_frames)?;
    put_framed(out, out_frames, a.mul_inv(b, ds)?)
}

// Y^-1 X, where both end in one frame; down is e^-sigma of Y.
#[tactic(auto, unfolding(crate::proofs::Unfolds::sim3_inv_mul_unfolds))]
pub fn sim3_inv_mul<T: Real>(
    x: &[T],
    x_frames: &[u16],
    y: &[T],
    y_frames: &[u16],
    down: T,
    out: &mut [T],
    out_frames: &mut [u16],
) -> Result<(), Refusal>
    ensures value { status (answer result)
        ≡ status (inv_mul_call T.format (pose_lists (T.floats x.now) x_frames.now)
        (pose_lists (T.floats y.now) y_frames.now) (T.float down) (pose_lists (T.floats out.old) out_frames.old)) }
    ensures out_frames_after { pose_lists (T.floats out.new) out_frames.new
        ≡ framed_written (inv_mul_call T.format (pose_lists (T.floats x.now) x_frames.now)
        (pose_lists (T.floats y.now) y_frames.now) (T.float down)) (pose_lists (T.floats out.old) out_frames.old) }
{
    let a = framed_from(x, x_frames)?;
    let b = framed_from(y, y_frames)?;
    put_framed(out, out_frames, a.inv_mul(b, down)?)
}

// A Newton step towards a unit quaternion, in place. It reads no frame: X keeps its frames.
#[tactic(auto, unfolding(crate::specs::Calls::renormalize_call, to_lists::proofs::OnLists::on_lists))]
pub fn sim3_renormalize<T: Real>(x: &mut [T]) -> Result<(), Refusal>
    ensures value { status (answer result) ≡ status (renormalize_call T.format (T.floats x.old)) }
    ensures x_after { T.floats x.new ≡ written (renormalize_call T.format (T.floats x.old)) (T.floats x.old) }
{
    let a = pose_from(x)?;
    put_pose(x, a.renormalized())
}
