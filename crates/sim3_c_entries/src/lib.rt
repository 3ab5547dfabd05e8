// The C functions that records of the job use too, as the operations behind their marks. And two functions on lists
// that the job uses and C callers do not. Each writes to the lists that it borrows, or refuses and leaves them as they
// were. include/sim3.h has the order of every number.
#![tactic(auto)]

ghost use Rattle.std.specs.Prelude.{◌≡◌};
ghost use Rattle.linalg.specs.Answer.{answer};
ghost use Rattle.pairs.specs.Floats.{as_armed_pair};
ghost use Rattle.layout.specs.Lists.{pose_lists};
ghost use Rattle.to_lists.specs.Written.{status, written, framed_written};
ghost use Rattle.sim3_c_entries.specs.Calls.{exp_call, mul_call, inverse_call, scaled_pair_call, block_pair_call};
ghost use Rattle.sim3_c_entries.specs.Calls.{block_inverse_call, act_call, arm_lists, arms_fitting, arms_call};

use coeffs::width::Width;
use frames::Pose;
use from_lists::{
    block_from, framed_from, frames_from, mat_from, pose_from, tangent_from, values_from, vec_from,
};
use ieee::Real;
use linalg::refusal::Refusal;
use pairs::sim3::{ArmedPair, sim3_coeffs_armed_pair, sim3_coeffs_scaled_pair};
use series::sim3::Signs;
use side_jacobians::pair::block_pair;
use to_lists::{put, put_framed};

// How many bytes the arms of both signs have.
pub const ARMS: usize = 4;

// Exp of the tangent, with its ten function values and the frames that the caller passes.
#[tactic(auto, unfolding(crate::specs::Calls::exp_call, to_lists::proofs::OnLists::on_lists))]
pub fn sim3_exp<T: Width>(
    tau: &[T],
    values: &[T],
    frames: &[u16],
    out: &mut [T],
    out_frames: &mut [u16],
) -> Result<(), Refusal>
    ensures value { status (answer result)
        ≡ status (exp_call T.format (T.floats tau.now) (T.floats values.now) frames.now
        (pose_lists (T.floats out.old) out_frames.old)) }
    ensures out_frames_after { pose_lists (T.floats out.new) out_frames.new
        ≡ framed_written (exp_call T.format (T.floats tau.now) (T.floats values.now) frames.now)
        (pose_lists (T.floats out.old) out_frames.old) }
{
    let t = tangent_from(tau)?;
    let v = values_from(values)?;
    let frames = frames_from(frames)?;
    put_framed(out, out_frames, Pose::exp(t, v, frames))
}

// X Y, where X starts from the frame where Y ends; up is e^sigma of X.
#[tactic(auto, unfolding(crate::proofs::Unfolds::sim3_mul_unfolds))]
pub fn sim3_mul<T: Real>(
    x: &[T],
    x_frames: &[u16],
    y: &[T],
    y_frames: &[u16],
    up: T,
    out: &mut [T],
    out_frames: &mut [u16],
) -> Result<(), Refusal>
    ensures value { status (answer result)
        ≡ status (mul_call T.format (pose_lists (T.floats x.now) x_frames.now)
        (pose_lists (T.floats y.now) y_frames.now) (T.float up) (pose_lists (T.floats out.old) out_frames.old)) }
    ensures out_frames_after { pose_lists (T.floats out.new) out_frames.new
        ≡ framed_written (mul_call T.format (pose_lists (T.floats x.now) x_frames.now)
        (pose_lists (T.floats y.now) y_frames.now) (T.float up)) (pose_lists (T.floats out.old) out_frames.old) }
{
    let a = framed_from(x, x_frames)?;
    let b = framed_from(y, y_frames)?;
    put_framed(out, out_frames, a.mul(b, up)?)
}

// X^-1, with the frames exchanged; down is e^-sigma of X.
#[tactic(auto, unfolding(crate::specs::Calls::inverse_call, to_lists::proofs::OnLists::on_lists))]
pub fn sim3_inverse<T: Real>(
    x: &[T],
    x_frames: &[u16],
    down: T,
    out: &mut [T],
    out_frames: &mut [u16],
) -> Result<(), Refusal>
    ensures value { status (answer result)
        ≡ status (inverse_call T.format (pose_lists (T.floats x.now) x_frames.now) (T.float down)
        (pose_lists (T.floats out.old) out_frames.old)) }
    ensures out_frames_after { pose_lists (T.floats out.new) out_frames.new
        ≡ framed_written (inverse_call T.format (pose_lists (T.floats x.now) x_frames.now) (T.float down))
        (pose_lists (T.floats out.old) out_frames.old) }
{
    let a = framed_from(x, x_frames)?;
    put_framed(out, out_frames, a.inverse(down))
}

// The scaled-form coefficients at sigma and at -sigma; z is the squared angle.
#[tactic(auto, unfolding(crate::specs::Calls::scaled_pair_call, to_lists::proofs::OnLists::on_lists))]
pub fn sim3_scaled_pair<T: Width>(
    sigma: T,
    z: T,
    values: &[T],
    out: &mut [T],
) -> Result<(), Refusal>
    ensures value { status (answer result)
        ≡ status (scaled_pair_call T.format (T.float sigma) (T.float z) (T.floats values.now) (T.floats out.old)) }
    ensures out_after { T.floats out.new
        ≡ written (scaled_pair_call T.format (T.float sigma) (T.float z) (T.floats values.now) (T.floats out.old))
        (T.floats out.old) }
{
    let v = values_from(values)?;
    put(out, sim3_coeffs_scaled_pair(sigma, z, v)?)
}

// J_l, its inverse, J_r and its inverse, with the values of the tangent, J_l(phi) and its inverse.
#[tactic(auto, unfolding(crate::specs::Calls::block_pair_call, to_lists::proofs::OnLists::on_lists))]
pub fn sim3_block_pair<T: Width>(
    tau: &[T],
    values: &[T],
    jl: &[T],
    jl_inv: &[T],
    out: &mut [T],
) -> Result<(), Refusal>
    ensures value { status (answer result)
        ≡ status (block_pair_call T.format (T.floats tau.now) (T.floats values.now) (T.floats jl.now)
        (T.floats jl_inv.now) (T.floats out.old)) }
    ensures out_after { T.floats out.new
        ≡ written (block_pair_call T.format (T.floats tau.now) (T.floats values.now) (T.floats jl.now)
        (T.floats jl_inv.now) (T.floats out.old)) (T.floats out.old) }
{
    let t = tangent_from(tau)?;
    let v = values_from(values)?;
    let j = mat_from(jl)?;
    let i = mat_from(jl_inv)?;
    put(out, block_pair(t, v, j, i))
}

// The inverse of a block; refusal 2 if e is a zero.
#[tactic(auto, unfolding(crate::specs::Calls::block_inverse_call, to_lists::proofs::OnLists::on_lists))]
pub fn sim3_block_inverse<T: Real>(j: &[T], out: &mut [T]) -> Result<(), Refusal>
    ensures value { status (answer result)
        ≡ status (block_inverse_call T.format (T.floats j.now) (T.floats out.old)) }
    ensures out_after { T.floats out.new
        ≡ written (block_inverse_call T.format (T.floats j.now) (T.floats out.old)) (T.floats out.old) }
{
    let b = block_from(j)?;
    let i = b.inverse()?;
    put(out, i)
}

// A pose's action on one point; up is e^sigma of X.
#[tactic(auto, unfolding(crate::specs::Calls::act_call, to_lists::proofs::OnLists::on_lists))]
pub fn act_point<T: Real>(x: &[T], up: T, p: &[T], out: &mut [T]) -> Result<(), Refusal>
    ensures value { status (answer result)
        ≡ status (act_call T.format (T.floats x.now) (T.float up) (T.floats p.now) (T.floats out.old)) }
    ensures out_after { T.floats out.new
        ≡ written (act_call T.format (T.floats x.now) (T.float up) (T.floats p.now) (T.floats out.old))
        (T.floats out.old) }
{
    let a = pose_from(x)?;
    let v = vec_from(p)?;
    put(out, a.act(up, v))
}

// The arms of both signs as bytes, each with 1 or 0 for whether v0 and w0 of the closed arm come from their own series,
// and the scaled pair to a list; both or neither.
#[tactic(auto, using(crate::proofs::Arms::sizes), unfolding(crate::proofs::Unfolds::put_arms_unfolds))]
fn put_arms<T: Real>(arms: &mut [u8], out: &mut [T], p: ArmedPair<T>) -> Result<(), Refusal>
    ensures value { status (answer result)
        ≡ status (arms_fitting (arm_lists arms.old (T.floats out.old)) (as_armed_pair T.float p)) }
    ensures out_after { arm_lists arms.new (T.floats out.new)
        ≡ written (arms_fitting (arm_lists arms.old (T.floats out.old)) (as_armed_pair T.float p))
        (arm_lists arms.old (T.floats out.old)) }
{
    if arms.len() != ARMS {
        return Err(Refusal::ListLength);
    }
    let pos = p.pos;
    let neg = p.neg;
    let pair = Signs {
        pos: pos.s,
        neg: neg.s,
    };
    put(out, pair)?;
    let ends = u8::from(pos.ends);
    let ends_neg = u8::from(neg.ends);
    let arm = pos.arm.number();
    let arm_neg = neg.arm.number();
    arms.copy_from_slice(&[arm, ends, arm_neg, ends_neg]);
    Ok(())
}

// The scaled pair with the arms that formed it, the arms as bytes; z is the squared angle.
#[tactic(auto, unfolding(crate::specs::Calls::arms_call, to_lists::proofs::OnLists::on_lists))]
pub fn armed_pair<T: Width>(
    sigma: T,
    z: T,
    values: &[T],
    arms: &mut [u8],
    out: &mut [T],
) -> Result<(), Refusal>
    ensures value { status (answer result)
        ≡ status (arms_call T.format (T.float sigma) (T.float z) (T.floats values.now)
        (arm_lists arms.old (T.floats out.old))) }
    ensures out_after { arm_lists arms.new (T.floats out.new)
        ≡ written (arms_call T.format (T.float sigma) (T.float z) (T.floats values.now)
        (arm_lists arms.old (T.floats out.old))) (arm_lists arms.old (T.floats out.old)) }
{
    let v = values_from(values)?;
    put_arms(arms, out, sim3_coeffs_armed_pair(sigma, z, v)?)
}
