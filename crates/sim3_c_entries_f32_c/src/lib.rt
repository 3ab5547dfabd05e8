// The functions of crate sim3_c_entries at f32, for callers in C: each under its name there with the ending _f32, with
// its clauses. include/sim3.h has the order of every number.
#![tactic(auto)]

ghost use Rattle.std.specs.Prelude.{◌≡◌};
ghost use Rattle.std.specs.Float.{binary32};
ghost use Rattle.layout.specs.Lists.{pose_lists};
ghost use Rattle.to_lists.specs.Written.{status, written, framed_written};
ghost use Rattle.sim3_c_entries.specs.Calls.{exp_call, mul_call, inverse_call, scaled_pair_call, block_pair_call};
ghost use Rattle.sim3_c_entries.specs.Calls.{block_inverse_call};

use to_lists::status;

// Exp of the tangent.
#[unsafe(no_mangle)]
pub extern "C" fn sim3_exp_f32(
    tau: &[f32],
    values: &[f32],
    frames: &[u16],
    out: &mut [f32],
    out_frames: &mut [u16],
) -> u32
    ensures value { result ≡ status (exp_call binary32 tau.now values.now frames.now
        (pose_lists out.old out_frames.old)) }
    ensures out_frames_after { pose_lists out.new out_frames.new
        ≡ framed_written (exp_call binary32 tau.now values.now frames.now)
        (pose_lists out.old out_frames.old) }
{
    status(sim3_c_entries::sim3_exp(tau, values, frames, out, out_frames))
}

// X Y, where X starts from the frame where Y ends.
#[unsafe(no_mangle)]
pub extern "C" fn sim3_mul_f32(
    x: &[f32],
    x_frames: &[u16],
    y: &[f32],
    y_frames: &[u16],
    up: f32,
    out: &mut [f32],
    out_frames: &mut [u16],
) -> u32
    ensures value { result
        ≡ status (mul_call binary32 (pose_lists x.now x_frames.now) (pose_lists y.now y_frames.now) up
        (pose_lists out.old out_frames.old)) }
    ensures out_frames_after { pose_lists out.new out_frames.new
        ≡ framed_written (mul_call binary32 (pose_lists x.now x_frames.now) (pose_lists y.now y_frames.now) up)
        (pose_lists out.old out_frames.old) }
{
    status(sim3_c_entries::sim3_mul(x, x_frames, y, y_frames, up, out, out_frames))
}

// X^-1, with the frames exchanged.
#[unsafe(no_mangle)]
pub extern "C" fn sim3_inverse_f32(
    x: &[f32],
    x_frames: &[u16],
    down: f32,
    out: &mut [f32],
    out_frames: &mut [u16],
) -> u32
    ensures value { result ≡ status (inverse_call binary32 (pose_lists x.now x_frames.now) down
        (pose_lists out.old out_frames.old)) }
    ensures out_frames_after { pose_lists out.new out_frames.new
        ≡ framed_written (inverse_call binary32 (pose_lists x.now x_frames.now) down)
        (pose_lists out.old out_frames.old) }
{
    status(sim3_c_entries::sim3_inverse(x, x_frames, down, out, out_frames))
}

// The scaled-form coefficients at sigma and at -sigma.
#[unsafe(no_mangle)]
pub extern "C" fn sim3_scaled_pair_f32(sigma: f32, z: f32, values: &[f32], out: &mut [f32]) -> u32
    ensures value { result ≡ status (scaled_pair_call binary32 sigma z values.now out.old) }
    ensures out_after { out.new ≡ written (scaled_pair_call binary32 sigma z values.now out.old) out.old }
{
    status(sim3_c_entries::sim3_scaled_pair(sigma, z, values, out))
}

// J_l, its inverse, J_r and its inverse.
#[unsafe(no_mangle)]
pub extern "C" fn sim3_block_pair_f32(
    tau: &[f32],
    values: &[f32],
    jl: &[f32],
    jl_inv: &[f32],
    out: &mut [f32],
) -> u32
    ensures value { result ≡ status (block_pair_call binary32 tau.now values.now jl.now jl_inv.now out.old) }
    ensures out_after { out.new
        ≡ written (block_pair_call binary32 tau.now values.now jl.now jl_inv.now out.old) out.old }
{
    status(sim3_c_entries::sim3_block_pair(tau, values, jl, jl_inv, out))
}

// The inverse of a block.
#[unsafe(no_mangle)]
pub extern "C" fn sim3_block_inverse_f32(j: &[f32], out: &mut [f32]) -> u32
    ensures value { result ≡ status (block_inverse_call binary32 j.now out.old) }
    ensures out_after { out.new ≡ written (block_inverse_call binary32 j.now out.old) out.old }
{
    status(sim3_c_entries::sim3_block_inverse(j, out))
}
