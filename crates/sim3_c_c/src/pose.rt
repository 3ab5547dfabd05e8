// Poses and their frames.
ghost use Rattle.std.specs.Prelude.{◌≡◌};
ghost use Rattle.std.specs.Float.{binary64};
ghost use Rattle.layout.specs.Lists.{pose_lists};
ghost use Rattle.to_lists.specs.Written.{status, written, framed_written};
ghost use Rattle.sim3_c.specs.Calls.{mul_inv_call, inv_mul_call, renormalize_call};

use to_lists::status;

// X Y^-1, where both start from one frame.
#[unsafe(no_mangle)]
pub extern "C" fn sim3_mul_inv(
    x: &[f64],
    x_frames: &[u16],
    y: &[f64],
    y_frames: &[u16],
    ds: f64,
    out: &mut [f64],
    out_frames: &mut [u16],
) -> u32
    ensures value { result
        ≡ status (mul_inv_call binary64 (pose_lists x.now x_frames.now) (pose_lists y.now y_frames.now) ds
        (pose_lists out.old out_frames.old)) }
    ensures out_frames_after { pose_lists out.new out_frames.new
        ≡ framed_written (mul_inv_call binary64 (pose_lists x.now x_frames.now) (pose_lists y.now y_frames.now) ds)
        (pose_lists out.old out_frames.old) }
{
    status(sim3_c::pose::sim3_mul_inv(x, x_frames, y, y_frames, ds, out, out_frames))
}

// Y^-1 X, where both end in one frame.
#[unsafe(no_mangle)]
pub extern "C" fn sim3_inv_mul(
    x: &[f64],
    x_frames: &[u16],
    y: &[f64],
    y_frames: &[u16],
    down: f64,
    out: &mut [f64],
    out_frames: &mut [u16],
) -> u32
    ensures value { result
        ≡ status (inv_mul_call binary64 (pose_lists x.now x_frames.now) (pose_lists y.now y_frames.now) down
        (pose_lists out.old out_frames.old)) }
    ensures out_frames_after { pose_lists out.new out_frames.new
        ≡ framed_written (inv_mul_call binary64 (pose_lists x.now x_frames.now) (pose_lists y.now y_frames.now) down)
        (pose_lists out.old out_frames.old) }
{
    status(sim3_c::pose::sim3_inv_mul(x, x_frames, y, y_frames, down, out, out_frames))
}

// A Newton step towards a unit quaternion, in place.
#[unsafe(no_mangle)]
pub extern "C" fn sim3_renormalize(x: &mut [f64]) -> u32
    ensures value { result ≡ status (renormalize_call binary64 x.old) }
    ensures x_after { x.new ≡ written (renormalize_call binary64 x.old) x.old }
{
    status(sim3_c::pose::sim3_renormalize(x))
}
