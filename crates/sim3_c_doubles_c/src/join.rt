// A running join between calls, and the Newton step on a list of poses.
ghost use Rattle.std.specs.Prelude.{◌≡◌};
ghost use Rattle.std.specs.Float.{binary64};
ghost use Rattle.layout.specs.Lists.{pose_lists};
ghost use Rattle.to_lists.specs.Written.{status, written};
ghost use Rattle.sim3_c_doubles.specs.Join.{run_lists, run_written};
ghost use Rattle.sim3_c_doubles.specs.Join.{start_call, push_call, every_call, renormalize_all_call};

use to_lists::status;

// No pose yet.
#[unsafe(no_mangle)]
pub extern "C" fn sim3_running_start(pose: &mut [f64], state: &mut [u16]) -> u32
    ensures value { result ≡ status (start_call (run_lists pose.old state.old)) }
    ensures state_after { run_lists pose.new state.new ≡ run_written start_call (run_lists pose.old state.old) }
{
    status(sim3_c_doubles::join::sim3_running_start(pose, state))
}

// A further pose.
#[unsafe(no_mangle)]
pub extern "C" fn sim3_running_push(
    pose: &mut [f64],
    state: &mut [u16],
    x: &[f64],
    x_frames: &[u16],
    up: f64,
) -> u32
    ensures value { result
        ≡ status (push_call binary64 (pose_lists x.now x_frames.now) up (run_lists pose.old state.old)) }
    ensures state_after { run_lists pose.new state.new
        ≡ run_written (push_call binary64 (pose_lists x.now x_frames.now) up) (run_lists pose.old state.old) }
{
    status(sim3_c_doubles::join::sim3_running_push(pose, state, x, x_frames, up))
}

// Sets after how many products the running quaternion is renormalised.
#[unsafe(no_mangle)]
pub extern "C" fn sim3_running_every(state: &mut [u16], n: u16) -> u32
    ensures value { result ≡ status (every_call state.old n) }
    ensures state_after { state.new ≡ written (every_call state.old n) state.old }
{
    status(sim3_c_doubles::join::sim3_running_every(state, n))
}

// A Newton step for every pose of the list.
#[unsafe(no_mangle)]
pub extern "C" fn sim3_renormalize_all(poses: &mut [f64]) -> u32
    ensures value { result ≡ status (renormalize_all_call binary64 poses.old) }
    ensures poses_after { poses.new ≡ written (renormalize_all_call binary64 poses.old) poses.old }
{
    status(sim3_c_doubles::join::sim3_renormalize_all(poses))
}
