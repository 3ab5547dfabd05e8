// A running join between calls: it joins each pose that comes, and keeps its state in two lists of the caller: the
// eight numbers of the running pose; and from, to, n, the products since the last renormalisation, and 1 if there is a
// pose. And the Newton step on a list of poses.
ghost use Rattle.std.specs.Prelude.{◌≡◌, ◌*◌, length};
ghost use Rattle.std.specs.Float.{binary64};
ghost use Rattle.linalg.specs.Answer.{answer};
ghost use Rattle.running.specs.Running.{joint_view};
ghost use Rattle.layout.specs.Lists.{pose_lists};
ghost use Rattle.to_lists.specs.Written.{status, written};
ghost use Rattle.sim3_c_doubles.specs.Join.{run_lists, running_from, run_fitting, joint_fitting, run_written};
ghost use Rattle.sim3_c_doubles.specs.Join.{start_call, push_call, every_call, poses_renormalized};
ghost use Rattle.sim3_c_doubles.specs.Join.{renormalize_all_call};

use frames::Pose;
use from_lists::{framed_from, pose_from};
use layout::POSE;
use linalg::refusal::Refusal;
use running::{Joined, Running};
use sim3_c::pose::sim3_renormalize;
use to_lists::put_pose;

const STATE: usize = 5;

#[tactic(auto, unfolding(crate::proofs::Unfolds::running_from_unfolds))]
fn running_from(pose: &[f64], state: &[u16]) -> Result<Running, Refusal>
    ensures { answer result ≡ running_from (run_lists pose.now state.now) }
{
    let sim3 = pose_from(pose)?;
    if state.len() != STATE {
        return Err(Refusal::ListLength);
    }
    let held = Pose {
        sim3,
        from: state[0],
        to: state[1],
    };
    Ok(Running {
        pose: (state[4] == 1).then_some(held),
        every: state[2],
        since: state[3],
    })
}

// Writes the running pose x, n and the count k; it writes nothing if a list has the wrong length. PERF (D122): the
// state is stored number by number; an array of five is stored by two bytes and loaded by eight, which waits for the
// stores.
#[tactic(auto, using(crate::proofs::PoseRuns::state_sizes), unfolding(crate::proofs::Unfolds::put_posed_unfolds))]
fn put_posed(
    pose: &mut [f64],
    state: &mut [u16],
    x: Pose<f64>,
    n: u16,
    k: u16,
) -> Result<(), Refusal>
    ensures value { status (answer result) ≡ status (run_fitting (run_lists pose.old state.old) x n k 1) }
    ensures state_after { run_lists pose.new state.new
        ≡ run_written (λ o. run_fitting o x n k 1) (run_lists pose.old state.old) }
{
    if pose.len() != POSE {
        return Err(Refusal::ListLength);
    }
    if state.len() != STATE {
        return Err(Refusal::ListLength);
    }
    state[0] = x.from;
    state[1] = x.to;
    state[2] = n;
    state[3] = k;
    state[4] = 1;
    put_pose(pose, x.sim3)
}

// Writes the running join after a pose, or returns the refusal and writes nothing.
#[tactic(auto, unfolding(crate::specs::Join::joint_fitting, to_lists::proofs::OnLists::on_lists))]
fn put_joint(pose: &mut [f64], state: &mut [u16], j: Joined) -> Result<(), Refusal>
    ensures value { status (answer result) ≡ status (joint_fitting (run_lists pose.old state.old) (joint_view j)) }
    ensures state_after { run_lists pose.new state.new
        ≡ run_written (λ o. joint_fitting o (joint_view j)) (run_lists pose.old state.old) }
{
    let p = j.answer?;
    let r = j.running;
    put_posed(pose, state, p, r.every, r.since)
}

// No pose yet, and no renormalisation: all numbers 0.
#[tactic(auto, unfolding(crate::proofs::Unfolds::sim3_running_start_unfolds))]
pub fn sim3_running_start(pose: &mut [f64], state: &mut [u16]) -> Result<(), Refusal>
    ensures value { status (answer result) ≡ status (start_call (run_lists pose.old state.old)) }
    ensures state_after { run_lists pose.new state.new ≡ run_written start_call (run_lists pose.old state.old) }
{
    if pose.len() != POSE {
        return Err(Refusal::ListLength);
    }
    if state.len() != STATE {
        return Err(Refusal::ListLength);
    }
    pose.fill(0.0);
    state.fill(0);
    Ok(())
}

// The first pose becomes the running pose, and its up is not used; a further one is multiplied by the running pose from
// the left, where up is e^sigma of the running pose. If the frames do not match (9), nothing changes.
#[tactic(auto, unfolding(crate::specs::Join::push_call, to_lists::proofs::OnLists::on_lists))]
pub fn sim3_running_push(
    pose: &mut [f64],
    state: &mut [u16],
    x: &[f64],
    x_frames: &[u16],
    up: f64,
) -> Result<(), Refusal>
    ensures value { status (answer result)
        ≡ status (push_call binary64 (pose_lists x.now x_frames.now) up (run_lists pose.old state.old)) }
    ensures state_after { run_lists pose.new state.new
        ≡ run_written (push_call binary64 (pose_lists x.now x_frames.now) up) (run_lists pose.old state.old) }
{
    let r = running_from(pose, state)?;
    let a = framed_from(x, x_frames)?;
    put_joint(pose, state, r.join(a, up))
}

// Renormalise the running quaternion after every nth product from now on, 0 for never.
#[tactic(auto, unfolding(crate::proofs::Unfolds::sim3_running_every_unfolds))]
pub fn sim3_running_every(state: &mut [u16], n: u16) -> Result<(), Refusal>
    ensures value { status (answer result) ≡ status (every_call state.old n) }
    ensures state_after { state.new ≡ written (every_call state.old n) state.old }
{
    if state.len() != STATE {
        return Err(Refusal::ListLength);
    }
    state[2] = n;
    Ok(())
}

// A Newton step towards a unit quaternion, in place, for every pose of the list, eight numbers each.
#[tactic(auto, using(crate::proofs::PoseRuns::run_all), unfolding(crate::proofs::Unfolds::all_unfolds))]
pub fn sim3_renormalize_all(poses: &mut [f64]) -> Result<(), Refusal>
    ensures value { status (answer result) ≡ status (renormalize_all_call binary64 poses.old) }
    ensures poses_after { poses.new ≡ written (renormalize_all_call binary64 poses.old) poses.old }
{
    if poses.len() % POSE != 0 {
        return Err(Refusal::ListLength);
    }
    for i in 0..poses.len() / POSE {
        let at = i * POSE;
        let _ = sim3_renormalize(&mut poses[at..at + POSE]);
    }
    Ok(())
}
