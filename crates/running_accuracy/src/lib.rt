// How accurate the running join is: its rotation and translation after any history of poses, refusals and new n,
// against the same history in exact arithmetic, with the renormalisations where the running join does them; and
// the action of the running pose on a point (RunningTheorem), also against the product of the poses as true
// similarities (SimilarityTheorem); its sigma and its scale (SigmaTheorem, ScaleTheorem). Without renormalisation:
// JoinedTheorem. The one function here joins a pose, and its contract is what is proved of the running pose then.
#![tactic(auto)]

ghost use Rattle.running_accuracy.specs.Join.{JoinAccurate};

use frames::Pose;
use running::{Joined, Running};

// One pose more to a running join, up being e^sigma of the running pose.
pub fn join(r: Running, x: Pose<f64>, up: f64) -> Joined
    ensures { JoinAccurate r x up result.running }
{
    r.join(x, up)
}
