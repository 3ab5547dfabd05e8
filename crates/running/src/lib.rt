// A running join: it multiplies each pose that comes by the running pose from the left, and renormalises the running
// pose's quaternion after every nth product. Also the renormalisation of a whole list of poses. Proved: after any
// history the pose is that of the plain history (HistoryTheorem). Rests on frames.
#![tactic(auto)]

ghost use Rattle.std.specs.Prelude.{◌≡◌};
ghost use Rattle.std.specs.Float.{binary64};
ghost use Rattle.linalg.specs.Answer.{answer};
ghost use Rattle.running.specs.Running.{running_none, one_more, due, joint_view, stands, produced_of, join_of};
ghost use Rattle.running.specs.Running.{every_of, all_renormalized};

use frames::Pose;
use linalg::refusal::Refusal;
use so3::quat::Renormalize;

// The running pose, none before the first pose; n, the number of products after which it is renormalised, 0 for never;
// and the number of products since it last was, where 65535 means that many or more.
#[derive(Clone, Copy, Default)]
pub struct Running {
    pub pose: Option<Pose<f64>>,
    pub every: u16,
    pub since: u16,
}

// The running join after a pose, and the reply to it: the running pose or the refusal.
#[derive(Clone, Copy)]
pub struct Joined {
    pub running: Running,
    pub answer: Result<Pose<f64>, Refusal>,
}

// One more product. No n is greater than 65535, so the count can stop there.
#[tactic(auto, unfolding(crate::specs::Running::one_more))]
fn one_more(k: u16) -> u16
    ensures { result ≡ one_more k }
{
    if k < 65535 {
        return k + 1;
    }
    k
}

// Whether to renormalise the kth product since the last renormalisation.
#[tactic(auto, unfolding(crate::specs::Running::due))]
fn due(n: u16, k: u16) -> bool
    ensures { result ≡ due n k }
{
    (0 < n) & (n <= k)
}

impl Running {
    // No pose yet, and no renormalisation.
    pub fn new() -> Running
        ensures { result ≡ running_none }
    {
        Running::default()
    }

    // p becomes the running pose, and is the reply.
    fn stand(self, p: Pose<f64>) -> Joined
        ensures { joint_view result ≡ stands p self.every self.since }
    {
        Joined {
            running: Running {
                pose: Some(p),
                ..self
            },
            answer: Ok(p),
        }
    }

    // The product p becomes the running pose, renormalised if `due`.
    #[tactic(auto, unfolding(crate::specs::Running::produced_of))]
    fn produced(self, p: Pose<f64>) -> Joined
        ensures { joint_view result ≡ produced_of binary64 p self.every (one_more self.since) }
    {
        let since = one_more(self.since);
        if due(self.every, since) {
            return Running { since: 0, ..self }.stand(p.renormalized());
        }
        Running { since, ..self }.stand(p)
    }

    // The first pose becomes the running pose, and is not a product; a further one is multiplied by the running pose
    // from the left, where up is e^sigma of the running pose. If the frames do not match (9), nothing changes.
    #[tactic(auto, unfolding(crate::specs::Running::join_on, crate::specs::Running::product_on))]
    pub fn join(self, x: Pose<f64>, up: f64) -> Joined
        ensures { joint_view result ≡ join_of binary64 self x up }
    {
        match self.pose {
            None => self.stand(x),
            Some(p) => match p.mul(x, up) {
                Ok(y) => self.produced(y),
                Err(refusal) => Joined {
                    running: self,
                    answer: Err(refusal),
                },
            },
        }
    }

    // Renormalise after every nth product from now on. The pose and the count stay as they are.
    pub fn set_every(&mut self, n: u16)
        ensures { self.new ≡ every_of self.old n }
    {
        self.every = n;
    }
}

// `Pose::renormalized` on every pose of a borrowed list; nothing else changes.
pub fn renormalize_all(poses: &mut [Pose<f64>])
    ensures { poses.new ≡ all_renormalized binary64 poses.old }
{
    for p in poses.iter_mut() {
        *p = p.renormalized();
    }
}
