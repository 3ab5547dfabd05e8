// Poses with their frames: a pose maps points of the frame `from` to points of the frame `to`. Poses are joined only if
// the frames match. Proved: the numbers are those of crate sim3, whose argument orders are kept, and frames behave like
// those of maps (FramesLaws). The action and the Jacobians read no frame, and take `x.sim3`. Rests on sim3.
#![tactic(auto)]

ghost use Rattle.std.specs.Prelude.{◌≡◌};
ghost use Rattle.sim3.specs.Pose.{pose};
ghost use Rattle.frames.specs.Pose.{framed, framed_identity, framed_exp, framed_inverse, framed_renormalized};
ghost use Rattle.frames.specs.Pose.{framed_rplus, framed_lplus};
ghost use Rattle.frames.specs.Joins.{meets, framed_mul, framed_mul_inv, framed_inv_mul};
ghost use Rattle.linalg.specs.Answer.{view};
ghost use Rattle.arms.specs.Floats.{as_values};
ghost use Rattle.linalg.specs.Floats.{as_vec3};
ghost use Rattle.so3.specs.Floats.{as_quat};
ghost use Rattle.sim3.specs.Floats.{as_sim3, as_sim3_tangent};
ghost use Rattle.frames.specs.Floats.{as_pose};

use arms::values::Values;
use coeffs::width::Width;
use ieee::Real;
use linalg::refusal::Refusal;
use linalg::vector::Vec3;
use sim3::sim3::Sim3;
use sim3::tangent::Sim3Tangent;
use so3::quat::{Quat, Renormalize};

#[derive(Clone, Copy)]
pub struct Pose<T> {
    pub sim3: Sim3<T>,
    pub from: u16,
    pub to: u16,
}

// The two frames of a result that is made from no pose.
#[derive(Clone, Copy, PartialEq, Eq)]
pub struct Frames {
    pub from: u16,
    pub to: u16,
}

fn between<T: Real>(sim3: Sim3<T>, frames: Frames) -> Pose<T>
    ensures { as_pose T.float result ≡ framed (as_sim3 T.float sim3) frames.from frames.to }
{
    Pose {
        sim3,
        from: frames.from,
        to: frames.to,
    }
}

// A product's numbers and frames, if the frames a and b, which must match, are equal.
// PERF (D122): it and `mul` are inlined into their callers, since a call would copy the poses.
#[inline(always)]
fn joined<T: Real>(a: u16, b: u16, sim3: Sim3<T>, frames: Frames) -> Result<Pose<T>, Refusal>
    ensures { view (as_pose T.float) result ≡ meets a b (framed (as_sim3 T.float sim3) frames.from frames.to) }
{
    if a == b {
        Ok(between(sim3, frames))
    } else {
        Err(Refusal::FramesDiffer)
    }
}

impl<T: Real> Pose<T> {
    // (R, t, sigma) and the frames.
    pub fn from_parts(q: Quat<T>, t: Vec3<T>, sigma: T, frames: Frames) -> Pose<T>
        ensures { as_pose T.float result
            ≡ framed (pose (as_quat T.float q) (as_vec3 T.float t) (T.float sigma)) frames.from frames.to }
    {
        between(Sim3::from_parts(q, t, sigma), frames)
    }

    #[tactic(auto, unfolding(crate::specs::Pose::framed_identity))]
    pub fn identity(frames: Frames) -> Pose<T>
        ensures { as_pose T.float result ≡ framed_identity frames.from frames.to }
    {
        between(Sim3::identity(), frames)
    }

    // X Y, where X starts from the frame where Y ends; up is e^sigma of X. PERF (D122): see `joined`.
    #[inline(always)]
    #[tactic(auto, unfolding(crate::specs::Joins::framed_mul))]
    pub fn mul(self, other: Pose<T>, up: T) -> Result<Pose<T>, Refusal>
        ensures { view (as_pose T.float) result
            ≡ framed_mul T.format (as_pose T.float self) (as_pose T.float other) (T.float up) }
    {
        let frames = Frames {
            from: other.from,
            to: self.to,
        };
        joined(self.from, other.to, self.sim3.mul(other.sim3, up), frames)
    }

    // X^-1, back from `to` to `from`; down is e^-sigma.
    #[tactic(auto, unfolding(crate::specs::Pose::framed_inverse))]
    pub fn inverse(self, down: T) -> Pose<T>
        ensures { as_pose T.float result ≡ framed_inverse T.format (as_pose T.float self) (T.float down) }
    {
        Pose {
            sim3: self.sim3.inverse(down),
            from: self.to,
            to: self.from,
        }
    }

    // X Y^-1, where both start from one frame; ds is the exponential of the difference of the two
    // log scales.
    #[tactic(auto, unfolding(crate::specs::Joins::framed_mul_inv))]
    pub fn mul_inv(self, other: Pose<T>, ds: T) -> Result<Pose<T>, Refusal>
        ensures { view (as_pose T.float) result
            ≡ framed_mul_inv T.format (as_pose T.float self) (as_pose T.float other) (T.float ds) }
    {
        let to = self.to;
        let frames = Frames { from: other.to, to };
        joined(
            self.from,
            other.from,
            self.sim3.mul_inv(other.sim3, ds),
            frames,
        )
    }

    // Y^-1 X, where both end in one frame; down is e^-sigma of Y.
    #[tactic(auto, unfolding(crate::specs::Joins::framed_inv_mul))]
    pub fn inv_mul(self, other: Pose<T>, down: T) -> Result<Pose<T>, Refusal>
        ensures { view (as_pose T.float) result
            ≡ framed_inv_mul T.format (as_pose T.float self) (as_pose T.float other) (T.float down) }
    {
        let to = other.from;
        let frames = Frames {
            from: self.from,
            to,
        };
        joined(
            self.to,
            other.to,
            self.sim3.inv_mul(other.sim3, down),
            frames,
        )
    }
}

impl<T: Width> Pose<T> {
    // Exp tau, with the frames that the caller passes.
    #[tactic(auto, unfolding(crate::specs::Pose::framed_exp))]
    pub fn exp(tau: Sim3Tangent<T>, v: Values<T>, frames: Frames) -> Pose<T>
        ensures { as_pose T.float result
            ≡ framed_exp T.format (as_sim3_tangent T.float tau) (as_values T.float v) frames.from frames.to }
    {
        between(Sim3::exp(tau, v), frames)
    }

    // X Exp(tau), which keeps the frames; up is e^sigma of X, v the values of tau.
    #[tactic(auto, unfolding(crate::specs::Pose::framed_rplus))]
    pub fn rplus(self, up: T, tau: Sim3Tangent<T>, v: Values<T>) -> Pose<T>
        ensures { as_pose T.float result
            ≡ framed_rplus T.format (as_pose T.float self) (T.float up) (as_sim3_tangent T.float tau)
            (as_values T.float v) }
    {
        Pose {
            sim3: self.sim3.rplus(up, tau, v),
            ..self
        }
    }

    // Exp(tau) X, which keeps the frames; v the values of tau.
    #[tactic(auto, unfolding(crate::specs::Pose::framed_lplus))]
    pub fn lplus(self, tau: Sim3Tangent<T>, v: Values<T>) -> Pose<T>
        ensures { as_pose T.float result
            ≡ framed_lplus T.format (as_pose T.float self) (as_sim3_tangent T.float tau) (as_values T.float v) }
    {
        Pose {
            sim3: self.sim3.lplus(tau, v),
            ..self
        }
    }
}

impl<T: Real> Renormalize for Pose<T> {
    ghost renormalizes = { λ x y. as_pose T.float y ≡ framed_renormalized T.format (as_pose T.float x) };

    // The quaternion's Newton step; the frames stay.
    #[tactic(auto, unfolding(crate::specs::Pose::framed_renormalized))]
    fn renormalized(self) -> Pose<T>
        ensures { as_pose T.float result ≡ framed_renormalized T.format (as_pose T.float self) }
    {
        Pose {
            sim3: self.sim3.renormalized(),
            ..self
        }
    }
}
