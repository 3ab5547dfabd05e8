// The exponential as a pose with its frames, together with its left Jacobian. No pose is an argument, so the caller
// passes both frames; the Jacobian reads neither. Proved: the numbers are those of crate side_jacobians. Rests on that
// and on frames.
#![tactic(auto)]

ghost use Rattle.std.specs.Prelude.{◌≡◌};
ghost use Rattle.framed_jacobian.specs.ExpAndJl.{framed_exp_and_jl};
ghost use Rattle.sim3.specs.Floats.{as_sim3_tangent};
ghost use Rattle.linalg.specs.Floats.{as_mat3};
ghost use Rattle.framed_jacobian.specs.Floats.{as_pose_and_jl};
ghost use Rattle.arms.specs.Floats.{as_values};

use arms::values::Values;
use coeffs::width::Width;
use frames::{Frames, Pose};
use linalg::matrix::Mat3;
use side_jacobians::side::ExpAndJl;
use sim3::tangent::Sim3Tangent;

// (Exp tau, J_l(tau)) from one evaluation of the coefficients, with the values of tau and J_l(phi).
#[tactic(auto, unfolding(crate::proofs::Unfolds::exp_and_jl_unfolds))]
pub fn exp_and_jl<T: Width>(
    tau: Sim3Tangent<T>,
    v: Values<T>,
    jl_phi: Mat3<T>,
    frames: Frames,
) -> ExpAndJl<Pose<T>, T>
    ensures { as_pose_and_jl T.float result
        ≡ framed_exp_and_jl T.format (as_sim3_tangent T.float tau) (as_values T.float v) (as_mat3 T.float jl_phi)
        frames.from frames.to }
{
    let both = side_jacobians::side::exp_and_jl(tau, v, jl_phi);
    let Frames { from, to } = frames;
    ExpAndJl {
        x: Pose {
            sim3: both.x,
            from,
            to,
        },
        jl: both.jl,
    }
}
