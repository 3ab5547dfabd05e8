// How far the engine's answers are from exact ones, tied to its functions: each function here makes one call,
// and its contract is what is proved of that call's rounding and truncation errors. It rests on the call's own
// contract and on nothing else, so a weaker contract there would leave it unproved. The running join's stands
// in crate running_accuracy.
#![tactic(auto)]

ghost use Rattle.accuracy.specs.Action.{ActionAccurate};
ghost use Rattle.accuracy.specs.Norm.{NormAccurate, NormRelative};
ghost use Rattle.accuracy.specs.Rotation.{TrueActionAccurate};
ghost use Rattle.accuracy.specs.Exponential.{ExponentialAccurate};
ghost use Rattle.error_bounds.specs.Blocks.{BlocksAccurate, LeftJacobianAccurate};
ghost use Rattle.error_bounds.specs.InverseBlocks.{InverseVAccurate, InverseBlocksAccurate};
ghost use Rattle.error_bounds.specs.ManyPoints.{PointsAccurate};
ghost use Rattle.error_bounds.specs.Poses.{MulAccurate, InversePoseAccurate, RenormalizedPoseAccurate};
ghost use Rattle.error_bounds.specs.Poses.{CoefficientsAnswered};
ghost use Rattle.linalg.specs.Answer.{answer, view};
ghost use Rattle.sim3.specs.Floats.{as_sim3, as_sim3_tangent};
ghost use Rattle.arms.specs.Floats.{as_values};
ghost use Rattle.coeffs.specs.Floats.{as_scaled};
ghost use Rattle.jacobian.specs.Floats.{as_sim3_jac};
ghost use Rattle.linalg.specs.Floats.{as_mat3, as_vec3};
ghost use Rattle.series.specs.Floats.{as_sim3_coeffs};

use arms::values::Values;
use coeffs::sim3::Scaled;
use coeffs::width::Width;
use ieee::Real;
use jacobian::jac::Sim3Jac;
use linalg::matrix::Mat3;
use linalg::refusal::Refusal;
use linalg::vector::Vec3;
use point_lists::PointWidth;
use series::sim3::Sim3Coeffs;
use sim3::sim3::Sim3;
use sim3::tangent::Sim3Tangent;
use so3::quat::Renormalize;

// s R p + t, up being e^sigma of x.
pub fn act<T: Width>(x: Sim3<T>, up: T, p: Vec3<T>) -> Vec3<T>
    ensures formula { ActionAccurate T.format (as_sim3 T.float x) (T.float up) (as_vec3 T.float p)
        (as_vec3 T.float result) }
    ensures similarity { TrueActionAccurate T.format (as_sim3 T.float x) (T.float up) (as_vec3 T.float p)
        (as_vec3 T.float result) }
{
    x.act(up, p)
}

// out = s R p + t for every triple p of pts, by the matrix s R formed once, or refusal 5; up is e^sigma of x.
pub fn act_many<T: PointWidth>(x: Sim3<T>, up: T, pts: &[T], out: &mut [T]) -> Result<(), Refusal>
    ensures { PointsAccurate T.format (as_sim3 T.float x) (T.float up) (T.floats pts.now) (answer result)
        (T.floats out.new) }
{
    point_lists::act_many(x, up, pts, out)
}

// |v|^2.
pub fn norm_sq<T: Width>(v: Vec3<T>) -> T
    ensures absolute { NormAccurate T.format (as_vec3 T.float v) (T.float result) }
    ensures relative { NormRelative T.format (as_vec3 T.float v) (T.float result) }
{
    v.norm_sq()
}

// X Y, up being e^sigma of x.
pub fn mul<T: Width>(x: Sim3<T>, y: Sim3<T>, up: T) -> Sim3<T>
    ensures { MulAccurate T.format (as_sim3 T.float x) (as_sim3 T.float y) (T.float up) (as_sim3 T.float result) }
{
    x.mul(y, up)
}

// X^-1, down being e^-sigma of x.
pub fn inverse<T: Width>(x: Sim3<T>, down: T) -> Sim3<T>
    ensures { InversePoseAccurate T.format (as_sim3 T.float x) (T.float down) (as_sim3 T.float result) }
{
    x.inverse(down)
}

// x with the Newton step of its quaternion.
pub fn renormalized<T: Width>(x: Sim3<T>) -> Sim3<T>
    ensures { RenormalizedPoseAccurate T.format (as_sim3 T.float x) (as_sim3 T.float result) }
{
    x.renormalized()
}

// Exp(tau).
pub fn exp<T: Width>(tau: Sim3Tangent<T>, v: Values<T>) -> Sim3<T>
    ensures { ExponentialAccurate T.format (as_sim3_tangent T.float tau) (as_sim3 T.float result) }
{
    Sim3::exp(tau, v)
}

// The coefficients at sigma and z, or refusal 1.
pub fn coefficients<T: Width>(
    sigma: T,
    z: T,
    v: Values<T>,
) -> Result<Scaled<Sim3Coeffs<T>>, Refusal>
    ensures { CoefficientsAnswered T.format (T.float sigma) (T.float z) (as_values T.float v)
        (view (as_scaled T.float) result) }
{
    coeffs::sim3::sim3_coeffs_scaled(sigma, z, v)
}

// J_l(tau), with the values of tau and J_l(phi).
pub fn left_jacobian<T: Width>(tau: Sim3Tangent<T>, v: Values<T>, jl: Mat3<T>) -> Sim3Jac<T>
    ensures { LeftJacobianAccurate T.format (as_sim3_tangent T.float tau) (as_mat3 T.float jl)
        (as_sim3_jac T.float result) }
{
    side_jacobians::side::jl(tau, v, jl)
}

// The same from the unscaled coefficients.
pub fn left_jacobian_from<T: Real>(tau: Sim3Tangent<T>, c: Sim3Coeffs<T>, jl: Mat3<T>) -> Sim3Jac<T>
    ensures { BlocksAccurate T.format (as_vec3 T.float tau.phi) (as_vec3 T.float tau.rho) (as_sim3_coeffs T.float c)
        (as_mat3 T.float jl) (as_sim3_jac T.float result) }
{
    side_jacobians::blocks::jl_blocks_with(tau, c, jl)
}

// J_l(tau)^-1, with the values of tau, J_l(phi) and its inverse.
pub fn left_jacobian_inverse<T: Width>(
    tau: Sim3Tangent<T>,
    v: Values<T>,
    jl: Mat3<T>,
    jl_inv: Mat3<T>,
) -> Sim3Jac<T>
    ensures v { InverseVAccurate T.format (as_sim3_tangent T.float tau) (as_mat3 T.float result.c) }
    ensures blocks { InverseBlocksAccurate T.format (as_sim3_tangent T.float tau) (as_mat3 T.float jl)
        (as_mat3 T.float jl_inv) (as_sim3_jac T.float result) }
{
    side_jacobians::side::jl_inv(tau, v, jl, jl_inv)
}
