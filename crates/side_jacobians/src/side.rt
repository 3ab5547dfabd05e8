// The Jacobians of both sides: right, X Exp(tau), and left, Exp(tau) X. The two sides read different function values,
// so there is one function for each.
ghost use Rattle.std.specs.Prelude.{◌≡◌};
ghost use Rattle.side_jacobians.specs.Blocks.{jac_jl, jl_and_inverse};
ghost use Rattle.side_jacobians.specs.Side.{pose_adjoint, tangent_ad, jac_jr, jac_jl_inv, jac_jr_inv, exp_and_jl};
ghost use Rattle.side_jacobians.specs.Side.{lplus_jacobians, rplus_jacobians, act_jacobians_right, act_jacobians_left};
ghost use Rattle.side_jacobians.specs.Side.{pose_inverse_adjoint, compose_jacobians_right, compose_jacobians_left};
ghost use Rattle.side_jacobians.specs.Side.{inverse_jacobian_right, inverse_jacobian_left};
ghost use Rattle.linalg.specs.Floats.{as_mat3, as_vec3};
ghost use Rattle.jacobian.specs.Floats.{as_sim3_jac};
ghost use Rattle.side_jacobians.specs.Floats.{as_act_jacobians, as_exp_and_jl, as_jac_and_inverse, as_two_jacobians};
ghost use Rattle.sim3.specs.Floats.{as_sim3, as_sim3_tangent};
ghost use Rattle.arms.specs.Floats.{as_values};

use crate::blocks::{JacAndInverse, jl_and_inverse_from, jl_blocks_with};
use arms::values::Values;
use coeffs::width::Width;
use ieee::Real;
use jacobian::jac::Sim3Jac;
use linalg::matrix::{Mat3, hat, hat_mul, mul_hat};
use linalg::vector::Vec3;
use series::sim3::{Coeffs4, Sim3Coeffs};
use sim3::sim3::Sim3;
use sim3::tangent::Sim3Tangent;

// The Jacobian of the action by the tangent, three rows of (rot, trans, scale), and by the point.
#[derive(Drop)]
pub struct ActJacobians<T> {
    pub rot: Mat3<T>,
    pub trans: Mat3<T>,
    pub scale: Vec3<T>,
    pub point: Mat3<T>,
}

// The Jacobians by the first and by the second operand.
#[derive(Drop)]
pub struct TwoJacobians<T> {
    pub first: Sim3Jac<T>,
    pub second: Sim3Jac<T>,
}

// The exponential, as a pose without frames or with them, and J_l.
#[derive(Drop)]
pub struct ExpAndJl<X, T> {
    pub x: X,
    pub jl: Sim3Jac<T>,
}

// Ad_X = [R 0 0; hat(t) R, s R, -t; 0 0 1]; up is e^sigma of x.
#[tactic(auto, unfolding(crate::specs::Side::pose_adjoint))]
pub fn adjoint<T: Real>(x: Sim3<T>, up: T) -> Sim3Jac<T>
    ensures { as_sim3_jac T.float result ≡ pose_adjoint T.format (as_sim3 T.float x) (T.float up) }
{
    let q = x.q;
    let t = x.t;
    let r = q.to_matrix();
    Sim3Jac {
        a: r,
        b: hat_mul(t, r),
        c: r.scale(up),
        f: t.neg(),
        e: T::of(1.0),
    }
}

// ad_tau = [W 0 0; Xi, W + sigma I, -rho; 0 0 0].
#[tactic(auto, unfolding(crate::specs::Side::tangent_ad))]
pub fn ad<T: Real>(tau: Sim3Tangent<T>) -> Sim3Jac<T>
    ensures { as_sim3_jac T.float result ≡ tangent_ad T.format (as_sim3_tangent T.float tau) }
{
    let rho = tau.rho;
    let w = hat(tau.phi);
    let b = hat(rho);
    Sim3Jac {
        a: w,
        b,
        c: w.add(Mat3::identity().scale(tau.sigma)),
        f: rho.neg(),
        e: T::of(0.0),
    }
}

// J_l(tau), with the values of tau and J_l(phi).
#[tactic(auto, unfolding(crate::specs::Blocks::jac_jl))]
pub fn jl<T: Width>(tau: Sim3Tangent<T>, v: Values<T>, jl_phi: Mat3<T>) -> Sim3Jac<T>
    ensures { as_sim3_jac T.float result
        ≡ jac_jl T.format (as_sim3_tangent T.float tau) (as_values T.float v) (as_mat3 T.float jl_phi) }
{
    let c = coeffs::sim3::sim3_coeffs_of(tau.phi, tau.sigma, v);
    jl_blocks_with(tau, c, jl_phi)
}

// J_r(tau) = J_l(-tau), with the values of -tau and J_l(-phi).
#[tactic(auto, unfolding(crate::specs::Side::jac_jr))]
pub fn jr<T: Width>(tau: Sim3Tangent<T>, v: Values<T>, jl_phi: Mat3<T>) -> Sim3Jac<T>
    ensures { as_sim3_jac T.float result
        ≡ jac_jr T.format (as_sim3_tangent T.float tau) (as_values T.float v) (as_mat3 T.float jl_phi) }
{
    jl(tau.neg(), v, jl_phi)
}

// J_l(tau) and its inverse, with the values of tau, J_l(phi) and its inverse.
#[tactic(auto, unfolding(crate::specs::Blocks::jl_and_inverse))]
pub fn jl_and_inverse<T: Width>(
    tau: Sim3Tangent<T>,
    v: Values<T>,
    jl_phi: Mat3<T>,
    jl_inv: Mat3<T>,
) -> JacAndInverse<T>
    ensures { as_jac_and_inverse T.float result
        ≡ jl_and_inverse T.format (as_sim3_tangent T.float tau) (as_values T.float v) (as_mat3 T.float jl_phi)
        (as_mat3 T.float jl_inv) }
{
    let phi = tau.phi;
    let s = coeffs::sim3::sim3_coeffs_scaled_of(phi, tau.sigma, v);
    jl_and_inverse_from(tau, phi.norm_sq(), s, jl_phi, jl_inv, v.up, v.down)
}

// J_l(tau)^-1 alone.
#[tactic(auto, unfolding(crate::specs::Side::jac_jl_inv))]
pub fn jl_inv<T: Width>(
    tau: Sim3Tangent<T>,
    v: Values<T>,
    jl_phi: Mat3<T>,
    jl_phi_inv: Mat3<T>,
) -> Sim3Jac<T>
    ensures { as_sim3_jac T.float result
        ≡ jac_jl_inv T.format (as_sim3_tangent T.float tau) (as_values T.float v) (as_mat3 T.float jl_phi)
        (as_mat3 T.float jl_phi_inv) }
{
    jl_and_inverse(tau, v, jl_phi, jl_phi_inv).inv
}

// J_r(tau)^-1 = J_l(-tau)^-1, with the values of -tau, J_l(-phi) and its inverse.
#[tactic(auto, unfolding(crate::specs::Side::jac_jr_inv))]
pub fn jr_inv<T: Width>(
    tau: Sim3Tangent<T>,
    v: Values<T>,
    jl_phi: Mat3<T>,
    jl_phi_inv: Mat3<T>,
) -> Sim3Jac<T>
    ensures { as_sim3_jac T.float result
        ≡ jac_jr_inv T.format (as_sim3_tangent T.float tau) (as_values T.float v) (as_mat3 T.float jl_phi)
        (as_mat3 T.float jl_phi_inv) }
{
    jl_inv(tau.neg(), v, jl_phi, jl_phi_inv)
}

// (Exp tau, J_l(tau)) from one evaluation of the coefficients.
#[tactic(auto, unfolding(crate::proofs::Unfolds::exp_and_jl_unfolds))]
pub fn exp_and_jl<T: Width>(
    tau: Sim3Tangent<T>,
    v: Values<T>,
    jl_phi: Mat3<T>,
) -> ExpAndJl<Sim3<T>, T>
    ensures { as_exp_and_jl T.float result
        ≡ exp_and_jl T.format (as_sim3_tangent T.float tau) (as_values T.float v) (as_mat3 T.float jl_phi) }
{
    let phi = tau.phi;
    let c = coeffs::sim3::sim3_coeffs_of(phi, tau.sigma, v);
    let Sim3Coeffs {
        v0,
        v1,
        v2,
        chi_delta,
        ..
    } = c;
    let c4 = Coeffs4 {
        v0,
        v1,
        v2,
        chi_delta,
    };
    let x = Sim3 {
        q: so3::so3::exp(phi, v.root, v.sin_half, v.cos_half),
        t: sim3::sim3::v_apply(phi, tau.sigma, c4, tau.rho),
        sigma: tau.sigma,
    };
    ExpAndJl {
        x,
        jl: jl_blocks_with(tau, c, jl_phi),
    }
}

// (Ad_Exp(tau), J_l(tau)), of Exp(tau) X by X and by tau.
#[tactic(auto, unfolding(crate::specs::Side::lplus_jacobians, crate::specs::Side::exp_and_jl))]
pub fn lplus_jacobians<T: Width>(
    tau: Sim3Tangent<T>,
    v: Values<T>,
    jl_phi: Mat3<T>,
) -> TwoJacobians<T>
    ensures { as_two_jacobians T.float result
        ≡ lplus_jacobians T.format (as_sim3_tangent T.float tau) (as_values T.float v) (as_mat3 T.float jl_phi) }
{
    let both = exp_and_jl(tau, v, jl_phi);
    TwoJacobians {
        first: adjoint(both.x, v.up),
        second: both.jl,
    }
}

// (Ad_Exp(tau)^-1, J_r(tau)), of X Exp(tau) by X and by tau, with the values of -tau and J_l(-phi).
#[tactic(auto, unfolding(crate::specs::Side::rplus_jacobians))]
pub fn rplus_jacobians<T: Width>(
    tau: Sim3Tangent<T>,
    v: Values<T>,
    jl_phi: Mat3<T>,
) -> TwoJacobians<T>
    ensures { as_two_jacobians T.float result
        ≡ rplus_jacobians T.format (as_sim3_tangent T.float tau) (as_values T.float v) (as_mat3 T.float jl_phi) }
{
    lplus_jacobians(tau.neg(), v, jl_phi)
}

// Right: ([-s R hat(p), s R, s R p], s R).
#[tactic(auto, unfolding(crate::specs::Side::act_jacobians_right))]
pub fn act_jacobians_right<T: Real>(x: Sim3<T>, up: T, p: Vec3<T>) -> ActJacobians<T>
    ensures { as_act_jacobians T.float result
        ≡ act_jacobians_right T.format (as_sim3 T.float x) (T.float up) (as_vec3 T.float p) }
{
    let q = x.q;
    let sr = q.to_matrix().scale(up);
    ActJacobians {
        rot: mul_hat(sr, p).neg(),
        trans: sr,
        scale: sr.mul_vec(p),
        point: sr,
    }
}

// Left: ([-hat(X p), I, X p], s R).
#[tactic(auto, unfolding(crate::specs::Side::act_jacobians_left))]
pub fn act_jacobians_left<T: Real>(x: Sim3<T>, up: T, p: Vec3<T>) -> ActJacobians<T>
    ensures { as_act_jacobians T.float result
        ≡ act_jacobians_left T.format (as_sim3 T.float x) (T.float up) (as_vec3 T.float p) }
{
    let q = x.q;
    let xp = x.act(up, p);
    ActJacobians {
        rot: hat(xp).neg(),
        trans: Mat3::identity(),
        scale: xp,
        point: q.to_matrix().scale(up),
    }
}

// Ad of x^-1; down is e^-sigma of x.
#[tactic(auto, unfolding(crate::specs::Side::pose_inverse_adjoint))]
fn inverse_adjoint<T: Real>(x: Sim3<T>, down: T) -> Sim3Jac<T>
    ensures { as_sim3_jac T.float result ≡ pose_inverse_adjoint T.format (as_sim3 T.float x) (T.float down) }
{
    adjoint(x.inverse(down), down)
}

// Right: (Ad_Y^-1, I) of the product X Y; down is e^-sigma of Y.
#[tactic(auto, unfolding(crate::specs::Side::compose_jacobians_right))]
pub fn compose_jacobians_right<T: Real>(y: Sim3<T>, down: T) -> TwoJacobians<T>
    ensures { as_two_jacobians T.float result ≡ compose_jacobians_right T.format (as_sim3 T.float y) (T.float down) }
{
    TwoJacobians {
        first: inverse_adjoint(y, down),
        second: Sim3Jac::identity(),
    }
}

// Left: (I, Ad_X) of the product X Y; up is e^sigma of X.
#[tactic(auto, unfolding(crate::specs::Side::compose_jacobians_left))]
pub fn compose_jacobians_left<T: Real>(x: Sim3<T>, up: T) -> TwoJacobians<T>
    ensures { as_two_jacobians T.float result ≡ compose_jacobians_left T.format (as_sim3 T.float x) (T.float up) }
{
    TwoJacobians {
        first: Sim3Jac::identity(),
        second: adjoint(x, up),
    }
}

// Right: -Ad_X; up is e^sigma of x.
#[tactic(auto, unfolding(crate::specs::Side::inverse_jacobian_right))]
pub fn inverse_jacobian_right<T: Real>(x: Sim3<T>, up: T) -> Sim3Jac<T>
    ensures { as_sim3_jac T.float result ≡ inverse_jacobian_right T.format (as_sim3 T.float x) (T.float up) }
{
    adjoint(x, up).neg()
}

// Left: -Ad_X^-1; down is e^-sigma of x.
#[tactic(auto, unfolding(crate::specs::Side::inverse_jacobian_left))]
pub fn inverse_jacobian_left<T: Real>(x: Sim3<T>, down: T) -> Sim3Jac<T>
    ensures { as_sim3_jac T.float result ≡ inverse_jacobian_left T.format (as_sim3 T.float x) (T.float down) }
{
    inverse_adjoint(x, down).neg()
}
