// J_l of the exponential and its inverse by blocks, from the coefficients at (sigma, |phi|^2), the
// rotation Jacobian of phi and its inverse.
ghost use Rattle.std.specs.Prelude.{◌≡◌};
ghost use Rattle.side_jacobians.specs.Blocks.{mat_outer, poly_matrix, inv_coeffs, jl_q, jl_blocks, jl_and_inverse_from};
ghost use Rattle.linalg.specs.Floats.{as_mat3, as_vec3};
ghost use Rattle.series.specs.Floats.{as_sim3_coeffs};
ghost use Rattle.jacobian.specs.Floats.{as_sim3_jac};
ghost use Rattle.coeffs.specs.Floats.{as_scaled};
ghost use Rattle.sim3.specs.Floats.{as_three};
ghost use Rattle.side_jacobians.specs.Floats.{as_jac_and_inverse};

use coeffs::sim3::Scaled;
use coeffs::width::Width;
use ieee::Real;
use jacobian::jac::Sim3Jac;
use linalg::matrix::{Mat3, hat, hat_mul, mul_hat};
use linalg::vector::Vec3;
use series::sim3::Sim3Coeffs;
use sim3::sim3::{Three, combine};
use sim3::tangent::Sim3Tangent;

#[derive(Drop)]
pub struct JacAndInverse<T> {
    pub j: Sim3Jac<T>,
    pub inv: Sim3Jac<T>,
}

// u v^T.
#[tactic(auto, unfolding(crate::specs::Blocks::mat_outer))]
fn outer<T: Real>(u: Vec3<T>, v: Vec3<T>) -> Mat3<T>
    ensures { as_mat3 T.float result ≡ mat_outer T.format (as_vec3 T.float u) (as_vec3 T.float v) }
{
    Mat3 {
        c0: u.scale(v.x),
        c1: u.scale(v.y),
        c2: u.scale(v.z),
    }
}

// x0 I + x1 W + x2 W^2, W = hat(phi), as a matrix.
#[tactic(auto, unfolding(crate::specs::Blocks::poly_matrix))]
fn poly<T: Real>(phi: Vec3<T>, x: Three<T>) -> Mat3<T>
    ensures { as_mat3 T.float result ≡ poly_matrix T.format (as_vec3 T.float phi) (as_three T.float x) }
{
    let w = hat(phi);
    let a = Mat3::identity().scale(x.x0);
    let b = w.scale(x.x1);
    let c = mul_hat(w, phi).scale(x.x2);
    a.add(b).add(c)
}

// The coefficients of V^-1 from those of V: chi = v0 - z v2, lambda = chi^2 + z v1^2.
#[tactic(auto, unfolding(crate::specs::Blocks::inv_coeffs))]
fn inv_coeffs<T: Real>(v: Three<T>, z: T) -> Three<T>
    ensures { as_three T.float result ≡ inv_coeffs T.format (as_three T.float v) (T.float z) }
{
    let v0 = v.x0;
    let v1 = v.x1;
    let v2 = v.x2;
    let chi = v0 - z * v2;
    let lambda = chi * chi + z * (v1 * v1);
    Three {
        x0: T::of(1.0) / v0,
        x1: -(v1 / lambda),
        x2: (v1 * v1 - v2 * chi) / (v0 * lambda),
    }
}

// The block b of J_l: Q = hat(V rho) J_l(phi) + 2 (dv1 mu + dv2 nu) phi^T - v1 Xi + v2 (Xi W - 2 W Xi).
fn q_block<T: Real>(tau: Sim3Tangent<T>, c: Sim3Coeffs<T>, jl: Mat3<T>) -> Mat3<T>
    ensures { as_mat3 T.float result
        ≡ jl_q T.format (as_vec3 T.float tau.phi) (as_vec3 T.float tau.rho) (as_sim3_coeffs T.float c)
        (as_mat3 T.float jl) }
{
    let phi = tau.phi;
    let rho = tau.rho;
    let w = hat(phi);
    let xi = hat(rho);
    let mu = phi.cross(rho);
    let nu = phi.cross(mu);
    let y = combine(Three::from(c), rho, mu, nu);
    let dy = mu
        .scale(T::of(2.0) * c.dv1)
        .add(nu.scale(T::of(2.0) * c.dv2));
    let head = hat_mul(y, jl).add(outer(dy, phi)).sub(xi.scale(c.v1));
    let tail = xi.mul(w).sub(w.mul(xi).scale(T::of(2.0))).scale(c.v2);
    head.add(tail)
}

// J_l(tau) from the unscaled coefficients and J_l(phi).
#[tactic(auto, unfolding(crate::specs::Blocks::jl_blocks))]
pub fn jl_blocks_with<T: Real>(tau: Sim3Tangent<T>, c: Sim3Coeffs<T>, jl: Mat3<T>) -> Sim3Jac<T>
    ensures { as_sim3_jac T.float result
        ≡ jl_blocks T.format (as_vec3 T.float tau.phi) (as_vec3 T.float tau.rho) (as_sim3_coeffs T.float c)
        (as_mat3 T.float jl) }
{
    let phi = tau.phi;
    let rho = tau.rho;
    let mu = phi.cross(rho);
    let nu = phi.cross(mu);
    let w = Three {
        x0: c.w0,
        x1: c.w1,
        x2: c.w2,
    };
    let gamma = combine(w, rho, mu, nu);
    Sim3Jac {
        a: jl,
        b: q_block(tau, c, jl),
        c: poly(phi, Three::from(c)),
        f: gamma.neg(),
        e: T::of(1.0),
    }
}

// J_l(tau) and its inverse from the coefficients as their arm forms them at z: c of the inverse from
// the scaled v, e^-sigma applied last; b and f from the unscaled block.
#[tactic(auto, unfolding(crate::specs::Blocks::jl_and_inverse_from))]
pub fn jl_and_inverse_from<T: Width>(
    tau: Sim3Tangent<T>,
    z: T,
    s: Scaled<Sim3Coeffs<T>>,
    jl: Mat3<T>,
    jl_inv: Mat3<T>,
    up: T,
    down: T,
) -> JacAndInverse<T>
    ensures { as_jac_and_inverse T.float result
        ≡ jl_and_inverse_from T.format (as_vec3 T.float tau.phi) (as_vec3 T.float tau.rho) (T.float z)
        (as_scaled T.float s) (as_mat3 T.float jl) (as_mat3 T.float jl_inv) (T.float up) (T.float down) }
{
    let c = s.c;
    let j = jl_blocks_with(tau, s.unscale(up), jl);
    let inv_scale = ieee::pick(s.scaled, down, T::of(1.0));
    let ci = poly(tau.phi, inv_coeffs(Three::from(c), z)).scale(inv_scale);
    let b = ci.mul(j.b).mul(jl_inv).neg();
    let f = ci.mul_vec(j.f).neg();
    let inv = Sim3Jac {
        a: jl_inv,
        b,
        c: ci,
        f,
        e: T::of(1.0),
    };
    JacAndInverse { j, inv }
}
