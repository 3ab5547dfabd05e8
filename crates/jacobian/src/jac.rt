// A Sim(3) Jacobian: the matrix with the rows (a, 0, 0), (b, c, f), (0, 0, e).
ghost use Rattle.std.specs.Prelude.{◌≡◌};
ghost use Rattle.jacobian.specs.Jac.{jac_identity, jac_mul, jac_inverse_answer, jac_neg, jac_add, jac_scale, jac_apply};
ghost use Rattle.jacobian.specs.Jac.{jac_apply_transpose};
ghost use Rattle.linalg.specs.Answer.{view};
ghost use Rattle.sim3.specs.Floats.{as_sim3_tangent};
ghost use Rattle.jacobian.specs.Floats.{as_sim3_jac};

use arms::values::at_zero;
use ieee::Real;
use linalg::matrix::Mat3;
use linalg::refusal::Refusal;
use linalg::vector::Vec3;
use sim3::tangent::{Sim3Tangent, zero_vector};

#[derive(Clone, Copy)]
pub struct Sim3Jac<T> {
    pub a: Mat3<T>,
    pub b: Mat3<T>,
    pub c: Mat3<T>,
    pub f: Vec3<T>,
    pub e: T,
}

impl<T: Real> Sim3Jac<T> {
    #[tactic(auto, unfolding(crate::specs::Jac::jac_identity))]
    pub fn identity() -> Sim3Jac<T>
        ensures { as_sim3_jac T.float result ≡ jac_identity }
    {
        Sim3Jac {
            a: Mat3::identity(),
            b: Mat3::from_cols(zero_vector(), zero_vector(), zero_vector()),
            c: Mat3::identity(),
            f: zero_vector(),
            e: T::of(1.0),
        }
    }

    // (A A', B A' + C B', C C', C f' + f e', e e').
    #[tactic(auto, unfolding(crate::specs::Jac::jac_mul))]
    pub fn mul(self, o: Sim3Jac<T>) -> Sim3Jac<T>
        ensures { as_sim3_jac T.float result ≡ jac_mul T.format (as_sim3_jac T.float self) (as_sim3_jac T.float o) }
    {
        let c = self.c;
        let f = self.f;
        Sim3Jac {
            a: self.a.mul(o.a),
            b: self.b.mul(o.a).add(c.mul(o.b)),
            c: c.mul(o.c),
            f: c.mul_vec(o.f).add(f.scale(o.e)),
            e: self.e * o.e,
        }
    }

    // (A^-1, -C^-1 B A^-1, C^-1, -C^-1 f / e, 1 / e), by the adjugates of A and C; refusal 2 if e is a zero. A zero
    // determinant is not refused: it is divided by. PERF (D122): C^-1 is formed first and before the test of e, since
    // the compiler then packs the products better.
    #[tactic(auto, unfolding(crate::proofs::Unfolds::inverse_unfolds))]
    pub fn inverse(self) -> Result<Sim3Jac<T>, Refusal>
        ensures { view (as_sim3_jac T.float) result ≡ jac_inverse_answer T.format (as_sim3_jac T.float self) }
    {
        let e = self.e;
        let ci = self.c.inverse_adj().inv;
        if at_zero(e) {
            return Err(Refusal::ZeroScale);
        }
        let ai = self.a.inverse_adj().inv;
        let ei = T::of(1.0) / e;
        Ok(Sim3Jac {
            a: ai,
            b: ci.mul(self.b).mul(ai).neg(),
            c: ci,
            f: ci.mul_vec(self.f).scale(ei).neg(),
            e: ei,
        })
    }

    // Flips every sign bit.
    #[tactic(auto, unfolding(crate::specs::Jac::jac_neg))]
    pub fn neg(self) -> Sim3Jac<T>
        ensures { as_sim3_jac T.float result ≡ jac_neg (as_sim3_jac T.float self) }
    {
        Sim3Jac {
            a: self.a.neg(),
            b: self.b.neg(),
            c: self.c.neg(),
            f: self.f.neg(),
            e: -self.e,
        }
    }

    #[tactic(auto, unfolding(crate::specs::Jac::jac_add))]
    pub fn add(self, o: Sim3Jac<T>) -> Sim3Jac<T>
        ensures { as_sim3_jac T.float result ≡ jac_add T.format (as_sim3_jac T.float self) (as_sim3_jac T.float o) }
    {
        Sim3Jac {
            a: self.a.add(o.a),
            b: self.b.add(o.b),
            c: self.c.add(o.c),
            f: self.f.add(o.f),
            e: self.e + o.e,
        }
    }

    #[tactic(auto, unfolding(crate::specs::Jac::jac_scale))]
    pub fn scale(self, k: T) -> Sim3Jac<T>
        ensures { as_sim3_jac T.float result ≡ jac_scale T.format (as_sim3_jac T.float self) (T.float k) }
    {
        Sim3Jac {
            a: self.a.scale(k),
            b: self.b.scale(k),
            c: self.c.scale(k),
            f: self.f.scale(k),
            e: self.e * k,
        }
    }

    // (A phi, (B phi + C rho) + f sigma, e sigma).
    #[tactic(auto, unfolding(crate::specs::Jac::jac_apply))]
    pub fn apply(self, t: Sim3Tangent<T>) -> Sim3Tangent<T>
        ensures { as_sim3_tangent T.float result
            ≡ jac_apply T.format (as_sim3_jac T.float self) (as_sim3_tangent T.float t) }
    {
        let phi = t.phi;
        let rho = t.rho;
        Sim3Tangent {
            phi: self.a.mul_vec(phi),
            rho: self
                .b
                .mul_vec(phi)
                .add(self.c.mul_vec(rho))
                .add(self.f.scale(t.sigma)),
            sigma: self.e * t.sigma,
        }
    }

    // (A^T phi + B^T rho, C^T rho, f . rho + e sigma).
    #[tactic(auto, unfolding(crate::specs::Jac::jac_apply_transpose))]
    pub fn apply_transpose(self, t: Sim3Tangent<T>) -> Sim3Tangent<T>
        ensures { as_sim3_tangent T.float result
            ≡ jac_apply_transpose T.format (as_sim3_jac T.float self) (as_sim3_tangent T.float t) }
    {
        let phi = t.phi;
        let rho = t.rho;
        Sim3Tangent {
            phi: self
                .a
                .transpose()
                .mul_vec(phi)
                .add(self.b.transpose().mul_vec(rho)),
            rho: self.c.transpose().mul_vec(rho),
            sigma: self.f.dot(rho) + self.e * t.sigma,
        }
    }
}
