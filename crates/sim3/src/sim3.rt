// A pose of Sim(3), X p = e^sigma R p + t, by its numbers alone. The caller passes the exponentials of log scales.
ghost use Rattle.std.specs.Prelude.{◌≡◌};
ghost use Rattle.sim3.specs.Pose.{pose_identity, pose_inverse, pose_act, pose_mul, pose_mul_inv, pose_inv_mul};
ghost use Rattle.sim3.specs.Pose.{pose_renormalized};
ghost use Rattle.sim3.specs.Exp.{combined, three_of, three_v, v_apply, pose_exp, pose_rplus, pose_lplus};
ghost use Rattle.arms.specs.Floats.{as_values};
ghost use Rattle.sim3.specs.Floats.{as_sim3, as_sim3_tangent, as_three};
ghost use Rattle.series.specs.Floats.{as_coeffs4, as_sim3_coeffs};
ghost use Rattle.so3.specs.Floats.{as_quat};
ghost use Rattle.linalg.specs.Floats.{as_vec3};

use crate::tangent::{Sim3Tangent, zero_vector};
use arms::values::Values;
use coeffs::width::Width;
use ieee::Real;
use linalg::vector::Vec3;
use series::sim3::{Coeffs4, Sim3Coeffs};
use so3::quat::{Quat, Renormalize};

// The numbers of a pose. A pose with the frames between which it maps is `frames::Pose`; the functions that return one
// are in crate `frames`, over the functions here.
#[derive(Clone, Copy)]
pub struct Sim3<T> {
    pub q: Quat<T>,
    pub t: Vec3<T>,
    pub sigma: T,
}

impl<T: Real> Sim3<T> {
    // (R, t, sigma).
    pub fn from_parts(q: Quat<T>, t: Vec3<T>, sigma: T) -> Sim3<T>
        ensures { as_sim3 T.float result ≡ record {
          q = (as_quat T.float q);
          t = (as_vec3 T.float t);
          sigma =
              (T.float sigma);
        } }
    {
        Sim3 { q, t, sigma }
    }

    pub fn rotation(self) -> Quat<T>
        ensures { as_quat T.float result ≡ (as_sim3 T.float self).q }
    {
        self.q
    }

    pub fn translation(self) -> Vec3<T>
        ensures { as_vec3 T.float result ≡ (as_sim3 T.float self).t }
    {
        self.t
    }

    // sigma, the stored log scale.
    pub fn log_scale(self) -> T
        ensures { T.float result ≡ (as_sim3 T.float self).sigma }
    {
        self.sigma
    }

    // self * other^-1; e is the exponential of the difference of the two log scales.
    #[tactic(auto, unfolding(crate::specs::Pose::pose_mul_inv))]
    pub fn mul_inv(self, other: Sim3<T>, e: T) -> Sim3<T>
        ensures { as_sim3 T.float result ≡ pose_mul_inv T.format (as_sim3 T.float self) (as_sim3 T.float other)
            (T.float e) }
    {
        let p = self.q;
        let o = other.q;
        let q = p.mul(o.conjugate());
        let rt = so3::so3::act(q, other.t);
        Sim3 {
            q,
            t: self.t.sub(rt.scale(e)),
            sigma: self.sigma - other.sigma,
        }
    }

    // other^-1 * self; down is e^-sigma of other.
    #[tactic(auto, unfolding(crate::specs::Pose::pose_inv_mul))]
    pub fn inv_mul(self, other: Sim3<T>, down: T) -> Sim3<T>
        ensures { as_sim3 T.float result ≡ pose_inv_mul T.format (as_sim3 T.float self) (as_sim3 T.float other)
            (T.float down) }
    {
        let p = self.q;
        let o = other.q;
        let oc = o.conjugate();
        let d = so3::so3::act(oc, self.t.sub(other.t));
        Sim3 {
            q: oc.mul(p),
            t: d.scale(down),
            sigma: self.sigma - other.sigma,
        }
    }

    // X p = s R p + t; up is e^sigma.
    #[tactic(auto, unfolding(crate::specs::Pose::pose_act))]
    pub fn act(self, up: T, p: Vec3<T>) -> Vec3<T>
        ensures { as_vec3 T.float result ≡ pose_act T.format (as_sim3 T.float self) (T.float up) (as_vec3 T.float p) }
    {
        let rp = so3::so3::act(self.q, p);
        rp.scale(up).add(self.t)
    }

    // XY = (R_X R_Y, s_X R_X t_Y + t_X, sigma_X + sigma_Y); up is e^sigma of X. PERF (D111): the operations of
    // Quat::mul and of act are written out in an order in which the compiler keeps every number in a register: p.x and
    // p.z times q, then t, then the sums of the quaternion. PERF (D111): it is inlined into its callers, since a call
    // would copy both poses.
    #[inline(always)]
    pub fn mul(self, o: Sim3<T>, up: T) -> Sim3<T>
        ensures { as_sim3 T.float result ≡ pose_mul T.format (as_sim3 T.float self) (as_sim3 T.float o) (T.float up) }
    {
        let p = self.q;
        let q = o.q;
        let v = o.t;
        let s = self.t;
        let xw = p.x * q.w;
        let xx = p.x * q.x;
        let xy = p.x * q.y;
        let xz = p.x * q.z;
        let zw = p.z * q.w;
        let zx = p.z * q.x;
        let zy = p.z * q.y;
        let zz = p.z * q.z;
        let ux = p.y * v.z - p.z * v.y;
        let uy = p.z * v.x - p.x * v.z;
        let uz = p.x * v.y - p.y * v.x;
        let cx = p.y * uz - p.z * uy;
        let cy = p.z * ux - p.x * uz;
        let cz = p.x * uy - p.y * ux;
        let d = T::of(2.0) * p.w;
        let tx = (v.x + ux * d + cx * T::of(2.0)) * up + s.x;
        let ty = (v.y + uy * d + cy * T::of(2.0)) * up + s.y;
        let tz = (v.z + uz * d + cz * T::of(2.0)) * up + s.z;
        let y = p.w * q.y - xz + p.y * q.w + zx;
        let z = p.w * q.z + xy - p.y * q.x + zw;
        let w = p.w * q.w - xx - p.y * q.y - zz;
        let x = p.w * q.x + xw + p.y * q.z - zy;
        Sim3 {
            q: Quat { w, x, y, z },
            t: Vec3 {
                x: tx,
                y: ty,
                z: tz,
            },
            sigma: self.sigma + o.sigma,
        }
    }

    #[tactic(auto, unfolding(crate::specs::Pose::pose_identity))]
    pub fn identity() -> Sim3<T>
        ensures { as_sim3 T.float result ≡ pose_identity }
    {
        Sim3 {
            q: Quat::identity(),
            t: zero_vector(),
            sigma: T::of(0.0),
        }
    }

    // X^-1 = (R^-1, -e^-sigma R^-1 t, -sigma); down is e^-sigma. The sign is applied to down, which is available from
    // the start: -(a b) and a (-b) are the same number.
    pub fn inverse(self, down: T) -> Sim3<T>
        ensures { as_sim3 T.float result ≡ pose_inverse T.format (as_sim3 T.float self) (T.float down) }
    {
        let p = self.q;
        let r = p.conjugate();
        let rt = so3::so3::act(r, self.t);
        Sim3 {
            q: r,
            t: rt.scale(-down),
            sigma: -self.sigma,
        }
    }
}

impl<T: Width> Sim3<T> {
    // Exp tau = (Exp phi, V rho, sigma).
    #[tactic(auto, unfolding(crate::specs::Exp::pose_exp))]
    pub fn exp(tau: Sim3Tangent<T>, v: Values<T>) -> Sim3<T>
        ensures { as_sim3 T.float result ≡ pose_exp T.format (as_sim3_tangent T.float tau) (as_values T.float v) }
    {
        let phi = tau.phi;
        let rho = tau.rho;
        let c = coeffs::sim3::sim3_v_of(phi, tau.sigma, v);
        let q = so3::so3::exp(phi, v.root, v.sin_half, v.cos_half);
        Sim3 {
            q,
            t: v_apply(phi, tau.sigma, c, rho),
            sigma: tau.sigma,
        }
    }

    // X Exp(tau); up is e^sigma of X, v the values of tau.
    #[tactic(auto, unfolding(crate::specs::Exp::pose_rplus))]
    pub fn rplus(self, up: T, tau: Sim3Tangent<T>, v: Values<T>) -> Sim3<T>
        ensures { as_sim3 T.float result ≡ pose_rplus T.format (as_sim3 T.float self) (T.float up)
            (as_sim3_tangent T.float tau) (as_values T.float v) }
    {
        self.mul(Sim3::exp(tau, v), up)
    }

    // Exp(tau) X, with the values of tau.
    #[tactic(auto, unfolding(crate::specs::Exp::pose_lplus))]
    pub fn lplus(self, tau: Sim3Tangent<T>, v: Values<T>) -> Sim3<T>
        ensures { as_sim3 T.float result ≡ pose_lplus T.format (as_sim3 T.float self) (as_sim3_tangent T.float tau)
            (as_values T.float v) }
    {
        Sim3::exp(tau, v).mul(self, v.up)
    }
}

// The coefficients of I, W and W^2 in a polynomial in W = hat(phi).
#[derive(Drop)]
pub struct Three<T> {
    pub x0: T,
    pub x1: T,
    pub x2: T,
}

// The coefficients of V.
impl<T: Real> From<Coeffs4<T>> for Three<T> {
    ghost from_gives = { λ c x. as_three T.float x ≡ three_of (as_coeffs4 T.float c) };

    fn from(c: Coeffs4<T>) -> Three<T> {
        Three {
            x0: c.v0,
            x1: c.v1,
            x2: c.v2,
        }
    }
}

impl<T: Real> From<Sim3Coeffs<T>> for Three<T> {
    ghost from_gives = { λ c x. as_three T.float x ≡ three_v (as_sim3_coeffs T.float c) };

    fn from(c: Sim3Coeffs<T>) -> Three<T> {
        Three {
            x0: c.v0,
            x1: c.v1,
            x2: c.v2,
        }
    }
}

// x0 a + x1 b + x2 c, from the left.
pub fn combine<T: Real>(x: Three<T>, a: Vec3<T>, b: Vec3<T>, c: Vec3<T>) -> Vec3<T>
    ensures { as_vec3 T.float result
        ≡ combined T.format (as_vec3 T.float a) (as_vec3 T.float b) (as_vec3 T.float c) (T.float x.x0) (T.float x.x1)
        (T.float x.x2) }
{
    a.scale(x.x0).add(b.scale(x.x1)).add(c.scale(x.x2))
}

// V rho at z = |phi|^2: by chi_delta / delta if b is on its exact arm (z not below b's limit), else by two cross
// products.
pub fn v_apply<T: Width>(phi: Vec3<T>, sigma: T, c: Coeffs4<T>, rho: Vec3<T>) -> Vec3<T>
    ensures { as_vec3 T.float result ≡ v_apply T.format (as_vec3 T.float phi) (T.float sigma) (as_coeffs4 T.float c)
        (as_vec3 T.float rho) }
{
    let z = phi.norm_sq();
    if !circle::kernel::b_takes_exact_arm_of(phi) {
        let mu = phi.cross(rho);
        return combine(Three::from(c), rho, mu, phi.cross(mu));
    }
    let chi = c.chi_delta / (sigma * sigma + z);
    let far = phi.scale(c.v2 * phi.dot(rho));
    rho.scale(chi).add(phi.cross(rho).scale(c.v1)).add(far)
}

impl<T: Real> Renormalize for Sim3<T> {
    ghost renormalizes = { λ x y. as_sim3 T.float y ≡ pose_renormalized T.format (as_sim3 T.float x) };

    // The quaternion's Newton step; t and sigma stay.
    #[tactic(auto, unfolding(crate::specs::Pose::pose_renormalized))]
    fn renormalized(self) -> Sim3<T>
        ensures { as_sim3 T.float result ≡ pose_renormalized T.format (as_sim3 T.float self) }
    {
        Sim3 {
            q: self.q.renormalized(),
            ..self
        }
    }
}
