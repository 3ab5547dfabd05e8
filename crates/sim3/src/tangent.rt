// A tangent of Sim(3): the rotation vector, the translation part and the log scale.
ghost use Rattle.std.specs.Prelude.{◌≡◌, map};
ghost use Rattle.ieee.specs.Numbers.{f0};
ghost use Rattle.linalg.specs.Vector.{vec};
ghost use Rattle.linalg.specs.Floats.{as_vec3};
ghost use Rattle.sim3.specs.Tangent.{tangent_zero, tangent_add, tangent_sub, tangent_neg, tangent_scale};
ghost use Rattle.sim3.specs.Tangent.{tangent_dot_acc, tangent_to_dense, tangent_from_dense};
ghost use Rattle.sim3.specs.Floats.{as_sim3_tangent};

use ieee::Real;
use linalg::vector::Vec3;

#[derive(Clone, Copy)]
pub struct Sim3Tangent<T> {
    pub phi: Vec3<T>,
    pub rho: Vec3<T>,
    pub sigma: T,
}

// (+0, +0, +0).
pub fn zero_vector<T: Real>() -> Vec3<T>
    ensures { as_vec3 T.float result ≡ vec f0 f0 f0 }
{
    Vec3 {
        x: T::of(0.0),
        y: T::of(0.0),
        z: T::of(0.0),
    }
}

impl<T: Real> Sim3Tangent<T> {
    #[tactic(auto, unfolding(crate::specs::Tangent::tangent_zero))]
    pub fn zero() -> Sim3Tangent<T>
        ensures { as_sim3_tangent T.float result ≡ tangent_zero }
    {
        Sim3Tangent {
            phi: zero_vector(),
            rho: zero_vector(),
            sigma: T::of(0.0),
        }
    }

    #[tactic(auto, unfolding(crate::specs::Tangent::tangent_add))]
    pub fn add(self, o: Sim3Tangent<T>) -> Sim3Tangent<T>
        ensures { as_sim3_tangent T.float result ≡ tangent_add T.format (as_sim3_tangent T.float self)
            (as_sim3_tangent T.float o) }
    {
        Sim3Tangent {
            phi: self.phi.add(o.phi),
            rho: self.rho.add(o.rho),
            sigma: self.sigma + o.sigma,
        }
    }

    #[tactic(auto, unfolding(crate::specs::Tangent::tangent_sub))]
    pub fn sub(self, o: Sim3Tangent<T>) -> Sim3Tangent<T>
        ensures { as_sim3_tangent T.float result ≡ tangent_sub T.format (as_sim3_tangent T.float self)
            (as_sim3_tangent T.float o) }
    {
        Sim3Tangent {
            phi: self.phi.sub(o.phi),
            rho: self.rho.sub(o.rho),
            sigma: self.sigma - o.sigma,
        }
    }

    // Flips every sign bit.
    #[tactic(auto, unfolding(crate::specs::Tangent::tangent_neg))]
    pub fn neg(self) -> Sim3Tangent<T>
        ensures { as_sim3_tangent T.float result ≡ tangent_neg (as_sim3_tangent T.float self) }
    {
        Sim3Tangent {
            phi: self.phi.neg(),
            rho: self.rho.neg(),
            sigma: -self.sigma,
        }
    }

    // k * self, the factor first.
    #[tactic(auto, unfolding(crate::specs::Tangent::tangent_scale))]
    pub fn scale(self, k: T) -> Sim3Tangent<T>
        ensures { as_sim3_tangent T.float result ≡ tangent_scale T.format (as_sim3_tangent T.float self) (T.float k) }
    {
        let a = self.phi;
        let b = self.rho;
        Sim3Tangent {
            phi: Vec3 {
                x: k * a.x,
                y: k * a.y,
                z: k * a.z,
            },
            rho: Vec3 {
                x: k * b.x,
                y: k * b.y,
                z: k * b.z,
            },
            sigma: k * self.sigma,
        }
    }

    // acc plus the seven products, one after another from the left.
    #[tactic(auto, unfolding(crate::specs::Tangent::tangent_dot_acc))]
    pub fn dot_acc(self, o: Sim3Tangent<T>, acc: T) -> T
        ensures { T.float result ≡ tangent_dot_acc T.format (as_sim3_tangent T.float self) (as_sim3_tangent T.float o)
            (T.float acc) }
    {
        let a = self.phi;
        let b = o.phi;
        let c = self.rho;
        let d = o.rho;
        let s = acc + a.x * b.x + a.y * b.y + a.z * b.z;
        s + c.x * d.x + c.y * d.y + c.z * d.z + self.sigma * o.sigma
    }

    // The seven numbers phi, rho, sigma: the Rust's write_dense.
    #[tactic(auto, unfolding(crate::specs::Tangent::tangent_to_dense))]
    pub fn to_dense(self) -> [T; 7]
        ensures { map T.float result ≡ tangent_to_dense (as_sim3_tangent T.float self) }
    {
        let a = self.phi;
        let b = self.rho;
        [a.x, a.y, a.z, b.x, b.y, b.z, self.sigma]
    }

    // The tangent of seven numbers: the Rust's read_dense.
    pub fn from_dense(v: [T; 7]) -> Sim3Tangent<T>
        ensures { as_sim3_tangent T.float result ≡ tangent_from_dense (map T.float v) }
    {
        Sim3Tangent {
            phi: Vec3 {
                x: v[0],
                y: v[1],
                z: v[2],
            },
            rho: Vec3 {
                x: v[3],
                y: v[4],
                z: v[5],
            },
            sigma: v[6],
        }
    }
}
