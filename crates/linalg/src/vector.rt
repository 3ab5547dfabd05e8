// A vector of three numbers. Every sum runs left to right from its first term.
ghost use Rattle.std.specs.Prelude.{◌≡◌};
ghost use Rattle.linalg.specs.Vector.{vec_scale, vec_dot, vec_norm_sq, vec_cross, vec_add, vec_sub, vec_neg, vec_over};
ghost use Rattle.linalg.specs.Floats.{as_vec3};

use ieee::Real;

#[derive(Clone, Copy)]
pub struct Vec3<T> {
    pub x: T,
    pub y: T,
    pub z: T,
}

impl<T: Real> Vec3<T> {
    // s * self, componentwise.
    #[tactic(auto, unfolding(crate::specs::Vector::vec_scale))]
    pub fn scale(self, s: T) -> Vec3<T>
        ensures { as_vec3 T.float result ≡ vec_scale T.format (as_vec3 T.float self) (T.float s) }
    {
        Vec3 {
            x: self.x * s,
            y: self.y * s,
            z: self.z * s,
        }
    }

    // The sum of self_i o_i, in index order.
    #[tactic(auto, unfolding(crate::specs::Vector::vec_dot))]
    pub fn dot(self, o: Vec3<T>) -> T
        ensures { T.float result ≡ vec_dot T.format (as_vec3 T.float self) (as_vec3 T.float o) }
    {
        self.x * o.x + self.y * o.y + self.z * o.z
    }

    // self . self.
    #[tactic(auto, unfolding(crate::specs::Vector::vec_norm_sq))]
    pub fn norm_sq(self) -> T
        ensures { T.float result ≡ vec_norm_sq T.format (as_vec3 T.float self) }
    {
        self.dot(self)
    }

    // self x o: (a1 b2 - a2 b1, a2 b0 - a0 b2, a0 b1 - a1 b0), right-handed.
    #[tactic(auto, unfolding(crate::specs::Vector::vec_cross))]
    pub fn cross(self, o: Vec3<T>) -> Vec3<T>
        ensures { as_vec3 T.float result ≡ vec_cross T.format (as_vec3 T.float self) (as_vec3 T.float o) }
    {
        Vec3 {
            x: self.y * o.z - self.z * o.y,
            y: self.z * o.x - self.x * o.z,
            z: self.x * o.y - self.y * o.x,
        }
    }

    #[tactic(auto, unfolding(crate::specs::Vector::vec_add))]
    pub fn add(self, o: Vec3<T>) -> Vec3<T>
        ensures { as_vec3 T.float result ≡ vec_add T.format (as_vec3 T.float self) (as_vec3 T.float o) }
    {
        Vec3 {
            x: self.x + o.x,
            y: self.y + o.y,
            z: self.z + o.z,
        }
    }

    #[tactic(auto, unfolding(crate::specs::Vector::vec_sub))]
    pub fn sub(self, o: Vec3<T>) -> Vec3<T>
        ensures { as_vec3 T.float result ≡ vec_sub T.format (as_vec3 T.float self) (as_vec3 T.float o) }
    {
        Vec3 {
            x: self.x - o.x,
            y: self.y - o.y,
            z: self.z - o.z,
        }
    }

    // Flips every sign bit.
    #[tactic(auto, unfolding(crate::specs::Vector::vec_neg))]
    pub fn neg(self) -> Vec3<T>
        ensures { as_vec3 T.float result ≡ vec_neg (as_vec3 T.float self) }
    {
        Vec3 {
            x: -self.x,
            y: -self.y,
            z: -self.z,
        }
    }

    // Each component divided by s, also if s is zero.
    #[tactic(auto, unfolding(crate::specs::Vector::vec_over))]
    pub fn over(self, s: T) -> Vec3<T>
        ensures { as_vec3 T.float result ≡ vec_over T.format (as_vec3 T.float self) (T.float s) }
    {
        Vec3 {
            x: self.x / s,
            y: self.y / s,
            z: self.z / s,
        }
    }
}
