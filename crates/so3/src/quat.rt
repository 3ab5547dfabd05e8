// A quaternion w + x i + y j + z k (Hamilton: i² = j² = k² = ijk = -1), w first. A unit q rotates v to q v q*. It is a
// value with no invariant: nothing below requires that q is unit.
ghost use Rattle.std.specs.Prelude.{◌≡◌, map};
ghost use Rattle.so3.specs.Quat.{quat, quat_identity, quat_normalized, quat_of_xyzw, quat_to_xyzw, quat_of_jpl};
ghost use Rattle.so3.specs.Quat.{quat_conjugate, quat_norm_sq, quat_to_matrix, quat_renormalized, quat_mul};
ghost use Rattle.linalg.specs.Floats.{as_mat3};
ghost use Rattle.so3.specs.Floats.{as_quat};

use ieee::Real;
use linalg::matrix::Mat3;
use linalg::vector::Vec3;

#[derive(Clone, Copy)]
pub struct Quat<T> {
    pub w: T,
    pub x: T,
    pub y: T,
    pub z: T,
}

impl<T: Real> Quat<T> {
    // (w, x, y, z) as it is.
    pub fn from_wxyz_unchecked(w: T, x: T, y: T, z: T) -> Quat<T>
        ensures { as_quat T.float result ≡ quat (T.float w) (T.float x) (T.float y) (T.float z) }
    {
        Quat { w, x, y, z }
    }

    // (w, x, y, z) / n, where n is the root of |q|², which the caller passes.
    #[tactic(auto, unfolding(crate::specs::Quat::quat_normalized))]
    pub fn from_wxyz_normalized(w: T, x: T, y: T, z: T, n: T) -> Quat<T>
        ensures { as_quat T.float result ≡ quat_normalized T.format (T.float w) (T.float x) (T.float y) (T.float z)
            (T.float n) }
    {
        Quat {
            w: w / n,
            x: x / n,
            y: y / n,
            z: z / n,
        }
    }

    // The quaternion of a list [x, y, z, w].
    #[tactic(auto, unfolding(crate::specs::Quat::quat_of_xyzw))]
    pub fn from_xyzw(a: [T; 4]) -> Quat<T>
        ensures { as_quat T.float result ≡ quat_of_xyzw (map T.float a) }
    {
        Quat {
            w: a[3],
            x: a[0],
            y: a[1],
            z: a[2],
        }
    }

    // [x, y, z, w], the inverse of `from_xyzw`.
    #[tactic(auto, unfolding(crate::specs::Quat::quat_to_xyzw))]
    pub fn to_xyzw(self) -> [T; 4]
        ensures { map T.float result ≡ quat_to_xyzw (as_quat T.float self) }
    {
        [self.x, self.y, self.z, self.w]
    }

    // The Hamilton quaternion (w, -x, -y, -z) of a JPL quaternion [x, y, z, w].
    pub fn from_jpl(a: [T; 4]) -> Quat<T>
        ensures { as_quat T.float result ≡ quat_of_jpl (map T.float a) }
    {
        Quat {
            w: a[3],
            x: -a[0],
            y: -a[1],
            z: -a[2],
        }
    }

    // (w, -x, -y, -z); the inverse of a unit quaternion.
    #[tactic(auto, unfolding(crate::specs::Quat::quat_conjugate))]
    pub fn conjugate(self) -> Quat<T>
        ensures { as_quat T.float result ≡ quat_conjugate (as_quat T.float self) }
    {
        Quat {
            w: self.w,
            x: -self.x,
            y: -self.y,
            z: -self.z,
        }
    }

    // |q|² = w² + x² + y² + z², summed in that order.
    pub fn norm_sq(self) -> T
        ensures { T.float result ≡ quat_norm_sq T.format (as_quat T.float self) }
    {
        self.w * self.w + self.x * self.x + self.y * self.y + self.z * self.z
    }

    // R(q) = (1 - 2|u|²) I + 2 u uᵀ + 2w hat(u), u = (x, y, z): the rotation of a unit q.
    pub fn to_matrix(self) -> Mat3<T>
        ensures { as_mat3 T.float result ≡ quat_to_matrix T.format (as_quat T.float self) }
    {
        let w = self.w;
        let x = self.x;
        let y = self.y;
        let z = self.z;
        let tw = T::of(2.0) * w;
        let tx = T::of(2.0) * x;
        let ty = T::of(2.0) * y;
        let tz = T::of(2.0) * z;
        let xx = tx * x;
        let yy = ty * y;
        let zz = tz * z;
        let xy = tx * y;
        let xz = tx * z;
        let yz = ty * z;
        let wx = tw * x;
        let wy = tw * y;
        let wz = tw * z;
        Mat3 {
            c0: Vec3 {
                x: T::of(1.0) - (yy + zz),
                y: xy + wz,
                z: xz - wy,
            },
            c1: Vec3 {
                x: xy - wz,
                y: T::of(1.0) - (xx + zz),
                z: yz + wx,
            },
            c2: Vec3 {
                x: xz + wy,
                y: yz - wx,
                z: T::of(1.0) - (xx + yy),
            },
        }
    }

    // The Hamilton product self * o; it does not normalise.
    #[tactic(auto, unfolding(crate::specs::Quat::quat_mul))]
    pub fn mul(self, o: Quat<T>) -> Quat<T>
        ensures { as_quat T.float result ≡ quat_mul T.format (as_quat T.float self) (as_quat T.float o) }
    {
        Quat {
            w: self.w * o.w - self.x * o.x - self.y * o.y - self.z * o.z,
            x: self.w * o.x + self.x * o.w + self.y * o.z - self.z * o.y,
            y: self.w * o.y - self.x * o.z + self.y * o.w + self.z * o.x,
            z: self.w * o.z + self.x * o.y - self.y * o.x + self.z * o.w,
        }
    }

    // The rotation that leaves every vector: (1, 0, 0, 0).
    #[tactic(auto, unfolding(crate::specs::Quat::quat_identity))]
    pub fn identity() -> Quat<T>
        ensures { as_quat T.float result ≡ quat_identity }
    {
        Quat {
            w: T::of(1.0),
            x: T::of(0.0),
            y: T::of(0.0),
            z: T::of(0.0),
        }
    }
}

// A quaternion, or a value with one, which a Newton step brings nearer to unit length.
pub trait Renormalize: Copy {
    // Whether the second is the first after one step.
    ghost renormalizes: { Self → Self → Type 0 };

    fn renormalized(self) -> Self
        ensures { renormalizes self result };

    // `renormalized` in place; nothing else changes.
    fn renormalize(&mut self)
        ensures { renormalizes self.old self.new }
    {
        *self = (*self).renormalized();
    }
}

impl<T: Real> Renormalize for Quat<T> {
    ghost renormalizes = { λ p q. as_quat T.float q ≡ quat_renormalized T.format (as_quat T.float p) };

    // One Newton step towards unit length, q (3 - |q|²) / 2. The result is near unit only if |q|² is near 1: it is zero
    // at |q|² = 3, and beyond that q is reversed.
    fn renormalized(self) -> Quat<T>
        ensures { as_quat T.float result ≡ quat_renormalized T.format (as_quat T.float self) }
    {
        let k = (T::of(3.0) - self.norm_sq()) * T::of(0.5);
        Quat {
            w: self.w * k,
            x: self.x * k,
            y: self.y * k,
            z: self.z * k,
        }
    }
}
