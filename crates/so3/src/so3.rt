// The rotation group on unit quaternions. A rotation is its `Quat`: product, matrix and renormalisation are methods of
// that type, and the hat products are linalg's.
ghost use Rattle.std.specs.Prelude.{◌≡◌};
ghost use Rattle.linalg.specs.Vector.{vec_norm_sq};
ghost use Rattle.so3.specs.Quat.{quat_conjugate};
ghost use Rattle.so3.specs.So3.{so3_act, so3_inv_act, so3_exp};
ghost use Rattle.linalg.specs.Floats.{as_vec3};
ghost use Rattle.so3.specs.Floats.{as_quat};

use crate::quat::Quat;
use circle::kernel::exp_coeffs_of;
use circle::row_limits::Limits;
use ieee::Real;
use linalg::vector::Vec3;

// |v|² = (x² + y²) + z²: the squared angle of a rotation vector.
pub fn norm_sq<T: Real>(v: Vec3<T>) -> T
    ensures { T.float result ≡ vec_norm_sq T.format (as_vec3 T.float v) }
{
    v.norm_sq()
}

// R v by the quaternion sandwich: v + 2w (u x v) + 2 u x (u x v), u = (x, y, z), in that order.
pub fn act<T: Real>(q: Quat<T>, v: Vec3<T>) -> Vec3<T>
    ensures { as_vec3 T.float result ≡ so3_act T.format (as_quat T.float q) (as_vec3 T.float v) }
{
    let u = Vec3 {
        x: q.x,
        y: q.y,
        z: q.z,
    };
    let uv = u.cross(v);
    v.add(uv.scale(T::of(2.0) * q.w))
        .add(u.cross(uv).scale(T::of(2.0)))
}

// R⁻¹ v: the action of the conjugate.
#[tactic(auto, unfolding(crate::specs::So3::so3_inv_act))]
pub fn inv_act<T: Real>(q: Quat<T>, v: Vec3<T>) -> Vec3<T>
    ensures { as_vec3 T.float result ≡ so3_inv_act T.format (as_quat T.float q) (as_vec3 T.float v) }
{
    act(inverse(q), v)
}

// The conjugate, the inverse of a unit quaternion.
pub fn inverse<T: Real>(q: Quat<T>) -> Quat<T>
    ensures { as_quat T.float result ≡ quat_conjugate (as_quat T.float q) }
{
    q.conjugate()
}

// Exp(phi) = (cos(θ/2), k phi), k = sin(θ/2) / θ: root, sin_half and cos_half are θ = |phi| and the sine and cosine of
// its half, which the caller passes.
#[tactic(auto, unfolding(crate::specs::So3::so3_exp))]
pub fn exp<T: Limits>(phi: Vec3<T>, root: T, sin_half: T, cos_half: T) -> Quat<T>
    ensures { as_quat T.float result ≡ so3_exp T.format (as_vec3 T.float phi) (T.float root) (T.float sin_half)
        (T.float cos_half) }
{
    let c = exp_coeffs_of(phi, root, sin_half, cos_half);
    Quat {
        w: c.cos_half,
        x: c.k * phi.x,
        y: c.k * phi.y,
        z: c.k * phi.z,
    }
}
