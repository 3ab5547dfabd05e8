// Structures read from the lists that a C function borrows; a list of the wrong length is refused. Matrices are stored
// column by column. Proved: what is read has the list's numbers in the order of layout (specs/Lists). Rests on layout.
#![tactic(auto)]

ghost use Rattle.std.specs.Prelude.{◌≡◌, ◌+◌, ◌≤◌, ◌++◌, ℕ, List, Float, length};
ghost use Rattle.linalg.specs.Answer.{answer, view};
ghost use Rattle.linalg.specs.Vector.{vec_numbers};
ghost use Rattle.layout.specs.Layout.{vec_count, mat_count, pose_count, tangent_count, values_count, block_count};
ghost use Rattle.layout.specs.Layout.{mat_numbers, quat_numbers, pose_numbers, block_numbers};
ghost use Rattle.layout.specs.Lists.{pose_lists};
ghost use Rattle.from_lists.specs.Lists.{sized, vec_from, mat_from, pose_from, tangent_from, values_from, block_from};
ghost use Rattle.from_lists.specs.Lists.{frames_from, framed_from};
ghost use Rattle.from_lists.specs.Numbers.{tangent_numbers, values_numbers};
ghost use Rattle.linalg.specs.Floats.{as_mat3, as_vec3};
ghost use Rattle.arms.specs.Floats.{as_values};
ghost use Rattle.so3.specs.Floats.{as_quat};
ghost use Rattle.sim3.specs.Floats.{as_sim3, as_sim3_tangent};
ghost use Rattle.frames.specs.Floats.{as_pose};
ghost use Rattle.jacobian.specs.Floats.{as_sim3_jac};

use arms::values::Values;
use frames::{Frames, Pose};
use ieee::Real;
use jacobian::jac::Sim3Jac;
use layout::{BLOCK, MAT, POSE, TANGENT, VALUES, VEC};
use linalg::matrix::Mat3;
use linalg::refusal::Refusal;
use linalg::vector::Vec3;
use sim3::sim3::Sim3;
use sim3::tangent::Sim3Tangent;
use so3::quat::Quat;

// A structure of a fixed number of numbers, in the order in which a list holds them.
trait FromNumbers<T: Real>: Copy {
    const COUNT: usize;

    ghost COUNT: { ℕ };

    ghost numbers: { Self → List Float };

    fn from_numbers(l: &[T]) -> Self
        requires { length l.now ≡ COUNT }
        ensures { numbers result ≡ T.floats l.now };
}

// The structure at the front of a list, and the rest of the list.
fn front<T: Real, X: FromNumbers<T>>(l: &[T]) -> (X, &[T])
    requires { X.COUNT ≤ length l.now }
    ensures value { X.numbers result.0 ++ T.floats result.1.now ≡ T.floats l.now }
    ensures rest_len { X.COUNT + length result.1.now ≡ length l.now }
{
    let (first, rest) = l.split_at(X::COUNT);
    (X::from_numbers(first), rest)
}

// The structure in a list that holds exactly its numbers.
#[tactic(auto, unfolding(crate::specs::Lists::sized))]
fn from_list<T: Real, X: FromNumbers<T>>(l: &[T]) -> Result<X, Refusal>
    ensures { view X.numbers result ≡ sized l.now X.COUNT (T.floats l.now) }
{
    if l.len() != X::COUNT {
        return Err(Refusal::ListLength);
    }
    Ok(X::from_numbers(l))
}

impl<T: Real> FromNumbers<T> for Vec3<T> {
    const COUNT: usize = VEC;

    ghost COUNT = { vec_count };

    ghost numbers = { λ v. vec_numbers (as_vec3 T.float v) };

    #[tactic(auto, unfolding(linalg::specs::Vector::vec_numbers))]
    fn from_numbers(l: &[T]) -> Vec3<T> {
        Vec3 {
            x: l[0],
            y: l[1],
            z: l[2],
        }
    }
}

impl<T: Real> FromNumbers<T> for Mat3<T> {
    const COUNT: usize = MAT;

    ghost COUNT = { mat_count };

    ghost numbers = { λ m. mat_numbers (as_mat3 T.float m) };

    #[tactic(auto, unfolding(layout::specs::Layout::mat_numbers))]
    fn from_numbers(l: &[T]) -> Mat3<T> {
        let (c0, rest) = front(l);
        let (c1, rest) = front(rest);
        Mat3 {
            c0,
            c1,
            c2: Vec3::from_numbers(rest),
        }
    }
}

// w, x, y, z.
impl<T: Real> FromNumbers<T> for Quat<T> {
    const COUNT: usize = 4;

    ghost COUNT = { 4 };

    ghost numbers = { λ q. quat_numbers (as_quat T.float q) };

    #[tactic(auto, unfolding(layout::specs::Layout::quat_numbers))]
    fn from_numbers(l: &[T]) -> Quat<T> {
        Quat {
            w: l[0],
            x: l[1],
            y: l[2],
            z: l[3],
        }
    }
}

// Quaternion, t, sigma.
impl<T: Real> FromNumbers<T> for Sim3<T> {
    const COUNT: usize = POSE;

    ghost COUNT = { pose_count };

    ghost numbers = { λ x. pose_numbers (as_sim3 T.float x) };

    #[tactic(auto, unfolding(layout::specs::Layout::pose_numbers))]
    fn from_numbers(l: &[T]) -> Sim3<T> {
        let (q, rest) = front(l);
        let (t, rest) = front(rest);
        Sim3 {
            q,
            t,
            sigma: rest[0],
        }
    }
}

// phi, rho, sigma.
impl<T: Real> FromNumbers<T> for Sim3Tangent<T> {
    const COUNT: usize = TANGENT;

    ghost COUNT = { tangent_count };

    ghost numbers = { λ t. tangent_numbers (as_sim3_tangent T.float t) };

    #[tactic(auto, unfolding(crate::specs::Numbers::tangent_numbers))]
    fn from_numbers(l: &[T]) -> Sim3Tangent<T> {
        let (phi, rest) = front(l);
        let (rho, rest) = front(rest);
        Sim3Tangent {
            phi,
            rho,
            sigma: rest[0],
        }
    }
}

// The ten function values.
impl<T: Real> FromNumbers<T> for Values<T> {
    const COUNT: usize = VALUES;

    ghost COUNT = { values_count };

    ghost numbers = { λ v. values_numbers (as_values T.float v) };

    fn from_numbers(l: &[T]) -> Values<T> {
        Values {
            root: l[0],
            sin_half: l[1],
            cos_half: l[2],
            sin: l[3],
            e: l[4],
            m: l[5],
            e0: l[6],
            m0: l[7],
            up: l[8],
            down: l[9],
        }
    }
}

// a, b, c, f, e.
impl<T: Real> FromNumbers<T> for Sim3Jac<T> {
    const COUNT: usize = BLOCK;

    ghost COUNT = { block_count };

    ghost numbers = { λ j. block_numbers (as_sim3_jac T.float j) };

    #[tactic(auto, unfolding(layout::specs::Layout::block_numbers))]
    fn from_numbers(l: &[T]) -> Sim3Jac<T> {
        let (a, rest) = front(l);
        let (b, rest) = front(rest);
        let (c, rest) = front(rest);
        let (f, rest) = front(rest);
        Sim3Jac {
            a,
            b,
            c,
            f,
            e: rest[0],
        }
    }
}

pub fn vec_from<T: Real>(l: &[T]) -> Result<Vec3<T>, Refusal>
    ensures { view (as_vec3 T.float) result ≡ vec_from (T.floats l.now) }
{
    from_list(l)
}

pub fn mat_from<T: Real>(l: &[T]) -> Result<Mat3<T>, Refusal>
    ensures { view (as_mat3 T.float) result ≡ mat_from (T.floats l.now) }
{
    from_list(l)
}

pub fn pose_from<T: Real>(l: &[T]) -> Result<Sim3<T>, Refusal>
    ensures { view (as_sim3 T.float) result ≡ pose_from (T.floats l.now) }
{
    from_list(l)
}

pub fn tangent_from<T: Real>(l: &[T]) -> Result<Sim3Tangent<T>, Refusal>
    ensures { view (as_sim3_tangent T.float) result ≡ tangent_from (T.floats l.now) }
{
    from_list(l)
}

pub fn values_from<T: Real>(l: &[T]) -> Result<Values<T>, Refusal>
    ensures { view (as_values T.float) result ≡ values_from (T.floats l.now) }
{
    from_list(l)
}

pub fn block_from<T: Real>(l: &[T]) -> Result<Sim3Jac<T>, Refusal>
    ensures { view (as_sim3_jac T.float) result ≡ block_from (T.floats l.now) }
{
    from_list(l)
}

// From, to.
#[tactic(auto, unfolding(crate::specs::Lists::frames_from, crate::specs::Lists::sized))]
pub fn frames_from(l: &[u16]) -> Result<Frames, Refusal>
    ensures { answer result ≡ frames_from l.now }
{
    let [from, to] = *l else {
        return Err(Refusal::ListLength);
    };
    Ok(Frames { from, to })
}

// A pose whose frames are in a second list.
#[tactic(auto, unfolding(crate::specs::Lists::framed_from))]
pub fn framed_from<T: Real>(l: &[T], k: &[u16]) -> Result<Pose<T>, Refusal>
    ensures { view (as_pose T.float) result ≡ framed_from (pose_lists (T.floats l.now) k.now) }
{
    let sim3 = pose_from(l)?;
    let Frames { from, to } = frames_from(k)?;
    Ok(Pose { sim3, from, to })
}
