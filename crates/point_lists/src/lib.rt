// The action of a pose on a list of points, three numbers each, into another list. Two functions: act_many has the bits
// of the Rust's act_many, which forms the matrix s R once; act_each moves each point as Sim3::act and the mark AC do.
// The two differ in the last bits. Proved: every number of the list is that of its point's definition, and a refused
// call writes none (specs/Points). Rests on sim3.
#![tactic(auto)]

ghost use Rattle.std.specs.Prelude.{◌≡◌, ◌+◌, ◌*◌, ◌/◌, ◌≤◌, ◌++◌, length, drop};
ghost use Rattle.linalg.specs.Answer.{answer};
ghost use Rattle.linalg.specs.Floats.{Vec3 as Point, as_vec3, as_mat3};
ghost use Rattle.point_lists.specs.Points.{point_at, points_moved, points_accepted, points_answer, points_out, mat_act};
ghost use Rattle.point_lists.specs.Points.{pose_act_many, pose_act_each};
ghost use Rattle.sim3.specs.Floats.{as_sim3};
ghost use Rattle.point_lists.specs.Private.{put_point, Moves};

use crate::many::many;
use ieee::Real;
use linalg::matrix::Mat3;
use linalg::refusal::Refusal;
use linalg::vector::Vec3;
use sim3::sim3::Sim3;

mod many; // every point by a matrix

// Whether a matrix moves the points of a long list by fours: singles, of which four fit in a register
// for each of x, y and z, and not doubles.
pub trait PointWidth: Real {
    const BY_FOURS: bool;
}

impl PointWidth for f64 {
    const BY_FOURS: bool = false;
}

impl PointWidth for f32 {
    const BY_FOURS: bool = true;
}

#[tactic(auto, unfolding(crate::specs::Points::point_at))]
pub(crate) fn point_at<T: Real>(pts: &[T], i: usize) -> Vec3<T>
    requires { i * 3 + 3 ≤ length pts.now }
    ensures { as_vec3 T.float result ≡ point_at (T.floats pts.now) i }
{
    let x = pts[i * 3];
    let y = pts[i * 3 + 1];
    let z = pts[i * 3 + 2];
    Vec3 { x, y, z }
}

pub(crate) fn put_point<T: Real>(out: &mut [T], at: usize, p: Vec3<T>)
    requires { at + 3 ≤ length out.old }
    ensures { T.floats out.new ≡ put_point (T.floats out.old) at (as_vec3 T.float p) }
{
    out[at] = p.x;
    out[at + 1] = p.y;
    out[at + 2] = p.z;
}

// m p + t.
#[tactic(auto, unfolding(crate::specs::Points::mat_act))]
pub(crate) fn mat_act<T: Real>(m: Mat3<T>, t: Vec3<T>, p: Vec3<T>) -> Vec3<T>
    ensures { as_vec3 T.float result ≡ mat_act T.format (as_mat3 T.float m) (as_vec3 T.float t) (as_vec3 T.float p) }
{
    m.mul_vec(p).add(t)
}

// The points of pts, each moved by f, into the places from the first on. PERF (D122): each point is read as a separate
// triple, so that the compiler loads two points as three vectors; an index into the whole list would make it load
// number by number.
pub(crate) fn each<T: Real, F: Fn(Vec3<T>) -> Vec3<T>>(f: &F, pts: &[T], out: &mut [T])
    requires callable { F.IsAlwaysCallable f.now }
    requires room { length pts.now ≤ length out.old }
    ensures moved { (g : Point → Point) → Moves T.float (F.post f.now) g →
        T.floats out.new ≡ points_moved g (T.floats pts.now) (length pts.now / 3)
        ++ drop (length pts.now / 3 * 3) (T.floats out.old) }
{
    let (triples, _) = pts.as_chunks::<3>();
    for (i, p) in triples.iter().enumerate() {
        put_point(out, i * 3, f(point_at(p, 0)));
    }
}

// Whether the lists are accepted: a multiple of 3 long, at most 65,535 numbers, equally long.
fn accepted(n: usize, k: usize) -> bool
    ensures { result ≡ points_accepted n k }
{
    n % 3 == 0 && n <= 65535 && k == n
}

// out = s R p + t for every triple p of pts, by the matrix s R; up is e^sigma of x. Refusal 5 for lists that are not
// accepted, and nothing is written.
#[tactic(auto, unfolding(crate::specs::Points::points_answer, crate::specs::Points::points_out))]
pub fn act_many<T: PointWidth>(x: Sim3<T>, up: T, pts: &[T], out: &mut [T]) -> Result<(), Refusal>
    ensures result_value { answer result ≡ points_answer (T.floats pts.now) (T.floats out.old) }
    ensures out_after { T.floats out.new ≡ points_out (pose_act_many T.format (as_sim3 T.float x) (T.float up))
        (T.floats pts.now) (T.floats out.old) }
{
    if !accepted(pts.len(), out.len()) {
        return Err(Refusal::BadLength);
    }
    many(x.q.to_matrix().scale(up), x.t, pts, out);
    Ok(())
}

// out = X p for every triple p of pts, each as by Sim3::act; up is e^sigma of x. The refusals are those of act_many.
#[tactic(auto, unfolding(crate::specs::Points::points_answer, crate::specs::Points::points_out))]
pub fn act_each<T: Real>(x: Sim3<T>, up: T, pts: &[T], out: &mut [T]) -> Result<(), Refusal>
    ensures result_value { answer result ≡ points_answer (T.floats pts.now) (T.floats out.old) }
    ensures out_after { T.floats out.new ≡ points_out (pose_act_each T.format (as_sim3 T.float x) (T.float up))
        (T.floats pts.now) (T.floats out.old) }
{
    if !accepted(pts.len(), out.len()) {
        return Err(Refusal::BadLength);
    }
    each(&|p| x.act(up, p), pts, out);
    Ok(())
}
