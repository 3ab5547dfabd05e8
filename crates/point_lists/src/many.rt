// Every point of a list moved by a matrix: two points a turn, and four in long lists of singles.
ghost use Rattle.std.specs.Prelude.{◌≡◌, ◌+◌, ◌*◌, ◌/◌, ◌%◌, ◌≤◌, ◌++◌, length, drop};
ghost use Rattle.linalg.specs.Floats.{as_vec3, as_mat3};
ghost use Rattle.point_lists.specs.Points.{points_moved, mat_act};
ghost use Rattle.point_lists.specs.Private.{mat_columns_negated, put_two, put_four};

use crate::{PointWidth, each, mat_act, point_at, put_point};
use ieee::Real;
use linalg::matrix::Mat3;
use linalg::vector::Vec3;

// The last point, where e is one less than the count: after it e points are left to move.
fn last<T: Real>(m: Mat3<T>, t: Vec3<T>, pts: &[T], out: &mut [T], e: usize)
    requires lengths { (length pts.now % 3 ≡ 0) × (length out.old ≡ length pts.now) }
    requires count { (e ≤ length pts.now / 3) × (length pts.now / 3 ≤ e + 1) }
    ensures { points_moved (mat_act T.format (as_mat3 T.float m) (as_vec3 T.float t)) (T.floats pts.now) e
        ++ drop (e * 3) (T.floats out.new) ≡ points_moved (mat_act T.format (as_mat3 T.float m) (as_vec3 T.float t))
        (T.floats pts.now) (length pts.now / 3) }
{
    let n = pts.len() / 3;
    if e == n {
        return;
    }
    put_point(out, e * 3, mat_act(m, t, point_at(pts, e)));
}

// The last point of an odd count first, then the others. PERF (D122): their count is even, so the compiler, which moves
// two points a turn, has none left after its loop, and the loop has all the registers.
fn short<T: Real>(m: Mat3<T>, t: Vec3<T>, pts: &[T], out: &mut [T])
    requires { (length pts.now % 3 ≡ 0) × (length out.old ≡ length pts.now) }
    ensures { T.floats out.new ≡ points_moved (mat_act T.format (as_mat3 T.float m) (as_vec3 T.float t))
        (T.floats pts.now) (length pts.now / 3) }
{
    let n = pts.len() / 3;
    let e = n - n % 2;
    last(m, t, pts, out, e);
    each(&|p| mat_act(m, t, p), &pts[..e * 3], out);
}

// ---- long lists: four points a turn.

// m with its last two columns negated.
#[tactic(auto, unfolding(crate::specs::Private::mat_columns_negated))]
fn columns_negated<T: Real>(m: Mat3<T>) -> Mat3<T>
    ensures { as_mat3 T.float result ≡ mat_columns_negated (as_mat3 T.float m) }
{
    Mat3 {
        c0: m.c0,
        c1: m.c1.neg(),
        c2: m.c2.neg(),
    }
}

// mat_act by a matrix with negated columns, the same bits. PERF (D122): products that are subtracted cannot change
// places, so the compiler puts x of four numbers of the output together, y and z, and stores them as they are.
fn less_act<T: Real>(m: Mat3<T>, t: Vec3<T>, p: Vec3<T>) -> Vec3<T>
    ensures { as_vec3 T.float result ≡ mat_act T.format (mat_columns_negated (as_mat3 T.float m)) (as_vec3 T.float t)
        (as_vec3 T.float p) }
{
    let a = m.c0;
    let b = m.c1;
    let c = m.c2;
    Vec3 {
        x: a.x * p.x - b.x * p.y - c.x * p.z + t.x,
        y: a.y * p.x - b.y * p.y - c.y * p.z + t.y,
        z: a.z * p.x - b.z * p.y - c.z * p.z + t.z,
    }
}

// Two points, and four, from a place on.
#[tactic(auto, unfolding(crate::specs::Private::put_two))]
fn put_two<T: Real>(out: &mut [T], at: usize, a: Vec3<T>, b: Vec3<T>)
    requires { at + 6 ≤ length out.old }
    ensures { T.floats out.new ≡ put_two (T.floats out.old) at (as_vec3 T.float a) (as_vec3 T.float b) }
{
    put_point(out, at, a);
    put_point(out, at + 3, b);
}

fn put_four<T: Real>(out: &mut [T], at: usize, a: Vec3<T>, b: Vec3<T>, c: Vec3<T>, d: Vec3<T>)
    requires { at + 12 ≤ length out.old }
    ensures { T.floats out.new ≡ put_two (put_two (T.floats out.old) at (as_vec3 T.float a) (as_vec3 T.float b))
        (at + 6) (as_vec3 T.float c) (as_vec3 T.float d) }
{
    put_two(out, at, a, b);
    put_two(out, at + 6, c, d);
}

// The four points of p, into the places from `at` on: all are read before one is stored.
#[tactic(auto, unfolding(crate::specs::Private::put_four))]
fn four<T: Real>(m: Mat3<T>, t: Vec3<T>, p: &[T; 12], out: &mut [T], at: usize)
    requires { at + 12 ≤ length out.old }
    ensures { T.floats out.new
        ≡ put_four (mat_act T.format (mat_columns_negated (as_mat3 T.float m)) (as_vec3 T.float t)) (T.floats p.now)
        (T.floats out.old) at }
{
    let a = less_act(m, t, point_at(p, 0));
    let b = less_act(m, t, point_at(p, 1));
    let c = less_act(m, t, point_at(p, 2));
    let d = less_act(m, t, point_at(p, 3));
    put_four(out, at, a, b, c, d);
}

// The points of pts by fours, into the places from the first on. It has two callers, so that it is compiled as a
// separate function and reads the matrix from memory: how the matrix is formed then does not change the loop.
fn fours<T: Real>(m: Mat3<T>, t: Vec3<T>, pts: &[T], out: &mut [T])
    requires { (length pts.now % 12 ≡ 0) × (length pts.now ≤ length out.old) }
    ensures { T.floats out.new
        ≡ points_moved (mat_act T.format (mat_columns_negated (as_mat3 T.float m)) (as_vec3 T.float t))
        (T.floats pts.now) (length pts.now / 3) ++ drop (length pts.now) (T.floats out.old) }
{
    let (chunks, _) = pts.as_chunks::<12>();
    for (i, p) in chunks.iter().enumerate() {
        four(m, t, p, out, i * 12);
    }
}

// The last four first, if the count is no multiple of four, and then the fours from the first on.
fn long<T: Real>(m: Mat3<T>, t: Vec3<T>, pts: &[T], out: &mut [T])
    requires lens { (length pts.now % 3 ≡ 0) × (length out.old ≡ length pts.now) }
    requires twelve { 12 ≤ length pts.now }
    ensures { T.floats out.new ≡ points_moved (mat_act T.format (as_mat3 T.float m) (as_vec3 T.float t))
        (T.floats pts.now) (length pts.now / 3) }
{
    let k = columns_negated(m);
    let n = pts.len();
    let e = n - n % 12;
    if e == n {
        fours(k, t, pts, out);
        return;
    }
    let at = n - 12;
    fours(k, t, &pts[at..], &mut out[at..]);
    fours(k, t, &pts[..e], out);
}

// By fours from 64 points on, where the loop of fours is worth its two calls.
pub(crate) fn many<T: PointWidth>(m: Mat3<T>, t: Vec3<T>, pts: &[T], out: &mut [T])
    requires { (length pts.now % 3 ≡ 0) × (length out.old ≡ length pts.now) }
    ensures { T.floats out.new ≡ points_moved (mat_act T.format (as_mat3 T.float m) (as_vec3 T.float t))
        (T.floats pts.now) (length pts.now / 3) }
{
    if T::BY_FOURS && 64 * 3 <= pts.len() {
        long(m, t, pts, out);
        return;
    }
    short(m, t, pts, out);
}
