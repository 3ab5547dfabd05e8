// A 3x3 matrix of three columns. Every entry of a product is a sum in index order from its first
// term.
ghost use Rattle.std.specs.Prelude.{◌≡◌, true};
ghost use Rattle.linalg.specs.Answer.{answer, view};
ghost use Rattle.linalg.specs.Matrix.{mat_of_rows, mat_get, mat_set, mat_col, mat_row, mat_transpose, mat_scale};
ghost use Rattle.linalg.specs.Matrix.{mat_identity, mat_inverse_adj, mat_add, mat_sub, mat_neg, mat_mul, mat_mul_vec};
ghost use Rattle.linalg.specs.Matrix.{mat_hat, mat_mul_hat, mat_hat_mul, of_three, vec_put, vec_hat_mul};
ghost use Rattle.linalg.specs.Floats.{as_inverse, as_mat3, as_vec3};

use crate::refusal::Refusal;
use crate::vector::Vec3;
use ieee::Real;

#[derive(Clone, Copy)]
pub struct Mat3<T> {
    pub c0: Vec3<T>,
    pub c1: Vec3<T>,
    pub c2: Vec3<T>,
}

// The adjugate over the determinant, and the determinant.
#[derive(Drop)]
pub struct Inverse<T> {
    pub inv: Mat3<T>,
    pub det: T,
}

// The one of three with this index; refused above 2.
fn of_three<A: Copy>(a: A, b: A, c: A, i: usize) -> Result<A, Refusal>
    ensures { answer result ≡ of_three a b c i }
{
    match i {
        0 => Ok(a),
        1 => Ok(b),
        2 => Ok(c),
        _ => Err(Refusal::NoSuchEntry),
    }
}

// v with component i set to x.
#[tactic(auto, unfolding(crate::specs::Matrix::vec_put))]
fn with_component<T: Real>(v: Vec3<T>, i: usize, x: T) -> Vec3<T>
    ensures { as_vec3 T.float result ≡ vec_put (as_vec3 T.float v) true i (T.float x) }
{
    match i {
        0 => Vec3 { x, ..v },
        1 => Vec3 { y: x, ..v },
        2 => Vec3 { z: x, ..v },
        _ => v,
    }
}

impl<T: Real> Mat3<T> {
    // The matrix with these columns.
    pub fn from_cols(c0: Vec3<T>, c1: Vec3<T>, c2: Vec3<T>) -> Mat3<T>
        ensures { as_mat3 T.float result ≡ record {
          c0 = (as_vec3 T.float c0);
          c1 = (as_vec3 T.float c1);
          c2 =
              (as_vec3 T.float c2);
        } }
    {
        Mat3 { c0, c1, c2 }
    }

    // The matrix with these rows.
    #[tactic(auto, unfolding(crate::specs::Matrix::mat_of_rows))]
    pub fn from_rows(r0: Vec3<T>, r1: Vec3<T>, r2: Vec3<T>) -> Mat3<T>
        ensures { as_mat3 T.float result ≡ mat_of_rows (as_vec3 T.float r0) (as_vec3 T.float r1) (as_vec3 T.float r2) }
    {
        Mat3 {
            c0: Vec3 {
                x: r0.x,
                y: r1.x,
                z: r2.x,
            },
            c1: Vec3 {
                x: r0.y,
                y: r1.y,
                z: r2.y,
            },
            c2: Vec3 {
                x: r0.z,
                y: r1.z,
                z: r2.z,
            },
        }
    }

    // Entry (r, c); refused for r or c above 2.
    #[tactic(auto, unfolding(crate::proofs::Unfolds::get_unfolds))]
    pub fn get(self, r: usize, c: usize) -> Result<T, Refusal>
        ensures { view T.float result ≡ mat_get (as_mat3 T.float self) r c }
    {
        let v = self.col(c)?;
        of_three(v.x, v.y, v.z, r)
    }

    // The matrix with entry (r, c) set to v; refused for r or c above 2.
    #[tactic(auto, unfolding(crate::proofs::Unfolds::set_unfolds))]
    pub fn set(self, r: usize, c: usize, v: T) -> Result<Mat3<T>, Refusal>
        ensures { view (as_mat3 T.float) result ≡ mat_set (as_mat3 T.float self) r c (T.float v) }
    {
        let Ok(_) = self.get(r, c) else {
            return Err(Refusal::NoSuchEntry);
        };
        Ok(match c {
            0 => Mat3 {
                c0: with_component(self.c0, r, v),
                ..self
            },
            1 => Mat3 {
                c1: with_component(self.c1, r, v),
                ..self
            },
            _ => Mat3 {
                c2: with_component(self.c2, r, v),
                ..self
            },
        })
    }

    // Column c; refused for c above 2.
    #[tactic(auto, unfolding(crate::specs::Matrix::mat_col))]
    pub fn col(self, c: usize) -> Result<Vec3<T>, Refusal>
        ensures { view (as_vec3 T.float) result ≡ mat_col (as_mat3 T.float self) c }
    {
        of_three(self.c0, self.c1, self.c2, c)
    }

    // Row r; refused for r above 2.
    #[tactic(auto, unfolding(crate::specs::Matrix::mat_row))]
    pub fn row(self, r: usize) -> Result<Vec3<T>, Refusal>
        ensures { view (as_vec3 T.float) result ≡ mat_row (as_mat3 T.float self) r }
    {
        self.transpose().col(r)
    }

    #[tactic(auto, unfolding(crate::specs::Matrix::mat_transpose))]
    pub fn transpose(self) -> Mat3<T>
        ensures { as_mat3 T.float result ≡ mat_transpose (as_mat3 T.float self) }
    {
        Mat3::from_rows(self.c0, self.c1, self.c2)
    }

    // s * self, entrywise.
    #[tactic(auto, unfolding(crate::specs::Matrix::mat_scale))]
    pub fn scale(self, s: T) -> Mat3<T>
        ensures { as_mat3 T.float result ≡ mat_scale T.format (as_mat3 T.float self) (T.float s) }
    {
        Mat3 {
            c0: self.c0.scale(s),
            c1: self.c1.scale(s),
            c2: self.c2.scale(s),
        }
    }

    // +1 on the diagonal, +0 elsewhere.
    #[tactic(auto, unfolding(crate::specs::Matrix::mat_identity))]
    pub fn identity() -> Mat3<T>
        ensures { as_mat3 T.float result ≡ mat_identity }
    {
        Mat3 {
            c0: Vec3 {
                x: T::of(1.0),
                y: T::of(0.0),
                z: T::of(0.0),
            },
            c1: Vec3 {
                x: T::of(0.0),
                y: T::of(1.0),
                z: T::of(0.0),
            },
            c2: Vec3 {
                x: T::of(0.0),
                y: T::of(0.0),
                z: T::of(1.0),
            },
        }
    }

    // (adj(self) / det, det): det = c0 . (c1 x c2), and the rows of adj are c1 x c2, c2 x c0, c0 x c1. Each entry is
    // one division by det, also if det is zero.
    #[tactic(auto, unfolding(crate::specs::Matrix::mat_inverse_adj))]
    pub fn inverse_adj(self) -> Inverse<T>
        ensures { as_inverse T.float result ≡ mat_inverse_adj T.format (as_mat3 T.float self) }
    {
        let r0 = self.c1.cross(self.c2);
        let r1 = self.c2.cross(self.c0);
        let r2 = self.c0.cross(self.c1);
        let det = self.c0.dot(r0);
        Inverse {
            inv: Mat3::from_rows(r0.over(det), r1.over(det), r2.over(det)),
            det,
        }
    }

    #[tactic(auto, unfolding(crate::specs::Matrix::mat_add))]
    pub fn add(self, o: Mat3<T>) -> Mat3<T>
        ensures { as_mat3 T.float result ≡ mat_add T.format (as_mat3 T.float self) (as_mat3 T.float o) }
    {
        Mat3 {
            c0: self.c0.add(o.c0),
            c1: self.c1.add(o.c1),
            c2: self.c2.add(o.c2),
        }
    }

    #[tactic(auto, unfolding(crate::specs::Matrix::mat_sub))]
    pub fn sub(self, o: Mat3<T>) -> Mat3<T>
        ensures { as_mat3 T.float result ≡ mat_sub T.format (as_mat3 T.float self) (as_mat3 T.float o) }
    {
        Mat3 {
            c0: self.c0.sub(o.c0),
            c1: self.c1.sub(o.c1),
            c2: self.c2.sub(o.c2),
        }
    }

    // Flips every sign bit.
    #[tactic(auto, unfolding(crate::specs::Matrix::mat_neg))]
    pub fn neg(self) -> Mat3<T>
        ensures { as_mat3 T.float result ≡ mat_neg (as_mat3 T.float self) }
    {
        Mat3 {
            c0: self.c0.neg(),
            c1: self.c1.neg(),
            c2: self.c2.neg(),
        }
    }

    // self * v.
    #[tactic(auto, unfolding(crate::specs::Matrix::mat_mul_vec))]
    pub fn mul_vec(self, v: Vec3<T>) -> Vec3<T>
        ensures { as_vec3 T.float result ≡ mat_mul_vec T.format (as_mat3 T.float self) (as_vec3 T.float v) }
    {
        let a = self.c0;
        let b = self.c1;
        let c = self.c2;
        Vec3 {
            x: a.x * v.x + b.x * v.y + c.x * v.z,
            y: a.y * v.x + b.y * v.y + c.y * v.z,
            z: a.z * v.x + b.z * v.y + c.z * v.z,
        }
    }

    // self * o.
    #[tactic(auto, unfolding(crate::specs::Matrix::mat_mul))]
    pub fn mul(self, o: Mat3<T>) -> Mat3<T>
        ensures { as_mat3 T.float result ≡ mat_mul T.format (as_mat3 T.float self) (as_mat3 T.float o) }
    {
        Mat3 {
            c0: self.mul_vec(o.c0),
            c1: self.mul_vec(o.c1),
            c2: self.mul_vec(o.c2),
        }
    }
}

// The matrix of v x _: rows (0, -z, y), (z, 0, -x), (-y, x, 0), its zeros +0.
#[tactic(auto, unfolding(crate::specs::Matrix::mat_hat))]
pub fn hat<T: Real>(v: Vec3<T>) -> Mat3<T>
    ensures { as_mat3 T.float result ≡ mat_hat (as_vec3 T.float v) }
{
    Mat3 {
        c0: Vec3 {
            x: T::of(0.0),
            y: v.z,
            z: -v.y,
        },
        c1: Vec3 {
            x: -v.z,
            y: T::of(0.0),
            z: v.x,
        },
        c2: Vec3 {
            x: v.y,
            y: -v.x,
            z: T::of(0.0),
        },
    }
}

// a * hat(v), skipping the zeros of hat.
#[tactic(auto, unfolding(crate::specs::Matrix::mat_mul_hat))]
pub fn mul_hat<T: Real>(a: Mat3<T>, v: Vec3<T>) -> Mat3<T>
    ensures { as_mat3 T.float result ≡ mat_mul_hat T.format (as_mat3 T.float a) (as_vec3 T.float v) }
{
    let p = a.c0;
    let q = a.c1;
    let s = a.c2;
    let nx = -v.x;
    let ny = -v.y;
    let nz = -v.z;
    Mat3 {
        c0: q.scale(v.z).add(s.scale(ny)),
        c1: p.scale(nz).add(s.scale(v.x)),
        c2: p.scale(v.y).add(q.scale(nx)),
    }
}

// Column b of hat(v) * b, skipping the zeros of hat.
#[tactic(auto, unfolding(crate::specs::Matrix::vec_hat_mul))]
fn hat_col<T: Real>(v: Vec3<T>, b: Vec3<T>) -> Vec3<T>
    ensures { as_vec3 T.float result ≡ vec_hat_mul T.format (as_vec3 T.float v) (as_vec3 T.float b) }
{
    Vec3 {
        x: -v.z * b.y + v.y * b.z,
        y: v.z * b.x + -v.x * b.z,
        z: -v.y * b.x + v.x * b.y,
    }
}

// hat(v) * b, skipping the zeros of hat.
#[tactic(auto, unfolding(crate::specs::Matrix::mat_hat_mul))]
pub fn hat_mul<T: Real>(v: Vec3<T>, b: Mat3<T>) -> Mat3<T>
    ensures { as_mat3 T.float result ≡ mat_hat_mul T.format (as_vec3 T.float v) (as_mat3 T.float b) }
{
    Mat3 {
        c0: hat_col(v, b.c0),
        c1: hat_col(v, b.c1),
        c2: hat_col(v, b.c2),
    }
}
