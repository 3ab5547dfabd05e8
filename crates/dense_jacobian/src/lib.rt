// Dense forms of helicoid's sim3.rs: 7x7 matrices as 49 numbers, column by column. Proved: a block Jacobian written out
// (jac_dense) and J S J^T (jac_sandwich) are their formulas in the Rust's order (specs/Dense). Rests on jacobian.
#![tactic(auto)]

ghost use Rattle.std.specs.Prelude.{◌≡◌, ◌+◌, ◌≤◌, length, map};
ghost use Rattle.std.proofs.lemmas.List.Edits.{sets};
ghost use Rattle.sim3.specs.Tangent.{tangent, tangent_to_dense};
ghost use Rattle.dense_jacobian.specs.Dense.{seven_of, seven_flat, seven_transpose, seven_apply};
ghost use Rattle.dense_jacobian.specs.Dense.{jac_sandwich, jac_dense};
ghost use Rattle.dense_jacobian.specs.Floats.{as_seven};
ghost use Rattle.jacobian.specs.Floats.{as_sim3_jac};
ghost use Rattle.sim3.specs.Floats.{as_sim3_tangent};
ghost use Rattle.linalg.specs.Floats.{as_vec3};

use ieee::Real;
use jacobian::jac::Sim3Jac;
use linalg::vector::Vec3;
use sim3::tangent::{Sim3Tangent, zero_vector};

// Seven columns of seven numbers, each held as a tangent.
#[derive(Drop)]
pub struct Seven<T> {
    pub c0: Sim3Tangent<T>,
    pub c1: Sim3Tangent<T>,
    pub c2: Sim3Tangent<T>,
    pub c3: Sim3Tangent<T>,
    pub c4: Sim3Tangent<T>,
    pub c5: Sim3Tangent<T>,
    pub c6: Sim3Tangent<T>,
}

// The columns of a flat matrix.
#[tactic(auto, unfolding(crate::specs::Dense::seven_of))]
fn columns<T: Real>(m: [T; 49]) -> Seven<T>
    ensures { as_seven T.float result ≡ seven_of (map T.float m) }
{
    let (columns, _) = m.as_chunks::<7>();
    Seven {
        c0: Sim3Tangent::from_dense(columns[0]),
        c1: Sim3Tangent::from_dense(columns[1]),
        c2: Sim3Tangent::from_dense(columns[2]),
        c3: Sim3Tangent::from_dense(columns[3]),
        c4: Sim3Tangent::from_dense(columns[4]),
        c5: Sim3Tangent::from_dense(columns[5]),
        c6: Sim3Tangent::from_dense(columns[6]),
    }
}

// Stores a column's seven numbers from a place on.
fn put_column<T: Real>(out: &mut [T], at: usize, t: Sim3Tangent<T>)
    requires { at + 7 ≤ length out.old }
    ensures { map T.float out.new ≡ sets (map T.float out.old) at (tangent_to_dense (as_sim3_tangent T.float t)) }
{
    out[at..at + 7].copy_from_slice(&t.to_dense());
}

// The flat matrix of the columns.
#[tactic(auto, unfolding(crate::specs::Dense::seven_flat, sim3::specs::Tangent::tangent_to_dense))]
fn flat<T: Real>(m: Seven<T>) -> [T; 49]
    ensures { map T.float result ≡ seven_flat (as_seven T.float m) }
{
    let mut out = [T::of(0.0); 49];
    put_column(&mut out, 0, m.c0);
    put_column(&mut out, 7, m.c1);
    put_column(&mut out, 14, m.c2);
    put_column(&mut out, 21, m.c3);
    put_column(&mut out, 28, m.c4);
    put_column(&mut out, 35, m.c5);
    put_column(&mut out, 42, m.c6);
    out
}

// The transpose.
#[tactic(auto, unfolding(crate::specs::Dense::seven_transpose, sim3::specs::Tangent::tangent_from_dense))]
fn transpose<T: Real>(m: Seven<T>) -> Seven<T>
    ensures { as_seven T.float result ≡ seven_transpose (as_seven T.float m) }
{
    let Seven {
        c0: a,
        c1: b,
        c2: c,
        c3: d,
        c4: e,
        c5: f,
        c6: g,
    } = m;
    let r0 = [
        a.phi.x, b.phi.x, c.phi.x, d.phi.x, e.phi.x, f.phi.x, g.phi.x,
    ];
    let r1 = [
        a.phi.y, b.phi.y, c.phi.y, d.phi.y, e.phi.y, f.phi.y, g.phi.y,
    ];
    let r2 = [
        a.phi.z, b.phi.z, c.phi.z, d.phi.z, e.phi.z, f.phi.z, g.phi.z,
    ];
    let r3 = [
        a.rho.x, b.rho.x, c.rho.x, d.rho.x, e.rho.x, f.rho.x, g.rho.x,
    ];
    let r4 = [
        a.rho.y, b.rho.y, c.rho.y, d.rho.y, e.rho.y, f.rho.y, g.rho.y,
    ];
    let r5 = [
        a.rho.z, b.rho.z, c.rho.z, d.rho.z, e.rho.z, f.rho.z, g.rho.z,
    ];
    let r6 = [
        a.sigma, b.sigma, c.sigma, d.sigma, e.sigma, f.sigma, g.sigma,
    ];
    Seven {
        c0: Sim3Tangent::from_dense(r0),
        c1: Sim3Tangent::from_dense(r1),
        c2: Sim3Tangent::from_dense(r2),
        c3: Sim3Tangent::from_dense(r3),
        c4: Sim3Tangent::from_dense(r4),
        c5: Sim3Tangent::from_dense(r5),
        c6: Sim3Tangent::from_dense(r6),
    }
}

fn column<T: Real>(phi: Vec3<T>, rho: Vec3<T>, sigma: T) -> Sim3Tangent<T>
    ensures { as_sim3_tangent T.float result ≡ tangent (as_vec3 T.float phi) (as_vec3 T.float rho) (T.float sigma) }
{
    Sim3Tangent { phi, rho, sigma }
}

// J applied to each column.
#[tactic(auto, unfolding(crate::specs::Dense::seven_apply))]
fn apply_each<T: Real>(j: Sim3Jac<T>, m: Seven<T>) -> Seven<T>
    ensures { as_seven T.float result ≡ seven_apply T.format (as_sim3_jac T.float j) (as_seven T.float m) }
{
    Seven {
        c0: j.apply(m.c0),
        c1: j.apply(m.c1),
        c2: j.apply(m.c2),
        c3: j.apply(m.c3),
        c4: j.apply(m.c4),
        c5: j.apply(m.c5),
        c6: j.apply(m.c6),
    }
}

// J as 49 numbers, column by column.
#[tactic(auto, unfolding(crate::specs::Dense::jac_dense))]
pub fn write_dense<T: Real>(j: Sim3Jac<T>) -> [T; 49]
    ensures { map T.float result ≡ jac_dense (as_sim3_jac T.float j) }
{
    let a = j.a;
    let b = j.b;
    let c = j.c;
    let f = j.f;
    let none = zero_vector();
    flat(Seven {
        c0: column(a.c0, b.c0, T::of(0.0)),
        c1: column(a.c1, b.c1, T::of(0.0)),
        c2: column(a.c2, b.c2, T::of(0.0)),
        c3: column(none, c.c0, T::of(0.0)),
        c4: column(none, c.c1, T::of(0.0)),
        c5: column(none, c.c2, T::of(0.0)),
        c6: column(none, f, j.e),
    })
}

// J cov J^T: M = J cov by columns, then row r of the result is J applied to row r of M.
#[tactic(auto, unfolding(crate::specs::Dense::jac_sandwich))]
pub fn sandwich<T: Real>(j: Sim3Jac<T>, cov: [T; 49]) -> [T; 49]
    ensures { map T.float result ≡ jac_sandwich T.format (as_sim3_jac T.float j) (map T.float cov) }
{
    let m = apply_each(j, columns(cov));
    let rows = apply_each(j, transpose(m));
    flat(transpose(rows))
}
