// The recurrence of the total-degree series: its levels, the terms of a level, and the six sums of them, for one sign.
ghost use Rattle.std.specs.Prelude.{◌≡◌};
ghost use Rattle.series.specs.Series.{series_first, series_next, level_terms, series_chi, series_coeffs};
ghost use Rattle.series.specs.Recurrence.{sums_none, sums_gain, tail_terms, sums_last};
ghost use Rattle.series.specs.Floats.{as_level, as_sim3_coeffs, as_sums, as_tail};

use crate::sim3::Sim3Coeffs;
use tables::Tables;

// Level j: p = sigma^j, xi and zeta, and the z-derivatives of these two.
#[derive(Clone, Copy)]
pub struct Level<T> {
    pub xi: T,
    pub dxi: T,
    pub zeta: T,
    pub dzeta: T,
    pub p: T,
}

// The six sums over the levels, or the six terms that one level adds to them.
#[derive(Clone, Copy)]
pub struct Sums<T> {
    pub v1: T,
    pub dv1: T,
    pub v2: T,
    pub dv2: T,
    pub w1: T,
    pub w2: T,
}

// The terms that the sums take after level k: one for v2 and for w2, two for dv1, three for dv2.
#[derive(Clone, Copy)]
pub struct Tail<T> {
    pub v2: T,
    pub w2: T,
    pub dv1: T,
    pub dv1_next: T,
    pub dv2: T,
    pub dv2_next: T,
    pub dv2_last: T,
}

// A loop for one sign after some levels: the next level, and the sums so far.
#[derive(Drop)]
pub struct SeriesState<T> {
    pub level: Level<T>,
    pub sums: Sums<T>,
}

// Level 0.
#[tactic(auto, unfolding(crate::specs::Series::series_first))]
pub fn first<T: Tables>() -> Level<T>
    ensures { as_level T.float result ≡ series_first }
{
    Level {
        p: T::of(1.0),
        xi: T::of(0.0),
        zeta: T::of(0.0),
        dxi: T::of(0.0),
        dzeta: T::of(0.0),
    }
}

// Level j + 1 from level j, every part from the old ones.
#[tactic(auto, unfolding(crate::specs::Series::series_next))]
pub fn next<T: Tables>(sigma: T, z: T, l: Level<T>) -> Level<T>
    ensures { as_level T.float result ≡ series_next T.format (T.float sigma) (T.float z) (as_level T.float l) }
{
    Level {
        p: l.p * sigma,
        xi: (sigma * l.xi + l.p) - z * l.zeta,
        zeta: sigma * l.zeta + l.xi,
        dxi: (sigma * l.dxi - l.zeta) - z * l.dzeta,
        dzeta: sigma * l.dzeta + l.dxi,
    }
}

// The terms of level j, with r1 = 1/(j + 1)! and r2 = 1/(j + 2)!.
#[tactic(auto, unfolding(crate::specs::Series::level_terms))]
pub fn terms<T: Tables>(l: Level<T>, r1: T, r2: T) -> Sums<T>
    ensures { as_sums T.float result ≡ level_terms T.format (as_level T.float l) (T.float r1) (T.float r2) }
{
    Sums {
        v1: l.xi * r1,
        v2: l.zeta * r1,
        w1: l.xi * r2,
        w2: l.zeta * r2,
        dv1: l.dxi * r1,
        dv2: l.dzeta * r1,
    }
}

// The sums before their first terms.
#[tactic(auto, unfolding(crate::specs::Recurrence::sums_none))]
pub fn none<T: Tables>() -> Sums<T>
    ensures { as_sums T.float result ≡ sums_none }
{
    Sums {
        v1: T::of(0.0),
        v2: T::of(0.0),
        w1: T::of(0.0),
        w2: T::of(0.0),
        dv1: T::of(0.0),
        dv2: T::of(0.0),
    }
}

// The sums with the terms t of a level.
#[tactic(auto, unfolding(crate::specs::Recurrence::sums_gain))]
pub fn gain<T: Tables>(s: Sums<T>, t: Sums<T>) -> Sums<T>
    ensures { as_sums T.float result ≡ sums_gain T.format (as_sums T.float s) (as_sums T.float t) }
{
    Sums {
        v1: s.v1 + t.v1,
        v2: s.v2 + t.v2,
        w1: s.w1 + t.w1,
        w2: s.w2 + t.w2,
        dv1: s.dv1 + t.dv1,
        dv2: s.dv2 + t.dv2,
    }
}

// The terms of the levels k + 1, k + 2 and k + 3, with l level k + 1 and r2, r3, r4 the reciprocals of (k + 2)!, (k +
// 3)!, (k + 4)!.
#[tactic(auto, unfolding(crate::specs::Recurrence::tail_terms))]
pub fn tail_terms<T: Tables>(sigma: T, z: T, l: Level<T>, r2: T, r3: T, r4: T) -> Tail<T>
    ensures { as_tail T.float result
        ≡ tail_terms T.format (T.float sigma) (T.float z) (as_level T.float l)
        (T.float r2) (T.float r3) (T.float r4) }
{
    let m = next(sigma, z, l);
    let n = next(sigma, z, m);
    Tail {
        v2: l.zeta * r2,
        w2: l.zeta * r3,
        dv1: l.dxi * r2,
        dv1_next: m.dxi * r3,
        dv2: l.dzeta * r2,
        dv2_next: m.dzeta * r3,
        dv2_last: n.dzeta * r4,
    }
}

// The sums with the terms after level k.
pub fn last<T: Tables>(s: Sums<T>, t: Tail<T>) -> Sums<T>
    ensures { as_sums T.float result ≡ sums_last T.format (as_sums T.float s) (as_tail T.float t) }
{
    Sums {
        v1: s.v1,
        v2: s.v2 + t.v2,
        w1: s.w1,
        w2: s.w2 + t.w2,
        dv1: (s.dv1 + t.dv1) + t.dv1_next,
        dv2: ((s.dv2 + t.dv2) + t.dv2_next) + t.dv2_last,
    }
}

// (v0 - z v2)(sigma^2 + z).
#[tactic(auto, unfolding(crate::specs::Series::series_chi, crate::specs::Series::coeffs_delta))]
pub fn chi_delta<T: Tables>(sigma: T, z: T, v0: T, v2: T) -> T
    ensures { T.float result ≡ series_chi T.format (T.float sigma) (T.float z) (T.float v0) (T.float v2) }
{
    (v0 - z * v2) * (sigma * sigma + z)
}

// The coefficients from the Horner sums v0 and w0 and the six sums.
#[tactic(auto, unfolding(crate::specs::Series::series_coeffs))]
pub fn coeffs<T: Tables>(sigma: T, z: T, v0: T, w0: T, s: Sums<T>) -> Sim3Coeffs<T>
    ensures { as_sim3_coeffs T.float result
        ≡ series_coeffs T.format (T.float sigma) (T.float z) (T.float v0) (T.float w0) (as_sums T.float s) }
{
    Sim3Coeffs {
        v0,
        v1: s.v1,
        v2: s.v2,
        w0,
        w1: s.w1,
        w2: s.w2,
        dv1: s.dv1,
        dv2: s.dv2,
        chi_delta: chi_delta(sigma, z, v0, s.v2),
    }
}
