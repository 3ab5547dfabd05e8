// The Sim(3) coefficients, and their total-degree series at one sign of sigma: the full one, and the one for v alone,
// with the same bits; v0 and w0 at both. k is the number of terms of v0 and w0; the other sums run to the level at
// which every coefficient has the same total degree.
ghost use Rattle.std.specs.Prelude.{◌≡◌, ◌+◌, ◌≤◌};
ghost use Rattle.series.specs.Series.{series_sums, series_full, series_v, series_answer, series_v_answer};
ghost use Rattle.series.specs.Series.{g_series_pair};
ghost use Rattle.series.specs.Private.{solo_step, solo_steps};
ghost use Rattle.linalg.specs.Answer.{view};
ghost use Rattle.series.specs.Floats.{as_coeffs4, as_horner, as_sim3_coeffs, as_sums, as_series_state};

use crate::admitted::admitted;
use crate::count::{Count, FULL, V_ALONE};
use crate::horner::{g_series, horner_stopped};
use crate::reciprocal::{Index, recip};
use crate::recurrence;
use crate::recurrence::{SeriesState, Sums};
use crate::terms::Terms;
use linalg::refusal::Refusal;
use tables::Tables;

// v0, v1, v2 of V, w0, w1, w2 of Gamma_2(M), the z-derivatives of v1 and v2, and chi times delta,
// where chi = v0 - z v2 and delta = sigma^2 + z.
#[derive(Clone, Copy)]
pub struct Sim3Coeffs<T> {
    pub v0: T,
    pub v1: T,
    pub v2: T,
    pub w0: T,
    pub w1: T,
    pub w2: T,
    pub dv1: T,
    pub dv2: T,
    pub chi_delta: T,
}

// v alone, with chi times delta.
#[derive(Clone, Copy)]
pub struct Coeffs4<T> {
    pub v0: T,
    pub v1: T,
    pub v2: T,
    pub chi_delta: T,
}

// A value at sigma, and one at -sigma.
#[derive(Clone, Copy)]
pub struct Signs<X> {
    pub pos: X,
    pub neg: X,
}

// v0 and w0, each at sigma and at -sigma.
#[derive(Drop)]
pub struct Horner<T> {
    pub v0: Signs<T>,
    pub w0: Signs<T>,
}

// The series at k terms; refusal 1 for z below zero, then 4 for k above 28.
#[tactic(auto, unfolding(crate::specs::Series::series_answer))]
pub fn series<T: Tables>(sigma: T, z: T, k: usize) -> Result<Sim3Coeffs<T>, Refusal>
    ensures { view (as_sim3_coeffs T.float) result ≡ series_answer T.format (T.float sigma) (T.float z) k }
{
    let k = admitted::<T, FULL>(z, k)?;
    Ok(series_at(sigma, z, k))
}

// The series for v alone; refusal 1 for z below zero, then 4 for k above 30.
#[tactic(auto, unfolding(crate::specs::Series::series_v_answer))]
pub fn series_v<T: Terms>(sigma: T, z: T, k: usize) -> Result<Coeffs4<T>, Refusal>
    ensures { view (as_coeffs4 T.float) result ≡ series_v_answer T.format (T.float sigma) (T.float z) k }
{
    let k = admitted::<T, V_ALONE>(z, k)?;
    Ok(series_v_at(sigma, z, k))
}

// `series` for a k that is not refused, at any z: for a caller that has refused z already.
#[tactic(auto, unfolding(crate::specs::Series::series_full))]
pub fn series_at<T: Tables>(sigma: T, z: T, k: Count<FULL>) -> Sim3Coeffs<T>
    ensures { as_sim3_coeffs T.float result ≡ series_full T.format (T.float sigma) (T.float z) k.terms }
{
    let v0 = g_series(sigma, 1, k.terms);
    let w0 = g_series(sigma, 2, k.terms);
    let s = sums_at(sigma, z, k);
    recurrence::coeffs(sigma, z, v0, w0, s)
}

// The sums over i < k of sigma^i/(i + 1)! and of sigma^i/(i + 2)!, by Horner from the last term, at
// both signs in one pass over the reciprocals.
#[tactic(auto, using(crate::proofs::PartialSums::both_last))]
pub fn horner_at<T: Tables>(sigma: T, k: Count<FULL>) -> Horner<T>
    ensures { as_horner T.float result
        ≡ record {
          v0 = g_series_pair T.format (T.float sigma) 1 k.terms;
          w0 = g_series_pair T.format (T.float sigma) 2 k.terms;
        } }
{
    horner_stopped(sigma, k.terms, k.terms)
}

// The six sums, each to its last level.
#[tactic(auto, using(crate::proofs::Solo::solo_are, crate::proofs::Solo::last_is))]
fn sums_at<T: Tables>(sigma: T, z: T, k: Count<FULL>) -> Sums<T>
    ensures { as_sums T.float result ≡ series_sums T.format (T.float sigma) (T.float z) k.terms }
{
    let k = k.terms;
    let s = levels_to(sigma, z, k);
    let t = recurrence::tail_terms(
        sigma,
        z,
        s.level,
        recip(Index { n: k + 2 }),
        recip(Index { n: k + 3 }),
        recip(Index { n: k + 4 }),
    );
    recurrence::last(s.sums, t)
}

// The levels to k, which add a term to every sum. PERF (D122): inlined where it is called, so that the compiler leaves
// out what v alone does not read.
#[inline(always)]
#[tactic(auto, using(crate::proofs::Solo::solo_more), unfolding(crate::specs::Private::solo_steps))]
fn levels_to<T: Tables>(sigma: T, z: T, k: usize) -> SeriesState<T>
    requires { k ≤ 30 }
    ensures { as_series_state T.float result ≡ solo_steps T.format (T.float sigma) (T.float z) (k + 1) }
{
    let mut s = SeriesState {
        level: recurrence::first(),
        sums: recurrence::none(),
    };
    for j in 0..k + 1 {
        s = step(
            sigma,
            z,
            recip(Index { n: j + 1 }),
            recip(Index { n: j + 2 }),
            s,
        );
    }
    s
}

// One level, with r1 = 1/(j + 1)! and r2 = 1/(j + 2)!.
#[tactic(auto, unfolding(crate::specs::Private::solo_step))]
fn step<T: Tables>(sigma: T, z: T, r1: T, r2: T, s: SeriesState<T>) -> SeriesState<T>
    ensures { as_series_state T.float result
        ≡ solo_step T.format (T.float sigma) (T.float z) (T.float r1) (T.float r2) (as_series_state T.float s) }
{
    let t = recurrence::terms(s.level, r1, r2);
    SeriesState {
        level: recurrence::next(sigma, z, s.level),
        sums: recurrence::gain(s.sums, t),
    }
}

// `series_v` for a k that is not refused, at any z: for a caller that has refused z already. v2 takes one level more
// than v1.
pub fn series_v_at<T: Terms>(sigma: T, z: T, k: Count<V_ALONE>) -> Coeffs4<T>
    ensures { as_coeffs4 T.float result ≡ series_v T.format (T.float sigma) (T.float z) k.terms }
{
    let k = k.terms;
    let SeriesState { level, sums } = levels_v_to(sigma, z, k);
    let v0 = g_series(sigma, 1, k);
    let v2 = sums.v2 + level.zeta * recip(Index { n: k + 2 });
    Coeffs4 {
        v0,
        v1: sums.v1,
        v2,
        chi_delta: recurrence::chi_delta(sigma, z, v0, v2),
    }
}

// `levels_to` for v alone. PERF (D122): the fewest levels that an arm takes are a constant, so that the compiler
// unrolls their turns: a loop costs them a fourth of their time.
fn levels_v_to<T: Terms>(sigma: T, z: T, k: usize) -> SeriesState<T>
    requires { k ≤ 30 }
    ensures { as_series_state T.float result ≡ solo_steps T.format (T.float sigma) (T.float z) (k + 1) }
{
    if k == T::fewest_terms() {
        return levels_to(sigma, z, T::fewest_terms());
    }
    levels_to(sigma, z, k)
}
