// The series at sigma and at -sigma, each to the bit, from one recurrence. The parts of a level at -sigma are those at
// sigma, negated where they are odd in sigma, up to the sign of a zero, which changes no sum: so where a sum at sigma
// adds a term, the one at -sigma adds it or its negative.
ghost use Rattle.std.specs.Prelude.{◌≡◌, true, false, ◌+◌, ◌%◌, ◌≤◌};
ghost use Rattle.std.specs.Float.Ieee.{neg};
ghost use Rattle.series.specs.Series.{series_full};
ghost use Rattle.series.specs.Recurrence.{sums_gain, sums_last};
ghost use Rattle.pairs.specs.Entries.{series_pair_answer};
ghost use Rattle.pairs.specs.Private.{sums_gain_mirrored, sums_last_mirrored, state_minus};
ghost use Rattle.pairs.specs.Private.{pair_step, pair_steps, pair_sums};
ghost use Rattle.linalg.specs.Answer.{view};
ghost use Rattle.series.specs.Floats.{as_sums, as_signs, as_tail};
ghost use Rattle.pairs.specs.Floats.{as_coeffs_pair, as_series_pair_state};

use linalg::refusal::Refusal;
use series::admitted::admitted;
use series::count::{Count, FULL};
use series::reciprocal::{Index, recip};
use series::recurrence;
use series::recurrence::{Level, Sums, Tail};
use series::sim3::{Signs, Sim3Coeffs, horner_at};
use tables::Tables;

// The coefficients at sigma and at -sigma.
pub type CoeffsPair<T> = Signs<Sim3Coeffs<T>>;

// The loop for both signs: the next level at sigma, and the sums at sigma and at -sigma.
#[derive(Drop)]
pub struct SeriesPairState<T> {
    pub level: Level<T>,
    pub pos: Sums<T>,
    pub neg: Sums<T>,
}

// The series at k terms, at sigma and at -sigma; refusal 1 for z below zero, then 4 for k above 28.
#[tactic(auto, unfolding(crate::specs::Entries::series_pair_answer, series::specs::Series::series_answer))]
pub fn series_pair<T: Tables>(sigma: T, z: T, k: usize) -> Result<CoeffsPair<T>, Refusal>
    ensures { view (as_coeffs_pair T.float) result ≡ series_pair_answer T.format (T.float sigma) (T.float z) k }
{
    let k = admitted::<T, FULL>(z, k)?;
    Ok(series_pair_at(sigma, z, k))
}

// `series_pair` for a k that is not refused, at any z: for a caller that has refused z already.
pub fn series_pair_at<T: Tables>(sigma: T, z: T, k: Count<FULL>) -> CoeffsPair<T>
    ensures { as_coeffs_pair T.float result
        ≡ record {
          pos = series_full T.format (T.float sigma) (T.float z) k.terms;
          neg = series_full T.format (neg (T.float sigma)) (T.float z) k.terms;
        } }
{
    let h = horner_at(sigma, k);
    let v0 = h.v0;
    let w0 = h.w0;
    let s = sums_pair_at(sigma, z, k);
    Signs {
        pos: recurrence::coeffs(sigma, z, v0.pos, w0.pos, s.pos),
        neg: recurrence::coeffs(sigma, z, v0.neg, w0.neg, s.neg),
    }
}

// The six sums at each sign, each to its last level.
#[tactic(auto, unfolding(crate::specs::Private::pair_sums))]
fn sums_pair_at<T: Tables>(sigma: T, z: T, k: Count<FULL>) -> Signs<Sums<T>>
    ensures { as_signs (as_sums T.float) result ≡ pair_sums T.format (T.float sigma) (T.float z) k.terms }
{
    let k = k.terms;
    let s = levels_to(sigma, z, k);
    let t = recurrence::tail_terms(
        sigma,
        z,
        s.level,
        recip(Index { n: k + 2 }),
        recip(Index { n: k + 3 }),
        recip(Index { n: k + 4 }),
    );
    let neg = if (k + 1) % 2 == 1 {
        recurrence::last(s.neg, tail_mirrored::<T, true>(t))
    } else {
        recurrence::last(s.neg, tail_mirrored::<T, false>(t))
    };
    Signs {
        pos: recurrence::last(s.pos, t),
        neg,
    }
}

// The levels to k, which add a term to every sum: an even one by itself where k is even.
#[tactic(auto, using(crate::proofs::Pairs::even_more))]
fn levels_to<T: Tables>(sigma: T, z: T, k: usize) -> SeriesPairState<T>
    requires { k ≤ 28 }
    ensures { as_series_pair_state T.float result ≡ pair_steps T.format (T.float sigma) (T.float z) (k + 1) }
{
    if k % 2 == 0 {
        let s = levels_below(sigma, z, k);
        return step::<T, false>(
            sigma,
            z,
            recip(Index { n: k + 1 }),
            recip(Index { n: k + 2 }),
            s,
        );
    }
    levels_below(sigma, z, k + 1)
}

// The levels below n, which is even: an even and an odd one at each turn. PERF (D122): this has two callers, so that it
// is compiled as a separate function, which stores its result: from these stores the compiler sees which numbers of a
// turn to compute in twos.
#[tactic(auto, using(crate::proofs::Pairs::two_levels), unfolding(crate::specs::Private::pair_steps))]
fn levels_below<T: Tables>(sigma: T, z: T, n: usize) -> SeriesPairState<T>
    requires { (n ≤ 28) × (n % 2 ≡ 0) }
    ensures { as_series_pair_state T.float result ≡ pair_steps T.format (T.float sigma) (T.float z) n }
{
    let mut s = state_minus(SeriesPairState {
        level: recurrence::first(),
        pos: recurrence::none(),
        neg: recurrence::none(),
    });
    for j in (0..n).step_by(2) {
        s = two_steps(
            sigma,
            z,
            recip(Index { n: j + 1 }),
            recip(Index { n: j + 2 }),
            recip(Index { n: j + 3 }),
            s,
        );
    }
    state_minus(s)
}

// The same with the level's -p for its p, or p for -p.
#[tactic(auto, unfolding(crate::specs::Private::state_minus, crate::specs::Private::level_minus))]
fn state_minus<T: Tables>(s: SeriesPairState<T>) -> SeriesPairState<T>
    ensures { as_series_pair_state T.float result ≡ state_minus (as_series_pair_state T.float s) }
{
    let l = s.level;
    SeriesPairState {
        level: Level { p: -l.p, ..l },
        ..s
    }
}

// An even level and the odd one after it, with r3 = 1/(j + 3)!. PERF (D70, D122): a separate function, for with both
// turns inlined into the loop the pair takes 7 % more; and s and the result hold -p for p: x - (-p) is x + p, and xi
// and dxi are formed in the same way.
fn two_steps<T: Tables>(
    sigma: T,
    z: T,
    r1: T,
    r2: T,
    r3: T,
    s: SeriesPairState<T>,
) -> SeriesPairState<T>
    ensures { as_series_pair_state T.float result
        ≡ state_minus
        (pair_step T.format (T.float sigma) (T.float z) (T.float r2) (T.float r3) true
        (pair_step T.format (T.float sigma) (T.float z) (T.float r1) (T.float r2) false
        (state_minus (as_series_pair_state T.float s)))) }
{
    let s = step::<T, false>(sigma, z, r1, r2, state_minus(s));
    state_minus(step::<T, true>(sigma, z, r2, r3, s))
}

// One level, even or `ODD`, with r1 = 1/(j + 1)! and r2 = 1/(j + 2)!.
#[tactic(auto, unfolding(crate::specs::Private::pair_step))]
fn step<T: Tables, const ODD: bool>(
    sigma: T,
    z: T,
    r1: T,
    r2: T,
    s: SeriesPairState<T>,
) -> SeriesPairState<T>
    ensures { as_series_pair_state T.float result
        ≡ pair_step T.format (T.float sigma) (T.float z) (T.float r1) (T.float r2) ODD
        (as_series_pair_state T.float s) }
{
    let t = recurrence::terms(s.level, r1, r2);
    SeriesPairState {
        level: recurrence::next(sigma, z, s.level),
        pos: recurrence::gain(s.pos, t),
        neg: recurrence::gain(s.neg, mirrored::<T, ODD>(t)),
    }
}

// The terms at -sigma of a level, even or `ODD`, with the terms t at sigma.
fn mirrored<T: Tables, const ODD: bool>(t: Sums<T>) -> Sums<T>
    ensures { (s : _) → sums_gain T.format s (as_sums T.float result)
        ≡ sums_gain_mirrored T.format ODD s (as_sums T.float t) }
{
    if ODD {
        Sums {
            v2: -t.v2,
            w2: -t.w2,
            dv2: -t.dv2,
            ..t
        }
    } else {
        Sums {
            v1: -t.v1,
            w1: -t.w1,
            dv1: -t.dv1,
            ..t
        }
    }
}

// The terms at -sigma after level k, where t are those at sigma; `ODD`: level k + 1 is odd.
fn tail_mirrored<T: Tables, const ODD: bool>(t: Tail<T>) -> Tail<T>
    ensures { (s : _) → sums_last T.format s (as_tail T.float result)
        ≡ sums_last_mirrored T.format ODD s (as_tail T.float t) }
{
    if ODD {
        Tail {
            v2: -t.v2,
            w2: -t.w2,
            dv1_next: -t.dv1_next,
            dv2: -t.dv2,
            dv2_last: -t.dv2_last,
            ..t
        }
    } else {
        Tail {
            dv1: -t.dv1,
            dv2_next: -t.dv2_next,
            ..t
        }
    }
}
