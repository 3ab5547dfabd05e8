// Horner's sums of the series, at one sign and at both, and stopped after some entries of the table.
ghost use Rattle.std.specs.Prelude.{◌≡◌, ◌≤◌};
ghost use Rattle.series.specs.Series.{g_series};
ghost use Rattle.series.specs.Pass.{g_stopped, both_stopped, entries_read};
ghost use Rattle.series.specs.Private.{g_term};
ghost use Rattle.series.specs.Floats.{as_signs, as_horner};

use crate::reciprocal::{Index, recip};
use crate::sim3::{Horner, Signs};
use tables::Tables;

// The sum of sigma^i/(i + l)! over i < terms, by Horner from the last term.
#[tactic(auto, using(crate::proofs::PartialSums::stopped_last))]
pub fn g_series<T: Tables>(sigma: T, l: usize, terms: usize) -> T
    requires { (l ≤ 2) × (terms ≤ 30) }
    ensures { T.float result ≡ g_series T.format (T.float sigma) l terms }
{
    g_stopped(sigma, l, terms, terms)
}

// That sum, stopped after n entries.
#[tactic(auto, using(crate::proofs::PartialSums::stopped_more), unfolding(crate::specs::Pass::g_stopped))]
pub fn g_stopped<T: Tables>(sigma: T, l: usize, terms: usize, n: usize) -> T
    requires { (l ≤ 2) × (terms ≤ 30) × (n ≤ terms) }
    ensures { T.float result ≡ g_stopped T.format (T.float sigma) l terms n }
{
    let mut acc = T::of(0.0);
    for i in 0..n {
        acc = recip::<T>(Index {
            n: terms - 1 - i + l,
        }) + sigma * acc;
    }
    acc
}

// The sums over i < k of sigma^i/(i + 1)! and of sigma^i/(i + 2)! at both signs in one pass over the
// reciprocals, stopped after n entries: it holds the partial sums that each sign alone has then.
pub fn horner_stopped<T: Tables>(sigma: T, k: usize, n: usize) -> Horner<T>
    requires { (n ≤ k) × (k ≤ 30) }
    ensures { as_horner T.float result
        ≡ record {
          v0 = both_stopped T.format (T.float sigma) 1 k n;
          w0 = both_stopped T.format (T.float sigma) 2 k n;
        } }
{
    let minus = -sigma;
    let mut v0 = Signs {
        pos: T::of(0.0),
        neg: T::of(0.0),
    };
    let mut w0 = v0;
    for i in 0..n {
        v0 = g_term(sigma, minus, recip(Index { n: k - i }), v0);
        w0 = g_term(sigma, minus, recip(Index { n: k - i + 1 }), w0);
    }
    Horner { v0, w0 }
}

// How many entries a sum of `terms` terms has read at a stop: all of them, if it has no more.
pub fn entries_read(stop: usize, terms: usize) -> usize
    ensures { (result ≡ entries_read stop terms) × (result ≤ terms) }
{
    stop.min(terms)
}

// One more term in front, with the reciprocal r.
#[tactic(auto, unfolding(crate::specs::Private::g_term))]
pub fn g_term<T: Tables>(sigma: T, minus: T, r: T, g: Signs<T>) -> Signs<T>
    ensures { as_signs T.float result
        ≡ g_term T.format (T.float sigma) (T.float minus) (T.float r) (as_signs T.float g) }
{
    Signs {
        pos: r + sigma * g.pos,
        neg: r + minus * g.neg,
    }
}
