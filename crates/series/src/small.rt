// v0 and w0 of the closed arm at small sigma, at one sign and at both.
ghost use Rattle.std.specs.Prelude.{◌≡◌, ◌+◌, ◌≤◌};
ghost use Rattle.series.specs.Series.{g_series, g_series_pair, w0_terms};
ghost use Rattle.series.specs.Pass.{both_stopped, horner_stopped};
ghost use Rattle.series.specs.Floats.{as_signs, as_horner};

use crate::horner::{entries_read, g_series, g_term};
use crate::reciprocal::{Index, table_entry};
use crate::sim3::{Horner, Signs};
use crate::terms::Terms;

// v0 of the closed arm at small sigma: the first term, and sigma times the sum of `g2`.
#[tactic(auto, unfolding(crate::specs::Series::g_series))]
pub fn g1<T: Terms>(sigma: T) -> T
    ensures { T.float result ≡ g_series T.format (T.float sigma) 1 (w0_terms T.format + 1) }
{
    table_entry::<T>(Index { n: 1 }) + sigma * g2(sigma)
}

// w0 of the closed arm at small sigma.
pub fn g2<T: Terms>(sigma: T) -> T
    ensures { T.float result ≡ g_series T.format (T.float sigma) 2 (w0_terms T.format) }
{
    g_series(sigma, 2, T::w0_terms())
}

// The pass for both signs stopped after n of v0's entries, the reciprocals from the highest down to 1: it holds what
// each sign alone has then. PERF (D122): `minus` is -sigma but +0 for a zero, which changes no sum, so that the
// compiler computes both signs as one vector; and it unrolls two loops of 8 turns, with constant reciprocals, but not
// one of 15: so the pass is inlined where its count is a constant.
#[inline(always)]
fn pass<T: Terms>(sigma: T, n: usize) -> Signs<T>
    requires { n ≤ w0_terms T.format + 1 }
    ensures { as_signs T.float result ≡ both_stopped T.format (T.float sigma) 1 (w0_terms T.format + 1) n }
{
    let minus = -sigma + T::of(0.0);
    let mut g = Signs {
        pos: T::of(0.0),
        neg: T::of(0.0),
    };
    for i in 0..n / 2 {
        g = g_term(
            sigma,
            minus,
            table_entry(Index {
                n: T::w0_terms() + 1 - i,
            }),
            g,
        );
    }
    for i in n / 2..n {
        g = g_term(
            sigma,
            minus,
            table_entry(Index {
                n: T::w0_terms() + 1 - i,
            }),
            g,
        );
    }
    g
}

// v0 and w0 of the closed arm at small sigma, at both signs, in one pass over the reciprocals: all of
// v0's entries but the last are w0's.
pub fn horner_small<T: Terms>(sigma: T) -> Horner<T>
    ensures { as_horner T.float result
        ≡ record {
          v0 = g_series_pair T.format (T.float sigma) 1 (w0_terms T.format + 1);
          w0 = g_series_pair T.format (T.float sigma) 2 (w0_terms T.format);
        } }
{
    let w0 = pass(sigma, T::w0_terms());
    let v0 = g_term(sigma, -sigma + T::of(0.0), table_entry(Index { n: 1 }), w0);
    Horner { v0, w0 }
}

// The pass of `horner_small` stopped after `stop` entries: a stop after the last entry of a sum counts as its last.
#[tactic(auto, using(crate::proofs::PartialSums::both_shared), unfolding(crate::specs::Pass::horner_stopped))]
pub fn horner_small_stopped<T: Terms>(sigma: T, stop: usize) -> Horner<T>
    ensures { as_horner T.float result
        ≡ horner_stopped T.format (T.float sigma) (w0_terms T.format + 1) (w0_terms T.format) stop }
{
    Horner {
        v0: pass(sigma, entries_read(stop, T::w0_terms() + 1)),
        w0: pass(sigma, entries_read(stop, T::w0_terms())),
    }
}
