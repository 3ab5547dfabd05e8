// One pass over the reciprocals, stopped: what it holds after any number of entries, together with what the sums of
// each sign alone hold then. No other function calls this: its contract says that they are equal.
ghost use Rattle.std.specs.Prelude.{◌≡◌, ◌≤◌};
ghost use Rattle.series.specs.Pass.{horner_stopped, pass_stopped};
ghost use Rattle.linalg.specs.Answer.{view};
ghost use Rattle.series.specs.Floats.{as_horner, as_stopped};

use crate::admitted::count;
use crate::count::FULL;
use crate::horner::{entries_read, g_stopped, horner_stopped};
use crate::sim3::{Horner, Signs};
use crate::small;
use crate::terms::Terms;
use linalg::refusal::Refusal;

// v0 and w0 of the series arm and of the closed arm at small sigma, from the pass and from each sign
// alone.
#[derive(Drop)]
pub struct Stopped<T> {
    pub series: Horner<T>,
    pub series_alone: Horner<T>,
    pub closed: Horner<T>,
    pub closed_alone: Horner<T>,
}

// The passes at k terms, and at those of the closed arm, stopped after `stop` entries: a stop after the last entry
// counts as the last. Refusal 4 for k above 28.
pub fn pass_stopped<T: Terms>(sigma: T, k: usize, stop: usize) -> Result<Stopped<T>, Refusal>
    ensures { view (as_stopped T.float) result ≡ pass_stopped T.format (T.float sigma) k stop }
{
    let k = count::<FULL>(k)?;
    let k = k.terms;
    let series = horner_stopped(sigma, k, entries_read(stop, k));
    let series_alone = alone(sigma, k, k, stop);
    let closed = small::horner_small_stopped(sigma, stop);
    let closed_alone = alone(sigma, T::w0_terms() + 1, T::w0_terms(), stop);
    Ok(Stopped {
        series,
        series_alone,
        closed,
        closed_alone,
    })
}

// The four sums of v0 and w0 by the code of one sign.
fn alone<T: Terms>(sigma: T, v_terms: usize, w_terms: usize, stop: usize) -> Horner<T>
    requires { (v_terms ≤ 30) × (w_terms ≤ 30) }
    ensures { as_horner T.float result ≡ horner_stopped T.format (T.float sigma) v_terms w_terms stop }
{
    let minus = -sigma;
    let v = entries_read(stop, v_terms);
    let w = entries_read(stop, w_terms);
    Horner {
        v0: Signs {
            pos: g_stopped(sigma, 1, v_terms, v),
            neg: g_stopped(minus, 1, v_terms, v),
        },
        w0: Signs {
            pos: g_stopped(sigma, 2, w_terms, w),
            neg: g_stopped(minus, 2, w_terms, w),
        },
    }
}
