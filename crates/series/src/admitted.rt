// What a series refuses.
ghost use Rattle.std.specs.Prelude.{◌≡◌};
ghost use Rattle.linalg.specs.Answer.{view};
ghost use Rattle.series.specs.Series.{series_guard, terms_guard};

use crate::count::Count;
use linalg::refusal::Refusal;
use tables::Tables;

// The k terms of a series at z; refusal 1 for z below zero, then 4 for k above the most.
pub fn admitted<T: Tables, const MOST: usize>(z: T, k: usize) -> Result<Count<MOST>, Refusal>
    ensures { view (λ n. n.terms) result ≡ series_guard MOST (T.float z) k k }
{
    if z.is_below(T::of(0.0)) {
        return Err(Refusal::NegativeAngle);
    }
    count(k)
}

// k terms; refusal 4 for k above the most.
pub fn count<const MOST: usize>(k: usize) -> Result<Count<MOST>, Refusal>
    ensures { view (λ n. n.terms) result ≡ terms_guard MOST k k }
{
    if MOST < k {
        return Err(Refusal::TooManyTerms);
    }
    Ok(Count { terms: k })
}
