// The square root of z with its remainder, in three lists: r and the remainder, which no double holds above 2^53; the
// exponent; the double nearest to the root.
ghost use Rattle.std.specs.Prelude.{◌≡◌};
ghost use Rattle.linalg.specs.Answer.{answer};
ghost use Rattle.to_lists.specs.Written.{status};
ghost use Rattle.sim3_c_doubles.specs.Root.{root_lists, root_call, root_written};

use linalg::refusal::Refusal;

const WHOLE: usize = 2;

const EXPONENT: usize = 1;

const NEAREST: usize = 1;

// For a finite z > 0, z = m * 4^s with m whole, 2^104 <= m < 2^106: r, the largest whole number whose
// square is at most m, and m - r*r; s; r * 2^s or (r + 1) * 2^s, whichever is nearer to the root.
#[tactic(auto, unfolding(crate::proofs::Unfolds::sim3_root_unfolds))]
pub fn sim3_root(
    z: f64,
    whole: &mut [u64],
    exponent: &mut [i64],
    nearest: &mut [f64],
) -> Result<(), Refusal>
    ensures value { status (answer result) ≡ status (root_call z (root_lists whole.old exponent.old nearest.old)) }
    ensures nearest_after { root_lists whole.new exponent.new nearest.new
        ≡ root_written z (root_lists whole.old exponent.old nearest.old) }
{
    let p = root::root(z)?;
    if whole.len() != WHOLE {
        return Err(Refusal::ListLength);
    }
    if exponent.len() != EXPONENT {
        return Err(Refusal::ListLength);
    }
    if nearest.len() != NEAREST {
        return Err(Refusal::ListLength);
    }
    let s = p.exponent;
    whole[0] = p.root;
    whole[1] = p.remainder;
    exponent[0] = s;
    nearest[0] = p.nearest;
    Ok(())
}
