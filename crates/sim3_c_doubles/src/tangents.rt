// The order of tangents, and the sorting of a list of them in place. A number is its 64-bit pattern here: two NaNs with
// different bits differ.
ghost use Rattle.std.specs.Prelude.{◌≡◌};
ghost use Rattle.linalg.specs.Answer.{answer};
ghost use Rattle.to_lists.specs.Written.{status, written};
ghost use Rattle.sim3_c_doubles.specs.Order.{order_number, compare_call, sort_call};

use layout::TANGENT;
use linalg::refusal::Refusal;
use std::cmp::Ordering;

const ORDER: usize = 1;

#[tactic(auto, unfolding(crate::specs::Order::order_number))]
fn order_number(o: Ordering) -> i64
    ensures { result ≡ order_number o }
{
    match o {
        Ordering::Less => -1,
        Ordering::Equal => 0,
        Ordering::Greater => 1,
    }
}

// Compares the tangents a and b: -1 if a comes before b, 0 if their bits are the same, 1 if it comes after.
#[tactic(auto, unfolding(crate::proofs::Unfolds::sim3_compare_tangents_unfolds))]
pub fn sim3_compare_tangents(a: &[u64], b: &[u64], out: &mut [i64]) -> Result<(), Refusal>
    ensures value { status (answer result) ≡ status (compare_call a.now b.now out.old) }
    ensures out_after { out.new ≡ written (compare_call a.now b.now out.old) out.old }
{
    let x: &[u64; TANGENT] = a.as_array().ok_or(Refusal::ListLength)?;
    let y: &[u64; TANGENT] = b.as_array().ok_or(Refusal::ListLength)?;
    if out.len() != ORDER {
        return Err(Refusal::ListLength);
    }
    out[0] = order_number(order::compare(x, y));
    Ok(())
}

// Sorts the tangents of the list, seven numbers each, smallest first. Refusal 5 for a list longer than 7,168 numbers or
// not a multiple of seven.
#[tactic(auto, unfolding(crate::proofs::Unfolds::sim3_sort_tangents_unfolds))]
pub fn sim3_sort_tangents(list: &mut [u64]) -> Result<(), Refusal>
    ensures value { status (answer result) ≡ status (sort_call list.old) }
    ensures list_after { list.new ≡ written (sort_call list.old) list.old }
{
    order::sort(list)
}
