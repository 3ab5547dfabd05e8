// How near another arm is, to a list of whole numbers: the count, which can be as large as a pattern and so is not a
// double, the direction, and the arm there.
ghost use Rattle.std.specs.Prelude.{◌≡◌};
ghost use Rattle.linalg.specs.Answer.{answer};
ghost use Rattle.nearest.specs.Nearest.{near_view, step_view};
ghost use Rattle.to_lists.specs.Written.{status, written};
ghost use Rattle.sim3_c.specs.Near.{near_numbers, near_call};

use linalg::refusal::Refusal;
use nearest::width::Neighbours;
use nearest::{Direction, Step};

const NUMBERS: usize = 3;

// The count, the direction, which is 0 for down and 1 for up, and the arm; three zeros if there is none.
#[tactic(auto, unfolding(crate::specs::Near::near_numbers, nearest::specs::Nearest::step_view))]
fn numbers(near: Option<Step>) -> [u64; NUMBERS]
    ensures { result ≡ near_numbers (near_view step_view near) }
{
    match near {
        Some(
            Step {
                count,
                direction: Direction::Down,
                arm,
            },
        ) => [count, 0, u64::from(arm.number())],
        Some(
            Step {
                count,
                direction: Direction::Up,
                arm,
            },
        ) => [count, 1, u64::from(arm.number())],
        None => [0; NUMBERS],
    }
}

// The least number of neighbouring values that z must move for the arm at (sigma, z) to change, the direction, and the
// arm there; three zeros if every permitted z has the same arm.
#[tactic(auto, unfolding(crate::specs::Near::near_call, to_lists::proofs::OnLists::on_lists))]
pub fn sim3_nearest_arm<T: Neighbours>(sigma: T, z: T, out: &mut [u64]) -> Result<(), Refusal>
    ensures value { status (answer result) ≡ status (near_call T.format (T.float sigma) (T.float z) out.old) }
    ensures out_after { out.new ≡ written (near_call T.format (T.float sigma) (T.float z) out.old) out.old }
{
    let near = nearest::nearest_arm(sigma, z)?;
    if out.len() != NUMBERS {
        return Err(Refusal::ListLength);
    }
    out.copy_from_slice(&numbers(near));
    Ok(())
}
