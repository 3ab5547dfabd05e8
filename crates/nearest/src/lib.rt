// How near another arm of the coefficients is: the fewest neighbouring values that z must move, down or up, for the arm
// at (sigma, z) to change. Proved: the answer is the least such number, and there is no other (NearestTheorem).
// Neighbouring values have neighbouring bit patterns, and the arm does not fall as z grows; so halving the patterns
// finds the two ends of z's arm. Rests on arms.
#![tactic(auto)]

ghost use Rattle.std.specs.Prelude.{◌≡◌, true, false, ◌&&◌, ◌<◌, ◌≤◌};
ghost use Rattle.std.specs.Float.Ieee.{to_bits, lt};
ghost use Rattle.ieee.specs.Finite.{is_finite};
ghost use Rattle.ieee.specs.Numbers.{f0};
ghost use Rattle.ieee.specs.Patterns.{patterns};
ghost use Rattle.ieee.specs.Signs.{unsigned_zero};
ghost use Rattle.linalg.specs.Answer.{view};
ghost use Rattle.arms.specs.Arm.{arm_number};
ghost use Rattle.nearest.specs.Nearest.{step, permitted, place, way_view, step_view, near_view, nearest_from};
ghost use Rattle.nearest.specs.Nearest.{preferred, arm_at, nearest_of};
ghost use Rattle.nearest.specs.Private.{Parts};

use crate::width::Neighbours;
use arms::limits::Arm;
use linalg::refusal::Refusal;

pub mod width; // what depends on the width of the numbers

#[derive(Clone, Copy, PartialEq, Eq)]
pub enum Direction {
    Down,
    Up,
}

// The least number of neighbouring values to another arm, the direction, and the arm there.
#[derive(Clone, Copy)]
pub struct Step {
    pub count: u64,
    pub direction: Direction,
    pub arm: Arm,
}

// The pattern of a finite z from zero up. -0 counts as +0: z + 0 is z without the sign of a zero.
fn start<T: Neighbours>(z: T) -> u64
    requires { (lt (T.float z) f0 ≡ false) × (is_finite (T.float z) ≡ true) }
    ensures { (result ≡ to_bits T.format (unsigned_zero (T.float z))) × (result < patterns T.format) }
{
    (z + T::of(0.0)).place()
}

// The arm at sigma and the value with the pattern p.
fn arm_at<T: Neighbours>(sigma: T, p: u64) -> Arm
    requires { p < patterns T.format }
    ensures { (arm_number result ≡ arm_at T.format (T.float sigma) p) × (1 ≤ arm_number result) }
{
    Arm::at(sigma * sigma + T::value(p))
}

// The first pattern with an arm above number a, or the end if there is none: each turn halves what is left.
fn edge<T: Neighbours>(sigma: T, a: u8) -> u64
    ensures { Parts (arm_at T.format (T.float sigma)) (patterns T.format) a result }
{
    let mut from: u64 = 0;
    let mut to: u64 = T::end();
    while from < to {
        let middle = from + (to - from) / 2;
        if arm_at(sigma, middle).number() <= a {
            from = middle + 1;
        } else {
            to = middle;
        }
    }
    from
}

// `count` steps from the pattern p in a direction, and the arm there.
#[tactic(auto, unfolding(crate::specs::Nearest::step_view))]
fn moved<T: Neighbours>(sigma: T, p: u64, direction: Direction, count: u64) -> Step
    requires { (p < patterns T.format) × (permitted (patterns T.format) (way_view direction) p count ≡ true) }
    ensures { step_view result
        ≡ step count (way_view direction) (arm_at T.format (T.float sigma) (place (way_view direction) p count)) }
{
    match direction {
        Direction::Down => Step {
            count,
            direction,
            arm: arm_at(sigma, p - count),
        },
        Direction::Up => Step {
            count,
            direction,
            arm: arm_at(sigma, p + count),
        },
    }
}

// The nearest other arm from the pattern p, whose arm has the patterns from `low` up to `high`.
fn nearest_from<T: Neighbours>(sigma: T, p: u64) -> Option<Step>
    requires { p < patterns T.format }
    ensures { near_view step_view result ≡ nearest_from (arm_at T.format (T.float sigma))
        (patterns T.format) preferred p }
{
    let a = arm_at(sigma, p).number();
    let low = edge(sigma, a - 1);
    let high = edge(sigma, a);
    let end = T::end();
    if low == 0 {
        if high == end {
            return None;
        }
        return Some(moved(sigma, p, Direction::Up, high - p));
    }
    let down = p - low + 1;
    if high == end {
        return Some(moved(sigma, p, Direction::Down, down));
    }
    if high - p <= down {
        Some(moved(sigma, p, Direction::Up, high - p))
    } else {
        Some(moved(sigma, p, Direction::Down, down))
    }
}

// Whether both are finite: 0 times a finite number is a zero, 0 times another is NaN, and NaN stays NaN.
fn both_finite<T: Neighbours>(x: T, y: T) -> bool
    ensures { result ≡ is_finite (T.float x) && is_finite (T.float y) }
{
    let product = T::of(0.0) * x * y;
    product == product
}

// How many neighbouring values z must move for the arm at (sigma, z) to change; if both directions need the same count,
// it returns up. None if every permitted z has the same arm. Refusal 1 for z < 0, then 8 if sigma or z is a NaN or an
// infinity.
pub fn nearest_arm<T: Neighbours>(sigma: T, z: T) -> Result<Option<Step>, Refusal>
    ensures { view (near_view step_view) result ≡ nearest_of T.format preferred (T.float sigma) (T.float z) }
{
    if z.is_below(T::of(0.0)) {
        return Err(Refusal::NegativeAngle);
    }
    if !both_finite(sigma, z) {
        return Err(Refusal::NotFinite);
    }
    Ok(nearest_from(sigma, start(z)))
}
