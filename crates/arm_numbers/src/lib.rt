// The arms of the coefficients by their numbers in the answers. Proved: the number of an arm has the terms of its
// definition. Rests on arms, whose own functions take the arm by its name; apart from it, so that no other crate waits
// for this one.
#![tactic(auto)]

ghost use Rattle.std.specs.Prelude.{◌≡◌, ◌≤◌};
ghost use Rattle.arms.specs.Arm.{arm_terms};

use arms::limits::{Arms, SeriesArm};

// The series' term count by the arm's number, 1 to 4; a number of no series has the longest one's.
pub fn terms<T: Arms>(arm: u8) -> usize
    ensures count { result ≡ arm_terms T.format arm }
    ensures accepted { result ≤ 28 }
{
    T::arm_terms(match arm {
        1 => SeriesArm::Short,
        2 => SeriesArm::Mid,
        3 => SeriesArm::Upper,
        _ => SeriesArm::Long,
    })
}
