// The result of a record: the cases that the engine's operations, the marks and the record loop return, in either
// format. Proved: what each case means (specs/RecordResult). Rests on frames, layout and wire.
#![tactic(auto)]

ghost use Rattle.std.specs.Prelude.{◌≡◌};
ghost use Rattle.record_result.specs.RecordResult.{disposition_of};

use layout::BLOCK_PAIR;

// The length of the longest answer: the mark and the doubles of PA's.
pub const LONGEST: usize = 2 + 8 * BLOCK_PAIR;

// The operations of the engine that a record can name.
#[derive(Clone, Copy)]
pub enum Operation {
    Ex,
    Co,
    Pa,
    Ac,
    Mu,
    In,
    Ji,
    Ar,
}

// How a record counts: it got an answer whose every number is finite; it was refused; or it got an answer that holds a
// NaN or an infinity.
#[derive(Clone, Copy)]
pub enum Disposition {
    Answered,
    Refused,
    Unusable,
}

impl Disposition {
    // The disposition of a record that got an answer, by whether its every number is finite.
    pub fn of_answer(finite: bool) -> Disposition
        ensures { result ≡ disposition_of finite }
    {
        if finite {
            Disposition::Answered
        } else {
            Disposition::Unusable
        }
    }
}

// What an operation wrote after the mark: its disposition, and how many bytes.
#[derive(Clone, Copy)]
pub struct Wrote {
    pub disposition: Disposition,
    pub length: usize,
}

// The result for the head of the input: a whole record, with its disposition, its length and how many bytes were
// written for it; a whole record for whose answer the output has no room; nothing; two bytes that are not a mark; or a
// mark or record that the input cuts.
#[derive(Clone, Copy)]
pub enum Step {
    Took(Disposition, usize, usize),
    Room,
    End,
    Unknown,
    Cut,
}
