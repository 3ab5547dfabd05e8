// The table of marks, and the head of the input. Proved: each record follows the rule of its mark (Handled by_table),
// and the state after any records is that of their plain history (KeptAfter), from which the replies to CH, RN, SH and
// SQ follow (RecordAnswered). Rests on replies and job_state.
#![tactic(auto)]

ghost use Rattle.std.specs.Prelude.{◌≡◌, ◌+◌, ◌*◌};
ghost use Rattle.job_state.specs.Records.{Handled};
ghost use Rattle.marks.specs.Marks.{table, look_up, mark_of, look_up_view, by_table};
ghost use Rattle.marks.specs.Rows.{row_at};

use job_state::JobState;
use job_state::chain::{ch, rn};
use job_state::retakes::{sh, sq};
use record_result::{Operation, Step};

// How many counts by mark a job has: one for each mark of the table, and the last for anything else.
pub const ROWS: usize = 20;

// The place of what is not a mark.
const UNLISTED: usize = ROWS - 1;

// The meaning of a mark: an operation of the engine, on doubles or on singles, or a record of the running join or of
// the retaken sheets.
#[derive(Clone, Copy)]
pub enum Mark {
    Double(Operation),
    Single(Operation),
    Ch,
    Rn,
    Sh,
    Sq,
}

// The result for the head of the input, and its place among the counts by mark.
#[derive(Clone, Copy)]
pub struct Dispatched {
    pub step: Step,
    pub row: usize,
}

// The table: the mark whose two bytes are this number, with its place among the counts by mark.
#[tactic(auto, unfolding(crate::specs::Marks::look_up))]
fn known(k: u16) -> Option<(Mark, usize)>
    ensures { look_up_view result ≡ look_up k 0 table }
{
    match k {
        0x4558 => Some((Mark::Double(Operation::Ex), 0)),
        0x434f => Some((Mark::Double(Operation::Co), 1)),
        0x5041 => Some((Mark::Double(Operation::Pa), 2)),
        0x4143 => Some((Mark::Double(Operation::Ac), 3)),
        0x4d55 => Some((Mark::Double(Operation::Mu), 4)),
        0x494e => Some((Mark::Double(Operation::In), 5)),
        0x4a49 => Some((Mark::Double(Operation::Ji), 6)),
        0x6578 => Some((Mark::Single(Operation::Ex), 7)),
        0x636f => Some((Mark::Single(Operation::Co), 8)),
        0x7061 => Some((Mark::Single(Operation::Pa), 9)),
        0x6163 => Some((Mark::Single(Operation::Ac), 10)),
        0x6d75 => Some((Mark::Single(Operation::Mu), 11)),
        0x696e => Some((Mark::Single(Operation::In), 12)),
        0x6a69 => Some((Mark::Single(Operation::Ji), 13)),
        0x4152 => Some((Mark::Double(Operation::Ar), 14)),
        0x4348 => Some((Mark::Ch, 15)),
        0x524e => Some((Mark::Rn, 16)),
        0x5348 => Some((Mark::Sh, 17)),
        0x5351 => Some((Mark::Sq, 18)),
        _ => None,
    }
}

// The mark of two bytes, if they are one.
pub fn look_up(a: u8, b: u8) -> Option<(Mark, usize)>
    ensures { look_up_view result ≡ mark_of a b }
{
    known(u16::from_be_bytes([a, b]))
}

fn dispatch(step: Step, row: usize) -> Dispatched
    ensures { result ≡ record { step = step; row = row } }
{
    Dispatched { step, row }
}

// Writes the reply to the record at the head of s to the front of `out` and updates the state, or returns why it takes
// none. Nothing is written if s ends inside the record or `out` is shorter than the longest answer. The result has the
// record's place among the counts by mark, also for a cut record; half a mark counts as no mark. PERF (D122): inlined
// into the record loop: a call costs most records thirty instructions or more.
#[inline(always)]
pub fn reply(s: &[u8], state: &mut JobState, out: &mut [u8]) -> Dispatched
    ensures handled { Handled by_table state.old s.now out.old result.step out.new state.new }
    ensures row_value { result.row ≡ row_at s.now }
{
    if s.len() < 2 {
        if s.len() == 0 {
            return dispatch(Step::End, UNLISTED);
        }
        return dispatch(Step::Cut, UNLISTED);
    }
    let Some((m, place)) = look_up(s[0], s[1]) else {
        return dispatch(Step::Unknown, UNLISTED);
    };
    match m {
        Mark::Double(e) => dispatch(replies::reply::<f64>(e, s, out), place),
        Mark::Single(e) => dispatch(replies::reply::<f32>(e, s, out), place),
        Mark::Ch => dispatch(ch(s, state, out), place),
        Mark::Rn => dispatch(rn(s, state, out), place),
        Mark::Sh => dispatch(sh(s, state, out), place),
        Mark::Sq => dispatch(sq(s, state, out), place),
    }
}
