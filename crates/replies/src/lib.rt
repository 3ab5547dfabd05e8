// The operations of the engine behind the marks, on doubles and on singles: how many bytes a record has after its mark,
// and the answer to it. Each reads numbers into lists, calls the function that C callers have, and encodes what it
// wrote. Proved: the reply to every record is the one of the table (specs/Table), and AR agrees with CO and PA (ArAsCo,
// ArAsPa). Rests on sim3_c_entries, wire and record_result.
#![tactic(auto)]

ghost use Rattle.std.specs.Prelude.{◌≡◌, ◌+◌, ◌≤◌, length};
ghost use Rattle.std.proofs.lemmas.List.Edits.{sets};
ghost use Rattle.linalg.specs.Answer.{answer};
ghost use Rattle.record_result.specs.RecordResult.{longest, record_result, written_of, step_view, written_answer};
ghost use Rattle.record_result.specs.RecordResult.{answer_bytes};
ghost use Rattle.replies.specs.Table.{width_of, answer_of, operation_head};
ghost use Rattle.record_result.specs.Framed.{framed_width};

use crate::operations::{ac, ar, co, ex, inv, ji, mu, pa};
use coeffs::width::Width;
use layout::{BLOCK, MAT, POSE, TANGENT, VALUES, VEC};
use linalg::refusal::Refusal;
use record_result::{Disposition, LONGEST, Operation, Step, Wrote};
use wire::Number;

mod operations; // the operations

// How many bytes both frames of a pose have.
const FRAMES: usize = 2 * 2;

// How many bytes a pose with both of its frames has.
fn framed<T: Number>() -> usize
    ensures { result ≡ framed_width T.format }
{
    T::BYTES * POSE + FRAMES
}

// How many bytes a record has after its mark.
fn width<T: Number>(e: Operation) -> usize
    ensures { result ≡ width_of T.format e }
{
    match e {
        Operation::Ex => T::BYTES * (TANGENT + VALUES) + FRAMES,
        Operation::Co => T::BYTES * (2 + VALUES),
        Operation::Pa => T::BYTES * (TANGENT + VALUES + 2 * MAT),
        Operation::Ac => framed::<T>() + T::BYTES * (1 + VEC),
        Operation::Mu => 2 * framed::<T>() + T::BYTES,
        Operation::In => framed::<T>() + T::BYTES,
        Operation::Ji => T::BYTES * BLOCK,
        Operation::Ar => T::BYTES * (2 + VALUES),
    }
}

// The answer to the bytes b after a mark, written from the front of `out` on.
#[tactic(auto, unfolding(crate::specs::Table::answer_of))]
fn give<T: Width + Number>(e: Operation, b: &[u8], out: &mut [u8]) -> Result<Wrote, Refusal>
    requires b_len { length b.now ≡ width_of T.format e }
    requires longest_bound { longest ≤ 2 + length out.old }
    ensures value { answer result ≡ written_answer T.format (answer_of T.format e b.now) }
    ensures out_after { out.new ≡ sets out.old 0 (answer_bytes T.format (answer_of T.format e b.now)) }
{
    match e {
        Operation::Ex => ex::<T>(b, out),
        Operation::Co => co::<T>(b, out),
        Operation::Pa => pa::<T>(b, out),
        Operation::Ac => ac::<T>(b, out),
        Operation::Mu => mu::<T>(b, out),
        Operation::In => inv::<T>(b, out),
        Operation::Ji => ji::<T>(b, out),
        Operation::Ar => ar::<T>(b, out),
    }
}

// Writes the reply to the record at the head of s, whose mark names the operation e, to the front of `out`: the mark
// again and the numbers, or NO and the refusal. Nothing is written if s is shorter than the record, or `out` than the
// longest answer.
pub fn reply<T: Width + Number>(e: Operation, s: &[u8], out: &mut [u8]) -> Step
    ensures result_value { step_view result ≡ record_result (operation_head T.format e s.now) (length out.old) }
    ensures out_after { out.new ≡ sets out.old 0 (written_of (operation_head T.format e s.now) (length out.old)) }
{
    let end = 2 + width::<T>(e);
    if s.len() < end {
        return Step::Cut;
    }
    if out.len() < LONGEST {
        return Step::Room;
    }
    match give::<T>(e, &s[2..end], &mut out[2..]) {
        Ok(wrote) => {
            out[0] = s[0];
            out[1] = s[1];
            Step::Took(wrote.disposition, end, 2 + wrote.length)
        }
        Err(refusal) => {
            out[0] = b'N';
            out[1] = b'O';
            out[2] = refusal.number();
            Step::Took(Disposition::Refused, end, 3)
        }
    }
}
