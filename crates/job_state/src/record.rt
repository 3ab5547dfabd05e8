// What the four records have in common: the test whether one is taken, and the refusal.
ghost use Rattle.std.specs.Prelude.{◌≡◌, ◌≤◌, length, MatchResult};
ghost use Rattle.std.proofs.lemmas.List.Edits.{sets};
ghost use Rattle.linalg.specs.Answer.{number};
ghost use Rattle.record_result.specs.RecordResult.{longest, no_bytes, wrote, step_view};
ghost use Rattle.record_result.specs.declared.Disposition.{Disposition};
ghost use Rattle.job_state.specs.Records.{IsTaken, IsLeft};

use linalg::refusal::Refusal;
use record_result::{Disposition, LONGEST, Step};

// The bytes after the mark of a record of this size; or the result if the input cuts the record or the output has no
// room for the longest answer.
pub(crate) fn taken<'a>(size: usize, s: &'a [u8], out: &[u8]) -> Result<&'a [u8], Step>
    requires { 2 ≤ size }
    ensures { MatchResult result
        (λ b. IsTaken size s.now out.now b.now)
        (λ step. IsLeft size s.now out.now step) }
{
    if s.len() < size {
        return Err(Step::Cut);
    }
    if out.len() < LONGEST {
        return Err(Step::Room);
    }
    Ok(&s[2..size])
}

// Writes the mark at the front.
pub(crate) fn put_mark(out: &mut [u8], mark: &[u8; 2])
    requires { 2 ≤ length out.old }
    ensures { out.new ≡ sets out.old 0 mark.now }
{
    out[0] = mark[0];
    out[1] = mark[1];
}

// Writes NO and the refusal.
#[tactic(auto, unfolding(record_result::specs::RecordResult::no_bytes))]
pub(crate) fn refuse(size: usize, out: &mut [u8], refusal: Refusal) -> Step
    requires { longest ≤ length out.old }
    ensures result_value { step_view result ≡ wrote Disposition.Refused size 3 }
    ensures out_after { out.new ≡ sets out.old 0 (no_bytes (number refusal)) }
{
    put_mark(out, b"NO");
    out[2] = refusal.number();
    Step::Took(Disposition::Refused, size, 3)
}
