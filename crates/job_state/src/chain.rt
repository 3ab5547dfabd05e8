// CH and RN, the records of the running join.
ghost use Rattle.std.specs.Prelude.{◌≡◌, ◌+◌, ◌≤◌, length};
ghost use Rattle.std.proofs.lemmas.List.Edits.{sets};
ghost use Rattle.linalg.specs.Answer.{answers};
ghost use Rattle.running.specs.Running.{every_of};
ghost use Rattle.wire.specs.Wire.{word_at};
ghost use Rattle.record_result.specs.RecordResult.{longest, step_view};
ghost use Rattle.job_state.specs.Records.{by_rule, Handled, took_of};
ghost use Rattle.job_state.specs.Chain.{ch_size, rn_size, ch_of, ch_reply, rn_reply, ch_rule, rn_rule};

use crate::JobState;
use crate::record::{put_mark, refuse, taken};
use frames::Pose;
use record_result::{Disposition, Step};
use running::Running;
use sheets::bytes::{FRAMED, framed_bytes, framed_of};
use wire::{from_le_bytes, short_from_le_bytes, short_to_le_bytes};

// How many bytes the records have, the mark included.
const CH: usize = 2 + FRAMED + 8;

const RN: usize = 2 + 2;

// ---- CH
// Writes the mark and the running pose.
fn put_running(out: &mut [u8], x: Pose<f64>) -> Step
    requires { longest ≤ length out.old }
    ensures result_value { step_view result ≡ took_of ch_size (ch_reply (answers x)) }
    ensures out_after { out.new ≡ sets out.old 0 (ch_reply (answers x)).bytes }
{
    put_mark(out, b"CH");
    let (bytes, finite) = framed_bytes(x);
    out[2..2 + FRAMED].copy_from_slice(&bytes);
    Step::Took(Disposition::of_answer(finite), CH, 2 + FRAMED)
}

// Joins a pose, read from the bytes after the mark.
fn join(b: &[u8], running: &mut Running, out: &mut [u8]) -> Step
    requires b_value { 2 + length b.now ≡ ch_size }
    requires longest_in_bounds { longest ≤ length out.old }
    ensures result_value { step_view result ≡ took_of ch_size (ch_reply (ch_of running.old b.now).answer) }
    ensures out_after { out.new ≡ sets out.old 0 (ch_reply (ch_of running.old b.now).answer).bytes }
    ensures running_after { running.new ≡ (ch_of running.old b.now).running }
{
    let x = framed_of(b.first_chunk().unwrap());
    let up = from_le_bytes(*b[FRAMED..].first_chunk().unwrap());
    let j = running.join(x, up);
    *running = j.running;
    match j.answer {
        Ok(p) => put_running(out, p),
        Err(refusal) => refuse(CH, out, refusal),
    }
}

pub fn ch(s: &[u8], state: &mut JobState, out: &mut [u8]) -> Step
    ensures { Handled (by_rule ch_rule) state.old s.now out.old result out.new state.new }
{
    match taken(CH, s, out) {
        Ok(b) => join(b, &mut state.running, out),
        Err(step) => step,
    }
}

// ---- RN
// Renormalise after every nth product from now on; n is read from the bytes after the mark. Writes the mark and n.
fn renew(b: &[u8], running: &mut Running, out: &mut [u8]) -> Step
    requires b_value { 2 + length b.now ≡ rn_size }
    requires longest_in_bounds { longest ≤ length out.old }
    ensures result_value { step_view result ≡ took_of rn_size (rn_reply (word_at 2 b.now 0)) }
    ensures out_after { out.new ≡ sets out.old 0 (rn_reply (word_at 2 b.now 0)).bytes }
    ensures running_after { running.new ≡ every_of running.old (word_at 2 b.now 0) }
{
    let n = short_from_le_bytes([b[0], b[1]]);
    running.set_every(n);
    put_mark(out, b"RN");
    out[2..4].copy_from_slice(&short_to_le_bytes(n));
    Step::Took(Disposition::Answered, RN, 2 + 2)
}

pub fn rn(s: &[u8], state: &mut JobState, out: &mut [u8]) -> Step
    ensures { Handled (by_rule rn_rule) state.old s.now out.old result out.new state.new }
{
    match taken(RN, s, out) {
        Ok(b) => renew(b, &mut state.running, out),
        Err(step) => step,
    }
}
