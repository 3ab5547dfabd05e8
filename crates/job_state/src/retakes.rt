// SH and SQ, the records of retaken sheets.
ghost use Rattle.std.specs.Prelude.{◌≡◌, ◌+◌, ◌≤◌, length};
ghost use Rattle.std.proofs.lemmas.List.Edits.{sets};
ghost use Rattle.wire.specs.Wire.{word_at};
ghost use Rattle.linalg.specs.Answer.{answer, view};
ghost use Rattle.record_result.specs.RecordResult.{longest, step_view};
ghost use Rattle.sheets.specs.Sheets.{ask};
ghost use Rattle.sheets.specs.Store.{sheets_of, shot_in, shelved_of, put_bytes};
ghost use Rattle.job_state.specs.Records.{by_rule, Handled, took_of};
ghost use Rattle.job_state.specs.Retakes.{sh_size, sq_size, sh_of, sh_reply, sq_reply, sh_rule, sq_rule};

use crate::JobState;
use crate::record::{put_mark, refuse, taken};
use linalg::refusal::Refusal;
use record_result::{Disposition, Step};
use sheets::bytes::{FRAMED, framed_bytes, framed_of};
use sheets::{Shelved, Shot, Store};
use wire::{short_from_le_bytes, short_to_le_bytes};

// How many bytes the records have, the mark included.
const SH: usize = 2 + 2 + 2 + FRAMED;

const SQ: usize = 2 + 2;

// ---- SH
// Writes the mark, 1, 2 or 3, and the take of that sheet kept before; or the refusal.
fn put_shelved(out: &mut [u8], a: Result<Shelved, Refusal>) -> Step
    requires { longest ≤ length out.old }
    ensures result_value { step_view result ≡ took_of sh_size (sh_reply (view shelved_of a)) }
    ensures out_after { out.new ≡ sets out.old 0 (sh_reply (view shelved_of a)).bytes }
{
    match a {
        Ok(shelved) => {
            put_mark(out, b"SH");
            out[2] = shelved.number();
            out[3..5].copy_from_slice(&short_to_le_bytes(shelved.before()));
            Step::Took(Disposition::Answered, SH, 2 + 1 + 2)
        }
        Err(refusal) => refuse(SH, out, refusal),
    }
}

// Puts a shot, read from the bytes after the mark, into the store.
fn shelve(b: &[u8], store: &mut Store, out: &mut [u8]) -> Step
    requires b_value { 2 + length b.now ≡ sh_size }
    requires longest_in_bounds { longest ≤ length out.old }
    ensures result_value { step_view result ≡ took_of sh_size (sh_reply (sh_of (sheets_of store.old) b.now).answer) }
    ensures out_after { out.new ≡ sets out.old 0 (sh_reply (sh_of (sheets_of store.old) b.now).answer).bytes }
    ensures store_after { store.new ≡ put_bytes store.old (word_at 2 b.now 0) (shot_in b.now) }
    ensures sheets_after { sheets_of store.new ≡ (sh_of (sheets_of store.old) b.now).sheets }
{
    let sheet = short_from_le_bytes([b[0], b[1]]);
    let take = short_from_le_bytes([b[2], b[3]]);
    let pose = framed_of(b[4..].first_chunk().unwrap());
    put_shelved(out, sheets::put(store, sheet, Shot { take, pose }))
}

pub fn sh(s: &[u8], state: &mut JobState, out: &mut [u8]) -> Step
    ensures { Handled (by_rule sh_rule) state.old s.now out.old result out.new state.new }
{
    match taken(SH, s, out) {
        Ok(b) => shelve(b, &mut state.store, out),
        Err(step) => step,
    }
}

// ---- SQ
// Writes the mark, the take, and the pose with its frames; or the refusal.
fn put_shot(out: &mut [u8], a: Result<Shot, Refusal>) -> Step
    requires { longest ≤ length out.old }
    ensures result_value { step_view result ≡ took_of sq_size (sq_reply (answer a)) }
    ensures out_after { out.new ≡ sets out.old 0 (sq_reply (answer a)).bytes }
{
    match a {
        Ok(x) => {
            put_mark(out, b"SQ");
            out[2..4].copy_from_slice(&short_to_le_bytes(x.take));
            let (bytes, finite) = framed_bytes(x.pose);
            out[4..4 + FRAMED].copy_from_slice(&bytes);
            Step::Took(Disposition::of_answer(finite), SQ, 2 + 2 + FRAMED)
        }
        Err(refusal) => refuse(SQ, out, refusal),
    }
}

// Looks up a sheet, read from the bytes after the mark.
fn find(b: &[u8], store: &Store, out: &mut [u8]) -> Step
    requires b_value { 2 + length b.now ≡ sq_size }
    requires longest_in_bounds { longest ≤ length out.old }
    ensures result_value { step_view result ≡ took_of sq_size
        (sq_reply (ask (sheets_of store.now) (word_at 2 b.now 0))) }
    ensures out_after { out.new ≡ sets out.old 0 (sq_reply (ask (sheets_of store.now) (word_at 2 b.now 0))).bytes }
{
    let sheet = short_from_le_bytes([b[0], b[1]]);
    put_shot(out, sheets::get(store, sheet))
}

pub fn sq(s: &[u8], state: &JobState, out: &mut [u8]) -> Step
    ensures { Handled (by_rule sq_rule) state.now s.now out.old result out.new state.now }
{
    match taken(SQ, s, out) {
        Ok(b) => find(b, &state.store, out),
        Err(step) => step,
    }
}
