// The job: it reads records and answers them one after another until the input ends, a mark is unknown, a record is cut
// or the limit is reached; then it writes the counts. `feed` does this with the bytes at hand, so that a program may
// read its input in any pieces. Proved: each call follows its definition (Feeds); any way of feeding writes the output
// of the whole job (StreamTheorem), which is the replies in their order (InputTheorem); and the counts add up
// (CountsTheorem). Rests on marks.
#![tactic(auto)]

ghost use Rattle.std.specs.Prelude.{◌≡◌, true, false, ◌++◌, ◌+◌, ◌*◌, ◌≤◌, ◌<◌, length, drop, eqb};
ghost use Rattle.std.proofs.lemmas.List.Edits.{sets};
ghost use Rattle.linalg.specs.Answer.{number};
ghost use Rattle.wire.specs.Wire.{count_bytes};
ghost use Rattle.record_result.specs.declared.Disposition.{Disposition};
ghost use Rattle.record_result.specs.RecordResult.{longest, mark_bytes, no_bytes};
ghost use Rattle.marks.specs.Rows.{row_count};
ghost use Rattle.job.specs.Counts.{counts_none, counts_more, counts_sound, by_mark_bytes, total};
ghost use Rattle.job_state.specs.State.{state_of};
ghost use Rattle.job.specs.Job.{standing_none, trailer, job_of, job_limit};
ghost use Rattle.job.specs.Input.{InputTheorem};
ghost use Rattle.job.specs.Feed.{Part, closing, is_over, goes_on, asks_for, feed_of, fed_view, part_view, Feeds};
ghost use Rattle.job.specs.Private.{Sound, InRows, counts_lost, looped_of, part_fed, looped_kept, stop_of};
ghost use Rattle.job.specs.Private.{end_of, trailer_length};

use job_state::JobState;
use linalg::refusal::Refusal;
use marks::ROWS;
use record_result::{Disposition, LONGEST, Step};

// The most records that a job may begin.
const LIMIT: u32 = 1_000_000;

// How many bytes the counts take, their mark included.
const TRAILER: usize = 2 + 4 * 4 + 4 * ROWS;

// How many records were begun; and how many of them were answered with finite numbers only, were refused, and were
// answered with a NaN or an infinity. An unknown mark, a half mark and a cut record count as begun and refused.
#[derive(Clone, Copy, Default)]
pub struct Totals {
    pub begun: u32,
    pub answered: u32,
    pub refused: u32,
    pub unusable: u32,
}

// The counts of a job: these four, then how many records of each mark were begun, cut records included, and last how
// many unknown and half marks.
#[derive(Clone, Copy)]
pub struct Counts {
    pub totals: Totals,
    pub by_mark: [u32; ROWS],
}

// Why the record loop ended. `More`: the bytes at hand end inside a record or after one, and more may come. `Room`: the
// output has no room for the longest answer. `Bad`: the counts passed in are unsound. The other four end the job: the
// limit, the end of the input, an unknown mark, a cut record.
#[derive(Clone, Copy, PartialEq, Eq)]
pub enum Reason {
    More,
    Room,
    Bad,
    Full,
    End,
    Unknown,
    Cut,
}

impl Reason {
    // Whether to call again.
    pub fn goes_on(self) -> bool
        ensures { result ≡ goes_on self }
    {
        matches!(self, Reason::More | Reason::Room)
    }

    // Whether to read more first.
    pub fn asks_for(self) -> bool
        ensures { result ≡ asks_for self }
    {
        matches!(self, Reason::More)
    }
}

// What a call did: why it stopped, the counts, how many bytes of the input it used, and how many it wrote.
#[derive(Clone, Copy)]
pub struct Fed {
    pub reason: Reason,
    pub counts: Counts,
    pub used: usize,
    pub written: usize,
}

// ---- the record loop
// One more record, of the mark in this row.
fn count(c: &mut Counts, disposition: Disposition, row: usize)
    requires sound { Sound job_limit c.old }
    requires row_lt_row_count { row < row_count }
    ensures { c.new ≡ counts_more disposition row c.old }
{
    c.by_mark[row] += 1;
    c.totals.begun += 1;
    match disposition {
        Disposition::Answered => c.totals.answered += 1,
        Disposition::Refused => c.totals.refused += 1,
        Disposition::Unusable => c.totals.unusable += 1,
    }
}

fn leave(reason: Reason, counts: Counts, used: usize, written: usize) -> Fed
    ensures { result ≡ record { reason = reason; counts = counts; used = used; written = written } }
{
    Fed {
        reason,
        counts,
        used,
        written,
    }
}

// Ends the loop if the output has room for the end: as much as for the longest answer, which is more than a refusal and
// the counts take. Else the loop ends for lack of room, with the counts as they are. `lost` is the place among the
// marks of a record that is refused and not read.
fn stop(
    reason: Reason,
    c: Counts,
    lost: Option<usize>,
    used: usize,
    written: usize,
    room: usize,
) -> Fed
    requires sound { Sound job_limit c }
    requires lost_in_rows { InRows lost }
    ensures { result ≡ stop_of reason c (counts_lost lost c) used written room }
{
    if room < LONGEST {
        return leave(Reason::Room, c, used, written);
    }
    match lost {
        None => leave(reason, c, used, written),
        Some(row) => {
            let mut counts = c;
            count(&mut counts, Disposition::Refused, row);
            leave(reason, counts, used, written)
        }
    }
}

// Why the loop ends at what takes no reply, and the place among the marks of a record that is refused and not read.
fn end_at(step: Step, last: bool, row: usize) -> (Reason, Option<usize>)
    ensures { result ≡ end_of step last row }
{
    match step {
        Step::Unknown => (Reason::Unknown, Some(row)),
        Step::Cut if last => (Reason::Cut, Some(row)),
        Step::End if last => (Reason::End, None),
        Step::Room => (Reason::Room, None),
        _ => (Reason::More, None),
    }
}

// The whole records at hand. `reply` tests the room for each answer, `stop` the room for the end.
#[tactic(auto, using(crate::proofs::Loop::going))]
fn records(c0: Counts, state: &mut JobState, input: &[u8], last: bool, out: &mut [u8]) -> Fed
    requires sound { Sound job_limit c0 }
    ensures value { result ≡ part_fed (looped_of c0 state.old input.now last (length out.old)) }
    ensures out_after { out.new ≡ sets out.old 0 (looped_of c0 state.old input.now last (length out.old)).bytes }
    ensures kept_after { state.new ≡ looped_kept c0 state.old input.now (length out.old) }
    ensures state_after { state_of state.new
        ≡ (looped_of c0 state.old input.now last (length out.old)).standing.state }
{
    let mut c = c0;
    let mut at = 0;
    let mut to = 0;
    for _ in c0.totals.begun..LIMIT {
        let dispatched = marks::reply(&input[at..], state, &mut out[to..]);
        match dispatched.step {
            Step::Took(disposition, used, written) => {
                count(&mut c, disposition, dispatched.row);
                at += used;
                to += written;
            }
            step => {
                let (reason, lost) = end_at(step, last, dispatched.row);
                return stop(reason, c, lost, at, to, out.len() - to);
            }
        }
    }
    stop(Reason::Full, c, None, at, to, out.len() - to)
}

// ---- the end of the output, and the whole
fn put_no(out: &mut [u8], at: usize, refusal: Refusal)
    requires { at + 3 ≤ length out.old }
    ensures { out.new ≡ sets out.old at (no_bytes (number refusal)) }
{
    out[at..at + 3].copy_from_slice(&[b'N', b'O', refusal.number()]);
}

fn put_zz(out: &mut [u8], at: usize)
    requires { at + 2 ≤ length out.old }
    ensures { out.new ≡ sets out.old at (mark_bytes 0x5a 0x5a) }
{
    out[at..at + 2].copy_from_slice(b"ZZ");
}

fn put_count(out: &mut [u8], at: usize, n: u32)
    requires { at + 4 ≤ length out.old }
    ensures { out.new ≡ sets out.old at (count_bytes n) }
{
    out[at..at + 4].copy_from_slice(&wire::count_to_le_bytes(n));
}

fn put_by_mark(out: &mut [u8], at: usize, by_mark: [u32; ROWS])
    requires { at + 4 * row_count ≤ length out.old }
    ensures { out.new ≡ sets out.old at (by_mark_bytes by_mark) }
{
    for (i, n) in by_mark.iter().enumerate() {
        put_count(out, at + 4 * i, *n);
    }
}

// ZZ and the counts. Returns how many bytes they are.
fn put_trailer(out: &mut [u8], at: usize, c: Counts) -> usize
    requires { at + trailer_length ≤ length out.old }
    ensures value { result ≡ length (trailer c) }
    ensures out_after { out.new ≡ sets out.old at (trailer c) }
{
    put_zz(out, at);
    put_count(out, at + 2, c.totals.begun);
    put_count(out, at + 6, c.totals.answered);
    put_count(out, at + 10, c.totals.refused);
    put_count(out, at + 14, c.totals.unusable);
    put_by_mark(out, at + 18, c.by_mark);
    TRAILER
}

// The refusal that ends a job, and the counts. Returns how many bytes they are.
fn put_refused(out: &mut [u8], at: usize, refusal: Refusal, c: Counts) -> usize
    requires { at + (3 + trailer_length) ≤ length out.old }
    ensures value { result ≡ length (no_bytes (number refusal) ++ trailer c) }
    ensures out_after { out.new ≡ sets out.old at (no_bytes (number refusal) ++ trailer c) }
{
    put_no(out, at, refusal);
    3 + put_trailer(out, at + 3, c)
}

// What is written after the loop. Returns how many bytes it is.
fn close(reason: Reason, c: Counts, out: &mut [u8], at: usize) -> usize
    requires { is_over reason ≡ true → at + longest ≤ length out.old }
    ensures value { result ≡ length (closing reason c) }
    ensures out_after { out.new ≡ sets out.old at (closing reason c) }
{
    match reason {
        Reason::Full | Reason::End => put_trailer(out, at, c),
        Reason::Unknown => put_refused(out, at, Refusal::UnknownMark, c),
        Reason::Cut => put_refused(out, at, Refusal::CutInput, c),
        Reason::More | Reason::Room | Reason::Bad => 0,
    }
}

// Whether the counts by mark add up to n: each is subtracted from what is left of n, so no sum can overflow.
fn add_up(by_mark: [u32; ROWS], n: u32) -> bool
    ensures { result ≡ eqb (total by_mark) n }
{
    let mut left = n;
    for x in &by_mark {
        if left < *x {
            return false;
        }
        left -= *x;
    }
    left == 0
}

fn sound(c: Counts) -> bool
    ensures { result ≡ counts_sound job_limit c }
{
    if c.totals.begun <= LIMIT {
        if c.totals.answered <= c.totals.begun {
            let left = c.totals.begun - c.totals.answered;
            if c.totals.refused <= left {
                if c.totals.unusable == left - c.totals.refused {
                    return add_up(c.by_mark, c.totals.begun);
                }
            }
        }
    }
    false
}

// One call with the bytes at hand, `last` if no more will come: it handles whole records while the output has room for
// the longest answer, and ends the job where there is a reason to. The caller removes the used bytes from the input and
// calls again with the rest, the returned counts and the same state. For unsound counts it returns `Bad` and writes
// nothing.
pub fn feed(c: Counts, state: &mut JobState, input: &[u8], last: bool, out: &mut [u8]) -> Fed
    ensures { Feeds c state.old input.now last out.old result out.new state.new }
{
    if !sound(c) {
        return leave(Reason::Bad, c, 0, 0);
    }
    let l = records(c, state, input, last, out);
    let n = close(l.reason, l.counts, out, l.written);
    Fed {
        written: l.written + n,
        ..l
    }
}

// The counts before the first record.
pub fn no_counts() -> Counts
    ensures { result ≡ counts_none }
{
    Counts {
        totals: Totals::default(),
        by_mark: [0; ROWS],
    }
}

// The whole job on one slice. If `out` is too short, the reason is `Room`, and the records that had room are answered.
// The output is the replies to the records of the input, each by the state after those before it (`InputTheorem`).
pub fn run(input: &[u8], out: &mut [u8]) -> Fed
    ensures result_value { fed_view result
        ≡ part_view (feed_of job_limit standing_none input.now true (length out.old)) }
    ensures out_after { out.new ≡ (feed_of job_limit standing_none input.now true (length out.old)).bytes
        ++ drop result.written out.old }
    ensures job_value { is_over result.reason ≡ true → out.new
        ≡ job_of job_limit input.now ++ drop result.written out.old }
    ensures input_theorem { InputTheorem job_limit input.now }
{
    let mut state = job_state::fresh();
    feed(no_counts(), &mut state, input, true, out)
}
