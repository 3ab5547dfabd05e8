// Answers a job: records from standard input, answers to standard output. All output comes from `job::feed`; this
// program reads into one buffer, feeds it, and writes the other.
//
// No contract can say what the system reads and writes. So `run` takes a place to read from and one to write to: either
// standard input and output (`live`), or a tape, which is cut into pieces in any way, and a sink. It is proved that the
// sink then holds the job's output for the tape. Only `fill` and `put` read `live`: there one call of std reads where
// `read_tape` copies from the tape, and one writes where `put` copies to the sink.
#![tactic(auto)]

ghost use Rattle.std.specs.Prelude.{◌≡◌, true, false, ◌++◌, ◌+◌, ◌-◌, ◌≤◌, ◌<◌, Ok, length, take, drop, get_or};
ghost use Rattle.job.specs.Counts.{counts_sound};
ghost use Rattle.job.specs.Job.{job_limit, job_of};
ghost use Rattle.job.specs.Input.{InputTheorem};
ghost use Rattle.job_state.specs.State.{state_of};
ghost use Rattle.job.specs.Feed.{fed_of, asks_for, record_room};
ghost use Rattle.job.specs.Private.{part_fed};
ghost use Rattle.job.specs.declared.Reason.{Reason};
ghost use Rattle.sim3_job.specs.Filled.{reads, over, Within, FromTape, given_of, filled_of};
ghost use Rattle.sim3_job.specs.Sent.{WithinSink, ToSink, sent_of};
ghost use Rattle.sim3_job.specs.Ran.{Performed};

use job::{Counts, Fed, Reason};
use job_state::JobState;
use std::io::Read;
use std::{fmt, io};

mod probe; // whether the process computes as the proofs say

// Why a run stopped before its job had ended.
#[derive(Clone, Copy, PartialEq, Eq)]
pub enum RunError {
    Unread,
    Unwritten,
}

impl fmt::Display for RunError {
    fn fmt<W: fmt::Write>(&self, f: &mut fmt::Formatter<W>) -> fmt::Result {
        match self {
            RunError::Unread => write!(
                f,
                "standard input could not be read: the output ends without ZZ and is not whole"
            ),
            RunError::Unwritten => write!(
                f,
                "standard output could not be written: what was written is not whole"
            ),
        }
    }
}

// What comes before the next feed: a read; nothing, if the last feed needed room; or nothing more, if the input has
// ended.
#[derive(Clone, Copy)]
pub enum Next {
    Read,
    Again,
    Ended,
}

// The result of a read: how many bytes, or None if the input has ended; and the place on the tape afterwards.
#[derive(Clone, Copy)]
pub struct Filled {
    pub count: Option<usize>,
    pub at: usize,
}

// Feeds the first `have` bytes of buf, and moves those that were not used to the front. If the feed waits for more,
// they are fewer than the longest record has. The counts are always sound.
fn feed_once(
    buf: &mut [u8],
    have: usize,
    c: Counts,
    state: &mut JobState,
    last: bool,
    out: &mut [u8],
) -> Fed
    requires have_in_bounds { have ≤ length buf.old }
    requires c_value { counts_sound job_limit c ≡ true }
    ensures value { result ≡ part_fed (fed_of c state.old (take have buf.old) last (length out.old)) }
    ensures out_after { out.new ≡ (fed_of c state.old (take have buf.old) last (length out.old)).bytes
        ++ drop result.written out.old }
    ensures state_after { state_of state.new
        ≡ (fed_of c state.old (take have buf.old) last (length out.old)).standing.state }
    ensures used_le_have { (result.used ≤ have) × (result.written ≤ length out.old) }
    ensures used_bound { result.reason ≡ Reason.More → have - result.used < record_room }
    ensures fact { result.reason ≡ Reason.Bad → ⊥ }
    ensures buf_after { take (have - result.used) buf.new ≡ drop result.used (take have buf.old) }
{
    let f = job::feed(c, state, &buf[..have], last, out);
    buf.copy_within(f.used..have, 0);
    f
}

// What comes before the next feed, if the last one stopped for this reason and continues.
fn next_after(reason: Reason, ended: bool) -> Next
    ensures reads { reads result ≡ asks_for reason }
    ensures over { over result ≡ true → ended ≡ true }
{
    if reason.asks_for() {
        Next::Read
    } else if ended {
        Next::Ended
    } else {
        Next::Again
    }
}

// How many bytes a read from the tape returns at `at`, with `most` available: the cut there, if it is between 1 and
// `most`, else all.
fn piece(cuts: &[usize], at: usize, most: usize) -> usize
    ensures upper_bound { result ≤ most }
    ensures most_value { result ≡ 0 → most ≡ 0 }
    ensures value { at < length cuts.now → 0 < get_or cuts.now at 0 → get_or cuts.now at 0 ≤ most →
        result ≡ get_or cuts.now at 0 }
{
    match cuts.get(at) {
        Some(&cut) if 0 < cut && cut <= most => cut,
        _ => most,
    }
}

// The result of reading so many bytes with room for one: 0 is the end of the input.
fn given(count: usize) -> Option<usize>
    ensures { result ≡ given_of count }
{
    (count != 0).then_some(count)
}

// Reads from the tape into the buffer, after the bytes at hand.
fn read_tape(tape: &[u8], cuts: &[usize], at: usize, buf: &mut [u8], have: usize) -> Filled
    requires at_in_bounds { at ≤ length tape.now }
    requires have_in_bounds { have < length buf.old }
    ensures within { Within (Ok result) have (length buf.old) true (length tape.now) }
    ensures from_tape { FromTape (Ok result) tape.now at have buf.old buf.new false }
{
    let left = tape.len() - at;
    let room = buf.len() - have;
    let count = piece(cuts, at, left.min(room));
    buf[have..have + count].copy_from_slice(&tape[at..at + count]);
    Filled {
        count: given(count),
        at: at + count,
    }
}

// The result of std's read, with room for a byte: an error, or how many bytes.
fn from_read(got: io::Result<usize>, room: &[u8], at: usize) -> Result<Filled, RunError>
    ensures { result ≡ filled_of got (length room.now) at }
{
    let Ok(read) = got else {
        return Err(RunError::Unread);
    };
    let count = given(read.min(room.len()));
    Ok(Filled { count, at })
}

// Reads from standard input into the buffer, after the bytes at hand.
fn read_input(
    rt: &HostRuntime,
    tape: &[u8],
    at: usize,
    buf: &mut [u8],
    have: usize,
) -> Result<Filled, RunError>
    requires at_in_bounds { at ≤ length tape.now }
    requires have_in_bounds { have < length buf.old }
    ensures within { Within result have (length buf.old) true (length tape.now) }
    ensures buf_unchanged { take have buf.new ≡ take have buf.old }
{
    let mut input = rt.stdin();
    let got = input.read(&mut buf[have..]);
    from_read(got, &buf[have..], at)
}

// Reads once into the buffer, after the bytes at hand, if `next` says so.
fn fill(
    rt: &HostRuntime,
    live: bool,
    tape: &[u8],
    cuts: &[usize],
    at: usize,
    buf: &mut [u8],
    have: usize,
    next: Next,
) -> Result<Filled, RunError>
    requires at_in_bounds { at ≤ length tape.now }
    requires have_in_bounds { have ≤ length buf.old }
    requires have_in_bounds_2 { reads next ≡ true → have < length buf.old }
    ensures within { Within result have (length buf.old) (reads next) (length tape.now) }
    ensures buf_unchanged { take have buf.new ≡ take have buf.old }
    ensures from_tape { live ≡ false → FromTape result tape.now at have buf.old buf.new (over next) }
{
    match next {
        Next::Read => {
            if live {
                return read_input(rt, tape, at, buf, have);
            }
            Ok(read_tape(tape, cuts, at, buf, have))
        }
        Next::Again => Ok(Filled { count: Some(0), at }),
        Next::Ended => Ok(Filled { count: None, at }),
    }
}

// The result of std's write of all the bytes: an error, or the place in the sink, which stays where it is.
#[tactic(auto, unfolding(crate::specs::Sent::sent_of))]
fn from_write(written: io::Result<()>, sent: usize) -> Result<usize, RunError>
    ensures { result ≡ sent_of written sent }
{
    match written {
        Ok(()) => Ok(sent),
        Err(_) => Err(RunError::Unwritten),
    }
}

// Writes all the bytes, to standard output or to the sink after those already there. Returns the place in the sink
// after them.
fn put(
    rt: &HostRuntime,
    live: bool,
    bytes: &[u8],
    sink: &mut [u8],
    sent: usize,
) -> Result<usize, RunError>
    requires { sent ≤ length sink.old }
    ensures within_sink { WithinSink result (length sink.old) }
    ensures to_sink { live ≡ false → ToSink result bytes.now sink.old sink.new sent }
{
    if live {
        let written = rt.stdout().write_all(bytes);
        return from_write(written, sent);
    }
    if sink.len() - sent < bytes.len() {
        return Err(RunError::Unwritten);
    }
    let end = sent + bytes.len();
    sink[sent..end].copy_from_slice(bytes);
    Ok(end)
}

// 65,536 zeros, for a loop that moves much data. The `ensures` states only the length, which borrowing the array as a
// slice needs.
fn large_buffer() -> [u8; 65536]
    ensures { 65536 ≡ length result }
{
    [0; 65536]
}

// Reads, feeds and writes until the job ends or a read or write fails; `sent` is the number of bytes in the sink. From
// a tape, however it is cut, no read fails; if the sink has room for the job's output, that is what it then holds: the
// replies to the records of the tape, each by the state after those before it (`InputTheorem`).
fn run(
    rt: &HostRuntime,
    live: bool,
    tape: &[u8],
    cuts: &[usize],
    sink: &mut [u8],
    sent: &mut usize,
) -> Result<(), RunError>
    ensures sent_in_bounds { sent.new ≤ length sink.old }
    ensures performed { live ≡ false → Performed result (take sent.new sink.new) (length sink.old)
        (job_of job_limit tape.now) }
    ensures input_theorem { InputTheorem job_limit tape.now }
{
    let mut space = large_buffer();
    let buf: &mut [u8] = &mut space;
    let mut room = large_buffer();
    let out: &mut [u8] = &mut room;
    let mut state = job_state::fresh();
    let mut c = job::no_counts();
    let mut have = 0;
    let mut next = Next::Read;
    let mut at = 0;
    *sent = 0;
    loop {
        let read = fill(rt, live, tape, cuts, at, buf, have, next)?;
        let last = read.count.is_none();
        have += read.count.unwrap_or(0);
        at = read.at;
        let fed = feed_once(buf, have, c, &mut state, last, out);
        let end = put(rt, live, &out[..fed.written], sink, *sent)?;
        *sent = end;
        if !fed.reason.goes_on() {
            return Ok(());
        }
        have -= fed.used;
        c = fed.counts;
        next = next_after(fed.reason, last);
    }
}

fn main(rt: HostRuntime) {
    if !probe::computes_as_proved(&rt) {
        let _ = eprintln!(rt;
            "sim3_job: the floating-point environment is not the proved one, so nothing was read; look at LD_PRELOAD"
        );
        return;
    }
    let mut sink = [0; 1];
    let mut sent = 0;
    if let Err(error) = run(&rt, true, b"", &[0], &mut sink, &mut sent) {
        let _ = eprintln!(rt; "sim3_job: {error}");
    }
}
