// The operations: each reads the numbers after the mark into arrays, calls the function that C callers have, and
// encodes the lists that it wrote from the front of `out` on.
ghost use Rattle.std.specs.Prelude.{◌≡◌, ◌+◌, ◌*◌, ◌≤◌, length};
ghost use Rattle.std.proofs.lemmas.List.Edits.{sets};
ghost use Rattle.linalg.specs.Answer.{answer};
ghost use Rattle.layout.specs.Layout.{pose_count, scaled_pair_count};
ghost use Rattle.wire.specs.Wire.{width, numbers, numbers_at, words_at};
ghost use Rattle.to_lists.specs.Written.{status};
ghost use Rattle.record_result.specs.RecordResult.{longest, written_answer, answer_bytes};
ghost use Rattle.record_result.specs.declared.Operation.{Operation};
ghost use Rattle.replies.specs.Table.{width_of, ex_of, co_of, pa_of, ac_of, mu_of, in_of, ji_of, ar_of};
ghost use Rattle.record_result.specs.Framed.{framed_width};
ghost use Rattle.replies.specs.Private.{status_view, framed_both, armed_both};

use crate::framed;
use coeffs::width::Width;
use layout::{BLOCK, BLOCK_PAIR, MAT, POSE, SCALED_PAIR, TANGENT, VALUES, VEC};
use linalg::refusal::Refusal;
use record_result::{Disposition, Wrote};
use sim3_c_entries::{
    ARMS, act_point, armed_pair, sim3_block_inverse, sim3_block_pair, sim3_exp, sim3_inverse,
    sim3_mul, sim3_scaled_pair,
};
use wire::{Number, decode, encode, encode_shorts, short_from_le_bytes};

// ---- reading
// N numbers at the front of the bytes.
fn read<T: Number, const N: usize>(b: &[u8]) -> [T; N]
    requires few { N ≤ 40 }
    requires bytes { N * width T.format ≤ length b.now }
    ensures { T.floats result ≡ numbers_at T.format b.now N }
{
    let mut x = [T::of(0.0); N];
    decode(&b[..N * T::BYTES], &mut x);
    x
}

// From and to at the front of the bytes.
fn frames(b: &[u8]) -> [u16; 2]
    requires { 4 ≤ length b.now }
    ensures { result ≡ words_at 2 b.now 2 }
{
    [
        short_from_le_bytes([b[0], b[1]]),
        short_from_le_bytes([b[2], b[3]]),
    ]
}

// ---- writing
// Encodes what a call wrote to a list, or returns its refusal.
#[tactic(auto, using(crate::proofs::Views::view_not), unfolding(crate::proofs::Unfolds::encode_answer_unfolds))]
fn encode_answer<T: Number>(
    called: Result<(), Refusal>,
    y: &[T],
    out: &mut [u8],
) -> Result<Wrote, Refusal>
    requires { length y.now * width T.format ≤ length out.old }
    ensures value { answer result
        ≡ written_answer T.format (status_view (status (answer called)) (numbers (T.floats y.now))) }
    ensures out_after { out.new
        ≡ sets out.old 0 (answer_bytes T.format (status_view (status (answer called)) (numbers (T.floats y.now)))) }
{
    called?;
    let length = y.len() * T::BYTES;
    let disposition = Disposition::of_answer(encode(y, &mut out[0..length]));
    Ok(Wrote {
        disposition,
        length,
    })
}

// The same for a pose and its frames.
#[tactic(auto, using(crate::proofs::Views::view_not), unfolding(crate::proofs::Unfolds::encode_answer_unfolds))]
fn encode_framed<T: Number>(
    called: Result<(), Refusal>,
    y: &[T],
    k: &[u16],
    out: &mut [u8],
) -> Result<Wrote, Refusal>
    requires y_len { length y.now ≡ pose_count }
    requires k_len { length k.now ≡ 2 }
    requires bytes { framed_width T.format ≤ length out.old }
    ensures value { answer result
        ≡ written_answer T.format (status_view (status (answer called)) (framed_both (T.floats y.now) k.now)) }
    ensures out_after { out.new
        ≡ sets out.old 0 (answer_bytes T.format
        (status_view (status (answer called)) (framed_both (T.floats y.now) k.now))) }
{
    called?;
    let at = T::BYTES * POSE;
    let length = framed::<T>();
    let disposition = Disposition::of_answer(encode(y, &mut out[0..at]));
    encode_shorts(k, &mut out[at..length]);
    Ok(Wrote {
        disposition,
        length,
    })
}

// The same for the scaled pair with the arms before it.
#[tactic(auto, using(crate::proofs::Views::view_not), unfolding(crate::proofs::Unfolds::encode_answer_unfolds))]
fn encode_armed<T: Number>(
    called: Result<(), Refusal>,
    arms: &[u8],
    y: &[T],
    out: &mut [u8],
) -> Result<Wrote, Refusal>
    requires arms_len { length arms.now ≡ 4 }
    requires y_len { length y.now ≡ scaled_pair_count }
    requires bytes { 4 + scaled_pair_count * width T.format ≤ length out.old }
    ensures value { answer result
        ≡ written_answer T.format (status_view (status (answer called)) (armed_both arms.now (T.floats y.now))) }
    ensures out_after { out.new
        ≡ sets out.old 0 (answer_bytes T.format
        (status_view (status (answer called)) (armed_both arms.now (T.floats y.now)))) }
{
    called?;
    let length = ARMS + T::BYTES * SCALED_PAIR;
    out[0..ARMS].copy_from_slice(arms);
    let disposition = Disposition::of_answer(encode(y, &mut out[ARMS..length]));
    Ok(Wrote {
        disposition,
        length,
    })
}

// ---- the operations
// The exponential of a tangent.
#[tactic(auto, using(crate::proofs::Replies::poses_most))]
pub(crate) fn ex<T: Width + Number>(b: &[u8], out: &mut [u8]) -> Result<Wrote, Refusal>
    requires b_len { length b.now ≡ width_of T.format Operation.Ex }
    requires longest_bound { longest ≤ 2 + length out.old }
    ensures value { answer result ≡ written_answer T.format (ex_of T.format b.now) }
    ensures out_after { out.new ≡ sets out.old 0 (answer_bytes T.format (ex_of T.format b.now)) }
{
    let x: [T; TANGENT + VALUES] = read(b);
    let k = frames(&b[T::BYTES * (TANGENT + VALUES)..]);
    let mut y = [T::of(0.0); POSE];
    let mut l = [0; 2];
    let p = &x[..];
    let called = sim3_exp(
        &p[0..TANGENT],
        &p[TANGENT..TANGENT + VALUES],
        &k,
        &mut y,
        &mut l,
    );
    encode_framed(called, &y, &l, out)
}

// The scaled pair of coefficients; refusal 1 for z < 0.
#[tactic(auto, using(crate::proofs::Replies::widest))]
pub(crate) fn co<T: Width + Number>(b: &[u8], out: &mut [u8]) -> Result<Wrote, Refusal>
    requires b_len { length b.now ≡ width_of T.format Operation.Co }
    requires longest_bound { longest ≤ 2 + length out.old }
    ensures value { answer result ≡ written_answer T.format (co_of T.format b.now) }
    ensures out_after { out.new ≡ sets out.old 0 (answer_bytes T.format (co_of T.format b.now)) }
{
    let x: [T; 2 + VALUES] = read(b);
    let mut y = [T::of(0.0); SCALED_PAIR];
    let p = &x[..];
    let called = sim3_scaled_pair(x[0], x[1], &p[2..2 + VALUES], &mut y);
    encode_answer(called, &y, out)
}

// The block pair of a tangent.
#[tactic(auto, using(crate::proofs::Replies::widest))]
pub(crate) fn pa<T: Width + Number>(b: &[u8], out: &mut [u8]) -> Result<Wrote, Refusal>
    requires b_len { length b.now ≡ width_of T.format Operation.Pa }
    requires longest_bound { longest ≤ 2 + length out.old }
    ensures value { answer result ≡ written_answer T.format (pa_of T.format b.now) }
    ensures out_after { out.new ≡ sets out.old 0 (answer_bytes T.format (pa_of T.format b.now)) }
{
    let x: [T; TANGENT + VALUES + 2 * MAT] = read(b);
    let mut y = [T::of(0.0); BLOCK_PAIR];
    let p = &x[..];
    let at = TANGENT + VALUES;
    let called = sim3_block_pair(
        &p[0..TANGENT],
        &p[TANGENT..at],
        &p[at..at + MAT],
        &p[at + MAT..at + 2 * MAT],
        &mut y,
    );
    encode_answer(called, &y, out)
}

// A pose's action on a point.
#[tactic(auto, using(crate::proofs::Replies::widest))]
pub(crate) fn ac<T: Width + Number>(b: &[u8], out: &mut [u8]) -> Result<Wrote, Refusal>
    requires b_len { length b.now ≡ width_of T.format Operation.Ac }
    requires longest_bound { longest ≤ 2 + length out.old }
    ensures value { answer result ≡ written_answer T.format (ac_of T.format b.now) }
    ensures out_after { out.new ≡ sets out.old 0 (answer_bytes T.format (ac_of T.format b.now)) }
{
    let x: [T; POSE] = read(b);
    let p: [T; 1 + VEC] = read(&b[framed::<T>()..]);
    let mut y = [T::of(0.0); VEC];
    let q = &p[..];
    let called = act_point(&x, p[0], &q[1..1 + VEC], &mut y);
    encode_answer(called, &y, out)
}

// The product of two poses; refusal 9 if their frames do not match.
#[tactic(auto, using(crate::proofs::Replies::poses_most))]
pub(crate) fn mu<T: Width + Number>(b: &[u8], out: &mut [u8]) -> Result<Wrote, Refusal>
    requires b_len { length b.now ≡ width_of T.format Operation.Mu }
    requires longest_bound { longest ≤ 2 + length out.old }
    ensures value { answer result ≡ written_answer T.format (mu_of T.format b.now) }
    ensures out_after { out.new ≡ sets out.old 0 (answer_bytes T.format (mu_of T.format b.now)) }
{
    let at = T::BYTES * POSE;
    let end = framed::<T>();
    let x: [T; POSE] = read(b);
    let k = frames(&b[at..]);
    let y: [T; POSE] = read(&b[end..]);
    let l = frames(&b[end + at..]);
    let [up]: [T; 1] = read(&b[2 * end..]);
    let mut z = [T::of(0.0); POSE];
    let mut m = [0; 2];
    let called = sim3_mul(&x, &k, &y, &l, up, &mut z, &mut m);
    encode_framed(called, &z, &m, out)
}

// The inverse of a pose.
#[tactic(auto, using(crate::proofs::Replies::poses_most))]
pub(crate) fn inv<T: Width + Number>(b: &[u8], out: &mut [u8]) -> Result<Wrote, Refusal>
    requires b_len { length b.now ≡ width_of T.format Operation.In }
    requires longest_bound { longest ≤ 2 + length out.old }
    ensures value { answer result ≡ written_answer T.format (in_of T.format b.now) }
    ensures out_after { out.new ≡ sets out.old 0 (answer_bytes T.format (in_of T.format b.now)) }
{
    let x: [T; POSE] = read(b);
    let k = frames(&b[T::BYTES * POSE..]);
    let [down]: [T; 1] = read(&b[framed::<T>()..]);
    let mut z = [T::of(0.0); POSE];
    let mut m = [0; 2];
    let called = sim3_inverse(&x, &k, down, &mut z, &mut m);
    encode_framed(called, &z, &m, out)
}

// The inverse of a block; refusal 2 if e is a zero.
#[tactic(auto, using(crate::proofs::Replies::widest))]
pub(crate) fn ji<T: Width + Number>(b: &[u8], out: &mut [u8]) -> Result<Wrote, Refusal>
    requires b_len { length b.now ≡ width_of T.format Operation.Ji }
    requires longest_bound { longest ≤ 2 + length out.old }
    ensures value { answer result ≡ written_answer T.format (ji_of T.format b.now) }
    ensures out_after { out.new ≡ sets out.old 0 (answer_bytes T.format (ji_of T.format b.now)) }
{
    let x: [T; BLOCK] = read(b);
    let mut y = [T::of(0.0); BLOCK];
    let called = sim3_block_inverse(&x, &mut y);
    encode_answer(called, &y, out)
}

// The scaled pair of coefficients with their arms; refusal 1 for z < 0.
#[tactic(auto, using(crate::proofs::Replies::arms_most))]
pub(crate) fn ar<T: Width + Number>(b: &[u8], out: &mut [u8]) -> Result<Wrote, Refusal>
    requires b_len { length b.now ≡ width_of T.format Operation.Ar }
    requires longest_bound { longest ≤ 2 + length out.old }
    ensures value { answer result ≡ written_answer T.format (ar_of T.format b.now) }
    ensures out_after { out.new ≡ sets out.old 0 (answer_bytes T.format (ar_of T.format b.now)) }
{
    let x: [T; 2 + VALUES] = read(b);
    let mut arms = [0; ARMS];
    let mut y = [T::of(0.0); SCALED_PAIR];
    let p = &x[..];
    let called = armed_pair(x[0], x[1], &p[2..2 + VALUES], &mut arms, &mut y);
    encode_armed(called, &arms, &y, out)
}
