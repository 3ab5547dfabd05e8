// Numbers of either width, counts and whole numbers of 16 bits as little-endian bytes: one value at a place in a list,
// and whole lists, `decode` and `encode`. Those on lists are total: they stop where the bytes or the list end. Proved:
// each follows specs/Wire, with one NaN for all patterns of NaN, and `encode` returns whether all numbers are finite.
// Rests on ieee.
#![tactic(auto)]

ghost use Rattle.std.specs.Prelude.{◌≡◌, ◌+◌, ◌*◌, ◌/◌, ◌≤◌, ◌&&◌, ℕ, true, false, not, refl, length, take, drop};
ghost use Rattle.std.specs.Float.Ieee.{of_bits, to_bits, is_nan};
ghost use Rattle.std.specs.Float.{Format, binary32, binary64};
ghost use Rattle.std.proofs.Common.{rules};
ghost use Rattle.std.proofs.lemmas.List.Edits.{sets};
ghost use Rattle.wire.specs.Wire.{width, word_of, word_bytes, word_at, number_of, number_bytes, no_nan, count_bytes};
ghost use Rattle.wire.specs.Wire.{fewer, numbers_at, words_at, numbers, numbers_bytes, words_bytes, all_finite};
ghost use Rattle.wire.specs.Number.{high_bit_zero};
ghost use Rattle.wire.specs.Private.{Reads, Writes};

use crate::word::{Here, Word};
use ieee::Real;

mod word; // the bits of one number in its bytes

// A number with a fixed number of bytes: eight for `f64`, four for `f32`.
pub trait Number: Word {
    ghost BYTES: { ℕ };

    const BYTES: usize;

    // The combination of the words tested for a NaN: of none, and of one more. Without its sign a NaN's pattern is
    // above that of the infinity, so adding all bits of the fraction carries into the sign bit, and for no other
    // pattern.
    fn none_seen() -> Self::Bits
        ensures { high_bit_zero Self.format (Self.bits result) ≡ true };

    fn seen(before: Self::Bits, word: Self::Bits) -> Self::Bits
        ensures { high_bit_zero Self.format (Self.bits result)
            ≡ (high_bit_zero Self.format (Self.bits before) && not (is_nan (of_bits Self.format (Self.bits word)))) };

    // Whether there was no NaN among them: the sign bit is tested once, instead of each word.
    fn no_nan_seen(seen: Self::Bits) -> bool
        ensures { result ≡ high_bit_zero Self.format (Self.bits seen) };

    ghost bytes_law: { BYTES ≡ width Self.format };
}

impl Number for f64 {
    ghost BYTES = { 8 };

    const BYTES: usize = 8;

    fn none_seen() -> u64 {
        0
    }

    fn seen(before: u64, word: u64) -> u64 {
        before | (word % 0x8000_0000_0000_0000 + 0x000f_ffff_ffff_ffff)
    }

    fn no_nan_seen(seen: u64) -> bool {
        seen < 0x8000_0000_0000_0000
    }

    ghost bytes_law = { refl };
}

impl Number for f32 {
    ghost BYTES = { 4 };

    const BYTES: usize = 4;

    fn none_seen() -> u32 {
        0
    }

    fn seen(before: u32, word: u32) -> u32 {
        before | (word % 0x8000_0000 + 0x007f_ffff)
    }

    fn no_nan_seen(seen: u32) -> bool {
        seen < 0x8000_0000
    }

    ghost bytes_law = { refl };
}

// ---- one word at a place in a list
fn word_at<T: Number>(b: &[u8], at: usize) -> T::Bits
    requires { at + width T.format ≤ length b.now }
    ensures { T.bits result ≡ word_at (width T.format) b.now at }
{
    T::word(&b[at..at + T::BYTES], Here)
}

fn put_word_at<T: Number>(out: &mut [u8], at: usize, word: T::Bits)
    requires { at + width T.format ≤ length out.old }
    ensures { out.new ≡ sets out.old at (word_bytes (width T.format) (T.bits word)) }
{
    T::put_word(word, &mut out[at..at + T::BYTES], Here);
}

// ---- one value and an array of its bytes, least significant first
// The double of these bytes; every NaN pattern reads as NaN.
pub fn from_le_bytes(b: [u8; 8]) -> f64
    ensures { result ≡ number_of binary64 b }
{
    f64::from_pattern(u64::from_le_bytes(b))
}

// The bytes of a double; those of 7ff8000000000000 for every NaN.
#[tactic(auto, using(crate::proofs::Bytes::written_eight), unfolding(crate::specs::Wire::number_bytes))]
pub fn to_le_bytes(x: f64) -> [u8; 8]
    ensures { result ≡ number_bytes binary64 x }
{
    x.pattern().to_le_bytes()
}

// The bytes of a whole number of 32 bits.
#[tactic(auto, using(crate::proofs::Bytes::written_four), unfolding(crate::specs::Wire::count_bytes))]
pub fn count_to_le_bytes(n: u32) -> [u8; 4]
    ensures { result ≡ count_bytes n }
{
    n.to_le_bytes()
}

// The whole number of these two bytes.
pub fn short_from_le_bytes(b: [u8; 2]) -> u16
    ensures { result ≡ word_of b }
{
    u16::from_le_bytes(b)
}

// The two bytes of a whole number.
#[tactic(auto, using(crate::proofs::Bytes::written_two))]
pub fn short_to_le_bytes(n: u16) -> [u8; 2]
    ensures { result ≡ word_bytes 2 n }
{
    n.to_le_bytes()
}

// ---- reading numbers
// Whether none of the numbers in the bytes is a NaN.
#[tactic(auto, unfolding(crate::specs::Wire::none_nan))]
pub fn no_nan<T: Number>(b: &[u8]) -> bool
    ensures { result ≡ no_nan T.format b.now }
{
    let mut seen = T::none_seen();
    for i in 0..b.len() / T::BYTES {
        seen = T::seen(seen, word_at::<T>(b, i * T::BYTES));
    }
    T::no_nan_seen(seen)
}

// Fills the list with numbers, each read from its bits.
#[tactic(auto, unfolding(crate::specs::Wire::firsts))]
fn decode_by<T: Number, F: Fn(T::Bits) -> T>(b: &[u8], out: &mut [T], read: F)
    requires bytes { length out.old * width T.format ≤ length b.now }
    requires reads { Reads T.format T.bits T.float (F.pre read) (F.post read) b.now (length out.old) }
    ensures { T.floats out.new ≡ numbers_at T.format b.now (length out.old) }
{
    for (i, x) in out.iter_mut().enumerate() {
        *x = read(word_at::<T>(b, i * T::BYTES));
    }
}

// Reads the numbers in the bytes into a list. If none is a NaN, which one pass over them finds out, it takes their bits
// as they are.
pub fn decode<T: Number>(b: &[u8], out: &mut [T])
    ensures { T.floats out.new
        ≡ sets (T.floats out.old) 0
        (numbers_at T.format b.now (fewer (length b.now / width T.format) (length out.old))) }
{
    let n = (b.len() / T::BYTES).min(out.len());
    let bytes = &b[..n * T::BYTES];
    let numbers = &mut out[..n];
    if no_nan::<T>(bytes) {
        decode_by(bytes, numbers, |word| T::from_bits(word, Here));
    } else {
        decode_by(bytes, numbers, |word| T::from_pattern(word));
    }
}

// ---- writing numbers
// Whether all are finite: a number minus itself is a zero, which equals itself; for a NaN or an infinity it is NaN,
// which does not.
fn all_finite<T: Number>(x: &[T]) -> bool
    ensures { result ≡ all_finite (numbers (T.floats x.now)) }
{
    let mut finite = true;
    for y in x {
        let z = *y - *y;
        finite = finite & (z == z);
    }
    finite
}

// Writes all numbers of a list, each by its bits.
#[tactic(auto, unfolding(crate::specs::Wire::numbers_bytes))]
fn encode_by<T: Number, F: Fn(T) -> T::Bits>(x: &[T], out: &mut [u8], write: F)
    requires bytes { length x.now * width T.format ≤ length out.old }
    requires writes { Writes T.format T.bits T.float (F.pre write) (F.post write) x.now }
    ensures { out.new ≡ sets out.old 0 (numbers_bytes T.format (T.floats x.now)) }
{
    for (i, y) in x.iter().enumerate() {
        put_word_at::<T>(out, i * T::BYTES, write(*y));
    }
}

// Writes the numbers of a list to bytes, and returns whether all of them are finite; if they are, it takes their bits
// as they are.
pub fn encode<T: Number>(x: &[T], out: &mut [u8]) -> bool
    ensures value { result
        ≡ all_finite (numbers (take (fewer (length x.now) (length out.old / width T.format)) (T.floats x.now))) }
    ensures out_after { out.new
        ≡ sets out.old 0 (numbers_bytes T.format
        (take (fewer (length x.now) (length out.old / width T.format)) (T.floats x.now))) }
{
    let n = x.len().min(out.len() / T::BYTES);
    let numbers = &x[..n];
    let finite = all_finite(numbers);
    if finite {
        encode_by(numbers, out, |y| y.to_bits(Here));
    } else {
        encode_by(numbers, out, |y| y.pattern());
    }
    finite
}

// ---- whole numbers of two bytes
// Reads the whole numbers in the bytes, two bytes each, into a list.
#[tactic(auto, unfolding(crate::specs::Wire::firsts))]
pub fn decode_shorts(b: &[u8], out: &mut [u16])
    ensures { out.new ≡ sets out.old 0 (words_at 2 b.now (fewer (length b.now / 2) (length out.old))) }
{
    let n = (b.len() / 2).min(out.len());
    for (i, x) in out[..n].iter_mut().enumerate() {
        let at = i * 2;
        *x = short_from_le_bytes([b[at], b[at + 1]]);
    }
}

// Writes the whole numbers of a list to bytes, two bytes each.
#[tactic(auto, unfolding(crate::specs::Wire::words_bytes))]
pub fn encode_shorts(x: &[u16], out: &mut [u8])
    ensures { out.new
        ≡ sets out.old 0 (words_bytes 2 (take (fewer (length x.now) (length out.old / 2)) x.now)) }
{
    let n = x.len().min(out.len() / 2);
    for (i, y) in x[..n].iter().enumerate() {
        let at = i * 2;
        out[at..at + 2].copy_from_slice(&short_to_le_bytes(*y));
    }
}
