// IEEE 754 numbers of either width: the arithmetic that every crate above uses, bit patterns both ways on every input,
// and a select that the compiler turns into no branch. Proved: each operation is the format's in the logic, and every
// pattern reads back. The lemmas on rounding, signs and order in proofs/ hold in every format. Rests on the toolchain's
// library only.
#![tactic(auto)]

ghost use Rattle.std.specs.Prelude.{◌≡◌, ◌≤◌, ℕ, List, Float, cond, map, refl};
ghost use Rattle.std.specs.Float.Ieee.{of_bits, to_bits};
ghost use Rattle.std.specs.Float.Ieee as Ieee;
ghost use Rattle.std.specs.Float.{Format, binary32, binary64};
ghost use Rattle.std.specs.Mem.{type_size};
ghost use Rattle.std.proofs.Common.{rules, sym};
ghost use Rattle.std.proofs.lemmas.List.{map-id};
ghost use Rattle.ieee.specs.Held.{HeldFits};

use std::ops::{Add, Div, Mul, Neg, Sub};

// A number of IEEE 754: `f64` or `f32`. Every operation rounds once, to the type's own format.
pub trait Real: Copy
    + PartialEq
    + Neg<Output = Self>
    + Add<Self, Output = Self>
    + Sub<Self, Output = Self>
    + Mul<Self, Output = Self>
    + Div<Self, Output = Self> {
    // A bit pattern: `u64` or `u32`.
    type Bits: Copy;

    // `binary64` or `binary32`.
    ghost format: { Format };

    // The number as the definitions have it, which are the same for every format.
    ghost float: { Self → Float };

    // The numbers of a list as the definitions have them.
    ghost floats: { List Self → List Float };

    ghost bits: { Self.Bits → ℕ };

    // The number `x`, if both formats hold it, as they hold every number of the narrower one.
    fn of(x: f32) -> Self
        ensures { float result ≡ x };

    // The number with this pattern. Every NaN pattern reads as NaN; which NaN is left open.
    fn from_pattern(pattern: Self::Bits) -> Self
        ensures { float result ≡ of_bits format (bits pattern) };

    // The number's pattern; one and the same for every NaN.
    fn pattern(self) -> Self::Bits
        ensures { bits result ≡ to_bits format (float self) };

    // `self < other`. A method, since `<` of a type parameter calls the three-way `partial_cmp`, which the compiler
    // does not turn back into one comparison where the result is stored or combined.
    fn is_below(self, other: Self) -> bool
        ensures { result ≡ Ieee.lt (float self) (float other) };

    // `self <= other`.
    fn is_at_most(self, other: Self) -> bool
        ensures { result ≡ Ieee.le (float self) (float other) };

    // A number takes at most 8 bytes, so an array of a few dozen fits in memory.
    ghost size_law: { type_size Self.row ≤ 8 };

    // A number that a program holds is one of the format.
    ghost fits_law: { HeldFits Self.row format float };

    ghost floats_law: { (l : List Self) → floats l ≡ map float l };

    // The operators are those of the format.
    ghost can_neg_law: { (a : Self) → Self.can_neg a };

    ghost neg_law: { (a r : Self) → Self.neg_gives a r → float r ≡ Ieee.neg (float a) };

    ghost can_add_law: { (a b : Self) → Self.can_add a b };

    ghost add_law: { (a b r : Self) → Self.add_gives a b r → float r ≡ Ieee.add format (float a) (float b) };

    ghost can_sub_law: { (a b : Self) → Self.can_sub a b };

    ghost sub_law: { (a b r : Self) → Self.sub_gives a b r → float r ≡ Ieee.sub format (float a) (float b) };

    ghost can_mul_law: { (a b : Self) → Self.can_mul a b };

    ghost mul_law: { (a b r : Self) → Self.mul_gives a b r → float r ≡ Ieee.mul format (float a) (float b) };

    ghost can_div_law: { (a b : Self) → Self.can_div a b };

    ghost div_law: { (a b r : Self) → Self.div_gives a b r → float r ≡ Ieee.div format (float a) (float b) };

    ghost eq_law: { (a b : Self) → Self.eq a b ≡ Ieee.eq (float a) (float b) };
}

impl Real for f64 {
    type Bits = u64;

    ghost format = { binary64 };

    ghost float = { λ x. x };

    ghost floats = { λ l. l };

    ghost bits = { λ n. n };

    fn of(x: f32) -> f64 {
        f64::from(x)
    }

    fn from_pattern(pattern: u64) -> f64 {
        if 0x7ff0_0000_0000_0000 < pattern % 0x8000_0000_0000_0000 {
            return 0.0 / 0.0;
        }
        f64::from_bits(pattern)
    }

    fn pattern(self) -> u64 {
        if self.is_nan() {
            return 0x7ff8_0000_0000_0000;
        }
        f64::to_bits(self)
    }

    fn is_below(self, other: f64) -> bool {
        self < other
    }

    fn is_at_most(self, other: f64) -> bool {
        self <= other
    }

    ghost size_law = { Prim.search rules };

    ghost fits_law = { λ x h. Prim.search rules };

    ghost floats_law = { λ l. sym (map-id l) };

    ghost can_neg_law = { λ a. tt };

    ghost neg_law = { λ a r e. e };

    ghost can_add_law = { λ a b. tt };

    ghost add_law = { λ a b r e. e };

    ghost can_sub_law = { λ a b. tt };

    ghost sub_law = { λ a b r e. e };

    ghost can_mul_law = { λ a b. tt };

    ghost mul_law = { λ a b r e. e };

    ghost can_div_law = { λ a b. tt };

    ghost div_law = { λ a b r e. e };

    ghost eq_law = { λ a b. refl };
}

impl Real for f32 {
    type Bits = u32;

    ghost format = { binary32 };

    ghost float = { λ x. x };

    ghost floats = { λ l. l };

    ghost bits = { λ n. n };

    fn of(x: f32) -> f32 {
        x
    }

    fn from_pattern(pattern: u32) -> f32 {
        if 0x7f80_0000 < pattern % 0x8000_0000 {
            return 0.0 / 0.0;
        }
        f32::from_bits(pattern)
    }

    fn pattern(self) -> u32 {
        if self.is_nan() {
            return 0x7fc0_0000;
        }
        f32::to_bits(self)
    }

    fn is_below(self, other: f32) -> bool {
        self < other
    }

    fn is_at_most(self, other: f32) -> bool {
        self <= other
    }

    ghost size_law = { Prim.search rules };

    ghost fits_law = { λ x h. Prim.search rules };

    ghost floats_law = { λ l. sym (map-id l) };

    ghost can_neg_law = { λ a. tt };

    ghost neg_law = { λ a r e. e };

    ghost can_add_law = { λ a b. tt };

    ghost add_law = { λ a b r e. e };

    ghost can_sub_law = { λ a b. tt };

    ghost sub_law = { λ a b r e. e };

    ghost can_mul_law = { λ a b. tt };

    ghost mul_law = { λ a b r e. e };

    ghost can_div_law = { λ a b. tt };

    ghost div_law = { λ a b r e. e };

    ghost eq_law = { λ a b. refl };
}

// `a` if `c` holds, else `b`: the Rust's `select`.
pub fn pick<T: Copy>(c: bool, a: T, b: T) -> T
    ensures { result ≡ cond c a b }
{
    if c { a } else { b }
}
