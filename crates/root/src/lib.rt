// The square root of a double with its remainder: for a finite z > 0, z = m * 4^s with m whole, 2^104 <= m < 2^106; r,
// the largest whole number whose square is at most m; the remainder m - r*r; s; and the double nearest to the root.
// Proved: r is that number, and the double is the root rounded to nearest, ties to even (RootTheorem). The root of m is
// found by halves: the root of the upper half of its digits, and one division for the lower half. m is a number c below
// 2^54 times 2^52, so the code holds only c. Rests on ieee and linalg.
#![tactic(auto)]

ghost use Rattle.std.specs.Prelude.{◌≡◌, ◌+◌, ◌*◌, ◌^◌, ◌<◌, ◌≤◌};
ghost use Rattle.std.specs.Float.{binary64};
ghost use Rattle.ieee.specs.Patterns.{patterns, pattern_units};
ghost use Rattle.linalg.specs.Answer.{answer};
ghost use Rattle.root.specs.Root.{root_of, root_parts, nearer as nearer_of};
ghost use Rattle.root.specs.Private.{ScaledTo};

use ieee::Real;
use linalg::refusal::Refusal;

const HIDDEN: u64 = 0x10_0000_0000_0000; // 2^52: the weight of a pattern's exponent field

const INFINITY: u64 = 0x7ff0_0000_0000_0000; // the pattern of +infinity

// The bases of the three steps from the root of 14 binary digits to that of 106.
const BASE_7: u64 = 0x80;

const BASE_13: u64 = 0x2000;

const BASE_26: u64 = 0x400_0000;

// r, the remainder, s, and the double nearest to the root.
#[derive(Clone, Copy)]
pub struct RootParts {
    pub root: u64,
    pub remainder: u64,
    pub exponent: i64,
    pub nearest: f64,
}

// A whole root and its remainder.
#[derive(Clone, Copy)]
struct Whole {
    root: u64,
    remainder: u64,
}

// A number n as digits * 2^power / 2^52, where digits has 53 binary digits.
#[derive(Clone, Copy)]
struct Scaled {
    digits: u64,
    power: u64,
}

// One more binary digit, of the weight `bit`, of a small root.
fn refine(h: u64, r: u64, bit: u64) -> u64
    requires { (r * r ≤ h) × (h < (r + 2 * bit) * (r + 2 * bit)) × (r + bit < 2 ^ 16) }
    ensures { (result * result ≤ h) × (h < (result + bit) * (result + bit)) × (result ≤ r + bit) }
{
    let t = r + bit;
    if t * t <= h { t } else { r }
}

// The root of a number of 14 binary digits.
fn seed(h: u64) -> u64
    requires { h < 2 ^ 14 }
    ensures { (result * result ≤ h) × (h < (result + 1) * (result + 1)) × (result < 2 ^ 7) }
{
    let a = refine(h, 0, 64);
    let b = refine(h, a, 32);
    let c = refine(h, b, 16);
    let d = refine(h, c, 8);
    let e = refine(h, d, 4);
    let f = refine(h, e, 2);
    refine(h, f, 1)
}

// From the root s of a number and its remainder r to the root of that number with two more digits, a
// and l, of the base b. The quotient is the root's next digit, or one too large.
fn widen(s: u64, r: u64, b: u64, a: u64, l: u64) -> Whole
    requires { (s < 2 ^ 27) × (r ≤ 2 * s) × (b ≤ 2 ^ 26) × (b ≤ 2 * s) × (a < b) × (l < b) }
    ensures { (result.root * result.root + result.remainder ≡ (s * s + r) * (b * b) + a * b + l)
        × (result.remainder ≤ 2 * result.root) }
{
    let n = r * b + a;
    let d = 2 * s;
    let q = n / d;
    let u = n % d;
    let t = u * b + l;
    let w = q * q;
    let root = s * b + q;
    if w <= t {
        Whole {
            root,
            remainder: t - w,
        }
    } else {
        Whole {
            root: root - 1,
            remainder: t + 2 * root - 1 - w,
        }
    }
}

// The root of c * 2^52.
fn whole_root(c: u64) -> Whole
    requires { (2 ^ 52 ≤ c) × (c < 2 ^ 54) }
    ensures { (result.root * result.root + result.remainder ≡ c * 2 ^ 52) × (result.remainder ≤ 2 * result.root) }
{
    let h = c / 0x100_0000_0000;
    let s = seed(h);
    let p = widen(
        s,
        h - s * s,
        BASE_7,
        c / 0x2_0000_0000 % BASE_7,
        c / 0x400_0000 % BASE_7,
    );
    let q = widen(
        p.root,
        p.remainder,
        BASE_13,
        c / BASE_13 % BASE_13,
        c % BASE_13,
    );
    widen(q.root, q.remainder, BASE_26, 0, 0)
}

// The digits and the power of the double above 0 with the pattern b. A subnormal's digits are shifted up to where the
// others have theirs.
fn digits_of(b: u64) -> Scaled
    requires { (0 < b) × (b < patterns binary64) }
    ensures { ScaledTo (pattern_units binary64 b) result.digits result.power }
{
    if b < HIDDEN {
        let k = u64::leading_zeros(b) - 11;
        Scaled {
            digits: b << k,
            power: (52 - k) as u64,
        }
    } else {
        Scaled {
            digits: HIDDEN + b % HIDDEN,
            power: b / HIDDEN + 51,
        }
    }
}

// r or r + 1, whichever is nearer to the root.
fn nearer(r: u64, remainder: u64) -> u64
    requires { r < 2 ^ 53 }
    ensures { result ≡ nearer_of r remainder }
{
    if remainder <= r { r } else { r + 1 }
}

// The root of the double above 0 with the pattern b. With v of 53 binary digits, v * 2^(j - 589) has
// j + 486 in its exponent field, of which the digits' leading one is 1.
fn positive(b: u64) -> RootParts
    requires { (0 < b) × (b < patterns binary64) }
    ensures { result ≡ root_parts (pattern_units binary64 b) }
{
    let z = digits_of(b);
    let c = z.digits;
    let y = z.power;
    let j = y / 2;
    let p = whole_root(c * (1 + y % 2));
    let v = nearer(p.root, p.remainder);
    let nearest = f64::from_pattern((j + 485) * HIDDEN + v);
    RootParts {
        root: p.root,
        remainder: p.remainder,
        exponent: j as i64 - 589,
        nearest,
    }
}

// The square root of z with its remainder; refusal 1 for z < 0, and 8 for a NaN or +infinity.
pub fn root(z: f64) -> Result<RootParts, Refusal>
    ensures { answer result ≡ root_of z }
{
    if z < 0.0 {
        return Err(Refusal::NegativeAngle);
    }
    if z == 0.0 {
        return Ok(RootParts {
            root: 0,
            remainder: 0,
            exponent: 0,
            nearest: z,
        });
    }
    let b = z.pattern();
    if b >= INFINITY {
        return Err(Refusal::NotFinite);
    }
    Ok(positive(b))
}
