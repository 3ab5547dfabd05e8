// Whether the machine computes as the proofs say: with rounding to nearest, and without flushing to zero. It multiplies
// numbers that come from outside, so that no compiler computes the products beforehand. Proved: in the documented
// setting the product is the expected one (DocumentedIsDue). Rests on ieee.
#![tactic(auto)]

ghost use Rattle.std.specs.Prelude.{◌≡◌};
ghost use Rattle.environment.specs.Environment.{product_is_due};

// Whether (a * b) * c, each product rounded once, is 0x1.4000000000001p-49. For 4.75, 0x1p-1074 and
// 0x1.0000000000001p+1023 it is (proofs/Documented.antt). There 4.75 of the least doubles round up to 5, which a
// processor that flushes, or that rounds down or toward zero, does not return; and 5 times the last number rounds down,
// which one that rounds up does not do.
#[tactic(auto, unfolding(crate::specs::Environment::product_is_due))]
pub fn product_is_due(a: f64, b: f64, c: f64) -> bool
    ensures { result ≡ product_is_due a b c }
{
    a * b * c == 2.2204460492503135e-15
}
