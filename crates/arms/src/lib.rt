// What decides the arm of the coefficients and what the arms read: the limits of delta and the arms between them, and
// the ten function values with those at -sigma. Proved: the arm is the definition's for every delta, NaN included, and
// does not fall as z grows (proofs/Rising). Rests on series, whose delta it uses.
#![tactic(auto)]

pub mod values; // the ten function values of the caller, and the mirrored ones
pub mod limits; // the arm at delta, and the limits
