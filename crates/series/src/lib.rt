// The Sim(3) coefficients by their total-degree series, at up to 28 terms, and 30 for v alone, and Horner's sums at
// both signs of sigma in one pass. Proved: each is the series' definition (specs/Series), for every input. Rests on the
// tables.
#![tactic(auto)]

pub mod sim3; // the coefficients and their series at one sign of sigma: coeffs/sim3.rs
pub mod stopped; // one pass over the reciprocals, stopped after any number of entries
pub mod terms; // the term counts of each width
pub mod small; // v0 and w0 of the closed arm at small sigma
pub mod count; // a number of terms within the table
pub mod admitted; // what a series refuses
pub mod reciprocal; // the reciprocals that the series read
pub mod recurrence; // the levels, their terms and the sums
mod horner; // Horner's sums
