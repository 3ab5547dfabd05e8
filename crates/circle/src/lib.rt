// The circle functions at a squared angle z: the coefficients of the exponential and of the closed forms above it, each
// by a series below its limit and by its exact form elsewhere. Proved: each is its row of the table summed by Horner,
// or its exact form, on every input (specs/Kernel). Rests on the tables.
#![tactic(auto)]

pub mod kernel; // the coefficients of the exponential, and what the closed forms read
pub mod row_limits; // the limits and term counts of the rows
