// The Sim(3) coefficients at sigma and at -sigma, the pair of helicoid's coeffs/sim3.rs: both signs share the arm, the
// circle functions, the exponential's values and the recurrence. Proved: at each sign they are those of coeffs, to the
// bit (specs/Group, Entries). Rests on coeffs.
#![tactic(auto)]

pub mod sim3; // the coefficients
pub mod recurrence; // the series
mod closed_form; // the closed arm at both signs
