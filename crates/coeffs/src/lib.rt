// The Sim(3) coefficients at one sign of sigma, helicoid's coeffs/sim3.rs above the series: the closed forms, the
// choice of arm, the scaled form, and v alone. Proved: each public function is its definition on every input
// (specs/ClosedForm, Group, Entries). Rests on circle, series and arms.
#![tactic(auto)]

pub mod width; // f64 and f32
pub mod sim3; // the public functions
pub mod closed_form; // the closed arm
