// Block Jacobians of Sim(3), of helicoid's sim3.rs: their structure and algebra. Proved: each function is its formula
// in the Rust's order (specs/Jac). Rests on sim3.
#![tactic(auto)]

pub mod jac; // Sim3Jac: the block structure and its algebra
