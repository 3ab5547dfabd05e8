// Vectors of three numbers and 3x3 matrices of three columns, by value, at either width; and the refusals. Proved: each
// function is its formula, operation by operation in the Rust's order (specs/Vector, specs/Matrix). Rests on ieee.
#![tactic(auto)]

pub mod refusal; // why a function refuses
pub mod vector; // Vec3: helicoid's vector.rs at length 3
pub mod matrix; // Mat3: matrix.rs at 3x3, with hat and the products by it
