// Rotations of three dimensions by quaternions, helicoid's quat.rs and so3.rs, at either width. Proved: each function
// is its formula in the Rust's order (specs/Quat, specs/So3). Rests on linalg and circle.
#![tactic(auto)]

pub mod quat; // Quat: helicoid's quat.rs
pub mod so3; // the action and the exponential of so3.rs, on a rotation's quaternion
