// Sim(3): tangents, poses, the exponential and the action on points, helicoid's sim3.rs without its Jacobians. Proved:
// each function is its formula in the Rust's order (specs/Tangent, Pose, Exp). Rests on coeffs and so3.
#![tactic(auto)]

pub mod tangent; // Sim3Tangent<T>
pub mod sim3; // Sim3: composition, inverse, action, exponential
