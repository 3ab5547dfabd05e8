// The functions for callers in C, Rust and Python that exist for doubles only, like those of crate sim3_c: a refused
// call leaves every list as it was.
#![tactic(auto)]

pub mod square_root; // the square root with its remainder
pub mod tangents; // the order of tangents, and of a list of them
pub mod join; // a running join between calls, and the Newton step on a list of poses
pub mod shelf; // the sheets between calls
pub mod probe; // whether the machine computes as the proofs say
