// The functions of crate sim3_c_doubles for callers in C: each under its name there, with its clauses, in a
// module of the same name. include/sim3.h has the order of every number.
#![tactic(auto)]

pub mod square_root; // the square root with its remainder
pub mod tangents; // the order of tangents, and of a list of them
pub mod join; // a running join between calls, and the Newton step on a list of poses
pub mod shelf; // the sheets between calls
pub mod probe; // whether the machine computes as the proofs say
