// The engine for callers in C, Rust and Python: functions over numbers and lists of numbers, which the archives over
// this crate export. Each writes to the lists that it borrows, or refuses and leaves them as they were. A list of the
// wrong length is refused with its own number; the other refusals are the engine's. Here are the functions that exist
// at both widths, except those that records of the job use too, in crate sim3_c_entries; sim3_c_doubles has those for
// doubles only. include/sim3.h has the order of every number.
#![tactic(auto)]

pub mod pose; // compositions with an inverse, with the frames; renormalising
pub mod points; // the action on lists of points
pub mod armed; // the coefficients with their arms
pub mod jacobians; // inverse, adjoint, and the Jacobians of the group's operations
pub mod near; // how near another arm is
