// The functions of crate sim3_c for callers in C: each under its name there, with its clauses, in a module of the same
// name. include/sim3.h has the order of every number.
#![tactic(auto)]

pub mod pose; // compositions with an inverse, with the frames; renormalising
pub mod points; // the action on lists of points
pub mod armed; // the coefficients with their arms
pub mod jacobians; // inverse, adjoint, and the Jacobians of the group's operations
pub mod near; // how near another arm is
