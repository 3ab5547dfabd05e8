// The Jacobians of Sim(3) by blocks: those of the exponential, both sides of the action, composition and inverse, and
// the pair that serves both sides at once. Proved: each is its formula (specs/Blocks, Side, Pair), and ten rows of
// numbers are as in helicoid's tests (specs/Examples). Rests on jacobian.
#![tactic(auto)]

pub mod blocks; // the left Jacobian of the exponential and its inverse, by blocks
pub mod side; // both sides' Jacobians
pub mod pair; // the block pair
