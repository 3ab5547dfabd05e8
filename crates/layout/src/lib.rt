// How many numbers a structure has in a record of the job or in a list of a call, and their order (specs/Layout); what
// lists that are read and lists that are written have in common (specs/Lists). Proved: the counts. Rests on
// side_jacobians, whose structures it orders.
#![tactic(auto)]

pub const VEC: usize = 3;

pub const MAT: usize = 3 * VEC;

pub const POSE: usize = 4 + VEC + 1;

// A pose's frames: from, to.
pub const FRAMES: usize = 2;

pub const TANGENT: usize = 2 * VEC + 1;

pub const VALUES: usize = 10;

pub const BLOCK: usize = 3 * MAT + VEC + 1;

pub const BLOCK_PAIR: usize = 4 * BLOCK;

pub const SCALED_PAIR: usize = 2 * (9 + 1);

pub const TWO_JACOBIANS: usize = 2 * BLOCK;

pub const ACT_JACOBIANS: usize = 3 * MAT + VEC;
