// How many terms a series may take, by the length of the table of reciprocals.
ghost use Rattle.std.specs.Prelude.{◌≤◌};

// The most terms of a full series, which reads the reciprocals to k + 4, and of one for v alone, to k + 2.
pub const FULL: usize = 28;

pub const V_ALONE: usize = 30;

#[derive(Clone, Copy)]
pub struct Count<const MOST: usize> {
    pub terms: usize,
    ghost served: { terms ≤ MOST },
}
