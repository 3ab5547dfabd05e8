// The tables, at both widths: five rows of the circle functions and the factorial reciprocals, helicoid's generated.rs
// and generated_sim3.rs. Proved: every entry is an exact rational, 1/n! or one formed from it, rounded once at its
// width (EveryEntry). Rests on ieee.
#![tactic(auto)]

ghost use Rattle.std.specs.Prelude.{◌≡◌, map};
ghost use Rattle.std.specs.Option.{option_map};
ghost use Rattle.tables.specs.Tables.{row_table, recip_table};
ghost use Rattle.tables.specs.Rows.{row_named};

use ieee::Real;

pub mod double; // f64
pub mod single; // f32

// The rows of the circle functions, by the function that each sums to.
#[derive(Clone, Copy)]
pub enum Row {
    K,
    A,
    B,
    D,
    CosHalf,
}

// The tables at a width.
pub trait Tables: Real {
    // The sixteen terms of a row.
    fn table(row: Row) -> [Self; 16]
        ensures { map Self.float result ≡ row_table Self.format (row_named row) };

    // 1/n!, or None past the end of the table at index 32.
    fn recip_fact(n: usize) -> Option<Self>
        ensures { option_map Self.float result ≡ recip_table Self.format n };
}
