// The reciprocals that the series read; no index is past the end of the table, for an index says so by its type.
ghost use Rattle.std.specs.Prelude.{◌≡◌, ◌≤◌};
ghost use Rattle.tables.specs.Tables.{recip_fact};

use tables::Tables;

// An index of the table.
#[derive(Drop)]
pub struct Index {
    pub n: usize,
    ghost in_table: { n ≤ 32 },
}

// 1/n!
#[tactic(auto, using(tables::proofs::Every::recip_exists))]
pub fn table_entry<T: Tables>(i: Index) -> T
    ensures { T.float result ≡ recip_fact T.format i.n }
{
    match T::recip_fact(i.n) {
        Some(r) => r,
        None => unreachable!(),
    }
}

// PERF (D123): 1/n! for an index that a loop counts. The compiler follows the range of an argument over all calls of a
// function, and gives up after ten that widen it: this one is not called with the indices of `small`, so the compiler
// sees that its index is in the table and the loops test nothing.
pub fn recip<T: Tables>(i: Index) -> T
    ensures { T.float result ≡ recip_fact T.format i.n }
{
    table_entry(i)
}
