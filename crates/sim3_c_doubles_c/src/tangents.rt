// The order of tangents, and of a list of them.
ghost use Rattle.std.specs.Prelude.{◌≡◌};
ghost use Rattle.to_lists.specs.Written.{status, written};
ghost use Rattle.sim3_c_doubles.specs.Order.{compare_call, sort_call};

use to_lists::status;

// Compares the tangents a and b.
#[unsafe(no_mangle)]
pub extern "C" fn sim3_compare_tangents(a: &[u64], b: &[u64], out: &mut [i64]) -> u32
    ensures value { result ≡ status (compare_call a.now b.now out.old) }
    ensures out_after { out.new ≡ written (compare_call a.now b.now out.old) out.old }
{
    status(sim3_c_doubles::tangents::sim3_compare_tangents(a, b, out))
}

// The tangents of the list in order, smallest first.
#[unsafe(no_mangle)]
pub extern "C" fn sim3_sort_tangents(list: &mut [u64]) -> u32
    ensures value { result ≡ status (sort_call list.old) }
    ensures list_after { list.new ≡ written (sort_call list.old) list.old }
{
    status(sim3_c_doubles::tangents::sim3_sort_tangents(list))
}
