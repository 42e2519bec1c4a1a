// The nodes, and their numbers.
ghost use Rattle.std.specs.Prelude.{◌≡◌, ◌≤◌, ◌+◌, ◌*◌, IfOk, length};
ghost use Rattle.std.specs.List.Sorted.{IsStrictlySortedBy};
ghost use Rattle.std.specs.List.{position_or_len};
ghost use Rattle.std.specs.Ordering.{int_cmp, int_eq};
ghost use Rattle.std.specs.Cmp.Lexicographic.{pointwise, slice_cmp};
ghost use Rattle.gen_ico.specs.Icosahedral.{number_of, AreNodes};

use crate::points::all_points;
use std::alloc::{AllocError, Global};

// The distinct points in ascending order.
pub fn all_nodes(alloc: Global, n: u32) -> Result<Vec<[i32; 3]>, AllocError>
    requires least { 1 ≤ n }
    requires greatest { n ≤ 200 }
    ensures nodes { IfOk result (λ nodes. AreNodes n nodes.items) }
    ensures count { IfOk result (λ nodes. length nodes.items ≤ 20 * ((n + 1) * (n + 1))) }
{
    let mut nodes = all_points(alloc, n)?;
    nodes.sort_unstable();
    nodes.dedup();
    Ok(nodes)
}

// The first place of a point, from 0, or the count of nodes where it is none of them.
fn place_of(nodes: &[[i32; 3]], point: [i32; 3]) -> usize
    requires { IsStrictlySortedBy (slice_cmp int_cmp) nodes.now }
    ensures value { result ≡ position_or_len (λ m. pointwise int_eq m point) nodes.now }
    ensures within { result ≤ length nodes.now }
{
    match nodes.binary_search(&point) {
        Ok(place) => place,
        Err(_) => nodes.len(),
    }
}

// The number of a point, from 1.
pub fn number_of(nodes: &[[i32; 3]], point: [i32; 3]) -> i32
    requires ascending { IsStrictlySortedBy (slice_cmp int_cmp) nodes.now }
    requires count { length nodes.now ≤ 4194304 }
    ensures { result ≡ number_of nodes.now point }
{
    (place_of(nodes, point) + 1) as i32
}
