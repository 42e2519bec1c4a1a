// The number of a node, by formula.
ghost use Rattle.std.specs.Prelude.{◌≡◌, ◌≤◌, ◌<◌, ◌^◌, ◌||◌, true, pos};
ghost use Rattle.gen_cs.specs.CubedSphere.{is_end, node_at, nodes_of, number_of};
ghost use Rattle.gen_cs.specs.Before.{before_slice, before_row, before_place};

use crate::nodes::is_end_of;

// How many nodes have a first coordinate before place a.
fn nodes_before_slice(n: u32, a: u32) -> u32
    requires large { n ≤ 400 }
    requires place { a ≤ n }
    ensures value { result ≡ before_slice n a }
    ensures small { result < 2 ^ 20 }
{
    if a == 0 {
        0
    } else {
        (n + 1) * (n + 1) + (a - 1) * (4 * n)
    }
}

// How many nodes of the slice a have a second coordinate before place b.
fn nodes_before_row(n: u32, a: u32, b: u32) -> u32
    requires large { n ≤ 400 }
    requires place { b ≤ n }
    ensures value { result ≡ before_row n a b }
    ensures small { result < 2 ^ 20 }
{
    if is_end_of(n, a) {
        b * (n + 1)
    } else if b == 0 {
        0
    } else {
        n + 1 + (b - 1) * 2
    }
}

// How many nodes of a row have a third coordinate before place c.
fn nodes_before(n: u32, a: u32, b: u32, c: u32) -> u32
    requires place { c ≤ n }
    ensures { result ≡ before_place n a b c }
{
    if is_end_of(n, a) || is_end_of(n, b) {
        c
    } else if c == 0 {
        0
    } else {
        1
    }
}

// The number of the node at these places, from 1.
#[tactic(auto, using(crate::proofs::NodeNumbers::number_is))]
pub fn number_at(n: u32, a: u32, b: u32, c: u32) -> i32
    requires least { 1 ≤ n }
    requires large { n ≤ 400 }
    requires first { a ≤ n }
    requires second { b ≤ n }
    requires third { c ≤ n }
    requires node { is_end n a || is_end n b || is_end n c ≡ true }
    ensures { result ≡ number_of (nodes_of n) (node_at n a b c) }
{
    let before = nodes_before_slice(n, a) + nodes_before_row(n, a, b) + nodes_before(n, a, b, c);
    (before + 1) as i32
}
