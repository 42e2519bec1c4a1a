// The nodes, in ascending order.
ghost use Rattle.std.specs.Prelude.{◌≡◌, ◌≤◌, ◌<◌, ◌++◌, IfOk, OnOk, IsTrue, ◌||◌, true, ◌*◌, ◌+◌, false};
ghost use Rattle.std.specs.List.{flat_map};
ghost use Rattle.gen_cs.specs.CubedSphere.{coordinate, is_end, if_node, places, row_of, slice_of, nodes_of};

use std::alloc::{AllocError, Global};

pub fn is_end_of(n: u32, i: u32) -> bool
    ensures { result ≡ is_end n i }
{
    i == 0 || i == n
}

pub fn coordinate_of(n: u32, i: u32) -> i32
    requires large { n ≤ 400 }
    requires place { i ≤ n }
    ensures { result ≡ coordinate n i }
{
    2 * i as i32 - n as i32
}

fn put_node(out: &mut Vec<[i32; 3]>, n: u32, a: u32, b: u32, c: u32) -> Result<(), AllocError>
    requires large { n ≤ 400 }
    requires first { a ≤ n }
    requires second { b ≤ n }
    requires third { c ≤ n }
    requires node { is_end n a || is_end n b || is_end n c ≡ true }
    ensures { OnOk result (out.new.items ≡ out.old.items ++ if_node n a b c) }
{
    out.push([
        coordinate_of(n, a),
        coordinate_of(n, b),
        coordinate_of(n, c),
    ])?;
    Ok(())
}

// A row at the surface of the cube: all its triples are nodes.
fn put_full_row(out: &mut Vec<[i32; 3]>, n: u32, a: u32, b: u32) -> Result<(), AllocError>
    requires large { n ≤ 400 }
    requires first { a ≤ n }
    requires second { b ≤ n }
    requires surface { is_end n a || is_end n b ≡ true }
    ensures { OnOk result (out.new.items ≡ out.old.items ++ row_of n a b) }
{
    for c in 0..n + 1 {
        put_node(out, n, a, b, c)?;
    }
    Ok(())
}

// A row through the cube: its two ends are nodes.
fn put_ends(out: &mut Vec<[i32; 3]>, n: u32, a: u32, b: u32) -> Result<(), AllocError>
    requires least { 1 ≤ n }
    requires large { n ≤ 400 }
    requires first { a ≤ n }
    requires second { b ≤ n }
    requires inside { is_end n a || is_end n b ≡ false }
    ensures { OnOk result (out.new.items ≡ out.old.items ++ row_of n a b) }
{
    put_node(out, n, a, b, 0)?;
    put_node(out, n, a, b, n)?;
    Ok(())
}

fn put_row(out: &mut Vec<[i32; 3]>, n: u32, a: u32, b: u32) -> Result<(), AllocError>
    requires least { 1 ≤ n }
    requires large { n ≤ 400 }
    requires first { a ≤ n }
    requires second { b ≤ n }
    ensures { OnOk result (out.new.items ≡ out.old.items ++ row_of n a b) }
{
    if is_end_of(n, a) || is_end_of(n, b) {
        put_full_row(out, n, a, b)
    } else {
        put_ends(out, n, a, b)
    }
}

fn put_slice(out: &mut Vec<[i32; 3]>, n: u32, a: u32) -> Result<(), AllocError>
    requires least { 1 ≤ n }
    requires large { n ≤ 400 }
    requires first { a ≤ n }
    ensures { OnOk result (out.new.items ≡ out.old.items ++ slice_of n a) }
{
    for b in 0..n + 1 {
        put_row(out, n, a, b)?;
    }
    Ok(())
}

#[tactic(auto, unfolding(crate::specs::CubedSphere::nodes_of))]
pub fn all_nodes(alloc: Global, n: u32) -> Result<Vec<[i32; 3]>, AllocError>
    requires least { 1 ≤ n }
    requires large { n ≤ 400 }
    ensures { IfOk result (λ nodes. nodes.items ≡ nodes_of n) }
{
    let count = 6 * n as usize * n as usize + 2;
    let mut out = Vec::with_capacity(alloc, count)?;
    for a in 0..n + 1 {
        put_slice(&mut out, n, a)?;
    }
    Ok(out)
}
