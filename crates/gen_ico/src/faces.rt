// The faces, base triangle by base triangle.
ghost use Rattle.std.specs.Prelude.{◌≡◌, ◌≤◌, ◌<◌, ◌+◌, ◌++◌, All, IfOk, OnOk, length, [], ◌∷◌};
ghost use Rattle.std.specs.List.Sorted.{IsStrictlySortedBy};
ghost use Rattle.std.specs.Ordering.{int_cmp};
ghost use Rattle.std.specs.Cmp.Lexicographic.{slice_cmp};
ghost use Rattle.gen_ico.specs.Icosahedron.{IsBaseNumber};
ghost use Rattle.gen_ico.specs.Icosahedral.{faces_of, number_at, triangle_faces};
ghost use Rattle.gen_ico.specs.Rows.{faces_between, faces_of_rows, inverted_between, number_in, row_numbers, upright_between};

use crate::icosahedron::base_triangle;
use crate::nodes::number_of;
use crate::points::point;
use std::alloc::{AllocError, Global};
use vec_exact::Ints;

// The number of the point at (i, j) of a base triangle.
fn number_at(nodes: &[[i32; 3]], n: u32, triangle: [usize; 3], i: u32, j: u32) -> i32
    requires ascending { IsStrictlySortedBy (slice_cmp int_cmp) nodes.now }
    requires count { length nodes.now ≤ 4194304 }
    requires least { 1 ≤ n }
    requires greatest { n ≤ 200 }
    requires numbers { All IsBaseNumber triangle }
    requires place { i + j ≤ n }
    ensures { result ≡ number_at nodes.now n triangle i j }
{
    number_of(nodes, point(n, triangle, i, j))
}

fn put_numbers(
    out: &mut Vec<i32>,
    nodes: &[[i32; 3]],
    n: u32,
    triangle: [usize; 3],
    i: u32,
) -> Result<(), AllocError>
    requires ascending { IsStrictlySortedBy (slice_cmp int_cmp) nodes.now }
    requires count { length nodes.now ≤ 4194304 }
    requires least { 1 ≤ n }
    requires greatest { n ≤ 200 }
    requires numbers { All IsBaseNumber triangle }
    requires row { i ≤ n }
    ensures { OnOk result (out.new.items ≡ out.old.items ++ row_numbers nodes.now n triangle i) }
{
    for j in 0..n + 1 - i {
        out.push(number_at(nodes, n, triangle, i, j))?;
    }
    Ok(())
}

// The numbers of row i of a base triangle. Each is searched for once, and serves up to six faces.
fn make_row(
    alloc: Global,
    nodes: &[[i32; 3]],
    n: u32,
    triangle: [usize; 3],
    i: u32,
) -> Result<Vec<i32>, AllocError>
    requires ascending { IsStrictlySortedBy (slice_cmp int_cmp) nodes.now }
    requires count { length nodes.now ≤ 4194304 }
    requires least { 1 ≤ n }
    requires greatest { n ≤ 200 }
    requires numbers { All IsBaseNumber triangle }
    requires row { i ≤ n }
    ensures { IfOk result (λ row. row.items ≡ row_numbers nodes.now n triangle i) }
{
    let mut row = Vec::with_capacity(alloc, (n + 1 - i) as usize)?;
    put_numbers(&mut row, nodes, n, triangle, i)?;
    Ok(row)
}

// The number at place j of a row, from 0.
fn number_in(row: &[i32], j: usize) -> i32
    requires { j < length row.now }
    ensures { result ≡ number_in row.now j }
{
    row[j]
}

fn put_face(alloc: Global, out: &mut Vec<Ints>, a: i32, b: i32, c: i32) -> Result<(), AllocError>
    ensures { OnOk result (out.new.items ≡ out.old.items ++ (a ∷ b ∷ c ∷ []) ∷ []) }
{
    let mut items = Vec::with_capacity(alloc, 3)?;
    items.push(a)?;
    items.push(b)?;
    items.push(c)?;
    out.push(Ints { items })?;
    Ok(())
}

// The face at place j that points as its base triangle does.
fn put_upright(
    alloc: Global,
    out: &mut Vec<Ints>,
    row: &[i32],
    next: &[i32],
    j: usize,
) -> Result<(), AllocError>
    requires lens { length row.now ≡ length next.now + 1 }
    requires place { j < length next.now }
    ensures { OnOk result
        (out.new.items ≡ out.old.items ++ upright_between row.now next.now j ∷ []) }
{
    let right = number_in(next, j);
    let up = number_in(row, j + 1);
    put_face(alloc, out, number_in(row, j), right, up)
}

// The one behind it, which points the other way.
fn put_inverted(
    alloc: Global,
    out: &mut Vec<Ints>,
    row: &[i32],
    next: &[i32],
    j: usize,
) -> Result<(), AllocError>
    requires lens { length row.now ≡ length next.now + 1 }
    requires place { j + 1 < length next.now }
    ensures { OnOk result
        (out.new.items ≡ out.old.items ++ inverted_between row.now next.now j ∷ []) }
{
    let right = number_in(next, j);
    let across = number_in(next, j + 1);
    put_face(alloc, out, right, across, number_in(row, j + 1))
}

#[tactic(auto, unfolding(crate::specs::Rows::faces_between))]
fn put_faces(
    alloc: Global,
    out: &mut Vec<Ints>,
    row: &[i32],
    next: &[i32],
    j: usize,
) -> Result<(), AllocError>
    requires lens { length row.now ≡ length next.now + 1 }
    requires place { j < length next.now }
    ensures { OnOk result (out.new.items ≡ out.old.items ++ faces_between row.now next.now j) }
{
    put_upright(alloc, out, row, next, j)?;
    if j + 1 < next.len() {
        put_inverted(alloc, out, row, next, j)?;
    }
    Ok(())
}

// The faces between a row of numbers and the next one.
fn put_row(alloc: Global, out: &mut Vec<Ints>, row: &[i32], next: &[i32]) -> Result<(), AllocError>
    requires lens { length row.now ≡ length next.now + 1 }
    ensures { OnOk result (out.new.items ≡ out.old.items ++ faces_of_rows row.now next.now) }
{
    for j in 0..next.len() {
        put_faces(alloc, out, row, next, j)?;
    }
    Ok(())
}

#[tactic(auto, using(crate::proofs::Rows::row_behind))]
fn put_triangle(
    alloc: Global,
    out: &mut Vec<Ints>,
    nodes: &[[i32; 3]],
    n: u32,
    triangle: [usize; 3],
) -> Result<(), AllocError>
    requires ascending { IsStrictlySortedBy (slice_cmp int_cmp) nodes.now }
    requires count { length nodes.now ≤ 4194304 }
    requires least { 1 ≤ n }
    requires greatest { n ≤ 200 }
    requires numbers { All IsBaseNumber triangle }
    ensures { OnOk result (out.new.items ≡ out.old.items ++ triangle_faces nodes.now n triangle) }
{
    let mut row = make_row(alloc, nodes, n, triangle, 0)?;
    for i in 0..n {
        let next = make_row(alloc, nodes, n, triangle, i + 1)?;
        put_row(alloc, out, &row, &next)?;
        row = next;
    }
    Ok(())
}

#[tactic(auto, unfolding(crate::specs::Icosahedral::faces_of))]
pub fn all_faces(alloc: Global, nodes: &[[i32; 3]], n: u32) -> Result<Vec<Ints>, AllocError>
    requires ascending { IsStrictlySortedBy (slice_cmp int_cmp) nodes.now }
    requires count { length nodes.now ≤ 4194304 }
    requires least { 1 ≤ n }
    requires greatest { n ≤ 200 }
    ensures { IfOk result (λ faces. faces.items ≡ faces_of nodes.now n) }
{
    let mut out = Vec::with_capacity(alloc, 20 * n as usize * n as usize)?;
    for s in 0..20 {
        put_triangle(alloc, &mut out, nodes, n, base_triangle(s))?;
    }
    Ok(out)
}
