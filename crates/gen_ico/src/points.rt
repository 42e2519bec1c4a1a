// The points of the base triangles.
ghost use Rattle.std.specs.Prelude.{◌≡◌, ◌≤◌, ◌<◌, ◌+◌, ◌-◌, ◌*◌, ◌++◌, pos, ◌+ℤ◌, ◌*ℤ◌, All, IfOk, OnOk, unsigned_abs};
ghost use Rattle.vec_exact.specs.Rounding.{rounded};
ghost use Rattle.gen_ico.specs.Icosahedron.{IsBaseNumber};
ghost use Rattle.gen_ico.specs.Icosahedral.{between, point, point_component, points_of, row_points, triangle_points};

use crate::icosahedron::{base_triangle, corner_component};
use std::alloc::{AllocError, Global};

// `x / d` rounded to the nearest whole number, halves away from zero, where 32 bits suffice.
pub fn quotient(x: i32, d: u32) -> i32
    requires least { 1 ≤ d }
    requires greatest { d ≤ 200 }
    requires size { unsigned_abs x ≤ 262144 * d }
    ensures { result ≡ rounded x d }
{
    let whole = ((2 * x.unsigned_abs() + d) / (2 * d)) as i32;
    if x < 0 { -whole } else { whole }
}

// A coordinate so many times.
fn times(a: i32, k: u32) -> i32
    requires coordinate { unsigned_abs a ≤ 131072 }
    requires count { k ≤ 200 }
    ensures value { result ≡ a *ℤ pos k }
    ensures size { unsigned_abs result ≤ 131072 * k }
{
    a * k as i32
}

// The coordinates of three corners, each so many times; n times in all.
fn weighted(n: u32, i: u32, j: u32, a: i32, b: i32, c: i32) -> i32
    requires greatest { n ≤ 200 }
    requires place { i + j ≤ n }
    requires a_size { unsigned_abs a ≤ 131072 }
    requires b_size { unsigned_abs b ≤ 131072 }
    requires c_size { unsigned_abs c ≤ 131072 }
    ensures value { result ≡ a *ℤ pos (n - i - j) +ℤ b *ℤ pos i +ℤ c *ℤ pos j }
    ensures size { unsigned_abs result ≤ 131072 * n }
{
    times(a, n - i - j) + times(b, i) + times(c, j)
}

// One component of the point (i, j) of a triangle.
fn between(n: u32, i: u32, j: u32, a: i32, b: i32, c: i32) -> i32
    requires least { 1 ≤ n }
    requires greatest { n ≤ 200 }
    requires place { i + j ≤ n }
    requires a_size { unsigned_abs a ≤ 131072 }
    requires b_size { unsigned_abs b ≤ 131072 }
    requires c_size { unsigned_abs c ≤ 131072 }
    ensures { result ≡ between n i j a b c }
{
    quotient(weighted(n, i, j, a, b, c), n)
}

fn point_component(n: u32, triangle: [usize; 3], i: u32, j: u32, k: usize) -> i32
    requires least { 1 ≤ n }
    requires greatest { n ≤ 200 }
    requires numbers { All IsBaseNumber triangle }
    requires place { i + j ≤ n }
    requires component { k < 3 }
    ensures { result ≡ point_component n triangle i j k }
{
    let a = corner_component(triangle, 0, k);
    let b = corner_component(triangle, 1, k);
    let c = corner_component(triangle, 2, k);
    between(n, i, j, a, b, c)
}

#[tactic(auto, unfolding(crate::specs::Icosahedral::point))]
pub fn point(n: u32, triangle: [usize; 3], i: u32, j: u32) -> [i32; 3]
    requires least { 1 ≤ n }
    requires greatest { n ≤ 200 }
    requires numbers { All IsBaseNumber triangle }
    requires place { i + j ≤ n }
    ensures { result ≡ point n triangle i j }
{
    [
        point_component(n, triangle, i, j, 0),
        point_component(n, triangle, i, j, 1),
        point_component(n, triangle, i, j, 2),
    ]
}

fn put_row(out: &mut Vec<[i32; 3]>, n: u32, triangle: [usize; 3], i: u32) -> Result<(), AllocError>
    requires least { 1 ≤ n }
    requires greatest { n ≤ 200 }
    requires numbers { All IsBaseNumber triangle }
    requires row { i ≤ n }
    ensures { OnOk result (out.new.items ≡ out.old.items ++ row_points n triangle i) }
{
    for j in 0..n + 1 - i {
        out.push(point(n, triangle, i, j))?;
    }
    Ok(())
}

fn put_triangle(out: &mut Vec<[i32; 3]>, n: u32, triangle: [usize; 3]) -> Result<(), AllocError>
    requires least { 1 ≤ n }
    requires greatest { n ≤ 200 }
    requires numbers { All IsBaseNumber triangle }
    ensures { OnOk result (out.new.items ≡ out.old.items ++ triangle_points n triangle) }
{
    for i in 0..n + 1 {
        put_row(out, n, triangle, i)?;
    }
    Ok(())
}

#[tactic(auto, unfolding(crate::specs::Icosahedral::points_of))]
pub fn all_points(alloc: Global, n: u32) -> Result<Vec<[i32; 3]>, AllocError>
    requires least { 1 ≤ n }
    requires greatest { n ≤ 200 }
    ensures { IfOk result (λ points. points.items ≡ points_of n) }
{
    let count = 10 * (n as usize + 1) * (n as usize + 2);
    let mut out = Vec::with_capacity(alloc, count)?;
    for s in 0..20 {
        put_triangle(&mut out, n, base_triangle(s))?;
    }
    Ok(out)
}
