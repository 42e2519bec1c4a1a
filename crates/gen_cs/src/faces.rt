// The faces, panel by panel.
ghost use Rattle.std.specs.Prelude.{◌≡◌, ◌≤◌, ◌<◌, ◌+◌, ◌++◌, ◌||◌, true, IfOk, OnOk};
ghost use Rattle.gen_cs.specs.CubedSphere.{corner, face_at, faces_of, is_end, node_at, nodes_of, number_of, panel_faces, row_faces};

use crate::numbers::number_at;
use std::alloc::{AllocError, Global};
use vec_exact::{Ints, Panel};

// The places of the corner (i, j) of a panel: of its first, second and third coordinate.
#[tactic(auto, using(crate::proofs::Corners::corner_plus_x, crate::proofs::Corners::corner_plus_y, crate::proofs::Corners::corner_minus_x, crate::proofs::Corners::corner_minus_y, crate::proofs::Corners::corner_plus_z, crate::proofs::Corners::corner_minus_z))]
fn corner_places(n: u32, panel: Panel, i: u32, j: u32) -> (u32, u32, u32)
    requires first { i ≤ n }
    requires second { j ≤ n }
    ensures corner { corner n panel i j ≡ node_at n result.0 result.1 result.2 }
    ensures within { (result.0 ≤ n) × (result.1 ≤ n) × (result.2 ≤ n) }
    ensures node { is_end n result.0 || is_end n result.1 || is_end n result.2 ≡ true }
{
    match panel {
        Panel::PlusX => (n, i, j),
        Panel::PlusY => (n - i, n, j),
        Panel::MinusX => (0, n - i, j),
        Panel::MinusY => (i, 0, j),
        Panel::PlusZ => (n - j, i, n),
        Panel::MinusZ => (j, i, 0),
    }
}

// The number of the corner (i, j) of a panel.
fn corner_number(n: u32, panel: Panel, i: u32, j: u32) -> i32
    requires least { 1 ≤ n }
    requires large { n ≤ 400 }
    requires first { i ≤ n }
    requires second { j ≤ n }
    ensures { result ≡ number_of (nodes_of n) (corner n panel i j) }
{
    let (a, b, c) = corner_places(n, panel, i, j);
    number_at(n, a, b, c)
}

fn make_face(alloc: Global, n: u32, panel: Panel, j: u32, i: u32) -> Result<Ints, AllocError>
    requires least { 1 ≤ n }
    requires large { n ≤ 400 }
    requires first { i < n }
    requires second { j < n }
    ensures { IfOk result (λ face. face ≡ face_at (nodes_of n) n panel j i) }
{
    let mut items = Vec::with_capacity(alloc, 4)?;
    items.push(corner_number(n, panel, i, j))?;
    items.push(corner_number(n, panel, i + 1, j))?;
    items.push(corner_number(n, panel, i + 1, j + 1))?;
    items.push(corner_number(n, panel, i, j + 1))?;
    Ok(Ints { items })
}

fn put_row(
    alloc: Global,
    out: &mut Vec<Ints>,
    n: u32,
    panel: Panel,
    j: u32,
) -> Result<(), AllocError>
    requires least { 1 ≤ n }
    requires large { n ≤ 400 }
    requires second { j < n }
    ensures { OnOk result (out.new.items ≡ out.old.items ++ row_faces (nodes_of n) n panel j) }
{
    for i in 0..n {
        out.push(make_face(alloc, n, panel, j, i)?)?;
    }
    Ok(())
}

fn put_panel(alloc: Global, out: &mut Vec<Ints>, n: u32, panel: Panel) -> Result<(), AllocError>
    requires least { 1 ≤ n }
    requires large { n ≤ 400 }
    ensures { OnOk result (out.new.items ≡ out.old.items ++ panel_faces (nodes_of n) n panel) }
{
    for j in 0..n {
        put_row(alloc, out, n, panel, j)?;
    }
    Ok(())
}

pub fn all_faces(alloc: Global, n: u32) -> Result<Vec<Ints>, AllocError>
    requires least { 1 ≤ n }
    requires large { n ≤ 400 }
    ensures { IfOk result (λ faces. faces.items ≡ faces_of (nodes_of n) n) }
{
    let mut out = Vec::with_capacity(alloc, 6 * n as usize * n as usize)?;
    put_panel(alloc, &mut out, n, Panel::PlusX)?;
    put_panel(alloc, &mut out, n, Panel::PlusY)?;
    put_panel(alloc, &mut out, n, Panel::MinusX)?;
    put_panel(alloc, &mut out, n, Panel::MinusY)?;
    put_panel(alloc, &mut out, n, Panel::PlusZ)?;
    put_panel(alloc, &mut out, n, Panel::MinusZ)?;
    Ok(out)
}
