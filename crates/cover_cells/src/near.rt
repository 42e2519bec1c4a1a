// The source faces that may meet a cell.
ghost use Rattle.std.specs.Prelude.{◌≡◌, ◌≢◌, ◌≤◌, ◌<◌, ◌<ℤ◌, ◌↔◌, ◌⊎◌, pos, ◌++◌, ◌∷◌, [], ℕ, false, length, All, Contains, IfOk, OnOk, IsTrue, slice_index, if◌then◌else◌};
ghost use Rattle.vec_exact.specs.declared.Vec3.{Vec3 as Direction};
ghost use Rattle.vec_exact.specs.Vector.{inner};
ghost use Rattle.vec_exact.specs.Size.{Is37, Is75};
ghost use Rattle.vec_exact.specs.Cycle.{Convex, vector_at, face_plane};
ghost use Rattle.cone_laws.specs.Cone.{AllPositive};
ghost use Rattle.mesh_check.specs.Mesh.{corners_of};
ghost use Rattle.cover_cells.specs.Cells.{planes_of, IsNamed, IsCell, IsSource, IsBeyondAnEdge, IsAway};
ghost use Rattle.cover_cells.specs.Sides.{AreCorners, NonePositive};

use crate::planes::{corner_at, plane_of};
use crate::{Cell, CellPlane};
use mesh_check::{Mesh, edge_count, node, plane};
use std::alloc::Global;
use vec_exact::{NoMemory, Vec3, dot, vector};

// The planes of the cell.
fn cell_planes(
    alloc: Global,
    a: &Mesh,
    b: &Mesh,
    j: u32,
    cell: &[CellPlane],
) -> Result<Vec<Vec3>, NoMemory>
    requires target { (1 ≤ j) × (j ≤ length b.now.faces) }
    requires named { All (IsNamed a.now (corners_of b.now j)) cell.now }
    ensures value { IfOk result (λ planes.
        planes.items ≡ planes_of a.now (corners_of b.now j) cell.now) }
    ensures size { IfOk result (λ planes. All Is37 planes.items) }
{
    let mut planes = Vec::with_capacity(alloc, cell.len())?;
    for t in 0..cell.len() {
        planes.push(plane_of(a, b, j, cell[t]))?;
    }
    Ok(planes)
}

// The corners of the cell.
fn cell_corners(
    alloc: Global,
    a: &Mesh,
    b: &Mesh,
    j: u32,
    cell: &[CellPlane],
) -> Result<Vec<Vec3>, NoMemory>
    requires target { (1 ≤ j) × (j ≤ length b.now.faces) }
    requires named { All (IsNamed a.now (corners_of b.now j)) cell.now }
    ensures value { IfOk result (λ corners.
        AreCorners (planes_of a.now (corners_of b.now j) cell.now) corners.items) }
    ensures size { IfOk result (λ corners. All Is75 corners.items) }
{
    let mut corners = Vec::with_capacity(alloc, cell.len())?;
    for t in 0..cell.len() {
        corners.push(corner_at(a, b, j, cell, t))?;
    }
    Ok(corners)
}

// Whether the point is on the positive side of the plane.
fn is_before(plane: Vec3, point: Vec3) -> bool
    requires plane { Is37 plane }
    requires point { Is75 point }
    ensures { IsTrue result ↔ (pos 0 <ℤ inner plane point) }
{
    0 < dot(plane, point)
}

// Whether no node of the face is on the positive side of the plane.
fn has_no_node_before(a: &Mesh, i: u32, plane: Vec3) -> bool
    requires source { (1 ≤ i) × (i ≤ length a.now.faces) }
    requires size { Is37 plane }
    ensures { IsTrue result → NonePositive plane (corners_of a.now i) }
{
    for t in 0..edge_count(a, i) {
        if is_before(plane, vector(node(a, i, t + 1))) {
            return false;
        }
    }
    true
}

// Whether no corner is on the positive side of the plane.
fn has_no_corner_before(plane: Vec3, corners: &[Vec3]) -> bool
    requires plane { Is37 plane }
    requires corners { All Is75 corners.now }
    ensures { IsTrue result → NonePositive plane corners.now }
{
    for corner in corners {
        if is_before(plane, *corner) {
            return false;
        }
    }
    true
}

// Whether one of the planes has the whole face behind it.
fn is_behind_a_plane(a: &Mesh, i: u32, planes: &[Vec3]) -> bool
    requires source { (1 ≤ i) × (i ≤ length a.now.faces) }
    requires size { All Is37 planes.now }
    ensures { IsTrue result → ((t : ℕ) × t < length planes.now
        × NonePositive (vector_at planes.now t) (corners_of a.now i)) }
{
    for p in planes {
        if has_no_node_before(a, i, *p) {
            return true;
        }
    }
    false
}

// Whether one of the face's edges has all corners beyond it.
fn is_beyond_an_edge(a: &Mesh, i: u32, corners: &[Vec3]) -> bool
    requires source { (1 ≤ i) × (i ≤ length a.now.faces) }
    requires corners { All Is75 corners.now }
    ensures { let face = corners_of a.now i in
        IsTrue result → ((t : ℕ) × t < length face × NonePositive (face_plane face t) corners.now) }
{
    for t in 0..edge_count(a, i) {
        if has_no_corner_before(plane(a, i, t + 1), corners) {
            return true;
        }
    }
    false
}

// Whether one plane keeps the face away from the cell with these planes and corners.
fn is_kept_away(a: &Mesh, i: u32, planes: &[Vec3], corners: &[Vec3]) -> bool
    requires source { IsSource a.now i }
    requires planes { All Is37 planes.now }
    requires ring { Convex (length planes.now) (vector_at planes.now) }
    requires corners { All Is75 corners.now }
    requires at { AreCorners planes.now corners.now }
    ensures { IsTrue result → (d : Direction)
        → AllPositive (length planes.now) (vector_at planes.now) d
        → IsBeyondAnEdge (corners_of a.now i) d }
{
    // The face is accepted.
    let _edges = edge_count(a, i);
    if is_behind_a_plane(a, i, planes) {
        return true;
    }
    is_beyond_an_edge(a, i, corners)
}

// Whether the face at place t may meet the cell with these planes and corners, and t isn't `skip`.
fn is_wanted(
    a: &Mesh,
    faces: &[u32],
    t: usize,
    skip: usize,
    planes: &[Vec3],
    corners: &[Vec3],
) -> bool
    requires place { t < length faces.now }
    requires sources { All (IsSource a.now) faces.now }
    requires planes { All Is37 planes.now }
    requires ring { Convex (length planes.now) (vector_at planes.now) }
    requires corners { All Is75 corners.now }
    requires at { AreCorners planes.now corners.now }
    ensures skipped { t ≡ skip → result ≡ false }
    ensures away { result ≡ false → t ≢ skip → (d : Direction)
        → AllPositive (length planes.now) (vector_at planes.now) d
        → IsBeyondAnEdge (corners_of a.now (slice_index faces.now t)) d }
{
    if t == skip {
        return false;
    }
    !is_kept_away(a, faces[t], planes, corners)
}

// Puts x at the end of the list, if it is wanted.
fn put_if(list: &mut Vec<u32>, x: u32, wanted: bool) -> Result<(), NoMemory>
    ensures { OnOk result (
        list.new.items ≡ (if wanted then list.old.items ++ x ∷ [] else list.old.items)) }
{
    if wanted {
        list.push(x)?;
    }
    Ok(())
}

/// Those of the source faces that may meet a cell of target `j` of `b`: all but those that one plane
/// keeps away from it, and but the one at place `skip`, from 0. Its only error is want of memory.
pub fn near_faces(
    alloc: Global,
    a: &Mesh,
    b: &Mesh,
    j: u32,
    cell: &Cell,
    faces: &[u32],
    skip: usize,
) -> Result<Vec<u32>, NoMemory>
    requires target { (1 ≤ j) × (j ≤ length b.now.faces) }
    requires cell { IsCell a.now (corners_of b.now j) cell.now }
    requires sources { All (IsSource a.now) faces.now }
    ensures among { IfOk result (λ near.
        All (λ i. IsSource a.now i × Contains faces.now i) near.items) }
    // Each face is there, or each direction in the cell is beyond one of its edges.
    ensures away { IfOk result (λ near. (t : ℕ) → t < length faces.now → t ≢ skip
        → Contains near.items (slice_index faces.now t)
        ⊎ IsAway a.now (corners_of b.now j) cell.now (slice_index faces.now t)) }
    ensures few { IfOk result (λ near. length near.items ≤ length faces.now) }
    ensures fewer { skip < length faces.now
        → IfOk result (λ near. length near.items < length faces.now) }
{
    let planes = cell_planes(alloc, a, b, j, &cell.items)?;
    let corners = cell_corners(alloc, a, b, j, &cell.items)?;
    let mut near = Vec::new(alloc);
    for t in 0..faces.len() {
        let wanted = is_wanted(a, faces, t, skip, &planes, &corners);
        put_if(&mut near, faces[t], wanted)?;
    }
    Ok(near)
}
