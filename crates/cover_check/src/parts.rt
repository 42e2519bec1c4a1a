// Parts of a target, each with the source faces that may still meet it.
ghost use Rattle.std.specs.Prelude.{◌≡◌, ◌≤◌, ◌<◌, ◌++◌, ◌∷◌, [], ℕ, ◌+◌, List, length, map, All, IfOk, OnOk, slice_index};
ghost use Rattle.mesh_check.specs.Mesh.{corners_of};
ghost use Rattle.cover_cells.specs.Cells.{IsCell, IsSource, IsAway};
ghost use Rattle.cover_check.specs.Parts.{PartView, view_of, with_faces, IsSoundPart, IsDivided};

use cover_cells::{Cell, Cells, cut_cells, near_faces, whole_target};
use mesh_check::Mesh;
use std::alloc::Global;
use vec_exact::NoMemory;

/// A cell, and the source faces that may still meet it: at least one.
#[derive(Drop)]
pub struct Part {
    pub cell: Cell,
    pub faces: Vec<u32>,
}

// Puts a cell with its faces to the parts, or to the cells that are left where it has no face.
fn put(parts: &mut Vec<Part>, left: &mut Cells, cell: Cell, faces: Vec<u32>) -> Result<(), NoMemory>
    ensures settled { length faces.items ≡ 0 → OnOk result ((parts.new.items ≡ parts.old.items)
        × (left.new ≡ left.old ++ cell ∷ [])) }
    ensures further { 1 ≤ length faces.items → OnOk result (
        (parts.new.items ≡ parts.old.items ++ record { cell = cell; faces = faces } ∷ [])
        × (left.new ≡ left.old)) }
{
    if faces.is_empty() {
        left.items.push(cell)?;
    } else {
        parts.push(Part { cell, faces })?;
    }
    Ok(())
}

// Puts each of the cells with those of the faces that may meet it. All of them are beyond the face
// at place `skip`, if there is one.
fn spread(
    alloc: Global,
    a: &Mesh,
    b: &Mesh,
    j: u32,
    cells: Cells,
    faces: &[u32],
    skip: usize,
    parts: &mut Vec<Part>,
    left: &mut Cells,
) -> Result<(), NoMemory>
    requires target { (1 ≤ j) × (j ≤ length b.now.faces) }
    requires rings { All (IsCell a.now (corners_of b.now j)) cells }
    requires sources { All (IsSource a.now) faces.now }
    requires skipped { skip < length faces.now
        → All (λ cell. IsAway a.now (corners_of b.now j) cell (slice_index faces.now skip)) cells }
    ensures divided { let Divides = IsDivided a.now (corners_of b.now j) in
        OnOk result ((all : List ℕ) (others : List PartView)
        → Divides all
        (map view_of parts.old.items ++ (others ++ with_faces faces.now cells)) left.old
        → Divides all (map view_of parts.new.items ++ others) left.new) }
    ensures sound { (n : ℕ) → length faces.now ≤ n → OnOk result (
        All (IsSoundPart a.now (corners_of b.now j) n) (map view_of parts.old.items)
        → All (IsSoundPart a.now (corners_of b.now j) n) (map view_of parts.new.items)) }
    ensures fewer { (n : ℕ) → skip < length faces.now → length faces.now ≤ n + 1 → OnOk result (
        All (IsSoundPart a.now (corners_of b.now j) n) (map view_of parts.old.items)
        → All (IsSoundPart a.now (corners_of b.now j) n) (map view_of parts.new.items)) }
{
    let mut pieces = cells.items;
    while let Some(cell) = pieces.pop() {
        let near = near_faces(alloc, a, b, j, &cell, faces, skip)?;
        put(parts, left, cell, near)?;
    }
    Ok(())
}

// A cell as the only one.
fn alone(alloc: Global, cell: Cell) -> Result<Cells, NoMemory>
    ensures { IfOk result (λ cells. cells ≡ cell ∷ []) }
{
    let mut items = Vec::with_capacity(alloc, 1)?;
    items.push(cell)?;
    Ok(Cells { items })
}

// Cuts a part by the face in the middle of its list, so that the pieces have about half of the
// faces each.
fn divide(
    alloc: Global,
    a: &Mesh,
    b: &Mesh,
    j: u32,
    part: Part,
    parts: &mut Vec<Part>,
    left: &mut Cells,
) -> Result<(), NoMemory>
    requires target { (1 ≤ j) × (j ≤ length b.now.faces) }
    requires ring { IsCell a.now (corners_of b.now j) part.cell }
    requires sources { All (IsSource a.now) part.faces.items }
    requires some { 1 ≤ length part.faces.items }
    ensures divided { let Divides = IsDivided a.now (corners_of b.now j) in
        OnOk result ((all : List ℕ) (others : List PartView)
        → Divides all (map view_of parts.old.items ++ (others ++ view_of part ∷ [])) left.old
        → Divides all (map view_of parts.new.items ++ others) left.new) }
    ensures fewer { (n : ℕ) → length part.faces.items ≤ n + 1 → OnOk result (
        All (IsSoundPart a.now (corners_of b.now j) n) (map view_of parts.old.items)
        → All (IsSoundPart a.now (corners_of b.now j) n) (map view_of parts.new.items)) }
{
    let Part { cell, faces } = part;
    let middle = faces.len() / 2;
    let whole = alone(alloc, cell)?;
    let pieces = cut_cells(alloc, a, b, j, &whole, faces[middle])?;
    spread(alloc, a, b, j, pieces, &faces, middle, parts, left)?;
    Ok(())
}

// All parts divided once.
pub fn divided(
    alloc: Global,
    a: &Mesh,
    b: &Mesh,
    j: u32,
    parts: Vec<Part>,
    left: &mut Cells,
) -> Result<Vec<Part>, NoMemory>
    requires target { (1 ≤ j) × (j ≤ length b.now.faces) }
    requires sound { (n : ℕ)
        × All (IsSoundPart a.now (corners_of b.now j) n) (map view_of parts.items) }
    ensures divided { IfOk result (λ next. (all : List ℕ)
        → IsDivided a.now (corners_of b.now j) all (map view_of parts.items) left.old
        → IsDivided a.now (corners_of b.now j) all (map view_of next.items) left.new) }
    ensures fewer { IfOk result (λ next. (n : ℕ)
        → All (IsSoundPart a.now (corners_of b.now j) (n + 1)) (map view_of parts.items)
        → All (IsSoundPart a.now (corners_of b.now j) n) (map view_of next.items)) }
{
    let mut waiting = parts;
    let mut next = Vec::new(alloc);
    while let Some(part) = waiting.pop() {
        divide(alloc, a, b, j, part, &mut next, left)?;
    }
    Ok(next)
}

// The target as its only part, or cell, with those of the faces that may meet it.
pub fn whole(
    alloc: Global,
    a: &Mesh,
    b: &Mesh,
    j: u32,
    faces: &[u32],
    left: &mut Cells,
) -> Result<Vec<Part>, NoMemory>
    requires target { (1 ≤ j) × (j ≤ length b.now.faces) }
    requires sources { All (IsSource a.now) faces.now }
    requires none { left.old ≡ [] }
    ensures divided { IfOk result (λ parts.
        IsDivided a.now (corners_of b.now j) faces.now (map view_of parts.items) left.new) }
    ensures sound { let IsSound = IsSoundPart a.now (corners_of b.now j) (length faces.now) in
        IfOk result (λ parts. All IsSound (map view_of parts.items)) }
{
    let mut parts = Vec::new(alloc);
    let target = whole_target(alloc, b, j)?;
    spread(alloc, a, b, j, target, faces, faces.len(), &mut parts, left)?;
    Ok(parts)
}
