// Cells on the positive side of one more plane.
ghost use Rattle.std.specs.Prelude.{◌≡◌, ◌≤◌, ◌<◌, length, All, IfOk, MatchOption};
ghost use Rattle.vec_exact.specs.declared.Vec3.{Vec3 as Direction};
ghost use Rattle.mesh_check.specs.Mesh.{corners_of};
ghost use Rattle.cover_cells.specs.Cells.{IsCell, IsNamed, plane_of as plane, is_positive, cells_with};
ghost use Rattle.cover_cells.specs.Splitting.{IsHalf, HasNoHalf, number_if};
ghost use Rattle.cover_cells.specs.Sides.{IsRunOf};

use crate::planes::{plane_of, sides_on};
use crate::sides::{Left, left_of};
use crate::{Cell, CellPlane, Cells};
use mesh_check::Mesh;
use std::alloc::Global;
use vec_exact::{NoMemory, place_after};

// The cell's planes from place `first` on, up to `count` places later, and then p.
fn run_of(
    alloc: Global,
    cell: &[CellPlane],
    first: usize,
    count: usize,
    p: CellPlane,
) -> Result<Vec<CellPlane>, NoMemory>
    requires first { first < length cell.now }
    requires count { count < length cell.now }
    ensures { IfOk result (λ run. IsRunOf cell.now run.items first count p) }
{
    let mut run = Vec::new(alloc);
    for t in 0..count + 1 {
        run.push(cell[place_after(cell.len(), first, t)])?;
    }
    run.push(p)?;
    Ok(run)
}

// The same cell again.
fn copied(alloc: Global, cell: &Cell) -> Result<Cell, NoMemory>
    ensures { IfOk result (λ copy. copy ≡ cell.now) }
{
    let items = Vec::from_slice(alloc, &cell.items)?;
    Ok(Cell { items })
}

// The part of a cell on the positive side of p, if a direction is there.
fn half(
    alloc: Global,
    a: &Mesh,
    b: &Mesh,
    j: u32,
    cell: &Cell,
    p: CellPlane,
) -> Result<Option<Cell>, NoMemory>
    requires target { (1 ≤ j) × (j ≤ length b.now.faces) }
    requires cell { IsCell a.now (corners_of b.now j) cell.now }
    requires named { IsNamed a.now (corners_of b.now j) p }
    ensures { let target = corners_of b.now j in
        IfOk result (λ part.
        MatchOption part (HasNoHalf a.now target cell.now p) (IsHalf a.now target cell.now p)) }
{
    let sides = sides_on(alloc, a, b, j, &cell.items, plane_of(a, b, j, p))?;
    match left_of(&sides) {
        Left::Whole => Ok(Some(copied(alloc, cell)?)),
        Left::Nothing => Ok(None),
        Left::Run { first, count } => {
            let items = run_of(alloc, &cell.items, first, count, p)?;
            Ok(Some(Cell { items }))
        }
    }
}

// The parts of all cells on the positive side of p, where a direction is there.
pub fn halves(
    alloc: Global,
    a: &Mesh,
    b: &Mesh,
    j: u32,
    cells: &Cells,
    p: CellPlane,
) -> Result<Cells, NoMemory>
    requires target { (1 ≤ j) × (j ≤ length b.now.faces) }
    requires cells { All (IsCell a.now (corners_of b.now j)) cells.now }
    requires named { IsNamed a.now (corners_of b.now j) p }
    ensures cells { IfOk result (All (IsCell a.now (corners_of b.now j))) }
    ensures count { let target = corners_of b.now j in
        IfOk result (λ parts. (d : Direction) → cells_with a.now target d parts
        ≡ number_if (is_positive d (plane a.now target p)) (cells_with a.now target d cells.now)) }
{
    let mut parts = Vec::new(alloc);
    for cell in &cells.items {
        match half(alloc, a, b, j, cell, p)? {
            None => {}
            Some(part) => parts.push(part)?,
        }
    }
    Ok(Cells { items: parts })
}
