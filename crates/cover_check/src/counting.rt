// How many targets are covered.
ghost use Rattle.std.specs.Prelude.{◌≡◌, ◌≢◌, ◌≤◌, ◌+◌, ◌^◌, ◌<◌, ◌↔◌, true, false, length, IfOk, IsTrue};
ghost use Rattle.mesh_check.specs.Mesh.{corners_of};
ghost use Rattle.cell_index.specs.IndexOf.{IsIndexOf};
ghost use Rattle.cover_cells.specs.Coverage.{IsCovered};
ghost use Rattle.cover_check.specs.CoveredTargets.{IsCountWithin, IsCoverCount};

use crate::rest::rest;
use cell_index::{Index, build};
use mesh_check::{Mesh, face_count};
use std::alloc::Global;
use vec_exact::NoMemory;

/// How many targets are covered, and the number of the first one that isn't, from 1, or 0.
#[derive(Clone, Copy, Debug, PartialEq, Eq)]
pub struct CoverCount {
    pub covered: u32,
    pub first: u32,
}

// Whether target j is covered.
fn is_covered(
    alloc: Global,
    a: &Mesh,
    index: &Index,
    b: &Mesh,
    j: u32,
    found: &mut Vec<u32>,
) -> Result<bool, NoMemory>
    requires index { IsIndexOf index.now a.now }
    requires target { (1 ≤ j) × (j ≤ length b.now.faces) }
    ensures { IfOk result (λ covered. IsTrue covered ↔ IsCovered a.now (corners_of b.now j)) }
{
    let cells = rest(alloc, a, index, b, j, found)?;
    Ok(cells.items.is_empty())
}

// The count with target j, which is covered or not.
fn counted(count: CoverCount, j: u32, covered: bool) -> CoverCount
    requires { count.covered + 1 < 2 ^ 32 }
    ensures one_more { covered ≡ true → result.covered ≡ count.covered + 1 }
    ensures same_first { covered ≡ true → result.first ≡ count.first }
    ensures same { covered ≡ false → result.covered ≡ count.covered }
    ensures first { covered ≡ false → count.first ≡ 0 → result.first ≡ j }
    ensures later { covered ≡ false → count.first ≢ 0 → result.first ≡ count.first }
{
    if covered {
        CoverCount {
            covered: count.covered + 1,
            ..count
        }
    } else if count.first == 0 {
        CoverCount { first: j, ..count }
    } else {
        count
    }
}

// The count of the targets from number `from` on that come before number `end`.
fn count_within(
    alloc: Global,
    a: &Mesh,
    index: &Index,
    b: &Mesh,
    from: u32,
    end: u32,
) -> Result<CoverCount, NoMemory>
    requires index { IsIndexOf index.now a.now }
    requires low { (1 ≤ from) × (from ≤ end) }
    requires high { end ≤ length b.now.faces + 1 }
    ensures { IfOk result (IsCountWithin a.now b.now from end) }
{
    let mut found = Vec::new(alloc);
    let mut count = CoverCount {
        covered: 0,
        first: 0,
    };
    for j in from..end {
        let covered = is_covered(alloc, a, index, b, j, &mut found)?;
        count = counted(count, j, covered);
    }
    Ok(count)
}

/// How many targets of `b` the faces of `a` cover, and the first one that they don't. Its only error
/// is want of memory.
pub fn coverage(alloc: Global, a: &Mesh, b: &Mesh) -> Result<CoverCount, NoMemory>
    ensures { IfOk result (IsCoverCount a.now b.now) }
{
    let index = build(alloc, a)?;
    count_within(alloc, a, &index, b, 1, face_count(b) + 1)
}
