// The report on a mesh.
ghost use Rattle.std.specs.Prelude.{◌≡◌, ◌≢◌, ◌≤◌, ◌<◌, ℕ, IfOk, IfErr, IsErr, IsTrue, Err};
ghost use Rattle.overlap_run.specs.Pairs.{IsPairCount};
ghost use Rattle.overlap_run.specs.Whole.{IsRefusalOf};
ghost use Rattle.mesh_partition.specs.MeshReport.{IsMeshReportOf};
ghost use Rattle.mesh_partition.specs.Sphere.{TilesSphere};

use crate::cover::covers_sphere;
use crate::edges::edge_counts;
use crate::overlaps::overlap_count;
use mesh_check::Mesh;
use overlap_run::RunFault;
use std::alloc::Global;
use std::thread::Threads;

/// What is told of a mesh. A directed edge goes from the triple of one node to that of the next one
/// in a face.
#[derive(Clone, Copy, Debug, PartialEq, Eq)]
pub struct MeshReport {
    /// How many pairs of faces have a direction inside both.
    pub overlaps: u64,
    /// How many different directed edges have their reverse in no face.
    pub unpaired: u32,
    /// By how many the directed edges, each counted in every face that has it, are more than the
    /// different ones.
    pub doubled: u32,
    /// Whether every direction other than zero is in the closure of some face.
    pub covered: bool,
}

/// The report on a mesh. `workers` is from 1 to 64, and the answer is the same for each number of
/// them. Where `overlaps` is 0 and `covered` holds, the mesh tiles the sphere.
///
/// `TooManyPieces` holds the number of pairs of faces of the mesh that meet, each face with itself
/// and each pair in both orders; it comes exactly where that is above 8,388,608. `NoMemory` may come
/// in place of any answer.
pub fn report<R: Threads>(
    rt: &R,
    alloc: Global,
    mesh: &Mesh,
    workers: u32,
) -> Result<MeshReport, RunFault>
    requires workers { (1 ≤ workers) × (workers ≤ 64) }
    ensures report { IfOk result (IsMeshReportOf mesh.now) }
    ensures tiles { IfOk result (λ report. report.overlaps ≡ 0 → IsTrue report.covered
        → TilesSphere mesh.now) }
    ensures refusal { IfErr result (IsRefusalOf mesh.now mesh.now) }
    // where more pairs meet than an overlap may have, no report comes
    ensures past { (n : ℕ) → IsPairCount mesh.now mesh.now n → 8388608 < n → IsErr result }
    // and where no more do, no number comes
    ensures within { (n m : ℕ) → IsPairCount mesh.now mesh.now n → n ≤ 8388608
        → result ≢ Err (RunFault.TooManyPieces m) }
{
    let overlaps = match overlap_count(rt, alloc, mesh, workers) {
        Ok(count) => count as u64,
        Err(fault) => return Err(fault),
    };
    let edges = edge_counts(alloc, mesh)?;
    let covered = covers_sphere(alloc, mesh)?;
    Ok(MeshReport {
        overlaps,
        unpaired: edges.unpaired,
        doubled: edges.doubled,
        covered,
    })
}
