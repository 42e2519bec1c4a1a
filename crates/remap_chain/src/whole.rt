// Overlap, map and field of two meshes, one made of the other.
ghost use Rattle.std.specs.Prelude.{◌≡◌, ◌≢◌, ◌≤◌, ◌⊎◌, IfOk, IfErr, Err};
ghost use Rattle.overlap_run.specs.Pairs.{IsPairCount};
ghost use Rattle.map_rows.specs.Application.{source_mass_of, target_mass_of};
ghost use Rattle.map_rows.specs.Laws.{IsFieldOf};
ghost use Rattle.remap_chain.specs.declared.faults.ChainFault.{ChainFault as FirstFault};
ghost use Rattle.remap_chain.specs.declared.faults.ChainFault.TheVariants.{NoMemory as ChainNoMemory};
ghost use Rattle.remap_chain.specs.Chains.{IsChainOf, IsChainFaultOf};

use crate::ChainFault;
use crate::steps::{own_field, own_map, own_overlap};
use apply_map::Field;
use map_rows::Map;
use mesh_check::Mesh;
use overlap_run::Gate;
use std::alloc::Global;
use std::thread::Threads;

/// What the chain gives.
#[derive(Drop)]
pub struct ChainOut {
    /// How many pairs of faces meet.
    pub pieces: u32,
    /// The map of the overlap.
    pub map: Map,
    /// The field over the targets, of one slice.
    pub field: Field,
}

/// The overlap of `a` and `b`, the map of it, and the field of one slice that this map makes of
/// `values`, of which the first is that of source face 1. `workers` is from 1 to 64, and the answer
/// is the same for each number of them; they and `gate` are those of `overlap`.
///
/// A fault is the first one: `TooManyPieces` holds the number of pairs that meet, where that is
/// above 8,388,608; `Uncovered` the least target face that meets no source face; `Length` the number
/// of source faces and that of values, where they differ. `NoMemory` may come in place of any answer.
pub fn chain<G: Gate + Sync>(
    rt: &impl Threads,
    alloc: Global,
    a: &Mesh,
    b: &Mesh,
    workers: u32,
    gate: &G,
    values: &[i32],
) -> Result<ChainOut, ChainFault>
    requires workers { (1 ≤ workers) × (workers ≤ 64) }
    ensures chain { IfOk result (IsChainOf a.now b.now values.now) }
    ensures pieces { IfOk result (λ out. IsPairCount a.now b.now out.pieces) }
    ensures masses { IfOk result (λ out. target_mass_of out.map 1 out.field.whole out.field.rest
        ≡ source_mass_of out.map 1 values.now) }
    ensures rests { IfOk result (λ out. IsFieldOf out.map 1 out.field.whole out.field.rest) }
    ensures fault { IfErr result (λ fault. fault ≢ ChainNoMemory
        → IsChainFaultOf a.now b.now values.now fault) }
    // and where there is a fault, no field comes, and no other fault
    ensures refused { (fault : FirstFault) → IsChainFaultOf a.now b.now values.now fault
        → (result ≡ Err fault) ⊎ (result ≡ Err ChainNoMemory) }
{
    let overlap = own_overlap(rt, alloc, a, b, workers, gate)?;
    let map = own_map(alloc, a, b, &overlap)?;
    let pieces = overlap.pieces.items.len() as u32;
    drop(overlap);
    let field = own_field(alloc, &map, values)?;
    Ok(ChainOut { pieces, map, field })
}
