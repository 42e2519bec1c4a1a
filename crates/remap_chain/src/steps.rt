// The three steps of the chain, each with its faults in the words of the chain.
ghost use Rattle.std.specs.Prelude.{◌≡◌, ◌≤◌, ◌<◌, IfOk, IfErr, OnOk, length};
ghost use Rattle.vec_exact.specs.declared.limits.TheConstants.{MAX_PIECES};
ghost use Rattle.overlap_run.specs.Whole.{IsOverlapOf, IsRefusalOf};
ghost use Rattle.offline_map.specs.Maps.{map_of};
ghost use Rattle.offline_map.specs.MapFaults.{IsMappable};
ghost use Rattle.map_rows.specs.Application.{application_of, source_mass_of, target_mass_of};
ghost use Rattle.map_rows.specs.Laws.{IsFieldOf};
ghost use Rattle.apply_map.specs.Fields.{field_of};
ghost use Rattle.remap_chain.specs.Chains.{IsFaultOfOverlap, IsFaultOfMap, IsFaultOfField};

use crate::ChainFault;
use apply_map::{ApplyFault, Field, apply};
use clip::Overlap;
use map_rows::Map;
use mesh_check::Mesh;
use offline_map::{MapFault, make_map};
use overlap_run::{Gate, RunFault, overlap};
use std::alloc::Global;
use std::marker::Brand;
use std::sync::ledger::{Blank, Ledger};
use std::thread::Threads;
use vec_exact::Steps;

// The overlap of two meshes, with a counter of steps of its own.
fn counted<R: Threads, G: Gate + Sync, L: Ledger>(
    rt: &R,
    alloc: Global,
    a: &Mesh,
    b: &Mesh,
    workers: u32,
    gate: &G,
    blank: Blank,
) -> Result<Overlap, RunFault>
    requires name { blank.name ≡ L.name }
    requires parts { blank.parts ≡ L.parts }
    requires some { 0 < blank.parts }
    requires workers { (1 ≤ workers) × (workers ≤ 64) }
    ensures overlap { IfOk result (IsOverlapOf a.now b.now) }
    ensures refusal { IfErr result (IsRefusalOf a.now b.now) }
{
    let mut steps = Steps::<L>::new(blank);
    overlap(rt, alloc, a, b, workers, gate, &mut steps)
}

// The overlap of two meshes.
pub fn own_overlap<R: Threads, G: Gate + Sync>(
    rt: &R,
    alloc: Global,
    a: &Mesh,
    b: &Mesh,
    workers: u32,
    gate: &G,
) -> Result<Overlap, ChainFault>
    requires { (1 ≤ workers) × (workers ≤ 64) }
    ensures overlap { IfOk result (IsOverlapOf a.now b.now) }
    ensures fault { IfErr result (IsFaultOfOverlap a.now b.now) }
{
    match counted::<R, G, Brand>(rt, alloc, a, b, workers, gate, Blank::new(1)) {
        Ok(overlap) => Ok(overlap),
        Err(RunFault::TooManyPieces(pairs)) => Err(ChainFault::TooManyPieces(pairs)),
        Err(RunFault::NoMemory) => Err(ChainFault::NoMemory),
    }
}

// The map of the overlap of the two meshes, whose counts and pieces are right.
pub fn own_map(alloc: Global, a: &Mesh, b: &Mesh, overlap: &Overlap) -> Result<Map, ChainFault>
    requires { IsOverlapOf a.now b.now overlap.now }
    ensures map { IfOk result (λ map. map ≡ map_of overlap.now) }
    ensures accepted { OnOk result (IsMappable a.now b.now overlap.now) }
    ensures fault { IfErr result (IsFaultOfMap a.now b.now overlap.now) }
    ensures few { length overlap.now.pieces ≤ MAX_PIECES }
{
    // An overlap has no more pieces than it may have.
    let _pieces = overlap.pieces.items.len();
    match make_map(alloc, a, b, overlap) {
        Ok(map) => Ok(map),
        Err(MapFault::Uncovered(target)) => Err(ChainFault::Uncovered(target)),
        Err(MapFault::NoMemory) => Err(ChainFault::NoMemory),
        Err(MapFault::CountsA { .. }) => unreachable!(),
        Err(MapFault::CountsB { .. }) => unreachable!(),
        Err(MapFault::Row(_)) => unreachable!(),
    }
}

// The field of one slice that the map makes of the values.
pub fn own_field(alloc: Global, map: &Map, values: &[i32]) -> Result<Field, ChainFault>
    ensures field { IfOk result (λ field. field ≡ field_of (application_of map.now 1 values.now)) }
    ensures counts { OnOk result (length values.now ≡ map.now.n_a) }
    ensures masses { IfOk result (λ field. target_mass_of map.now 1 field.whole field.rest
        ≡ source_mass_of map.now 1 values.now) }
    ensures rests { IfOk result (λ field. IsFieldOf map.now 1 field.whole field.rest) }
    ensures fault { IfErr result (IsFaultOfField map.now values.now) }
{
    match apply(alloc, map, 1, values) {
        Ok(field) => Ok(field),
        Err(ApplyFault::Length { map, field }) => Err(ChainFault::Length { map, field }),
        Err(ApplyFault::NoMemory) => Err(ChainFault::NoMemory),
    }
}
