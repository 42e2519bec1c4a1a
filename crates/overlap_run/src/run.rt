// The overlap of two meshes, block by block.
ghost use Rattle.std.specs.Prelude.{◌≡◌, ◌≢◌, ℕ, ◌+◌, ◌<◌, ◌≤◌, ◌^◌, IfOk, IfErr, IsErr, OnOk, Err, length};
ghost use Rattle.cell_index.specs.IndexOf.{IsIndexOf};
ghost use Rattle.overlap_run.specs.Pairs.{DoMeet, IsPairCount};
ghost use Rattle.overlap_run.specs.Whole.{HoldsOverlap, IsOverlapOf, IsRefusalOf};
ghost use Rattle.overlap_run.specs.Parts.{DoMeetWithin, IsBlockOf, TakesBlock, clip_count};

use crate::blocks::{BLOCK_SIZE, GREATEST_COUNT, next_block};
use crate::workers::shared_out;
use crate::{Block, Gate, RunFault};
use cell_index::{Index, build};
use clip::{Overlap, PieceList, Pieces};
use mesh_check::{Mesh, face_count};
use std::alloc::Global;
use std::sync::ledger::Ledger;
use std::thread::Threads;
use vec_exact::{NoMemory, Steps};

// All blocks, ascending, on the calling thread, as one.
pub fn ascending<C: PieceList, G: Gate, L: Ledger>(
    alloc: Global,
    a: &Mesh,
    b: &Mesh,
    index: &Index,
    gate: &G,
    steps: &mut Steps<L>,
) -> Result<Block<C>, NoMemory>
    requires index { IsIndexOf index.now b.now }
    ensures run { IfOk result (IsBlockOf C.holds a.now b.now (DoMeet a.now b.now)) }
    ensures ticks { OnOk result (steps.new
        ≡ steps.old + clip_count a.now b.now 1 (length a.now.faces)) }
    ensures most { steps.new ≤ steps.old + clip_count a.now b.now 1 (length a.now.faces) }
{
    // The counts say that all numbers fit.
    let _target_faces = face_count(b);
    let faces = face_count(a);
    let mut run = Block {
        count: 0,
        pieces: C::none(alloc),
    };
    for s in 0..faces.div_ceil(BLOCK_SIZE) {
        next_block(alloc, a, b, index, gate, s, &mut run, steps)?;
    }
    Ok(run)
}

// All blocks, on the calling thread or by several workers, as one. The index is let go on the way.
fn all_blocks<R: Threads, C: PieceList + Send + Sync, G: Gate + Sync, L: Ledger>(
    rt: &R,
    alloc: Global,
    a: &Mesh,
    b: &Mesh,
    index: Index,
    workers: u32,
    gate: &G,
    steps: &mut Steps<L>,
) -> Result<Block<C>, NoMemory>
    requires index { IsIndexOf index b.now }
    requires workers { (1 ≤ workers) × (workers ≤ 64) }
    ensures run { IfOk result (IsBlockOf C.holds a.now b.now (DoMeet a.now b.now)) }
    ensures ticks { workers ≡ 1 → OnOk result (steps.new
        ≡ steps.old + clip_count a.now b.now 1 (length a.now.faces)) }
    ensures most { workers ≡ 1 → steps.new
        ≤ steps.old + clip_count a.now b.now 1 (length a.now.faces) }
    ensures still { 2 ≤ workers → steps.new ≡ steps.old }
{
    if workers == 1 {
        ascending(alloc, a, b, &index, gate, steps)
    } else {
        shared_out(rt, alloc, a, b, index, workers, gate)
    }
}

/// The pieces of the overlap of `a` and `b`, as `overlap` gives them, in a list of any form; faults
/// and steps are those of `overlap`.
pub fn overlap_list<C: PieceList + Send + Sync, G: Gate + Sync, L: Ledger>(
    rt: &impl Threads,
    alloc: Global,
    a: &Mesh,
    b: &Mesh,
    workers: u32,
    gate: &G,
    steps: &mut Steps<L>,
) -> Result<C, RunFault>
    requires workers { (1 ≤ workers) × (workers ≤ 64) }
    ensures overlap { IfOk result (HoldsOverlap C.holds a.now b.now) }
    ensures refusal { IfErr result (IsRefusalOf a.now b.now) }
    // where more pairs meet than an overlap may have, no overlap comes
    ensures past { (n : ℕ) → IsPairCount a.now b.now n → 8388608 < n → IsErr result }
    // and where no more do, no number comes
    ensures within { (n m : ℕ) → IsPairCount a.now b.now n → n ≤ 8388608
        → result ≢ Err (RunFault.TooManyPieces m) }
    // one worker takes a step for each pair that is clipped
    ensures ticks { workers ≡ 1 → result ≢ Err RunFault.NoMemory
        → steps.new ≡ steps.old + clip_count a.now b.now 1 (length a.now.faces) }
    ensures most { workers ≡ 1 → steps.new
        ≤ steps.old + clip_count a.now b.now 1 (length a.now.faces) }
    // each of several workers has a counter of its own
    ensures still { 2 ≤ workers → steps.new ≡ steps.old }
{
    // The counts say that the two meshes are within the limits of an overlap.
    let _source_faces = face_count(a);
    let _target_faces = face_count(b);
    let index = build(alloc, b)?;
    let run = all_blocks(rt, alloc, a, b, index, workers, gate, steps)?;
    if run.count > GREATEST_COUNT {
        return Err(RunFault::TooManyPieces(run.count));
    }
    Ok(run.pieces)
}

/// The overlap of `a` and `b`: all pairs of faces that meet, in ascending order of source face and
/// then of target face, each with its ring and the grid corners of the ring. `workers` is from 1 to
/// 64, and the answer is the same for each number of them.
///
/// `TooManyPieces` holds the number of pairs that meet; it comes exactly where that is above
/// 8,388,608. `NoMemory` may come in place of any answer.
///
/// The source faces are taken in blocks of 64, ascending on the calling thread with one worker. More
/// workers are started by join and draw the blocks; where no thread can be made they work one after
/// another. `gate` is told of each block, with its number from 0, before it begins and after it is
/// done.
pub fn overlap<G: Gate + Sync, L: Ledger>(
    rt: &impl Threads,
    alloc: Global,
    a: &Mesh,
    b: &Mesh,
    workers: u32,
    gate: &G,
    steps: &mut Steps<L>,
) -> Result<Overlap, RunFault>
    requires workers { (1 ≤ workers) × (workers ≤ 64) }
    ensures overlap { IfOk result (IsOverlapOf a.now b.now) }
    ensures refusal { IfErr result (IsRefusalOf a.now b.now) }
    // where more pairs meet than an overlap may have, no overlap comes
    ensures past { (n : ℕ) → IsPairCount a.now b.now n → 8388608 < n → IsErr result }
    // and where no more do, no number comes
    ensures within { (n m : ℕ) → IsPairCount a.now b.now n → n ≤ 8388608
        → result ≢ Err (RunFault.TooManyPieces m) }
    // one worker takes a step for each pair that is clipped
    ensures ticks { workers ≡ 1 → result ≢ Err RunFault.NoMemory
        → steps.new ≡ steps.old + clip_count a.now b.now 1 (length a.now.faces) }
    ensures most { workers ≡ 1 → steps.new
        ≤ steps.old + clip_count a.now b.now 1 (length a.now.faces) }
    // each of several workers has a counter of its own
    ensures still { 2 ≤ workers → steps.new ≡ steps.old }
{
    let pieces: Pieces = match overlap_list(rt, alloc, a, b, workers, gate, steps) {
        Ok(pieces) => pieces,
        Err(fault) => return Err(fault),
    };
    Ok(Overlap {
        faces_a: face_count(a),
        faces_b: face_count(b),
        pieces,
    })
}
