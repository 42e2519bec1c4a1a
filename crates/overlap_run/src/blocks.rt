// A block of source faces: its pieces, or how many there are.
ghost use Rattle.std.specs.Prelude.{◌≡◌, ℕ, ◌+◌, ◌-◌, ◌*◌, ◌<◌, ◌≤◌, ◌^◌, List, IfOk, OnOk, length, min};
ghost use Rattle.vec_exact.specs.declared.RawMesh.{RawMesh};
ghost use Rattle.cell_index.specs.IndexOf.{IsIndexOf};
ghost use Rattle.clip.specs.declared.pieces.Piece.{Piece};
ghost use Rattle.overlap_run.specs.declared.blocks.Stretch.{Stretch};
ghost use Rattle.overlap_run.specs.Parts.{IsBlockOf, IsNumberedBlock, AreFirstBlocks, IsWaitingBlock, TakesBlock, StandsIn, HoldsSome, DoMeetWithin, clip_count};

use crate::Gate;
use crate::faces::clip_face;
use cell_index::{Index, find_candidates};
use clip::{Outline, PieceList, Pieces, Place};
use mesh_check::{Mesh, face_count};
use std::alloc::Global;
use std::sync::ledger::Ledger;
use vec_exact::{MAX_PIECES, NoMemory, Steps};

// Block s, from 0, holds the source faces from 64 s + 1 to 64 s + 64, as far as the mesh has them.
pub const BLOCK_SIZE: u32 = 64;

// An overlap has at most this many pieces.
pub const GREATEST_COUNT: u64 = MAX_PIECES as u64;

/// How many pieces some source faces have, and the pieces in ascending order of source face and
/// then of target face. Where there are more than 8,388,608, none is kept.
#[derive(Drop)]
pub struct Block<C = Pieces> {
    /// How many pieces there are.
    pub count: u64,
    /// The pieces, or none past the limit.
    pub pieces: C,
}

// Puts the pieces of the source faces from `from` to `to`, which count from 1, behind those of the
// faces before them. Each is clipped with its candidates among the faces of `b`.
fn extend_block<C: PieceList, L: Ledger>(
    alloc: Global,
    a: &Mesh,
    b: &Mesh,
    index: &Index,
    from: u32,
    to: u32,
    block: &mut Block<C>,
    steps: &mut Steps<L>,
) -> Result<(), NoMemory>
    requires from { (1 ≤ from) × (from ≤ to + 1) }
    requires to { to ≤ length a.now.faces }
    requires index { IsIndexOf index.now b.now }
    requires room { block.old.count < 2 ^ 63 }
    ensures block { (first : ℕ) → first ≤ from
        → IsBlockOf C.holds a.now b.now (DoMeetWithin a.now b.now first (from - 1)) block.old
        → OnOk result (IsBlockOf C.holds a.now b.now (DoMeetWithin a.now b.now first to) block.new) }
    ensures few { OnOk result (block.new.count ≤ block.old.count + clip_count a.now b.now from to) }
    ensures ticks { OnOk result (steps.new ≡ steps.old + clip_count a.now b.now from to) }
    ensures most { steps.new ≤ steps.old + clip_count a.now b.now from to }
{
    // The counts say that all numbers fit.
    let _source_faces = face_count(a);
    let _target_faces = face_count(b);
    let mut targets = Vec::new(alloc);
    let mut source = Outline::new();
    let mut target = Outline::new();
    for i in from..to + 1 {
        find_candidates(index, a, i, &mut targets)?;
        clip_face(
            alloc,
            a,
            i,
            b,
            &targets,
            &mut source,
            &mut target,
            block,
            steps,
        )?;
    }
    Ok(())
}

/// The block of the source faces from `from` to `to` of `a`, which count from 1: each is clipped with
/// its candidates among the faces of `b`, whose index is `index`. There is no face where `from` is
/// `to` + 1. Its only error is want of memory.
///
/// It takes one step for each candidate of these faces, and no more than that after an error.
pub fn clip_block<C: PieceList, L: Ledger>(
    alloc: Global,
    a: &Mesh,
    b: &Mesh,
    index: &Index,
    from: u32,
    to: u32,
    steps: &mut Steps<L>,
) -> Result<Block<C>, NoMemory>
    requires from { (1 ≤ from) × (from ≤ to + 1) }
    requires to { to ≤ length a.now.faces }
    requires index { IsIndexOf index.now b.now }
    ensures block { IfOk result (IsBlockOf C.holds a.now b.now (DoMeetWithin a.now b.now from to)) }
    ensures few { IfOk result (λ block. block.count ≤ clip_count a.now b.now from to) }
    ensures ticks { OnOk result (steps.new ≡ steps.old + clip_count a.now b.now from to) }
    ensures most { steps.new ≤ steps.old + clip_count a.now b.now from to }
{
    let mut block = Block {
        count: 0,
        pieces: C::none(alloc),
    };
    extend_block(alloc, a, b, index, from, to, &mut block, steps)?;
    Ok(block)
}

// Where some pieces of a list stand: from one place to another.
#[derive(Clone, Copy, Default)]
pub struct Stretch {
    pub from: Place,
    pub to: Place,
}

// Block s, between the calls of the gate.
pub fn numbered_block<C: PieceList, G: Gate, L: Ledger>(
    alloc: Global,
    a: &Mesh,
    b: &Mesh,
    index: &Index,
    gate: &G,
    s: u32,
    steps: &mut Steps<L>,
) -> Result<Block<C>, NoMemory>
    requires index { IsIndexOf index.now b.now }
    requires block { 64 * s < length a.now.faces }
    ensures block { IfOk result (IsNumberedBlock C.holds a.now b.now s) }
    ensures ticks { let last = min (length a.now.faces) (64 * (s + 1)) in
        OnOk result (steps.new ≡ steps.old + clip_count a.now b.now (64 * s + 1) last) }
    ensures most { let last = min (length a.now.faces) (64 * (s + 1)) in
        steps.new ≤ steps.old + clip_count a.now b.now (64 * s + 1) last }
{
    let faces = face_count(a);
    let from = BLOCK_SIZE * s + 1;
    let to = faces.min(BLOCK_SIZE * (s + 1));
    gate.enter(s);
    let block = clip_block(alloc, a, b, index, from, to, steps)?;
    gate.leave(s);
    Ok(block)
}

// Puts the pieces of block s, between the calls of the gate, behind those of the blocks before it.
pub fn next_block<C: PieceList, G: Gate, L: Ledger>(
    alloc: Global,
    a: &Mesh,
    b: &Mesh,
    index: &Index,
    gate: &G,
    s: u32,
    run: &mut Block<C>,
    steps: &mut Steps<L>,
) -> Result<(), NoMemory>
    requires index { IsIndexOf index.now b.now }
    requires block { 64 * s < length a.now.faces }
    requires run { AreFirstBlocks C.holds a.now b.now s run.old }
    ensures run { OnOk result (AreFirstBlocks C.holds a.now b.now (s + 1) run.new) }
    ensures ticks { let last = min (length a.now.faces) (64 * (s + 1)) in
        OnOk result (steps.new ≡ steps.old + clip_count a.now b.now (64 * s + 1) last) }
    ensures most { let last = min (length a.now.faces) (64 * (s + 1)) in
        steps.new ≤ steps.old + clip_count a.now b.now (64 * s + 1) last }
{
    // The counts say that all numbers fit.
    let _target_faces = face_count(b);
    let faces = face_count(a);
    let from = BLOCK_SIZE * s + 1;
    let to = faces.min(BLOCK_SIZE * (s + 1));
    gate.enter(s);
    extend_block(alloc, a, b, index, from, to, run, steps)?;
    gate.leave(s);
    Ok(())
}

// The pieces of all blocks of one worker, in the order in which it did them.
#[derive(Drop)]
pub struct Waiting<C> {
    // how many pairs there are
    pub count: u64,
    // their pieces, or none where there are more than an overlap may have
    pub pieces: C,
}

// Puts the pieces of a block behind those of the worker's blocks so far. The answer is the block with
// where they stand there. A worker whose own count passes the limit lets its list go and counts on.
pub fn put_block<C: PieceList>(
    alloc: Global,
    own: &mut Waiting<C>,
    block: Block<C>,
) -> Result<Block<Stretch>, NoMemory>
    requires own { HoldsSome C.holds own.old.pieces }
    requires block { HoldsSome C.holds block.pieces }
    ensures block { IfOk result (λ put. (a b : RawMesh) → (s : ℕ)
        → IsNumberedBlock C.holds a b s block
        → IsWaitingBlock C.holds C.is_behind own.new a b s put) }
    ensures kept { OnOk result ((a b : RawMesh) (s : ℕ) (put : Block Stretch)
        → IsWaitingBlock C.holds C.is_behind own.old a b s put
        → IsWaitingBlock C.holds C.is_behind own.new a b s put) }
    ensures own { OnOk result (HoldsSome C.holds own.new.pieces) }
{
    own.count = own.count.saturating_add(block.count);
    if own.count > GREATEST_COUNT {
        own.pieces = C::none(alloc);
        return Ok(Block {
            count: block.count,
            pieces: Stretch::default(),
        });
    }
    put_pieces(&mut own.pieces, block)
}

// Puts the pieces of a block at the end of a list. The answer is the block with where they stand
// there.
fn put_pieces<C: PieceList>(list: &mut C, block: Block<C>) -> Result<Block<Stretch>, NoMemory>
    requires list { HoldsSome C.holds list.old }
    requires pieces { HoldsSome C.holds block.pieces }
    ensures count { IfOk result (λ put. put.count ≡ block.count) }
    ensures block { IfOk result (λ put. (a b : RawMesh) → (s : ℕ)
        → IsNumberedBlock C.holds a b s block
        → IsNumberedBlock (StandsIn C.holds C.is_behind list.new) a b s put) }
    ensures kept { OnOk result ((stretch : Stretch) (pieces : List Piece)
        → StandsIn C.holds C.is_behind list.old stretch pieces
        → StandsIn C.holds C.is_behind list.new stretch pieces) }
    ensures list { OnOk result (HoldsSome C.holds list.new) }
{
    let from = list.end();
    list.append(block.pieces)?;
    let to = list.end();
    Ok(Block {
        count: block.count,
        pieces: Stretch { from, to },
    })
}

// Puts one block more behind the blocks so far, whose pieces stand in another list. Past the limit
// all pieces are dropped, and the counts go on.
pub fn take_stretch<C: PieceList>(
    alloc: Global,
    run: &mut Block<C>,
    list: &C,
    block: Block<Stretch>,
) -> Result<(), NoMemory>
    requires room { run.old.count + block.count < 2 ^ 64 }
    ensures { OnOk result (TakesBlock C.holds
        (StandsIn C.holds C.is_behind list.now) run.old block run.new) }
{
    run.count += block.count;
    if GREATEST_COUNT < run.count {
        run.pieces = C::none(alloc);
        return Ok(());
    }
    let Stretch { from, to } = block.pieces;
    run.pieces.append_between(alloc, list, from, to)?;
    Ok(())
}
