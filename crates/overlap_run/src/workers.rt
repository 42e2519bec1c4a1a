// Blocks that several workers draw, put in the order of their numbers.
ghost use Rattle.std.specs.Prelude.{◌≡◌, ℕ, ◌+◌, ◌*◌, ◌<◌, ◌≤◌, List, All, IfOk, OnOk, IsTrue, length};
ghost use Rattle.std.specs.Int.{div_ceil};
ghost use Rattle.vec_exact.specs.declared.RawMesh.{RawMesh};
ghost use Rattle.cell_index.specs.IndexOf.{IsIndexOf};
ghost use Rattle.block_workers.specs.InPlace.{AllInPlace};
ghost use Rattle.overlap_run.specs.declared.blocks.Stretch.{Stretch};
ghost use Rattle.overlap_run.specs.Pairs.{DoMeet};
ghost use Rattle.overlap_run.specs.Parts.{IsBlockOf, AreFirstBlocks, IsFirstCount, IsWaitingBlock, DoesBlockWait, HasList, HoldsSome};

use crate::blocks::{
    BLOCK_SIZE, GREATEST_COUNT, Stretch, Waiting, numbered_block, put_block, take_stretch,
};
use crate::run::ascending;
use crate::{Block, Gate};
use block_workers::{BlockJob, Parts, Placed, run_blocks};
use cell_index::{Index, build};
use clip::PieceList;
use mesh_check::{Mesh, face_count};
use std::alloc::Global;
use std::marker::{Brand, PhantomData};
use std::sync::ledger::{Blank, Ledger};
use std::thread::Threads;
use vec_exact::{NoMemory, Steps};

// The blocks of a source mesh as work for several workers, who share the two meshes, the index of the
// target and the gate. Each of them has one list for the pieces of all its blocks.
#[derive(Drop)]
struct SourceBlocks<'a, C, G> {
    a: &'a Mesh,
    b: &'a Mesh,
    index: &'a Index,
    gate: &'a G,
    list: PhantomData<C>,
    ghost indexed: { IsIndexOf index.now b.now },
}

// One block, with a counter of its own, whose pieces are put behind those of the worker's other
// blocks.
fn counted_block<C: PieceList, G: Gate, L: Ledger>(
    alloc: Global,
    a: &Mesh,
    b: &Mesh,
    index: &Index,
    gate: &G,
    s: u32,
    own: &mut Waiting<C>,
    blank: Blank,
) -> Result<Block<Stretch>, NoMemory>
    requires index { IsIndexOf index.now b.now }
    requires block { 64 * s < length a.now.faces }
    requires own { HoldsSome C.holds own.old.pieces }
    requires name { blank.name ≡ L.name }
    requires parts { blank.parts ≡ L.parts }
    requires some { 0 < blank.parts }
    ensures block { IfOk result (IsWaitingBlock C.holds C.is_behind own.new a.now b.now s) }
    ensures kept { OnOk result ((x y : RawMesh) (t : ℕ) (put : Block Stretch)
        → IsWaitingBlock C.holds C.is_behind own.old x y t put
        → IsWaitingBlock C.holds C.is_behind own.new x y t put) }
    ensures own { OnOk result (HoldsSome C.holds own.new.pieces) }
{
    let mut steps = Steps::<L>::new(blank);
    let block = numbered_block(alloc, a, b, index, gate, s, &mut steps)?;
    put_block(alloc, own, block)
}

impl<'a, C: PieceList + Send + Sync, G: Gate + Sync> BlockJob for SourceBlocks<'a, C, G> {
    type Part = Waiting<C>;

    type Output = Block<Stretch>;

    ghost blocks = { λ job. div_ceil (length job.a.now.faces) 64 };

    ghost is_part = { λ _ own. HoldsSome C.holds own.pieces };

    ghost gives = { λ job own s block.
        IsWaitingBlock C.holds C.is_behind own job.a.now job.b.now s block };

    fn begin(&self, alloc: Global) -> Waiting<C> {
        Waiting {
            count: 0,
            pieces: C::none(alloc),
        }
    }

    fn run(
        &self,
        alloc: Global,
        block: u32,
        own: &mut Waiting<C>,
    ) -> Result<Block<Stretch>, NoMemory> {
        // The count says that the number of the block fits.
        let _faces = face_count(self.a);
        counted_block::<C, G, Brand>(
            alloc,
            self.a,
            self.b,
            self.index,
            self.gate,
            block,
            own,
            Blank::new(1),
        )
    }
}

// Whether each worker has kept its list.
fn have_lists<C>(workers: &[Waiting<C>]) -> bool
    ensures { IsTrue result → All HasList workers.now }
{
    for own in workers {
        if own.count > GREATEST_COUNT {
            return false;
        }
    }
    true
}

// How many pairs all blocks have.
fn pair_count<C: PieceList>(
    a: &Mesh,
    b: &Mesh,
    workers: &[Waiting<C>],
    blocks: &[Placed<Block<Stretch>>],
) -> u64
    requires count { length blocks.now ≤ div_ceil (length a.now.faces) 64 }
    requires each { AllInPlace (DoesBlockWait C.holds C.is_behind a.now b.now workers.now) blocks.now }
    ensures { IsFirstCount a.now b.now (length blocks.now) result }
{
    // The counts say that all numbers fit.
    let _source_faces = face_count(a);
    let _target_faces = face_count(b);
    let mut count = 0;
    for block in blocks {
        count += block.output.count;
    }
    count
}

// The pieces of all blocks, in the order of their numbers. The pieces of each stand in one of the
// lists.
fn gather<C: PieceList>(
    alloc: Global,
    a: &Mesh,
    b: &Mesh,
    workers: &[Waiting<C>],
    blocks: Vec<Placed<Block<Stretch>>>,
) -> Result<Block<C>, NoMemory>
    requires count { length blocks.items ≤ div_ceil (length a.now.faces) 64 }
    requires lists { All HasList workers.now }
    requires each { AllInPlace (DoesBlockWait C.holds C.is_behind a.now b.now workers.now) blocks.items }
    ensures { IfOk result (AreFirstBlocks C.holds a.now b.now (length blocks.items)) }
{
    // The counts say that all numbers fit.
    let _source_faces = face_count(a);
    let _target_faces = face_count(b);
    let mut run = Block {
        count: 0,
        pieces: C::none(alloc),
    };
    for block in blocks {
        let own = &workers[block.part as usize];
        take_stretch(alloc, &mut run, &own.pieces, block.output)?;
    }
    Ok(run)
}

// All blocks on the calling thread, with a counter of its own.
fn alone<C: PieceList, G: Gate, L: Ledger>(
    alloc: Global,
    a: &Mesh,
    b: &Mesh,
    index: &Index,
    gate: &G,
    blank: Blank,
) -> Result<Block<C>, NoMemory>
    requires index { IsIndexOf index.now b.now }
    requires name { blank.name ≡ L.name }
    requires parts { blank.parts ≡ L.parts }
    requires some { 0 < blank.parts }
    ensures { IfOk result (IsBlockOf C.holds a.now b.now (DoMeet a.now b.now)) }
{
    let mut steps = Steps::<L>::new(blank);
    ascending(alloc, a, b, index, gate, &mut steps)
}

// All blocks, drawn by the workers from one word, as one. The index is let go before the pieces are
// gathered, since the lists of the workers and the list of all pieces stand beside each other then.
pub fn shared_out<R: Threads, C: PieceList + Send + Sync, G: Gate + Sync>(
    rt: &R,
    alloc: Global,
    a: &Mesh,
    b: &Mesh,
    index: Index,
    workers: u32,
    gate: &G,
) -> Result<Block<C>, NoMemory>
    requires index { IsIndexOf index b.now }
    requires workers { (1 ≤ workers) × (workers ≤ 64) }
    ensures { IfOk result (IsBlockOf C.holds a.now b.now (DoMeet a.now b.now)) }
{
    let count = face_count(a).div_ceil(BLOCK_SIZE);
    let Parts { parts, blocks } = clipped_blocks(rt, alloc, a, b, &index, workers, gate, count)?;
    drop(index);
    let pairs = pair_count(a, b, &parts, &blocks);
    if pairs > GREATEST_COUNT {
        return Ok(Block {
            count: pairs,
            pieces: C::none(alloc),
        });
    }
    if have_lists(&parts) {
        return gather(alloc, a, b, &parts, blocks);
    }
    // No worker has more pairs than there are, so these lines are never reached. No clause of
    // `run_blocks` says so.
    let index = build(alloc, b)?;
    alone::<C, G, Brand>(alloc, a, b, &index, gate, Blank::new(1))
}

// So many blocks from the first on, drawn by the workers.
fn clipped_blocks<R: Threads, C: PieceList + Send + Sync, G: Gate + Sync>(
    rt: &R,
    alloc: Global,
    a: &Mesh,
    b: &Mesh,
    index: &Index,
    workers: u32,
    gate: &G,
    count: u32,
) -> Result<Parts<Waiting<C>, Block<Stretch>>, NoMemory>
    requires index { IsIndexOf index.now b.now }
    requires workers { (1 ≤ workers) × (workers ≤ 64) }
    requires count { count ≤ div_ceil (length a.now.faces) 64 }
    ensures count { IfOk result (λ done. length done.blocks.items ≡ count) }
    ensures each { IfOk result (λ done. AllInPlace
        (DoesBlockWait C.holds C.is_behind a.now b.now done.parts.items) done.blocks.items) }
{
    let job = SourceBlocks {
        a,
        b,
        index,
        gate,
        list: PhantomData::<C>,
    };
    run_blocks(rt, alloc, &job, count, workers)
}
