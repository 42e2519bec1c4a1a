// How many pairs of faces of a mesh overlap.
ghost use Rattle.std.specs.Prelude.{◌≡◌, ◌≢◌, ◌≤◌, ◌<◌, ◌+◌, ◌-◌, ◌^◌, ℕ, IfOk, IfErr, IsErr, IfSome, Err};
ghost use Rattle.clip.specs.declared.pieces.Piece.{Piece as OnePiece};
ghost use Rattle.overlap_run.specs.Pairs.{IsCountOf, IsPairCount};
ghost use Rattle.overlap_run.specs.Whole.{HoldsOverlap, IsRefusalOf};
ghost use Rattle.mesh_partition.specs.MeshReport.{DoOverlap};
ghost use Rattle.mesh_partition.specs.LaterPairs.{later_count};

use clip::{Piece, PieceList, Place};
use mesh_check::Mesh;
use overlap_run::{OpenGate, RunFault, overlap_list};
use std::alloc::Global;
use std::marker::Brand;
use std::sync::ledger::{Blank, Ledger};
use std::thread::Threads;
use vec_exact::{NoMemory, Steps};

/// A list of pieces that keeps only how many of them have a source face before their target face.
#[derive(Drop)]
pub struct LaterPairs {
    pub count: usize,
}

// The sum, or None where it doesn't fit.
fn more(count: usize, others: usize) -> Result<usize, NoMemory>
    ensures { IfOk result (λ sum. sum ≡ count + others) }
{
    count.checked_add(others).ok_or(NoMemory)
}

impl PieceList for LaterPairs {
    ghost use Rattle.std.specs.Prelude.{◌≡◌};
    ghost use Rattle.mesh_partition.specs.LaterPairs.{later_count};

    ghost holds = { λ list pieces. list.count ≡ later_count pieces };

    ghost is_behind = { λ pieces place. place.pieces ≡ later_count pieces };

    fn none(_alloc: Global) -> Self {
        LaterPairs { count: 0 }
    }

    fn push(&mut self, piece: Piece) -> Result<(), NoMemory> {
        if piece.a < piece.b {
            self.count = more(self.count, 1)?;
        }
        Ok(())
    }

    fn append(&mut self, other: Self) -> Result<(), NoMemory> {
        self.count = more(self.count, other.count)?;
        Ok(())
    }

    fn end(&self) -> Place {
        Place {
            pieces: self.count,
            ring_numbers: 0,
            corner_components: 0,
        }
    }

    fn append_between(
        &mut self,
        _alloc: Global,
        _other: &Self,
        from: Place,
        to: Place,
    ) -> Result<(), NoMemory> {
        self.count = more(self.count, to.pieces.saturating_sub(from.pieces))?;
        Ok(())
    }
}

// The pieces of a mesh over itself, with a counter of steps of its own.
fn counted<R: Threads, L: Ledger>(
    rt: &R,
    alloc: Global,
    mesh: &Mesh,
    workers: u32,
    blank: Blank,
) -> Result<LaterPairs, RunFault>
    requires name { blank.name ≡ L.name }
    requires parts { blank.parts ≡ L.parts }
    requires some { 0 < blank.parts }
    requires workers { (1 ≤ workers) × (workers ≤ 64) }
    ensures overlap { IfOk result (HoldsOverlap (λ list pieces.
        list.count ≡ later_count pieces) mesh.now mesh.now) }
    ensures refusal { IfErr result (IsRefusalOf mesh.now mesh.now) }
    ensures past { (n : ℕ) → IsPairCount mesh.now mesh.now n → 8388608 < n → IsErr result }
    ensures within { (n m : ℕ) → IsPairCount mesh.now mesh.now n → n ≤ 8388608
        → result ≢ Err (RunFault.TooManyPieces m) }
{
    let mut steps = Steps::<L>::new(blank);
    overlap_list(rt, alloc, mesh, mesh, workers, &OpenGate, &mut steps)
}

// How many pairs of faces overlap.
pub fn overlap_count<R: Threads>(
    rt: &R,
    alloc: Global,
    mesh: &Mesh,
    workers: u32,
) -> Result<usize, RunFault>
    requires workers { (1 ≤ workers) × (workers ≤ 64) }
    ensures overlaps { IfOk result (IsCountOf (DoOverlap mesh.now)) }
    ensures refusal { IfErr result (IsRefusalOf mesh.now mesh.now) }
    ensures past { (n : ℕ) → IsPairCount mesh.now mesh.now n → 8388608 < n → IsErr result }
    ensures within { (n m : ℕ) → IsPairCount mesh.now mesh.now n → n ≤ 8388608
        → result ≢ Err (RunFault.TooManyPieces m) }
{
    match counted::<R, Brand>(rt, alloc, mesh, workers, Blank::new(1)) {
        Ok(pairs) => Ok(pairs.count),
        Err(fault) => Err(fault),
    }
}
