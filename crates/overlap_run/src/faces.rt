// The pieces of one source face.
ghost use Rattle.std.specs.Prelude.{◌≡◌, ℕ, ◌+◌, ◌-◌, ◌<◌, ◌≤◌, ◌^◌, OnOk, All, Contains, length};
ghost use Rattle.std.specs.List.Sorted.{IsStrictlyIncreasing};
ghost use Rattle.cone_laws.specs.Inside.{Meets};
ghost use Rattle.cone_laws.specs.Ring.{IsRing};
ghost use Rattle.mesh_check.specs.Mesh.{corners_of};
ghost use Rattle.clip.specs.Outlines.{nodes_of, IsOutline};
ghost use Rattle.clip.specs.Planes.{IsFaceNumber};
ghost use Rattle.overlap_run.specs.Parts.{AddsPiece, TakesPair, IsBlockOf, DoMeetWithin};

use crate::Block;
use crate::blocks::GREATEST_COUNT;
use crate::rings::piece_of_ring;
use clip::{Outline, PieceList, Ring, clip_next, read_outline};
use mesh_check::Mesh;
use std::alloc::Global;
use std::sync::ledger::Ledger;
use vec_exact::{NoMemory, Steps};

// Counts the pair of face i of `a` and face j of `b`, whose ring this is, and lists its piece; past
// the limit it drops all pieces instead.
fn add_piece<C: PieceList>(
    alloc: Global,
    a: &Mesh,
    i: u32,
    f: &Outline,
    b: &Mesh,
    j: u32,
    g: &Outline,
    ring: Ring,
    block: &mut Block<C>,
) -> Result<(), NoMemory>
    requires source { IsFaceNumber a.now i }
    requires target { IsFaceNumber b.now j }
    requires f { IsOutline f.now }
    requires g { IsOutline g.now }
    requires f_nodes { nodes_of f.now ≡ corners_of a.now i }
    requires g_nodes { nodes_of g.now ≡ corners_of b.now j }
    requires ring { IsRing (corners_of a.now i) (corners_of b.now j) ring.items }
    requires room { block.old.count + 1 < 2 ^ 64 }
    ensures { OnOk result (AddsPiece C.holds a.now b.now
        (record { source = i; target = j }) block.old block.new) }
{
    block.count += 1;
    if block.count > GREATEST_COUNT {
        block.pieces = C::none(alloc);
        return Ok(());
    }
    let piece = piece_of_ring(alloc, a, i, f, b, j, g, ring)?;
    block.pieces.push(piece)?;
    Ok(())
}

// Clips face i of `a` with face j of `b`, which is read into `g`, and counts the pair where they
// meet.
fn clip_pair<C: PieceList, L: Ledger>(
    alloc: Global,
    a: &Mesh,
    i: u32,
    f: &Outline,
    b: &Mesh,
    j: u32,
    g: &mut Outline,
    block: &mut Block<C>,
    steps: &mut Steps<L>,
) -> Result<(), NoMemory>
    requires source { IsFaceNumber a.now i }
    requires target { IsFaceNumber b.now j }
    requires f { IsOutline f.now }
    requires f_nodes { nodes_of f.now ≡ corners_of a.now i }
    requires room { block.old.count + 1 < 2 ^ 64 }
    ensures pair { OnOk result (TakesPair C.holds a.now b.now
        (record { source = i; target = j }) block.old block.new) }
    ensures few { OnOk result (block.new.count ≤ block.old.count + 1) }
    ensures tick { steps.new ≡ steps.old + 1 }
{
    let Some(ring) = clip_next(f, g, a, i, b, j, steps) else {
        return Ok(());
    };
    add_piece(alloc, a, i, f, b, j, g, ring, block)
}

// Clips face i of `a` with each of the targets, which are face numbers of `b` in ascending order.
// All faces of `b` that meet face i are among them. `source` and `target` are room for two faces: they
// are used again, since to make them costs more than to read a face.
pub fn clip_face<C: PieceList, L: Ledger>(
    alloc: Global,
    a: &Mesh,
    i: u32,
    b: &Mesh,
    targets: &[u32],
    source: &mut Outline,
    target: &mut Outline,
    block: &mut Block<C>,
    steps: &mut Steps<L>,
) -> Result<(), NoMemory>
    requires face { IsFaceNumber a.now i }
    requires targets { All (IsFaceNumber b.now) targets.now }
    requires ascending { IsStrictlyIncreasing targets.now }
    requires all { (j : ℕ) → IsFaceNumber b.now j → Meets (corners_of a.now i) (corners_of b.now j)
        → Contains targets.now j }
    requires room { block.old.count + length targets.now < 2 ^ 64 }
    // a block of the faces before face i becomes one of the faces as far as face i
    ensures block { (first : ℕ) → first ≤ i
        → IsBlockOf C.holds a.now b.now (DoMeetWithin a.now b.now first (i - 1)) block.old
        → OnOk result (IsBlockOf C.holds a.now b.now (DoMeetWithin a.now b.now first i) block.new) }
    ensures few { OnOk result (block.new.count ≤ block.old.count + length targets.now) }
    ensures ticks { OnOk result (steps.new ≡ steps.old + length targets.now) }
    ensures most { steps.new ≤ steps.old + length targets.now }
{
    read_outline(a, i, source);
    for j in targets {
        clip_pair(alloc, a, i, source, b, *j, target, block, steps)?;
    }
    Ok(())
}
