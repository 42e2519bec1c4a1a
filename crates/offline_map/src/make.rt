// The map of an overlap that was tested.
ghost use Rattle.std.specs.Prelude.{◌≡◌, ◌≢◌, ◌≤◌, ◌⊎◌, [], All, length, map, Err, IfOk, IfErr, OnOk};
ghost use Rattle.clip.specs.Overlaps.{IsSoundPiece};
ghost use Rattle.offline_map.specs.Maps.{row_of, map_of};
ghost use Rattle.offline_map.specs.MapFaults.{IsRightPiece, IsFaultOfPieces, IsMappable, IsMapFaultOf};
ghost use Rattle.offline_map.specs.declared.faults.MapFault.{MapFault as FirstFault};
ghost use Rattle.offline_map.specs.declared.faults.MapFault.TheVariants.{NoMemory as MapNoMemory};

use crate::MapFault;
use crate::maker::MapMaker;
use clip::{Overlap, Piece};
use map_rows::Map;
use mesh_check::Mesh;
use std::alloc::Global;

// Puts all pieces of an overlap, the first of them first.
fn put_pieces(maker: &mut MapMaker, pieces: &[Piece]) -> Result<(), MapFault>
    requires begun { maker.old.rows ≡ [] }
    requires count { length pieces.now ≤ 8388608 }
    requires sound { All (IsSoundPiece (length maker.old.a.faces) (length maker.old.b.faces))
        pieces.now }
    ensures rows { OnOk result
        (maker.new ≡ record maker.old { rows = map row_of pieces.now }) }
    ensures right { OnOk result (All (IsRightPiece maker.old.a maker.old.b) pieces.now) }
    ensures fault { IfErr result (IsFaultOfPieces maker.old.a maker.old.b pieces.now) }
{
    for piece in pieces {
        maker.put(piece)?;
    }
    Ok(())
}

// The map of an overlap, or its fault.
fn map_of_overlap(alloc: Global, a: &Mesh, b: &Mesh, overlap: &Overlap) -> Result<Map, MapFault>
    ensures map { IfOk result (λ map. map ≡ map_of overlap.now) }
    ensures accepted { OnOk result (IsMappable a.now b.now overlap.now) }
    ensures fault { IfErr result (λ fault. fault ≢ MapNoMemory
        → IsMapFaultOf a.now b.now overlap.now fault) }
{
    let pieces = overlap.pieces.items.as_slice();
    let count = pieces.len();
    let mut maker = MapMaker::begin(alloc, a, b, overlap.faces_a, overlap.faces_b, count)?;
    put_pieces(&mut maker, pieces)?;
    maker.finish(alloc)
}

/// The map of the pieces of `overlap`, which is one of `a` and `b`: a row for each piece, whose
/// measure is that of its corners, and the areas of the faces as the sums of their rows. No piece
/// is trusted; whether all pairs of faces that meet are listed is not looked at.
///
/// A fault is the first one: the source count of the overlap is not that of `a`; the target count
/// is not that of `b`; then, at the pieces in their order, a ring that is not the ring of its two
/// faces, or corners that are not the grid corners of that ring; then the least target face without
/// a piece. `NoMemory` may come in place of any answer.
pub fn make_map(alloc: Global, a: &Mesh, b: &Mesh, overlap: &Overlap) -> Result<Map, MapFault>
    ensures map { IfOk result (λ map. map ≡ map_of overlap.now) }
    ensures accepted { OnOk result (IsMappable a.now b.now overlap.now) }
    ensures fault { IfErr result (λ fault. fault ≢ MapNoMemory
        → IsMapFaultOf a.now b.now overlap.now fault) }
    // and where there is a fault, no map comes, and no other fault
    ensures refused { (fault : FirstFault) → IsMapFaultOf a.now b.now overlap.now fault
        → (result ≡ Err fault) ⊎ (result ≡ Err MapNoMemory) }
{
    map_of_overlap(alloc, a, b, overlap)
}
