// A map in the making, from one piece after another.
ghost use Rattle.std.specs.Prelude.{◌≡◌, ◌≢◌, ◌<◌, [], All, length, OnOk, IfOk, IfErr};
ghost use Rattle.clip.specs.Overlaps.{OverlapParts, IsSoundPiece};
ghost use Rattle.offline_map.specs.Maps.{map_of};
ghost use Rattle.offline_map.specs.MapFaults.{IsRightPiece, IsMappable, IsMapFaultOf};
ghost use Rattle.offline_map.specs.Making.{with_piece, IsMadeOf, IsFaultOfCounts, IsFaultOfPiece};
ghost use Rattle.offline_map.specs.declared.faults.MapFault.TheVariants.{NoMemory as MapNoMemory};

use crate::MapFault;
use crate::areas::check_covered;
use crate::pieces::{Pair, no_pair, tested_row};
use clip::Piece;
use map_rows::{Map, MapRow, MapRows, areas_of_rows};
use mesh_check::{Mesh, face_count};
use std::alloc::Global;
use std::marker::Model;
use vec_exact::Longs;

/// The map of an overlap in the making. The pieces of the overlap are put one after another, in
/// their order, and none has to be kept: their rows are.
#[derive(Drop)]
pub struct MapMaker<'a> {
    a: &'a Mesh,
    b: &'a Mesh,
    rows: Vec<MapRow>,
    pair: Pair,
}

impl<'a> Model for MapMaker<'a> {
    ghost use Rattle.offline_map.specs.Making.{Making};

    ghost Value = { Making };

    ghost view = { λ m. record { a = m.a.now; b = m.b.now; rows = m.rows.items } };
}

// Whether the face counts of an overlap are those of the two meshes.
fn check_counts(a: &Mesh, b: &Mesh, faces_a: u32, faces_b: u32) -> Result<(), MapFault>
    ensures source { OnOk result (faces_a ≡ length a.now.faces) }
    ensures target { OnOk result (faces_b ≡ length b.now.faces) }
    ensures fault { IfErr result (IsFaultOfCounts a.now b.now faces_a faces_b) }
{
    let source = face_count(a);
    if faces_a != source {
        return Err(MapFault::CountsA {
            file: faces_a,
            mesh: source,
        });
    }
    let target = face_count(b);
    if faces_b != target {
        return Err(MapFault::CountsB {
            file: faces_b,
            mesh: target,
        });
    }
    Ok(())
}

impl<'a> MapMaker<'a> {
    /// A map of two meshes and an overlap with these face counts, to which no piece was put yet.
    /// Room for the rows of so many pieces is taken at once.
    ///
    /// `CountsA` and `CountsB` name the counts that differ, those of the sources first.
    pub fn begin(
        alloc: Global,
        a: &'a Mesh,
        b: &'a Mesh,
        faces_a: u32,
        faces_b: u32,
        pieces: usize,
    ) -> Result<MapMaker<'a>, MapFault>
        ensures maker { IfOk result (λ m. m ≡ record { a = a.now; b = b.now; rows = [] }) }
        ensures source { OnOk result (faces_a ≡ length a.now.faces) }
        ensures target { OnOk result (faces_b ≡ length b.now.faces) }
        ensures fault { IfErr result (IsFaultOfCounts a.now b.now faces_a faces_b) }
    {
        check_counts(a, b, faces_a, faces_b)?;
        Ok(MapMaker {
            a,
            b,
            rows: Vec::with_capacity(alloc, pieces)?,
            pair: no_pair(),
        })
    }

    /// Tests the next piece of the overlap against its two faces and puts its row behind the
    /// others.
    ///
    /// `Row` has the number of the piece, from 1, where its ring is not that of its two faces, or
    /// its corners are not the grid corners of that ring. After an error no row was put.
    pub fn put(&mut self, piece: &Piece) -> Result<(), MapFault>
        requires few { length self.old.rows < 8388608 }
        requires sound { IsSoundPiece (length self.old.a.faces) (length self.old.b.faces)
            piece.now }
        ensures row { OnOk result (self.new ≡ with_piece self.old piece.now) }
        ensures right { OnOk result (IsRightPiece self.old.a self.old.b piece.now) }
        ensures fault { IfErr result (IsFaultOfPiece self.old piece.now) }
        ensures kept { IfErr result (λ _. self.new ≡ self.old) }
    {
        let number = self.rows.len() as u32 + 1;
        let Some(row) = tested_row(self.a, self.b, piece, &mut self.pair) else {
            return Err(MapFault::Row(number));
        };
        self.rows.push(row)?;
        Ok(())
    }

    /// The map of the pieces that were put, which are all pieces of one overlap: the areas of the
    /// faces are the sums of their rows. `Uncovered` names the first target face without a piece.
    pub fn finish(self, alloc: Global) -> Result<Map, MapFault>
        requires { (o : OverlapParts) × IsMadeOf self o }
        ensures map { (o : OverlapParts) → IsMadeOf self.entry o
            → IfOk result (λ map. map ≡ map_of o) }
        ensures accepted { (o : OverlapParts) → IsMadeOf self.entry o
            → All (IsRightPiece self.entry.a self.entry.b) o.pieces
            → OnOk result (IsMappable self.entry.a self.entry.b o) }
        ensures fault { (o : OverlapParts) → IsMadeOf self.entry o
            → All (IsRightPiece self.entry.a self.entry.b) o.pieces
            → IfErr result (λ fault. fault ≢ MapNoMemory
            → IsMapFaultOf self.entry.a self.entry.b o fault) }
    {
        let MapMaker { a, b, rows, .. } = self;
        let n_a = face_count(a);
        let n_b = face_count(b);
        let areas = areas_of_rows(alloc, n_a, n_b, &rows)?;
        check_covered(&areas.target)?;
        Ok(Map {
            n_a,
            n_b,
            rows: MapRows { items: rows },
            area_a: Longs {
                items: areas.source,
            },
            area_b: Longs {
                items: areas.target,
            },
        })
    }
}
