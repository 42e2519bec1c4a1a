// The test of each piece that an overlap lists, and its row.
ghost use Rattle.std.specs.Prelude.{◌≡◌, ◌≢◌, ◌↔◌, ℕ, ◌<◌, All, length, IsTrue, MatchOption};
ghost use Rattle.vec_exact.specs.declared.Vec3.{Vec3 as Triple};
ghost use Rattle.vec_exact.specs.Vector.{zero_triple};
ghost use Rattle.vec_exact.specs.Cycle.{corner as corner_of};
ghost use Rattle.mesh_check.specs.Mesh.{corners_of};
ghost use Rattle.cone_laws.specs.Ring.{listed, planes_of_pair, IsRing};
ghost use Rattle.clip.specs.Outlines.{nodes_of, IsOutline, AreNumbersOf};
ghost use Rattle.clip.specs.Forms.{IsFormOf};
ghost use Rattle.clip.specs.Overlaps.{IsSoundPiece};
ghost use Rattle.piece_measure.specs.Grid.{IsOnGrid, grid_corner_of, grid_corners_of};
ghost use Rattle.offline_map.specs.Maps.{row_of};
ghost use Rattle.offline_map.specs.MapFaults.{IsRightPiece};

use clip::{CornerForm, Outline, Piece, Ring, corner_form, is_ring_of_outlines, read_outline};
use map_rows::MapRow;
use mesh_check::Mesh;
use piece_measure::{grid_corner, grid_node, measure};

// A corner of a ring on the grid.
fn grid_of_form(form: CornerForm) -> [i32; 3]
    requires { (c : Triple) × (c ≢ zero_triple) × IsFormOf form c }
    ensures value { (c : Triple) → IsFormOf form c → result ≡ grid_corner_of c }
    ensures on_grid { IsOnGrid result }
{
    match form {
        CornerForm::Node(node) => grid_node(node),
        CornerForm::Meeting(corner) => grid_corner(corner),
    }
}

// Whether these are the grid corners of the ring of two faces, in the order of the ring. None of its
// corners is zero.
fn are_grid_corners(f: &Outline, g: &Outline, ring: &Ring, corners: &[[i32; 3]]) -> bool
    requires f { IsOutline f.now }
    requires g { IsOutline g.now }
    requires numbers { AreNumbersOf f.now g.now ring.now.items }
    requires nonzero { (t : ℕ) → t < length ring.now.items
        → let planes = planes_of_pair (nodes_of f.now) (nodes_of g.now) in
        corner_of (length ring.now.items) (listed planes ring.now.items) t ≢ zero_triple }
    requires count { length corners.now ≡ length ring.now.items }
    ensures exactly { let planes = planes_of_pair (nodes_of f.now) (nodes_of g.now) in
        IsTrue result ↔ (corners.now
        ≡ grid_corners_of (length ring.now.items) (listed planes ring.now.items)) }
    ensures on_grid { IsTrue result → All IsOnGrid corners.now }
{
    for (t, triple) in corners.iter().enumerate() {
        if *triple != grid_of_form(corner_form(f, g, ring, t)) {
            return false;
        }
    }
    true
}

// Two faces, one of each mesh, that are read anew for each piece.
#[derive(Drop)]
pub struct Pair {
    source: Outline,
    target: Outline,
}

// Whether the piece has the ring of its two faces, and the grid corners of that ring.
fn is_right(a: &Mesh, b: &Mesh, piece: &Piece, pair: &mut Pair) -> bool
    requires { IsSoundPiece (length a.now.faces) (length b.now.faces) piece.now }
    ensures exactly { IsTrue result ↔ IsRightPiece a.now b.now piece.now }
    ensures on_grid { IsTrue result → All IsOnGrid piece.now.corners }
{
    read_outline(a, piece.a, &mut pair.source);
    read_outline(b, piece.b, &mut pair.target);
    if !is_ring_of_outlines(&pair.source, &pair.target, &piece.ring) {
        return false;
    }
    let corners = piece.corners.items.as_slice();
    are_grid_corners(&pair.source, &pair.target, &piece.ring, corners)
}

// A pair before the faces of any piece were read.
pub fn no_pair() -> Pair {
    Pair {
        source: Outline::new(),
        target: Outline::new(),
    }
}

// The row of a piece that is right.
pub fn tested_row(a: &Mesh, b: &Mesh, piece: &Piece, pair: &mut Pair) -> Option<MapRow>
    requires { IsSoundPiece (length a.now.faces) (length b.now.faces) piece.now }
    ensures { MatchOption result (¬ IsRightPiece a.now b.now piece.now)
        (λ row. IsRightPiece a.now b.now piece.now × (row ≡ row_of piece.now)) }
{
    if !is_right(a, b, piece, pair) {
        return None;
    }
    Some(MapRow {
        col: piece.a,
        row: piece.b,
        s: measure(piece.corners.items.as_slice()),
    })
}
