// The piece that two faces share, from its ring.
ghost use Rattle.std.specs.Prelude.{◌≡◌, ◌≢◌, ℕ, ◌<◌, ◌≤◌, IfOk, length};
ghost use Rattle.vec_exact.specs.declared.Vec3.{Vec3 as Triple};
ghost use Rattle.vec_exact.specs.Vector.{zero_triple};
ghost use Rattle.vec_exact.specs.Cycle.{corner as corner_of};
ghost use Rattle.cone_laws.specs.Ring.{listed, planes_of_pair, IsRing};
ghost use Rattle.mesh_check.specs.Mesh.{corners_of};
ghost use Rattle.clip.specs.Planes.{IsFaceNumber};
ghost use Rattle.clip.specs.Outlines.{nodes_of, IsOutline, AreNumbersOf};
ghost use Rattle.clip.specs.Forms.{IsFormOf};
ghost use Rattle.piece_measure.specs.Grid.{grid_corner_of, grid_corners_of};
ghost use Rattle.clip.specs.Overlaps.{HasSmallNumbers};
ghost use Rattle.overlap_run.specs.Parts.{IsPieceAt};

use clip::{CornerForm, Corners, Outline, Piece, Ring, corner_form};
use mesh_check::{Mesh, face_count};
use piece_measure::{grid_corner, grid_node};
use smallvec::SmallVec;
use std::alloc::Global;
use vec_exact::NoMemory;

// A corner of a ring on the grid.
fn grid_of_form(form: CornerForm) -> [i32; 3]
    requires { (c : Triple) × (c ≢ zero_triple) × IsFormOf form c }
    ensures { (c : Triple) → IsFormOf form c → result ≡ grid_corner_of c }
{
    match form {
        CornerForm::Node(node) => grid_node(node),
        CornerForm::Meeting(corner) => grid_corner(corner),
    }
}

// The corners of a ring on the grid, in the order of the ring. None of them is zero.
fn grid_corners(alloc: Global, f: &Outline, g: &Outline, ring: &Ring) -> Result<Corners, NoMemory>
    requires f { IsOutline f.now }
    requires g { IsOutline g.now }
    requires numbers { AreNumbersOf f.now g.now ring.now.items }
    requires nonzero { (t : ℕ) → t < length ring.now.items
        → let planes = planes_of_pair (nodes_of f.now) (nodes_of g.now) in
        corner_of (length ring.now.items) (listed planes ring.now.items) t ≢ zero_triple }
    ensures { let planes = planes_of_pair (nodes_of f.now) (nodes_of g.now) in
        IfOk result (λ corners. corners
        ≡ grid_corners_of (length ring.now.items) (listed planes ring.now.items)) }
{
    let mut items = SmallVec::with_capacity(alloc, ring.len())?;
    for t in 0..ring.len() {
        items.push(grid_of_form(corner_form(f, g, ring, t)))?;
    }
    Ok(Corners { items })
}

// The piece of face i of `a` and face j of `b`, whose ring this is.
pub fn piece_of_ring(
    alloc: Global,
    a: &Mesh,
    i: u32,
    f: &Outline,
    b: &Mesh,
    j: u32,
    g: &Outline,
    ring: Ring,
) -> Result<Piece, NoMemory>
    requires source { IsFaceNumber a.now i }
    requires target { IsFaceNumber b.now j }
    requires f { IsOutline f.now }
    requires g { IsOutline g.now }
    requires f_nodes { nodes_of f.now ≡ corners_of a.now i }
    requires g_nodes { nodes_of g.now ≡ corners_of b.now j }
    requires ring { IsRing (corners_of a.now i) (corners_of b.now j) ring.items }
    ensures piece { IfOk result (IsPieceAt a.now b.now (record { source = i; target = j })) }
    ensures small { IfOk result HasSmallNumbers }
{
    // The counts say that the face numbers are small.
    let _source_faces = face_count(a);
    let _target_faces = face_count(b);
    let corners = grid_corners(alloc, f, g, &ring)?;
    Ok(Piece {
        a: i,
        b: j,
        ring,
        corners,
    })
}
