// What a panel sees of a direction.
ghost use Rattle.std.specs.Prelude.{◌≡◌, ◌<◌, ◌≤◌, length, unsigned_abs};
ghost use Rattle.vec_exact.specs.Size.{Is18};
ghost use Rattle.vec_exact.specs.Face.{vector_of};
ghost use Rattle.vec_exact.specs.Cycle.{vector_at};
ghost use Rattle.mesh_check.specs.Mesh.{corners_of};
ghost use Rattle.cell_index.specs.Box.{seen_from, seen};

use mesh_check::{Mesh, edge_count, node};
use vec_exact::Panel;

/// The coordinates of a direction on a panel: w points out of the panel, u and v run along it.
#[derive(Clone, Copy)]
pub struct Coordinates {
    pub w: i32,
    pub u: i32,
    pub v: i32,
}

// The coordinates of a node.
fn coordinates_of(panel: Panel, node: [i32; 3]) -> Coordinates
    requires { Is18 (vector_of node) }
    ensures { result ≡ seen_from panel (vector_of node) }
{
    let [x, y, z] = node;
    match panel {
        Panel::PlusX => Coordinates { w: x, u: y, v: z },
        Panel::PlusY => Coordinates { w: y, u: -x, v: z },
        Panel::MinusX => Coordinates { w: -x, u: -y, v: z },
        Panel::MinusY => Coordinates { w: -y, u: x, v: z },
        Panel::PlusZ => Coordinates { w: z, u: y, v: -x },
        Panel::MinusZ => Coordinates { w: -z, u: y, v: x },
    }
}

// How many nodes the face has.
pub(crate) fn corner_count(mesh: &Mesh, face: u32) -> u32
    requires face { (1 ≤ face) × (face ≤ length mesh.now.faces) }
    ensures count { result ≡ length (corners_of mesh.now face) }
    ensures least { 1 ≤ result }
    ensures greatest { result ≤ 16 }
{
    edge_count(mesh, face)
}

// The face's node at place t, which counts from 0.
pub(crate) fn corner(mesh: &Mesh, face: u32, t: u32) -> [i32; 3]
    requires face { (1 ≤ face) × (face ≤ length mesh.now.faces) }
    requires place { t < length (corners_of mesh.now face) }
    requires small { t < 16 }
    ensures value { vector_of result ≡ vector_at (corners_of mesh.now face) t }
    ensures size { Is18 (vector_of result) }
{
    node(mesh, face, t + 1)
}

// The coordinates of the face's node at place t, which counts from 0.
pub(crate) fn see(mesh: &Mesh, face: u32, panel: Panel, t: u32) -> Coordinates
    requires face { (1 ≤ face) × (face ≤ length mesh.now.faces) }
    requires place { t < length (corners_of mesh.now face) }
    requires small { t < 16 }
    ensures value { result ≡ seen (corners_of mesh.now face) panel t }
    ensures w_size { unsigned_abs result.w ≤ 262143 }
    ensures u_size { unsigned_abs result.u ≤ 262143 }
    ensures v_size { unsigned_abs result.v ≤ 262143 }
{
    coordinates_of(panel, corner(mesh, face, t))
}
