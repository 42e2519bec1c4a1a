// Generated meshes of small number, as they are made and with faces left out, listed twice or moved.
ghost use Rattle.std.specs.Prelude.{◌≤◌, length};

use mesh_check::{Mesh, check, raw};
use std::alloc::{AllocError, Global};
use std::process::Abort;
use vec_exact::{Faces, Ints, Nodes, RawMesh};

/// A generated mesh, by the numbers that it is made from.
#[derive(Clone, Copy, Debug)]
pub enum Made {
    Cube(u32),
    LatitudeLongitude(u32, u32),
    Icosahedral(u32),
    Dual(u32),
}

/// All kinds of generated meshes, with small numbers.
pub(crate) const MADE: [Made; 14] = [
    Made::Cube(1),
    Made::Cube(2),
    Made::Cube(3),
    Made::Cube(4),
    Made::LatitudeLongitude(3, 2),
    Made::LatitudeLongitude(4, 2),
    Made::LatitudeLongitude(3, 3),
    Made::LatitudeLongitude(5, 4),
    Made::LatitudeLongitude(8, 3),
    Made::LatitudeLongitude(7, 6),
    Made::Icosahedral(1),
    Made::Icosahedral(2),
    Made::Dual(1),
    Made::Dual(2),
];

/// The mesh of these nodes and faces, which are few.
pub(crate) fn accepted(rt: &impl Abort, alloc: Global, raw: RawMesh) -> Mesh {
    assert!(rt; raw.nodes.items.len() <= 1000);
    assert!(rt; 1 <= raw.faces.items.len() && raw.faces.items.len() <= 1000);
    let Ok(mesh) = check(alloc, raw) else {
        panic!(rt; "a fault");
    };
    mesh
}

fn cube(rt: &impl Abort, alloc: Global, n: u32) -> Mesh {
    assert!(rt; 1 <= n && n <= 400);
    let Ok(raw) = gen_cs::make(alloc, n) else {
        panic!(rt; "no memory");
    };
    accepted(rt, alloc, raw)
}

fn latitude_longitude(rt: &impl Abort, alloc: Global, lon: u32, lat: u32) -> Mesh {
    assert!(rt; 3 <= lon && lon <= 720);
    assert!(rt; 2 <= lat && lat <= 360);
    let Ok(mesh) = gen_rll::make(alloc, lon, lat) else {
        panic!(rt; "no mesh");
    };
    mesh
}

fn icosahedral(rt: &impl Abort, alloc: Global, n: u32, dual: bool) -> Mesh {
    assert!(rt; 1 <= n && n <= 200);
    let Ok(mesh) = gen_ico::make(alloc, n, dual) else {
        panic!(rt; "no mesh");
    };
    mesh
}

/// The generated mesh.
pub(crate) fn mesh_of(rt: &impl Abort, alloc: Global, made: Made) -> Mesh {
    match made {
        Made::Cube(n) => cube(rt, alloc, n),
        Made::LatitudeLongitude(lon, lat) => latitude_longitude(rt, alloc, lon, lat),
        Made::Icosahedral(n) => icosahedral(rt, alloc, n, false),
        Made::Dual(n) => icosahedral(rt, alloc, n, true),
    }
}

// The nodes and faces of a mesh.
fn raw_of(rt: &impl Abort, alloc: Global, mesh: &Mesh) -> RawMesh {
    let Ok(raw) = raw(alloc, mesh) else {
        panic!(rt; "no memory");
    };
    raw
}

/// Which faces are left out: that at place `first`, from 0, and each one that comes `step` places
/// after another one.
#[derive(Clone, Copy, Debug)]
pub struct Gaps {
    pub first: u32,
    pub step: u32,
}

impl Gaps {
    /// Whether the face at place t is left out.
    pub(crate) fn has(self, t: usize) -> bool {
        let first = self.first as usize;
        t >= first && (t - first).checked_rem(self.step as usize) == Some(0)
    }
}

// The faces that are not left out.
fn others(alloc: Global, faces: &[Ints], gaps: Gaps) -> Result<Faces, AllocError> {
    let mut items = Vec::new(alloc);
    for t in 0..faces.len() {
        if !gaps.has(t) {
            let face = &faces[t];
            let numbers = Vec::from_slice(alloc, face.items.as_slice())?;
            items
                .push(Ints { items: numbers })
                .map_err(AllocError::from)?;
        }
    }
    Ok(Faces { items })
}

/// The mesh without some of its faces.
pub(crate) fn without(rt: &impl Abort, alloc: Global, mesh: &Mesh, gaps: Gaps) -> Mesh {
    let raw = raw_of(rt, alloc, mesh);
    let Ok(faces) = others(alloc, &raw.faces.items, gaps) else {
        panic!(rt; "no memory");
    };
    let nodes = raw.nodes;
    accepted(rt, alloc, RawMesh { nodes, faces })
}

// The face with this number once more, behind all others.
fn listed_twice(alloc: Global, faces: Faces, place: usize) -> Result<Faces, AllocError> {
    let mut items = faces.items;
    if let Some(face) = items.get(place) {
        let again = Vec::from_slice(alloc, face.items.as_slice())?;
        items.push(Ints { items: again }).map_err(AllocError::from)?;
    }
    Ok(Faces { items })
}

/// The mesh with the face at this place, from 0, listed twice.
pub(crate) fn doubled(rt: &impl Abort, alloc: Global, mesh: &Mesh, place: usize) -> Mesh {
    let raw = raw_of(rt, alloc, mesh);
    let Ok(faces) = listed_twice(alloc, raw.faces, place) else {
        panic!(rt; "no memory");
    };
    let nodes = raw.nodes;
    accepted(rt, alloc, RawMesh { nodes, faces })
}

fn opposite_node(node: [i32; 3]) -> [i32; 3] {
    [
        node[0].wrapping_neg(),
        node[1].wrapping_neg(),
        node[2].wrapping_neg(),
    ]
}

// The nodes, and then the opposite ones in the same order.
fn with_opposites(alloc: Global, nodes: &[[i32; 3]]) -> Result<Nodes, AllocError> {
    let mut items = Vec::from_slice(alloc, nodes)?;
    for node in nodes {
        items.push(opposite_node(*node)).map_err(AllocError::from)?;
    }
    Ok(Nodes { items })
}

// The opposite face, where the opposite of each node comes `count` places after it. From the other
// side the nodes go round the other way.
fn opposite_face(alloc: Global, face: &[i32], count: i32) -> Result<Ints, AllocError> {
    let mut items = Vec::new(alloc);
    for number in face.iter().rev() {
        items
            .push(number.wrapping_add(count))
            .map_err(AllocError::from)?;
    }
    Ok(Ints { items })
}

// The faces, with another one at this place.
fn replaced(faces: Faces, place: usize, face: Ints) -> Faces {
    let mut items = faces.items;
    if place < items.len() {
        items[place] = face;
    }
    Faces { items }
}

// The nodes and faces with the face at this place moved.
fn with_moved_face(alloc: Global, raw: RawMesh, place: usize) -> Result<RawMesh, AllocError>
    requires { length raw.nodes ≤ 500 }
{
    let nodes = with_opposites(alloc, &raw.nodes.items)?;
    let count = raw.nodes.items.len() as i32;
    let face = match raw.faces.items.get(place) {
        Some(face) => opposite_face(alloc, &face.items, count)?,
        None => Ints {
            items: Vec::new(alloc),
        },
    };
    let faces = replaced(raw.faces, place, face);
    Ok(RawMesh { nodes, faces })
}

/// The mesh with the face at this place, from 0, moved to the other side of the sphere.
pub(crate) fn moved(rt: &impl Abort, alloc: Global, mesh: &Mesh, place: usize) -> Mesh {
    let raw = raw_of(rt, alloc, mesh);
    assert!(rt; raw.nodes.items.len() <= 500);
    let Ok(raw) = with_moved_face(alloc, raw, place) else {
        panic!(rt; "no memory");
    };
    accepted(rt, alloc, raw)
}
