// Worked reports: meshes that tile the sphere and meshes that don't.
use crate::compare::same;
use crate::coverage::count_at_once;
use crate::meshes::{Made, accepted, mesh_of};
use crate::single_faces::OCTANT;
use crate::small::reported;
use cover_check::CoverCount;
use mesh_check::Mesh;
use mesh_partition::MeshReport;
use std::alloc::{AllocError, Global};
use std::process::Abort;
use vec_exact::{Faces, Ints, Nodes, RawMesh};

// The octant x, y, z > 0, listed so many times.
fn octants(alloc: Global, count: u32) -> Result<RawMesh, AllocError> {
    let nodes = Vec::from_slice(alloc, OCTANT.as_slice())?;
    let mut faces = Vec::new(alloc);
    for _ in 0..count {
        let items = Vec::from_slice(alloc, [1, 2, 3].as_slice())?;
        faces.push(Ints { items }).map_err(AllocError::from)?;
    }
    Ok(RawMesh {
        nodes: Nodes { items: nodes },
        faces: Faces { items: faces },
    })
}

fn octant(rt: &impl Abort, alloc: Global, count: u32) -> Mesh {
    let Ok(raw) = octants(alloc, count) else {
        panic!(rt; "no memory");
    };
    accepted(rt, alloc, raw)
}

#[test]
fn cube_tiles_the_sphere(rt: HostRuntime) {
    let mesh = mesh_of(&rt, rt.alloc(), Made::Cube(2));
    let want = MeshReport {
        overlaps: 0,
        unpaired: 0,
        doubled: 0,
        covered: true,
    };
    same(&rt, &reported(&rt, rt.alloc(), &mesh, 1), &want);
    same(&rt, &reported(&rt, rt.alloc(), &mesh, 3), &want);
}

#[test]
fn octant_alone(rt: HostRuntime) {
    let mesh = octant(&rt, rt.alloc(), 1);
    let want = MeshReport {
        overlaps: 0,
        unpaired: 3,
        doubled: 0,
        covered: false,
    };
    same(&rt, &reported(&rt, rt.alloc(), &mesh, 1), &want);
}

#[test]
fn octant_listed_twice(rt: HostRuntime) {
    let mesh = octant(&rt, rt.alloc(), 2);
    let want = MeshReport {
        overlaps: 1,
        unpaired: 3,
        doubled: 3,
        covered: false,
    };
    same(&rt, &reported(&rt, rt.alloc(), &mesh, 1), &want);
}

// A cubed sphere covers every finer one, and an octant none of its faces.
#[test]
fn coverage_of_cubes(rt: HostRuntime) {
    let coarse = mesh_of(&rt, rt.alloc(), Made::Cube(1));
    let fine = mesh_of(&rt, rt.alloc(), Made::Cube(2));
    let all = CoverCount {
        covered: 24,
        first: 0,
    };
    same(&rt, &count_at_once(&rt, rt.alloc(), &coarse, &fine), &all);
    let none = CoverCount {
        covered: 0,
        first: 1,
    };
    let octant = octant(&rt, rt.alloc(), 1);
    same(
        &rt,
        &count_at_once(&rt, rt.alloc(), &octant, &coarse),
        &none,
    );
}
