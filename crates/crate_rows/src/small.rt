// That generated meshes tile the sphere, and that meshes with a face left out, listed twice or moved
// don't.
ghost use Rattle.std.specs.Prelude.{◌≤◌};

use crate::compare::{same_at, same_of};
use crate::meshes::{Gaps, MADE, Made, doubled, mesh_of, moved, without};
use mesh_check::{Mesh, edge_count, face_count};
use mesh_partition::{MeshReport, report};
use std::alloc::Global;
use std::process::Abort;
use std::thread::Threads;

/// The report on a mesh.
pub(crate) fn reported<R: Abort + Threads>(
    rt: &R,
    alloc: Global,
    mesh: &Mesh,
    workers: u32,
) -> MeshReport
    requires { (1 ≤ workers) × (workers ≤ 64) }
{
    let Ok(report) = report(rt, alloc, mesh, workers) else {
        panic!(rt; "no report");
    };
    report
}

// Each edge is in one face, its reverse in another one, and all is covered once.
const TILES: MeshReport = MeshReport {
    overlaps: 0,
    unpaired: 0,
    doubled: 0,
    covered: true,
};

// The mesh tiles the sphere, by one worker and by three.
fn assert_tiles<R: Abort + Threads>(rt: &R, alloc: Global, made: Made) {
    let mesh = mesh_of(rt, alloc, made);
    same_of(rt, &reported(rt, alloc, &mesh, 1), &TILES, &made);
    same_of(rt, &reported(rt, alloc, &mesh, 3), &TILES, &made);
}

#[test]
fn generated_meshes_tile_the_sphere(rt: HostRuntime) {
    for made in MADE {
        assert_tiles(&rt, rt.alloc(), made);
    }
}

// How many edges the face at this place has.
fn edges_at(rt: &impl Abort, mesh: &Mesh, place: u32) -> u32 {
    assert!(rt; place < face_count(mesh));
    edge_count(mesh, place + 1)
}

// Without the face at this place, its edges are missing at its neighbours.
fn assert_gap<R: Abort + Threads>(rt: &R, alloc: Global, mesh: &Mesh, place: u32) {
    let gaps = Gaps {
        first: place,
        step: 1000,
    };
    let rest = without(rt, alloc, mesh, gaps);
    let want = MeshReport {
        unpaired: edges_at(rt, mesh, place),
        covered: false,
        ..TILES
    };
    same_at(rt, &reported(rt, alloc, &rest, 1), &want, &place);
}

// With the face at this place listed twice, its edges stand twice.
fn assert_doubled<R: Abort + Threads>(rt: &R, alloc: Global, mesh: &Mesh, place: u32) {
    let twice = doubled(rt, alloc, mesh, place as usize);
    let want = MeshReport {
        overlaps: 1,
        doubled: edges_at(rt, mesh, place),
        ..TILES
    };
    same_at(rt, &reported(rt, alloc, &twice, 1), &want, &place);
}

// With the face at this place moved to the other side, its place is bare and another one is full.
fn assert_moved<R: Abort + Threads>(rt: &R, alloc: Global, mesh: &Mesh, place: u32) {
    let other = moved(rt, alloc, mesh, place as usize);
    let report = reported(rt, alloc, &other, 1);
    assert!(rt; !report.covered, "at {place}");
    assert!(rt; report.overlaps >= 1, "at {place}");
}

// The first, the third and the last face.
fn places(mesh: &Mesh) -> [u32; 3] {
    let last = face_count(mesh).saturating_sub(1);
    [0, 2, last]
}

fn assert_changed<R: Abort + Threads>(rt: &R, alloc: Global, made: Made) {
    let mesh = mesh_of(rt, alloc, made);
    for place in places(&mesh) {
        assert_gap(rt, alloc, &mesh, place);
        assert_doubled(rt, alloc, &mesh, place);
        assert_moved(rt, alloc, &mesh, place);
    }
}

#[test]
fn changed_meshes_dont_tile_the_sphere(rt: HostRuntime) {
    for made in MADE {
        assert_changed(&rt, rt.alloc(), made);
    }
}
