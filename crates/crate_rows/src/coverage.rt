// What meshes with and without gaps cover of each other, against plain sides.
ghost use Rattle.std.specs.Prelude.{◌≤◌, length, IsTrue, unsigned_abs};
ghost use Rattle.vec_exact.specs.Size.{Is75};
ghost use Rattle.cell_index.specs.IndexOf.{IsIndexOf};

use crate::compare::{same, same_of};
use crate::meshes::{Gaps, Made, mesh_of, without};
use cell_index::{Index, build};
use cover_check::{CoverCount, coverage, remainder, uncovered};
use mesh_check::{Mesh, edge_count, face_count, plane};
use std::alloc::Global;
use std::process::Abort;
use vec_exact::{Sign, Vec3, side};

fn is_small(x: i128) -> bool
    ensures { IsTrue result → unsigned_abs x ≤ 37778931862957161709567 }
{
    x.unsigned_abs() <= 37_778_931_862_957_161_709_567
}

/// Whether the size of the direction lets its sides be asked. It does in all these meshes.
pub(crate) fn is_short(d: Vec3) -> bool
    ensures { IsTrue result → Is75 d }
{
    is_small(d.x) && is_small(d.y) && is_small(d.z)
}

/// The direction is on the positive side of every edge plane of the face.
pub(crate) fn is_inside(mesh: &Mesh, face: u32, d: Vec3) -> bool
    requires face { (1 ≤ face) × (face ≤ length mesh.now.faces) }
    requires size { Is75 d }
{
    for t in 0..edge_count(mesh, face) {
        if side(plane(mesh, face, t + 1), d) != Sign::Pos {
            return false;
        }
    }
    true
}

/// The direction is on the negative side of no edge plane of the face.
pub(crate) fn is_in_closure(mesh: &Mesh, face: u32, d: Vec3) -> bool
    requires face { (1 ≤ face) × (face ≤ length mesh.now.faces) }
    requires size { Is75 d }
{
    for t in 0..edge_count(mesh, face) {
        if side(plane(mesh, face, t + 1), d) == Sign::Neg {
            return false;
        }
    }
    true
}

// The direction is in the closure of some face.
fn is_in_some_closure(mesh: &Mesh, d: Vec3) -> bool
    requires { Is75 d }
{
    for i in 0..face_count(mesh) {
        if is_in_closure(mesh, i + 1, d) {
            return true;
        }
    }
    false
}

pub(crate) fn index(rt: &impl Abort, alloc: Global, a: &Mesh) -> Index
    ensures { IsIndexOf result a.now }
{
    let Ok(index) = build(alloc, a) else {
        panic!(rt; "no memory");
    };
    index
}

pub(crate) fn direction(
    rt: &impl Abort,
    alloc: Global,
    a: &Mesh,
    index: &Index,
    b: &Mesh,
    j: u32,
) -> Option<Vec3>
    requires index { IsIndexOf index.now a.now }
    requires target { (1 ≤ j) × (j ≤ length b.now.faces) }
{
    let Ok(d) = uncovered(alloc, a, index, b, j) else {
        panic!(rt; "no memory");
    };
    d
}

// Whether anything is left of target j.
fn is_left(rt: &impl Abort, alloc: Global, a: &Mesh, index: &Index, b: &Mesh, j: u32) -> bool
    requires index { IsIndexOf index.now a.now }
    requires target { (1 ≤ j) × (j ≤ length b.now.faces) }
{
    let Ok(cells) = remainder(alloc, a, index, b, j) else {
        panic!(rt; "no memory");
    };
    !cells.items.is_empty()
}

// The direction is inside target j, and in the closure of no source.
fn assert_uncovered(rt: &impl Abort, a: &Mesh, b: &Mesh, j: u32, d: Vec3)
    requires { (1 ≤ j) × (j ≤ length b.now.faces) }
{
    assert!(rt; is_short(d));
    assert!(rt; is_inside(b, j, d), "target {j}: {d:?}");
    assert!(rt; !is_in_some_closure(a, d), "target {j}: {d:?}");
}

// Whether target j is covered, after both answers have been looked at.
fn is_covered(rt: &impl Abort, alloc: Global, a: &Mesh, index: &Index, b: &Mesh, j: u32) -> bool
    requires index { IsIndexOf index.now a.now }
    requires target { (1 ≤ j) × (j ≤ length b.now.faces) }
{
    let is_left = is_left(rt, alloc, a, index, b, j);
    match direction(rt, alloc, a, index, b, j) {
        None => assert!(rt; !is_left, "target {j}"),
        Some(d) => {
            assert!(rt; is_left, "target {j}");
            assert_uncovered(rt, a, b, j, d);
        }
    }
    !is_left
}

fn counted(count: CoverCount, j: u32, covered: bool) -> CoverCount {
    if covered {
        CoverCount {
            covered: count.covered.saturating_add(1),
            ..count
        }
    } else if count.first == 0 {
        CoverCount { first: j, ..count }
    } else {
        count
    }
}

// The count of covered targets, target by target.
fn count_by_targets(rt: &impl Abort, alloc: Global, a: &Mesh, b: &Mesh) -> CoverCount {
    let index = index(rt, alloc, a);
    let mut count = CoverCount {
        covered: 0,
        first: 0,
    };
    for j in 0..face_count(b) {
        let covered = is_covered(rt, alloc, a, &index, b, j + 1);
        count = counted(count, j + 1, covered);
    }
    count
}

/// How many targets are covered, by one call.
pub(crate) fn count_at_once(rt: &impl Abort, alloc: Global, a: &Mesh, b: &Mesh) -> CoverCount {
    let Ok(count) = coverage(alloc, a, b) else {
        panic!(rt; "no memory");
    };
    count
}

// Both ways to count agree.
fn count(rt: &impl Abort, alloc: Global, a: &Mesh, b: &Mesh) -> CoverCount {
    let count = count_at_once(rt, alloc, a, b);
    same(rt, &count_by_targets(rt, alloc, a, b), &count);
    count
}

// Generated meshes of all kinds, with few faces.
const FEW: [Made; 8] = [
    Made::Cube(1),
    Made::Cube(2),
    Made::LatitudeLongitude(3, 2),
    Made::LatitudeLongitude(4, 2),
    Made::LatitudeLongitude(5, 4),
    Made::Icosahedral(1),
    Made::Dual(1),
    Made::Dual(2),
];

// The first face; every fifth; every other one; all but the first.
const GAPS: [Gaps; 4] = [
    Gaps {
        first: 0,
        step: 1000,
    },
    Gaps { first: 1, step: 5 },
    Gaps { first: 0, step: 2 },
    Gaps { first: 1, step: 1 },
];

// A mesh that tiles the sphere covers every face of every other one.
fn assert_covers(rt: &impl Abort, alloc: Global, made: Made) {
    let a = mesh_of(rt, alloc, made);
    for other in FEW {
        let b = mesh_of(rt, alloc, other);
        let all = CoverCount {
            covered: face_count(&b),
            first: 0,
        };
        same_of(rt, &count(rt, alloc, &a, &b), &all, &(made, other));
    }
}

#[test]
fn generated_meshes_cover_each_other(rt: HostRuntime) {
    for made in FEW {
        assert_covers(&rt, rt.alloc(), made);
    }
}

// How many of so many faces are not left out.
fn kept(faces: u32, gaps: Gaps) -> u32 {
    (0..faces).filter(|t| !gaps.has(*t as usize)).count() as u32
}

// A mesh with gaps covers those of its own faces that are not left out.
fn assert_covers_rest(rt: &impl Abort, alloc: Global, mesh: &Mesh, gaps: Gaps) {
    let rest = without(rt, alloc, mesh, gaps);
    let want = CoverCount {
        covered: kept(face_count(mesh), gaps),
        first: gaps.first.saturating_add(1),
    };
    same_of(rt, &count(rt, alloc, &rest, mesh), &want, &gaps);
}

#[test]
fn faces_left_out_are_not_covered(rt: HostRuntime) {
    for made in FEW {
        let mesh = mesh_of(&rt, rt.alloc(), made);
        for gaps in GAPS {
            assert_covers_rest(&rt, rt.alloc(), &mesh, gaps);
        }
    }
}

// A mesh with gaps doesn't cover all faces of a mesh that tiles the sphere.
fn assert_gaps_show(rt: &impl Abort, alloc: Global, rest: &Mesh) {
    for other in FEW {
        let b = mesh_of(rt, alloc, other);
        let count = count(rt, alloc, rest, &b);
        assert!(rt; count.first != 0, "{other:?}");
        assert!(rt; count.covered < face_count(&b), "{other:?}");
    }
}

// The same of all of these meshes, with these gaps.
fn assert_gaps_show_in_all(rt: &impl Abort, alloc: Global, gaps: Gaps) {
    for made in FEW {
        let mesh = mesh_of(rt, alloc, made);
        let rest = without(rt, alloc, &mesh, gaps);
        assert_gaps_show(rt, alloc, &rest);
    }
}

#[test]
fn a_missing_face_is_found_through_other_meshes(rt: HostRuntime) {
    assert_gaps_show_in_all(&rt, rt.alloc(), GAPS[0]);
}

#[test]
fn single_gaps_are_found_through_other_meshes(rt: HostRuntime) {
    assert_gaps_show_in_all(&rt, rt.alloc(), GAPS[1]);
}

#[test]
fn many_gaps_are_found_through_other_meshes(rt: HostRuntime) {
    assert_gaps_show_in_all(&rt, rt.alloc(), GAPS[2]);
}

#[test]
fn a_face_alone_leaves_the_rest_of_other_meshes(rt: HostRuntime) {
    assert_gaps_show_in_all(&rt, rt.alloc(), GAPS[3]);
}
