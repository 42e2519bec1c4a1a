// Worked candidates, and that workers may share an index.
use crate::compare::{same, same_list};
use crate::meshes::{Made, mesh_of};
use crate::single_faces::{OCTANT, face_mesh};
use cell_index::{build, candidates, fineness};
use mesh_check::face_count;

// Says that workers may share a value.
fn may_be_shared<T: Sync>(_value: &T) {}

#[test]
fn candidates_over_the_cube(rt: HostRuntime) {
    let cube = mesh_of(&rt, rt.alloc(), Made::Cube(1));
    same(&rt, &fineness(face_count(&cube)), &1);
    let Ok(index) = build(rt.alloc(), &cube) else {
        panic!(rt; "no memory");
    };
    may_be_shared(&index);
    for face in 0..face_count(&cube) {
        let Ok(own) = candidates(rt.alloc(), &index, &cube, face + 1) else {
            panic!(rt; "no memory");
        };
        same_list(&rt, own.as_slice(), &[face + 1]);
    }
    let octant = face_mesh(&rt, rt.alloc(), &OCTANT, &[1, 2, 3]);
    for face in 0..face_count(&octant) {
        let Ok(met) = candidates(rt.alloc(), &index, &octant, face + 1) else {
            panic!(rt; "no memory");
        };
        same_list(&rt, met.as_slice(), &[1, 2, 5]);
    }
}
