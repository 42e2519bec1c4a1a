// Rings of faces of generated meshes.
use crate::runs::same;
use clip::{Ring, is_ring};
use mesh_check::{check, face_count};
use std::test::Fail;

#[test]
fn a_face_over_itself_has_the_ring_of_its_edges(rt: HostRuntime) -> Result<(), Fail> {
    let Ok(raw) = gen_cs::make(rt.alloc(), 2) else {
        panic!(rt; "no memory");
    };
    let Ok(mesh) = check(rt.alloc(), raw) else {
        panic!(rt; "a fault");
    };
    let mut edges = Ring::new();
    edges.push(1);
    edges.push(2);
    edges.push(3);
    edges.push(4);
    same(&rt, &face_count(&mesh), &24);
    for face in 0..face_count(&mesh) {
        assert!(rt; is_ring(&mesh, face + 1, &mesh, face + 1, &edges));
    }
    Ok(())
}
