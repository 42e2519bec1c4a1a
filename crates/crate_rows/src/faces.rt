// That a mesh comes where it is to, and worked faults.
use crate::compare::{same, same_list};
use crate::single_faces::{IN_ORDER, SIXTEEN, one_face};
use mesh_check::{MeshFault, check, edge_count, face_count, node, node_count, plane, raw};
use std::test::Fail;
use vec_exact::Vec3;

#[test]
fn a_face_that_is_not_convex(rt: HostRuntime) -> Result<(), Fail> {
    let nodes = [[1, 0, 0], [1, 1, 0], [0, 1, 0], [0, 0, 1]];
    let raw = one_face(rt.alloc(), &nodes, &[1, 2, 3, 4])?;
    let fault = check(rt.alloc(), raw).err();
    same(&rt, &fault, &Some(MeshFault::NotConvex(1)));
    Ok(())
}

#[test]
fn a_coordinate_out_of_range(rt: HostRuntime) -> Result<(), Fail> {
    let mut nodes = SIXTEEN;
    nodes[0][2] = 262144;
    let raw = one_face(rt.alloc(), &nodes, &IN_ORDER)?;
    let fault = check(rt.alloc(), raw).err();
    same(&rt, &fault, &Some(MeshFault::CoordRange(1)));
    Ok(())
}

#[test]
fn a_face_with_sixteen_nodes(rt: HostRuntime) -> Result<(), Fail> {
    let first = one_face(rt.alloc(), &SIXTEEN, &IN_ORDER)?;
    let Ok(mesh) = check(rt.alloc(), first) else {
        panic!(rt; "a fault");
    };
    same(&rt, &face_count(&mesh), &1);
    same(&rt, &node_count(&mesh), &16);
    assert!(rt; edge_count(&mesh, 1) == 16);
    same(&rt, &node(&mesh, 1, 16), &[-2, 1, 262143]);
    let last = Vec3 {
        x: 262143,
        y: 2 * 262143,
        z: 0,
    };
    same(&rt, &plane(&mesh, 1, 16), &last);
    let Ok(again) = raw(rt.alloc(), &mesh) else {
        panic!(rt; "no memory");
    };
    same_list(&rt, again.nodes.items.as_slice(), &SIXTEEN);
    Ok(())
}
