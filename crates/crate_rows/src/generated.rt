// Quarter turns, and the smallest generated meshes, node by node and face by face.
use crate::compare::{same, same_list};
use mesh_check::{face_count, node_count, raw};
use std::test::Fail;

#[test]
fn quarter_turns(rt: HostRuntime) {
    same(&rt, &gen_rll::trig(0, 8), &(1073741824, 0));
    same(&rt, &gen_rll::trig(1, 4), &(0, 1073741824));
    same(&rt, &gen_rll::trig(-1, 4), &(0, -1073741824));
}

#[test]
fn the_octahedron(rt: HostRuntime) -> Result<(), Fail> {
    let Ok(mesh) = gen_rll::make(rt.alloc(), 4, 2) else {
        panic!(rt; "no mesh");
    };
    let Ok(octahedron) = raw(rt.alloc(), &mesh) else {
        panic!(rt; "no memory");
    };
    let corners = [
        [0, 0, -131072],
        [131072, 0, 0],
        [0, 131072, 0],
        [-131072, 0, 0],
        [0, -131072, 0],
        [0, 0, 131072],
    ];
    same_list(&rt, octahedron.nodes.items.as_slice(), &corners);
    let sides = [
        [1, 3, 2],
        [1, 4, 3],
        [1, 5, 4],
        [1, 2, 5],
        [2, 3, 6],
        [3, 4, 6],
        [4, 5, 6],
        [5, 2, 6],
    ];
    same(&rt, &octahedron.faces.items.len(), &8);
    for (side, face) in sides.iter().zip(&octahedron.faces.items) {
        same_list(&rt, face.items.as_slice(), side);
    }
    Ok(())
}

#[test]
fn the_icosahedron(rt: HostRuntime) -> Result<(), Fail> {
    let Ok(mesh) = gen_ico::make(rt.alloc(), 1, false) else {
        panic!(rt; "no mesh");
    };
    same(&rt, &(face_count(&mesh), node_count(&mesh)), &(20, 12));
    let Ok(icosahedron) = raw(rt.alloc(), &mesh) else {
        panic!(rt; "no memory");
    };
    let (Some(face), Some(node)) = (
        icosahedron.faces.items.first(),
        icosahedron.nodes.items.first(),
    ) else {
        panic!(rt; "no face or no node");
    };
    same_list(&rt, face.items.as_slice(), &[1, 3, 2]);
    same(&rt, node, &[-131072, 0, -81007]);
    Ok(())
}

#[test]
fn the_dodecahedron(rt: HostRuntime) -> Result<(), Fail> {
    let Ok(mesh) = gen_ico::make(rt.alloc(), 1, true) else {
        panic!(rt; "no mesh");
    };
    same(&rt, &(face_count(&mesh), node_count(&mesh)), &(12, 20));
    let Ok(dodecahedron) = raw(rt.alloc(), &mesh) else {
        panic!(rt; "no memory");
    };
    for face in &dodecahedron.faces.items {
        same(&rt, &face.items.len(), &5);
    }
    Ok(())
}
