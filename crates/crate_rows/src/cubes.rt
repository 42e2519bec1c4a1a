// The smallest cubed sphere, node by node and face by face, and the size of the next one.
use crate::compare::{same, same_list};
use gen_cs::make;
use std::test::Fail;

#[test]
fn the_cube(rt: HostRuntime) -> Result<(), Fail> {
    let Ok(cube) = make(rt.alloc(), 1) else {
        panic!(rt; "no memory");
    };
    let corners = [
        [-1, -1, -1],
        [-1, -1, 1],
        [-1, 1, -1],
        [-1, 1, 1],
        [1, -1, -1],
        [1, -1, 1],
        [1, 1, -1],
        [1, 1, 1],
    ];
    same_list(&rt, cube.nodes.items.as_slice(), &corners);
    let sides = [
        [5, 7, 8, 6],
        [7, 3, 4, 8],
        [3, 1, 2, 4],
        [1, 5, 6, 2],
        [6, 8, 4, 2],
        [1, 3, 7, 5],
    ];
    same(&rt, &cube.faces.items.len(), &6);
    for (side, face) in sides.iter().zip(&cube.faces.items) {
        same_list(&rt, face.items.as_slice(), side);
    }
    Ok(())
}

#[test]
fn resolution_two(rt: HostRuntime) -> Result<(), Fail> {
    let Ok(sphere) = make(rt.alloc(), 2) else {
        panic!(rt; "no memory");
    };
    same(&rt, &sphere.nodes.items.len(), &26);
    same(&rt, &sphere.faces.items.len(), &24);
    Ok(())
}
