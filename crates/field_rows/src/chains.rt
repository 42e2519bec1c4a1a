// Worked chains on the smallest cubed sphere.
use crate::compare::{same, same_list};
use crate::meshes::cube;
use overlap_run::OpenGate;
use remap_chain::{ChainFault, ChainOut, chain};
use std::alloc::Global;
use std::process::Abort;
use std::thread::Threads;

// What the chain gives of the cube over itself.
fn chained<R: Abort + Threads>(
    rt: &R,
    alloc: Global,
    values: &[i32],
) -> Result<ChainOut, ChainFault> {
    let mesh = cube(rt, alloc);
    chain(rt, alloc, &mesh, &mesh, 1, &OpenGate, values)
}

#[test]
fn a_field_that_is_too_short(rt: HostRuntime) {
    let fault = chained(&rt, rt.alloc(), &[1, 2, 3, 4, 5]).err();
    same(&rt, &fault, &Some(ChainFault::Length { map: 6, field: 5 }));
}

#[test]
fn each_face_keeps_its_value(rt: HostRuntime) {
    let values = [1, -2, 3, -4, 5, -6];
    let Ok(out) = chained(&rt, rt.alloc(), &values) else {
        panic!(rt; "a fault");
    };
    same(&rt, &out.pieces, &6);
    same_list(&rt, out.field.whole.items.as_slice(), &values);
    same_list(&rt, out.field.rest.items.as_slice(), &[0, 0, 0, 0, 0, 0]);
}
