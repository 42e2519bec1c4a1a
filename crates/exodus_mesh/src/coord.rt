// The variable of all coordinates.
ghost use Rattle.std.specs.Prelude.{◌≡◌, ◌<◌, ◌≤◌, ◌++◌, IfOk, OnOk, length};
ghost use Rattle.exodus_mesh.specs.MeshDocument.{component, coord_of};

use crate::names::make_name;
use nc_write::{DimIds, DocVar, Values};
use std::alloc::{AllocError, Global};
use vec_exact::Ints;

fn put_component(out: &mut Vec<i32>, nodes: &[[i32; 3]], k: usize) -> Result<(), AllocError>
    requires { k < 3 }
    ensures { OnOk result (out.new.items ≡ out.old.items ++ component k nodes.now) }
{
    for node in nodes {
        out.push(node[k])?;
    }
    Ok(())
}

pub fn make_coord(alloc: Global, nodes: &[[i32; 3]]) -> Result<DocVar, AllocError>
    requires { length nodes.now ≤ 4194304 }
    ensures { IfOk result (λ var. var ≡ coord_of nodes.now) }
{
    let mut values = Vec::with_capacity(alloc, 3 * nodes.len())?;
    put_component(&mut values, nodes, 0)?;
    put_component(&mut values, nodes, 1)?;
    put_component(&mut values, nodes, 2)?;
    let ids = [0, 1].to_vec(alloc)?;
    Ok(DocVar {
        name: make_name(alloc, "coord")?,
        dims: DimIds { items: ids },
        values: Values::Int(Ints { items: values }),
    })
}
