// The nodes of a mesh and of a face.
ghost use Rattle.std.specs.Prelude.{◌≡◌, ◌<◌, ◌≤◌, ◌+◌, ◌-◌, pos, All, IfErr, OnOk, length, slice_index_or, unsigned_abs, []};
ghost use Rattle.vec_exact.specs.Size.{Is18};
ghost use Rattle.vec_exact.specs.Face.{vector_of, node_of, IsNodeNumber};
ghost use Rattle.mesh_check.specs.Mesh.{IsGoodNode};
ghost use Rattle.mesh_check.specs.FirstFault.{IsNodeFault, IsFirstNodeFault};

use crate::MeshFault;

fn check_node(number: u32, node: [i32; 3]) -> Result<(), MeshFault>
    ensures good { OnOk result (IsGoodNode node) }
    ensures fault { IfErr result (λ fault. IsNodeFault number (vector_of node) fault) }
{
    let [x, y, z] = node;
    if 262_143 < x.unsigned_abs() || 262_143 < y.unsigned_abs() || 262_143 < z.unsigned_abs() {
        return Err(MeshFault::CoordRange(number));
    }
    if x == 0 && y == 0 && z == 0 {
        return Err(MeshFault::ZeroNode(number));
    }
    Ok(())
}

pub fn check_nodes(nodes: &[[i32; 3]]) -> Result<(), MeshFault>
    requires { length nodes.now ≤ 4194304 }
    ensures good { OnOk result (All IsGoodNode nodes.now) }
    ensures fault { IfErr result (λ fault. IsFirstNodeFault nodes.now fault) }
{
    for (i, node) in nodes.iter().enumerate() {
        check_node(i as u32 + 1, *node)?;
    }
    Ok(())
}
