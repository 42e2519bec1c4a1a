// Rows of files of other hands: names, types and blocks.
ghost use Rattle.std.specs.Prelude.{◌≤◌, length};

use crate::compared::same;
use crate::spelled::{bytes_of, edited, header_of};
use exodus_mesh::{NameFault, NameId, find_mesh, read_mesh};
use mesh_check::check_counts;
use std::test::Fail;
use vec_exact::RawMesh;

// A header without dimensions, attributes and variables.
const EMPTY: &str = "4344460200000000000000000000000000000000000000000000000000000000";

// Three nodes by `coordx`, `coordy` and `coordz`, and the blocks 1 2 3, then 1 1 2 3, then 1 2 3 1;
// all of type BYTE.
const THREE_BLOCKS: &str = "\
    43444602000000000000000a000000040000000a6e756d5f656c5f626c6b00000000000300000003\
    6f6e6500000000010000000574687265650000000000000300000004666f75720000000400000000\
    000000000000000b0000000600000006636f6f726478000000000001000000020000000000000000\
    0000000100000004000000000000017000000006636f6f7264790000000000010000000200000000\
    000000000000000100000004000000000000017400000006636f6f72647a00000000000100000002\
    00000000000000000000000100000004000000000000017800000008636f6e6e6563743100000002\
    000000010000000200000000000000000000000100000004000000000000017c00000008636f6e6e\
    65637432000000020000000100000003000000000000000000000001000000040000000000000180\
    00000008636f6e6e6563743300000002000000010000000300000000000000000000000100000004\
    0000000000000184010000810001008100000181010203810101020301020301";

// The same without `coordz`, and with `coordy` of type FLOAT.
const MISSING_BEFORE_KIND: &str = "\
    43444602000000000000000a000000040000000a6e756d5f656c5f626c6b00000000000300000003\
    6f6e6500000000010000000574687265650000000000000300000004666f75720000000400000000\
    000000000000000b0000000500000006636f6f726478000000000001000000020000000000000000\
    0000000100000004000000000000014400000006636f6f7264790000000000010000000200000000\
    00000000000000050000000c000000000000014800000008636f6e6e656374310000000200000001\
    0000000200000000000000000000000100000004000000000000015400000008636f6e6e65637432\
    00000002000000010000000300000000000000000000000100000004000000000000015800000008\
    636f6e6e656374330000000200000001000000030000000000000000000000010000000400000000\
    0000015c01000081000000003f80000000000000010203810101020301020301";

fn fault_of(rt: &HostRuntime, bytes: &[u8]) -> Result<Option<NameFault>, Fail>
    requires { length bytes.now ≤ 1000 }
{
    let file = header_of(rt.alloc(), bytes)?;
    Ok(find_mesh(rt.alloc(), &file).err())
}

#[test]
fn first_faults_of_names(rt: HostRuntime) -> Result<(), Fail> {
    let rows = [
        (EMPTY, Some(NameFault::Missing(NameId::Coord))),
        (
            MISSING_BEFORE_KIND,
            Some(NameFault::Missing(NameId::CoordZ)),
        ),
        (THREE_BLOCKS, None),
    ];
    for (digits, want) in rows {
        let bytes = bytes_of(rt.alloc(), digits)?;
        same(&rt, &fault_of(&rt, &bytes)?, &want);
    }
    // The smallest cubed sphere, with `coord` of type DOUBLE.
    let double = edited(rt.alloc(), &[(187, 6)])?;
    let want = Some(NameFault::Kind(NameId::Coord));
    same(&rt, &fault_of(&rt, &double)?, &want);
    Ok(())
}

fn mesh_in(rt: &HostRuntime, bytes: &[u8]) -> Result<RawMesh, Fail>
    requires { length bytes.now ≤ 1000 }
{
    let file = header_of(rt.alloc(), bytes)?;
    let Ok(vars) = find_mesh(rt.alloc(), &file) else {
        return Err("names were expected".into());
    };
    let Ok(faces) = u32::try_from(vars.faces) else {
        return Err("few faces were expected".into());
    };
    if check_counts(vars.nodes, faces).is_err() {
        return Err("small counts were expected".into());
    }
    match read_mesh(rt.alloc(), &file, &vars, bytes) {
        Ok(raw) => Ok(raw),
        Err(_) => Err("out of memory".into()),
    }
}

#[test]
fn three_blocks(rt: HostRuntime) -> Result<(), Fail> {
    let bytes = bytes_of(rt.alloc(), THREE_BLOCKS)?;
    let raw = mesh_in(&rt, &bytes)?;
    let nodes = [[1, 0, 0], [0, 1, 0], [0, 0, 1]];
    same(&rt, &raw.nodes.items.as_slice(), &nodes.as_slice());
    same(&rt, &raw.faces.items.len(), &3);
    for face in &raw.faces.items {
        same(&rt, &face.items.as_slice(), &[1, 2, 3].as_slice());
    }
    Ok(())
}
