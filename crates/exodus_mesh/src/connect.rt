// The variable of all faces.
ghost use Rattle.std.specs.Prelude.{◌≡◌, ◌≤◌, ◌<◌, ◌^◌, ◌++◌, IfOk, OnOk, All, length};
ghost use Rattle.std.specs.List.{flat_map};
ghost use Rattle.exodus_mesh.specs.MeshDocument.{width_of, filled, connect_of};

use crate::names::make_name;
use nc_write::{DimIds, DocVar, Values};
use std::alloc::{AllocError, Global};
use vec_exact::Ints;

// The greatest number of nodes of a face.
pub fn width(faces: &[Ints]) -> usize
    ensures greatest { result ≡ width_of faces.now }
    ensures all { All (λ face. length face ≤ result) faces.now }
{
    let mut most = 0;
    for face in faces {
        most = face.items.len().max(most);
    }
    most
}

fn put_filled(out: &mut Vec<i32>, face: &Ints, width: usize) -> Result<(), AllocError>
    requires { length face.now ≤ width }
    ensures { OnOk result (out.new.items ≡ out.old.items ++ filled width face.now) }
{
    let last = match face.items.last() {
        Some(last) => *last,
        None => 0,
    };
    out.extend_from_slice(&face.items)?;
    let have = out.len();
    let missing = width - face.items.len();
    if usize::MAX - have < missing {
        return Err(AllocError);
    }
    out.resize(have + missing, last)
}

fn put_faces(out: &mut Vec<i32>, faces: &[Ints], width: usize) -> Result<(), AllocError>
    requires { All (λ face. length face ≤ width) faces.now }
    ensures { OnOk result (out.new.items ≡ out.old.items ++ flat_map (filled width) faces.now) }
{
    for face in faces {
        put_filled(out, face, width)?;
    }
    Ok(())
}

pub fn make_connect(alloc: Global, faces: &[Ints], width: usize) -> Result<DocVar, AllocError>
    requires count { length faces.now ≤ 1048576 }
    requires width { width < 2 ^ 32 }
    requires all { All (λ face. length face ≤ width) faces.now }
    ensures { IfOk result (λ var. var ≡ connect_of faces.now width) }
{
    let mut values = Vec::with_capacity(alloc, faces.len() * width)?;
    put_faces(&mut values, faces, width)?;
    let ids = [4, 5].to_vec(alloc)?;
    Ok(DocVar {
        name: make_name(alloc, "connect1")?,
        dims: DimIds { items: ids },
        values: Values::Int(Ints { items: values }),
    })
}
