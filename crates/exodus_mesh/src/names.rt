// Names of dimensions and variables.
ghost use Rattle.std.specs.Prelude.{◌≡◌, IfOk};
ghost use Rattle.exodus_mesh.specs.MeshDocument.{dimension_of};

use nc_write::{DocDim, Name};
use std::alloc::{AllocError, Global};

/// A name that is spelled by the bytes of a text.
pub fn make_name(alloc: Global, text: &str) -> Result<Name, AllocError>
    ensures { IfOk result (λ name. name ≡ text.now) }
{
    Ok(Name {
        items: text.as_bytes().to_vec(alloc)?,
    })
}

/// A dimension by its name and its length.
pub fn make_dimension(alloc: Global, text: &str, len: u32) -> Result<DocDim, AllocError>
    ensures { IfOk result (λ dim. dim ≡ dimension_of text.now len) }
{
    Ok(DocDim {
        name: make_name(alloc, text)?,
        len,
    })
}
