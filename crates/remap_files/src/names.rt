// Attributes by their names.
ghost use Rattle.std.specs.Prelude.{◌≡◌, ◌<◌, ◌^◌, IfOk};
ghost use Rattle.remap_files.specs.OverlapDocument.{attribute_of};

use exodus_mesh::make_name;
use nc_write::DocAtt;
use std::alloc::{AllocError, Global};

pub fn make_attribute(alloc: Global, text: &str, value: u32) -> Result<DocAtt, AllocError>
    requires { value < 2 ^ 31 }
    ensures { IfOk result (λ att. att ≡ attribute_of text.now value) }
{
    Ok(DocAtt {
        name: make_name(alloc, text)?,
        value: value as i32,
    })
}
