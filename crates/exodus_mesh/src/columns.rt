// Variables of one dimension, by their names.
ghost use Rattle.std.specs.Prelude.{◌≡◌, [], ◌∷◌, ◌++◌, IfOk, OnOk};
ghost use Rattle.nc_format.specs.Sound.{IsSound};
ghost use Rattle.exodus_mesh.specs.Names.{name_of};
ghost use Rattle.exodus_mesh.specs.Columns.{variable_of, column_in};

use crate::{NameFault, NameId, NumberKind, find_named, make_name, var_len};
use nc_format::NcFile;
use nc_write::{DimIds, DocVar, Values};
use std::alloc::{AllocError, Global};

// A variable by its name, the places of its dimensions and its values.
fn make_variable(
    alloc: Global,
    text: &str,
    dims: &[u32],
    values: Values,
) -> Result<DocVar, AllocError>
    ensures { IfOk result (λ var. var ≡ variable_of text.now dims.now values) }
{
    Ok(DocVar {
        name: make_name(alloc, text)?,
        dims: DimIds {
            items: dims.to_vec(alloc)?,
        },
        values,
    })
}

/// One more variable, by its name, the places of its dimensions and its values.
pub fn put_variable(
    alloc: Global,
    vars: &mut Vec<DocVar>,
    text: &str,
    dims: &[u32],
    values: Values,
) -> Result<(), AllocError>
    ensures { OnOk result
        (vars.new.items ≡ vars.old.items ++ variable_of text.now dims.now values ∷ []) }
{
    vars.push(make_variable(alloc, text, dims, values)?)?;
    Ok(())
}

/// The place of a variable of one dimension, with so many numbers of a kind.
#[tactic(auto, unfolding(crate::specs::Columns::column_in))]
pub fn find_column(
    file: &NcFile,
    kind: NumberKind,
    count: u32,
    id: NameId,
    name: &[u8],
) -> Result<u32, NameFault>
    requires sound { IsSound file.now }
    requires name { name.now ≡ name_of [] id }
    ensures { result ≡ column_in file.now kind count id }
{
    let place = find_named(file, id, name)?;
    if var_len(file, kind, id, place)? != count {
        return Err(NameFault::Shape(id));
    }
    Ok(place)
}
