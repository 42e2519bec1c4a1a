// The field of a whole file.
ghost use Rattle.std.specs.Prelude.{◌≡◌, ◌≤◌, ◌*◌, length, IfOk, IfErr, Ok};
ghost use Rattle.nc_format.specs.Answers.{IsFaultOf};
ghost use Rattle.nc_format.specs.Header.{IsHeader};
ghost use Rattle.exodus_mesh.specs.MeshIn.{values_in};
ghost use Rattle.field_files.specs.FieldNames.{IsFieldPlace};
ghost use Rattle.field_files.specs.declared.FieldFault.TheVariants as faults;
ghost use Rattle.field_files.specs.FieldIn.{field_in};

use crate::finding::var_at;
use crate::{FieldData, FieldFault, fill_value, find_field, fit_field};
use nc_format::{NcFile, gather, int_values, law_first_fault};
use std::alloc::Global;
use vec_exact::{Ints, NoMemory};

// The values of the variable at a place, in row-major order.
fn read_values(alloc: Global, file: &NcFile, bytes: &[u8], place: u32) -> Result<Ints, NoMemory>
    requires header { IsHeader bytes.now (length bytes.now) file.now }
    requires place { IsFieldPlace file.now place }
    ensures { IfOk result (λ values. values ≡ values_in file.now bytes.now place) }
{
    let Some(var) = var_at(file, place) else {
        return Ok(Ints {
            items: Vec::new(alloc),
        });
    };
    let spelled = gather(alloc, var, bytes)?;
    let items = int_values(alloc, var.kind, &spelled)?;
    Ok(Ints { items })
}

/// The field that a map with `n_a` sources takes from the variable of a name, in the file with the
/// bytes `bytes` and the header `file`.
///
/// A fault is the first one: `Name` for those of `find_field`, and behind them `Length` where
/// `fit_field` finds no fit.
#[tactic(auto, unfolding(crate::specs::FieldIn::field_in))]
pub fn read_field(
    alloc: Global,
    file: &NcFile,
    name: &[u8],
    n_a: u32,
    bytes: &[u8],
) -> Result<FieldData, FieldFault>
    requires header { IsHeader bytes.now (length bytes.now) file.now }
    requires short { length bytes.now ≤ 2147483647 }
    ensures field { IfOk result (λ found. field_in file.now bytes.now name.now n_a ≡ Ok found) }
    // A fault that is answered is the first one, unless memory ran out.
    ensures fault { IfErr result
        (IsFaultOf faults.NoMemory (field_in file.now bytes.now name.now n_a)) }
    // There is a value for each source of each slice.
    ensures values { IfOk result (λ found. length found.values ≡ found.field.slices * n_a) }
{
    // Every header is sound.
    law_first_fault();
    let place = match find_field(file, name) {
        Ok(place) => place,
        Err(fault) => return Err(FieldFault::Name(fault)),
    };
    let field = match fit_field(file, place, n_a) {
        Ok(field) => field,
        Err(no_fit) => return Err(FieldFault::Length(no_fit.last_len)),
    };
    Ok(FieldData {
        field,
        values: read_values(alloc, file, bytes, place)?,
        fill: fill_value(file, place),
    })
}
