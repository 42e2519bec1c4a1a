// The variable of a field, by its name.
ghost use Rattle.std.specs.Prelude.{◌≡◌, true, IfOk, IsSomeAnd, slice_get, slice_index};
ghost use Rattle.std.specs.List.{list_any};
ghost use Rattle.std.specs.Option.{option_map};
ghost use Rattle.nc_format.specs.Sound.{IsSound};
ghost use Rattle.nc_write.specs.Extents.{lens_of};
ghost use Rattle.nc_format.specs.Numbers.{is_int};
ghost use Rattle.field_files.specs.FieldNames.{len_by, last_len, is_target_dim, has_field_shape, field_var, IsFieldPlace};

use exodus_mesh::{NameFault, NameId, find_named};
use nc_format::{NcDim, NcFile, NcVar, is_int};

// The variable at a place.
pub fn var_at<'a>(file: &'a NcFile, place: u32) -> Option<&'a NcVar>
    ensures { option_map (λ v. v.now) result ≡ slice_get file.now.vars place }
{
    file.vars.items.get(place as usize)
}

// The length of a dimension; 0 for the record dimension.
fn len_of(dims: &[NcDim], id: u32) -> u32
    ensures { result ≡ slice_index (lens_of dims.now) id }
{
    match dims.get(id as usize) {
        Some(dim) => dim.len,
        None => 0,
    }
}

// The length of the dimension at a place of a variable; 0 where there is none.
pub fn len_along(dims: &[NcDim], ids: &[u32], place: usize) -> u32
    ensures { result ≡ len_by (lens_of dims.now) (slice_get ids.now place) }
{
    match ids.get(place) {
        Some(id) => len_of(dims, *id),
        None => 0,
    }
}

// The length of the last dimension.
pub fn last_len(dims: &[NcDim], ids: &[u32]) -> u32
    ensures { result ≡ last_len (lens_of dims.now) ids.now }
{
    len_along(dims, ids, ids.len().saturating_sub(1))
}

// Whether a dimension has the name of that of the targets.
fn is_target_dim(dims: &[NcDim], id: u32) -> bool
    ensures { result ≡ is_target_dim dims.now id }
{
    match dims.get(id as usize) {
        Some(dim) => dim.name.items.as_slice() == b"n_b".as_slice(),
        None => false,
    }
}

fn has_target_dim(dims: &[NcDim], ids: &[u32]) -> bool
    ensures { result ≡ list_any (is_target_dim dims.now) ids.now }
{
    ids.iter().any(|id| is_target_dim(dims, *id))
}

fn has_field_shape(dims: &[NcDim], ids: &[u32]) -> bool
    ensures { result ≡ has_field_shape dims.now ids.now }
{
    let (before, _) = ids.split_at(ids.len().saturating_sub(1));
    last_len(dims, ids) > 0 && !has_target_dim(dims, before)
}

// The place of the variable, or the first fault.
#[tactic(auto, unfolding(crate::specs::FieldNames::field_var, exodus_mesh::specs::Names::name_of))]
fn find_place(file: &NcFile, name: &[u8]) -> Result<u32, NameFault>
    requires sound { IsSound file.now }
    ensures { result ≡ field_var file.now name.now }
{
    let place = find_named(file, NameId::Var, name)?;
    let Some(var) = var_at(file, place) else {
        return Err(NameFault::Missing(NameId::Var));
    };
    if !is_int(var.kind) {
        return Err(NameFault::Kind(NameId::Var));
    }
    if !has_field_shape(&file.dims.items, &var.dims.items) {
        return Err(NameFault::Shape(NameId::Var));
    }
    Ok(place)
}

/// The place, from 0, of the variable of a name that a field is read from.
///
/// A fault is the first one, in this order: `Missing(Var)` says that no variable has the name,
/// `Kind(Var)` that its type is not BYTE, SHORT or INT, and `Shape(Var)` that it has no dimension,
/// that its last one is the record dimension, or that one before the last has the name `n_b`, which
/// the dimension of the targets has in a field file.
pub fn find_field(file: &NcFile, name: &[u8]) -> Result<u32, NameFault>
    requires sound { IsSound file.now }
    ensures var { result ≡ field_var file.now name.now }

    // What is found has this name, and whole numbers for a map to take.
    ensures place { IfOk result (IsFieldPlace file.now) }
    ensures named { IfOk result (λ place. IsSomeAnd (slice_get file.now.vars place)
        (λ v. v.name ≡ name.now)) }
    ensures whole { IfOk result (λ place. IsSomeAnd (slice_get file.now.vars place)
        (λ v. is_int v.kind ≡ true)) }
{
    find_place(file, name)
}
