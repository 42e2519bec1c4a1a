// The lengths of variables.
ghost use Rattle.std.specs.Prelude.{◌≡◌, ◌≤◌, ◌↔◌, ℕ, [], ◌∷◌, length, map, slice_index, IfOk, IfErr, Ok, Err};
ghost use Rattle.nc_format.specs.Sound.{IsSound};
ghost use Rattle.nc_write.specs.Extents.{lens_of};
ghost use Rattle.nc_format.specs.Numbers.{var_named};
ghost use Rattle.exodus_mesh.specs.Names.{found_or};
ghost use Rattle.exodus_mesh.specs.VarLens.{is_of, lens_at, one_len, two_lens, var_len, var_lens, IsNumberVar, HasKind, HasOtherKind};

use crate::variables::var_at;
use crate::{NameFault, NameId, NumberKind};
use nc_format::{NcDim, NcFile, find_var, is_int, is_long};
use nc_write::NcKind;

// The length of a dimension.
pub fn len_of(dims: &[NcDim], id: u32) -> u32
    ensures { result ≡ slice_index (lens_of dims.now) id }
{
    match dims.get(id as usize) {
        Some(dim) => dim.len,
        None => 0,
    }
}

// Whether a type is one of those.
fn is_of(wanted: NumberKind, kind: NcKind) -> bool
    ensures { result ≡ is_of wanted kind }
{
    match wanted {
        NumberKind::Int => is_int(kind),
        NumberKind::Long => is_long(kind),
    }
}

// The dimensions of the variable at a place, whose type is one of those.
#[tactic(auto, unfolding(crate::specs::VarLens::lens_at))]
fn dims_at<'a>(
    file: &'a NcFile,
    kind: NumberKind,
    id: NameId,
    place: u32,
) -> Result<&'a [u32], NameFault>
    ensures dims { IfOk result
        (λ ids. lens_at file.now kind id place
        ≡ Ok (map (slice_index (lens_of file.now.dims)) ids.now)) }
    ensures fault { IfErr result (λ fault. lens_at file.now kind id place ≡ Err fault) }
{
    let Some(var) = var_at(file, place) else {
        return Err(NameFault::Missing(id));
    };
    if !is_of(kind, var.kind) {
        return Err(NameFault::Kind(id));
    }
    Ok(&var.dims.items)
}

// The length of one dimension, which is not the record dimension.
fn one_len(dims: &[NcDim], ids: &[u32], id: NameId) -> Result<u32, NameFault>
    ensures { result ≡ one_len id (map (slice_index (lens_of dims.now)) ids.now) }
{
    match ids {
        [only] => {
            let len = len_of(dims, *only);
            if len == 0 {
                return Err(NameFault::Shape(id));
            }
            Ok(len)
        }
        _ => Err(NameFault::Shape(id)),
    }
}

// The lengths of two dimensions, neither of which is the record dimension.
fn two_lens(dims: &[NcDim], ids: &[u32], id: NameId) -> Result<(u32, u32), NameFault>
    ensures { result ≡ two_lens id (map (slice_index (lens_of dims.now)) ids.now) }
{
    match ids {
        [first, second] => {
            let lens = (len_of(dims, *first), len_of(dims, *second));
            if lens.0 == 0 || lens.1 == 0 {
                return Err(NameFault::Shape(id));
            }
            Ok(lens)
        }
        _ => Err(NameFault::Shape(id)),
    }
}

/// The place, from 0, of the first variable of a name; `Missing(id)` where none has it.
pub fn find_named(file: &NcFile, id: NameId, name: &[u8]) -> Result<u32, NameFault>
    requires sound { IsSound file.now }
    ensures { result ≡ found_or (NameFault.Missing id) (var_named file.now.vars name.now) }
{
    match find_var(file, name) {
        Some(place) => Ok(place),
        None => Err(NameFault::Missing(id)),
    }
}

#[tactic(auto, unfolding(crate::specs::VarLens::var_len))]
fn len_at(file: &NcFile, kind: NumberKind, id: NameId, place: u32) -> Result<u32, NameFault>
    ensures { result ≡ var_len file.now kind id place }
{
    let ids = dims_at(file, kind, id, place)?;
    one_len(&file.dims.items, ids, id)
}

#[tactic(auto, unfolding(crate::specs::VarLens::var_lens))]
fn lens_at(file: &NcFile, kind: NumberKind, id: NameId, place: u32) -> Result<(u32, u32), NameFault>
    ensures { result ≡ var_lens file.now kind id place }
{
    let ids = dims_at(file, kind, id, place)?;
    two_lens(&file.dims.items, ids, id)
}

/// The length of the variable at a place, from 0, which has one dimension and a type of `kind`.
///
/// A fault is the first one, in this order: `Missing(id)` says that no variable has the place,
/// `Kind(id)` that its type is another, and `Shape(id)` that it has no dimension, several, or the
/// record dimension.
#[tactic(auto, using(crate::proofs::NumberFaults::len_missing, crate::proofs::NumberFaults::len_kind))]
pub fn var_len(file: &NcFile, kind: NumberKind, id: NameId, place: u32) -> Result<u32, NameFault>
    ensures len { result ≡ var_len file.now kind id place }

    // When it is a length, and when it is each fault.
    ensures found { (n : ℕ) → (result ≡ Ok n) ↔ IsNumberVar kind file.now (n ∷ []) place }
    ensures missing { (result ≡ Err (NameFault.Missing id)) ↔ (length file.now.vars ≤ place) }
    ensures other_kind { (result ≡ Err (NameFault.Kind id)) ↔ HasOtherKind kind file.now place }
    ensures other_shape { (result ≡ Err (NameFault.Shape id)) ↔
        (HasKind kind file.now place × ((n : ℕ) → ¬ IsNumberVar kind file.now (n ∷ []) place)) }
{
    len_at(file, kind, id, place)
}

/// The lengths of the variable at a place, from 0, which has two dimensions and a type of `kind`:
/// that of the first, and that of the second.
///
/// A fault is the first one, in this order: `Missing(id)` says that no variable has the place,
/// `Kind(id)` that its type is another, and `Shape(id)` that it has another number of dimensions, or
/// that one of them is the record dimension.
#[tactic(auto, using(crate::proofs::NumberFaults::lens_missing, crate::proofs::NumberFaults::lens_kind))]
pub fn var_lens(
    file: &NcFile,
    kind: NumberKind,
    id: NameId,
    place: u32,
) -> Result<(u32, u32), NameFault>
    ensures lens { result ≡ var_lens file.now kind id place }

    // When it is two lengths, and when it is each fault.
    ensures found { (n m : ℕ) → (result ≡ Ok (n, m)) ↔ IsNumberVar kind file.now
        (n ∷ m ∷ []) place }
    ensures missing { (result ≡ Err (NameFault.Missing id)) ↔ (length file.now.vars ≤ place) }
    ensures other_kind { (result ≡ Err (NameFault.Kind id)) ↔ HasOtherKind kind file.now place }
    ensures other_shape { (result ≡ Err (NameFault.Shape id)) ↔
        (HasKind kind file.now place
        × ((n m : ℕ) → ¬ IsNumberVar kind file.now (n ∷ m ∷ []) place)) }
{
    lens_at(file, kind, id, place)
}
