// How a variable lies over the sources of a map.
ghost use Rattle.std.specs.Prelude.{◌≡◌, ◌≤◌, ◌*◌, ◌/◌, ◌<◌, ℕ, List, length, true, IfOk, IsSomeAnd, slice_get};
ghost use Rattle.nc_write.specs.Kinds.{size_of};
ghost use Rattle.nc_write.specs.Extents.{lens_of};
ghost use Rattle.nc_format.specs.Header.{IsHeader};
ghost use Rattle.exodus_mesh.specs.MeshIn.{values_in};
ghost use Rattle.field_files.specs.FileHeader.{IsFileHeader};
ghost use Rattle.field_files.specs.FieldNames.{IsFieldPlace};
ghost use Rattle.field_files.specs.FieldShapes.{len_before_last, is_product, trailing_by, field_over, Fits};

use crate::finding::{last_len, len_along, var_at};
use crate::{FieldVar, NoFit};
use nc_format::{NcDim, NcFile, NcVar};
use nc_write::kinds::size_of;

// The length of the last dimension but one.
fn len_before_last(dims: &[NcDim], ids: &[u32]) -> u32
    ensures { result ≡ len_before_last (lens_of dims.now) ids.now }
{
    if ids.len() > 1 {
        len_along(dims, ids, ids.len() - 2)
    } else {
        0
    }
}

// Whether two lengths, neither of which is that of the record dimension, have a product.
fn is_product(n: u32, first: u32, second: u32) -> bool
    ensures { result ≡ is_product n first second }
{
    first > 0 && second > 0 && u64::from(first) * u64::from(second) == u64::from(n)
}

// How many dimensions lie along n_a sources, where any do, by the lengths of the last two.
fn trailing_count(n_a: u32, before: u32, last: u32) -> Option<usize>
    ensures { result ≡ trailing_by n_a before last }
{
    if last == n_a {
        return Some(1);
    }
    if is_product(n_a, before, last) {
        return Some(2);
    }
    None
}

// How many values a variable has in its file, of all its pieces.
#[tactic(auto, using(crate::proofs::SomeBytes::some_bytes))]
fn value_count(var: &NcVar) -> u64
    requires { var.now.parts * var.now.part ≤ 2147483647 }
    ensures { result ≡ var.now.parts * var.now.part / size_of var.now.kind }
{
    u64::from(var.parts) * var.part / size_of(var.kind)
}

// How many slices of n_a values the pieces of a variable hold.
fn slice_count(var: &NcVar, n_a: u32) -> u32
    requires sources { 1 ≤ n_a }
    requires short { var.now.parts * var.now.part ≤ 2147483647 }
    requires whole { (slices : ℕ)
        × (var.now.parts * var.now.part ≡ slices * n_a * size_of var.now.kind) }
    ensures slices { (slices : ℕ)
        → var.now.parts * var.now.part ≡ slices * n_a * size_of var.now.kind → result ≡ slices }
    ensures few { result ≤ 2147483647 }
{
    (value_count(var) / u64::from(n_a)) as u32
}

/// How the variable at a place, for which `find_field` gives the place, lies over a map with `n_a`
/// sources.
///
/// The last dimension lies along the sources where its length is `n_a`; else the last two do, where
/// neither is the record dimension and the product of their lengths is `n_a`. All dimensions before
/// them lead. Where neither holds there is no fit. Each slice has a value for each source, so that
/// there are as many slices as the values of the variable go into `n_a`.
#[tactic(auto, unfolding(crate::specs::FieldShapes::field_over))]
pub fn fit_field(file: &NcFile, place: u32, n_a: u32) -> Result<FieldVar, NoFit>
    requires header { IsFileHeader file.now }
    requires place { IsFieldPlace file.now place }
    ensures over { result ≡ field_over file.now place n_a }
    ensures fits { IfOk result (Fits file.now n_a) }

    // The variable has a value for each source of each slice.
    ensures pieces { IfOk result (λ field. IsSomeAnd (slice_get file.now.vars place)
        (λ v. v.parts * v.part ≡ field.slices * n_a * size_of v.kind)) }
    ensures values { IfOk result (λ field. (bytes : List ℕ)
        → IsHeader bytes (length bytes) file.now
        → length (values_in file.now bytes place) ≡ field.slices * n_a) }
    ensures few { IfOk result (λ field. field.slices ≤ 2147483647) }
{
    let Some(var) = var_at(file, place) else {
        return Err(NoFit { last_len: 0 });
    };
    let dims = file.dims.items.as_slice();
    let ids = var.dims.items.as_slice();
    let last = last_len(dims, ids);
    let Some(trailing) = trailing_count(n_a, len_before_last(dims, ids), last) else {
        return Err(NoFit { last_len: last });
    };
    Ok(FieldVar {
        var: place,
        leading: ids.len() - trailing,
        slices: slice_count(var, n_a),
    })
}
