// The dimensions of a field file, and what stands over them.
ghost use Rattle.std.specs.Prelude.{◌≡◌, ◌<◌, ◌≤◌, ◌^◌, ◌++◌, ◌∷◌, [], ℕ, Some, None, All, IfOk, OnOk, length, replicate, slice_set};
ghost use Rattle.field_files.specs.FileHeader.{IsFileHeader, dims_at};
ghost use Rattle.field_files.specs.FieldShapes.{Fits};
ghost use Rattle.field_files.specs.Frames.{IsFrameOf};
ghost use Rattle.field_files.specs.FieldDocument.{leading_ids, each_once, dim_at, field_dims, field_ids, field_records};
ghost use Rattle.field_files.specs.NewPlaces.{ArePlacesOf};

use crate::FieldVar;
use crate::finding::var_at;
use exodus_mesh::make_dimension;
use nc_format::{NcDim, NcFile};
use nc_write::extents::has_records;
use nc_write::{DimIds, DocDim, DocDims, Name};
use std::alloc::{AllocError, Global};

/// What a field file has besides its values: its records and dimensions, and the dimensions of each
/// of its variables.
#[derive(Drop)]
pub struct Frame {
    pub records: u32,
    pub dims: DocDims,
    pub ids: DimIds,
}

// The dimensions that lead, each once, and the place among them of each dimension that is one.
#[derive(Drop)]
struct Kept {
    ids: Vec<u32>,
    places: Vec<Option<u32>>,
}

// The numbers of the leading dimensions.
fn leading_ids<'a>(file: &'a NcFile, field: FieldVar) -> &'a [u32]
    requires { field.leading ≤ length (dims_at file.now field.var) }
    ensures { result.now ≡ leading_ids file.now field }
{
    match var_at(file, field.var) {
        Some(var) => &var.dims.items[..field.leading],
        None => &[],
    }
}

// A table of so many places, none of which is known.
fn no_places(alloc: Global, count: usize) -> Result<Vec<Option<u32>>, AllocError>
    ensures { IfOk result (λ places. places.items ≡ replicate count None) }
{
    let mut places = Vec::with_capacity(alloc, count)?;
    for _ in 0..count {
        places.push(None)?;
    }
    Ok(places)
}

// Keeps a number behind those that are kept.
fn keep(ids: &mut Vec<u32>, places: &mut Vec<Option<u32>>, id: u32) -> Result<(), AllocError>
    requires within { id < length places.old.items }
    requires few { length ids.old.items < 2 ^ 32 }
    ensures ids { OnOk result (ids.new.items ≡ ids.old.items ++ id ∷ []) }
    ensures places { OnOk result
        (places.new.items ≡ slice_set places.old.items id (Some (length ids.old.items))) }
{
    places[id as usize] = Some(ids.len() as u32);
    ids.push(id)?;
    Ok(())
}

// Each number once, at its first place. A table of the places makes one pass of it.
fn each_once(alloc: Global, dim_count: usize, leading: &[u32]) -> Result<Kept, AllocError>
    requires ids { All (λ id. id < dim_count) leading.now }
    requires few { length leading.now < 2 ^ 31 }
    ensures ids { IfOk result (λ kept. kept.ids.items ≡ each_once leading.now) }
    ensures places { IfOk result
        (λ kept. ArePlacesOf (each_once leading.now) dim_count kept.places.items) }
{
    let mut ids = Vec::new(alloc);
    let mut places = no_places(alloc, dim_count)?;
    for id in leading {
        if places[*id as usize].is_none() {
            keep(&mut ids, &mut places, *id)?;
        }
    }
    Ok(Kept { ids, places })
}

fn copy_name(alloc: Global, name: &Name) -> Result<Name, AllocError>
    ensures { IfOk result (λ copy. copy ≡ name.now) }
{
    Ok(Name {
        items: Vec::from_slice(alloc, &name.items)?,
    })
}

// A dimension of the file.
fn copy_dim(alloc: Global, dims: &[NcDim], id: u32) -> Result<DocDim, AllocError>
    ensures { IfOk result (λ dim. dim ≡ dim_at dims.now id) }
{
    let Some(dim) = dims.get(id as usize) else {
        return make_dimension(alloc, "", 0);
    };
    Ok(DocDim {
        name: copy_name(alloc, &dim.name)?,
        len: dim.len,
    })
}

// The leading dimensions, each once, and then that of the targets.
fn field_dims(
    alloc: Global,
    file: &NcFile,
    leading: &[u32],
    kept: &Kept,
    n_b: u32,
) -> Result<Vec<DocDim>, AllocError>
    requires { kept.now.ids.items ≡ each_once leading.now }
    ensures { IfOk result (λ dims. dims.items ≡ field_dims file.now leading.now n_b) }
{
    let mut dims = Vec::with_capacity(alloc, kept.ids.len())?;
    for id in &kept.ids {
        dims.push(copy_dim(alloc, &file.dims.items, *id)?)?;
    }
    dims.push(make_dimension(alloc, "n_b", n_b)?)?;
    Ok(dims)
}

// The numbers of the dimensions of each variable.
fn field_ids(alloc: Global, leading: &[u32], kept: &Kept) -> Result<DimIds, AllocError>
    requires few { length (each_once leading.now) < 2 ^ 31 }
    requires ids { kept.now.ids.items ≡ each_once leading.now }
    requires places { ArePlacesOf (each_once leading.now) (length kept.now.places.items)
        kept.now.places.items }
    requires within { All (λ id. id < length kept.now.places.items) leading.now }
    ensures { IfOk result (λ ids. ids ≡ field_ids leading.now) }
{
    let mut items = Vec::with_capacity(alloc, leading.len())?;
    for id in leading {
        let place = kept.places[*id as usize];
        items.push(place.unwrap_or(0))?;
    }
    items.push(kept.ids.len() as u32)?;
    Ok(DimIds { items })
}

// The records of a field file.
fn field_records(file: &NcFile, leading: &[u32]) -> u32
    ensures { result ≡ field_records file.now leading.now }
{
    if has_records(&file.dims.items, leading) {
        file.records
    } else {
        0
    }
}

/// What the file of a field over `n_b` targets has besides its values.
pub fn make_frame(
    alloc: Global,
    file: &NcFile,
    field: FieldVar,
    n_b: u32,
) -> Result<Frame, AllocError>
    requires header { IsFileHeader file.now }
    requires field { (n_a : ℕ) × Fits file.now n_a field }
    ensures { IfOk result (λ frame. IsFrameOf file.now field n_b frame) }
{
    let leading = leading_ids(file, field);
    let kept = each_once(alloc, file.dims.items.len(), leading)?;
    let dims = field_dims(alloc, file, leading, &kept, n_b)?;
    let ids = field_ids(alloc, leading, &kept)?;
    Ok(Frame {
        records: field_records(file, leading),
        dims: DocDims { items: dims },
        ids,
    })
}
