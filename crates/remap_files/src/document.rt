// The document of an overlap.
ghost use Rattle.std.specs.Prelude.{◌≡◌, ◌≤◌, ◌<◌, ◌^◌, ◌*◌, ◌++◌, ◌∷◌, [], All, length, IfOk, OnOk, Ok};
ghost use Rattle.clip.specs.Columns.{AreColumnsOf};
ghost use Rattle.clip.specs.Overlaps.{IsSoundOverlap};
ghost use Rattle.nc_write.specs.File.{file_of};
ghost use Rattle.nc_write.specs.Form.{IsWellFormed};
ghost use Rattle.nc_write.specs.declared.Values.TheVariants.{Byte, Int};
ghost use Rattle.nc_format.specs.declared.NcFile.{NcFile};
ghost use Rattle.nc_format.specs.Header.{IsHeader};
ghost use Rattle.remap_files.specs.OverlapIn.{overlap_in};
ghost use Rattle.exodus_mesh.specs.MeshDocument.{dimension_of};
ghost use Rattle.remap_files.specs.OverlapDocument.{HasCorners, attribute_of, corner_count_of, overlap_atts, overlap_dims, overlap_document, overlap_file_len};

use crate::column_document::document_of;
use crate::columns::{piece_columns, ring_columns};
use crate::lengths::corner_count;
use crate::names::make_attribute;
use clip::{Columns, Overlap};
use exodus_mesh::make_dimension;
use nc_write::{Bytes8, DocAtt, DocDim, NcDoc, Values};
use std::alloc::{AllocError, Global};
use vec_exact::{Ints, NoMemory};

fn put_attribute(
    alloc: Global,
    atts: &mut Vec<DocAtt>,
    text: &str,
    value: u32,
) -> Result<(), AllocError>
    requires { value < 2 ^ 31 }
    ensures { OnOk result
        (atts.new.items ≡ atts.old.items ++ attribute_of text.now value ∷ []) }
{
    atts.push(make_attribute(alloc, text, value)?)?;
    Ok(())
}

// A function that borrows the list lets nothing go on its ways out.
fn put_attributes(
    alloc: Global,
    atts: &mut Vec<DocAtt>,
    faces_a: u32,
    faces_b: u32,
    pieces: u32,
) -> Result<(), AllocError>
    requires empty { atts.old.items ≡ [] }
    requires source { faces_a < 2 ^ 31 }
    requires target { faces_b < 2 ^ 31 }
    requires pieces { pieces < 2 ^ 31 }
    ensures { OnOk result (atts.new.items ≡ overlap_atts faces_a faces_b pieces) }
{
    put_attribute(alloc, atts, "faces_a", faces_a)?;
    put_attribute(alloc, atts, "faces_b", faces_b)?;
    put_attribute(alloc, atts, "pieces", pieces)
}

pub fn make_attributes(
    alloc: Global,
    faces_a: u32,
    faces_b: u32,
    pieces: u32,
) -> Result<Vec<DocAtt>, AllocError>
    requires source { faces_a < 2 ^ 31 }
    requires target { faces_b < 2 ^ 31 }
    requires pieces { pieces < 2 ^ 31 }
    ensures { IfOk result (λ atts. atts.items ≡ overlap_atts faces_a faces_b pieces) }
{
    let mut atts = Vec::with_capacity(alloc, 3)?;
    put_attributes(alloc, &mut atts, faces_a, faces_b, pieces)?;
    Ok(atts)
}

fn put_dimension(
    alloc: Global,
    dims: &mut Vec<DocDim>,
    text: &str,
    len: u32,
) -> Result<(), AllocError>
    ensures { OnOk result (dims.new.items ≡ dims.old.items ++ dimension_of text.now len ∷ []) }
{
    dims.push(make_dimension(alloc, text, len)?)?;
    Ok(())
}

fn put_dimensions(
    alloc: Global,
    dims: &mut Vec<DocDim>,
    pieces: u32,
    corners: u32,
) -> Result<(), AllocError>
    requires { dims.old.items ≡ [] }
    ensures { OnOk result (dims.new.items ≡ overlap_dims pieces corners) }
{
    put_dimension(alloc, dims, "num_pieces", pieces)?;
    put_dimension(alloc, dims, "num_corners", corners)?;
    put_dimension(alloc, dims, "num_dim", 3)
}

pub fn make_dimensions(alloc: Global, pieces: u32, corners: u32) -> Result<Vec<DocDim>, AllocError>
    ensures { IfOk result (λ dims. dims.items ≡ overlap_dims pieces corners) }
{
    let mut dims = Vec::with_capacity(alloc, 3)?;
    put_dimensions(alloc, &mut dims, pieces, corners)?;
    Ok(dims)
}

pub fn ints(items: Vec<i32>) -> Values
    ensures { result ≡ Int items.items }
{
    Values::Int(Ints { items })
}

pub fn bytes(items: Vec<i8>) -> Values
    ensures { result ≡ Byte items.items }
{
    Values::Byte(Bytes8 { items })
}

// The columns of the pieces of an overlap.
fn columns_of(alloc: Global, overlap: &Overlap) -> Result<Columns, AllocError>
    ensures columns { IfOk result (λ columns. AreColumnsOf overlap.now.pieces columns) }
    ensures kept { IsSoundOverlap overlap.now }
    ensures typed { OnOk result (HasCorners overlap.now) }
{
    let pieces = &overlap.pieces.items;
    let count = corner_count(overlap) as usize;
    let (sources, targets, ring_sizes) = piece_columns(alloc, pieces)?;
    let (ring_planes, corners) = ring_columns(alloc, pieces, count)?;
    Ok(Columns {
        sources,
        targets,
        ring_sizes,
        ring_planes,
        corners,
    })
}

/// The document of an overlap: the global attributes `faces_a`, `faces_b` and `pieces`, and, where
/// there is a piece, the dimensions `num_pieces`, `num_corners` and `num_dim`, and the variables
/// `source`, `target`, `ring_size`, `ring_plane` and `corner`; `ring_size` and `ring_plane` are BYTE,
/// all others INT. The whole form is our own. Its only error is want of memory.
pub fn overlap_doc(alloc: Global, overlap: &Overlap) -> Result<NcDoc, NoMemory>
    ensures document { IfOk result (λ doc. doc ≡ overlap_document overlap.now) }

    // It is a document that can be written, and its file has this length.
    ensures well_formed { IfOk result IsWellFormed }
    ensures file_length { IfOk result
        (λ doc. length (file_of doc)
        ≡ overlap_file_len (length overlap.now.pieces) (corner_count_of overlap.now.pieces)) }

    // The overlap is read again from it.
    ensures read_again { IfOk result
        (λ doc. (f : NcFile) → IsHeader (file_of doc) (length (file_of doc)) f
        → overlap_in f (file_of doc) ≡ Ok overlap.now) }
{
    let columns = columns_of(alloc, overlap)?;
    let doc = document_of(alloc, overlap.faces_a, overlap.faces_b, columns)?;
    Ok(doc)
}
