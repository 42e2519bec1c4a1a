// The document of an overlap whose pieces stand in columns.
ghost use Rattle.std.specs.Prelude.{◌≡◌, ◌≤◌, ◌*◌, ◌++◌, length, IfOk, OnOk, List, [], ◌∷◌, codes};
ghost use Rattle.nc_write.specs.File.{file_of};
ghost use Rattle.nc_write.specs.Form.{IsWellFormed};
ghost use Rattle.nc_write.specs.declared.Values.TheVariants.{Byte, Int};
ghost use Rattle.exodus_mesh.specs.Columns.{variable_of};
ghost use Rattle.clip.specs.Columns.{AreColumnsOf};
ghost use Rattle.clip.specs.Overlaps.{OverlapParts};
ghost use Rattle.clip.specs.declared.pieces.Piece.{Piece as OnePiece};
ghost use Rattle.remap_files.specs.InColumns.{IsInColumns};
ghost use Rattle.remap_files.specs.OverlapDocument.{corner_count_of, if_some, overlap_dims, overlap_vars, overlap_document};

use crate::document::{bytes, ints, make_attributes, make_dimensions};
use crate::lengths::overlap_length;
use clip::Columns;
use exodus_mesh::put_variable;
use nc_write::{DocAtts, DocDim, DocDims, DocVar, DocVars, NcDoc};
use std::alloc::{AllocError, Global};
use vec_exact::NoMemory;

// How many pieces and how many corners the columns hold.
#[tactic(auto, using(crate::proofs::ColumnCounts::column_counts))]
fn counts(columns: &Columns, faces_a: u32, faces_b: u32) -> (u32, u32)
    requires held { (o : OverlapParts) × IsInColumns o faces_a faces_b columns.now }
    ensures pieces { (o : OverlapParts) → IsInColumns o faces_a faces_b columns.now
        → result.0 ≡ length o.pieces }
    ensures corners { (o : OverlapParts) → IsInColumns o faces_a faces_b columns.now
        → result.1 ≡ corner_count_of o.pieces }
    ensures few { result.0 ≤ 8388608 }
    ensures most { result.1 ≤ 32 * result.0 }
{
    (
        columns.sources.len() as u32,
        columns.ring_planes.len() as u32,
    )
}

// Puts the three variables with a number for each piece. What borrows the list lets nothing go on
// its ways out but what it has not put yet.
fn put_piece_variables(
    alloc: Global,
    vars: &mut Vec<DocVar>,
    sources: Vec<i32>,
    targets: Vec<i32>,
    ring_sizes: Vec<i8>,
) -> Result<(), AllocError>
    ensures { OnOk result (vars.new.items ≡ vars.old.items
        ++ variable_of (codes "source") (0 ∷ []) (Int sources.items)
        ∷ variable_of (codes "target") (0 ∷ []) (Int targets.items)
        ∷ variable_of (codes "ring_size") (0 ∷ []) (Byte ring_sizes.items)
        ∷ []) }
{
    put_variable(alloc, vars, "source", &[0], ints(sources))?;
    put_variable(alloc, vars, "target", &[0], ints(targets))?;
    put_variable(alloc, vars, "ring_size", &[0], bytes(ring_sizes))
}

// Puts the five variables, which take over the columns.
fn put_columns(alloc: Global, vars: &mut Vec<DocVar>, columns: Columns) -> Result<(), AllocError>
    requires { vars.old.items ≡ [] }
    ensures { (pieces : List OnePiece) → AreColumnsOf pieces columns
        → OnOk result (vars.new.items ≡ overlap_vars pieces) }
{
    let Columns {
        sources,
        targets,
        ring_sizes,
        ring_planes,
        corners,
    } = columns;
    put_piece_variables(alloc, vars, sources, targets, ring_sizes)?;
    put_variable(alloc, vars, "ring_plane", &[1], bytes(ring_planes))?;
    put_variable(alloc, vars, "corner", &[1, 2], ints(corners))
}

// The five variables.
fn column_variables(alloc: Global, columns: Columns) -> Result<Vec<DocVar>, AllocError>
    ensures { (pieces : List OnePiece) → AreColumnsOf pieces columns
        → IfOk result (λ vars. vars.items ≡ overlap_vars pieces) }
{
    let mut vars = Vec::new(alloc);
    put_columns(alloc, &mut vars, columns)?;
    Ok(vars)
}

// The dimensions and the variables of columns with these counts; there are none without a piece.
fn lists_of(
    alloc: Global,
    pieces: u32,
    corners: u32,
    columns: Columns,
) -> Result<(Vec<DocDim>, Vec<DocVar>), AllocError>
    ensures dims { (list : List OnePiece) → pieces ≡ length list → corners ≡ corner_count_of list
        → IfOk result (λ p. p.0.items
        ≡ if_some list (overlap_dims (length list) (corner_count_of list))) }
    ensures vars { (list : List OnePiece) → pieces ≡ length list → AreColumnsOf list columns
        → IfOk result (λ p. p.1.items ≡ if_some list (overlap_vars list)) }
{
    if pieces == 0 {
        return Ok((Vec::new(alloc), Vec::new(alloc)));
    }
    let vars = column_variables(alloc, columns)?;
    let dims = make_dimensions(alloc, pieces, corners)?;
    Ok((dims, vars))
}

// The document, with the counts of pieces and of corners at hand.
#[tactic(auto, unfolding(crate::specs::OverlapDocument::overlap_document))]
pub fn document_of(
    alloc: Global,
    faces_a: u32,
    faces_b: u32,
    columns: Columns,
) -> Result<NcDoc, AllocError>
    requires held { (o : OverlapParts) × IsInColumns o faces_a faces_b columns }
    ensures { (o : OverlapParts) → IsInColumns o faces_a faces_b columns
        → IfOk result (λ doc. doc ≡ overlap_document o) }
{
    let (pieces, corners) = counts(&columns, faces_a, faces_b);
    let (dims, vars) = lists_of(alloc, pieces, corners, columns)?;
    let atts = make_attributes(alloc, faces_a, faces_b, pieces)?;
    Ok(NcDoc {
        records: 0,
        dims: DocDims { items: dims },
        atts: DocAtts { items: atts },
        vars: DocVars { items: vars },
    })
}

/// The document of the overlap that stands in these columns, as `overlap_doc` gives it. The columns
/// become its variables. `faces_a` and `faces_b` are the face counts of the two meshes. Its only
/// error is want of memory.
pub fn columns_doc(
    alloc: Global,
    faces_a: u32,
    faces_b: u32,
    columns: Columns,
) -> Result<NcDoc, NoMemory>
    requires held { (o : OverlapParts) × IsInColumns o faces_a faces_b columns }
    ensures document { (o : OverlapParts) → IsInColumns o faces_a faces_b columns
        → IfOk result (λ doc. doc ≡ overlap_document o) }
    ensures well_formed { IfOk result IsWellFormed }
{
    let doc = document_of(alloc, faces_a, faces_b, columns)?;
    Ok(doc)
}

/// The length, in bytes, of the file of the overlap that stands in these columns. It is known before
/// the document is made.
pub fn columns_length(faces_a: u32, faces_b: u32, columns: &Columns) -> u64
    requires held { (o : OverlapParts) × IsInColumns o faces_a faces_b columns.now }
    ensures { (o : OverlapParts) → IsInColumns o faces_a faces_b columns.now
        → result ≡ length (file_of (overlap_document o)) }
{
    let (pieces, corners) = counts(columns, faces_a, faces_b);
    overlap_length(u64::from(pieces), u64::from(corners))
}
