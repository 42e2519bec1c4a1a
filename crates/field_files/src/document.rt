// The document of a remapped field.
ghost use Rattle.std.specs.Prelude.{◌≡◌, ◌≤◌, ◌<◌, ◌*◌, ◌++◌, ◌^◌, ℕ, ℤ, List, [], ◌∷◌, All, IfOk, length, codes, slice_get};
ghost use Rattle.std.specs.Option.{option_map};
ghost use Rattle.nc_write.specs.Form.{IsWellFormed, HasShortLists};
ghost use Rattle.nc_write.specs.Made.{made_doc, of_lists};
ghost use Rattle.nc_write.specs.declared.Values.TheVariants.{Long};
ghost use Rattle.field_files.specs.FileHeader.{IsFileHeader};
ghost use Rattle.field_files.specs.FieldShapes.{Fits};
ghost use Rattle.field_files.specs.FieldDocument.{field_name, variable_of, whole_and_rest, fill_atts, document_over, field_document, masked_field_document};
ghost use Rattle.field_files.specs.Frames.{IsFrameOf};

use crate::FieldVar;
use crate::finding::var_at;
use crate::frame::{Frame, make_frame};
use exodus_mesh::make_name;
use nc_format::NcFile;
use nc_write::{DimIds, DocAtt, DocAtts, DocVar, DocVars, Name, NcDoc, Values};
use std::alloc::{AllocError, Global};
use vec_exact::{Ints, Longs, NoMemory};

// The name of the field with an ending.
fn make_field_name(
    alloc: Global,
    file: &NcFile,
    field: FieldVar,
    ending: &str,
) -> Result<Name, AllocError>
    ensures { IfOk result (λ name. name ≡ field_name file.now field ++ ending.now) }
{
    let mut items = Vec::new(alloc);
    if let Some(var) = var_at(file, field.var) {
        items.extend_from_slice(&var.name.items)?;
    }
    items.extend_from_slice(ending.as_bytes())?;
    Ok(Name { items })
}

// A variable over the dimensions of a field file, which takes over its values.
fn make_variable(
    alloc: Global,
    file: &NcFile,
    field: FieldVar,
    frame: &Frame,
    ending: &str,
    values: Values,
) -> Result<DocVar, AllocError>
    requires { (n_b : ℕ) × IsFrameOf file.now field n_b frame.now }
    ensures { IfOk result (λ var. var ≡ variable_of file.now field ending.now values) }
{
    Ok(DocVar {
        name: make_field_name(alloc, file, field, ending)?,
        dims: DimIds {
            items: Vec::from_slice(alloc, &frame.ids.items)?,
        },
        values,
    })
}

// The variables of whole parts and of rests.
fn make_whole_and_rest(
    alloc: Global,
    file: &NcFile,
    field: FieldVar,
    frame: &Frame,
    whole: Ints,
    rest: Longs,
) -> Result<Vec<DocVar>, AllocError>
    requires { (n_b : ℕ) × IsFrameOf file.now field n_b frame.now }
    ensures { IfOk result (λ vars. vars.items ≡ whole_and_rest file.now field whole rest) }
{
    let mut vars = Vec::with_capacity(alloc, 3)?;
    vars.push(make_variable(alloc, file, field, frame, "", Values::Int(whole))?)?;
    vars.push(make_variable(alloc, file, field, frame, "_rest", Values::Long(rest))?)?;
    Ok(vars)
}

// The attribute of the fill value, where there is one.
fn make_fill_atts(alloc: Global, fill: Option<i32>) -> Result<Vec<DocAtt>, AllocError>
    ensures { IfOk result (λ atts. atts.items ≡ fill_atts fill) }
{
    let mut atts = Vec::new(alloc);
    if let Some(value) = fill {
        let name = make_name(alloc, "fill_value")?;
        atts.push(DocAtt { name, value })?;
    }
    Ok(atts)
}

// A document over the dimensions of a field file.
fn document_over(frame: Frame, atts: Vec<DocAtt>, vars: Vec<DocVar>) -> NcDoc
    ensures { result ≡ record {
      records = frame.records;
      dims = frame.dims;
      atts = atts.items;
      vars = vars.items;
    } }
{
    NcDoc {
        records: frame.records,
        dims: frame.dims,
        atts: DocAtts { items: atts },
        vars: DocVars { items: vars },
    }
}

#[tactic(auto, unfolding(crate::specs::FieldDocument::field_document))]
fn make_document(
    alloc: Global,
    file: &NcFile,
    field: FieldVar,
    n_b: u32,
    whole: Ints,
    rest: Longs,
) -> Result<NcDoc, AllocError>
    requires header { IsFileHeader file.now }
    requires field { (n_a : ℕ) × Fits file.now n_a field }
    ensures { IfOk result (λ doc. doc ≡ field_document file.now field n_b whole rest) }
{
    let frame = make_frame(alloc, file, field, n_b)?;
    let vars = make_whole_and_rest(alloc, file, field, &frame, whole, rest)?;
    Ok(document_over(frame, Vec::new(alloc), vars))
}

#[tactic(auto, unfolding(crate::specs::FieldDocument::masked_field_document))]
fn make_masked_document(
    alloc: Global,
    file: &NcFile,
    field: FieldVar,
    n_b: u32,
    fill: Option<i32>,
    whole: Ints,
    rest: Longs,
    part: Longs,
) -> Result<NcDoc, AllocError>
    requires header { IsFileHeader file.now }
    requires field { (n_a : ℕ) × Fits file.now n_a field }
    ensures { IfOk result
        (λ doc. doc ≡ masked_field_document file.now field n_b fill whole rest part) }
{
    let frame = make_frame(alloc, file, field, n_b)?;
    let mut vars = make_whole_and_rest(alloc, file, field, &frame, whole, rest)?;
    let parts = make_variable(alloc, file, field, &frame, "_part", Values::Long(part))?;
    vars.push(parts)?;
    let atts = make_fill_atts(alloc, fill)?;
    Ok(document_over(frame, atts, vars))
}

/// The document of a field over `n_b` targets, which takes over its numbers: the whole parts and the
/// rests, slice by slice.
///
/// Its dimensions are the leading dimensions of the variable that the field was made of, in order,
/// each once, and then `n_b`. The record dimension stays the record dimension, with as many records.
/// Its variables are that of the whole parts, INT, by the name of that variable, and that of the
/// rests, INT64, by the same name with `_rest` behind it. There is no global attribute. The whole
/// form is our own. Its only error is want of memory.
pub fn field_doc(
    alloc: Global,
    file: &NcFile,
    field: FieldVar,
    n_b: u32,
    whole: Ints,
    rest: Longs,
) -> Result<NcDoc, NoMemory>
    requires header { IsFileHeader file.now }
    requires field { (n_a : ℕ) × Fits file.now n_a field }
    requires some_target { 1 ≤ n_b }
    requires few_targets { n_b ≤ 1048576 }
    requires whole { length whole ≡ field.slices * n_b }
    requires rest { length rest ≡ field.slices * n_b }
    ensures document { IfOk result (λ doc. doc ≡ field_document file.now field n_b whole rest) }
    // It is a document that can be written.
    ensures well_formed { IfOk result IsWellFormed }
{
    let doc = make_document(alloc, file, field, n_b, whole, rest)?;
    Ok(doc)
}

/// The same with empty lists, for a file whose numbers are made while it is written (`write_made` of
/// `nc_write`): it stands for the document of the field with any whole parts and rests.
pub fn field_frame_doc(
    alloc: Global,
    file: &NcFile,
    field: FieldVar,
    n_b: u32,
) -> Result<NcDoc, NoMemory>
    requires header { IsFileHeader file.now }
    requires field { (n_a : ℕ) × Fits file.now n_a field }
    requires some_target { 1 ≤ n_b }
    requires few_targets { n_b ≤ 1048576 }
    ensures document { IfOk result (λ doc. (whole rest : List ℤ)
        → made_doc (of_lists whole rest) doc ≡ field_document file.now field n_b whole rest) }
    // With as many of both as the dimensions say it is a document that can be written.
    ensures well_formed { IfOk result (λ doc. (whole rest : List ℤ)
        → length whole ≡ field.slices * n_b → length rest ≡ field.slices * n_b
        → IsWellFormed (made_doc (of_lists whole rest) doc)) }
    ensures short { IfOk result HasShortLists }
{
    let whole = Ints {
        items: Vec::new(alloc),
    };
    let rest = Longs {
        items: Vec::new(alloc),
    };
    let doc = make_document(alloc, file, field, n_b, whole, rest)?;
    Ok(doc)
}

/// The document of a field that was made with a mask: the same with a third variable, INT64, by the
/// same name with `_part` behind it, which takes over the parts, and with the global attribute
/// `fill_value`, INT, where there is a fill value.
pub fn masked_field_doc(
    alloc: Global,
    file: &NcFile,
    field: FieldVar,
    n_b: u32,
    fill: Option<i32>,
    whole: Ints,
    rest: Longs,
    part: Longs,
) -> Result<NcDoc, NoMemory>
    requires header { IsFileHeader file.now }
    requires field { (n_a : ℕ) × Fits file.now n_a field }
    requires some_target { 1 ≤ n_b }
    requires few_targets { n_b ≤ 1048576 }
    requires whole { length whole ≡ field.slices * n_b }
    requires rest { length rest ≡ field.slices * n_b }
    requires part { length part ≡ field.slices * n_b }
    ensures document { IfOk result
        (λ doc. doc ≡ masked_field_document file.now field n_b fill whole rest part) }
    // It is a document that can be written.
    ensures well_formed { IfOk result IsWellFormed }
{
    let doc = make_masked_document(alloc, file, field, n_b, fill, whole, rest, part)?;
    Ok(doc)
}
