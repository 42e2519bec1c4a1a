// How many bytes the data of a document takes.
ghost use Rattle.std.specs.Prelude.{◌≡◌, ◌*◌, ◌+◌, ◌^◌, min};
ghost use Rattle.std.specs.List.{list_any};
ghost use Rattle.nc_write.specs.Extents.{rounded};
ghost use Rattle.nc_write.specs.File.{has_longs, kind_of, version_of, is_record, pads_records, doc_piece_len, fixed_len, record_len, first_len, fixed_total, doc_step};

use crate::extents::{has_records, piece_len, plus, record_share, rounded, times};
use crate::{DocVar, NcDoc, NcKind, Values};

/// The type that values are written in.
pub fn kind_of(values: &Values) -> NcKind
    ensures { result ≡ kind_of values.now }
{
    match values {
        Values::Byte(_) => NcKind::Byte,
        Values::Int(_) => NcKind::Int,
        Values::Long(_) => NcKind::Int64,
    }
}

fn has_longs(var: &DocVar) -> bool
    ensures { result ≡ has_longs var.now }
{
    matches!(&var.values, Values::Long(_))
}

fn any_longs(vars: &[DocVar]) -> bool
    ensures { result ≡ list_any has_longs vars.now }
{
    vars.iter().any(|var| has_longs(var))
}

/// Version 5 where a variable is Long, else version 2.
#[tactic(auto, unfolding(crate::specs::File::version_of))]
pub fn version_of(doc: &NcDoc) -> u8
    ensures { result ≡ version_of doc.now }
{
    if any_longs(&doc.vars.items) { 5 } else { 2 }
}

pub fn is_record_var(doc: &NcDoc, var: &DocVar) -> bool
    ensures { result ≡ is_record doc.now var.now }
{
    has_records(&doc.dims.items, &var.dims.items)
}

/// Whether the records are padded: they are, unless there is exactly one record variable.
#[tactic(auto, unfolding(crate::specs::Extents::has_several))]
pub fn pads_records(doc: &NcDoc) -> bool
    ensures { result ≡ pads_records doc.now }
{
    doc.vars
        .items
        .iter()
        .filter(|var| is_record_var(doc, var))
        .count()
        != 1
}

/// The bytes of a variable's one piece, or of one record, with padding.
pub fn rounded_piece(doc: &NcDoc, var: &DocVar) -> u64
    ensures { result ≡ min (rounded (doc_piece_len doc.now var.now)) (2 ^ 63) }
{
    rounded(piece_len(&doc.dims.items, kind_of(&var.values), &var.dims.items))
}

/// What a variable adds to the data before the records.
pub fn fixed_len(doc: &NcDoc, var: &DocVar) -> u64
    ensures { result ≡ min (fixed_len doc.now var.now) (2 ^ 63) }
{
    if is_record_var(doc, var) {
        0
    } else {
        rounded_piece(doc, var)
    }
}

// What a variable adds to a record.
fn record_len(doc: &NcDoc, several: bool, var: &DocVar) -> u64
    requires { several ≡ pads_records doc.now }
    ensures { result ≡ min (record_len doc.now var.now) (2 ^ 63) }
{
    record_share(
        &doc.dims.items,
        several,
        kind_of(&var.values),
        &var.dims.items,
    )
}

/// What a variable adds to the first record, which there is only with records.
pub fn first_len(doc: &NcDoc, several: bool, var: &DocVar) -> u64
    requires { several ≡ pads_records doc.now }
    ensures { result ≡ min (first_len doc.now var.now) (2 ^ 63) }
{
    if doc.records == 0 {
        0
    } else {
        record_len(doc, several, var)
    }
}

pub fn fixed_total(doc: &NcDoc) -> u64
    ensures { result ≡ min (fixed_total doc.now) (2 ^ 63) }
{
    let mut total = 0;
    for var in &doc.vars.items {
        total = plus(total, fixed_len(doc, var));
    }
    total
}

// The bytes from one record to the next.
fn step(doc: &NcDoc) -> u64
    ensures { result ≡ min (doc_step doc.now) (2 ^ 63) }
{
    let several = pads_records(doc);
    let mut step = 0;
    for var in &doc.vars.items {
        step = plus(step, record_len(doc, several, var));
    }
    step
}

/// The bytes of all data.
pub fn data_len(doc: &NcDoc) -> u64
    ensures { result ≡ min (fixed_total doc.now + doc.now.records * doc_step doc.now) (2 ^ 63) }
{
    plus(fixed_total(doc), times(u64::from(doc.records), step(doc)))
}
