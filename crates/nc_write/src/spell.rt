// The parts of the header, each put behind what is there.
ghost use Rattle.std.specs.Prelude.{◌≡◌, ◌⊎◌, ◌<◌, ◌≤◌, ◌^◌, ◌+◌, ◌++◌, [], length, replicate, min, All, OnOk};
ghost use Rattle.std.specs.List.{flat_map, sum_by};
ghost use Rattle.nc_write.specs.declared.NcKind.TheVariants as kinds;
ghost use Rattle.nc_write.specs.Kinds.{value};
ghost use Rattle.nc_write.specs.Widths.{dimension_tag, variable_tag, attribute_tag, number_bytes, offset, code};
ghost use Rattle.nc_write.specs.Extents.{pad_len};
ghost use Rattle.nc_write.specs.File.{name_bytes, tagged, dimension, attribute, vsize, vsize_limit, shape, variable, variables, version_of, fixed_len, first_len, fixed_total};
ghost use Rattle.nc_write.specs.Form.{HasShortLists};

use crate::kinds::type_number;
use crate::sizes::{
    first_len, fixed_len, fixed_total, is_record_var, kind_of, pads_records, rounded_piece,
};
use crate::tags::{ATTRIBUTES, DIMENSIONS, VARIABLES};
use crate::{DocAtt, DocDim, DocVar, Name, NcDoc, NcKind};
use byteorder::{BigEndian, ByteOrder};
use std::alloc::AllocError;

// The lowest bytes of a number, as many as the version has.
#[tactic(auto, unfolding(crate::specs::Widths::number_bytes, crate::specs::Widths::width))]
pub fn put_number(out: &mut Vec<u8>, version: u8, n: u64) -> Result<(), AllocError>
    ensures { OnOk result (out.new.items ≡ out.old.items ++ number_bytes version n) }
{
    let mut bytes = [0u8; 8];
    BigEndian::write_u64(&mut bytes, n);
    if version == 5 {
        out.extend_from_slice(&bytes)
    } else {
        out.extend_from_slice(&bytes[4..])
    }
}

#[tactic(auto, unfolding(crate::specs::Widths::offset, crate::specs::Widths::begin_width))]
fn put_offset(out: &mut Vec<u8>, version: u8, n: u64) -> Result<(), AllocError>
    requires { (version ≡ 2) ⊎ (version ≡ 5) }
    ensures { OnOk result (out.new.items ≡ out.old.items ++ offset version n) }
{
    let mut bytes = [0u8; 8];
    BigEndian::write_u64(&mut bytes, n);
    out.extend_from_slice(&bytes)
}

#[tactic(auto, unfolding(crate::specs::Widths::code))]
fn put_code(out: &mut Vec<u8>, n: u32) -> Result<(), AllocError>
    ensures { OnOk result (out.new.items ≡ out.old.items ++ code n) }
{
    let mut bytes = [0u8; 4];
    BigEndian::write_u32(&mut bytes, n);
    out.extend_from_slice(&bytes)
}

#[tactic(auto, unfolding(crate::specs::Kinds::value))]
fn put_int(out: &mut Vec<u8>, n: i32) -> Result<(), AllocError>
    ensures { OnOk result (out.new.items ≡ out.old.items ++ value kinds.Int n) }
{
    let mut bytes = [0u8; 4];
    BigEndian::write_i32(&mut bytes, n);
    out.extend_from_slice(&bytes)
}

/// What is missing to a multiple of 4 behind so many bytes.
pub fn put_padding(out: &mut Vec<u8>, len: usize, fill: u8) -> Result<(), AllocError>
    ensures { OnOk result (out.new.items ≡ out.old.items ++ replicate (pad_len len) fill) }
{
    let missing = (4 - len % 4) % 4;
    let have = out.len();
    if usize::MAX - have < missing {
        return Err(AllocError);
    }
    out.resize(have + missing, fill)
}

#[tactic(auto, unfolding(crate::specs::File::name_bytes))]
fn put_name(out: &mut Vec<u8>, version: u8, text: &Name) -> Result<(), AllocError>
    ensures { OnOk result (out.new.items ≡ out.old.items ++ name_bytes version text.now) }
{
    put_number(out, version, text.items.len() as u64)?;
    out.extend_from_slice(&text.items)?;
    put_padding(out, text.items.len(), 0)
}

// The head of a list of so many items.
#[tactic(auto, unfolding(crate::specs::File::tagged))]
fn put_tag(out: &mut Vec<u8>, version: u8, tag: u32, count: usize) -> Result<(), AllocError>
    ensures { (items : _) → (count ≡ 0 → items ≡ [])
        → OnOk result (out.new.items ++ items ≡ out.old.items ++ tagged version tag count items) }
{
    put_code(out, if count == 0 { 0 } else { tag })?;
    put_number(out, version, count as u64)
}

#[tactic(auto, unfolding(crate::specs::File::dimension))]
fn put_dimension(out: &mut Vec<u8>, version: u8, dim: &DocDim) -> Result<(), AllocError>
    ensures { OnOk result (out.new.items ≡ out.old.items ++ dimension version dim.now) }
{
    put_name(out, version, &dim.name)?;
    put_number(out, version, u64::from(dim.len))
}

pub fn put_dimensions(out: &mut Vec<u8>, version: u8, dims: &[DocDim]) -> Result<(), AllocError>
    ensures { OnOk result (out.new.items
        ≡ out.old.items ++ tagged version dimension_tag (length dims.now)
        (flat_map (dimension version) dims.now)) }
{
    put_tag(out, version, DIMENSIONS, dims.len())?;
    for dim in dims {
        put_dimension(out, version, dim)?;
    }
    Ok(())
}

#[tactic(auto, unfolding(crate::specs::File::attribute))]
fn put_attribute(out: &mut Vec<u8>, version: u8, att: &DocAtt) -> Result<(), AllocError>
    ensures { OnOk result (out.new.items ≡ out.old.items ++ attribute version att.now) }
{
    put_name(out, version, &att.name)?;
    put_code(out, type_number(NcKind::Int))?;
    put_number(out, version, 1)?;
    put_int(out, att.value)
}

pub fn put_attributes(out: &mut Vec<u8>, version: u8, atts: &[DocAtt]) -> Result<(), AllocError>
    ensures { OnOk result (out.new.items
        ≡ out.old.items ++ tagged version attribute_tag (length atts.now)
        (flat_map (attribute version) atts.now)) }
{
    put_tag(out, version, ATTRIBUTES, atts.len())?;
    for att in atts {
        put_attribute(out, version, att)?;
    }
    Ok(())
}

fn put_ids(out: &mut Vec<u8>, version: u8, ids: &[u32]) -> Result<(), AllocError>
    ensures { OnOk result (out.new.items
        ≡ out.old.items ++ flat_map (number_bytes version) ids.now) }
{
    for id in ids {
        put_number(out, version, u64::from(*id))?;
    }
    Ok(())
}

// A variable's name and the ids of its dimensions.
#[tactic(auto, unfolding(crate::specs::File::shape))]
fn put_shape(out: &mut Vec<u8>, version: u8, var: &DocVar) -> Result<(), AllocError>
    ensures { OnOk result (out.new.items ≡ out.old.items ++ shape version var.now) }
{
    put_name(out, version, &var.name)?;
    put_number(out, version, var.dims.items.len() as u64)?;
    put_ids(out, version, &var.dims.items)
}

// The greatest multiple of 4 in 32 bits without sign, or in 64 bits with sign.
fn vsize_limit(version: u8) -> u64
    ensures { result ≡ vsize_limit version }
{
    if version == 5 {
        9_223_372_036_854_775_804
    } else {
        4_294_967_292
    }
}

// All bytes are ff where the number exceeds what a vsize holds.
#[tactic(auto, unfolding(crate::specs::File::vsize), using(crate::proofs::Vsizes::all_ones))]
fn put_vsize(out: &mut Vec<u8>, version: u8, len: u64) -> Result<(), AllocError>
    ensures { OnOk result (out.new.items ≡ out.old.items ++ vsize version len) }
{
    if len > vsize_limit(version) {
        put_number(out, version, u64::MAX)
    } else {
        put_number(out, version, len)
    }
}

// What stands behind the name and the ids; the list of attributes is absent.
fn put_variable_tail(
    out: &mut Vec<u8>,
    version: u8,
    kind: u32,
    len: u64,
    begin: u64,
) -> Result<(), AllocError>
    requires { (version ≡ 2) ⊎ (version ≡ 5) }
    ensures { OnOk result (out.new.items
        ≡ out.old.items ++ (tagged version attribute_tag 0 [] ++ code kind ++ vsize version len
        ++ offset version begin)) }
{
    put_tag(out, version, ATTRIBUTES, 0)?;
    put_code(out, kind)?;
    put_vsize(out, version, len)?;
    put_offset(out, version, begin)
}

#[tactic(auto, unfolding(crate::specs::File::variable), using(crate::proofs::Vsizes::vsize_stops, crate::proofs::Vsizes::version_written))]
fn put_variable(
    out: &mut Vec<u8>,
    version: u8,
    doc: &NcDoc,
    begin: u64,
    var: &DocVar,
) -> Result<(), AllocError>
    requires version { version ≡ version_of doc.now }
    ensures { OnOk result (out.new.items ≡ out.old.items ++ variable doc.now begin var.now) }
{
    put_shape(out, version, var)?;
    let kind = type_number(kind_of(&var.values));
    put_variable_tail(out, version, kind, rounded_piece(doc, var), begin)
}

/// The list of variables of a document whose data begins at a place.
pub fn put_variables(
    out: &mut Vec<u8>,
    version: u8,
    doc: &NcDoc,
    begin: u64,
) -> Result<(), AllocError>
    requires version { version ≡ version_of doc.now }
    requires room { begin + fixed_total doc.now + sum_by (first_len doc.now) doc.now.vars < 2 ^ 63 }
    ensures { OnOk result (out.new.items
        ≡ out.old.items ++ tagged version variable_tag (length doc.now.vars)
        (variables doc.now begin (begin + fixed_total doc.now) doc.now.vars)) }
{
    put_tag(out, version, VARIABLES, doc.vars.items.len())?;
    let several = pads_records(doc);
    let mut fixed = begin;
    let mut record_place = begin + fixed_total(doc);
    for var in &doc.vars.items {
        let at = if is_record_var(doc, var) {
            record_place
        } else {
            fixed
        };
        put_variable(out, version, doc, at, var)?;
        fixed += fixed_len(doc, var);
        record_place += first_len(doc, several, var);
    }
    Ok(())
}
