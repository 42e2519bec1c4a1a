// How long the parts of the header are. Sums stop as those of `extents` do.
ghost use Rattle.std.specs.Prelude.{◌≡◌, ◌≤◌, ◌<◌, ◌^◌, length, min, All};
ghost use Rattle.std.specs.List.{flat_map, sum_by};
ghost use Rattle.nc_write.specs.Widths.{width};
ghost use Rattle.nc_write.specs.File.{name_bytes, dimension, attribute, variable, header_len, version_of};
ghost use Rattle.nc_write.specs.Form.{HasShortLists};

use crate::extents::{plus, rounded};
use crate::{DocAtt, DocDim, DocVar, Name, NcDoc};

/// The bytes of numrecs, a count, a length, a dimension id or a vsize.
#[tactic(auto, unfolding(crate::specs::Widths::width))]
fn width(version: u8) -> u64
    ensures width { result ≡ width version }
    ensures small { result ≤ 8 }
{
    if version == 5 { 8 } else { 4 }
}

#[tactic(auto, using(crate::proofs::PartLengths::length_name))]
fn name_len(version: u8, text: &Name) -> u64
    requires { length text.now < 2 ^ 31 }
    ensures len { result ≡ length (name_bytes version text.now) }
    ensures small { result < 2 ^ 32 }
{
    width(version) + rounded(text.items.len() as u64)
}

#[tactic(auto, using(crate::proofs::PartLengths::length_dimension))]
fn dimension_len(version: u8, dim: &DocDim) -> u64
    requires { length dim.now.name < 2 ^ 31 }
    ensures { result ≡ length (dimension version dim.now) }
{
    name_len(version, &dim.name) + width(version)
}

// An attribute has a type, a count and one value behind its name.
#[tactic(auto, using(crate::proofs::PartLengths::length_attribute))]
fn attribute_len(version: u8, att: &DocAtt) -> u64
    requires { length att.now.name < 2 ^ 31 }
    ensures { result ≡ length (attribute version att.now) }
{
    name_len(version, &att.name) + width(version) + 8
}

// A variable has a count, its ids, an absent list, a type, a vsize and a begin behind its name.
#[tactic(auto, using(crate::proofs::PartLengths::length_variable))]
fn variable_len(version: u8, var: &DocVar) -> u64
    requires name { length var.now.name < 2 ^ 31 }
    requires ids { length var.now.dims < 2 ^ 31 }
    ensures { (doc : _) (begin : _) → version ≡ version_of doc
        → result ≡ length (variable doc begin var.now) }
{
    let ids = var.dims.items.len() as u64;
    name_len(version, &var.name) + width(version) * (ids + 3) + 16
}

fn dimensions_len(version: u8, dims: &[DocDim]) -> u64
    requires names { All (λ d. length d.name < 2 ^ 31) dims.now }
    ensures { result ≡ min (length (flat_map (dimension version) dims.now)) (2 ^ 63) }
{
    let mut sum = 0;
    for dim in dims {
        sum = plus(sum, dimension_len(version, dim));
    }
    sum
}

fn attributes_len(version: u8, atts: &[DocAtt]) -> u64
    requires names { All (λ a. length a.name < 2 ^ 31) atts.now }
    ensures { result ≡ min (length (flat_map (attribute version) atts.now)) (2 ^ 63) }
{
    let mut sum = 0;
    for att in atts {
        sum = plus(sum, attribute_len(version, att));
    }
    sum
}

fn variables_len(version: u8, doc: &NcDoc) -> u64
    requires version { version ≡ version_of doc.now }
    requires short { HasShortLists doc.now }
    ensures { result ≡ min (sum_by (λ v. length (variable doc.now 0 v)) doc.now.vars) (2 ^ 63) }
{
    let mut sum = 0;
    for var in &doc.vars.items {
        sum = plus(sum, variable_len(version, var));
    }
    sum
}

/// The bytes of the header: the magic, numrecs, three lists with a tag and a count each.
#[tactic(auto, using(crate::proofs::PartLengths::header_len_is))]
pub fn header_len(version: u8, doc: &NcDoc) -> u64
    requires version { version ≡ version_of doc.now }
    requires short { HasShortLists doc.now }
    ensures { result ≡ min (header_len doc.now) (2 ^ 63) }
{
    let lists = plus(
        plus(
            dimensions_len(version, &doc.dims.items),
            attributes_len(version, &doc.atts.items),
        ),
        variables_len(version, doc),
    );
    plus(16 + 4 * width(version), lists)
}
