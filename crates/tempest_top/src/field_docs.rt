// The documents and the texts of fields.
ghost use Rattle.std.specs.Prelude.{◌≡◌, ◌*◌, length, string_bytes, IfOk, MatchOption};
ghost use Rattle.field_mask.specs.Laws.{IsMaskedFieldOf};
ghost use Rattle.field_mask.specs.Masked.{present_mass_of, part_mass_of, masked_count_of};
ghost use Rattle.nc_write.specs.Form.{IsWellFormed, HasShortLists};
ghost use Rattle.nc_write.specs.Made.{made_doc};
ghost use Rattle.tempest_top.specs.Fields.{LiesOver, IsFilledAt, HasNoFill, source_text, masses_text, field_text, masked_field_text, plain_numbers, plain_document, plain_text, masked_of, masked_document, masked_text};

use apply_map::{fill_at, source_mass};
use data_load::DataVar;
use field_files::{FieldVar, field_frame_doc, masked_field_doc};
use field_mask::{MaskFault, MaskedField, apply_masked, masked_count, part_mass, present_mass};
use map_rows::Map;
use nc_write::NcDoc;
use std::alloc::Global;
use vec_exact::NoMemory;

/// The place, from 1, of the first value that is the fill value.
pub fn first_fill(found: &DataVar) -> Option<u64>
    ensures { MatchOption result (HasNoFill found.now) (λ place. IsFilledAt found.now place) }
{
    match found.fill {
        Some(fill) => fill_at(&found.values.items, fill),
        None => None,
    }
}

fn source_text(alloc: Global, slices: u32, mass: i128) -> Result<String, NoMemory>
    ensures { IfOk result (λ text. string_bytes text ≡ source_text slices mass) }
{
    let text = format!(in alloc; "slices {slices} source_mass {mass}")?;
    Ok(text)
}

fn masses_text(alloc: Global, slices: u32, source: i128, target: i128) -> Result<String, NoMemory>
    ensures { IfOk result (λ text. string_bytes text ≡ masses_text slices source target) }
{
    let front = source_text(alloc, slices, source)?;
    let text = format!(in alloc; "{front} target_mass {target}")?;
    Ok(text)
}

// The text of a field, whose mass is the same on both sides.
fn field_text(alloc: Global, slices: u32, mass: i128) -> Result<String, NoMemory>
    ensures { IfOk result (λ text. string_bytes text ≡ field_text slices mass mass) }
{
    let masses = masses_text(alloc, slices, mass, mass)?;
    let text = format!(in alloc; "{masses}\n")?;
    Ok(text)
}

/// The document and the text of the field that a map makes of a variable. The document has no
/// numbers: it stands for that with those of the field, which are made while it is written.
pub fn plain_field(
    alloc: Global,
    map: &Map,
    found: &DataVar,
    field: FieldVar,
) -> Result<(NcDoc, String), NoMemory>
    requires { LiesOver map.now found.now field }
    ensures document { IfOk result (λ p.
        made_doc (plain_numbers map.now found.now field) p.0
        ≡ plain_document map.now found.now field) }
    ensures well_formed { IfOk result (λ p.
        IsWellFormed (made_doc (plain_numbers map.now found.now field) p.0)) }
    ensures short { IfOk result (λ p. HasShortLists p.0) }
    ensures text { IfOk result (λ p. string_bytes p.1 ≡ plain_text map.now found.now field) }
{
    let mass = source_mass(map, field.slices, &found.values.items);
    let text = field_text(alloc, field.slices, mass)?;
    let doc = field_frame_doc(alloc, &found.file, field, map.n_b)?;
    Ok((doc, text))
}

// The text of a masked field.
fn masked_line(
    alloc: Global,
    map: &Map,
    slices: u32,
    found: &DataVar,
    field: &MaskedField,
) -> Result<String, NoMemory>
    requires counts { length found.now.values ≡ slices * map.now.n_a }
    requires field { IsMaskedFieldOf map.now slices field.now }
    ensures { IfOk result (λ text. string_bytes text ≡ masked_field_text slices
        (present_mass_of map.now slices found.now.fill found.now.values)
        (part_mass_of map.now slices field.now) (masked_count_of field.now.part)) }
{
    let source = present_mass(map, slices, &found.values.items, found.fill);
    let target = part_mass(map, slices, field);
    let masses = masses_text(alloc, slices, source, target)?;
    let masked = masked_count(field);
    let text = format!(in alloc; "{masses} masked {masked}\n")?;
    Ok(text)
}

// The field that a map makes of a variable in which values may be absent.
fn applied_masked(
    alloc: Global,
    map: &Map,
    found: &DataVar,
    field: FieldVar,
) -> Result<MaskedField, NoMemory>
    requires { LiesOver map.now found.now field }
    ensures shares { IfOk result (λ made. made ≡ masked_of map.now found.now field) }
    ensures sound { IfOk result (IsMaskedFieldOf map.now field.slices) }
{
    match apply_masked(alloc, map, field.slices, &found.values.items, found.fill) {
        Ok(made) => Ok(made),
        Err(MaskFault::NoMemory) => Err(NoMemory),
        Err(MaskFault::Length { .. }) => unreachable!(),
    }
}

// The document of a masked field, which takes over its numbers.
fn masked_doc(
    alloc: Global,
    map: &Map,
    found: &DataVar,
    field: FieldVar,
    made: MaskedField,
) -> Result<NcDoc, NoMemory>
    requires over { LiesOver map.now found.now field }
    requires made { made ≡ masked_of map.now found.now field }
    requires sound { IsMaskedFieldOf map.now field.slices made }
    ensures document { IfOk result (λ doc. doc ≡ masked_document map.now found.now field) }
    ensures well_formed { IfOk result IsWellFormed }
{
    let MaskedField { whole, rest, part } = made;
    masked_field_doc(
        alloc,
        &found.file,
        field,
        map.n_b,
        found.fill,
        whole,
        rest,
        part,
    )
}

/// The document and the text of the masked field that a map makes of a variable.
pub fn masked_field(
    alloc: Global,
    map: &Map,
    found: &DataVar,
    field: FieldVar,
) -> Result<(NcDoc, String), NoMemory>
    requires { LiesOver map.now found.now field }
    ensures document { IfOk result (λ p. p.0 ≡ masked_document map.now found.now field) }
    ensures well_formed { IfOk result (λ p. IsWellFormed p.0) }
    ensures text { IfOk result (λ p.
        string_bytes p.1 ≡ masked_text map.now found.now field) }
{
    let made = applied_masked(alloc, map, found, field)?;
    let text = masked_line(alloc, map, field.slices, found, &made)?;
    let doc = masked_doc(alloc, map, found, field, made)?;
    Ok((doc, text))
}
