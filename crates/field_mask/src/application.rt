// What a map makes of a field in which values may be absent.
ghost use Rattle.std.specs.Prelude.{◌≡◌, ◌+◌, ◌*◌, ◌<◌, ◌≤◌, [], IfOk, IfErr, OnOk, length, slice_index_or};
ghost use Rattle.map_rows.specs.Targets.{groups_of};
ghost use Rattle.field_mask.specs.Masked.{masked_application_of, masked_whole, masked_rest, masked_part, masked_field_of, present_mass_of, part_mass_of};
ghost use Rattle.map_rows.specs.Places.{IsPut};
ghost use Rattle.field_mask.specs.Present.{masked_number};
ghost use Rattle.field_mask.specs.Laws.{IsMaskedFieldOf, KeepsPresentConstants, KeepsPresentBounds, IsPlainWithoutAbsent, IsMaskFaultOf};

use crate::shares::{present_share, present_sums};
use crate::{MaskFault, MaskedField};
use map_rows::{Block, Map, MapRow, TargetRows, block_from, divisor_of, rows_by_target};
use std::alloc::Global;
use vec_exact::{Ints, Longs};

// The columns of a field, while it is made.
#[derive(Drop)]
struct Columns {
    whole: Vec<i32>,
    rest: Vec<i64>,
    part: Vec<i64>,
}

// Puts what the target at place `j` gets in the slices of a block.
fn put_target(
    map: &Map,
    rows: &[MapRow],
    j: usize,
    block: Block,
    values: &[i32],
    fill: Option<i32>,
    columns: &mut Columns,
)
    requires target { j < map.now.n_b }
    requires rows { rows.now ≡ slice_index_or (groups_of map.now.n_b map.now.rows) j [] }
    requires order { block.from ≤ block.to }
    requires values { block.to * map.now.n_a ≤ length values.now }
    requires whole { block.to * map.now.n_b ≤ length columns.old.whole.items }
    requires rest { block.to * map.now.n_b ≤ length columns.old.rest.items }
    requires part { block.to * map.now.n_b ≤ length columns.old.part.items }
    ensures whole { IsPut map.now.n_b (masked_number masked_whole map.now fill values.now)
        block.from block.to j (j + 1) columns.old.whole.items columns.new.whole.items }
    ensures rest { IsPut map.now.n_b (masked_number masked_rest map.now fill values.now)
        block.from block.to j (j + 1) columns.old.rest.items columns.new.rest.items }
    ensures part { IsPut map.now.n_b (masked_number masked_part map.now fill values.now)
        block.from block.to j (j + 1) columns.old.part.items columns.new.part.items }
{
    let areas: &[i64] = &map.area_b.items;
    let divisor = divisor_of(areas[j]);
    for slice in block.from..block.to {
        let present = present_sums(rows, slice as usize * map.n_a as usize, values, fill);
        let share = present_share(present, divisor, fill);
        let place = slice as usize * map.n_b as usize + j;
        columns.whole[place] = share.whole;
        columns.rest[place] = share.rest;
        columns.part[place] = share.part;
    }
}

// Puts what each target gets in the slices of a block.
fn put_block(
    map: &Map,
    by_target: &TargetRows,
    block: Block,
    values: &[i32],
    fill: Option<i32>,
    columns: &mut Columns,
)
    requires rows { by_target.now ≡ groups_of map.now.n_b map.now.rows }
    requires order { block.from ≤ block.to }
    requires values { block.to * map.now.n_a ≤ length values.now }
    requires whole { block.to * map.now.n_b ≤ length columns.old.whole.items }
    requires rest { block.to * map.now.n_b ≤ length columns.old.rest.items }
    requires part { block.to * map.now.n_b ≤ length columns.old.part.items }
    ensures whole { IsPut map.now.n_b (masked_number masked_whole map.now fill values.now)
        block.from block.to 0 map.now.n_b columns.old.whole.items columns.new.whole.items }
    ensures rest { IsPut map.now.n_b (masked_number masked_rest map.now fill values.now)
        block.from block.to 0 map.now.n_b columns.old.rest.items columns.new.rest.items }
    ensures part { IsPut map.now.n_b (masked_number masked_part map.now fill values.now)
        block.from block.to 0 map.now.n_b columns.old.part.items columns.new.part.items }
{
    for j in 0..map.n_b {
        let rows = by_target.of(j + 1);
        put_target(map, rows, j as usize, block, values, fill, columns);
    }
}

// Puts what each target gets in each of so many slices.
fn put_slices(
    map: &Map,
    by_target: &TargetRows,
    slices: u32,
    values: &[i32],
    fill: Option<i32>,
    columns: &mut Columns,
)
    requires rows { by_target.now ≡ groups_of map.now.n_b map.now.rows }
    requires values { slices * map.now.n_a ≤ length values.now }
    requires whole { slices * map.now.n_b ≤ length columns.old.whole.items }
    requires rest { slices * map.now.n_b ≤ length columns.old.rest.items }
    requires part { slices * map.now.n_b ≤ length columns.old.part.items }
    ensures whole { IsPut map.now.n_b (masked_number masked_whole map.now fill values.now)
        0 slices 0 map.now.n_b columns.old.whole.items columns.new.whole.items }
    ensures rest { IsPut map.now.n_b (masked_number masked_rest map.now fill values.now)
        0 slices 0 map.now.n_b columns.old.rest.items columns.new.rest.items }
    ensures part { IsPut map.now.n_b (masked_number masked_part map.now fill values.now)
        0 slices 0 map.now.n_b columns.old.part.items columns.new.part.items }
{
    let mut from = 0;
    while from < slices {
        let block = block_from(from, slices);
        put_block(map, by_target, block, values, fill, columns);
        from = block.to;
    }
}

/// The field over the targets of `map`, of so many slices, that it makes of `values`, which are
/// slice by slice and in each by source face. A value that equals `fill` is absent; without a fill
/// value none is. For each target the sum of measure times value over its rows with a present
/// source is divided by the sum of their measures, which is its part: the floor is the whole part,
/// and what it leaves is the rest. Where the part is 0, the whole part is the fill value and the
/// rest is 0. Source: our own.
///
/// `Length` comes exactly where there is not a value for each source face of each slice, and
/// `NoMemory` only where there is. Beside the field it takes memory for a copy of the rows.
pub fn apply_masked(
    alloc: Global,
    map: &Map,
    slices: u32,
    values: &[i32],
    fill: Option<i32>,
) -> Result<MaskedField, MaskFault>
    ensures field { IfOk result (λ field.
        field ≡ masked_field_of (masked_application_of map.now slices fill values.now)) }
    ensures counts { OnOk result (length values.now ≡ slices * map.now.n_a) }
    ensures masses { IfOk result (λ field. part_mass_of map.now slices field
        ≡ present_mass_of map.now slices fill values.now) }
    // where all present sources of a target hold one number, so does the target, with rest 0
    ensures constants { IfOk result (λ field.
        KeepsPresentConstants map.now slices fill values.now field) }
    // what a target gets is between the numbers of its present sources
    ensures bounds { IfOk result (λ field.
        KeepsPresentBounds map.now slices fill values.now field) }
    ensures parts { IfOk result (λ field. IsMaskedFieldOf map.now slices field) }
    // where no value is absent, the field is the plain one
    ensures plain { IfOk result (λ field.
        IsPlainWithoutAbsent map.now slices fill values.now field) }
    ensures fault { IfErr result (IsMaskFaultOf map.now slices values.now) }
{
    if values.len() as u64 != u64::from(slices) * u64::from(map.n_a) {
        return Err(MaskFault::Length {
            map: map.n_a,
            field: values.len() as u64,
        });
    }
    let by_target = rows_by_target(alloc, map)?;
    let count = slices as usize * map.n_b as usize;
    let mut columns = Columns {
        whole: vec![in alloc; 0i32; count]?,
        rest: vec![in alloc; 0i64; count]?,
        part: vec![in alloc; 0i64; count]?,
    };
    put_slices(map, &by_target, slices, values, fill, &mut columns);
    Ok(MaskedField {
        whole: Ints {
            items: columns.whole,
        },
        rest: Longs {
            items: columns.rest,
        },
        part: Longs {
            items: columns.part,
        },
    })
}
