// What a map makes of a field.
ghost use Rattle.std.specs.Prelude.{◌≡◌, ◌*◌, IfOk, IfErr, OnOk, length};
ghost use Rattle.map_rows.specs.Application.{application_of, source_mass_of, target_mass_of};
ghost use Rattle.map_rows.specs.Laws.{KeepsConstants, KeepsBounds, IsFieldOf};
ghost use Rattle.apply_map.specs.Fields.{field_of, IsApplyFaultOf};

use crate::numbers::{put_rests, put_wholes};
use crate::{ApplyFault, Field, targets_of};
use map_rows::Map;
use std::alloc::Global;
use vec_exact::{Ints, Longs};

/// The field over the targets of `map`, of so many slices, that it makes of `values`, which are
/// slice by slice and in each by source face. For each target the sum of measure times value over
/// its rows is divided by its area: the floor is the whole part, and what it leaves is the rest.
/// Source: Ullrich and Taylor (2015) for the map; the form as whole part and rest is our own.
///
/// `Length` comes exactly where there is not a value for each source face of each slice, and
/// `NoMemory` only where there is. Beside the field it takes memory for a copy of the rows.
pub fn apply(alloc: Global, map: &Map, slices: u32, values: &[i32]) -> Result<Field, ApplyFault>
    ensures field { IfOk result (λ field.
        field ≡ field_of (application_of map.now slices values.now)) }
    ensures counts { OnOk result (length values.now ≡ slices * map.now.n_a) }
    ensures masses { IfOk result (λ field. target_mass_of map.now slices field.whole field.rest
        ≡ source_mass_of map.now slices values.now) }
    // where all sources of a target hold one number, so does the target, with rest 0
    ensures constants { IfOk result (λ field. KeepsConstants map.now slices values.now
        field.whole field.rest) }
    // what a target gets is between the numbers of its sources
    ensures bounds { IfOk result (λ field. KeepsBounds map.now slices values.now
        field.whole field.rest) }
    ensures rests { IfOk result (λ field. IsFieldOf map.now slices field.whole field.rest) }
    ensures fault { IfErr result (IsApplyFaultOf map.now slices values.now) }
{
    if values.len() as u64 != u64::from(slices) * u64::from(map.n_a) {
        return Err(ApplyFault::Length {
            map: map.n_a,
            field: values.len() as u64,
        });
    }
    let targets = targets_of(alloc, map)?;
    let count = slices as usize * map.n_b as usize;
    let mut whole = vec![in alloc; 0i32; count]?;
    put_wholes(&targets, slices, values, 0, &mut whole);
    let mut rest = vec![in alloc; 0i64; count]?;
    put_rests(&targets, slices, values, 0, &mut rest);
    Ok(Field {
        whole: Ints { items: whole },
        rest: Longs { items: rest },
    })
}
