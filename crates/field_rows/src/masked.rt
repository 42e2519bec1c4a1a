// Worked fields with absent values over a map of two rows.
use crate::compare::{same, same_list};
use crate::small_map::two_rows;
use field_mask::{MaskFault, apply_masked, masked_count, part_mass, present_mass};
use std::test::Fail;

#[test]
fn worked_fields(rt: HostRuntime) -> Result<(), Fail> {
    let map = two_rows(rt.alloc())?;
    let rows: [([i32; 2], Option<i32>, (i32, i64, i64), i128, u64); 4] = [
        ([-5, 0], Some(0), (-5, 0, 1), -5, 0),
        ([0, 0], Some(0), (0, 0, 0), 0, 1),
        ([-2, 0], Some(-1), (-1, 1, 3), -2, 0),
        ([-5, 0], None, (-2, 1, 3), -5, 0),
    ];
    for (values, fill, (whole, rest, part), mass, masked) in rows {
        let Ok(field) = apply_masked(rt.alloc(), &map, 1, &values, fill) else {
            return Err("a field was expected".into());
        };
        same_list(&rt, field.whole.items.as_slice(), &[whole]);
        same_list(&rt, field.rest.items.as_slice(), &[rest]);
        same_list(&rt, field.part.items.as_slice(), &[part]);
        same(&rt, &present_mass(&map, 1, &values, fill), &mass);
        same(&rt, &part_mass(&map, 1, &field), &mass);
        same(&rt, &masked_count(&field), &masked);
    }
    Ok(())
}

#[test]
fn wrong_length(rt: HostRuntime) -> Result<(), Fail> {
    let map = two_rows(rt.alloc())?;
    let fault = apply_masked(rt.alloc(), &map, 1, &[-5, 0, 1], None).err();
    same(&rt, &fault, &Some(MaskFault::Length { map: 2, field: 3 }));
    Ok(())
}
