// Worked fields over a map of two rows.
use crate::compare::{same, same_list};
use crate::small_map::two_rows;
use apply_map::{ApplyFault, apply, fill_at, source_mass, target_mass};
use std::test::Fail;

#[test]
fn worked_fields(rt: HostRuntime) -> Result<(), Fail> {
    let map = two_rows(rt.alloc())?;
    let rows: [(u32, &[i32], &[i32], &[i64], i128); 5] = [
        (1, &[-1, 1], &[0], &[1], 1),
        (1, &[-5, 1], &[-1], &[0], -3),
        (1, &[-5, 0], &[-2], &[1], -5),
        (3, &[-1, 1, -5, 1, -5, 0], &[0, -1, -2], &[1, 0, 1], -7),
        (0, &[], &[], &[], 0),
    ];
    for (slices, values, whole, rest, mass) in rows {
        let Ok(field) = apply(rt.alloc(), &map, slices, values) else {
            return Err("a field was expected".into());
        };
        same_list(&rt, field.whole.items.as_slice(), whole);
        same_list(&rt, field.rest.items.as_slice(), rest);
        same(&rt, &source_mass(&map, slices, values), &mass);
        same(&rt, &target_mass(&map, slices, &field), &mass);
    }
    Ok(())
}

#[test]
fn other_answers(rt: HostRuntime) -> Result<(), Fail> {
    let map = two_rows(rt.alloc())?;
    let fault = apply(rt.alloc(), &map, 1, &[-5, 0, 1]).err();
    same(&rt, &fault, &Some(ApplyFault::Length { map: 2, field: 3 }));
    same(&rt, &fill_at(&[-5, 0], 0), &Some(2));
    same(&rt, &fill_at(&[-5, 0], 1), &None);
    Ok(())
}
