// How many targets are masked.
ghost use Rattle.std.specs.Prelude.{◌≡◌, pos, if◌then◌else◌};
ghost use Rattle.std.specs.Ordering.{int_eq};
ghost use Rattle.field_mask.specs.Masked.{masked_count_of};

use crate::MaskedField;

// 1 where the part is 0, and else 0.
fn one_if_none(part: i64) -> u64
    ensures { result ≡ (if int_eq part (pos 0) then 1 else 0) }
{
    if part == 0 { 1 } else { 0 }
}

/// How many parts are 0, over all targets of all slices.
pub fn masked_count(field: &MaskedField) -> u64
    ensures { result ≡ masked_count_of field.now.part }
{
    let mut count = 0u64;
    for part in &field.part.items {
        count += one_if_none(*part);
    }
    count
}
