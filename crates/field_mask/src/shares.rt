// What the present rows of a target carry over, and what the target gets.
ghost use Rattle.std.specs.Prelude.{◌≡◌, ◌≤◌, ◌<◌, ◌^◌, pos, negsuc, ◌+ℤ◌, ◌*ℤ◌, ◌≤ℤ◌, ◌<ℤ◌, All, length, map, filter, unsigned_abs, true, false};
ghost use Rattle.map_rows.specs.Maps.{total, measure_of, HasMeasure};
ghost use Rattle.map_rows.specs.Application.{divided};
ghost use Rattle.apply_map.specs.Values.{HasValue, carried};
ghost use Rattle.field_mask.specs.Masked.{is_absent as is_absent_of, fill_or_zero, masked_share};
ghost use Rattle.field_mask.specs.Present.{present_of};

use map_rows::{Divisor, MapRow, Share, product, share_by, share_of};

// The measures of present rows, added up, and the sum of measure times value over them.
#[derive(Clone, Copy)]
pub struct Present {
    pub part: i64,
    pub sum: i128,
}

// What a target gets: a whole part and a rest, of the part that is present.
#[derive(Clone, Copy)]
pub struct PresentShare {
    pub whole: i32,
    pub rest: i64,
    pub part: i64,
}

// Whether the value is absent.
pub fn is_absent(fill: Option<i32>, value: i32) -> bool
    ensures { result ≡ is_absent_of fill value }
{
    match fill {
        Some(fill) => value == fill,
        None => false,
    }
}

// One row more, which counts where its value is present.
fn with_row(present: Present, fill: Option<i32>, measure: i64, value: i32) -> Present
    requires least { pos 0 ≤ℤ (present.part +ℤ measure) }
    requires greatest { (present.part +ℤ measure) <ℤ pos (2 ^ 63) }
    requires sum { unsigned_abs present.sum ≤ 2 ^ 94 }
    ensures absent { is_absent_of fill value ≡ true → result ≡ present }
    ensures part { is_absent_of fill value ≡ false → result.part ≡ present.part +ℤ measure }
    ensures sum { is_absent_of fill value ≡ false → result.sum ≡ present.sum +ℤ (measure *ℤ value) }
{
    if is_absent(fill, value) {
        return present;
    }
    Present {
        part: present.part + measure,
        sum: present.sum + product(measure, value),
    }
}

// What the present ones of these rows come to. The values of the slice begin at place `first`.
pub fn present_sums(rows: &[MapRow], first: usize, values: &[i32], fill: Option<i32>) -> Present
    requires count { length rows.now ≤ 8388608 }
    requires measures { All HasMeasure rows.now }
    requires values { All (HasValue values.now first) rows.now }
    ensures part { result.part
        ≡ total (map measure_of (present_of fill values.now first rows.now)) }
    ensures sum { result.sum
        ≡ total (map (carried values.now first) (present_of fill values.now first rows.now)) }
    ensures nonneg { pos 0 ≤ℤ result.part }
    ensures least { (result.part *ℤ negsuc 2147483647) ≤ℤ result.sum }
    ensures greatest { result.sum ≤ℤ (result.part *ℤ pos 2147483647) }
{
    let mut present = Present { part: 0, sum: 0 };
    for row in rows {
        present = with_row(present, fill, row.s, values[first + (row.col as usize - 1)]);
    }
    present
}

// The share of what is present. Where all of a target is, its divisor serves.
fn part_share(present: Present, divisor: Divisor) -> Share
    requires some { pos 1 ≤ℤ present.part }
    requires least { (present.part *ℤ negsuc 2147483647) ≤ℤ present.sum }
    requires greatest { present.sum ≤ℤ (present.part *ℤ pos 2147483647) }
    ensures whole { result.whole ≡ (divided present.sum present.part).whole }
    ensures rest { result.rest ≡ (divided present.sum present.part).rest }
{
    if present.part == divisor.area {
        return share_by(present.sum, divisor);
    }
    share_of(present.sum, present.part)
}

// What a target gets of what is present, by the divisor of its area.
pub fn present_share(present: Present, divisor: Divisor, fill: Option<i32>) -> PresentShare
    requires nonneg { pos 0 ≤ℤ present.part }
    requires least { (present.part *ℤ negsuc 2147483647) ≤ℤ present.sum }
    requires greatest { present.sum ≤ℤ (present.part *ℤ pos 2147483647) }
    ensures whole { result.whole ≡ (masked_share fill present.sum present.part).whole }
    ensures rest { result.rest ≡ (masked_share fill present.sum present.part).rest }
    ensures part { result.part ≡ (masked_share fill present.sum present.part).part }
{
    if present.part == 0 {
        return PresentShare {
            whole: fill.unwrap_or(0),
            rest: 0,
            part: 0,
        };
    }
    let share = part_share(present, divisor);
    PresentShare {
        whole: share.whole,
        rest: share.rest,
        part: present.part,
    }
}
