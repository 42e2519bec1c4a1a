// What the rows of a target carry over.
ghost use Rattle.std.specs.Prelude.{◌≡◌, ◌≤◌, pos, negsuc, ◌*ℤ◌, ◌≤ℤ◌, All, length, map};
ghost use Rattle.map_rows.specs.Maps.{total, measure_of, HasMeasure};
ghost use Rattle.apply_map.specs.Values.{HasValue, carried};

use map_rows::{MapRow, product};

// The sum of measure times value over rows. The values of the slice begin at place `first`.
pub fn weighted_sum(rows: &[MapRow], first: usize, values: &[i32]) -> i128
    requires count { length rows.now ≤ 8388608 }
    requires measures { All HasMeasure rows.now }
    requires values { All (HasValue values.now first) rows.now }
    ensures value { result ≡ total (map (carried values.now first) rows.now) }
    ensures least { (total (map measure_of rows.now) *ℤ negsuc 2147483647) ≤ℤ result }
    ensures greatest { result ≤ℤ (total (map measure_of rows.now) *ℤ pos 2147483647) }
{
    let mut sum = 0i128;
    for row in rows {
        sum += product(row.s, values[first + (row.col as usize - 1)]);
    }
    sum
}
