// A map made ready for many slices.
ghost use Rattle.std.specs.Prelude.{◌≡◌, ◌+◌, ◌*◌, ◌<◌, ◌≤◌, pos, ◌≤ℤ◌, All, IfOk, length, map};
ghost use Rattle.map_rows.specs.Maps.{total, measure_of, HasMeasure};
ghost use Rattle.map_rows.specs.Application.{divided, application_of, wholes_of, rests_of};
ghost use Rattle.apply_map.specs.Parts.{IsTargetPut};
ghost use Rattle.apply_map.specs.Ready.{areas_of};
ghost use Rattle.apply_map.specs.Values.{HasValue, carried};

use crate::numbers::first_slice;
use crate::sums::weighted_sum;
use map_rows::{Divisor, Map, MapRow, Share, TargetRows, divisor_of, rows_by_target, share_by};
use std::alloc::{AllocError, Global};
use std::marker::Model;

/// A map made ready for many slices: its rows by target, and the area of each target as a divisor.
#[derive(Drop)]
pub struct Targets<'a> {
    map: &'a Map,
    rows: TargetRows,
    // To make a divisor takes a division of 64 bits, so none is made anew for each slice.
    divisors: Vec<Divisor>,
}

impl<'a> Model for Targets<'a> {
    ghost use Rattle.map_rows.specs.Maps.{MapParts};
    ghost use Rattle.apply_map.specs.Ready.{AreTargetsOf};

    ghost Value = { MapParts };

    ghost view = { λ t. t.map.now };

    ghost invariant = { λ t. AreTargetsOf t.map.now t.rows t.divisors.items };
}

// What the target with these rows and this area gets in the slice whose values begin at `first`.
fn target_share(rows: &[MapRow], divisor: Divisor, first: usize, values: &[i32]) -> Share
    requires count { length rows.now ≤ 8388608 }
    requires measures { All HasMeasure rows.now }
    requires values { All (HasValue values.now first) rows.now }
    requires area { divisor.area ≡ total (map measure_of rows.now) }
    requires covered { pos 1 ≤ℤ divisor.area }
    ensures whole { result.whole
        ≡ (divided (total (map (carried values.now first) rows.now)) divisor.area).whole }
    ensures rest { result.rest
        ≡ (divided (total (map (carried values.now first) rows.now)) divisor.area).rest }
{
    share_by(weighted_sum(rows, first, values), divisor)
}

impl<'a> Targets<'a> {
    /// The map.
    pub fn map(&self) -> &'a Map
        ensures { result.now ≡ self.now }
    {
        self.map
    }

    // Puts the whole parts of what the target at place `j` gets, where they stand in the part of the field
    // that begins at the place `from`. Its rows are read once for all of them.
    pub(crate) fn put_target_wholes(
        &self,
        j: usize,
        slices: u32,
        values: &[i32],
        from: usize,
        into: &mut [i32],
    )
        requires target { j < self.now.n_b }
        requires counts { length values.now ≡ slices * self.now.n_a }
        requires within { from + length into.old ≤ slices * self.now.n_b }
        ensures { IsTargetPut self.now.n_b (wholes_of (application_of self.now slices values.now))
            from j into.old into.new }
    {
        let map = self.map;
        let rows = self.rows.of(j as u32 + 1);
        let divisor = self.divisors[j];
        let count = map.n_b as usize;
        let mut slice = first_slice(from, j, count);
        let mut at = slice * count + j - from;
        while at < into.len() {
            let share = target_share(rows, divisor, slice * map.n_a as usize, values);
            into[at] = share.whole;
            slice += 1;
            at += count;
        }
    }

    // Puts the rests of what the target at place `j` gets, where they stand in the part of the field
    // that begins at the place `from`. Its rows are read once for all of them.
    pub(crate) fn put_target_rests(
        &self,
        j: usize,
        slices: u32,
        values: &[i32],
        from: usize,
        into: &mut [i64],
    )
        requires target { j < self.now.n_b }
        requires counts { length values.now ≡ slices * self.now.n_a }
        requires within { from + length into.old ≤ slices * self.now.n_b }
        ensures { IsTargetPut self.now.n_b (rests_of (application_of self.now slices values.now))
            from j into.old into.new }
    {
        let map = self.map;
        let rows = self.rows.of(j as u32 + 1);
        let divisor = self.divisors[j];
        let count = map.n_b as usize;
        let mut slice = first_slice(from, j, count);
        let mut at = slice * count + j - from;
        while at < into.len() {
            let share = target_share(rows, divisor, slice * map.n_a as usize, values);
            into[at] = share.rest;
            slice += 1;
            at += count;
        }
    }
}

// The areas as divisors.
fn divisors_of(alloc: Global, areas: &[i64]) -> Result<Vec<Divisor>, AllocError>
    requires { All (λ area. pos 1 ≤ℤ area) areas.now }
    ensures { IfOk result (λ divisors. areas_of divisors.items ≡ areas.now) }
{
    let mut divisors = Vec::with_capacity(alloc, areas.len())?;
    for area in areas {
        divisors.push(divisor_of(*area))?;
    }
    Ok(divisors)
}

/// A map made ready for many slices. Beside it, this takes memory for a copy of the rows and 16
/// bytes a target. Its only error is want of memory.
pub fn targets_of<'a>(alloc: Global, map: &'a Map) -> Result<Targets<'a>, AllocError>
    ensures { IfOk result (λ targets. targets ≡ map.now) }
{
    let rows = rows_by_target(alloc, map)?;
    let divisors = divisors_of(alloc, &map.area_b.items)?;
    Ok(Targets {
        map,
        rows,
        divisors,
    })
}
