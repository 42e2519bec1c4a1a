// Where the values of variables stand. The last byte may stand past every file, so sums stop.
ghost use Rattle.std.specs.Prelude.{◌≡◌, ◌<◌, ◌*◌, ◌^◌, ℕ, length, min, true, not, map, None};
ghost use Rattle.std.specs.List.{sum_by, position};
ghost use Rattle.nc_write.specs.Extents.{share_of, has_several};
ghost use Rattle.nc_format.specs.Placing.{is_record_var, var_piece_len, step_from, placed, is_outside};

use crate::{NcDim, NcVar};
use nc_write::extents::{has_records, piece_len, plus, record_share, times};

fn is_record_var(dims: &[NcDim], var: &NcVar) -> bool
    ensures { result ≡ is_record_var dims.now var.now }
{
    has_records(dims, &var.dims.items)
}

#[tactic(auto, unfolding(nc_write::specs::Extents::has_several))]
fn pads_records(dims: &[NcDim], vars: &[NcVar]) -> bool
    ensures { result ≡ has_several (is_record_var dims.now) vars.now }
{
    vars.iter().filter(|var| is_record_var(dims, var)).count() != 1
}

// The bytes from one record to the next.
fn step(dims: &[NcDim], vars: &[NcVar]) -> u64
    ensures { result ≡ min (step_from dims.now vars.now) (2 ^ 63) }
{
    let several = pads_records(dims, vars);
    let mut step = 0;
    for var in vars {
        let share = record_share(dims, several, var.kind, &var.dims.items);
        step = plus(step, share);
    }
    step
}

// Places a variable; false where its values reach the length.
#[tactic(auto, unfolding(crate::specs::Placing::placed), using(crate::proofs::Stops::end_is))]
fn place(dims: &[NcDim], records: u32, step: u64, len: u64, var: &mut NcVar) -> bool
    requires { len < 2 ^ 63 }
    ensures inside { (s : ℕ) → step ≡ min s (2 ^ 63)
        → result ≡ not (is_outside len (placed records dims.now s var.old)) }
    ensures placed { (s : ℕ) → step ≡ min s (2 ^ 63)
        → result ≡ true → var.new ≡ placed records dims.now s var.old }
{
    let parts = if is_record_var(dims, var) { records } else { 1 };
    let part = if parts == 0 {
        0
    } else {
        piece_len(dims, var.kind, &var.dims.items)
    };
    let step = if parts > 1 { step } else { 0 };
    if parts > 0 {
        let end = plus(plus(times(u64::from(parts - 1), step), part), var.begin);
        if end > len {
            return false;
        }
    }
    var.parts = parts;
    var.part = part;
    var.step = step;
    true
}

// Places each variable; the number of the first whose values reach the length.
pub fn place_all(dims: &[NcDim], records: u32, len: u64, vars: &mut [NcVar]) -> Option<u32>
    requires few { length vars.old < 2 ^ 32 }
    requires len { len < 2 ^ 63 }
    ensures outside { result ≡ position (is_outside len)
        (map (placed records dims.now (step_from dims.now vars.old)) vars.old) }
    ensures placed { result ≡ None
        → vars.new ≡ map (placed records dims.now (step_from dims.now vars.old)) vars.old }
{
    let step = step(dims, vars);
    for number in 0..vars.len() {
        if !place(dims, records, step, len, &mut vars[number]) {
            return Some(number as u32);
        }
    }
    None
}
