// The places of variables, by their names.
ghost use Rattle.std.specs.Prelude.{◌≡◌, ℕ, List, IfOk, length, slice_index_or, ◌<◌, ◌^◌};
ghost use Rattle.std.specs.BTreeMap.{get_by};
ghost use Rattle.std.specs.Cmp.Lexicographic.{slice_cmp};
ghost use Rattle.std.specs.Ordering.{nat_cmp};
ghost use Rattle.std.specs.Option.{option_map};
ghost use Rattle.nc_format.specs.Numbers.{var_named};
ghost use Rattle.exodus_mesh.specs.Places.{ArePlaces};
ghost use Rattle.nc_format.specs.declared.NcVar.{NcVar};

use nc_format::NcVar;
use std::alloc::{AllocError, Global};
use std::collections::BTreeMap;

// The name of the variable at a place.
fn name_at<'a>(vars: &'a [NcVar], place: usize) -> &'a [u8]
    requires { place < length vars.now }
    ensures { (v : NcVar) → result.now ≡ (slice_index_or vars.now place v).name }
{
    let var = &vars[place];
    &var.name.items
}

// The place of the first variable of each name. The variables are taken from the last to the first,
// so that the first of a name is kept; a look-up then takes a few comparisons, however many there are.
#[tactic(auto, using(crate::proofs::FirstPlaces::no_place, crate::proofs::FirstPlaces::all_places))]
pub fn places<'a>(alloc: Global, vars: &'a [NcVar]) -> Result<BTreeMap<&'a [u8], u32>, AllocError>
    requires { length vars.now < 2 ^ 32 }
    ensures { IfOk result (ArePlaces vars.now) }
{
    let mut map = BTreeMap::new(alloc);
    for done in 0..vars.len() {
        let place = vars.len() - 1 - done;
        map.insert(name_at(vars, place), place as u32)
            .map_err(AllocError::from)?;
    }
    Ok(map)
}

// The place of the first variable of a name.
pub fn place_of(vars: &[NcVar], map: &BTreeMap<&[u8], u32>, name: &[u8]) -> Option<u32>
    requires { ArePlaces vars.now map.now }
    ensures { result ≡ var_named vars.now name.now }
{
    map.get(name).copied()
}
