// Dimensions, variables and attributes by their names. The first of a name is found.
ghost use Rattle.std.specs.Prelude.{◌≡◌, ◌<◌, length, All};
ghost use Rattle.std.specs.Option.{option_map};
ghost use Rattle.std.specs.Str.{bytes_eq};
ghost use Rattle.nc_format.specs.Sound.{IsSound, IsSoundAtt};
ghost use Rattle.nc_format.specs.Numbers.{one_int, one_int_of, att_named, dim_named, var_named};

use crate::values::{int_at, is_int};
use crate::{NcAtt, NcAtts, NcDim, NcFile, NcVar};
use nc_write::Name;

fn is_named(name: &Name, text: &[u8]) -> bool
    ensures { result ≡ bytes_eq name.now text.now }
{
    name.items.as_slice() == text
}

fn first_named<'a>(atts: &'a [NcAtt], name: &[u8]) -> Option<&'a NcAtt>
    ensures { option_map (λ a. a.now) result ≡ att_named atts.now name.now }
{
    atts.iter().find(|att| is_named(&att.name, name))
}

fn place_of_dim(dims: &[NcDim], name: &[u8]) -> Option<usize>
    ensures { result ≡ dim_named dims.now name.now }
{
    dims.iter().position(|dim| is_named(&dim.name, name))
}

fn place_of_var(vars: &[NcVar], name: &[u8]) -> Option<usize>
    ensures { result ≡ var_named vars.now name.now }
{
    vars.iter().position(|var| is_named(&var.name, name))
}

#[tactic(auto, unfolding(nc_write::specs::Kinds::size_of))]
fn one_int(att: &NcAtt) -> Option<i32>
    requires { IsSoundAtt att.now }
    ensures { result ≡ one_int att.now }
{
    if is_int(att.kind) && att.count == 1 {
        Some(int_at(att.kind, &att.bytes.items))
    } else {
        None
    }
}

/// The value of the first attribute of a name, where its type is BYTE, SHORT or INT and it has one
/// value; else, and where no attribute has the name, None.
pub fn int_att(atts: &NcAtts, name: &[u8]) -> Option<i32>
    requires { All IsSoundAtt atts.now }
    ensures { result ≡ one_int_of (att_named atts.now name.now) }
{
    match first_named(&atts.items, name) {
        Some(att) => one_int(att),
        None => None,
    }
}

/// The place, from 0, of the first dimension of a name; None where none has it.
pub fn find_dim(file: &NcFile, name: &[u8]) -> Option<u32>
    requires { IsSound file.now }
    ensures { result ≡ dim_named file.now.dims name.now }
{
    match place_of_dim(&file.dims.items, name) {
        Some(place) => Some(place as u32),
        None => None,
    }
}

/// The place, from 0, of the first variable of a name; None where none has it.
pub fn find_var(file: &NcFile, name: &[u8]) -> Option<u32>
    requires { IsSound file.now }
    ensures { result ≡ var_named file.now.vars name.now }
{
    match place_of_var(&file.vars.items, name) {
        Some(place) => Some(place as u32),
        None => None,
    }
}
