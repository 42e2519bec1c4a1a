// The fill value of a variable.
ghost use Rattle.std.specs.Prelude.{◌≡◌, ◌==◌};
ghost use Rattle.std.specs.Option.{option_map};
ghost use Rattle.nc_format.specs.Sound.{IsSound, IsSoundAtt};
ghost use Rattle.nc_format.specs.Numbers.{att_named};
ghost use Rattle.nc_write.specs.Kinds.{type_number};
ghost use Rattle.field_files.specs.FillValues.{fill_at};

use crate::finding::var_at;
use nc_format::{NcAtt, NcFile, int_att};
use nc_write::NcKind;

// The first attribute of a name.
fn first_named<'a>(atts: &'a [NcAtt], name: &[u8]) -> Option<&'a NcAtt>
    ensures { option_map (λ a. a.now) result ≡ att_named atts.now name.now }
{
    atts.iter().find(|att| att.name.items.as_slice() == name)
}

fn is_same(kind: NcKind, other: NcKind) -> bool
    ensures { result ≡ (type_number kind == type_number other) }
{
    kind == other
}

/// The fill value of the variable at a place: the value of its first attribute of the name
/// `_FillValue`, where that has the type of the variable and one value; else there is none. A later
/// attribute of the name is not looked at.
pub fn fill_value(file: &NcFile, place: u32) -> Option<i32>
    requires sound { IsSound file.now }
    ensures fill { result ≡ fill_at file.now place }
{
    let var = var_at(file, place)?;
    let att = first_named(&var.atts.items, b"_FillValue")?;
    if !is_same(att.kind, var.kind) {
        return None;
    }
    int_att(&var.atts, b"_FillValue")
}
