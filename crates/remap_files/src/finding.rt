// The counts and the variables of an overlap, looked up by their names.
ghost use Rattle.std.specs.Prelude.{◌≡◌, [], IfOk, IfErr, Ok};
ghost use Rattle.std.specs.Option.{option_map};
ghost use Rattle.nc_format.specs.Sound.{IsSound};
ghost use Rattle.nc_format.specs.Numbers.{att_named};
ghost use Rattle.vec_exact.specs.Answers.{Answers};
ghost use Rattle.nc_format.specs.Answers.{IsFaultOf};
ghost use Rattle.exodus_mesh.specs.declared.ids.NameFault.TheVariants.{NoMemory};
ghost use Rattle.exodus_mesh.specs.Names.{name_of};
ghost use Rattle.exodus_mesh.specs.Pairs.{is_within};
ghost use Rattle.remap_files.specs.OverlapNames.{att_in, count_in, planes_in, corner_in, five_in, overlap_vars_in};
ghost use Rattle.exodus_mesh.specs.Columns.{column_in};

use crate::OverlapVars;
use exodus_mesh::{
    NameFault, NameId, NumberKind, find_column, find_named, is_within, var_len, var_lens,
};
use nc_format::{NcAtt, NcFile, int_att};
use nc_write::DimIds;
use std::alloc::Global;

// The first attribute of a name.
fn first_att<'a>(atts: &'a [NcAtt], name: &[u8]) -> Option<&'a NcAtt>
    ensures { option_map (λ a. a.now) result ≡ att_named atts.now name.now }
{
    atts.iter().find(|att| att.name.items.as_slice() == name)
}

// The value of the first global attribute of a name, which is one integer.
#[tactic(auto, unfolding(crate::specs::OverlapNames::att_in))]
fn att(file: &NcFile, id: NameId, name: &[u8]) -> Result<i32, NameFault>
    requires sound { IsSound file.now }
    requires name { name.now ≡ name_of [] id }
    ensures { result ≡ att_in file.now id }
{
    let Some(_) = first_att(&file.atts.items, name) else {
        return Err(NameFault::Missing(id));
    };
    let Some(value) = int_att(&file.atts, name) else {
        return Err(NameFault::Kind(id));
    };
    Ok(value)
}

#[tactic(auto, unfolding(crate::specs::OverlapNames::count_in))]
fn count(file: &NcFile, id: NameId, name: &[u8], low: u32, high: u32) -> Result<u32, NameFault>
    requires sound { IsSound file.now }
    requires name { name.now ≡ name_of [] id }
    ensures { result ≡ count_in low high file.now id }
{
    let number = att(file, id, name)?;
    if !is_within(low, high, number) {
        return Err(NameFault::Shape(id));
    }
    Ok(number.unsigned_abs())
}

// The place and the length of the variable of all rings.
#[tactic(auto, unfolding(crate::specs::OverlapNames::planes_in, exodus_mesh::specs::Names::name_of))]
fn find_planes(file: &NcFile) -> Result<(u32, u32), NameFault>
    requires { IsSound file.now }
    ensures { result ≡ planes_in file.now }
{
    let place = find_named(file, NameId::RingPlane, b"ring_plane")?;
    let len = var_len(file, NumberKind::Int, NameId::RingPlane, place)?;
    Ok((place, len))
}

// The place of the variable of all corners.
#[tactic(auto, unfolding(crate::specs::OverlapNames::corner_in, exodus_mesh::specs::Names::name_of))]
fn find_corner(file: &NcFile, corners: u32) -> Result<u32, NameFault>
    requires { IsSound file.now }
    ensures { result ≡ corner_in file.now corners }
{
    let place = find_named(file, NameId::Corner, b"corner")?;
    let lens = var_lens(file, NumberKind::Int, NameId::Corner, place)?;
    if lens.0 != corners || lens.1 != 3 {
        return Err(NameFault::Shape(NameId::Corner));
    }
    Ok(place)
}

#[tactic(auto, unfolding(crate::specs::OverlapNames::five_in, exodus_mesh::specs::Names::name_of))]
fn find_five(
    alloc: Global,
    file: &NcFile,
    faces_a: u32,
    faces_b: u32,
    pieces: u32,
) -> Result<OverlapVars, NameFault>
    requires { IsSound file.now }
    ensures { Answers NoMemory (λ vars. vars) result (five_in file.now faces_a faces_b pieces) }
{
    let source = find_column(file, NumberKind::Int, pieces, NameId::Source, b"source")?;
    let target = find_column(file, NumberKind::Int, pieces, NameId::Target, b"target")?;
    let size = find_column(
        file,
        NumberKind::Int,
        pieces,
        NameId::RingSize,
        b"ring_size",
    )?;
    let (plane, corners) = find_planes(file)?;
    let corner = find_corner(file, corners)?;
    let places = [source, target, size, plane, corner].to_vec(alloc)?;
    Ok(OverlapVars {
        faces_a,
        faces_b,
        pieces,
        corners,
        vars: DimIds { items: places },
    })
}

/// The counts and the variables of an overlap in a file, by their names: the global attributes
/// `faces_a`, `faces_b` and `pieces`, and, where there is a piece, the variables `source`, `target`,
/// `ring_size`, `ring_plane` and `corner`. The whole form is our own; all else is skipped.
///
/// A fault is the first one, in this order; one name is tested to the end before the next.
/// `Missing(id)` says that nothing has the name. `Kind(id)` says that an attribute is not one value of
/// the type BYTE, SHORT or INT, or that the type of a variable is another. `Shape(id)` says that a
/// count of faces is outside 1 to 1,048,576, that the number of pieces is outside 0 to 8,388,608, or
/// that a variable has other dimensions or lengths than an overlap; the record dimension is none.
#[tactic(auto, unfolding(crate::specs::OverlapNames::overlap_vars_in, exodus_mesh::specs::Names::name_of))]
pub fn find_overlap(alloc: Global, file: &NcFile) -> Result<OverlapVars, NameFault>
    requires sound { IsSound file.now }
    ensures vars { IfOk result (λ vars. overlap_vars_in file.now ≡ Ok vars) }
    // A fault that is answered is the first one, unless memory ran out.
    ensures fault { IfErr result (IsFaultOf NoMemory (overlap_vars_in file.now)) }
{
    let faces_a = count(file, NameId::FacesA, b"faces_a", 1, 1_048_576)?;
    let faces_b = count(file, NameId::FacesB, b"faces_b", 1, 1_048_576)?;
    let pieces = count(file, NameId::Pieces, b"pieces", 0, 8_388_608)?;
    if pieces > 0 {
        return find_five(alloc, file, faces_a, faces_b, pieces);
    }
    Ok(OverlapVars {
        faces_a,
        faces_b,
        pieces,
        corners: 0,
        vars: DimIds {
            items: Vec::new(alloc),
        },
    })
}
