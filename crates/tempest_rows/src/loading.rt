// Files that are loaded: values in both widths, a mesh by its name, and mesh files of other forms
// than the generators write.
use crate::generators::CS1;
use crate::runs::{Run, same};
use mesh_check::{face_count, node_count};
use mesh_load::load_mesh;
use nc_format::{NcFault, is_int};
use remap_io::{Files, MemFiles, SteadyFiles};
use remap_load::{FileRefusal, LoadFault, load_header, load_ints, load_longs};
use std::alloc::{AllocError, Global};
use std::test::Fail;
use tempest_top::Status;
use vec_exact::{Ints, Longs};

const WORDS: &str = "GenerateOverlapMesh --a a.g --b a.g --out o.g";

// The values of the variable at a place, read in both widths.
fn values_at<F: Files>(
    alloc: Global,
    files: &mut F,
    name: &str,
    var: u32,
) -> Result<(Ints, Longs), LoadFault> {
    let head = load_header(alloc, files, name)?;
    match head.file.vars.items.get(var as usize) {
        Some(variable) if is_int(variable.kind) => {
            let ints = load_ints(alloc, files, name, &head, var)?;
            let longs = load_longs(alloc, files, name, &head, var)?;
            Ok((ints, longs))
        }
        _ => Err(LoadFault::Absent),
    }
}

#[test]
fn values_of_a_file(rt: HostRuntime) -> Result<(), Fail> {
    let mut files = SteadyFiles::new(rt.alloc());
    if files.replace("cs1.g", &CS1).is_err() {
        return Err("the file was expected to be put".into());
    }
    let Ok((ints, longs)) = values_at(rt.alloc(), &mut files, "cs1.g", 1) else {
        return Err("values were expected".into());
    };
    same(
        &rt,
        &ints.items.as_slice(),
        &[
            5, 7, 8, 6, 7, 3, 4, 8, 3, 1, 2, 4, 1, 5, 6, 2, 6, 8, 4, 2, 1, 3, 7, 5,
        ]
        .as_slice(),
    );
    same(
        &rt,
        &longs.items.as_slice(),
        &[
            5, 7, 8, 6, 7, 3, 4, 8, 3, 1, 2, 4, 1, 5, 6, 2, 6, 8, 4, 2, 1, 3, 7, 5,
        ]
        .as_slice(),
    );
    same(&rt, &files.taken(), &440);
    Ok(())
}

#[test]
fn a_mesh_and_its_refusals(rt: HostRuntime) -> Result<(), Fail> {
    let mut files = SteadyFiles::new(rt.alloc());
    if files.replace("cs1.g", &CS1).is_err() || files.replace("cut.g", &CS1[..400]).is_err() {
        return Err("the files were expected to be put".into());
    }
    let Ok(mesh) = load_mesh(rt.alloc(), &mut files, "cs1.g") else {
        return Err("a mesh was expected".into());
    };
    same(&rt, &face_count(&mesh), &6);
    same(&rt, &node_count(&mesh), &8);
    same(&rt, &files.taken(), &440);
    same(
        &rt,
        &load_mesh(rt.alloc(), &mut files, "no_such.g").err(),
        &Some(FileRefusal::Load(LoadFault::Absent)),
    );
    same(
        &rt,
        &load_mesh(rt.alloc(), &mut files, "cut.g").err(),
        &Some(FileRefusal::Load(LoadFault::Format(NcFault::DataOutside(2)))),
    );
    Ok(())
}

// The same mesh with an attribute of 70,000 characters: a header that the first 65,536 bytes cut.
fn with_a_long_header(alloc: Global) -> Result<Vec<u8>, AllocError> {
    let mut file = CS1[..136].to_vec(alloc)?;
    file.extend_from_slice(b"\0\0\0\x0c\0\0\0\x01\0\0\0\x01x\0\0\0\0\0\0\x02")?;
    file.extend_from_slice(&70_000u32.to_be_bytes())?;
    file.resize(70_160, b'x')?;
    file.extend_from_slice(&CS1[144..192])?;
    file.extend_from_slice(&(248u64 + 70_016).to_be_bytes())?;
    file.extend_from_slice(&CS1[200..240])?;
    file.extend_from_slice(&(344u64 + 70_016).to_be_bytes())?;
    file.extend_from_slice(&CS1[248..])?;
    Ok(file)
}

// The same mesh in version 1, where a begin has four bytes.
fn in_version_1(alloc: Global) -> Result<Vec<u8>, AllocError> {
    let mut file = b"CDF\x01".to_vec(alloc)?;
    file.extend_from_slice(&CS1[4..192])?;
    file.extend_from_slice(&240u32.to_be_bytes())?;
    file.extend_from_slice(&CS1[200..240])?;
    file.extend_from_slice(&336u32.to_be_bytes())?;
    file.extend_from_slice(&CS1[248..])?;
    Ok(file)
}

// The same mesh with node numbers of type SHORT.
fn with_short_numbers(alloc: Global) -> Result<Vec<u8>, AllocError> {
    let mut file = CS1[..232].to_vec(alloc)?;
    file.extend_from_slice(b"\0\0\0\x03\0\0\0\x30")?;
    file.extend_from_slice(&CS1[240..344])?;
    for number in CS1[344..].chunks_exact(4) {
        file.extend_from_slice(&number[2..])?;
    }
    Ok(file)
}

fn push_name(file: &mut Vec<u8>, name: &[u8]) -> Result<(), AllocError> {
    // (the names of these files are short)
    file.extend_from_slice(&(name.len().min(255) as u32).to_be_bytes())?;
    file.extend_from_slice(name)?;
    // They are padded to a multiple of four bytes.
    for _ in 0..(4 - file.len() % 4) % 4 {
        file.extend_from_slice(b"\0")?;
    }
    Ok(())
}

// The dimensions of eight nodes and of two blocks of four faces and of two.
fn push_dimensions(file: &mut Vec<u8>) -> Result<(), AllocError> {
    let dims: [(&[u8], u32); 6] = [
        (b"num_nodes", 8),
        (b"num_el_blk", 2),
        (b"num_el_in_blk1", 4),
        (b"num_nod_per_el1", 4),
        (b"num_el_in_blk2", 2),
        (b"num_nod_per_el2", 4),
    ];
    file.extend_from_slice(b"\0\0\0\x0a\0\0\0\x06")?;
    for (name, len) in dims {
        push_name(file, name)?;
        file.extend_from_slice(&len.to_be_bytes())?;
    }
    Ok(())
}

// An INT variable of these dimensions, whose values begin at `begin`.
fn push_variable(
    file: &mut Vec<u8>,
    name: &[u8],
    dims: &[u8],
    size: u32,
    begin: u64,
) -> Result<(), AllocError> {
    push_name(file, name)?;
    file.extend_from_slice(&(dims.len().min(255) as u32).to_be_bytes())?;
    for dim in dims {
        file.extend_from_slice(&[0, 0, 0, *dim])?;
    }
    file.extend_from_slice(b"\0\0\0\0\0\0\0\0\0\0\0\x04")?;
    file.extend_from_slice(&size.to_be_bytes())?;
    file.extend_from_slice(&begin.to_be_bytes())
}

// The same mesh with three variables of coordinates, and its faces in two blocks.
fn in_two_blocks(alloc: Global) -> Result<Vec<u8>, AllocError> {
    let vars: [(&[u8], &[u8], u32, u64); 5] = [
        (b"coordx", b"\0", 32, 396),
        (b"coordy", b"\0", 32, 428),
        (b"coordz", b"\0", 32, 460),
        (b"connect1", b"\x02\x03", 64, 492),
        (b"connect2", b"\x04\x05", 32, 556),
    ];
    let mut file = b"CDF\x02\0\0\0\0".to_vec(alloc)?;
    push_dimensions(&mut file)?;
    file.extend_from_slice(b"\0\0\0\0\0\0\0\0\0\0\0\x0b\0\0\0\x05")?;
    for (name, dims, size, begin) in vars {
        push_variable(&mut file, name, dims, size, begin)?;
    }
    file.extend_from_slice(&CS1[248..])?;
    Ok(file)
}

#[test]
fn mesh_files_of_other_forms_are_read(rt: HostRuntime) -> Result<(), Fail> {
    let alloc = rt.alloc();
    for (file, taken) in [
        (with_a_long_header(alloc)?, 140_912),
        (in_version_1(alloc)?, 864),
        (with_short_numbers(alloc)?, 784),
        (in_two_blocks(alloc)?, 1176),
    ] {
        let mut row = Run::new(alloc);
        row.place("a.g", &file)?;
        same(&rt, &row.go(&rt, alloc, WORDS)?, &Status::Done);
        row.puts(&rt, b"pieces 6\n");
        same(&rt, &row.files.taken(), &taken);
    }
    Ok(())
}

// An empty file is read by one call, which may fail.
#[test]
fn an_empty_file_is_read(rt: HostRuntime) -> Result<(), Fail> {
    let mut row = Run::new(rt.alloc());
    row.files = MemFiles::new(rt.alloc(), [2].to_vec(rt.alloc())?);
    row.place("a.g", b"")?;
    same(&rt, &row.go(&rt, rt.alloc(), WORDS)?, &Status::ReadFault);
    row.renew_sinks(rt.alloc());
    same(&rt, &row.go(&rt, rt.alloc(), WORDS)?, &Status::Format);
    row.tells(&rt, b"tempest: a.g: not netCDF\n");
    Ok(())
}
