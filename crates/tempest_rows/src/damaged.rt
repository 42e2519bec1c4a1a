// Damaged mesh files, given to the overlap command as its first mesh.
use crate::generators::CS1;
use crate::runs::{Run, same, same_at};
use std::alloc::{AllocError, Global};
use std::test::Fail;
use tempest_top::Status;

// Changes of single bytes of the smallest cubed sphere: their offsets and new values, the status,
// and the text.
type Change = (&'static [(usize, u8)], Status, &'static str);

const CHANGES: [Change; 15] = [
    (
        &[(4, 255), (5, 255), (6, 255), (7, 255)],
        Status::Format,
        "streaming",
    ),
    (&[(3, 5)], Status::Format, "bad field at 12"),
    (
        &[(12, 255), (13, 255), (14, 255), (15, 255)],
        Status::Format,
        "bad field at 180",
    ),
    (
        &[(148, 255), (149, 255), (150, 255), (151, 255)],
        Status::Format,
        "truncated at 252",
    ),
    (&[(139, 11)], Status::Format, "bad field at 136"),
    (&[(143, 1)], Status::Format, "bad field at 140"),
    (&[(171, 6)], Status::Format, "bad field at 168"),
    (&[(187, 7)], Status::Format, "bad field at 184"),
    (&[(187, 6)], Status::Names, "kind of coord"),
    (&[(31, 0)], Status::Names, "shape of coord"),
    (&[(51, 0)], Status::Format, "bad field at 172"),
    (
        &[(192, 128)],
        Status::Format,
        "data of variable 1 outside file",
    ),
    (&[(198, 1), (199, 88)], Status::Mesh, "face 1 not convex"),
    // the first component of node 1 becomes 16777215
    (&[(248, 0)], Status::Mesh, "coordinate range at node 1"),
    // the first number of the first face becomes 9, and there are eight nodes
    (&[(347, 9)], Status::Mesh, "node number in face 1"),
];

const WORDS: &str = "GenerateOverlapMesh --a bad.g --b cs1.g --out o.g";

// A run over a file for the first mesh, and the smallest cubed sphere for the second.
fn with_files(alloc: Global, bad: &[u8]) -> Result<Run, AllocError> {
    let mut row = Run::new(alloc);
    row.place("cs1.g", &CS1)?;
    row.place("bad.g", bad)?;
    Ok(row)
}

#[test]
fn a_damaged_mesh_file_is_told(rt: HostRuntime) -> Result<(), Fail> {
    for (changes, want, text) in CHANGES {
        let mut bytes = CS1;
        for (offset, value) in changes {
            if let Some(byte) = bytes.get_mut(*offset) {
                *byte = *value;
            }
        }
        let mut row = with_files(rt.alloc(), &bytes)?;
        let status = row.go(&rt, rt.alloc(), WORDS)?;
        let line = format!(in rt.alloc(); "tempest: bad.g: {text}\n")?;
        assert_eq!(rt; status, want, "at {text}");
        assert_eq!(rt; row.err.bytes(), line.as_bytes());
        assert_eq!(rt; row.out.bytes(), b"".as_slice());
        assert_eq!(rt; row.files.get("o.g"), None);
    }
    Ok(())
}

// What a cut to so many bytes is told as. The fields of the header begin at the offsets of its
// table, and a cut names the field in which it falls.
const CUTS: [(usize, &str); 6] = [
    (3, "not netCDF"),
    (18, "truncated at 16"),
    (22, "truncated at 20"),
    (247, "truncated at 240"),
    (248, "data of variable 1 outside file"),
    (400, "data of variable 2 outside file"),
];

#[test]
fn a_cut_is_told(rt: HostRuntime) -> Result<(), Fail> {
    for (len, text) in CUTS {
        let cut = CS1.get(..len).unwrap_or(b"");
        let mut row = with_files(rt.alloc(), cut)?;
        let status = row.go(&rt, rt.alloc(), WORDS)?;
        let line = format!(in rt.alloc(); "tempest: bad.g: {text}\n")?;
        same_at(&rt, &status, &Status::Format, &len);
        row.tells(&rt, line.as_bytes());
    }
    Ok(())
}

#[test]
fn every_cut_is_a_fault_of_the_format(rt: HostRuntime) -> Result<(), Fail> {
    for len in 0..440usize {
        let cut = CS1.get(..len).unwrap_or(b"");
        let mut row = with_files(rt.alloc(), cut)?;
        let status = row.go(&rt, rt.alloc(), WORDS)?;
        let start = if len < 4 {
            "tempest: bad.g: not netCDF\n"
        } else if len < 248 {
            "tempest: bad.g: truncated at "
        } else if len < 344 {
            "tempest: bad.g: data of variable 1 outside file\n"
        } else {
            "tempest: bad.g: data of variable 2 outside file\n"
        };
        same_at(&rt, &status, &Status::Format, &len);
        assert!(rt; row.err.bytes().starts_with(start.as_bytes()), "at {len}");
    }
    Ok(())
}

// 32 bytes that are valid netCDF: no dimension, no attribute, no variable.
#[test]
fn an_empty_file_of_the_format_lacks_its_names(rt: HostRuntime) -> Result<(), Fail> {
    let mut bytes = [0u8; 32];
    bytes[..4].copy_from_slice(b"CDF\x02");
    let mut row = with_files(rt.alloc(), &bytes)?;
    same(&rt, &row.go(&rt, rt.alloc(), WORDS)?, &Status::Names);
    row.tells(&rt, b"tempest: bad.g: missing coord\n");
    Ok(())
}
