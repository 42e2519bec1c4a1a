// The generators.
use crate::runs::{Run, same, same_at, words_of};
use remap_io::{SteadyFiles, SteadySink};
use std::test::Fail;
use tempest_top::{Status, run};

// The smallest cubed sphere: header of 248 bytes, 8 nodes, 6 faces.
pub const CS1: [u8; 440] = [
    67, 68, 70, 2, 0, 0, 0, 0, 0, 0, 0, 10, 0, 0, 0, 6, 0, 0, 0, 7, 110, 117, 109, 95, 100, 105,
    109, 0, 0, 0, 0, 3, 0, 0, 0, 9, 110, 117, 109, 95, 110, 111, 100, 101, 115, 0, 0, 0, 0, 0, 0,
    8, 0, 0, 0, 8, 110, 117, 109, 95, 101, 108, 101, 109, 0, 0, 0, 6, 0, 0, 0, 10, 110, 117, 109,
    95, 101, 108, 95, 98, 108, 107, 0, 0, 0, 0, 0, 1, 0, 0, 0, 14, 110, 117, 109, 95, 101, 108, 95,
    105, 110, 95, 98, 108, 107, 49, 0, 0, 0, 0, 0, 6, 0, 0, 0, 15, 110, 117, 109, 95, 110, 111,
    100, 95, 112, 101, 114, 95, 101, 108, 49, 0, 0, 0, 0, 4, 0, 0, 0, 0, 0, 0, 0, 0, 0, 0, 0, 11,
    0, 0, 0, 2, 0, 0, 0, 5, 99, 111, 111, 114, 100, 0, 0, 0, 0, 0, 0, 2, 0, 0, 0, 0, 0, 0, 0, 1, 0,
    0, 0, 0, 0, 0, 0, 0, 0, 0, 0, 4, 0, 0, 0, 96, 0, 0, 0, 0, 0, 0, 0, 248, 0, 0, 0, 8, 99, 111,
    110, 110, 101, 99, 116, 49, 0, 0, 0, 2, 0, 0, 0, 4, 0, 0, 0, 5, 0, 0, 0, 0, 0, 0, 0, 0, 0, 0,
    0, 4, 0, 0, 0, 96, 0, 0, 0, 0, 0, 0, 1, 88, 255, 255, 255, 255, 255, 255, 255, 255, 255, 255,
    255, 255, 255, 255, 255, 255, 0, 0, 0, 1, 0, 0, 0, 1, 0, 0, 0, 1, 0, 0, 0, 1, 255, 255, 255,
    255, 255, 255, 255, 255, 0, 0, 0, 1, 0, 0, 0, 1, 255, 255, 255, 255, 255, 255, 255, 255, 0, 0,
    0, 1, 0, 0, 0, 1, 255, 255, 255, 255, 0, 0, 0, 1, 255, 255, 255, 255, 0, 0, 0, 1, 255, 255,
    255, 255, 0, 0, 0, 1, 255, 255, 255, 255, 0, 0, 0, 1, 0, 0, 0, 5, 0, 0, 0, 7, 0, 0, 0, 8, 0, 0,
    0, 6, 0, 0, 0, 7, 0, 0, 0, 3, 0, 0, 0, 4, 0, 0, 0, 8, 0, 0, 0, 3, 0, 0, 0, 1, 0, 0, 0, 2, 0, 0,
    0, 4, 0, 0, 0, 1, 0, 0, 0, 5, 0, 0, 0, 6, 0, 0, 0, 2, 0, 0, 0, 6, 0, 0, 0, 8, 0, 0, 0, 4, 0, 0,
    0, 2, 0, 0, 0, 1, 0, 0, 0, 3, 0, 0, 0, 7, 0, 0, 0, 5,
];

// The same words in other forms.
const SMALLEST: [&str; 5] = [
    "GenerateCSMesh --res 1 --file cs1.g",
    "GenerateCSMesh --file cs1.g --res 1",
    "GenerateCSMesh --res=1 --file=cs1.g",
    "GenerateCSMesh --file=cs1.g --res 1",
    "GenerateCSMesh --res 000001 --file cs1.g",
];

#[test]
fn the_smallest_cubed_sphere_is_written(rt: HostRuntime) -> Result<(), Fail> {
    for text in SMALLEST {
        let mut row = Run::new(rt.alloc());
        let status = row.go(&rt, rt.alloc(), text)?;
        same_at(&rt, &status, &Status::Done, &text);
        row.holds(&rt, "cs1.g", Some(CS1.as_slice()));
        row.puts(&rt, b"faces 6 nodes 8\n");
        row.tells(&rt, b"");
    }
    Ok(())
}

#[test]
fn the_smallest_cubed_sphere_over_steady_types(rt: HostRuntime) -> Result<(), Fail> {
    let alloc = rt.alloc();
    let words = words_of(alloc, SMALLEST[0])?;
    let mut files = SteadyFiles::new(alloc);
    let mut out = SteadySink::new(alloc);
    let mut err = SteadySink::new(alloc);
    let status = run(&rt, alloc, &words, &mut files, &mut out, &mut err);
    same(&rt, &status, &Status::Done);
    same(&rt, &files.get("cs1.g"), &Some(CS1.as_slice()));
    same(&rt, &files.taken(), &0);
    same(&rt, &out.bytes(), &b"faces 6 nodes 8\n".as_slice());
    same(&rt, &err.bytes(), &b"".as_slice());
    Ok(())
}

// Words, text, and bytes of the file.
const MESHES: [(&str, &str, usize); 6] = [
    (
        "GenerateCSMesh --res 2 --file m.g",
        "faces 24 nodes 26\n",
        944,
    ),
    (
        "GenerateCSMesh --res 60 --file m.g",
        "faces 21600 nodes 21602\n",
        605072,
    ),
    (
        "GenerateRLLMesh --lon 4 --lat 2 --file m.g",
        "faces 8 nodes 6\n",
        416,
    ),
    (
        "GenerateRLLMesh --lon 240 --lat 120 --file m.g",
        "faces 28800 nodes 28562\n",
        803792,
    ),
    (
        "GenerateICOMesh --res 1 --file m.g",
        "faces 20 nodes 12\n",
        632,
    ),
    (
        "GenerateICOMesh --res 1 --dual --file m.g",
        "faces 12 nodes 20\n",
        728,
    ),
];

#[test]
fn generated_meshes_have_their_text_and_length(rt: HostRuntime) -> Result<(), Fail> {
    for (text, put, len) in MESHES {
        let mut row = Run::new(rt.alloc());
        let status = row.go(&rt, rt.alloc(), text)?;
        same_at(&rt, &status, &Status::Done, &text);
        row.puts(&rt, put.as_bytes());
        let written = row.files.get("m.g").map(|bytes| bytes.len());
        same_at(&rt, &written, &Some(len), &text);
    }
    Ok(())
}

// The faces of the smallest latitude-longitude mesh: triangles round the south pole, then round the
// north pole.
const TRIANGLES: [[u8; 3]; 8] = [
    [1, 3, 2],
    [1, 4, 3],
    [1, 5, 4],
    [1, 2, 5],
    [2, 3, 6],
    [3, 4, 6],
    [4, 5, 6],
    [5, 2, 6],
];

#[test]
fn the_faces_of_the_smallest_latitude_longitude_mesh(rt: HostRuntime) -> Result<(), Fail> {
    let mut row = Run::new(rt.alloc());
    row.go(
        &rt,
        rt.alloc(),
        "GenerateRLLMesh --lon 4 --lat 2 --file m.g",
    )?;
    let file = row.files.get("m.g").unwrap_or(b"");
    // behind the header of 248 bytes and the six nodes
    let mut numbers = file.iter().skip(320 + 3).step_by(4);
    for face in TRIANGLES {
        for number in face {
            same(&rt, &numbers.next().copied(), &Some(number));
        }
    }
    Ok(())
}
