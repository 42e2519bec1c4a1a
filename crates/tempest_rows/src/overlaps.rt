// Overlaps, by whole runs.
use crate::meshes::with_small_meshes;
use crate::runs::{Run, same, same_at};
use std::test::Fail;
use tempest_top::Status;

// A row: the meshes that are made first, the words, the text, and the length of the overlap file.
type Row = (&'static [&'static str], &'static str, &'static str, usize);

const CS1: &str = "GenerateCSMesh --res 1 --file cs1.g";

const CS2: &str = "GenerateCSMesh --res 2 --file cs2.g";

const CS3: &str = "GenerateCSMesh --res 3 --file cs3.g";

const RLL: &str = "GenerateRLLMesh --lon 4 --lat 2 --file rll.g";

const ROWS: [Row; 6] = [
    (
        &[CS1, CS2],
        "GenerateOverlapMesh --a cs1.g --b cs2.g --out o.g",
        "pieces 24\n",
        1856,
    ),
    (
        &[CS2],
        "GenerateOverlapMesh --a cs2.g --b cs2.g --out o.g",
        "pieces 24\n",
        1856,
    ),
    (
        &[CS2, CS3],
        "GenerateOverlapMesh --a cs2.g --b cs3.g --out o.g",
        "pieces 96\n",
        6248,
    ),
    (
        &[],
        "GenerateOverlapMesh --a octant.g --b opposite.g --out o.g",
        "pieces 0\n",
        104,
    ),
    (
        &[CS1, RLL],
        "GenerateOverlapMesh --a cs1.g --b rll.g --out o.g",
        "pieces 24\n",
        1856,
    ),
    (
        &[],
        "GenerateOverlapMesh --a sixteen.g --b sixteen.g --out o.g",
        "pieces 1\n",
        392 + 4 + 4 + 4 + 16 + 192,
    ),
];

#[test]
fn overlaps_have_their_pieces_and_their_length(rt: HostRuntime) -> Result<(), Fail> {
    for (meshes, text, put, len) in ROWS {
        let mut row = with_small_meshes(rt.alloc())?;
        for words in meshes {
            row.go(&rt, rt.alloc(), words)?;
        }
        row.renew_sinks(rt.alloc());
        let status = row.go(&rt, rt.alloc(), text)?;
        row.tells(&rt, b"");
        same_at(&rt, &status, &Status::Done, &text);
        row.puts(&rt, put.as_bytes());
        let written = row.files.get("o.g").map(|bytes| bytes.len());
        same_at(&rt, &written, &Some(len), &text);
    }
    Ok(())
}

// The overlap file of two meshes of one face each that don't meet.
const NO_PIECE: [u8; 104] = [
    67, 68, 70, 2, 0, 0, 0, 0, 0, 0, 0, 0, 0, 0, 0, 0, 0, 0, 0, 12, 0, 0, 0, 3, 0, 0, 0, 7, 102,
    97, 99, 101, 115, 95, 97, 0, 0, 0, 0, 4, 0, 0, 0, 1, 0, 0, 0, 1, 0, 0, 0, 7, 102, 97, 99, 101,
    115, 95, 98, 0, 0, 0, 0, 4, 0, 0, 0, 1, 0, 0, 0, 1, 0, 0, 0, 6, 112, 105, 101, 99, 101, 115, 0,
    0, 0, 0, 0, 4, 0, 0, 0, 1, 0, 0, 0, 0, 0, 0, 0, 0, 0, 0, 0, 0,
];

#[test]
fn opposite_octants_have_no_piece(rt: HostRuntime) -> Result<(), Fail> {
    let mut row = with_small_meshes(rt.alloc())?;
    let text = "GenerateOverlapMesh --a octant.g --b opposite.g --out o.g";
    row.go(&rt, rt.alloc(), text)?;
    row.holds(&rt, "o.g", Some(NO_PIECE.as_slice()));
    Ok(())
}

// The four corners of the first piece of the coarse cube over the fine cube, as they stand in the
// file: 268435456 is 16 0 0 0, and its negative is 240 0 0 0.
const FIRST_CORNERS: [u8; 48] = [
    16, 0, 0, 0, 0, 0, 0, 0, 240, 0, 0, 0, 16, 0, 0, 0, 0, 0, 0, 0, 0, 0, 0, 0, 16, 0, 0, 0, 240,
    0, 0, 0, 0, 0, 0, 0, 16, 0, 0, 0, 240, 0, 0, 0, 240, 0, 0, 0,
];

#[test]
fn the_first_piece_of_nested_cubes(rt: HostRuntime) -> Result<(), Fail> {
    let mut row = Run::new(rt.alloc());
    for text in [
        CS1,
        CS2,
        "GenerateOverlapMesh --a cs1.g --b cs2.g --out o.g",
    ] {
        row.go(&rt, rt.alloc(), text)?;
    }
    let file = row.files.get("o.g").unwrap_or(b"");
    // behind the header of 392 bytes stand 24 sources, 24 targets, 24 sizes of rings and the rings
    same(&rt, &file.get(392..396), &Some(b"\0\0\0\x01".as_slice()));
    same(&rt, &file.get(488..492), &Some(b"\0\0\0\x01".as_slice()));
    same(&rt, &file.get(584..585), &Some(b"\x04".as_slice()));
    same(
        &rt,
        &file.get(608..612),
        &Some(b"\x01\x06\x07\x04".as_slice()),
    );
    same(&rt, &file.get(704..752), &Some(FIRST_CORNERS.as_slice()));
    Ok(())
}

#[test]
fn each_face_of_a_cube_over_itself_is_a_piece(rt: HostRuntime) -> Result<(), Fail> {
    let mut row = Run::new(rt.alloc());
    for text in [CS2, "GenerateOverlapMesh --a cs2.g --b cs2.g --out o.g"] {
        row.go(&rt, rt.alloc(), text)?;
    }
    let file = row.files.get("o.g").unwrap_or(b"");
    for i in 0..24usize {
        let number = i as u8 + 1;
        let want = [0, 0, 0, number];
        same(
            &rt,
            &(file.get(392 + 4 * i..396 + 4 * i)),
            &Some(want.as_slice()),
        );
        same(
            &rt,
            &(file.get(488 + 4 * i..492 + 4 * i)),
            &Some(want.as_slice()),
        );
        same(
            &rt,
            &(file.get(608 + 4 * i..612 + 4 * i)),
            &Some(b"\x01\x02\x03\x04".as_slice()),
        );
    }
    Ok(())
}

#[test]
fn crossing_cubes_share_four_corners_a_piece(rt: HostRuntime) -> Result<(), Fail> {
    let mut row = Run::new(rt.alloc());
    for text in [
        CS2,
        CS3,
        "GenerateOverlapMesh --a cs2.g --b cs3.g --out o.g",
    ] {
        row.go(&rt, rt.alloc(), text)?;
    }
    let file = row.files.get("o.g").unwrap_or(b"");
    let sources = file.get(392..776).unwrap_or(b"");
    for panel in 0..6u8 {
        // the four faces of a panel stand together
        let mut of_panel = 0u32;
        for source in sources.iter().skip(3).step_by(4) {
            if source.saturating_sub(1) / 4 == panel {
                of_panel = of_panel.saturating_add(1);
            }
        }
        same(&rt, &of_panel, &16);
    }
    let sizes = file.get(1160..1256).unwrap_or(b"");
    same(&rt, &sizes.len(), &96);
    assert!(rt; sizes.iter().all(|size| *size == 4));
    Ok(())
}

#[test]
fn the_bytes_are_the_same_for_all_workers(rt: HostRuntime) -> Result<(), Fail> {
    let mut row = Run::new(rt.alloc());
    for text in [
        CS2,
        CS3,
        "GenerateOverlapMesh --a cs2.g --b cs3.g --out one.g --workers 1",
        "GenerateOverlapMesh --a cs2.g --b cs3.g --out two.g --workers 2",
        "GenerateOverlapMesh --a cs2.g --b cs3.g --out seven.g --workers 7",
        "GenerateOverlapMesh --a cs2.g --b cs3.g --out all.g --workers 64",
    ] {
        let status = row.go(&rt, rt.alloc(), text)?;
        same_at(&rt, &status, &Status::Done, &text);
    }
    let one = row.files.get("one.g");
    same(&rt, &one.map(|bytes| bytes.len()), &Some(6248));
    row.holds(&rt, "two.g", one);
    row.holds(&rt, "seven.g", one);
    row.holds(&rt, "all.g", one);
    Ok(())
}

#[test]
fn an_overlap_may_replace_its_input(rt: HostRuntime) -> Result<(), Fail> {
    let mut row = Run::new(rt.alloc());
    let text = "GenerateOverlapMesh --a cs1.g --b cs1.g --out cs1.g";
    row.go(&rt, rt.alloc(), CS1)?;
    row.renew_sinks(rt.alloc());
    same(&rt, &row.go(&rt, rt.alloc(), text)?, &Status::Done);
    row.puts(&rt, b"pieces 6\n");
    same(
        &rt,
        &row.files.get("cs1.g").map(|bytes| bytes.len()),
        &Some(760),
    );
    same(&rt, &row.go(&rt, rt.alloc(), text)?, &Status::Names);
    row.tells(&rt, b"tempest: cs1.g: missing coord\n");
    Ok(())
}
