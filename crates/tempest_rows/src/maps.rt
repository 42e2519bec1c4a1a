// Maps, by whole runs.
use crate::meshes::with_small_meshes;
use crate::runs::{Run, same, same_at};
use remap_io::{MemFiles, MemSink};
use std::alloc::Global;
use std::test::Fail;
use std::thread::Threads;
use tempest_top::Status;

// The words that make the input files of the rows.
const MAKING: [&str; 8] = [
    "GenerateCSMesh --res 1 --file cs1.g",
    "GenerateCSMesh --res 2 --file cs2.g",
    "GenerateRLLMesh --lon 4 --lat 2 --file rll.g",
    "GenerateOverlapMesh --a rll.g --b rll.g --out octants.g",
    "GenerateOverlapMesh --a cs1.g --b cs2.g --out nested.g",
    "GenerateOverlapMesh --a cs2.g --b cs2.g --out itself.g",
    "GenerateOverlapMesh --a octant.g --b opposite.g --out empty.g",
    "GenerateOverlapMesh --a octant.g --b octant.g --out octant_itself.g",
];

// A run over the input files of the rows.
fn with_overlaps(rt: &impl Threads, alloc: Global) -> Result<Run, Fail> {
    let mut row = with_small_meshes(alloc)?;
    for words in MAKING {
        row.go(rt, alloc, words)?;
    }
    row.renew_sinks(alloc);
    Ok(row)
}

const OCTANTS: &str =
    "GenerateOfflineMap --in_mesh rll.g --out_mesh rll.g --ov_mesh octants.g --out_map m.nc";

#[test]
fn a_map_of_octants(rt: HostRuntime) -> Result<(), Fail> {
    let mut row = with_overlaps(&rt, rt.alloc())?;
    same(&rt, &row.go(&rt, rt.alloc(), OCTANTS)?, &Status::Done);
    row.tells(&rt, b"");
    row.puts(&rt, b"rows 8 sources 8 targets 8\n");
    Ok(())
}

// Behind the header of 416 bytes stand 8 sources, 8 targets, 8 measures, and the areas of the 8
// sources and of the 8 targets.
#[test]
fn the_file_of_a_map_of_octants(rt: HostRuntime) -> Result<(), Fail> {
    let mut row = with_overlaps(&rt, rt.alloc())?;
    row.go(&rt, rt.alloc(), OCTANTS)?;
    let file = row.files.get("m.nc").unwrap_or(b"");
    same(&rt, &file.len(), &672);
    same(&rt, &file.get(..4), &Some(b"CDF\x05".as_slice()));
    for i in 0..8usize {
        let number = [0, 0, 0, i as u8 + 1];
        let measure = 107_944_315_648u64.to_be_bytes();
        same(
            &rt,
            &(file.get(416 + 4 * i..420 + 4 * i)),
            &Some(number.as_slice()),
        );
        same(
            &rt,
            &(file.get(448 + 4 * i..452 + 4 * i)),
            &Some(number.as_slice()),
        );
        same(
            &rt,
            &(file.get(480 + 8 * i..488 + 8 * i)),
            &Some(measure.as_slice()),
        );
        same(
            &rt,
            &(file.get(544 + 8 * i..552 + 8 * i)),
            &Some(measure.as_slice()),
        );
        same(
            &rt,
            &(file.get(608 + 8 * i..616 + 8 * i)),
            &Some(measure.as_slice()),
        );
    }
    Ok(())
}

// A refused row: the source mesh, the target mesh, the overlap file, the status and the text.
type Refused = (
    &'static str,
    &'static str,
    &'static str,
    Status,
    &'static str,
);

// The first three show the order of the files, the others each refusal in turn.
const REFUSED: [Refused; 10] = [
    (
        "none_a",
        "none_b",
        "none_o",
        Status::NoFile,
        "no file none_a",
    ),
    (
        "cs1.g",
        "none_b",
        "none_o",
        Status::NoFile,
        "no file none_b",
    ),
    ("cs1.g", "cs2.g", "none_o", Status::NoFile, "no file none_o"),
    (
        "nested.g",
        "none_b",
        "none_o",
        Status::Names,
        "nested.g: missing coord",
    ),
    (
        "cs1.g",
        "words",
        "none_o",
        Status::Format,
        "words: not netCDF",
    ),
    (
        "cs1.g",
        "cs2.g",
        "words",
        Status::Format,
        "words: not netCDF",
    ),
    (
        "cs1.g",
        "cs2.g",
        "cs1.g",
        Status::Names,
        "cs1.g: missing faces_a",
    ),
    (
        "cs1.g",
        "cs1.g",
        "itself.g",
        Status::Rows,
        "itself.g: faces_a 24 mesh 6",
    ),
    (
        "cs1.g",
        "cs1.g",
        "nested.g",
        Status::Rows,
        "nested.g: faces_b 24 mesh 6",
    ),
    (
        "octant.g",
        "opposite.g",
        "empty.g",
        Status::Uncovered,
        "target 1 uncovered",
    ),
];

#[test]
fn maps_are_refused(rt: HostRuntime) -> Result<(), Fail> {
    let alloc = rt.alloc();
    let mut row = with_overlaps(&rt, alloc)?;
    row.place("words", b"none of this")?;
    for (source, target, overlap, want, text) in REFUSED {
        row.renew_sinks(alloc);
        let meshes = format!(in alloc; "--in_mesh {source} --out_mesh {target}")?;
        let files = format!(in alloc; "--ov_mesh {overlap} --out_map m.nc")?;
        let words = format!(in alloc; "GenerateOfflineMap {meshes} {files}")?;
        let line = format!(in alloc; "tempest: {text}\n")?;
        assert_eq!(rt; row.go(&rt, alloc, words.as_str())?, want, "at {text}");
        assert_eq!(rt; row.err.bytes(), line.as_bytes());
        assert_eq!(rt; row.out.bytes(), b"".as_slice());
        assert_eq!(rt; row.files.get("m.nc"), None);
    }
    Ok(())
}

const NESTED: &str =
    "GenerateOfflineMap --in_mesh cs1.g --out_mesh cs2.g --ov_mesh nested.g --out_map m.nc";

// A changed byte of the overlap file of the coarse cube over the fine cube: its offset, the byte that
// stands there, the new one, and the row that is named. The first ring gets another plane of the same
// direction; its first corner moves; and the sizes of rings are too small, too great in sum, and too
// small in sum.
const CHANGES: [(usize, u8, u8, u32); 5] = [
    (611, 4, 8, 1),
    (707, 0, 1, 1),
    (584, 4, 2, 1),
    (584, 4, 5, 24),
    (607, 4, 3, 24),
];

#[test]
fn a_damaged_overlap_file_is_told(rt: HostRuntime) -> Result<(), Fail> {
    let mut row = with_overlaps(&rt, rt.alloc())?;
    let whole = row.files.get("nested.g").unwrap_or(b"").to_vec(rt.alloc())?;
    for (offset, was, value, number) in CHANGES {
        let mut bytes = whole.as_slice().to_vec(rt.alloc())?;
        same(&rt, &bytes.get(offset).copied(), &Some(was));
        if let Some(byte) = bytes.get_mut(offset) {
            *byte = value;
        }
        row.place("nested.g", &bytes)?;
        row.renew_sinks(rt.alloc());
        let line = format!(in rt.alloc(); "tempest: nested.g: row {number}\n")?;
        same_at(
            &rt,
            &row.go(&rt, rt.alloc(), NESTED)?,
            &Status::Rows,
            &offset,
        );
        row.tells(&rt, line.as_bytes());
        row.puts(&rt, b"");
        row.holds(&rt, "m.nc", None);
    }
    Ok(())
}

const OCTANT: &str = "GenerateOfflineMap --in_mesh a.g --out_mesh b.g --ov_mesh o.g --out_map m.nc";

// An octant as source mesh and as target mesh, and their overlap. The call with this number fails.
fn with_octants(rt: &impl Threads, alloc: Global, call: u32) -> Result<Run, Fail> {
    let mut made = with_overlaps(rt, alloc)?;
    let mut row = Run::new(alloc);
    row.files = MemFiles::new(alloc, [call].to_vec(alloc)?);
    for (from, to) in [
        ("octant.g", "a.g"),
        ("octant.g", "b.g"),
        ("octant_itself.g", "o.g"),
    ] {
        row.place(to, made.files.get(from).unwrap_or(b""))?;
    }
    Ok(row)
}

// Each of the three files takes two calls, and the seventh replaces the map file.
const FAILING: [(Status, &str); 7] = [
    (Status::ReadFault, "read fault on a.g"),
    (Status::ReadFault, "read fault on a.g"),
    (Status::ReadFault, "read fault on b.g"),
    (Status::ReadFault, "read fault on b.g"),
    (Status::ReadFault, "read fault on o.g"),
    (Status::ReadFault, "read fault on o.g"),
    (Status::WriteFault, "write fault on m.nc"),
];

// After each the same words run again, and give the outcome.
#[test]
fn a_failing_call_is_told(rt: HostRuntime) -> Result<(), Fail> {
    for (i, (want, text)) in FAILING.iter().enumerate() {
        let mut row = with_octants(&rt, rt.alloc(), i as u32 + 1)?;
        let line = format!(in rt.alloc(); "tempest: {text}\n")?;
        same_at(&rt, &row.go(&rt, rt.alloc(), OCTANT)?, &*want, &text);
        row.tells(&rt, line.as_bytes());
        row.holds(&rt, "m.nc", None);
        row.renew_sinks(rt.alloc());
        same_at(&rt, &row.go(&rt, rt.alloc(), OCTANT)?, &Status::Done, &text);
        row.puts(&rt, b"rows 1 sources 1 targets 1\n");
    }
    Ok(())
}

#[test]
fn a_failing_output_leaves_the_whole_map(rt: HostRuntime) -> Result<(), Fail> {
    let mut row = with_octants(&rt, rt.alloc(), 8)?;
    row.out = MemSink::new(rt.alloc(), [1].to_vec(rt.alloc())?);
    same(&rt, &row.go(&rt, rt.alloc(), OCTANT)?, &Status::WriteFault);
    row.tells(&rt, b"tempest: write fault on output\n");
    // one row: 416 bytes of header, a source, a target, a measure and two areas
    same(
        &rt,
        &row.files.get("m.nc").map(|bytes| bytes.len()),
        &Some(448),
    );
    Ok(())
}
