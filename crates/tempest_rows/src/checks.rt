// What meshes cover, and reports on meshes, by whole runs.
use crate::generators::CS1 as CUBE;
use crate::meshes::{equal_faces, with_small_meshes};
use crate::reading::LongFiles;
use crate::runs::{Run, same, same_at, words_of};
use remap_io::{MemFiles, MemSink};
use std::alloc::{AllocError, Global};
use std::test::Fail;
use tempest_top::{Status, run};

// A row: the meshes that are made first, the words, and the text.
type Row = (&'static [&'static str], &'static str, &'static str);

const CS1: &str = "GenerateCSMesh --res 1 --file cs1.g";

const CS2: &str = "GenerateCSMesh --res 2 --file cs2.g";

const CS60: &str = "GenerateCSMesh --res 60 --file cs60.g";

const RLL: &str = "GenerateRLLMesh --lon 240 --lat 120 --file rll.g";

const ROWS: [Row; 8] = [
    (
        &[CS1, CS2],
        "CheckCoverage --a cs1.g --b cs2.g",
        "targets 24 covered 24 first 0\n",
    ),
    (
        &[],
        "CheckCoverage --a octant.g --b opposite.g",
        "targets 1 covered 0 first 1\n",
    ),
    (
        &[CS1],
        "CheckCoverage --a octant.g --b cs1.g",
        "targets 6 covered 0 first 1\n",
    ),
    (
        &[CS60, RLL],
        "CheckCoverage --a cs60.g --b rll.g",
        "targets 28800 covered 28800 first 0\n",
    ),
    (
        &[CS2],
        "CheckMesh --file cs2.g",
        "faces 24 overlaps 0 open 0 doubled 0 covered yes\n",
    ),
    (
        &[CS2],
        "CheckMesh --workers 3 --file cs2.g",
        "faces 24 overlaps 0 open 0 doubled 0 covered yes\n",
    ),
    (
        &[],
        "CheckMesh --file octant.g",
        "faces 1 overlaps 0 open 3 doubled 0 covered no\n",
    ),
    (
        &[],
        "CheckMesh --file twice.g",
        "faces 2 overlaps 1 open 3 doubled 3 covered no\n",
    ),
];

#[test]
fn meshes_are_checked(rt: HostRuntime) -> Result<(), Fail> {
    for (meshes, text, put) in ROWS {
        let mut row = with_small_meshes(rt.alloc())?;
        for words in meshes {
            row.go(&rt, rt.alloc(), words)?;
        }
        row.renew_sinks(rt.alloc());
        let status = row.go(&rt, rt.alloc(), text)?;
        row.tells(&rt, b"");
        same_at(&rt, &status, &Status::Done, &text);
        row.puts(&rt, put.as_bytes());
    }
    Ok(())
}

// The file of the smallest cubed sphere with single bytes changed.
fn changed(alloc: Global, changes: &[(usize, u8)]) -> Result<Vec<u8>, AllocError> {
    let mut bytes = CUBE.to_vec(alloc)?;
    for (offset, value) in changes {
        if let Some(byte) = bytes.get_mut(*offset) {
            *byte = *value;
        }
    }
    Ok(bytes)
}

// A good mesh, a file that is cut, one with a variable of another type, and one with a face that
// isn't convex. There is no file none.g.
fn with_faults(alloc: Global) -> Result<Run, AllocError> {
    let mut row = Run::new(alloc);
    row.place("cs1.g", &CUBE)?;
    row.place("cut.g", CUBE.get(..100).unwrap_or(b""))?;
    row.place("kind.g", &changed(alloc, &[(187, 6)])?)?;
    row.place("bent.g", &changed(alloc, &[(198, 1), (199, 88)])?)?;
    Ok(row)
}

// The words, the status, and the text of the line. The first mesh is dealt with wholly before the
// second one.
type Refusal = (&'static str, Status, &'static str);

const REFUSALS: [Refusal; 14] = [
    ("CheckCoverage --a none.g", Status::Usage, "usage"),
    (
        "CheckCoverage --a none.g --b cut.g",
        Status::NoFile,
        "no file none.g",
    ),
    (
        "CheckCoverage --a cut.g --b none.g",
        Status::Format,
        "cut.g: truncated at 92",
    ),
    (
        "CheckCoverage --a kind.g --b cut.g",
        Status::Names,
        "kind.g: kind of coord",
    ),
    (
        "CheckCoverage --a bent.g --b kind.g",
        Status::Mesh,
        "bent.g: face 1 not convex",
    ),
    (
        "CheckCoverage --a cs1.g --b none.g",
        Status::NoFile,
        "no file none.g",
    ),
    (
        "CheckCoverage --a cs1.g --b cut.g",
        Status::Format,
        "cut.g: truncated at 92",
    ),
    (
        "CheckCoverage --a cs1.g --b kind.g",
        Status::Names,
        "kind.g: kind of coord",
    ),
    (
        "CheckCoverage --a cs1.g --b bent.g",
        Status::Mesh,
        "bent.g: face 1 not convex",
    ),
    (
        "CheckMesh --file cs1.g --workers 65",
        Status::Usage,
        "usage",
    ),
    ("CheckMesh --file none.g", Status::NoFile, "no file none.g"),
    (
        "CheckMesh --file cut.g",
        Status::Format,
        "cut.g: truncated at 92",
    ),
    (
        "CheckMesh --file kind.g",
        Status::Names,
        "kind.g: kind of coord",
    ),
    (
        "CheckMesh --file bent.g",
        Status::Mesh,
        "bent.g: face 1 not convex",
    ),
];

// The output takes no text, and isn't asked: a refusal of a mesh comes before the text.
#[test]
fn checks_are_refused_in_order(rt: HostRuntime) -> Result<(), Fail> {
    for (text, want, line) in REFUSALS {
        let mut row = with_faults(rt.alloc())?;
        row.out = MemSink::new(rt.alloc(), [1].to_vec(rt.alloc())?);
        let status = row.go(&rt, rt.alloc(), text)?;
        let line = format!(in rt.alloc(); "tempest: {line}\n")?;
        same_at(&rt, &status, &want, &text);
        row.tells(&rt, line.as_bytes());
        row.puts(&rt, b"");
    }
    Ok(())
}

// The status of a refusal stays where the line can't be put.
#[test]
fn refused_checks_keep_their_status(rt: HostRuntime) -> Result<(), Fail> {
    for (text, want, _) in REFUSALS {
        let mut row = with_faults(rt.alloc())?;
        row.err = MemSink::new(rt.alloc(), [1].to_vec(rt.alloc())?);
        same_at(&rt, &row.go(&rt, rt.alloc(), text)?, &want, &text);
        row.tells(&rt, b"");
    }
    Ok(())
}

const COVERAGE: &str = "CheckCoverage --a a.g --b b.g";

const CHECK: &str = "CheckMesh --file a.g";

// The words, the number of the call that fails, the line, and the text of the same words after it.
// Each mesh takes two calls.
const FAILING: [(&str, u32, &str, &str); 6] = [
    (
        COVERAGE,
        1,
        "read fault on a.g",
        "targets 6 covered 6 first 0\n",
    ),
    (
        COVERAGE,
        2,
        "read fault on a.g",
        "targets 6 covered 6 first 0\n",
    ),
    (
        COVERAGE,
        3,
        "read fault on b.g",
        "targets 6 covered 6 first 0\n",
    ),
    (
        COVERAGE,
        4,
        "read fault on b.g",
        "targets 6 covered 6 first 0\n",
    ),
    (
        CHECK,
        1,
        "read fault on a.g",
        "faces 6 overlaps 0 open 0 doubled 0 covered yes\n",
    ),
    (
        CHECK,
        2,
        "read fault on a.g",
        "faces 6 overlaps 0 open 0 doubled 0 covered yes\n",
    ),
];

// Two equal meshes, and one call that fails.
fn with_failing_call(alloc: Global, call: u32) -> Result<Run, AllocError> {
    let mut row = Run::new(alloc);
    row.files = MemFiles::new(alloc, [call].to_vec(alloc)?);
    row.place("a.g", &CUBE)?;
    row.place("b.g", &CUBE)?;
    Ok(row)
}

#[test]
fn failing_reads_of_checks_are_told(rt: HostRuntime) -> Result<(), Fail> {
    for (text, call, line, put) in FAILING {
        let mut row = with_failing_call(rt.alloc(), call)?;
        let status = row.go(&rt, rt.alloc(), text)?;
        let line = format!(in rt.alloc(); "tempest: {line}\n")?;
        same_at(&rt, &status, &Status::ReadFault, &call);
        row.tells(&rt, line.as_bytes());
        row.puts(&rt, b"");
        row.renew_sinks(rt.alloc());
        same(&rt, &row.go(&rt, rt.alloc(), text)?, &Status::Done);
        row.puts(&rt, put.as_bytes());
    }
    Ok(())
}

// Checks make no call but these: a later one that is to fail never comes.
#[test]
fn checks_only_read(rt: HostRuntime) -> Result<(), Fail> {
    for (text, call) in [(COVERAGE, 5u32), (CHECK, 3)] {
        let mut row = with_failing_call(rt.alloc(), call)?;
        same_at(&rt, &row.go(&rt, rt.alloc(), text)?, &Status::Done, &text);
        row.holds(&rt, "a.g", Some(CUBE.as_slice()));
    }
    Ok(())
}

// The output takes three bytes of the text, and no more.
#[test]
fn a_failing_output_of_checks_is_told(rt: HostRuntime) -> Result<(), Fail> {
    for (text, put) in [(COVERAGE, b"tar".as_slice()), (CHECK, b"fac".as_slice())] {
        let mut row = with_failing_call(rt.alloc(), 9)?;
        row.out = MemSink::new(rt.alloc(), [1].to_vec(rt.alloc())?);
        row.out.torn(3);
        let status = row.go(&rt, rt.alloc(), text)?;
        same_at(&rt, &status, &Status::WriteFault, &text);
        row.tells(&rt, b"tempest: write fault on output\n");
        row.puts(&rt, put);
    }
    Ok(())
}

#[test]
fn a_mesh_too_long_for_checks_is_told(rt: HostRuntime) -> Result<(), Fail> {
    let alloc = rt.alloc();
    for text in [COVERAGE, CHECK] {
        let words = words_of(alloc, text)?;
        let mut out = MemSink::new(alloc, Vec::new(alloc));
        let mut err = MemSink::new(alloc, Vec::new(alloc));
        let status = run(&rt, alloc, &words, &mut LongFiles, &mut out, &mut err);
        same_at(&rt, &status, &Status::Limit, &text);
        same(
            &rt,
            &err.bytes(),
            &b"tempest: a.g: 2147483648 bytes\n".as_slice(),
        );
    }
    Ok(())
}

// The refusal comes before the text, which the output would not take.
#[test]
fn too_many_pieces_of_a_mesh_are_counted(rt: HostRuntime) -> Result<(), Fail> {
    let mut row = Run::new(rt.alloc());
    row.out = MemSink::new(rt.alloc(), [1].to_vec(rt.alloc())?);
    row.place("equal.g", &equal_faces(rt.alloc())?)?;
    let text = "CheckMesh --workers 4 --file equal.g";
    same(&rt, &row.go(&rt, rt.alloc(), text)?, &Status::Limit);
    row.tells(&rt, b"tempest: too many pieces 8392609\n");
    row.puts(&rt, b"");
    Ok(())
}
