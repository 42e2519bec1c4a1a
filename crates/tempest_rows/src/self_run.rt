// The whole chain in memory, by whole runs. The command touches no file.
use crate::runs::{Run, same, same_at};
use remap_io::{MemFiles, MemSink};
use std::alloc::{AllocError, Global};
use std::process::Abort;
use std::test::Fail;
use std::thread::Threads;
use tempest_top::Status;

// What the runs tell of their meshes, before the two masses.
const SMALLEST: &str = "source_faces 6\ntarget_faces 8\npieces 24\n";

const LARGE: &str = "source_faces 21600\ntarget_faces 28800\n";

// What stands behind this beginning.
fn behind<'a>(text: &'a [u8], beginning: &[u8]) -> Option<&'a [u8]> {
    if text.len() < beginning.len() {
        return None;
    }
    let (head, rest) = text.split_at(beginning.len());
    if head == beginning { Some(rest) } else { None }
}

// Whether these are the lines of two equal masses.
fn are_equal_masses(lines: &[u8]) -> bool {
    let (source, target) = lines.split_at(lines.len() / 2);
    match (
        behind(source, b"source_mass "),
        behind(target, b"target_mass "),
    ) {
        (Some(before), Some(after)) => before == after,
        _ => false,
    }
}

// A run that is done, though every first call of the files would fail: none is made.
fn done<R: Threads + Abort>(rt: &R, alloc: Global, text: &str) -> Result<Run, AllocError> {
    let mut row = Run::new(alloc);
    row.files = MemFiles::new(alloc, [1].to_vec(alloc)?);
    let status = row.go(rt, alloc, text)?;
    row.tells(rt, b"");
    same_at(rt, &status, &Status::Done, &text);
    Ok(row)
}

#[test]
fn the_smallest_self_run(rt: HostRuntime) -> Result<(), Fail> {
    let row = done(&rt, rt.alloc(), "SelfRun --n 1")?;
    let Some(masses) = behind(row.out.bytes(), SMALLEST.as_bytes()) else {
        return Err("other meshes".into());
    };
    assert!(rt; are_equal_masses(masses));
    Ok(())
}

// The large run twice, and with four workers.
#[test]
fn large_self_runs_are_equal(rt: HostRuntime) -> Result<(), Fail> {
    let first = done(&rt, rt.alloc(), "SelfRun --n 60")?;
    assert!(rt; behind(first.out.bytes(), LARGE.as_bytes()).is_some());
    for text in ["SelfRun --n 60", "SelfRun --n 60 --workers 4"] {
        let again = done(&rt, rt.alloc(), text)?;
        again.puts(&rt, first.out.bytes());
    }
    Ok(())
}

// The two masses stand behind the line of the pieces, which is the third one.
#[test]
fn large_masses_are_equal(rt: HostRuntime) -> Result<(), Fail> {
    let row = done(&rt, rt.alloc(), "SelfRun --n 60 --workers 4")?;
    let Some(rest) = behind(row.out.bytes(), LARGE.as_bytes()) else {
        return Err("other meshes".into());
    };
    let Some(end) = rest.iter().position(|byte| *byte == b'\n') else {
        return Err("no line of pieces".into());
    };
    assert!(rt; end < rest.len());
    assert!(rt; are_equal_masses(&rest[end + 1..]));
    Ok(())
}

#[test]
fn a_self_run_whose_output_fails(rt: HostRuntime) -> Result<(), Fail> {
    let mut row = Run::new(rt.alloc());
    row.out = MemSink::new(rt.alloc(), [1].to_vec(rt.alloc())?);
    let status = row.go(&rt, rt.alloc(), "SelfRun --n 1")?;
    same(&rt, &status, &Status::WriteFault);
    row.puts(&rt, b"");
    row.tells(&rt, b"tempest: write fault on output\n");
    Ok(())
}
