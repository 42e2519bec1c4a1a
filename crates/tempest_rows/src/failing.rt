// Calls of files and sinks that fail.
use crate::generators::CS1;
use crate::runs::{Run, same};
use remap_io::{MemFiles, MemSink, Torn};
use std::alloc::{AllocError, Global};
use std::test::Fail;
use tempest_top::Status;

const WORDS: &str = "GenerateCSMesh --res 1 --file cs1.g";

// The numbers of the calls that fail: the first one.
fn first(alloc: Global) -> Result<Vec<u32>, AllocError> {
    [1].to_vec(alloc)
}

// Nothing is there, and the first call of the files fails.
fn with_failing_files(alloc: Global) -> Result<Run, AllocError> {
    let mut row = Run::new(alloc);
    row.files = MemFiles::new(alloc, first(alloc)?);
    Ok(row)
}

#[test]
fn a_failing_replacement_leaves_the_old_file(rt: HostRuntime) -> Result<(), Fail> {
    let mut row = with_failing_files(rt.alloc())?;
    let status = row.go(&rt, rt.alloc(), WORDS)?;
    same(&rt, &status, &Status::WriteFault);
    row.tells(&rt, b"tempest: write fault on cs1.g\n");
    row.puts(&rt, b"");
    row.holds(&rt, "cs1.g", None);
    // The same words again, over the same files.
    let again = row.go(&rt, rt.alloc(), WORDS)?;
    same(&rt, &again, &Status::Done);
    row.holds(&rt, "cs1.g", Some(CS1.as_slice()));
    Ok(())
}

#[test]
fn a_torn_replacement_leaves_a_prefix(rt: HostRuntime) -> Result<(), Fail> {
    let mut row = with_failing_files(rt.alloc())?;
    row.files.torn(Torn::First(100));
    let status = row.go(&rt, rt.alloc(), WORDS)?;
    same(&rt, &status, &Status::WriteFault);
    row.holds(&rt, "cs1.g", Some(&CS1[..100]));
    Ok(())
}

#[test]
fn a_failing_output_leaves_the_whole_file(rt: HostRuntime) -> Result<(), Fail> {
    let mut row = Run::new(rt.alloc());
    row.out = MemSink::new(rt.alloc(), first(rt.alloc())?);
    row.out.torn(5);
    let status = row.go(&rt, rt.alloc(), WORDS)?;
    same(&rt, &status, &Status::WriteFault);
    row.tells(&rt, b"tempest: write fault on output\n");
    row.puts(&rt, b"faces");
    row.holds(&rt, "cs1.g", Some(CS1.as_slice()));
    Ok(())
}

#[test]
fn a_failing_error_output_keeps_the_status(rt: HostRuntime) -> Result<(), Fail> {
    let mut row = Run::new(rt.alloc());
    row.err = MemSink::new(rt.alloc(), first(rt.alloc())?);
    row.err.torn(4);
    let status = row.go(&rt, rt.alloc(), "GenerateCSMesh")?;
    same(&rt, &status, &Status::Usage);
    row.tells(&rt, b"temp");
    Ok(())
}
