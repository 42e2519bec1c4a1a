// How files are read, and files that can't be read.
use crate::generators::CS1;
use crate::runs::{Run, same, same_at, words_of};
use remap_io::{FileErr, Files, MemFiles, MemSink, PutErr, Torn};
use std::test::Fail;
use tempest_top::{Status, run};

const WORDS: &str = "GenerateOverlapMesh --a cs1.g --b cs1.g --out o.g";

#[test]
fn a_missing_file_is_told(rt: HostRuntime) -> Result<(), Fail> {
    let mut row = Run::new(rt.alloc());
    row.place("cs1.g", &CS1)?;
    let text = "GenerateOverlapMesh --a cs1.g --b none.g --out o.g";
    same(&rt, &row.go(&rt, rt.alloc(), text)?, &Status::NoFile);
    row.tells(&rt, b"tempest: no file none.g\n");
    row.holds(&rt, "o.g", None);
    Ok(())
}

// Calls 1 and 2 are of the source mesh, 3 and 4 of the target mesh: the line names its file.
#[test]
fn a_failing_read_is_told_and_the_same_words_can_run_again(rt: HostRuntime) -> Result<(), Fail> {
    let words = "GenerateOverlapMesh --a cs1.g --b other.g --out o.g";
    for (call, line) in [
        (1u32, b"tempest: read fault on cs1.g\n".as_slice()),
        (2, b"tempest: read fault on cs1.g\n".as_slice()),
        (3, b"tempest: read fault on other.g\n".as_slice()),
        (4, b"tempest: read fault on other.g\n".as_slice()),
    ] {
        let mut row = Run::new(rt.alloc());
        row.files = MemFiles::new(rt.alloc(), [call].to_vec(rt.alloc())?);
        row.place("cs1.g", &CS1)?;
        row.place("other.g", &CS1)?;
        same_at(
            &rt,
            &row.go(&rt, rt.alloc(), words)?,
            &Status::ReadFault,
            &call,
        );
        row.tells(&rt, line);
        row.holds(&rt, "o.g", None);
        row.renew_sinks(rt.alloc());
        same_at(&rt, &row.go(&rt, rt.alloc(), words)?, &Status::Done, &call);
        row.puts(&rt, b"pieces 6\n");
    }
    Ok(())
}

#[test]
fn a_failing_write_is_told(rt: HostRuntime) -> Result<(), Fail> {
    let mut row = Run::new(rt.alloc());
    row.files = MemFiles::new(rt.alloc(), [5].to_vec(rt.alloc())?);
    row.place("cs1.g", &CS1)?;
    same(&rt, &row.go(&rt, rt.alloc(), WORDS)?, &Status::WriteFault);
    row.tells(&rt, b"tempest: write fault on o.g\n");
    row.holds(&rt, "o.g", None);
    Ok(())
}

#[test]
fn a_failing_output_leaves_the_whole_overlap(rt: HostRuntime) -> Result<(), Fail> {
    let mut row = Run::new(rt.alloc());
    row.out = MemSink::new(rt.alloc(), [1].to_vec(rt.alloc())?);
    row.place("cs1.g", &CS1)?;
    same(&rt, &row.go(&rt, rt.alloc(), WORDS)?, &Status::WriteFault);
    row.tells(&rt, b"tempest: write fault on output\n");
    same(
        &rt,
        &row.files.get("o.g").map(|bytes| bytes.len()),
        &Some(760),
    );
    Ok(())
}

#[test]
fn a_torn_mesh_file_is_told(rt: HostRuntime) -> Result<(), Fail> {
    let mut row = Run::new(rt.alloc());
    row.files = MemFiles::new(rt.alloc(), [1].to_vec(rt.alloc())?);
    row.files.torn(Torn::First(100));
    row.go(&rt, rt.alloc(), "GenerateCSMesh --res 1 --file cs1.g")?;
    row.renew_sinks(rt.alloc());
    same(&rt, &row.go(&rt, rt.alloc(), WORDS)?, &Status::Format);
    row.tells(&rt, b"tempest: cs1.g: truncated at 92\n");
    Ok(())
}

// The larger mesh file is read in parts: its first 65,536 bytes, then the values behind them. A
// seventh call that fails shows that there are seven: it is the replacement.
#[test]
fn a_large_mesh_is_read_in_parts(rt: HostRuntime) -> Result<(), Fail> {
    let mut row = Run::new(rt.alloc());
    row.go(&rt, rt.alloc(), "GenerateCSMesh --res 60 --file cs60.g")?;
    let large = row.files.get("cs60.g").unwrap_or(b"").to_vec(rt.alloc())?;
    row.files = MemFiles::new(rt.alloc(), [7].to_vec(rt.alloc())?);
    row.place("cs60.g", &large)?;
    row.place("cs1.g", &CS1)?;
    row.renew_sinks(rt.alloc());
    let text = "GenerateOverlapMesh --a cs60.g --b cs1.g --out o.g";
    same(&rt, &row.go(&rt, rt.alloc(), text)?, &Status::WriteFault);
    same(&rt, &row.files.taken(), &670_800);
    row.renew_sinks(rt.alloc());
    same(&rt, &row.go(&rt, rt.alloc(), text)?, &Status::Done);
    row.puts(&rt, b"pieces 21600\n");
    same(&rt, &row.files.taken(), &(2 * 670_800));
    Ok(())
}

// What follows the values of a mesh file isn't read, but for the first 65,536 bytes of the file.
#[test]
fn a_long_tail_is_not_read(rt: HostRuntime) -> Result<(), Fail> {
    let mut bytes = CS1.to_vec(rt.alloc())?;
    bytes.resize(1_000_440, 0)?;
    let mut row = Run::new(rt.alloc());
    row.place("cs1.g", &bytes)?;
    same(&rt, &row.go(&rt, rt.alloc(), WORDS)?, &Status::Done);
    row.puts(&rt, b"pieces 6\n");
    same(&rt, &row.files.taken(), &131_072);
    Ok(())
}

/// Files that tell nothing of what they hold. Every file is said to be one byte too long.
#[derive(Drop)]
pub struct LongFiles;

impl Files for LongFiles {
    ghost use Rattle.std.specs.Prelude.{None};

    ghost seen = { λ _. record {
      folder = None;
      faults = 18446744073709551615;
      write_faults = 18446744073709551615;
      misses = 18446744073709551615;
      taken = 18446744073709551615;
    } };

    fn size(&mut self, _name: &str) -> Result<u64, FileErr> {
        Ok(2_147_483_648)
    }

    fn read_at(&mut self, _name: &str, _at: u64, _buf: &mut [u8]) -> Result<(), FileErr> {
        Err(FileErr::Failed)
    }

    fn replace(&mut self, _name: &str, _bytes: &[u8]) -> Result<(), PutErr> {
        Err(PutErr::Failed)
    }
}

#[test]
fn a_file_too_long_is_told(rt: HostRuntime) -> Result<(), Fail> {
    let alloc = rt.alloc();
    let words = words_of(alloc, "GenerateOverlapMesh --a big.g --b cs1.g --out o.g")?;
    let mut out = MemSink::new(alloc, Vec::new(alloc));
    let mut err = MemSink::new(alloc, Vec::new(alloc));
    let status = run(&rt, alloc, &words, &mut LongFiles, &mut out, &mut err);
    same(&rt, &status, &Status::Limit);
    same(
        &rt,
        &err.bytes(),
        &b"tempest: big.g: 2147483648 bytes\n".as_slice(),
    );
    Ok(())
}
