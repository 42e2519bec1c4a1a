// What no clause says: real files and writers, and that calls succeed.
use crate::compared::same;
use remap_io::{
    FileErr, Files, HostFiles, HostSink, MemFiles, MemSink, PutErr, Sink, SteadyFiles, SteadySink,
    Torn,
};
use std::fs;
use std::io::{self, Error, ErrorKind, Write};
use std::test::Fail;

#[test]
fn real_files_are_replaced_and_read(rt: HostRuntime) -> Result<(), Fail> {
    let mut files = HostFiles::new(rt);
    let mut part = [0u8; 3];
    same(&rt, &files.size("no_such.tmp"), &Err(FileErr::Absent));
    same(
        &rt,
        &files.read_at("no_such.tmp", 0, &mut part),
        &Err(FileErr::Absent),
    );
    same(
        &rt,
        &files.replace("no_such/a.tmp", b"hello"),
        &Err(PutErr::Failed),
    );
    same(
        &rt,
        &files.read_at(".", 0, &mut part),
        &Err(FileErr::Failed),
    );
    same(&rt, &files.replace("a.tmp", b"a longer text"), &Ok(()));
    same(&rt, &files.replace("a.tmp", b"hello"), &Ok(()));
    same(&rt, &files.size("a.tmp"), &Ok(5));
    same(&rt, &files.read_at("a.tmp", 1, &mut part), &Ok(()));
    same(&rt, &part.as_slice(), &b"ell".as_slice());
    same(
        &rt,
        &files.read_at("a.tmp", 3, &mut part),
        &Err(FileErr::Failed),
    );
    fs::remove_file(&rt, "a.tmp")?;
    Ok(())
}

// Keeps what is written, and how much of it was flushed; from some length on it fails.
#[derive(Drop)]
struct Tape {
    bytes: Vec<u8>,
    flushed: usize,
    room: usize,
}

impl Write for Tape {
    fn write(&mut self, buf: &[u8]) -> io::Result<usize> {
        match buf.first() {
            Some(byte) if self.bytes.len() < self.room => {
                self.bytes.push(*byte)?;
                Ok(1)
            }
            Some(_) => Err(Error::from(ErrorKind::StorageFull)),
            None => Ok(0),
        }
    }

    fn flush(&mut self) -> io::Result<()> {
        if self.bytes.len() < self.room {
            self.flushed = self.bytes.len();
            Ok(())
        } else {
            Err(Error::from(ErrorKind::StorageFull))
        }
    }
}

#[test]
fn a_real_writer_has_all_bytes_flushed(rt: HostRuntime) -> Result<(), Fail> {
    let mut tape = Tape {
        bytes: Vec::new(rt.alloc()),
        flushed: 0,
        room: 9,
    };
    let mut sink = HostSink::new(&mut tape);
    same(&rt, &sink.put(b"hello"), &Ok(()));
    same(&rt, &sink.put(b"you"), &Ok(()));
    same(&rt, &sink.put(b"!"), &Err(PutErr::Failed));
    same(&rt, &sink.put(b"?"), &Err(PutErr::Failed));
    same(&rt, &tape.bytes.as_slice(), &b"helloyou!".as_slice());
    same(&rt, &tape.flushed, &8);
    Ok(())
}

#[test]
fn listed_calls_of_files_fail(rt: HostRuntime) -> Result<(), Fail> {
    for (listed, size, read, replaced, left) in [
        (1, Err(FileErr::Failed), Ok(()), Ok(()), b"new"),
        (2, Ok(3), Err(FileErr::Failed), Ok(()), b"new"),
        (3, Ok(3), Ok(()), Err(PutErr::Failed), b"old"),
        (4, Ok(3), Ok(()), Ok(()), b"new"),
    ] {
        let mut files = MemFiles::new(rt.alloc(), [listed].to_vec(rt.alloc())?);
        same(&rt, &files.put_file("a.g", b"old"), &Ok(()));
        same(&rt, &files.size("a.g"), &size);
        same(&rt, &files.read_at("a.g", 0, &mut []), &read);
        same(&rt, &files.replace("a.g", b"new"), &replaced);
        same(&rt, &files.get("a.g"), &Some(left.as_slice()));
    }
    Ok(())
}

#[test]
fn a_torn_replacement_leaves_a_prefix(rt: HostRuntime) -> Result<(), Fail> {
    let mut files = MemFiles::new(rt.alloc(), [1].to_vec(rt.alloc())?);
    files.torn(Torn::First(2));
    same(&rt, &files.replace("a.g", b"new"), &Err(PutErr::Failed));
    same(&rt, &files.get("a.g"), &Some(b"ne".as_slice()));
    same(&rt, &files.size("none.g"), &Err(FileErr::Absent));
    same(&rt, &files.taken(), &0);
    Ok(())
}

#[test]
fn listed_puts_of_a_sink_fail(rt: HostRuntime) -> Result<(), Fail> {
    let alloc = rt.alloc();
    let mut sink = MemSink::new(alloc, [1, 3, 4].to_vec(alloc)?);
    same(&rt, &sink.put(b"one"), &Err(PutErr::Failed));
    same(&rt, &sink.put(b"two"), &Ok(()));
    sink.torn(2);
    same(&rt, &sink.put(b"three"), &Err(PutErr::Failed));
    same(&rt, &sink.put(b"4"), &Err(PutErr::Failed));
    same(&rt, &sink.bytes(), &b"twoth4".as_slice());
    Ok(())
}

#[test]
fn steady_files_and_sinks_hold_what_they_are_given(rt: HostRuntime) -> Result<(), Fail> {
    let mut files = SteadyFiles::new(rt.alloc());
    let mut sink = SteadySink::new(rt.alloc());
    let mut part = [0u8; 2];
    same(&rt, &files.size("a.g"), &Err(FileErr::Absent));
    same(&rt, &files.replace("a.g", b"hello"), &Ok(()));
    // (what is read next lies within these bytes)
    assert!(rt; files.size("a.g") == Ok(5));
    same(&rt, &files.read_at("a.g", 3, &mut part), &Ok(()));
    same(&rt, &part.as_slice(), &b"lo".as_slice());
    same(&rt, &files.get("a.g"), &Some(b"hello".as_slice()));
    same(&rt, &files.taken(), &2);
    same(&rt, &sink.put(&part), &Ok(()));
    same(&rt, &sink.bytes(), &b"lo".as_slice());
    Ok(())
}
