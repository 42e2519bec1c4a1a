// The real files and writers, of whose content nothing is told.
ghost use Rattle.std.specs.Io.KnownBytes.{Appends};
ghost use Rattle.std.specs.Prelude.{◌≡◌, length, OnOk, OnErr, IsErrOf, IsOkUnless};
ghost use Rattle.remap_io.specs.Causes.{held_sum};
ghost use Rattle.remap_io.specs.Host.{with_asked, seen_of_host, seen_of_writer};
ghost use Rattle.remap_io.specs.Outside.{NoCountFalls, NoPutCountFalls};

use crate::content::{Content, InMemory};
use crate::files::{FileErr, Files, PutErr};
use crate::replacing::replace_file;
use crate::sink::Sink;
use std::alloc::Global;
use std::io::{ErrorKind, Read, Seek, SeekFrom, Write};
use std::marker::Model;
use std::{fs, io};

/// The files of a runtime. One count rises at each name that isn't found, one at each other error
/// of `size` or `read_at`, a short read included, and one at each error of `replace`, and of
/// `replace_with` unless memory ran out. A regular file, or a name that is free, is replaced whole or
/// stays as it was; anything else is written in place.
#[derive(Drop)]
pub struct HostFiles<R: std::rt::Files> {
    rt: R,
    faults: u64,
    write_faults: u64,
    misses: u64,
    taken: u64,
}

impl<R: std::rt::Files> Model for HostFiles<R> {
    ghost use Rattle.remap_io.specs.Host.{HostCounts};

    ghost Value = { HostCounts };

    ghost view = { λ s. record {
      faults = s.faults;
      write_faults = s.write_faults;
      misses = s.misses;
      taken = s.taken;
    } };
}

impl<R: std::rt::Files> HostFiles<R> {
    /// The files of this runtime, with all counts 0.
    pub fn new(rt: R) -> HostFiles<R>
        ensures { result ≡ record { faults = 0; write_faults = 0; misses = 0; taken = 0 } }
    {
        HostFiles {
            rt,
            faults: 0,
            write_faults: 0,
            misses: 0,
            taken: 0,
        }
    }

    // Counts a miss, or a fault.
    fn missed_or_failed(&mut self, error: io::Error) -> FileErr
        ensures absent { result ≡ FileErr.Absent → self.new ≡
            record self.old { misses = held_sum self.old.misses 1 } }
        ensures failed { result ≡ FileErr.Failed → self.new ≡
            record self.old { faults = held_sum self.old.faults 1 } }
        ensures not_memory { ¬ (result ≡ FileErr.NoMemory) }
        ensures counts { NoCountFalls (seen_of_host self.old) (seen_of_host self.new) }
    {
        if error.kind() == ErrorKind::NotFound {
            self.misses = self.misses.saturating_add(1);
            FileErr::Absent
        } else {
            self.faults = self.faults.saturating_add(1);
            FileErr::Failed
        }
    }

    // Counts a failed replacement.
    fn failed_to_write(&mut self) -> PutErr
        ensures failed { result ≡ PutErr.Failed }
        ensures counted { self.new ≡
            record self.old { write_faults = held_sum self.old.write_faults 1 } }
        ensures counts { NoCountFalls (seen_of_host self.old) (seen_of_host self.new) }
    {
        self.write_faults = self.write_faults.saturating_add(1);
        PutErr::Failed
    }
}

// Fills the buffer with the bytes of the file from the offset on.
fn read_range<R: std::rt::Files>(rt: &R, name: &str, at: u64, buf: &mut [u8]) -> io::Result<()> {
    let mut file = fs::open(rt, name)?;
    file.seek(SeekFrom::Start(at))?;
    file.read_exact(buf)
}

impl<R: std::rt::Files> Files for HostFiles<R> {
    ghost use Rattle.remap_io.specs.Host.{seen_of_host};

    ghost seen = { seen_of_host };

    fn size(&mut self, name: &str) -> Result<u64, FileErr>
        ensures ok { OnOk result (self.new ≡ self.old) }
        ensures absent { IsErrOf result FileErr.Absent → self.new ≡
            record self.old { misses = held_sum self.old.misses 1 } }
        ensures failed { IsErrOf result FileErr.Failed → self.new ≡
            record self.old { faults = held_sum self.old.faults 1 } }
        ensures no_other { ¬ IsErrOf result FileErr.NoMemory }
        ensures counts { NoCountFalls (seen_of_host self.old) (seen_of_host self.new) }
    {
        match self.rt.metadata(name) {
            Ok(metadata) => Ok(metadata.len()),
            Err(error) => Err(self.missed_or_failed(error)),
        }
    }

    fn read_at(&mut self, name: &str, at: u64, buf: &mut [u8]) -> Result<(), FileErr>
        ensures ok { OnOk result (self.new ≡ with_asked self.old (length buf.old)) }
        ensures absent { IsErrOf result FileErr.Absent → self.new ≡
            record (with_asked self.old (length buf.old)) { misses = held_sum self.old.misses 1 } }
        ensures failed { IsErrOf result FileErr.Failed → self.new ≡
            record (with_asked self.old (length buf.old)) { faults = held_sum self.old.faults 1 } }
        ensures no_other { ¬ IsErrOf result FileErr.NoMemory }
        ensures counts { NoCountFalls (seen_of_host self.old) (seen_of_host self.new) }
    {
        self.taken = self.taken.saturating_add(buf.len() as u64);
        match read_range(&self.rt, name, at, buf) {
            Ok(()) => Ok(()),
            Err(error) => Err(self.missed_or_failed(error)),
        }
    }

    fn replace(&mut self, name: &str, bytes: &[u8]) -> Result<(), PutErr>
        ensures ok { OnOk result (self.new ≡ self.old) }
        ensures failed { OnErr result (self.new ≡
            record self.old { write_faults = held_sum self.old.write_faults 1 }) }
        ensures only_failed { IsOkUnless result PutErr.Failed }
        ensures counts { NoCountFalls (seen_of_host self.old) (seen_of_host self.new) }
    {
        match replace_file(&self.rt, None, name, &InMemory { bytes }) {
            Ok(()) => Ok(()),
            Err(_) => Err(self.failed_to_write()),
        }
    }

    fn replace_with<C: Content>(
        &mut self,
        alloc: Global,
        name: &str,
        content: &C,
    ) -> Result<(), PutErr>
        requires { C.can_write content.now }
        ensures ok { OnOk result (self.new ≡ self.old) }
        ensures failed { IsErrOf result PutErr.Failed → self.new ≡
            record self.old { write_faults = held_sum self.old.write_faults 1 } }
        ensures no_memory { IsErrOf result PutErr.NoMemory → self.new ≡ self.old }
        ensures counts { NoCountFalls (seen_of_host self.old) (seen_of_host self.new) }
    {
        match replace_file(&self.rt, Some(alloc), name, content) {
            Ok(()) => Ok(()),
            Err(error) if error.kind() == ErrorKind::OutOfMemory => Err(PutErr::NoMemory),
            Err(_) => Err(self.failed_to_write()),
        }
    }
}

/// Any writer of std. Each `put` writes all bytes and flushes, and an error of either is a fault.
#[derive(Drop)]
pub struct HostSink<W: Write> {
    writer: W,
    faults: u64,
}

impl<W: Write> Model for HostSink<W> {
    ghost use Rattle.remap_io.specs.Host.{WriterState};

    ghost Value = { WriterState };

    ghost view = { λ s. record { written = W.contents s.writer; faults = s.faults } };
}

impl<W: Write> HostSink<W> {
    /// The sink over this writer, with no fault yet.
    pub fn new(w: W) -> HostSink<W>
        ensures { result ≡ record { written = W.contents w; faults = 0 } }
    {
        HostSink {
            writer: w,
            faults: 0,
        }
    }
}

// Writes all bytes and flushes.
fn write_out<W: Write>(writer: &mut W, bytes: &[u8]) -> io::Result<()>
    ensures { OnOk result (Appends (W.contents writer.old) (W.contents writer.new) bytes.now) }
{
    writer.write_all(bytes)?;
    writer.flush()
}

impl<W: Write> Sink for HostSink<W> {
    ghost use Rattle.remap_io.specs.Host.{seen_of_writer};

    ghost seen = { seen_of_writer };

    fn put(&mut self, bytes: &[u8]) -> Result<(), PutErr>
        ensures written { OnOk result (Appends self.old.written self.new.written bytes.now) }
        ensures ok { OnOk result (self.new.faults ≡ self.old.faults) }
        ensures failed { OnErr result (self.new.faults ≡ held_sum self.old.faults 1) }
        ensures only_failed { IsOkUnless result PutErr.Failed }
        ensures counts { NoPutCountFalls (seen_of_writer self.old) (seen_of_writer self.new) }
    {
        match write_out(&mut self.writer, bytes) {
            Ok(()) => Ok(()),
            Err(_) => {
                self.faults = self.faults.saturating_add(1);
                Err(PutErr::Failed)
            }
        }
    }
}
