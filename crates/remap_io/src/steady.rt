// Files and a sink in memory that never fail for another cause than memory.
ghost use Rattle.std.specs.Prelude.{◌≡◌, ◌+◌, ◌≤◌, ◌++◌, [], length, slice_range, IfSome, IsSomeAnd, IfOk, OnOk, OnErr, IsOkUnless, option_copied};
ghost use Rattle.std.specs.FinMap as map;
ghost use Rattle.remap_io.specs.Causes.{held_sum};
ghost use Rattle.remap_io.specs.Folder.{file_at, with_file};
ghost use Rattle.remap_io.specs.Memory.{seen_of_steady_files, seen_of_steady_sink};
ghost use Rattle.remap_io.specs.Outside.{NoCountFalls, NoPutCountFalls};

use crate::files::{FileErr, Files, PutErr};
use crate::sink::Sink;
use crate::store::{self, MemFile};
use std::alloc::Global;
use std::marker::Model;

/// Files in memory that keep no count of faults, and so never answer Failed.
#[derive(Drop)]
pub struct SteadyFiles {
    alloc: Global,
    files: Vec<MemFile>,
    misses: u64,
    taken: u64,
}

impl Model for SteadyFiles {
    ghost use Rattle.std.specs.Coded.{codes};
    ghost use Rattle.remap_io.specs.Folder.{folder_code};
    ghost use Rattle.remap_io.specs.Memory.{SteadyFilesState};
    ghost use Rattle.remap_io.specs.Store.{folder_of};

    ghost Value = { SteadyFilesState };

    ghost coded = { Prim.hlevel (codes, folder_code) };

    ghost view = { λ s. record {
      folder = folder_of s.files.items;
      misses = s.misses;
      taken = s.taken;
    } };
}

impl SteadyFiles {
    /// No files yet, and all counts 0.
    pub fn new(alloc: Global) -> SteadyFiles
        ensures { result ≡ record { folder = map.empty; misses = 0; taken = 0 } }
    {
        SteadyFiles {
            alloc,
            files: Vec::new(alloc),
            misses: 0,
            taken: 0,
        }
    }

    /// The bytes of a file, and None exactly where there is no file of the name.
    pub fn get(&self, name: &str) -> Option<&[u8]>
        ensures { option_copied result ≡ file_at self.now.folder name.now }
    {
        store::bytes_of(&self.files, name)
    }

    /// How many bytes `read_at` was asked for, held at 2^64 - 1.
    pub fn taken(&self) -> u64
        ensures { result ≡ self.now.taken }
    {
        self.taken
    }
}

impl Files for SteadyFiles {
    ghost use Rattle.remap_io.specs.Memory.{seen_of_steady_files};

    ghost seen = { seen_of_steady_files };

    fn size(&mut self, name: &str) -> Result<u64, FileErr>
        ensures answer { IfOk result (λ n. IsSomeAnd (file_at self.old.folder name.now) (λ bytes.
            n ≡ length bytes)) }
        ensures ok { OnOk result (self.new ≡ self.old) }
        ensures absent_there { OnErr result (file_at self.old.folder name.now ≡ None) }
        ensures absent { OnErr result (self.new ≡
            record self.old { misses = held_sum self.old.misses 1 }) }
        ensures only_absent { IsOkUnless result FileErr.Absent }
        ensures counts { NoCountFalls
            (seen_of_steady_files self.old) (seen_of_steady_files self.new) }
    {
        match store::bytes_of(&self.files, name) {
            Some(bytes) => Ok(bytes.len() as u64),
            None => {
                self.misses = self.misses.saturating_add(1);
                Err(FileErr::Absent)
            }
        }
    }

    fn read_at(&mut self, name: &str, at: u64, buf: &mut [u8]) -> Result<(), FileErr>
        requires in_file { IfSome (file_at self.old.folder name.now) (λ bytes.
            at + length buf.old ≤ length bytes) }
        ensures filled { OnOk result (IsSomeAnd (file_at self.old.folder name.now) (λ bytes.
            buf.new ≡ slice_range bytes at (at + length buf.old))) }
        ensures ok { OnOk result (self.new ≡
            record self.old { taken = held_sum self.old.taken (length buf.old) }) }
        ensures absent_there { OnErr result (file_at self.old.folder name.now ≡ None) }
        ensures absent { OnErr result (self.new ≡
            record self.old {
              taken = held_sum self.old.taken (length buf.old);
              misses = held_sum self.old.misses 1;
            }) }
        ensures only_absent { IsOkUnless result FileErr.Absent }
        ensures counts { NoCountFalls
            (seen_of_steady_files self.old) (seen_of_steady_files self.new) }
    {
        self.taken = self.taken.saturating_add(buf.len() as u64);
        match store::bytes_of(&self.files, name) {
            Some(bytes) => {
                let at = at as usize;
                buf.copy_from_slice(&bytes[at..at + buf.len()]);
                Ok(())
            }
            None => {
                self.misses = self.misses.saturating_add(1);
                Err(FileErr::Absent)
            }
        }
    }

    fn replace(&mut self, name: &str, bytes: &[u8]) -> Result<(), PutErr>
        ensures ok { OnOk result (self.new ≡
            record self.old { folder = with_file self.old.folder name.now bytes.now }) }
        ensures err { OnErr result (self.new ≡ self.old) }
        ensures never_failed { IsOkUnless result PutErr.NoMemory }
    {
        match store::put(self.alloc, &mut self.files, name, bytes) {
            Ok(()) => Ok(()),
            Err(_) => Err(PutErr::NoMemory),
        }
    }
}

/// A sink in memory that fails for want of memory alone.
#[derive(Drop)]
pub struct SteadySink {
    held: Vec<u8>,
    refusals: u64,
}

impl Model for SteadySink {
    ghost use Rattle.remap_io.specs.Memory.{SteadySinkState};

    ghost Value = { SteadySinkState };

    ghost view = { λ s. record { bytes = s.held.items; refusals = s.refusals } };
}

impl SteadySink {
    /// Nothing held yet, and all counts 0.
    pub fn new(alloc: Global) -> SteadySink
        ensures { result ≡ record { bytes = []; refusals = 0 } }
    {
        SteadySink {
            held: Vec::new(alloc),
            refusals: 0,
        }
    }

    /// What was put.
    pub fn bytes(&self) -> &[u8]
        ensures { result.now ≡ self.now.bytes }
    {
        &self.held
    }
}

impl Sink for SteadySink {
    ghost use Rattle.remap_io.specs.Memory.{seen_of_steady_sink};

    ghost seen = { seen_of_steady_sink };

    fn put(&mut self, bytes: &[u8]) -> Result<(), PutErr>
        ensures ok { OnOk result (self.new ≡
            record self.old { bytes = self.old.bytes ++ bytes.now }) }
        ensures err { OnErr result (self.new ≡
            record self.old { refusals = held_sum self.old.refusals 1 }) }
        ensures never_failed { IsOkUnless result PutErr.NoMemory }
        ensures counts { NoPutCountFalls
            (seen_of_steady_sink self.old) (seen_of_steady_sink self.new) }
    {
        match self.held.extend_from_slice(bytes) {
            Ok(()) => Ok(()),
            Err(_) => {
                self.refusals = self.refusals.saturating_add(1);
                Err(PutErr::NoMemory)
            }
        }
    }
}
