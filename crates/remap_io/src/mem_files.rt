// Files in memory, whose calls of given numbers fail.
ghost use Rattle.std.specs.Prelude.{◌≡◌, ◌+◌, ◌≤◌, ◌↔◌, length, slice_range, IfSome, IsSomeAnd, IfOk, IsErr, OnOk, OnErr, IsErrOf, IsOkUnless, option_copied};
ghost use Rattle.std.specs.FinMap as map;
ghost use Rattle.remap_io.specs.Folder.{file_at, with_file};
ghost use Rattle.remap_io.specs.Outside.{NoCountFalls};
ghost use Rattle.remap_io.specs.Memory.{seen_of_files, IsToFail, after_call, after_read, with_miss, with_fault, with_folder, with_torn_file};

use crate::files::{FileErr, Files, PutErr};
use crate::schedule::Schedule;
use crate::store::{self, MemFile};
use std::alloc::Global;
use std::marker::Model;

/// What a failing replacement leaves.
#[derive(Clone, Copy, Debug, PartialEq, Eq)]
pub enum Torn {
    /// The name as it was.
    Old,
    /// The first so many of the new bytes, or all of them where there are fewer.
    First(u64),
}

/// Files in memory. The calls of `Files` are counted from 1, each one, up to 2^64 - 1, where the
/// count stands still; those of the given numbers fail.
#[derive(Drop)]
pub struct MemFiles {
    alloc: Global,
    files: Vec<MemFile>,
    schedule: Schedule,
    torn: Torn,
    faults: u64,
    write_faults: u64,
    misses: u64,
    taken: u64,
}

impl Model for MemFiles {
    ghost use Rattle.std.specs.Coded.{codes};
    ghost use Rattle.remap_io.specs.Folder.{folder_code};
    ghost use Rattle.remap_io.specs.Memory.{FilesState};
    ghost use Rattle.remap_io.specs.Store.{folder_of};
    ghost use Rattle.remap_io.specs.contracts.mem_files.Torn as torn_contract;

    ghost Value = { FilesState };

    ghost coded = { Prim.hlevel (codes, folder_code, torn_contract.the_row.coded) };

    ghost view = { λ s. record {
      folder = folder_of s.files.items;
      fail = s.schedule.fail.items;
      calls = s.schedule.calls;
      torn = s.torn;
      faults = s.faults;
      write_faults = s.write_faults;
      misses = s.misses;
      taken = s.taken;
    } };
}

impl MemFiles {
    /// No files yet, and all counts 0. `fail` has the numbers of the calls that are to fail.
    pub fn new(alloc: Global, fail: Vec<u32>) -> MemFiles
        ensures { result ≡ record {
          folder = map.empty;
          fail = fail.items;
          calls = 0;
          torn = Torn.Old;
          faults = 0;
          write_faults = 0;
          misses = 0;
          taken = 0;
        } }
    {
        MemFiles {
            alloc,
            files: Vec::new(alloc),
            schedule: Schedule { fail, calls: 0 },
            torn: Torn::Old,
            faults: 0,
            write_faults: 0,
            misses: 0,
            taken: 0,
        }
    }

    /// The bytes of a file, and None exactly where there is no file of the name.
    pub fn get(&self, name: &str) -> Option<&[u8]>
        ensures { option_copied result ≡ file_at self.now.folder name.now }
    {
        store::bytes_of(&self.files, name)
    }

    /// Places a file, without a counted call. The error is NoMemory, and then nothing is changed.
    pub fn put_file(&mut self, name: &str, bytes: &[u8]) -> Result<(), PutErr>
        ensures ok { OnOk result (self.new ≡
            with_folder self.old (with_file self.old.folder name.now bytes.now)) }
        ensures err { OnErr result (self.new ≡ self.old) }
        ensures never_failed { IsOkUnless result PutErr.NoMemory }
    {
        match store::put(self.alloc, &mut self.files, name, bytes) {
            Ok(()) => Ok(()),
            Err(_) => Err(PutErr::NoMemory),
        }
    }

    /// How many bytes `read_at` was asked for, held at 2^64 - 1.
    pub fn taken(&self) -> u64
        ensures { result ≡ self.now.taken }
    {
        self.taken
    }

    /// Sets what a failing `replace` leaves.
    pub fn torn(&mut self, torn: Torn)
        ensures { self.new ≡ record self.old { torn = torn } }
    {
        self.torn = torn;
    }
}

impl Files for MemFiles {
    ghost use Rattle.remap_io.specs.Memory.{seen_of_files};

    ghost seen = { seen_of_files };

    fn size(&mut self, name: &str) -> Result<u64, FileErr>
        ensures answer { IfOk result (λ n.
            IsSomeAnd (file_at self.old.folder name.now) (λ bytes. n ≡ length bytes)) }
        ensures ok { OnOk result (self.new ≡ after_call self.old) }
        ensures absent_there { IsErrOf result FileErr.Absent →
            file_at self.old.folder name.now ≡ None }
        ensures absent { IsErrOf result FileErr.Absent →
            self.new ≡ with_miss (after_call self.old) }
        ensures listed { IsErrOf result FileErr.Failed ↔
            IsToFail self.old.fail self.old.calls }
        ensures failed { IsErrOf result FileErr.Failed →
            self.new ≡ with_fault (after_call self.old) }
        ensures needs_no_memory { ¬ IsErrOf result FileErr.NoMemory }
        ensures counts { NoCountFalls (seen_of_files self.old) (seen_of_files self.new) }
    {
        if self.schedule.next_fails() {
            return Err(self.fault());
        }
        match store::bytes_of(&self.files, name) {
            Some(bytes) => Ok(bytes.len() as u64),
            None => Err(self.miss()),
        }
    }

    fn read_at(&mut self, name: &str, at: u64, buf: &mut [u8]) -> Result<(), FileErr>
        requires in_file { IfSome (file_at self.old.folder name.now) (λ bytes.
            at + length buf.old ≤ length bytes) }
        ensures filled { OnOk result (IsSomeAnd (file_at self.old.folder name.now) (λ bytes.
            buf.new ≡ slice_range bytes at (at + length buf.old))) }
        ensures ok { OnOk result (self.new ≡ after_read self.old (length buf.old)) }
        ensures absent_there { IsErrOf result FileErr.Absent →
            file_at self.old.folder name.now ≡ None }
        ensures absent { IsErrOf result FileErr.Absent →
            self.new ≡ with_miss (after_read self.old (length buf.old)) }
        ensures listed { IsErrOf result FileErr.Failed ↔
            IsToFail self.old.fail self.old.calls }
        ensures failed { IsErrOf result FileErr.Failed →
            self.new ≡ with_fault (after_read self.old (length buf.old)) }
        ensures needs_no_memory { ¬ IsErrOf result FileErr.NoMemory }
        ensures counts { NoCountFalls (seen_of_files self.old) (seen_of_files self.new) }
    {
        self.taken = self.taken.saturating_add(buf.len() as u64);
        if self.schedule.next_fails() {
            return Err(self.fault());
        }
        match store::bytes_of(&self.files, name) {
            Some(bytes) => {
                let at = at as usize;
                buf.copy_from_slice(&bytes[at..at + buf.len()]);
                Ok(())
            }
            None => Err(self.miss()),
        }
    }

    fn replace(&mut self, name: &str, bytes: &[u8]) -> Result<(), PutErr>
        ensures ok { OnOk result (self.new ≡
            with_folder (after_call self.old) (with_file self.old.folder name.now bytes.now)) }
        ensures listed { IsToFail self.old.fail self.old.calls → IsErr result }
        ensures only_listed { IsErrOf result PutErr.Failed →
            IsToFail self.old.fail self.old.calls }
        ensures failed { IsErrOf result PutErr.Failed → self.new ≡
            with_torn_file (after_call self.old) name.now bytes.now }
        ensures no_memory { IsErrOf result PutErr.NoMemory → self.new ≡ after_call self.old }
        ensures stores_nothing { IsToFail self.old.fail self.old.calls →
            self.old.torn ≡ Torn.Old → result ≡ Err PutErr.Failed }
        ensures counts { NoCountFalls (seen_of_files self.old) (seen_of_files self.new) }
    {
        if self.schedule.next_fails() {
            return Err(self.fail_to_replace(name, bytes));
        }
        self.put_file(name, bytes)
    }
}

impl MemFiles {
    // Counts a failed read.
    fn fault(&mut self) -> FileErr
        ensures fault { result ≡ FileErr.Failed }
        ensures counted { self.new ≡ with_fault self.old }
        ensures counts { NoCountFalls (seen_of_files self.old) (seen_of_files self.new) }
    {
        self.faults = self.faults.saturating_add(1);
        FileErr::Failed
    }

    // Counts a name that isn't there.
    fn miss(&mut self) -> FileErr
        ensures miss { result ≡ FileErr.Absent }
        ensures counted { self.new ≡ with_miss self.old }
        ensures counts { NoCountFalls (seen_of_files self.old) (seen_of_files self.new) }
    {
        self.misses = self.misses.saturating_add(1);
        FileErr::Absent
    }

    // Leaves what a failing replacement leaves, and counts it.
    fn fail_to_replace(&mut self, name: &str, bytes: &[u8]) -> PutErr
        ensures failed { result ≡ PutErr.Failed → self.new ≡
            with_torn_file self.old name.now bytes.now }
        ensures no_memory { result ≡ PutErr.NoMemory → self.new ≡ self.old }
        ensures old { self.old.torn ≡ Torn.Old → result ≡ PutErr.Failed }
        ensures counts { NoCountFalls (seen_of_files self.old) (seen_of_files self.new) }
    {
        if let Torn::First(n) = self.torn {
            let n = (n as usize).min(bytes.len());
            if let Err(error) = self.put_file(name, &bytes[..n]) {
                return error;
            }
        }
        self.write_faults = self.write_faults.saturating_add(1);
        PutErr::Failed
    }
}
