// A sink in memory, whose puts of given numbers fail.
ghost use Rattle.std.specs.Prelude.{◌≡◌, [], take, IsErr, IsOk, OnOk, OnErr, IsErrOf, IsOkUnless};
ghost use Rattle.remap_io.specs.Outside.{NoPutCountFalls};
ghost use Rattle.remap_io.specs.Memory.{seen_of_sink, IsToFail, after_put, with_bytes, with_torn_bytes, with_refusal};

use crate::files::PutErr;
use crate::schedule::Schedule;
use crate::sink::Sink;
use std::alloc::Global;
use std::marker::Model;

/// A sink in memory. Its puts are counted from 1, up to 2^64 - 1, where the count stands still;
/// those of the given numbers fail.
#[derive(Drop)]
pub struct MemSink {
    held: Vec<u8>,
    schedule: Schedule,
    torn: u64,
    faults: u64,
    refusals: u64,
}

impl Model for MemSink {
    ghost use Rattle.remap_io.specs.Memory.{SinkState};

    ghost Value = { SinkState };

    ghost view = { λ s. record {
      bytes = s.held.items;
      fail = s.schedule.fail.items;
      calls = s.schedule.calls;
      torn = s.torn;
      faults = s.faults;
      refusals = s.refusals;
    } };
}

impl MemSink {
    /// Nothing held yet, and all counts 0. `fail` has the numbers of the puts that are to fail.
    pub fn new(alloc: Global, fail: Vec<u32>) -> MemSink
        ensures { result ≡ record {
          bytes = [];
          fail = fail.items;
          calls = 0;
          torn = 0;
          faults = 0;
          refusals = 0;
        } }
    {
        MemSink {
            held: Vec::new(alloc),
            schedule: Schedule { fail, calls: 0 },
            torn: 0,
            faults: 0,
            refusals: 0,
        }
    }

    /// What was put.
    pub fn bytes(&self) -> &[u8]
        ensures { result.now ≡ self.now.bytes }
    {
        &self.held
    }

    /// Sets how many bytes a failing `put` appends: the first `n`, or all where there are fewer.
    pub fn torn(&mut self, n: u64)
        ensures { self.new ≡ record self.old { torn = n } }
    {
        self.torn = n;
    }
}

impl Sink for MemSink {
    ghost use Rattle.remap_io.specs.Memory.{seen_of_sink};

    ghost seen = { seen_of_sink };

    fn put(&mut self, bytes: &[u8]) -> Result<(), PutErr>
        ensures ok { OnOk result (self.new ≡ with_bytes (after_put self.old) bytes.now) }
        ensures listed { IsToFail self.old.fail self.old.calls → IsErr result }
        ensures only_listed { IsErrOf result PutErr.Failed →
            IsToFail self.old.fail self.old.calls }
        ensures failed { IsErrOf result PutErr.Failed → self.new ≡
            with_torn_bytes (after_put self.old) bytes.now }
        ensures no_memory { IsErrOf result PutErr.NoMemory →
            self.new ≡ with_refusal (after_put self.old) }
        ensures stores_nothing { IsToFail self.old.fail self.old.calls →
            take self.old.torn bytes.now ≡ [] → result ≡ Err PutErr.Failed }
        ensures counts { NoPutCountFalls (seen_of_sink self.old) (seen_of_sink self.new) }
    {
        if self.schedule.next_fails() {
            return Err(self.fail_to_put(bytes));
        }
        self.append(bytes)
    }
}

impl MemSink {
    // Appends these bytes, or counts that memory ran out.
    fn append(&mut self, bytes: &[u8]) -> Result<(), PutErr>
        ensures ok { OnOk result (self.new ≡ with_bytes self.old bytes.now) }
        ensures err { OnErr result (self.new ≡ with_refusal self.old) }
        ensures no_other { IsOkUnless result PutErr.NoMemory }
        ensures nothing { bytes.now ≡ [] → IsOk result }
        ensures counts { NoPutCountFalls (seen_of_sink self.old) (seen_of_sink self.new) }
    {
        if bytes.is_empty() || self.held.extend_from_slice(bytes).is_ok() {
            return Ok(());
        }
        self.refusals = self.refusals.saturating_add(1);
        Err(PutErr::NoMemory)
    }

    // Appends what a failing put appends, and counts it.
    fn fail_to_put(&mut self, bytes: &[u8]) -> PutErr
        ensures failed { result ≡ PutErr.Failed → self.new ≡ with_torn_bytes self.old bytes.now }
        ensures no_memory { result ≡ PutErr.NoMemory → self.new ≡ with_refusal self.old }
        ensures nothing { take self.old.torn bytes.now ≡ [] → result ≡ PutErr.Failed }
        ensures counts { NoPutCountFalls (seen_of_sink self.old) (seen_of_sink self.new) }
    {
        let kept = (self.torn as usize).min(bytes.len());
        match self.append(&bytes[..kept]) {
            Ok(()) => {
                self.faults = self.faults.saturating_add(1);
                PutErr::Failed
            }
            Err(error) => error,
        }
    }
}
