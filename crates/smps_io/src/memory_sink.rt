//! Output in memory.
ghost use Rattle.std.specs.Prelude.{◌≡◌, ◌≤◌, ◌<◌, ◌↔◌, ◌+◌, Some, Contains, take, length, IfOk, OnErr, IsErrOf};
ghost use Rattle.smps_io.specs.Faults.{counted, RoseBy};
ghost use Rattle.smps_io.specs.Puts.{Appends, SinkHasCause};
ghost use Rattle.smps_io.specs.declared.sink.SinkFault.TheVariants.{Failed};

use crate::sink::{Sink, SinkFault};
use std::alloc::Global;

/// Output in memory that takes at most `chunk` bytes a call. The calls numbered in `fails`, counted
/// from 1, fail.
#[derive(Drop)]
pub struct MemorySink {
    bytes: Vec<u8>,
    calls: u64,
    faults: u64,
    taken: u64,
    chunk: u64,
    fails: Vec<u64>,
    ghost takes_some: { 0 < chunk },
}

impl MemorySink {
    ghost use Rattle.std.specs.Prelude.{◌≡◌, ◌<◌, []};
    ghost use Rattle.smps_io.specs.MemorySink.{written_bytes, failing_calls};

    /// An output with nothing written; `chunk` is at least 1.
    pub fn new(alloc: Global, chunk: u64, fails: Vec<u64>) -> MemorySink
        requires { 0 < chunk }
        ensures written { written_bytes result ≡ [] }
        ensures fails { failing_calls result ≡ fails.items }
    {
        MemorySink {
            bytes: Vec::new(alloc),
            calls: 0,
            faults: 0,
            taken: 0,
            chunk,
            fails,
        }
    }

    /// The bytes written so far.
    pub fn bytes(&self) -> &[u8]
        ensures { result.now ≡ written_bytes self.now }
    {
        &self.bytes
    }
}

impl Sink for MemorySink {
    ghost written = { λ s. Some s.bytes.items };

    ghost faults = { λ s. s.faults };

    ghost taken = { λ s. s.taken };

    fn put<R: Print>(&mut self, _rt: &R, bytes: &[u8]) -> Result<u64, SinkFault>
        requires { 0 < length bytes.now }
        ensures some { IfOk result (λ k. (0 < k) × (k ≤ length bytes.now)) }
        ensures appended { IfOk result (λ k. Appends (Some self.old.bytes.items) (take k bytes.now) (Some self.new.bytes.items)) }
        ensures nothing { OnErr result (Some self.new.bytes.items ≡ Some self.old.bytes.items) }
        ensures counts { IfOk result (λ k. RoseBy self.old.taken k self.new.taken) }
        ensures counts_none { OnErr result (self.new.taken ≡ self.old.taken) }
        ensures cause { SinkHasCause self.old.faults self.new.faults result }
        ensures failed { IsErrOf result Failed ↔ Contains self.old.fails.items (counted self.old.calls 1) }
        ensures chunk { IfOk result (λ k. k ≤ self.old.chunk) }
        ensures calls { self.new.calls ≡ counted self.old.calls 1 }
        ensures stays { self.new.fails.items ≡ self.old.fails.items }
    {
        self.calls = self.calls.saturating_add(1);
        if self.fails.contains(&self.calls) {
            self.faults = self.faults.saturating_add(1);
            return Err(SinkFault::Failed);
        }
        let count = (bytes.len() as u64).min(self.chunk);
        match self.bytes.extend_from_slice(&bytes[..count as usize]) {
            Ok(()) => {
                self.taken = self.taken.saturating_add(count);
                Ok(count)
            }
            Err(_) => Err(SinkFault::Memory),
        }
    }
}
