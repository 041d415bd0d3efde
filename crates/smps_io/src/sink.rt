//! Where bytes are appended, and how often that has failed.
ghost use Rattle.std.specs.Prelude.{◌≡◌, ◌≤◌, ◌<◌, ℕ, List, Option, take, length, IfOk, OnOk, OnErr};
ghost use Rattle.smps_io.specs.Faults.{RoseBy};
ghost use Rattle.smps_io.specs.Puts.{Appends, AppendsPrefix, SinkHasCause};

use thiserror::Error;

/// Why bytes weren't appended.
#[derive(Clone, Copy, Debug, Drop, PartialEq, Eq, Error)]
pub enum SinkFault {
    /// The output failed; the count of faults rose.
    #[error("the output could not be written")]
    Failed,
    /// Memory was wanting.
    #[error("out of memory")]
    Memory,
}

/// An output to which bytes are appended.
pub trait Sink {
    /// The bytes written, where it tells that.
    ghost written: { Self → Option (List ℕ) };

    /// How often it has failed. The count never falls; at 2^64 - 1 it stays.
    ghost faults: { Self → ℕ };

    /// How many bytes it has taken. At 2^64 - 1 the count stays.
    ghost taken: { Self → ℕ };

    /// Appends some first bytes, at least one, and says how many. After a fault nothing was appended.
    fn put<R: Print>(&mut self, rt: &R, bytes: &[u8]) -> Result<u64, SinkFault>
        requires { 0 < length bytes.now }
        ensures some { IfOk result (λ k. (0 < k) × (k ≤ length bytes.now)) }
        ensures appended { IfOk result (λ k. Appends (written self.old) (take k bytes.now) (written self.new)) }
        ensures nothing { OnErr result (written self.new ≡ written self.old) }
        ensures counts { IfOk result (λ k. RoseBy (taken self.old) k (taken self.new)) }
        ensures counts_none { OnErr result (taken self.new ≡ taken self.old) }
        ensures cause { SinkHasCause (faults self.old) (faults self.new) result };
}

/// Appends all the bytes. After a fault a prefix of them was appended.
pub fn write_all<R: Print, K: Sink>(rt: &R, sink: &mut K, bytes: &[u8]) -> Result<(), SinkFault>
    ensures all { OnOk result (Appends (K.written sink.old) bytes.now (K.written sink.new)) }
    ensures counts { OnOk result (RoseBy (K.taken sink.old) (length bytes.now) (K.taken sink.new)) }
    ensures prefix { AppendsPrefix (K.written sink.old) bytes.now (K.written sink.new) }
    ensures cause { SinkHasCause (K.faults sink.old) (K.faults sink.new) result }
{
    let mut at = 0;
    while at < bytes.len() {
        let count = sink.put(rt, &bytes[at..])?;
        at += count as usize;
    }
    Ok(())
}
