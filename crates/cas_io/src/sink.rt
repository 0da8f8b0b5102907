//! Bytes that go out, and the call that writes a whole piece of them.
ghost use Rattle.std.specs.Prelude.{◌≡◌, ◌≤◌, ◌<◌, length, List, ℕ, Option, OnOk, OnErr, IfOk, IsErrOf};
ghost use Rattle.std.specs.Io.{WritesAtMost};
ghost use Rattle.std.specs.Io.KnownBytes.{Appends, WriteAppends};
ghost use Rattle.cas_io.specs.Causes.{Rose};
ghost use Rattle.cas_io.specs.Streams.{AppendsFront};

use crate::fault::Failed;

/// Bytes that go out.
pub trait Sink {
    /// The bytes that it took, where the sink tells them.
    ghost took: { Self → Option (List ℕ) };

    /// How often it has failed. At the greatest `u64` the count stands, and counts as risen.
    ghost faults: { Self → ℕ };

    /// How often it took nothing of a piece that isn't empty, which is a fault too. The count
    /// stands as that of the failures does.
    ghost stalls: { Self → ℕ };

    /// Takes a front of the bytes, and says how many it took.
    fn write(&mut self, bytes: &[u8]) -> Result<usize, Failed>
        ensures bound { WritesAtMost result bytes.now }
        ensures bytes { WriteAppends (took self.old) (took self.new) result bytes.now }
        ensures kept { faults self.old ≤ faults self.new }
        ensures cause { OnErr result (Rose (faults self.old) (faults self.new)) }
        ensures stalls_kept { stalls self.old ≤ stalls self.new }
        ensures stalled { IfOk result (λ n. n ≡ 0 → 0 < length bytes.now → Rose (stalls self.old) (stalls self.new)) };
}

/// Why not all bytes of a piece were written.
#[derive(Clone, Copy, Debug, PartialEq, Eq)]
pub enum SinkFault {
    /// The sink failed.
    Failed,
    /// The sink took nothing, though there were bytes to take.
    Stalled,
}

/// Writes all the bytes. Where it can't, the sink took a front of them, and the answer says why.
pub fn write_all<K: Sink>(sink: &mut K, bytes: &[u8]) -> Result<(), SinkFault>
    ensures whole { OnOk result (Appends (K.took sink.old) (K.took sink.new) bytes.now) }
    ensures front { OnErr result (AppendsFront (K.took sink.old) (K.took sink.new) bytes.now) }
    ensures faults_kept { K.faults sink.old ≤ K.faults sink.new }
    ensures stalls_kept { K.stalls sink.old ≤ K.stalls sink.new }
    ensures failed { IsErrOf result SinkFault.Failed → Rose (K.faults sink.old) (K.faults sink.new) }
    ensures stalled { IsErrOf result SinkFault.Stalled → Rose (K.stalls sink.old) (K.stalls sink.new) }
{
    let mut rest = bytes;
    while !rest.is_empty() {
        match sink.write(rest) {
            Ok(0) => return Err(SinkFault::Stalled),
            Ok(count) => rest = &rest[count..],
            Err(Failed) => return Err(SinkFault::Failed),
        }
    }
    Ok(())
}
