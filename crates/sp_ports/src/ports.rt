//! Sources and sinks of bytes.

ghost use Rattle.std.specs.Prelude.{◌≡◌, ◌<◌, ◌≤◌, ◌++◌, ℕ, List, Option, length, take, IfOk, OnErr};
ghost use Rattle.sp_ports.specs.Bytes.{Gives, IsAtEnd, Takes};
ghost use Rattle.sp_ports.specs.Device.{Device, FailsByReads, FailsByWrites, IsNext, Took, TookPrefix, Writes, both, seen};

/// A device did not do what it was asked.
#[derive(Clone, Copy, Debug, PartialEq, Eq)]
pub struct Failed;

/// Bytes from outside.
pub trait Source {
    /// The bytes that are left, where the source tells them.
    ghost left: { Self → Option (List ℕ) };

    /// A count of failures. It never falls, and one failure may raise it by more than one.
    ghost faults: { Self → ℕ };

    /// Moves bytes from the start of what is left into the buffer, and returns how many. 0 for a
    /// buffer that is not empty comes only at the end. `Failed` comes only where the count of
    /// faults rose, and then nothing was moved. At `Ok` the count stays as it was. The count of a
    /// source that does not tell its bytes may also stand at the last value of a u64 at `Failed`.
    fn read(&mut self, buf: &mut [u8]) -> Result<usize, Failed>
        ensures bound { IfOk result (λ k. k ≤ length buf.old) }
        ensures bytes { IfOk result (λ k. Gives (left self.old) (left self.new) (take k buf.new)) }
        // No bytes come only at the end, or into no room.
        ensures end { IfOk result (λ k. k ≡ 0 → 0 < length buf.old → IsAtEnd (left self.new)) }
        ensures kept { OnErr result (left self.new ≡ left self.old) }
        ensures cause { FailsByReads (seen left faults self.old self.new) result };
}

/// Where bytes go.
pub trait Sink {
    /// The bytes that were taken, where the sink tells them.
    ghost taken: { Self → Option (List ℕ) };

    /// A count of failures. It never falls, and one failure may raise it by more than one.
    ghost faults: { Self → ℕ };

    /// Takes bytes from the start of the piece, and returns how many: at least one of a piece that
    /// is not empty. `Failed` comes only where the count of faults rose, or stands at the last
    /// value of a u64, and then nothing was taken. At `Ok` the count stays as it was.
    fn write(&mut self, piece: &[u8]) -> Result<usize, Failed>
        ensures bound { IfOk result (λ k. k ≤ length piece.now) }
        ensures some { IfOk result (λ k. 0 < length piece.now → 0 < k) }
        ensures bytes { IfOk result
            (λ k. Takes (taken self.old) (taken self.new) (take k piece.now)) }
        ensures kept { OnErr result (taken self.new ≡ taken self.old) }
        ensures cause { FailsByWrites (seen taken faults self.old self.new) result };

    /// Hands on what was taken. `Failed` and the count of faults: as for `write`.
    fn flush(&mut self) -> Result<(), Failed>
        ensures kept { taken self.new ≡ taken self.old }
        ensures cause { FailsByWrites (seen taken faults self.old self.new) result };
}

/// Writes all of the bytes, in as many calls as the sink needs. `Failed` comes only where the
/// sink's count of faults rose, and then the sink has taken a prefix of the bytes. It takes no
/// memory.
pub fn write_all<K: Sink>(out: &mut K, bytes: &[u8]) -> Result<(), Failed>
    ensures { Writes (seen K.taken K.faults out.old out.new) bytes.now result }
{
    let mut rest = bytes;
    while !rest.is_empty() {
        let count = out.write(rest)?;
        rest = &rest[count..];
    }
    Ok(())
}

/// What a sink takes in one call after another.
pub fn taken_in_turn()
    // Both texts, where no call failed.
    ensures both { (d e : Device) (first second : List ℕ) → IsNext d e
        → Took d first → Took e second → Took (both d e) (first ++ second) }
    // The first, and a prefix of the other, where its call failed.
    ensures prefix { (d e : Device) (first second : List ℕ) → IsNext d e
        → Took d first → TookPrefix e second → TookPrefix (both d e) (first ++ second) }
{}
