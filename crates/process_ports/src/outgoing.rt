//! Sinks for bytes.

ghost use Rattle.std.specs.Prelude.{◌≡◌, ◌<◌, ◌≤◌, length, IfOk, None};
ghost use Rattle.std.specs.Io.KnownBytes.{Keeps, WriteAppends};
ghost use Rattle.sp_ports.specs.Device.{FailsByWrites};
ghost use Rattle.process_ports.specs.Unknown.{unknown_device};

use crate::failures::count_failure;
use sp_ports::{Failed, Sink};
use std::io::{Stderr, Stdout, Write};

/// Bytes for a writer of the system.
#[derive(Drop)]
pub struct Outgoing<W: Write> {
    writer: W,
    faults: u64,
}

impl<W: Write> Outgoing<W> {
    /// The writer, which has not failed yet.
    pub fn new(writer: W) -> Outgoing<W>
        ensures fresh { result.faults ≡ 0 }
    {
        Outgoing { writer, faults: 0 }
    }
}

impl<W: Write> Sink for Outgoing<W> {
    ghost taken = { λ _. None };

    ghost faults = { λ s. s.faults };

    /// A writer that takes nothing of a piece that is not empty has failed.
    fn write(&mut self, piece: &[u8]) -> Result<usize, Failed>
        ensures bound { IfOk result (λ k. k ≤ length piece.now) }
        ensures some { IfOk result (λ k. 0 < length piece.now → 0 < k) }
        ensures writer { WriteAppends (W.contents self.old.writer)
            (W.contents self.new.writer) result piece.now }
        ensures cause { FailsByWrites (unknown_device self.old.faults self.new.faults) result }
    {
        match self.writer.write(piece) {
            Ok(count) => {
                if count == 0 && !piece.is_empty() {
                    return Err(count_failure(&mut self.faults));
                }
                Ok(count)
            }
            Err(_) => Err(count_failure(&mut self.faults)),
        }
    }

    fn flush(&mut self) -> Result<(), Failed>
        ensures writer { Keeps (W.contents self.old.writer) (W.contents self.new.writer) }
        ensures cause { FailsByWrites (unknown_device self.old.faults self.new.faults) result }
    {
        match self.writer.flush() {
            Ok(()) => Ok(()),
            Err(_) => Err(count_failure(&mut self.faults)),
        }
    }
}

/// Standard output as a sink.
pub type StdoutSink = Outgoing<Stdout>;

/// Standard error as a sink.
pub type StderrSink = Outgoing<Stderr>;

#[cfg(test)]
mod tests {
    use super::{Outgoing, StderrSink, StdoutSink};
    use sp_ports::{Failed, Sink};
    use std::io::{self, ErrorKind, Write};
    use std::test::Fail;

    /// Fails, takes nothing, and takes at most two bytes in each later call. No byte goes further.
    #[derive(Drop)]
    struct FailingWriter {
        calls: u8,
    }

    impl Write for FailingWriter {
        fn write(&mut self, buf: &[u8]) -> io::Result<usize> {
            self.calls = self.calls.saturating_add(1);
            match self.calls {
                1 => Err(io::Error::from(ErrorKind::BrokenPipe)),
                2 => Ok(0),
                _ => Ok(buf.len().min(2)),
            }
        }

        fn flush(&mut self) -> io::Result<()> {
            Err(io::Error::from(ErrorKind::BrokenPipe))
        }
    }

    #[test]
    fn failed_writes_are_counted(rt: HostRuntime) -> Result<(), Fail> {
        let mut sink = Outgoing::new(FailingWriter { calls: 0 });
        let pieces: [(&[u8], Result<usize, Failed>, u64); 5] = [
            (b"abc", Err(Failed), 1),
            // Nothing was taken of a piece that is not empty.
            (b"abc", Err(Failed), 2),
            (b"abc", Ok(2), 2),
            (b"c", Ok(1), 2),
            (b"", Ok(0), 2),
        ];
        for (piece, answer, faults) in pieces {
            assert_eq!(rt; sink.write(piece), answer);
            assert_eq!(rt; sink.faults, faults);
        }
        for faults in [3, 4] {
            assert_eq!(rt; sink.flush(), Err(Failed));
            assert_eq!(rt; sink.faults, faults);
        }
        Ok(())
    }

    #[test]
    fn standard_output_takes_bytes(rt: HostRuntime) -> Result<(), Fail> {
        let mut sink = StdoutSink::new(rt.stdout());
        assert_eq!(rt; sink.write(b"."), Ok(1));
        assert_eq!(rt; sink.flush(), Ok(()));
        Ok(())
    }

    #[test]
    fn standard_error_takes_bytes(rt: HostRuntime) -> Result<(), Fail> {
        let mut sink = StderrSink::new(rt.stderr());
        assert_eq!(rt; sink.write(b"."), Ok(1));
        assert_eq!(rt; sink.flush(), Ok(()));
        Ok(())
    }
}
