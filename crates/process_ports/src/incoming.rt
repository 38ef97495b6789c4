//! Sources of bytes.

ghost use Rattle.std.specs.Prelude.{◌≡◌, ◌≤◌, length, IfOk, None};
ghost use Rattle.std.specs.Io.KnownBytes.{ReadConsumes};
ghost use Rattle.sp_ports.specs.Device.{FailsByReads};
ghost use Rattle.process_ports.specs.Unknown.{unknown_device};

use crate::failures::count_failure;
use sp_ports::{Failed, Source};
use std::io::{Read, Stdin};

/// Bytes from a reader of the system.
#[derive(Drop)]
pub struct Incoming<R: Read> {
    reader: R,
    faults: u64,
}

impl<R: Read> Incoming<R> {
    /// The reader, which has not failed yet.
    pub fn new(reader: R) -> Incoming<R>
        ensures fresh { result.faults ≡ 0 }
    {
        Incoming { reader, faults: 0 }
    }
}

impl<R: Read> Source for Incoming<R> {
    ghost left = { λ _. None };

    ghost faults = { λ s. s.faults };

    /// A reader that fails is not taken for one at its end.
    fn read(&mut self, buf: &mut [u8]) -> Result<usize, Failed>
        ensures bound { IfOk result (λ k. k ≤ length buf.old) }
        ensures reader { ReadConsumes (R.remaining self.old.reader)
            (R.remaining self.new.reader) result buf.new }
        ensures cause { FailsByReads (unknown_device self.old.faults self.new.faults) result }
    {
        match self.reader.read(buf) {
            Ok(count) => Ok(count),
            Err(_) => Err(count_failure(&mut self.faults)),
        }
    }
}

/// Standard input as a source.
pub type StdinSource = Incoming<Stdin>;

#[cfg(test)]
mod tests {
    use super::{Incoming, StdinSource};
    use sp_ports::{Failed, Source};
    use std::io::{self, ErrorKind, Read};
    use std::test::Fail;

    /// Fails twice, and gives the same two bytes in each later call.
    #[derive(Drop)]
    struct FailingReader {
        calls: u8,
    }

    impl Read for FailingReader {
        fn read(&mut self, buf: &mut [u8]) -> io::Result<usize> {
            self.calls = self.calls.saturating_add(1);
            if self.calls <= 2 {
                return Err(io::Error::from(ErrorKind::BrokenPipe));
            }
            let count = buf.len().min(2);
            buf[..count].copy_from_slice(&b"ab"[..count]);
            Ok(count)
        }
    }

    #[test]
    fn failed_reads_are_counted(rt: HostRuntime) -> Result<(), Fail> {
        let mut source = Incoming::new(FailingReader { calls: 0 });
        let mut buffer = [b'.'; 3];
        let calls = [
            (Err(Failed), b"...", 1),
            (Err(Failed), b"...", 2),
            (Ok(2), b"ab.", 2),
        ];
        for (answer, held, faults) in calls {
            assert_eq!(rt; source.read(&mut buffer), answer);
            assert_eq!(rt; buffer.as_slice(), held.as_slice());
            assert_eq!(rt; source.faults, faults);
        }
        Ok(())
    }

    #[test]
    fn standard_input_is_read_to_its_end(rt: HostRuntime) -> Result<(), Fail> {
        let mut source = StdinSource::new(rt.stdin());
        let mut buffer = [0u8; 16];
        for _ in 0..1000 {
            if source.read(&mut buffer) == Ok(0) {
                return Ok(());
            }
        }
        panic!(rt; "there is no end")
    }
}
