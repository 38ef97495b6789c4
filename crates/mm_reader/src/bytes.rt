//! Reading a single byte.

ghost use Rattle.std.specs.Prelude.{◌≡◌, ◌<◌, if◌then◌else◌, IfErr, IfOk, OnOk};
ghost use Rattle.sp_ports.specs.Device.{seen};
ghost use Rattle.mm_defs.specs.Words.{is_lf};
ghost use Rattle.mm_reader.specs.Fronts.{front_of, Advances, Stops, UsesFirst};
ghost use Rattle.mm_reader.specs.Inputs.{FailsByReadFault};
ghost use Rattle.mm_reader.specs.Readings.{AsksOnce, CanGoOn};
ghost use Rattle.mm_reader.specs.Windows.{IsInRoom, IsWindow};

use crate::window::{Window, advance, refill};
use mm_defs::ReadError;
use sp_ports::Source;

/// How many LFs the byte is: one or none.
fn lfs_of(byte: u8) -> u64
    ensures { result ≡ (if is_lf byte then 1 else 0) }
{
    if byte == b'\n' { 1 } else { 0 }
}

/// Uses the first of the bytes ahead, all of which may be used.
fn first(window: &mut Window) -> u8
    requires window { IsWindow window.old }
    requires in_room { IsInRoom window.old }
    requires some { window.old.from < window.old.to }
    ensures window { IsWindow window.new }
    ensures in_room { IsInRoom window.new }
    ensures used { UsesFirst (front_of window.old) (front_of window.new) result }
{
    let byte = window.buffer[window.from];
    advance(window, 1, lfs_of(byte));
    byte
}

/// Uses the first of the bytes ahead and of those that the source gives, within the window's room.
/// There is none at the end of the input alone.
pub fn next<S: Source>(window: &mut Window, source: &mut S) -> Result<Option<u8>, ReadError>
    requires can { CanGoOn (S.left source.old) window.old }
    requires in_room { IsInRoom window.old }
    ensures ok { IfOk result (Advances (front_of window.old) (front_of window.new)
        (seen S.left S.faults source.old source.new)) }
    ensures err { IfErr result (Stops (front_of window.old) (front_of window.new)
        (seen S.left S.faults source.old source.new)) }
    ensures window { IsWindow window.new }
    ensures in_room { OnOk result (IsInRoom window.new) }
    ensures cause { FailsByReadFault (seen S.left S.faults source.old source.new) result }
    ensures asks { AsksOnce S.left source.old source.new window.old window.new }
{
    if window.from < window.to {
        return Ok(Some(first(window)));
    }
    if window.at_end {
        return Ok(None);
    }
    match refill(window, source) {
        Err(_) => Err(ReadError::ReadFault),
        Ok(0) => Ok(None),
        Ok(_) => {
            if window.room == 0 {
                return Err(ReadError::TooLong);
            }
            Ok(Some(first(window)))
        }
    }
}
