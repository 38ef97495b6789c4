//! How failures are counted.

ghost use Rattle.std.specs.Prelude.{◌≡◌, ◌+◌, ◌-◌, ◌^◌, ◌≤◌, min};

use sp_ports::Failed;

/// One more failure. A count stands still at its type's last value.
pub(crate) fn count_failure(faults: &mut u64) -> Failed
    ensures counted { faults.new ≡ min (faults.old + 1) (2 ^ 64 - 1) }
    ensures grows { faults.old ≤ faults.new }
{
    *faults = faults.saturating_add(1);
    Failed
}
