//! What a journal does with its device: it reads what is synced, and syncs what it writes.

ghost use Rattle.std.specs.Prelude.{◌≡◌, ◌≤◌, length, take, IsTrue, IfOk, OnOk, IsErrOf};
ghost use Rattle.fw_journal.specs.declared.error.DeviceError.TheVariants.{Fault};
ghost use Rattle.fw_journal.specs.Device.{
  splice,
  IsTorn,
  IsShortened,
  IsSynced,
  LeavesNoMore,
  LeavesOnly,
  Keeps,
};
ghost use Rattle.fw_journal.specs.Making.{IsTornOf};

use crate::device::JournalDevice;
use crate::error::DeviceError;
use std::alloc::Global;

/// All bytes of a device.
fn read_all<D: JournalDevice>(alloc: Global, device: &mut D) -> Result<Vec<u8>, DeviceError>
    ensures bytes { IsTrue (D.honest device.old) → IfOk result (λ bytes. bytes.items ≡ D.contents device.old) }
    ensures same { IsTrue (D.honest device.old) → D.contents device.new ≡ D.contents device.old }
    ensures no_more { IsTrue (D.honest device.old) → LeavesNoMore D.may_leave device.old device.new }
    ensures moments { IsTrue (D.honest device.old)
        → LeavesOnly D.moment D.left_since device.old device.new (D.may_leave device.old) }
    ensures kept { Keeps D.honest D.sound device.old device.new }
    ensures never { IsTrue (D.honest device.old) → IsTrue (D.sound device.old) → ¬ IsErrOf result Fault }
{
    let len = device.len()?;
    let mut bytes = vec![in alloc; 0; len as usize]?;
    device.read_at(0, &mut bytes)?;
    Ok(bytes)
}

/// All bytes of a device, synced first: what a process wrote and didn't sync is read, but needn't be what a power cut leaves.
pub(crate) fn read_synced<D: JournalDevice>(
    alloc: Global,
    device: &mut D,
) -> Result<Vec<u8>, DeviceError>
    ensures bytes { IsTrue (D.honest device.old) → IfOk result (λ bytes. bytes.items ≡ D.contents device.old) }
    ensures same { IsTrue (D.honest device.old) → D.contents device.new ≡ D.contents device.old }
    ensures synced { IsTrue (D.honest device.old) → OnOk result (IsSynced D.contents D.may_leave device.new) }
    ensures moments { IsTrue (D.honest device.old)
        → LeavesOnly D.moment D.left_since device.old device.new (D.may_leave device.old) }
    ensures kept { Keeps D.honest D.sound device.old device.new }
    ensures never { IsTrue (D.honest device.old) → IsTrue (D.sound device.old) → ¬ IsErrOf result Fault }
{
    device.sync()?;
    read_all(alloc, device)
}

/// Writes bytes at a position of a device that is synced, and syncs them.
pub(crate) fn write_synced<D: JournalDevice>(
    device: &mut D,
    at: u64,
    bytes: &[u8],
) -> Result<(), DeviceError>
    ensures done { IsTrue (D.honest device.old) → at ≤ length (D.contents device.old)
        → OnOk result (D.contents device.new ≡ splice (D.contents device.old) at bytes.now) }
    ensures synced { IsTrue (D.honest device.old) → OnOk result (IsSynced D.contents D.may_leave device.new) }
    ensures moments { IsTrue (D.honest device.old) → at ≤ length (D.contents device.old)
        → IsSynced D.contents D.may_leave device.old
        → LeavesOnly D.moment D.left_since device.old device.new (IsTorn at (length bytes.now) (D.contents device.old)) }

    // Also where it isn't synced.
    ensures torn { IsTrue (D.honest device.old) → at ≤ length (D.contents device.old)
        → LeavesOnly D.moment D.left_since device.old device.new (IsTornOf D.JournalDevice at (length bytes.now) device.old) }
    ensures kept { Keeps D.honest D.sound device.old device.new }
    ensures never { IsTrue (D.sound device.old) → ¬ IsErrOf result Fault }
{
    device.write_at(at, bytes)?;
    device.sync()
}

/// Cuts the bytes of a device that is synced to a length, and syncs that.
pub(crate) fn shorten_synced<D: JournalDevice>(device: &mut D, len: u64) -> Result<(), DeviceError>
    ensures done { IsTrue (D.honest device.old) → OnOk result (D.contents device.new ≡ take len (D.contents device.old)) }
    ensures synced { IsTrue (D.honest device.old) → OnOk result (IsSynced D.contents D.may_leave device.new) }
    ensures moments { IsTrue (D.honest device.old) → IsSynced D.contents D.may_leave device.old
        → LeavesOnly D.moment D.left_since device.old device.new (IsShortened len (D.contents device.old)) }
    ensures kept { Keeps D.honest D.sound device.old device.new }
    ensures never { IsTrue (D.sound device.old) → ¬ IsErrOf result Fault }
{
    device.shorten(len)?;
    device.sync()
}
