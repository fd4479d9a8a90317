//! All that a device tells is reserved on it, before anything is cut off.

ghost use Rattle.std.specs.Prelude.{◌≡◌, ◌⊎◌, IsTrue, IfErr, IfOk, OnOk, IsErrOf};
ghost use Rattle.fw_journal.specs.Device.{LeavesOnly, Keeps};
ghost use Rattle.fw_journal.specs.declared.error.DeviceError.TheVariants.{Fault};
ghost use Rattle.fw_counter.specs.Reserved.{HasNoCounter, Reserves};
ghost use Rattle.fw_counter.specs.Refusals.{IsOpeningRefusal, IsReadingRefusal};
ghost use Rattle.fw_counter.specs.Told.{ReservesAll, Tells};

use crate::error::{CounterError, OpeningError};
use crate::reading::{bound_of, journal_of, told_behind};
use fw_journal::{DeviceError, JournalDevice, Replacer, read_book};
use std::alloc::Global;

/// Reserves all that the bytes of a device tell. Where a record from the shut gate on has a number above those of all records before it, a
/// journal of that number is put in the place of the bytes, in one step: if it were written once they are cut off, a power cut between the
/// two would lose it. Else the device is only read.
pub(crate) fn gather<D: JournalDevice, R: Replacer<D>>(
    alloc: Global,
    device: &mut D,
    replacer: &mut R,
) -> Result<(), OpeningError>
    ensures gathered { IsTrue (D.honest device.old) → OnOk result (ReservesAll (D.contents device.old) (D.contents device.new)) }
    ensures none { IsTrue (D.honest device.old) → IsErrOf result (OpeningError.Counter CounterError.NoCounter) → HasNoCounter (D.contents device.old) }
    ensures any_moment { IsTrue (D.honest device.old) → LeavesOnly D.moment D.left_since device.old device.new
        (λ left. D.may_leave device.old left ⊎ ReservesAll (D.contents device.old) left) }
    ensures never { IsTrue (D.honest device.old) → IsTrue (D.sound device.old)
        → (¬ IsErrOf result (OpeningError.Counter CounterError.CounterFault)) × (¬ IsErrOf result OpeningError.NotReplaced) }
    ensures refusals { IfErr result IsOpeningRefusal }
    ensures kept { Keeps D.honest D.sound device.old device.new }
{
    fw_journal::laws::book_stands();
    let bytes = read_all(alloc, device).map_err(CounterError::from)?;
    let (reserved, told) = told_in(alloc, bytes.as_slice())?;
    if told == reserved {
        return Ok(());
    }
    let Ok(anew) = journal_of(alloc, told) else {
        return Err(OpeningError::Counter(CounterError::OutOfMemory));
    };
    replacer.replace(device, &anew)?;
    Ok(())
}

/// All bytes of a device.
fn read_all<D: JournalDevice>(alloc: Global, device: &mut D) -> Result<Vec<u8>, DeviceError>
    ensures bytes { IsTrue (D.honest device.old) → IfOk result (λ bytes. bytes.items ≡ D.contents device.old) }
    ensures same { IsTrue (D.honest device.old) → D.contents device.new ≡ D.contents device.old }
    ensures moments { IsTrue (D.honest device.old)
        → LeavesOnly D.moment D.left_since device.old device.new (D.may_leave device.old) }
    ensures never { IsTrue (D.honest device.old) → IsTrue (D.sound device.old) → ¬ IsErrOf result Fault }
    ensures kept { Keeps D.honest D.sound device.old device.new }
{
    let len = device.len()?;
    let mut bytes = vec![in alloc; 0; len as usize]?;
    device.read_at(0, &mut bytes)?;
    Ok(bytes)
}

/// What the records of a journal's bytes reserve, and what the bytes tell.
fn told_in(alloc: Global, bytes: &[u8]) -> Result<(u32, u32), CounterError>
    ensures reserved { IfOk result (λ r. Reserves bytes.now r.0) }
    ensures told { IfOk result (λ r. Tells bytes.now r.1) }
    ensures none { IsErrOf result CounterError.NoCounter → HasNoCounter bytes.now }
    ensures no_fault { ¬ IsErrOf result CounterError.CounterFault }
    ensures refusals { IfErr result IsReadingRefusal }
{
    fw_journal::laws::one_reading();
    fw_journal::laws::bad_is_none();
    let (records, end) = read_book(alloc, bytes)?;
    let Some(reserved) = bound_of(&records) else {
        return Err(CounterError::NoCounter);
    };
    let (_, rest) = bytes.split_at(end as usize);
    Ok((reserved, reserved.max(told_behind(rest))))
}
