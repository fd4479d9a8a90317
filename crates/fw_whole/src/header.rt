//! A header write of a store in files.

ghost use Rattle.std.specs.Prelude.{◌≡◌, List, ℕ, IsTrue, OnOk};
ghost use Rattle.fw_cuts.specs.Both.{Both};
ghost use Rattle.fw_cuts.specs.Rest.{IsRecovered};
ghost use Rattle.fw_store.specs.Device.{with_head};
ghost use Rattle.fw_store.specs.StoreBytes.{IsStore, device_at, old_store_size};
ghost use Rattle.fw_store.specs.Versions.{bytes_of};
ghost use Rattle.fw_whole.specs.Whole.{IsFoundWhole, IsResting};

use fw_cuts::{FRONT_SIZE, FilesFault, Scratch, StoreFiles, replace};
use fw_store::{HEADER_AT, HeaderBytes, SLOTS_AT};

/// Replaces the header of a store in files, of either version, by one of either, as a store in a file does. `scratch` is any.
///
/// Whenever the power is cut, in the call or after it, and whatever it answers, the next opening finds the store as before, or with all of
/// the new header and the slots as they were read; after an `Ok` it finds the latter. Nothing stands after that.
///
/// # Errors
///
/// `FilesFault` if the disk failed. It has to be taken back then, before the next one.
pub fn write_header<F: StoreFiles>(
    files: &mut F,
    scratch: &mut Scratch,
    capacity: u32,
    bytes: &HeaderBytes,
) -> Result<(), FilesFault>
    requires { IsTrue F.honest → IsResting capacity (F.seen files.old) }
    ensures done { IsTrue F.honest → OnOk result (device_at capacity (F.seen files.new).held.store
        ≡ with_head (device_at capacity (F.seen files.old).held.store) (bytes_of bytes.now)) }
    ensures rests { IsTrue F.honest → OnOk result (IsResting capacity (F.seen files.new)) }
    ensures stays { IsTrue F.honest → OnOk result ((left : Both) (made : List ℕ) → (F.seen files.new).may_leave left
        → IsRecovered left.journal left.store made
        → IsStore made capacity
        × (device_at capacity made ≡ with_head (device_at capacity (F.seen files.old).held.store) (bytes_of bytes.now))) }

    // Whatever it answers, and whenever it is cut.
    ensures any_moment { IsTrue F.honest → (left : Both) (made : List ℕ)
        → (F.seen files.new).left_since (F.seen files.old).moment left → IsRecovered left.journal left.store made
        → IsFoundWhole capacity (bytes_of bytes.now) (F.seen files.old) left made }
{
    let (front, last) = bytes.as_slice().split_at(FRONT_SIZE);
    replace(files, scratch, HEADER_AT, front, tail_at(capacity), last)
}

/// Where the rest of the header stands: after the slots.
fn tail_at(capacity: u32) -> u64
    ensures { result ≡ old_store_size capacity }
{
    SLOTS_AT + 2 * u64::from(capacity)
}
