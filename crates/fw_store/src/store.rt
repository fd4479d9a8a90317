//! What an image store is.

ghost use Rattle.std.specs.Prelude.{◌≡◌, ◌+◌, ◌≤◌, Some, IsTrue, IfOk, OnOk, OnErr, is_ok, length, slice_range};
ghost use Rattle.fw_store.specs.Device.{slot_bytes, with_head, written, Torn};
ghost use Rattle.fw_store.specs.Faults.{Keeps, HasCause, Spends};
ghost use Rattle.fw_store.specs.Known.{Known};
ghost use Rattle.fw_store.specs.Versions.{bytes_of};
ghost use Rattle.fw_store.specs.Fuse.{half_torn};
ghost use Rattle.fw_store.specs.declared.fuse.Fuse.{Fuse};
ghost use Rattle.fw_store.specs.declared.slot.Slot.{Slot};

use crate::error::StoreFault;
use crate::slot::Slot;
use crate::version::HeaderBytes;

/// A device with a header, of as many bytes as version 1 has or version 2, and two slots, which have as many bytes as the capacity.
/// Its calls take no memory.
///
/// Two things are said of each call. Of every store: the count of faults rises by one where the call returns `StoreFault`, unless it
/// stood at its greatest number, and is as before where it doesn't; and where it is known how many calls succeed before all fail, as
/// of a store with a fuse, the call is one of them, or fails. Of an honest store, whose contents are known: reads give what was last
/// written, the header is written whole or not at all, and a write that fails leaves any bytes in its own range and nowhere else.
pub trait ImageStore {
    /// What is known of the store.
    ghost known: { Self → Known };

    /// The size of each slot in bytes.
    fn capacity(&self) -> u32
        ensures { result ≡ (known self.now).capacity };

    /// How often the device has failed, up to 2^64 - 1.
    fn faults(&self) -> u64
        ensures { result ≡ (known self.now).faults };

    /// The header, in the version that was written last.
    ///
    /// # Errors
    ///
    /// `StoreFault` if the device failed.
    fn header(&mut self) -> Result<HeaderBytes, StoreFault>
        ensures done { IsTrue (known self.old).honest → IfOk result (λ bytes. bytes_of bytes ≡ (known self.old).device.head) }
        ensures same { IsTrue (known self.old).honest → (known self.new).device ≡ (known self.old).device }
        ensures kept { Keeps (known self.old) (known self.new) }
        ensures cause { HasCause (known self.old).sound (known self.old).faults (known self.new).faults result }
        ensures spends { Spends 1 (known self.old).fuse (known self.new).fuse (is_ok result) };

    /// Replaces the header, of either version, by one of either.
    ///
    /// # Errors
    ///
    /// `StoreFault` if the device failed. The old header then stands.
    fn write_header(&mut self, bytes: &HeaderBytes) -> Result<(), StoreFault>
        ensures done { IsTrue (known self.old).honest
            → OnOk result ((known self.new).device ≡ with_head (known self.old).device (bytes_of bytes.now)) }
        ensures same { IsTrue (known self.old).honest → OnErr result ((known self.new).device ≡ (known self.old).device) }
        ensures kept { Keeps (known self.old) (known self.new) }
        ensures cause { HasCause (known self.old).sound (known self.old).faults (known self.new).faults result }
        ensures spends { Spends 1 (known self.old).fuse (known self.new).fuse (is_ok result) };

    /// Fills `out` with the bytes of a slot from `at` on.
    ///
    /// # Errors
    ///
    /// `StoreFault` if the device failed. `out` may then have any bytes.
    fn read(&mut self, slot: Slot, at: u32, out: &mut [u8]) -> Result<(), StoreFault>
        requires { at + length out.old ≤ (known self.old).capacity }
        ensures done { IsTrue (known self.old).honest
            → OnOk result (out.new ≡ slice_range (slot_bytes (known self.old).device slot) at (at + length out.old)) }
        ensures same { IsTrue (known self.old).honest → (known self.new).device ≡ (known self.old).device }
        ensures kept { Keeps (known self.old) (known self.new) }
        ensures cause { HasCause (known self.old).sound (known self.old).faults (known self.new).faults result }
        ensures spends { Spends 1 (known self.old).fuse (known self.new).fuse (is_ok result) };

    /// Writes bytes into a slot from `at` on.
    ///
    /// # Errors
    ///
    /// `StoreFault` if the device failed. Any bytes may then stand in their place; those of a store with a fuse are the first half
    /// of the bytes, rounded down, and the fuse's byte in the rest.
    fn write(&mut self, slot: Slot, at: u32, bytes: &[u8]) -> Result<(), StoreFault>
        requires { at + length bytes.now ≤ (known self.old).capacity }
        ensures done { IsTrue (known self.old).honest
            → OnOk result ((known self.new).device ≡ written (known self.old).device slot at bytes.now) }
        ensures torn { IsTrue (known self.old).honest
            → OnErr result (Torn (known self.old).device slot at (length bytes.now) (known self.new).device) }
        ensures halves { IsTrue (known self.old).honest → (set : Fuse) → (known self.old).fuse ≡ Some set
            → OnErr result ((known self.new).device ≡ written (known self.old).device slot at (half_torn bytes.now set.torn)) }
        ensures kept { Keeps (known self.old) (known self.new) }
        ensures cause { HasCause (known self.old).sound (known self.old).faults (known self.new).faults result }
        ensures spends { Spends 1 (known self.old).fuse (known self.new).fuse (is_ok result) };

    /// Each slot of an honest store has the capacity.
    ghost sized: { (s : Self) (slot : Slot) → IsTrue (known s).honest → length (slot_bytes (known s).device slot) ≡ (known s).capacity };
}
