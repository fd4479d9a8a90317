//! What a device of bytes is.

ghost use Rattle.std.specs.Prelude.{
  ◌≡◌,
  ◌+◌,
  ◌≤◌,
  ◌++◌,
  ℕ,
  Bool,
  List,
  IsTrue,
  IsOk,
  IfOk,
  OnOk,
  OnErr,
  length,
  slice_range,
  take,
};
ghost use Rattle.fw_store.specs.Device.{splice};
ghost use Rattle.fw_store.specs.Contents.{resized, TornAt, KeepsDevice};

use std::fmt;
use thiserror::Error;

/// A device of bytes refused a call.
#[derive(Clone, Copy, Debug, Error)]
pub struct DeviceFault;

impl fmt::Display for DeviceFault {
    fn fmt<W: fmt::Write>(&self, f: &mut fmt::Formatter<W>) -> fmt::Result {
        fmt::Debug::fmt(self, f)
    }
}

/// Bytes that are read and written at positions, as those of a file. The contents of an honest device are known: reads give what was
/// last written, and a write that fails leaves any bytes in its own range and nowhere else.
pub trait ByteDevice {
    /// Whether the device keeps what is written, as said below.
    ghost honest: { Self → Bool };

    /// Whether no call fails, except one that makes more bytes than there is room for.
    ghost sound: { Self → Bool };

    /// How many bytes the device has room for, as far as it is known.
    ghost room: { Self → ℕ };

    /// The bytes of an honest device.
    ghost contents: { Self → List ℕ };

    /// How many bytes there are.
    ///
    /// # Errors
    ///
    /// `DeviceFault` if the device failed.
    fn len(&mut self) -> Result<u64, DeviceFault>
        ensures done { IsTrue (honest self.old) → IfOk result (λ n. n ≡ length (contents self.old)) }
        ensures same { IsTrue (honest self.old) → contents self.new ≡ contents self.old }
        ensures kept { KeepsDevice honest sound room self.old self.new }
        ensures never { IsTrue (sound self.old) → IsOk result };

    /// Cuts the bytes to this length, or adds zeros up to it. A sound device does it just if it has room for `len` bytes.
    ///
    /// # Errors
    ///
    /// `DeviceFault` if the device failed, or has no room. It may then have any bytes.
    fn set_len(&mut self, len: u64) -> Result<(), DeviceFault>
        ensures done { IsTrue (honest self.old) → OnOk result (contents self.new ≡ resized (contents self.old) len) }
        ensures kept { KeepsDevice honest sound room self.old self.new }
        ensures never { IsTrue (sound self.old) → len ≤ room self.old → IsOk result }
        ensures within { IsTrue (sound self.old) → OnOk result (len ≤ room self.old) };

    /// Fills `out` with the bytes from `at` on.
    ///
    /// # Errors
    ///
    /// `DeviceFault` if the device failed. `out` may then have any bytes.
    fn read_at(&mut self, at: u64, out: &mut [u8]) -> Result<(), DeviceFault>
        requires { IsTrue (honest self.old) → at + length out.old ≤ length (contents self.old) }
        ensures done { IsTrue (honest self.old)
            → OnOk result (out.new ≡ slice_range (contents self.old) at (at + length out.old)) }
        ensures same { IsTrue (honest self.old) → contents self.new ≡ contents self.old }
        ensures kept { KeepsDevice honest sound room self.old self.new }
        ensures never { IsTrue (sound self.old) → IsOk result };

    /// Writes bytes over those from `at` on.
    ///
    /// # Errors
    ///
    /// `DeviceFault` if the device failed. Any bytes may then stand in their place.
    fn write_at(&mut self, at: u64, bytes: &[u8]) -> Result<(), DeviceFault>
        requires { IsTrue (honest self.old) → at + length bytes.now ≤ length (contents self.old) }
        ensures done { IsTrue (honest self.old)
            → OnOk result (contents self.new ≡ splice (contents self.old) at bytes.now) }
        ensures torn { IsTrue (honest self.old)
            → OnErr result (TornAt (contents self.old) at (length bytes.now) (contents self.new)) }
        ensures kept { KeepsDevice honest sound room self.old self.new }
        ensures never { IsTrue (sound self.old) → IsOk result };

    /// Writes bytes over those from `at` on, all of them or none.
    ///
    /// # Errors
    ///
    /// `DeviceFault` if the device failed. The old bytes then stand.
    fn replace_at(&mut self, at: u64, bytes: &[u8]) -> Result<(), DeviceFault>
        requires { IsTrue (honest self.old) → at + length bytes.now ≤ length (contents self.old) }
        ensures done { IsTrue (honest self.old)
            → OnOk result (contents self.new ≡ splice (contents self.old) at bytes.now) }
        ensures same { IsTrue (honest self.old) → OnErr result (contents self.new ≡ contents self.old) }
        ensures kept { KeepsDevice honest sound room self.old self.new }
        ensures never { IsTrue (sound self.old) → IsOk result };

    /// Writes bytes over those from `at` on, and others in place of all that stand from `last_at` on: all of them or none. So the
    /// bytes end with `last` then, and may be more than they were, or fewer.
    ///
    /// # Errors
    ///
    /// `DeviceFault` if the device failed, or has no room for these bytes. The old bytes then stand.
    fn replace_both(
        &mut self,
        at: u64,
        bytes: &[u8],
        last_at: u64,
        last: &[u8],
    ) -> Result<(), DeviceFault>
        requires order { at + length bytes.now ≤ last_at }
        requires begins { IsTrue (honest self.old) → last_at ≤ length (contents self.old) }
        ensures done { IsTrue (honest self.old)
            → OnOk result (contents self.new ≡ take last_at (splice (contents self.old) at bytes.now) ++ last.now) }
        ensures same { IsTrue (honest self.old) → OnErr result (contents self.new ≡ contents self.old) }
        ensures kept { KeepsDevice honest sound room self.old self.new }
        ensures never { IsTrue (sound self.old) → last_at + length last.now ≤ room self.old → IsOk result };
}
