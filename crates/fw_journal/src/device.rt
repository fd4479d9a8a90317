//! What a device is that a journal stands on.

ghost use Rattle.std.specs.Prelude.{◌≡◌, ◌+◌, ◌≤◌, ℕ, Bool, List, IsTrue, IfOk, IfErr, OnOk, IsErrOf, length, take, slice_range};
ghost use Rattle.fw_journal.specs.declared.error.DeviceError.TheVariants.{Fault};
ghost use Rattle.fw_journal.specs.Device.{
  splice,
  IsTorn,
  IsShortened,
  IsSynced,
  LeavesNoMore,
  LeavesBy,
  Elapses,
  Keeps,
};

use crate::error::DeviceError;

/// Bytes that are written at positions, up to their end and past it, and synced. Of an honest device it is known what reads give, and
/// what a power cut leaves: until the next sync a write may leave any bytes in its own range, and nothing else changes; a sync makes
/// it what was written.
pub trait JournalDevice {
    /// Whether the device keeps what is written, as said below.
    ghost honest: { Self → Bool };

    /// Whether no call fails, except if memory is refused.
    ghost sound: { Self → Bool };

    /// The bytes that reads give.
    ghost contents: { Self → List ℕ };

    /// The bytes that a power cut at this moment may leave.
    ghost may_leave: { Self → List ℕ → Type 0 };

    /// This moment, as a number that never falls.
    ghost moment: { Self → ℕ };

    /// The bytes that a power cut at some moment from that one on might have left, in a call or between two.
    ghost left_since: { Self → ℕ → List ℕ → Type 0 };

    /// How many bytes there are.
    ///
    /// # Errors
    ///
    /// `Fault` if the device failed.
    fn len(&mut self) -> Result<u64, DeviceError>
        ensures done { IsTrue (honest self.old) → IfOk result (λ n. n ≡ length (contents self.old)) }
        ensures same { IsTrue (honest self.old) → contents self.new ≡ contents self.old }
        ensures crash { IsTrue (honest self.old) → LeavesNoMore may_leave self.old self.new }
        ensures time { IsTrue (honest self.old) → Elapses moment left_since may_leave self.old self.new }
        ensures kept { Keeps honest sound self.old self.new }
        ensures fault { IfErr result (λ e. e ≡ Fault) }
        ensures never { IsTrue (sound self.old) → ¬ IsErrOf result Fault };

    /// Fills `out` with the bytes from `at` on. If there are fewer of them, nothing is known of the result.
    ///
    /// # Errors
    ///
    /// `Fault` if the device failed. `out` may then have any bytes.
    fn read_at(&mut self, at: u64, out: &mut [u8]) -> Result<(), DeviceError>
        ensures done { IsTrue (honest self.old) → at + length out.old ≤ length (contents self.old)
            → OnOk result (out.new ≡ slice_range (contents self.old) at (at + length out.old)) }
        ensures same { IsTrue (honest self.old) → contents self.new ≡ contents self.old }
        ensures crash { IsTrue (honest self.old) → LeavesNoMore may_leave self.old self.new }
        ensures time { IsTrue (honest self.old) → Elapses moment left_since may_leave self.old self.new }
        ensures kept { Keeps honest sound self.old self.new }
        ensures fault { IfErr result (λ e. e ≡ Fault) }
        ensures never { IsTrue (sound self.old) → at + length out.old ≤ length (contents self.old) → ¬ IsErrOf result Fault };

    /// Writes bytes over those from `at` on, and past the end. If `at` is after the end, nothing is known of the result.
    ///
    /// # Errors
    ///
    /// `Fault` if the device failed, `OutOfMemory` if it is one in memory. Any bytes may then stand in the range.
    fn write_at(&mut self, at: u64, bytes: &[u8]) -> Result<(), DeviceError>
        ensures done { IsTrue (honest self.old) → at ≤ length (contents self.old)
            → OnOk result (contents self.new ≡ splice (contents self.old) at bytes.now) }
        ensures crash { IsTrue (honest self.old) → at ≤ length (contents self.old)
            → LeavesBy may_leave (IsTorn at (length bytes.now)) self.old self.new }
        ensures time { IsTrue (honest self.old) → Elapses moment left_since may_leave self.old self.new }
        ensures kept { Keeps honest sound self.old self.new }
        ensures never { IsTrue (sound self.old) → ¬ IsErrOf result Fault };

    /// Cuts the bytes to a length, if they are more.
    ///
    /// # Errors
    ///
    /// `Fault` if the device failed, `OutOfMemory` if it is one in memory. Some of the bytes after that length may then be gone.
    fn shorten(&mut self, len: u64) -> Result<(), DeviceError>
        ensures done { IsTrue (honest self.old) → OnOk result (contents self.new ≡ take len (contents self.old)) }
        ensures crash { IsTrue (honest self.old) → LeavesBy may_leave (IsShortened len) self.old self.new }
        ensures time { IsTrue (honest self.old) → Elapses moment left_since may_leave self.old self.new }
        ensures kept { Keeps honest sound self.old self.new }
        ensures never { IsTrue (sound self.old) → ¬ IsErrOf result Fault };

    /// Makes all that was written durable, so that a power cut leaves it.
    ///
    /// # Errors
    ///
    /// `Fault` if the device failed, `OutOfMemory` if it is one in memory. What was written since the last sync may then be lost
    /// with a power cut, whatever a later sync returns.
    fn sync(&mut self) -> Result<(), DeviceError>
        ensures done { IsTrue (honest self.old) → OnOk result (IsSynced contents may_leave self.new) }
        ensures same { IsTrue (honest self.old) → contents self.new ≡ contents self.old }
        ensures crash { IsTrue (honest self.old) → LeavesNoMore may_leave self.old self.new }
        ensures time { IsTrue (honest self.old) → Elapses moment left_since may_leave self.old self.new }
        ensures kept { Keeps honest sound self.old self.new }
        ensures never { IsTrue (sound self.old) → ¬ IsErrOf result Fault };

    /// This moment is one of those since an earlier one.
    ghost counts_now: { (device : Self) (since : ℕ) (left : List ℕ) → since ≤ moment device → may_leave device left
        → left_since device since left };

    /// Since this moment there is no other.
    ghost only_now: { (device : Self) (left : List ℕ) → left_since device (moment device) left → may_leave device left };

    /// What reads give is among what a power cut may leave. So a process that is killed leaves to the next one what a cut might have left,
    /// and there is always something that a cut may leave.
    ghost reads_may_be_left: { (device : Self) → IsTrue (honest device) → may_leave device (contents device) };
}
