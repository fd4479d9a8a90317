//! What puts other bytes in the place of those of a device.

ghost use Rattle.std.specs.Prelude.{◌≡◌, ◌⊎◌, ℕ, List, IsTrue, OnOk, IsErrOf};
ghost use Rattle.fw_journal.specs.declared.error.ReplaceError.TheVariants.{NotReplaced, Fault};
ghost use Rattle.fw_journal.specs.Device.{IsSynced, LeavesNoMore, LeavesOnly, Keeps};

use crate::device::JournalDevice;
use crate::error::ReplaceError;

/// A way to put other bytes in the place of all those of a device. The new bytes are made beside the old ones, so that a power cut leaves
/// what it might have left before, or the new bytes whole.
pub trait Replacer<D: JournalDevice> {
    /// Whether it has made all that the device has, in the place of what was there.
    ghost made: { Self → D → Type 0 };

    /// Puts these bytes in the place of those of the device, and syncs them. From `Ok` on every power cut leaves them.
    ///
    /// # Errors
    ///
    /// `NotReplaced` if the new bytes couldn't be made beside the old ones: the device is as it was. `Fault` if the device failed
    /// after that, `OutOfMemory` if it is one in memory: it has its old bytes or the new ones then.
    fn replace(&mut self, device: &mut D, bytes: &[u8]) -> Result<(), ReplaceError>
        ensures done { IsTrue (D.honest device.old) → OnOk result (D.contents device.new ≡ bytes.now) }
        ensures synced { IsTrue (D.honest device.old) → OnOk result (IsSynced D.contents D.may_leave device.new) }

        // Whatever the device is.
        ensures anew { OnOk result (made self.new device.new) }
        ensures same { IsTrue (D.honest device.old) → IsErrOf result NotReplaced
            → (D.contents device.new ≡ D.contents device.old) × LeavesNoMore D.may_leave device.old device.new }

        // A cut at any moment of the call leaves what one before it might have left, or all of the new bytes.
        ensures any_moment { IsTrue (D.honest device.old) → LeavesOnly D.moment D.left_since device.old device.new
            (λ left. D.may_leave device.old left ⊎ (left ≡ bytes.now)) }
        ensures kept { Keeps D.honest D.sound device.old device.new }
        ensures never { IsTrue (D.sound device.old) → (¬ IsErrOf result NotReplaced) × (¬ IsErrOf result Fault) };
}
