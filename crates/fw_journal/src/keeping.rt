//! What keeps the bytes that an opening cuts off a journal.

ghost use Rattle.std.specs.Prelude.{ℕ, List, Bool, IsTrue, OnOk, IsErrOf};
ghost use Rattle.fw_journal.specs.declared.error.DeviceError.TheVariants.{Fault};
ghost use Rattle.fw_journal.specs.Book.{HasBlocks};

use crate::error::DeviceError;

/// What keeps the bytes that an opening is about to cut off a journal, where they read as records. A shut gate stands before them: that of
/// a commit which was cut between its two syncs, or one that turned on the medium. Which of them it is, the bytes don't say.
pub trait Keeper {
    /// Whether it holds these bytes.
    ghost holds: { Self → List ℕ → Type 0 };

    /// Whether no call fails, except if memory is refused.
    ghost sound: { Self → Bool };

    /// Keeps what stands from the shut gate of a journal on, with so many whole records one after another.
    ///
    /// # Errors
    ///
    /// `Fault` if they couldn't be kept, `OutOfMemory` if memory was refused. The journal isn't opened then, and its bytes stay.
    fn keep(&mut self, records: usize, bytes: &[u8]) -> Result<(), DeviceError>
        requires counted { HasBlocks records bytes.now }
        ensures done { OnOk result (holds self.new bytes.now) }
        ensures never { IsTrue (sound self.old) → ¬ IsErrOf result Fault };
}
