//! Writing between the parts of a header: into the slots.

ghost use Rattle.std.specs.Prelude.{◌≡◌, ◌+◌, ◌≤◌, ℕ, IsTrue, OnOk, length};
ghost use Rattle.fw_cuts.specs.Both.{On};
ghost use Rattle.fw_cuts.specs.Cuts.{Writes};
ghost use Rattle.fw_cuts.specs.Rest.{IsAtRest};
ghost use Rattle.fw_cuts.specs.declared.files.Part.TheVariants.{Store};

use crate::files::{FilesFault, Part, StoreFiles};

/// Writes bytes over those of FILE from `at` on. It isn't synced. Where they stand between the parts of the header the files stay at rest,
/// also if it fails.
///
/// # Errors
///
/// `FilesFault` if the disk failed. Any sectors of the range may then have these bytes.
pub fn write_slot<F: StoreFiles>(files: &mut F, at: u64, bytes: &[u8]) -> Result<(), FilesFault>
    requires { IsTrue F.honest → at + length bytes.now ≤ length (F.seen files.old).held.store }
    ensures done { IsTrue F.honest
        → OnOk result (On Store (Writes at bytes.now) (F.seen files.old).held (F.seen files.new).held) }
    ensures at_rest { IsTrue F.honest → (from to : ℕ) → IsAtRest from to (F.seen files.old) → from ≤ at → at + length bytes.now ≤ to
        → IsAtRest from to (F.seen files.new) }
{
    files.write_at(Part::Store, at, bytes)
}
