//! What is read of the files of a store before they are written.

ghost use Rattle.std.specs.Prelude.{◌≡◌, ◌+◌, ◌≤◌, IsTrue, IfOk, IfSome, IfNone, OnOk, OnErr, length, slice_range};
ghost use Rattle.fw_cuts.specs.Write.{max_part};
ghost use Rattle.fw_cuts.specs.Cuts.{Goes, Stays, LosesNoMore};

use crate::files::{FilesFault, Part, StoreFiles};
use crate::undo::MAX_PART_SIZE;

/// How many bytes FILE has from a place on, if they are no more than a part of a write can have.
pub(crate) fn size_from<F: StoreFiles>(files: &mut F, at: u64) -> Result<Option<usize>, FilesFault>
    ensures works { IsTrue F.honest → OnErr result (IsTrue F.may_fail) }
    ensures some { IsTrue F.honest
        → IfOk result (λ found. IfSome found (λ size. at + size ≡ length (F.seen files.old).held.store)) }
    ensures most { IfOk result (λ found. IfSome found (λ size. size ≤ max_part)) }
    ensures none { IsTrue F.honest → IfOk result (λ found. IfNone found
        (at ≤ length (F.seen files.old).held.store → at + (max_part + 1) ≤ length (F.seen files.old).held.store)) }
    ensures lost { IsTrue F.honest → LosesNoMore (F.seen files.old) (F.seen files.new) }
    ensures goes { IsTrue F.honest → Goes Stays (F.seen files.old) (F.seen files.new) }
{
    let len = files.len(Part::Store)?;
    if len < at || len - at > MAX_PART_SIZE as u64 {
        return Ok(None);
    }
    Ok(Some((len - at) as usize))
}

/// Fills one place with the bytes of FILE from `at` on, and another with those from `last_at` on.
pub(crate) fn read_both<F: StoreFiles>(
    files: &mut F,
    at: u64,
    front: &mut [u8],
    last_at: u64,
    last: &mut [u8],
) -> Result<(), FilesFault>
    requires front { IsTrue F.honest → at + length front.old ≤ length (F.seen files.old).held.store }
    requires last { IsTrue F.honest → last_at + length last.old ≤ length (F.seen files.old).held.store }
    ensures works { IsTrue F.honest → OnErr result (IsTrue F.may_fail) }
    ensures front { IsTrue F.honest
        → OnOk result (front.new ≡ slice_range (F.seen files.old).held.store at (at + length front.old)) }
    ensures last { IsTrue F.honest
        → OnOk result (last.new ≡ slice_range (F.seen files.old).held.store last_at (last_at + length last.old)) }
    ensures lost { IsTrue F.honest → LosesNoMore (F.seen files.old) (F.seen files.new) }
    ensures goes { IsTrue F.honest → Goes Stays (F.seen files.old) (F.seen files.new) }
{
    files.read_at(Part::Store, at, front)?;
    files.read_at(Part::Store, last_at, last)
}
