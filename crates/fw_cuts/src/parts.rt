//! The parts of a header, written to FILE.

ghost use Rattle.std.specs.Prelude.{◌≡◌, ◌+◌, ◌≤◌, ◌<◌, ◌^◌, List, ℕ, IsTrue, OnOk, OnErr, length};
ghost use Rattle.fw_cuts.specs.Write.{Write, IsWrite};
ghost use Rattle.fw_cuts.specs.Sectors.{IsOn, replaced, after_of};
ghost use Rattle.fw_cuts.specs.Change.{IsChange};
ghost use Rattle.fw_cuts.specs.Both.{Both, On};
ghost use Rattle.fw_cuts.specs.Cuts.{Goes, Resizes, MayResize, IsSynced, NoneLost, LosesNoMore};
ghost use Rattle.fw_cuts.specs.Private.{SameJournal, Lays};
ghost use Rattle.fw_cuts.specs.declared.files.Part.TheVariants.{Store};

use crate::files::{FilesFault, Part, StoreFiles};
use crate::undo::{Change, HeaderWrite};

/// Writes what a header write changes, and syncs it.
pub(crate) fn write_parts<F: StoreFiles>(
    files: &mut F,
    change: Change,
    write: &HeaderWrite<'_>,
) -> Result<(), FilesFault>
    requires write { IsWrite write.now }
    requires begins { IsTrue F.honest → IsOn write.now (F.seen files.old).held.store }
    requires change { IsChange change write.now }
    ensures done { IsTrue F.honest
        → OnOk result ((F.seen files.new).held.store ≡ after_of write.now (F.seen files.old).held.store) }
    ensures synced { IsTrue F.honest → NoneLost Store (F.seen files.old)
        → OnOk result (IsSynced Store (F.seen files.new)) }
    ensures lost { IsTrue F.honest → OnOk result (LosesNoMore (F.seen files.old) (F.seen files.new)) }
    ensures journal { IsTrue F.honest → Goes SameJournal (F.seen files.old) (F.seen files.new) }
    ensures goes { IsTrue F.honest → NoneLost Store (F.seen files.old) → IsSynced Store (F.seen files.old)
        → Goes (Lays write.now (F.seen files.old).held.store) (F.seen files.old) (F.seen files.new) }
{
    write_change(files, change, write)?;
    files.sync(Part::Store)
}

/// Writes what a header write changes. It isn't synced.
fn write_change<F: StoreFiles>(
    files: &mut F,
    change: Change,
    write: &HeaderWrite<'_>,
) -> Result<(), FilesFault>
    requires write { IsWrite write.now }
    requires begins { IsTrue F.honest → IsOn write.now (F.seen files.old).held.store }
    requires change { IsChange change write.now }
    ensures done { IsTrue F.honest
        → OnOk result ((F.seen files.new).held.store ≡ after_of write.now (F.seen files.old).held.store) }
    ensures lost { IsTrue F.honest → OnOk result (LosesNoMore (F.seen files.old) (F.seen files.new)) }
    ensures journal { IsTrue F.honest → Goes SameJournal (F.seen files.old) (F.seen files.new) }
    ensures goes { IsTrue F.honest → NoneLost Store (F.seen files.old) → IsSynced Store (F.seen files.old)
        → Goes (Lays write.now (F.seen files.old).held.store) (F.seen files.old) (F.seen files.new) }
{
    match change {
        Change::FirstPart => files.write_at(Part::Store, write.at, write.after),
        Change::LastPart => files.write_at(Part::Store, write.last_at, write.last_after),
        Change::More => write_both(
            files,
            write.at,
            write.after,
            write.last_at,
            write.last_after,
        ),
    }
}

/// Writes both parts of a header. FILE gets its length first. It isn't synced.
pub(crate) fn write_both<F: StoreFiles>(
    files: &mut F,
    at: u64,
    bytes: &[u8],
    last_at: u64,
    last: &[u8],
) -> Result<(), FilesFault>
    requires order { at + length bytes.now ≤ last_at }
    requires fits { last_at + length last.now < 2 ^ 64 }
    requires begins { IsTrue F.honest → last_at ≤ length (F.seen files.old).held.store }
    ensures works { IsTrue F.honest → OnErr result (IsTrue F.may_fail) }
    ensures done { IsTrue F.honest → OnOk result
        ((F.seen files.new).held.store ≡ replaced (F.seen files.old).held.store at bytes.now last_at last.now) }
    ensures lost { IsTrue F.honest → OnOk result (LosesNoMore (F.seen files.old) (F.seen files.new)) }
    ensures journal { IsTrue F.honest → Goes SameJournal (F.seen files.old) (F.seen files.new) }
    ensures goes { IsTrue F.honest → (w : Write) → w.at ≡ at → w.after ≡ bytes.now → w.last_at ≡ last_at → w.last_after ≡ last.now → IsWrite w
        → IsOn w (F.seen files.old).held.store
        → NoneLost Store (F.seen files.old) → IsSynced Store (F.seen files.old)
        → Goes (Lays w (F.seen files.old).held.store) (F.seen files.old) (F.seen files.new) }
{
    fit(files, last_at + last.len() as u64)?;
    files.write_at(Part::Store, last_at, last)?;
    files.write_at(Part::Store, at, bytes)
}

/// Cuts FILE to this length, or adds zeros up to it. If it is cut, that is synced, so that no byte written afterwards is found among
/// those that are cut off.
fn fit<F: StoreFiles>(files: &mut F, len: u64) -> Result<(), FilesFault>
    ensures works { IsTrue F.honest → OnErr result (IsTrue F.may_fail) }
    ensures done { IsTrue F.honest
        → OnOk result (On Store (Resizes len) (F.seen files.old).held (F.seen files.new).held) }
    ensures short { IsTrue F.honest → NoneLost Store (F.seen files.old) → IsSynced Store (F.seen files.old)
        → OnOk result ((left : Both) → (F.seen files.new).may_leave left → length left.store ≤ len) }
    ensures lost { IsTrue F.honest → OnOk result (LosesNoMore (F.seen files.old) (F.seen files.new)) }
    ensures goes { IsTrue F.honest → Goes (On Store (MayResize len)) (F.seen files.old) (F.seen files.new) }
{
    let size = files.len(Part::Store)?;
    if size == len {
        return Ok(());
    }
    files.set_len(Part::Store, len)?;
    if size < len {
        return Ok(());
    }
    files.sync(Part::Store)
}
