//! FILE.journal: read, and made ready for a header write.

ghost use Rattle.std.specs.Prelude.{◌≡◌, ◌<◌, ◌≤◌, ◌⊎◌, [], IsTrue, IfOk, OnOk, OnErr, length};
ghost use Rattle.fw_cuts.specs.Write.{IsWrite, max_journal};
ghost use Rattle.fw_cuts.specs.Change.{IsChange};
ghost use Rattle.fw_cuts.specs.Cuts.{Goes, Stays, IsSynced, NoneLost, LosesNoMore};
ghost use Rattle.fw_cuts.specs.Rest.{IsReadyFor};
ghost use Rattle.fw_cuts.specs.Private.{SameStore};
ghost use Rattle.fw_cuts.specs.declared.files.Part.TheVariants.{Journal};

use crate::files::{FilesFault, Part, StoreFiles};
use crate::undo::{Change, HeaderWrite, MAX_JOURNAL_SIZE};

/// All bytes of FILE.journal.
pub(crate) fn read_journal<'a, F: StoreFiles>(
    files: &mut F,
    out: &'a mut [u8; MAX_JOURNAL_SIZE],
) -> Result<&'a [u8], FilesFault>
    ensures bytes { IsTrue F.honest → IfOk result (λ bytes. bytes.now ≡ (F.seen files.old).held.journal) }
    ensures few { IsTrue F.honest → OnOk result (length (F.seen files.old).held.journal ≤ max_journal) }
    ensures refused { IsTrue F.honest
        → OnErr result (IsTrue F.may_fail ⊎ (max_journal < length (F.seen files.old).held.journal)) }
    ensures goes { IsTrue F.honest → Goes Stays (F.seen files.old) (F.seen files.new) }
{
    let len = files.len(Part::Journal)?;
    if len > MAX_JOURNAL_SIZE as u64 {
        return Err(FilesFault);
    }
    let bytes = &mut out[..len as usize];
    files.read_at(Part::Journal, 0, bytes)?;
    Ok(bytes)
}

/// Makes FILE.journal ready for a header write, of which it is known what it changes.
pub(crate) fn put_journal<F: StoreFiles>(
    files: &mut F,
    change: Change,
    write: &HeaderWrite<'_>,
) -> Result<(), FilesFault>
    requires write { IsWrite write.now }
    requires change { IsChange change write.now }
    ensures ready { IsTrue F.honest → OnOk result (IsReadyFor (F.seen files.new).held.journal write.now) }
    ensures synced { IsTrue F.honest → NoneLost Journal (F.seen files.old)
        → OnOk result (IsSynced Journal (F.seen files.new)) }
    ensures lost { IsTrue F.honest → OnOk result (LosesNoMore (F.seen files.old) (F.seen files.new)) }
    ensures goes { IsTrue F.honest → Goes SameStore (F.seen files.old) (F.seen files.new) }
{
    match change {
        Change::FirstPart | Change::LastPart => empty_journal(files),
        Change::More => match write.to_bytes() {
            Some(bytes) => replace_journal(files, bytes.as_slice()),
            None => Err(FilesFault),
        },
    }
}

/// Puts bytes in place of those of FILE.journal, and syncs them.
fn replace_journal<F: StoreFiles>(files: &mut F, bytes: &[u8]) -> Result<(), FilesFault>
    ensures done { IsTrue F.honest → OnOk result ((F.seen files.new).held.journal ≡ bytes.now) }
    ensures synced { IsTrue F.honest → NoneLost Journal (F.seen files.old)
        → OnOk result (IsSynced Journal (F.seen files.new)) }
    ensures lost { IsTrue F.honest → OnOk result (LosesNoMore (F.seen files.old) (F.seen files.new)) }
    ensures goes { IsTrue F.honest → Goes SameStore (F.seen files.old) (F.seen files.new) }
{
    files.set_len(Part::Journal, bytes.len() as u64)?;
    files.write_at(Part::Journal, 0, bytes)?;
    files.sync(Part::Journal)
}

/// Takes all bytes from FILE.journal, and syncs that, also if it has none: an earlier call may have cut it and failed in its sync. No
/// byte of it is lost then, whatever was.
pub(crate) fn empty_journal<F: StoreFiles>(files: &mut F) -> Result<(), FilesFault>
    ensures works { IsTrue F.honest → OnErr result (IsTrue F.may_fail) }
    ensures done { IsTrue F.honest → OnOk result ((F.seen files.new).held.journal ≡ []) }
    ensures synced { IsTrue F.honest → OnOk result (IsSynced Journal (F.seen files.new)) }
    ensures found { IsTrue F.honest → OnOk result (NoneLost Journal (F.seen files.new)) }
    ensures lost { IsTrue F.honest → OnOk result (LosesNoMore (F.seen files.old) (F.seen files.new)) }
    ensures goes { IsTrue F.honest → Goes SameStore (F.seen files.old) (F.seen files.new) }
{
    if files.len(Part::Journal)? == 0 {
        return files.sync(Part::Journal);
    }
    files.set_len(Part::Journal, 0)?;
    files.sync(Part::Journal)
}
