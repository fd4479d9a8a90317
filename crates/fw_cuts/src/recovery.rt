//! What an opening makes of the files that a power cut, or a failed sync, left.

ghost use Rattle.std.specs.Prelude.{◌≡◌, ◌<◌, ◌≤◌, ◌⊎◌, ℕ, IsTrue, OnOk, OnErr, length};
ghost use Rattle.fw_cuts.specs.Write.{IsWrite, max_journal};
ghost use Rattle.fw_cuts.specs.Sectors.{Mends};
ghost use Rattle.fw_cuts.specs.Rest.{IsRecovered, IsTakenBack, IsAtRest};

use crate::again::write_again;
use crate::files::{FilesFault, Part, StoreFiles};
use crate::journal::{empty_journal, read_journal};
use crate::parts::write_both;
use crate::reading::{read_both, size_from};
use crate::undo::{HeaderWrite, JournalBytes, MAX_JOURNAL_SIZE, MAX_PART_SIZE};

/// What an opening does first. It puts right what a power cut left of a header write, by the journal: if each sector of the header is the
/// one of before or the one of after, and some of after are missing, those of before are put back.
///
/// # Errors
///
/// `FilesFault` if the disk failed, or if FILE.journal has more bytes than a journal.
pub fn recover<F: StoreFiles>(files: &mut F) -> Result<(), FilesFault>
    ensures recovered { IsTrue F.honest → OnOk result
        (IsRecovered (F.seen files.old).held.journal (F.seen files.old).held.store (F.seen files.new).held.store) }

    // Files of which no call fails are refused just if their journal is longer than any.
    ensures few { IsTrue F.honest → OnOk result (length (F.seen files.old).held.journal ≤ max_journal) }
    ensures refused { IsTrue F.honest
        → OnErr result (IsTrue F.may_fail ⊎ (max_journal < length (F.seen files.old).held.journal)) }
{
    let mut room = [0; MAX_JOURNAL_SIZE];
    let bytes = read_journal(files, &mut room)?;
    match HeaderWrite::from_bytes(bytes) {
        Some(write) => mend(files, &write),
        None => Ok(()),
    }
}

/// What an opening does next, and each header write that comes after one that failed. It writes all of FILE once more and syncs it, since a
/// sync that failed since the system started may have lost some of it. Last it empties the journal and syncs that.
///
/// # Errors
///
/// `FilesFault` if the disk failed. FILE is as it was, and it is still to be done before the next header write.
pub fn settle<F: StoreFiles>(files: &mut F) -> Result<(), FilesFault>
    ensures works { IsTrue F.honest → OnErr result (IsTrue F.may_fail) }
    ensures store { IsTrue F.honest → OnOk result ((F.seen files.new).held.store ≡ (F.seen files.old).held.store) }
    ensures at_rest { IsTrue F.honest → OnOk result ((from to : ℕ) → IsAtRest from to (F.seen files.new)) }
{
    write_again(files)?;
    empty_journal(files)
}

/// Puts back the bytes of before where a write was cut.
fn mend<F: StoreFiles>(files: &mut F, write: &HeaderWrite<'_>) -> Result<(), FilesFault>
    requires { IsWrite write.now }
    ensures works { IsTrue F.honest → OnErr result (IsTrue F.may_fail) }
    ensures mended { IsTrue F.honest
        → OnOk result (Mends write.now (F.seen files.old).held.store (F.seen files.new).held.store) }
{
    let Some(size) = size_from(files, write.last_at)? else {
        return Ok(());
    };
    let mut front = [0; MAX_PART_SIZE];
    let mut last = [0; MAX_PART_SIZE];
    let front = &mut front[..write.before.len()];
    let last = &mut last[..size];
    read_both(files, write.at, front, write.last_at, last)?;
    if !write.is_torn(front, last) {
        return Ok(());
    }
    write_both(
        files,
        write.at,
        write.before,
        write.last_at,
        write.last_before,
    )
}

/// Puts back what stood before a header write that failed, of which this is the journal, if one did.
pub(crate) fn put_back<F: StoreFiles>(
    files: &mut F,
    failed: &Option<JournalBytes>,
) -> Result<(), FilesFault>
    ensures { IsTrue F.honest
        → OnOk result (IsTakenBack failed.now (F.seen files.old).held.store (F.seen files.new).held.store) }
{
    let Some(bytes) = failed else {
        return Ok(());
    };
    let Some(write) = HeaderWrite::from_bytes(bytes.as_slice()) else {
        return Err(FilesFault);
    };
    if files.len(Part::Store)? < write.last_at {
        return Err(FilesFault);
    }
    write_both(
        files,
        write.at,
        write.before,
        write.last_at,
        write.last_before,
    )
}
