//! A header write, through its journal.

ghost use Rattle.std.specs.Prelude.{◌≡◌, ◌+◌, ◌≤◌, ℕ, List, None, IsTrue, IfOk, OnOk, OnErr, length};
ghost use Rattle.fw_cuts.specs.Write.{IsWrite};
ghost use Rattle.fw_cuts.specs.Sectors.{after_of};
ghost use Rattle.fw_cuts.specs.Cuts.{Goes, Stays, IsSynced, LosesNoMore};
ghost use Rattle.fw_cuts.specs.Rest.{write_on, IsAtRest, IsOldOrNew, IsTakenBack};
ghost use Rattle.fw_cuts.specs.declared.files.Part.TheVariants.{Store};

use crate::files::{FilesFault, Part, StoreFiles};
use crate::journal::put_journal;
use crate::parts::write_parts;
use crate::reading::{read_both, size_from};
use crate::recovery::{put_back, settle};
use crate::undo::{HeaderWrite, JournalBytes};

/// The most bytes of a header that stand before the slots.
pub const FRONT_SIZE: usize = 614;

/// The most bytes of a header that stand after the slots.
const LAST_SIZE: usize = 1544;

/// What header writes of a store need beside it: room for what stands there, the sector that the last one changed, in which the next one
/// looks first, and the journal of one that failed when FILE may have had a part of it.
#[derive(Drop)]
pub struct Scratch {
    room: [u8; FRONT_SIZE + LAST_SIZE],
    likely: u64,
    failed: Option<JournalBytes>,
}

impl Scratch {
    /// Before the first header write.
    pub fn new() -> Scratch
        ensures { result.failed ≡ None }
    {
        Scratch {
            room: [0; FRONT_SIZE + LAST_SIZE],
            likely: 0,
            failed: None,
        }
    }
}

/// Writes bytes over those of FILE from `at` on, and others in place of all that stand from `last_at` on. FILE is synced first. Then the
/// journal is made ready: it is that of the write, with what FILE has there and what is written; or it is empty, where the write changes
/// one sector at most, of which a disk has all or nothing. Then FILE is written and synced. `scratch` is any.
///
/// Whenever the power is cut, in the call or after it, and whatever it answers, the next opening finds FILE as it was or with all of the
/// write.
///
/// # Errors
///
/// `FilesFault` if the disk failed, or if the write is none of a header: it has more than 614 bytes in front, there are more
/// than 1,544 at the end of FILE, or the first part doesn't end where the last one begins, or before. It has to be taken back then, before
/// the next one: `take_back` makes FILE as it was.
pub fn replace<F: StoreFiles>(
    files: &mut F,
    scratch: &mut Scratch,
    at: u64,
    bytes: &[u8],
    last_at: u64,
    last: &[u8],
) -> Result<(), FilesFault>
    requires { IsTrue F.honest → last_at ≤ length (F.seen files.old).held.store }
    ensures done { IsTrue F.honest → OnOk result ((F.seen files.new).held.store
        ≡ after_of (write_on (F.seen files.old).held.store at bytes.now last_at last.now) (F.seen files.old).held.store) }
    ensures at_rest { IsTrue F.honest → (from to : ℕ) → IsAtRest from to (F.seen files.old) → at + length bytes.now ≤ from → to ≤ last_at
        → OnOk result (IsAtRest from to (F.seen files.new)) }
    ensures synced { IsTrue F.honest → (from to : ℕ) → IsAtRest from to (F.seen files.old)
        → OnOk result (IsSynced Store (F.seen files.new)) }

    // Whatever it answers, and whenever it is cut.
    ensures goes { IsTrue F.honest → (from to : ℕ) → IsAtRest from to (F.seen files.old)
        → Goes (IsOldOrNew (F.seen files.old).held (write_on (F.seen files.old).held.store at bytes.now last_at last.now))
        (F.seen files.old) (F.seen files.new) }
    ensures failed { IsTrue F.honest → (from to : ℕ) → IsAtRest from to (F.seen files.old) → scratch.old.failed ≡ None → OnErr result
        ((made : List ℕ) → IsTakenBack scratch.new.failed (F.seen files.new).held.store made → made ≡ (F.seen files.old).held.store) }

    // A taking back makes something of any FILE.
    ensures taken { scratch.old.failed ≡ None → (store : List ℕ) → OnErr result ((made : List ℕ) × IsTakenBack scratch.new.failed store made) }
    ensures clear { OnOk result (scratch.new.failed ≡ scratch.old.failed) }
{
    crate::undo::laws::one_write();
    crate::undo::laws::each_cut_is_mended();
    crate::undo::laws::one_sector_is_whole();
    files.sync(Part::Store)?;
    let Scratch {
        room,
        likely,
        failed,
    } = scratch;
    let write = write_to(files, room, at, bytes, last_at, last)?;
    let change = write.change(likely);
    put_journal(files, change, &write)?;
    match write_parts(files, change, &write) {
        Ok(()) => Ok(()),
        Err(fault) => {
            *failed = write.to_bytes();
            Err(fault)
        }
    }
}

/// Takes back a header write that failed, whatever of it stands in FILE. Then all of FILE is written again and synced, and the journal is
/// emptied, as where files are opened.
///
/// # Errors
///
/// `FilesFault` if the disk failed. It is still to be taken back.
pub fn take_back<F: StoreFiles>(files: &mut F, scratch: &mut Scratch) -> Result<(), FilesFault>
    ensures done { IsTrue F.honest
        → OnOk result (IsTakenBack scratch.old.failed (F.seen files.old).held.store (F.seen files.new).held.store) }
    ensures none { OnOk result (scratch.new.failed ≡ None) }
    ensures at_rest { IsTrue F.honest → OnOk result ((from to : ℕ) → IsAtRest from to (F.seen files.new)) }
{
    put_back(files, &scratch.failed)?;
    settle(files)?;
    scratch.failed = None;
    Ok(())
}

/// A header write to FILE, with what FILE has in the places of its parts.
fn write_to<'a, F: StoreFiles>(
    files: &mut F,
    room: &'a mut [u8; FRONT_SIZE + LAST_SIZE],
    at: u64,
    bytes: &'a [u8],
    last_at: u64,
    last: &'a [u8],
) -> Result<HeaderWrite<'a>, FilesFault>
    requires { IsTrue F.honest → last_at ≤ length (F.seen files.old).held.store }
    ensures write { IsTrue F.honest
        → IfOk result (λ write. write ≡ write_on (F.seen files.old).held.store at bytes.now last_at last.now) }
    ensures fits { IfOk result IsWrite }
    ensures lost { IsTrue F.honest → LosesNoMore (F.seen files.old) (F.seen files.new) }
    ensures goes { IsTrue F.honest → Goes Stays (F.seen files.old) (F.seen files.new) }
{
    let Some(size) = size_from(files, last_at)? else {
        return Err(FilesFault);
    };
    let front = bytes.len() as u64;
    if bytes.len() > FRONT_SIZE || size > LAST_SIZE || front > last_at || at > last_at - front {
        return Err(FilesFault);
    }
    let (before, last_before) = room.split_at_mut(FRONT_SIZE);
    let before = &mut before[..bytes.len()];
    let last_before = &mut last_before[..size];
    read_both(files, at, before, last_at, last_before)?;
    let write = HeaderWrite {
        at,
        before,
        after: bytes,
        last_at,
        last_before,
        last_after: last,
    };
    if write.fits() {
        Ok(write)
    } else {
        Err(FilesFault)
    }
}
