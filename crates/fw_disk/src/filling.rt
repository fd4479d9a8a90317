//! The bytes of a file that is made.

ghost use Rattle.std.specs.Prelude.{◌≡◌, ◌≤◌, ◌+◌, ◌-◌, ◌++◌, [], IsTrue, OnOk, length, replicate};
ghost use Rattle.fw_disk.specs.Disk.{Goes, IsSynced};
ghost use Rattle.fw_disk.specs.Calls.{Writes, Tears};
ghost use Rattle.fw_disk.specs.Ours.{Fills};

use crate::cause::Cause;
use crate::folder::Folder;
use crate::kind::Kind;

/// Gives a file that was begun its bytes, and syncs them. The first ones are synced before any other is written, so that what a power cut
/// leaves is ours.
///
/// # Errors
///
/// Those of the system. It may then have any of the bytes.
pub fn fill<F: Folder, K: Kind>(
    folder: &mut F,
    file: &F::File,
    kind: &K,
    bytes: &[u8],
) -> Result<(), Cause>
    ensures done { IsTrue (F.seen folder.old).honest → (F.seen folder.old).disk.bytes (F.number file.now) ≡ []
        → OnOk result ((F.seen folder.new).disk.bytes (F.number file.now) ≡ bytes.now) }
    ensures synced { IsTrue (F.seen folder.old).honest → OnOk result (IsSynced (F.number file.now) (F.seen folder.new)) }
    ensures goes { (F.seen folder.old).disk.bytes (F.number file.now) ≡ [] → IsSynced (F.number file.now) (F.seen folder.old)
        → Goes (Fills (K.ours kind.now) (K.first kind.now) (F.number file.now) bytes.now) (F.seen folder.old) (F.seen folder.new) }
{
    let (first, others) = bytes.split_at(bytes.len().min(kind.first()));
    write_synced(folder, file, 0, first)?;
    write_synced(folder, file, first.len() as u64, others)
}

/// Writes bytes at a position of a file, and syncs them.
fn write_synced<F: Folder>(
    folder: &mut F,
    file: &F::File,
    at: u64,
    bytes: &[u8],
) -> Result<(), Cause>
    ensures done { IsTrue (F.seen folder.old).honest
        → at ≤ length ((F.seen folder.old).disk.bytes (F.number file.now))
        → OnOk result (Writes (F.number file.now) at bytes.now (F.seen folder.old).disk (F.seen folder.new).disk) }
    ensures synced { IsTrue (F.seen folder.old).honest → OnOk result (IsSynced (F.number file.now) (F.seen folder.new)) }
    ensures goes { Goes (Tears (F.number file.now) at (length bytes.now)) (F.seen folder.old) (F.seen folder.new) }
{
    folder.write_at(file, at, bytes)?;
    folder.sync(file)
}

/// How many zeros are written in one call.
const PIECE_SIZE: usize = 4096;

/// Reserves room: writes zeros from the position `from`, which is the file's end, up to the position `to`. So a full disk is seen here, and
/// the file has no holes. It isn't synced. A power cut leaves what it may leave of one write: before `from` the file is as it was, and it is
/// no longer than `to`.
///
/// # Errors
///
/// `Full` if there is no room, and those of the system. Some of the zeros may then be there.
pub fn reserve<F: Folder>(folder: &mut F, file: &F::File, from: u64, to: u64) -> Result<(), Cause>
    ensures done { IsTrue (F.seen folder.old).honest → length ((F.seen folder.old).disk.bytes (F.number file.now)) ≡ from
        → OnOk result ((F.seen folder.new).disk.bytes (F.number file.now)
        ≡ (F.seen folder.old).disk.bytes (F.number file.now) ++ replicate (to - from) 0) }
    ensures goes { Goes (Tears (F.number file.now) from (to - from)) (F.seen folder.old) (F.seen folder.new) }
{
    let zeros = [0; PIECE_SIZE];
    let mut at = from;
    while at < to {
        let count = (to - at).min(PIECE_SIZE as u64);
        folder.write_at(file, at, &zeros[..count as usize])?;
        at += count;
    }
    Ok(())
}
