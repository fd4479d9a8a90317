//! What a failed sync may have lost.

ghost use Rattle.std.specs.Prelude.{IsTrue, OnOk, OnErr};
ghost use Rattle.fw_cuts.specs.Private.{IsWrittenAgain};

use crate::files::{FilesFault, Part, StoreFiles};

/// How many bytes are written in one call.
const PIECE_SIZE: usize = 4096;

/// Writes all bytes of FILE once more, as they are read, and syncs them. So what a failed sync may have lost, in this process or in an
/// earlier one since the system started, is on the disk.
///
/// # Errors
///
/// `FilesFault` if the disk failed.
pub(crate) fn write_again<F: StoreFiles>(files: &mut F) -> Result<(), FilesFault>
    ensures works { IsTrue F.honest → OnErr result (IsTrue F.may_fail) }
    ensures written { IsTrue F.honest → OnOk result (IsWrittenAgain (F.seen files.old) (F.seen files.new)) }
{
    let size = files.len(Part::Store)?;
    let mut piece = [0; PIECE_SIZE];
    let mut at = 0;
    while at < size {
        let count = (size - at).min(PIECE_SIZE as u64);
        let bytes = &mut piece[..count as usize];
        files.read_at(Part::Store, at, bytes)?;
        files.write_at(Part::Store, at, bytes)?;
        at += count;
    }
    files.sync(Part::Store)
}
