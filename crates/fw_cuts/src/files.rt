//! The files of a store: FILE, and FILE.journal beside it.

ghost use Rattle.std.specs.Prelude.{◌≡◌, ◌+◌, ◌≤◌, ◌<◌, ℕ, Bool, true, IsTrue, IfOk, OnOk, OnErr, length, slice_range};
ghost use Rattle.fw_cuts.specs.Both.{Both, of, On};
ghost use Rattle.fw_cuts.specs.Cuts.{
  Seen,
  Goes,
  Stays,
  Writes,
  Cuts,
  Resizes,
  MayResize,
  IsSynced,
  NoneLost,
  NoneLostOf,
  LosesNoMore,
};
ghost use Rattle.fw_cuts.specs.declared.files.Part.{Part};

use std::fmt;
use thiserror::Error;

/// One of the files of a store.
#[derive(Clone, Copy)]
pub enum Part {
    /// FILE, which has the header and the slots.
    Store,
    /// FILE.journal, which has the journal of the last header write, or nothing.
    Journal,
}

/// A file of a store refused a call.
#[derive(Clone, Copy, Debug, Error)]
pub struct FilesFault;

impl fmt::Display for FilesFault {
    fn fmt<W: fmt::Write>(&self, f: &mut fmt::Formatter<W>) -> fmt::Result {
        fmt::Debug::fmt(self, f)
    }
}

/// The open files of a store. Of an honest disk it is known what reads give, and what a power cut leaves:
///
/// - A disk writes whole sectors of 512 bytes. Until a file is synced, a cut leaves of each write of it any sectors as before and the others
///   as they were written, in any order, and of each change of its length the one or the other.
/// - A sync that fails may lose bytes of the file: the system shows them, but no later sync brings them to the disk, until they are written
///   again. If none is lost, all is on the disk once a sync has returned `Ok`.
pub trait StoreFiles {
    /// Whether they keep what is said here.
    ghost honest: { Bool };

    /// Whether a call may fail. If none may, an honest disk never refuses one.
    ghost may_fail: { Bool } = { true };

    /// What is known of the files.
    ghost seen: { Self → Seen };

    /// How many bytes a file has.
    ///
    /// # Errors
    ///
    /// `FilesFault` if the disk failed.
    fn len(&mut self, part: Part) -> Result<u64, FilesFault>
        ensures works { IsTrue honest → OnErr result (IsTrue may_fail) }
        ensures done { IsTrue honest → IfOk result (λ len. len ≡ length (of part (seen self.old).held)) }
        ensures lost { IsTrue honest → LosesNoMore (seen self.old) (seen self.new) }
        ensures goes { IsTrue honest → Goes Stays (seen self.old) (seen self.new) };

    /// Cuts a file to this length, or adds zeros up to it.
    ///
    /// # Errors
    ///
    /// `FilesFault` if the disk failed. The file may have either length then.
    fn set_len(&mut self, part: Part, len: u64) -> Result<(), FilesFault>
        ensures works { IsTrue honest → OnErr result (IsTrue may_fail) }
        ensures done { IsTrue honest
            → OnOk result (On part (Resizes len) (seen self.old).held (seen self.new).held) }
        ensures lost { IsTrue honest → LosesNoMore (seen self.old) (seen self.new) }
        ensures goes { IsTrue honest → Goes (On part (MayResize len)) (seen self.old) (seen self.new) };

    /// Fills `out` with the bytes of a file from `at` on.
    ///
    /// # Errors
    ///
    /// `FilesFault` if the disk failed. `out` may then have any bytes.
    fn read_at(&mut self, part: Part, at: u64, out: &mut [u8]) -> Result<(), FilesFault>
        requires { IsTrue honest → at + length out.old ≤ length (of part (seen self.old).held) }
        ensures works { IsTrue honest → OnErr result (IsTrue may_fail) }
        ensures done { IsTrue honest
            → OnOk result (out.new ≡ slice_range (of part (seen self.old).held) at (at + length out.old)) }
        ensures lost { IsTrue honest → LosesNoMore (seen self.old) (seen self.new) }
        ensures goes { IsTrue honest → Goes Stays (seen self.old) (seen self.new) };

    /// Writes bytes over those of a file from `at` on.
    ///
    /// # Errors
    ///
    /// `FilesFault` if the disk failed. Any sectors of the range may then have these bytes.
    fn write_at(&mut self, part: Part, at: u64, bytes: &[u8]) -> Result<(), FilesFault>
        requires { IsTrue honest → at + length bytes.now ≤ length (of part (seen self.old).held) }
        ensures works { IsTrue honest → OnErr result (IsTrue may_fail) }
        ensures done { IsTrue honest
            → OnOk result (On part (Writes at bytes.now) (seen self.old).held (seen self.new).held) }
        ensures lost { IsTrue honest → LosesNoMore (seen self.old) (seen self.new) }
        ensures found { IsTrue honest → OnOk result (NoneLostOf part at (length bytes.now) (seen self.new)) }
        ensures goes { IsTrue honest → Goes (On part (Cuts at bytes.now)) (seen self.old) (seen self.new) };

    /// Brings all that was written to a file to the disk, except for what is lost.
    ///
    /// # Errors
    ///
    /// `FilesFault` if the disk failed. Any bytes of the file that weren't on the disk may be lost then.
    fn sync(&mut self, part: Part) -> Result<(), FilesFault>
        ensures works { IsTrue honest → OnErr result (IsTrue may_fail) }
        ensures done { IsTrue honest → NoneLost part (seen self.old) → OnOk result (IsSynced part (seen self.new)) }
        ensures lost { IsTrue honest → OnOk result (LosesNoMore (seen self.old) (seen self.new)) }
        ensures goes { IsTrue honest → Goes Stays (seen self.old) (seen self.new) };

    /// What reads give is among what a power cut may leave.
    ghost reads_may_be_left: { IsTrue honest → (f : Self) → (seen f).may_leave (seen f).held };

    /// What is lost is a byte of the file.
    ghost lost_is_there: { IsTrue honest → (f : Self) (part : Part) (i : ℕ) → (seen f).lost part i
        → i < length (of part (seen f).held) };

    /// This moment is one of those since an earlier one.
    ghost counts_now: { (f : Self) (since : ℕ) (left : Both) → since ≤ (seen f).moment → (seen f).may_leave left
        → (seen f).left_since since left };

    /// Since this moment there is no other.
    ghost only_now: { (f : Self) (left : Both) → (seen f).left_since (seen f).moment left → (seen f).may_leave left };
}
