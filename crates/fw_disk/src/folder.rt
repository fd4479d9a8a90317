//! What a program asks of the folder of a file.

ghost use Rattle.std.specs.Prelude.{
  ◌≡◌,
  ◌≢◌,
  ◌+◌,
  ◌≤◌,
  ◌↔◌,
  ℕ,
  [],
  IsTrue,
  IfOk,
  IfErr,
  OnOk,
  OnErr,
  length,
  slice_range,
};
ghost use Rattle.fw_disk.specs.Disk.{
  Disk,
  Seen,
  absent,
  plain,
  found_of,
  IsNameless,
  IsAlone,
  IsTwice,
  Goes,
  IsSynced,
  AreNamesSynced,
};
ghost use Rattle.fw_disk.specs.Calls.{
  Stays,
  Creates,
  MayCreate,
  Writes,
  Tears,
  Shortens,
  Renames,
  MayRename,
  Removes,
  MayRemove,
};
ghost use Rattle.fw_disk.specs.Causes.{IsOfSystem};

use crate::cause::Cause;
use crate::name::{Found, Name};

/// The folder of a file, with the names of [`Name`] in it. Of an honest folder it is known what reads give and what a power cut leaves:
///
/// - A write may leave any bytes in its range until the next sync of the file.
/// - A rename and a removal may leave each name that they touch as before or as after, independently of each other and of all writes,
///   until the folder is synced. So what is proved holds in whatever order a disk keeps a rename and the writes before it.
///
/// What other processes do to the folder is not in it. Only a folder in memory takes memory, and answers `Full` if it is refused.
pub trait Folder {
    /// An open file, under an exclusive lock, which ends when it is let go.
    type File: Drop;

    /// What is known of the folder.
    ghost seen: { Self → Seen };

    /// The number of an open file.
    ghost number: { Self.File → ℕ };

    /// What stands under a name. A link isn't followed.
    fn look(&mut self, name: Name) -> Result<Found, Cause>
        ensures done { IsTrue (seen self.old).honest → IfOk result (λ found. found ≡ found_of ((seen self.old).disk.entry name)) }
        ensures goes { Goes Stays (seen self.old) (seen self.new) }
        ensures cause { IfErr result IsOfSystem };

    /// Opens a file that is there, for reading and writing. A link is followed, so what is opened may have another name.
    fn open(&mut self, name: Name) -> Result<Self::File, Cause>
        ensures done { IsTrue (seen self.old).honest
            → IfOk result (λ file. (n : ℕ) → (seen self.old).disk.entry name ≡ plain n → number file ≡ n) }
        ensures goes { Goes Stays (seen self.old) (seen self.new) }
        ensures cause { IfErr result IsOfSystem };

    /// Makes a file if nothing has the name. It may be made though its lock is refused.
    fn create(&mut self, name: Name) -> Result<Self::File, Cause>
        ensures done { IsTrue (seen self.old).honest → IfOk result (λ file.
            (number file ≡ (seen self.old).disk.next) × Creates name (number file) (seen self.old).disk (seen self.new).disk) }
        ensures absent { IsTrue (seen self.old).honest → OnOk result ((seen self.old).disk.entry name ≡ absent) }
        ensures goes { Goes (MayCreate name (seen self.old).disk.next) (seen self.old) (seen self.new) }
        ensures cause { IfErr result IsOfSystem };

    /// Whether the name is the file's, no link to it, and its only one.
    fn is_alone(&mut self, name: Name, file: &Self::File) -> Result<bool, Cause>
        ensures done { IsTrue (seen self.old).honest
            → IfOk result (λ alone. IsTrue alone ↔ IsAlone (seen self.old).disk name (number file.now)) }
        ensures goes { Goes Stays (seen self.old) (seen self.new) }
        ensures cause { IfErr result IsOfSystem };

    /// Whether FILE and FILE.new are the file's names, no links to it, and its only ones.
    fn is_twice(&mut self, file: &Self::File) -> Result<bool, Cause>
        ensures done { IsTrue (seen self.old).honest
            → IfOk result (λ twice. IsTrue twice ↔ IsTwice (seen self.old).disk (number file.now)) }
        ensures goes { Goes Stays (seen self.old) (seen self.new) }
        ensures cause { IfErr result IsOfSystem };

    /// How many bytes a file has.
    fn len(&mut self, file: &Self::File) -> Result<u64, Cause>
        ensures done { IsTrue (seen self.old).honest
            → IfOk result (λ len. len ≡ length ((seen self.old).disk.bytes (number file.now))) }
        ensures goes { Goes Stays (seen self.old) (seen self.new) }
        ensures cause { IfErr result IsOfSystem };

    /// Fills `out` with the bytes from `at` on. If there are fewer of them, nothing is known of the result.
    fn read_at(&mut self, file: &Self::File, at: u64, out: &mut [u8]) -> Result<(), Cause>
        ensures done { IsTrue (seen self.old).honest
            → at + length out.old ≤ length ((seen self.old).disk.bytes (number file.now))
            → OnOk result (out.new ≡ slice_range ((seen self.old).disk.bytes (number file.now)) at (at + length out.old)) }
        ensures goes { Goes Stays (seen self.old) (seen self.new) }
        ensures cause { IfErr result IsOfSystem };

    /// Writes bytes over those from `at` on, and past the end. If `at` is after the end, only its range is known.
    fn write_at(&mut self, file: &Self::File, at: u64, bytes: &[u8]) -> Result<(), Cause>
        ensures done { IsTrue (seen self.old).honest
            → at ≤ length ((seen self.old).disk.bytes (number file.now))
            → OnOk result (Writes (number file.now) at bytes.now (seen self.old).disk (seen self.new).disk) }
        ensures goes { Goes (Tears (number file.now) at (length bytes.now)) (seen self.old) (seen self.new) }
        ensures cause { IfErr result IsOfSystem };

    /// Takes all bytes of a file away.
    fn clear(&mut self, file: &Self::File) -> Result<(), Cause>
        ensures done { IsTrue (seen self.old).honest → OnOk result ((seen self.new).disk.bytes (number file.now) ≡ []) }
        ensures goes { Goes (Shortens (number file.now)) (seen self.old) (seen self.new) }
        ensures cause { IfErr result IsOfSystem };

    /// Gives a file the permissions of another.
    fn copy_permissions(&mut self, from: &Self::File, to: &Self::File) -> Result<(), Cause>
        ensures goes { Goes Stays (seen self.old) (seen self.new) }
        ensures cause { IfErr result IsOfSystem };

    /// Makes the bytes of a file durable (fsync), so that a power cut leaves them.
    fn sync(&mut self, file: &Self::File) -> Result<(), Cause>
        ensures done { IsTrue (seen self.old).honest → OnOk result (IsSynced (number file.now) (seen self.new)) }
        ensures goes { Goes Stays (seen self.old) (seen self.new) }
        ensures cause { IfErr result IsOfSystem };

    /// Gives what has the first name the second one, in the place of what had that.
    fn rename(&mut self, from: Name, to: Name) -> Result<(), Cause>
        ensures done { IsTrue (seen self.old).honest → from ≢ to
            → OnOk result (Renames from to (seen self.old).disk (seen self.new).disk) }
        ensures same { IsTrue (seen self.old).honest → OnErr result ((seen self.new).disk ≡ (seen self.old).disk) }
        ensures goes { Goes (MayRename from to ((seen self.old).disk.entry from)) (seen self.old) (seen self.new) }
        ensures cause { IfErr result IsOfSystem };

    /// Takes a name away.
    fn remove(&mut self, name: Name) -> Result<(), Cause>
        ensures done { IsTrue (seen self.old).honest → OnOk result (Removes name (seen self.old).disk (seen self.new).disk) }
        ensures goes { Goes (MayRemove name) (seen self.old) (seen self.new) }
        ensures cause { IfErr result IsOfSystem };

    /// Makes the names durable (fsync of the folder), so that a power cut leaves them.
    fn sync_folder(&mut self) -> Result<(), Cause>
        ensures done { IsTrue (seen self.old).honest → OnOk result (AreNamesSynced (seen self.new)) }
        ensures goes { Goes Stays (seen self.old) (seen self.new) }
        ensures cause { IfErr result IsOfSystem };

    /// The file that is made next has no name before.
    ghost nameless: { (f : Self) → IsTrue (seen f).honest → IsNameless (seen f).disk (seen f).disk.next };

    /// This moment is one of those since an earlier one.
    ghost counts_now: { (f : Self) (since : ℕ) (left : Disk) → since ≤ (seen f).moment → (seen f).may_leave left
        → (seen f).left_since since left };

    /// Since this moment there is no other.
    ghost only_now: { (f : Self) (left : Disk) → (seen f).left_since (seen f).moment left → (seen f).may_leave left };
}
