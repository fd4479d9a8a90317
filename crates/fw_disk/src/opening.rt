//! A file that is there, opened under its own name alone.

ghost use Rattle.std.specs.Prelude.{◌≡◌, ◌≢◌, ◌⊎◌, ◌↔◌, ℕ, IsTrue, IfOk, IfErr, IfSome, IfNone, OnOk, IsErrOf};
ghost use Rattle.fw_disk.specs.Disk.{absent, plain, IsAlone, IsTwice, Goes, AreNamesSynced};
ghost use Rattle.fw_disk.specs.Calls.{Stays, MayRemove};
ghost use Rattle.fw_disk.specs.Ours.{IsOurs};
ghost use Rattle.fw_disk.specs.Causes.{IsOfSystem};
ghost use Rattle.fw_disk.specs.declared.name.Name.TheVariants.{Main, New};

use crate::cause::Cause;
use crate::folder::Folder;
use crate::kind::{FRONT_SIZE, Kind};
use crate::name::{Found, Name};

/// Opens FILE under its lock. Its name is where a power cut leaves it then, also if a process that made it was killed before that. If a
/// power cut in its renaming has left it the name FILE.new as well, it loses that.
///
/// # Errors
///
/// `Missing` if nothing is there, `NotAlone` if it is a link or no regular file, or has another name as well, and those of the system.
/// Nothing else is changed.
pub fn open<F: Folder>(folder: &mut F) -> Result<F::File, Cause>
    ensures named { IsTrue (F.seen folder.old).honest → IfOk result (λ file. (F.seen folder.old).disk.entry Main ≡ plain (F.number file)) }
    ensures alone { IsTrue (F.seen folder.old).honest → IfOk result (λ file. IsAlone (F.seen folder.new).disk Main (F.number file)) }
    ensures synced { IsTrue (F.seen folder.old).honest → OnOk result (AreNamesSynced (F.seen folder.new)) }
    ensures goes { Goes (MayRemove New) (F.seen folder.old) (F.seen folder.new) }
    ensures same { IsTrue (F.seen folder.old).honest → ((n : ℕ) → ¬ IsTwice (F.seen folder.old).disk n)
        → (F.seen folder.new).disk ≡ (F.seen folder.old).disk }
    ensures cause { IsTrue (F.seen folder.old).honest → IsErrOf result Cause.NotAlone
        → (n : ℕ) → ¬ (IsAlone (F.seen folder.old).disk Main n ⊎ IsTwice (F.seen folder.old).disk n) }
{
    let file = open_found(folder, Name::Main)?;
    folder.sync_folder()?;
    if folder.is_alone(Name::Main, &file)? {
        return Ok(file);
    }
    end_renaming(folder, &file)?;
    Ok(file)
}

/// Takes the name FILE.new away from FILE, whose only names these are.
fn end_renaming<F: Folder>(folder: &mut F, file: &F::File) -> Result<(), Cause>
    ensures alone { IsTrue (F.seen folder.old).honest → OnOk result (IsAlone (F.seen folder.new).disk Main (F.number file.now)) }
    ensures synced { IsTrue (F.seen folder.old).honest → OnOk result (AreNamesSynced (F.seen folder.new)) }
    ensures goes { Goes (MayRemove New) (F.seen folder.old) (F.seen folder.new) }
    ensures same { IsTrue (F.seen folder.old).honest → ¬ IsTwice (F.seen folder.old).disk (F.number file.now)
        → (F.seen folder.new).disk ≡ (F.seen folder.old).disk }
    ensures cause { IsTrue (F.seen folder.old).honest → IsErrOf result Cause.NotAlone
        → ¬ IsTwice (F.seen folder.old).disk (F.number file.now) }
    ensures never { ¬ IsErrOf result Cause.Foreign }
{
    if !folder.is_twice(file)? {
        return Err(Cause::NotAlone);
    }
    folder.remove(Name::New)?;
    folder.sync_folder()
}

/// Opens the file with this name, FILE.journal as a rule, under its lock, if one is there and it is ours.
///
/// # Errors
///
/// `NotAlone` and `Foreign` if something else is there, and those of the system. Nothing is changed.
pub fn open_companion<F: Folder, K: Kind>(
    folder: &mut F,
    name: Name,
    kind: &K,
) -> Result<Option<F::File>, Cause>
    ensures ours { IsTrue (F.seen folder.old).honest → IfOk result (λ found. IfSome found (λ file.
        IsOurs (K.ours kind.now) (F.seen folder.old).disk name (F.number file))) }
    ensures none { IsTrue (F.seen folder.old).honest
        → IfOk result (λ found. IfNone found ((F.seen folder.old).disk.entry name ≡ absent)) }
    ensures goes { Goes Stays (F.seen folder.old) (F.seen folder.new) }
    ensures cause { IsTrue (F.seen folder.old).honest → IsErrOf result Cause.NotAlone ⊎ IsErrOf result Cause.Foreign
        → (n : ℕ) → ¬ IsOurs (K.ours kind.now) (F.seen folder.old).disk name n }
{
    match folder.look(name)? {
        Found::Absent => Ok(None),
        Found::Plain => Ok(Some(open_ours(folder, name, kind)?)),
        Found::Other => Err(Cause::NotAlone),
    }
}

/// Opens the file with this name, if it has no other.
fn open_alone<F: Folder>(folder: &mut F, name: Name) -> Result<F::File, Cause>
    ensures alone { IsTrue (F.seen folder.old).honest → IfOk result (λ file. IsAlone (F.seen folder.old).disk name (F.number file)) }
    ensures goes { Goes Stays (F.seen folder.old) (F.seen folder.new) }
    ensures cause { IsTrue (F.seen folder.old).honest → IsErrOf result Cause.NotAlone
        → (n : ℕ) → ¬ IsAlone (F.seen folder.old).disk name n }
    ensures never { ¬ IsErrOf result Cause.Foreign }
{
    let file = open_found(folder, name)?;
    // Who had the lock before may have put another file in its place meanwhile.
    if !folder.is_alone(name, &file)? {
        return Err(Cause::NotAlone);
    }
    Ok(file)
}

/// Opens what is found under a name, if it is a regular file.
fn open_found<F: Folder>(folder: &mut F, name: Name) -> Result<F::File, Cause>
    ensures found { IsTrue (F.seen folder.old).honest → IfOk result (λ file. (F.seen folder.old).disk.entry name ≡ plain (F.number file)) }
    ensures goes { Goes Stays (F.seen folder.old) (F.seen folder.new) }
    ensures cause { IsTrue (F.seen folder.old).honest → IsErrOf result Cause.NotAlone
        → (n : ℕ) → (F.seen folder.old).disk.entry name ≢ plain n }
    ensures never { ¬ IsErrOf result Cause.Foreign }
{
    // What is no regular file isn't opened: opening alone may wait, or be heard by a device.
    match folder.look(name)? {
        Found::Absent => Err(Cause::Missing),
        Found::Plain => folder.open(name),
        Found::Other => Err(Cause::NotAlone),
    }
}

/// Opens the file with this name, if it has no other and is ours.
pub(crate) fn open_ours<F: Folder, K: Kind>(
    folder: &mut F,
    name: Name,
    kind: &K,
) -> Result<F::File, Cause>
    ensures ours { IsTrue (F.seen folder.old).honest
        → IfOk result (λ file. IsOurs (K.ours kind.now) (F.seen folder.old).disk name (F.number file)) }
    ensures goes { Goes Stays (F.seen folder.old) (F.seen folder.new) }
    ensures cause { IsTrue (F.seen folder.old).honest → IsErrOf result Cause.NotAlone ⊎ IsErrOf result Cause.Foreign
        → (n : ℕ) → ¬ IsOurs (K.ours kind.now) (F.seen folder.old).disk name n }
{
    let file = open_alone(folder, name)?;
    if !is_ours(folder, &file, kind)? {
        return Err(Cause::Foreign);
    }
    Ok(file)
}

/// Whether a file is ours by its bytes.
fn is_ours<F: Folder, K: Kind>(folder: &mut F, file: &F::File, kind: &K) -> Result<bool, Cause>
    ensures done { IsTrue (F.seen folder.old).honest → IfOk result (λ own.
        IsTrue own ↔ K.ours kind.now ((F.seen folder.old).disk.bytes (F.number file.now))) }
    ensures goes { Goes Stays (F.seen folder.old) (F.seen folder.new) }
    ensures cause { IfErr result IsOfSystem }
{
    let len = folder.len(file)?;
    let mut front = [0; FRONT_SIZE];
    let front = &mut front[..len.min(FRONT_SIZE as u64) as usize];
    folder.read_at(file, 0, front)?;
    Ok(kind.is_ours(front, len))
}
