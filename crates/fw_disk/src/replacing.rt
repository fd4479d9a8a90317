//! A file that was made gets its name.

ghost use Rattle.std.specs.Prelude.{◌≡◌, [], IsTrue, IfOk, OnOk, IsErrOf};
ghost use Rattle.fw_disk.specs.Disk.{absent, plain, Goes, IsSynced, AreNamesSynced};
ghost use Rattle.fw_disk.specs.Calls.{Stays, Renames, MayRename};
ghost use Rattle.fw_disk.specs.Ours.{MayTake, MayTakeBeside, Takes, Starts, Fills, IsNamed, IsKept, Names, Replaces};
ghost use Rattle.fw_disk.specs.declared.name.Name.TheVariants.{Main, New};

use crate::cause::{Cause, NamingError};
use crate::filling::fill;
use crate::folder::Folder;
use crate::kind::Kind;
use crate::making::{abandon, begin};
use crate::name::{Found, Name};

/// Ends a making: gives the file, which has the name FILE.new, the name FILE, which nothing has. It is synced before that, and its folder
/// after it: so a power cut leaves nothing under FILE, or the whole file, and after `Ok` the file.
///
/// # Errors
///
/// `NotNamed` with `Exists` if something has the name FILE, or with one of the system: it is as before. `NotSynced` if the folder
/// couldn't be synced.
pub fn finish<F: Folder>(folder: &mut F, file: &F::File) -> Result<(), NamingError>
    ensures absent { IsTrue (F.seen folder.old).honest → OnOk result ((F.seen folder.old).disk.entry Main ≡ absent) }
    ensures named { IsTrue (F.seen folder.old).honest → (F.seen folder.old).disk.entry New ≡ plain (F.number file.now)
        → OnOk result (IsNamed Main (F.number file.now) ((F.seen folder.old).disk.bytes (F.number file.now)) (F.seen folder.new).disk) }
    ensures kept { IsTrue (F.seen folder.old).honest → (F.seen folder.old).disk.entry New ≡ plain (F.number file.now)
        → OnOk result (IsKept Main (F.number file.now) ((F.seen folder.old).disk.bytes (F.number file.now)) (F.seen folder.new)) }

    // Whatever it answers, and whenever it is cut.
    ensures goes { (F.seen folder.old).disk.entry New ≡ plain (F.number file.now)
        → Goes (Names (F.number file.now) ((F.seen folder.old).disk.bytes (F.number file.now))) (F.seen folder.old) (F.seen folder.new) }
    ensures same { IsTrue (F.seen folder.old).honest → (cause : Cause) → IsErrOf result (NamingError.NotNamed cause)
        → (F.seen folder.new).disk ≡ (F.seen folder.old).disk }
{
    prepare(folder, file)?;
    give_name(folder)
}

/// Checks that nothing has the name FILE, and syncs a file.
fn prepare<F: Folder>(folder: &mut F, file: &F::File) -> Result<(), Cause>
    ensures absent { IsTrue (F.seen folder.old).honest → OnOk result ((F.seen folder.old).disk.entry Main ≡ absent) }
    ensures synced { IsTrue (F.seen folder.old).honest → OnOk result (IsSynced (F.number file.now) (F.seen folder.new)) }
    ensures goes { Goes Stays (F.seen folder.old) (F.seen folder.new) }
{
    match folder.look(Name::Main)? {
        Found::Absent => folder.sync(file),
        Found::Plain | Found::Other => Err(Cause::Exists),
    }
}

/// Gives what has the name FILE.new, which is synced, the name FILE, and syncs that.
fn give_name<F: Folder>(folder: &mut F) -> Result<(), NamingError>
    ensures named { IsTrue (F.seen folder.old).honest
        → OnOk result (Renames New Main (F.seen folder.old).disk (F.seen folder.new).disk) }
    ensures synced { IsTrue (F.seen folder.old).honest → OnOk result (AreNamesSynced (F.seen folder.new)) }
    ensures goes { Goes (MayRename New Main ((F.seen folder.old).disk.entry New)) (F.seen folder.old) (F.seen folder.new) }
    ensures same { IsTrue (F.seen folder.old).honest → (cause : Cause) → IsErrOf result (NamingError.NotNamed cause)
        → (F.seen folder.new).disk ≡ (F.seen folder.old).disk }
{
    folder.rename(Name::New, Name::Main)?;
    match folder.sync_folder() {
        Ok(()) => Ok(()),
        Err(cause) => Err(NamingError::NotSynced(cause)),
    }
}

/// Puts another file with these bytes in the place of FILE, under a lock of its own, with the permissions of the old one. `old` is FILE,
/// opened. The new file is made as FILE.new. So a power cut leaves FILE with the old file as it was, or with the new one whole; after
/// `Ok` with the new one.
///
/// # Errors
///
/// `NotNamed`: FILE is the old file. With `NotAlone`, also if that has another name as well, under which it would be left; with what
/// `begin` is refused for; or with one of the system. `NotSynced`: FILE is the new file, but its folder couldn't be synced.
pub fn replace<F: Folder, K: Kind>(
    folder: &mut F,
    old: &F::File,
    kind: &K,
    bytes: &[u8],
) -> Result<F::File, NamingError>
    ensures named { IsTrue (F.seen folder.old).honest
        → IfOk result (λ file. IsNamed Main (F.number file) bytes.now (F.seen folder.new).disk) }
    ensures kept { IsTrue (F.seen folder.old).honest
        → IfOk result (λ file. IsKept Main (F.number file) bytes.now (F.seen folder.new)) }

    // Whatever it answers, and whenever it is cut.
    ensures goes { Goes (Replaces (K.ours kind.now) (K.first kind.now) (F.number old.now) bytes.now
        (MayTake (K.ours kind.now) (F.seen folder.old).disk New))
        (F.seen folder.old) (F.seen folder.new) }
    ensures same { IsTrue (F.seen folder.old).honest → (cause : Cause) → IsErrOf result (NamingError.NotNamed cause)
        → (F.seen folder.new).disk.entry Main ≡ (F.seen folder.old).disk.entry Main }
{
    let file = make_beside(folder, old, kind, bytes)?;
    name_or_abandon(folder, &file)?;
    Ok(file)
}

/// Gives what has the name FILE.new the name FILE, or takes it away.
fn name_or_abandon<F: Folder>(folder: &mut F, file: &F::File) -> Result<(), NamingError>
    ensures named { IsTrue (F.seen folder.old).honest
        → OnOk result (Renames New Main (F.seen folder.old).disk (F.seen folder.new).disk) }
    ensures synced { IsTrue (F.seen folder.old).honest → OnOk result (AreNamesSynced (F.seen folder.new)) }
    ensures goes { Goes (MayRename New Main ((F.seen folder.old).disk.entry New)) (F.seen folder.old) (F.seen folder.new) }
    ensures same { IsTrue (F.seen folder.old).honest → (cause : Cause) → IsErrOf result (NamingError.NotNamed cause)
        → (F.seen folder.new).disk.entry Main ≡ (F.seen folder.old).disk.entry Main }
{
    match give_name(folder) {
        Err(NamingError::NotNamed(cause)) => {
            abandon(folder, Name::New, file);
            Err(NamingError::NotNamed(cause))
        }
        named => named,
    }
}

/// Makes the new file, synced, under the name FILE.new.
fn make_beside<F: Folder, K: Kind>(
    folder: &mut F,
    old: &F::File,
    kind: &K,
    bytes: &[u8],
) -> Result<F::File, Cause>
    ensures named { IsTrue (F.seen folder.old).honest
        → IfOk result (λ file. IsNamed New (F.number file) bytes.now (F.seen folder.new).disk) }
    ensures synced { IsTrue (F.seen folder.old).honest → IfOk result (λ file. IsSynced (F.number file) (F.seen folder.new)) }
    ensures goes { Goes (Takes (K.ours kind.now) (Starts (K.ours kind.now) (K.first kind.now) bytes.now) New
        (MayTakeBeside (K.ours kind.now) (F.seen folder.old).disk (F.number old.now))) (F.seen folder.old) (F.seen folder.new) }
{
    if !folder.is_alone(Name::Main, old)? {
        return Err(Cause::NotAlone);
    }
    let file = begin(folder, Name::New, kind)?;
    match fill_like(folder, old, &file, kind, bytes) {
        Ok(()) => Ok(file),
        Err(cause) => {
            abandon(folder, Name::New, &file);
            Err(cause)
        }
    }
}

/// Gives a file that was begun the permissions of another, and its bytes.
fn fill_like<F: Folder, K: Kind>(
    folder: &mut F,
    old: &F::File,
    file: &F::File,
    kind: &K,
    bytes: &[u8],
) -> Result<(), Cause>
    ensures done { IsTrue (F.seen folder.old).honest → (F.seen folder.old).disk.bytes (F.number file.now) ≡ []
        → OnOk result ((F.seen folder.new).disk.bytes (F.number file.now) ≡ bytes.now) }
    ensures synced { IsTrue (F.seen folder.old).honest → OnOk result (IsSynced (F.number file.now) (F.seen folder.new)) }
    ensures goes { (F.seen folder.old).disk.bytes (F.number file.now) ≡ [] → IsSynced (F.number file.now) (F.seen folder.old)
        → Goes (Fills (K.ours kind.now) (K.first kind.now) (F.number file.now) bytes.now) (F.seen folder.old) (F.seen folder.new) }
{
    folder.copy_permissions(old, file)?;
    fill(folder, file, kind, bytes)
}
