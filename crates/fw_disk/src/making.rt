//! A file that is made under another name.

ghost use Rattle.std.specs.Prelude.{◌≡◌, ◌⊎◌, ⊤, ℕ, [], IsTrue, IfOk, OnOk, IsErrOf};
ghost use Rattle.fw_disk.specs.Disk.{plain, absent, IsAlone, Goes, IsSynced};
ghost use Rattle.fw_disk.specs.Calls.{Stays, MayMake, MayRemove};
ghost use Rattle.fw_disk.specs.Ours.{IsOurs, MayTake, Takes, IsNamed};

use crate::cause::Cause;
use crate::folder::Folder;
use crate::kind::Kind;
use crate::name::{Found, Name};
use crate::opening::open_ours;

/// Begins a making: a file without bytes under this name, FILE.new as a rule, under its lock. It is made, or it is what a power cut or a
/// killed process left of such a making. A power cut leaves no byte of it.
///
/// # Errors
///
/// `NotAlone` if a link is there, no regular file, or one that has another name as well; `Foreign` if a file is there that isn't
/// ours by its bytes; `Locked` if another process has it; and those of the system. If what is there isn't ours, nothing is changed:
/// no entry, and no byte of any file.
pub fn begin<F: Folder, K: Kind>(folder: &mut F, name: Name, kind: &K) -> Result<F::File, Cause>
    ensures taken { IsTrue (F.seen folder.old).honest
        → IfOk result (λ file. MayTake (K.ours kind.now) (F.seen folder.old).disk name (F.number file)) }
    ensures empty { IsTrue (F.seen folder.old).honest → IfOk result (λ file. IsNamed name (F.number file) [] (F.seen folder.new).disk) }
    ensures synced { IsTrue (F.seen folder.old).honest → IfOk result (λ file. IsSynced (F.number file) (F.seen folder.new)) }

    // Whatever it answers, and whenever it is cut.
    ensures goes { Goes (Takes (K.ours kind.now) ⊤ name (MayTake (K.ours kind.now) (F.seen folder.old).disk name))
        (F.seen folder.old) (F.seen folder.new) }
    ensures foreign { IsTrue (F.seen folder.old).honest → ((n : ℕ) → ¬ MayTake (K.ours kind.now) (F.seen folder.old).disk name n)
        → (F.seen folder.new).disk ≡ (F.seen folder.old).disk }
    ensures cause { IsTrue (F.seen folder.old).honest → IsErrOf result Cause.NotAlone ⊎ IsErrOf result Cause.Foreign
        → (n : ℕ) → ¬ MayTake (K.ours kind.now) (F.seen folder.old).disk name n }
{
    match folder.look(name)? {
        Found::Absent => make(folder, name),
        Found::Plain => take(folder, name, kind),
        Found::Other => Err(Cause::NotAlone),
    }
}

/// Makes a file if nothing has the name. If that fails later, the name is taken away again.
fn make<F: Folder>(folder: &mut F, name: Name) -> Result<F::File, Cause>
    ensures fresh { IsTrue (F.seen folder.old).honest
        → IfOk result (λ file. ((F.seen folder.old).disk.entry name ≡ absent) × (F.number file ≡ (F.seen folder.old).disk.next)) }
    ensures empty { IsTrue (F.seen folder.old).honest → IfOk result (λ file. IsNamed name (F.number file) [] (F.seen folder.new).disk) }
    ensures synced { IsTrue (F.seen folder.old).honest → IfOk result (λ file. IsSynced (F.number file) (F.seen folder.new)) }
    ensures goes { Goes (MayMake name (F.seen folder.old).disk.next) (F.seen folder.old) (F.seen folder.new) }
    ensures alone { IsTrue (F.seen folder.old).honest → ¬ IsErrOf result Cause.NotAlone }
    ensures never { ¬ IsErrOf result Cause.Foreign }
{
    let file = folder.create(name)?;
    match settle(folder, name, &file) {
        Ok(()) => Ok(file),
        Err(cause) => {
            abandon(folder, name, &file);
            Err(cause)
        }
    }
}

/// Syncs a file that was made, if it has its name alone.
fn settle<F: Folder>(folder: &mut F, name: Name, file: &F::File) -> Result<(), Cause>
    ensures synced { IsTrue (F.seen folder.old).honest → OnOk result (IsSynced (F.number file.now) (F.seen folder.new)) }
    ensures goes { Goes Stays (F.seen folder.old) (F.seen folder.new) }
    ensures alone { IsTrue (F.seen folder.old).honest → IsAlone (F.seen folder.old).disk name (F.number file.now)
        → ¬ IsErrOf result Cause.NotAlone }
    ensures never { ¬ IsErrOf result Cause.Foreign }
{
    // Who had the lock before may have taken the file, and given it another name.
    if !folder.is_alone(name, file)? {
        return Err(Cause::NotAlone);
    }
    folder.sync(file)
}

/// Takes what was left of a making, and takes its bytes away. That is synced: else what is written next and some of them might be left
/// together.
fn take<F: Folder, K: Kind>(folder: &mut F, name: Name, kind: &K) -> Result<F::File, Cause>
    ensures ours { IsTrue (F.seen folder.old).honest
        → IfOk result (λ file. IsOurs (K.ours kind.now) (F.seen folder.old).disk name (F.number file)) }
    ensures empty { IsTrue (F.seen folder.old).honest → IfOk result (λ file. IsNamed name (F.number file) [] (F.seen folder.new).disk) }
    ensures synced { IsTrue (F.seen folder.old).honest → IfOk result (λ file. IsSynced (F.number file) (F.seen folder.new)) }
    ensures goes { Goes (Takes (K.ours kind.now) ⊤ name (IsOurs (K.ours kind.now) (F.seen folder.old).disk name))
        (F.seen folder.old) (F.seen folder.new) }
    ensures foreign { IsTrue (F.seen folder.old).honest → ((n : ℕ) → ¬ IsOurs (K.ours kind.now) (F.seen folder.old).disk name n)
        → (F.seen folder.new).disk ≡ (F.seen folder.old).disk }
    ensures cause { IsTrue (F.seen folder.old).honest → IsErrOf result Cause.NotAlone ⊎ IsErrOf result Cause.Foreign
        → (n : ℕ) → ¬ IsOurs (K.ours kind.now) (F.seen folder.old).disk name n }
{
    let file = open_ours(folder, name, kind)?;
    folder.clear(&file)?;
    folder.sync(&file)?;
    Ok(file)
}

/// Takes away what was begun under a name, if it is still this file that has it.
pub fn abandon<F: Folder>(folder: &mut F, name: Name, file: &F::File)
    ensures goes { Goes (MayRemove name) (F.seen folder.old) (F.seen folder.new) }
    ensures only_own { IsTrue (F.seen folder.old).honest → ¬ ((F.seen folder.old).disk.entry name ≡ plain (F.number file.now))
        → (F.seen folder.new).disk ≡ (F.seen folder.old).disk }
{
    if let Ok(true) = folder.is_alone(name, file) {
        let _ = folder.remove(name);
    }
}
