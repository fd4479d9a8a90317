//! The files of the operating system that their owner alone may read and write.

ghost use Rattle.std.specs.Prelude.{◌≡◌, ◌≢◌, ◌⊎◌, ◌++◌, ℕ, Contains, IfErr, IfOk, IsErrOf, IsTrue, MatchResult, OnOk, map};
ghost use Rattle.std.specs.Io.KnownBytes.{Consumes, IsAtEnd};
ghost use Rattle.std.specs.declared.fs.attrs.Metadata.{Metadata};
ghost use Rattle.fw_disk.specs.Calls.{Stays};
ghost use Rattle.fw_disk.specs.Causes.{IsOfSystem};
ghost use Rattle.fw_disk.specs.Disk.{Goes, IsAlone, plain};
ghost use Rattle.fw_disk.specs.declared.name.Name.TheVariants.{Main};
ghost use Rattle.fw_key_files.specs.Making.{KeyText};
ghost use Rattle.fw_key_files.specs.Refusals.{IsOfSystemFile, IsPrivate};
ghost use Rattle.fw_key_files.specs.declared.error.KeyFileError.TheVariants.{KeysFault, KeysReadable, OutOfMemory};

use crate::error::{KeyFileError, NotMade};
use crate::new_file::NewFile;
use fw_disk::{Because, Cause, Folder, Found, Name, SystemFolder};
use std::alloc::Global;
use std::fs;
use std::fs::{File, Metadata, OpenOptions};
use std::io::{ErrorKind, Read, Write};
use std::os::unix::fs::{MetadataExt, OpenOptionsExt};
use std::rt::Files;

/// The permission bits of a file that its owner alone may read and write.
pub const OWNER_ALONE: u32 = 0o600;

/// The permission bits of all others: of the group, and of who isn't in it.
const OTHERS: u32 = 0o077;

/// How many bytes are read at a time.
const CHUNK: usize = 4096;

/// The most times that a file is asked: as often as 64 MiB take, and once more for the end.
const MAX_READS: u32 = (64 * 1024 * 1024 / CHUNK) as u32 + 1;

/// The fault of a call of the system.
fn fault(cause: Cause) -> Because<KeyFileError>
    ensures { result.error ≡ KeysFault }
{
    Because::of(KeyFileError::KeysFault, cause.at(Name::Main))
}

/// The bytes of the file at this path, if its owner alone may read and write it. What it may is that of the file which was opened, so no
/// other can come in its place. It has no other name, so that its counter, which stands beside it, is the only one of its keys.
///
/// # Errors
///
/// - `KeysFault`, with its cause: the file can't be opened or read, or is a link or no regular file, or has another name as well; without one
///   where it has more than 64 MiB.
/// - `KeysReadable`: others may read or write it.
/// - `OutOfMemory`.
pub(crate) fn read_private<R: Files<File = File>>(
    rt: &R,
    alloc: Global,
    path: &str,
) -> Result<Vec<u8>, Because<KeyFileError>>
    ensures { IfErr result (λ b. IsOfSystemFile b.error) }
{
    match opened(rt, path) {
        Ok(mut file) => read_checked(alloc, &mut file),
        Err(cause) => Err(fault(cause)),
    }
}

/// The file at this path, opened to be read, if it is a regular one that has no other name.
fn opened<R: Files<File = File>>(rt: &R, path: &str) -> Result<File, Cause> {
    let mut folder = SystemFolder::of(rt, path)?;
    check_plain(&mut folder)?;
    let file = File::open(rt, path)?;
    check_alone(&mut folder, &file)?;
    Ok(file)
}

/// Checks that FILE is there, and a regular file. It isn't opened for that: opening anything else may wait, or be heard by a device.
fn check_plain<F: Folder>(folder: &mut F) -> Result<(), Cause>
    ensures plain { IsTrue (F.seen folder.old).honest → OnOk result ((n : ℕ) × ((F.seen folder.old).disk.entry Main ≡ plain n)) }
    ensures goes { Goes Stays (F.seen folder.old) (F.seen folder.new) }
    ensures cause { IsTrue (F.seen folder.old).honest → IsErrOf result Cause.NotAlone
        → (n : ℕ) → (F.seen folder.old).disk.entry Main ≢ plain n }
{
    match folder.look(Name::Main)? {
        Found::Absent => Err(Cause::Missing),
        Found::Plain => Ok(()),
        Found::Other => Err(Cause::NotAlone),
    }
}

/// Checks that FILE is the name of a file that was opened, and its only one.
fn check_alone<F: Folder>(folder: &mut F, file: &F::File) -> Result<(), Cause>
    ensures alone { IsTrue (F.seen folder.old).honest → OnOk result (IsAlone (F.seen folder.old).disk Main (F.number file.now)) }
    ensures goes { Goes Stays (F.seen folder.old) (F.seen folder.new) }
    ensures cause { IsTrue (F.seen folder.old).honest → IsErrOf result Cause.NotAlone
        → ¬ IsAlone (F.seen folder.old).disk Main (F.number file.now) }
{
    if folder.is_alone(Name::Main, file)? {
        Ok(())
    } else {
        Err(Cause::NotAlone)
    }
}

/// A file that was opened, which shows what it is and who has a right to it.
trait Shown: Read {
    /// Whether it has shown these metadata.
    ghost shows: { Self → Metadata → Type 0 };

    /// Its metadata.
    fn shown(&self) -> Result<Metadata, Cause>
        ensures { IfOk result (shows self.now) };
}

// Nothing is known of what the system shows.
impl Shown for File {
    ghost shows = { λ _ _. Unit {0} };

    fn shown(&self) -> Result<Metadata, Cause> {
        Ok(self.metadata()?)
    }
}

/// All bytes of a file, once it has shown that its owner alone may read and write it.
///
/// # Errors
///
/// As of [`read_private`].
fn read_checked<F: Shown>(alloc: Global, file: &mut F) -> Result<Vec<u8>, Because<KeyFileError>>
    ensures private { OnOk result ((metadata : Metadata) × F.shows file.old metadata × IsPrivate metadata) }
    ensures all { IfOk result (λ text. Consumes (F.remaining file.old) (F.remaining file.new) text.items) }
    ensures end { OnOk result (IsAtEnd (F.remaining file.new)) }
    ensures faults { IfErr result (λ b. IsOfSystemFile b.error) }
{
    match file.shown() {
        Ok(metadata) => check_private(&metadata)?,
        Err(cause) => return Err(fault(cause)),
    }
    read_all(alloc, file)
}

/// Checks that a file is a regular one, and that nobody but its owner may do anything with it.
fn check_private(metadata: &Metadata) -> Result<(), Because<KeyFileError>>
    ensures private { MatchResult result (λ _. IsPrivate metadata.now) (λ _. ¬ IsPrivate metadata.now) }
    ensures faults { IfErr result (λ b. IsOfSystemFile b.error) }
{
    if !metadata.is_file() {
        return Err(fault(Cause::NotAlone));
    }
    if metadata.mode() & OTHERS == 0 {
        Ok(())
    } else {
        Err(Because::from(KeyFileError::KeysReadable))
    }
}

/// All that a reader has. A read that was interrupted counts as one.
///
/// # Errors
///
/// - `KeysFault`, with its cause: the reader failed; without one where it isn't at its end after the reads that 64 MiB take.
/// - `OutOfMemory`.
fn read_all<R: Read>(alloc: Global, reader: &mut R) -> Result<Vec<u8>, Because<KeyFileError>>
    ensures all { IfOk result (λ text. Consumes (R.remaining reader.old) (R.remaining reader.new) text.items) }
    ensures end { OnOk result (IsAtEnd (R.remaining reader.new)) }
    ensures faults { IfErr result (λ b. IsOfSystemFile b.error) }
{
    let mut text = Vec::new(alloc);
    let mut chunk = [0; CHUNK];
    for _ in 0..MAX_READS {
        match reader.read(&mut chunk) {
            Ok(0) => return Ok(text),
            Ok(count) => put(&mut text, &chunk[..count])?,
            Err(error) if error.kind() == ErrorKind::Interrupted => {}
            Err(error) => return Err(fault(Cause::from(error))),
        }
    }
    Err(Because::from(KeyFileError::KeysFault))
}

/// Appends bytes to a text.
fn put(text: &mut Vec<u8>, bytes: &[u8]) -> Result<(), KeyFileError>
    ensures put { OnOk result (text.new.items ≡ text.old.items ++ bytes.now) }
    ensures faults { IfErr result (λ e. e ≡ OutOfMemory) }
{
    text.extend_from_slice(bytes)?;
    Ok(())
}

/// Makes these files of one folder, which their owner alone may read and write from the start. Each has its whole text, and a power cut leaves
/// them. No file is written over.
///
/// # Errors
///
/// The first file that can't be made, and why: `Exists` if another file has its path, which is left as it is. Those that were made are removed.
pub fn make_files<R: Files<File = File>>(rt: &R, files: &[NewFile]) -> Result<(), NotMade>
    // Of the system's files nothing is known.
    ensures { IfErr result (λ n. Contains (map (λ (file : KeyText). file.owner) files.now) n.owner) }
{
    for at in 0..files.len() {
        let file = &files[at];
        if let Err(cause) = make(rt, file) {
            remove(rt, &files[..at]);
            return Err(NotMade {
                owner: file.owner(),
                cause,
            });
        }
    }
    let Some(first) = files.first() else {
        return Ok(());
    };
    if let Err(cause) = sync_folder(rt, first) {
        remove(rt, files);
        return Err(NotMade {
            owner: first.owner(),
            cause,
        });
    }
    Ok(())
}

/// Makes a file. If that fails once it was there, it is removed. Its name is synced with its folder.
fn make<R: Files<File = File>>(rt: &R, new: &NewFile) -> Result<(), Cause>
    ensures { IfErr result IsOfSystem }
{
    let mut options = OpenOptions::new();
    options.write(true).create_new(true).mode(OWNER_ALONE);
    let mut file = options.open(rt, new.path())?;
    match fill(&mut file, new) {
        Ok(()) => Ok(()),
        Err(cause) => {
            let _ = fs::remove_file(rt, new.path());
            Err(cause)
        }
    }
}

/// Gives a file its text, and syncs it.
fn fill(file: &mut File, new: &NewFile) -> Result<(), Cause>
    ensures { IfErr result IsOfSystem }
{
    file.write_all(new.text())?;
    Ok(file.sync_all()?)
}

/// Syncs the folder of a file.
fn sync_folder<R: Files<File = File>>(rt: &R, file: &NewFile) -> Result<(), Cause>
    ensures { IfErr result IsOfSystem }
{
    SystemFolder::of(rt, file.path())?.sync_folder()
}

/// Removes these files again.
fn remove<R: Files<File = File>>(rt: &R, files: &[NewFile]) {
    for file in files {
        let _ = fs::remove_file(rt, file.path());
    }
}
