//! Journals in files of the operating system.

ghost use Rattle.std.specs.Prelude.{◌≡◌, IfOk, IfErr, OnErr, IsSome, None};
ghost use Rattle.fw_disk.specs.Causes.{IsOfSystem};
ghost use Rattle.fw_disk.specs.declared.name.Name.TheVariants.{Main, New};
ghost use Rattle.fw_journal.specs.File.{cause_of};
ghost use Rattle.fw_journal.specs.Refusals.{file_error, naming_error, IsFileRefusal, IsNamingRefusal, IsToldAs};

use crate::begun::BegunJournal;
use crate::device::JournalDevice;
use crate::error::{DeviceError, JournalError, ReplaceError};
use crate::journal::Journal;
use crate::replacing::Replacer;
use fw_disk::{Because, Cause, Name, NamingError, SystemFolder, begin, finish, open, replace};
use std::fs::File;
use std::io;
use std::os::unix::fs::FileExt;
use std::rt::Files;

/// The bytes of an open file, which no other journal has open: it is under an exclusive lock. Nothing is known of what a file holds or
/// gives, so it is neither honest nor sound.
#[derive(Drop)]
pub struct FileDevice {
    file: File,
    /// Why the last call that failed did.
    cause: Option<Cause>,
}

/// A journal in a file.
pub type FileJournal = Journal<FileDevice>;

impl FileDevice {
    /// Opens FILE, if it has no other name. Its name is where a power cut leaves it then. If a power cut in its renaming has left it the
    /// name FILE.new as well, it loses that.
    ///
    /// # Errors
    ///
    /// `Locked` if another journal has it open, and otherwise `BookFault`, each with the cause: `Missing` if there is no file, `NotAlone`
    /// if it is a link or no regular file, or has another name as well. Nothing else is changed.
    pub fn open<R: Files<File = File>>(
        folder: &mut SystemFolder<'_, R>,
    ) -> Result<FileDevice, Because<JournalError>>
        ensures fresh { IfOk result (λ device. cause_of device ≡ None) }
        ensures reason { IfErr result (IsToldAs file_error Main) }
        ensures refusals { IfErr result (λ b. IsFileRefusal b.error) }
    {
        match open(folder) {
            Ok(file) => Ok(FileDevice::of(file)),
            Err(cause) => Err(refused(Name::Main, cause)),
        }
    }

    /// Begins a journal that gets the name FILE once it is whole: FILE.new, without bytes. It is made, or it is what a power cut or a
    /// killed process left of such a making: a file of five bytes at most, or one that begins as a journal does.
    ///
    /// # Errors
    ///
    /// `Locked` if another journal has it open, and otherwise `BookFault`, each with the cause: `NotAlone` if a link is there, no regular
    /// file, or one that has another name as well, and `Foreign` if a file of any other bytes is there. These are left as they are.
    pub fn begin<R: Files<File = File>>(
        folder: &mut SystemFolder<'_, R>,
    ) -> Result<FileDevice, Because<JournalError>>
        ensures fresh { IfOk result (λ device. cause_of device ≡ None) }
        ensures reason { IfErr result (IsToldAs file_error New) }
        ensures refusals { IfErr result (λ b. IsFileRefusal b.error) }
    {
        match begin(folder, Name::New, &BegunJournal) {
            Ok(file) => Ok(FileDevice::of(file)),
            Err(cause) => Err(refused(Name::New, cause)),
        }
    }

    /// Gives a journal that was begun the name FILE, which nothing has. A power cut leaves nothing under it, or the whole file, and after
    /// `Ok` the file.
    ///
    /// # Errors
    ///
    /// `NotEmpty` with the cause `Exists` if something is FILE, which is left as it is; and otherwise `BookFault` with the cause: the file
    /// hasn't got the name, or a power cut may take that back.
    pub fn finish<R: Files<File = File>>(
        &self,
        folder: &mut SystemFolder<'_, R>,
    ) -> Result<(), Because<JournalError>>
        ensures reason { IfErr result (IsToldAs naming_error Main) }
        ensures refusals { IfErr result (λ b. IsNamingRefusal b.error) }
    {
        match finish(folder, &self.file) {
            Ok(()) => Ok(()),
            Err(error) => Err(not_named(error.cause())),
        }
    }

    /// Why the last call that failed did, of those of a [`JournalDevice`] and of a [`FileReplacer`].
    pub fn cause(&self) -> Option<Cause>
        ensures { result ≡ cause_of self.now }
    {
        self.cause
    }

    /// Puts another file with these bytes in the place of FILE, which this is. If that is refused, this is the old file.
    fn replace_in<R: Files<File = File>>(
        &mut self,
        folder: &mut SystemFolder<'_, R>,
        bytes: &[u8],
    ) -> Result<(), NamingError>
        ensures cause { OnErr result (IsSome (cause_of self.new)) }
    {
        match replace(folder, &self.file, &BegunJournal, bytes) {
            Ok(file) => {
                self.file = file;
                Ok(())
            }
            Err(error) => {
                self.cause = Some(error.cause());
                Err(error)
            }
        }
    }

    /// An open file.
    fn of(file: File) -> FileDevice
        ensures { cause_of result ≡ None }
    {
        FileDevice { file, cause: None }
    }

    /// What the system answered. Why it refused is kept.
    fn noted<T>(&mut self, answer: io::Result<T>) -> Result<T, DeviceError>
        ensures fault { IfErr result (λ e. e ≡ DeviceError.Fault) }
        ensures cause { OnErr result (IsSome (cause_of self.new)) }
    {
        match answer {
            Ok(value) => Ok(value),
            Err(error) => {
                self.cause = Some(Cause::from(error));
                Err(DeviceError::Fault)
            }
        }
    }
}

/// Why the file with this name isn't opened or begun.
fn refused(name: Name, cause: Cause) -> Because<JournalError>
    ensures reason { IsToldAs file_error name result }
    ensures refusal { IsFileRefusal result.error }
{
    Because::of(file_error(cause), cause.at(name))
}

/// What a file that isn't opened or begun is refused for.
fn file_error(cause: Cause) -> JournalError
    ensures error { result ≡ file_error cause }
    ensures refusal { IsFileRefusal result }
{
    match cause {
        Cause::Locked => JournalError::Locked,
        _ => JournalError::BookFault,
    }
}

/// Why a file hasn't got the name FILE.
fn not_named(cause: Cause) -> Because<JournalError>
    ensures reason { IsToldAs naming_error Main result }
    ensures refusal { IsNamingRefusal result.error }
{
    Because::of(naming_error(cause), cause.at(Name::Main))
}

/// What a file that doesn't get its name is refused for.
fn naming_error(cause: Cause) -> JournalError
    ensures error { result ≡ naming_error cause }
    ensures refusal { IsNamingRefusal result }
{
    match cause {
        Cause::Exists => JournalError::NotEmpty,
        _ => JournalError::BookFault,
    }
}

/// Puts other bytes in the place of those of FILE, by a new file beside it: FILE.new, which is under a lock of its own before it gets the
/// name FILE. So whoever opens FILE finds it locked, before and after. A power cut leaves the old file or the new one. What a cut making
/// left as FILE.new is written over ([`FileDevice::begin`]); if any other file is there, it stays, and nothing is replaced. Nor is a file
/// that has another name as well, under which it would be left.
///
/// If the folder can't be synced once the new file has the name, the answer is `Fault`. The device keeps the old file, which has no name
/// any more, and its journal is broken.
#[derive(Drop)]
pub struct FileReplacer<'a, R> {
    folder: SystemFolder<'a, R>,
}

impl<'a, R: Files<File = File>> FileReplacer<'a, R> {
    /// What replaces the bytes of the file at this path. It has to be the path under which the device was opened.
    ///
    /// # Errors
    ///
    /// `Other` if the path is too long.
    pub fn of(rt: &'a R, path: &'a str) -> Result<FileReplacer<'a, R>, Cause>
        ensures { IfErr result IsOfSystem }
    {
        let folder = SystemFolder::of(rt, path)?;
        Ok(FileReplacer { folder })
    }
}

impl<'a, R: Files<File = File>> Replacer<FileDevice> for FileReplacer<'a, R> {
    ghost use Rattle.std.specs.Prelude.{⊤};

    ghost made = { λ _ _. ⊤ };

    fn replace(&mut self, device: &mut FileDevice, bytes: &[u8]) -> Result<(), ReplaceError> {
        device.replace_in(&mut self.folder, bytes)?;
        Ok(())
    }
}

// Of a file nothing is known, so each clause of a device holds of these. It is known that a refusal has its cause.
impl JournalDevice for FileDevice {
    ghost use Rattle.std.specs.Prelude.{false, [], ⊤};

    ghost honest = { λ _. false };

    ghost sound = { λ _. false };

    ghost contents = { λ _. [] };

    ghost may_leave = { λ _ _. ⊤ };

    ghost moment = { λ _. 0 };

    ghost left_since = { λ _ _ _. ⊤ };

    ghost counts_now = { λ _ _ _ _ now. now };

    ghost only_now = { λ _ _ now. now };

    ghost reads_may_be_left = { λ _ _. tt };

    fn len(&mut self) -> Result<u64, DeviceError>
        ensures fault { IfErr result (λ e. e ≡ DeviceError.Fault) }
        ensures cause { OnErr result (IsSome (cause_of self.new)) }
    {
        let metadata = self.file.metadata();
        Ok(self.noted(metadata)?.len())
    }

    fn read_at(&mut self, at: u64, out: &mut [u8]) -> Result<(), DeviceError>
        ensures fault { IfErr result (λ e. e ≡ DeviceError.Fault) }
        ensures cause { OnErr result (IsSome (cause_of self.new)) }
    {
        let read = self.file.read_exact_at(out, at);
        self.noted(read)
    }

    fn write_at(&mut self, at: u64, bytes: &[u8]) -> Result<(), DeviceError>
        ensures cause { OnErr result (IsSome (cause_of self.new)) }
    {
        let written = self.file.write_all_at(bytes, at);
        self.noted(written)
    }

    fn shorten(&mut self, len: u64) -> Result<(), DeviceError>
        ensures cause { OnErr result (IsSome (cause_of self.new)) }
    {
        let shortened = self.file.set_len(len);
        self.noted(shortened)
    }

    fn sync(&mut self) -> Result<(), DeviceError>
        ensures cause { OnErr result (IsSome (cause_of self.new)) }
    {
        let synced = self.file.sync_data();
        self.noted(synced)
    }
}
