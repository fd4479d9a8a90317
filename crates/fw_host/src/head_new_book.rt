//! The new book of the command `head`, which gets its name once it is on the disk.

ghost use Rattle.std.specs.Prelude.{◌≡◌, ◌≢◌, ◌⊎◌, IfErr, IfOk, IsTrue, OnOk};
ghost use Rattle.std.specs.Option.{option_map};
ghost use Rattle.fw_disk.specs.declared.name.Name.TheVariants.{Main, New};
ghost use Rattle.fw_disk.specs.Disk.{absent, Goes};
ghost use Rattle.fw_disk.specs.Calls.{Stays};
ghost use Rattle.fw_head.specs.Head.{BeginsWith, new_head};
ghost use Rattle.fw_journal.specs.File.{cause_of};
ghost use Rattle.fw_journal.specs.Refusals.{IsFileRefusal, IsNamingRefusal};
ghost use Rattle.fw_kept.specs.Head.{book_of, head_of};
ghost use Rattle.fw_host.specs.Errors.{new_book_error};
ghost use Rattle.fw_host.specs.Heads.{LeavesNewBook};

use crate::error::NewBookError;
use crate::files::folder_of;
use fw_blocks::Width;
use fw_disk::{Because, Cause, Folder, Found, Name, Reason, SystemFolder};
use fw_journal::{FileDevice, JournalDevice, JournalError};
use fw_kept::KeptHead;
use fw_names::HeadId;
use std::alloc::Global;
use std::fs::File;
use std::rt::Files;

/// Checks that no file is there. A new book begins with that.
///
/// # Errors
///
/// `BookExists`, also for a link to nothing, and `BookFault` if it can't be looked for, each with its reason.
pub fn check_absent<F: Files<File = File>>(rt: &F, path: &str) -> Result<(), Because<NewBookError>>
    ensures errors { IfErr result (λ b. (b.error ≡ NewBookError.BookExists) ⊎ (b.error ≡ NewBookError.BookFault)) }
{
    let mut folder = folder_of(rt, path, NewBookError::BookFault)?;
    check_no_book(&mut folder)
}

/// Checks that nothing is FILE.
fn check_no_book<F: Folder>(folder: &mut F) -> Result<(), Because<NewBookError>>
    ensures absent { IsTrue (F.seen folder.old).honest → OnOk result ((F.seen folder.old).disk.entry Main ≡ absent) }
    ensures exists { IsTrue (F.seen folder.old).honest
        → IfErr result (λ b. b.error ≡ NewBookError.BookExists → (F.seen folder.old).disk.entry Main ≢ absent) }
    ensures goes { Goes Stays (F.seen folder.old) (F.seen folder.new) }
    ensures errors { IfErr result (λ b. (b.error ≡ NewBookError.BookExists) ⊎ (b.error ≡ NewBookError.BookFault)) }
{
    match folder.look(Name::Main) {
        Ok(Found::Absent) => Ok(()),
        Ok(_) => Err(Because::of(NewBookError::BookExists, Cause::Exists.at(Name::Main))),
        Err(cause) => Err(Because::of(NewBookError::BookFault, cause.at(Name::Main))),
    }
}

/// The head end of this number without campaigns, with its book in a new file. That is made as FILE.new, and named FILE once the disk has all
/// of it. What a head end left as FILE.new that was killed while it made its book is gone on with. A file of any other bytes stays.
///
/// # Errors
///
/// - `BookExists`, also for a link to nothing.
/// - `Locked`: another process makes the file. `BookFault`: it can't be made, read, written or synced, or FILE.new is a file of others.
/// - `OutOfMemory`.
///
/// All but the last have their reason, if it is known.
pub fn make_book<F: Files<File = File>>(
    rt: &F,
    alloc: Global,
    path: &str,
    head: HeadId,
    width: Width,
) -> Result<KeptHead<FileDevice>, Because<NewBookError>>
    ensures new { IfOk result (λ kept. head_of kept ≡ new_head head width) }
    ensures begun { IfOk result (λ kept. BeginsWith (book_of kept) width (head_of kept)) }
    ensures number { IfOk result (λ kept. (book_of kept).head ≡ head) }
{
    let mut folder = folder_of(rt, path, NewBookError::BookFault)?;
    check_no_book(&mut folder)?;
    match new_device(&mut folder) {
        Ok(device) => make_on(alloc, head, width, device, &mut folder),
        Err(because) => {
            // Who had the lock may have given the file its name meanwhile.
            check_no_book(&mut folder)?;
            Err(refused(because))
        }
    }
}

/// FILE.new, begun. If another process makes it meanwhile, its lock tells so.
pub(crate) fn new_device<F: Files<File = File>>(
    folder: &mut SystemFolder<'_, F>,
) -> Result<FileDevice, Because<JournalError>>
    ensures { IfErr result (λ b. IsFileRefusal b.error) }
{
    let made = Cause::Exists.at(Name::New);
    match FileDevice::begin(folder) {
        Err(because) if because.reason == Some(made) => FileDevice::begin(folder),
        begun => begun,
    }
}

/// A head end without campaigns, with its book on a device without bytes, which gets its name then.
fn make_on<D: JournalDevice + Drop, M: Making<D>>(
    alloc: Global,
    head: HeadId,
    width: Width,
    device: D,
    making: &mut M,
) -> Result<KeptHead<D>, Because<NewBookError>>
    ensures new { IfOk result (λ kept. head_of kept ≡ new_head head width) }
{
    let kept = match KeptHead::create(alloc, head, width, device) {
        Ok(kept) => kept,
        Err((error, device)) => {
            return Err(Because {
                error: NewBookError::from(error),
                reason: making.reason(&device),
            });
        }
    };
    match making.finish(kept.device()) {
        Ok(()) => Ok(kept),
        Err(because) => Err(refused(because)),
    }
}

/// What a refusal of a new book's file is, with its reason.
fn refused(because: Because<JournalError>) -> Because<NewBookError>
    ensures error { result.error ≡ new_book_error because.error }
    ensures reason { result.reason ≡ because.reason }
{
    Because {
        error: NewBookError::from(because.error),
        reason: because.reason,
    }
}

/// What gives the device of a new book its name. Until then it has none, or another.
trait Making<D: JournalDevice> {
    /// Gives a device its name, on which every power cut leaves a new book.
    fn finish(&mut self, device: &D) -> Result<(), Because<JournalError>>
        requires { IsTrue (D.honest device.now) → LeavesNewBook D.may_leave device.now }
        ensures { IfErr result (λ b. IsNamingRefusal b.error) };

    /// Why the last call of the device that failed did, if that is known.
    fn reason(&self, device: &D) -> Option<Reason>;
}

impl<'a, F: Files<File = File>> Making<FileDevice> for SystemFolder<'a, F> {
    fn finish(&mut self, device: &FileDevice) -> Result<(), Because<JournalError>> {
        device.finish(self)
    }

    fn reason(&self, device: &FileDevice) -> Option<Reason>
        ensures { result ≡ option_map (λ c. record { name = New; cause = c }) (cause_of device.now) }
    {
        match device.cause() {
            Some(cause) => Some(cause.at(Name::New)),
            None => None,
        }
    }
}
