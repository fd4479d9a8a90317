//! The book of the command `head`, in a file that is there.

ghost use Rattle.std.specs.Prelude.{◌≡◌, ◌≢◌, ◌≤◌, ◌⊎◌, ℕ, List, IfErr, IfOk, IsTrue, OnOk, None, Some};
ghost use Rattle.std.specs.Option.{option_map};
ghost use Rattle.fw_disk.specs.declared.cause.Cause.TheVariants.{Missing};
ghost use Rattle.fw_disk.specs.declared.name.Name.TheVariants.{Main, New};
ghost use Rattle.fw_head.specs.Head.{BeginsWith};
ghost use Rattle.fw_journal.specs.Book.{Drops};
ghost use Rattle.fw_journal.specs.Refusals.{IsFileRefusal};
ghost use Rattle.fw_kept.specs.Head.{book_of, device_of, head_of};
ghost use Rattle.fw_kept.specs.Kept.{HasForeign};
ghost use Rattle.fw_host.specs.Errors.{old_book_error};

use crate::error::BookFileError;
use crate::files::{folder_of, is_missing};
use crate::head_dropped::DroppedFile;
use fw_blocks::Width;
use fw_disk::{Because, Cause, Name, SystemFolder};
use fw_journal::{
    FileDevice, FileReplacer, JournalDevice, JournalError, Keeper, Replacer, RewriteError,
};
use fw_kept::KeptHead;
use fw_names::HeadId;
use std::alloc::Global;
use std::fs::File;
use std::rt::Files;

/// Where the book of a head end is.
#[derive(Clone, Copy)]
pub struct BookOptions<'a> {
    /// The path of the file.
    pub path: &'a str,
    /// Whether it is to be made. Otherwise it is there.
    pub is_new: bool,
}

/// The head end of this number whose book is in the file, which is written anew before it is led: it is made as FILE.new, and named FILE
/// once the disk has all of it. Whoever had it before may have ended since the disk failed, and then a sync of the old file may return `Ok`
/// though a part of it isn't on the disk. A file that is named FILE.new and is no journal is left as it is.
///
/// What is cut off the book, and reads as records, is kept in FILE.dropped first, and standard error is told how many records that are. If
/// that can't be, nothing is cut off.
///
/// # Errors
///
/// - `NoBook`, with its reason: no file is there.
/// - `Locked`: the lock on a book is another process's. `BookFault`: its file can't be opened, read, written or synced, it can't be written
///   anew as FILE.new, or what is to be cut off it can't be kept. Both have their reason, if it is known.
/// - `BadBook`, `BadRecord` and `ForeignHead`: the file has no book that this head end may begin with. It is left as it is, or as a journal
///   of the same records.
/// - `OutOfMemory`.
pub fn open_book<F: Files<File = File> + Eprint>(
    rt: &F,
    alloc: Global,
    path: &str,
    head: HeadId,
    width: Width,
) -> Result<KeptHead<FileDevice>, Because<BookFileError>>
    ensures begun { IfOk result (λ kept. BeginsWith (book_of kept) width (head_of kept)) }

    // It is the head end that was asked for, whoever's book the file has.
    ensures number { IfOk result (λ kept. (book_of kept).head ≡ head) }
{
    let mut folder = folder_of(rt, path, BookFileError::BookFault)?;
    let device = match old_device(&mut folder) {
        Ok(device) => device,
        Err(because) => return Err(not_opened(because)),
    };
    let mut replacer = match FileReplacer::of(rt, path) {
        Ok(replacer) => replacer,
        Err(cause) => return Err(told(BookFileError::BookFault, Name::Main, Some(cause))),
    };
    let mut keeper = DroppedFile::new(rt, alloc, path);
    match anew_on(alloc, head, width, device, &mut keeper, &mut replacer) {
        Ok(kept) => Ok(kept),
        Err((error, file, device)) => Err(told(error, file, device.cause())),
    }
}

/// FILE, opened. If another process put a new file in its place meanwhile, the lock of that one tells so.
pub(crate) fn old_device<F: Files<File = File>>(
    folder: &mut SystemFolder<'_, F>,
) -> Result<FileDevice, Because<JournalError>>
    ensures { IfErr result (λ b. IsFileRefusal b.error) }
{
    let replaced = Cause::NotAlone.at(Name::Main);
    match FileDevice::open(folder) {
        Err(because) if because.reason == Some(replaced) => FileDevice::open(folder),
        opened => opened,
    }
}

/// What the refusal to open the file of a book is, with its reason. If there is no file, there is no book.
fn not_opened(because: Because<JournalError>) -> Because<BookFileError>
    requires { IsFileRefusal because.error }
    ensures missing { because.reason ≡ Some (record { name = Main; cause = Missing }) → result.error ≡ BookFileError.NoBook }
    ensures there { because.reason ≢ Some (record { name = Main; cause = Missing }) → result.error ≡ old_book_error because.error }
    ensures reason { result.reason ≡ because.reason }
{
    let error = if is_missing(because.reason) {
        BookFileError::NoBook
    } else {
        BookFileError::from(because.error)
    };
    Because {
        error,
        reason: because.reason,
    }
}

/// An error of the book in this file, and why the last call of its device that failed did, if the error may be of that.
fn told(error: BookFileError, file: Name, cause: Option<Cause>) -> Because<BookFileError>
    ensures error { result.error ≡ error }
    ensures reason { error ≡ BookFileError.BookFault → result.reason ≡ option_map (λ c. record { name = file; cause = c }) cause }
    ensures others { error ≢ BookFileError.BookFault → result.reason ≡ None }
{
    match (error, cause) {
        (BookFileError::BookFault, Some(cause)) => Because::of(error, cause.at(file)),
        _ => Because::from(error),
    }
}

/// The head end of this number whose book is on a device, once that is written anew: all that the device has then was written and synced
/// since it was opened. A refusal has the error, which file it is about, FILE or FILE.new, and the device.
fn anew_on<D: JournalDevice + Drop, K: Keeper, R: Replacer<D>>(
    alloc: Global,
    head: HeadId,
    width: Width,
    device: D,
    keeper: &mut K,
    replacer: &mut R,
) -> Result<KeptHead<D>, (BookFileError, Name, D)>
    ensures begun { IfOk result (λ kept. BeginsWith (book_of kept) width (head_of kept)) }
    ensures number { IfOk result (λ kept. (book_of kept).head ≡ head) }
    ensures anew { IfOk result (λ kept. R.made replacer.new (device_of kept)) }
{
    let mut kept = match book_on(alloc, head, width, device, keeper) {
        Ok(kept) => kept,
        Err((error, device)) => return Err((error, Name::Main, device)),
    };
    match write_anew(alloc, replacer, &mut kept) {
        Ok(()) => Ok(kept),
        Err((error, file)) => Err((error, file, kept.into_device())),
    }
}

/// Writes the book of a head end anew. The head end is the same, also if that is refused. The error is about FILE, or about FILE.new,
/// where that can't be made.
fn write_anew<D: JournalDevice, R: Replacer<D>>(
    alloc: Global,
    replacer: &mut R,
    kept: &mut KeptHead<D>,
) -> Result<(), (BookFileError, Name)>
    ensures anew { OnOk result (R.made replacer.new (device_of kept.new)) }
    ensures same { head_of kept.new ≡ head_of kept.old }
    ensures refused { IfErr result (λ e. (e ≡ (BookFileError.BookFault, New)) ⊎ (e.1 ≡ Main)) }
{
    match kept.compact(alloc, replacer) {
        Ok(()) => Ok(()),
        Err(RewriteError::NotReplaced) => Err((BookFileError::BookFault, Name::New)),
        Err(RewriteError::BookFault) => Err((BookFileError::BookFault, Name::Main)),
        Err(RewriteError::OutOfMemory) => Err((BookFileError::OutOfMemory, Name::Main)),
    }
}

/// The head end of this number whose book is on a device. `ForeignHead` says that it is another head end's. The device is returned then.
fn book_on<D: JournalDevice + Drop, K: Keeper>(
    alloc: Global,
    head: HeadId,
    width: Width,
    device: D,
    keeper: &mut K,
) -> Result<KeptHead<D>, (BookFileError, D)>
    ensures begun { IfOk result (λ kept. BeginsWith (book_of kept) width (head_of kept)) }
    ensures number { IfOk result (λ kept. (book_of kept).head ≡ head) }
    ensures own { IsTrue (D.honest device) → OnOk result (¬ HasForeign head (D.contents device)) }
    ensures foreign { IsTrue (D.honest device)
        → IfErr result (λ e. e.0 ≡ BookFileError.ForeignHead → HasForeign head (D.contents device)) }

    // What is cut off and reads as records, the keeper holds.
    ensures dropped { IsTrue (D.honest device) → (rest : List ℕ) (count : ℕ) → Drops (D.contents device) rest count → 1 ≤ count
        → OnOk result (K.holds keeper.new rest) }
{
    fw_kept::laws::foreign_have_none();
    match KeptHead::open(alloc, head, width, device, keeper) {
        Ok(kept) => Ok(kept),
        Err((error, device)) => Err((BookFileError::from(error), device)),
    }
}
