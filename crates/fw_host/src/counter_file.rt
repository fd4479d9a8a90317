//! The counter of the keys of a daemon whose datagrams are sealed, in a file beside theirs. So under the keys of a file one process seals at a
//! time, whatever books or stores there are, and each goes on where the last one ended.

ghost use Rattle.std.specs.Prelude.{◌≡◌, ◌≢◌, ◌⊎◌, ◌++◌, IfErr, IfOk, IsTrue, None, OnOk, Some, codes, string_bytes};
ghost use Rattle.std.specs.Option.{option_map};
ghost use Rattle.fw_counter.specs.Counters.{counter_of, device_of};
ghost use Rattle.fw_counter.specs.Refusals.{IsOpeningRefusal};
ghost use Rattle.fw_counter.specs.Told.{Tells};
ghost use Rattle.fw_counter.specs.declared.error.CounterError.TheVariants as counter;
ghost use Rattle.fw_disk.specs.Calls.{Stays};
ghost use Rattle.fw_disk.specs.Disk.{absent, Goes};
ghost use Rattle.fw_disk.specs.declared.cause.Cause.TheVariants.{Missing};
ghost use Rattle.fw_disk.specs.declared.name.Name.TheVariants.{Main, New};
ghost use Rattle.fw_journal.specs.File.{cause_of};
ghost use Rattle.fw_journal.specs.Refusals.{IsFileRefusal, IsNamingRefusal};
ghost use Rattle.fw_host.specs.Errors.{new_counter_error, old_counter_error};
ghost use Rattle.fw_host.specs.Sealings.{LeavesNewCounter};

use crate::error::{CounterFileError, NewCounterError};
use crate::files::{folder_of, is_missing};
use crate::head_book::old_device;
use crate::head_new_book::new_device;
use fw_counter::{CounterError, KeptCounters, OpeningError};
use fw_disk::{Because, Cause, Folder, Found, Name, Reason, SystemFolder};
use fw_journal::{FileDevice, FileReplacer, JournalDevice, JournalError, Replacer, RewriteError};
use std::alloc::{AllocError, Global};
use std::fs::File;
use std::rt::Files;

/// The path of the counter that belongs to the key file at this path.
fn counter_path(alloc: Global, keys: &str) -> Result<String, AllocError>
    ensures { IfOk result (λ name. string_bytes name ≡ keys.now ++ codes ".counter") }
{
    format!(in alloc; "{keys}.counter")
}

/// Checks that the key file at this path has no counter. A new one begins with that.
///
/// # Errors
///
/// `CounterExists`, also for a link to nothing, and `CounterFault` if it can't be looked for, each with its reason; or `OutOfMemory`.
pub fn check_no_counter<F: Files<File = File>>(
    rt: &F,
    alloc: Global,
    keys: &str,
) -> Result<(), Because<NewCounterError>>
    ensures errors { IfErr result (λ b. (b.error ≡ NewCounterError.CounterExists)
        ⊎ ((b.error ≡ NewCounterError.CounterFault) ⊎ (b.error ≡ NewCounterError.OutOfMemory))) }
{
    let Ok(path) = counter_path(alloc, keys) else {
        return Err(Because::from(NewCounterError::OutOfMemory));
    };
    let mut folder = folder_of(rt, path.as_str(), NewCounterError::CounterFault)?;
    check_none(&mut folder)
}

/// Checks that nothing is FILE.
fn check_none<F: Folder>(folder: &mut F) -> Result<(), Because<NewCounterError>>
    ensures absent { IsTrue (F.seen folder.old).honest → OnOk result ((F.seen folder.old).disk.entry Main ≡ absent) }
    ensures exists { IsTrue (F.seen folder.old).honest
        → IfErr result (λ b. b.error ≡ NewCounterError.CounterExists → (F.seen folder.old).disk.entry Main ≢ absent) }
    ensures goes { Goes Stays (F.seen folder.old) (F.seen folder.new) }
    ensures errors { IfErr result (λ b. (b.error ≡ NewCounterError.CounterExists) ⊎ (b.error ≡ NewCounterError.CounterFault)) }
{
    match folder.look(Name::Main) {
        Ok(Found::Absent) => Ok(()),
        Ok(_) => Err(Because::of(NewCounterError::CounterExists, Cause::Exists.at(Name::Main))),
        Err(cause) => Err(Because::of(NewCounterError::CounterFault, cause.at(Name::Main))),
    }
}

/// The counters of the keys in the file at this path: those of the file KEYS.counter, which no other process has open. All that are reserved
/// there count as used. The file is written anew before a counter is used: it is made as KEYS.counter.new, and gets its name once the disk has
/// all of it. Whoever had it before may have ended since the disk failed, and then a sync of the old file may return `Ok` though a part of it
/// isn't on the disk. A file that is named KEYS.counter.new and is no journal is left as it is.
///
/// Where a byte of the file has turned on the disk, so that records stand behind a shut gate, what these reserve counts as used too, and is
/// reserved anew before they are cut off.
///
/// # Errors
///
/// - `NoCounter`, with its reason: there is no file.
/// - `CounterLocked`: another process has the counter. `CounterFault`: its file can't be opened, read, written or synced, or it can't be written
///   anew as KEYS.counter.new. Both have their reason, if it is known.
/// - `CounterFault` without a reason: the file has no counter, and is left as it is.
/// - `OutOfMemory`.
pub fn open_counters<F: Files<File = File>>(
    rt: &F,
    alloc: Global,
    keys: &str,
) -> Result<KeptCounters<FileDevice>, Because<CounterFileError>>
    ensures unused { IfOk result (λ counters. (counter_of counters).next ≡ (counter_of counters).reserved) }
{
    let Ok(path) = counter_path(alloc, keys) else {
        return Err(Because::from(CounterFileError::OutOfMemory));
    };
    let mut folder = folder_of(rt, path.as_str(), CounterFileError::CounterFault)?;
    let device = match old_device(&mut folder) {
        Ok(device) => device,
        Err(because) => return Err(not_opened(because)),
    };
    let mut replacer = match FileReplacer::of(rt, path.as_str()) {
        Ok(replacer) => replacer,
        Err(cause) => return Err(told(CounterFileError::CounterFault, Name::Main, Some(cause))),
    };
    match anew_on(alloc, device, &mut replacer) {
        Ok(counters) => Ok(counters),
        Err((error, file, device)) => Err(told(error, file, device.cause())),
    }
}

/// The counters of a device, once they are written anew: all that the device has then was written and synced since it was opened. A refusal
/// has the error, which file it is about, FILE or FILE.new, and the device.
fn anew_on<D: JournalDevice + Drop, R: Replacer<D>>(
    alloc: Global,
    device: D,
    replacer: &mut R,
) -> Result<KeptCounters<D>, (CounterFileError, Name, D)>
    ensures unused { IfOk result (λ counters. (counter_of counters).next ≡ (counter_of counters).reserved) }
    ensures reserved { IsTrue (D.honest device) → IfOk result (λ counters. Tells (D.contents device) (counter_of counters).reserved) }
    ensures anew { IfOk result (λ counters. R.made replacer.new (device_of counters)) }
{
    let mut counters = match KeptCounters::open(alloc, device, replacer) {
        Ok(counters) => counters,
        Err((error, device)) => {
            let (error, file) = not_counted(error);
            return Err((error, file, device));
        }
    };
    match counters.compact(alloc, replacer) {
        Ok(()) => Ok(counters),
        Err(error) => {
            let (error, file) = not_written(error);
            Err((error, file, counters.into_device()))
        }
    }
}

/// Why the counters of a device weren't opened. It is about FILE, or about FILE.new, where that can't be made.
fn not_counted(error: OpeningError) -> (CounterFileError, Name)
    requires { IsOpeningRefusal error }
    ensures none { error ≡ OpeningError.Counter counter.NoCounter → result ≡ (CounterFileError.CounterFault, Main) }
    ensures fault { error ≡ OpeningError.Counter counter.CounterFault → result ≡ (CounterFileError.CounterFault, Main) }
    ensures memory { error ≡ OpeningError.Counter counter.OutOfMemory → result ≡ (CounterFileError.OutOfMemory, Main) }
    ensures not_replaced { error ≡ OpeningError.NotReplaced → result ≡ (CounterFileError.CounterFault, New) }
{
    match error {
        OpeningError::Counter(CounterError::NoCounter | CounterError::CounterFault) => {
            (CounterFileError::CounterFault, Name::Main)
        }
        OpeningError::Counter(CounterError::OutOfMemory) => {
            (CounterFileError::OutOfMemory, Name::Main)
        }
        // An opening takes none.
        OpeningError::Counter(CounterError::CounterSpent) => unreachable!(),
        OpeningError::NotReplaced => (CounterFileError::CounterFault, Name::New),
    }
}

/// Why counters weren't written anew. It is about FILE, or about FILE.new, where that can't be made.
fn not_written(error: RewriteError) -> (CounterFileError, Name)
    ensures not_replaced { error ≡ RewriteError.NotReplaced → result ≡ (CounterFileError.CounterFault, New) }
    ensures fault { error ≡ RewriteError.BookFault → result ≡ (CounterFileError.CounterFault, Main) }
    ensures memory { error ≡ RewriteError.OutOfMemory → result ≡ (CounterFileError.OutOfMemory, Main) }
{
    match error {
        RewriteError::NotReplaced => (CounterFileError::CounterFault, Name::New),
        RewriteError::BookFault => (CounterFileError::CounterFault, Name::Main),
        RewriteError::OutOfMemory => (CounterFileError::OutOfMemory, Name::Main),
    }
}

/// An error of the counter in this file, and why the last call of its device that failed did, if the error may be of that.
fn told(error: CounterFileError, file: Name, cause: Option<Cause>) -> Because<CounterFileError>
    ensures error { result.error ≡ error }
    ensures reason { error ≡ CounterFileError.CounterFault → result.reason ≡ option_map (λ c. record { name = file; cause = c }) cause }
    ensures others { error ≢ CounterFileError.CounterFault → result.reason ≡ None }
{
    match (error, cause) {
        (CounterFileError::CounterFault, Some(cause)) => Because::of(error, cause.at(file)),
        _ => Because::from(error),
    }
}

/// What the refusal to open the file of a counter is, with its reason. If there is no file, there is no counter.
fn not_opened(because: Because<JournalError>) -> Because<CounterFileError>
    requires { IsFileRefusal because.error }
    ensures missing { because.reason ≡ Some (record { name = Main; cause = Missing }) → result.error ≡ CounterFileError.NoCounter }
    ensures there { because.reason ≢ Some (record { name = Main; cause = Missing }) → result.error ≡ old_counter_error because.error }
    ensures reason { result.reason ≡ because.reason }
{
    let error = if is_missing(because.reason) {
        CounterFileError::NoCounter
    } else {
        CounterFileError::from(because.error)
    };
    Because {
        error,
        reason: because.reason,
    }
}

/// The counters of the keys in the file at this path, of which none is used, in a new file. That is made as KEYS.counter.new, and named
/// KEYS.counter once the disk has all of it. What a daemon left as KEYS.counter.new that was killed while it made its counter is gone on with. A
/// file of any other bytes stays.
///
/// # Errors
///
/// - `CounterExists`, also for a link to nothing.
/// - `CounterLocked`: another process makes the file. `CounterFault`: it can't be made, read, written or synced, or KEYS.counter.new is a file
///   of others.
/// - `OutOfMemory`.
///
/// All but the last have their reason, if it is known.
pub fn make_counters<F: Files<File = File>>(
    rt: &F,
    alloc: Global,
    keys: &str,
) -> Result<KeptCounters<FileDevice>, Because<NewCounterError>>
    ensures unused { IfOk result (λ counters. (counter_of counters).next ≡ (counter_of counters).reserved) }
    ensures new { IfOk result (λ counters. counter_of counters ≡ record { next = 0; reserved = 0 }) }
{
    let Ok(path) = counter_path(alloc, keys) else {
        return Err(Because::from(NewCounterError::OutOfMemory));
    };
    let mut folder = folder_of(rt, path.as_str(), NewCounterError::CounterFault)?;
    check_none(&mut folder)?;
    match new_device(&mut folder) {
        Ok(device) => make_on(alloc, device, &mut folder),
        Err(because) => {
            // Who had the lock may have given the file its name meanwhile.
            check_none(&mut folder)?;
            Err(refused(because))
        }
    }
}

/// Counters of which none is used, on a device without bytes, which gets its name then.
fn make_on<D: JournalDevice + Drop, M: Making<D>>(
    alloc: Global,
    device: D,
    making: &mut M,
) -> Result<KeptCounters<D>, Because<NewCounterError>>
    ensures new { IfOk result (λ counters. counter_of counters ≡ record { next = 0; reserved = 0 }) }
{
    let counters = match KeptCounters::create(alloc, device) {
        Ok(counters) => counters,
        Err((error, device)) => {
            return Err(refused(Because {
                error,
                reason: making.reason(&device),
            }));
        }
    };
    match making.finish(counters.device()) {
        Ok(()) => Ok(counters),
        Err(because) => Err(refused(because)),
    }
}

/// What a refusal of a new counter's file is, with its reason.
fn refused(because: Because<JournalError>) -> Because<NewCounterError>
    ensures error { result.error ≡ new_counter_error because.error }
    ensures reason { result.reason ≡ because.reason }
{
    Because {
        error: NewCounterError::from(because.error),
        reason: because.reason,
    }
}

/// What gives the device of a new counter its name. Until then it has none, or another.
trait Making<D: JournalDevice> {
    /// Gives a device its name, on which every power cut leaves a new counter.
    fn finish(&mut self, device: &D) -> Result<(), Because<JournalError>>
        requires { IsTrue (D.honest device.now) → LeavesNewCounter D.may_leave device.now }
        ensures { IfErr result (λ b. IsNamingRefusal b.error) };

    /// Why the last call of the device that failed did, if that is known.
    fn reason(&self, device: &D) -> Option<Reason>;
}

impl<'a, F: Files<File = File>> Making<FileDevice> for SystemFolder<'a, F> {
    fn finish(&mut self, device: &FileDevice) -> Result<(), Because<JournalError>> {
        device.finish(self)
    }

    fn reason(&self, device: &FileDevice) -> Option<Reason>
        ensures { result ≡ option_map (λ c. record { name = New; cause = c }) (cause_of device.now) }
    {
        match device.cause() {
            Some(cause) => Some(cause.at(Name::New)),
            None => None,
        }
    }
}
