//! The command `answer --store`: a meter in a file answers datagrams, one a line.

ghost use Rattle.std.specs.Prelude.{◌≡◌, ◌≢◌, ◌≤◌, ◌⊎◌, ℕ, Some, None, IfOk, IfErr, OnOk};
ghost use Rattle.std.specs.Io.KnownBytes.{Keeps};
ghost use Rattle.fw_image.specs.Meter.{restarted};
ghost use Rattle.fw_cli.specs.Options.{DescribesOne, DescribesNone};
ghost use Rattle.fw_faults.specs.Reading.{Gives, ReadsUntil, max_input};
ghost use Rattle.fw_cli.specs.Faults.{ComesBeforeInput, ComesBeforeOutput};
ghost use Rattle.fw_cli.specs.Answering.{AnswersOpened, fault_of_stored, stored_of_answer, stored_of_file};

use crate::answer::{AnswerError, AnswerOptions, MeterSetup, describes_one, setup_of};
use crate::serving::serve;
use fw_disk::Because;
use fw_faults::Fault;
use fw_host::{NewStore, StoreFileError, found_meter};
use fw_meter::MeterCore;
use fw_store::{FileStore, SetupError};
use std::alloc::Global;
use std::fmt;
use std::fs::File;
use std::io::{Read, Write};
use std::rt::Files;
use thiserror::Error;

/// The options of the command: where the meter is, and what a new one is made with.
#[derive(Clone, Copy)]
pub struct StoredOptions<'a> {
    /// The path of the file.
    pub file: &'a str,
    /// The meter that is made if no file is there. If one is, this isn't looked at.
    pub fresh: AnswerOptions<'a>,
}

/// Why the command ended early. It prints its name, `Fault` for `Device`, and of a bad line the number too.
#[derive(Clone, Copy, Debug, Error)]
pub enum StoredAnswerError {
    /// The file can't be made or opened, or another program's file is beside it.
    StoreFault,
    /// The file failed while the store in it was opened.
    Device,
    /// The file has a length that no store has, or begins with a capacity that none has.
    BadFile,
    /// The header of the store isn't one that it can have.
    BadHeader,
    /// An image in the store, which runs or is verified, hasn't the digest of its name.
    BadImage,
    /// No file is there, and the options describe no meter.
    BadSetup,
    /// The reader failed, or came to no end within 2^32 reads.
    Input,
    /// The reader had more than 64 MiB.
    TooMuchInput,
    /// The line of this number, counted from 1, isn't hexadecimal, or has an odd number of digits.
    BadLine(u64),
    /// The writer failed.
    Output,
    /// Memory was refused.
    OutOfMemory,
}

impl fmt::Display for StoredAnswerError {
    fn fmt<W: fmt::Write>(&self, f: &mut fmt::Formatter<W>) -> fmt::Result {
        match self {
            StoredAnswerError::Device => f.write_str("Fault"),
            StoredAnswerError::BadLine(number) => write!(f, "BadLine {number}"),
            other => fmt::Debug::fmt(other, f),
        }
    }
}

impl From<StoreFileError> for StoredAnswerError {
    ghost from_gives = { λ error e. e ≡ stored_of_file error };

    fn from(error: StoreFileError) -> StoredAnswerError {
        match error {
            StoreFileError::StoreFault => StoredAnswerError::StoreFault,
            StoreFileError::Device => StoredAnswerError::Device,
            StoreFileError::BadFile => StoredAnswerError::BadFile,
            StoreFileError::BadHeader => StoredAnswerError::BadHeader,
            StoreFileError::BadImage => StoredAnswerError::BadImage,
        }
    }
}

impl From<AnswerError> for StoredAnswerError {
    ghost from_gives = { λ error e. e ≡ stored_of_answer error };

    fn from(error: AnswerError) -> StoredAnswerError {
        match error {
            AnswerError::BadSetup => StoredAnswerError::BadSetup,
            AnswerError::Input => StoredAnswerError::Input,
            AnswerError::TooMuchInput => StoredAnswerError::TooMuchInput,
            AnswerError::BadLine(number) => StoredAnswerError::BadLine(number),
            AnswerError::Output => StoredAnswerError::Output,
            AnswerError::OutOfMemory => StoredAnswerError::OutOfMemory,
        }
    }
}

impl From<StoredAnswerError> for Fault {
    ghost from_gives = { λ error fault. fault ≡ fault_of_stored error };

    fn from(error: StoredAnswerError) -> Fault {
        match error {
            StoredAnswerError::StoreFault => Fault::StoreFault,
            StoredAnswerError::Device => Fault::Device,
            StoredAnswerError::BadFile => Fault::BadFile,
            StoredAnswerError::BadHeader => Fault::BadHeader,
            StoredAnswerError::BadImage => Fault::BadImage,
            StoredAnswerError::BadSetup => Fault::BadSetup,
            StoredAnswerError::Input => Fault::Input,
            StoredAnswerError::TooMuchInput => Fault::TooMuchInput,
            StoredAnswerError::BadLine(number) => Fault::BadLine(number),
            StoredAnswerError::Output => Fault::Output,
            StoredAnswerError::OutOfMemory => Fault::OutOfMemory,
        }
    }
}

/// The meter in a file answers each line that the reader has, as a new one does in `run_answer`. If no file is there, it
/// is made, with a new meter. One that is there is never emptied or made anew; a header of version 1 in it is written in
/// version 2 before anything is read. Of the file's contents nothing is known here, so the replies are those of some meter.
///
/// # Errors
///
/// With a fault of the file stands why it was refused, if that is known.
///
/// - `StoreFault`: the file can't be made or opened, another store has it open, or FILE.new or FILE.journal is another program's.
/// - `Device`, which prints `Fault`: the file can't be read, or its header not be written in version 2.
/// - `BadFile`, `BadHeader` or `BadImage`: the file holds no meter. It is left as it is.
/// - `BadSetup`: no file is there, and the options describe no meter. No file was made.
/// - `Input` or `TooMuchInput`, whichever the reading meets first.
/// - `BadLine`: this line isn't hexadecimal, or has an odd number of digits. Those before it were answered.
/// - `Output`: the writer failed. What it holds then is unspecified.
/// - `OutOfMemory`: nothing was written, and no more than 64 MiB were read.
///
/// Up to `BadSetup` nothing was read. From `BadLine` on the meter may have changed.
pub fn run_answer_stored<F: Files<File = File>, R: Read, W: Write>(
    rt: &F,
    alloc: Global,
    reader: &mut R,
    writer: &mut W,
    options: &StoredOptions<'_>,
) -> Result<(), Because<StoredAnswerError>>
    // Each line is answered, or those before the bad one.
    ensures ok { OnOk result (AnswersOpened None (R.remaining reader.old) (R.remaining reader.new)
        (W.contents writer.old) (W.contents writer.new)) }
    ensures bad_line { (number : ℕ) → IfErr result (λ b. b.error ≡ StoredAnswerError.BadLine number
        → AnswersOpened (Some number) (R.remaining reader.old) (R.remaining reader.new)
        (W.contents writer.old) (W.contents writer.new)) }

    // No other options are refused.
    ensures bad_setup { IfErr result (λ b. b.error ≡ StoredAnswerError.BadSetup → DescribesNone options.now.fresh) }
    ensures setup_first { IfErr result (λ b. ComesBeforeInput (fault_of_stored b.error) → Keeps (R.remaining reader.old) (R.remaining reader.new)) }

    // If nothing was read, memory was refused for a meter that the options describe.
    ensures memory { IfErr result (λ b. b.error ≡ StoredAnswerError.OutOfMemory → DescribesOne options.now.fresh
        ⊎ Gives (R.remaining reader.old) (R.remaining reader.new) (λ count. (1 ≤ count) × (count ≤ max_input))) }

    // How far the reading was.
    ensures reading { IfErr result (λ b. ReadsUntil (fault_of_stored b.error) (R.remaining reader.old) (R.remaining reader.new)) }

    ensures silent { IfErr result (λ b. ComesBeforeOutput (fault_of_stored b.error) → Keeps (W.contents writer.old) (W.contents writer.new)) }
{
    let meter = set_up(rt, alloc, options)?;
    match serve(alloc, meter, reader, writer) {
        Ok(()) => Ok(()),
        Err(error) => {
            let ended = StoredAnswerError::from(error);
            Err(Because::from(ended))
        }
    }
}

/// The meter in the file, whose header is one of version 2 from then on. The file is made if none is there.
fn set_up<F: Files<File = File>>(
    rt: &F,
    alloc: Global,
    options: &StoredOptions<'_>,
) -> Result<MeterCore<FileStore>, Because<StoredAnswerError>>
    ensures begins { IfOk result (λ meter. restarted meter.meter ≡ meter.meter) }
    ensures faultless { IfOk result (λ meter. meter.faults ≡ 0) }
    ensures bad_setup { IfErr result (λ b. b.error ≡ StoredAnswerError.BadSetup → DescribesNone options.now.fresh) }
    ensures memory { IfErr result (λ b. b.error ≡ StoredAnswerError.OutOfMemory → DescribesOne options.now.fresh) }
    ensures faults { IfErr result (λ b. ComesBeforeInput (fault_of_stored b.error) ⊎ (b.error ≡ StoredAnswerError.OutOfMemory)) }
{
    match found_meter(rt, options.file) {
        Ok(Some(meter)) => Ok(meter),
        Ok(None) => made(rt, alloc, options),
        Err(because) => Err(not_opened(because)),
    }
}

/// A new meter in a new file.
fn made<F: Files<File = File>>(
    rt: &F,
    alloc: Global,
    options: &StoredOptions<'_>,
) -> Result<MeterCore<FileStore>, Because<StoredAnswerError>>
    ensures begins { IfOk result (λ meter. restarted meter.meter ≡ meter.meter) }
    ensures faultless { IfOk result (λ meter. meter.faults ≡ 0) }
    ensures bad_setup { IfErr result (λ b. b.error ≡ StoredAnswerError.BadSetup → DescribesNone options.now.fresh) }
    ensures made { OnOk result (DescribesOne options.now.fresh) }
    ensures described { IfErr result (λ b. b.error ≢ StoredAnswerError.BadSetup → DescribesOne options.now.fresh) }
    ensures faults { IfErr result (λ b. ComesBeforeInput (fault_of_stored b.error) ⊎ (b.error ≡ StoredAnswerError.OutOfMemory)) }
{
    match new_store(alloc, &options.fresh) {
        Ok(new) => made_of(rt, &new, options.file),
        Err(SetupError::BadSetup) => Err(Because::from(StoredAnswerError::BadSetup)),
        Err(SetupError::OutOfMemory) => Err(Because::from(StoredAnswerError::OutOfMemory)),
    }
}

/// A new meter in a new file, made with this.
fn made_of<F: Files<File = File>>(
    rt: &F,
    new: &NewStore,
    path: &str,
) -> Result<MeterCore<FileStore>, Because<StoredAnswerError>>
    ensures begins { IfOk result (λ meter. restarted meter.meter ≡ meter.meter) }
    ensures faultless { IfOk result (λ meter. meter.faults ≡ 0) }
    ensures file { IfErr result (λ b. b.error ≢ StoredAnswerError.BadSetup) }
    ensures first { IfErr result (λ b. ComesBeforeInput (fault_of_stored b.error)) }
{
    match new.meter(rt, path) {
        Ok(meter) => Ok(meter),
        Err(because) => Err(not_opened(because)),
    }
}

/// Why the command ended early, with its reason, if the file has no meter, or isn't made.
fn not_opened(because: Because<StoreFileError>) -> Because<StoredAnswerError>
    ensures error { result.error ≡ stored_of_file because.error }
    ensures reason { result.reason ≡ because.reason }
{
    Because {
        error: StoredAnswerError::from(because.error),
        reason: because.reason,
    }
}

/// What a new store is made with. Options that describe no meter are refused before memory is taken.
fn new_store(alloc: Global, options: &AnswerOptions<'_>) -> Result<NewStore, SetupError>
    ensures described { OnOk result (DescribesOne options.now) }
    ensures bad_setup { result ≡ Err SetupError.BadSetup → DescribesNone options.now }
    ensures memory { result ≡ Err SetupError.OutOfMemory → DescribesOne options.now }
{
    if !describes_one(options) {
        return Err(SetupError::BadSetup);
    }
    let MeterSetup {
        block_size,
        capacity,
        factory,
    } = setup_of(alloc, options)?;
    match NewStore::of(block_size, capacity, factory) {
        Some(new) => Ok(new),
        None => Err(SetupError::BadSetup),
    }
}
