//! The command `answer`: a new meter answers datagrams, one a line.

ghost use Rattle.std.specs.Prelude.{◌≡◌, ◌↔◌, ℕ, List, None, Some, length, IfOk, IfErr, IsTrue, false, OnOk};
ghost use Rattle.std.specs.Io.KnownBytes.{Keeps};
ghost use Rattle.hex.specs.Hex.{decode_of};
ghost use Rattle.fw_store.specs.Setup.{IsSetup};
ghost use Rattle.fw_store.specs.declared.version.HeaderVersion.TheVariants.{Two};
ghost use Rattle.fw_cli.specs.Options.{Describes, DescribesOne, DescribesNone};
ghost use Rattle.fw_faults.specs.Reading.{ReadsUntil};
ghost use Rattle.fw_cli.specs.Faults.{ComesBeforeOutput};
ghost use Rattle.fw_cli.specs.Answering.{Answers, fault_of_answer};

use crate::serving::serve;
use fw_blocks::{MAX_BLOCK_SIZE, MAX_IMAGE_SIZE};
use fw_faults::Fault;
use fw_meter::MeterCore;
use fw_store::{MemoryStore, SetupError};
use fw_text::hexadecimal::{bytes_of, is_hexadecimal};
use std::alloc::Global;
use std::fmt;
use std::io::{Read, Write};
use thiserror::Error;

/// The options of the command: the limits of the meter, and the image that it runs.
#[derive(Clone, Copy)]
pub struct AnswerOptions<'a> {
    /// Bytes per block of an image transfer, 1 to 1,024.
    pub block_size: u64,
    /// Bytes of the longest image, at most 16,777,216.
    pub capacity: u64,
    /// The image that a new meter runs, in hexadecimal: 1 byte to the capacity.
    pub factory: &'a str,
}

/// What a store is made with.
#[derive(Drop)]
pub(crate) struct MeterSetup {
    pub(crate) block_size: u32,
    pub(crate) capacity: u32,
    pub(crate) factory: Vec<u8>,
}

/// Why the command ended early. It prints its name, and of a bad line the number too.
#[derive(Clone, Copy, Debug, Error)]
pub enum AnswerError {
    /// The options describe no meter.
    BadSetup,
    /// The reader failed, or came to no end within 2^32 reads.
    Input,
    /// The reader had more than 64 MiB.
    TooMuchInput,
    /// The line of this number, counted from 1, isn't hexadecimal, or has an odd number of digits.
    BadLine(u64),
    /// The writer failed.
    Output,
    /// Memory was refused.
    OutOfMemory,
}

impl fmt::Display for AnswerError {
    fn fmt<W: fmt::Write>(&self, f: &mut fmt::Formatter<W>) -> fmt::Result {
        match self {
            AnswerError::BadLine(number) => write!(f, "BadLine {number}"),
            other => fmt::Debug::fmt(other, f),
        }
    }
}

impl From<AnswerError> for Fault {
    ghost from_gives = { λ error fault. fault ≡ fault_of_answer error };

    fn from(error: AnswerError) -> Fault {
        match error {
            AnswerError::BadSetup => Fault::BadSetup,
            AnswerError::Input => Fault::Input,
            AnswerError::TooMuchInput => Fault::TooMuchInput,
            AnswerError::BadLine(number) => Fault::BadLine(number),
            AnswerError::Output => Fault::Output,
            AnswerError::OutOfMemory => Fault::OutOfMemory,
        }
    }
}

/// A new meter answers each line that the reader has. A line is a datagram of IEC 62056-4-7 in hexadecimal of either
/// case; an empty line is an empty datagram. For each the writer gets a line: the reply in lower-case hexadecimal, or
/// `-` if there is none.
///
/// All input is read before anything is written, and what is written is flushed, also before a `BadLine`.
///
/// # Errors
///
/// - `BadSetup`: the options describe no meter. Nothing was read.
/// - `Input` or `TooMuchInput`, whichever the reading meets first.
/// - `BadLine`: this line isn't hexadecimal, or has an odd number of digits. Those before it were answered.
/// - `Output`: the writer failed. What it holds then is unspecified.
/// - `OutOfMemory`: nothing was written, and no more than 64 MiB were read.
pub fn run_answer<R: Read, W: Write>(
    alloc: Global,
    reader: &mut R,
    writer: &mut W,
    options: &AnswerOptions<'_>,
) -> Result<(), AnswerError>
    // Each line is answered, or those before the bad one.
    ensures ok { OnOk result (Answers options.now None (R.remaining reader.old) (R.remaining reader.new)
        (W.contents writer.old) (W.contents writer.new)) }
    ensures bad_line { (number : ℕ) → result ≡ Err (AnswerError.BadLine number)
        → Answers options.now (Some number) (R.remaining reader.old) (R.remaining reader.new)
        (W.contents writer.old) (W.contents writer.new) }

    // Options that describe no meter are refused before memory is taken or anything is read, and no others are.
    ensures bad_setup { result ≡ Err AnswerError.BadSetup → DescribesNone options.now }
    ensures setup_refused { DescribesNone options.now → result ≡ Err AnswerError.BadSetup }
    ensures setup_first { DescribesNone options.now → Keeps (R.remaining reader.old) (R.remaining reader.new) }
    ensures memory { result ≡ Err AnswerError.OutOfMemory → DescribesOne options.now }

    // How far the reading was.
    ensures reading { IfErr result (λ e. ReadsUntil (fault_of_answer e) (R.remaining reader.old) (R.remaining reader.new)) }

    ensures silent { IfErr result (λ e. ComesBeforeOutput (fault_of_answer e) → Keeps (W.contents writer.old) (W.contents writer.new)) }
{
    fw_meter::laws::faultless();
    match set_up(alloc, options) {
        Ok(meter) => serve(alloc, meter, reader, writer),
        Err(SetupError::BadSetup) => Err(AnswerError::BadSetup),
        Err(SetupError::OutOfMemory) => Err(AnswerError::OutOfMemory),
    }
}

/// The meter that the options describe, over a new store in memory. If memory is refused, the options are judged without it.
fn set_up(alloc: Global, options: &AnswerOptions<'_>) -> Result<MeterCore<MemoryStore>, SetupError>
    ensures ok { IfOk result (λ meter. Describes options.now meter.meter) }
    ensures honest { IfOk result (λ meter. IsTrue meter.honest) }
    ensures sound { IfOk result (λ meter. IsTrue meter.sound) }
    ensures bad_setup { result ≡ Err SetupError.BadSetup → DescribesNone options.now }
    ensures memory { result ≡ Err SetupError.OutOfMemory → DescribesOne options.now }
{
    match new_meter(alloc, options) {
        Err(SetupError::OutOfMemory) if !describes_one(options) => Err(SetupError::BadSetup),
        made => made,
    }
}

/// The meter that the options describe, as far as memory reaches.
fn new_meter(
    alloc: Global,
    options: &AnswerOptions<'_>,
) -> Result<MeterCore<MemoryStore>, SetupError>
    ensures ok { IfOk result (λ meter. Describes options.now meter.meter) }
    ensures honest { IfOk result (λ meter. IsTrue meter.honest) }
    ensures sound { IfOk result (λ meter. IsTrue meter.sound) }
    ensures bad_setup { result ≡ Err SetupError.BadSetup → DescribesNone options.now }
{
    let setup = setup_of(alloc, options)?;
    let store = match MemoryStore::new(alloc, setup.capacity, setup.block_size, &setup.factory) {
        Ok(store) => store,
        Err(SetupError::BadSetup) => return Err(SetupError::BadSetup),
        Err(SetupError::OutOfMemory) => return Err(SetupError::OutOfMemory),
    };
    fw_image::laws::fresh_is_meter();
    match MeterCore::open_store(store) {
        Ok(meter) => Ok(meter),
        // A new store is never refused.
        Err(_) => unreachable!(),
    }
}

/// What a store is made with, as the options say it, as far as memory reaches.
pub(crate) fn setup_of(alloc: Global, options: &AnswerOptions<'_>) -> Result<MeterSetup, SetupError>
    ensures factory { IfOk result (λ setup. decode_of options.now.factory.now ≡ Ok setup.factory.items) }
    ensures numbers { IfOk result (λ setup.
        (setup.block_size ≡ options.now.block_size) × (setup.capacity ≡ options.now.capacity)) }
    ensures bad_setup { result ≡ Err SetupError.BadSetup → DescribesNone options.now }
{
    let Ok(block_size) = u32::try_from(options.block_size) else {
        return Err(SetupError::BadSetup);
    };
    let Ok(capacity) = u32::try_from(options.capacity) else {
        return Err(SetupError::BadSetup);
    };
    let Some(factory) = bytes_of(alloc, options.factory.as_bytes())? else {
        return Err(SetupError::BadSetup);
    };
    Ok(MeterSetup {
        block_size,
        capacity,
        factory,
    })
}

/// Whether the options describe a meter. No memory is taken.
pub(crate) fn describes_one(options: &AnswerOptions<'_>) -> bool
    ensures one { IsTrue result → DescribesOne options.now }
    ensures none { result ≡ false → DescribesNone options.now }
{
    is_hexadecimal(options.factory.as_bytes())
        && is_setup(
            options.block_size,
            options.capacity,
            options.factory.len() / 2,
        )
}

/// Whether a store with a header of version 2 can be made with these, and an image of `size` bytes.
fn is_setup(block_size: u64, capacity: u64, size: usize) -> bool
    ensures { (bytes : List ℕ) → length bytes ≡ size → IsTrue result ↔ IsSetup Two block_size capacity bytes }
{
    let block_fits = (1..=u64::from(MAX_BLOCK_SIZE)).contains(&block_size);
    let room_fits = (1..=u64::from(MAX_IMAGE_SIZE)).contains(&capacity);
    block_fits && room_fits && size > 0 && size as u64 <= capacity
}
