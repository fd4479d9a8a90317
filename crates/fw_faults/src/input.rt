//! Reading all that a reader has, within limits.

ghost use Rattle.std.specs.Prelude.{◌≡◌, ◌<◌, ◌≤◌, ◌⊎◌, IsTrue, IfOk, IfErr, false};
ghost use Rattle.fw_faults.specs.Faults.{fault_of_input};
ghost use Rattle.fw_faults.specs.Reading.{Gives, ReadsAll, ReadsUntil, max_input, max_reads};

use crate::error::InputError;
use crate::reads::Reads;
use std::alloc::Global;
use std::io::Read;

/// The most bytes that are read: 64 MiB.
const MAX_INPUT: usize = 67_108_864;

/// The most times that a reader is asked: 2^32.
const MAX_READS: u64 = 4_294_967_296;

/// The bytes that a reader is asked for at once.
const CHUNK: usize = 4096;

/// All the bytes that the reader has left. A read that was interrupted is made again, and counts as one.
///
/// # Errors
///
/// - `Input`: the reader failed, or came to no end within 2^32 reads.
/// - `TooMuchInput`: the reader had more than 64 MiB.
/// - `OutOfMemory`: 1 byte to 64 MiB were read.
pub fn read_input<R: Read>(
    alloc: Global,
    reader: &mut R,
    reads: &mut Reads,
) -> Result<Vec<u8>, InputError>
    requires { reads.old ≡ record { made = 0; failed = false } }
    ensures all { IfOk result (λ input. ReadsAll (R.remaining reader.old) (R.remaining reader.new) input.items) }

    // The error that the reading meets first.
    ensures reading { IfErr result (λ e. ReadsUntil (fault_of_input e) (R.remaining reader.old) (R.remaining reader.new)) }
    ensures input_only { result ≡ Err InputError.Input → IsTrue reads.new.failed ⊎ (max_reads ≤ reads.new.made) }
    ensures memory { result ≡ Err InputError.OutOfMemory
        → Gives (R.remaining reader.old) (R.remaining reader.new) (λ count. (1 ≤ count) × (count ≤ max_input)) }
    ensures memory_only { result ≡ Err InputError.OutOfMemory → reads.new.failed ≡ false }
{
    let mut input = Vec::new(alloc);
    let mut chunk = [0; CHUNK];
    while reads.made() < MAX_READS {
        let Some(count) = reads.read(reader, &mut chunk)? else {
            continue;
        };
        if count == 0 {
            return Ok(input);
        }
        if count > MAX_INPUT - input.len() {
            return Err(InputError::TooMuchInput);
        }
        input.extend_from_slice(&chunk[..count])?;
    }
    Err(InputError::Input)
}
