//! Files of keys that are read.

ghost use Rattle.std.specs.Prelude.{ℕ, List, IfOk, IfErr, ◌≡◌};
ghost use Rattle.fw_keys.specs.KeyFiles.{SpellsHeadKeys, SpellsMeterKeys};
ghost use Rattle.fw_keys.specs.Refusals.{NoHeadKeys, NoMeterKeys};
ghost use Rattle.fw_keys.specs.declared.error.BadLine.{BadLine};
ghost use Rattle.fw_key_files.specs.Refusals.{IsOfReading};

use crate::error::KeyFileError;
use crate::system::read_private;
use fw_disk::Because;
use fw_keys::{KeyFile, read_head_keys, read_meter_keys};
use fw_names::{HeadId, MeterId};
use std::alloc::Global;
use std::fs::File;
use std::net::SocketAddr;
use std::rt::Files;

/// The keys of a head end with this number, from its file.
///
/// # Errors
///
/// - `KeysFault`, with its cause if that is known: the file can't be opened or read, is a link or no regular file, has another name as well,
///   or has more than 64 MiB.
/// - `KeysReadable`: others than its owner may read or write it.
/// - `BadKeys`: the first line with which it is no key file, and what is wrong with it.
/// - `OutOfMemory`.
pub fn head_keys<R: Files<File = File>>(
    rt: &R,
    alloc: Global,
    path: &str,
    head: HeadId,
) -> Result<KeyFile<MeterId>, Because<KeyFileError>>
    ensures spells { IfOk result (λ file. (text : List ℕ) × SpellsHeadKeys text head file) }
    ensures refused { IfErr result (λ b. (line : ℕ) (why : BadLine) → b.error ≡ KeyFileError.BadKeys line why
        → (text : List ℕ) × NoHeadKeys text head line why) }
    ensures faults { IfErr result (λ b. IsOfReading b.error) }
{
    let text = read_private(rt, alloc, path)?;
    match read_head_keys(alloc, text.as_slice(), head) {
        Ok(file) => Ok(file),
        Err(error) => Err(Because::from(KeyFileError::from(error))),
    }
}

/// The keys of a meter, from its file.
///
/// # Errors
///
/// As of [`head_keys`].
pub fn meter_keys<R: Files<File = File>>(
    rt: &R,
    alloc: Global,
    path: &str,
) -> Result<KeyFile<SocketAddr>, Because<KeyFileError>>
    ensures spells { IfOk result (λ file. (text : List ℕ) × SpellsMeterKeys text file) }
    ensures refused { IfErr result (λ b. (line : ℕ) (why : BadLine) → b.error ≡ KeyFileError.BadKeys line why
        → (text : List ℕ) × NoMeterKeys text line why) }
    ensures faults { IfErr result (λ b. IsOfReading b.error) }
{
    let text = read_private(rt, alloc, path)?;
    match read_meter_keys(alloc, text.as_slice()) {
        Ok(file) => Ok(file),
        Err(error) => Err(Because::from(KeyFileError::from(error))),
    }
}
