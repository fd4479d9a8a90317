//! The command `keys`: new keys for the links of a head end with the meters of a list, in files for both ends.

ghost use Rattle.std.specs.Prelude.{◌≡◌, ◌≢◌, ◌++◌, IfErr, IfOk, IsTrue, None, OnOk, Some, is_some, string_bytes};
ghost use Rattle.std.specs.Io.KnownBytes.{Keeps};
ghost use Rattle.fw_disk.specs.declared.name.Name.TheVariants.{Main};
ghost use Rattle.fw_key_files.specs.Making.{owners_of};
ghost use Rattle.fw_key_files.specs.Refusals.{IsOfMaking};
ghost use Rattle.fw_cli.specs.Keying.{IsAsked, TellsKeys, fault_of_making, lines_of, made_line, made_lines, numbers_of};
ghost use Rattle.fw_cli.specs.Private.{fault_of_list_file};
ghost use Rattle.fw_cli.specs.declared.keys.KeyMakingError.TheVariants.{KeysFault, OutOfMemory};

use crate::error::ListFileError;
use crate::head::list_of_file;
use fw_disk::{Name, Reason};
use fw_faults::{Fault, write_text};
use fw_key_files::{
    KeyFileError, MakingKeys, NewFile, NotMade, Owner, SystemRandomness, make_files, new_files,
};
use fw_names::{HeadId, MeterId};
use fw_rollout::Listed;
use std::alloc::{AllocError, Global};
use std::fmt;
use std::fs::File;
use std::io::Write;
use std::net::{Net, SocketAddr};
use std::random::RandomSource;
use std::rt::Files;
use thiserror::Error;

/// The options of the command.
#[derive(Clone, Copy)]
pub struct KeysOptions<'a> {
    /// The head end.
    pub head: HeadId,
    /// Its address, as its meters see it.
    pub listen: SocketAddr,
    /// The path of the list of its meters.
    pub meters: &'a str,
    /// The folder of the files.
    pub folder: &'a str,
}

/// Why keys aren't made. It prints its name, and of a bad line the number too.
#[derive(Clone, Copy, Debug, Error)]
pub enum KeyMakingError {
    /// The list of meters can't be read.
    ListFault,
    /// The line of this number, counted from 1, is none of a list.
    BadList(u64),
    /// The system gave no random bytes.
    NoRandomness,
    /// The file of an end can't be made.
    KeysFault,
    /// The writer failed. The files are there.
    Output,
    /// Memory was refused.
    OutOfMemory,
}

impl fmt::Display for KeyMakingError {
    fn fmt<W: fmt::Write>(&self, f: &mut fmt::Formatter<W>) -> fmt::Result {
        match self {
            KeyMakingError::BadList(number) => write!(f, "BadList {number}"),
            other => fmt::Debug::fmt(other, f),
        }
    }
}

impl From<AllocError> for KeyMakingError {
    ghost from_gives = { λ _ e. e ≡ OutOfMemory };

    fn from(_error: AllocError) -> KeyMakingError {
        KeyMakingError::OutOfMemory
    }
}

impl From<ListFileError> for KeyMakingError {
    ghost from_gives = { λ error e. (fault_of_making e ≡ fault_of_list_file error) × (e ≢ KeysFault) };

    fn from(error: ListFileError) -> KeyMakingError {
        match error {
            ListFileError::ListFault => KeyMakingError::ListFault,
            ListFileError::BadList(number) => KeyMakingError::BadList(number),
            ListFileError::OutOfMemory => KeyMakingError::OutOfMemory,
        }
    }
}

impl From<KeyMakingError> for Fault {
    ghost from_gives = { λ error fault. fault ≡ fault_of_making error };

    fn from(error: KeyMakingError) -> Fault {
        match error {
            KeyMakingError::ListFault => Fault::ListFault,
            KeyMakingError::BadList(number) => Fault::BadList(number),
            KeyMakingError::NoRandomness => Fault::NoRandomness,
            KeyMakingError::KeysFault => Fault::KeysFault,
            KeyMakingError::Output => Fault::Output,
            KeyMakingError::OutOfMemory => Fault::OutOfMemory,
        }
    }
}

/// Why the command ended early.
#[derive(Clone, Copy, Debug)]
pub struct KeysFailure {
    /// The error.
    pub error: KeyMakingError,
    /// Whose file couldn't be made, if that is the error.
    pub owner: Option<Owner>,
    /// Why.
    pub reason: Option<Reason>,
}

impl From<KeyMakingError> for KeysFailure {
    ghost from_gives = { λ error failure. (failure.error ≡ error) × (failure.owner ≡ None) × (failure.reason ≡ None) };

    fn from(error: KeyMakingError) -> KeysFailure {
        KeysFailure {
            error,
            owner: None,
            reason: None,
        }
    }
}

impl From<AllocError> for KeysFailure {
    ghost from_gives = { λ _ failure. (failure.error ≡ OutOfMemory) × (failure.owner ≡ None) × (failure.reason ≡ None) };

    fn from(_error: AllocError) -> KeysFailure {
        KeysFailure::from(KeyMakingError::OutOfMemory)
    }
}

impl From<NotMade> for KeysFailure {
    ghost from_gives = { λ not_made failure. (failure.error ≡ KeysFault) × (failure.owner ≡ Some not_made.owner)
        × (failure.reason ≡ Some (record { name = Main; cause = not_made.cause })) };

    fn from(not_made: NotMade) -> KeysFailure {
        KeysFailure {
            error: KeyMakingError::KeysFault,
            owner: Some(not_made.owner),
            reason: Some(not_made.cause.at(Name::Main)),
        }
    }
}

/// Makes files of new keys from the system's randomness: `head.keys` for the head end, and `meter.NUMBER.keys` for each meter of the list.
/// Both ends of a link get the same keys, and no two links get the same. The owner alone may read and write the files, and none is written
/// over.
///
/// The writer gets the line `made FILE` for each file, once all of them are there, and is flushed.
///
/// # Errors
///
/// - `ListFault`: the list can't be read. `BadList`: this line is none of a list for a head end at that address.
/// - `NoRandomness`: the system gave no random bytes.
/// - `KeysFault`, with whose file it is, and its cause: a file can't be made, as if one is there. Those that were made are removed.
/// - `Output`: the writer failed. What it holds then is unspecified. The files are there.
/// - `OutOfMemory`: no file was made.
pub fn run_keys<F: Files<File = File> + Net + RandomSource, W: Write>(
    rt: &F,
    alloc: Global,
    writer: &mut W,
    options: &KeysOptions<'_>,
) -> Result<(), KeysFailure>
    // Of the files nothing is known here, so the list is some one.
    ensures told { OnOk result (TellsKeys options.now (W.contents writer.old) (W.contents writer.new)) }
    ensures silent { IfErr result (λ k. k.error ≢ KeyMakingError.Output → Keeps (W.contents writer.old) (W.contents writer.new)) }

    // A file that can't be made is named.
    ensures owner { IfErr result (λ k. k.error ≡ KeyMakingError.KeysFault → IsTrue (is_some k.owner)) }
{
    let files = files_of(rt, alloc, options)?;
    let lines = text_of(alloc, options.folder, &files)?;
    make_files(rt, &files)?;
    write_text(writer, &lines).map_err(|_| KeyMakingError::Output)?;
    Ok(())
}

/// The files that are to be made.
fn files_of<F: Files<File = File> + Net + RandomSource>(
    rt: &F,
    alloc: Global,
    options: &KeysOptions<'_>,
) -> Result<Vec<NewFile>, KeyMakingError>
    ensures files { IfOk result (λ files. IsAsked options.now files.items) }
    ensures unmade { IfErr result (λ e. e ≢ KeyMakingError.KeysFault) }
{
    let list = list_of_file(rt, alloc, options.meters, options.listen)?;
    let meters = numbers_of(alloc, list.meters().meters())?;
    let making = MakingKeys {
        head: options.head,
        address: options.listen,
        meters: &meters,
        folder: options.folder,
    };
    match new_files(&SystemRandomness::of(rt), alloc, &making) {
        Ok(files) => Ok(files),
        Err(error) => Err(making_error(error)),
    }
}

/// The numbers of the meters of a list.
fn numbers_of(alloc: Global, list: &[Listed]) -> Result<Vec<MeterId>, AllocError>
    ensures { IfOk result (λ meters. meters.items ≡ numbers_of list.now) }
{
    let mut meters = Vec::new(alloc);
    for at in list {
        meters.push(at.meter)?;
    }
    Ok(meters)
}

/// Why keys weren't made, before a file was.
fn making_error(error: KeyFileError) -> KeyMakingError
    requires { IsOfMaking error }
    ensures { result ≢ KeyMakingError.KeysFault }
{
    match error {
        KeyFileError::NoRandomness => KeyMakingError::NoRandomness,
        // A meter stands in the list twice.
        KeyFileError::BadKeys(at, _) => KeyMakingError::BadList(at),
        KeyFileError::OutOfMemory => KeyMakingError::OutOfMemory,
        KeyFileError::KeysFault | KeyFileError::KeysReadable => unreachable!(),
    }
}

/// The lines of these files in their folder.
fn text_of(alloc: Global, folder: &str, files: &[NewFile]) -> Result<String, AllocError>
    ensures { IfOk result (λ text. string_bytes text ≡ made_lines folder.now (owners_of files.now)) }
{
    let mut text = String::new(alloc);
    append_lines(&mut text, folder, files)?;
    Ok(text)
}

/// Appends the lines of these files in their folder.
fn append_lines(text: &mut String, folder: &str, files: &[NewFile]) -> Result<(), AllocError>
    ensures { OnOk result (string_bytes text.new ≡ string_bytes text.old ++ lines_of folder.now files.now) }
{
    for file in files {
        append_line(text, folder, file.owner())?;
    }
    Ok(())
}

/// Appends the line of this end's file in a folder.
fn append_line(text: &mut String, folder: &str, owner: Owner) -> Result<(), AllocError>
    ensures { OnOk result (string_bytes text.new ≡ string_bytes text.old ++ made_line folder.now owner) }
{
    write!(text, "made {folder}/{owner}\n")
}
