//! New keys, and the files that have them.

ghost use Rattle.std.specs.Prelude.{◌≡◌, ℕ, List, IfErr, IfOk, OnOk};
ghost use Rattle.fw_keys.specs.Links.{HasEnd, Links};
ghost use Rattle.fw_keys.specs.Titles.{head_title};
ghost use Rattle.fw_key_files.specs.Making.{AreFiles, AreNewKeys, IsFileOf, ends_in, with_link};
ghost use Rattle.fw_key_files.specs.Refusals.{IsOfMaking};

use crate::error::KeyFileError;
use crate::new_file::NewFile;
use crate::owner::Owner;
use crate::randomness::Randomness;
use fw_keys::{BadLine, KeyFile, KeysError, head_text, meter_text};
use fw_names::{HeadId, MeterId};
use std::alloc::{AllocError, Global};
use std::net::SocketAddr;

/// For which ends keys are made, and where.
#[derive(Clone, Copy)]
pub struct MakingKeys<'a> {
    /// The head end.
    pub head: HeadId,
    /// Its address, as the meters have it.
    pub address: SocketAddr,
    /// The meters, each once.
    pub meters: &'a [MeterId],
    /// The folder of the files.
    pub folder: &'a str,
}

/// The files of new keys: the head end's, `head.keys`, and one of each meter, `meter.NUMBER.keys`, in the order of the list. Each link has keys
/// of its own, from random bytes of this source, and both ends have the same. No file is made yet.
///
/// # Errors
///
/// - `NoRandomness`: the source gave no bytes, or the same twice.
/// - `BadKeys`: the meter at this place of the list, counted from 1, stands there before.
/// - `OutOfMemory`.
pub fn new_files<R: Randomness>(
    random: &R,
    alloc: Global,
    making: &MakingKeys<'_>,
) -> Result<Vec<NewFile>, KeyFileError>
    ensures made { IfOk result (λ files. (keys : Links ℕ)
        × AreNewKeys (R.gave random.now) making.now.head making.now.meters.now keys
        × AreFiles making.now keys files.items) }
    ensures faults { IfErr result IsOfMaking }
{
    let keys = new_keys(random, alloc, making.head, making.meters)?;
    Ok(files_of(alloc, making, &keys)?)
}

/// New keys of a head end for its links with these meters, in their order.
fn new_keys<R: Randomness>(
    random: &R,
    alloc: Global,
    head: HeadId,
    meters: &[MeterId],
) -> Result<KeyFile<MeterId>, KeyFileError>
    ensures new { IfOk result (λ keys. AreNewKeys (R.gave random.now) head meters.now keys) }
    ensures faults { IfErr result IsOfMaking }
{
    let mut keys = KeyFile::<MeterId>::of_head(alloc, head);
    for meter in meters {
        add_link(random, &mut keys, *meter)?;
    }
    Ok(keys)
}

/// Adds a link with this meter, under new keys.
fn add_link<R: Randomness>(
    random: &R,
    keys: &mut KeyFile<MeterId>,
    meter: MeterId,
) -> Result<(), KeyFileError>
    ensures added { OnOk result ((bytes : List ℕ) × R.gave random.now bytes × (keys.new ≡ with_link keys.old meter bytes)) }
    ensures faults { IfErr result IsOfMaking }
{
    let Some(bytes) = random.give() else {
        return Err(KeyFileError::NoRandomness);
    };
    match keys.make_link(meter, &bytes) {
        Ok(()) => Ok(()),
        Err(KeysError::BadKeys(_, BadLine::KeyTwice)) => Err(KeyFileError::NoRandomness),
        Err(error) => Err(KeyFileError::from(error)),
    }
}

/// The files that have these keys, the head end's first.
fn files_of(
    alloc: Global,
    making: &MakingKeys<'_>,
    keys: &KeyFile<MeterId>,
) -> Result<Vec<NewFile>, AllocError>
    requires own { keys.now.own ≡ head_title making.now.head }
    requires ends { ends_in keys.now.entries ≡ making.now.meters.now }
    ensures { IfOk result (λ files. AreFiles making.now keys.now files.items) }
{
    let mut files = Vec::new(alloc);
    files.push(head_file(alloc, making, keys)?)?;
    for meter in making.meters {
        files.push(meter_file(alloc, making, keys, *meter)?)?;
    }
    Ok(files)
}

/// The file of the head end.
fn head_file(
    alloc: Global,
    making: &MakingKeys<'_>,
    keys: &KeyFile<MeterId>,
) -> Result<NewFile, AllocError>
    requires own { keys.now.own ≡ head_title making.now.head }
    ensures { IfOk result (λ file. (file.owner ≡ Owner.Head) × IsFileOf making.now keys.now file) }
{
    let text = head_text(alloc, keys)?;
    NewFile::of(alloc, making.folder, Owner::Head, text)
}

/// The file of this meter.
fn meter_file(
    alloc: Global,
    making: &MakingKeys<'_>,
    keys: &KeyFile<MeterId>,
    meter: MeterId,
) -> Result<NewFile, AllocError>
    requires linked { HasEnd keys.now.entries meter }
    ensures { IfOk result (λ file. (file.owner ≡ Owner.Meter meter) × IsFileOf making.now keys.now file) }
{
    let Some(file) = keys.file_of(alloc, meter, making.address)? else {
        // The head end has a link with it.
        unreachable!();
    };
    let text = meter_text(alloc, &file)?;
    NewFile::of(alloc, making.folder, Owner::Meter(meter), text)
}
