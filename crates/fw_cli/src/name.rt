//! The command `name`: the name under which a campaign offers an image.

ghost use Rattle.std.specs.Prelude.{
  ◌≡◌,
  ◌≢◌,
  ◌<◌,
  ◌≤◌,
  ◌⊎◌,
  ◌+◌,
  ◌*◌,
  ◌++◌,
  [],
  List,
  ℕ,
  length,
  take,
  IfOk,
  IfErr,
  OnOk,
  codes,
};
ghost use Rattle.std.specs.Io.KnownBytes.{Appends, Keeps};
ghost use Rattle.hex.specs.Hex.{encode_lower};
ghost use Rattle.fw_names.specs.Name.{SpellsName};
ghost use Rattle.fw_blocks.specs.Cuts.{max_image};
ghost use Rattle.fw_cli.specs.Naming.{ReadsImage, WritesName, fault_of_name};
ghost use Rattle.fw_faults.specs.Reading.{Gives, ReadsAll, ReadsUntil, max_input};

use fw_blocks::MAX_IMAGE_SIZE;
use fw_faults::{Fault, InputError, Reads, read_input};
use fw_names::{CampaignId, ImageName, MAX_NAME_SIZE, name_of};
use std::alloc::Global;
use std::fmt;
use std::io::{Read, Write};
use std::marker::Model;
use thiserror::Error;

/// The most hexadecimal digits of a name.
const DIGITS: usize = 2 * MAX_NAME_SIZE;

/// The options of the command.
#[derive(Clone, Copy)]
pub struct NameOptions {
    /// The campaign that offers the image.
    pub campaign: CampaignId,
    /// The image's release, and 0 if it has none; images that meters are made with have none.
    pub release: u32,
}

impl Model for NameOptions {
    ghost use Rattle.std.specs.Prelude.{◌≡◌};
    ghost use Rattle.fw_names.specs.Name.{factory};
    ghost use Rattle.fw_cli.specs.Naming.{Naming};

    ghost Value = { Naming };

    ghost view = { λ n. record { campaign = n.campaign; release = n.release } };

    ghost invariant = { λ n. n.campaign ≡ factory → n.release ≡ 0 };

    ghost inverse = { λ n. record { campaign = n.campaign; release = n.release } };
}

/// Why the command ended early.
#[derive(Clone, Copy, Debug, Error)]
pub enum NameError {
    /// The reader failed, or came to no end within 2^32 reads.
    Input,
    /// The reader had more than 64 MiB.
    TooMuchInput,
    /// The reader had no byte, and an image has at least one.
    EmptyImage,
    /// The reader had more bytes than an image can have, 16,777,216.
    ImageTooLong,
    /// The writer failed.
    Output,
    /// Memory was refused.
    OutOfMemory,
}

impl fmt::Display for NameError {
    fn fmt<W: fmt::Write>(&self, f: &mut fmt::Formatter<W>) -> fmt::Result {
        fmt::Debug::fmt(self, f)
    }
}

impl From<NameError> for Fault {
    ghost from_gives = { λ error fault. fault ≡ fault_of_name error };

    fn from(error: NameError) -> Fault {
        match error {
            NameError::Input => Fault::Input,
            NameError::TooMuchInput => Fault::TooMuchInput,
            NameError::EmptyImage => Fault::EmptyImage,
            NameError::ImageTooLong => Fault::ImageTooLong,
            NameError::Output => Fault::Output,
            NameError::OutOfMemory => Fault::OutOfMemory,
        }
    }
}

/// The reader has the bytes of an image. The writer gets a line: the digits of its name in the campaign, in lower-case hexadecimal,
/// of which there are 82, and 90 where the image has a release.
///
/// All input is read before anything is written, and what is written is flushed.
///
/// # Errors
///
/// - `Input` or `TooMuchInput`, whichever the reading meets first.
/// - `EmptyImage`: the reader had no byte.
/// - `ImageTooLong`: the reader had more than 16,777,216 bytes.
/// - `Output`: the writer failed. What it holds then is unspecified.
/// - `OutOfMemory`: nothing was written, and 1 byte to 64 MiB were read.
pub fn run_name<R: Read, W: Write>(
    alloc: Global,
    reader: &mut R,
    writer: &mut W,
    options: &NameOptions,
) -> Result<(), NameError>
    ensures ok { OnOk result (WritesName options.now (R.remaining reader.old) (R.remaining reader.new)
        (W.contents writer.old) (W.contents writer.new)) }

    // The input that each of these refusals stands for.
    ensures empty_image { result ≡ Err NameError.EmptyImage → ReadsAll (R.remaining reader.old) (R.remaining reader.new) [] }
    ensures image_too_long { result ≡ Err NameError.ImageTooLong → (input : List ℕ)
        × ReadsAll (R.remaining reader.old) (R.remaining reader.new) input × (max_image < length input) }
    ensures output { result ≡ Err NameError.Output
        → (image : List ℕ) × ReadsImage (R.remaining reader.old) (R.remaining reader.new) image }

    // How far the reading was.
    ensures reading { IfErr result (λ e. ReadsUntil (fault_of_name e) (R.remaining reader.old) (R.remaining reader.new)) }
    ensures memory { result ≡ Err NameError.OutOfMemory
        → Gives (R.remaining reader.old) (R.remaining reader.new) (λ count. (1 ≤ count) × (count ≤ max_input)) }

    ensures silent { IfErr result (λ e. e ≢ NameError.Output → Keeps (W.contents writer.old) (W.contents writer.new)) }
{
    let image = read_image(alloc, reader)?;
    let name = name_of(options.campaign, options.release, &image);
    write_name(writer, &name)?;
    writer.flush().map_err(|_| NameError::Output)
}

/// The image that the reader has.
fn read_image<R: Read>(alloc: Global, reader: &mut R) -> Result<Vec<u8>, NameError>
    ensures image { IfOk result (λ image. ReadsImage (R.remaining reader.old) (R.remaining reader.new) image.items) }
    ensures empty_image { result ≡ Err NameError.EmptyImage → ReadsAll (R.remaining reader.old) (R.remaining reader.new) [] }
    ensures image_too_long { result ≡ Err NameError.ImageTooLong → (input : List ℕ)
        × ReadsAll (R.remaining reader.old) (R.remaining reader.new) input × (max_image < length input) }
    ensures reading { IfErr result (λ e. ReadsUntil (fault_of_name e) (R.remaining reader.old) (R.remaining reader.new)) }
    ensures memory { result ≡ Err NameError.OutOfMemory
        → Gives (R.remaining reader.old) (R.remaining reader.new) (λ count. (1 ≤ count) × (count ≤ max_input)) }
    ensures before_output { IfErr result (λ e. e ≢ NameError.Output) }
{
    let mut reads = Reads::none();
    match read_input(alloc, reader, &mut reads) {
        Ok(input) => offered(input),
        Err(InputError::Input) => Err(NameError::Input),
        Err(InputError::TooMuchInput) => Err(NameError::TooMuchInput),
        Err(InputError::OutOfMemory) => Err(NameError::OutOfMemory),
    }
}

/// The image that the input is, if a campaign can offer it. No memory is taken for that.
fn offered(image: Vec<u8>) -> Result<Vec<u8>, NameError>
    ensures image { IfOk result (λ offered. offered.items ≡ image.items) }
    ensures sizes { OnOk result ((1 ≤ length image.items) × (length image.items ≤ max_image)) }
    ensures empty_image { result ≡ Err NameError.EmptyImage → image.items ≡ [] }
    ensures image_too_long { result ≡ Err NameError.ImageTooLong → max_image < length image.items }
    ensures faults { IfErr result (λ e. (e ≡ NameError.EmptyImage) ⊎ (e ≡ NameError.ImageTooLong)) }
{
    if image.is_empty() {
        return Err(NameError::EmptyImage);
    }
    if image.len() > MAX_IMAGE_SIZE as usize {
        return Err(NameError::ImageTooLong);
    }
    Ok(image)
}

/// Writes the line of a name.
fn write_name<W: Write>(writer: &mut W, name: &ImageName) -> Result<(), NameError>
    ensures ok { OnOk result ((spelling : List ℕ) × SpellsName spelling name.now
        × Appends (W.contents writer.old) (W.contents writer.new) (encode_lower spelling ++ codes "\n")) }
    ensures faults { IfErr result (λ e. e ≡ NameError.Output) }
{
    let bytes = name.to_bytes();
    let spelling = bytes.as_slice();
    let line = line_of(spelling);
    let end = 2 * spelling.len();
    writer
        .write_all(&line[..=end])
        .map_err(|_| NameError::Output)
}

/// A line that begins with the digits of a spelling, and a line feed after them.
fn line_of(spelling: &[u8]) -> [u8; DIGITS + 1]
    requires { length spelling.now ≤ MAX_NAME_SIZE }
    ensures { take (2 * length spelling.now + 1) result ≡ encode_lower spelling.now ++ codes "\n" }
{
    let mut line = [0; DIGITS + 1];
    let end = 2 * spelling.len();
    let _ = hex::encode_to_slice(spelling, &mut line[..end]);
    line[end] = b'\n';
    line
}
