//! Whether a meter would take an image, by what it answered.

ghost use Rattle.std.specs.Prelude.{◌≡◌};
ghost use Rattle.fw_inventory.specs.Verdicts.{
  block_size_by,
  block_size_in,
  is_offered,
  is_too_large,
  name_by,
  name_in,
  room_by,
  verdict_by,
  verdict_of,
};

use fw_blocks::MAX_BLOCKS;
use fw_names::{ImageName, is_risen};
use fw_survey::{Answer, Row};

/// An image that is offered.
#[derive(Clone, Copy)]
pub struct Offer {
    /// Its release, and 0 if it has none.
    pub release: u32,
    /// How many bytes it has.
    pub size: u64,
    /// Its SHA-256.
    pub digest: [u8; 32],
}

/// What a meter would do with an image that is offered, by what it answered. What its store has room for can't be asked by GET.
#[derive(Clone, Copy)]
pub enum Verdict {
    /// It isn't known which image it runs.
    Unknown,
    /// It runs this image, of this release.
    Runs,
    /// It refuses an initiate, since it runs a higher release.
    Below { running: u32 },
    /// It refuses an initiate, since these are more blocks than an image may have, of the size that its blocks have.
    TooManyBlocks { block_size: u32 },
    /// It takes an initiate, by all that it answered.
    Takes,
}

/// What a meter would do with an image that is offered.
pub fn verdict_of(row: &Row, offer: &Offer) -> Verdict
    ensures { result ≡ verdict_of row.now offer.now }
{
    match name_in(&row.active.answer) {
        Some(name) => verdict_by(&name, block_size_in(row.block_size.answer), offer),
        None => Verdict::Unknown,
    }
}

/// What a meter would do that runs the image of this name, and whose blocks have this size, if it is known.
fn verdict_by(name: &ImageName, block_size: Option<u32>, offer: &Offer) -> Verdict
    ensures { result ≡ verdict_by name.now block_size offer.now }
{
    if is_offered(name, offer) {
        return Verdict::Runs;
    }
    if !is_risen(name.release, offer.release) {
        return Verdict::Below {
            running: name.release,
        };
    }
    room_by(block_size, offer.size)
}

/// What a meter would do by how many blocks an image of this size has there, if the size of its blocks is known.
fn room_by(block_size: Option<u32>, size: u64) -> Verdict
    ensures { result ≡ room_by block_size size }
{
    let Some(block_size) = block_size else {
        return Verdict::Takes;
    };
    if is_too_large(block_size, size) {
        Verdict::TooManyBlocks { block_size }
    } else {
        Verdict::Takes
    }
}

/// Whether this is the name of the image that is offered, whatever campaign it came by.
fn is_offered(name: &ImageName, offer: &Offer) -> bool
    ensures { result ≡ is_offered name.now offer.now }
{
    name.release == offer.release && name.digest == offer.digest
}

/// Whether an image of this size has more blocks of this size than an image may have.
fn is_too_large(block_size: u32, size: u64) -> bool
    ensures { result ≡ is_too_large block_size size }
{
    u64::from(MAX_BLOCKS) * u64::from(block_size) < size
}

/// The name that an answer is, if it is one.
pub(crate) fn name_in(answer: &Option<Answer>) -> Option<ImageName>
    ensures { result ≡ name_in answer.now }
{
    match answer {
        Some(answer) => name_by(answer),
        None => None,
    }
}

/// The same of an answer.
fn name_by(answer: &Answer) -> Option<ImageName>
    ensures { result ≡ name_by answer.now }
{
    match answer {
        Answer::Active(name) => Some(*name),
        _ => None,
    }
}

/// The block size that an answer is, if it is one.
fn block_size_in(answer: Option<Answer>) -> Option<u32>
    ensures { result ≡ block_size_in answer }
{
    match answer {
        Some(answer) => block_size_by(answer),
        None => None,
    }
}

/// The same of an answer.
fn block_size_by(answer: Answer) -> Option<u32>
    ensures { result ≡ block_size_by answer }
{
    match answer {
        Answer::BlockSize(size) => Some(size),
        _ => None,
    }
}
