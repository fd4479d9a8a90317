//! How a record is read, from left to right.

ghost use Rattle.std.specs.Prelude.{
  ◌≡◌,
  ◌≢◌,
  ◌<◌,
  ◌%◌,
  ◌^◌,
  ◌∷◌,
  ◌++◌,
  [],
  ℕ,
  List,
  length,
  IfOk,
  IfErr,
  IfSome,
  IfNone,
  IsErrOf,
  MatchOption,
};
ghost use Rattle.std.specs.Int.{w32, to_be_bytes};
ghost use Rattle.fw_names.specs.Name.{Campaign, IsOpened, campaign_bytes};
ghost use Rattle.fw_ledger.specs.declared.record.Ending.{Ending};
ghost use Rattle.fw_ledger.specs.Entry.{
  Source,
  source_bytes,
  meters_bytes,
  opening_front,
  ending_number,
  IsSource,
  MetersFit,
  Spells,
  NoRecord,
  MayTakeMemory,
  NoOpening,
};
ghost use Rattle.fw_ledger.specs.View.{source_of, entry_of};

use crate::error::RecordError;
use crate::note_reading::note_at;
use crate::record::{
    CANCELLING, EARLIER, ENDINGS, Ending, Image, MARK, NOTE, OPENING, Record, WHOLE, are_endings,
};
use fw_names::{CampaignId, HeadId, MeterId};
use std::alloc::{AllocError, Global};

/// A number of four bytes, high byte first, and what follows it.
pub(crate) fn u32_at(bytes: &[u8]) -> Option<(u32, &[u8])>
    ensures found { IfSome result (λ r. bytes.now ≡ to_be_bytes w32 r.0 ++ r.1.now) }
    ensures fits { IfSome result (λ r. r.0 < 2 ^ 32) }
    ensures none { IfNone result (length bytes.now < 4) }
{
    let [a, b, c, d, rest @ ..] = bytes else {
        return None;
    };
    Some((u32::from_be_bytes([*a, *b, *c, *d]), rest))
}

/// A campaign that a head end opens, and what follows it.
fn campaign_at(bytes: &[u8]) -> Option<(CampaignId, &[u8])>
    ensures found { IfSome result (λ r. bytes.now ≡ campaign_bytes r.0 ++ r.1.now) }
    ensures opened { IfSome result (λ r. IsOpened r.0) }
    ensures none { IfNone result ((campaign : Campaign) (rest : List ℕ)
        → IsOpened campaign → ¬ (bytes.now ≡ campaign_bytes campaign ++ rest)) }
{
    let (head, rest) = u32_at(bytes)?;
    let (serial, rest) = u32_at(rest)?;
    let head = HeadId::new(head)?;
    let campaign = CampaignId::new(head, serial)?;
    Some((campaign, rest))
}

/// The image of an opening, and what follows it.
fn image_at(bytes: &[u8]) -> Option<(Image<'_>, &[u8])>
    ensures found { IfSome result (λ r. bytes.now ≡ source_bytes (source_of r.0) ++ r.1.now) }
    ensures fits { IfSome result (λ r. IsSource (source_of r.0)) }
    ensures none { IfNone result ((source : Source) (rest : List ℕ)
        → IsSource source → ¬ (bytes.now ≡ source_bytes source ++ rest)) }
{
    match bytes {
        [WHOLE, rest @ ..] => {
            let (image, rest) = whole_at(rest)?;
            Some((Image::Whole(image), rest))
        }
        [EARLIER, rest @ ..] => {
            let (serial, rest) = u32_at(rest)?;
            Some((Image::Earlier(serial), rest))
        }
        _ => None,
    }
}

/// An image after its size, and what follows it.
fn whole_at(bytes: &[u8]) -> Option<(&[u8], &[u8])>
    ensures found { IfSome result (λ r. bytes.now ≡ (to_be_bytes w32 (length r.0.now) ++ r.0.now) ++ r.1.now) }
    ensures fits { IfSome result (λ r. length r.0.now < 2 ^ 32) }
    ensures none { IfNone result ((image rest : List ℕ) → length image < 2 ^ 32
        → ¬ (bytes.now ≡ (to_be_bytes w32 (length image) ++ image) ++ rest)) }
{
    let (size, rest) = u32_at(bytes)?;
    let size = size as usize;
    if size > rest.len() {
        return None;
    }
    Some(rest.split_at(size))
}

/// What an opening has before its meters, and the bytes of those.
#[derive(Clone, Copy)]
struct Front<'a> {
    campaign: CampaignId,
    release: u32,
    image: Image<'a>,
    meters: &'a [u8],
}

/// The fields of an opening, without its first byte, and what follows them.
fn fields_at(bytes: &[u8]) -> Option<Front<'_>>
    ensures found { IfSome result (λ r. bytes.now ≡ opening_front r.campaign r.release (source_of r.image) ++ r.meters.now) }
    ensures opened { IfSome result (λ r. IsOpened r.campaign) }
    ensures fits { IfSome result (λ r. r.release < 2 ^ 32) }
    ensures is_source { IfSome result (λ r. IsSource (source_of r.image)) }
    ensures none { IfNone result ((campaign : Campaign) (release : ℕ) (source : Source) (rest : List ℕ)
        → IsOpened campaign → release < 2 ^ 32 → IsSource source
        → ¬ (bytes.now ≡ opening_front campaign release source ++ rest)) }
{
    let Some((campaign, rest)) = campaign_at(bytes) else {
        return None;
    };
    let (release, rest) = u32_at(rest)?;
    let Some((image, meters)) = image_at(rest) else {
        return None;
    };
    Some(Front {
        campaign,
        release,
        image,
        meters,
    })
}

/// An opening, without its first byte. Its meters have four bytes each.
fn front_at(bytes: &[u8]) -> Option<Front<'_>>
    ensures found { IfSome result (λ r. bytes.now ≡ opening_front r.campaign r.release (source_of r.image) ++ r.meters.now) }
    ensures opened { IfSome result (λ r. IsOpened r.campaign) }
    ensures fits { IfSome result (λ r. r.release < 2 ^ 32) }
    ensures is_source { IfSome result (λ r. IsSource (source_of r.image)) }
    ensures fours { IfSome result (λ r. length r.meters.now % 4 ≡ 0) }
    ensures none { IfNone result (NoOpening bytes.now) }
{
    let Some(front) = fields_at(bytes) else {
        return None;
    };
    if front.meters.len() % 4 != 0 {
        return None;
    }
    Some(front)
}

/// A meter's number, and what follows it.
pub(crate) fn meter_at(bytes: &[u8]) -> Option<(MeterId, &[u8])>
    ensures found { IfSome result (λ r. bytes.now ≡ to_be_bytes w32 r.0 ++ r.1.now) }
    ensures fits { IfSome result (λ r. r.0 < 2 ^ 32) }
    ensures none { IfNone result (length bytes.now < 4) }
{
    let (number, rest) = u32_at(bytes)?;
    Some((MeterId::new(number)?, rest))
}

/// The meters whose numbers these bytes are.
fn meters_of(alloc: Global, bytes: &[u8]) -> Result<Vec<MeterId>, AllocError>
    requires { length bytes.now % 4 ≡ 0 }
    ensures found { IfOk result (λ meters. bytes.now ≡ meters_bytes meters.items) }
    ensures fit { IfOk result (λ meters. MetersFit meters.items) }
    ensures some { IfErr result (λ _. bytes.now ≢ []) }
{
    let mut meters = Vec::new(alloc);
    let mut rest = bytes;
    while let Some((meter, after)) = meter_at(rest) {
        meters.push(meter)?;
        rest = after;
    }
    Ok(meters)
}

/// An opening, without its first byte.
fn opening_of(alloc: Global, bytes: &[u8]) -> Result<Record<'_>, RecordError>
    ensures found { IfOk result (λ r. Spells (1 ∷ bytes.now) (entry_of r)) }
    ensures bad { IsErrOf result RecordError.BadRecord → NoRecord (1 ∷ bytes.now) }
    ensures memory { IsErrOf result RecordError.OutOfMemory → MayTakeMemory (1 ∷ bytes.now) }
{
    let Some(front) = front_at(bytes) else {
        return Err(RecordError::BadRecord);
    };
    let meters = meters_of(alloc, front.meters)?;
    Ok(Record::Opening {
        campaign: front.campaign,
        release: front.release,
        image: front.image,
        meters,
    })
}

/// How a row ended, by its number.
pub(crate) fn ending_of(number: u8) -> Option<Ending>
    ensures { MatchOption result ((ending : Ending) → ¬ (number ≡ ending_number ending)) (λ ending. number ≡ ending_number ending) }
{
    match number {
        1 => Some(Ending::Done),
        2 => Some(Ending::Failed),
        _ => None,
    }
}

/// A mark, without its first byte.
fn mark_of(bytes: &[u8]) -> Option<Record<'_>>
    ensures found { IfSome result (λ r. Spells (2 ∷ bytes.now) (entry_of r)) }
    ensures none { IfNone result (NoRecord (2 ∷ bytes.now)) }
{
    let Some((campaign, rest)) = campaign_at(bytes) else {
        return None;
    };
    let Some((meter, rest)) = meter_at(rest) else {
        return None;
    };
    let [number] = rest else {
        return None;
    };
    let ending = ending_of(*number)?;
    Some(Record::Mark {
        campaign,
        meter,
        ending,
    })
}

/// A cancelling, without its first byte.
fn cancelling_of(bytes: &[u8]) -> Option<Record<'_>>
    ensures found { IfSome result (λ r. Spells (3 ∷ bytes.now) (entry_of r)) }
    ensures none { IfNone result (NoRecord (3 ∷ bytes.now)) }
{
    let Some((campaign, rest)) = campaign_at(bytes) else {
        return None;
    };
    if !rest.is_empty() {
        return None;
    }
    Some(Record::Cancelling { campaign })
}

/// The endings of rows, without their first byte.
fn endings_of(bytes: &[u8]) -> Option<Record<'_>>
    ensures found { IfSome result (λ r. Spells (4 ∷ bytes.now) (entry_of r)) }
    ensures none { IfNone result (NoRecord (4 ∷ bytes.now)) }
{
    let Some((campaign, numbers)) = campaign_at(bytes) else {
        return None;
    };
    if !are_endings(numbers) {
        return None;
    }
    Some(Record::Endings { campaign, numbers })
}

/// A note, without its first byte.
fn note_of(bytes: &[u8]) -> Option<Record<'_>>
    ensures found { IfSome result (λ r. Spells (5 ∷ bytes.now) (entry_of r)) }
    ensures none { IfNone result (NoRecord (5 ∷ bytes.now)) }
{
    let Some((campaign, rest)) = campaign_at(bytes) else {
        return None;
    };
    let note = note_at(rest)?;
    Some(Record::Note { campaign, note })
}

/// The record that these bytes spell. All of it except the numbers of its meters is judged before memory is taken.
///
/// # Errors
///
/// `BadRecord` if they spell none. Otherwise `OutOfMemory` alone, and only for the meters of an opening.
pub fn read_record(alloc: Global, bytes: &[u8]) -> Result<Record<'_>, RecordError>
    ensures found { IfOk result (λ r. Spells bytes.now (entry_of r)) }
    ensures bad { IsErrOf result RecordError.BadRecord → NoRecord bytes.now }
    ensures memory { IsErrOf result RecordError.OutOfMemory → MayTakeMemory bytes.now }
{
    match bytes {
        [OPENING, rest @ ..] => opening_of(alloc, rest),
        [MARK, rest @ ..] => mark_of(rest).ok_or(RecordError::BadRecord),
        [CANCELLING, rest @ ..] => cancelling_of(rest).ok_or(RecordError::BadRecord),
        [ENDINGS, rest @ ..] => endings_of(rest).ok_or(RecordError::BadRecord),
        [NOTE, rest @ ..] => note_of(rest).ok_or(RecordError::BadRecord),
        _ => Err(RecordError::BadRecord),
    }
}
