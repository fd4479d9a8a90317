//! How a record is written.

ghost use Rattle.std.specs.Prelude.{◌≡◌, ◌<◌, ◌^◌, ◌++◌, IfOk, OnOk, IsErrOf, MatchBool};
ghost use Rattle.std.specs.Int.{w32, to_be_bytes};
ghost use Rattle.fw_names.specs.Name.{IsCampaign, campaign_bytes};
ghost use Rattle.fw_ledger.specs.Entry.{
  source_bytes,
  meters_bytes,
  ending_number,
  IsSource,
  MetersFit,
  HasSpelling,
  NumbersFit,
  entry_bytes,
  Spells,
  opening,
  mark,
  cancelling,
  endings,
};
ghost use Rattle.fw_ledger.specs.View.{source_of, entry_of};

use crate::error::RecordError;
use crate::note_writing::noted_bytes;
use crate::record::{
    CANCELLING, EARLIER, ENDINGS, Ending, Image, MARK, OPENING, Record, WHOLE, are_endings,
};
use fw_names::{CampaignId, MeterId};
use std::alloc::{AllocError, Global};

const MAX_SIZE: usize = 1 << 32;

/// Writes a number in four bytes, high byte first, after what is there.
pub(crate) fn put_number(bytes: &mut Vec<u8>, number: u32) -> Result<(), AllocError>
    ensures ok { OnOk result (bytes.new.items ≡ bytes.old.items ++ to_be_bytes w32 number) }
{
    Ok(bytes.extend_from_slice(&number.to_be_bytes())?)
}

/// Writes a campaign after what is there.
pub(crate) fn put_campaign(bytes: &mut Vec<u8>, campaign: CampaignId) -> Result<(), AllocError>
    ensures ok { OnOk result (bytes.new.items ≡ bytes.old.items ++ campaign_bytes campaign) }
    ensures fits { IsCampaign campaign }
{
    let head = match campaign.head() {
        Some(head) => head.number(),
        None => 0,
    };
    put_number(bytes, head)?;
    put_number(bytes, campaign.serial())
}

/// Writes an image after what is there.
fn put_image(bytes: &mut Vec<u8>, image: Image<'_>) -> Result<(), AllocError>
    requires { IsSource (source_of image) }
    ensures ok { OnOk result (bytes.new.items ≡ bytes.old.items ++ source_bytes (source_of image.entry)) }
{
    match image {
        Image::Whole(image) => {
            bytes.push(WHOLE)?;
            put_number(bytes, image.len() as u32)?;
            Ok(bytes.extend_from_slice(image)?)
        }
        Image::Earlier(serial) => {
            bytes.push(EARLIER)?;
            put_number(bytes, serial)
        }
    }
}

/// Writes the numbers of meters after what is there.
fn put_meters(bytes: &mut Vec<u8>, meters: &[MeterId]) -> Result<(), AllocError>
    ensures ok { OnOk result (bytes.new.items ≡ bytes.old.items ++ meters_bytes meters.now) }
    ensures fit { OnOk result (MetersFit meters.now) }
{
    for meter in meters {
        put_number(bytes, meter.number())?;
    }
    Ok(())
}

/// The number of an ending.
fn number_of(ending: Ending) -> u8
    ensures { result ≡ ending_number ending }
{
    match ending {
        Ending::Done => 1,
        Ending::Failed => 2,
    }
}

impl Record<'_> {
    /// Whether the record has a spelling: its campaign is one that a head end opens, its image has fewer than 4,294,967,296 bytes, and its
    /// numbers are those of endings.
    pub fn has_spelling(&self) -> bool
        ensures { MatchBool result (HasSpelling (entry_of self.now)) (¬ HasSpelling (entry_of self.now)) }
    {
        match self {
            Record::Opening {
                campaign,
                image,
                ..
            } => !campaign.is_factory() && fits(*image),
            Record::Mark { campaign, .. }
            | Record::Cancelling { campaign }
            | Record::Note { campaign, .. } => !campaign.is_factory(),
            Record::Endings { campaign, numbers } => {
                !campaign.is_factory() && are_endings(numbers)
            }
        }
    }

    /// The one spelling of the record. It is judged before memory is taken.
    ///
    /// # Errors
    ///
    /// `BadRecord` if it has none. Otherwise `OutOfMemory` alone.
    pub fn to_bytes(&self, alloc: Global) -> Result<Vec<u8>, RecordError>
        ensures spelled { IfOk result (λ bytes. Spells bytes.items (entry_of self.now)) }
        ensures bad { IsErrOf result RecordError.BadRecord → ¬ HasSpelling (entry_of self.now) }
        ensures memory { IsErrOf result RecordError.OutOfMemory → HasSpelling (entry_of self.now) }
    {
        if !self.has_spelling() {
            return Err(RecordError::BadRecord);
        }
        Ok(self.spelling(alloc)?)
    }

    /// The bytes of a record that has a spelling.
    pub(crate) fn spelling(&self, alloc: Global) -> Result<Vec<u8>, AllocError>
        requires { HasSpelling (entry_of self.now) }
        ensures bytes { IfOk result (λ bytes. bytes.items ≡ entry_bytes (entry_of self.now)) }
        ensures fit { IfOk result (λ _. NumbersFit (entry_of self.now)) }
    {
        match self {
            Record::Opening {
                campaign,
                release,
                image,
                meters,
            } => opening_bytes(alloc, *campaign, *release, *image, meters),
            Record::Mark {
                campaign,
                meter,
                ending,
            } => mark_bytes(alloc, *campaign, *meter, *ending),
            Record::Cancelling { campaign } => cancelling_bytes(alloc, *campaign),
            Record::Endings { campaign, numbers } => endings_bytes(alloc, *campaign, numbers),
            Record::Note { campaign, note } => noted_bytes(alloc, *campaign, *note),
        }
    }
}

fn opening_bytes(
    alloc: Global,
    campaign: CampaignId,
    release: u32,
    image: Image<'_>,
    meters: &[MeterId],
) -> Result<Vec<u8>, AllocError>
    requires { IsSource (source_of image) }
    ensures bytes { IfOk result (λ bytes. bytes.items
        ≡ entry_bytes (opening campaign release (source_of image.entry) meters.now)) }
    ensures fits { IfOk result (λ _. release < 2 ^ 32) }
    ensures meters_fit { IfOk result (λ _. MetersFit meters.now) }
{
    let mut bytes = Vec::new(alloc);
    bytes.push(OPENING)?;
    put_campaign(&mut bytes, campaign)?;
    put_number(&mut bytes, release)?;
    put_image(&mut bytes, image)?;
    put_meters(&mut bytes, meters)?;
    Ok(bytes)
}

fn mark_bytes(
    alloc: Global,
    campaign: CampaignId,
    meter: MeterId,
    ending: Ending,
) -> Result<Vec<u8>, AllocError>
    ensures bytes { IfOk result (λ bytes. bytes.items ≡ entry_bytes (mark campaign meter ending)) }
    ensures fits { IfOk result (λ _. meter < 2 ^ 32) }
{
    let mut bytes = Vec::new(alloc);
    bytes.push(MARK)?;
    put_campaign(&mut bytes, campaign)?;
    put_number(&mut bytes, meter.number())?;
    bytes.push(number_of(ending))?;
    Ok(bytes)
}

fn cancelling_bytes(alloc: Global, campaign: CampaignId) -> Result<Vec<u8>, AllocError>
    ensures { IfOk result (λ bytes. bytes.items ≡ entry_bytes (cancelling campaign)) }
{
    let mut bytes = Vec::new(alloc);
    bytes.push(CANCELLING)?;
    put_campaign(&mut bytes, campaign)?;
    Ok(bytes)
}

fn endings_bytes(alloc: Global, campaign: CampaignId, numbers: &[u8]) -> Result<Vec<u8>, AllocError>
    ensures { IfOk result (λ bytes. bytes.items ≡ entry_bytes (endings campaign numbers.now)) }
{
    let mut bytes = Vec::new(alloc);
    bytes.push(ENDINGS)?;
    put_campaign(&mut bytes, campaign)?;
    bytes.extend_from_slice(numbers)?;
    Ok(bytes)
}

/// Whether the size of an image fits in four bytes.
fn fits(image: Image<'_>) -> bool
    ensures { MatchBool result (IsSource (source_of image.entry)) (¬ IsSource (source_of image.entry)) }
{
    match image {
        Image::Whole(image) => image.len() < MAX_SIZE,
        Image::Earlier(_) => true,
    }
}
