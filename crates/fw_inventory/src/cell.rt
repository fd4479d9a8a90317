//! The cells of a report.

ghost use Rattle.std.specs.Prelude.{◌≡◌, ◌++◌, decimal, OnOk, string_bytes};
ghost use Rattle.hex.specs.Hex.{encode_lower};
ghost use Rattle.fw_inventory.specs.Cells.{
  answer_cell,
  answered_cell,
  campaign_cell,
  cell_of,
  digest_cell,
  digest_front_cell,
  head_cell,
  number_cell_if,
  offer_cell,
  release_cell,
  state_word,
  verdict_words,
  yes_or_no,
};

use crate::verdict::{Offer, Verdict, name_in, verdict_of};
use fw_names::CampaignId;
use fw_survey::{Answer, Row};
use std::alloc::{AllocError, Global};

/// The bytes of a digest that a table shows.
const DIGEST_FRONT: usize = 4;

/// A column of a report.
#[derive(Clone, Copy)]
pub(crate) enum Column {
    /// The meter.
    Meter,
    /// Whether it answered.
    State,
    /// The head end whose campaign offered the image that it runs, and 0 for the one that it was made with.
    Head,
    /// The serial number of that campaign, or 0.
    Campaign,
    /// The release of the image, and 0 if it has none.
    Release,
    /// Its SHA-256.
    Digest,
    /// The first digits of that, which tell images of a fleet apart.
    DigestFront,
    /// image_transfer_status.
    Status,
    /// image_transfer_enabled.
    Enabled,
    /// image_block_size.
    BlockSize,
    /// How long its first answer took, in microseconds.
    RoundTrip,
    /// What it would do with the image that is offered.
    Offer,
}

/// Appends a cell of a meter.
pub(crate) fn append_cell(
    alloc: Global,
    text: &mut String,
    column: Column,
    row: &Row,
    offer: Option<Offer>,
) -> Result<(), AllocError>
    ensures { OnOk result (string_bytes text.new ≡ string_bytes text.old ++ cell_of column row.now offer) }
{
    match column {
        Column::Meter => append_number(text, row.meter.number()),
        Column::State => text.push_str(state_word(row)),
        Column::Head => append_head(text, row.active.answer),
        Column::Campaign => append_campaign(text, row.active.answer),
        Column::Release => append_release(text, row.active.answer),
        Column::Digest => append_digest(alloc, text, row.active.answer),
        Column::DigestFront => append_digest_front(alloc, text, row.active.answer),
        Column::Status => append_answer(text, row.status.answer),
        Column::Enabled => append_answer(text, row.enabled.answer),
        Column::BlockSize => append_answer(text, row.block_size.answer),
        Column::RoundTrip => append_number_if(text, row.active.trip),
        Column::Offer => append_offer(text, row, offer),
    }
}

/// Whether a meter answered nothing, all that it was asked, or a part of it.
pub(crate) fn state_word(row: &Row) -> &'static str
    ensures { result.now ≡ state_word row.now }
{
    if row.active.answer.is_none() {
        "silent"
    } else if row.status.answer.is_none() {
        "partly"
    } else {
        "heard"
    }
}

/// Appends a number.
fn append_number(text: &mut String, number: u32) -> Result<(), AllocError>
    ensures { OnOk result (string_bytes text.new ≡ string_bytes text.old ++ decimal number) }
{
    write!(text, "{number}")
}

/// Appends a number, if there is one.
fn append_number_if(text: &mut String, number: Option<u64>) -> Result<(), AllocError>
    ensures { OnOk result (string_bytes text.new ≡ string_bytes text.old ++ number_cell_if number) }
{
    match number {
        Some(number) => write!(text, "{number}"),
        None => Ok(()),
    }
}

/// Appends the number of the head end of the image that a meter runs, or what else it answered.
fn append_head(text: &mut String, answer: Option<Answer>) -> Result<(), AllocError>
    ensures { OnOk result (string_bytes text.new ≡ string_bytes text.old ++ head_cell answer) }
{
    match name_in(&answer) {
        Some(name) => append_number(text, head_number(name.campaign)),
        None => append_answer(text, answer),
    }
}

/// Appends the serial number of the campaign of the image that a meter runs, if it is known.
fn append_campaign(text: &mut String, answer: Option<Answer>) -> Result<(), AllocError>
    ensures { OnOk result (string_bytes text.new ≡ string_bytes text.old ++ campaign_cell answer) }
{
    match name_in(&answer) {
        Some(name) => append_number(text, name.campaign.serial()),
        None => Ok(()),
    }
}

/// Appends the release of the image that a meter runs, if it is known.
fn append_release(text: &mut String, answer: Option<Answer>) -> Result<(), AllocError>
    ensures { OnOk result (string_bytes text.new ≡ string_bytes text.old ++ release_cell answer) }
{
    match name_in(&answer) {
        Some(name) => append_number(text, name.release),
        None => Ok(()),
    }
}

/// Appends the digest of the image that a meter runs, if it is known.
fn append_digest(alloc: Global, text: &mut String, answer: Option<Answer>) -> Result<(), AllocError>
    ensures { OnOk result (string_bytes text.new ≡ string_bytes text.old ++ digest_cell answer) }
{
    match name_in(&answer) {
        Some(name) => append_hexadecimal(alloc, text, &name.digest),
        None => Ok(()),
    }
}

/// Appends the first digits of the digest of the image that a meter runs, if it is known.
fn append_digest_front(
    alloc: Global,
    text: &mut String,
    answer: Option<Answer>,
) -> Result<(), AllocError>
    ensures { OnOk result (string_bytes text.new ≡ string_bytes text.old ++ digest_front_cell answer) }
{
    match name_in(&answer) {
        Some(name) => append_hexadecimal(alloc, text, &name.digest[..DIGEST_FRONT]),
        None => Ok(()),
    }
}

/// Appends bytes as hexadecimal digits.
fn append_hexadecimal(alloc: Global, text: &mut String, bytes: &[u8]) -> Result<(), AllocError>
    ensures { OnOk result (string_bytes text.new ≡ string_bytes text.old ++ encode_lower bytes.now) }
{
    let digits = hex::encode(alloc, bytes)?;
    write!(text, "{digits}")
}

/// The head end's number, and 0 for the factory's.
pub(crate) fn head_number(campaign: CampaignId) -> u32
    ensures { result ≡ campaign.head }
{
    match campaign.head() {
        Some(head) => head.number(),
        None => 0,
    }
}

/// Appends what a meter answered, if it did.
fn append_answer(text: &mut String, answer: Option<Answer>) -> Result<(), AllocError>
    ensures { OnOk result (string_bytes text.new ≡ string_bytes text.old ++ answer_cell answer) }
{
    match answer {
        Some(answer) => append_answered(text, answer),
        None => Ok(()),
    }
}

/// Appends an answer: a number or whether it is so, the code that refused the question, or that it is something else.
fn append_answered(text: &mut String, answer: Answer) -> Result<(), AllocError>
    ensures { OnOk result (string_bytes text.new ≡ string_bytes text.old ++ answered_cell answer) }
{
    match answer {
        Answer::Active(_) => Ok(()),
        Answer::BlockSize(size) => write!(text, "{size}"),
        Answer::Enabled(enabled) => text.push_str(yes_or_no(enabled)),
        Answer::Status(status) => write!(text, "{status}"),
        Answer::Refused(code) => write!(text, "code {code}"),
        Answer::Other => text.push_str("other"),
    }
}

/// The word for whether it is so.
fn yes_or_no(is: bool) -> &'static str
    ensures { result.now ≡ yes_or_no is }
{
    if is { "yes" } else { "no" }
}

/// Appends what a meter would do with an image, if one is offered.
fn append_offer(text: &mut String, row: &Row, offer: Option<Offer>) -> Result<(), AllocError>
    ensures { OnOk result (string_bytes text.new ≡ string_bytes text.old ++ offer_cell row.now offer) }
{
    match offer {
        Some(offer) => append_verdict(text, verdict_of(row, &offer)),
        None => Ok(()),
    }
}

/// Appends what a meter would do with an image.
pub(crate) fn append_verdict(text: &mut String, verdict: Verdict) -> Result<(), AllocError>
    ensures { OnOk result (string_bytes text.new ≡ string_bytes text.old ++ verdict_words verdict) }
{
    match verdict {
        Verdict::Unknown => text.push_str("unknown"),
        Verdict::Runs => text.push_str("runs"),
        Verdict::Below { running } => write!(text, "refuses below {running}"),
        Verdict::TooManyBlocks { block_size } => write!(text, "refuses blocks of {block_size}"),
        Verdict::Takes => text.push_str("takes"),
    }
}
