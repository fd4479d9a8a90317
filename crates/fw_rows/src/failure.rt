//! The words for why a row failed: the phase that it was in, and what its meter answered, or that no answer ended it.

ghost use Rattle.std.specs.Prelude.{◌≡◌, ◌++◌, OnOk, string_bytes};
ghost use Rattle.fw_rows.specs.Failure.{answer_words, campaign_words, code_word, failure_words, phase_word, status_word, why_words};

use crate::row::head_number;
use fw_apdu::cosem;
use fw_book::{Answer, Phase, Reason};
use fw_names::CampaignId;
use std::alloc::AllocError;

/// The code object-unavailable.
const OBJECT_UNAVAILABLE: u8 = 11;

/// The code scope-of-access-violated.
const SCOPE_OF_ACCESS_VIOLATED: u8 = 13;

/// The code data-block-unavailable.
const DATA_BLOCK_UNAVAILABLE: u8 = 14;

/// Appends why a row failed, after a colon, if that is known.
pub fn append_why(text: &mut String, reason: Option<Reason>) -> Result<(), AllocError>
    ensures { OnOk result (string_bytes text.new ≡ string_bytes text.old ++ why_words reason) }
{
    let Some(reason) = reason else {
        return Ok(());
    };
    text.push_str(": ")?;
    append_failure(text, reason)
}

/// Appends why a row failed: the phase, and what ended it.
pub fn append_failure(text: &mut String, reason: Reason) -> Result<(), AllocError>
    ensures { OnOk result (string_bytes text.new ≡ string_bytes text.old ++ failure_words reason) }
{
    text.push_str(phase_word(reason.phase))?;
    append_answer(text, reason.answer)
}

/// Appends what ended a row, after a space.
fn append_answer(text: &mut String, answer: Answer) -> Result<(), AllocError>
    ensures { OnOk result (string_bytes text.new ≡ string_bytes text.old ++ answer_words answer) }
{
    match answer {
        Answer::Number(number) => write!(text, " number {number}"),
        Answer::Bits(count) => write!(text, " bits {count}"),
        Answer::Status(status) => append_status(text, status),
        Answer::Info(told) => append_info(text, told),
        Answer::Active(campaign) => append_campaign(text, " runs", campaign),
        Answer::Code(code) => append_code(text, code),
        Answer::Silent => text.push_str(" silent"),
        Answer::GivenUp => text.push_str(" given-up"),
    }
}

/// Appends the campaign of the image that a meter has to activate, if that has a name.
fn append_info(text: &mut String, told: Option<CampaignId>) -> Result<(), AllocError>
    ensures { OnOk result (string_bytes text.new ≡ string_bytes text.old ++ answer_words (Answer.Info told)) }
{
    match told {
        Some(campaign) => append_campaign(text, " image", campaign),
        None => text.push_str(" no image"),
    }
}

/// Appends an image_transfer_status, with its words.
fn append_status(text: &mut String, status: u8) -> Result<(), AllocError>
    ensures { OnOk result (string_bytes text.new ≡ string_bytes text.old ++ answer_words (Answer.Status status)) }
{
    let word = status_word(status);
    write!(text, " status {status}{word}")
}

/// Appends a Data-Access-Result or an Action-Result, with its word.
fn append_code(text: &mut String, code: u8) -> Result<(), AllocError>
    ensures { OnOk result (string_bytes text.new ≡ string_bytes text.old ++ answer_words (Answer.Code code)) }
{
    let word = code_word(code);
    write!(text, " code {code}{word}")
}

/// Appends a campaign after a word.
fn append_campaign(text: &mut String, word: &str, campaign: CampaignId) -> Result<(), AllocError>
    ensures { OnOk result (string_bytes text.new ≡ string_bytes text.old ++ campaign_words word.now campaign) }
{
    let (head, serial) = (head_number(campaign), campaign.serial());
    write!(text, "{word} {head} {serial}")
}

/// The word for a phase of a row.
fn phase_word(phase: Phase) -> &'static str
    ensures { result.now ≡ phase_word phase }
{
    match phase {
        Phase::Size => "size",
        Phase::Enable => "enable",
        Phase::Start => "start",
        Phase::Blocks => "blocks",
        Phase::Check => "check",
        Phase::Gaps => "gaps",
        Phase::Verify => "verify",
        Phase::Poll => "poll",
        Phase::Info => "info",
        Phase::Activate => "activate",
        Phase::Confirm => "confirm",
        Phase::Done => "done",
        Phase::Failed => "failed",
    }
}

/// The standard's word for a code that is both a Data-Access-Result's and an Action-Result's (IEC 62056-5-3), after a space. Nothing for any
/// other.
fn code_word(code: u8) -> &'static str
    ensures { result.now ≡ code_word code }
{
    match code {
        cosem::SUCCESS => " success",
        cosem::HARDWARE_FAULT => " hardware-fault",
        cosem::TEMPORARY_FAILURE => " temporary-failure",
        cosem::READ_WRITE_DENIED => " read-write-denied",
        cosem::OBJECT_UNDEFINED => " object-undefined",
        cosem::OBJECT_CLASS_INCONSISTENT => " object-class-inconsistent",
        OBJECT_UNAVAILABLE => " object-unavailable",
        cosem::TYPE_UNMATCHED => " type-unmatched",
        SCOPE_OF_ACCESS_VIOLATED => " scope-of-access-violated",
        DATA_BLOCK_UNAVAILABLE => " data-block-unavailable",
        cosem::OTHER_REASON => " other-reason",
        _ => "",
    }
}

/// The standard's words for an image_transfer_status (IEC 62056-6-2, Image transfer), after a space. Nothing for a number that is none.
fn status_word(status: u8) -> &'static str
    ensures { result.now ≡ status_word status }
{
    match status {
        cosem::TRANSFER_NOT_INITIATED => " transfer-not-initiated",
        cosem::TRANSFER_INITIATED => " transfer-initiated",
        cosem::VERIFICATION_INITIATED => " verification-initiated",
        cosem::VERIFICATION_SUCCESSFUL => " verification-successful",
        cosem::VERIFICATION_FAILED => " verification-failed",
        cosem::ACTIVATION_INITIATED => " activation-initiated",
        cosem::ACTIVATION_SUCCESSFUL => " activation-successful",
        cosem::ACTIVATION_FAILED => " activation-failed",
        _ => "",
    }
}
