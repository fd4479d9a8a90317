//! How a note is written.

ghost use Rattle.std.specs.Prelude.{◌≡◌, ◌<◌, ◌^◌, ◌++◌, IfOk, OnOk};
ghost use Rattle.std.specs.Int.{w64, to_be_bytes};
ghost use Rattle.fw_ledger.specs.Note.{
  phase_number,
  answer_bytes,
  reason_bytes,
  end_bytes,
  note_bytes,
  AnswerFits,
  ReasonFits,
  EndFits,
  NoteFits,
};
ghost use Rattle.fw_ledger.specs.Entry.{entry_bytes, note as noted};

use crate::record::{
    ACTIVE, BITS, CODE, ENDED, GIVEN_UP, IMAGE, NO_IMAGE, NOTE, NUMBER, Note, OPENED, SILENT,
    STATUS,
};
use crate::writing::{put_campaign, put_number};
use fw_book::{Answer, End, Phase, Reason};
use fw_names::CampaignId;
use std::alloc::{AllocError, Global};

/// Writes a number in eight bytes, high byte first, after what is there.
fn put_long(bytes: &mut Vec<u8>, number: u64) -> Result<(), AllocError>
    ensures ok { OnOk result (bytes.new.items ≡ bytes.old.items ++ to_be_bytes w64 number) }
    ensures fits { number < 2 ^ 64 }
{
    Ok(bytes.extend_from_slice(&number.to_be_bytes())?)
}

/// The number of a phase.
fn number_of(phase: Phase) -> u8
    ensures { result ≡ phase_number phase }
{
    match phase {
        Phase::Size => 1,
        Phase::Enable => 2,
        Phase::Start => 3,
        Phase::Blocks => 4,
        Phase::Check => 5,
        Phase::Gaps => 6,
        Phase::Verify => 7,
        Phase::Poll => 8,
        Phase::Info => 9,
        Phase::Activate => 10,
        Phase::Confirm => 11,
        Phase::Done => 12,
        Phase::Failed => 13,
    }
}

/// Writes which image a meter has to activate after what is there.
fn put_info(bytes: &mut Vec<u8>, told: Option<CampaignId>) -> Result<(), AllocError>
    ensures ok { OnOk result (bytes.new.items ≡ bytes.old.items ++ answer_bytes (Answer.Info told)) }
    ensures fits { OnOk result (AnswerFits (Answer.Info told)) }
{
    let Some(campaign) = told else {
        return Ok(bytes.push(NO_IMAGE)?);
    };
    bytes.push(IMAGE)?;
    put_campaign(bytes, campaign)
}

/// Writes what ended a row after what is there.
fn put_answer(bytes: &mut Vec<u8>, answer: Answer) -> Result<(), AllocError>
    ensures ok { OnOk result (bytes.new.items ≡ bytes.old.items ++ answer_bytes answer) }
    ensures fits { OnOk result (AnswerFits answer) }
{
    match answer {
        Answer::Number(number) => {
            bytes.push(NUMBER)?;
            put_number(bytes, number)
        }
        Answer::Bits(count) => {
            bytes.push(BITS)?;
            put_long(bytes, count as u64)
        }
        Answer::Status(status) => {
            bytes.push(STATUS)?;
            Ok(bytes.push(status)?)
        }
        Answer::Info(told) => put_info(bytes, told),
        Answer::Active(campaign) => {
            bytes.push(ACTIVE)?;
            put_campaign(bytes, campaign)
        }
        Answer::Code(code) => {
            bytes.push(CODE)?;
            Ok(bytes.push(code)?)
        }
        Answer::Silent => Ok(bytes.push(SILENT)?),
        Answer::GivenUp => Ok(bytes.push(GIVEN_UP)?),
    }
}

/// Writes why a row failed after what is there, and nothing if that isn't told.
fn put_reason(bytes: &mut Vec<u8>, reason: Option<Reason>) -> Result<(), AllocError>
    ensures ok { OnOk result (bytes.new.items ≡ bytes.old.items ++ reason_bytes reason) }
    ensures fits { OnOk result (ReasonFits reason) }
{
    match reason {
        Some(why) => {
            bytes.push(number_of(why.phase))?;
            put_answer(bytes, why.answer)
        }
        None => Ok(()),
    }
}

/// Writes how a row ended after what is there.
fn put_end(bytes: &mut Vec<u8>, end: End) -> Result<(), AllocError>
    ensures ok { OnOk result (bytes.new.items ≡ bytes.old.items ++ end_bytes end) }
    ensures fits { OnOk result (EndFits end) }
{
    put_long(bytes, end.at)?;
    put_reason(bytes, end.reason)
}

/// Writes what is noted after what is there.
fn put_note(bytes: &mut Vec<u8>, note: Note) -> Result<(), AllocError>
    ensures ok { OnOk result (bytes.new.items ≡ bytes.old.items ++ note_bytes note) }
    ensures fits { OnOk result (NoteFits note) }
{
    match note {
        Note::Opened(at) => {
            bytes.push(OPENED)?;
            put_long(bytes, at)
        }
        Note::Ended(meter, end) => {
            bytes.push(ENDED)?;
            put_number(bytes, meter.number())?;
            put_end(bytes, end)
        }
    }
}

/// The bytes of a note of a campaign.
pub(crate) fn noted_bytes(
    alloc: Global,
    campaign: CampaignId,
    note: Note,
) -> Result<Vec<u8>, AllocError>
    ensures bytes { IfOk result (λ bytes. bytes.items ≡ entry_bytes (noted campaign note)) }
    ensures fits { IfOk result (λ _. NoteFits note) }
{
    let mut bytes = Vec::new(alloc);
    bytes.push(NOTE)?;
    put_campaign(&mut bytes, campaign)?;
    put_note(&mut bytes, note)?;
    Ok(bytes)
}
