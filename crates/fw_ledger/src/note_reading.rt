//! How a note is read, from left to right.

ghost use Rattle.std.specs.Prelude.{◌≡◌, ◌<◌, ◌^◌, ◌++◌, ℕ, List, length, IfSome, IfNone, MatchOption};
ghost use Rattle.std.specs.Int.{w32, w64, to_be_bytes};
ghost use Rattle.fw_names.specs.Name.{Campaign, IsCampaign, campaign_bytes};
ghost use Rattle.fw_book.specs.declared.notes.Answer.{Answer};
ghost use Rattle.fw_book.specs.declared.notes.End.{End};
ghost use Rattle.fw_book.specs.declared.phase.Phase.{Phase};
ghost use Rattle.fw_ledger.specs.declared.record.Note.{Note};
ghost use Rattle.fw_ledger.specs.Note.{
  phase_number,
  answer_bytes,
  end_bytes,
  note_bytes,
  AnswerFits,
  EndFits,
  NoteFits,
};

use crate::reading::{meter_at, u32_at};
use crate::record::{
    ACTIVE, BITS, CODE, ENDED, GIVEN_UP, IMAGE, NO_IMAGE, NUMBER, Note, OPENED, SILENT, STATUS,
};
use fw_book::{Answer, End, Phase, Reason};
use fw_names::{CampaignId, HeadId};

/// A number of eight bytes, high byte first, and what follows it.
fn u64_at(bytes: &[u8]) -> Option<(u64, &[u8])>
    ensures found { IfSome result (λ r. bytes.now ≡ to_be_bytes w64 r.0 ++ r.1.now) }
    ensures fits { IfSome result (λ r. r.0 < 2 ^ 64) }
    ensures none { IfNone result (length bytes.now < 8) }
{
    let [a, b, c, d, e, f, g, h, rest @ ..] = bytes else {
        return None;
    };
    Some((u64::from_be_bytes([*a, *b, *c, *d, *e, *f, *g, *h]), rest))
}

/// A number of eight bytes, and nothing more.
fn last_u64(bytes: &[u8]) -> Option<u64>
    ensures found { IfSome result (λ number. bytes.now ≡ to_be_bytes w64 number) }
    ensures fits { IfSome result (λ number. number < 2 ^ 64) }
    ensures none { IfNone result ((number : ℕ) → ¬ (bytes.now ≡ to_be_bytes w64 number)) }
{
    let (number, rest) = u64_at(bytes)?;
    if rest.is_empty() { Some(number) } else { None }
}

/// A number of four bytes, and nothing more.
fn last_u32(bytes: &[u8]) -> Option<u32>
    ensures found { IfSome result (λ number. bytes.now ≡ to_be_bytes w32 number) }
    ensures fits { IfSome result (λ number. number < 2 ^ 32) }
    ensures none { IfNone result ((number : ℕ) → ¬ (bytes.now ≡ to_be_bytes w32 number)) }
{
    let (number, rest) = u32_at(bytes)?;
    if rest.is_empty() { Some(number) } else { None }
}

/// The campaign of a name, and nothing more: one that a head end opens, or the factory's.
fn last_campaign(bytes: &[u8]) -> Option<CampaignId>
    ensures found { IfSome result (λ campaign. bytes.now ≡ campaign_bytes campaign) }
    ensures fits { IfSome result (λ campaign. IsCampaign campaign) }
    ensures none { IfNone result ((campaign : Campaign) → IsCampaign campaign → ¬ (bytes.now ≡ campaign_bytes campaign)) }
{
    let (head, rest) = u32_at(bytes)?;
    let serial = last_u32(rest)?;
    if head == 0 && serial == 0 {
        return Some(CampaignId::FACTORY);
    }
    CampaignId::new(HeadId::new(head)?, serial)
}

/// The phase of a number.
fn phase_of(number: u8) -> Option<Phase>
    ensures { MatchOption result ((phase : Phase) → ¬ (number ≡ phase_number phase)) (λ phase. number ≡ phase_number phase) }
{
    match number {
        1 => Some(Phase::Size),
        2 => Some(Phase::Enable),
        3 => Some(Phase::Start),
        4 => Some(Phase::Blocks),
        5 => Some(Phase::Check),
        6 => Some(Phase::Gaps),
        7 => Some(Phase::Verify),
        8 => Some(Phase::Poll),
        9 => Some(Phase::Info),
        10 => Some(Phase::Activate),
        11 => Some(Phase::Confirm),
        12 => Some(Phase::Done),
        13 => Some(Phase::Failed),
        _ => None,
    }
}

/// What ended a row.
fn answer_of(bytes: &[u8]) -> Option<Answer>
    ensures found { IfSome result (λ answer. bytes.now ≡ answer_bytes answer) }
    ensures fits { IfSome result (λ answer. AnswerFits answer) }
    ensures none { IfNone result ((answer : Answer) → AnswerFits answer → ¬ (bytes.now ≡ answer_bytes answer)) }
{
    match bytes {
        [NUMBER, rest @ ..] => Some(Answer::Number(last_u32(rest)?)),
        [BITS, rest @ ..] => Some(Answer::Bits(last_u64(rest)? as usize)),
        [STATUS, status] => Some(Answer::Status(*status)),
        [NO_IMAGE] => Some(Answer::Info(None)),
        [IMAGE, rest @ ..] => Some(Answer::Info(Some(last_campaign(rest)?))),
        [ACTIVE, rest @ ..] => Some(Answer::Active(last_campaign(rest)?)),
        [CODE, code] => Some(Answer::Code(*code)),
        [SILENT] => Some(Answer::Silent),
        [GIVEN_UP] => Some(Answer::GivenUp),
        _ => None,
    }
}

/// How a row ended.
fn end_of(bytes: &[u8]) -> Option<End>
    ensures found { IfSome result (λ end. bytes.now ≡ end_bytes end) }
    ensures fits { IfSome result (λ end. EndFits end) }
    ensures none { IfNone result ((told : End) → EndFits told → ¬ (bytes.now ≡ end_bytes told)) }
{
    let (at, rest) = u64_at(bytes)?;
    match rest {
        [] => Some(End { at, reason: None }),
        [number, rest @ ..] => {
            let phase = phase_of(*number)?;
            let answer = answer_of(rest)?;
            let reason = Some(Reason { phase, answer });
            Some(End { at, reason })
        }
    }
}

/// What is noted.
pub(crate) fn note_at(bytes: &[u8]) -> Option<Note>
    ensures found { IfSome result (λ note. bytes.now ≡ note_bytes note) }
    ensures fits { IfSome result (λ note. NoteFits note) }
    ensures none { IfNone result ((note : Note) → NoteFits note → ¬ (bytes.now ≡ note_bytes note)) }
{
    match bytes {
        [OPENED, rest @ ..] => Some(Note::Opened(last_u64(rest)?)),
        [ENDED, rest @ ..] => {
            let Some((meter, rest)) = meter_at(rest) else {
                return None;
            };
            let end = end_of(rest)?;
            Some(Note::Ended(meter, end))
        }
        _ => None,
    }
}
