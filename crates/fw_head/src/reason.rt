//! What is kept of an answer, for the case that it ends the row.

ghost use Rattle.std.specs.Prelude.{◌≡◌};
ghost use Rattle.std.specs.Option.{option_map};
ghost use Rattle.fw_names.specs.Name.{Name};
ghost use Rattle.fw_head.specs.Reason.{answer_of};

use fw_book::Answer;
use fw_client::Heard;
use fw_names::{CampaignId, ImageName};

/// What is kept of what a client heard, and `None` if that is no answer.
pub(crate) fn answer_of(heard: &Heard) -> Option<Answer>
    ensures { result ≡ answer_of heard.now }
{
    match heard {
        Heard::Active(claim) => Some(Answer::Active(campaign_of(claim.name()))),
        Heard::Number(number) => Some(Answer::Number(*number)),
        Heard::BitSet(bits) => Some(Answer::Bits(bits.len())),
        Heard::Status(status) => Some(Answer::Status(*status)),
        Heard::Info(told) => Some(Answer::Info(campaign_in(*told))),
        Heard::Code { code, .. } => Some(Answer::Code(*code)),
        Heard::Stranger => None,
    }
}

/// The campaign of a name.
fn campaign_of(name: ImageName) -> CampaignId
    ensures { result ≡ name.campaign }
{
    name.campaign
}

/// The campaign of a name, if there is one.
fn campaign_in(told: Option<ImageName>) -> Option<CampaignId>
    ensures { result ≡ option_map (λ (name : Name). name.campaign) told }
{
    match told {
        Some(name) => Some(campaign_of(name)),
        None => None,
    }
}
