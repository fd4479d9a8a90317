//! A row that is given up without an answer of its meter.

ghost use Rattle.std.specs.Prelude.{◌≡◌};
ghost use Rattle.fw_head.specs.Reason.{answer_for};

use fw_book::{Answer, Reason};
use fw_names::CampaignId;

/// Why a live row is given up without an answer of its meter.
#[derive(Clone, Copy, Debug)]
pub enum WhyGivenUp {
    /// Nothing was heard of the meter for as long as the plan allows.
    Silent,
    /// An operator gave it up.
    ByHand,
}

impl WhyGivenUp {
    /// What stands for it in place of an answer.
    pub(crate) fn answer(self) -> Answer
        ensures { result ≡ answer_for self }
    {
        match self {
            WhyGivenUp::Silent => Answer::Silent,
            WhyGivenUp::ByHand => Answer::GivenUp,
        }
    }
}

/// A row that was given up without an answer of its meter.
#[derive(Clone, Copy, Debug)]
pub struct GivenUp {
    /// The campaign of the row.
    pub campaign: CampaignId,
    /// The phase that the row was in, and why it was given up there.
    pub reason: Reason,
}
