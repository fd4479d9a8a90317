//! Why a switch isn't what books offer, and why a row isn't borne out.

use fw_names::{CampaignId, MeterId};
use std::fmt;
use thiserror::Error;

/// The rule that a switch of a meter breaks: of several the first.
#[derive(Clone, Copy, Debug)]
pub enum SwitchRule {
    /// No book has the campaign in the name of the image.
    NotOffered,
    /// The campaign offers other bytes.
    OtherBytes,
    /// The campaign offers these bytes under another name: with another release, or with another digest.
    OtherName,
    /// The meter had switched to an image of a higher release before.
    ReleaseFell,
}

/// The first switch of a meter that breaks a rule.
#[derive(Clone, Copy, Debug, Error)]
pub struct SwitchDeparture {
    /// The number of the switch, from 0 on.
    pub at: usize,
    pub rule: SwitchRule,
}

/// Why a row that is done isn't borne out.
#[derive(Clone, Copy, Debug)]
pub enum RowRule {
    /// The log of its meter wasn't audited.
    NotAudited,
    /// By its log, the meter didn't switch to the image of the campaign.
    DoneNotActivated,
}

/// The first row of a book that is done and isn't borne out.
#[derive(Clone, Copy, Debug, Error)]
pub struct RowDeparture {
    /// The campaign of the row.
    pub campaign: CampaignId,
    /// The meter of the row.
    pub meter: MeterId,
    pub rule: RowRule,
}

impl fmt::Display for SwitchDeparture {
    fn fmt<W: fmt::Write>(&self, f: &mut fmt::Formatter<W>) -> fmt::Result {
        fmt::Debug::fmt(self, f)
    }
}

impl fmt::Display for RowDeparture {
    fn fmt<W: fmt::Write>(&self, f: &mut fmt::Formatter<W>) -> fmt::Result {
        fmt::Debug::fmt(self, f)
    }
}
