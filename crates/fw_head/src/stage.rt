//! The phases of a row, each with what is known in it.

ghost use Rattle.std.specs.Prelude.{◌≡◌};
ghost use Rattle.fw_head.specs.Phase.{phase_of, activates, has_ended, with_known};
ghost use Rattle.fw_head.specs.Row.{blocks_in, claim_in, confirm_first, known_in, news_in, reason_in, with_block};

use crate::news::RowNews;
use fw_blocks::{BlockSet, Geometry};
use fw_book::{Phase, Reason};
use fw_client::ActiveClaim;
use std::fmt;

/// A phase with what is known in it: from `Enable` on how the image is cut into blocks, in `Blocks` which of them the meter has,
/// and once the row is done the claim that ended it, or once it was given up why.
#[derive(Drop)]
pub(crate) enum Stage {
    Size,
    Enable(Geometry),
    Start(Geometry),
    Blocks(Geometry, BlockSet),
    Check(Geometry),
    Gaps(Geometry),
    Verify(Geometry),
    Poll(Geometry),
    Info(Geometry),
    Activate(Geometry),
    Confirm(Geometry),
    Done(ActiveClaim),
    Failed(Reason),
}

/// Its phase stands for it.
impl fmt::Debug for Stage {
    fn fmt<W: fmt::Write>(&self, f: &mut fmt::Formatter<W>) -> fmt::Result {
        fmt::Debug::fmt(&self.phase(), f)
    }
}

impl Stage {
    pub(crate) fn phase(&self) -> Phase
        ensures { result ≡ phase_of self.now }
    {
        match self {
            Stage::Size => Phase::Size,
            Stage::Enable(_) => Phase::Enable,
            Stage::Start(_) => Phase::Start,
            Stage::Blocks(_, _) => Phase::Blocks,
            Stage::Check(_) => Phase::Check,
            Stage::Gaps(_) => Phase::Gaps,
            Stage::Verify(_) => Phase::Verify,
            Stage::Poll(_) => Phase::Poll,
            Stage::Info(_) => Phase::Info,
            Stage::Activate(_) => Phase::Activate,
            Stage::Confirm(_) => Phase::Confirm,
            Stage::Done(_) => Phase::Done,
            Stage::Failed(_) => Phase::Failed,
        }
    }

    /// Into how many blocks the meter cuts the image, if that is known.
    pub(crate) fn block_count(&self) -> Option<u32>
        ensures { result ≡ blocks_in self.now }
    {
        match self {
            Stage::Size | Stage::Done(_) | Stage::Failed(_) => None,
            Stage::Enable(geometry) => Some(geometry.count()),
            Stage::Start(geometry) => Some(geometry.count()),
            Stage::Blocks(geometry, _) => Some(geometry.count()),
            Stage::Check(geometry) => Some(geometry.count()),
            Stage::Gaps(geometry) => Some(geometry.count()),
            Stage::Verify(geometry) => Some(geometry.count()),
            Stage::Poll(geometry) => Some(geometry.count()),
            Stage::Info(geometry) => Some(geometry.count()),
            Stage::Activate(geometry) => Some(geometry.count()),
            Stage::Confirm(geometry) => Some(geometry.count()),
        }
    }

    /// How many of these blocks the meter is known to have, from the first one on.
    pub(crate) fn known_blocks(&self) -> u32
        ensures { result ≡ known_in self.now }
    {
        match self {
            Stage::Blocks(_, known) => known.first_missing(),
            Stage::Check(geometry) => geometry.count(),
            Stage::Verify(geometry) => geometry.count(),
            Stage::Poll(geometry) => geometry.count(),
            Stage::Info(geometry) => geometry.count(),
            Stage::Activate(geometry) => geometry.count(),
            Stage::Confirm(geometry) => geometry.count(),
            _ => 0,
        }
    }

    /// Whether a tick asks to activate the image.
    pub(crate) fn activates(&self) -> bool
        ensures { result ≡ activates self.now }
    {
        match self {
            Stage::Activate(_) => true,
            _ => false,
        }
    }

    /// The claim that ended the row, if one did.
    pub(crate) fn claim(&self) -> Option<ActiveClaim>
        ensures { result ≡ claim_in self.now }
    {
        match self {
            Stage::Done(claim) => Some(*claim),
            _ => None,
        }
    }

    /// Why the row was given up, if it was.
    pub(crate) fn reason(&self) -> Option<Reason>
        ensures { result ≡ reason_in self.now }
    {
        match self {
            Stage::Failed(reason) => Some(*reason),
            _ => None,
        }
    }

    /// Whether the row is done or was given up.
    pub(crate) fn has_ended(&self) -> bool
        ensures { result ≡ has_ended self.now }
    {
        match self {
            Stage::Done(_) | Stage::Failed(_) => true,
            _ => false,
        }
    }

    /// What is reported of a matched answer that led here.
    pub(crate) fn news(&self) -> RowNews
        ensures { result ≡ news_in self.now }
    {
        match self {
            Stage::Done(claim) => RowNews::Done(*claim),
            Stage::Failed(reason) => RowNews::Failed(*reason),
            _ => RowNews::Moved,
        }
    }

    /// In place of starting, it is asked which image runs.
    pub(crate) fn confirm_first(self) -> Stage
        ensures { result ≡ confirm_first self }
    {
        match self {
            Stage::Start(geometry) => Stage::Confirm(geometry),
            stage => stage,
        }
    }

    /// The stage once the meter took a block: all that are missing are still to be sent, or the count is checked.
    pub(crate) fn with_block(self, number: u32) -> Stage
        ensures { result ≡ with_block self number }
    {
        match self {
            Stage::Blocks(geometry, mut known) => {
                if number < known.count() {
                    known.mark(number);
                }
                with_known(geometry, known)
            }
            stage => stage,
        }
    }
}

/// The stage of a row that knows these blocks: they are transferred, or the meter is asked whether it has them all.
pub(crate) fn with_known(geometry: Geometry, known: BlockSet) -> Stage
    ensures { result ≡ with_known geometry known }
{
    if known.first_missing() == known.count() {
        Stage::Check(geometry)
    } else {
        Stage::Blocks(geometry, known)
    }
}
