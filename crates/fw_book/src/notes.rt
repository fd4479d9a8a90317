//! What is known of a book beside its states: when campaigns were opened, when rows ended, and why they failed.

ghost use Rattle.std.specs.Prelude.{◌≡◌, OnOk, OnErr};
ghost use Rattle.fw_book.specs.Notes.{place};

use crate::phase::Phase;
use fw_names::{CampaignId, MeterId};
use indexmap::IndexMap;
use std::alloc::{AllocError, Global};
use std::marker::Model;

/// The places of a campaign: the number of a meter has four bytes.
const PLACES: u64 = 4_294_967_296;

/// Why a row failed: this ended it in this phase. In `Size`, `Enable` and `Start` an answer that doesn't fit ends the row. In each
/// later phase it makes the row return to `Start`, and the last return ends it. In any phase a row that no answer ended is given up.
#[derive(Clone, Copy, Debug)]
pub struct Reason {
    /// The phase in which the row was.
    pub phase: Phase,
    /// What ended the row: what the meter answered, or that no answer did.
    pub answer: Answer,
}

/// What ended a row: an answer, of which this is kept (IEC 62056-6-2, Image transfer; IEC 62056-5-3), or none.
#[derive(Clone, Copy, Debug)]
pub enum Answer {
    /// image_block_size, or image_first_not_transferred_block_number.
    Number(u32),
    /// image_transferred_blocks_status, of so many bits.
    Bits(usize),
    /// image_transfer_status.
    Status(u8),
    /// image_to_activate_info: the campaign that the name of the one image in it has, or `None` if it isn't of one image that has a
    /// name.
    Info(Option<CampaignId>),
    /// The active firmware identifier: the campaign that the name of the image that runs has.
    Active(CampaignId),
    /// A Data-Access-Result or an Action-Result: 0 for success.
    Code(u8),
    /// No answer: nothing was heard of the meter for as long as the plan allows.
    Silent,
    /// No answer: an operator gave the row up.
    GivenUp,
}

/// How a row ended.
#[derive(Clone, Copy, Debug)]
pub struct End {
    /// When: the seconds since 1970 began (UTC), as the clock of the head end had it.
    pub at: u64,
    /// Why it failed, if it did.
    pub reason: Option<Reason>,
}

/// An end in the map. Contracts see the end alone.
#[derive(Drop)]
struct Noted {
    end: End,
}

impl Model for Noted {
    ghost use Rattle.fw_book.specs.declared.notes.End.{End};

    ghost Value = { End };

    ghost view = { λ n. n.end };
}

impl Noted {
    fn end(&self) -> End
        ensures { result ≡ self.now }
    {
        self.end
    }
}

/// What is known of the campaigns and rows of one head end's book beside their states. Of what an older book has, nothing is known.
pub struct Notes {
    openings: IndexMap<u32, u64>,
    ends: IndexMap<u64, Noted>,
}

// Written out: where notes are let go, that is one call, and none of their parts is looked into.
impl Drop for Notes {
    fn drop(self) {
        let Notes {
            openings: _,
            ends: _,
        } = self;
    }
}

impl Model for Notes {
    ghost use Rattle.fw_book.specs.Notes.{Known};

    ghost Value = { Known };

    ghost view = { λ n. record { openings = n.openings.entries; ends = n.ends.entries } };
}

impl Notes {
    ghost use Rattle.fw_book.specs.Notes.{nothing_known, opened_at, end_of, with_opening, with_ending};

    /// Nothing is known yet. It keeps the allocator, and takes no memory.
    pub fn none(alloc: Global) -> Notes
        ensures { result ≡ nothing_known }
    {
        Notes {
            openings: IndexMap::new(alloc),
            ends: IndexMap::new(alloc),
        }
    }

    /// When the campaign was opened, if that is known: the seconds since 1970 began (UTC).
    pub fn opened_at(&self, campaign: CampaignId) -> Option<u64>
        ensures { result ≡ opened_at self.now campaign.serial }
    {
        self.openings.get(&campaign.serial()).copied()
    }

    /// How the meter's row in the campaign ended, if that is known.
    pub fn end_of(&self, campaign: CampaignId, meter: MeterId) -> Option<End>
        ensures { result ≡ end_of self.now campaign.serial meter }
    {
        let noted = self.ends.get(&place(campaign, meter))?;
        Some(noted.end())
    }

    /// Notes when the campaign was opened.
    ///
    /// # Errors
    ///
    /// `AllocError` if memory was refused. The notes are then as before.
    pub fn note_opening(&mut self, campaign: CampaignId, at: u64) -> Result<(), AllocError>
        ensures noted { OnOk result (self.new ≡ with_opening self.old campaign.serial at) }
        ensures same { OnErr result (self.new ≡ self.old) }
    {
        self.openings.insert(campaign.serial(), at)?;
        Ok(())
    }

    /// Notes how the meter's row in the campaign ended.
    ///
    /// # Errors
    ///
    /// `AllocError` if memory was refused. The notes are then as before.
    pub fn note_end(
        &mut self,
        campaign: CampaignId,
        meter: MeterId,
        end: End,
    ) -> Result<(), AllocError>
        ensures noted { OnOk result (self.new ≡ with_ending self.old campaign.serial meter end) }
        ensures same { OnErr result (self.new ≡ self.old) }
    {
        self.ends.insert(place(campaign, meter), Noted { end })?;
        Ok(())
    }
}

/// The place of a meter's row in a campaign of the head end: each row has one of its own.
fn place(campaign: CampaignId, meter: MeterId) -> u64
    ensures { result ≡ place campaign.serial meter }
{
    u64::from(campaign.serial()) * PLACES + u64::from(meter.number())
}
