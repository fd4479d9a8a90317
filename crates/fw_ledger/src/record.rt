//! The records of a kept book.

ghost use Rattle.std.specs.Prelude.{◌≡◌, nat_lt, MatchBool};
ghost use Rattle.std.specs.List.{list_all, list_any};
ghost use Rattle.fw_ledger.specs.Entry.{AreEndings};

use fw_book::End;
use fw_names::{CampaignId, MeterId};

/// How a meter's row ended.
#[derive(Clone, Copy, Debug)]
pub enum Ending {
    /// The meter claimed to run the campaign's image.
    Done,
    /// The head end gave it up.
    Failed,
}

/// Where an opening has its image from, so that an image which several campaigns offer is kept once.
#[derive(Clone, Copy)]
pub enum Image<'a> {
    /// These are its bytes.
    Whole(&'a [u8]),
    /// The campaign with this serial number, which was opened before, offers it.
    Earlier(u32),
}

/// What is noted of a campaign beside its book.
#[derive(Clone, Copy, Debug)]
pub enum Note {
    /// It was opened then: the seconds since 1970 began (UTC), as the clock of the head end had it.
    Opened(u64),
    /// The meter's row in it ended so.
    Ended(MeterId, End),
}

/// What a record says.
#[derive(Drop)]
pub enum Record<'a> {
    /// A campaign was opened for these meters.
    Opening {
        campaign: CampaignId,
        release: u32,
        image: Image<'a>,
        meters: Vec<MeterId>,
    },
    /// A meter's row ended.
    Mark {
        campaign: CampaignId,
        meter: MeterId,
        ending: Ending,
    },
    /// A campaign was cancelled.
    Cancelling {
        campaign: CampaignId,
    },
    /// Rows of a campaign ended, as a mark of each would say: a byte for each row, in their order, which is 0 if it didn't end, 1 if
    /// it is done, and 2 where it failed. Some row did end.
    Endings {
        campaign: CampaignId,
        numbers: &'a [u8],
    },
    /// When a campaign was opened, or when and why a row of it ended. It stands after the record of that, and changes nothing of the book.
    Note {
        campaign: CampaignId,
        note: Note,
    },
}

/// What the bytes of a record begin with.
pub(crate) const OPENING: u8 = 1;

pub(crate) const MARK: u8 = 2;

pub(crate) const CANCELLING: u8 = 3;

pub(crate) const ENDINGS: u8 = 4;

pub(crate) const NOTE: u8 = 5;

/// What the bytes of an image in a record begin with.
pub(crate) const WHOLE: u8 = 1;

pub(crate) const EARLIER: u8 = 2;

/// What the bytes of a note begin with.
pub(crate) const OPENED: u8 = 1;

pub(crate) const ENDED: u8 = 2;

/// What the bytes of an answer in a note begin with, or of what stands for one where none ended the row.
pub(crate) const NUMBER: u8 = 1;

pub(crate) const BITS: u8 = 2;

pub(crate) const STATUS: u8 = 3;

pub(crate) const NO_IMAGE: u8 = 4;

pub(crate) const IMAGE: u8 = 5;

pub(crate) const ACTIVE: u8 = 6;

pub(crate) const CODE: u8 = 7;

pub(crate) const SILENT: u8 = 8;

pub(crate) const GIVEN_UP: u8 = 9;

/// Whether these are the numbers of endings, or 0, and not 0 alone.
pub(crate) fn are_endings(numbers: &[u8]) -> bool
    ensures { MatchBool result (AreEndings numbers.now) (¬ AreEndings numbers.now) }
{
    are_numbers(numbers) && has_ended(numbers)
}

fn are_numbers(numbers: &[u8]) -> bool
    ensures { result ≡ list_all (λ number. nat_lt number 3) numbers.now }
{
    numbers.iter().all(|number| *number < 3)
}

fn has_ended(numbers: &[u8]) -> bool
    ensures { result ≡ list_any (λ number. nat_lt 0 number) numbers.now }
{
    numbers.iter().any(|number| 0 < *number)
}
