//! A book that is made again of what was recorded of it.

ghost use Rattle.std.specs.Prelude.{◌≡◌, None, Some, IfErr, OnOk, OnErr};
ghost use Rattle.fw_book.specs.declared.row.RowState.{RowState};
ghost use Rattle.fw_book.specs.Changes.{
  empty_book,
  opened,
  marked,
  cancelled,
  opening_refusal,
  cancel_refusal,
  mark_refusal,
  IsRefusal,
};

use crate::book::Book;
use crate::error::BookError;
use crate::row::RowState;
use fw_names::{CampaignId, HeadId, MeterId};
use std::alloc::Global;
use std::marker::Model;

/// A book that is made again of the records of an earlier run of its head end. It marks a row done without a claim: the row was marked by
/// one when the record was made, and records are trusted as [`Book::read`] trusts its bytes. A `Book` marks a row done only by a claim,
/// and no call makes a `RestoredBook` of a `Book`. So the book of a head end that runs needs the claim.
#[derive(Drop)]
pub struct RestoredBook {
    book: Book,
}

impl Model for RestoredBook {
    ghost use Rattle.fw_book.specs.Contents.{Contents};

    ghost Value = { Contents };

    ghost view = { λ r. r.book };
}

impl RestoredBook {
    /// The book of a head end of which no record was read yet. It keeps the allocator, and takes no memory.
    pub fn new(alloc: Global, head: HeadId) -> RestoredBook
        ensures { result ≡ empty_book head }
    {
        RestoredBook {
            book: Book::new(alloc, head),
        }
    }

    /// The book as the records so far have it.
    pub fn book(&self) -> &Book
        ensures { result.now ≡ self.now }
    {
        &self.book
    }

    /// The book, after the last record.
    pub fn into_book(self) -> Book
        ensures { result ≡ self }
    {
        self.book
    }

    /// Opens a campaign again, as [`Book::open_campaign`] did.
    ///
    /// # Errors
    ///
    /// Those of `Book::open_campaign`. The book is then as it was.
    pub fn open_campaign(
        &mut self,
        alloc: Global,
        campaign: CampaignId,
        release: u32,
        image: &[u8],
        meters: &[MeterId],
    ) -> Result<(), BookError>
        ensures opened { OnOk result (self.new ≡ opened self.old campaign.serial release image.now meters.now) }
        ensures admitted { OnOk result (opening_refusal self.old campaign image.now meters.now ≡ None) }
        ensures refused { IfErr result (IsRefusal (opening_refusal self.old campaign image.now meters.now)) }
        ensures kept { OnErr result (self.new ≡ self.old) }
    {
        self.book
            .open_campaign(alloc, campaign, release, image, meters)?;
        Ok(())
    }

    /// Marks the row of a meter as done again.
    ///
    /// # Errors
    ///
    /// `NoSuchCampaign` or `NotLive`, the first that applies. The book is then as it was.
    pub fn mark_done(&mut self, campaign: CampaignId, meter: MeterId) -> Result<(), BookError>
        ensures done { OnOk result (self.new ≡ marked self.old campaign.serial meter RowState.Done) }
        ensures admitted { OnOk result (mark_refusal self.old campaign meter ≡ None) }
        ensures refused { IfErr result (λ e. mark_refusal self.old campaign meter ≡ Some e) }
        ensures kept { OnErr result (self.new ≡ self.old) }
    {
        self.book.end(campaign, meter, RowState::Done)
    }

    /// Marks the row of a meter as failed again.
    ///
    /// # Errors
    ///
    /// Those of `mark_done`. The book is then as it was.
    pub fn mark_failed(&mut self, campaign: CampaignId, meter: MeterId) -> Result<(), BookError>
        ensures failed { OnOk result (self.new ≡ marked self.old campaign.serial meter RowState.Failed) }
        ensures admitted { OnOk result (mark_refusal self.old campaign meter ≡ None) }
        ensures refused { IfErr result (λ e. mark_refusal self.old campaign meter ≡ Some e) }
        ensures kept { OnErr result (self.new ≡ self.old) }
    {
        self.book.mark_failed(campaign, meter)
    }

    /// Cancels a campaign again.
    ///
    /// # Errors
    ///
    /// Those of [`Book::cancel`]. The book is then as it was.
    pub fn cancel(&mut self, campaign: CampaignId) -> Result<(), BookError>
        ensures cancelled { OnOk result (self.new ≡ cancelled self.old campaign.serial) }
        ensures admitted { OnOk result (cancel_refusal self.old campaign ≡ None) }
        ensures refused { IfErr result (λ e. cancel_refusal self.old campaign ≡ Some e) }
        ensures kept { OnErr result (self.new ≡ self.old) }
    {
        self.book.cancel(campaign)
    }
}
