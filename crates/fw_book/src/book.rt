//! The book of a head end's campaigns.

ghost use Rattle.std.specs.Prelude.{◌≡◌, None, false, IfOk, IfErr, IsOk, MatchResult, OnOk, OnErr, OnSome, Some, IfSome};
ghost use Rattle.std.specs.List.{list_any};
ghost use Rattle.std.specs.Option.{option_copied};
ghost use Rattle.fw_names.specs.Name.{name_of, IsOpened};
ghost use Rattle.fw_book.specs.Rows.{is_live};

use crate::error::BookError;
use crate::live::LiveMeters;
use crate::meters::{live_rows, repeats, rows_of};
use crate::offer::{MAX_METERS, Offer};
use crate::reading::entry_at;
use crate::row::RowState;
use crate::search::parts_of;
use crate::writing::{write_entry, write_head};
use fw_blocks::MAX_IMAGE_SIZE;
use fw_client::ActiveClaim;
use fw_names::{CampaignId, HeadId, ImageName, MeterId};
use indexmap::IndexMap;
use indexmap::map::Iter;
use std::alloc::Global;
use std::marker::Model;

/// The campaigns of a book in opening order, each with its serial number.
pub type Campaigns<'a> = Iter<'a, u32, Offer>;

/// The campaigns of a head end in opening order, each with its image and its rows. An image is never changed or removed. The meters
/// that are live in a campaign are kept beside them, so that no row is looked at to tell that a meter is busy.
pub struct Book {
    head: HeadId,
    campaigns: IndexMap<u32, Offer>,
    live: LiveMeters,
}

// Written out, so that letting go of it is one call in a proof. A derived `Drop` is unfolded there field by field, which takes minutes.
impl Drop for Book {
    fn drop(self) {
        let Book {
            head: _,
            campaigns: _,
            live: _,
        } = self;
    }
}

impl Model for Book {
    ghost use Rattle.fw_book.specs.Contents.{Contents};
    ghost use Rattle.fw_book.specs.Private.{IsKept};

    ghost Value = { Contents };

    ghost view = { λ b. record { head = b.head; campaigns = b.campaigns.entries } };

    ghost invariant = { λ b. IsKept (record { head = b.head; campaigns = b.campaigns.entries }) b.live };
}

impl Book {
    ghost use Rattle.fw_book.specs.Contents.{Contents, IsBook, offered_in, name_in, state_in, has_serial, is_busy};
    ghost use Rattle.fw_book.specs.Changes.{
      empty_book,
      added,
      opened,
      marked,
      cancelled,
      opening_refusal,
      cancel_refusal,
      mark_refusal,
      Confirms,
      DoneRefused,
      IsRefusal,
      ReadRefused,
    };
    ghost use Rattle.fw_book.specs.Private.{Admits, meters_refusal};
    ghost use Rattle.fw_book.specs.Format.{SpellsBook, IsReadAs};

    /// The book of a head end that has no campaign yet. It keeps the allocator, and takes no memory.
    pub fn new(alloc: Global, head: HeadId) -> Book
        ensures empty { result ≡ empty_book head }
        ensures book { IsBook result }
    {
        Book {
            head,
            campaigns: IndexMap::new(alloc),
            live: LiveMeters::none(alloc),
        }
    }

    /// The head end whose campaigns these are.
    pub fn head(&self) -> HeadId
        ensures value { result ≡ self.now.head }
        ensures book { IsBook self.now }
    {
        self.head
    }

    /// What a campaign offers, and `None` if the book doesn't have it.
    pub fn offer(&self, campaign: CampaignId) -> Option<&Offer>
        ensures offer { option_copied result ≡ offered_in self.now campaign }
        ensures opened { OnSome result (IsOpened campaign) }
    {
        if campaign.head() != Some(self.head) {
            return None;
        }
        self.campaigns.get(&campaign.serial())
    }

    /// The name under which a campaign offers its image, and `None` if the book doesn't have it. No byte of the image is
    /// read.
    pub fn name(&self, campaign: CampaignId) -> Option<ImageName>
        ensures { result ≡ name_in self.now campaign }
    {
        let offer = self.offer(campaign)?;
        Some(offer.name(campaign))
    }

    /// The state of a meter in a campaign, and `None` if the book doesn't have the campaign, or the campaign doesn't have the
    /// meter.
    pub fn state(&self, campaign: CampaignId, meter: MeterId) -> Option<RowState>
        ensures { result ≡ state_in self.now campaign meter }
    {
        self.offer(campaign)?.state(meter)
    }

    /// Whether the book has a campaign of this serial number.
    fn has_serial(&self, serial: u32) -> bool
        ensures { result ≡ has_serial self.now serial }
    {
        self.campaigns.contains_key(&serial)
    }

    /// Whether the meter is live in a campaign of this book. No row is looked at.
    pub fn is_busy(&self, meter: MeterId) -> bool
        ensures { result ≡ is_busy self.now.campaigns meter }
    {
        self.live.has(meter)
    }

    /// Whether one of the meters is live in a campaign of this book.
    fn any_busy(&self, meters: &[MeterId]) -> bool
        ensures { result ≡ list_any (λ meter. is_busy self.now.campaigns meter) meters.now }
    {
        meters.iter().any(|meter| self.is_busy(*meter))
    }

    /// A campaign's offer with these bytes as its image, if there is one. The campaigns are looked through, from the last one on.
    fn offer_of(&self, image: &[u8]) -> Option<&Offer>
        ensures { IfSome result (λ offer. offer.now.image ≡ image.now) }
    {
        let mut offers = self.campaigns.values().rev();
        offers.find(|offer| offer.image() == image)
    }

    /// Opens a campaign: it offers the image to the meters under the name that is returned, which has this release, and each of its
    /// rows is live. The rows of other campaigns are not looked at.
    ///
    /// # Errors
    ///
    /// `ForeignHead`, `SerialUsed`, `EmptyImage`, `ImageTooLong`, `NoMeters`, `TooManyMeters`, `MeterTwice` or `MeterBusy`, the
    /// first that applies. Otherwise `OutOfMemory` alone. The book is then as it was.
    pub fn open_campaign(
        &mut self,
        alloc: Global,
        campaign: CampaignId,
        release: u32,
        image: &[u8],
        meters: &[MeterId],
    ) -> Result<ImageName, BookError>
        ensures opened { OnOk result (self.new ≡ opened self.old campaign.serial release image.now meters.now) }
        ensures name { IfOk result (λ name. name ≡ name_of campaign release image.now) }
        ensures admitted { OnOk result (opening_refusal self.old campaign image.now meters.now ≡ None) }
        ensures refused { IfErr result (IsRefusal (opening_refusal self.old campaign image.now meters.now)) }
        ensures kept { OnErr result (self.new ≡ self.old) }
    {
        self.check_opening(campaign, image, meters)?;
        let rows = live_rows(alloc, meters)?;
        let offer = Offer::new(alloc, release, image, rows, self.offer_of(image))?;
        let name = offer.name(campaign);
        self.add(campaign.serial(), offer)?;
        Ok(name)
    }

    /// The first of an opening's refusals that applies, apart from memory.
    ///
    /// # Errors
    ///
    /// Those of `open_campaign` except `OutOfMemory`, the first that applies.
    pub fn check_opening(
        &self,
        campaign: CampaignId,
        image: &[u8],
        meters: &[MeterId],
    ) -> Result<(), BookError>
        ensures admitted { OnOk result (opening_refusal self.now campaign image.now meters.now ≡ None) }
        ensures refused { IfErr result (λ e. opening_refusal self.now campaign image.now meters.now ≡ Some e) }
        ensures opened { OnOk result (IsOpened campaign) }
    {
        if campaign.head() != Some(self.head) {
            return Err(BookError::ForeignHead);
        }
        if self.has_serial(campaign.serial()) {
            return Err(BookError::SerialUsed);
        }
        if image.is_empty() {
            return Err(BookError::EmptyImage);
        }
        if image.len() > MAX_IMAGE_SIZE as usize {
            return Err(BookError::ImageTooLong);
        }
        self.check_meters(meters)
    }

    /// The refusals of an opening for its meters, in their order.
    fn check_meters(&self, meters: &[MeterId]) -> Result<(), BookError>
        ensures admitted { OnOk result (meters_refusal self.now meters.now ≡ None) }
        ensures refused { IfErr result (λ e. meters_refusal self.now meters.now ≡ Some e) }
    {
        if meters.is_empty() {
            return Err(BookError::NoMeters);
        }
        if meters.len() > MAX_METERS {
            return Err(BookError::TooManyMeters);
        }
        if repeats(meters) {
            return Err(BookError::MeterTwice);
        }
        if self.any_busy(meters) {
            return Err(BookError::MeterBusy);
        }
        Ok(())
    }

    /// Adds a campaign after the others. Room is made for it first, so that the meters are added only if the campaign is.
    fn add(&mut self, serial: u32, offer: Offer) -> Result<(), BookError>
        requires { Admits self.old serial offer }
        ensures ok { OnOk result (self.new ≡ added self.old serial offer) }
        ensures err { OnErr result (self.new ≡ self.old) }
        ensures memory { IfErr result (λ e. e ≡ BookError.OutOfMemory) }
        ensures book { IsBook self.new }
    {
        self.campaigns.reserve(1)?;
        self.live.add(offer.rows())?;
        self.campaigns.insert(serial, offer)?;
        Ok(())
    }

    /// Cancels a campaign: each of its rows that is live is cancelled then. The campaign and its image stay.
    ///
    /// # Errors
    ///
    /// `NoSuchCampaign` or `NotLive`, if none of its rows is live, the first that applies. The book is then as it was.
    pub fn cancel(&mut self, campaign: CampaignId) -> Result<(), BookError>
        ensures cancelled { OnOk result (self.new ≡ cancelled self.old campaign.serial) }
        ensures admitted { OnOk result (cancel_refusal self.old campaign ≡ None) }
        ensures refused { IfErr result (λ e. cancel_refusal self.old campaign ≡ Some e) }
        ensures kept { OnErr result (self.new ≡ self.old) }
    {
        self.check_cancel(campaign)?;
        if let Some(offer) = self.campaigns.get_mut(&campaign.serial()) {
            self.live.remove_rows(offer.rows());
            offer.cancel();
        }
        Ok(())
    }

    /// What a cancelling is refused for.
    ///
    /// # Errors
    ///
    /// Those of `cancel`, the first that applies.
    pub fn check_cancel(&self, campaign: CampaignId) -> Result<(), BookError>
        ensures admitted { OnOk result (cancel_refusal self.now campaign ≡ None) }
        ensures refused { IfErr result (λ e. cancel_refusal self.now campaign ≡ Some e) }
    {
        let offer = self.offer(campaign).ok_or(BookError::NoSuchCampaign)?;
        if !offer.has_live() {
            return Err(BookError::NotLive);
        }
        Ok(())
    }

    /// Marks the row of a claim's meter as done. The claim is of that meter, and its name is the one under which the campaign
    /// offers its image: so it is of the campaign and of its image's digest.
    ///
    /// # Errors
    ///
    /// `NoSuchCampaign`, `WrongCampaign` or `NotLive`, the first that applies. The book is then as it was.
    pub fn mark_done(&mut self, campaign: CampaignId, claim: ActiveClaim) -> Result<(), BookError>
        ensures done { OnOk result (self.new ≡ marked self.old campaign.serial claim.meter RowState.Done) }
        ensures claimed { OnOk result (Confirms self.old campaign claim) }
        ensures confirmed { Confirms self.old campaign claim → IsOk result }
        ensures refused { IfErr result (DoneRefused self.old campaign claim) }
        ensures kept { OnErr result (self.new ≡ self.old) }
    {
        self.check_done(campaign, claim)?;
        self.mark(campaign, claim.meter(), RowState::Done);
        Ok(())
    }

    /// What marking the row of a claim's meter as done is refused for.
    ///
    /// # Errors
    ///
    /// Those of `mark_done`, the first that applies.
    pub fn check_done(&self, campaign: CampaignId, claim: ActiveClaim) -> Result<(), BookError>
        ensures claimed { OnOk result (Confirms self.now campaign claim) }
        ensures confirmed { Confirms self.now campaign claim → IsOk result }
        ensures refused { IfErr result (DoneRefused self.now campaign claim) }
    {
        let meter = claim.meter();
        if self.state(campaign, meter).is_none() {
            return Err(BookError::NoSuchCampaign);
        }
        if self.name(campaign) != Some(claim.name()) {
            return Err(BookError::WrongCampaign);
        }
        self.check_mark(campaign, meter)
    }

    /// Marks the row of a meter as failed.
    ///
    /// # Errors
    ///
    /// `NoSuchCampaign` or `NotLive`, the first that applies. The book is then as it was.
    pub fn mark_failed(&mut self, campaign: CampaignId, meter: MeterId) -> Result<(), BookError>
        ensures failed { OnOk result (self.new ≡ marked self.old campaign.serial meter RowState.Failed) }
        ensures admitted { OnOk result (mark_refusal self.old campaign meter ≡ None) }
        ensures refused { IfErr result (λ e. mark_refusal self.old campaign meter ≡ Some e) }
        ensures kept { OnErr result (self.new ≡ self.old) }
    {
        self.end(campaign, meter, RowState::Failed)
    }

    /// Gives the row of a meter, which is live, the state in which it ends.
    pub(crate) fn end(
        &mut self,
        campaign: CampaignId,
        meter: MeterId,
        state: RowState,
    ) -> Result<(), BookError>
        requires { is_live state ≡ false }
        ensures ended { OnOk result (self.new ≡ marked self.old campaign.serial meter state) }
        ensures admitted { OnOk result (mark_refusal self.old campaign meter ≡ None) }
        ensures refused { IfErr result (λ e. mark_refusal self.old campaign meter ≡ Some e) }
        ensures kept { OnErr result (self.new ≡ self.old) }
    {
        self.check_mark(campaign, meter)?;
        self.mark(campaign, meter, state);
        Ok(())
    }

    /// What marking the row of a meter as failed is refused for.
    ///
    /// # Errors
    ///
    /// Those of `mark_failed`, the first that applies.
    pub fn check_mark(&self, campaign: CampaignId, meter: MeterId) -> Result<(), BookError>
        ensures admitted { OnOk result (mark_refusal self.now campaign meter ≡ None) }
        ensures refused { IfErr result (λ e. mark_refusal self.now campaign meter ≡ Some e) }
    {
        let now = self
            .state(campaign, meter)
            .ok_or(BookError::NoSuchCampaign)?;
        if !now.is_live() {
            return Err(BookError::NotLive);
        }
        Ok(())
    }

    /// Gives the row of a meter, which is live, the state in which it ends.
    fn mark(&mut self, campaign: CampaignId, meter: MeterId, state: RowState)
        requires ends { is_live state ≡ false }
        requires live { state_in self.old campaign meter ≡ Some RowState.Live }
        ensures { self.new ≡ marked self.old campaign.serial meter state }
    {
        self.live.remove(meter);
        if let Some(offer) = self.campaigns.get_mut(&campaign.serial()) {
            offer.mark(meter, state);
        }
    }

    /// The bytes of the book, version 2: it has one spelling. Memory is taken for every book.
    ///
    /// # Errors
    ///
    /// `OutOfMemory` alone.
    pub fn write(&self, alloc: Global) -> Result<Vec<u8>, BookError>
        ensures spelled { IfOk result (λ bytes. SpellsBook bytes.items self.now) }
        ensures memory { IfErr result (λ e. e ≡ BookError.OutOfMemory) }
    {
        let mut bytes = Vec::new(alloc);
        write_head(&mut bytes, self.head)?;
        for (serial, offer) in self.campaigns.iter() {
            write_entry(&mut bytes, *serial, offer)?;
        }
        Ok(bytes)
    }

    /// The book that these bytes spell. The old spelling, version 1, is read too, with release 0 for each campaign. The bytes are
    /// judged whole before any memory is taken: for each live row, all rows of the campaigns before its own are looked through.
    ///
    /// # Errors
    ///
    /// `BadBook` if they spell none in either version. Otherwise `OutOfMemory` alone, and only for a book that has a campaign.
    pub fn read(alloc: Global, bytes: &[u8]) -> Result<Book, BookError>
        ensures found { IfOk result (IsReadAs bytes.now) }

        // Bytes that spell a book are read as that book.
        ensures unique { (book : Contents) → IsReadAs bytes.now book
            → MatchResult result (λ found. found ≡ book) (λ e. e ≡ BookError.OutOfMemory) }
        ensures refused { IfErr result (ReadRefused bytes.now) }
    {
        let Some((front, mut rest)) = parts_of(bytes) else {
            return Err(BookError::BadBook);
        };
        let mut book = Book::new(alloc, front.head);
        while let Some((entry, after)) = entry_at(front.version, rest) {
            let offer = Offer::new(
                alloc,
                entry.release,
                entry.image,
                rows_of(alloc, entry.rows)?,
                book.offer_of(entry.image),
            )?;
            book.add(entry.serial, offer)?;
            rest = after;
        }
        Ok(book)
    }

    /// Every campaign in opening order, by its serial number, with its rows in the order given.
    pub fn rows(&self) -> Campaigns<'_>
        ensures campaigns { result ≡ self.now.campaigns }
    {
        self.campaigns.iter()
    }
}
