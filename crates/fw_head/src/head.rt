//! A head end: the book of its campaigns, and a row for each meter that is live in one of them.

ghost use Rattle.std.specs.Prelude.{◌≡◌, ◌≤◌, ◌↔◌, ℕ, true, length, All, None, is_some, MatchBool, MatchOption, IsTrue, IsSomeAnd, IfOk, IfErr, IsOk, OnOk, OnErr};
ghost use Rattle.std.specs.Map.{values_of};
ghost use Rattle.std.specs.Option.{option_copied};
ghost use Rattle.fw_names.specs.Name.{Campaign, name_of};
ghost use Rattle.fw_blocks.specs.Width.{IsWidth, max_width};
ghost use Rattle.fw_book.specs.Contents.{IsBook};
ghost use Rattle.fw_book.specs.Changes.{opening_refusal, cancel_refusal, IsRefusal};

use crate::ending::expect_marked;
use crate::error::PutError;
use crate::giving_up::{GivenUp, WhyGivenUp};
use crate::laws;
use crate::news::{News, RowNews, Told};
use crate::parts::HeadParts;
use crate::row::RowCore;
use crate::rows::Rows;
use crate::view::HeadView;
use fw_blocks::Width;
use fw_book::{Book, BookError, MAX_METERS};
use fw_client::OutOfMemory;
use fw_names::{CampaignId, HeadId, ImageName, MeterId};
use std::alloc::Global;
use std::marker::Model;

/// A head end.
pub struct HeadCore {
    book: Book,
    width: Width,
    rows: Rows,
}

// Written out, so that letting go of it is one call in a proof. A derived `Drop` is unfolded there field by field, which takes minutes.
impl Drop for HeadCore {
    fn drop(self) {
        let HeadCore {
            book: _,
            width: _,
            rows: _,
        } = self;
    }
}

// Contracts see the book, the width and the live rows, which are those of the book.
impl Model for HeadCore {
    ghost use Rattle.std.specs.Coded.{codes};
    ghost use Rattle.std.specs.FinMap.{code};
    ghost use Rattle.fw_head.specs.Head.{Head, IsHead};

    ghost Value = { Head };

    ghost coded = { Prim.hlevel (codes, code) };

    ghost view = { λ h. record { book = h.book; width = h.width; rows = h.rows.rows.entries } };

    ghost invariant = { λ h. IsHead (record { book = h.book; width = h.width; rows = h.rows.rows.entries }) };
}

impl HeadCore {
    ghost use Rattle.fw_head.specs.Phase.{IsLive};
    ghost use Rattle.fw_head.specs.Row.{bytes_of};
    ghost use Rattle.fw_head.specs.Parts.{AreLiveRows, PutRefused, joined};
    ghost use Rattle.fw_head.specs.Head.{IsHead, row_of, RowsMayWant, new_head, campaign_at, opened_head, cancelled_head};
    ghost use Rattle.fw_head.specs.Head.{BeginsWith, GivesUpRow, activates_at, has_live_row, HasOutstanding};
    ghost use Rattle.fw_head.specs.Head.{restarted, sends_to, ticked_head, HeadHears, IsDoneBy, TellsReason, IsOfferedIn};

    /// A head end of no campaign, that sends up to `width` blocks at a time. It keeps the allocator, and takes no memory.
    pub fn new(alloc: Global, head: HeadId, width: Width) -> HeadCore
        ensures { result ≡ new_head head width }
    {
        HeadCore {
            book: Book::new(alloc, head),
            width,
            rows: Rows::new(alloc),
        }
    }

    /// A head end that begins with a book that was kept: each meter that is live in it has a new row, as after a restart of the head
    /// end that had the book, which asks first what the meter has. It sends up to `width` blocks at a time.
    ///
    /// # Errors
    ///
    /// `OutOfMemory` alone, and only if a campaign of the book has a live row. The book is lost.
    pub fn of_book(alloc: Global, book: Book, width: Width) -> Result<HeadCore, OutOfMemory>
        ensures begun { IfOk result (BeginsWith book width) }
        ensures memory { OnErr result (has_live_row book ≡ true) }
    {
        let rows = Rows::live_in(alloc, &book)?;
        Ok(HeadCore { book, width, rows })
    }

    /// Opens the campaign of this serial number: it offers the image to the meters under the name that is returned, which has this
    /// release, and each of them has a new row.
    ///
    /// # Errors
    ///
    /// Those of `Book::open_campaign`, in its order. The head end is then as it was.
    pub fn open_campaign(
        &mut self,
        alloc: Global,
        serial: u32,
        release: u32,
        image: &[u8],
        meters: &[MeterId],
    ) -> Result<ImageName, BookError>
        requires { 1 ≤ serial }
        ensures opened { OnOk result (self.new ≡ opened_head self.old serial release image.now meters.now) }
        ensures name { IfOk result (λ name. name ≡ name_of (campaign_at self.old serial) release image.now) }
        ensures admitted { OnOk result (opening_refusal self.old.book (campaign_at self.old serial) image.now meters.now ≡ None) }
        ensures refused { IfErr result (IsRefusal (opening_refusal self.old.book (campaign_at self.old serial) image.now meters.now)) }
        ensures same { OnErr result (self.new ≡ self.old) }
    {
        fw_book::laws::admitted_opens();
        fw_book::laws::states_follow();
        fw_book::laws::opening_offers();
        let campaign = self.campaign(serial);
        if self.rows.reserve(meters.len().min(MAX_METERS)).is_err() {
            self.book.check_opening(campaign, image, meters)?;
            return Err(BookError::OutOfMemory);
        }
        let name = self
            .book
            .open_campaign(alloc, campaign, release, image, meters)?;
        self.rows.add(name, image.len() as u32, meters);
        Ok(name)
    }

    /// The campaign of this serial number.
    fn campaign(&self, serial: u32) -> CampaignId
        requires { 1 ≤ serial }
        ensures { result ≡ campaign_at self.now serial }
    {
        match CampaignId::new(self.book.head(), serial) {
            Some(campaign) => campaign,
            None => unreachable!(),
        }
    }

    /// Cancels the campaign of this serial number: its live rows are cancelled, and nothing more is sent for them.
    ///
    /// # Errors
    ///
    /// Those of `Book::cancel`, in its order. The head end is then as it was.
    pub fn cancel(&mut self, serial: u32) -> Result<(), BookError>
        requires { 1 ≤ serial }
        ensures cancelled { OnOk result (self.new ≡ cancelled_head self.old serial) }
        ensures admitted { OnOk result (cancel_refusal self.old.book (campaign_at self.old serial) ≡ None) }
        ensures refused { IfErr result (λ e. cancel_refusal self.old.book (campaign_at self.old serial) ≡ Some e) }
        ensures same { OnErr result (self.new ≡ self.old) }
    {
        fw_book::laws::states_follow();
        fw_book::laws::images_stay();
        let campaign = self.campaign(serial);
        self.book.cancel(campaign)?;
        self.rows.cancel(serial);
        Ok(())
    }

    /// Hears a datagram that came from a meter. It changes nothing if the meter has no live row, or if it answers no ask of
    /// that row.
    ///
    /// # Errors
    ///
    /// `OutOfMemory` alone, and only if the meter has a live row that may take memory for the datagram. The head end is then as
    /// before.
    pub fn hear(
        &mut self,
        alloc: Global,
        from: MeterId,
        datagram: &[u8],
    ) -> Result<News, OutOfMemory>
        ensures heard { IfOk result (λ told. HeadHears self.old from datagram.now told self.new) }
        // A meter is reported done exactly if its own answer claims what the campaign offers.
        ensures done { IfOk result (λ told. (campaign : Campaign) (meter : ℕ) → (told ≡ News.Done campaign meter)
            ↔ ((meter ≡ from) × IsDoneBy self.old meter datagram.now campaign)) }
        ensures same { OnErr result (self.new ≡ self.old) }
        ensures memory { OnErr result (RowsMayWant self.old.rows from datagram.now) }
    {
        laws::reported_by_claim();
        match self.take(alloc, from, datagram) {
            Ok(told) => Ok(told.news),
            Err(refused) => Err(refused),
        }
    }

    /// Hears a datagram as `hear` does, and tells beside the news why a row is given up.
    ///
    /// # Errors
    ///
    /// Those of `hear`. The head end is then as before.
    pub fn hear_why(
        &mut self,
        alloc: Global,
        from: MeterId,
        datagram: &[u8],
    ) -> Result<Told, OutOfMemory>
        ensures heard { IfOk result (λ told. HeadHears self.old from datagram.now told.news self.new) }
        ensures done { IfOk result (λ told. (campaign : Campaign) (meter : ℕ) → (told.news ≡ News.Done campaign meter)
            ↔ ((meter ≡ from) × IsDoneBy self.old meter datagram.now campaign)) }
        // The reason is that of the row which is given up, and there is none if no row is.
        ensures reason { IfOk result (λ told. TellsReason self.old from datagram.now told.news told.reason) }
        ensures same { OnErr result (self.new ≡ self.old) }
        ensures memory { OnErr result (RowsMayWant self.old.rows from datagram.now) }
    {
        laws::reported_by_claim();
        self.take(alloc, from, datagram)
    }

    /// The live row of a meter hears a datagram, and the book notes where it ended.
    fn take(&mut self, alloc: Global, from: MeterId, datagram: &[u8]) -> Result<Told, OutOfMemory>
        ensures was { IsHead self.old }
        ensures heard { IfOk result (λ told. HeadHears self.old from datagram.now told.news self.new) }
        ensures reason { IfOk result (λ told. TellsReason self.old from datagram.now told.news told.reason) }
        ensures same { OnErr result (self.new ≡ self.old) }
        ensures memory { OnErr result (RowsMayWant self.old.rows from datagram.now) }
    {
        fw_book::laws::states_follow();
        fw_book::laws::images_stay();
        laws::failed_by_answer();
        let campaign = match self.rows.get(from) {
            Some(row) => row.name().campaign,
            None => {
                return Ok(Told {
                    news: News::Nothing,
                    reason: None,
                });
            }
        };
        let heard = self.rows.hear(alloc, from, datagram)?;
        let news = match heard {
            RowNews::Nothing => News::Nothing,
            RowNews::Moved => News::Moved,
            RowNews::Done(claim) => {
                expect_marked(self.book.mark_done(campaign, claim));
                self.rows.end(from);
                News::Done(campaign, from)
            }
            RowNews::Failed(_) => {
                expect_marked(self.book.mark_failed(campaign, from));
                self.rows.end(from);
                News::Failed(campaign, from)
            }
        };
        Ok(Told {
            news,
            reason: heard.reason(),
        })
    }

    /// Gives up the live row of a meter without an answer, and tells which row it was and in which phase. The book has the row as
    /// failed, and nothing more is sent for it. If the meter has no live row, nothing changes.
    pub fn give_up(&mut self, meter: MeterId, why: WhyGivenUp) -> Option<GivenUp>
        ensures was { IsHead self.old }
        ensures given_up { MatchOption result ((row_of self.old.rows meter ≡ None) × (self.new ≡ self.old))
            (λ given. GivesUpRow self.old meter why given self.new) }
    {
        fw_book::laws::states_follow();
        fw_book::laws::images_stay();
        let given = match self.rows.get(meter) {
            Some(row) => row.given_up(why),
            None => return None,
        };
        expect_marked(self.book.mark_failed(given.campaign, meter));
        self.rows.end(meter);
        Some(given)
    }

    /// Whether a meter has a live row. If it has none, a tick sends it nothing and takes no memory.
    pub fn has_row(&self, meter: MeterId) -> bool
        ensures value { result ≡ is_some (row_of self.now.rows meter) }
        // A live row has not ended.
        ensures live { IsTrue result → IsSomeAnd (row_of self.now.rows meter) (λ row. IsLive row.stage) }
    {
        self.rows.get(meter).is_some()
    }

    /// Whether a meter has a live row of which an ask is outstanding.
    pub fn is_waiting(&self, meter: MeterId) -> bool
        ensures { MatchBool result (HasOutstanding self.now meter) (¬ HasOutstanding self.now meter) }
    {
        match self.rows.get(meter) {
            Some(row) => row.is_waiting(),
            None => false,
        }
    }

    /// Whether a meter has a live row whose next tick asks to activate the image. No other tick asks for that.
    pub fn activates(&self, meter: MeterId) -> bool
        ensures { result ≡ activates_at self.now meter }
    {
        match self.rows.get(meter) {
            Some(row) => row.activates(),
            None => false,
        }
    }

    /// The live row of a meter, if the meter has one.
    pub fn row(&self, meter: MeterId) -> Option<&RowCore>
        ensures { option_copied result ≡ row_of self.now.rows meter }
    {
        self.rows.get(meter)
    }

    /// Makes the datagrams that are sent to a meter now: none if it has no live row.
    ///
    /// # Errors
    ///
    /// `OutOfMemory` alone, and only if the meter has a live row. The head end is then as before.
    pub fn tick(&mut self, alloc: Global, meter: MeterId) -> Result<Vec<Vec<u8>>, OutOfMemory>
        ensures sent { IfOk result (λ sent. bytes_of sent.items ≡ sends_to self.old meter) }
        // Each is one that a head end of this book may send.
        ensures permitted { IfOk result (λ sent. All (IsOfferedIn self.old.book) (bytes_of sent.items)) }
        ensures most { IfOk result (λ sent. length sent.items ≤ max_width) }
        ensures ticked { OnOk result (self.new ≡ ticked_head self.old meter) }
        ensures same { OnErr result (self.new ≡ self.old) }
        ensures memory { OnErr result (IsSomeAnd (row_of self.old.rows meter) (λ row. IsLive row.stage)) }
    {
        let campaign = match self.rows.get(meter) {
            Some(row) => row.name().campaign,
            None => return Ok(Vec::new(alloc)),
        };
        match self.book.offer(campaign) {
            Some(offer) => self.rows.tick(alloc, meter, offer.image(), self.width),
            None => unreachable!(),
        }
    }

    /// Starts again: the book is kept, and each live row is made new.
    pub fn restart(&mut self)
        ensures { self.new ≡ restarted self.old }
    {
        self.rows.restart();
    }

    /// The book and the live rows.
    pub fn view(&self) -> HeadView<'_>
        ensures book { result.book.now ≡ self.now.book }
        ensures rows { result.rows ≡ values_of self.now.rows }

        // The live rows are those of the book, each once.
        ensures live { IsHead self.now }
        ensures is_book { IsBook self.now.book }
        ensures is_width { IsWidth self.now.width }
    {
        let _head = self.book.head();
        let _number = self.width.number();
        HeadView {
            book: &self.book,
            rows: self.rows.all(),
        }
    }

    /// Parts the head end into its book, its width and its live rows. `put_rows` puts them together again, whatever ticks and
    /// datagrams made of the rows meanwhile. It takes no memory.
    pub fn take_rows(self) -> HeadParts
        ensures book { result.book ≡ self.book }
        ensures width { result.width ≡ self.width }
        ensures rows { result.rows ≡ values_of self.rows }
        ensures live { AreLiveRows self.book (values_of self.rows) }
    {
        let HeadCore { book, width, rows } = self;
        let rows = rows.take_all();
        HeadParts { book, width, rows }
    }

    /// Puts a head end together from its book, its width and the live rows of the book. Those that have ended are marked in the
    /// book, done or failed, and the others are its live rows. The cost of each row is that of its campaign's rows; if memory
    /// is refused, that of all rows.
    ///
    /// # Errors
    ///
    /// `WrongRows` if the rows are not those that are live in the book, each once and in any order, for the image that their
    /// campaign offers. Otherwise `OutOfMemory` alone, and only if there are rows. The parts are lost.
    pub fn put_rows(
        alloc: Global,
        book: Book,
        width: Width,
        rows: Vec<RowCore>,
    ) -> Result<HeadCore, PutError>
        ensures joined { IfOk result (λ head. head ≡ joined book width rows.items) }
        ensures live { OnOk result (AreLiveRows book rows.items) }
        ensures refused { IfErr result (PutRefused book rows.items) }
    {
        fw_book::laws::states_follow();
        fw_book::laws::images_stay();
        let mut book = book;
        let mut rows = Rows::of_book(alloc, &book, rows)?;
        rows.mark_ended(&mut book);
        rows.keep_live();
        Ok(HeadCore { book, width, rows })
    }
}
