//! A head end whose book outlives a power cut.

ghost use Rattle.std.specs.Prelude.{
  ◌≡◌,
  ◌≢◌,
  ◌≤◌,
  ◌↔◌,
  ◌⊎◌,
  [],
  ℕ,
  List,
  All,
  length,
  None,
  false,
  IfOk,
  IfErr,
  OnOk,
  OnErr,
  IfSome,
  IsErrOf,
  IsSomeAnd,
  IsTrue,
  MatchOption,
};
ghost use Rattle.fw_blocks.specs.Width.{max_width};
ghost use Rattle.fw_names.specs.Name.{Campaign, IsOpened, name_of};
ghost use Rattle.fw_book.specs.Contents.{Contents};
ghost use Rattle.fw_book.specs.Changes.{empty_book, opened, cancelled, opening_refusal, cancel_refusal};
ghost use Rattle.fw_book.specs.Notes.{Known, nothing_known, with_opening};
ghost use Rattle.fw_head.specs.Phase.{IsLive};
ghost use Rattle.fw_head.specs.Row.{bytes_of};
ghost use Rattle.fw_head.specs.Head.{row_of, RowsMayWant, new_head, campaign_at, opened_head, cancelled_head, BeginsWith};
ghost use Rattle.fw_head.specs.Head.{sends_to, ticked_head, GivesUpRow, HeadHears, IsDoneBy, IsOfferedIn, TellsReason};
ghost use Rattle.fw_journal.specs.Book.{IsBadBook, Drops};
ghost use Rattle.fw_journal.specs.Device.{Keeps as DeviceKeeps};
ghost use Rattle.fw_journal.specs.Keeping.{KeepsFirst};
ghost use Rattle.fw_journal.specs.Making.{LeavesMaking};
ghost use Rattle.fw_journal.specs.Refusals.{IsMakingRefusal};
ghost use Rattle.fw_ledger.specs.Entry.{IsNote};
ghost use Rattle.fw_ledger.specs.Replay.{Makes};
ghost use Rattle.fw_ledger.specs.View.{entry_of};
ghost use Rattle.fw_kept.specs.Private.{CanBeKept};

use crate::compacting::write_anew;
use crate::error::{KeptError, OpenError};
use crate::marking::{keep_end, opened_note};
use crate::opening::open_book;
use crate::putting::{check_has, opening_of, put, put_noted, put_waiting};
use fw_blocks::Width;
use fw_book::Notes;
use fw_head::{GivenUp, HeadCore, News, OutOfMemory, Told, WhyGivenUp};
use fw_journal::{Journal, JournalDevice, JournalError, Keeper, Replacer, RewriteError};
use fw_ledger::{Note, Record};
use fw_names::{CampaignId, HeadId, ImageName, MeterId};
use std::alloc::Global;
use std::mem;

/// A head end, with a journal of its book on a device. An opening and a cancelling are committed before they are reported, with all marks
/// that wait; the mark of a row that ended waits for the next commit. What a tick sends is always of a campaign that is on the device.
/// After a power cut at any moment, the book that is read back is that of some moment since the last call that was reported as committed,
/// and that call is in it. When campaigns were opened and rows ended, and why rows failed, is noted beside the book, and kept with it: a
/// note is committed with the record of what it is of.
pub struct KeptHead<D: JournalDevice> {
    head: HeadCore,
    notes: Notes,
    journal: Journal<D>,
    /// The journal may have an opening that the book in memory lacks, or lacks the mark of a row that ended.
    broken: bool,
}

// Written out, so that letting go of it is one call in a proof. A derived `Drop` is unfolded there field by field, which takes minutes.
impl<D: JournalDevice + Drop> Drop for KeptHead<D> {
    fn drop(self) {
        let KeptHead {
            head: _,
            notes: _,
            journal: _,
            broken: _,
        } = self;
    }
}

impl<D: JournalDevice> KeptHead<D> {
    ghost use Rattle.fw_kept.specs.Kept.{HasBook, HasNoted, HasForeign, HasBadRecord, IsFull, LeavesRecords};
    ghost use Rattle.fw_kept.specs.Head.{
      head_of,
      book_of,
      known_of,
      known_heard,
      known_given_up,
      journal_of,
      device_of,
      is_broken,
      Commits,
      Holds,
      HoldsNoted,
      LosesMark,
      LosesGivenUp,
      OfferSame,
      OffersAlso,
      IsBacked,
    };
    ghost use Rattle.fw_kept.specs.Refusals.{IsRefusedFor, IsCommitRefusal};

    /// Makes a head end of no campaign, that sends up to `width` blocks at a time, with its book on a device without bytes, and syncs it. A
    /// power cut in the call leaves up to five bytes of any value, so that a file is made beside, and renamed then.
    ///
    /// # Errors
    ///
    /// `NotEmpty` if there are bytes, which are left as they are and reported before memory is taken; else `BookFault` and
    /// `OutOfMemory`. The device is returned.
    pub fn create(
        alloc: Global,
        head: HeadId,
        width: Width,
        device: D,
    ) -> Result<Self, (JournalError, D)>
        ensures made { IsTrue (D.honest device) → IfOk result (λ kept. Holds D.honest D.contents D.may_leave kept (empty_book head)) }
        ensures noted { IsTrue (D.honest device)
            → IfOk result (λ kept. HoldsNoted D.honest D.contents D.may_leave kept (empty_book head) nothing_known) }
        ensures nothing { IfOk result (λ kept. known_of kept ≡ nothing_known) }
        ensures head { IfOk result (λ kept. head_of kept ≡ new_head head width) }
        ensures empty { IsTrue (D.honest device) → OnOk result (D.contents device ≡ []) }
        ensures not_empty { IsTrue (D.honest device) → IfErr result (λ e. e.0 ≡ JournalError.NotEmpty
            → (D.contents device ≢ []) × (D.contents e.1 ≡ D.contents device)) }
        ensures memory { IsTrue (D.honest device) → IfErr result (λ e. e.0 ≡ JournalError.OutOfMemory → D.contents device ≡ []) }

        // A cut at any moment of the call leaves what one before it might have left, with any bytes for its first five.
        ensures any_moment { IsTrue (D.honest device) → IfOk result (λ kept. LeavesMaking D.JournalDevice device (device_of kept)) }
        ensures any_moment_err { IsTrue (D.honest device) → IfErr result (λ e. LeavesMaking D.JournalDevice device e.1) }
        ensures never { IsTrue (D.sound device) → IfErr result (λ e. e.0 ≢ JournalError.BookFault) }
        ensures refusals { IfErr result (λ e. IsMakingRefusal e.0) }
        ensures kept { IfOk result (λ kept. DeviceKeeps D.honest D.sound device (device_of kept)) }
    {
        fw_ledger::laws::nothing_noted();
        match Journal::create(alloc, device) {
            Ok(journal) => Ok(KeptHead {
                head: HeadCore::new(alloc, head, width),
                notes: Notes::none(alloc),
                journal,
                broken: false,
            }),
            Err(refused) => Err(refused),
        }
    }

    /// Opens the head end whose book a power cut, or a process that was killed, may have left on the device. It begins with exactly the book
    /// that the device holds, and each meter that is live in it has a new row, which asks first what the meter has. The device is synced
    /// first. What is cut off it and reads as records, the keeper has first.
    ///
    /// # Errors
    ///
    /// `BadBook` with an offset where the bytes are no journal's; nothing is written then. `ForeignHead` if the book is another head
    /// end's, and `BadRecord` with the index of a record that has no place in the book of those before it; the journal has the same records
    /// then. Else `BookFault` and `OutOfMemory`, of the device or of the keeper, which may come in place of these. The device is returned.
    pub fn open<K: Keeper>(
        alloc: Global,
        head: HeadId,
        width: Width,
        device: D,
        keeper: &mut K,
    ) -> Result<Self, (OpenError, D)>
        ensures opened { IsTrue (D.honest device)
            → IfOk result (λ kept. Holds D.honest D.contents D.may_leave kept (book_of kept)) }
        ensures book { IsTrue (D.honest device) → IfOk result (λ kept. HasBook head (D.contents device) (book_of kept)) }
        // And what is known from the notes that it holds.
        ensures noted { IsTrue (D.honest device)
            → IfOk result (λ kept. HasNoted head (D.contents device) (book_of kept) (known_of kept)) }
        ensures opened_noted { IsTrue (D.honest device)
            → IfOk result (λ kept. HoldsNoted D.honest D.contents D.may_leave kept (book_of kept) (known_of kept)) }
        // Whatever the device is.
        ensures number { IfOk result (λ kept. (book_of kept).head ≡ head) }
        ensures begun { IfOk result (λ kept. BeginsWith (book_of kept) width (head_of kept)) }
        ensures bad { IsTrue (D.honest device) → IfErr result (λ e. (offset : ℕ) → e.0 ≡ OpenError.BadBook offset
            → IsBadBook (D.contents device) offset × (D.contents e.1 ≡ D.contents device)) }
        ensures bad_record { IsTrue (D.honest device) → IfErr result (λ e. (index : ℕ) → e.0 ≡ OpenError.BadRecord index
            → HasBadRecord head (D.contents device) index) }
        ensures foreign { IsTrue (D.honest device) → IfErr result (λ e. e.0 ≡ OpenError.ForeignHead
            → HasForeign head (D.contents device)) }

        // A cut at any moment of the call leaves what one before it might have left, or a journal of the same records.
        ensures any_moment { IsTrue (D.honest device) → IfOk result (λ kept. LeavesRecords D.JournalDevice device (device_of kept)) }
        ensures any_moment_err { IsTrue (D.honest device) → IfErr result (λ e. LeavesRecords D.JournalDevice device e.1) }

        // What reads as records is cut off only once the keeper holds it.
        ensures dropped { IsTrue (D.honest device) → (rest : List ℕ) (count : ℕ) → Drops (D.contents device) rest count → 1 ≤ count
            → OnOk result (K.holds keeper.new rest) }
        ensures kept_first { IsTrue (D.honest device)
            → IfOk result (λ kept. KeepsFirst D.JournalDevice K.Keeper device (device_of kept) keeper.old keeper.new) }
        ensures kept_first_err { IsTrue (D.honest device)
            → IfErr result (λ e. KeepsFirst D.JournalDevice K.Keeper device e.1 keeper.old keeper.new) }
        ensures never { IsTrue (D.honest device) → IsTrue (D.sound device) → IsTrue (K.sound keeper.old)
            → IfErr result (λ e. e.0 ≢ OpenError.BookFault) }
        ensures kept { IfOk result (λ kept. DeviceKeeps D.honest D.sound device (device_of kept)) }
    {
        let (book, notes, journal) = match open_book(alloc, head, device, keeper) {
            Ok(opened) => opened,
            Err(refused) => return Err(refused),
        };
        match HeadCore::of_book(alloc, book, width) {
            Ok(head) => Ok(KeptHead {
                head,
                notes,
                journal,
                broken: false,
            }),
            Err(_) => Err((OpenError::OutOfMemory, journal.into_device())),
        }
    }

    /// The head end in memory, with the marks that wait.
    pub fn head(&self) -> &HeadCore
        ensures { result.now ≡ head_of self.now }
    {
        &self.head
    }

    /// What is known of the campaigns and rows of its book beside their states.
    pub fn notes(&self) -> &Notes
        ensures { result.now ≡ known_of self.now }
    {
        &self.notes
    }

    /// The device. Every power cut leaves the book of the last commit, and what was noted then.
    pub fn device(&self) -> &D
        ensures value { result.now ≡ device_of self.now }
        ensures each_cut { (synced : Contents) → Holds D.honest D.contents D.may_leave self.now synced
            → (left : List ℕ) → D.may_leave (device_of self.now) left → HasBook (book_of self.now).head left synced }
        ensures noted { (synced : Contents) (noted : Known) → HoldsNoted D.honest D.contents D.may_leave self.now synced noted
            → (left : List ℕ) → D.may_leave (device_of self.now) left → HasNoted (book_of self.now).head left synced noted }
        ensures backed { (synced : Contents) → Holds D.honest D.contents D.may_leave self.now synced → IsBacked D.may_leave self.now }
    {
        self.journal.device()
    }

    /// The device, without what waits.
    pub fn into_device(self) -> D
        ensures { result ≡ device_of self }
    {
        let KeptHead {
            head: _,
            notes: _,
            journal,
            broken: _,
        } = self;
        journal.into_device()
    }

    /// What a broken head end refuses.
    fn check_works(&self) -> Result<(), KeptError>
        ensures ok { OnOk result (is_broken self.now ≡ false) }
        ensures err { IfErr result (λ e. (e ≡ KeptError.BookFault) × IsTrue (is_broken self.now)) }
    {
        if self.broken || self.journal.is_broken() {
            return Err(KeptError::BookFault);
        }
        Ok(())
    }

    /// The campaign of this serial number.
    fn campaign(&self, serial: u32) -> CampaignId
        requires { 1 ≤ serial }
        ensures value { result ≡ campaign_at (head_of self.now) serial }
        ensures opened { IsOpened result }
    {
        match CampaignId::new(self.head.view().book.head(), serial) {
            Some(campaign) => campaign,
            None => unreachable!(),
        }
    }

    /// The record of an opening that the head end takes, where it isn't broken.
    fn opening<'a>(
        &self,
        alloc: Global,
        serial: u32,
        release: u32,
        image: &'a [u8],
        meters: &[MeterId],
    ) -> Result<Record<'a>, KeptError>
        requires { 1 ≤ serial }
        ensures can { IfOk result (λ told. CanBeKept (entry_of told)) }
        ensures makes { IfOk result (λ told. Makes (entry_of told) (book_of self.now)
            (opened (book_of self.now) serial release image.now meters.now)) }
        ensures no_note { IfOk result (λ told. ¬ IsNote (entry_of told)) }
        ensures admitted { OnOk result (opening_refusal (book_of self.now) (campaign_at (head_of self.now) serial) image.now meters.now
            ≡ None) }
        ensures works { OnOk result (is_broken self.now ≡ false) }
        ensures refused { IfErr result (IsRefusedFor (opening_refusal (book_of self.now) (campaign_at (head_of self.now) serial) image.now
            meters.now)) }
        ensures broken { IsTrue (is_broken self.now)
            → opening_refusal (book_of self.now) (campaign_at (head_of self.now) serial) image.now meters.now ≡ None
            → IsErrOf result KeptError.BookFault }
        ensures fault { IsErrOf result KeptError.BookFault → IsTrue (is_broken self.now) }
        ensures no_full { ¬ IsErrOf result KeptError.Full }
    {
        let campaign = self.campaign(serial);
        let book = self.head.view().book;
        book.check_opening(campaign, image, meters)?;
        self.check_works()?;
        opening_of(alloc, book, campaign, release, image, meters)
    }

    /// The record of a cancelling that the head end takes, where it isn't broken.
    fn cancelling(&self, serial: u32) -> Result<Record<'static>, KeptError>
        requires { 1 ≤ serial }
        ensures can { IfOk result (λ told. CanBeKept (entry_of told)) }
        ensures makes { IfOk result (λ told. Makes (entry_of told) (book_of self.now) (cancelled (book_of self.now) serial)) }
        ensures no_note { IfOk result (λ told. ¬ IsNote (entry_of told)) }
        ensures admitted { OnOk result (cancel_refusal (book_of self.now) (campaign_at (head_of self.now) serial) ≡ None) }
        ensures works { OnOk result (is_broken self.now ≡ false) }
        ensures refused { IfErr result (IsRefusedFor (cancel_refusal (book_of self.now) (campaign_at (head_of self.now) serial))) }
        ensures broken { IsTrue (is_broken self.now)
            → cancel_refusal (book_of self.now) (campaign_at (head_of self.now) serial) ≡ None → IsErrOf result KeptError.BookFault }
        ensures fault { IsErrOf result KeptError.BookFault → IsTrue (is_broken self.now) }
        ensures no_full { ¬ IsErrOf result KeptError.Full }
    {
        let campaign = self.campaign(serial);
        let book = self.head.view().book;
        check_has(book, campaign)?;
        book.check_cancel(campaign)?;
        self.check_works()?;
        Ok(Record::Cancelling { campaign })
    }

    /// The campaign in memory, and when it was opened.
    fn begin(
        &mut self,
        alloc: Global,
        serial: u32,
        release: u32,
        image: &[u8],
        meters: &[MeterId],
        now: u64,
    ) -> Result<ImageName, KeptError>
        requires { 1 ≤ serial }
        ensures opened { OnOk result (head_of self.new ≡ opened_head (head_of self.old) serial release image.now meters.now) }
        ensures name { IfOk result (λ name. name ≡ name_of (campaign_at (head_of self.old) serial) release image.now) }
        ensures noted { OnOk result (known_of self.new ≡ with_opening (known_of self.old) serial now) }
        ensures same { OnErr result (head_of self.new ≡ head_of self.old) }
        ensures known { OnErr result ((known_of self.new ≡ known_of self.old)
            ⊎ (known_of self.new ≡ with_opening (known_of self.old) serial now)) }
        ensures journal { journal_of self.new ≡ journal_of self.old }
        ensures broken { self.new.broken ≡ self.old.broken }
    {
        let campaign = self.campaign(serial);
        if self.notes.note_opening(campaign, now).is_err() {
            return Err(KeptError::OutOfMemory);
        }
        match self
            .head
            .open_campaign(alloc, serial, release, image, meters)
        {
            Ok(name) => Ok(name),
            Err(_) => Err(KeptError::OutOfMemory),
        }
    }

    /// Opens the campaign of this serial number, as [`HeadCore::open_campaign`], and notes that this was now: the seconds since 1970 began
    /// (UTC). From `Ok` on every power cut leaves it with that note, and all marks that waited; a cut in the call leaves all of it or nothing.
    ///
    /// # Errors
    ///
    /// The first refusal of the book. Otherwise `BookFault` if the head end is broken; then `Full`, if the journal or what waits has
    /// 2^60 bytes or more, `BookFault`, if the device failed, or `OutOfMemory`. The head end in memory is as it was. What a cut leaves is
    /// as it was, or the head end is broken: each later commit is `BookFault` then, and opening the device again shows whether it has the
    /// campaign. A broken head end may know when the campaign was opened, and has it neither in its book nor in its rows.
    pub fn open_campaign(
        &mut self,
        alloc: Global,
        serial: u32,
        release: u32,
        image: &[u8],
        meters: &[MeterId],
        now: u64,
    ) -> Result<ImageName, KeptError>
        requires { 1 ≤ serial }
        ensures opened { OnOk result (head_of self.new ≡ opened_head (head_of self.old) serial release image.now meters.now) }
        ensures name { IfOk result (λ name. name ≡ name_of (campaign_at (head_of self.old) serial) release image.now) }
        ensures noted { OnOk result (known_of self.new ≡ with_opening (known_of self.old) serial now) }
        ensures admitted { OnOk result (opening_refusal (book_of self.old) (campaign_at (head_of self.old) serial) image.now meters.now
            ≡ None) }
        ensures refused { IfErr result (IsRefusedFor (opening_refusal (book_of self.old) (campaign_at (head_of self.old) serial) image.now
            meters.now)) }
        ensures same { OnErr result (head_of self.new ≡ head_of self.old) }
        ensures known { OnErr result ((known_of self.new ≡ known_of self.old)
            ⊎ (IsTrue (is_broken self.new) × (known_of self.new ≡ with_opening (known_of self.old) serial now))) }
        ensures commits { Commits D.JournalDevice KeptError.BookFault
            (opening_refusal (book_of self.old) (campaign_at (head_of self.old) serial) image.now meters.now)
            self.old result self.new (opened (book_of self.old) serial release image.now meters.now)
            (with_opening (known_of self.old) serial now) }
        ensures full { IsErrOf result KeptError.Full → IsFull (journal_of self.old) }
    {
        fw_book::laws::opening_offers();
        fw_book::laws::admitted_opens();
        let opening = self.opening(alloc, serial, release, image, meters)?;
        let note = opened_note(self.campaign(serial), Note::Opened(now));
        put_noted(alloc, &mut self.journal, &opening, &note)?;
        match self.begin(alloc, serial, release, image, meters, now) {
            Ok(name) => Ok(name),
            Err(_) => {
                self.broken = true;
                Err(KeptError::OutOfMemory)
            }
        }
    }

    /// Cancels the campaign of this serial number, as [`HeadCore::cancel`]. From `Ok` on every power cut leaves that, and all marks that
    /// waited; a cut in the call leaves all of it or nothing.
    ///
    /// # Errors
    ///
    /// The first refusal of the book. Otherwise `BookFault` if the head end is broken; then `Full`, `BookFault` or `OutOfMemory`, as for
    /// `open_campaign`. The head end in memory is as it was.
    pub fn cancel(&mut self, alloc: Global, serial: u32) -> Result<(), KeptError>
        requires { 1 ≤ serial }
        ensures cancelled { OnOk result (head_of self.new ≡ cancelled_head (head_of self.old) serial) }
        ensures admitted { OnOk result (cancel_refusal (book_of self.old) (campaign_at (head_of self.old) serial) ≡ None) }
        ensures refused { IfErr result (IsRefusedFor (cancel_refusal (book_of self.old) (campaign_at (head_of self.old) serial))) }
        ensures same { OnErr result (head_of self.new ≡ head_of self.old) }
        ensures commits { Commits D.JournalDevice KeptError.BookFault
            (cancel_refusal (book_of self.old) (campaign_at (head_of self.old) serial))
            self.old result self.new (cancelled (book_of self.old) serial) (known_of self.old) }
        ensures known { known_of self.new ≡ known_of self.old }
        ensures full { IsErrOf result KeptError.Full → IsFull (journal_of self.old) }
    {
        let cancelling = self.cancelling(serial)?;
        put(alloc, &mut self.journal, &cancelling)?;
        self.head.cancel(serial)?;
        Ok(())
    }

    /// Makes the datagrams that are sent to a meter now, as [`HeadCore::tick`]. Each is one that a head end may send of the book that a power
    /// cut leaves. The device isn't touched.
    ///
    /// # Errors
    ///
    /// `OutOfMemory` alone, and only if the meter has a live row. The head end is then as before.
    pub fn tick(&mut self, alloc: Global, meter: MeterId) -> Result<Vec<Vec<u8>>, OutOfMemory>
        ensures sent { IfOk result (λ sent. bytes_of sent.items ≡ sends_to (head_of self.old) meter) }
        // Nothing is sent that the book on the device doesn't offer.
        ensures permitted { (synced : Contents) → Holds D.honest D.contents D.may_leave self.old synced
            → IfOk result (λ sent. All (IsOfferedIn synced) (bytes_of sent.items)) }

        // Also if nothing is committed any more: nothing is sent but what each book offers that offers what the one in memory does.
        ensures offered { (book : Contents) → OffersAlso (book_of self.old) book
            → IfOk result (λ sent. All (IsOfferedIn book) (bytes_of sent.items)) }
        ensures book { book_of self.new ≡ book_of self.old }
        ensures known { known_of self.new ≡ known_of self.old }
        ensures backed { IsBacked D.may_leave self.old → IsBacked D.may_leave self.new }
        ensures most { IfOk result (λ sent. length sent.items ≤ max_width) }
        ensures ticked { OnOk result (head_of self.new ≡ ticked_head (head_of self.old) meter) }
        ensures same { OnErr result (self.new ≡ self.old) }
        ensures memory { OnErr result (IsSomeAnd (row_of (head_of self.old).rows meter) (λ row. IsLive row.stage)) }
        ensures waits { (synced : Contents) → Holds D.honest D.contents D.may_leave self.old synced
            → Holds D.honest D.contents D.may_leave self.new synced }
        ensures noted { (synced : Contents) (noted : Known) → HoldsNoted D.honest D.contents D.may_leave self.old synced noted
            → HoldsNoted D.honest D.contents D.may_leave self.new synced noted }
        ensures device { device_of self.new ≡ device_of self.old }
    {
        self.head.tick(alloc, meter)
    }

    /// Hears a datagram that came from a meter, as [`HeadCore::hear_why`]. If a row ended, its mark waits for the next commit: only after
    /// it may the row be reported as ended. With it waits the note that the row ended now, and why, if it failed: `now` is the seconds
    /// since 1970 began (UTC). The device isn't touched.
    ///
    /// # Errors
    ///
    /// `OutOfMemory` alone. The head end is then as before. Or a row ended, and memory for the record of its mark or for its note was refused:
    /// the head end is broken then, so that no later commit reports the row, and nothing is known of its end.
    pub fn hear(
        &mut self,
        alloc: Global,
        from: MeterId,
        datagram: &[u8],
        now: u64,
    ) -> Result<Told, KeptError>
        ensures heard { IfOk result (λ told. HeadHears (head_of self.old) from datagram.now told.news (head_of self.new)) }
        // A meter is reported done exactly if its own answer claims what the campaign offers.
        ensures done { IfOk result (λ told. (campaign : Campaign) (meter : ℕ) → (told.news ≡ News.Done campaign meter)
            ↔ ((meter ≡ from) × IsDoneBy (head_of self.old) meter datagram.now campaign)) }
        // The reason is that of the row which is given up, and there is none if no row is.
        ensures reason { IfOk result (λ told. TellsReason (head_of self.old) from datagram.now told.news told.reason) }
        ensures noted { IfOk result (λ told. known_of self.new ≡ known_heard (known_of self.old) told.news told.reason now) }
        ensures known { OnErr result (known_of self.new ≡ known_of self.old) }
        ensures waits { (synced : Contents) → Holds D.honest D.contents D.may_leave self.old synced
            → OnOk result (Holds D.honest D.contents D.may_leave self.new synced) }
        ensures waits_noted { (synced : Contents) (noted : Known) → HoldsNoted D.honest D.contents D.may_leave self.old synced noted
            → OnOk result (HoldsNoted D.honest D.contents D.may_leave self.new synced noted) }
        ensures unchanged { (synced : Contents) → Holds D.honest D.contents D.may_leave self.old synced
            → OnErr result (Holds D.honest D.contents D.may_leave self.new synced ⊎ IsTrue (is_broken self.new)) }
        ensures same { OnErr result ((self.new ≡ self.old) ⊎ LosesMark self.old from datagram.now self.new) }
        ensures memory { OnErr result (RowsMayWant (head_of self.old).rows from datagram.now
            ⊎ LosesMark self.old from datagram.now self.new) }
        ensures refused { IfErr result (λ e. e ≡ KeptError.OutOfMemory) }

        // Also if nothing is committed any more: what is offered stays.
        ensures offers { OfferSame (book_of self.new) (book_of self.old) }
        ensures backed { IsBacked D.may_leave self.old → IsBacked D.may_leave self.new }
        ensures device { device_of self.new ≡ device_of self.old }
    {
        fw_head::laws::row_keeps_goal();
        // For its clauses alone: the live rows are those of the book.
        let _view = self.head.view();
        let Ok(told) = self.head.hear_why(alloc, from, datagram) else {
            return Err(KeptError::OutOfMemory);
        };
        let book = self.head.view().book;
        match keep_end(alloc, &mut self.journal, &mut self.notes, book, &told, now) {
            Ok(()) => Ok(told),
            Err(refusal) => {
                self.broken = true;
                Err(refusal)
            }
        }
    }

    /// Gives up the live row of a meter without an answer, as [`HeadCore::give_up`], and tells which row it was. Its mark waits for the
    /// next commit: only after it may the row be reported as ended. With it waits the note that the row ended now, and why: `now` is the
    /// seconds since 1970 began (UTC). If the meter has no live row, nothing changes. The device isn't touched.
    ///
    /// # Errors
    ///
    /// `OutOfMemory` alone: memory for the record of the mark or for its note was refused. The head end is broken then, so that no later
    /// commit reports the row, and nothing is known of its end.
    pub fn give_up(
        &mut self,
        alloc: Global,
        meter: MeterId,
        why: WhyGivenUp,
        now: u64,
    ) -> Result<Option<GivenUp>, KeptError>
        ensures given_up { IfOk result (λ told. MatchOption told ((row_of (head_of self.old).rows meter ≡ None) × (self.new ≡ self.old))
            (λ given. GivesUpRow (head_of self.old) meter why given (head_of self.new))) }
        ensures noted { IfOk result (λ told. IfSome told (λ given. known_of self.new
            ≡ known_given_up (known_of self.old) meter given now)) }
        ensures known { OnErr result (known_of self.new ≡ known_of self.old) }
        ensures waits { (synced : Contents) → Holds D.honest D.contents D.may_leave self.old synced
            → OnOk result (Holds D.honest D.contents D.may_leave self.new synced) }
        ensures waits_noted { (synced : Contents) (noted : Known) → HoldsNoted D.honest D.contents D.may_leave self.old synced noted
            → OnOk result (HoldsNoted D.honest D.contents D.may_leave self.new synced noted) }
        ensures lost { OnErr result (LosesGivenUp self.old meter why self.new) }
        ensures refused { IfErr result (λ e. e ≡ KeptError.OutOfMemory) }

        // Also if nothing is committed any more: what is offered stays.
        ensures offers { OfferSame (book_of self.new) (book_of self.old) }
        ensures backed { IsBacked D.may_leave self.old → IsBacked D.may_leave self.new }
        ensures device { device_of self.new ≡ device_of self.old }
    {
        let Some(given) = self.head.give_up(meter, why) else {
            return Ok(None);
        };
        let ended = Told {
            news: News::Failed(given.campaign, meter),
            reason: Some(given.reason),
        };
        let book = self.head.view().book;
        match keep_end(alloc, &mut self.journal, &mut self.notes, book, &ended, now) {
            Ok(()) => Ok(Some(given)),
            Err(lost) => {
                self.broken = true;
                Err(lost)
            }
        }
    }

    /// Puts all marks that wait on the device, in one group. From `Ok` on every power cut leaves them; a cut in the call leaves all of them
    /// or none.
    ///
    /// # Errors
    ///
    /// `BookFault` if the head end is broken; else `Full`, `BookFault` or `OutOfMemory`. The head end in memory is as it was. What a cut
    /// leaves is as it was, or the head end is broken.
    pub fn commit(&mut self) -> Result<(), KeptError>
        ensures head { head_of self.new ≡ head_of self.old }
        ensures commits { Commits D.JournalDevice KeptError.BookFault None self.old result self.new (book_of self.old)
            (known_of self.old) }
        ensures known { known_of self.new ≡ known_of self.old }
        ensures full { IsErrOf result KeptError.Full → IsFull (journal_of self.old) }
        ensures refusals { IfErr result IsCommitRefusal }
    {
        self.check_works()?;
        put_waiting(&mut self.journal)
    }

    /// Puts all marks that wait on the device, as `commit`, and then returns what waited for that, the oldest first: it may be reported now.
    /// Nothing waits then.
    ///
    /// # Errors
    ///
    /// `Full`, `BookFault` or `OutOfMemory`, as `commit`. What waits is as before then, and none of it may be reported.
    pub fn commit_and_take<T: Drop>(
        &mut self,
        alloc: Global,
        waiting: &mut Vec<T>,
    ) -> Result<Vec<T>, KeptError>
        ensures taken { IfOk result (λ taken. taken.items ≡ waiting.old.items) }
        ensures emptied { OnOk result (waiting.new.items ≡ []) }
        ensures waits { OnErr result (waiting.new ≡ waiting.old) }
        ensures head { head_of self.new ≡ head_of self.old }
        ensures commits { Commits D.JournalDevice KeptError.BookFault None self.old result self.new (book_of self.old)
            (known_of self.old) }
        ensures known { known_of self.new ≡ known_of self.old }
        ensures full { IsErrOf result KeptError.Full → IsFull (journal_of self.old) }
        ensures refusals { IfErr result IsCommitRefusal }
    {
        self.commit()?;
        Ok(mem::replace(waiting, Vec::new(alloc)))
    }

    /// Writes the journal anew, so that it holds just this book: of each campaign an opening, the endings of its rows, where one is done or
    /// failed, and a cancelling, if it is cancelled; and what is known of it. From `Ok` on every power cut leaves that, with all marks that
    /// waited; a cut in the call leaves the book of the last commit, or that with all marks.
    ///
    /// # Errors
    ///
    /// `BookFault` if the head end is broken; else `NotReplaced`, if the new bytes couldn't be made beside the old ones, and it goes
    /// on; or `BookFault`, if the device failed, or `OutOfMemory`. The head end in memory is as it was. What a cut leaves is as it was,
    /// and the marks wait, or the head end is broken.
    pub fn compact<R: Replacer<D>>(
        &mut self,
        alloc: Global,
        replacer: &mut R,
    ) -> Result<(), RewriteError>
        ensures head { head_of self.new ≡ head_of self.old }
        ensures commits { Commits D.JournalDevice RewriteError.BookFault None self.old result self.new (book_of self.old)
            (known_of self.old) }
        ensures known { known_of self.new ≡ known_of self.old }
        ensures anew { OnOk result (R.made replacer.new (device_of self.new)) }
        ensures goes_on { IsErrOf result RewriteError.NotReplaced → is_broken self.new ≡ false }
        ensures replaced { IsTrue (D.sound (device_of self.old)) → ¬ IsErrOf result RewriteError.NotReplaced }
    {
        match self.check_works() {
            Ok(()) => {
                let book = self.head.view().book;
                write_anew(alloc, &mut self.journal, replacer, book, &self.notes)
            }
            Err(_) => Err(RewriteError::BookFault),
        }
    }
}
