//! The live rows of a head end.

ghost use Rattle.std.specs.Prelude.{◌≡◌, ◌≤◌, ◌==◌, nat_eq, not, true, None, [], ◌∷◌, ◌++◌, length};
ghost use Rattle.std.specs.Prelude.{All, IsTrue, MatchBool, IsSomeAnd, IfOk, IfErr, IsOk, OnOk, OnErr};
ghost use Rattle.std.specs.List.{IsDistinct, AllByRecursion};
ghost use Rattle.std.specs.Map.{keys_of, values_of};
ghost use Rattle.indexmap.specs.IndexMap.{spare};
ghost use Rattle.std.specs.Option.{option_copied, option_map_or};
ghost use Rattle.fw_blocks.specs.Width.{max_width};
ghost use Rattle.fw_head.specs.Phase.{IsLive, has_ended};
ghost use Rattle.fw_head.specs.Row.{Row, bytes_of, new_row, sends, ticked, IsPermitted};
ghost use Rattle.fw_head.specs.Private.{IsOwnNews, IsOfBook, is_row_in, has_rows, has_each, live_meters, live_rows};
ghost use Rattle.fw_head.specs.Parts.{by_meter, still_live, with_ends, AreLiveRows, PutRefused};
ghost use Rattle.fw_head.specs.Head.{row_of, at_meter, without_meter, without_serial, new_rows, reopened_rows, renewed, RowsHear, RowsMayWant};
ghost use Rattle.fw_head.specs.Head.{has_live_row};
ghost use Rattle.fw_book.specs.Rows.{has_live};
ghost use Rattle.fw_book.specs.Contents.{IsBook};

use crate::error::PutError;
use crate::matching::{are_of_book, refusal};
use crate::news::RowNews;
use crate::row::RowCore;
use fw_blocks::Width;
use fw_book::Book;
use fw_client::OutOfMemory;
use fw_names::{CampaignId, ImageName, MeterId};
use indexmap::IndexMap;
use indexmap::map::{IntoValues, Values};
use std::alloc::{AllocError, Global};

/// The rows of a head end, each of a meter of its own. Those of a new campaign come last, and the last row takes the place of one that
/// ends.
pub type LiveRows<'a> = Values<'a, u32, RowCore>;

/// The same by value.
pub type TakenRows = IntoValues<u32, RowCore>;

/// The live rows by the numbers of their meters: a meter is live in one campaign at most. Contracts see the entries of the map, and
/// the room that is left in it.
pub(crate) struct Rows {
    rows: IndexMap<u32, RowCore>,
}

// Written out, so that letting go of it is one call in a proof. A derived `Drop` is unfolded there field by field, which takes minutes.
impl Drop for Rows {
    fn drop(self) {
        let Rows { rows: _ } = self;
    }
}

impl Rows {
    /// No row. It keeps the allocator, and takes no memory.
    pub(crate) fn new(alloc: Global) -> Rows
        ensures { result.rows.entries ≡ [] }
    {
        Rows {
            rows: IndexMap::new(alloc),
        }
    }

    /// The row of a meter.
    pub(crate) fn get(&self, meter: MeterId) -> Option<&RowCore>
        ensures { option_copied result ≡ row_of self.now.rows.entries meter }
    {
        self.rows.get(&meter.number())
    }

    /// Every row.
    pub(crate) fn all(&self) -> LiveRows<'_>
        ensures { result ≡ values_of self.now.rows.entries }
    {
        self.rows.values()
    }

    /// Every row, by value.
    pub(crate) fn take_all(self) -> TakenRows
        ensures { result ≡ values_of self.rows.entries }
    {
        let Rows { rows } = self;
        rows.into_values()
    }

    /// A reopened row for each meter that is live in the book.
    ///
    /// # Errors
    ///
    /// `OutOfMemory` alone, and only if a campaign of the book has a live row.
    pub(crate) fn live_in(alloc: Global, book: &Book) -> Result<Rows, OutOfMemory>
        ensures is_book { IsBook book.now }
        ensures rows { IfOk result (λ live. live.rows.entries ≡ live_rows book.now.head book.now.campaigns) }
        ensures memory { OnErr result (has_live_row book.now ≡ true) }
    {
        let head = book.head();
        let mut live = Rows::new(alloc);
        for (serial, offer) in book.rows() {
            let Some(campaign) = CampaignId::new(head, *serial) else {
                unreachable!();
            };
            let name = offer.name(campaign);
            let size = offer.image().len() as u32;
            live.add_live(name, size, offer.rows())?;
        }
        Ok(live)
    }

    /// A reopened row for each meter that is live in these rows, and has none.
    ///
    /// # Errors
    ///
    /// `OutOfMemory` alone, and only if one of the rows is live.
    fn add_live(
        &mut self,
        name: ImageName,
        size: u32,
        rows: &[fw_book::Row],
    ) -> Result<(), OutOfMemory>
        requires once { IsDistinct nat_eq (keys_of self.old.rows.entries ++ live_meters rows.now) }
        ensures added { OnOk result (self.new.rows.entries ≡ self.old.rows.entries ++ reopened_rows name size (live_meters rows.now)) }
        ensures memory { OnErr result (has_live rows.now ≡ true) }
    {
        for row in rows {
            if !row.state.is_live() {
                continue;
            }
            self.add_row(RowCore::reopened(row.meter, name, size))?;
        }
        Ok(())
    }

    /// Adds the row of a meter that has none.
    fn add_row(&mut self, row: RowCore) -> Result<(), OutOfMemory>
        requires none { row_of self.old.rows.entries row.client.meter ≡ None }
        ensures { OnOk result (self.new.rows.entries ≡ self.old.rows.entries ++ (row.client.meter, row) ∷ []) }
    {
        match self.rows.insert(row.meter().number(), row) {
            Ok(_) => Ok(()),
            Err(_) => Err(OutOfMemory),
        }
    }

    /// Rows that are the live ones of the book.
    ///
    /// # Errors
    ///
    /// `WrongRows` if they are not. Otherwise `OutOfMemory` alone, and only if there are rows.
    pub(crate) fn of_book(alloc: Global, book: &Book, rows: Vec<RowCore>) -> Result<Rows, PutError>
        ensures rows { IfOk result (λ live. live.rows.entries ≡ by_meter rows.items) }
        ensures live { OnOk result (AreLiveRows book.now rows.items) }
        ensures refused { IfErr result (PutRefused book.now rows.items) }
    {
        let _head = book.head();
        let mut live = Rows::new(alloc);
        if live.reserve(rows.len()).is_err() {
            return Err(refusal(book, &rows));
        }
        if !are_of_book(book, &rows) {
            return Err(PutError::WrongRows);
        }
        if !live.gather(rows) {
            return Err(PutError::WrongRows);
        }
        if !live.has_each(book) {
            return Err(PutError::WrongRows);
        }
        Ok(live)
    }

    /// Adds rows to none, for which there is room, as far as no two are of one meter. Returns whether that is all of them.
    fn gather(&mut self, rows: Vec<RowCore>) -> bool
        requires none { self.old.rows.entries ≡ [] }
        requires room { length rows.items ≤ spare self.old.rows }
        ensures all { IsTrue result → self.new.rows.entries ≡ by_meter rows.items }
        ensures once { MatchBool result
            (IsDistinct nat_eq (keys_of (by_meter rows.items))) (¬ IsDistinct nat_eq (keys_of (by_meter rows.items))) }
    {
        for row in rows {
            match self.rows.insert(row.meter().number(), row) {
                Ok(None) => {}
                Ok(Some(_)) => return false,
                Err(_) => unreachable!(),
            }
        }
        true
    }

    /// Whether each meter that is live in the book has a row of its campaign.
    fn has_each(&self, book: &Book) -> bool
        ensures { result ≡ has_each self.now.rows.entries book.now.campaigns }
    {
        book.rows()
            .all(|(serial, offer)| self.has_rows(*serial, offer.rows()))
    }

    /// Whether each meter that is live in these rows of a campaign has a row of that campaign.
    fn has_rows(&self, serial: u32, meters: &[fw_book::Row]) -> bool
        ensures { result ≡ has_rows self.now.rows.entries serial meters.now }
    {
        meters.iter().all(|row| !row.state.is_live() || self.has_row(serial, row.meter))
    }

    /// Whether the meter has a row of the campaign.
    fn has_row(&self, serial: u32, meter: MeterId) -> bool
        ensures { result ≡ is_row_in serial (row_of self.now.rows.entries meter) }
    {
        self.get(meter)
            .is_some_and(|row| row.name().campaign.serial() == serial)
    }

    /// Marks in the book how each row ended that did.
    pub(crate) fn mark_ended(&self, book: &mut Book)
        requires of_book { AllByRecursion (IsOfBook book.old) (values_of self.now.rows.entries) }
        requires once { IsDistinct nat_eq (keys_of (by_meter (values_of self.now.rows.entries))) }
        ensures { book.new ≡ with_ends book.old (values_of self.now.rows.entries) }
    {
        fw_book::laws::states_follow();
        fw_book::laws::images_stay();
        for row in self.all() {
            row.mark_end(book);
        }
    }

    /// Takes out the rows that have ended.
    pub(crate) fn keep_live(&mut self)
        ensures { self.new.rows.entries ≡ still_live self.old.rows.entries }
    {
        self.rows.retain(
            |_number: &u32, row: &mut RowCore| -> bool
                ensures { (result ≡ not (has_ended row.old.stage)) × (row.new ≡ row.old) }
            { !row.has_ended() },
        );
    }

    /// Makes room for `more` rows more.
    pub(crate) fn reserve(&mut self, more: usize) -> Result<(), AllocError>
        ensures same { self.new.rows.entries ≡ self.old.rows.entries }
        ensures room { OnOk result (more ≤ spare self.new.rows) }
        ensures succeeds { more ≤ spare self.old.rows → IsOk result }
    {
        self.rows.reserve(more)
    }

    /// The datagrams that a meter's row sends now, none if it has no row.
    pub(crate) fn tick(
        &mut self,
        alloc: Global,
        meter: MeterId,
        image: &[u8],
        width: Width,
    ) -> Result<Vec<Vec<u8>>, OutOfMemory>
        ensures sent { IfOk result (λ sent. bytes_of sent.items
            ≡ option_map_or (λ row. sends row image.now width) (row_of self.old.rows.entries meter) []) }
        ensures permitted { IfOk result (λ sent. (row : Row) → row_of self.old.rows.entries meter ≡ Some row
            → length image.now ≡ row.size → All (IsPermitted row.name image.now) (bytes_of sent.items)) }
        ensures most { IfOk result (λ sent. length sent.items ≤ max_width) }
        ensures ticked { OnOk result (self.new.rows.entries ≡ at_meter meter (λ row. ticked row image.now width) self.old.rows.entries) }
        ensures same { OnErr result (self.new.rows.entries ≡ self.old.rows.entries) }
        ensures memory { OnErr result (IsSomeAnd (row_of self.old.rows.entries meter) (λ row. IsLive row.stage)) }
    {
        match self.rows.get_mut(&meter.number()) {
            Some(row) => row.tick(alloc, image, width),
            None => Ok(Vec::new(alloc)),
        }
    }

    /// A meter's row hears a datagram: nothing if the meter has no row.
    pub(crate) fn hear(
        &mut self,
        alloc: Global,
        meter: MeterId,
        datagram: &[u8],
    ) -> Result<RowNews, OutOfMemory>
        ensures heard { IfOk result (λ told. RowsHear self.old.rows.entries meter datagram.now told self.new.rows.entries) }
        ensures claimed { IfOk result (λ told. (row : Row) → row_of self.old.rows.entries meter ≡ Some row
            → IsOwnNews row.client.meter row.name told) }
        ensures same { OnErr result (self.new.rows.entries ≡ self.old.rows.entries) }
        ensures memory { OnErr result (RowsMayWant self.old.rows.entries meter datagram.now) }
    {
        match self.rows.get_mut(&meter.number()) {
            Some(row) => row.hear(alloc, datagram),
            None => Ok(RowNews::Nothing),
        }
    }

    /// Takes out the row of a meter, and moves the last row to its place. No other row is looked at.
    pub(crate) fn end(&mut self, meter: MeterId)
        ensures { self.new.rows.entries ≡ without_meter meter self.old.rows.entries }
    {
        let _row = self.rows.swap_remove(&meter.number());
    }

    /// Takes out the rows of the campaign of this serial number.
    pub(crate) fn cancel(&mut self, serial: u32)
        ensures { self.new.rows.entries ≡ without_serial serial self.old.rows.entries }
    {
        self.rows.retain(
            |_number: &u32, row: &mut RowCore| -> bool
                ensures { (result ≡ not (row.old.name.campaign.serial == serial)) × (row.new ≡ row.old) }
            { row.name().campaign.serial() != serial },
        );
    }

    /// Makes each row new.
    pub(crate) fn restart(&mut self)
        ensures { self.new.rows.entries ≡ renewed self.old.rows.entries }
    {
        self.rows.retain(
            |_number: &u32, row: &mut RowCore| -> bool
                ensures { (result ≡ true) × (row.new ≡ new_row row.old.client.meter row.old.name row.old.size) }
            {
                row.restart();
                true
            },
        );
    }

    /// A new row for each of the meters, that have none and for which there is room.
    pub(crate) fn add(&mut self, name: ImageName, size: u32, meters: &[MeterId])
        requires room { length meters.now ≤ spare self.old.rows }
        requires once { IsDistinct nat_eq (keys_of self.old.rows.entries ++ meters.now) }
        ensures { self.new.rows.entries ≡ self.old.rows.entries ++ new_rows name size meters.now }
    {
        for meter in meters {
            let row = RowCore::new(*meter, name, size);
            match self.rows.insert(meter.number(), row) {
                Ok(_) => {}
                Err(_) => unreachable!(),
            }
        }
    }
}
