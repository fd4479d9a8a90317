//! Whether rows are the live ones of a book. Nothing here takes memory.

ghost use Rattle.std.specs.Prelude.{◌≡◌, ◌≢◌, ◌==◌, [], find, MatchBool};
ghost use Rattle.std.specs.List.{AllByRecursion, list_any};
ghost use Rattle.std.specs.Option.{option_copied};
ghost use Rattle.fw_head.specs.Row.{Row};
ghost use Rattle.fw_head.specs.Head.{row_of};
ghost use Rattle.fw_head.specs.Parts.{by_meter, AreLiveRows, PutRefused};
ghost use Rattle.fw_head.specs.Private.{IsOfBook, repeats, is_row_in, has_rows, has_each};

use crate::error::PutError;
use crate::row::RowCore;
use fw_book::{Book, RowState};
use fw_names::MeterId;

/// Whether the rows are those that are live in the book, each once, for the image that their campaign offers.
fn are_live_rows(book: &Book, rows: &[RowCore]) -> bool
    ensures { MatchBool result (AreLiveRows book.now rows.now) (¬ AreLiveRows book.now rows.now) }
{
    let _head = book.head();
    are_of_book(book, rows) && !repeats(rows) && has_each(rows, book)
}

/// Why rows are refused that no memory was had for: `OutOfMemory` if they are the live ones of the book, and otherwise
/// `WrongRows`.
pub(crate) fn refusal(book: &Book, rows: &[RowCore]) -> PutError
    requires { rows.now ≢ [] }
    ensures { PutRefused book.now rows.now result }
{
    if are_live_rows(book, rows) {
        PutError::OutOfMemory
    } else {
        PutError::WrongRows
    }
}

/// Whether each row is live in the book, for the image that its campaign offers.
pub(crate) fn are_of_book(book: &Book, rows: &[RowCore]) -> bool
    ensures { MatchBool result (AllByRecursion (IsOfBook book.now) rows.now) (¬ AllByRecursion (IsOfBook book.now) rows.now) }
{
    let mut rest = rows;
    while let Some((row, others)) = rest.split_first() {
        if !is_of_book(book, row) {
            return false;
        }
        rest = others;
    }
    true
}

/// Whether the row is live in the book, for the image that its campaign offers.
fn is_of_book(book: &Book, row: &RowCore) -> bool
    ensures { MatchBool result (IsOfBook book.now row.now) (¬ IsOfBook book.now row.now) }
{
    let campaign = row.name().campaign;
    let Some(RowState::Live) = book.state(campaign, row.meter()) else {
        return false;
    };
    if book.name(campaign) != Some(row.name()) {
        return false;
    }
    match book.offer(campaign) {
        Some(offer) => offer.image().len() == row.size() as usize,
        None => false,
    }
}

/// Whether two rows are of one meter. The cost grows with the square of the number of rows.
fn repeats(rows: &[RowCore]) -> bool
    ensures { result ≡ repeats rows.now }
{
    let mut rest = rows;
    while let Some((first, others)) = rest.split_first() {
        if has_meter(others, first.meter()) {
            return true;
        }
        rest = others;
    }
    false
}

/// Whether a row is the meter's.
fn has_meter(rows: &[RowCore], meter: MeterId) -> bool
    ensures { result ≡ list_any (λ (row : Row). row.client.meter == meter) rows.now }
{
    rows.iter().any(|row| row.meter() == meter)
}

/// Whether each meter that is live in the book has a row of its campaign.
fn has_each(rows: &[RowCore], book: &Book) -> bool
    ensures { result ≡ has_each (by_meter rows.now) book.now.campaigns }
{
    book.rows()
        .all(|(serial, offer)| has_rows(rows, *serial, offer.rows()))
}

/// Whether each meter that is live in these rows of a campaign has a row of that campaign.
fn has_rows(rows: &[RowCore], serial: u32, meters: &[fw_book::Row]) -> bool
    ensures { result ≡ has_rows (by_meter rows.now) serial meters.now }
{
    meters.iter().all(|row| !row.state.is_live() || has_row(rows, serial, row.meter))
}

/// Whether the meter has a row of the campaign.
fn has_row(rows: &[RowCore], serial: u32, meter: MeterId) -> bool
    ensures { result ≡ is_row_in serial (row_of (by_meter rows.now) meter) }
{
    find(rows, meter).is_some_and(|row| row.name().campaign.serial() == serial)
}

/// The first row of the meter.
fn find(rows: &[RowCore], meter: MeterId) -> Option<&RowCore>
    ensures { option_copied result ≡ find (λ (row : Row). meter == row.client.meter) rows.now }
{
    rows.iter().find(|row| meter == row.meter())
}
