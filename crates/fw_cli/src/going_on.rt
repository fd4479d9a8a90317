//! What a head end goes on with, for who starts it again, and which of it it doesn't lead.

ghost use Rattle.std.specs.Prelude.{◌≡◌, IfOk};
ghost use Rattle.fw_kept.specs.Head.{book_of};
ghost use Rattle.fw_plan.specs.Openings.{unlisted};
ghost use Rattle.fw_host.specs.Openings.{listed_meters};

use fw_book::{Book, Row, RowState};
use fw_host::listed_meters;
use fw_journal::FileDevice;
use fw_kept::KeptHead;
use fw_plan::{UnlistedRow, unlisted};
use fw_rollout::MeterList;
use std::alloc::{AllocError, Global};

/// Tells standard error how far each campaign of the book is that has a live row. A line that can't be written is passed over.
pub(crate) fn tell_going_on<E: Eprint>(rt: &E, book: &Book) {
    let head = book.head().number();
    for (serial, offer) in book.rows() {
        let rows = offer.rows();
        let live = count_in(rows, RowState::Live);
        if live > 0 {
            let done = count_in(rows, RowState::Done);
            let failed = count_in(rows, RowState::Failed);
            let _ = eprintln!(rt;
                "going on with campaign {head} {serial}: {live} live, {done} done, {failed} failed"
            );
        }
    }
}

/// How many of these rows are in this state.
pub(crate) fn count_in(rows: &[Row], state: RowState) -> usize {
    rows.iter().filter(|row| row.state == state).count()
}

/// The live rows of a head end's book whose meter isn't in the list, which aren't led. Standard error is told of each. A line that can't be written is
/// passed over.
pub(crate) fn tell_unlisted<E: Eprint>(
    rt: &E,
    alloc: Global,
    kept: &KeptHead<FileDevice>,
    list: &MeterList,
) -> Result<Vec<UnlistedRow>, AllocError>
    ensures rows { IfOk result (λ rows. rows.items ≡ unlisted (listed_meters list.now) (book_of kept.now)) }
{
    let book = kept.head().view().book;
    let meters = listed_meters(alloc, list.meters())?;
    let rows = unlisted(alloc, book, &meters)?;
    tell_rows(rt, book, &rows);
    Ok(rows)
}

/// Tells standard error that these rows of a book aren't led.
fn tell_rows<E: Eprint>(rt: &E, book: &Book, rows: &[UnlistedRow]) {
    let head = book.head().number();
    for row in rows {
        let campaign = row.serial;
        let meter = row.meter.number();
        let _ = eprintln!(rt;
            "campaign {head} {campaign}: meter {meter} isn't in the list, and isn't led"
        );
    }
}
