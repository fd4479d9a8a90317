//! The report of a world.

ghost use Rattle.std.specs.Prelude.{◌≡◌, ◌++◌, length, flat_map, OnOk, string_bytes};
ghost use Rattle.std.specs.Option.{option_map};
ghost use Rattle.fw_world.specs.State.{head_at, meter_at};
ghost use Rattle.fw_report.specs.Report.{
  report_of,
  head_lines,
  book_lines,
  campaign_lines,
  row_line,
  meter_lines,
  meter_line,
  activations_line,
  board_line,
};

use fw_book::{Book, Offer, Row};
use fw_names::{HeadId, MeterId};
use fw_rows::{head_number, state_word};
use fw_world::{HeadSetup, MeterSetup, Setup, World};
use std::alloc::AllocError;

/// Appends the report of a world: its rows by head ends, campaigns and meters, then its meters, each in their order, and how many images
/// were switched to. The time that it takes grows with the text alone.
pub fn append_report(text: &mut String, setup: &Setup, world: &World) -> Result<(), AllocError>
    ensures { OnOk result (string_bytes text.new ≡ string_bytes text.old ++ report_of setup.now world.now) }
{
    append_heads(text, &setup.heads, world)?;
    append_meters(text, &setup.meters, world)?;
    append_activations(text, world.activations().len())?;
    Ok(())
}

/// Appends the rows of head ends.
fn append_heads(text: &mut String, heads: &[HeadSetup], world: &World) -> Result<(), AllocError>
    ensures { OnOk result (string_bytes text.new ≡ string_bytes text.old ++ flat_map (λ head. head_lines world.now head) heads.now) }
{
    for head in heads {
        append_head(text, head.head, world)?;
    }
    Ok(())
}

/// Appends the rows of a head end.
fn append_head(text: &mut String, head: HeadId, world: &World) -> Result<(), AllocError>
    ensures { OnOk result (string_bytes text.new
        ≡ string_bytes text.old ++ book_lines head (option_map (λ h. h.book) (head_at world.now head))) }
{
    match world.book(head) {
        Some(book) => append_book(text, head.number(), book),
        None => Ok(()),
    }
}

/// Appends the rows of a book.
fn append_book(text: &mut String, head: u32, book: &Book) -> Result<(), AllocError>
    ensures { OnOk result (string_bytes text.new
        ≡ string_bytes text.old ++ flat_map (λ entry. campaign_lines head entry) book.now.campaigns) }
{
    for (serial, offer) in book.rows() {
        append_rows(text, head, *serial, offer.rows())?;
    }
    Ok(())
}

/// Appends the rows of a campaign.
fn append_rows(text: &mut String, head: u32, serial: u32, rows: &[Row]) -> Result<(), AllocError>
    ensures { OnOk result (string_bytes text.new
        ≡ string_bytes text.old ++ flat_map (λ row. row_line head serial row) rows.now) }
{
    for row in rows {
        append_row(text, head, serial, row)?;
    }
    Ok(())
}

/// Appends the line of a row.
fn append_row(text: &mut String, head: u32, serial: u32, row: &Row) -> Result<(), AllocError>
    ensures { OnOk result (string_bytes text.new ≡ string_bytes text.old ++ row_line head serial row.now) }
{
    let (meter, state) = (row.meter.number(), state_word(row.state));
    write!(text, "row {head} {serial} {meter} {state}\n")
}

/// Appends the lines of meters.
fn append_meters(text: &mut String, meters: &[MeterSetup], world: &World) -> Result<(), AllocError>
    ensures { OnOk result (string_bytes text.new ≡ string_bytes text.old ++ flat_map (λ meter. meter_lines world.now meter) meters.now) }
{
    for meter in meters {
        append_meter(text, meter.meter, world)?;
    }
    Ok(())
}

/// Appends the line of a meter.
fn append_meter(text: &mut String, meter: MeterId, world: &World) -> Result<(), AllocError>
    ensures { OnOk result (string_bytes text.new ≡ string_bytes text.old ++ meter_line meter (meter_at world.now meter)) }
{
    let Some(core) = world.meter(meter) else {
        return Ok(());
    };
    let view = core.view();
    let campaign = view.active.campaign;
    let (number, status, size) = (meter.number(), view.status.number(), view.active_size);
    let (head, serial) = (head_number(campaign), campaign.serial());
    write!(
        text,
        "meter {number} status {status} active {head} {serial} size {size}\n"
    )
}

/// Appends the line that counts the images that were switched to.
fn append_activations(text: &mut String, count: usize) -> Result<(), AllocError>
    ensures { OnOk result (string_bytes text.new ≡ string_bytes text.old ++ activations_line count) }
{
    write!(text, "activations {count}\n")
}

/// Appends the line of the board, which has this number of rows as done.
pub fn append_board(text: &mut String, board: u64) -> Result<(), AllocError>
    ensures { OnOk result (string_bytes text.new ≡ string_bytes text.old ++ board_line board) }
{
    write!(text, "board {board}\n")
}
