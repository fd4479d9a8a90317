//! What a report says of a world, whatever its form.

ghost use Rattle.std.specs.Prelude.{◌≡◌, ◌++◌, length, flat_map, IfOk, OnOk};
ghost use Rattle.std.specs.Option.{option_map};
ghost use Rattle.fw_world.specs.State.{head_at, meter_at};
ghost use Rattle.fw_report.specs.Summary.{
  rows_of_world,
  rows_of_head,
  rows_of_book,
  rows_of_campaign,
  row_entry,
  meters_of_world,
  meters_of_setup,
  meter_entries,
};

use fw_book::{Book, Row};
use fw_image::{MeterView, TransferStatus};
use fw_names::{HeadId, MeterId};
use fw_rows::{RowEntry, head_number};
use fw_world::{HeadSetup, MeterSetup, Setup, World};
use std::alloc::{AllocError, Global};

/// A meter, and the image that it runs.
#[derive(Clone, Copy)]
pub(crate) struct MeterEntry {
    /// The meter.
    pub(crate) meter: u32,
    /// Its image_transfer_status.
    pub(crate) status: TransferStatus,
    /// The head end whose campaign offered the image, and 0 for an image that a meter is made with.
    pub(crate) head: u32,
    /// The serial number of that campaign, or 0.
    pub(crate) serial: u32,
    /// The release of the image, and 0 if it has none.
    pub(crate) release: u32,
    /// The bytes of the image.
    pub(crate) size: u32,
}

/// What a report says of a world.
#[derive(Drop)]
pub(crate) struct Summary {
    /// The rows by head ends, campaigns and meters, each in their order.
    pub(crate) rows: Vec<RowEntry>,
    /// The meters in their order.
    pub(crate) meters: Vec<MeterEntry>,
    /// How often meters switched to an image.
    pub(crate) activations: usize,
}

/// What a report says of a world.
pub(crate) fn summary_of(alloc: Global, setup: &Setup, world: &World) -> Result<Summary, AllocError>
    ensures rows { IfOk result (λ s. s.rows.items ≡ rows_of_world setup.now world.now) }
    ensures meters { IfOk result (λ s. s.meters.items ≡ meters_of_world setup.now world.now) }
    ensures activations { IfOk result (λ s. s.activations ≡ length world.now.activations) }
{
    let mut rows = Vec::new(alloc);
    push_heads(&mut rows, &setup.heads, world)?;
    let mut meters = Vec::new(alloc);
    push_meters(&mut meters, &setup.meters, world)?;
    Ok(Summary {
        rows,
        meters,
        activations: world.activations().len(),
    })
}

/// Adds the rows of head ends.
fn push_heads(
    rows: &mut Vec<RowEntry>,
    heads: &[HeadSetup],
    world: &World,
) -> Result<(), AllocError>
    ensures { OnOk result (rows.new.items ≡ rows.old.items ++ flat_map (λ head. rows_of_head world.now head) heads.now) }
{
    for head in heads {
        push_head(rows, head.head, world)?;
    }
    Ok(())
}

/// Adds the rows of a head end.
fn push_head(rows: &mut Vec<RowEntry>, head: HeadId, world: &World) -> Result<(), AllocError>
    ensures { OnOk result (rows.new.items
        ≡ rows.old.items ++ rows_of_book head (option_map (λ h. h.book) (head_at world.now head))) }
{
    match world.book(head) {
        Some(book) => push_book(rows, head.number(), book),
        None => Ok(()),
    }
}

/// Adds the rows of a book.
fn push_book(rows: &mut Vec<RowEntry>, head: u32, book: &Book) -> Result<(), AllocError>
    ensures { OnOk result (rows.new.items
        ≡ rows.old.items ++ flat_map (λ entry. rows_of_campaign head entry) book.now.campaigns) }
{
    for (serial, offer) in book.rows() {
        push_rows(rows, head, *serial, offer.rows())?;
    }
    Ok(())
}

/// Adds the rows of a campaign.
fn push_rows(
    rows: &mut Vec<RowEntry>,
    head: u32,
    serial: u32,
    campaign: &[Row],
) -> Result<(), AllocError>
    ensures { OnOk result (rows.new.items
        ≡ rows.old.items ++ flat_map (λ row. row_entry head serial row) campaign.now) }
{
    for row in campaign {
        rows.push(RowEntry {
            head,
            serial,
            meter: row.meter.number(),
            state: row.state,
        })?;
    }
    Ok(())
}

/// Adds meters.
fn push_meters(
    meters: &mut Vec<MeterEntry>,
    setups: &[MeterSetup],
    world: &World,
) -> Result<(), AllocError>
    ensures { OnOk result (meters.new.items
        ≡ meters.old.items ++ flat_map (λ meter. meters_of_setup world.now meter) setups.now) }
{
    for setup in setups {
        push_meter(meters, setup.meter, world)?;
    }
    Ok(())
}

/// Adds a meter, if it is there.
fn push_meter(meters: &mut Vec<MeterEntry>, meter: MeterId, world: &World) -> Result<(), AllocError>
    ensures { OnOk result (meters.new.items
        ≡ meters.old.items ++ meter_entries meter (meter_at world.now meter)) }
{
    let Some(core) = world.meter(meter) else {
        return Ok(());
    };
    let view = core.view();
    meters.push(meter_entry(meter, &view))?;
    Ok(())
}

/// What a report has of a meter that shows this.
fn meter_entry(meter: MeterId, view: &MeterView) -> MeterEntry
    ensures { result ≡ record {
      meter = meter;
      status = view.now.status;
      head = view.now.active.campaign.head;
      serial = view.now.active.campaign.serial;
      release = view.now.active.release;
      size = view.now.active_size;
    } }
{
    let active = view.active;
    let (number, head) = (meter.number(), head_number(active.campaign));
    let serial = active.campaign.serial();
    MeterEntry {
        meter: number,
        status: view.status,
        head,
        serial,
        release: active.release,
        size: view.active_size,
    }
}
