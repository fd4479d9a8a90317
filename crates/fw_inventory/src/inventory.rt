//! What a survey found, in each form.

ghost use Rattle.std.specs.Prelude.{◌≡◌, ◌++◌, OnOk, string_bytes};
ghost use Rattle.fw_inventory.specs.Inventories.{inventory_in};

use crate::csv::append_csv;
use crate::json::append_json;
use crate::table::append_table;
use crate::verdict::Offer;
use fw_survey::Row;
use std::alloc::{AllocError, Global};

/// The form of a report.
#[derive(Clone, Copy)]
pub enum InventoryForm {
    /// A table, with headings.
    Table,
    /// Comma-separated values, with headings (RFC 4180).
    Csv,
    /// JSON, an object on a line (RFC 8259).
    Json,
}

/// Appends what is known of each meter, and what it would do with an image, if one is offered.
pub fn append_inventory(
    alloc: Global,
    text: &mut String,
    form: InventoryForm,
    rows: &[Row],
    offer: Option<Offer>,
) -> Result<(), AllocError>
    ensures { OnOk result (string_bytes text.new ≡ string_bytes text.old ++ inventory_in form rows.now offer) }
{
    match form {
        InventoryForm::Table => append_table(alloc, text, rows, offer),
        InventoryForm::Csv => append_csv(alloc, text, rows, offer),
        InventoryForm::Json => append_json(alloc, text, rows, offer),
    }
}
