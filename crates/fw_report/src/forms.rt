//! The forms of a report.

ghost use Rattle.std.specs.Prelude.{◌≡◌, ◌++◌, OnOk, string_bytes};
ghost use Rattle.fw_report.specs.Forms.{report_lines, report_in};

use crate::json::append_json;
use crate::refusal::{Refusal, append_refusal};
use crate::report::append_report;
use crate::summary::summary_of;
use crate::table::append_table;
use fw_world::{Setup, World};
use std::alloc::{AllocError, Global};

/// The form of a report.
#[derive(Clone, Copy)]
pub enum ReportForm {
    /// A line for each row, for each meter, and for how many images were switched to, made of words and numbers.
    Lines,
    /// The same in tables, with headings and the releases of images.
    Table,
    /// The same as JSON, in one object on one line.
    Json,
}

/// How a run is reported.
#[derive(Clone, Copy)]
pub struct Style {
    /// Whether a line for each datagram that was sent stands before the report.
    pub trace: bool,
    /// The form of the report.
    pub report: ReportForm,
}

/// Appends the report of a world in this form, with the event that was refused there, if one was.
pub fn append_report_in(
    alloc: Global,
    text: &mut String,
    setup: &Setup,
    world: &World,
    form: ReportForm,
    refusal: Option<Refusal>,
) -> Result<(), AllocError>
    ensures { OnOk result (string_bytes text.new ≡ string_bytes text.old ++ report_in form setup.now world.now refusal) }
{
    match form {
        ReportForm::Lines => append_lines(text, setup, world, refusal),
        ReportForm::Table => {
            let summary = summary_of(alloc, setup, world)?;
            append_table(text, &summary, refusal)
        }
        ReportForm::Json => {
            let summary = summary_of(alloc, setup, world)?;
            append_json(alloc, text, &summary, refusal)
        }
    }
}

/// Appends the report of a world in lines, and the line of the event that was refused, if one was.
fn append_lines(
    text: &mut String,
    setup: &Setup,
    world: &World,
    refusal: Option<Refusal>,
) -> Result<(), AllocError>
    ensures { OnOk result (string_bytes text.new ≡ string_bytes text.old ++ report_lines setup.now world.now refusal) }
{
    append_report(text, setup, world)?;
    append_refusal(text, refusal)
}
