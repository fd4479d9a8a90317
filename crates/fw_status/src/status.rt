//! What a book tells, in the form that is asked for.

ghost use Rattle.std.specs.Prelude.{◌≡◌, ◌++◌, ℕ, List, OnOk, string_bytes};
ghost use Rattle.fw_status.specs.Forms.{Tells, TellsCampaigns, TellsRows};

use crate::campaign::CampaignStatus;
use crate::{campaigns, page, rows};
use fw_rows::NotedRow;
use std::alloc::{AllocError, Global};

/// The form of what is told.
#[derive(Clone, Copy)]
pub enum StatusForm {
    /// A table of rows with headings, and how many are in which state; or some lines for each campaign.
    Table,
    /// Comma-separated values (RFC 4180) with a header line.
    Csv,
    /// One object of JSON (RFC 8259), on one line.
    Json,
    /// A page of HTML that needs nothing from outside. It has the campaigns also where rows are asked for.
    Html,
}

/// What is listed.
#[derive(Clone, Copy)]
pub enum Listing {
    /// Each row.
    Rows,
    /// Each campaign, with what it offers and how many of its rows are in which state.
    Campaigns,
}

/// Appends what a book tells with these campaigns and rows.
pub fn append_status(
    alloc: Global,
    text: &mut String,
    form: StatusForm,
    listing: Listing,
    campaigns: &[CampaignStatus],
    rows: &[NotedRow],
) -> Result<(), AllocError>
    ensures { OnOk result ((told : List ℕ) × Tells form listing campaigns.now rows.now told × (string_bytes text.new ≡ string_bytes text.old ++ told)) }
{
    match listing {
        Listing::Rows => append_rows(alloc, text, form, campaigns, rows),
        Listing::Campaigns => append_campaigns(alloc, text, form, campaigns),
    }
}

/// Appends each row of a book.
fn append_rows(
    alloc: Global,
    text: &mut String,
    form: StatusForm,
    campaigns: &[CampaignStatus],
    rows: &[NotedRow],
) -> Result<(), AllocError>
    ensures { OnOk result ((told : List ℕ) × TellsRows form campaigns.now rows.now told × (string_bytes text.new ≡ string_bytes text.old ++ told)) }
{
    match form {
        StatusForm::Table => rows::append_table(text, rows),
        StatusForm::Csv => rows::append_csv(text, rows),
        StatusForm::Json => rows::append_json(alloc, text, rows),
        StatusForm::Html => page::append_page(alloc, text, campaigns, rows),
    }
}

/// Appends each campaign of a book.
fn append_campaigns(
    alloc: Global,
    text: &mut String,
    form: StatusForm,
    campaigns: &[CampaignStatus],
) -> Result<(), AllocError>
    ensures { OnOk result ((told : List ℕ) × TellsCampaigns form campaigns.now told × (string_bytes text.new ≡ string_bytes text.old ++ told)) }
{
    match form {
        StatusForm::Table => campaigns::append_lines(alloc, text, campaigns),
        StatusForm::Csv => campaigns::append_csv(alloc, text, campaigns),
        StatusForm::Json => campaigns::append_json(alloc, text, campaigns),
        StatusForm::Html => page::append_campaigns_page(alloc, text, campaigns),
    }
}
