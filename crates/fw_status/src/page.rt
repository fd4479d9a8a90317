//! A page of HTML: each campaign with a bar of its rows, and the rows by state.

ghost use Rattle.std.specs.Prelude.{◌≡◌, ◌++◌, ℕ, List, codes, OnOk, string_bytes};
ghost use Rattle.hex.specs.Hex.{encode_lower};
ghost use Rattle.fw_status.specs.Campaigns.{AreTold};
ghost use Rattle.fw_status.specs.Page.{
  IsCampaignHtml,
  IsCampaignsPage,
  IsLineOf,
  IsPage,
  IsRowHtml,
  IsTableHtml,
  bar,
  bar_html,
  bar_part,
  count_html,
  details_tag,
  image_html,
  key,
  key_part,
  number_html,
  offer_html,
  page_head,
  reason_html,
  reason_words,
  row_html,
  table_head,
  title_html,
  width_html,
};

use crate::campaign::{CampaignStatus, is_in};
use crate::campaigns::append_time_if;
use crate::rows::{count_of, reason_of, time_of};
use fw_book::{Reason, RowState};
use fw_rows::{NotedRow, append_failure, head_number, state_word};
use std::alloc::{AllocError, Global};

/// What each page begins with, and how its text looks.
const PAGE_TOP: &str =
    "<!DOCTYPE html>\n<html lang=en>\n<meta charset=utf-8>\n<meta name=viewport content='width=device-width'>\n<title>Campaigns</title>\n";

const TEXT_STYLE: &str =
    "<style>\nbody{font:16px/1.5 sans-serif;max-width:60rem;margin:auto;padding:1rem;color:#222}\nh2{font-size:1.2rem;margin:2rem 0 0}\np{margin:.3rem 0}\n";

const BAR_STYLE: &str =
    ".digest{font-family:monospace;overflow-wrap:anywhere;color:#555}\n.bar{display:flex;height:1rem}\np i{display:inline-block;width:.8rem;height:.8rem;margin:0 .3rem}\n";

const STATE_STYLE: &str =
    ".done{background:#2e7d32}\n.live{background:#90caf9}\n.failed{background:#c62828}\n.cancelled{background:#9e9e9e}\n";

const TABLE_STYLE: &str =
    "details{margin-top:2rem;overflow-x:auto}\nsummary{font-weight:bold}\ntd,th{text-align:left;padding:.1rem 1rem .1rem 0}\n</style>\n<h1>Campaigns</h1>\n";

/// Appends a page of campaigns and of their rows by state.
pub(crate) fn append_page(
    alloc: Global,
    text: &mut String,
    campaigns: &[CampaignStatus],
    rows: &[NotedRow],
) -> Result<(), AllocError>
    ensures { OnOk result ((page : List ℕ) × IsPage campaigns.now rows.now page × (string_bytes text.new ≡ string_bytes text.old ++ page)) }
{
    append_campaigns_page(alloc, text, campaigns)?;
    append_table(text, rows, RowState::Failed)?;
    append_table(text, rows, RowState::Live)?;
    append_table(text, rows, RowState::Done)?;
    append_table(text, rows, RowState::Cancelled)
}

/// Appends a page of campaigns.
pub(crate) fn append_campaigns_page(
    alloc: Global,
    text: &mut String,
    campaigns: &[CampaignStatus],
) -> Result<(), AllocError>
    ensures { OnOk result ((page : List ℕ) × IsCampaignsPage campaigns.now page × (string_bytes text.new ≡ string_bytes text.old ++ page)) }
{
    append_head(text)?;
    append_campaigns(alloc, text, campaigns)
}

/// Appends these words.
fn put(text: &mut String, words: &str) -> Result<(), AllocError>
    ensures { OnOk result (string_bytes text.new ≡ string_bytes text.old ++ words.now) }
{
    text.push_str(words)
}

/// Appends what each page begins with.
fn append_head(text: &mut String) -> Result<(), AllocError>
    ensures { OnOk result (string_bytes text.new ≡ string_bytes text.old ++ page_head) }
{
    put(text, PAGE_TOP)?;
    put(text, TEXT_STYLE)?;
    put(text, BAR_STYLE)?;
    put(text, STATE_STYLE)?;
    put(text, TABLE_STYLE)
}

/// Appends each campaign.
fn append_campaigns(
    alloc: Global,
    text: &mut String,
    campaigns: &[CampaignStatus],
) -> Result<(), AllocError>
    ensures { OnOk result ((bars : List ℕ) × AreTold IsCampaignHtml campaigns.now bars
        × (string_bytes text.new ≡ string_bytes text.old ++ bars)) }
{
    for campaign in campaigns {
        append_campaign(alloc, text, campaign)?;
    }
    Ok(())
}

/// Appends a campaign.
fn append_campaign(
    alloc: Global,
    text: &mut String,
    campaign: &CampaignStatus,
) -> Result<(), AllocError>
    ensures { OnOk result ((its : List ℕ) × IsCampaignHtml campaign.now its × (string_bytes text.new ≡ string_bytes text.old ++ its)) }
{
    append_offer(text, campaign)?;
    append_time_if(text, ", opened ", campaign.opened)?;
    append_bar(alloc, text, campaign)
}

/// Appends what a campaign offers.
fn append_offer(text: &mut String, campaign: &CampaignStatus) -> Result<(), AllocError>
    ensures { OnOk result (string_bytes text.new ≡ string_bytes text.old ++ offer_html campaign.now) }
{
    append_title(text, campaign)?;
    append_image(text, campaign)
}

/// Appends the title of a campaign.
fn append_title(text: &mut String, campaign: &CampaignStatus) -> Result<(), AllocError>
    ensures { OnOk result (string_bytes text.new ≡ string_bytes text.old ++ title_html campaign.now) }
{
    put(text, "<h2>Campaign ")?;
    append_number(text, campaign)?;
    put(text, "</h2>\n")
}

/// Appends the head end and the serial number of a campaign.
fn append_number(text: &mut String, campaign: &CampaignStatus) -> Result<(), AllocError>
    ensures { OnOk result (string_bytes text.new ≡ string_bytes text.old ++ number_html campaign.now) }
{
    let name = campaign.name;
    let (head, serial) = (head_number(name.campaign), name.campaign.serial());
    write!(text, "{head} {serial}")
}

/// Appends the release and the size of a campaign's image.
fn append_image(text: &mut String, campaign: &CampaignStatus) -> Result<(), AllocError>
    ensures { OnOk result (string_bytes text.new ≡ string_bytes text.old ++ image_html campaign.now) }
{
    let (release, size) = (campaign.name.release, campaign.size);
    write!(text, "<p>release {release}, {size} bytes")
}

/// Appends the digest of a campaign's image, and the bar of its rows with its key.
fn append_bar(alloc: Global, text: &mut String, campaign: &CampaignStatus) -> Result<(), AllocError>
    ensures { OnOk result (string_bytes text.new ≡ string_bytes text.old ++ bar_html campaign.now) }
{
    put(text, "</p>\n<p class=digest>")?;
    append_digest(alloc, text, campaign)?;
    put(text, "</p>\n<div class=bar>")?;
    append_parts(text, campaign)?;
    put(text, "</div>\n<p>")?;
    append_key(text, campaign)?;
    put(text, "</p>\n")
}

/// Appends the digest of a campaign's image.
fn append_digest(
    alloc: Global,
    text: &mut String,
    campaign: &CampaignStatus,
) -> Result<(), AllocError>
    ensures { OnOk result (string_bytes text.new ≡ string_bytes text.old ++ encode_lower campaign.now.name.digest) }
{
    let digest = hex::encode(alloc, campaign.name.digest)?;
    write!(text, "{digest}")
}

/// Appends the parts of a bar.
fn append_parts(text: &mut String, campaign: &CampaignStatus) -> Result<(), AllocError>
    ensures { OnOk result (string_bytes text.new ≡ string_bytes text.old ++ bar campaign.now) }
{
    append_part(text, RowState::Done, campaign.done)?;
    append_part(text, RowState::Live, campaign.live)?;
    append_part(text, RowState::Failed, campaign.failed)?;
    append_part(text, RowState::Cancelled, campaign.cancelled)
}

/// Appends a part of a bar, as wide as there are rows in this state.
fn append_part(text: &mut String, state: RowState, count: usize) -> Result<(), AllocError>
    ensures { OnOk result (string_bytes text.new ≡ string_bytes text.old ++ bar_part state count) }
{
    put(text, "<i class=")?;
    put(text, state_word(state))?;
    append_width(text, count)
}

/// Appends the width of a part of a bar, and ends it.
fn append_width(text: &mut String, count: usize) -> Result<(), AllocError>
    ensures { OnOk result (string_bytes text.new ≡ string_bytes text.old ++ width_html count) }
{
    write!(text, " style=flex:{count}></i>")
}

/// Appends what the colours of a bar stand for.
fn append_key(text: &mut String, campaign: &CampaignStatus) -> Result<(), AllocError>
    ensures { OnOk result (string_bytes text.new ≡ string_bytes text.old ++ key campaign.now) }
{
    append_key_part(text, RowState::Done, campaign.done)?;
    append_key_part(text, RowState::Live, campaign.live)?;
    append_key_part(text, RowState::Failed, campaign.failed)?;
    append_key_part(text, RowState::Cancelled, campaign.cancelled)
}

/// Appends the colour of a state, and how many rows are in it.
fn append_key_part(text: &mut String, state: RowState, count: usize) -> Result<(), AllocError>
    ensures { OnOk result (string_bytes text.new ≡ string_bytes text.old ++ key_part state count) }
{
    text.push_str("<i class=")?;
    text.push_str(state_word(state))?;
    write!(text, "></i>{count} ")?;
    text.push_str(state_word(state))?;
    text.push_str("\n")
}

/// Appends the table of the rows in a state.
fn append_table(text: &mut String, rows: &[NotedRow], state: RowState) -> Result<(), AllocError>
    ensures { OnOk result ((table : List ℕ) × IsTableHtml state rows.now table × (string_bytes text.new ≡ string_bytes text.old ++ table)) }
{
    append_table_head(text, state, count_of(rows, state))?;
    append_lines(text, rows, state)?;
    put(text, "</table></details>\n")
}

/// Appends what the table of a state begins with.
fn append_table_head(text: &mut String, state: RowState, count: usize) -> Result<(), AllocError>
    ensures { OnOk result (string_bytes text.new ≡ string_bytes text.old ++ table_head state count) }
{
    put(text, details_tag(state))?;
    append_count(text, count)?;
    put(text, state_word(state))?;
    put(text, "</summary>\n<table>\n")?;
    put(text, "<tr><th>campaign<th>meter<th>ended<th>reason\n")
}

/// Appends a count and a space.
fn append_count(text: &mut String, count: usize) -> Result<(), AllocError>
    ensures { OnOk result (string_bytes text.new ≡ string_bytes text.old ++ count_html count) }
{
    write!(text, "{count} ")
}

/// How the table of a state begins: that of the failed rows is shown at once.
fn details_tag(state: RowState) -> &'static str
    ensures { result.now ≡ details_tag state }
{
    match state {
        RowState::Failed => "<details open><summary>",
        RowState::Live | RowState::Done | RowState::Cancelled => "<details><summary>",
    }
}

/// Appends a line for each row in a state.
fn append_lines(text: &mut String, rows: &[NotedRow], state: RowState) -> Result<(), AllocError>
    ensures { OnOk result ((lines : List ℕ) × AreTold (IsLineOf state) rows.now lines
        × (string_bytes text.new ≡ string_bytes text.old ++ lines)) }
{
    for row in rows {
        append_line_of(text, row, state)?;
    }
    Ok(())
}

/// Appends the line of a row, if it is in this state.
fn append_line_of(text: &mut String, row: &NotedRow, state: RowState) -> Result<(), AllocError>
    ensures { OnOk result ((line : List ℕ) × IsLineOf state row.now line × (string_bytes text.new ≡ string_bytes text.old ++ line)) }
{
    if !is_in(state, row.row.state) {
        return Ok(());
    }
    append_row(text, row)
}

/// Appends the line of a row.
fn append_row(text: &mut String, noted: &NotedRow) -> Result<(), AllocError>
    ensures { OnOk result ((line : List ℕ) × IsRowHtml noted.now line × (string_bytes text.new ≡ string_bytes text.old ++ line)) }
{
    append_place(text, noted)?;
    text.push_str("<td>")?;
    append_time_if(text, "", time_of(noted.end))?;
    append_reason(text, noted)
}

/// Appends the campaign and the meter of a row.
fn append_place(text: &mut String, noted: &NotedRow) -> Result<(), AllocError>
    ensures { OnOk result (string_bytes text.new ≡ string_bytes text.old ++ row_html noted.now) }
{
    let (head, serial, meter) = (noted.row.head, noted.row.serial, noted.row.meter);
    write!(text, "<tr><td>{head} {serial}<td>{meter}")
}

/// Appends why a row failed, if that is known, and ends its line.
fn append_reason(text: &mut String, noted: &NotedRow) -> Result<(), AllocError>
    ensures { OnOk result (string_bytes text.new ≡ string_bytes text.old ++ reason_html noted.now) }
{
    text.push_str("<td>")?;
    append_words(text, reason_of(noted.end))?;
    text.push_str("\n")
}

/// Appends the words of a reason, if there is one.
fn append_words(text: &mut String, reason: Option<Reason>) -> Result<(), AllocError>
    ensures { OnOk result (string_bytes text.new ≡ string_bytes text.old ++ reason_words reason) }
{
    match reason {
        Some(reason) => append_failure(text, reason),
        None => Ok(()),
    }
}
