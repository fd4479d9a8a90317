//! The page of a head end's metrics, for a collector that reads text files.

ghost use Rattle.std.specs.Prelude.{◌≡◌, ◌++◌, IfOk, OnOk, flat_map, string_bytes};
ghost use Rattle.fw_events.specs.Metrics.{
  book_family,
  campaign_samples,
  counter_family,
  counters,
  datagrams_family,
  metrics_page,
  rows_family,
};

use crate::figures::Figures;
use crate::sample::{append_book_sample, append_heading, append_row_sample, append_sample};
use fw_names::HeadId;
use fw_status::CampaignStatus;
use std::alloc::{AllocError, Global};

/// The metrics of a head end: the path of its book, how many rows of each campaign are in which state, and what it counted since it began.
///
/// # Errors
///
/// `AllocError` alone.
pub fn metrics_page(
    alloc: Global,
    head: HeadId,
    book: &str,
    campaigns: &[CampaignStatus],
    figures: Figures,
) -> Result<String, AllocError>
    ensures { IfOk result (λ page. string_bytes page ≡ metrics_page head book.now campaigns.now figures) }
{
    let mut page = String::new(alloc);
    let number = head.number();
    append_book(&mut page, number, book)?;
    append_rows(&mut page, number, campaigns)?;
    append_counters(&mut page, number, figures)?;
    Ok(page)
}

/// Appends which book a head end has.
fn append_book(text: &mut String, head: u32, book: &str) -> Result<(), AllocError>
    ensures { OnOk result (string_bytes text.new ≡ string_bytes text.old ++ book_family head book.now) }
{
    append_heading(text, "dlmsfw_book_info", "The book of a head end.", "gauge")?;
    append_book_sample(text, head, book)
}

/// Appends the rows of campaigns by their states.
fn append_rows(text: &mut String, head: u32, campaigns: &[CampaignStatus]) -> Result<(), AllocError>
    ensures { OnOk result (string_bytes text.new ≡ string_bytes text.old ++ rows_family head campaigns.now) }
{
    append_heading(text, "dlmsfw_rows", "Rows of a campaign by state.", "gauge")?;
    append_campaigns(text, head, campaigns)
}

/// Appends the samples of campaigns.
fn append_campaigns(
    text: &mut String,
    head: u32,
    campaigns: &[CampaignStatus],
) -> Result<(), AllocError>
    ensures { OnOk result (string_bytes text.new
        ≡ string_bytes text.old ++ flat_map (λ campaign. campaign_samples head campaign) campaigns.now) }
{
    for campaign in campaigns {
        append_campaign(text, head, campaign)?;
    }
    Ok(())
}

/// Appends the samples of a campaign: how many of its rows are in each state.
fn append_campaign(
    text: &mut String,
    head: u32,
    campaign: &CampaignStatus,
) -> Result<(), AllocError>
    ensures { OnOk result (string_bytes text.new ≡ string_bytes text.old ++ campaign_samples head campaign.now) }
{
    let serial = campaign.name.campaign.serial();
    append_row_sample(text, head, serial, "live", campaign.live)?;
    append_row_sample(text, head, serial, "done", campaign.done)?;
    append_row_sample(text, head, serial, "failed", campaign.failed)?;
    append_row_sample(text, head, serial, "cancelled", campaign.cancelled)
}

/// Appends what a head end counted.
fn append_counters(text: &mut String, head: u32, figures: Figures) -> Result<(), AllocError>
    ensures { OnOk result (string_bytes text.new ≡ string_bytes text.old ++ counters head figures) }
{
    append_datagrams(text, head, figures.sent, figures.received)?;
    append_counter(
        text,
        "dlmsfw_resends_total",
        "Rows asked again since no answer came.",
        head,
        figures.resends,
    )?;
    append_counter(
        text,
        "dlmsfw_strangers_total",
        "Datagrams from addresses that are not in the list.",
        head,
        figures.strangers,
    )?;
    append_counter(
        text,
        "dlmsfw_unopened_total",
        "Datagrams of sealed links that did not open.",
        head,
        figures.unopened,
    )?;
    append_counter(
        text,
        "dlmsfw_socket_faults_total",
        "Failures of the socket.",
        head,
        figures.faults,
    )
}

/// Appends how many datagrams went each way.
fn append_datagrams(
    text: &mut String,
    head: u32,
    sent: u64,
    received: u64,
) -> Result<(), AllocError>
    ensures { OnOk result (string_bytes text.new ≡ string_bytes text.old ++ datagrams_family head sent received) }
{
    append_heading(
        text,
        "dlmsfw_datagrams_total",
        "Datagrams to and from meters of the list.",
        "counter",
    )?;
    append_sample(
        text,
        "dlmsfw_datagrams_total",
        head,
        ",direction=\"sent\"",
        sent,
    )?;
    append_sample(
        text,
        "dlmsfw_datagrams_total",
        head,
        ",direction=\"received\"",
        received,
    )
}

/// Appends a counter of a head end with its one sample.
fn append_counter(
    text: &mut String,
    name: &str,
    help: &str,
    head: u32,
    value: u64,
) -> Result<(), AllocError>
    ensures { OnOk result (string_bytes text.new ≡ string_bytes text.old ++ counter_family name.now help.now head value) }
{
    append_heading(text, name, help, "counter")?;
    append_sample(text, name, head, "", value)
}
