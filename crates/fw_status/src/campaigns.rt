//! The campaigns of a book as lines, as comma-separated values and as JSON.

ghost use Rattle.std.specs.Prelude.{◌≡◌, ◌++◌, ℕ, List, codes, flat_map, map, IfOk, OnOk, string_bytes};
ghost use Rattle.serde_json.specs.View.{view};
ghost use Rattle.serde_json.specs.Written.{compact_text};
ghost use Rattle.fw_rows.specs.Noted.{time_data, time_field};
ghost use Rattle.fw_status.specs.Campaigns.{
  AreLines,
  AreTold,
  IsTimeIf,
  campaign_csv,
  campaign_data,
  campaigns_csv,
  campaigns_data,
  campaigns_json,
  counts_data,
  counts_fields,
  counts_lines,
  image_data,
  offer_fields,
  offer_lines,
};

use crate::campaign::CampaignStatus;
use fw_calendar::append_second;
use fw_rows::head_number;
use serde_json::{Value, json};
use std::alloc::{AllocError, Global};

/// The headings of comma-separated values.
const CSV_HEADINGS: &str = "head,campaign,release,size,digest,opened,live,done,failed,cancelled\n";

/// Appends the lines of each campaign.
pub(crate) fn append_lines(
    alloc: Global,
    text: &mut String,
    campaigns: &[CampaignStatus],
) -> Result<(), AllocError>
    ensures { OnOk result ((lines : List ℕ) × AreTold AreLines campaigns.now lines
        × (string_bytes text.new ≡ string_bytes text.old ++ lines)) }
{
    for campaign in campaigns {
        append_campaign(alloc, text, campaign)?;
    }
    Ok(())
}

/// Appends the lines of a campaign.
fn append_campaign(
    alloc: Global,
    text: &mut String,
    campaign: &CampaignStatus,
) -> Result<(), AllocError>
    ensures { OnOk result ((lines : List ℕ) × AreLines campaign.now lines × (string_bytes text.new ≡ string_bytes text.old ++ lines)) }
{
    append_offer(alloc, text, campaign)?;
    append_time_if(text, "\n  opened ", campaign.opened)?;
    append_counts(text, campaign)
}

/// Appends what a campaign offers.
fn append_offer(
    alloc: Global,
    text: &mut String,
    campaign: &CampaignStatus,
) -> Result<(), AllocError>
    ensures { OnOk result (string_bytes text.new ≡ string_bytes text.old ++ offer_lines campaign.now) }
{
    let (name, size) = (campaign.name, campaign.size);
    let (head, serial) = (head_number(name.campaign), name.campaign.serial());
    let release = name.release;
    let digest = hex::encode(alloc, name.digest)?;
    write!(
        text,
        "campaign {head} {serial} release {release} size {size}"
    )?;
    write!(text, "\n  digest {digest}")
}

/// Appends how many rows of a campaign are in which state.
fn append_counts(text: &mut String, campaign: &CampaignStatus) -> Result<(), AllocError>
    ensures { OnOk result (string_bytes text.new ≡ string_bytes text.old ++ counts_lines campaign.now) }
{
    let (live, done) = (campaign.live, campaign.done);
    let (failed, cancelled) = (campaign.failed, campaign.cancelled);
    write!(
        text,
        "\n  live {live} done {done} failed {failed} cancelled {cancelled}\n"
    )
}

/// Appends a time behind a word, if it is known.
pub(crate) fn append_time_if(
    text: &mut String,
    word: &str,
    time: Option<u64>,
) -> Result<(), AllocError>
    ensures { OnOk result ((told : List ℕ) × IsTimeIf word.now time told × (string_bytes text.new ≡ string_bytes text.old ++ told)) }
{
    let Some(time) = time else {
        return Ok(());
    };
    text.push_str(word)?;
    append_second(text, time)
}

/// Appends campaigns as comma-separated values, behind their headings. No number and no digit needs quotes.
pub(crate) fn append_csv(
    alloc: Global,
    text: &mut String,
    campaigns: &[CampaignStatus],
) -> Result<(), AllocError>
    ensures { OnOk result (string_bytes text.new ≡ string_bytes text.old ++ campaigns_csv campaigns.now) }
{
    text.push_str(CSV_HEADINGS)?;
    append_csv_lines(alloc, text, campaigns)
}

/// Appends a line of comma-separated values for each campaign.
fn append_csv_lines(
    alloc: Global,
    text: &mut String,
    campaigns: &[CampaignStatus],
) -> Result<(), AllocError>
    ensures { OnOk result (string_bytes text.new ≡ string_bytes text.old ++ flat_map (λ campaign. campaign_csv campaign) campaigns.now) }
{
    for campaign in campaigns {
        append_csv_line(alloc, text, campaign)?;
    }
    Ok(())
}

/// Appends a campaign as comma-separated values.
fn append_csv_line(
    alloc: Global,
    text: &mut String,
    campaign: &CampaignStatus,
) -> Result<(), AllocError>
    ensures { OnOk result (string_bytes text.new ≡ string_bytes text.old ++ campaign_csv campaign.now) }
{
    append_offer_fields(alloc, text, campaign)?;
    append_counts_fields(text, campaign)
}

/// Appends what a campaign offers, and when it was opened: nothing stands for a time that isn't known.
fn append_offer_fields(
    alloc: Global,
    text: &mut String,
    campaign: &CampaignStatus,
) -> Result<(), AllocError>
    ensures { OnOk result (string_bytes text.new ≡ string_bytes text.old ++ offer_fields campaign.now) }
{
    let (name, size) = (campaign.name, campaign.size);
    let (head, serial) = (head_number(name.campaign), name.campaign.serial());
    let release = name.release;
    let digest = hex::encode(alloc, name.digest)?;
    write!(text, "{head},{serial},{release},{size},{digest}")?;
    append_time_field(text, campaign.opened)
}

/// Appends a comma, and a time, if it is known.
fn append_time_field(text: &mut String, time: Option<u64>) -> Result<(), AllocError>
    ensures { OnOk result (string_bytes text.new ≡ string_bytes text.old ++ time_field time) }
{
    match time {
        Some(time) => write!(text, ",{time}"),
        None => text.push_str(","),
    }
}

/// Appends how many rows of a campaign are in which state, each behind a comma.
fn append_counts_fields(text: &mut String, campaign: &CampaignStatus) -> Result<(), AllocError>
    ensures { OnOk result (string_bytes text.new ≡ string_bytes text.old ++ counts_fields campaign.now) }
{
    let (live, done) = (campaign.live, campaign.done);
    let (failed, cancelled) = (campaign.failed, campaign.cancelled);
    write!(text, ",{live},{done},{failed},{cancelled}\n")
}

/// Appends campaigns as JSON, on a line.
pub(crate) fn append_json(
    alloc: Global,
    text: &mut String,
    campaigns: &[CampaignStatus],
) -> Result<(), AllocError>
    ensures { OnOk result (string_bytes text.new ≡ string_bytes text.old ++ campaigns_json campaigns.now) }
{
    let json = json_text(alloc, campaigns)?;
    text.push_str(json.as_str())?;
    text.push_str("\n")
}

/// The text of campaigns as JSON, without its line feed.
fn json_text(alloc: Global, campaigns: &[CampaignStatus]) -> Result<String, AllocError>
    ensures { IfOk result (λ text. string_bytes text ≡ compact_text (campaigns_data campaigns.now)) }
{
    let value = campaigns_value(alloc, campaigns)?;
    value.to_string(alloc)
}

/// Campaigns as a value of JSON.
fn campaigns_value(alloc: Global, campaigns: &[CampaignStatus]) -> Result<Value, AllocError>
    ensures { IfOk result (λ v. view v ≡ campaigns_data campaigns.now) }
{
    let mut values = Vec::new(alloc);
    push_values(alloc, &mut values, campaigns)?;
    json!(in alloc; {"campaigns": Value::Array(values)})
}

/// Adds the value of each campaign.
fn push_values(
    alloc: Global,
    values: &mut Vec<Value>,
    campaigns: &[CampaignStatus],
) -> Result<(), AllocError>
    ensures { OnOk result (map view values.new.items ≡ map view values.old.items ++ map (λ campaign. campaign_data campaign) campaigns.now) }
{
    for campaign in campaigns {
        values.push(campaign_value(alloc, campaign)?)?;
    }
    Ok(())
}

/// The value of a campaign: null stands for a time that isn't known.
fn campaign_value(alloc: Global, campaign: &CampaignStatus) -> Result<Value, AllocError>
    ensures { IfOk result (λ v. view v ≡ campaign_data campaign.now) }
{
    let image = image_value(alloc, campaign)?;
    let opened = time_value(alloc, campaign.opened)?;
    let rows = counts_value(alloc, campaign)?;
    json!(in alloc; {
        "campaign": campaign.name.campaign.serial(),
        "head": head_number(campaign.name.campaign),
        "image": image,
        "opened": opened,
        "rows": rows,
    })
}

/// The value of what a campaign offers.
fn image_value(alloc: Global, campaign: &CampaignStatus) -> Result<Value, AllocError>
    ensures { IfOk result (λ v. view v ≡ image_data campaign.now) }
{
    let digest = hex::encode(alloc, campaign.name.digest)?;
    json!(in alloc; {
        "digest": digest.as_str(),
        "release": campaign.name.release,
        "size": campaign.size,
    })
}

/// The value of how many rows of a campaign are in which state.
fn counts_value(alloc: Global, campaign: &CampaignStatus) -> Result<Value, AllocError>
    ensures { IfOk result (λ v. view v ≡ counts_data campaign.now) }
{
    json!(in alloc; {
        "cancelled": campaign.cancelled,
        "done": campaign.done,
        "failed": campaign.failed,
        "live": campaign.live,
    })
}

/// The value of a time, and null for one that isn't known.
pub(crate) fn time_value(alloc: Global, time: Option<u64>) -> Result<Value, AllocError>
    ensures { IfOk result (λ v. view v ≡ time_data time) }
{
    match time {
        Some(time) => json!(in alloc; time),
        None => Ok(Value::Null),
    }
}
