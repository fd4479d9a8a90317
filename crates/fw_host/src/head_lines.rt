//! The lines that the commands `head` and `status` print of a book.

ghost use Rattle.std.specs.Prelude.{◌≡◌, IfOk, string_bytes};
ghost use Rattle.fw_rollout.specs.Leading.{state_after};
ghost use Rattle.fw_host.specs.Heads.{cancelled_line, ended_line, kept_line, opened_line, over_line, untaken_line};

use fw_book::RowState;
use fw_ledger::Ending;
use fw_names::{CampaignId, ImageName};
use fw_rollout::{Counts, Ended};
use fw_rows::{append_why, head_number, state_word};
use std::alloc::{AllocError, Global};

/// The line of a campaign that was opened.
pub(crate) fn opened_line(alloc: Global, name: ImageName) -> Result<String, AllocError>
    ensures { IfOk result (λ text. string_bytes text ≡ opened_line name) }
{
    let (head, serial) = (head_number(name.campaign), name.campaign.serial());
    let release = name.release;
    let digest = hex::encode(alloc, name.digest)?;
    format!(in alloc; "opened {head} {serial} {release} {digest}\n")
}

/// The line of a campaign that was cancelled.
pub(crate) fn cancelled_line(alloc: Global, campaign: CampaignId) -> Result<String, AllocError>
    ensures { IfOk result (λ text. string_bytes text ≡ cancelled_line campaign) }
{
    let (head, serial) = (head_number(campaign), campaign.serial());
    format!(in alloc; "cancelled {head} {serial}\n")
}

/// The line of a row that ended, as a report has it, with why it failed, if it did.
pub(crate) fn ended_line(alloc: Global, ended: Ended) -> Result<String, AllocError>
    ensures { IfOk result (λ text. string_bytes text ≡ ended_line ended) }
{
    let Ended {
        campaign,
        meter,
        ending,
        end,
    } = ended;
    let (head, serial) = (head_number(campaign), campaign.serial());
    let (number, state) = (meter.number(), state_word(state_after(ending)));
    let mut line = format!(in alloc; "row {head} {serial} {number} {state}")?;
    append_why(&mut line, end.reason)?;
    line.push_str("\n")?;
    Ok(line)
}

/// The line at the end of the command.
pub(crate) fn over_line(alloc: Global, counts: Counts) -> Result<String, AllocError>
    ensures { IfOk result (λ text. string_bytes text ≡ over_line counts) }
{
    let (done, failed) = (counts.done, counts.failed);
    format!(in alloc; "over done {done} failed {failed}\n")
}

/// The line of whole records that stand behind the shut gate of a book, which lacks them.
pub fn untaken_line(alloc: Global, records: usize) -> Result<String, AllocError>
    ensures { IfOk result (λ text. string_bytes text ≡ untaken_line records) }
{
    if records == 1 {
        format!(in alloc; "1 record behind a shut gate was not taken\n")
    } else {
        format!(in alloc; "{records} records behind a shut gate were not taken\n")
    }
}

/// The same of a head end that keeps them in this file.
pub(crate) fn kept_line(alloc: Global, records: usize, file: &str) -> Result<String, AllocError>
    ensures { IfOk result (λ text. string_bytes text ≡ kept_line records file.now) }
{
    if records == 1 {
        format!(in alloc; "1 record behind a shut gate was not taken; it is kept in {file}\n")
    } else {
        format!(in alloc;
            "{records} records behind a shut gate were not taken; they are kept in {file}\n"
        )
    }
}

/// How a book notes the end of a row.
pub(crate) fn state_after(ending: Ending) -> RowState
    ensures { result ≡ state_after ending }
{
    match ending {
        Ending::Done => RowState::Done,
        Ending::Failed => RowState::Failed,
    }
}
