//! What an audit prints: lines, as text or each as an object of JSON.

use crate::error::Unaudited;
use fw_audit::{LogItem, Rule};
use fw_capture::CaptureFault;
use fw_evidence::{Audited, Mark, Stray};
use fw_fleet_audit::{RowRule, SwitchRule};
use fw_names::{CampaignId, HeadId, ImageName, MeterId, digest_of};
use fw_order::OrderRule;
use fw_rows::head_number;
use fw_sealport::Unopened;
use serde_json::{Value, json};
use std::alloc::{AllocError, Global};
use std::io::Write;

/// The form of the lines of an audit.
#[derive(Clone, Copy, Debug, PartialEq, Eq)]
pub enum AuditForm {
    /// Words.
    Lines,
    /// An object of JSON in each line.
    Json,
}

/// Whose a record is.
#[derive(Clone, Copy)]
pub(crate) enum Whose {
    /// This meter's.
    Meter(MeterId),
    /// That of the head end of this number, and of 0, if its book has no record.
    Head(u32),
}

/// Writes a text, and flushes it.
pub(crate) fn write_text<W: Write>(writer: &mut W, text: &str) -> Result<(), Unaudited> {
    writer
        .write_all(text.as_bytes())
        .map_err(|_| Unaudited::Output)?;
    writer.flush().map_err(|_| Unaudited::Output)
}

/// Appends an object in a line.
fn append_object(alloc: Global, text: &mut String, value: &Value) -> Result<(), AllocError> {
    let object = value.to_string(alloc)?;
    text.push_str(object.as_str())?;
    text.push_str("\n")
}

/// Appends the line of a file, with the SHA-256 of its bytes.
pub(crate) fn append_file(
    alloc: Global,
    text: &mut String,
    form: AuditForm,
    kind: &str,
    path: &str,
    bytes: &[u8],
) -> Result<(), AllocError> {
    let digest = hex::encode(alloc, digest_of(bytes))?;
    let digest = digest.as_str();
    match form {
        AuditForm::Lines => write!(text, "audited {kind} {path} {digest}\n"),
        AuditForm::Json => {
            let value = json!(in alloc; {"audited": kind, "path": path, "sha256": digest})?;
            append_object(alloc, text, &value)
        }
    }
}

/// Appends the line of a capture of which so many bytes at the end are left out, since a write left them that was cut short.
pub(crate) fn append_cut(
    alloc: Global,
    text: &mut String,
    form: AuditForm,
    path: &str,
    count: usize,
) -> Result<(), AllocError> {
    match form {
        AuditForm::Lines => write!(text, "cut {path} {count} bytes\n"),
        AuditForm::Json => {
            let value = json!(in alloc; {"bytes": count, "cut": path})?;
            append_object(alloc, text, &value)
        }
    }
}

/// Appends the line of a sealed capture of which so many datagrams were passed over.
pub(crate) fn append_passed(
    alloc: Global,
    text: &mut String,
    form: AuditForm,
    path: &str,
    count: usize,
) -> Result<(), AllocError> {
    match form {
        AuditForm::Lines => write!(text, "passed {path} {count} datagrams\n"),
        AuditForm::Json => {
            let value = json!(in alloc; {"datagrams": count, "passed": path})?;
            append_object(alloc, text, &value)
        }
    }
}

/// Appends the line of a meter whose capture and store fit, and one for each image that it switched to.
pub(crate) fn append_fits(
    alloc: Global,
    text: &mut String,
    form: AuditForm,
    meter: MeterId,
    found: &Audited<'_>,
) -> Result<(), AllocError> {
    let datagrams = count_datagrams(&found.log.items);
    let starts = count_starts(&found.log.items);
    append_counts(alloc, text, form, meter, datagrams, starts)?;
    for at in 0..found.images.len() {
        let name = found.images[at].name();
        append_activated(alloc, text, form, meter, name)?;
    }
    Ok(())
}

/// Appends the line of a meter whose capture, with so many datagrams and starts, and store fit.
fn append_counts(
    alloc: Global,
    text: &mut String,
    form: AuditForm,
    meter: MeterId,
    datagrams: usize,
    starts: usize,
) -> Result<(), AllocError> {
    let number = meter.number();
    match form {
        AuditForm::Lines => {
            write!(
                text,
                "meter {number} ok {datagrams} datagrams {starts} starts\n"
            )
        }
        AuditForm::Json => {
            let value = json!(in alloc; {
                "datagrams": datagrams,
                "meter": number,
                "ok": true,
                "starts": starts,
            })?;
            append_object(alloc, text, &value)
        }
    }
}

/// Appends the line of an image that a meter switched to.
fn append_activated(
    alloc: Global,
    text: &mut String,
    form: AuditForm,
    meter: MeterId,
    name: ImageName,
) -> Result<(), AllocError> {
    match form {
        AuditForm::Lines => {
            text.push_str("activated ")?;
            append_named(alloc, text, meter, name)?;
            text.push_str("\n")
        }
        AuditForm::Json => {
            let value = activated_value(alloc, meter, name)?;
            append_object(alloc, text, &value)
        }
    }
}

/// Appends the line of a record of a capture that breaks a rule for an end, or is none of its process, and why.
pub(crate) fn append_record(
    alloc: Global,
    text: &mut String,
    form: AuditForm,
    rule: &str,
    path: &str,
    whose: Whose,
    mark: Mark,
    why: &str,
) -> Result<(), AllocError> {
    let Mark { number, offset } = mark;
    match form {
        AuditForm::Lines => {
            write!(text, "departs {rule} {path} {number} {offset} ")?;
            append_whose(text, whose)?;
            write!(text, ": {why}\n")
        }
        AuditForm::Json => {
            let record = number;
            let value = match whose {
                Whose::Meter(meter) => json!(in alloc; {
                    "departs": rule,
                    "meter": meter.number(),
                    "offset": offset,
                    "path": path,
                    "record": record,
                    "why": why,
                })?,
                Whose::Head(head) => json!(in alloc; {
                    "departs": rule,
                    "head": head,
                    "offset": offset,
                    "path": path,
                    "record": record,
                    "why": why,
                })?,
            };
            append_object(alloc, text, &value)
        }
    }
}

/// Appends whose a record is.
fn append_whose(text: &mut String, whose: Whose) -> Result<(), AllocError> {
    match whose {
        Whose::Meter(meter) => {
            let number = meter.number();
            write!(text, "meter {number}")
        }
        Whose::Head(number) => write!(text, "head {number}"),
    }
}

/// Appends the line of the capture of an end that can't be read on at an offset.
pub(crate) fn append_fault(
    alloc: Global,
    text: &mut String,
    form: AuditForm,
    path: &str,
    whose: Whose,
    fault: CaptureFault,
    offset: usize,
) -> Result<(), AllocError> {
    let rule = fault_name(fault);
    let why = "no record stands there";
    match form {
        AuditForm::Lines => {
            write!(text, "departs {rule} {path} {offset} ")?;
            append_whose(text, whose)?;
            write!(text, ": {why}\n")
        }
        AuditForm::Json => {
            let value = match whose {
                Whose::Meter(meter) => json!(in alloc; {
                    "departs": rule,
                    "meter": meter.number(),
                    "offset": offset,
                    "path": path,
                    "why": why,
                })?,
                Whose::Head(head) => json!(in alloc; {
                    "departs": rule,
                    "head": head,
                    "offset": offset,
                    "path": path,
                    "why": why,
                })?,
            };
            append_object(alloc, text, &value)
        }
    }
}

/// Appends the line of a store that doesn't fit, and why.
pub(crate) fn append_misfit(
    alloc: Global,
    text: &mut String,
    form: AuditForm,
    rule: &str,
    path: &str,
    why: &str,
) -> Result<(), AllocError> {
    match form {
        AuditForm::Lines => write!(text, "departs {rule} {path}: {why}\n"),
        AuditForm::Json => {
            let value = json!(in alloc; {"departs": rule, "path": path, "why": why})?;
            append_object(alloc, text, &value)
        }
    }
}

/// Appends the line of a switch of a meter that no book offers so.
pub(crate) fn append_switch(
    alloc: Global,
    text: &mut String,
    form: AuditForm,
    meter: MeterId,
    name: ImageName,
    broken: SwitchRule,
) -> Result<(), AllocError> {
    let rule = switch_name(broken);
    let why = switch_why(broken);
    match form {
        AuditForm::Lines => {
            write!(text, "departs {rule} ")?;
            append_named(alloc, text, meter, name)?;
            write!(text, ": {why}\n")
        }
        AuditForm::Json => {
            let switch = activated_value(alloc, meter, name)?;
            let value = json!(in alloc; {"departs": rule, "switch": switch, "why": why})?;
            append_object(alloc, text, &value)
        }
    }
}

/// The row of a meter in a campaign of a book.
#[derive(Clone, Copy)]
pub(crate) struct ToldRow {
    pub(crate) campaign: CampaignId,
    pub(crate) meter: MeterId,
}

/// Appends the line of a row of a book that is done and breaks a rule, and why.
pub(crate) fn append_row(
    alloc: Global,
    text: &mut String,
    form: AuditForm,
    rule: &str,
    path: &str,
    row: ToldRow,
    why: &str,
) -> Result<(), AllocError> {
    let ToldRow { campaign, meter } = row;
    let (head, serial, number) = (head_number(campaign), campaign.serial(), meter.number());
    match form {
        AuditForm::Lines => {
            write!(
                text,
                "departs {rule} {path} {head} {serial} {number}: {why}\n"
            )
        }
        AuditForm::Json => {
            let row = json!(in alloc; {"campaign": serial, "head": head, "meter": number})?;
            let value = json!(in alloc; {"departs": rule, "path": path, "row": row, "why": why})?;
            append_object(alloc, text, &value)
        }
    }
}

/// Appends the line of a head end whose capture fits, with so many datagrams and starts.
pub(crate) fn append_head(
    alloc: Global,
    text: &mut String,
    form: AuditForm,
    head: HeadId,
    items: &[LogItem<'_>],
) -> Result<(), AllocError> {
    let number = head.number();
    let (datagrams, starts) = (count_datagrams(items), count_starts(items));
    match form {
        AuditForm::Lines => {
            write!(
                text,
                "head {number} ok {datagrams} datagrams {starts} starts\n"
            )
        }
        AuditForm::Json => {
            let value = json!(in alloc; {
                "datagrams": datagrams,
                "head": number,
                "ok": true,
                "starts": starts,
            })?;
            append_object(alloc, text, &value)
        }
    }
}

/// Appends the line of an order of all that so many ends did, to which so many datagrams came from others.
pub(crate) fn append_order(
    alloc: Global,
    text: &mut String,
    form: AuditForm,
    ends: usize,
    others: usize,
) -> Result<(), AllocError> {
    match form {
        AuditForm::Lines => write!(text, "order ok {ends} ends {others} others\n"),
        AuditForm::Json => {
            let value = json!(in alloc; {"ends": ends, "ok": true, "others": others})?;
            append_object(alloc, text, &value)
        }
    }
}

/// Appends the last line: so many meters, books, head ends and orders don't fit.
pub(crate) fn append_end(
    alloc: Global,
    text: &mut String,
    form: AuditForm,
    departed: u64,
) -> Result<(), AllocError> {
    match form {
        AuditForm::Lines => {
            if departed == 0 {
                text.push_str("ok\n")
            } else {
                write!(text, "departs {departed}\n")
            }
        }
        AuditForm::Json => {
            let value = json!(in alloc; {"departed": departed, "ok": departed == 0})?;
            append_object(alloc, text, &value)
        }
    }
}

/// The name of a rule of logs.
pub(crate) fn rule_name(rule: Rule) -> &'static str {
    match rule {
        Rule::NotStarted => "NotStarted",
        Rule::NothingVerified => "NothingVerified",
        Rule::NothingOwed => "NothingOwed",
        Rule::OtherReply => "OtherReply",
        Rule::ReplyMissing => "ReplyMissing",
    }
}

/// What breaks it.
pub(crate) fn rule_why(rule: Rule) -> &'static str {
    match rule {
        Rule::NotStarted => "its process isn't started",
        Rule::NothingVerified => "a turn, where nothing is verified",
        Rule::NothingOwed => "a datagram is sent, where no reply is owed",
        Rule::OtherReply => "another reply is owed, or one to another address",
        Rule::ReplyMissing => "a reply is owed first, and isn't sent",
    }
}

/// The name of why a record is of no end of its process.
pub(crate) fn stray_name(rule: Stray) -> &'static str {
    match rule {
        Stray::NoEntry => "NoEntry",
        Stray::Elsewhere => "Elsewhere",
        Stray::ToItself => "ToItself",
        Stray::UnnamedTurn => "UnnamedTurn",
        Stray::StartedAsHead => "StartedAsHead",
        Stray::OtherHeads => "OtherHeads",
        Stray::StartedAsMeter => "StartedAsMeter",
        Stray::NoteOfMeter => "NoteOfMeter",
    }
}

/// Why it is none.
pub(crate) fn stray_why(rule: Stray) -> &'static str {
    match rule {
        Stray::NoEntry => "it is neither a datagram nor a note",
        Stray::Elsewhere => "it is of another address than those of its process",
        Stray::ToItself => "both its addresses are those of its process",
        Stray::UnnamedTurn => "a turn, and of which of the meters isn't known",
        Stray::StartedAsHead => "a head end started, and no meter",
        Stray::OtherHeads => "others could ask the meter than the addresses of --head",
        Stray::StartedAsMeter => "meters started, and no head end",
        Stray::NoteOfMeter => "a note of a meter, and none of a head end",
    }
}

/// The name of why a meter didn't seal what it sent.
pub(crate) fn unsealed_name(why: Unopened) -> &'static str {
    match why {
        Unopened::Stranger => "NoKey",
        Unopened::Repeated => "CounterUsed",
        Unopened::NotSealed | Unopened::OutOfMemory => "NotSealed",
    }
}

/// Why it is so.
pub(crate) fn unsealed_why(why: Unopened) -> &'static str {
    match why {
        Unopened::Stranger => "no key file has a link with the end that this goes to",
        Unopened::Repeated => "its counter isn't above those of what was sent there before",
        Unopened::NotSealed | Unopened::OutOfMemory => "the meter didn't seal it under its keys",
    }
}

/// The name of a rule of switches.
fn switch_name(rule: SwitchRule) -> &'static str {
    match rule {
        SwitchRule::NotOffered => "NotOffered",
        SwitchRule::OtherBytes => "OtherBytes",
        SwitchRule::OtherName => "OtherName",
        SwitchRule::ReleaseFell => "ReleaseFell",
    }
}

/// What breaks it.
fn switch_why(rule: SwitchRule) -> &'static str {
    match rule {
        SwitchRule::NotOffered => "no book has its campaign",
        SwitchRule::OtherBytes => "its campaign offers other bytes",
        SwitchRule::OtherName => "its campaign offers it under another name",
        SwitchRule::ReleaseFell => "it ran one of a higher release before",
    }
}

/// The name of a rule of rows.
pub(crate) fn row_name(rule: RowRule) -> &'static str {
    match rule {
        RowRule::NotAudited => "NotAudited",
        RowRule::DoneNotActivated => "DoneNotActivated",
    }
}

/// What breaks it.
pub(crate) fn row_why(rule: RowRule) -> &'static str {
    match rule {
        RowRule::NotAudited => "its meter isn't audited, or doesn't fit",
        RowRule::DoneNotActivated => "its meter didn't switch to the image",
    }
}

/// The name of a rule of orders.
pub(crate) fn order_name(rule: OrderRule) -> &'static str {
    match rule {
        OrderRule::NeverSent => "NeverSent",
        OrderRule::SentLater => "SentLater",
    }
}

/// What breaks it.
pub(crate) fn order_why(rule: OrderRule) -> &'static str {
    match rule {
        OrderRule::NeverSent => "no end with the address that it shows sends it there",
        OrderRule::SentLater => "it is sent only after something that needs it",
    }
}

/// The name of a fault of a capture.
fn fault_name(fault: CaptureFault) -> &'static str {
    match fault {
        CaptureFault::ShortHeader => "ShortHeader",
        CaptureFault::Pcapng => "Pcapng",
        CaptureFault::BadMagic => "BadMagic",
        CaptureFault::BadVersion => "BadVersion",
        CaptureFault::UnknownLink => "UnknownLink",
        CaptureFault::ShortRecord => "ShortRecord",
        CaptureFault::BadFraction => "BadFraction",
        CaptureFault::CutPacket => "CutPacket",
        CaptureFault::ShortLink => "ShortLink",
        CaptureFault::BadIpVersion => "BadIpVersion",
        CaptureFault::ShortIp => "ShortIp",
        CaptureFault::BadIpHeader => "BadIpHeader",
        CaptureFault::BadIpLength => "BadIpLength",
        CaptureFault::BadUdpLength => "BadUdpLength",
    }
}

/// Appends a meter and the name of an image.
fn append_named(
    alloc: Global,
    text: &mut String,
    meter: MeterId,
    name: ImageName,
) -> Result<(), AllocError> {
    let number = meter.number();
    let (head, serial) = (head_number(name.campaign), name.campaign.serial());
    let release = name.release;
    let digest = hex::encode(alloc, name.digest)?;
    write!(text, "{number} {head} {serial} {release} {digest}")
}

/// The value of an image that a meter switched to.
fn activated_value(alloc: Global, meter: MeterId, name: ImageName) -> Result<Value, AllocError> {
    let digest = hex::encode(alloc, name.digest)?;
    json!(in alloc; {
        "activated": meter.number(),
        "digest": digest.as_str(),
        "head": head_number(name.campaign),
        "release": name.release,
        "serial": name.campaign.serial(),
    })
}

/// How many starts a log has.
fn count_starts(items: &[LogItem<'_>]) -> usize {
    let mut count = 0usize;
    for at in 0..items.len() {
        match items[at] {
            LogItem::Started => count = count.saturating_add(1),
            LogItem::Came { .. } | LogItem::Sent { .. } | LogItem::Turned => {}
        }
    }
    count
}

/// How many datagrams a log has.
fn count_datagrams(items: &[LogItem<'_>]) -> usize {
    let mut count = 0usize;
    for at in 0..items.len() {
        match items[at] {
            LogItem::Came { .. } | LogItem::Sent { .. } => count = count.saturating_add(1),
            LogItem::Started | LogItem::Turned => {}
        }
    }
    count
}
