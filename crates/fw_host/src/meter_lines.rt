//! The lines that the command `meter` prints.

ghost use Rattle.std.specs.Prelude.{◌≡◌, ◌++◌, IfOk, OnOk, string_bytes};
ghost use Rattle.fw_host.specs.Meters.{
  cause_words,
  count_words,
  dropped_line,
  event_line,
  event_words,
  image_words,
  listening_line,
  meter_start,
  refused_words,
  title_words,
  work_words,
};

use fw_daemon::{Cause, Dropped, MeterEvent, Work};
use fw_names::ImageName;
use fw_rows::head_number;
use std::alloc::{AllocError, Global};
use std::net::SocketAddr;

/// The line that tells at which address datagrams are received.
pub fn listening_line(alloc: Global, at: SocketAddr) -> Result<String, AllocError>
    ensures { IfOk result (λ text. string_bytes text ≡ listening_line at) }
{
    format!(in alloc; "listening {at}\n")
}

/// The line of what there is to tell of a meter. Of several meters it has the number of that one.
pub(crate) fn event_line(
    alloc: Global,
    number: Option<usize>,
    event: MeterEvent,
) -> Result<String, AllocError>
    ensures { IfOk result (λ text. string_bytes text ≡ event_line number event) }
{
    let mut text = meter_start(alloc, number)?;
    append_event(alloc, &mut text, event)?;
    text.push_str("\n")?;
    Ok(text)
}

/// What a line of a meter begins with: its number, where a process has several.
fn meter_start(alloc: Global, number: Option<usize>) -> Result<String, AllocError>
    ensures { IfOk result (λ text. string_bytes text ≡ meter_start number) }
{
    match number {
        Some(number) => format!(in alloc; "meter {number} "),
        None => Ok(String::new(alloc)),
    }
}

/// Appends what there is to tell.
fn append_event(alloc: Global, text: &mut String, event: MeterEvent) -> Result<(), AllocError>
    ensures { OnOk result (string_bytes text.new ≡ string_bytes text.old ++ event_words event) }
{
    match event {
        MeterEvent::Refused { name, size, cause } => append_refused(text, name, size, cause),
        MeterEvent::Failed(work) => append_failed(text, work),
        MeterEvent::Verified(name) => append_image(alloc, text, "verified", name),
        MeterEvent::Differs(name) => append_image(alloc, text, "differs", name),
        MeterEvent::Activated(name) => append_image(alloc, text, "activated", name),
    }
}

/// Appends that an initiate was refused, and why.
fn append_refused(
    text: &mut String,
    name: Option<ImageName>,
    size: u32,
    cause: Cause,
) -> Result<(), AllocError>
    ensures { OnOk result (string_bytes text.new ≡ string_bytes text.old ++ refused_words name size cause) }
{
    text.push_str("refused ")?;
    append_title(text, name)?;
    write!(text, " {size}: ")?;
    append_cause(text, cause)
}

/// Appends the numbers of the campaign of an image, and its release.
fn append_title(text: &mut String, name: Option<ImageName>) -> Result<(), AllocError>
    ensures { OnOk result (string_bytes text.new ≡ string_bytes text.old ++ title_words name) }
{
    let Some(name) = name else {
        return text.push_str("- - -");
    };
    let (head, serial) = (head_number(name.campaign), name.campaign.serial());
    let release = name.release;
    write!(text, "{head} {serial} {release}")
}

/// Appends why an initiate was refused.
fn append_cause(text: &mut String, cause: Cause) -> Result<(), AllocError>
    ensures { OnOk result (string_bytes text.new ≡ string_bytes text.old ++ cause_words cause) }
{
    match cause {
        Cause::Disabled => text.push_str("transfer is disabled"),
        Cause::Unnamed => text.push_str("no name"),
        Cause::Unopened => text.push_str("the name of a factory image"),
        Cause::Below { release, running } => {
            write!(text, "release {release} is below the running {running}")
        }
        Cause::Limits => text.push_str("not within the limits of the meter"),
    }
}

/// Appends that a call of the store failed, and what it was for.
fn append_failed(text: &mut String, work: Work) -> Result<(), AllocError>
    ensures { OnOk result (string_bytes text.new ≡ string_bytes text.old ++ event_words (MeterEvent.Failed work)) }
{
    text.push_str("store failed at ")?;
    append_work(text, work)
}

/// Appends what the store was called for.
fn append_work(text: &mut String, work: Work) -> Result<(), AllocError>
    ensures { OnOk result (string_bytes text.new ≡ string_bytes text.old ++ work_words work) }
{
    match work {
        Work::Enable => text.push_str("enable"),
        Work::Initiate => text.push_str("initiate"),
        Work::Block(number) => write!(text, "block {number}"),
        Work::Verify => text.push_str("verify"),
        Work::Activate => text.push_str("activate"),
    }
}

/// Appends what became of an image.
fn append_image(
    alloc: Global,
    text: &mut String,
    word: &str,
    name: ImageName,
) -> Result<(), AllocError>
    ensures { OnOk result (string_bytes text.new ≡ string_bytes text.old ++ image_words word.now name) }
{
    let (head, serial) = (head_number(name.campaign), name.campaign.serial());
    let release = name.release;
    let digest = hex::encode(alloc, name.digest)?;
    write!(text, "{word} {head} {serial} {release} {digest}")
}

/// The line that tells how many datagrams were dropped, how often the socket failed, and how many datagrams didn't open and how many events
/// were left out, if any.
pub(crate) fn dropped_line(
    alloc: Global,
    dropped: Dropped,
    faults: u64,
    unopened: u64,
    untold: u64,
) -> Result<String, AllocError>
    ensures { IfOk result (λ text. string_bytes text ≡ dropped_line dropped faults unopened untold) }
{
    let Dropped {
        strangers,
        unserved,
    } = dropped;
    let mut text = format!(in alloc;
        "dropped strangers {strangers} unserved {unserved} faults {faults}"
    )?;
    append_count(&mut text, " unopened ", unopened)?;
    append_count(&mut text, " untold ", untold)?;
    text.push_str("\n")?;
    Ok(text)
}

/// Appends a count after its word, and nothing for 0.
fn append_count(text: &mut String, word: &str, count: u64) -> Result<(), AllocError>
    ensures { OnOk result (string_bytes text.new ≡ string_bytes text.old ++ count_words word.now count) }
{
    if count == 0 {
        return Ok(());
    }
    write!(text, "{word}{count}")
}
