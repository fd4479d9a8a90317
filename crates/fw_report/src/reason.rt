//! Why meters refused initiates in a run.

ghost use Rattle.std.specs.Prelude.{◌≡◌, ◌≢◌, ◌++◌, ◌-◌, IfOk, OnOk, length, replicate, string_bytes};
ghost use Rattle.std.specs.Option.{option_map};
ghost use Rattle.fw_image.specs.Meter.{Meter};
ghost use Rattle.fw_world.specs.Runs.{events_of};
ghost use Rattle.fw_world.specs.Setup.{IsSetup};
ghost use Rattle.fw_world.specs.State.{meter_at};
ghost use Rattle.fw_world.specs.View.{event_of};
ghost use Rattle.fw_report.specs.Message.{Says};
ghost use Rattle.fw_report.specs.declared.message.Message.{Message};
ghost use Rattle.fw_report.specs.Reason.{AreReasons, HasReason, HasReasonAt, reason_of, reason_of_title, reason_told, reason_words, cause_words};

use crate::message::{Message, Title, asked};
use fw_apdu::cosem;
use fw_names::{MeterId, is_risen};
use fw_world::{Datagram, Direction, Event, Setup, SetupError, StepError, World};
use std::alloc::{AllocError, Global};

/// Why a meter can't be initiated with an image.
#[derive(Clone, Copy)]
pub(crate) enum Reason {
    /// The identifier is no name.
    Unnamed,
    /// It is the name of an image that no campaign offers.
    Unopened,
    /// The image has a release below that of the image that runs.
    Below { release: u32, running: u32 },
    /// The size of the image isn't within the meter's limits.
    Limits,
}

/// For each datagram that is sent in a run of these events why an initiate that it answers can't be, up to the first event that is refused.
pub(crate) fn reasons_of(
    alloc: Global,
    setup: &Setup,
    events: &[Event],
) -> Result<Vec<Option<Reason>>, AllocError>
    requires { IsSetup setup.now }
    ensures { IfOk result (λ reasons. AreReasons setup.now (events_of events.now) reasons.items) }
{
    fw_air::laws::sent_grows();
    let mut world = match World::new(alloc, setup) {
        Ok(world) => world,
        Err(SetupError::OutOfMemory) => return Err(AllocError),
        Err(SetupError::BadSetup) => unreachable!(),
    };
    let mut reasons = Vec::new(alloc);
    for at in 0..events.len() {
        let reason = reason_in(alloc, &world, &events[at])?;
        if let Err(cause) = world.step(alloc, &events[at]) {
            return end_at(reasons, cause);
        }
        fill(&mut reasons, world.sent().len(), reason)?;
    }
    Ok(reasons)
}

/// What there is where an event is refused for this cause.
fn end_at(reasons: Vec<Option<Reason>>, cause: StepError) -> Result<Vec<Option<Reason>>, AllocError>
    ensures { IfOk result (λ same. (same.items ≡ reasons.items) × (cause ≢ StepError.OutOfMemory)) }
{
    match cause {
        StepError::OutOfMemory => Err(AllocError),
        StepError::NoSuchDatagram | StepError::NoSuchActor | StepError::Book(_) => Ok(reasons),
    }
}

/// Fills a list up to this length.
fn fill(
    reasons: &mut Vec<Option<Reason>>,
    count: usize,
    reason: Option<Reason>,
) -> Result<(), AllocError>
    ensures { OnOk result (reasons.new.items ≡ reasons.old.items ++ replicate (count - length reasons.old.items) reason) }
{
    for place in reasons.len()..count {
        reasons.push(reason)?;
    }
    Ok(())
}

/// Why an initiate can't be that an event brings to a meter.
fn reason_in(alloc: Global, world: &World, event: &Event) -> Result<Option<Reason>, AllocError>
    ensures { IfOk result (HasReason world.now (event_of event.now)) }
{
    let Event::Deliver(number) = event else {
        return Ok(None);
    };
    match world.sent().get(*number) {
        Some(datagram) => reason_at(alloc, world, datagram),
        None => Ok(None),
    }
}

/// Why an initiate can't be that this datagram is.
fn reason_at(
    alloc: Global,
    world: &World,
    datagram: &Datagram,
) -> Result<Option<Reason>, AllocError>
    ensures { IfOk result (HasReasonAt datagram.now.direction datagram.now.bytes (meter_at world.now datagram.now.meter)) }
{
    match datagram.direction {
        Direction::ToHead => Ok(None),
        Direction::ToMeter => reason_to(alloc, world, datagram.meter, &datagram.bytes),
    }
}

/// Why an initiate can't be that these bytes ask of a meter.
fn reason_to(
    alloc: Global,
    world: &World,
    meter: MeterId,
    bytes: &[u8],
) -> Result<Option<Reason>, AllocError>
    ensures { IfOk result (HasReasonAt Direction.ToMeter bytes.now (meter_at world.now meter)) }
{
    match running_release(world, meter) {
        Some(running) => reason_asked(alloc, running, bytes),
        None => Ok(None),
    }
}

/// The release of the image that a meter runs, if it is there.
fn running_release(world: &World, meter: MeterId) -> Option<u32>
    ensures { result ≡ option_map (λ (m : Meter). m.running.name.release) (meter_at world.now meter) }
{
    let core = world.meter(meter)?;
    Some(core.active().release)
}

/// Why an initiate can't be that these bytes ask of a meter which runs this release.
fn reason_asked(alloc: Global, running: u32, bytes: &[u8]) -> Result<Option<Reason>, AllocError>
    ensures { IfOk result (λ reason. (s : Message) × Says Direction.ToMeter bytes.now s × (reason ≡ reason_of running s)) }
{
    match asked(alloc, bytes) {
        Ok(message) => Ok(reason_of(running, message)),
        Err(error) => Err(error),
    }
}

/// Why a meter that runs this release can't be initiated so, if it can't, and nothing if no initiate is asked for.
fn reason_of(running: u32, message: Message) -> Option<Reason>
    ensures { result ≡ reason_of running message }
{
    match message {
        Message::InitiateUnnamed(_) => Some(Reason::Unnamed),
        Message::Initiate { title, .. } => Some(reason_of_title(running, title)),
        _ => None,
    }
}

/// Why a meter that runs this release can't be initiated with an image that has this name, if it can't.
fn reason_of_title(running: u32, title: Title) -> Reason
    ensures { result ≡ reason_of_title running title }
{
    if title.campaign.serial() == 0 {
        Reason::Unopened
    } else if is_risen(running, title.release) {
        Reason::Limits
    } else {
        Reason::Below {
            release: title.release,
            running,
        }
    }
}

/// Why an initiate was refused, where what is said is the code for that.
pub(crate) fn reason_told(message: &Message, reason: Option<Reason>) -> Option<Reason>
    ensures { result ≡ reason_told message.now reason }
{
    match message {
        Message::ActionCode(cosem::OTHER_REASON) => reason,
        _ => None,
    }
}

/// Appends why an initiate was refused, if it was.
pub(crate) fn append_reason(text: &mut String, reason: Option<Reason>) -> Result<(), AllocError>
    ensures { OnOk result (string_bytes text.new ≡ string_bytes text.old ++ reason_words reason) }
{
    match reason {
        Some(reason) => append_cause(text, reason),
        None => Ok(()),
    }
}

/// Appends why an image can't be initiated.
fn append_cause(text: &mut String, reason: Reason) -> Result<(), AllocError>
    ensures { OnOk result (string_bytes text.new ≡ string_bytes text.old ++ cause_words reason) }
{
    match reason {
        Reason::Unnamed => text.push_str(": no name"),
        Reason::Unopened => text.push_str(": the name of a factory image"),
        Reason::Below { release, running } => write!(
            text,
            ": release {release} is below the running {running}"
        ),
        Reason::Limits => text.push_str(": not within the limits of the meter"),
    }
}
