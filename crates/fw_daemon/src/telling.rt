//! What there is to tell of a datagram that a meter handled, and of a turn: as anyone outside sees it, by what was asked, what was answered, and
//! the status before and after.

ghost use Rattle.std.specs.Prelude.{◌≡◌, ℕ, IfOk, List, OnErr, Some};
ghost use Rattle.std.specs.Option.{option_map};
ghost use Rattle.fw_apdu.specs.View.{request_content, request_invoke, response_content};
ghost use Rattle.fw_server.specs.View.{operation_meaning, planned_meaning};
ghost use Rattle.fw_image.specs.Meter.{status_of};
ghost use Rattle.fw_meter.specs.Handling.{Brings, MayBringData, reply_bytes};
ghost use Rattle.fw_daemon.specs.Events.{
  AnswerTells,
  IsAnswerEvent,
  IsEvent,
  IsRefusal,
  cause_in,
  cause_of,
  code_in,
  gives_up,
  goal_name,
  is_unjudged,
  judged_event,
  turn_event,
  verdict,
  work_of,
};
ghost use Rattle.fw_daemon.specs.Private.{HasCode, HasRequest};

use crate::event::{Cause, MeterEvent, Work};
use fw_apdu::{ApduError, Request, Response, cosem, read_request, read_response};
use fw_image::TransferStatus;
use fw_meter::{Handled, MeterCore, OutOfMemory};
use fw_names::{ImageName, is_risen};
use fw_server::{Operation, Planned, plan};
use fw_store::ImageStore;
use fw_wrapper::{WPORT, split};
use std::alloc::Global;

/// The request that a datagram brings, if it carries one to the meter's wPort.
pub(crate) fn request_in(alloc: Global, datagram: &[u8]) -> Result<Option<Request>, OutOfMemory>
    ensures brought { IfOk result (HasRequest datagram.now) }
    // Nothing else is read into memory.
    ensures memory { OnErr result (MayBringData datagram.now) }
{
    let Ok(frame) = split(datagram) else {
        return Ok(None);
    };
    if frame.dest != WPORT {
        return Ok(None);
    }
    match read_request(alloc, frame.apdu) {
        Ok(request) => Ok(Some(request)),
        Err(ApduError::OutOfMemory) => Err(OutOfMemory),
        Err(_) => Ok(None),
    }
}

/// What there is to tell of a datagram that brought this request, if it is one, and that a meter handled so, whose status was this before.
pub(crate) fn event_of<S: ImageStore + Drop>(
    alloc: Global,
    before: TransferStatus,
    request: &Option<Request>,
    handled: &Handled,
    meter: &MeterCore<S>,
) -> Option<MeterEvent>
    ensures { (datagram : List ℕ) → HasRequest datagram request.now
        → IsEvent before datagram (reply_bytes handled.now.reply) handled.now.activated meter.now.meter result }
{
    match handled.activated {
        Some(name) => Some(MeterEvent::Activated(name)),
        None => match judged_event(before, meter) {
            Some(judged) => Some(judged),
            None => answer_event(alloc, meter.active().release, request, &handled.reply),
        },
    }
}

/// What there is to tell of a turn that a meter took whose status was this before.
pub(crate) fn turn_event<S: ImageStore + Drop>(
    before: TransferStatus,
    meter: &MeterCore<S>,
) -> Option<MeterEvent>
    ensures { result ≡ turn_event before meter.now.meter }
{
    if gives_up(before, meter.status()) {
        return Some(MeterEvent::Failed(Work::Verify));
    }
    judged_event(before, meter)
}

/// What there is to tell of an image that is judged now, and wasn't in this status before.
fn judged_event<S: ImageStore + Drop>(
    before: TransferStatus,
    meter: &MeterCore<S>,
) -> Option<MeterEvent>
    ensures { result ≡ judged_event before meter.now.meter }
{
    if is_unjudged(before) {
        verdict(meter)
    } else {
        None
    }
}

/// Whether an image is received or verified in this status.
fn is_unjudged(status: TransferStatus) -> bool
    ensures { result ≡ is_unjudged status }
{
    match status {
        TransferStatus::Initiated => true,
        TransferStatus::VerificationInitiated => true,
        _ => false,
    }
}

/// Whether a verification that went on in the one status was given up in the other.
fn gives_up(before: TransferStatus, after: TransferStatus) -> bool
    ensures { result ≡ gives_up before after }
{
    match (before, after) {
        (TransferStatus::VerificationInitiated, TransferStatus::Initiated) => true,
        _ => false,
    }
}

/// What there is to tell where an image was judged last.
fn verdict<S: ImageStore + Drop>(meter: &MeterCore<S>) -> Option<MeterEvent>
    ensures { result ≡ verdict (status_of meter.now.meter.phase) (goal_name meter.now.meter) }
{
    match meter.status() {
        TransferStatus::VerificationSuccessful => Some(MeterEvent::Verified(goal_name(meter)?)),
        TransferStatus::VerificationFailed => Some(MeterEvent::Differs(goal_name(meter)?)),
        _ => None,
    }
}

/// The name of the image that is to be received, or was received.
fn goal_name<S: ImageStore + Drop>(meter: &MeterCore<S>) -> Option<ImageName>
    ensures { result ≡ goal_name meter.now.meter }
{
    let goal = meter.view().goal?;
    Some(goal.name)
}

/// What there is to tell of a datagram with this request, if it is one, that a meter which runs this release answered so.
fn answer_event(
    alloc: Global,
    running: u32,
    request: &Option<Request>,
    reply: &Option<Vec<u8>>,
) -> Option<MeterEvent>
    ensures { (datagram : List ℕ) → HasRequest datagram request.now
        → AnswerTells running datagram (reply_bytes reply.now) result }
{
    match request {
        Some(request) => match reply {
            Some(reply) => reply_event(alloc, running, request, reply),
            None => None,
        },
        None => None,
    }
}

/// The same of a request and a reply that are there.
fn reply_event(alloc: Global, running: u32, request: &Request, reply: &[u8]) -> Option<MeterEvent>
    ensures { (datagram : List ℕ) (source : ℕ) → Brings datagram source (request_invoke request.now) (request_content request.now)
        → AnswerTells running datagram (Some reply.now) result }
{
    match code_of(alloc, reply) {
        Some(code) => coded_event(running, code, plan(request)),
        None => None,
    }
}

/// The code that a reply carries, if it answers a SET or an ACTION. No memory is taken for these.
fn code_of(alloc: Global, reply: &[u8]) -> Option<u8>
    ensures { HasCode reply.now result }
{
    fw_apdu::laws::one_response();
    fw_wrapper::laws::one_frame();
    let Ok(frame) = split(reply) else {
        return None;
    };
    match read_response(alloc, frame.apdu) {
        Ok(response) => code_in(&response),
        Err(_) => None,
    }
}

/// The code by which a response answers a SET or an ACTION.
fn code_in(response: &Response) -> Option<u8>
    ensures { result ≡ code_in (response_content response.now) }
{
    match response {
        Response::Get { .. } => None,
        Response::Set { code, .. } => Some(*code),
        Response::Action { code, returned, .. } => match returned {
            Some(_) => None,
            None => Some(*code),
        },
    }
}

/// What there is to tell of what was asked and was answered by this code.
fn coded_event(running: u32, code: u8, planned: Planned<'_>) -> Option<MeterEvent>
    ensures { IsAnswerEvent running code (planned_meaning planned.entry) result }
{
    if code == cosem::SUCCESS {
        return None;
    }
    if code == cosem::HARDWARE_FAULT {
        return failure(planned);
    }
    refusal(running, code, planned)
}

/// What there is to tell where a call of the store failed.
fn failure(planned: Planned<'_>) -> Option<MeterEvent>
    ensures { result ≡ option_map (λ w. MeterEvent.Failed w) (work_of (planned_meaning planned.entry)) }
{
    let work = work_of(planned)?;
    Some(MeterEvent::Failed(work))
}

/// What the store is called for.
fn work_of(planned: Planned<'_>) -> Option<Work>
    ensures { result ≡ work_of (planned_meaning planned.entry) }
{
    match planned {
        Planned::Operate(operation) => Some(work_in(operation)),
        Planned::Block { number, .. } => Some(Work::Block(number)),
        Planned::Read(_) => None,
        Planned::Refused(_) => None,
    }
}

/// What it is called for by an operation.
fn work_in(operation: Operation<'_>) -> Work
    ensures { work_of (operation_meaning operation.entry) ≡ Some result }
{
    match operation {
        Operation::Enable(_) => Work::Enable,
        Operation::Initiate { .. } => Work::Initiate,
        Operation::Verify => Work::Verify,
        Operation::Activate => Work::Activate,
    }
}

/// What there is to tell of what was refused by this code.
fn refusal(running: u32, code: u8, planned: Planned<'_>) -> Option<MeterEvent>
    ensures { IsRefusal running code (planned_meaning planned.entry) result }
{
    match planned {
        Planned::Operate(operation) => refused(running, code, operation),
        Planned::Block { .. } => None,
        Planned::Read(_) => None,
        Planned::Refused(_) => None,
    }
}

/// What there is to tell of an operation that was refused by this code.
fn refused(running: u32, code: u8, operation: Operation<'_>) -> Option<MeterEvent>
    ensures { IsRefusal running code (operation_meaning operation.entry) result }
{
    match operation {
        Operation::Initiate { identifier, size } => {
            let name = ImageName::from_bytes(identifier);
            let cause = cause_of(running, code, &name);
            Some(refused_image(name, size, cause))
        }
        Operation::Enable(_) => None,
        Operation::Verify => None,
        Operation::Activate => None,
    }
}

/// What there is to tell of an image that was refused for this cause.
fn refused_image(name: Option<ImageName>, size: u32, cause: Cause) -> MeterEvent
    ensures { result ≡ MeterEvent.Refused name size cause }
{
    MeterEvent::Refused { name, size, cause }
}

/// Why an initiate was refused by this code, where an image of this release runs.
fn cause_of(running: u32, code: u8, name: &Option<ImageName>) -> Cause
    ensures { result ≡ cause_of running code name.now }
{
    if code == cosem::READ_WRITE_DENIED {
        return Cause::Disabled;
    }
    match name {
        Some(name) => cause_in(running, *name),
        None => Cause::Unnamed,
    }
}

/// Why an image of this name can't be initiated, where one of this release runs.
fn cause_in(running: u32, name: ImageName) -> Cause
    ensures { result ≡ cause_in running (Some name) }
{
    if name.campaign.serial() == 0 {
        Cause::Unopened
    } else if is_risen(running, name.release) {
        Cause::Limits
    } else {
        Cause::Below {
            release: name.release,
            running,
        }
    }
}
