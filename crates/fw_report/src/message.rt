//! What a datagram says, read out of its bytes.

ghost use Rattle.std.specs.Prelude.{◌≡◌, IfOk};
ghost use Rattle.fw_axdr.specs.Value.{octet_string};
ghost use Rattle.fw_axdr.specs.View.{value_of};
ghost use Rattle.fw_apdu.specs.Fault.{RequestFails, ResponseFails};
ghost use Rattle.fw_apdu.specs.Request.{SpellsRequest};
ghost use Rattle.fw_apdu.specs.Response.{SpellsResponse};
ghost use Rattle.fw_apdu.specs.View.{request_content, response_content};
ghost use Rattle.fw_server.specs.Meaning.{meaning_of};
ghost use Rattle.fw_server.specs.View.{planned_meaning, operation_meaning};
ghost use Rattle.fw_report.specs.declared.message.Message.{Message};
ghost use Rattle.fw_report.specs.declared.message.Unread.{Unread};
ghost use Rattle.fw_report.specs.Message.{Says, SaysCarried, SaysAsk, SaysAnswer, IsShownAs, NamesImage, addressed_by};

use fw_apdu::{ApduError, GetDataResult, Request, Response, read_request, read_response};
use fw_axdr::Data;
use fw_names::{CampaignId, ImageName};
use fw_server::{Operation, Planned, Reading, plan};
use fw_world::{Datagram, Direction};
use fw_wrapper::{WrapError, split};
use std::alloc::{AllocError, Global};

/// What the name of an image tells: its campaign, and its release, which is 0 if it has none.
#[derive(Clone, Copy)]
pub struct Title {
    pub campaign: CampaignId,
    pub release: u32,
}

/// The service of a request.
#[derive(Clone, Copy)]
pub enum Service {
    Get,
    Set,
    Action,
}

/// What a request is about.
#[derive(Clone, Copy)]
pub struct Addressed {
    pub service: Service,
    /// The class_id of the object.
    pub class: u16,
    /// Its logical name: the value groups A to F of an OBIS code (IEC 62056-6-1).
    pub instance: [u8; 6],
    /// The number of the attribute or the method.
    pub number: i8,
}

/// Why bytes can't be read: of several faults the leftmost one.
#[derive(Clone, Copy)]
pub enum Unread {
    /// The wrapper is wrong.
    Wrapper(WrapError),
    /// The APDU in it is.
    Apdu(ApduError),
}

/// What a datagram says, in short.
#[derive(Clone, Copy)]
pub enum Message {
    /// A GET of this attribute.
    Get(Reading),
    /// A SET of image_transfer_enabled.
    Enable(bool),
    /// An image_transfer_initiate: what the name of the image tells, and its size in bytes.
    Initiate { title: Title, size: u32 },
    /// One of an image whose identifier is no name, with its size.
    InitiateUnnamed(u32),
    /// An image_block_transfer: the number of the block, and how many bytes it has.
    Block { number: u32, size: usize },
    /// An image_verify.
    Verify,
    /// An image_activate.
    Activate,
    /// A request for what no meter has here, or with a parameter of another shape.
    Foreign(Addressed),
    /// The answer to a GET, by a value.
    Got(ShownValue),
    /// The answer to a GET, by a code.
    GotCode(u8),
    /// The answer to a SET.
    SetCode(u8),
    /// The answer to an ACTION.
    ActionCode(u8),
    /// Bytes that can't be read: how many, and why.
    Unread { size: usize, why: Unread },
}

/// A value that a GET is answered by, in short.
#[derive(Clone, Copy)]
pub enum ShownValue {
    Number(u32),
    Flag(bool),
    /// image_transfer_status.
    Status(u8),
    /// How many bits there are.
    Bits(usize),
    /// What the name of an image tells.
    Name(Title),
    /// Bytes that are no name, and how many.
    Octets(usize),
    /// How many images image_to_activate_info has.
    Images(usize),
    /// A value of a type that no attribute has.
    Other,
}

/// What a datagram says.
pub fn message_of(alloc: Global, datagram: &Datagram) -> Result<Message, AllocError>
    ensures { IfOk result (Says datagram.now.direction datagram.now.bytes) }
{
    match datagram.direction {
        Direction::ToMeter => asked(alloc, &datagram.bytes),
        Direction::ToHead => answered(alloc, &datagram.bytes),
    }
}

/// What a datagram to a meter says.
pub fn asked(alloc: Global, bytes: &[u8]) -> Result<Message, AllocError>
    ensures { IfOk result (SaysCarried SpellsRequest RequestFails (λ content. SaysAsk (addressed_by content) (meaning_of content)) bytes.now) }
{
    let size = bytes.len();
    let frame = match split(bytes) {
        Ok(frame) => frame,
        Err(error) => return Ok(bad_wrapper(size, error)),
    };
    match read_request(alloc, frame.apdu) {
        Ok(request) => Ok(ask_of(addressed_by(&request), plan(&request))),
        Err(ApduError::OutOfMemory) => Err(AllocError),
        Err(error) => Ok(bad_apdu(size, error)),
    }
}

/// What bytes say whose wrapper has this fault.
fn bad_wrapper(size: usize, error: WrapError) -> Message
    ensures { result ≡ Message.Unread size (Unread.Wrapper error) }
{
    Message::Unread {
        size,
        why: Unread::Wrapper(error),
    }
}

/// What bytes say whose APDU has this fault.
fn bad_apdu(size: usize, error: ApduError) -> Message
    ensures { result ≡ Message.Unread size (Unread.Apdu error) }
{
    Message::Unread {
        size,
        why: Unread::Apdu(error),
    }
}

/// What a request is about.
fn addressed_by(request: &Request) -> Addressed
    ensures { result ≡ addressed_by (request_content request.now) }
{
    let (service, number) = match request {
        Request::Get { attribute, .. } => (Service::Get, *attribute),
        Request::Set { attribute, .. } => (Service::Set, *attribute),
        Request::Action { method, .. } => (Service::Action, *method),
    };
    let instance = request.instance().0;
    Addressed {
        service,
        class: request.class(),
        instance,
        number,
    }
}

/// What a request says that is about this and asks for that.
fn ask_of(addressed: Addressed, planned: Planned<'_>) -> Message
    ensures { SaysAsk addressed (planned_meaning planned.entry) result }
{
    match planned {
        Planned::Read(attribute) => Message::Get(attribute),
        Planned::Operate(operation) => operation_of(addressed, operation),
        Planned::Block { number, value } => Message::Block {
            number,
            size: value.len(),
        },
        Planned::Refused(_) => Message::Foreign(addressed),
    }
}

/// What a request says that is about this and asks for this operation.
fn operation_of(addressed: Addressed, operation: Operation<'_>) -> Message
    ensures { SaysAsk addressed (operation_meaning operation.entry) result }
{
    match operation {
        Operation::Enable(enabled) => Message::Enable(enabled),
        Operation::Initiate { identifier, size } => match title_in(identifier) {
            Some(title) => Message::Initiate { title, size },
            None => Message::InitiateUnnamed(size),
        },
        Operation::Verify => Message::Verify,
        Operation::Activate => Message::Activate,
    }
}

/// What the name tells that the bytes spell, if they spell one.
fn title_in(bytes: &[u8]) -> Option<Title>
    ensures { NamesImage bytes.now result }
{
    match ImageName::from_bytes(bytes) {
        Some(name) => Some(Title {
            campaign: name.campaign,
            release: name.release,
        }),
        None => None,
    }
}

/// What a datagram to a head end says.
pub fn answered(alloc: Global, bytes: &[u8]) -> Result<Message, AllocError>
    ensures { IfOk result (SaysCarried SpellsResponse ResponseFails SaysAnswer bytes.now) }
{
    let size = bytes.len();
    let frame = match split(bytes) {
        Ok(frame) => frame,
        Err(error) => return Ok(bad_wrapper(size, error)),
    };
    match read_response(alloc, frame.apdu) {
        Ok(response) => Ok(answer_of(&response)),
        Err(ApduError::OutOfMemory) => Err(AllocError),
        Err(error) => Ok(bad_apdu(size, error)),
    }
}

/// What a response says.
fn answer_of(response: &Response) -> Message
    ensures { SaysAnswer (response_content response.now) result }
{
    match response {
        Response::Get {
            result: GetDataResult::Data(value),
            ..
        } => Message::Got(shown_of(value)),
        Response::Get {
            result: GetDataResult::Code(code),
            ..
        } => Message::GotCode(*code),
        Response::Set { code, .. } => Message::SetCode(*code),
        Response::Action { code, .. } => Message::ActionCode(*code),
    }
}

/// A value in short.
fn shown_of(value: &Data) -> ShownValue
    ensures { IsShownAs (value_of value.now) result }
{
    match value {
        Data::DoubleLongUnsigned(number) => ShownValue::Number(*number),
        Data::Boolean(flag) => ShownValue::Flag(*flag),
        Data::BitString(bits) => ShownValue::Bits(bits.len()),
        Data::Enumerated(status) => ShownValue::Status(*status),
        Data::OctetString(octets) => shown_octets(octets.as_slice()),
        Data::Array(elements) => ShownValue::Images(elements.len()),
        Data::Null
        | Data::Structure(_)
        | Data::DoubleLong(_)
        | Data::VisibleString(_)
        | Data::Integer(_)
        | Data::Long(_)
        | Data::Unsigned(_)
        | Data::LongUnsigned(_)
        | Data::Long64(_)
        | Data::Long64Unsigned(_) => ShownValue::Other,
    }
}

/// An octet-string in short.
fn shown_octets(bytes: &[u8]) -> ShownValue
    ensures { IsShownAs (octet_string bytes.now) result }
{
    match title_in(bytes) {
        Some(title) => ShownValue::Name(title),
        None => ShownValue::Octets(bytes.len()),
    }
}
