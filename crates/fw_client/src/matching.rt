//! From a datagram to the response in it, and from a response to what is heard.

ghost use Rattle.std.specs.Prelude.{◌≡◌, IfOk, OnErr};
ghost use Rattle.std.specs.Option.{option_map, option_copied};
ghost use Rattle.fw_axdr.specs.View.{value_of};
ghost use Rattle.fw_apdu.specs.View.{response_content, response_invoke};
ghost use Rattle.fw_client.specs.Matching.{Matches, IsValue, IsNumber, IsBits, IsStatus, IsInfo, IsInfoOf, IsActive};
ghost use Rattle.fw_client.specs.Hearing.{MayCarryData};
ghost use Rattle.fw_client.specs.Private.{
  Finds,
  IsResponseIn,
  identification_of,
  signed_of,
  one_of,
  three_of,
  fields_in,
  size_in,
  octets_in,
};

use crate::ask::{Asked, Service};
use crate::claim::ActiveClaim;
use crate::error::OutOfMemory;
use crate::heard::Heard;
use fw_apdu::{ApduError, GetDataResult, Invoke, Response, read_response};
use fw_axdr::{Data, Items};
use fw_names::{ImageName, MeterId};
use fw_wrapper::{WPORT, split};
use std::alloc::Global;

/// The response that a datagram carries, if it carries one between the ports of both ends.
pub(crate) fn response_in(alloc: Global, datagram: &[u8]) -> Result<Option<Response>, OutOfMemory>
    ensures response { IfOk result (λ response. IsResponseIn datagram.now response) }
    ensures memory { OnErr result (MayCarryData datagram.now) }
{
    let Ok(frame) = split(datagram) else {
        return Ok(None);
    };
    if frame.source != WPORT || frame.dest != WPORT {
        return Ok(None);
    }
    match read_response(alloc, frame.apdu) {
        Ok(response) => Ok(Some(response)),
        Err(ApduError::OutOfMemory) => Err(OutOfMemory),
        Err(_) => Ok(None),
    }
}

/// The invoke byte of a response.
pub(crate) fn invoke_of(response: &Response) -> Invoke
    ensures { result.0 ≡ response_invoke response.now }
{
    match response {
        Response::Get { invoke, .. }
        | Response::Set { invoke, .. }
        | Response::Action { invoke, .. } => *invoke,
    }
}

/// What is heard by a response of a meter to an ask, if it is of the ask's service and of its shape.
pub(crate) fn matched(meter: MeterId, asked: Asked, response: Response) -> Option<Heard>
    ensures { Finds (λ heard. Matches meter asked (response_content response) heard) result }
{
    match (asked.service(), response) {
        (
            _,
            Response::Get {
                result: GetDataResult::Data(value),
                ..
            },
        ) => heard_by(meter, asked, value),
        (
            Service::Get,
            Response::Get {
                result: GetDataResult::Code(code),
                ..
            },
        )
        | (Service::Set, Response::Set { code, .. })
        | (Service::Action, Response::Action { code, .. }) => Some(Heard::Code { asked, code }),
        _ => None,
    }
}

/// What is heard by the value that a GET reads.
fn heard_by(meter: MeterId, asked: Asked, value: Data) -> Option<Heard>
    ensures { Finds (λ heard. IsValue meter asked (value_of value) heard) result }
{
    match asked {
        Asked::BlockSize | Asked::FirstMissing => number(value),
        Asked::Blocks => bits(value),
        Asked::Status => status(value),
        Asked::Info => info(value),
        Asked::ActiveName => active(meter, value),
        Asked::Enable | Asked::Initiate | Asked::Block { .. } | Asked::Verify | Asked::Activate =>
            None,
    }
}

/// The number that a value is heard as.
fn number(value: Data) -> Option<Heard>
    ensures { Finds (λ heard. IsNumber (value_of value) heard) result }
{
    match value {
        Data::DoubleLongUnsigned(number) => Some(Heard::Number(number)),
        _ => None,
    }
}

/// The bits that a value is heard as.
fn bits(value: Data) -> Option<Heard>
    ensures { Finds (λ heard. IsBits (value_of value) heard) result }
{
    match value {
        Data::BitString(bits) => Some(Heard::BitSet(bits)),
        _ => None,
    }
}

/// The status that a value is heard as.
fn status(value: Data) -> Option<Heard>
    ensures { Finds (λ heard. IsStatus (value_of value) heard) result }
{
    match value {
        Data::Enumerated(status) => Some(Heard::Status(status)),
        _ => None,
    }
}

/// The image that a value of image_to_activate_info is heard as.
fn info(value: Data) -> Option<Heard>
    ensures { Finds (λ heard. IsInfo (value_of value) heard) result }
{
    match value {
        Data::Array(elements) => Some(Heard::Info(image_in(&elements))),
        _ => None,
    }
}

/// The claim that a value of the active firmware identifier is heard as.
fn active(meter: MeterId, value: Data) -> Option<Heard>
    ensures { Finds (λ heard. IsActive meter (value_of value) heard) result }
{
    match value {
        Data::OctetString(bytes) => {
            let name = ImageName::from_bytes(bytes.as_slice())?;
            Some(Heard::Active(ActiveClaim::new(meter, name)))
        }
        _ => None,
    }
}

/// The name of the one image in the elements of image_to_activate_info.
fn image_in(elements: &Items) -> Option<ImageName>
    ensures { IsInfoOf elements.now result }
{
    ImageName::from_bytes(identification(elements)?)
}

/// The identification of that image.
fn identification(elements: &Items) -> Option<&[u8]>
    ensures { option_copied result ≡ identification_of elements.now }
{
    signed(fields(one(elements)?)?)
}

/// How many bytes the signature of an image has.
const SIGNATURE_SIZE: usize = 32;

/// The identification in the fields of an element: the size, the identification and the signature.
fn signed(fields: &Items) -> Option<&[u8]>
    ensures { option_copied result ≡ signed_of fields.now }
{
    let (size, identification, signature) = three(fields)?;
    let _size = size_in(size)?;
    let identification = octets(identification)?;
    if octets(signature)?.len() == SIGNATURE_SIZE {
        Some(identification)
    } else {
        None
    }
}

/// The one element.
#[tactic(auto, using(crate::proofs::Shapes::not_one))]
fn one(items: &Items) -> Option<&Data>
    ensures { option_map (λ d. value_of d.now) result ≡ one_of items.now }
{
    match items.as_slice() {
        [one] => Some(one),
        [] | [_, _, ..] => None,
    }
}

/// The three elements.
#[tactic(auto, using(crate::proofs::Shapes::not_three))]
fn three(items: &Items) -> Option<(&Data, &Data, &Data)>
    ensures { option_map (λ x. (value_of x.0.now, value_of x.1.now, value_of x.2.now)) result ≡ three_of items.now }
{
    match items.as_slice() {
        [first, second, third] => Some((first, second, third)),
        [] | [_] | [_, _] | [_, _, _, _, ..] => None,
    }
}

/// The fields of a structure.
fn fields(value: &Data) -> Option<&Items>
    ensures { option_copied result ≡ fields_in (value_of value.now) }
{
    match value {
        Data::Structure(items) => Some(items),
        _ => None,
    }
}

/// The number that a size is.
fn size_in(value: &Data) -> Option<u32>
    ensures { result ≡ size_in (value_of value.now) }
{
    match value {
        Data::DoubleLongUnsigned(size) => Some(*size),
        _ => None,
    }
}

/// The bytes of an octet-string.
fn octets(value: &Data) -> Option<&[u8]>
    ensures { option_copied result ≡ octets_in (value_of value.now) }
{
    match value {
        Data::OctetString(octets) => Some(octets.as_slice()),
        _ => None,
    }
}
