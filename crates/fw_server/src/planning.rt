//! What a request asks, before any meter is looked at.

ghost use Rattle.std.specs.Prelude.{◌≡◌};
ghost use Rattle.std.specs.Option.{option_map, option_copied};
ghost use Rattle.fw_axdr.specs.View.{value_of};
ghost use Rattle.fw_apdu.specs.View.{request_content};
ghost use Rattle.fw_server.specs.Meaning as meaning;
ghost use Rattle.fw_server.specs.Meaning.{
  meaning_of,
  asked_of,
  method_of,
  initiate_of,
  block_of,
  enable_of,
  order_of,
  verify,
  activate,
  or_refused,
  octets_in,
  number_in,
  two_in,
  two_of,
};
ghost use Rattle.fw_server.specs.View.{operation_meaning, planned_meaning};
ghost use Rattle.fw_server.specs.declared.code.ResultCode.TheVariants.{TypeUnmatched};

use crate::code::ResultCode;
use crate::object::{Object, Reading};
use fw_apdu::{Request, cosem};
use fw_axdr::{Data, Items};

/// An operation of Image transfer, except image_block_transfer, with what it borrows from its request.
#[derive(Clone, Copy, Debug)]
pub enum Operation<'a> {
    /// SET of image_transfer_enabled, attribute 5.
    Enable(bool),
    /// ACTION of image_transfer_initiate, method 1: the image's identifier, and its size in bytes.
    Initiate { identifier: &'a [u8], size: u32 },
    /// image_verify, method 3.
    Verify,
    /// image_activate, method 4.
    Activate,
}

/// What a request asks for.
#[derive(Clone, Copy, Debug)]
pub enum Planned<'a> {
    /// GET of an attribute.
    Read(Reading),
    /// SET, or ACTION of any method except image_block_transfer.
    Operate(Operation<'a>),
    /// image_block_transfer, method 2: the number of a block, from 0 on, and its bytes.
    Block { number: u32, value: &'a [u8] },
    /// None of these, by object-undefined, object-class-inconsistent, read-write-denied or type-unmatched. Requests are judged in this
    /// order, and the first that applies is given (own).
    Refused(ResultCode),
}

/// The read or the operation that a request asks for, or the code that refuses it where the request alone decides. No meter is looked
/// at, and no memory is taken.
pub fn plan(request: &Request) -> Planned<'_>
    ensures { planned_meaning result ≡ meaning_of (request_content request.now) }
{
    let Some(object) = Object::named(request.instance()) else {
        return Planned::Refused(ResultCode::ObjectUndefined);
    };
    if request.class() != object.class() {
        return Planned::Refused(ResultCode::ObjectClassInconsistent);
    }
    asked(object, request)
}

/// What a request asks of an object.
fn asked(object: Object, request: &Request) -> Planned<'_>
    ensures { planned_meaning result ≡ asked_of object (request_content request.now) }
{
    match (object, request) {
        (_, Request::Get { attribute, .. }) => match object.attribute(*attribute) {
            Some(reading) => Planned::Read(reading),
            None => Planned::Refused(ResultCode::ReadWriteDenied),
        },
        (
            Object::ImageTransfer,
            Request::Set {
                attribute: cosem::IMAGE_TRANSFER_ENABLED,
                value,
                ..
            },
        ) => or_unmatched(enable(value)),
        (
            Object::ImageTransfer,
            Request::Action {
                method,
                parameter,
                ..
            },
        ) => method_of(*method, parameter),
        _ => Planned::Refused(ResultCode::ReadWriteDenied),
    }
}

/// What a method of Image transfer does with a parameter.
fn method_of(method: i8, parameter: &Option<Data>) -> Planned<'_>
    ensures { planned_meaning result ≡ method_of method (option_map value_of parameter.now) }
{
    match method {
        cosem::IMAGE_TRANSFER_INITIATE => or_unmatched(parameter.as_ref().and_then(initiate)),
        cosem::IMAGE_BLOCK_TRANSFER => block_or_unmatched(parameter.as_ref().and_then(block)),
        cosem::IMAGE_VERIFY => or_unmatched(parameter.as_ref().and_then(verify)),
        cosem::IMAGE_ACTIVATE => or_unmatched(parameter.as_ref().and_then(activate)),
        _ => Planned::Refused(ResultCode::ReadWriteDenied),
    }
}

/// The operation, or the refusal of a parameter of another shape.
fn or_unmatched(operation: Option<Operation<'_>>) -> Planned<'_>
    ensures { planned_meaning result ≡ or_refused TypeUnmatched (option_map operation_meaning operation.entry) }
{
    match operation {
        Some(operation) => Planned::Operate(operation),
        None => Planned::Refused(ResultCode::TypeUnmatched),
    }
}

/// The block, or the refusal of a parameter of another shape.
fn block_or_unmatched(block: Option<(u32, &[u8])>) -> Planned<'_>
    ensures { planned_meaning result ≡ or_refused TypeUnmatched (option_map (λ b. meaning.block b.0 b.1.now) block.entry) }
{
    match block {
        Some((number, value)) => Planned::Block { number, value },
        None => Planned::Refused(ResultCode::TypeUnmatched),
    }
}

/// image_verify, of any integer.
fn verify(parameter: &Data) -> Option<Operation<'_>>
    ensures { option_map operation_meaning result ≡ order_of verify (value_of parameter.now) }
{
    match parameter {
        Data::Integer(_) => Some(Operation::Verify),
        _ => None,
    }
}

/// image_activate, of any integer.
fn activate(parameter: &Data) -> Option<Operation<'_>>
    ensures { option_map operation_meaning result ≡ order_of activate (value_of parameter.now) }
{
    match parameter {
        Data::Integer(_) => Some(Operation::Activate),
        _ => None,
    }
}

/// image_transfer_initiate, of the structure of an identifier and a size.
fn initiate(parameter: &Data) -> Option<Operation<'_>>
    ensures { option_map operation_meaning result ≡ initiate_of (value_of parameter.now) }
{
    let (first, second) = two(parameter)?;
    let identifier = octets(first)?;
    let size = number(second)?;
    Some(Operation::Initiate { identifier, size })
}

/// image_block_transfer, of the structure of a block number and the block's bytes.
fn block(parameter: &Data) -> Option<(u32, &[u8])>
    ensures { option_map (λ b. meaning.block b.0 b.1.now) result ≡ block_of (value_of parameter.now) }
{
    let (first, second) = two(parameter)?;
    let number = number(first)?;
    let value = octets(second)?;
    Some((number, value))
}

/// A new value of image_transfer_enabled.
fn enable(value: &Data) -> Option<Operation<'_>>
    ensures { option_map operation_meaning result ≡ enable_of (value_of value.now) }
{
    match value {
        Data::Boolean(enabled) => Some(Operation::Enable(*enabled)),
        _ => None,
    }
}

/// The two elements of a structure.
fn two(value: &Data) -> Option<(&Data, &Data)>
    ensures { option_map (λ x. (value_of x.0.now, value_of x.1.now)) result ≡ two_in (value_of value.now) }
{
    match value {
        Data::Structure(items) => two_items(items),
        _ => None,
    }
}

#[tactic(auto, using(crate::proofs::Pairs::no_pair))]
fn two_items(items: &Items) -> Option<(&Data, &Data)>
    ensures { option_map (λ x. (value_of x.0.now, value_of x.1.now)) result ≡ two_of items.now }
{
    match items.as_slice() {
        [first, second] => Some((first, second)),
        [] | [_] => None,
        [_, _, _, ..] => None,
    }
}

fn octets(value: &Data) -> Option<&[u8]>
    ensures { option_copied result ≡ octets_in (value_of value.now) }
{
    match value {
        Data::OctetString(octets) => Some(octets.as_slice()),
        _ => None,
    }
}

fn number(value: &Data) -> Option<u32>
    ensures { result ≡ number_in (value_of value.now) }
{
    match value {
        Data::DoubleLongUnsigned(number) => Some(*number),
        _ => None,
    }
}
