//! What a request asks of a meter, as far as an offer decides whether it may be sent.

ghost use Rattle.std.specs.Prelude.{◌≡◌};
ghost use Rattle.std.specs.Option.{option_copied, option_map};
ghost use Rattle.fw_axdr.specs.View.{value_of};
ghost use Rattle.fw_apdu.specs.View.{request_content, request_invoke};
ghost use Rattle.fw_server.specs.Meaning.{number_in, octets_in, two_in, two_of};
ghost use Rattle.fw_head_audit.specs.Private.{
  asked_by,
  asked_in,
  blocking_of,
  free_if,
  initiating_of,
  is_identifier,
  is_invoke,
  is_read_number,
  is_transfer,
  is_true,
  is_zero,
  kind_of,
  method_asks,
  order_of,
  set_asks,
};

use fw_apdu::{Invoke, LogicalName, Request, cosem};
use fw_axdr::{Data, Items};

/// What a request asks. It borrows from the request.
#[derive(Clone, Copy)]
pub(crate) enum Asking<'a> {
    /// What any offer lets a head end ask: a read, a verify, an activate, or that transfer is enabled.
    Free,
    /// image_transfer_initiate, of this identifier and size.
    Initiate { identifier: &'a [u8], size: u32 },
    /// image_block_transfer, of the block of this number.
    Block { number: u32, value: &'a [u8] },
}

/// What stands before the id in the invoke bytes of a head end: confirmed, of high priority (IEC 62056-5-3, Invoke-Id-And-Priority).
const CONFIRMED_HIGH: u8 = 0xc;

/// How many invoke-ids there are.
const IDS: u8 = 16;

/// What a request asks, if it is one of those that a head end sends.
pub(crate) fn asking_of(request: &Request) -> Option<Asking<'_>>
    ensures { option_map kind_of result ≡ asked_in (request_invoke request.now) (request_content request.now) }
{
    if is_invoke(request.invoke()) {
        asked_by(request)
    } else {
        None
    }
}

/// Whether it is an invoke byte of a head end.
fn is_invoke(invoke: Invoke) -> bool
    ensures { result ≡ is_invoke invoke.0 }
{
    invoke.0 / IDS == CONFIRMED_HIGH
}

/// What a request with such a byte asks.
fn asked_by(request: &Request) -> Option<Asking<'_>>
    ensures { option_map kind_of result ≡ asked_by (request_content request.now) }
{
    match request {
        Request::Get {
            class,
            instance,
            attribute,
            ..
        } => {
            if is_transfer(*class, *instance) {
                free_if(is_read(*attribute))
            } else {
                free_if(is_identifier(*class, *instance, *attribute))
            }
        }
        Request::Set {
            class,
            instance,
            attribute,
            value,
            ..
        } => {
            if is_transfer(*class, *instance) {
                set_asks(*attribute, value)
            } else {
                None
            }
        }
        Request::Action {
            class,
            instance,
            method,
            parameter,
            ..
        } => {
            if is_transfer(*class, *instance) {
                method_asks(*method, parameter)
            } else {
                None
            }
        }
    }
}

/// What any offer lets a head end ask, or nothing.
fn free_if<'a>(is: bool) -> Option<Asking<'a>>
    ensures { option_map kind_of result ≡ free_if is }
{
    if is { Some(Asking::Free) } else { None }
}

/// What a set of an attribute of Image transfer asks.
fn set_asks<'a>(attribute: i8, value: &Data) -> Option<Asking<'a>>
    ensures { option_map kind_of result ≡ set_asks attribute (value_of value.now) }
{
    if attribute == cosem::IMAGE_TRANSFER_ENABLED {
        free_if(is_true(value))
    } else {
        None
    }
}

/// Whether it is the Image transfer object.
fn is_transfer(class: u16, instance: LogicalName) -> bool
    ensures { result ≡ is_transfer class instance.0 }
{
    class == cosem::IMAGE_TRANSFER_CLASS && instance == cosem::IMAGE_TRANSFER
}

/// Whether it is the value of the active firmware identifier.
fn is_identifier(class: u16, instance: LogicalName, attribute: i8) -> bool
    ensures { result ≡ is_identifier class instance.0 attribute }
{
    class == cosem::DATA_CLASS
        && instance == cosem::ACTIVE_FIRMWARE_IDENTIFIER
        && attribute == cosem::VALUE
}

/// Whether a head end reads this attribute of Image transfer.
fn is_read(attribute: i8) -> bool
    ensures { result ≡ is_read_number attribute }
{
    attribute == cosem::IMAGE_BLOCK_SIZE
        || attribute == cosem::IMAGE_TRANSFERRED_BLOCKS_STATUS
        || attribute == cosem::IMAGE_FIRST_NOT_TRANSFERRED_BLOCK_NUMBER
        || attribute == cosem::IMAGE_TRANSFER_STATUS
        || attribute == cosem::IMAGE_TO_ACTIVATE_INFO
}

/// What a method of Image transfer asks with a parameter.
fn method_asks(method: i8, parameter: &Option<Data>) -> Option<Asking<'_>>
    ensures { option_map kind_of result ≡ method_asks method (option_map value_of parameter.now) }
{
    match method {
        cosem::IMAGE_TRANSFER_INITIATE => parameter.as_ref().and_then(initiate),
        cosem::IMAGE_BLOCK_TRANSFER => parameter.as_ref().and_then(block),
        cosem::IMAGE_VERIFY => parameter.as_ref().and_then(order),
        cosem::IMAGE_ACTIVATE => parameter.as_ref().and_then(order),
        _ => None,
    }
}

/// A verify or an activate, of the integer 0.
fn order(parameter: &Data) -> Option<Asking<'_>>
    ensures { option_map kind_of result ≡ order_of (value_of parameter.now) }
{
    free_if(is_zero(parameter))
}

/// An initiate, of the structure of an identifier and a size.
fn initiate(parameter: &Data) -> Option<Asking<'_>>
    ensures { option_map kind_of result ≡ initiating_of (value_of parameter.now) }
{
    let (first, second) = two(parameter)?;
    let identifier = octets(first)?;
    let size = number(second)?;
    Some(Asking::Initiate { identifier, size })
}

/// A block, of the structure of its number and its bytes.
fn block(parameter: &Data) -> Option<Asking<'_>>
    ensures { option_map kind_of result ≡ blocking_of (value_of parameter.now) }
{
    let (first, second) = two(parameter)?;
    let number = number(first)?;
    let value = octets(second)?;
    Some(Asking::Block { number, value })
}

/// The two elements of a structure.
fn two(value: &Data) -> Option<(&Data, &Data)>
    ensures { option_map (λ x. (value_of x.0.now, value_of x.1.now)) result ≡ two_in (value_of value.now) }
{
    match value {
        Data::Structure(items) => two_items(items),
        _ => None,
    }
}

#[tactic(auto, using(crate::proofs::Shapes::no_pair))]
fn two_items(items: &Items) -> Option<(&Data, &Data)>
    ensures { option_map (λ x. (value_of x.0.now, value_of x.1.now)) result ≡ two_of items.now }
{
    match items.as_slice() {
        [first, second] => Some((first, second)),
        [] | [_] => None,
        [_, _, _, ..] => None,
    }
}

fn octets(value: &Data) -> Option<&[u8]>
    ensures { option_copied result ≡ octets_in (value_of value.now) }
{
    match value {
        Data::OctetString(octets) => Some(octets.as_slice()),
        _ => None,
    }
}

fn number(value: &Data) -> Option<u32>
    ensures { result ≡ number_in (value_of value.now) }
{
    match value {
        Data::DoubleLongUnsigned(number) => Some(*number),
        _ => None,
    }
}

fn is_zero(value: &Data) -> bool
    ensures { result ≡ is_zero (value_of value.now) }
{
    match value {
        Data::Integer(number) => *number == 0,
        _ => false,
    }
}

fn is_true(value: &Data) -> bool
    ensures { result ≡ is_true (value_of value.now) }
{
    match value {
        Data::Boolean(set) => *set,
        _ => false,
    }
}
