//! From an ask to the datagram that asks it.

ghost use Rattle.std.specs.Prelude.{◌≡◌, ◌≤◌, pos, length, IfOk, IfErr, OnOk};
ghost use Rattle.fw_axdr.specs.Value.{double_long_unsigned, octet_string};
ghost use Rattle.fw_axdr.specs.View.{value_of};
ghost use Rattle.fw_apdu.specs.Request.{get_request, action_request, request_bytes, SpellsRequest};
ghost use Rattle.fw_apdu.specs.View.{request_content, request_invoke};
ghost use Rattle.fw_names.specs.Name.{IsName, name_bytes};
ghost use Rattle.fw_wrapper.specs.Wrapper.{wrapped, max_apdu, wport};
ghost use Rattle.fw_client.specs.Ask.{request_of, image_transfer, active_identifier, pair, Fits, CarriesRequest};
ghost use Rattle.fw_client.specs.Private.{IsNamed};
ghost use Rattle.fw_client.specs.View.{ask_of};

use crate::ask::Ask;
use crate::error::OutOfMemory;
use fw_apdu::{ApduError, Invoke, Request, cosem, write_request};
use fw_axdr::{Data, Items, Octets};
use fw_names::ImageName;
use fw_wrapper::{WPORT, WrapError, join};
use std::alloc::{AllocError, Global};

/// The datagram that asks, under this invoke byte.
pub(crate) fn datagram(alloc: Global, invoke: Invoke, ask: &Ask<'_>) -> Result<Vec<u8>, OutOfMemory>
    requires { Fits (ask_of ask.now) }
    ensures written { IfOk result (λ datagram. datagram.items
        ≡ wrapped wport wport (request_bytes invoke.0 (request_of (ask_of ask.now)))) }
    ensures carries { IfOk result (λ datagram. CarriesRequest datagram.items invoke.0 (request_of (ask_of ask.now))) }
{
    let apdu = match apdu(alloc, invoke, ask) {
        Ok(apdu) => apdu,
        Err(ApduError::OutOfMemory) => return Err(OutOfMemory),
        Err(_) => unreachable!(),
    };
    match join(alloc, WPORT, WPORT, &apdu) {
        Ok(datagram) => Ok(datagram),
        Err(WrapError::OutOfMemory) => Err(OutOfMemory),
        Err(_) => unreachable!(),
    }
}

/// The APDU in it.
fn apdu(alloc: Global, invoke: Invoke, ask: &Ask<'_>) -> Result<Vec<u8>, ApduError>
    requires { Fits (ask_of ask.now) }
    ensures written { IfOk result (λ apdu. apdu.items ≡ request_bytes invoke.0 (request_of (ask_of ask.now))) }
    ensures spelled { IfOk result (λ apdu. SpellsRequest apdu.items invoke.0 (request_of (ask_of ask.now))) }
    ensures size { IfOk result (λ apdu. length apdu.items ≤ max_apdu) }
    ensures memory { IfErr result (λ e. e ≡ ApduError.OutOfMemory) }
{
    let request = request(alloc, invoke, ask)?;
    write_request(alloc, &request)
}

/// The request with this invoke byte.
fn request(alloc: Global, invoke: Invoke, ask: &Ask<'_>) -> Result<Request, AllocError>
    ensures invoke { IfOk result (λ r. request_invoke r ≡ invoke.0) }
    ensures content { IfOk result (λ r. request_content r ≡ request_of (ask_of ask.now)) }
    ensures named { OnOk result (IsNamed (ask_of ask.now)) }
{
    Ok(match ask {
        Ask::BlockSize => get(invoke, cosem::IMAGE_BLOCK_SIZE),
        Ask::Blocks => get(invoke, cosem::IMAGE_TRANSFERRED_BLOCKS_STATUS),
        Ask::FirstMissing => get(invoke, cosem::IMAGE_FIRST_NOT_TRANSFERRED_BLOCK_NUMBER),
        Ask::Status => get(invoke, cosem::IMAGE_TRANSFER_STATUS),
        Ask::Info => get(invoke, cosem::IMAGE_TO_ACTIVATE_INFO),
        Ask::ActiveName => get_active_name(invoke),
        Ask::Enable => enable(invoke),
        Ask::Initiate { name, size } => action(
            invoke,
            cosem::IMAGE_TRANSFER_INITIATE,
            identified(alloc, name, *size)?,
        ),
        Ask::Block { number, value } => action(
            invoke,
            cosem::IMAGE_BLOCK_TRANSFER,
            numbered(alloc, *number, value)?,
        ),
        Ask::Verify => action(invoke, cosem::IMAGE_VERIFY, Data::Integer(0)),
        Ask::Activate => action(invoke, cosem::IMAGE_ACTIVATE, Data::Integer(0)),
    })
}

/// GET of an attribute of Image transfer.
fn get(invoke: Invoke, attribute: i8) -> Request
    ensures invoke { request_invoke result ≡ invoke.0 }
    ensures content { request_content result ≡ get_request (image_transfer attribute) }
{
    Request::Get {
        invoke,
        class: cosem::IMAGE_TRANSFER_CLASS,
        instance: cosem::IMAGE_TRANSFER,
        attribute,
    }
}

/// GET of the value of the active firmware identifier.
fn get_active_name(invoke: Invoke) -> Request
    ensures invoke { request_invoke result ≡ invoke.0 }
    ensures content { request_content result ≡ request_of (ask_of Ask.ActiveName) }
{
    Request::Get {
        invoke,
        class: cosem::DATA_CLASS,
        instance: cosem::ACTIVE_FIRMWARE_IDENTIFIER,
        attribute: cosem::VALUE,
    }
}

/// SET of image_transfer_enabled.
fn enable(invoke: Invoke) -> Request
    ensures invoke { request_invoke result ≡ invoke.0 }
    ensures content { request_content result ≡ request_of (ask_of Ask.Enable) }
{
    Request::Set {
        invoke,
        class: cosem::IMAGE_TRANSFER_CLASS,
        instance: cosem::IMAGE_TRANSFER,
        attribute: cosem::IMAGE_TRANSFER_ENABLED,
        value: Data::Boolean(true),
    }
}

/// ACTION of a method of Image transfer, with its parameter.
fn action(invoke: Invoke, method: i8, parameter: Data) -> Request
    ensures invoke { request_invoke result ≡ invoke.0 }
    ensures content { request_content result ≡ action_request (image_transfer method) (Some (value_of parameter)) }
{
    Request::Action {
        invoke,
        class: cosem::IMAGE_TRANSFER_CLASS,
        instance: cosem::IMAGE_TRANSFER,
        method,
        parameter: Some(parameter),
    }
}

/// The structure of an image's identifier and size.
fn identified(alloc: Global, name: &ImageName, size: u32) -> Result<Data, AllocError>
    ensures value { IfOk result (λ found. value_of found ≡ pair (octet_string (name_bytes name.now)) (double_long_unsigned size)) }
    ensures named { OnOk result (IsName name.now) }
{
    let identifier = octets(alloc, name.to_bytes().as_slice())?;
    structure(alloc, identifier, Data::DoubleLongUnsigned(size))
}

/// The structure of a block's number and bytes.
fn numbered(alloc: Global, number: u32, value: &[u8]) -> Result<Data, AllocError>
    ensures { IfOk result (λ found. value_of found ≡ pair (double_long_unsigned number) (octet_string value.now)) }
{
    let bytes = octets(alloc, value)?;
    structure(alloc, Data::DoubleLongUnsigned(number), bytes)
}

/// The structure of two values.
fn structure(alloc: Global, first: Data, second: Data) -> Result<Data, AllocError>
    ensures { IfOk result (λ found. value_of found ≡ pair (value_of first) (value_of second)) }
{
    Ok(Data::Structure(Items::from_vec(vec![in alloc; first, second]?)))
}

/// The octet-string of these bytes.
fn octets(alloc: Global, bytes: &[u8]) -> Result<Data, AllocError>
    ensures { IfOk result (λ found. value_of found ≡ octet_string bytes.now) }
{
    Ok(Data::OctetString(Octets::from_vec(bytes.to_vec(alloc)?)))
}
