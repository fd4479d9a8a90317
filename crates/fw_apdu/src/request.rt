//! Requests, and how they are read.

ghost use Rattle.std.specs.Prelude.{◌≡◌, [], ◌∷◌, ◌++◌, None, IfOk, IfErr, OnOk};
ghost use Rattle.std.specs.Option.{option_map};
ghost use Rattle.fw_axdr.specs.Spelling.{IsData, max_depth, short};
ghost use Rattle.fw_axdr.specs.Fault.{unwritable};
ghost use Rattle.fw_axdr.specs.View.{value_of};
ghost use Rattle.fw_apdu.specs.Request.{
  IsDescriptor,
  SpellsRequest,
  NoRequest,
  MayHoldData,
  request_descriptor,
  head_bytes,
  request_bytes,
  unwritable_request,
};
ghost use Rattle.fw_apdu.specs.Fault.{RequestFails, GetFails, SetFails, ActionFails, ParameterFails, IfFault, IfMemory, IsBadData};
ghost use Rattle.fw_apdu.specs.View.{request_content, request_invoke};
ghost use Rattle.fw_apdu.specs.Private.{descriptor_of, HeadRead, HeadStops, SelectionStops, IsParameter, ParameterTakes};

use crate::error::ApduError;
use crate::fields::{Invoke, LogicalName};
use crate::laws;
use crate::places::{data_at, end_at, judge};
use fw_axdr::{Data, write_to};
use std::alloc::{AllocError, Global};

/// What a client asks of a server. `class` is the object's class_id and `instance` its logical
/// name.
#[derive(Debug, Drop)]
pub enum Request {
    /// GET.request-normal: the value of an attribute.
    Get {
        invoke: Invoke,
        class: u16,
        instance: LogicalName,
        attribute: i8,
    },
    /// SET.request-normal: a new value for an attribute.
    Set {
        invoke: Invoke,
        class: u16,
        instance: LogicalName,
        attribute: i8,
        value: Data,
    },
    /// ACTION.request-normal: a method to invoke, and its parameter where it has one.
    Action {
        invoke: Invoke,
        class: u16,
        instance: LogicalName,
        method: i8,
        parameter: Option<Data>,
    },
}

impl Request {
    /// The invoke byte, which the response repeats.
    pub fn invoke(&self) -> Invoke
        ensures { result.0 ≡ request_invoke self.now }
    {
        match self {
            Request::Get { invoke, .. }
            | Request::Set { invoke, .. }
            | Request::Action { invoke, .. } => *invoke,
        }
    }

    /// The class_id of the object that is addressed.
    pub fn class(&self) -> u16
        ensures { result ≡ (request_descriptor (request_content self.now)).class }
    {
        match self {
            Request::Get { class, .. }
            | Request::Set { class, .. }
            | Request::Action { class, .. } => *class,
        }
    }

    /// The logical name of the object that is addressed.
    pub fn instance(&self) -> LogicalName
        ensures { result.0 ≡ (request_descriptor (request_content self.now)).instance }
    {
        match self {
            Request::Get { instance, .. }
            | Request::Set { instance, .. }
            | Request::Action { instance, .. } => *instance,
        }
    }

    /// The number of the attribute or the method that is addressed.
    fn number(&self) -> i8
        ensures { result ≡ (request_descriptor (request_content self.now)).number }
    {
        match self {
            Request::Get { attribute, .. } | Request::Set { attribute, .. } => *attribute,
            Request::Action { method, .. } => *method,
        }
    }

    /// What the request has after its first byte.
    fn head(&self) -> Head
        ensures invoke { result.invoke.0 ≡ request_invoke self.now }
        ensures descriptor { descriptor_of result ≡ request_descriptor (request_content self.now) }
    {
        Head {
            invoke: self.invoke(),
            class: self.class(),
            instance: self.instance(),
            number: self.number(),
        }
    }
}

/// The first bytes of the requests.
const GET_REQUEST: u8 = 0xc0;

const SET_REQUEST: u8 = 0xc1;

const ACTION_REQUEST: u8 = 0xc3;

/// The form that is read and written, without lists and block transfer.
pub(crate) const NORMAL: u8 = 0x01;

/// No selective access, and no parameter.
pub(crate) const ABSENT: u8 = 0x00;

/// A parameter follows.
const PRESENT: u8 = 0x01;

/// What every request has after its first byte.
#[derive(Clone, Copy)]
struct Head {
    invoke: Invoke,
    class: u16,
    instance: LogicalName,
    number: i8,
}

/// The request that an APDU is, all of it.
///
/// # Errors
///
/// The leftmost fault of the bytes: `Truncated`, `UnknownService`, `UnsupportedForm`, `BadData` or
/// `Trailing`. Otherwise `OutOfMemory` alone, and only for the value of a SET or the parameter of
/// an ACTION.
pub fn read_request(alloc: Global, apdu: &[u8]) -> Result<Request, ApduError>
    ensures found { IfOk result
        (λ r. SpellsRequest apdu.now (request_invoke r) (request_content r)) }
    // A fault is the leftmost one, and comes only if the bytes spell no request.
    ensures none { IfErr result (λ e. IfFault e (NoRequest apdu.now)) }
    ensures fault { IfErr result (λ e. IfFault e (RequestFails apdu.now e)) }
    // Memory is taken only for a Data, and there only for strings and elements that are there.
    ensures memory { IfErr result (λ e. IfMemory e (MayHoldData apdu.now)) }
{
    laws::one_request_fault();
    request_at(alloc, apdu)
}

/// The request that the bytes are, by its first byte.
fn request_at(alloc: Global, bytes: &[u8]) -> Result<Request, ApduError>
    ensures found { IfOk result
        (λ r. SpellsRequest bytes.now (request_invoke r) (request_content r)) }
    ensures fault { IfErr result (λ e. IfFault e (RequestFails bytes.now e)) }
    ensures memory { IfErr result (λ e. IfMemory e (MayHoldData bytes.now)) }
{
    let [service, rest @ ..] = bytes else {
        return Err(ApduError::Truncated);
    };
    match *service {
        GET_REQUEST => get_request(rest),
        SET_REQUEST => set_request(alloc, rest),
        ACTION_REQUEST => action_request(alloc, rest),
        _ => Err(ApduError::UnknownService),
    }
}

/// The GET that the bytes after its first byte are.
fn get_request(bytes: &[u8]) -> Result<Request, ApduError>
    ensures found { IfOk result
        (λ r. SpellsRequest (0xc0 ∷ bytes.now) (request_invoke r) (request_content r)) }
    ensures fault { IfErr result (λ e. GetFails bytes.now e) }
    ensures memory { IfErr result (λ e. IfMemory e ⊥) }
{
    let (head, rest) = head_at(bytes)?;
    let rest = selection_at(rest)?;
    end_at(rest)?;
    Ok(Request::Get {
        invoke: head.invoke,
        class: head.class,
        instance: head.instance,
        attribute: head.number,
    })
}

/// The SET that the bytes after its first byte are.
fn set_request(alloc: Global, bytes: &[u8]) -> Result<Request, ApduError>
    ensures found { IfOk result
        (λ r. SpellsRequest (0xc1 ∷ bytes.now) (request_invoke r) (request_content r)) }
    ensures fault { IfErr result (λ e. IfFault e (SetFails bytes.now e)) }
    ensures memory { IfErr result (λ e. IfMemory e (MayHoldData (0xc1 ∷ bytes.now))) }
{
    let (head, rest) = head_at(bytes)?;
    let rest = selection_at(rest)?;
    let value = data_at(alloc, rest)?;
    Ok(Request::Set {
        invoke: head.invoke,
        class: head.class,
        instance: head.instance,
        attribute: head.number,
        value,
    })
}

/// The ACTION that the bytes after its first byte are.
fn action_request(alloc: Global, bytes: &[u8]) -> Result<Request, ApduError>
    ensures found { IfOk result
        (λ r. SpellsRequest (0xc3 ∷ bytes.now) (request_invoke r) (request_content r)) }
    ensures fault { IfErr result (λ e. IfFault e (ActionFails bytes.now e)) }
    ensures memory { IfErr result (λ e. IfMemory e (MayHoldData (0xc3 ∷ bytes.now))) }
{
    let (head, rest) = head_at(bytes)?;
    let parameter = parameter_at(alloc, rest)?;
    Ok(Request::Action {
        invoke: head.invoke,
        class: head.class,
        instance: head.instance,
        method: head.number,
        parameter,
    })
}

/// What stands after the first byte of every request, and what follows it.
fn head_at(bytes: &[u8]) -> Result<(Head, &[u8]), ApduError>
    ensures found { IfOk result (λ x. HeadRead bytes.now x.0 x.1.now) }
    ensures fault { IfErr result (λ e. HeadStops bytes.now e) }
    ensures memory { IfErr result (λ e. IfMemory e ⊥) }
{
    match bytes {
        [
            NORMAL,
            invoke,
            c1,
            c0,
            n0,
            n1,
            n2,
            n3,
            n4,
            n5,
            number,
            rest @ ..,
        ] => {
            let head = Head {
                invoke: Invoke(*invoke),
                class: u16::from_be_bytes([*c1, *c0]),
                instance: LogicalName([*n0, *n1, *n2, *n3, *n4, *n5]),
                number: number.cast_signed(),
            };
            Ok((head, rest))
        }
        [] | [NORMAL, ..] => Err(ApduError::Truncated),
        [_, ..] => Err(ApduError::UnsupportedForm),
    }
}

/// What follows the access selection, which is that of the whole attribute.
fn selection_at(bytes: &[u8]) -> Result<&[u8], ApduError>
    ensures found { IfOk result (λ rest. bytes.now ≡ 0x00 ∷ rest.now) }
    ensures fault { IfErr result (λ e. SelectionStops bytes.now e) }
    ensures memory { IfErr result (λ e. IfMemory e ⊥) }
{
    match bytes {
        [ABSENT, rest @ ..] => Ok(rest),
        [] => Err(ApduError::Truncated),
        [_, ..] => Err(ApduError::UnsupportedForm),
    }
}

/// The parameter that the bytes are, all of them, or none.
fn parameter_at(alloc: Global, bytes: &[u8]) -> Result<Option<Data>, ApduError>
    ensures found { IfOk result
        (λ parameter. IsParameter bytes.now (option_map value_of parameter)) }
    ensures fault { IfErr result (λ e. IfFault e (ParameterFails bytes.now e)) }
    ensures memory { IfErr result (λ e. IfMemory e (ParameterTakes bytes.now)) }
{
    let [present, rest @ ..] = bytes else {
        return Err(ApduError::Truncated);
    };
    if *present == ABSENT {
        end_at(rest)?;
        return Ok(None);
    }
    Ok(Some(data_at(alloc, rest)?))
}

/// The short spelling of a request.
///
/// # Errors
///
/// `BadData` if a value in it has no spelling, and otherwise `OutOfMemory` alone.
pub fn write_request(alloc: Global, request: &Request) -> Result<Vec<u8>, ApduError>
    ensures written { IfOk result (λ apdu. apdu.items
        ≡ request_bytes (request_invoke request.now) (request_content request.now)) }
    ensures spelled { IfOk result (λ apdu.
        SpellsRequest apdu.items (request_invoke request.now) (request_content request.now)) }
    // A request is refused where a value in it has no spelling, with the fault of that value.
    ensures refused { IfErr result
        (λ e. IfFault e (IsBadData (unwritable_request (request_content request.now)) e)) }
    // Memory is taken only for a request that can be written.
    ensures memory { IfErr result
        (λ e. IfMemory e (unwritable_request (request_content request.now) ≡ None)) }
{
    let head = request.head();
    match request {
        Request::Get { .. } => Ok(head.written(alloc, GET_REQUEST, ABSENT)?),
        Request::Set { value, .. } => head.written_with(alloc, SET_REQUEST, ABSENT, value),
        Request::Action { parameter, .. } => match parameter {
            None => Ok(head.written(alloc, ACTION_REQUEST, ABSENT)?),
            Some(value) => head.written_with(alloc, ACTION_REQUEST, PRESENT, value),
        },
    }
}

impl Head {
    /// The first byte of a request, the head, and the byte that says what follows.
    fn written(self, alloc: Global, service: u8, follows: u8) -> Result<Vec<u8>, AllocError>
        ensures written { IfOk result (λ apdu. apdu.items
            ≡ service ∷ head_bytes self.invoke.0 (descriptor_of self) ++ follows ∷ []) }
        ensures fits { IsDescriptor (descriptor_of self) }
    {
        let mut apdu = [service, NORMAL, self.invoke.0].to_vec(alloc)?;
        apdu.extend_from_slice(&self.class.to_be_bytes())?;
        apdu.extend_from_slice(&self.instance.0)?;
        apdu.extend_from_slice(&[self.number.cast_unsigned(), follows])?;
        Ok(apdu)
    }

    /// The same, and the short spelling of a value.
    fn written_with(
        self,
        alloc: Global,
        service: u8,
        follows: u8,
        value: &Data,
    ) -> Result<Vec<u8>, ApduError>
        ensures written { IfOk result (λ apdu. apdu.items
            ≡ service ∷ head_bytes self.invoke.0 (descriptor_of self) ++ follows ∷ short (value_of value.now)) }
        ensures fits { IsDescriptor (descriptor_of self) }
        ensures spelled { OnOk result
            (IsData max_depth (short (value_of value.now)) (value_of value.now)) }
        ensures refused { IfErr result
            (λ e. IfFault e (IsBadData (unwritable (value_of value.now) max_depth) e)) }
        ensures memory { IfErr result
            (λ e. IfMemory e (unwritable (value_of value.now) max_depth ≡ None)) }
    {
        judge(value)?;
        let mut apdu = self.written(alloc, service, follows)?;
        write_to(value, &mut apdu)?;
        Ok(apdu)
    }
}
