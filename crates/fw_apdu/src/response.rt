//! Responses, and how they are written.

ghost use Rattle.std.specs.Prelude.{◌≡◌, ◌∷◌, ◌++◌, None, IfOk, IfErr, OnOk};
ghost use Rattle.std.specs.Option.{option_map};
ghost use Rattle.fw_apdu.specs.Response.{
  get_response,
  set_response,
  action_response,
  code as refused,
  SpellsResult,
  NoResponse,
  SpellsResponse,
  MayReturnData,
  response_bytes,
  result_bytes,
  unwritable_response,
  unwritable_result,
};
ghost use Rattle.fw_apdu.specs.Fault.{
  ResponseFails,
  GetAnswerFails,
  SetAnswerFails,
  ActionAnswerFails,
  ReturnedFails,
  ResultFails,
  IfFault,
  IfMemory,
  IsBadData,
};
ghost use Rattle.fw_apdu.specs.Private.{AnswerRead, AnswerStops, CodeStops, IsReturned, ResultTakes, ReturnedTakes};
ghost use Rattle.fw_apdu.specs.View.{response_content, response_invoke, result_of};

use crate::error::ApduError;
use crate::fields::Invoke;
use crate::laws;
use crate::places::{data_at, end_at, judge};
use crate::request::{ABSENT, NORMAL};
use fw_axdr::{Data, write_to};
use std::alloc::Global;

/// Get-Data-Result: the value of an attribute, or the code of a Data-Access-Result that refuses it.
#[derive(Debug, Drop)]
pub enum GetDataResult {
    Data(Data),
    Code(u8),
}

/// What a server answers to a client.
#[derive(Debug, Drop)]
pub enum Response {
    /// GET.response-normal.
    Get {
        invoke: Invoke,
        result: GetDataResult,
    },
    /// SET.response-normal, with the code of a Data-Access-Result.
    Set {
        invoke: Invoke,
        code: u8,
    },
    /// ACTION.response-normal, with the code of an Action-Result, and return parameters where there
    /// are any.
    Action {
        invoke: Invoke,
        code: u8,
        returned: Option<GetDataResult>,
    },
}

/// The first bytes of the responses.
const GET_RESPONSE: u8 = 0xc4;

const SET_RESPONSE: u8 = 0xc5;

const ACTION_RESPONSE: u8 = 0xc7;

/// The tags of a Get-Data-Result: a value, or a code.
const VALUE: u8 = 0x00;

const CODE: u8 = 0x01;

/// Return parameters follow.
const PRESENT: u8 = 0x01;

/// The response that an APDU is, all of it.
///
/// # Errors
///
/// The leftmost fault of the bytes: `Truncated`, `UnknownService`, `UnsupportedForm`, `BadData` or
/// `Trailing`. Otherwise `OutOfMemory` alone, and only for the value in the answer to a GET or an
/// ACTION.
pub fn read_response(alloc: Global, apdu: &[u8]) -> Result<Response, ApduError>
    ensures found { IfOk result
        (λ r. SpellsResponse apdu.now (response_invoke r) (response_content r)) }
    // A fault is the leftmost one, and comes only if the bytes spell no response.
    ensures none { IfErr result (λ e. IfFault e (NoResponse apdu.now)) }
    ensures fault { IfErr result (λ e. IfFault e (ResponseFails apdu.now e)) }
    // Memory is taken only for a Data, and there only for strings and elements that are there.
    ensures memory { IfErr result (λ e. IfMemory e (MayReturnData apdu.now)) }
{
    laws::one_response_fault();
    response_at(alloc, apdu)
}

/// The response that the bytes are, by its first byte.
fn response_at(alloc: Global, bytes: &[u8]) -> Result<Response, ApduError>
    ensures found { IfOk result
        (λ r. SpellsResponse bytes.now (response_invoke r) (response_content r)) }
    ensures fault { IfErr result (λ e. IfFault e (ResponseFails bytes.now e)) }
    ensures memory { IfErr result (λ e. IfMemory e (MayReturnData bytes.now)) }
{
    let [service, rest @ ..] = bytes else {
        return Err(ApduError::Truncated);
    };
    match *service {
        GET_RESPONSE => get_response(alloc, rest),
        SET_RESPONSE => set_response(rest),
        ACTION_RESPONSE => action_response(alloc, rest),
        _ => Err(ApduError::UnknownService),
    }
}

/// The response to a GET that the bytes after its first byte are.
fn get_response(alloc: Global, bytes: &[u8]) -> Result<Response, ApduError>
    ensures found { IfOk result
        (λ r. SpellsResponse (0xc4 ∷ bytes.now) (response_invoke r) (response_content r)) }
    ensures fault { IfErr result (λ e. IfFault e (GetAnswerFails bytes.now e)) }
    ensures memory { IfErr result (λ e. IfMemory e (MayReturnData (0xc4 ∷ bytes.now))) }
{
    let (invoke, rest) = invoke_at(bytes)?;
    let result = result_at(alloc, rest)?;
    Ok(Response::Get { invoke, result })
}

/// The response to a SET that the bytes after its first byte are.
fn set_response(bytes: &[u8]) -> Result<Response, ApduError>
    ensures found { IfOk result
        (λ r. SpellsResponse (0xc5 ∷ bytes.now) (response_invoke r) (response_content r)) }
    ensures fault { IfErr result (λ e. SetAnswerFails bytes.now e) }
    ensures memory { IfErr result (λ e. IfMemory e ⊥) }
{
    let (invoke, rest) = invoke_at(bytes)?;
    let (code, rest) = code_at(rest)?;
    end_at(rest)?;
    Ok(Response::Set { invoke, code })
}

/// The response to an ACTION that the bytes after its first byte are.
fn action_response(alloc: Global, bytes: &[u8]) -> Result<Response, ApduError>
    ensures found { IfOk result
        (λ r. SpellsResponse (0xc7 ∷ bytes.now) (response_invoke r) (response_content r)) }
    ensures fault { IfErr result (λ e. IfFault e (ActionAnswerFails bytes.now e)) }
    ensures memory { IfErr result (λ e. IfMemory e (MayReturnData (0xc7 ∷ bytes.now))) }
{
    let (invoke, rest) = invoke_at(bytes)?;
    let (code, rest) = code_at(rest)?;
    let returned = returned_at(alloc, rest)?;
    Ok(Response::Action {
        invoke,
        code,
        returned,
    })
}

/// The invoke byte after the normal form, and what follows it.
fn invoke_at(bytes: &[u8]) -> Result<(Invoke, &[u8]), ApduError>
    ensures found { IfOk result (λ x. AnswerRead bytes.now x.0.0 x.1.now) }
    ensures fault { IfErr result (λ e. AnswerStops bytes.now e) }
    ensures memory { IfErr result (λ e. IfMemory e ⊥) }
{
    match bytes {
        [NORMAL, invoke, rest @ ..] => Ok((Invoke(*invoke), rest)),
        [] | [NORMAL] => Err(ApduError::Truncated),
        [_, ..] => Err(ApduError::UnsupportedForm),
    }
}

/// A code, and what follows it.
fn code_at(bytes: &[u8]) -> Result<(u8, &[u8]), ApduError>
    ensures found { IfOk result (λ x. bytes.now ≡ x.0 ∷ x.1.now) }
    ensures fault { IfErr result (λ e. CodeStops bytes.now e) }
    ensures memory { IfErr result (λ e. IfMemory e ⊥) }
{
    let [code, rest @ ..] = bytes else {
        return Err(ApduError::Truncated);
    };
    Ok((*code, rest))
}

/// The return parameters that the bytes are, all of them, or none.
fn returned_at(alloc: Global, bytes: &[u8]) -> Result<Option<GetDataResult>, ApduError>
    ensures found { IfOk result (λ returned. IsReturned bytes.now (option_map result_of returned)) }
    ensures fault { IfErr result (λ e. IfFault e (ReturnedFails bytes.now e)) }
    ensures memory { IfErr result (λ e. IfMemory e (ReturnedTakes bytes.now)) }
{
    let [present, rest @ ..] = bytes else {
        return Err(ApduError::Truncated);
    };
    if *present == ABSENT {
        end_at(rest)?;
        return Ok(None);
    }
    Ok(Some(result_at(alloc, rest)?))
}

/// The Get-Data-Result that the bytes are, all of them.
fn result_at(alloc: Global, bytes: &[u8]) -> Result<GetDataResult, ApduError>
    ensures found { IfOk result (λ r. SpellsResult bytes.now (result_of r)) }
    ensures fault { IfErr result (λ e. IfFault e (ResultFails bytes.now e)) }
    ensures memory { IfErr result (λ e. IfMemory e (ResultTakes bytes.now)) }
{
    let [kind, rest @ ..] = bytes else {
        return Err(ApduError::Truncated);
    };
    match *kind {
        VALUE => Ok(GetDataResult::Data(data_at(alloc, rest)?)),
        CODE => {
            let (code, rest) = code_at(rest)?;
            end_at(rest)?;
            Ok(GetDataResult::Code(code))
        }
        _ => Err(ApduError::UnsupportedForm),
    }
}

/// The short spelling of a response.
///
/// # Errors
///
/// `BadData` if a value in it has no spelling, and otherwise `OutOfMemory` alone.
pub fn write_response(alloc: Global, response: &Response) -> Result<Vec<u8>, ApduError>
    ensures written { IfOk result (λ apdu. apdu.items
        ≡ response_bytes (response_invoke response.now) (response_content response.now)) }
    ensures spelled { IfOk result (λ apdu.
        SpellsResponse apdu.items (response_invoke response.now) (response_content response.now)) }
    // A response is refused where a value in it has no spelling, with the fault of that value.
    ensures refused { IfErr result
        (λ e. IfFault e (IsBadData (unwritable_response (response_content response.now)) e)) }
    // Memory is taken only for a response that can be written.
    ensures memory { IfErr result
        (λ e. IfMemory e (unwritable_response (response_content response.now) ≡ None)) }
{
    match response {
        Response::Get { invoke, result } => {
            ending_in(alloc, &[GET_RESPONSE, NORMAL, invoke.0], result)
        }
        Response::Set { invoke, code } => Ok(set_code(*invoke, *code).to_vec(alloc)?),
        Response::Action {
            invoke,
            code,
            returned,
        } => match returned {
            None => Ok(action_code(*invoke, *code).to_vec(alloc)?),
            Some(result) => ending_in(
                alloc,
                &[ACTION_RESPONSE, NORMAL, invoke.0, *code, PRESENT],
                result,
            ),
        },
    }
}

/// The spelling of a response to a GET that has the code of a Data-Access-Result. No memory is taken.
pub fn get_code(invoke: Invoke, code: u8) -> [u8; 5]
    ensures written { result ≡ response_bytes invoke.0 (get_response (refused code)) }
    ensures spelled { SpellsResponse result invoke.0 (get_response (refused code)) }
{
    [GET_RESPONSE, NORMAL, invoke.0, CODE, code]
}

/// The spelling of a response to a SET, with the code of a Data-Access-Result. No memory is taken.
pub fn set_code(invoke: Invoke, code: u8) -> [u8; 4]
    ensures written { result ≡ response_bytes invoke.0 (set_response code) }
    ensures spelled { SpellsResponse result invoke.0 (set_response code) }
{
    [SET_RESPONSE, NORMAL, invoke.0, code]
}

/// The short spelling of a response to an ACTION, with the code of an Action-Result and no return parameters. No memory is
/// taken.
pub fn action_code(invoke: Invoke, code: u8) -> [u8; 5]
    ensures written { result ≡ response_bytes invoke.0 (action_response code None) }
    ensures spelled { SpellsResponse result invoke.0 (action_response code None) }
{
    [ACTION_RESPONSE, NORMAL, invoke.0, code, ABSENT]
}

/// The bytes, and after them the short spelling of a result.
fn ending_in(alloc: Global, front: &[u8], answer: &GetDataResult) -> Result<Vec<u8>, ApduError>
    ensures written { IfOk result
        (λ apdu. apdu.items ≡ front.now ++ result_bytes (result_of answer.now)) }
    ensures spelled { OnOk result
        (SpellsResult (result_bytes (result_of answer.now)) (result_of answer.now)) }
    ensures refused { IfErr result
        (λ e. IfFault e (IsBadData (unwritable_result (result_of answer.now)) e)) }
    ensures memory { IfErr result
        (λ e. IfMemory e (unwritable_result (result_of answer.now) ≡ None)) }
{
    match answer {
        GetDataResult::Data(value) => {
            judge(value)?;
            let mut apdu = front.to_vec(alloc)?;
            apdu.push(VALUE)?;
            write_to(value, &mut apdu)?;
            Ok(apdu)
        }
        GetDataResult::Code(code) => {
            let mut apdu = front.to_vec(alloc)?;
            apdu.extend_from_slice(&[CODE, *code])?;
            Ok(apdu)
        }
    }
}
