//! From a datagram to the answer that it carries.

ghost use Rattle.std.specs.Prelude.{IfOk, OnErr};
ghost use Rattle.fw_axdr.specs.View.{value_of};
ghost use Rattle.fw_apdu.specs.Response.{get_response};
ghost use Rattle.fw_apdu.specs.View.{response_content, response_invoke, result_of};
ghost use Rattle.fw_survey.specs.Answers.{IsActive, IsBlockSize, IsEnabled, IsNameOf, IsStatus, MayCarryData, Says, SaysOf};
ghost use Rattle.fw_survey.specs.Private.{FindsAnswer, FindsBy, IsResponseIn};

use crate::answer::Answer;
use crate::error::OutOfMemory;
use crate::question::Question;
use fw_apdu::{ApduError, GetDataResult, Invoke, Response, read_response};
use fw_axdr::Data;
use fw_names::ImageName;
use fw_wrapper::{WPORT, split};
use std::alloc::Global;

/// The question that a datagram answers, with the answer, if it carries one between the ports of both ends.
///
/// # Errors
///
/// `OutOfMemory` alone, and only for a Data that takes memory.
pub(crate) fn answer_in(
    alloc: Global,
    datagram: &[u8],
) -> Result<Option<(Question, Answer)>, OutOfMemory>
    ensures answer { IfOk result (FindsAnswer datagram.now) }
    ensures memory { OnErr result (MayCarryData datagram.now) }
{
    fw_wrapper::laws::one_frame();
    fw_apdu::laws::one_response();
    match response_in(alloc, datagram)? {
        Some(response) => Ok(answered(response)),
        None => Ok(None),
    }
}

/// The response that a datagram carries, if it carries one between the ports of both ends.
fn response_in(alloc: Global, datagram: &[u8]) -> Result<Option<Response>, OutOfMemory>
    ensures response { IfOk result (λ response. IsResponseIn datagram.now response) }
    ensures memory { OnErr result (MayCarryData datagram.now) }
{
    let Ok(frame) = split(datagram) else {
        return Ok(None);
    };
    if frame.source != WPORT || frame.dest != WPORT {
        return Ok(None);
    }
    match read_response(alloc, frame.apdu) {
        Ok(response) => Ok(Some(response)),
        Err(ApduError::OutOfMemory) => Err(OutOfMemory),
        Err(_) => Ok(None),
    }
}

/// The question that a response answers, with the answer, if it is one to a GET with the invoke byte of a question.
fn answered(response: Response) -> Option<(Question, Answer)>
    ensures { FindsBy (response_invoke response) (response_content response) result }
{
    match response {
        Response::Get {
            invoke,
            result: read,
        } => read_by(invoke, read),
        Response::Set { .. } | Response::Action { .. } => None,
    }
}

/// The question with this invoke byte, if one has it, with the answer that this is to it.
fn read_by(invoke: Invoke, read: GetDataResult) -> Option<(Question, Answer)>
    ensures { FindsBy invoke.0 (get_response (result_of read)) result }
{
    match Question::asked_by(invoke) {
        Some(question) => Some((question, answer_to(question, read))),
        None => None,
    }
}

/// The answer to a question that a result is.
fn answer_to(question: Question, read: GetDataResult) -> Answer
    ensures { Says question (result_of read) result }
{
    match read {
        GetDataResult::Code(code) => Answer::Refused(code),
        GetDataResult::Data(value) => answer_of(question, value),
    }
}

/// The answer to a question that a value is.
fn answer_of(question: Question, value: Data) -> Answer
    ensures { SaysOf question (value_of value) result }
{
    match question {
        Question::ActiveName => active(value),
        Question::BlockSize => block_size(value),
        Question::Enabled => enabled(value),
        Question::Status => status(value),
    }
}

/// What a value of the active firmware identifier says.
fn active(value: Data) -> Answer
    ensures { IsActive (value_of value) result }
{
    match value {
        Data::OctetString(bytes) => named(bytes.as_slice()),
        _ => Answer::Other,
    }
}

/// What the bytes of the active firmware identifier say.
fn named(bytes: &[u8]) -> Answer
    ensures { IsNameOf bytes.now result }
{
    match ImageName::from_bytes(bytes) {
        Some(name) => Answer::Active(name),
        None => Answer::Other,
    }
}

/// What a value of image_block_size says.
fn block_size(value: Data) -> Answer
    ensures { IsBlockSize (value_of value) result }
{
    match value {
        Data::DoubleLongUnsigned(size) => Answer::BlockSize(size),
        _ => Answer::Other,
    }
}

/// What a value of image_transfer_enabled says.
fn enabled(value: Data) -> Answer
    ensures { IsEnabled (value_of value) result }
{
    match value {
        Data::Boolean(enabled) => Answer::Enabled(enabled),
        _ => Answer::Other,
    }
}

/// What a value of image_transfer_status says.
fn status(value: Data) -> Answer
    ensures { IsStatus (value_of value) result }
{
    match value {
        Data::Enumerated(status) => Answer::Status(status),
        _ => Answer::Other,
    }
}
