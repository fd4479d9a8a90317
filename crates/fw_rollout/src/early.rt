//! Answers of meters that aren't ready for what they were asked.

ghost use Rattle.std.specs.Prelude.{◌↔◌, IfOk, IsTrue};
ghost use Rattle.fw_apdu.specs.View.{response_content};
ghost use Rattle.fw_rollout.specs.Early.{CarriesEarly, IsEarly};

use fw_apdu::cosem::{TEMPORARY_FAILURE, VERIFICATION_INITIATED};
use fw_apdu::{ApduError, GetDataResult, Response, read_response};
use fw_axdr::Data;
use fw_head::OutOfMemory;
use fw_wrapper::split;
use std::alloc::Global;

/// Whether a datagram is the answer of a meter that isn't ready for what it was asked.
///
/// # Errors
///
/// `OutOfMemory` alone.
pub(crate) fn is_early(alloc: Global, datagram: &[u8]) -> Result<bool, OutOfMemory>
    ensures early { IfOk result (λ early. IsTrue early ↔ CarriesEarly datagram.now) }
{
    fw_apdu::laws::one_response();
    let Ok(frame) = split(datagram) else {
        return Ok(false);
    };
    match read_response(alloc, frame.apdu) {
        Ok(response) => Ok(says_early(&response)),
        Err(ApduError::OutOfMemory) => Err(OutOfMemory),
        Err(_) => Ok(false),
    }
}

/// Whether a response is that of a meter that isn't ready: an action failed for now, or a verification goes on.
fn says_early(response: &Response) -> bool
    ensures { IsTrue result ↔ IsEarly (response_content response.now) }
{
    match response {
        Response::Action { code, .. } => *code == TEMPORARY_FAILURE,
        Response::Get {
            result: GetDataResult::Data(Data::Enumerated(status)),
            ..
        } => *status == VERIFICATION_INITIATED,
        Response::Get { .. } | Response::Set { .. } => false,
    }
}
