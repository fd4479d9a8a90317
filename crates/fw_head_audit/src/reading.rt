//! The requests and the responses that datagrams carry.

ghost use Rattle.std.specs.Prelude.{◌≡◌, ◌↔◌, IfOk, IsTrue};
ghost use Rattle.fw_head_audit.specs.Private.{IsRequestIn, IsResponseIn};

use fw_apdu::{ApduError, Request, Response, read_request, read_response};
use fw_wrapper::{Frame, split};
use std::alloc::{AllocError, Global};

/// The wPort of both ends.
const PORT: u16 = 1;

/// The request that a datagram carries, if it carries one between the ports of both ends.
pub(crate) fn request_in(alloc: Global, datagram: &[u8]) -> Result<Option<Request>, AllocError>
    ensures { IfOk result (IsRequestIn datagram.now) }
{
    fw_wrapper::laws::one_frame();
    let Ok(frame) = split(datagram) else {
        return Ok(None);
    };
    if !is_ours(&frame) {
        return Ok(None);
    }
    match read_request(alloc, frame.apdu) {
        Ok(request) => Ok(Some(request)),
        Err(ApduError::OutOfMemory) => Err(AllocError),
        Err(_) => Ok(None),
    }
}

/// The response that it carries.
pub(crate) fn response_in(alloc: Global, datagram: &[u8]) -> Result<Option<Response>, AllocError>
    ensures { IfOk result (IsResponseIn datagram.now) }
{
    fw_wrapper::laws::one_frame();
    let Ok(frame) = split(datagram) else {
        return Ok(None);
    };
    if !is_ours(&frame) {
        return Ok(None);
    }
    match read_response(alloc, frame.apdu) {
        Ok(response) => Ok(Some(response)),
        Err(ApduError::OutOfMemory) => Err(AllocError),
        Err(_) => Ok(None),
    }
}

/// Whether a frame goes between the ports of both ends.
fn is_ours(frame: &Frame<'_>) -> bool
    ensures { IsTrue result ↔ ((frame.now.source ≡ 1) × (frame.now.dest ≡ 1)) }
{
    frame.source == PORT && frame.dest == PORT
}
