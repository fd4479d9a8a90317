//! From a datagram to the request in it, and from an outcome to the datagram that replies.

ghost use Rattle.std.specs.Prelude.{◌≡◌, ◌≤◌, IfOk, OnErr, IsTrue};
ghost use Rattle.fw_blocks.specs.Cuts.{max_blocks};
ghost use Rattle.fw_apdu.specs.Request.{is_confirmed};
ghost use Rattle.fw_apdu.specs.View.{request_content, request_invoke};
ghost use Rattle.fw_server.specs.Answer.{bits_in_answer};
ghost use Rattle.fw_server.specs.Meaning.{code_number};
ghost use Rattle.fw_meter.specs.Step.{got, coded};
ghost use Rattle.fw_meter.specs.Handling.{AsksForResponse, MayBringData, reply_to, reply_bytes};
ghost use Rattle.fw_meter.specs.Private.{IsHeard, IsRoomFor};

use crate::error::OutOfMemory;
use fw_apdu::{ApduError, Request, action_code, get_code, read_request, set_code};
use fw_server::{Answer, Outcome, ResultCode, answer};
use fw_wrapper::{WPORT, WrapError, join, join_in, split};
use std::alloc::Global;

/// The most bytes of a datagram that carries a code back: the header of the wrapper, and the response to a GET or to an ACTION.
const CODE_REPLY_SIZE: usize = 13;

/// A request, and the wPort that it comes from.
#[derive(Drop)]
pub(crate) struct Heard {
    pub(crate) source: u16,
    pub(crate) request: Request,
}

/// The request that a datagram brings, if it carries one to the meter's wPort.
pub(crate) fn hear(alloc: Global, datagram: &[u8]) -> Result<Option<Heard>, OutOfMemory>
    ensures heard { IfOk result (λ heard. IsHeard datagram.now heard) }
    // Nothing else is read into memory.
    ensures memory { OnErr result (MayBringData datagram.now) }
{
    let Ok(frame) = split(datagram) else {
        return Ok(None);
    };
    if frame.dest != WPORT {
        return Ok(None);
    }
    match read_request(alloc, frame.apdu) {
        Ok(request) => Ok(Some(Heard {
            source: frame.source,
            request,
        })),
        Err(ApduError::OutOfMemory) => Err(OutOfMemory),
        Err(_) => Ok(None),
    }
}

/// Whether a datagram brings a request to wPort 1 that asks for a response (IEC 62056-5-3, the service class of the invoke byte).
/// A meter replies to no other datagram.
///
/// # Errors
///
/// `OutOfMemory`, only if an APDU to wPort 1 may hold a Data.
pub fn asks_for_response(alloc: Global, datagram: &[u8]) -> Result<bool, OutOfMemory>
    ensures asks { IfOk result (λ asks. IsTrue asks → AsksForResponse datagram.now) }
    ensures told { AsksForResponse datagram.now → IfOk result IsTrue }
    ensures memory { OnErr result (MayBringData datagram.now) }
{
    fw_wrapper::laws::one_frame();
    fw_apdu::laws::one_request();
    match hear(alloc, datagram)? {
        Some(heard) => Ok(heard.request.invoke().confirmed()),
        None => Ok(false),
    }
}

impl Heard {
    /// The datagram that carries a value back, if the request asked for a response.
    pub(crate) fn value(&self, alloc: Global, value: Answer) -> Result<Option<Vec<u8>>, OutOfMemory>
        requires { bits_in_answer value ≤ max_blocks }
        ensures told { IfOk result (λ reply. reply_bytes reply
            ≡ reply_to self.now.source (request_invoke self.now.request) (request_content self.now.request) (got value)) }
        ensures memory { OnErr result (IsTrue (is_confirmed (request_invoke self.now.request))) }
    {
        let invoke = self.request.invoke();
        if !invoke.confirmed() {
            return Ok(None);
        }
        let apdu = match answer(alloc, &invoke, &Outcome::Got(value)) {
            Ok(apdu) => apdu,
            Err(ApduError::OutOfMemory) => return Err(OutOfMemory),
            Err(_) => unreachable!(),
        };
        match join(alloc, WPORT, self.source, &apdu) {
            Ok(datagram) => Ok(Some(datagram)),
            Err(WrapError::OutOfMemory) => Err(OutOfMemory),
            Err(_) => unreachable!(),
        }
    }

    /// The datagram that carries a code back, if the request asked for a response.
    pub(crate) fn code(
        &self,
        alloc: Global,
        code: ResultCode,
    ) -> Result<Option<Vec<u8>>, OutOfMemory>
        ensures told { IfOk result (λ reply. reply_bytes reply ≡ reply_to self.now.source
            (request_invoke self.now.request) (request_content self.now.request) (coded (code_number code))) }
        ensures memory { OnErr result (IsTrue (is_confirmed (request_invoke self.now.request))) }
    {
        let room = self.room(alloc)?;
        Ok(self.code_in(room, code))
    }

    /// Room for the datagram that carries a code back, if the request asked for a response. It is taken before the store is
    /// called, so that no memory is wanted afterwards.
    pub(crate) fn room(&self, alloc: Global) -> Result<Option<Vec<u8>>, OutOfMemory>
        ensures room { IfOk result (IsRoomFor self.now) }
        ensures memory { OnErr result (IsTrue (is_confirmed (request_invoke self.now.request))) }
    {
        if !self.request.invoke().confirmed() {
            return Ok(None);
        }
        Ok(Some(Vec::with_capacity(alloc, CODE_REPLY_SIZE)?))
    }

    /// The datagram that carries a code back, in the room for it. No memory is taken.
    pub(crate) fn code_in(&self, room: Option<Vec<u8>>, code: ResultCode) -> Option<Vec<u8>>
        requires { IsRoomFor self.now room }
        ensures { reply_bytes result ≡ reply_to self.now.source
            (request_invoke self.now.request) (request_content self.now.request) (coded (code_number code)) }
    {
        let mut reply = room?;
        let (invoke, code, to) = (self.request.invoke(), code.number(), self.source);
        match &self.request {
            Request::Get { .. } => join_in(&mut reply, WPORT, to, &get_code(invoke, code)),
            Request::Set { .. } => join_in(&mut reply, WPORT, to, &set_code(invoke, code)),
            Request::Action { .. } => join_in(&mut reply, WPORT, to, &action_code(invoke, code)),
        }
        Some(reply)
    }
}
