//! From a question to the datagram that asks it.

ghost use Rattle.std.specs.Prelude.{◌≡◌, ◌≤◌, length, IfOk, IfErr};
ghost use Rattle.fw_apdu.specs.Request.{get_request, request_bytes};
ghost use Rattle.fw_wrapper.specs.Wrapper.{max_apdu};
ghost use Rattle.fw_survey.specs.Questions.{attribute_of, invoke_byte, question_bytes};

use crate::error::OutOfMemory;
use crate::question::Question;
use fw_apdu::{ApduError, write_request};
use fw_wrapper::{WPORT, WrapError, join};
use std::alloc::Global;

/// The datagram that asks a question, from and to the wPort of both ends (IEC 62056-4-7).
pub(crate) fn datagram(alloc: Global, question: Question) -> Result<Vec<u8>, OutOfMemory>
    ensures { IfOk result (λ datagram. datagram.items ≡ question_bytes question) }
{
    let apdu = match apdu(alloc, question) {
        Ok(apdu) => apdu,
        Err(ApduError::OutOfMemory) => return Err(OutOfMemory),
        Err(_) => unreachable!(),
    };
    match join(alloc, WPORT, WPORT, &apdu) {
        Ok(datagram) => Ok(datagram),
        Err(WrapError::OutOfMemory) => Err(OutOfMemory),
        Err(_) => unreachable!(),
    }
}

/// The APDU in it.
fn apdu(alloc: Global, question: Question) -> Result<Vec<u8>, ApduError>
    ensures written { IfOk result (λ apdu. apdu.items ≡ request_bytes (invoke_byte question) (get_request (attribute_of question))) }
    ensures size { IfOk result (λ apdu. length apdu.items ≤ max_apdu) }
    ensures memory { IfErr result (λ e. e ≡ ApduError.OutOfMemory) }
{
    let request = question.request();
    write_request(alloc, &request)
}
