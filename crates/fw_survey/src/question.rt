//! What a survey asks of a meter.

ghost use Rattle.std.specs.Prelude.{◌≡◌};
ghost use Rattle.fw_apdu.specs.Request.{get_request};
ghost use Rattle.fw_apdu.specs.View.{request_content, request_invoke};
ghost use Rattle.fw_survey.specs.Questions.{attribute_of, image_transfer, invoke_byte, question_of};

use fw_apdu::{Invoke, Request, cosem};

/// What a survey asks of a meter: an attribute of its Image transfer object, 0-0:44.0.0.255, or of its active firmware identifier,
/// 1-0:0.2.0.255 (IEC 62056-6-2).
#[derive(Clone, Copy)]
pub enum Question {
    /// Attribute 2 of the active firmware identifier, value: the name of the image that runs.
    ActiveName,
    /// Attribute 2, image_block_size.
    BlockSize,
    /// Attribute 5, image_transfer_enabled.
    Enabled,
    /// Attribute 6, image_transfer_status.
    Status,
}

impl Question {
    /// The invoke byte of the question, by which its answer is known: each has an invoke-id of its own, from 0 on, and is confirmed and of
    /// high priority (IEC 62056-5-3, Invoke-Id-And-Priority).
    pub(crate) fn invoke(self) -> Invoke
        ensures { result.0 ≡ invoke_byte self }
    {
        match self {
            Question::ActiveName => Invoke(0xc0),
            Question::BlockSize => Invoke(0xc1),
            Question::Enabled => Invoke(0xc2),
            Question::Status => Invoke(0xc3),
        }
    }

    /// The question with this invoke byte, if one has it.
    pub(crate) fn asked_by(invoke: Invoke) -> Option<Question>
        ensures { result ≡ question_of invoke.0 }
    {
        match invoke.0 {
            0xc0 => Some(Question::ActiveName),
            0xc1 => Some(Question::BlockSize),
            0xc2 => Some(Question::Enabled),
            0xc3 => Some(Question::Status),
            _ => None,
        }
    }

    /// The request that asks it.
    pub(crate) fn request(self) -> Request
        ensures invoke { request_invoke result ≡ invoke_byte self }
        ensures content { request_content result ≡ get_request (attribute_of self) }
    {
        let invoke = self.invoke();
        match self {
            Question::ActiveName => Request::Get {
                invoke,
                class: cosem::DATA_CLASS,
                instance: cosem::ACTIVE_FIRMWARE_IDENTIFIER,
                attribute: cosem::VALUE,
            },
            Question::BlockSize => get(invoke, cosem::IMAGE_BLOCK_SIZE),
            Question::Enabled => get(invoke, cosem::IMAGE_TRANSFER_ENABLED),
            Question::Status => get(invoke, cosem::IMAGE_TRANSFER_STATUS),
        }
    }
}

/// GET of an attribute of Image transfer.
fn get(invoke: Invoke, attribute: i8) -> Request
    ensures invoke { request_invoke result ≡ invoke.0 }
    ensures content { request_content result ≡ get_request (image_transfer attribute) }
{
    Request::Get {
        invoke,
        class: cosem::IMAGE_TRANSFER_CLASS,
        instance: cosem::IMAGE_TRANSFER,
        attribute,
    }
}
