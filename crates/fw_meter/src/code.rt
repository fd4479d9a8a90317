//! The codes of refused operations of Image transfer.

ghost use Rattle.std.specs.Prelude.{◌≡◌};
ghost use Rattle.fw_meter.specs.Step.{refusal_code};

use fw_image::Refusal;
use fw_server::ResultCode;

/// The code of a refused operation.
pub(crate) fn code_of(refusal: Refusal) -> ResultCode
    ensures { result ≡ refusal_code refusal }
{
    match refusal {
        Refusal::Disabled => ResultCode::ReadWriteDenied,
        Refusal::BadInitiate | Refusal::BadBlock | Refusal::Differs => ResultCode::OtherReason,
        Refusal::Missing => ResultCode::TemporaryFailure,
        Refusal::Fault => ResultCode::HardwareFault,
    }
}
