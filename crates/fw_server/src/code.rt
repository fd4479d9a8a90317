//! The codes that answer requests.

ghost use Rattle.std.specs.Prelude.{◌≡◌};
ghost use Rattle.fw_server.specs.Meaning.{code_number};

use fw_apdu::cosem;

/// A Data-Access-Result or an Action-Result that a meter gives (IEC 62056-5-3). Both have these names and numbers.
#[derive(Clone, Copy, Debug)]
pub enum ResultCode {
    Success,
    /// A call of the store failed.
    HardwareFault,
    /// The status of the transfer has no such call, or not yet.
    TemporaryFailure,
    /// The object has no such attribute or method, or the attribute can't be set; or transfer is disabled.
    ReadWriteDenied,
    /// The meter has no object of the logical name.
    ObjectUndefined,
    /// The object is of another class.
    ObjectClassInconsistent,
    /// The parameter or the new value is absent or of another shape.
    TypeUnmatched,
    /// The parameter has the shape, and isn't one that the meter can take; or the image hasn't the digest of its name.
    OtherReason,
}

impl ResultCode {
    /// The number of the code.
    pub fn number(self) -> u8
        ensures { result ≡ code_number self }
    {
        match self {
            ResultCode::Success => cosem::SUCCESS,
            ResultCode::HardwareFault => cosem::HARDWARE_FAULT,
            ResultCode::TemporaryFailure => cosem::TEMPORARY_FAILURE,
            ResultCode::ReadWriteDenied => cosem::READ_WRITE_DENIED,
            ResultCode::ObjectUndefined => cosem::OBJECT_UNDEFINED,
            ResultCode::ObjectClassInconsistent => cosem::OBJECT_CLASS_INCONSISTENT,
            ResultCode::TypeUnmatched => cosem::TYPE_UNMATCHED,
            ResultCode::OtherReason => cosem::OTHER_REASON,
        }
    }
}
