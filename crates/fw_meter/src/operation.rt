//! The operations of Image transfer that requests ask for, in whatever status a transfer is.

ghost use Rattle.std.specs.Prelude.{◌≡◌, ◌≢◌, if◌then◌else◌};
ghost use Rattle.fw_server.specs.Meaning as meaning;
ghost use Rattle.fw_server.specs.Meaning.{code_number};
ghost use Rattle.fw_server.specs.View.{operation_meaning};
ghost use Rattle.fw_server.specs.declared.code.ResultCode.TheVariants as code;
ghost use Rattle.fw_image.specs.Meter.{status_of};
ghost use Rattle.fw_image.specs.Phases.{state_in, IsInPhase};
ghost use Rattle.fw_image.specs.Step as image;
ghost use Rattle.fw_meter.specs.Private.{IsMade, Steps};
ghost use Rattle.fw_meter.specs.Step.{activation_of, coded};

use crate::code::code_of;
use fw_image::{NotVerified, Phase};
use fw_names::ImageName;
use fw_server::{Operation, ResultCode};
use fw_store::ImageStore;

/// Makes an operation, and returns its code and the transfer that it leaves.
pub(crate) fn make<S: ImageStore>(
    phase: Phase<S>,
    operation: Operation<'_>,
) -> (ResultCode, Phase<S>)
    requires { IsInPhase phase }
    ensures steps { Steps (state_in phase) (operation_meaning operation.entry) (code_number result.0) (state_in result.1) }
    ensures phase { IsInPhase result.1 }
{
    match operation {
        Operation::Enable(enabled) => enable(phase, enabled),
        Operation::Initiate { identifier, size } => offer(phase, identifier, size),
        Operation::Verify => verify(phase),
        Operation::Activate => activate(phase),
    }
}

/// SET of image_transfer_enabled.
fn enable<S: ImageStore>(phase: Phase<S>, enabled: bool) -> (ResultCode, Phase<S>)
    requires { IsInPhase phase }
    ensures made { IsMade (state_in phase) (image.enable enabled) (code_number result.0) (state_in result.1) }
    ensures phase { IsInPhase result.1 }
{
    match phase.set_enabled(enabled) {
        Ok(next) => (ResultCode::Success, next),
        Err((refusal, left)) => (code_of(refusal), left),
    }
}

/// image_transfer_initiate, by an identifier that may be no name.
fn offer<S: ImageStore>(phase: Phase<S>, identifier: &[u8], size: u32) -> (ResultCode, Phase<S>)
    requires { IsInPhase phase }
    ensures steps { Steps (state_in phase) (meaning.initiate identifier.now size) (code_number result.0) (state_in result.1) }
    ensures phase { IsInPhase result.1 }
{
    match ImageName::from_bytes(identifier) {
        Some(name) => initiate(phase, name, size),
        None => (nameless(&phase), phase),
    }
}

/// The code of an initiate whose identifier is no name.
fn nameless<S: ImageStore>(phase: &Phase<S>) -> ResultCode
    ensures { result ≡ (if (state_in phase.now).meter.enabled then code.OtherReason else code.ReadWriteDenied) }
{
    if phase.enabled() {
        ResultCode::OtherReason
    } else {
        ResultCode::ReadWriteDenied
    }
}

/// image_transfer_initiate.
fn initiate<S: ImageStore>(phase: Phase<S>, name: ImageName, size: u32) -> (ResultCode, Phase<S>)
    requires { IsInPhase phase }
    ensures made { IsMade (state_in phase) (image.initiate name size) (code_number result.0) (state_in result.1) }
    ensures phase { IsInPhase result.1 }
{
    match phase.initiate(name, size) {
        Ok(next) => (ResultCode::Success, Phase::Receiving(next)),
        Err((refusal, left)) => (code_of(refusal), left),
    }
}

/// image_block_transfer. It leaves the status, and so the phase where it stands.
pub(crate) fn block<S: ImageStore>(phase: &mut Phase<S>, number: u32, value: &[u8]) -> ResultCode
    requires { IsInPhase phase.old }
    ensures made { IsMade (state_in phase.old) (image.block number value.now) (code_number result) (state_in phase.new) }
    ensures phase { IsInPhase phase.new }
{
    match phase {
        Phase::Receiving(transfer) => match transfer.put_block(number, value) {
            Ok(()) => ResultCode::Success,
            Err(refusal) => code_of(refusal),
        },
        other => lacking(other),
    }
}

/// image_verify.
fn verify<S: ImageStore>(phase: Phase<S>) -> (ResultCode, Phase<S>)
    requires { IsInPhase phase }
    ensures made { IsMade (state_in phase) image.verify (code_number result.0) (state_in result.1) }
    ensures phase { IsInPhase result.1 }
{
    match phase {
        Phase::Receiving(transfer) => match transfer.verify() {
            Ok(Phase::Verifying(next)) => (ResultCode::TemporaryFailure, Phase::Verifying(next)),
            Ok(next) => (ResultCode::Success, next),
            Err(NotVerified::Refused(refusal, left)) => (code_of(refusal), Phase::Receiving(left)),
            Err(NotVerified::Differs(left)) => (ResultCode::OtherReason, Phase::Spoilt(left)),
        },
        other => (lacking(&other), other),
    }
}

/// image_activate.
fn activate<S: ImageStore>(phase: Phase<S>) -> (ResultCode, Phase<S>)
    requires { IsInPhase phase }
    ensures made { IsMade (state_in phase) image.activate (code_number result.0) (state_in result.1) }
    ensures phase { IsInPhase result.1 }
{
    match phase {
        Phase::Verified(transfer) => match transfer.activate() {
            Ok(next) => (ResultCode::Success, Phase::Switched(next)),
            Err((refusal, left)) => (code_of(refusal), Phase::Verified(left)),
        },
        other => (lacking(&other), other),
    }
}

/// The code of a call that a status doesn't have.
fn lacking<S: ImageStore>(phase: &Phase<S>) -> ResultCode
    ensures { result ≡ (if (state_in phase.now).meter.enabled then code.TemporaryFailure else code.ReadWriteDenied) }
{
    if phase.enabled() {
        ResultCode::TemporaryFailure
    } else {
        ResultCode::ReadWriteDenied
    }
}

/// The name of the image that an operation switched to, if it did.
pub(crate) fn activated<S: ImageStore>(
    operation: Operation<'_>,
    code: ResultCode,
    next: &Phase<S>,
) -> Option<ImageName>
    ensures { result ≡ activation_of (operation_meaning operation.entry) (coded (code_number code)) (state_in next.now).meter }
{
    match (operation, code) {
        (Operation::Activate, ResultCode::Success) => Some(next.active()),
        _ => None,
    }
}
