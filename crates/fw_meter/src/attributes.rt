//! The values of a meter's attributes.

ghost use Rattle.std.specs.Prelude.{◌≡◌, ◌≤◌, IfOk};
ghost use Rattle.fw_blocks.specs.Cuts.{max_blocks};
ghost use Rattle.fw_server.specs.Answer.{bits_in_answer};
ghost use Rattle.fw_image.specs.Phases.{state_in};
ghost use Rattle.fw_meter.specs.Step.{answer_of, verified_info};

use fw_image::{Phase, TransferStatus};
use fw_server::{Answer, ImageInfo, Reading};
use fw_store::ImageStore;
use std::alloc::{AllocError, Global};

/// The value of an attribute (IEC 62056-6-2). The store is not called.
pub(crate) fn read<S: ImageStore>(
    phase: &Phase<S>,
    alloc: Global,
    reading: Reading,
) -> Result<Answer, AllocError>
    ensures value { IfOk result (λ answer. answer ≡ answer_of (state_in phase.now).meter reading) }
    ensures bits { IfOk result (λ answer. bits_in_answer answer ≤ max_blocks) }
{
    let count = phase.block_count();
    Ok(match reading {
        Reading::LogicalName(object) => Answer::LogicalName(object.logical_name()),
        Reading::BlockSize => Answer::BlockSize(phase.block_size()),
        Reading::TransferredBlocks => {
            Answer::TransferredBlocks(phase.marks().to_bits(alloc, count)?)
        }
        Reading::FirstNotTransferred => {
            Answer::FirstNotTransferred(phase.marks().first_missing_below(count))
        }
        Reading::TransferEnabled => Answer::TransferEnabled(phase.enabled()),
        Reading::TransferStatus => Answer::TransferStatus(phase.status().number()),
        Reading::ToActivate => Answer::ToActivate(to_activate(phase)),
        Reading::ActiveName => Answer::ActiveName(phase.active()),
        Reading::ActiveDigest => Answer::ActiveDigest(phase.active().digest),
    })
}

/// image_to_activate_info: the image that was verified.
fn to_activate<S: ImageStore>(phase: &Phase<S>) -> Option<ImageInfo>
    ensures { result ≡ verified_info (state_in phase.now).meter.phase }
{
    match (phase.status(), phase.goal()) {
        (TransferStatus::VerificationSuccessful, Some(goal)) => Some(ImageInfo {
            size: goal.size,
            name: goal.name,
        }),
        _ => None,
    }
}
