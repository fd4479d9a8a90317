//! What there is to tell of a meter.

use fw_names::ImageName;

/// What a meter was asked for when a call of its store failed.
#[derive(Clone, Copy)]
pub enum Work {
    /// A SET of image_transfer_enabled.
    Enable,
    /// An image_transfer_initiate.
    Initiate,
    /// An image_block_transfer of the block of this number.
    Block(u32),
    /// An image_verify, or a turn of a verification.
    Verify,
    /// An image_activate.
    Activate,
}

/// Why a meter refused an image_transfer_initiate. Of several causes the first one here is told.
#[derive(Clone, Copy)]
pub enum Cause {
    /// Image transfer is disabled.
    Disabled,
    /// The identifier is no name.
    Unnamed,
    /// It is the name of an image that no campaign offers.
    Unopened,
    /// The image has a release below that of the image that runs.
    Below { release: u32, running: u32 },
    /// The size of the image isn't within the meter's limits.
    Limits,
}

/// What there is to tell of a datagram that a meter handled, or of a turn that it took.
#[derive(Clone, Copy)]
pub enum MeterEvent {
    /// It refused an initiate: for an image of this name, if the identifier is one, and of so many bytes.
    Refused {
        name: Option<ImageName>,
        size: u32,
        cause: Cause,
    },
    /// A call of its store failed.
    Failed(Work),
    /// All of the image of this name is there, and has the digest of the name.
    Verified(ImageName),
    /// All of it is there, and has another digest.
    Differs(ImageName),
    /// The meter switched to the image of this name.
    Activated(ImageName),
}
