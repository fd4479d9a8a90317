//! What a meter shows.

use crate::status::TransferStatus;
use fw_blocks::MARKS_SIZE;
use fw_names::ImageName;
use fw_store::Goal;

/// What a meter shows of its images.
#[derive(Clone, Copy, PartialEq, Eq)]
pub struct MeterView {
    /// The most blocks that an image may have: 4,096 or 16,384.
    pub limit: u32,
    /// Whether image transfer is enabled (image_transfer_enabled).
    pub enabled: bool,
    /// How far the transfer is (image_transfer_status).
    pub status: TransferStatus,
    /// The name of the image that runs.
    pub active: ImageName,
    /// The bytes of the image that runs.
    pub active_size: u32,
    /// The image that is to be received, or was received and is not yet activated.
    pub goal: Option<Goal>,
    /// Which blocks of the goal are there, a bit each: block 0 at the top bit of the first byte.
    pub marked: [u8; MARKS_SIZE],
}
