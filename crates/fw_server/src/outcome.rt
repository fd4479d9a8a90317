//! What a request comes to.

use fw_apdu::LogicalName;
use fw_axdr::Bits;
use fw_names::ImageName;

/// An image that is verified, as image_to_activate_info shows it.
#[derive(Clone, Copy)]
pub struct ImageInfo {
    /// In bytes.
    pub size: u32,
    pub name: ImageName,
}

/// What is read of a meter: a value for each `Reading`.
#[derive(Drop)]
pub enum Answer {
    /// An octet-string of 6 bytes.
    LogicalName(LogicalName),
    /// In bytes: a double-long-unsigned.
    BlockSize(u32),
    /// One bit a block, set if it is there: a bit-string.
    TransferredBlocks(Bits),
    /// The lowest number of a block that isn't there, or else the number of blocks: a double-long-unsigned.
    FirstNotTransferred(u32),
    /// A boolean.
    TransferEnabled(bool),
    /// An enum.
    TransferStatus(u8),
    /// The image that is verified, if there is one: an array of a structure of the size, a double-long-unsigned, the name
    /// and its digest, octet-strings of 41 or 45 bytes and of 32; or an empty array.
    ToActivate(Option<ImageInfo>),
    /// An octet-string of 41 bytes, or of 45 where the image has a release.
    ActiveName(ImageName),
    /// An octet-string of 32 bytes.
    ActiveDigest([u8; 32]),
}

/// What a request comes to: a code, or the value that a GET reads. Codes are those of a Data-Access-Result or an
/// Action-Result, 0 for success (IEC 62056-5-3).
#[derive(Drop)]
pub enum Outcome {
    Got(Answer),
    GetCode(u8),
    SetCode(u8),
    ActionCode(u8),
}
