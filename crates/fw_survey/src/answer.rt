//! What a meter answers.

use fw_names::ImageName;

/// What a meter answered to a question.
#[derive(Clone, Copy)]
pub enum Answer {
    /// The name of the image that it runs.
    Active(ImageName),
    /// image_block_size, in bytes.
    BlockSize(u32),
    /// image_transfer_enabled.
    Enabled(bool),
    /// image_transfer_status.
    Status(u8),
    /// The code of a Data-Access-Result that refuses the question (IEC 62056-5-3).
    Refused(u8),
    /// A value that isn't of the attribute's type, or no image's name.
    Other,
}
