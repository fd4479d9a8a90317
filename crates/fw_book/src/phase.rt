//! The phases of a row.

/// Where a row is in the procedure of Image transfer (IEC 62056-6-2, Image transfer, procedure). Each except the last two is named by
/// what it asks of the meter.
#[derive(Clone, Copy, Debug, PartialEq, Eq)]
pub enum Phase {
    /// GET of image_block_size.
    Size,
    /// SET of image_transfer_enabled.
    Enable,
    /// image_transfer_initiate.
    Start,
    /// image_block_transfer of the next blocks that the meter isn't known to have.
    Blocks,
    /// GET of image_first_not_transferred_block_number.
    Check,
    /// GET of image_transferred_blocks_status.
    Gaps,
    /// image_verify.
    Verify,
    /// GET of image_transfer_status.
    Poll,
    /// GET of image_to_activate_info.
    Info,
    /// image_activate.
    Activate,
    /// GET of the active firmware identifier.
    Confirm,
    /// The meter claimed to run the row's image.
    Done,
    /// The row was given up.
    Failed,
}
