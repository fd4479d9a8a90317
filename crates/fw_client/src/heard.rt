//! What a client hears.

use crate::ask::Asked;
use crate::claim::ActiveClaim;
use fw_axdr::Bits;
use fw_names::ImageName;

/// What a client hears of a datagram.
#[derive(Debug, Drop)]
pub enum Heard {
    /// The name of the image that the meter runs: the value of its active firmware identifier.
    Active(ActiveClaim),
    /// image_block_size, or image_first_not_transferred_block_number.
    Number(u32),
    /// image_transferred_blocks_status: a bit a block, set where the meter has it.
    BitSet(Bits),
    /// image_transfer_status.
    Status(u8),
    /// image_to_activate_info: the name of the one image in it, or `None` if it isn't of one image that has a name.
    Info(Option<ImageName>),
    /// The code of the answer, a Data-Access-Result or an Action-Result: 0 for success (IEC 62056-5-3).
    Code { asked: Asked, code: u8 },
    /// No answer to an outstanding ask.
    Stranger,
}
