//! What a client asks.

ghost use Rattle.std.specs.Prelude.{◌≡◌};
ghost use Rattle.fw_client.specs.Ask.{kind_of};
ghost use Rattle.fw_client.specs.Matching.{service_of};
ghost use Rattle.fw_client.specs.View.{ask_of};

use fw_names::ImageName;

/// An ask of a meter's Image transfer object, 0-0:44.0.0.255, or of its active firmware identifier, 1-0:0.2.0.255
/// (IEC 62056-6-2).
#[derive(Clone, Copy)]
pub enum Ask<'a> {
    /// GET of attribute 2, image_block_size.
    BlockSize,
    /// GET of attribute 4, image_first_not_transferred_block_number.
    FirstMissing,
    /// GET of attribute 3, image_transferred_blocks_status.
    Blocks,
    /// GET of attribute 6, image_transfer_status.
    Status,
    /// GET of attribute 7, image_to_activate_info.
    Info,
    /// GET of attribute 2 of the active firmware identifier, value.
    ActiveName,
    /// SET of attribute 5, image_transfer_enabled, to true.
    Enable,
    /// ACTION of method 1, image_transfer_initiate, with the image's identifier and its size in bytes.
    Initiate { name: ImageName, size: u32 },
    /// Method 2, image_block_transfer, with the number of a block, from 0 on, and its bytes, of which `Client::ask` takes at most
    /// 1,024.
    Block { number: u32, value: &'a [u8] },
    /// Method 3, image_verify, with the integer 0.
    Verify,
    /// Method 4, image_activate, with the integer 0.
    Activate,
}

/// The kind of an ask, and of a block its number.
#[derive(Clone, Copy, Debug)]
pub enum Asked {
    BlockSize,
    FirstMissing,
    Blocks,
    Status,
    Info,
    ActiveName,
    Enable,
    Initiate,
    Block { number: u32 },
    Verify,
    Activate,
}

impl Ask<'_> {
    /// The kind of the ask, which is kept until its answer comes.
    pub(crate) fn kind(&self) -> Asked
        ensures { result ≡ kind_of (ask_of self.now) }
    {
        match self {
            Ask::BlockSize => Asked::BlockSize,
            Ask::FirstMissing => Asked::FirstMissing,
            Ask::Blocks => Asked::Blocks,
            Ask::Status => Asked::Status,
            Ask::Info => Asked::Info,
            Ask::ActiveName => Asked::ActiveName,
            Ask::Enable => Asked::Enable,
            Ask::Initiate { .. } => Asked::Initiate,
            Ask::Block { number, .. } => Asked::Block { number: *number },
            Ask::Verify => Asked::Verify,
            Ask::Activate => Asked::Activate,
        }
    }
}

/// The service of an ask.
#[derive(Clone, Copy)]
pub(crate) enum Service {
    Get,
    Set,
    Action,
}

impl Asked {
    /// The service by which it is asked, and by which it is answered.
    pub(crate) fn service(self) -> Service
        ensures { result ≡ service_of self }
    {
        match self {
            Asked::BlockSize
            | Asked::FirstMissing
            | Asked::Blocks
            | Asked::Status
            | Asked::Info
            | Asked::ActiveName => Service::Get,
            Asked::Enable => Service::Set,
            Asked::Initiate | Asked::Block { .. } | Asked::Verify | Asked::Activate => {
                Service::Action
            }
        }
    }
}
