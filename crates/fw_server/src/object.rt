//! The COSEM objects of a meter, and what can be read of them (IEC 62056-6-2).

ghost use Rattle.std.specs.Prelude.{◌≡◌};
ghost use Rattle.fw_server.specs.Meaning.{attribute_of, image_attribute, data_attribute, object_at, instance_bytes, class_of};

use fw_apdu::{LogicalName, cosem};

/// The COSEM objects of a meter.
#[derive(Clone, Copy, Debug)]
pub enum Object {
    /// Image transfer, 0-0:44.0.0.255.
    ImageTransfer,
    /// The active firmware identifier, 1-0:0.2.0.255.
    ActiveIdentifier,
    /// The active firmware signature, 1-0:0.2.8.255.
    ActiveSignature,
}

impl Object {
    /// The object of this logical name.
    pub(crate) fn named(name: LogicalName) -> Option<Object>
        ensures { result ≡ object_at name.0 }
    {
        if name == cosem::IMAGE_TRANSFER {
            Some(Object::ImageTransfer)
        } else if name == cosem::ACTIVE_FIRMWARE_IDENTIFIER {
            Some(Object::ActiveIdentifier)
        } else if name == cosem::ACTIVE_FIRMWARE_SIGNATURE {
            Some(Object::ActiveSignature)
        } else {
            None
        }
    }

    /// Attribute 1 of the object.
    pub fn logical_name(self) -> LogicalName
        ensures { result.0 ≡ instance_bytes self }
    {
        match self {
            Object::ImageTransfer => cosem::IMAGE_TRANSFER,
            Object::ActiveIdentifier => cosem::ACTIVE_FIRMWARE_IDENTIFIER,
            Object::ActiveSignature => cosem::ACTIVE_FIRMWARE_SIGNATURE,
        }
    }

    /// The class_id.
    pub(crate) fn class(self) -> u16
        ensures { result ≡ class_of self }
    {
        match self {
            Object::ImageTransfer => cosem::IMAGE_TRANSFER_CLASS,
            Object::ActiveIdentifier | Object::ActiveSignature => cosem::DATA_CLASS,
        }
    }

    /// What an attribute of the object is.
    pub(crate) fn attribute(self, number: i8) -> Option<Reading>
        ensures { result ≡ attribute_of self number }
    {
        match self {
            Object::ImageTransfer => image_attribute(number),
            Object::ActiveIdentifier => data_attribute(self, Reading::ActiveName, number),
            Object::ActiveSignature => data_attribute(self, Reading::ActiveDigest, number),
        }
    }
}

/// What an attribute of Image transfer is.
fn image_attribute(number: i8) -> Option<Reading>
    ensures { result ≡ image_attribute number }
{
    match number {
        cosem::LOGICAL_NAME => Some(Reading::LogicalName(Object::ImageTransfer)),
        cosem::IMAGE_BLOCK_SIZE => Some(Reading::BlockSize),
        cosem::IMAGE_TRANSFERRED_BLOCKS_STATUS => Some(Reading::TransferredBlocks),
        cosem::IMAGE_FIRST_NOT_TRANSFERRED_BLOCK_NUMBER => Some(Reading::FirstNotTransferred),
        cosem::IMAGE_TRANSFER_ENABLED => Some(Reading::TransferEnabled),
        cosem::IMAGE_TRANSFER_STATUS => Some(Reading::TransferStatus),
        cosem::IMAGE_TO_ACTIVATE_INFO => Some(Reading::ToActivate),
        _ => None,
    }
}

/// What an attribute of a Data object is, by what its value is.
fn data_attribute(object: Object, value: Reading, number: i8) -> Option<Reading>
    ensures { result ≡ data_attribute object value number }
{
    match number {
        cosem::LOGICAL_NAME => Some(Reading::LogicalName(object)),
        cosem::VALUE => Some(value),
        _ => None,
    }
}

/// What can be read of a meter: each attribute that its objects have.
#[derive(Clone, Copy, Debug)]
pub enum Reading {
    /// Attribute 1 of each object, logical_name.
    LogicalName(Object),
    /// Attribute 2 of Image transfer, image_block_size.
    BlockSize,
    /// Attribute 3, image_transferred_blocks_status.
    TransferredBlocks,
    /// Attribute 4, image_first_not_transferred_block_number.
    FirstNotTransferred,
    /// Attribute 5, image_transfer_enabled.
    TransferEnabled,
    /// Attribute 6, image_transfer_status.
    TransferStatus,
    /// Attribute 7, image_to_activate_info.
    ToActivate,
    /// Attribute 2 of the active firmware identifier, value: the name of the image that runs (own).
    ActiveName,
    /// Attribute 2 of the active firmware signature, value: the SHA-256 of that image (own).
    ActiveDigest,
}
