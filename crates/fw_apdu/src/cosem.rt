//! The numbers that both ends of Image transfer have for its objects (IEC 62056-6-1,
//! IEC 62056-6-2), and the codes by which a request is answered (IEC 62056-5-3). Clauses cite them
//! by the words of `specs/Cosem.antt`.

use crate::fields::LogicalName;

/// The logical name of Image transfer, 0-0:44.0.0.255.
pub const IMAGE_TRANSFER: LogicalName = LogicalName([0, 0, 44, 0, 0, 255]);

/// The logical name of the active firmware identifier, 1-0:0.2.0.255.
pub const ACTIVE_FIRMWARE_IDENTIFIER: LogicalName = LogicalName([1, 0, 0, 2, 0, 255]);

/// The logical name of the active firmware signature, 1-0:0.2.8.255.
pub const ACTIVE_FIRMWARE_SIGNATURE: LogicalName = LogicalName([1, 0, 0, 2, 8, 255]);

/// The class_id of Data objects.
pub const DATA_CLASS: u16 = 1;

/// The class_id of Image transfer.
pub const IMAGE_TRANSFER_CLASS: u16 = 18;

/// Attribute 1 of each object, logical_name.
pub const LOGICAL_NAME: i8 = 1;

/// Attribute 2 of a Data object, value.
pub const VALUE: i8 = 2;

/// Attribute 2 of Image transfer, image_block_size.
pub const IMAGE_BLOCK_SIZE: i8 = 2;

/// Attribute 3, image_transferred_blocks_status.
pub const IMAGE_TRANSFERRED_BLOCKS_STATUS: i8 = 3;

/// Attribute 4, image_first_not_transferred_block_number.
pub const IMAGE_FIRST_NOT_TRANSFERRED_BLOCK_NUMBER: i8 = 4;

/// Attribute 5, image_transfer_enabled.
pub const IMAGE_TRANSFER_ENABLED: i8 = 5;

/// Attribute 6, image_transfer_status.
pub const IMAGE_TRANSFER_STATUS: i8 = 6;

/// Attribute 7, image_to_activate_info.
pub const IMAGE_TO_ACTIVATE_INFO: i8 = 7;

/// Method 1 of Image transfer, image_transfer_initiate.
pub const IMAGE_TRANSFER_INITIATE: i8 = 1;

/// Method 2, image_block_transfer.
pub const IMAGE_BLOCK_TRANSFER: i8 = 2;

/// Method 3, image_verify.
pub const IMAGE_VERIFY: i8 = 3;

/// Method 4, image_activate.
pub const IMAGE_ACTIVATE: i8 = 4;

/// The code success. This code and those that follow are both a Data-Access-Result's and an
/// Action-Result's.
pub const SUCCESS: u8 = 0;

/// The code hardware-fault.
pub const HARDWARE_FAULT: u8 = 1;

/// The code temporary-failure.
pub const TEMPORARY_FAILURE: u8 = 2;

/// The code read-write-denied.
pub const READ_WRITE_DENIED: u8 = 3;

/// The code object-undefined.
pub const OBJECT_UNDEFINED: u8 = 4;

/// The code object-class-inconsistent.
pub const OBJECT_CLASS_INCONSISTENT: u8 = 9;

/// The code type-unmatched.
pub const TYPE_UNMATCHED: u8 = 12;

/// The code other-reason.
pub const OTHER_REASON: u8 = 250;

/// image_transfer_status: Image transfer not initiated.
pub const TRANSFER_NOT_INITIATED: u8 = 0;

/// image_transfer_status: Image transfer initiated.
pub const TRANSFER_INITIATED: u8 = 1;

/// image_transfer_status: Image verification initiated.
pub const VERIFICATION_INITIATED: u8 = 2;

/// image_transfer_status: Image verification successful.
pub const VERIFICATION_SUCCESSFUL: u8 = 3;

/// image_transfer_status: Image verification failed.
pub const VERIFICATION_FAILED: u8 = 4;

/// image_transfer_status: Image activation initiated.
pub const ACTIVATION_INITIATED: u8 = 5;

/// image_transfer_status: Image activation successful.
pub const ACTIVATION_SUCCESSFUL: u8 = 6;

/// image_transfer_status: Image activation failed.
pub const ACTIVATION_FAILED: u8 = 7;
