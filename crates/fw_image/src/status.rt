//! The statuses of Image transfer, as values and as types.

ghost use Rattle.std.specs.Prelude.{◌≡◌};
ghost use Rattle.fw_image.specs.Status.{status_number, shown_status};
ghost use Rattle.fw_image.specs.declared.status.TransferStatus.{TransferStatus};
ghost use Rattle.fw_image.specs.declared.status.TransferStatus.TheVariants as status;

use fw_store::StoredStatus;

/// How far a transfer is, as a meter shows it (IEC 62056-6-2, image_transfer_status).
#[derive(Clone, Copy, Debug, PartialEq, Eq)]
pub enum TransferStatus {
    /// Nothing was initiated since the meter was made.
    NotInitiated = 0,
    /// Blocks are being received.
    Initiated = 1,
    /// The image is there and is being verified. No header keeps this.
    VerificationInitiated = 2,
    /// The image is there and has its name's digest.
    VerificationSuccessful = 3,
    /// The image is there and has another digest.
    VerificationFailed = 4,
    /// The image was activated, and runs.
    ActivationSuccessful = 6,
}

impl TransferStatus {
    /// The standard's number.
    pub fn number(self) -> u8
        ensures { result ≡ status_number self }
    {
        self as u8
    }
}

impl From<StoredStatus> for TransferStatus {
    ghost from_gives = { λ stored shown. shown ≡ shown_status stored };

    fn from(stored: StoredStatus) -> TransferStatus {
        match stored {
            StoredStatus::NotInitiated => TransferStatus::NotInitiated,
            StoredStatus::Initiated => TransferStatus::Initiated,
            StoredStatus::VerificationSuccessful => TransferStatus::VerificationSuccessful,
            StoredStatus::VerificationFailed => TransferStatus::VerificationFailed,
            StoredStatus::ActivationSuccessful => TransferStatus::ActivationSuccessful,
        }
    }
}

/// A status of Image transfer.
pub trait Status {
    ghost status: { TransferStatus };
}

/// 0: nothing was initiated since the meter was made.
pub struct NotInitiated;

/// 1: blocks are being received.
pub struct Initiated;

/// 2: the image is there and is being verified.
pub struct VerificationInitiated;

/// 3: the image is there and has its name's digest.
pub struct VerificationSuccessful;

/// 4: the image is there and has another digest.
pub struct VerificationFailed;

/// 6: the image was activated, and runs.
pub struct ActivationSuccessful;

impl Status for NotInitiated {
    ghost status = { status.NotInitiated };
}

impl Status for Initiated {
    ghost status = { status.Initiated };
}

impl Status for VerificationInitiated {
    ghost status = { status.VerificationInitiated };
}

impl Status for VerificationSuccessful {
    ghost status = { status.VerificationSuccessful };
}

impl Status for VerificationFailed {
    ghost status = { status.VerificationFailed };
}

impl Status for ActivationSuccessful {
    ghost status = { status.ActivationSuccessful };
}
