//! Why a store or a device failed, or could not be made.

ghost use Rattle.std.specs.Prelude.{◌≡◌, Some, None, ⊤};
ghost use Rattle.fw_store.specs.declared.error.SetupError.TheVariants as setup;
ghost use Rattle.fw_store.specs.declared.error.FileStoreError.TheVariants as file;

use crate::device::DeviceFault;
use fw_cuts::FilesFault;
use fw_disk::{Because, Reason};
use std::alloc::AllocError;
use std::fmt;
use thiserror::Error;

/// A store's device failed. The store has counted it.
#[derive(Clone, Copy, Debug, Error)]
pub struct StoreFault;

impl fmt::Display for StoreFault {
    fn fmt<W: fmt::Write>(&self, f: &mut fmt::Formatter<W>) -> fmt::Result {
        fmt::Debug::fmt(self, f)
    }
}

/// The refusals of a new store in memory.
#[derive(Clone, Copy, Debug, Error)]
pub enum SetupError {
    /// A number is outside its limits, or the factory image is empty or above the capacity.
    BadSetup,
    /// Memory was refused.
    OutOfMemory,
}

impl fmt::Display for SetupError {
    fn fmt<W: fmt::Write>(&self, f: &mut fmt::Formatter<W>) -> fmt::Result {
        fmt::Debug::fmt(self, f)
    }
}

impl From<AllocError> for SetupError {
    ghost from_gives = { λ _ e. e ≡ setup.OutOfMemory };

    fn from(_error: AllocError) -> SetupError {
        SetupError::OutOfMemory
    }
}

/// The refusals of a new store, or of one that is there, on a device of bytes or in a file.
#[derive(Clone, Copy, Debug, Error)]
pub enum FileStoreError {
    /// The device failed, or the file can't be made, opened, read or written.
    StoreFault,
    /// A number is outside its limits, or the factory image is empty or above the capacity.
    BadSetup,
    /// Memory was refused. The calls of this crate take none, and never return it.
    OutOfMemory,
    /// The bytes don't begin with a capacity of 1 to 16,777,216, or aren't as many as those of a store of that capacity.
    BadFile,
}

impl fmt::Display for FileStoreError {
    fn fmt<W: fmt::Write>(&self, f: &mut fmt::Formatter<W>) -> fmt::Result {
        fmt::Debug::fmt(self, f)
    }
}

impl From<DeviceFault> for FileStoreError {
    ghost from_gives = { λ _ e. e ≡ file.StoreFault };

    fn from(_fault: DeviceFault) -> FileStoreError {
        FileStoreError::StoreFault
    }
}

/// A file of a store, or its folder, failed, and why, and under which of its names, if that is known.
#[derive(Clone, Copy, Debug)]
pub(crate) struct FileFault {
    reason: Option<Reason>,
}

impl From<Reason> for FileFault {
    ghost from_gives = { λ reason fault. fault.reason ≡ Some reason };

    fn from(reason: Reason) -> FileFault {
        FileFault {
            reason: Some(reason),
        }
    }
}

impl From<DeviceFault> for FileFault {
    ghost from_gives = { λ _ fault. fault.reason ≡ None };

    fn from(_fault: DeviceFault) -> FileFault {
        FileFault { reason: None }
    }
}

impl From<FilesFault> for DeviceFault {
    ghost from_gives = { λ _ _. ⊤ };

    fn from(_fault: FilesFault) -> DeviceFault {
        DeviceFault
    }
}

impl From<FilesFault> for FileFault {
    ghost from_gives = { λ _ fault. fault.reason ≡ None };

    fn from(_fault: FilesFault) -> FileFault {
        FileFault { reason: None }
    }
}

impl From<FileFault> for Because<FileStoreError> {
    ghost from_gives = { λ fault because. (because.error ≡ file.StoreFault) × (because.reason ≡ fault.reason) };

    fn from(fault: FileFault) -> Because<FileStoreError> {
        Because {
            error: FileStoreError::StoreFault,
            reason: fault.reason,
        }
    }
}
