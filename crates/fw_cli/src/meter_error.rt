//! Why the command `meter` ended.

ghost use Rattle.std.specs.Prelude.{◌≡◌, None, Some};
ghost use Rattle.fw_cli.specs.MeterErrors.{
  fault_of_meter,
  meter_of_capture,
  meter_of_closing,
  meter_of_keys,
  meter_of_new_counter,
  meter_of_new_store,
  meter_of_sealing,
  meter_of_store,
  meter_of_telling,
};
ghost use Rattle.fw_cli.specs.declared.meter_error.MeterError.TheVariants.{OutOfMemory, Socket};

use crate::error::{ClosingError, SealingError, TellingError};
use fw_disk::{Because, Reason};
use fw_faults::Fault;
use fw_host::{CaptureFileError, MeterKeysError, NewCounterError, NewStoreError, StoreFileError};
use fw_keys::BadLine;
use fw_port::SocketError;
use std::alloc::AllocError;
use std::fmt;
use thiserror::Error;

/// Why the command ended. It prints its name, `Fault` for `Device`, and of bad keys the number of the line and what is wrong with it too.
#[derive(Clone, Copy, Debug, Error)]
pub enum MeterError {
    /// The file of a meter can't be made or opened, or another program's file is beside it.
    StoreFault,
    /// The file of a meter failed while the store in it was opened.
    Device,
    /// The file of a meter has a length that no store has, or begins with a capacity that none has.
    BadFile,
    /// The header of a store isn't one that it can have.
    BadHeader,
    /// An image in a store, which runs or is verified, hasn't the digest of its name.
    BadImage,
    /// No file is there, and the one of the factory image can't be opened or read.
    FactoryFault,
    /// No file is there, and the options describe no meter.
    BadSetup,
    /// The file of the capture can't be made, opened or written.
    CaptureFault,
    /// The file of the capture is none that a daemon began, or its records have a fault.
    ForeignCapture,
    /// The address can't be received at, or the socket failed while the meter served.
    Socket,
    /// The file of the keys can't be opened or read.
    KeysFault,
    /// Others than its owner may read or write the file of the keys.
    KeysReadable,
    /// The line of this number, counted from 1, is the first with which the file of the keys is none, and what is wrong with it.
    BadKeys(u64, BadLine),
    /// No file of counters is there, and none is to be made.
    NoCounter,
    /// Counters are to be made where a file is there.
    CounterExists,
    /// Another process has the counters.
    CounterLocked,
    /// The file of the counters can't be made, opened, read, written or synced, or has none.
    CounterFault,
    /// All counters are used.
    CounterSpent,
    /// The first line can't be written.
    Output,
    /// Memory was refused.
    OutOfMemory,
}

impl fmt::Display for MeterError {
    fn fmt<W: fmt::Write>(&self, f: &mut fmt::Formatter<W>) -> fmt::Result {
        match self {
            MeterError::Device => f.write_str("Fault"),
            MeterError::BadKeys(number, cause) => write!(f, "BadKeys {number} {cause}"),
            other => fmt::Debug::fmt(other, f),
        }
    }
}

impl From<StoreFileError> for MeterError {
    ghost from_gives = { λ error e. e ≡ meter_of_store error };

    fn from(error: StoreFileError) -> MeterError {
        match error {
            StoreFileError::StoreFault => MeterError::StoreFault,
            StoreFileError::Device => MeterError::Device,
            StoreFileError::BadFile => MeterError::BadFile,
            StoreFileError::BadHeader => MeterError::BadHeader,
            StoreFileError::BadImage => MeterError::BadImage,
        }
    }
}

impl From<NewStoreError> for MeterError {
    ghost from_gives = { λ error e. e ≡ meter_of_new_store error };

    fn from(error: NewStoreError) -> MeterError {
        match error {
            NewStoreError::BadSetup => MeterError::BadSetup,
            NewStoreError::FactoryFault => MeterError::FactoryFault,
            NewStoreError::OutOfMemory => MeterError::OutOfMemory,
        }
    }
}

impl From<MeterKeysError> for MeterError {
    ghost from_gives = { λ error e. e ≡ meter_of_keys error };

    fn from(error: MeterKeysError) -> MeterError {
        match error {
            MeterKeysError::KeysFault => MeterError::KeysFault,
            MeterKeysError::KeysReadable => MeterError::KeysReadable,
            MeterKeysError::BadKeys(number, cause) => MeterError::BadKeys(number, cause),
            MeterKeysError::OutOfMemory => MeterError::OutOfMemory,
        }
    }
}

impl From<SealingError> for MeterError {
    ghost from_gives = { λ error e. e ≡ meter_of_sealing error };

    fn from(error: SealingError) -> MeterError {
        match error {
            SealingError::NoCounter => MeterError::NoCounter,
            SealingError::CounterExists => MeterError::CounterExists,
            SealingError::CounterLocked => MeterError::CounterLocked,
            SealingError::CounterFault => MeterError::CounterFault,
            SealingError::OutOfMemory => MeterError::OutOfMemory,
        }
    }
}

impl From<NewCounterError> for MeterError {
    ghost from_gives = { λ error e. e ≡ meter_of_new_counter error };

    fn from(error: NewCounterError) -> MeterError {
        match error {
            NewCounterError::CounterExists => MeterError::CounterExists,
            NewCounterError::CounterLocked => MeterError::CounterLocked,
            NewCounterError::CounterFault => MeterError::CounterFault,
            NewCounterError::OutOfMemory => MeterError::OutOfMemory,
        }
    }
}

impl From<CaptureFileError> for MeterError {
    ghost from_gives = { λ error e. e ≡ meter_of_capture error };

    fn from(error: CaptureFileError) -> MeterError {
        match error {
            CaptureFileError::CaptureFault => MeterError::CaptureFault,
            CaptureFileError::ForeignCapture => MeterError::ForeignCapture,
        }
    }
}

impl From<ClosingError> for MeterError {
    ghost from_gives = { λ error e. e ≡ meter_of_closing error };

    fn from(error: ClosingError) -> MeterError {
        match error {
            ClosingError::Socket => MeterError::Socket,
            ClosingError::CaptureFault => MeterError::CaptureFault,
            ClosingError::CounterFault => MeterError::CounterFault,
            ClosingError::CounterSpent => MeterError::CounterSpent,
        }
    }
}

impl From<TellingError> for MeterError {
    ghost from_gives = { λ error e. e ≡ meter_of_telling error };

    fn from(error: TellingError) -> MeterError {
        match error {
            TellingError::Output => MeterError::Output,
            TellingError::OutOfMemory => MeterError::OutOfMemory,
        }
    }
}

impl From<MeterError> for Fault {
    ghost from_gives = { λ error fault. fault ≡ fault_of_meter error };

    fn from(error: MeterError) -> Fault {
        match error {
            MeterError::StoreFault => Fault::StoreFault,
            MeterError::Device => Fault::Device,
            MeterError::BadFile => Fault::BadFile,
            MeterError::BadHeader => Fault::BadHeader,
            MeterError::BadImage => Fault::BadImage,
            MeterError::FactoryFault => Fault::FactoryFault,
            MeterError::BadSetup => Fault::BadSetup,
            MeterError::CaptureFault => Fault::CaptureFault,
            MeterError::ForeignCapture => Fault::ForeignCapture,
            MeterError::Socket => Fault::Socket,
            MeterError::KeysFault => Fault::KeysFault,
            MeterError::KeysReadable => Fault::KeysReadable,
            MeterError::BadKeys(number, cause) => Fault::BadKeys(number, cause),
            MeterError::NoCounter => Fault::NoCounter,
            MeterError::CounterExists => Fault::CounterExists,
            MeterError::CounterLocked => Fault::CounterLocked,
            MeterError::CounterFault => Fault::CounterFault,
            MeterError::CounterSpent => Fault::CounterSpent,
            MeterError::Output => Fault::Output,
            MeterError::OutOfMemory => Fault::OutOfMemory,
        }
    }
}

/// Why the command ended, with the meter and the system's cause.
#[derive(Clone, Copy, Debug)]
pub struct MeterFailure {
    /// The error.
    pub error: MeterError,
    /// The number of the meter that couldn't be set up, from 1 on, if there is a count of them.
    pub number: Option<u32>,
    /// Why its file, or the one of the capture, was refused, if that is known.
    pub reason: Option<Reason>,
}

impl MeterFailure {
    /// The same, of the meter of this number.
    pub(crate) fn of_meter(self, number: u32) -> MeterFailure
        ensures error { result.error ≡ self.error }
        ensures number { result.number ≡ Some number }
        ensures reason { result.reason ≡ self.reason }
    {
        MeterFailure {
            error: self.error,
            number: Some(number),
            reason: self.reason,
        }
    }
}

impl From<Because<StoreFileError>> for MeterFailure {
    ghost from_gives = { λ because f. f ≡ record { error = meter_of_store because.error; number = None; reason = because.reason } };

    fn from(because: Because<StoreFileError>) -> MeterFailure {
        MeterFailure {
            error: MeterError::from(because.error),
            number: None,
            reason: because.reason,
        }
    }
}

impl From<NewStoreError> for MeterFailure {
    ghost from_gives = { λ error f. f ≡ record { error = meter_of_new_store error; number = None; reason = None } };

    fn from(error: NewStoreError) -> MeterFailure {
        MeterFailure {
            error: MeterError::from(error),
            number: None,
            reason: None,
        }
    }
}

impl From<Because<MeterKeysError>> for MeterFailure {
    ghost from_gives = { λ because f. f ≡ record { error = meter_of_keys because.error; number = None; reason = because.reason } };

    fn from(because: Because<MeterKeysError>) -> MeterFailure {
        MeterFailure {
            error: MeterError::from(because.error),
            number: None,
            reason: because.reason,
        }
    }
}

impl From<Because<SealingError>> for MeterFailure {
    ghost from_gives = { λ because f. f ≡ record { error = meter_of_sealing because.error; number = None; reason = because.reason } };

    fn from(because: Because<SealingError>) -> MeterFailure {
        MeterFailure {
            error: MeterError::from(because.error),
            number: None,
            reason: because.reason,
        }
    }
}

impl From<Because<NewCounterError>> for MeterFailure {
    ghost from_gives = { λ because f. f ≡ record { error = meter_of_new_counter because.error; number = None; reason = because.reason } };

    fn from(because: Because<NewCounterError>) -> MeterFailure {
        MeterFailure {
            error: MeterError::from(because.error),
            number: None,
            reason: because.reason,
        }
    }
}

impl From<Because<CaptureFileError>> for MeterFailure {
    ghost from_gives = { λ because f. f ≡ record { error = meter_of_capture because.error; number = None; reason = because.reason } };

    fn from(because: Because<CaptureFileError>) -> MeterFailure {
        MeterFailure {
            error: MeterError::from(because.error),
            number: None,
            reason: because.reason,
        }
    }
}

impl From<Because<ClosingError>> for MeterFailure {
    ghost from_gives = { λ because f. f ≡ record { error = meter_of_closing because.error; number = None; reason = because.reason } };

    fn from(because: Because<ClosingError>) -> MeterFailure {
        MeterFailure {
            error: MeterError::from(because.error),
            number: None,
            reason: because.reason,
        }
    }
}

impl From<TellingError> for MeterFailure {
    ghost from_gives = { λ error f. f ≡ record { error = meter_of_telling error; number = None; reason = None } };

    fn from(error: TellingError) -> MeterFailure {
        MeterFailure {
            error: MeterError::from(error),
            number: None,
            reason: None,
        }
    }
}

impl From<SocketError> for MeterFailure {
    ghost from_gives = { λ _ f. f ≡ record { error = Socket; number = None; reason = None } };

    fn from(_error: SocketError) -> MeterFailure {
        MeterFailure {
            error: MeterError::Socket,
            number: None,
            reason: None,
        }
    }
}

impl From<AllocError> for MeterFailure {
    ghost from_gives = { λ _ f. f ≡ record { error = OutOfMemory; number = None; reason = None } };

    fn from(_error: AllocError) -> MeterFailure {
        MeterFailure {
            error: MeterError::OutOfMemory,
            number: None,
            reason: None,
        }
    }
}
