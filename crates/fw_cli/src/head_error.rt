//! Why the command `head` ended.

ghost use Rattle.std.specs.Prelude.{◌≡◌, ◌≢◌, None};
ghost use Rattle.fw_journal.specs.File.{cause_of};
ghost use Rattle.fw_cli.specs.HeadErrors.{
  fault_of_head,
  head_of_cancels,
  head_of_capture,
  head_of_closing,
  head_of_keys,
  head_of_list,
  head_of_new_book,
  head_of_new_counter,
  head_of_old_book,
  head_of_plan,
  head_of_sealing,
  head_of_stop,
  head_of_telling,
};
ghost use Rattle.fw_cli.specs.Reasons.{reason_of};
ghost use Rattle.fw_cli.specs.declared.head_error.HeadError.TheVariants.{OutOfMemory, Socket};

use crate::capture_file::reason_of;
use crate::error::{ClosingError, ListFileError, SealingError, TellingError};
use fw_book::BookError;
use fw_disk::{Because, Reason};
use fw_faults::Fault;
use fw_host::{
    BookFileError, CancelsError, CaptureFileError, HeadKeysError, NewBookError, NewCounterError,
};
use fw_journal::FileDevice;
use fw_keys::BadLine;
use fw_plan::PlanError;
use fw_port::SocketError;
use fw_rollout::Stop;
use std::alloc::AllocError;
use std::fmt;
use thiserror::Error;

/// Why the command ended. It prints its name and what it carries after it, and of what the book refuses the refusal alone.
#[derive(Clone, Copy, Debug, Error)]
pub enum HeadError {
    /// The list of meters can't be opened or read.
    ListFault,
    /// The line of this number, counted from 1, is none of a list of meters.
    BadList(u64),
    /// The file of the image can't be opened or read.
    ImageFault,
    /// The campaigns that are opened need more serial numbers than are free, or begin at 0.
    BadSetup,
    /// No file of a book is there, and none is to be made.
    NoBook,
    /// A book is to be made where a file is there.
    BookExists,
    /// Another process has the book.
    Locked,
    /// The file of the book can't be made, opened, read, written or synced.
    BookFault,
    /// The bytes of the book from this offset on are none.
    BadBook(u64),
    /// The record of the book with this index, counted from 0, has no place in it.
    BadRecord(usize),
    /// The book is another head end's.
    ForeignHead,
    /// The book has 2^60 bytes or more.
    Full,
    /// The book refused to open a campaign.
    OpenRefused(BookError),
    /// The book refused to cancel a campaign.
    CancelRefused(BookError),
    /// So many rows of the waves before the next one failed that it doesn't begin.
    TooManyFailed(u64),
    /// The file of the capture can't be made, opened or written.
    CaptureFault,
    /// The file of the capture is none that a daemon began, or its records have a fault.
    ForeignCapture,
    /// The address can't be received at, or the socket failed while the head end led.
    Socket,
    /// The file of the keys can't be opened or read.
    KeysFault,
    /// Others than its owner may read or write the file of the keys.
    KeysReadable,
    /// The line of this number, counted from 1, is the first with which the file of the keys is none, and what is wrong with it.
    BadKeys(u64, BadLine),
    /// The list has the meter of this number, and the file of the keys has no line of it.
    NoKey(u32),
    /// No file of counters is there, and none is to be made.
    NoCounter,
    /// Counters are to be made where a file is there.
    CounterExists,
    /// Another process has the counters.
    CounterLocked,
    /// The file of the counters can't be made, opened, read, written or synced, or has none.
    CounterFault,
    /// All counters are used.
    CounterSpent,
    /// The first line can't be written, or the file of events or of metrics can't be begun.
    Output,
    /// Memory was refused.
    OutOfMemory,
}

impl fmt::Display for HeadError {
    fn fmt<W: fmt::Write>(&self, f: &mut fmt::Formatter<W>) -> fmt::Result {
        match self {
            HeadError::BadList(number) => write!(f, "BadList {number}"),
            HeadError::BadBook(offset) => write!(f, "BadBook {offset}"),
            HeadError::BadRecord(index) => write!(f, "BadRecord {index}"),
            HeadError::TooManyFailed(failed) => write!(f, "TooManyFailed {failed}"),
            HeadError::BadKeys(number, cause) => write!(f, "BadKeys {number} {cause}"),
            HeadError::NoKey(meter) => write!(f, "NoKey {meter}"),
            HeadError::OpenRefused(refusal) | HeadError::CancelRefused(refusal) => {
                fmt::Display::fmt(refusal, f)
            }
            other => fmt::Debug::fmt(other, f),
        }
    }
}

impl From<ListFileError> for HeadError {
    ghost from_gives = { λ error e. e ≡ head_of_list error };

    fn from(error: ListFileError) -> HeadError {
        match error {
            ListFileError::ListFault => HeadError::ListFault,
            ListFileError::BadList(number) => HeadError::BadList(number),
            ListFileError::OutOfMemory => HeadError::OutOfMemory,
        }
    }
}

impl From<BookFileError> for HeadError {
    ghost from_gives = { λ error e. e ≡ head_of_old_book error };

    fn from(error: BookFileError) -> HeadError {
        match error {
            BookFileError::NoBook => HeadError::NoBook,
            BookFileError::Locked => HeadError::Locked,
            BookFileError::BookFault => HeadError::BookFault,
            BookFileError::BadBook(offset) => HeadError::BadBook(offset),
            BookFileError::BadRecord(index) => HeadError::BadRecord(index),
            BookFileError::ForeignHead => HeadError::ForeignHead,
            BookFileError::OutOfMemory => HeadError::OutOfMemory,
        }
    }
}

impl From<NewBookError> for HeadError {
    ghost from_gives = { λ error e. e ≡ head_of_new_book error };

    fn from(error: NewBookError) -> HeadError {
        match error {
            NewBookError::BookExists => HeadError::BookExists,
            NewBookError::Locked => HeadError::Locked,
            NewBookError::BookFault => HeadError::BookFault,
            NewBookError::OutOfMemory => HeadError::OutOfMemory,
        }
    }
}

impl From<HeadKeysError> for HeadError {
    ghost from_gives = { λ error e. e ≡ head_of_keys error };

    fn from(error: HeadKeysError) -> HeadError {
        match error {
            HeadKeysError::KeysFault => HeadError::KeysFault,
            HeadKeysError::KeysReadable => HeadError::KeysReadable,
            HeadKeysError::BadKeys(number, cause) => HeadError::BadKeys(number, cause),
            HeadKeysError::NoKey(meter) => HeadError::NoKey(meter),
            HeadKeysError::OutOfMemory => HeadError::OutOfMemory,
        }
    }
}

impl From<SealingError> for HeadError {
    ghost from_gives = { λ error e. e ≡ head_of_sealing error };

    fn from(error: SealingError) -> HeadError {
        match error {
            SealingError::NoCounter => HeadError::NoCounter,
            SealingError::CounterExists => HeadError::CounterExists,
            SealingError::CounterLocked => HeadError::CounterLocked,
            SealingError::CounterFault => HeadError::CounterFault,
            SealingError::OutOfMemory => HeadError::OutOfMemory,
        }
    }
}

impl From<NewCounterError> for HeadError {
    ghost from_gives = { λ error e. e ≡ head_of_new_counter error };

    fn from(error: NewCounterError) -> HeadError {
        match error {
            NewCounterError::CounterExists => HeadError::CounterExists,
            NewCounterError::CounterLocked => HeadError::CounterLocked,
            NewCounterError::CounterFault => HeadError::CounterFault,
            NewCounterError::OutOfMemory => HeadError::OutOfMemory,
        }
    }
}

impl From<CaptureFileError> for HeadError {
    ghost from_gives = { λ error e. e ≡ head_of_capture error };

    fn from(error: CaptureFileError) -> HeadError {
        match error {
            CaptureFileError::CaptureFault => HeadError::CaptureFault,
            CaptureFileError::ForeignCapture => HeadError::ForeignCapture,
        }
    }
}

impl From<ClosingError> for HeadError {
    ghost from_gives = { λ error e. e ≡ head_of_closing error };

    fn from(error: ClosingError) -> HeadError {
        match error {
            ClosingError::Socket => HeadError::Socket,
            ClosingError::CaptureFault => HeadError::CaptureFault,
            ClosingError::CounterFault => HeadError::CounterFault,
            ClosingError::CounterSpent => HeadError::CounterSpent,
        }
    }
}

impl From<TellingError> for HeadError {
    ghost from_gives = { λ error e. e ≡ head_of_telling error };

    fn from(error: TellingError) -> HeadError {
        match error {
            TellingError::Output => HeadError::Output,
            TellingError::OutOfMemory => HeadError::OutOfMemory,
        }
    }
}

impl From<PlanError> for HeadError {
    ghost from_gives = { λ error e. e ≡ head_of_plan error };

    fn from(error: PlanError) -> HeadError {
        match error {
            PlanError::NoSerial => HeadError::BadSetup,
            PlanError::OutOfMemory => HeadError::OutOfMemory,
        }
    }
}

impl From<CancelsError> for HeadError {
    ghost from_gives = { λ error e. e ≡ head_of_cancels error };

    fn from(error: CancelsError) -> HeadError {
        match error {
            CancelsError::Refused(refusal) => HeadError::CancelRefused(refusal),
            CancelsError::OutOfMemory => HeadError::OutOfMemory,
        }
    }
}

impl From<HeadError> for Fault {
    ghost from_gives = { λ error fault. fault ≡ fault_of_head error };

    fn from(error: HeadError) -> Fault {
        match error {
            HeadError::ListFault => Fault::ListFault,
            HeadError::BadList(number) => Fault::BadList(number),
            HeadError::ImageFault => Fault::ImageFault,
            HeadError::BadSetup => Fault::BadSetup,
            HeadError::NoBook => Fault::NoBook,
            HeadError::BookExists => Fault::BookExists,
            HeadError::Locked => Fault::Locked,
            HeadError::BookFault => Fault::BookFault,
            HeadError::BadBook(offset) => Fault::BadBook(offset),
            HeadError::BadRecord(index) => Fault::BadRecord(index),
            HeadError::ForeignHead => Fault::ForeignHead,
            HeadError::Full => Fault::Full,
            HeadError::OpenRefused(refusal) => Fault::OpenRefused(refusal),
            HeadError::CancelRefused(refusal) => Fault::CancelRefused(refusal),
            HeadError::TooManyFailed(failed) => Fault::TooManyFailed(failed),
            HeadError::CaptureFault => Fault::CaptureFault,
            HeadError::ForeignCapture => Fault::ForeignCapture,
            HeadError::Socket => Fault::Socket,
            HeadError::KeysFault => Fault::KeysFault,
            HeadError::KeysReadable => Fault::KeysReadable,
            HeadError::BadKeys(number, cause) => Fault::BadKeys(number, cause),
            HeadError::NoKey(meter) => Fault::NoKey(meter),
            HeadError::NoCounter => Fault::NoCounter,
            HeadError::CounterExists => Fault::CounterExists,
            HeadError::CounterLocked => Fault::CounterLocked,
            HeadError::CounterFault => Fault::CounterFault,
            HeadError::CounterSpent => Fault::CounterSpent,
            HeadError::Output => Fault::Output,
            HeadError::OutOfMemory => Fault::OutOfMemory,
        }
    }
}

/// Why the command ended, with the system's cause.
#[derive(Clone, Copy, Debug)]
pub struct HeadFailure {
    /// The error.
    pub error: HeadError,
    /// Why a file was refused, if that is known.
    pub reason: Option<Reason>,
}

impl HeadFailure {
    /// The same, where the book is on this device. A fault of the book has the cause of the device.
    pub(crate) fn of_book(self, device: &FileDevice) -> HeadFailure
        ensures error { result.error ≡ self.error }
        ensures book { self.error ≡ HeadError.BookFault → result.reason ≡ reason_of (cause_of device.now) }
        ensures others { self.error ≢ HeadError.BookFault → result.reason ≡ self.reason }
    {
        match self.error {
            HeadError::BookFault => HeadFailure {
                error: HeadError::BookFault,
                reason: reason_of(device.cause()),
            },
            _ => self,
        }
    }
}

impl From<ListFileError> for HeadFailure {
    ghost from_gives = { λ error f. f ≡ record { error = head_of_list error; reason = None } };

    fn from(error: ListFileError) -> HeadFailure {
        HeadFailure {
            error: HeadError::from(error),
            reason: None,
        }
    }
}

impl From<Because<BookFileError>> for HeadFailure {
    ghost from_gives = { λ because f. f ≡ record { error = head_of_old_book because.error; reason = because.reason } };

    fn from(because: Because<BookFileError>) -> HeadFailure {
        HeadFailure {
            error: HeadError::from(because.error),
            reason: because.reason,
        }
    }
}

impl From<Because<NewBookError>> for HeadFailure {
    ghost from_gives = { λ because f. f ≡ record { error = head_of_new_book because.error; reason = because.reason } };

    fn from(because: Because<NewBookError>) -> HeadFailure {
        HeadFailure {
            error: HeadError::from(because.error),
            reason: because.reason,
        }
    }
}

impl From<Because<HeadKeysError>> for HeadFailure {
    ghost from_gives = { λ because f. f ≡ record { error = head_of_keys because.error; reason = because.reason } };

    fn from(because: Because<HeadKeysError>) -> HeadFailure {
        HeadFailure {
            error: HeadError::from(because.error),
            reason: because.reason,
        }
    }
}

impl From<Because<SealingError>> for HeadFailure {
    ghost from_gives = { λ because f. f ≡ record { error = head_of_sealing because.error; reason = because.reason } };

    fn from(because: Because<SealingError>) -> HeadFailure {
        HeadFailure {
            error: HeadError::from(because.error),
            reason: because.reason,
        }
    }
}

impl From<Because<NewCounterError>> for HeadFailure {
    ghost from_gives = { λ because f. f ≡ record { error = head_of_new_counter because.error; reason = because.reason } };

    fn from(because: Because<NewCounterError>) -> HeadFailure {
        HeadFailure {
            error: HeadError::from(because.error),
            reason: because.reason,
        }
    }
}

impl From<Because<CaptureFileError>> for HeadFailure {
    ghost from_gives = { λ because f. f ≡ record { error = head_of_capture because.error; reason = because.reason } };

    fn from(because: Because<CaptureFileError>) -> HeadFailure {
        HeadFailure {
            error: HeadError::from(because.error),
            reason: because.reason,
        }
    }
}

impl From<Because<ClosingError>> for HeadFailure {
    ghost from_gives = { λ because f. f ≡ record { error = head_of_closing because.error; reason = because.reason } };

    fn from(because: Because<ClosingError>) -> HeadFailure {
        HeadFailure {
            error: HeadError::from(because.error),
            reason: because.reason,
        }
    }
}

impl From<TellingError> for HeadFailure {
    ghost from_gives = { λ error f. f ≡ record { error = head_of_telling error; reason = None } };

    fn from(error: TellingError) -> HeadFailure {
        HeadFailure {
            error: HeadError::from(error),
            reason: None,
        }
    }
}

impl From<Stop> for HeadError {
    ghost from_gives = { λ stop e. e ≡ head_of_stop stop };

    fn from(stop: Stop) -> HeadError {
        match stop {
            Stop::Closed => HeadError::Socket,
            Stop::Full => HeadError::Full,
            Stop::BookFault => HeadError::BookFault,
            Stop::OutOfMemory => HeadError::OutOfMemory,
        }
    }
}

impl From<Stop> for HeadFailure {
    ghost from_gives = { λ stop f. f ≡ record { error = head_of_stop stop; reason = None } };

    fn from(stop: Stop) -> HeadFailure {
        HeadFailure {
            error: HeadError::from(stop),
            reason: None,
        }
    }
}

impl From<HeadError> for HeadFailure {
    ghost from_gives = { λ error f. f ≡ record { error = error; reason = None } };

    fn from(error: HeadError) -> HeadFailure {
        HeadFailure {
            error,
            reason: None,
        }
    }
}

impl From<SocketError> for HeadFailure {
    ghost from_gives = { λ _ f. f ≡ record { error = Socket; reason = None } };

    fn from(_error: SocketError) -> HeadFailure {
        HeadFailure {
            error: HeadError::Socket,
            reason: None,
        }
    }
}

impl From<AllocError> for HeadFailure {
    ghost from_gives = { λ _ f. f ≡ record { error = OutOfMemory; reason = None } };

    fn from(_error: AllocError) -> HeadFailure {
        HeadFailure {
            error: HeadError::OutOfMemory,
            reason: None,
        }
    }
}
