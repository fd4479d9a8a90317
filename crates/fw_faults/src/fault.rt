//! What ends a command early.

ghost use Rattle.std.specs.Prelude.{◌≡◌};
ghost use Rattle.fw_faults.specs.declared.fault.Fault.TheVariants.{OutOfMemory};
ghost use Rattle.fw_faults.specs.Faults.{fault_of_counter, fault_of_device, fault_of_file, fault_of_keys, fault_of_opening, fault_of_reopening, fault_of_stop};

use fw_book::BookError;
use fw_capture::CaptureError;
use fw_counter::CounterError;
use fw_image::OpenError;
use fw_journal::JournalError;
use fw_keys::{BadLine, KeysError};
use fw_rollout::Stop;
use fw_store::FileStoreError;
use std::alloc::{AllocError, AllocFailed};
use std::fmt;
use thiserror::Error;

/// Why a command ended early. It prints its name, and of a bad line the number too, of a bad capture its fault and the offset, and of bad
/// keys the number of the line and what is wrong with it.
#[derive(Clone, Copy, Debug, PartialEq, Eq, Error)]
pub enum Fault {
    /// The fates aren't 1 to 4,096 of the letters `d`, `x`, `t` and `l`.
    BadFates,
    /// The options describe no meter, or a script no world.
    BadSetup,
    /// The file of a store can't be made or opened.
    StoreFault,
    /// The device of a store failed while the store was opened.
    Device,
    /// The file of a store has a length that no store has, or begins with a capacity that none has.
    BadFile,
    /// The header of a store isn't one that it can have.
    BadHeader,
    /// An image in a store, which runs or is verified, hasn't the digest of its name.
    BadImage,
    /// The file of a factory image can't be opened or read.
    FactoryFault,
    /// The reader failed, or came to no end within 2^32 reads.
    Input,
    /// The reader had more than 64 MiB.
    TooMuchInput,
    /// The line of this number, counted from 1, is not in the form that the command reads.
    BadLine(u64),
    /// The reader had no byte, and an image has at least one.
    EmptyImage,
    /// The reader had more bytes than an image can have, 16,777,216.
    ImageTooLong,
    /// The file of a capture can't be made, opened or written.
    CaptureFault,
    /// A file that a daemon's capture is to go on in is none.
    ForeignCapture,
    /// The first fault of a capture, with the offset of its record.
    BadCapture(CaptureError),
    /// An event of the script that is rehearsed was refused, for another cause than memory.
    Event,
    /// What the workers of a rehearsal left isn't what their record says.
    Mismatch,
    /// A thread for a worker of a rehearsal could not be started.
    ThreadRefused,
    /// No socket could be bound for the wires of a live rollout, or at the address of a meter.
    Socket,
    /// A worker was not let pass. No command ends so, since the gate of a command lets every worker pass.
    GateShut,
    /// The list of meters can't be opened or read.
    ListFault,
    /// The line of this number, counted from 1, is none of a list of meters, or has a number or an address that an earlier one has.
    BadList(u64),
    /// The file of an image can't be opened or read.
    ImageFault,
    /// No file of a book is there, and none is to be made.
    NoBook,
    /// A book is to be made where a file is there.
    BookExists,
    /// Another head end has the book.
    Locked,
    /// The file of a book can't be made, opened, read, written or synced.
    BookFault,
    /// The bytes of a book from this offset on are none.
    BadBook(u64),
    /// The record of a book with this index, counted from 0, has no place in it.
    BadRecord(usize),
    /// A book is another head end's.
    ForeignHead,
    /// A book has 2^60 bytes or more.
    Full,
    /// So many rows of the waves before the next one failed that it doesn't begin.
    TooManyFailed(u64),
    /// The book refused to open a campaign.
    OpenRefused(BookError),
    /// The book refused to cancel a campaign.
    CancelRefused(BookError),
    /// A file of keys can't be opened, read or made.
    KeysFault,
    /// Others than its owner may read or write a file of keys.
    KeysReadable,
    /// The line of this number, counted from 1, is the first with which a text is no key file, and what is wrong with it.
    BadKeys(u64, BadLine),
    /// The list has the meter of this number, and the file of keys has no line of it.
    NoKey(u32),
    /// No file of a counter is there, and none is to be made.
    NoCounter,
    /// A counter is to be made where a file is there.
    CounterExists,
    /// Another process has the counter.
    CounterLocked,
    /// The file of a counter can't be made, opened, read, written or synced, or has no counter.
    CounterFault,
    /// All counters of the sealed datagrams are used.
    CounterSpent,
    /// The system gave no random bytes.
    NoRandomness,
    /// The writer failed.
    Output,
    /// Memory ran out.
    OutOfMemory,
}

impl fmt::Display for Fault {
    fn fmt<W: fmt::Write>(&self, f: &mut fmt::Formatter<W>) -> fmt::Result {
        match self {
            Fault::Device => f.write_str("Fault"),
            Fault::BadLine(number) => write!(f, "BadLine {number}"),
            Fault::BadCapture(error) => write!(f, "BadCapture {error}"),
            Fault::BadList(number) => write!(f, "BadList {number}"),
            Fault::BadBook(offset) => write!(f, "BadBook {offset}"),
            Fault::BadRecord(index) => write!(f, "BadRecord {index}"),
            Fault::TooManyFailed(failed) => write!(f, "TooManyFailed {failed}"),
            Fault::BadKeys(number, cause) => write!(f, "BadKeys {number} {cause}"),
            Fault::NoKey(meter) => write!(f, "NoKey {meter}"),
            Fault::OpenRefused(refusal) | Fault::CancelRefused(refusal) => {
                fmt::Display::fmt(refusal, f)
            }
            other => fmt::Debug::fmt(other, f),
        }
    }
}

impl From<AllocError> for Fault {
    ghost from_gives = { λ _ e. e ≡ OutOfMemory };

    fn from(_error: AllocError) -> Fault {
        Fault::OutOfMemory
    }
}

impl<T: Drop> From<AllocFailed<T>> for Fault {
    ghost from_gives = { λ _ e. e ≡ OutOfMemory };

    fn from(_error: AllocFailed<T>) -> Fault {
        Fault::OutOfMemory
    }
}

impl From<fw_meter::OutOfMemory> for Fault {
    ghost from_gives = { λ _ e. e ≡ OutOfMemory };

    fn from(_error: fw_meter::OutOfMemory) -> Fault {
        Fault::OutOfMemory
    }
}

impl From<FileStoreError> for Fault {
    ghost from_gives = { λ error fault. fault ≡ fault_of_file error };

    fn from(error: FileStoreError) -> Fault {
        match error {
            FileStoreError::StoreFault => Fault::StoreFault,
            FileStoreError::BadSetup => Fault::BadSetup,
            FileStoreError::OutOfMemory => Fault::OutOfMemory,
            FileStoreError::BadFile => Fault::BadFile,
        }
    }
}

impl From<OpenError> for Fault {
    ghost from_gives = { λ error fault. fault ≡ fault_of_opening error };

    fn from(error: OpenError) -> Fault {
        match error {
            OpenError::Fault => Fault::Device,
            OpenError::BadHeader => Fault::BadHeader,
            OpenError::BadImage => Fault::BadImage,
        }
    }
}

impl From<JournalError> for Fault {
    ghost from_gives = { λ error fault. fault ≡ fault_of_device error };

    fn from(error: JournalError) -> Fault {
        match error {
            JournalError::BadBook { offset } => Fault::BadBook(offset),
            JournalError::NotEmpty => Fault::BookExists,
            JournalError::TooLong | JournalError::Full => Fault::Full,
            JournalError::Locked => Fault::Locked,
            JournalError::BookFault => Fault::BookFault,
            JournalError::OutOfMemory => Fault::OutOfMemory,
        }
    }
}

impl From<fw_kept::OpenError> for Fault {
    ghost from_gives = { λ error fault. fault ≡ fault_of_reopening error };

    fn from(error: fw_kept::OpenError) -> Fault {
        match error {
            fw_kept::OpenError::BadBook { offset } => Fault::BadBook(offset),
            fw_kept::OpenError::BadRecord { index } => Fault::BadRecord(index),
            fw_kept::OpenError::ForeignHead => Fault::ForeignHead,
            fw_kept::OpenError::BookFault => Fault::BookFault,
            fw_kept::OpenError::OutOfMemory => Fault::OutOfMemory,
        }
    }
}

impl From<Stop> for Fault {
    ghost from_gives = { λ stop fault. fault ≡ fault_of_stop stop };

    fn from(stop: Stop) -> Fault {
        match stop {
            Stop::Closed => Fault::Socket,
            Stop::Full => Fault::Full,
            Stop::BookFault => Fault::BookFault,
            Stop::OutOfMemory => Fault::OutOfMemory,
        }
    }
}

impl From<KeysError> for Fault {
    ghost from_gives = { λ error fault. fault ≡ fault_of_keys error };

    fn from(error: KeysError) -> Fault {
        match error {
            KeysError::BadKeys(number, cause) => Fault::BadKeys(number, cause),
            KeysError::OutOfMemory => Fault::OutOfMemory,
        }
    }
}

impl From<CounterError> for Fault {
    ghost from_gives = { λ error fault. fault ≡ fault_of_counter error };

    fn from(error: CounterError) -> Fault {
        match error {
            CounterError::NoCounter | CounterError::CounterFault => Fault::CounterFault,
            CounterError::CounterSpent => Fault::CounterSpent,
            CounterError::OutOfMemory => Fault::OutOfMemory,
        }
    }
}
