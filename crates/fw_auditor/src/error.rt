//! Why an audit ends early.

ghost use Rattle.std.specs.Prelude.{◌≡◌};
ghost use Rattle.fw_auditor.specs.Errors.{unaudited_book};

use fw_kept::ReadingError;
use fw_keys::BadLine;
use std::fmt;
use thiserror::Error;

/// Why a line is none of a list of what is audited. It prints what its reader is told.
#[derive(Clone, Copy, Debug, PartialEq, Eq)]
pub enum LineCause {
    /// It has fewer than four fields.
    FewFields,
    /// It has more than five.
    MoreFields,
    /// The first field is no number of a meter.
    NoNumber,
    /// The line of this number, which stands before, has the meter.
    NumberTwice(u64),
    /// The second field is no address with a port.
    NoAddress,
    /// A path has no letter.
    NoPath,
}

impl fmt::Display for LineCause {
    fn fmt<W: fmt::Write>(&self, f: &mut fmt::Formatter<W>) -> fmt::Result {
        f.write_str(match self {
            LineCause::FewFields => {
                "the line has fewer than four fields: a number, an address, a capture and a store"
            }
            LineCause::MoreFields => "the line has more than five fields; no path has a comma",
            LineCause::NoNumber => "the first field is no number from 0 to 4294967295",
            LineCause::NumberTwice(line) => {
                return write!(f, "line {line} has the same meter");
            }
            LineCause::NoAddress => {
                "the second field is no address with a port, as 10.0.0.7:4059 or [fd00::7]:4059"
            }
            LineCause::NoPath => "a path is empty",
        })
    }
}

/// Why an audit ended early. It prints its name, and behind that of a bad list, book or record the number.
#[derive(Clone, Copy, Debug, PartialEq, Eq, Error)]
pub enum Unaudited {
    /// The file of the list can't be read, or is no text.
    ListFault,
    /// The line of this number, counted from 1, is none of a list, for this cause.
    BadList(u64, LineCause),
    /// The file of a book can't be read.
    BookFault,
    /// The bytes of a book from this offset on are none.
    BadBook(u64),
    /// The record of a book with this index, counted from 0, has no place in it.
    BadRecord(usize),
    /// The file of a capture can't be read.
    CaptureFault,
    /// The file of a store can't be read, or the one beside it.
    StoreFault,
    /// The file of the factory image can't be read.
    FactoryFault,
    /// A key file can't be read, is no regular file, or has more than 64 MiB. Or head ends are audited too, of which captures are read as plain.
    KeysFault,
    /// Others than its owner may read or write a key file.
    KeysReadable,
    /// The line of this number of a key file, counted from 1, is none of it, for this cause.
    BadKeys(u64, BadLine),
    /// The options describe no meter.
    BadSetup,
    /// The writer failed.
    Output,
    /// Memory ran out.
    OutOfMemory,
}

impl fmt::Display for Unaudited {
    fn fmt<W: fmt::Write>(&self, f: &mut fmt::Formatter<W>) -> fmt::Result {
        match self {
            Unaudited::BadList(number, _) => write!(f, "BadList {number}"),
            Unaudited::BadBook(offset) => write!(f, "BadBook {offset}"),
            Unaudited::BadRecord(index) => write!(f, "BadRecord {index}"),
            Unaudited::BadKeys(line, why) => write!(f, "BadKeys {line} {why}"),
            other => fmt::Debug::fmt(other, f),
        }
    }
}

impl From<ReadingError> for Unaudited {
    ghost from_gives = { λ error e. e ≡ unaudited_book error };

    fn from(error: ReadingError) -> Unaudited {
        match error {
            ReadingError::BadBook { offset } => Unaudited::BadBook(offset),
            ReadingError::BadRecord { index } => Unaudited::BadRecord(index),
            ReadingError::OutOfMemory => Unaudited::OutOfMemory,
        }
    }
}
