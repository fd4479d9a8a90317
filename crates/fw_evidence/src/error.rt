//! Why files are none of a meter.

use fw_audit::Rule;
use fw_capture::CaptureError;
use std::fmt;
use thiserror::Error;

/// A record of a capture.
#[derive(Clone, Copy, Debug)]
pub struct Mark {
    /// Its number, from 0 on.
    pub number: usize,
    /// Where it begins in the file.
    pub offset: usize,
}

/// Why a record is none of the end whose log is read, nor of another meter of its process.
#[derive(Clone, Copy, Debug)]
pub enum Stray {
    /// It is neither a UDP datagram nor a note.
    NoEntry,
    /// Its datagram neither came to a meter of this process nor was sent by one, or its turn is of none of them.
    Elsewhere,
    /// Its datagram goes from the meter, or to it, and the other end is the meter itself or another one of its process: whether it came or was
    /// sent isn't known.
    ToItself,
    /// It is a turn, and of which of several meters isn't known.
    UnnamedTurn,
    /// It is the start of a head end, and the log is a meter's.
    StartedAsHead,
    /// It is the start of meters that others may ask than those at their site, or it names such an address.
    OtherHeads,
    /// It is of the start of meters, and the log is a head end's.
    StartedAsMeter,
    /// It is of a turn, or of memory that was refused to a meter, and the log is a head end's.
    NoteOfMeter,
}

/// Why a capture is no log of a meter, or none of a head end.
#[derive(Clone, Copy, Debug, Error)]
pub enum LogError {
    /// The capture has this fault first. The records before it are the end's.
    Fault(CaptureError),
    /// This record is of no end of the process, and those before it are.
    Stray(Mark, Stray),
    /// Memory was refused for an item.
    OutOfMemory,
}

impl fmt::Display for LogError {
    fn fmt<W: fmt::Write>(&self, f: &mut fmt::Formatter<W>) -> fmt::Result {
        fmt::Debug::fmt(self, f)
    }
}

/// What an audit found wrong, or why it found nothing out.
#[derive(Clone, Copy, Debug, Error)]
pub enum EvidenceError {
    /// The capture is no log of a meter at its site.
    NoLog(LogError),
    /// The log departs in this record from what the meter does, since that breaks this rule.
    Departs(Mark, Rule),
    /// The log is one of the meter, and its store holds another meter after it, whatever kills left.
    OtherStore,
    /// Memory was refused. Of the capture nothing is said but that it is a log, which begins with a start.
    OutOfMemory,
}

impl fmt::Display for EvidenceError {
    fn fmt<W: fmt::Write>(&self, f: &mut fmt::Formatter<W>) -> fmt::Result {
        fmt::Debug::fmt(self, f)
    }
}

/// Why the bytes of a store hold no meter. Of several causes the first one here is returned.
#[derive(Clone, Copy, Debug, Error)]
pub enum StoreRefusal {
    /// The bytes beside the store are those of no undo file.
    ForeignUndo,
    /// They are no store.
    BadFile,
    /// The header is none that a store can have.
    BadHeader,
    /// The image that runs, or the one that was verified, has not the digest of its name.
    BadImage,
    /// Memory was refused.
    OutOfMemory,
}

impl fmt::Display for StoreRefusal {
    fn fmt<W: fmt::Write>(&self, f: &mut fmt::Formatter<W>) -> fmt::Result {
        fmt::Debug::fmt(self, f)
    }
}
