//! Why a log is none of a meter.

use std::fmt;
use thiserror::Error;

/// The rule that the first item breaks which nothing explains.
#[derive(Clone, Copy, Debug)]
pub enum Rule {
    /// The process did something before it was started.
    NotStarted,
    /// A turn is noted where nothing is verified.
    NothingVerified,
    /// A datagram is sent where no reply is owed.
    NothingOwed,
    /// A datagram is sent in place of the reply that is owed: other bytes, or to another address.
    OtherReply,
    /// The reply that is owed is not sent.
    ReplyMissing,
}

/// Where a log departs from what a meter does.
#[derive(Clone, Copy, Debug)]
pub struct Departure {
    /// The number of the item, from 0 on.
    pub at: usize,
    pub rule: Rule,
}

/// What an audit found wrong, or why it found nothing out.
#[derive(Clone, Copy, Debug, Error)]
pub enum AuditError {
    /// The log is none of this meter: the items before this one are, and with it they aren't.
    Departs(Departure),
    /// The log is one of this meter, and its store holds another meter after it, whatever kills left.
    OtherStore,
    /// Memory was refused. Of the log nothing is said but that it begins with a start.
    OutOfMemory,
}

impl fmt::Display for AuditError {
    fn fmt<W: fmt::Write>(&self, f: &mut fmt::Formatter<W>) -> fmt::Result {
        fmt::Debug::fmt(self, f)
    }
}
