//! Why a packet was not appended, or a capture isn't gone on with.

ghost use Rattle.std.specs.Prelude.{◌≡◌};
ghost use Rattle.fw_capture.specs.declared.error.AppendError.TheVariants.{OutOfMemory};

use crate::fault::CaptureFault;
use std::alloc::AllocError;
use std::fmt;
use thiserror::Error;

/// The refusals of `append_packet`. If several would apply, the first of them comes.
#[derive(Clone, Copy, Debug, Drop, Error)]
pub enum AppendError {
    /// The time is past what 32 bits of seconds hold.
    TimePast,
    /// One address is of IPv4 and the other of IPv6.
    TwoFamilies,
    /// The datagram makes an IP packet of more than 65,535 bytes.
    TooLong,
    /// The capture found no memory.
    OutOfMemory,
}

impl fmt::Display for AppendError {
    fn fmt<W: fmt::Write>(&self, f: &mut fmt::Formatter<W>) -> fmt::Result {
        fmt::Debug::fmt(self, f)
    }
}

impl From<AllocError> for AppendError {
    ghost from_gives = { λ _ e. e ≡ OutOfMemory };

    fn from(_error: AllocError) -> AppendError {
        AppendError::OutOfMemory
    }
}

/// The refusals of `whole_len`.
#[derive(Clone, Copy, Debug, Drop, Error)]
pub enum WholeError {
    /// What is wrong with the file header.
    Header(CaptureFault),
    /// At this offset stands neither a whole record nor what a write leaves that was cut short.
    Foreign(u64),
    /// The reader failed.
    Input,
    /// No memory was found for a record.
    OutOfMemory,
}

impl fmt::Display for WholeError {
    fn fmt<W: fmt::Write>(&self, f: &mut fmt::Formatter<W>) -> fmt::Result {
        fmt::Debug::fmt(self, f)
    }
}

/// The refusals of `take_header` and `take_record`.
#[derive(Clone, Copy, Debug, Drop, Error)]
pub enum StreamError {
    /// The record has more than 64 MiB.
    TooLong,
    /// The reader failed, or came to no end.
    Input,
    /// No memory was found for what is taken.
    OutOfMemory,
}

impl fmt::Display for StreamError {
    fn fmt<W: fmt::Write>(&self, f: &mut fmt::Formatter<W>) -> fmt::Result {
        fmt::Debug::fmt(self, f)
    }
}

impl From<AllocError> for WholeError {
    ghost use Rattle.fw_capture.specs.declared.error.WholeError.TheVariants as whole;

    ghost from_gives = { λ _ e. e ≡ whole.OutOfMemory };

    fn from(_error: AllocError) -> WholeError {
        WholeError::OutOfMemory
    }
}
