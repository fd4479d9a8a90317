//! Why a record was not written.

use fw_capture::AppendError;
use std::fmt;
use thiserror::Error;

/// The refusals of `write_header` and `write_record`.
#[derive(Clone, Copy, Debug, Drop, Error)]
pub enum RecordError {
    /// The packet makes no record, or memory was refused.
    Refused(AppendError),
    /// The writer failed.
    Output,
}

impl fmt::Display for RecordError {
    fn fmt<W: fmt::Write>(&self, f: &mut fmt::Formatter<W>) -> fmt::Result {
        match self {
            RecordError::Refused(refusal) => fmt::Display::fmt(refusal, f),
            other => fmt::Debug::fmt(other, f),
        }
    }
}
