//! Why a ciphertext was not opened.

use std::fmt;
use thiserror::Error;

/// The refusal of `open`.
#[derive(Debug, Drop, Error)]
pub enum OpenError {
    /// The tag is not that of this ciphertext and additional data, under this key and IV.
    WrongTag,
}

impl fmt::Display for OpenError {
    fn fmt<W: fmt::Write>(&self, f: &mut fmt::Formatter<W>) -> fmt::Result {
        fmt::Debug::fmt(self, f)
    }
}
