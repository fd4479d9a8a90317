//! The versions of a book's bytes.

/// A version of a book's bytes.
#[derive(Clone, Copy)]
pub(crate) enum Version {
    /// `FWB1`, without releases. It is read, and no longer written.
    First,
    /// `FWB2`, with the release of each campaign.
    Second,
}
