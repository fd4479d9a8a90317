//! A head end in parts.

use crate::rows::TakenRows;
use fw_blocks::Width;
use fw_book::Book;

/// What a head end is made of.
#[derive(Drop)]
pub struct HeadParts {
    /// The campaigns, and how each of their rows ended.
    pub book: Book,
    /// How many blocks are sent at a time.
    pub width: Width,
    /// A row for each meter that is live in a campaign.
    pub rows: TakenRows,
}
