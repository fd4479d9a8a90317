//! What a head end shows.

use crate::rows::LiveRows;
use fw_book::Book;

/// The book of a head end, and its live rows.
#[derive(Drop)]
pub struct HeadView<'a> {
    /// The campaigns, and how each of their rows ended.
    pub book: &'a Book,
    /// A row for each meter that is live in a campaign.
    pub rows: LiveRows<'a>,
}
