//! The book of a head end's campaigns: which image each of them offers, and how far each of its meters is.
#![tactic(auto)]

mod book;
mod error;
mod image;
pub mod laws;
mod live;
mod meters;
mod notes;
mod offer;
mod phase;
mod reading;
mod restored;
mod row;
mod search;
mod version;
mod writing;

pub use book::{Book, Campaigns};
pub use error::BookError;
pub use notes::{Answer, End, Notes, Reason};
pub use offer::{MAX_METERS, Offer};
pub use phase::Phase;
pub use restored::RestoredBook;
pub use row::{Row, RowState};
