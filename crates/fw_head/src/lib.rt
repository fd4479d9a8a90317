//! The head end: it leads each meter of its campaigns through the procedure of Image transfer (IEC 62056-6-2, Image transfer,
//! class_id 18, version 0), one row a meter.
//!
//! A row is a state machine of its own, `RowCore`: a tick makes the datagrams that it sends now, and an answer moves it on. The
//! head end, `HeadCore`, keeps the book of its campaigns and a row for each meter that is live in one of them.
#![tactic(auto)]

mod answers;
mod asks;
mod ending;
mod error;
mod giving_up;
mod head;
pub mod laws;
mod matching;
mod news;
mod parts;
mod reason;
mod row;
mod rows;
mod stage;
mod view;

pub use error::PutError;
pub use fw_book::Phase;
pub use fw_client::OutOfMemory;
pub use giving_up::{GivenUp, WhyGivenUp};
pub use head::HeadCore;
pub use news::{News, RowNews, Told};
pub use parts::HeadParts;
pub use row::RowCore;
pub use rows::{LiveRows, TakenRows};
pub use view::HeadView;
