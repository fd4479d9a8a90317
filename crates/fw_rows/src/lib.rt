//! What is told of the rows of a book: how far each is, when it ended and why it failed, in words, in cells of a table and as
//! comma-separated values.
#![tactic(auto)]

mod failure;
mod noted;
mod row;
pub mod table;

pub use failure::{append_failure, append_why};
pub use noted::{NotedRow, append_noted, append_noted_csv, push_noted};
pub use row::{RowEntry, head_number, state_word};
pub use table::append_number;
