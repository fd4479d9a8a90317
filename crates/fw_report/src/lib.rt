//! What is reported of a world: the report, in lines, in tables and as JSON, and the trace, a line for each datagram that was sent.
#![tactic(auto)]

mod course;
mod forms;
mod json;
pub mod laws;
mod message;
mod reason;
mod refusal;
mod report;
mod summary;
mod table;
mod trace;
mod words;

pub use forms::{ReportForm, Style, append_report_in};
pub use message::{
    Addressed, Message, Service, ShownValue, Title, Unread, answered, asked, message_of,
};
pub use refusal::Refusal;
pub use report::{append_board, append_report};
pub use trace::{append_ends, append_trace_of};
pub use words::append_message;
