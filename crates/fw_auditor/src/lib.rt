//! The command `audit`: whether what is found of meters, of the books of head ends, and of these, is what they do, and whether all of it agrees.
#![tactic(auto)]

mod audit;
mod books;
mod captures;
mod ends;
mod error;
mod field;
mod files;
mod heads;
mod keys;
mod lines;
mod list;
mod options;
mod readings;
mod verdict;

pub use audit::{AuditEnd, run_audit};
pub use error::{LineCause, Unaudited};
pub use files::AuditFault;
pub use lines::AuditForm;
pub use options::{AuditOptions, FreshMeter, HeadLog, KeyOption};
