//! What a head end tells of itself beside its lines: events, of which each is an object of JSON on a line of its own, and metrics, a page in
//! Prometheus' text format.
#![tactic(auto)]

mod event;
mod figures;
pub mod laws;
mod met;
mod metrics;
mod sample;
mod told;
mod values;

pub use event::{Event, event_line, fault_line};
pub use figures::Figures;
pub use met::met_after;
pub use metrics::metrics_page;
pub use told::{ToldRows, untold_events};
