//! The daemon of a head end: when it asks which meter, what it does with the datagrams that come to it, and the loop that does it over a
//! port.
#![tactic(auto)]

mod contacts;
mod daemon;
mod early;
mod ended;
mod error;
mod laps;
pub mod laws;
mod link;
mod list;
mod meters;
mod plan;
mod port;
mod schedule;
mod serving;
mod stuck;
mod timing;

pub use daemon::{Counts, Due, HeadDaemon, Heard, Next};
pub use ended::Ended;
pub use error::Stop;
pub use link::Listed;
pub use list::lead_list;
pub use meters::MeterList;
pub use plan::Plan;
pub use port::HeadPort;
pub use serving::{HeadWatch, Leg, serve_head, serve_plan, step_head};
pub use stuck::Stuck;
pub use timing::{FIRST_PAUSE, LONGEST_PAUSE, LONGEST_WAIT, MILLISECOND, SECOND, Timing};
