//! What decides in a rollout, as functions over values: which rows may be asked, when an image is activated, which meters are given up, and
//! which meters of a list lack a row. No clock is read and nothing is sent here.
#![tactic(auto)]

mod absent;
mod deadline;
mod dividing;
mod error;
mod free;
mod gate;
pub mod laws;
mod meters;
mod missing;
mod part;
mod ranges;
mod rows;
mod threshold;
mod window;

pub use absent::{UnlistedRow, unlisted};
pub use deadline::{Contact, Deadline};
pub use dividing::missing_parts;
pub use error::PlanError;
pub use free::next_free;
pub use gate::{Gate, TooManyFailed, WaveRow, gate_of, is_over};
pub use meters::{MeterRange, meters_of};
pub use missing::lacking;
pub use part::Part;
pub use ranges::{SerialRange, serials_of};
pub use rows::{WaveMeter, wave_rows};
pub use threshold::MaxFailed;
pub use window::Window;
