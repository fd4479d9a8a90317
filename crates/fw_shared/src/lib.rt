//! What workers share: the board on which they count what is done, with a seat for each of them, and meters and head ends under
//! locks.
#![tactic(auto)]

mod acts;
mod board;
mod desk;
mod error;
mod meter;
mod seat;

pub use board::Board;
pub use desk::Desk;
pub use error::OutOfMemory;
pub use meter::SharedMeter;
pub use seat::Seat;
