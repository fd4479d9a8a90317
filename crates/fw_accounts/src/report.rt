//! The report of workers whose work is accounted for.

use crate::receipts::Receipts;
use fw_world::World;

/// The world at the end of a rehearsal or a live rollout, how many rows the board has as done, and what each worker made.
#[derive(Drop)]
pub struct Report {
    /// The world of all events, the given ones and those of the workers.
    pub world: World,
    /// How many rows are done.
    pub board: u64,
    /// The receipts of each worker, in the order of the workers' numbers.
    pub receipts: Vec<Receipts>,
}
