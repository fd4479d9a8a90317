//! Who sees how far a schedule is.

use fw_world::World;

/// Who sees the rounds of a schedule. The rounds are the same whatever it does.
pub trait Watch {
    /// N rounds of all links were made, and led to this world.
    fn round_made(&self, rounds: u32, world: &World);
}

/// Nobody.
pub(crate) struct Nobody;

impl Watch for Nobody {
    fn round_made(&self, _rounds: u32, _world: &World) {}
}
