//! What meters switched to.

use fw_names::{ImageName, MeterId};
use std::marker::Model;

/// A meter switched to an image.
#[derive(Drop)]
pub struct Activation {
    /// Which meter.
    pub meter: MeterId,
    /// The name of the image.
    pub name: ImageName,
    /// Its bytes.
    pub bytes: Vec<u8>,
}

impl Model for Activation {
    ghost use Rattle.fw_world.specs.World as world;

    ghost Value = { world.Activation };

    ghost view = { λ a. record { meter = a.meter; name = a.name; bytes = a.bytes.items } };
}
