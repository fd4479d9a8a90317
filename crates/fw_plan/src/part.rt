//! A campaign that is to be opened.

ghost use Rattle.std.specs.Prelude.{◌≤◌};

use fw_names::MeterId;

/// A campaign that is to be opened: its serial number, and its meters, 256 at most.
#[derive(Drop)]
pub struct Part {
    pub serial: u32,
    pub meters: Vec<MeterId>,
    ghost begins: { 1 ≤ serial },
}
