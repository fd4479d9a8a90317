//! The meters of a head end.

use fw_names::MeterId;
use std::net::SocketAddr;

/// A meter, and an address at which the head end asks it.
#[derive(Clone, Copy)]
pub struct AskedMeter {
    pub meter: MeterId,
    pub at: SocketAddr,
}
