//! What a world consists of.

use crate::activation::Activation;
use crate::datagram::Datagram;
use crate::meters::NumberedMeter;
use fw_head::HeadCore;

/// The parts of a world. The numbers of its head ends are distinct, and so are those of its meters.
#[derive(Drop)]
pub struct Parts {
    /// The head ends.
    pub heads: Vec<HeadCore>,
    /// The meters with their numbers.
    pub meters: Vec<NumberedMeter>,
    /// All datagrams that were ever sent, in order.
    pub sent: Vec<Datagram>,
    /// All images that meters ever switched to, in order.
    pub activations: Vec<Activation>,
}
