//! The port of a daemon whose links are sealed, between the daemon's loop and the port of its datagrams. What comes is opened under the link of
//! the address that it shows, and what is sent is sealed. Nothing plain comes or goes.
//!
//! What a link is, what is sealed and what opens are those of `fw_seal`. What the port lets through and sends are those of specs/Calls.antt,
//! and what holds of many calls those of specs/Histories.antt.
#![tactic(auto)]

mod dropped;
pub mod laws;
mod links;
mod peer;
mod port;
mod port_calls;
mod sealer;
mod unsealed;
mod window;
mod wire;
mod wire_port;

pub use dropped::{Dropped, Unopened};
pub use links::Links;
pub use port::SealedPort;
pub use unsealed::Unsealed;
pub use window::Order;
pub use wire_port::WirePort;
