//! The port of a daemon: where its datagrams come from and go to, as a socket or in memory.
#![tactic(auto)]

mod list;
mod port;
mod udp;

pub use list::{Datagram, Deed, ListPort, Rule, TICK};
pub use port::{Arrival, Closed, NoReport, Patience, Port};
pub use udp::{SocketError, UdpPort};
