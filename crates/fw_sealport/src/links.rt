//! The links of a port, by the addresses of their other ends.

ghost use Rattle.std.specs.Prelude.{◌≡◌, ◌≤◌, None, Some, IfErr, IfOk, OnErr, OnOk, MatchOption, length};
ghost use Rattle.std.specs.declared.net.socket_addr.SocketAddr.{SocketAddr as Address};
ghost use Rattle.fw_sealport.specs.Peers.{Adds, LetsThroughFrom, RefusesFrom, SamePeers, link_at, peer_at};

use crate::dropped::Unopened;
use crate::peer::Peer;
use crate::window::Order;
use fw_seal::Link;
use std::alloc::{AllocError, Global};
use std::collections::HashMap;
use std::net::SocketAddr;

/// The links of a port, each with the address of its other end. Nobody else is heard, and nothing is sent to anybody else.
pub struct Links {
    peers: HashMap<SocketAddr, Peer>,
    order: Order,
}

// Written out, so that letting go of it is one call in a proof. A derived `Drop` is unfolded there field by field, which takes minutes.
impl Drop for Links {
    fn drop(self) {
        let Links { peers: _, order: _ } = self;
    }
}

impl Links {
    /// No link. Counters have to come in this order.
    pub fn new(alloc: Global, order: Order) -> Links
        ensures none { (address : Address) → peer_at result address ≡ None }
        ensures order { result.order ≡ order }
    {
        Links {
            peers: HashMap::new(alloc),
            order,
        }
    }

    /// Adds the link whose other end has this address, in place of one that had it.
    ///
    /// # Errors
    ///
    /// `AllocError` if memory was refused. The links are as before then.
    pub fn add(&mut self, at: SocketAddr, link: Link) -> Result<(), AllocError>
        ensures added { OnOk result (Adds self.old at link self.new) }
        ensures same { OnErr result (SamePeers self.old self.new) }
    {
        self.peers.insert(at, Peer::new(link))?;
        Ok(())
    }

    /// What is let through of a datagram that came from an address.
    ///
    /// # Errors
    ///
    /// Those of [`Unopened`]. The links are as before then.
    pub fn open(
        &mut self,
        alloc: Global,
        from: SocketAddr,
        wire: &[u8],
    ) -> Result<Vec<u8>, Unopened>
        ensures opened { IfOk result (λ plain. LetsThroughFrom self.old from wire.now plain.items self.new) }
        ensures fits { IfOk result (λ plain. length plain.items ≤ length wire.now) }
        ensures refused { IfErr result (λ e. RefusesFrom self.old from wire.now e) }
        ensures same { OnErr result (SamePeers self.old self.new) }
        ensures order { self.new.order ≡ self.old.order }
    {
        let width = self.order.width();
        match self.peers.get_mut(&from) {
            Some(peer) => peer.open(alloc, width, wire),
            None => Err(Unopened::Stranger),
        }
    }

    /// The link with an address.
    pub(crate) fn link(&self, address: SocketAddr) -> Option<&Link>
        ensures { MatchOption result (link_at self.now address ≡ None) (λ link. link_at self.now address ≡ Some link.now) }
    {
        match self.peers.get(&address) {
            Some(peer) => Some(peer.link()),
            None => None,
        }
    }
}
