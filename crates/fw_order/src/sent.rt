//! The datagrams that were sent so far.

ghost use Rattle.std.specs.Prelude.{◌≡◌, false, ℕ, List, IsTrue, OnOk};
ghost use Rattle.std.specs.declared.net.socket_addr.SocketAddr.{SocketAddr as Address};
ghost use Rattle.fw_audit.specs.Log.{item_of};
ghost use Rattle.fw_order.specs.Private.{Has, Notes};

use fw_audit::LogItem;
use std::alloc::{AllocError, Global};
use std::collections::HashSet;
use std::net::SocketAddr;

/// A datagram that was sent.
#[derive(Clone, Copy, PartialEq, Eq, Hash)]
struct Datagram<'a> {
    from: SocketAddr,
    to: SocketAddr,
    bytes: &'a [u8],
}

/// Datagrams that were sent. None is used up where it comes.
pub(crate) struct Sent<'a> {
    datagrams: HashSet<Datagram<'a>>,
}

// Written out, so that letting go of it is one call in a proof.
impl<'a> Drop for Sent<'a> {
    fn drop(self) {
        let Sent { datagrams: _ } = self;
    }
}

impl<'a> Sent<'a> {
    /// None. It keeps the allocator, and takes no memory.
    pub(crate) fn none(alloc: Global) -> Sent<'a>
        ensures { (from to : Address) (bytes : List ℕ) → Has result from to bytes → ⊥ }
    {
        Sent {
            datagrams: HashSet::new(alloc),
        }
    }

    /// Whether this one was sent.
    pub(crate) fn has(&self, from: SocketAddr, to: SocketAddr, bytes: &'a [u8]) -> bool
        ensures some { IsTrue result → Has self.now from to bytes.now }
        ensures none { result ≡ false → Has self.now from to bytes.now → ⊥ }
    {
        self.datagrams.contains(&Datagram { from, to, bytes })
    }

    /// Notes that an end of this address did this.
    pub(crate) fn note(&mut self, from: SocketAddr, item: &LogItem<'a>) -> Result<(), AllocError>
        ensures { OnOk result (Notes self.old from (item_of item.now) self.new) }
    {
        match *item {
            LogItem::Sent { to, bytes } => {
                self.datagrams.insert(Datagram { from, to, bytes })?;
                Ok(())
            }
            LogItem::Started | LogItem::Came { .. } | LogItem::Turned => Ok(()),
        }
    }
}
