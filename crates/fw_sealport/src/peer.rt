//! The other end of a link.

ghost use Rattle.std.specs.Prelude.{◌≡◌, ◌≤◌, [], IfOk, IfErr, OnErr, length};
ghost use Rattle.fw_sealport.specs.Peers.{LetsThrough, Refuses};
ghost use Rattle.fw_sealport.specs.Windows.{Remembers};

use crate::dropped::Unopened;
use crate::window::Window;
use crate::wire::{open_wire, plain_datagram};
use fw_seal::{Link, Opened};
use std::alloc::Global;

/// The other end of a link, and which of its counters came.
#[derive(Drop)]
pub(crate) struct Peer {
    link: Link,
    window: Window,
}

impl Peer {
    /// The other end of a link, of which nothing came.
    pub(crate) fn new(link: Link) -> Peer
        ensures link { result.link ≡ link }
        ensures window { Remembers result.window [] }
    {
        Peer {
            link,
            window: Window::new(),
        }
    }

    /// The link.
    pub(crate) fn link(&self) -> &Link
        ensures { result.now ≡ self.now.link }
    {
        &self.link
    }

    /// The plain datagram of what came, if this end sealed it, with a counter that may be overtaken by less than `width`, and isn't taken.
    ///
    /// # Errors
    ///
    /// `NotSealed`, `Repeated` or `OutOfMemory`. No counter is taken then.
    pub(crate) fn open(
        &mut self,
        alloc: Global,
        width: u64,
        wire: &[u8],
    ) -> Result<Vec<u8>, Unopened>
        requires { width ≤ 64 }
        ensures opened { IfOk result (λ plain. LetsThrough width self.old wire.now plain.items self.new) }
        ensures fits { IfOk result (λ plain. length plain.items ≤ length wire.now) }
        ensures refused { IfErr result (λ e. Refuses width self.old wire.now e) }
        ensures same { OnErr result (self.new ≡ self.old) }
    {
        let Opened { counter, apdu } = open_wire(&self.link, alloc, wire)?;
        if !self.window.is_new(width, counter) {
            return Err(Unopened::Repeated);
        }
        let plain = plain_datagram(alloc, &apdu)?;
        self.window.take(counter);
        Ok(plain)
    }
}
