//! What an end whose links are sealed gets of what is on the wire, as its port lets it through, and what it sent itself.

ghost use Rattle.std.specs.Prelude.{◌≡◌, ◌≢◌, IfErr, IfOk};
ghost use Rattle.fw_audit.specs.Log.{item_of, sent, started};
ghost use Rattle.fw_sealport.specs.declared.dropped.Unopened.TheVariants.{OutOfMemory};
ghost use Rattle.fw_sealport.specs.declared.links.Links.{Links as TheLinks};
ghost use Rattle.fw_evidence.specs.Private.{IsUnsaid, said_in};
ghost use Rattle.fw_evidence.specs.Sealed.{Begins, Comes, IsSealed, Says};

use crate::opened::OpenedItem;
use fw_audit::LogItem;
use fw_sealport::{Links, Unopened};
use std::alloc::{AllocError, Global};
use std::net::SocketAddr;

/// What the links of an end are made of.
pub trait EndKeys {
    /// A process of the end that starts has these links: nothing came of them yet.
    ghost hears: { Self → TheLinks → Type 0 };

    /// These are the same links, as their other ends have them: what this end seals opens under them. None of its counters came yet.
    ghost seals: { Self → TheLinks → Type 0 };

    /// The links of the end.
    fn links(&self, alloc: Global) -> Result<Links, AllocError>
        ensures { IfOk result (λ links. hears self.now links) };

    /// The same links, as their other ends have them.
    fn links_of_others(&self, alloc: Global) -> Result<Links, AllocError>
        ensures { IfOk result (λ links. seals self.now links) };
}

/// What an end opens with.
#[derive(Drop)]
pub(crate) struct Opening {
    /// Its links, with the counters that it took of what came since its process started.
    theirs: Links,
    /// The same links, as their other ends have them, with the counters that it used.
    own: Links,
}

impl Opening {
    /// Nothing came and nothing was sent.
    pub(crate) fn new<K: EndKeys>(alloc: Global, keys: &K) -> Result<Opening, AllocError>
        ensures { IfOk result (λ opening. Begins (K.hears keys.now) (K.seals keys.now) opening) }
    {
        Ok(Opening {
            theirs: keys.links(alloc)?,
            own: keys.links_of_others(alloc)?,
        })
    }

    /// What an item of what was on the wire says in plain words, if it says something. After an error it is unspecified.
    ///
    /// # Errors
    ///
    /// Why the end didn't seal what is sent so, or `OutOfMemory`.
    pub(crate) fn read<K: EndKeys>(
        &mut self,
        alloc: Global,
        keys: &K,
        item: &LogItem<'_>,
    ) -> Result<Option<OpenedItem>, Unopened>
        ensures says { IfOk result (λ said. Says (K.hears keys.now) self.old (item_of item.now) (said_in said) self.new) }
        ensures unsaid { IfErr result (λ why. IsUnsaid self.old (item_of item.now) why) }
    {
        match *item {
            LogItem::Started => self.start(alloc, keys),
            LogItem::Came { from, bytes } => self.hear(alloc, from, bytes),
            LogItem::Sent { to, bytes } => self.follow(alloc, to, bytes),
            LogItem::Turned => Ok(Some(OpenedItem::Turned)),
        }
    }

    /// A start: the links are made anew.
    fn start<K: EndKeys>(&mut self, alloc: Global, keys: &K) -> Result<Option<OpenedItem>, Unopened>
        ensures says { IfOk result (λ said. Says (K.hears keys.now) self.old started (said_in said) self.new) }
        ensures unsaid { IfErr result (λ why. why ≡ OutOfMemory) }
    {
        match keys.links(alloc) {
            Ok(links) => {
                self.theirs = links;
                Ok(Some(OpenedItem::Started))
            }
            Err(_) => Err(Unopened::OutOfMemory),
        }
    }

    /// A datagram that came: nothing is said if the port lets nothing of it through.
    fn hear(
        &mut self,
        alloc: Global,
        from: SocketAddr,
        wire: &[u8],
    ) -> Result<Option<OpenedItem>, Unopened>
        ensures says { IfOk result (λ said. Comes self.old from wire.now (said_in said) self.new) }
        ensures unsaid { IfErr result (λ why. why ≡ OutOfMemory) }
    {
        match self.theirs.open(alloc, from, wire) {
            Ok(bytes) => Ok(Some(OpenedItem::Came { from, bytes })),
            Err(Unopened::Stranger) | Err(Unopened::NotSealed) | Err(Unopened::Repeated) => Ok(
                None,
            ),
            Err(Unopened::OutOfMemory) => Err(Unopened::OutOfMemory),
        }
    }

    /// A datagram that is sent.
    fn follow(
        &mut self,
        alloc: Global,
        to: SocketAddr,
        wire: &[u8],
    ) -> Result<Option<OpenedItem>, Unopened>
        ensures says { IfOk result (λ said. IsSealed self.old to wire.now (said_in said) self.new) }
        ensures unsaid { IfErr result (λ why. IsUnsaid self.old (sent to wire.now) why) }
    {
        match self.own.open(alloc, to, wire) {
            Ok(bytes) => Ok(Some(OpenedItem::Sent { to, bytes })),
            Err(why) => Err(why),
        }
    }
}
