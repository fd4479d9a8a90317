//! What an end knows of a link, what it seals, and what it opens.

ghost use Rattle.std.specs.Prelude.{◌≡◌, ◌≢◌, ◌++◌, ◌∷◌, length, None, IfOk, IfErr, OnOk, OnErr, SomeIff};
ghost use Rattle.fw_seal.specs.Refusal.{IfRefused, IsRefusal, refusal_of};
ghost use Rattle.fw_seal.specs.Sealing.{HasForm, IsSealing, IsShortSealing, IsTaken, NoSealing};

use crate::contents::{Keys, OVERHEAD};
use crate::counters::Counters;
use crate::error::{OpenError, SealError};
use crate::frames::{frame, parts_of, put_head};
use crate::service::tag_for;
use fw_aes::Key;
use std::alloc::Global;
use std::marker::Model;

/// How many bytes a system title has.
pub const TITLE_SIZE: usize = 8;

/// The longest APDU that is sealed, in bytes.
const MAX_APDU: usize = 0xffff_ffff - OVERHEAD;

/// The most bytes that stand before a content: a tag and a length.
const MAX_HEAD: usize = 6;

/// What an end knows of a link: the keys, which both ends have, its own system title, and that of the other end. It has no `Debug`, so that
/// no key is printed, and it isn't wiped if it is let go.
#[derive(Drop)]
pub struct Link {
    keys: Keys,
    own: [u8; TITLE_SIZE],
    other: [u8; TITLE_SIZE],
}

impl Model for Link {
    ghost use Rattle.std.specs.Prelude.{◌≢◌};
    ghost use Rattle.fw_seal.specs.Sealing.{Ends};

    ghost Value = { Ends };

    ghost view = { λ l. record {
      keys = record { encryption = l.keys.encryption; authentication = l.keys.authentication };
      own = l.own;
      other = l.other;
    } };

    ghost invariant = { λ l. l.own ≢ l.other };
}

/// An APDU that was opened.
#[derive(Drop)]
pub struct Opened {
    /// The invocation counter that it was sealed with.
    pub counter: u32,
    pub apdu: Vec<u8>,
}

impl Link {
    /// The link under these keys between the end with the title `own`, which this one is, and the end with the title `other`; `None` if
    /// the titles are the same, since both ends would seal with the same initialization vectors then.
    pub fn new(
        encryption: &[u8; 16],
        authentication: &[u8; 16],
        own: &[u8; TITLE_SIZE],
        other: &[u8; TITLE_SIZE],
    ) -> Option<Link>
        ensures { SomeIff result (own.now ≢ other.now) (record {
          keys = record { encryption = encryption.now; authentication = authentication.now };
          own = own.now;
          other = other.now;
        }) }
    {
        if *own == *other {
            return None;
        }
        let keys = Keys {
            encryption: Key::new(encryption),
            authentication: *authentication,
        };
        Some(Link {
            keys,
            own: *own,
            other: *other,
        })
    }

    /// Seals an APDU of GET, SET or ACTION with the next counter, which is taken then.
    ///
    /// # Errors
    ///
    /// `UnknownService`, `TooLong` or `CounterSpent`: the first that applies. `OutOfMemory` only if none does. No counter is taken then.
    pub fn seal(
        &self,
        alloc: Global,
        counters: &mut Counters,
        apdu: &[u8],
    ) -> Result<Vec<u8>, SealError>
        ensures sealed { IfOk result (λ v. IsShortSealing self.now.keys self.now.own counters.old.next apdu.now v.items) }
        ensures taken { OnOk result (IsTaken counters.old counters.new) }
        ensures allowed { OnOk result (refusal_of apdu.now counters.old ≡ None) }
        ensures refused { IfErr result (λ e. IsRefusal (refusal_of apdu.now counters.old) e) }
        ensures unchanged { OnErr result (counters.new ≡ counters.old) }
    {
        let Some(tag) = tag_for(apdu) else {
            return Err(SealError::UnknownService);
        };
        if apdu.len() > MAX_APDU {
            return Err(SealError::TooLong);
        }
        if counters.left() == 0 {
            return Err(SealError::CounterSpent);
        }
        let content = self.keys.content(alloc, &self.own, counters.next(), apdu)?;
        let mut sealing = Vec::with_capacity(alloc, MAX_HEAD + content.len())?;
        put_head(&mut sealing, tag, content.len() as u32)?;
        sealing.extend_from_slice(content.as_slice())?;
        counters.take();
        Ok(sealing)
    }

    /// Opens what the other end sealed, with a length in any form.
    ///
    /// # Errors
    ///
    /// `NotSealed`: the bytes are no sealing of an APDU under the link's keys by the other end. `OutOfMemory` only if they have the form
    /// of one.
    pub fn open(&self, alloc: Global, bytes: &[u8]) -> Result<Opened, OpenError>
        ensures opens { IfOk result (λ o. IsSealing self.now.keys self.now.other o.counter o.apdu.items bytes.now) }
        ensures refused { IfErr result (λ e. IfRefused e (NoSealing self.now.keys self.now.other bytes.now) (HasForm bytes.now)) }
    {
        fw_aes::laws::opens_what_was_sealed();
        let Some((tag, content)) = frame(bytes) else {
            return Err(OpenError::NotSealed);
        };
        let Some(parts) = parts_of(content) else {
            return Err(OpenError::NotSealed);
        };
        let counter = parts.counter;
        let Some(apdu) = self.keys.plaintext(alloc, &self.other, parts)? else {
            return Err(OpenError::NotSealed);
        };
        match tag_for(apdu.as_slice()) {
            Some(found) if found == tag => Ok(Opened { counter, apdu }),
            _ => Err(OpenError::NotSealed),
        }
    }
}
