//! Key files with new keys, for both ends of links.

ghost use Rattle.std.specs.Prelude.{◌≡◌, ◌++◌, ◌∷◌, ◌+◌, [], ℕ, Contains, IfOk, MatchOption, OnErr, OnOk, length};
ghost use Rattle.fw_keys.specs.declared.entry.Entry.{Entry};
ghost use Rattle.fw_keys.specs.declared.error.BadLine.{BadLine};
ghost use Rattle.fw_keys.specs.Links.{HasNoEnd};
ghost use Rattle.fw_keys.specs.Making.{new_entry, other_file};
ghost use Rattle.fw_keys.specs.Refusals.{IsOld};
ghost use Rattle.fw_keys.specs.Titles.{head_title};

use crate::entry::{Entry, KEY_SIZE, LinkKeys};
use crate::error::KeysError;
use crate::file::{KeyFile, find};
use crate::titles::{head_title, meter_title};
use fw_names::{HeadId, MeterId};
use std::alloc::{AllocError, Global};
use std::net::SocketAddr;

/// How many random bytes the keys of a link take.
pub const RANDOM_SIZE: usize = 2 * KEY_SIZE;

impl KeyFile<MeterId> {
    /// The file of the head end with this number, without links.
    pub fn of_head(alloc: Global, head: HeadId) -> KeyFile<MeterId>
        ensures { result ≡ record { own = head_title head; entries = [] } }
    {
        KeyFile::none(alloc, head_title(head))
    }

    /// Adds a link with this meter, under new keys: the first half of these random bytes, and the second. They are secret and never used
    /// again.
    ///
    /// # Errors
    ///
    /// - `BadKeys`: a link of the file is with this meter, or has this key. The number is that of the line that the link would have.
    /// - `OutOfMemory`.
    ///
    /// The file is as it was then.
    pub fn make_link(&mut self, meter: MeterId, random: &[u8; RANDOM_SIZE]) -> Result<(), KeysError>
        ensures made { OnOk result (self.new ≡ record self.old { entries = self.old.entries ++ new_entry meter random.now ∷ [] }) }
        ensures refused { (line : ℕ) (why : BadLine) → result ≡ Err (KeysError.BadKeys line why)
            → (line ≡ length self.old.entries + 1) × IsOld self.old.own self.old.entries (new_entry meter random.now) why }
        ensures kept { OnErr result (self.new ≡ self.old) }
    {
        let entry = new_entry(meter, random);
        match self.check(&entry) {
            Ok(()) => self.add(entry)?,
            Err(why) => return Err(KeysError::BadKeys(self.entries().len() as u64 + 1, why)),
        }
        Ok(())
    }

    /// The file of the meter that this one has a link with, if it has one: the same keys, with the two titles exchanged, and the head end at
    /// this address.
    pub fn file_of(
        &self,
        alloc: Global,
        meter: MeterId,
        address: SocketAddr,
    ) -> Result<Option<KeyFile<SocketAddr>>, AllocError>
        ensures { IfOk result (λ file. MatchOption file (HasNoEnd self.now.entries meter)
            (λ other. (entry : Entry ℕ) × Contains self.now.entries entry × (entry.end ≡ meter) × (other ≡ other_file self.now.own entry address))) }
    {
        let Some(entry) = find(self.entries(), &meter) else {
            return Ok(None);
        };
        let keys = &entry.keys;
        let mut file = KeyFile::none(alloc, keys.title);
        file.add(Entry {
            end: address,
            keys: LinkKeys {
                title: self.title(),
                encryption: keys.encryption,
                authentication: keys.authentication,
            },
        })?;
        Ok(Some(file))
    }
}

/// A new link with this meter.
fn new_entry(meter: MeterId, random: &[u8; RANDOM_SIZE]) -> Entry<MeterId>
    ensures { result ≡ new_entry meter random.now }
{
    let mut encryption = [0u8; KEY_SIZE];
    encryption.copy_from_slice(&random[..KEY_SIZE]);
    let mut authentication = [0u8; KEY_SIZE];
    authentication.copy_from_slice(&random[KEY_SIZE..]);
    Entry {
        end: meter,
        keys: LinkKeys {
            title: meter_title(meter),
            encryption,
            authentication,
        },
    }
}
