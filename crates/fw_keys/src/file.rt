//! What a key file says.

ghost use Rattle.std.specs.Prelude.{◌≡◌, ◌≢◌, ◌++◌, ◌∷◌, [], Contains, length, MatchBool, MatchOption, MatchResult, OnErr, OnOk};
ghost use Rattle.fw_keys.specs.declared.entry.Entry.{Entry};
ghost use Rattle.fw_keys.specs.Links.{AreLinks, HasKey, HasNoEnd, HasNoKey, IsNew, ends_of};
ghost use Rattle.fw_keys.specs.Refusals.{IsOld};

use crate::entry::{Entry, KEY_SIZE};
use crate::error::BadLine;
use crate::names::EndName;
use fw_seal::{Link, TITLE_SIZE};
use std::alloc::{AllocError, Global};
use std::marker::Model;

/// A key file: the title of the end that has it, and its links. The names are numbers of meters in a head end's file, and addresses of head
/// ends in a meter's. No name and no encryption key stands twice, and no other end has the title of this one.
#[derive(Drop)]
pub struct KeyFile<N> {
    own: [u8; TITLE_SIZE],
    entries: Vec<Entry<N>>,
}

impl<N> Model for KeyFile<N> {
    ghost use Rattle.fw_keys.specs.Links.{AreLinks, Links};

    ghost Value = { Links N };

    ghost view = { λ f. record { own = f.own; entries = f.entries.items } };

    ghost invariant = { λ f. AreLinks f.own f.entries.items };
}

impl<N: EndName> KeyFile<N> {
    /// The file of an end with this title, without links.
    pub(crate) fn none(alloc: Global, own: [u8; TITLE_SIZE]) -> KeyFile<N>
        ensures { result ≡ record { own = own; entries = [] } }
    {
        KeyFile {
            own,
            entries: Vec::new(alloc),
        }
    }

    /// The system title of the end that has the file.
    pub fn title(&self) -> [u8; TITLE_SIZE]
        ensures { result ≡ self.now.own }
    {
        self.own
    }

    /// The links, in the order of the lines.
    pub fn entries(&self) -> &[Entry<N>]
        ensures entries { result.now ≡ self.now.entries }
        ensures links { AreLinks self.now.own self.now.entries }
    {
        self.entries.as_slice()
    }

    /// How many links there are.
    pub fn len(&self) -> usize
        ensures { result ≡ length self.now.entries }
    {
        self.entries.len()
    }

    /// The link with the end of this name, if there is one.
    pub fn link_with(&self, end: &N) -> Option<Link>
        ensures { MatchOption result (HasNoEnd self.now.entries end.now)
            (λ link. (entry : Entry N) × Contains self.now.entries entry × (entry.end ≡ end.now) × (link ≡ ends_of self.now.own entry.keys)) }
    {
        let entry = find(self.entries(), end)?;
        let keys = &entry.keys;
        match Link::new(
            &keys.encryption,
            &keys.authentication,
            &self.own,
            &keys.title,
        ) {
            Some(link) => Some(link),
            // No other end has the title of this one.
            None => unreachable!(),
        }
    }

    /// Checks that a link may stand behind those of the file.
    pub(crate) fn check(&self, entry: &Entry<N>) -> Result<(), BadLine>
        ensures { MatchResult result (λ _. IsNew self.now.own self.now.entries entry.now) (IsOld self.now.own self.now.entries entry.now) }
    {
        if entry.keys.title == self.own {
            return Err(BadLine::TitlesEqual);
        }
        if has_key(self.entries(), &entry.keys.encryption) {
            return Err(BadLine::KeyTwice);
        }
        if find(self.entries(), &entry.end).is_some() {
            return Err(BadLine::NameTwice);
        }
        Ok(())
    }

    /// Adds a link that may stand there.
    pub(crate) fn add(&mut self, entry: Entry<N>) -> Result<(), AllocError>
        requires { IsNew self.old.own self.old.entries entry }
        ensures added { OnOk result (self.new ≡ record self.old { entries = self.old.entries ++ entry ∷ [] }) }
        ensures kept { OnErr result (self.new ≡ self.old) }
    {
        self.entries.push(entry)?;
        Ok(())
    }
}

/// The link with the end of this name.
pub(crate) fn find<'a, N: EndName>(entries: &'a [Entry<N>], end: &N) -> Option<&'a Entry<N>>
    ensures { MatchOption result (HasNoEnd entries.now end.now)
        (λ entry. Contains entries.now entry.now × (entry.now.end ≡ end.now)) }
{
    for entry in entries {
        if entry.end.is(end) {
            return Some(entry);
        }
    }
    None
}

/// Whether one of these links has this encryption key.
fn has_key<N>(entries: &[Entry<N>], key: &[u8; KEY_SIZE]) -> bool
    ensures { MatchBool result (HasKey entries.now key.now) (HasNoKey entries.now key.now) }
{
    for entry in entries {
        if is_same(&entry.keys.encryption, key) {
            return true;
        }
    }
    false
}

/// Whether two keys are the same. Most differ in their first byte, and to compare whole arrays takes far longer.
fn is_same(key: &[u8; KEY_SIZE], other: &[u8; KEY_SIZE]) -> bool
    ensures { MatchBool result (key.now ≡ other.now) (key.now ≢ other.now) }
{
    key[0] == other[0] && *key == *other
}
