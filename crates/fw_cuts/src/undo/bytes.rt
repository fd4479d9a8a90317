//! The bytes of a journal.

ghost use Rattle.std.specs.Prelude.{◌≡◌, ◌+◌, ◌≤◌, ◌++◌, [], length};
ghost use Rattle.fw_cuts.specs.Write.{max_journal};

use std::marker::Model;

/// The most bytes that a journal has.
pub const MAX_JOURNAL_SIZE: usize = 8260;

/// The bytes of a journal. They take no memory.
#[derive(Drop)]
pub struct JournalBytes {
    bytes: [u8; MAX_JOURNAL_SIZE],
    size: usize,
}

impl Model for JournalBytes {
    ghost use Rattle.std.specs.Prelude.{ℕ, List, ◌≤◌, take};
    ghost use Rattle.fw_cuts.specs.Write.{max_journal};

    ghost Value = { List ℕ };

    ghost view = { λ b. take b.size b.bytes };

    ghost invariant = { λ b. b.size ≤ max_journal };
}

impl JournalBytes {
    /// No bytes yet.
    pub(crate) fn new() -> JournalBytes
        ensures { result ≡ [] }
    {
        JournalBytes {
            bytes: [0; MAX_JOURNAL_SIZE],
            size: 0,
        }
    }

    /// Puts bytes after those that are there.
    pub(crate) fn put(&mut self, bytes: &[u8])
        requires { length self.old + length bytes.now ≤ max_journal }
        ensures { self.new ≡ self.old ++ bytes.now }
    {
        let end = self.size + bytes.len();
        self.bytes[self.size..end].copy_from_slice(bytes);
        self.size = end;
    }

    /// The bytes.
    pub fn as_slice(&self) -> &[u8]
        ensures { result.now ≡ self.now }
    {
        &self.bytes[..self.size]
    }
}
