//! The bytes of a name.

ghost use Rattle.std.specs.Prelude.{◌≡◌, ◌+◌, ◌≤◌, ◌++◌, [], length};

use std::marker::Model;

/// The most bytes that a name's spelling has: those of a name with a release.
pub const MAX_NAME_SIZE: usize = 45;

/// The spelling of a name, of 41 bytes or of 45. It takes no memory.
#[derive(Drop)]
pub struct NameBytes {
    bytes: [u8; MAX_NAME_SIZE],
    size: usize,
}

// Contracts see the bytes of the spelling.
impl Model for NameBytes {
    ghost use Rattle.std.specs.Prelude.{ℕ, List, ◌≤◌, take};

    ghost Value = { List ℕ };

    ghost view = { λ b. take b.size b.bytes };

    ghost invariant = { λ b. b.size ≤ 45 };
}

impl NameBytes {
    /// No bytes yet.
    pub(crate) fn new() -> NameBytes
        ensures { result ≡ [] }
    {
        NameBytes {
            bytes: [0; MAX_NAME_SIZE],
            size: 0,
        }
    }

    /// Puts a part after those that are there.
    pub(crate) fn put(&mut self, part: &[u8])
        requires { length self.old + length part.now ≤ MAX_NAME_SIZE }
        ensures { self.new ≡ self.old ++ part.now }
    {
        let end = self.size + part.len();
        self.bytes[self.size..end].copy_from_slice(part);
        self.size = end;
    }

    /// The bytes.
    pub fn as_slice(&self) -> &[u8]
        ensures { result.now ≡ self.now }
    {
        &self.bytes[..self.size]
    }
}
