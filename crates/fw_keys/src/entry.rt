//! Links as a key file has them.

ghost use Rattle.std.specs.Prelude.{◌≡◌};

use fw_seal::TITLE_SIZE;

/// How many bytes a key has.
pub const KEY_SIZE: usize = 16;

/// The two keys of a link, and the system title of its other end. It has no `Debug`, so that no key is printed.
#[derive(Drop)]
pub struct LinkKeys {
    pub(crate) title: [u8; TITLE_SIZE],
    pub(crate) encryption: [u8; KEY_SIZE],
    pub(crate) authentication: [u8; KEY_SIZE],
}

/// A link: the name of its other end, and its keys.
#[derive(Drop)]
pub struct Entry<N> {
    pub(crate) end: N,
    pub(crate) keys: LinkKeys,
}

impl<N> Entry<N> {
    /// The name of the other end.
    pub fn end(&self) -> &N
        ensures { result.now ≡ self.now.end }
    {
        &self.end
    }
}
