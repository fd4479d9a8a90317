//! A file of keys that is to be made.

ghost use Rattle.std.specs.Prelude.{◌≡◌, IfOk};
ghost use Rattle.fw_key_files.specs.Making.{path_in};

use crate::owner::Owner;
use std::alloc::{AllocError, Global};
use std::marker::Model;

/// A file of keys that is to be made: whose it is, its path and its text. It has no `Debug`, so that no key is printed.
#[derive(Drop)]
pub struct NewFile {
    owner: Owner,
    path: String,
    text: Vec<u8>,
}

impl Model for NewFile {
    ghost use Rattle.std.specs.Prelude.{string_bytes};
    ghost use Rattle.fw_key_files.specs.Making.{KeyText};

    ghost Value = { KeyText };

    ghost view = { λ f. record { owner = f.owner; path = string_bytes f.path; text = f.text.items } };
}

impl NewFile {
    /// The file of this end in a folder, with this text.
    pub(crate) fn of(
        alloc: Global,
        folder: &str,
        owner: Owner,
        text: Vec<u8>,
    ) -> Result<NewFile, AllocError>
        ensures { IfOk result (λ file. file ≡ record { owner = owner; path = path_in folder.now owner; text = text.items }) }
    {
        let path = format!(in alloc; "{folder}/{owner}")?;
        Ok(NewFile { owner, path, text })
    }

    /// Whose it is.
    pub fn owner(&self) -> Owner
        ensures { result ≡ self.now.owner }
    {
        self.owner
    }

    /// Its path.
    pub fn path(&self) -> &str
        ensures { result.now ≡ self.now.path }
    {
        self.path.as_str()
    }

    /// Its text, which has the keys.
    pub fn text(&self) -> &[u8]
        ensures { result.now ≡ self.now.text }
    {
        self.text.as_slice()
    }
}
