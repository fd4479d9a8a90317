//! The open files of a store, of the operating system.

ghost use Rattle.std.specs.Prelude.{◌≡◌, OnOk};

use fw_cuts::{FilesFault, Part, StoreFiles};
use std::fs::File;
use std::io;
use std::os::unix::fs::FileExt;

/// An open file, and what is kept of it.
#[derive(Drop)]
pub(crate) struct OpenFile {
    file: File,
    /// How many bytes it had when it was opened, or when its length was last set.
    size: u64,
    /// Whether all that was written is synced.
    synced: bool,
}

/// What the operating system refused.
fn refused(_error: io::Error) -> FilesFault {
    FilesFault
}

impl OpenFile {
    /// An open file of so many bytes.
    pub(crate) fn of(file: File, size: u64) -> OpenFile
        ensures { result.size ≡ size }
    {
        OpenFile {
            file,
            size,
            synced: false,
        }
    }

    /// The file itself.
    pub(crate) fn file(&self) -> &File {
        &self.file
    }

    /// How many bytes the file has, as far as it is known.
    pub(crate) fn size(&self) -> u64
        ensures { result ≡ self.now.size }
    {
        self.size
    }

    /// Cuts a file to this length, or adds zeros up to it.
    fn set_len(&mut self, len: u64) -> Result<(), FilesFault>
        ensures { OnOk result (self.new.size ≡ len) }
    {
        self.synced = false;
        self.file.set_len(len).map_err(refused)?;
        self.size = len;
        Ok(())
    }

    /// Fills `out` with the bytes from `at` on.
    pub(crate) fn read_at(&self, at: u64, out: &mut [u8]) -> Result<(), FilesFault> {
        self.file.read_exact_at(out, at).map_err(refused)
    }

    /// Writes all of these bytes.
    fn write_at(&mut self, at: u64, bytes: &[u8]) -> Result<(), FilesFault>
        ensures { self.new.size ≡ self.old.size }
    {
        self.synced = false;
        self.file.write_all_at(bytes, at).map_err(refused)
    }

    /// Puts what was written where a power cut leaves it.
    fn sync(&mut self) -> Result<(), FilesFault>
        ensures { self.new.size ≡ self.old.size }
    {
        if !self.synced {
            self.file.sync_data().map_err(refused)?;
            self.synced = true;
        }
        Ok(())
    }
}

/// FILE and FILE.journal. Nothing is known of what a file holds or gives, so they aren't honest.
#[derive(Drop)]
pub(crate) struct OpenFiles {
    store: OpenFile,
    journal: OpenFile,
}

impl OpenFiles {
    /// A store's files.
    pub(crate) fn of(store: OpenFile, journal: OpenFile) -> OpenFiles {
        OpenFiles { store, journal }
    }

    /// FILE itself.
    pub(crate) fn store(&self) -> &File {
        self.store.file()
    }

    /// FILE.journal itself.
    pub(crate) fn journal(&self) -> &File {
        self.journal.file()
    }

    /// One of them.
    fn part(&mut self, part: Part) -> &mut OpenFile {
        match part {
            Part::Store => &mut self.store,
            Part::Journal => &mut self.journal,
        }
    }
}

// Of a file nothing is known, so each clause of files holds of these.
impl StoreFiles for OpenFiles {
    ghost use Rattle.std.specs.Prelude.{false};
    ghost use Rattle.fw_cuts.specs.Cuts.{nothing_known};

    ghost honest = { false };

    ghost seen = { λ _. nothing_known };

    ghost reads_may_be_left = { λ _ _. tt };

    ghost lost_is_there = { λ _ _ _ _ lost. absurd lost };

    ghost counts_now = { λ _ _ _ _ _. tt };

    ghost only_now = { λ _ _ _. tt };

    fn len(&mut self, part: Part) -> Result<u64, FilesFault> {
        Ok(self.part(part).size())
    }

    fn set_len(&mut self, part: Part, len: u64) -> Result<(), FilesFault> {
        self.part(part).set_len(len)
    }

    fn read_at(&mut self, part: Part, at: u64, out: &mut [u8]) -> Result<(), FilesFault> {
        self.part(part).read_at(at, out)
    }

    fn write_at(&mut self, part: Part, at: u64, bytes: &[u8]) -> Result<(), FilesFault> {
        self.part(part).write_at(at, bytes)
    }

    fn sync(&mut self, part: Part) -> Result<(), FilesFault> {
        self.part(part).sync()
    }
}
