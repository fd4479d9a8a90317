//! The file that keeps what an opening cuts off a book.

use crate::head_lines::kept_line;
use fw_disk::{Cause, Folder, SystemFolder};
use fw_journal::{DeviceError, Keeper};
use std::alloc::{AllocError, Global};
use std::fs::{File, OpenOptions};
use std::io::{ErrorKind, Write};
use std::rt::Files;
use std::{fs, io};

/// Keeps what is cut off the book in the file at a path, in a new file beside it: FILE.dropped, or FILE.dropped.2 and so on where files of
/// these names are there, which stay as they are. Once the disk has it, standard error is told how many records it has. Nothing is known
/// of what a file holds.
#[derive(Drop)]
pub(crate) struct DroppedFile<'a, R> {
    rt: &'a R,
    alloc: Global,
    path: &'a str,
}

/// What the operating system refused.
fn refused(_error: io::Error) -> DeviceError {
    DeviceError::Fault
}

impl<'a, R: Files<File = File>> DroppedFile<'a, R> {
    /// What keeps the bytes of the book at this path.
    pub(crate) fn new(rt: &'a R, alloc: Global, path: &'a str) -> DroppedFile<'a, R> {
        DroppedFile { rt, alloc, path }
    }

    /// A new file, and its name.
    fn made(&self) -> Result<(File, String), DeviceError> {
        let mut options = OpenOptions::new();
        options.write(true).create_new(true);
        for number in 1..u32::MAX {
            let name = self.name(number)?;
            match options.open(self.rt, name.as_str()) {
                Ok(file) => return Ok((file, name)),
                Err(error) if error.kind() == ErrorKind::AlreadyExists => {}
                Err(_) => return Err(DeviceError::Fault),
            }
        }
        Err(DeviceError::Fault)
    }

    /// The name of the file that is tried after so many others.
    fn name(&self, number: u32) -> Result<String, AllocError> {
        let path = self.path;
        if number == 1 {
            format!(in self.alloc; "{path}.dropped")
        } else {
            format!(in self.alloc; "{path}.dropped.{number}")
        }
    }

    /// Gives a new file these bytes and the permissions of the book, and syncs it and its name.
    fn fill(&self, file: &mut File, bytes: &[u8]) -> Result<(), DeviceError> {
        let book = fs::metadata(self.rt, self.path).map_err(refused)?;
        file.set_permissions(book.permissions()).map_err(refused)?;
        file.write_all(bytes).map_err(refused)?;
        file.sync_all().map_err(refused)?;
        self.sync_folder().map_err(|_| DeviceError::Fault)
    }

    /// Puts the names in the folder of the book where a power cut leaves them.
    fn sync_folder(&self) -> Result<(), Cause> {
        let mut folder = SystemFolder::of(self.rt, self.path)?;
        folder.sync_folder()
    }
}

impl<'a, R: Files<File = File> + Eprint> Keeper for DroppedFile<'a, R> {
    ghost use Rattle.std.specs.Prelude.{⊤, false};

    ghost holds = { λ _ _. ⊤ };

    ghost sound = { λ _. false };

    fn keep(&mut self, records: usize, bytes: &[u8]) -> Result<(), DeviceError> {
        let (mut file, name) = self.made()?;
        if let Err(fault) = self.fill(&mut file, bytes) {
            // A part of it would be taken for all of it.
            let _ = fs::remove_file(self.rt, name.as_str());
            return Err(fault);
        }
        if let Ok(line) = kept_line(self.alloc, records, name.as_str()) {
            let line = line.as_str();
            let _ = eprint!(self.rt; "{line}");
        }
        Ok(())
    }
}
