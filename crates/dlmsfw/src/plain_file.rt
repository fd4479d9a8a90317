//! The file of a capture in plain words.

ghost use Rattle.std.specs.Prelude.{◌≤◌, IfOk, length};

use fw_disk::{Cause, Name, Reason};
use fw_key_files::OWNER_ALONE;
use std::fs::{File, OpenOptions};
use std::io;
use std::io::Write;
use std::os::unix::fs::OpenOptionsExt;
use std::rt::Files;

/// A file that is made with the first write to it, and not before: what was secret stands in it, so its owner alone may read it, and no file is
/// written over. It remembers why the last write that failed did.
#[derive(Drop)]
pub(crate) struct PlainFile<'f, 'p, F> {
    files: &'f F,
    path: &'p str,
    made: Option<File>,
    cause: Option<Cause>,
}

impl<'f, 'p, F: Files<File = File>> PlainFile<'f, 'p, F> {
    /// The file at this path, which isn't made yet.
    pub(crate) fn at(files: &'f F, path: &'p str) -> PlainFile<'f, 'p, F> {
        PlainFile {
            files,
            path,
            made: None,
            cause: None,
        }
    }

    /// Why the last write that failed did, if one did.
    pub(crate) fn reason(&self) -> Option<Reason> {
        match self.cause {
            Some(cause) => Some(cause.at(Name::Main)),
            None => None,
        }
    }

    /// Writes to the file, which is made if it isn't yet.
    fn write_made(&mut self, buf: &[u8]) -> io::Result<usize>
        ensures { IfOk result (λ count. count ≤ length buf.now) }
    {
        if let Some(made) = &mut self.made {
            return made.write(buf);
        }
        let mut options = OpenOptions::new();
        options.write(true).create_new(true).mode(OWNER_ALONE);
        let mut made = options.open(self.files, self.path)?;
        let written = made.write(buf);
        self.made = Some(made);
        written
    }
}

impl<F: Files<File = File>> Write for PlainFile<'_, '_, F> {
    fn write(&mut self, buf: &[u8]) -> io::Result<usize> {
        match self.write_made(buf) {
            Ok(count) => Ok(count),
            Err(error) => {
                self.cause = Some(Cause::from(error));
                Err(error)
            }
        }
    }

    fn flush(&mut self) -> io::Result<()> {
        match &mut self.made {
            Some(made) => made.flush(),
            None => Ok(()),
        }
    }
}
