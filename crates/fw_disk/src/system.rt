//! The folder of a file of the operating system.

ghost use Rattle.std.specs.Prelude.{IfErr};
ghost use Rattle.fw_disk.specs.Causes.{IsOfSystem};

use crate::cause::Cause;
use crate::folder::Folder;
use crate::name::{Found, Name};
use crate::place::Place;
use std::fs;
use std::fs::{File, Metadata, OpenOptions};
use std::os::unix::fs::{FileExt, MetadataExt};
use std::rt::Files;

/// The folder of a file of the operating system. Nothing is known of what it holds or keeps, so it isn't honest.
#[derive(Drop)]
pub struct SystemFolder<'a, R> {
    rt: &'a R,
    place: Place<'a>,
}

impl<'a, R: Files<File = File>> SystemFolder<'a, R> {
    /// The folder of the file at this path.
    ///
    /// # Errors
    ///
    /// `Other` if the path is too long.
    pub fn of(rt: &'a R, path: &'a str) -> Result<SystemFolder<'a, R>, Cause>
        ensures { IfErr result IsOfSystem }
    {
        let place = Place::of(path)?;
        Ok(SystemFolder { rt, place })
    }

    /// Opens a file in a way, and locks it.
    fn locked(&self, name: Name, options: &OpenOptions) -> Result<File, Cause>
        ensures { IfErr result IsOfSystem }
    {
        let file = options.open(self.rt, self.place.path(name)?)?;
        file.try_lock()?;
        Ok(file)
    }

    /// Whether a name is that of this file.
    fn has_name(&self, name: Name, own: &Metadata) -> Result<bool, Cause>
        ensures { IfErr result IsOfSystem }
    {
        match fs::symlink_metadata(self.rt, self.place.path(name)?) {
            Ok(named) => Ok(own.dev() == named.dev() && own.ino() == named.ino()),
            Err(error) => match Cause::from(error) {
                Cause::Missing => Ok(false),
                cause => Err(cause),
            },
        }
    }

    /// Gives what has the first name the second one.
    fn renamed(&self, from: Name, to: Name) -> Result<(), Cause>
        ensures { IfErr result IsOfSystem }
    {
        let from = self.place.path(from)?;
        let to = self.place.path(to)?;
        Ok(fs::rename(self.rt, from, to)?)
    }
}

// Of a folder of the operating system nothing is known, so each clause under honesty holds of it.
impl<'a, R: Files<File = File>> Folder for SystemFolder<'a, R> {
    ghost use Rattle.std.proofs.Common.{rules};
    ghost use Rattle.fw_disk.specs.Disk.{nothing_known};

    type File = File;

    ghost seen = { λ _. nothing_known };

    ghost number = { λ _. 0 };

    ghost nameless = { Prim.search rules };

    ghost counts_now = { λ f since left le now. tt };

    ghost only_now = { λ f left now. tt };

    fn look(&mut self, name: Name) -> Result<Found, Cause> {
        match fs::symlink_metadata(self.rt, self.place.path(name)?) {
            Ok(metadata) if metadata.is_file() => Ok(Found::Plain),
            Ok(_) => Ok(Found::Other),
            Err(error) => match Cause::from(error) {
                Cause::Missing => Ok(Found::Absent),
                cause => Err(cause),
            },
        }
    }

    fn open(&mut self, name: Name) -> Result<File, Cause> {
        let mut options = OpenOptions::new();
        options.read(true).write(true);
        self.locked(name, &options)
    }

    fn create(&mut self, name: Name) -> Result<File, Cause> {
        let mut options = OpenOptions::new();
        options.read(true).write(true).create_new(true);
        self.locked(name, &options)
    }

    fn is_alone(&mut self, name: Name, file: &File) -> Result<bool, Cause> {
        let own = file.metadata()?;
        Ok(own.is_file() && own.nlink() == 1 && self.has_name(name, &own)?)
    }

    fn is_twice(&mut self, file: &File) -> Result<bool, Cause> {
        let own = file.metadata()?;
        Ok(
            own.is_file()
                && own.nlink() == 2
                && self.has_name(Name::Main, &own)?
                && self.has_name(Name::New, &own)?,
        )
    }

    fn len(&mut self, file: &File) -> Result<u64, Cause> {
        Ok(file.metadata()?.len())
    }

    fn read_at(&mut self, file: &File, at: u64, out: &mut [u8]) -> Result<(), Cause> {
        Ok(file.read_exact_at(out, at)?)
    }

    fn write_at(&mut self, file: &File, at: u64, bytes: &[u8]) -> Result<(), Cause> {
        Ok(file.write_all_at(bytes, at)?)
    }

    fn clear(&mut self, file: &File) -> Result<(), Cause> {
        Ok(file.set_len(0)?)
    }

    fn copy_permissions(&mut self, from: &File, to: &File) -> Result<(), Cause> {
        Ok(to.set_permissions(from.metadata()?.permissions())?)
    }

    fn sync(&mut self, file: &File) -> Result<(), Cause> {
        Ok(file.sync_all()?)
    }

    fn rename(&mut self, from: Name, to: Name) -> Result<(), Cause> {
        self.renamed(from, to)
    }

    fn remove(&mut self, name: Name) -> Result<(), Cause> {
        Ok(fs::remove_file(self.rt, self.place.path(name)?)?)
    }

    fn sync_folder(&mut self) -> Result<(), Cause> {
        let mut options = OpenOptions::new();
        options.read(true);
        let folder = options.open(self.rt, self.place.folder())?;
        Ok(folder.sync_all()?)
    }
}
