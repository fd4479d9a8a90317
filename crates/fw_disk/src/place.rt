//! Where a file is, and those beside it.

ghost use Rattle.std.specs.Prelude.{◌≡◌, ◌≤◌, ◌++◌, IfErr, IfOk, take};
ghost use Rattle.fw_disk.specs.Causes.{IsOfSystem};
ghost use Rattle.fw_disk.specs.Endings.{ending_of};
ghost use Rattle.fw_disk.specs.declared.name.Name.TheVariants.{New, Journal};

use crate::cause::Cause;
use crate::name::Name;

/// The most bytes of a path, as the operating system has it.
const MAX_PATH_SIZE: usize = 4096;

/// Linux: the name is too long.
const TOO_LONG: Cause = Cause::Other { code: 36 };

/// The path of a file, and those of FILE.new and FILE.journal. It takes no memory.
#[derive(Drop)]
pub struct Place<'a> {
    path: &'a str,
    new: Beside,
    journal: Beside,
    ghost new_is: { take new.size new.bytes ≡ path.now ++ ending_of New },
    ghost journal_is: { take journal.size journal.bytes ≡ path.now ++ ending_of Journal },
}

impl<'a> Place<'a> {
    /// The place of the file at this path.
    ///
    /// # Errors
    ///
    /// `Other` with the system's number for a name that is too long.
    pub fn of(path: &'a str) -> Result<Place<'a>, Cause>
        ensures path { IfOk result (λ place. place.path.now ≡ path.now) }
        ensures faults { IfErr result IsOfSystem }
    {
        Ok(Place {
            path,
            new: Beside::of(path, Name::New.ending())?,
            journal: Beside::of(path, Name::Journal.ending())?,
        })
    }

    /// The path of a name.
    pub fn path(&self, name: Name) -> Result<&str, Cause>
        ensures path { IfOk result (λ path. path.now ≡ self.now.path.now ++ ending_of name) }
        ensures faults { IfErr result IsOfSystem }
    {
        match name {
            Name::Main => Ok(self.path),
            Name::New => self.new.text(),
            Name::Journal => self.journal.text(),
        }
    }

    /// The path of the folder that the file is in.
    pub fn folder(&self) -> &str {
        match self.path.rsplit_once('/') {
            Some((folder, _)) if folder.is_empty() => "/",
            Some((folder, _)) => folder,
            None => ".",
        }
    }
}

/// A path with an ending.
#[derive(Drop)]
struct Beside {
    bytes: [u8; MAX_PATH_SIZE],
    size: usize,
    ghost within: { size ≤ 4096 },
}

impl Beside {
    /// The path with the ending.
    fn of(path: &str, ending: &str) -> Result<Beside, Cause>
        ensures path { IfOk result (λ beside. take beside.size beside.bytes ≡ path.now ++ ending.now) }
        ensures faults { IfErr result IsOfSystem }
    {
        let (path, ending) = (path.as_bytes(), ending.as_bytes());
        let mut bytes = [0; MAX_PATH_SIZE];
        if path.len() > MAX_PATH_SIZE || ending.len() > MAX_PATH_SIZE - path.len() {
            return Err(TOO_LONG);
        }
        let size = path.len() + ending.len();
        bytes[..path.len()].copy_from_slice(path);
        bytes[path.len()..size].copy_from_slice(ending);
        Ok(Beside { bytes, size })
    }

    /// The path as text.
    fn text(&self) -> Result<&str, Cause>
        ensures path { IfOk result (λ path. path.now ≡ take self.now.size self.now.bytes) }
        ensures faults { IfErr result IsOfSystem }
    {
        match str::from_utf8(&self.bytes[..self.size]) {
            Ok(text) => Ok(text),
            Err(_) => Err(TOO_LONG),
        }
    }
}
