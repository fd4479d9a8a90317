//! A folder in memory.

ghost use Rattle.std.specs.Prelude.{◌≡◌, ◌<◌, ◌++◌, [], ◌∷◌, IfOk, IfErr, OnOk, OnErr, reverse};
ghost use Rattle.fw_disk.specs.Causes.{IsOfSystem};
ghost use Rattle.fw_ramdisk.specs.Past.{AreNumbered};

use crate::past::{Event, Standing, Start, Stored, bytes_after, standing_after};
use fw_disk::{Cause, Folder, Found, Name};
use std::alloc::{AllocError, Global};

/// What stands under a name before the first call of a folder in memory.
#[derive(Drop)]
pub enum Before {
    /// Nothing.
    Absent,
    /// A file with these bytes, and with a name elsewhere or without.
    File { bytes: Vec<u8>, elsewhere: bool },
    /// A link, a folder, a FIFO or a device.
    Other,
}

impl Before {
    ghost use Rattle.fw_ramdisk.specs.Memory.{IsPut};

    /// What stands under the name, if the file gets this number, and the file, which has no bytes if there is none.
    fn put(self, alloc: Global, number: usize) -> (Standing, Stored)
        ensures { IsPut self number result.0 result.1 }
    {
        let (standing, bytes, elsewhere) = match self {
            Before::Absent => (Standing::Absent, Vec::new(alloc), false),
            Before::File { bytes, elsewhere } => (Standing::File { number }, bytes, elsewhere),
            Before::Other => (Standing::Other, Vec::new(alloc), false),
        };
        (standing, Stored { bytes, elsewhere })
    }
}

/// An open file of a folder in memory. No other process is there, so its lock is never refused.
#[derive(Drop)]
pub struct MemoryFile {
    number: usize,
}

/// A folder in memory, for tests: it keeps what was done in it. It is honest. A call fails only if what it needs isn't there, or with
/// `Full` if memory is refused.
#[derive(Drop)]
pub struct MemoryFolder {
    alloc: Global,
    start: Start,
    events: Vec<Event>,
    next: usize,
    ghost numbered: { AreNumbered start (reverse events.items) next },
}

/// Linux: no such file is open.
const NOT_OPEN: Cause = Cause::Other { code: 9 };

/// No number is known for it.
const PAST_THE_END: Cause = Cause::Other { code: 0 };

impl MemoryFolder {
    ghost use Rattle.std.specs.Prelude.{◌↔◌, IsTrue};
    ghost use Rattle.fw_disk.specs.Disk.{plain};
    ghost use Rattle.fw_ramdisk.specs.Past.{stands_for};
    ghost use Rattle.fw_ramdisk.specs.Memory.{disk_of, moments_of, MayLeaveAt, HasBefore, AreApart};
    ghost use Rattle.fw_disk.specs.declared.name.Name.TheVariants.{Main, New, Journal};

    /// A folder where this stands under FILE, FILE.new and FILE.journal. All of it is synced.
    ///
    /// # Errors
    ///
    /// `AllocError` if memory was refused.
    pub fn new(
        alloc: Global,
        main: Before,
        beside: Before,
        journal: Before,
    ) -> Result<MemoryFolder, AllocError>
        ensures main { IfOk result (λ folder. HasBefore main Main (disk_of folder)) }
        ensures beside { IfOk result (λ folder. HasBefore beside New (disk_of folder)) }
        ensures journal { IfOk result (λ folder. HasBefore journal Journal (disk_of folder)) }
        ensures apart { IfOk result (λ folder. AreApart (disk_of folder)) }
        ensures moments { IfOk result (λ folder. moments_of folder ≡ 0) }
    {
        let (at_main, first) = main.put(alloc, 0);
        let (at_new, second) = beside.put(alloc, 1);
        let (at_journal, third) = journal.put(alloc, 2);
        let files = vec![in alloc; first, second, third]?;
        let start = Start {
            at_main,
            at_new,
            at_journal,
            files,
        };
        Ok(MemoryFolder {
            alloc,
            start,
            events: Vec::new(alloc),
            next: 3,
        })
    }

    /// How many moments there were: one for each call that changed something, and for each sync.
    pub fn moments(&self) -> usize
        ensures { result ≡ moments_of self.now }
    {
        self.events.len()
    }

    /// One of the folders that a power cut may leave, behind so many moments. Each of them takes the next fate, and an empty one if there
    /// are no more. A write leaves its fate's bytes in the front of its range, and what was there in the rest; a clearing as many bytes as
    /// its fate has; a creation, a renaming and a removal leave FILE, FILE.new and FILE.journal as after it if the first, the second and
    /// the third byte isn't 0, and as before if it is. A sync leaves what is read, whatever was left before it.
    ///
    /// # Errors
    ///
    /// `AllocError` if memory was refused.
    pub fn cut(&self, moment: usize, fates: &[Vec<u8>]) -> Result<MemoryFolder, AllocError>
        ensures left { IfOk result (λ folder. MayLeaveAt self.now moment (disk_of folder)) }
        ensures moments { IfOk result (λ folder. moments_of folder ≡ 0) }
    {
        let events = &self.events[..moment.min(self.events.len())];
        let (at_main, at_new, at_journal) = (
            standing_after(&self.start, events, Name::Main, fates).1,
            standing_after(&self.start, events, Name::New, fates).1,
            standing_after(&self.start, events, Name::Journal, fates).1,
        );
        let mut files = Vec::new(self.alloc);
        for file in 0..self.next {
            let (_, bytes) = bytes_after(self.alloc, &self.start, events, file, fates)?;
            let (_, elsewhere) = self.start.file(file);
            files.push(Stored { bytes, elsewhere })?;
        }
        let start = Start {
            at_main,
            at_new,
            at_journal,
            files,
        };
        Ok(MemoryFolder {
            alloc: self.alloc,
            start,
            events: Vec::new(self.alloc),
            next: self.next,
        })
    }

    /// What stands under a name.
    fn standing(&self, name: Name) -> Standing
        ensures { stands_for result ≡ (disk_of self.now).entry name }
    {
        standing_after(&self.start, &self.events, name, &[]).0
    }

    /// Whether a name stands for this file.
    fn names(&self, name: Name, file: usize) -> bool
        ensures { IsTrue result ↔ ((disk_of self.now).entry name ≡ plain file) }
    {
        matches!(self.standing(name), Standing::File { number } if number == file)
    }

    /// The bytes of a file.
    fn bytes(&self, file: &MemoryFile) -> Result<Vec<u8>, Cause>
        ensures bytes { IfOk result (λ bytes. bytes.items ≡ (disk_of self.now).bytes file.now.number) }
        ensures cause { IfErr result IsOfSystem }
    {
        let (bytes, _) = bytes_after(self.alloc, &self.start, &self.events, file.number, &[])?;
        Ok(bytes)
    }
}

/// Adds an event to those that there are.
fn add(events: &mut Vec<Event>, event: Event) -> Result<(), Cause>
    ensures ok { OnOk result (events.new.items ≡ events.old.items ++ event ∷ []) }
    ensures err { OnErr result (events.new.items ≡ events.old.items) }
    ensures cause { IfErr result IsOfSystem }
{
    match events.push(event) {
        Ok(()) => Ok(()),
        Err(_) => Err(Cause::Full),
    }
}

impl Folder for MemoryFolder {
    ghost use Rattle.fw_ramdisk.specs.Memory.{seen_of};
    ghost use Rattle.fw_ramdisk.specs.PastLaws.{nameless, counts_now, only_now};

    type File = MemoryFile;

    ghost seen = { seen_of };

    ghost number = { λ file. file.number };

    ghost nameless = { λ folder honest. nameless folder.start (reverse folder.events.items) folder.next folder.numbered };

    ghost counts_now = { λ folder since left le now. counts_now folder.start folder.events.items since left le now };

    ghost only_now = { λ folder left now. only_now folder.start folder.events.items left now };

    fn look(&mut self, name: Name) -> Result<Found, Cause> {
        match self.standing(name) {
            Standing::Absent => Ok(Found::Absent),
            Standing::File { .. } => Ok(Found::Plain),
            Standing::Other => Ok(Found::Other),
        }
    }

    fn open(&mut self, name: Name) -> Result<MemoryFile, Cause> {
        match self.standing(name) {
            Standing::Absent => Err(Cause::Missing),
            Standing::File { number } => Ok(MemoryFile { number }),
            Standing::Other => Err(Cause::IsFolder),
        }
    }

    fn create(&mut self, name: Name) -> Result<MemoryFile, Cause> {
        match self.standing(name) {
            Standing::Absent => (),
            Standing::File { .. } | Standing::Other => return Err(Cause::Exists),
        }
        let number = self.next;
        let Some(next) = number.checked_add(1) else {
            return Err(Cause::Full);
        };
        let event = Event::Names {
            name,
            standing: Standing::File { number },
            gone: None,
        };
        add(&mut self.events, event)?;
        self.next = next;
        Ok(MemoryFile { number })
    }

    fn is_alone(&mut self, name: Name, file: &MemoryFile) -> Result<bool, Cause> {
        let number = file.number;
        let another = (!name.is(Name::Main) && self.names(Name::Main, number))
            || (!name.is(Name::New) && self.names(Name::New, number))
            || (!name.is(Name::Journal) && self.names(Name::Journal, number));
        let (_, elsewhere) = self.start.file(number);
        Ok(self.names(name, number) && !another && !elsewhere)
    }

    fn is_twice(&mut self, file: &MemoryFile) -> Result<bool, Cause> {
        let number = file.number;
        let (_, elsewhere) = self.start.file(number);
        Ok(
            self.names(Name::Main, number)
                && self.names(Name::New, number)
                && !self.names(Name::Journal, number)
                && !elsewhere,
        )
    }

    fn len(&mut self, file: &MemoryFile) -> Result<u64, Cause> {
        Ok(self.bytes(file)?.len() as u64)
    }

    fn read_at(&mut self, file: &MemoryFile, at: u64, out: &mut [u8]) -> Result<(), Cause> {
        let bytes = self.bytes(file)?;
        let at = at as usize;
        if at > bytes.len() || out.len() > bytes.len() - at {
            return Err(PAST_THE_END);
        }
        out.copy_from_slice(&bytes[at..at + out.len()]);
        Ok(())
    }

    fn write_at(&mut self, file: &MemoryFile, at: u64, bytes: &[u8]) -> Result<(), Cause> {
        let file = file.number;
        if file >= self.next {
            return Err(NOT_OPEN);
        }
        let bytes = bytes.to_vec(self.alloc)?;
        add(&mut self.events, Event::Write { file, at, bytes })
    }

    fn clear(&mut self, file: &MemoryFile) -> Result<(), Cause> {
        let file = file.number;
        if file >= self.next {
            return Err(NOT_OPEN);
        }
        add(&mut self.events, Event::Clear { file })
    }

    fn copy_permissions(&mut self, _from: &MemoryFile, _to: &MemoryFile) -> Result<(), Cause> {
        Ok(())
    }

    fn sync(&mut self, file: &MemoryFile) -> Result<(), Cause> {
        add(&mut self.events, Event::Sync { file: file.number })
    }

    fn rename(&mut self, from: Name, to: Name) -> Result<(), Cause> {
        let standing = self.standing(from);
        if let Standing::Absent = standing {
            return Err(Cause::Missing);
        }
        if to.is(from) {
            return Ok(());
        }
        let event = Event::Names {
            name: to,
            standing,
            gone: Some(from),
        };
        add(&mut self.events, event)
    }

    fn remove(&mut self, name: Name) -> Result<(), Cause> {
        if let Standing::Absent = self.standing(name) {
            return Err(Cause::Missing);
        }
        let event = Event::Names {
            name,
            standing: Standing::Absent,
            gone: None,
        };
        add(&mut self.events, event)
    }

    fn sync_folder(&mut self) -> Result<(), Cause> {
        add(&mut self.events, Event::SyncNames)
    }
}
