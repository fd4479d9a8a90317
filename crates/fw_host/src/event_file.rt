//! The file of a head end's events.

ghost use Rattle.std.specs.Prelude.{◌≡◌};
ghost use Rattle.fw_disk.specs.declared.name.Name.TheVariants.{Main};

use crate::capture_file::now;
use crate::event_making::{FRONT, FRONT_LEN, new_events, try_new_events};
use fw_disk::{Cause, Name, Reason, SystemFolder, open};
use fw_events::{Event, ToldRows, event_line, fault_line};
use fw_names::HeadId;
use std::alloc::{AllocError, Global};
use std::cell::Cell;
use std::fs::File;
use std::io::{BufRead, BufReader, Seek, SeekFrom};
use std::os::unix::fs::FileExt;
use std::rt::{Clock, Files};

/// The file of the events of a head end, under its lock. An event that can't be written is lost; that of a row the next run writes. Nothing
/// is known of what the file holds.
#[derive(Drop)]
pub struct EventFile {
    alloc: Global,
    file: File,
    head: HeadId,
    /// Where the next line begins.
    len: Cell<u64>,
    /// Whether the disk may lack a line.
    is_unsynced: Cell<bool>,
    /// When the next event happens, in nanoseconds since 1970 began (UTC).
    time: Cell<u64>,
    /// Why an event was lost, if one was: the last of them.
    cause: Cell<Option<Cause>>,
}

impl EventFile {
    /// Whether there is a file of events at this path that can be gone on with, or one can be made. None is.
    ///
    /// # Errors
    ///
    /// Those of `open`.
    pub fn check<R: Files<File = File>>(rt: &R, path: &str) -> Result<(), Reason> {
        let mut folder = SystemFolder::of(rt, path).map_err(refused)?;
        match open(&mut folder) {
            Ok(file) => check_front(&file).map_err(refused),
            Err(Cause::Missing) => try_new_events(&mut folder),
            Err(cause) => Err(refused(cause)),
        }
    }

    /// The file at this path, and the rows of which it tells. It is made if nothing is there, and else gone on with behind its last whole
    /// line: what a power cut left of another is cut off.
    ///
    /// # Errors
    ///
    /// Why the file can't be made, opened or read, or that it is another program's: it doesn't begin as one of events. It is left as it is.
    /// With `Name::New` it is the file beside it, as which it is made.
    pub fn open<R: Files<File = File> + Clock>(
        rt: &R,
        alloc: Global,
        path: &str,
        head: HeadId,
    ) -> Result<(EventFile, ToldRows), Reason> {
        let mut folder = SystemFolder::of(rt, path).map_err(refused)?;
        let file = match open(&mut folder) {
            Ok(file) => file,
            Err(Cause::Missing) => new_events(&mut folder)?,
            Err(cause) => return Err(refused(cause)),
        };
        match EventFile::gone_on(rt, alloc, file, head) {
            Ok(opened) => Ok(opened),
            Err(cause) => Err(refused(cause)),
        }
    }

    /// Goes on with a file behind its last whole line.
    fn gone_on<C: Clock>(
        rt: &C,
        alloc: Global,
        file: File,
        head: HeadId,
    ) -> Result<(EventFile, ToldRows), Cause> {
        check_front(&file)?;
        let mut told = ToldRows::none(alloc, head);
        let len = take_lines(alloc, &file, &mut told)?;
        file.set_len(len)?;
        file.sync_all()?;
        let events = EventFile {
            alloc,
            file,
            head,
            len: Cell::new(len),
            is_unsynced: Cell::new(false),
            time: Cell::new(now(rt)),
            cause: Cell::new(None),
        };
        Ok((events, told))
    }

    /// The events that follow happen now, by the clock of the system.
    pub fn set_time<C: Clock>(&self, rt: &C) {
        self.time.set(now(rt));
    }

    /// Why an event was lost, if one was: the last of them.
    pub fn cause(&self) -> Option<Cause> {
        self.cause.get()
    }

    /// Appends an event.
    pub fn tell(&self, event: Event) {
        self.tell_line(event_line(self.alloc, self.time.get(), self.head, event));
    }

    /// Appends that a fault of this name ended the head end.
    pub fn tell_fault(&self, name: &str) {
        self.tell_line(fault_line(self.alloc, self.time.get(), self.head, name));
    }

    /// Appends a line, if there was memory for it.
    fn tell_line(&self, line: Result<String, AllocError>) {
        match line {
            Ok(line) => self.put(line.as_bytes()),
            Err(error) => self.cause.set(Some(Cause::from(error))),
        }
    }

    /// Puts what was appended on the disk. A failure is passed over: what a power cut takes then, the next run writes.
    pub fn sync(&self) {
        if self.is_unsynced.replace(false) {
            let _ = self.file.sync_data();
        }
    }

    /// Appends a line. What a call that fails leaves of it, the next line is written over. The first line is the start, as a file of events
    /// begins: if that was lost, the others are too.
    fn put(&self, line: &[u8]) {
        let at = self.len.get();
        if at == 0 && !line.starts_with(FRONT) {
            return;
        }
        match self.file.write_all_at(line, at) {
            Ok(()) => {
                self.len.set(at.saturating_add(line.len() as u64));
                self.is_unsynced.set(true);
            }
            Err(error) => self.cause.set(Some(Cause::from(error))),
        }
    }
}

/// Why a call of FILE is refused.
fn refused(cause: Cause) -> Reason
    ensures { result ≡ record { name = Main; cause = cause } }
{
    cause.at(Name::Main)
}

/// Checks that a file has no byte, or begins as one of events, as far as it goes.
fn check_front(file: &File) -> Result<(), Cause> {
    let mut buffer = [0; FRONT_LEN];
    let len = usize::try_from(file.metadata()?.len()).unwrap_or(usize::MAX);
    let front = &mut buffer[..len.min(FRONT_LEN)];
    file.read_exact_at(front, 0)?;
    if FRONT.starts_with(front) {
        Ok(())
    } else {
        Err(Cause::Foreign)
    }
}

/// Takes the whole lines of a file, and returns where the last one ends.
fn take_lines(alloc: Global, file: &File, told: &mut ToldRows) -> Result<u64, Cause> {
    let mut reader = BufReader::new(alloc, from_start(file)?)?;
    let mut line = Vec::new(alloc);
    let mut len: u64 = 0;
    for _ in 0..u64::MAX {
        let count = read_line(&mut reader, &mut line)?;
        if count == 0 {
            return Ok(len);
        }
        if let Ok(text) = str::from_utf8(&line) {
            told.take(alloc, text)?;
        }
        len = len.saturating_add(count as u64);
    }
    Ok(len)
}

/// A file that is read from its first byte on.
fn from_start(mut file: &File) -> Result<&File, Cause> {
    file.seek(SeekFrom::Start(0))?;
    Ok(file)
}

/// Reads the next whole line, and returns how many bytes it has with its line feed, which it is left without: 0 if no whole line is left.
fn read_line<R: BufRead>(reader: &mut R, line: &mut Vec<u8>) -> Result<usize, Cause> {
    line.clear();
    let count = reader.read_until(b'\n', line)?;
    if line.pop() == Some(b'\n') {
        Ok(count)
    } else {
        Ok(0)
    }
}
