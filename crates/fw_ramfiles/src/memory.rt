//! The files of a store in memory.

ghost use Rattle.std.specs.Prelude.{◌≡◌, ◌++◌, [], ◌∷◌, IfOk, OnOk, OnErr, reverse};
ghost use Rattle.fw_cuts.specs.Both.{of};

use crate::past::{Event, bytes_after};
use fw_cuts::{FilesFault, Part, StoreFiles};
use std::alloc::{AllocError, Global};

/// The files of a store in memory, for tests: they keep what was done to them. They are honest. A call fails only if memory is refused, or
/// where there are no bytes to read.
#[derive(Drop)]
pub struct MemoryFiles {
    alloc: Global,
    store: Vec<u8>,
    journal: Vec<u8>,
    events: Vec<Event>,
}

impl MemoryFiles {
    ghost use Rattle.fw_ramfiles.specs.Memory.{held_of, moments_of};

    /// Files with these bytes, all of them on the disk.
    pub fn new(alloc: Global, store: Vec<u8>, journal: Vec<u8>) -> MemoryFiles
        ensures store { (held_of result).store ≡ store.items }
        ensures journal { (held_of result).journal ≡ journal.items }
        ensures moments { moments_of result ≡ 0 }
    {
        MemoryFiles {
            alloc,
            store,
            journal,
            events: Vec::new(alloc),
        }
    }

    /// How many moments there were: one for each call that changed something, and for each sync.
    pub fn moments(&self) -> usize
        ensures { result ≡ moments_of self.now }
    {
        self.events.len()
    }

    /// The bytes of a file.
    ///
    /// # Errors
    ///
    /// `AllocError` if memory was refused.
    pub fn bytes(&self, part: Part) -> Result<Vec<u8>, AllocError>
        ensures { IfOk result (λ bytes. bytes.items ≡ of part (held_of self.now)) }
    {
        match part {
            Part::Store => bytes_after(self.alloc, &self.store, &self.events, part),
            Part::Journal => bytes_after(self.alloc, &self.journal, &self.events, part),
        }
    }
}

/// Adds an event to those that there are.
fn add(events: &mut Vec<Event>, event: Event) -> Result<(), FilesFault>
    ensures ok { OnOk result (events.new.items ≡ events.old.items ++ event ∷ []) }
    ensures err { OnErr result (events.new.items ≡ events.old.items) }
{
    match events.push(event) {
        Ok(()) => Ok(()),
        Err(_) => Err(FilesFault),
    }
}

impl StoreFiles for MemoryFiles {
    ghost use Rattle.std.specs.Prelude.{true};
    ghost use Rattle.fw_ramfiles.specs.Memory.{start_of, seen_of};
    ghost use Rattle.fw_ramfiles.specs.PastLaws.{held_left, counts_now, only_now};

    ghost honest = { true };

    ghost seen = { seen_of };

    ghost reads_may_be_left = { λ honest f. held_left (start_of f) (reverse f.events.items) };

    ghost lost_is_there = { λ honest f part i lost. absurd lost };

    ghost counts_now = { λ f since left le now. counts_now (start_of f) f.events.items since left le now };

    ghost only_now = { λ f left now. only_now (start_of f) f.events.items left now };

    fn len(&mut self, part: Part) -> Result<u64, FilesFault> {
        match self.bytes(part) {
            Ok(bytes) => Ok(bytes.len() as u64),
            Err(_) => Err(FilesFault),
        }
    }

    fn set_len(&mut self, part: Part, len: u64) -> Result<(), FilesFault> {
        add(&mut self.events, Event::Resize { part, len })
    }

    fn read_at(&mut self, part: Part, at: u64, out: &mut [u8]) -> Result<(), FilesFault> {
        let Ok(bytes) = self.bytes(part) else {
            return Err(FilesFault);
        };
        let at = at as usize;
        if at > bytes.len() || out.len() > bytes.len() - at {
            return Err(FilesFault);
        }
        out.copy_from_slice(&bytes[at..at + out.len()]);
        Ok(())
    }

    fn write_at(&mut self, part: Part, at: u64, bytes: &[u8]) -> Result<(), FilesFault> {
        let Ok(bytes) = bytes.to_vec(self.alloc) else {
            return Err(FilesFault);
        };
        add(&mut self.events, Event::Write { part, at, bytes })
    }

    fn sync(&mut self, part: Part) -> Result<(), FilesFault> {
        add(&mut self.events, Event::Sync { part })
    }
}
