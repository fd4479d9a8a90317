//! A disk in memory with the file of a store. It can be full, or one that is only read.

ghost use Rattle.std.specs.Prelude.{false, []};

use fw_store::{ByteDevice, DeviceFault};
use std::alloc::{AllocError, Global};
use std::cell::RefCell;
use std::rc::Rc;
use std::test::Fail;

/// How many bytes a disk still takes. A write of more than these is cut there, and fails; a length takes none. One that is only read takes none of
/// either, and is `None`.
pub(crate) type Room = Option<usize>;

/// A file, and what its disk still takes.
#[derive(Drop)]
struct File {
    bytes: Vec<u8>,
    room: Room,
}

impl File {
    /// Whether its disk still takes `count` bytes.
    fn has_room(&self, count: usize) -> bool {
        match self.room {
            Some(room) => count <= room,
            None => false,
        }
    }

    fn set_len(&mut self, len: u64) -> Result<(), DeviceFault> {
        if self.room.is_none() || self.bytes.resize(len as usize, 0).is_err() {
            return Err(DeviceFault);
        }
        Ok(())
    }

    /// Writes as many of these bytes over those from `at` on as the disk takes, and fails where they aren't all.
    fn put(&mut self, at: u64, bytes: &[u8]) -> Result<(), DeviceFault> {
        let start = at as usize;
        let room = self.room.ok_or(DeviceFault)?;
        let taken = room.min(bytes.len());
        self.room = Some(room.saturating_sub(taken));
        for (at, byte) in (start..start.saturating_add(taken)).zip(bytes) {
            *self.bytes.get_mut(at).ok_or(DeviceFault)? = *byte;
        }
        if taken < bytes.len() {
            return Err(DeviceFault);
        }
        Ok(())
    }
}

/// A disk with one file.
#[derive(Drop)]
pub(crate) struct Disk {
    file: Rc<RefCell<File>>,
}

impl Disk {
    /// A disk that takes all, whose file has these bytes.
    pub(crate) fn with(alloc: Global, bytes: &[u8]) -> Result<Disk, AllocError> {
        let file = File {
            bytes: bytes.to_vec(alloc)?,
            room: Some(usize::MAX),
        };
        Ok(Disk {
            file: Rc::new(alloc, RefCell::new(file))?,
        })
    }

    /// The same disk once more, for a store on it.
    pub(crate) fn open(&self) -> Result<Disk, AllocError> {
        Ok(Disk {
            file: self.file.clone()?,
        })
    }

    /// From now on the disk has this room.
    pub(crate) fn set_room(&self, room: Room) {
        if let Ok(mut file) = self.file.try_borrow_mut() {
            file.room = room;
        }
    }

    /// The bytes of the file.
    pub(crate) fn bytes(&self, alloc: Global) -> Result<Vec<u8>, Fail> {
        match self.file.try_borrow() {
            Ok(file) => Ok(file.bytes.to_vec(alloc)?),
            Err(_) => Err("the file is being written".into()),
        }
    }
}

// What it holds is known by tests alone.
impl ByteDevice for Disk {
    ghost honest = { λ _. false };

    ghost sound = { λ _. false };

    ghost room = { λ _. 0 };

    ghost contents = { λ _. [] };

    fn len(&mut self) -> Result<u64, DeviceFault> {
        match self.file.try_borrow() {
            Ok(file) => Ok(file.bytes.len() as u64),
            Err(_) => Err(DeviceFault),
        }
    }

    fn set_len(&mut self, len: u64) -> Result<(), DeviceFault> {
        match self.file.try_borrow_mut() {
            Ok(mut file) => file.set_len(len),
            Err(_) => Err(DeviceFault),
        }
    }

    fn read_at(&mut self, at: u64, out: &mut [u8]) -> Result<(), DeviceFault> {
        let Ok(file) = self.file.try_borrow() else {
            return Err(DeviceFault);
        };
        let start = at as usize;
        let end = start.saturating_add(out.len());
        out.copy_from_slice(file.bytes.get(start..end).ok_or(DeviceFault)?);
        Ok(())
    }

    fn write_at(&mut self, at: u64, bytes: &[u8]) -> Result<(), DeviceFault> {
        match self.file.try_borrow_mut() {
            Ok(mut file) => file.put(at, bytes),
            Err(_) => Err(DeviceFault),
        }
    }

    fn replace_at(&mut self, at: u64, bytes: &[u8]) -> Result<(), DeviceFault> {
        match self.file.try_borrow_mut() {
            Ok(mut file) if file.has_room(bytes.len()) => file.put(at, bytes),
            _ => Err(DeviceFault),
        }
    }

    /// Writes bytes over those from `at` on, and others in place of all from `last_at` on, with which the file ends then: all of them or
    /// none.
    fn replace_both(
        &mut self,
        at: u64,
        bytes: &[u8],
        last_at: u64,
        last: &[u8],
    ) -> Result<(), DeviceFault> {
        match self.file.try_borrow_mut() {
            Ok(mut file) if file.has_room(bytes.len().saturating_add(last.len())) => {
                file.set_len(last_at.saturating_add(last.len() as u64))?;
                file.put(at, bytes)?;
                file.put(last_at, last)
            }
            _ => Err(DeviceFault),
        }
    }
}
