//! A device in memory, with a fuse that makes it fail.

ghost use Rattle.std.specs.Prelude.{◌≡◌, ◌≤◌, [], ◌∷◌, ◌++◌, length, IfOk, OnOk, OnErr};
ghost use Rattle.fw_journal.specs.Device.{splice};

use crate::device::JournalDevice;
use crate::disk::{Change, Disk, shortened, spliced};
use crate::error::{DeviceError, ReplaceError};
use crate::fuse::{Fuse, burn, torn_byte, torn_bytes};
use crate::keeping::Keeper;
use crate::replacing::Replacer;
use std::alloc::{AllocError, Global};

/// A device in memory, for tests: it keeps what it held at each moment. A power cut leaves what is read, or any bytes in the range of each
/// write since the last sync. A call fails only if a fuse makes it fail, or if memory is refused.
#[derive(Drop)]
pub struct MemoryDevice {
    alloc: Global,
    disk: Disk,
    past: Vec<Disk>,
    fuse: Option<Fuse>,
}

impl MemoryDevice {
    ghost use Rattle.std.specs.Prelude.{Some, None};
    ghost use Rattle.fw_journal.specs.Memory.{held_of, bytes_of, past_of, fuse_of, KeepsAllButFuse};

    /// A device with these bytes, all of them synced. No fuse is set.
    ///
    /// # Errors
    ///
    /// `AllocError` if memory was refused.
    pub fn new(alloc: Global, bytes: Vec<u8>) -> Result<MemoryDevice, AllocError>
        ensures held { IfOk result (λ m. held_of m ≡ record { bytes = bytes.items; synced = bytes.items; changes = [] }) }
        ensures past { IfOk result (λ m. past_of m ≡ []) }
        ensures unfused { IfOk result (λ m. fuse_of m ≡ None) }
    {
        Ok(MemoryDevice {
            alloc,
            disk: Disk::new(alloc, bytes)?,
            past: Vec::new(alloc),
            fuse: None,
        })
    }

    /// What reads give.
    pub fn bytes(&self) -> &[u8]
        ensures { result.now ≡ bytes_of self.now }
    {
        self.disk.bytes()
    }

    /// What it holds, of which a power cut leaves a part.
    pub fn disk(&self) -> &Disk
        ensures { result.now ≡ held_of self.now }
    {
        &self.disk
    }

    /// What it held at earlier moments: one for each write, shortening and sync, in their order.
    pub fn past(&self) -> &[Disk]
        ensures { result.now ≡ past_of self.now }
    {
        &self.past
    }

    /// The next `calls` calls of the device succeed, and all later ones fail until `unfuse`. A write that fails leaves the first half of
    /// its bytes, rounded down, and `torn` in the rest of its range; any other call that fails leaves all as it was.
    pub fn fuse(&mut self, calls: u64, torn: u8)
        ensures set { fuse_of self.new ≡ Some (record { calls = calls; torn = torn }) }
        ensures rest { KeepsAllButFuse self.old self.new }
    {
        self.fuse = Some(Fuse { calls, torn });
    }

    /// From now on no call fails.
    pub fn unfuse(&mut self)
        ensures set { fuse_of self.new ≡ None }
        ensures rest { KeepsAllButFuse self.old self.new }
    {
        self.fuse = None;
    }
}

/// Puts another disk in the place of the one that is there, which it keeps.
fn replace(
    alloc: Global,
    disk: &mut Disk,
    past: &mut Vec<Disk>,
    next: Disk,
) -> Result<(), AllocError>
    ensures ok { OnOk result (disk.new ≡ next) }
    ensures err { OnErr result (disk.new ≡ disk.old) }
    ensures past { OnOk result (past.new.items ≡ past.old.items ++ disk.old ∷ []) }
    ensures past_err { OnErr result (past.new.items ≡ past.old.items) }
{
    past.push(disk.copied(alloc)?)?;
    *disk = next;
    Ok(())
}

/// Writes bytes over those from a position on, and past the end.
fn overwrite(
    alloc: Global,
    disk: &mut Disk,
    past: &mut Vec<Disk>,
    at: u64,
    bytes: &[u8],
) -> Result<(), AllocError>
    ensures ok { at ≤ length disk.old.bytes → OnOk result (disk.new ≡ record {
      bytes = splice disk.old.bytes at bytes.now;
      synced = disk.old.synced;
      changes = disk.old.changes ++ Change.Write at (length bytes.now) ∷ [];
    }) }
    ensures err { OnErr result (disk.new ≡ disk.old) }
    ensures past { OnOk result (past.new.items ≡ past.old.items ++ disk.old ∷ []) }
    ensures past_err { OnErr result (past.new.items ≡ past.old.items) }
{
    let next = spliced(alloc, disk.bytes(), at, bytes)?;
    let size = bytes.len() as u64;
    let next = disk.changed(alloc, next, Change::Write { at, size })?;
    replace(alloc, disk, past, next)
}

/// Replaces the bytes of a device in memory, in two calls of it: the new bytes are made beside, and then they get the name of the old
/// ones. If the fuse makes the first one fail, nothing is replaced; where it makes the second one fail, the new bytes are read, and a
/// power cut may still leave the old ones.
#[derive(Drop)]
pub struct MemoryReplacer;

impl Replacer<MemoryDevice> for MemoryReplacer {
    ghost use Rattle.fw_journal.specs.Memory.{held_of};

    ghost made = { λ _ device. (held_of device).changes ≡ [] };

    fn replace(&mut self, device: &mut MemoryDevice, bytes: &[u8]) -> Result<(), ReplaceError> {
        if burn(&mut device.fuse).is_err() {
            return Err(ReplaceError::NotReplaced);
        }
        let alloc = device.alloc;
        let named = device.disk.renamed(alloc, bytes)?;
        replace(alloc, &mut device.disk, &mut device.past, named)?;
        if burn(&mut device.fuse).is_err() {
            return Err(ReplaceError::Fault);
        }
        let synced = device.disk.after_sync(alloc)?;
        Ok(replace(alloc, &mut device.disk, &mut device.past, synced)?)
    }
}

/// Keeps bytes in memory, for tests: those that it was given last.
#[derive(Drop)]
pub struct MemoryKeeper {
    alloc: Global,
    bytes: Vec<u8>,
}

impl MemoryKeeper {
    ghost use Rattle.fw_journal.specs.Memory.{kept_of};

    /// A keeper that was given nothing yet.
    pub fn new(alloc: Global) -> MemoryKeeper
        ensures { kept_of result ≡ [] }
    {
        MemoryKeeper {
            alloc,
            bytes: Vec::new(alloc),
        }
    }

    /// What it was given last.
    pub fn bytes(&self) -> &[u8]
        ensures { result.now ≡ kept_of self.now }
    {
        &self.bytes
    }
}

impl Keeper for MemoryKeeper {
    ghost use Rattle.std.specs.Prelude.{true};
    ghost use Rattle.fw_journal.specs.Memory.{kept_of};

    ghost holds = { λ keeper bytes. kept_of keeper ≡ bytes };

    ghost sound = { λ _. true };

    fn keep(&mut self, _records: usize, bytes: &[u8]) -> Result<(), DeviceError> {
        self.bytes = bytes.to_vec(self.alloc)?;
        Ok(())
    }
}

impl JournalDevice for MemoryDevice {
    ghost use Rattle.std.specs.Prelude.{true};
    ghost use Rattle.std.proofs.Common.{inl, refl};
    ghost use Rattle.fw_journal.specs.Past.{only_now};
    ghost use Rattle.fw_journal.specs.Memory.{held_of, bytes_of, past_of, is_sound, leaves, left_since};

    ghost honest = { λ _. true };

    ghost sound = { is_sound };

    ghost contents = { bytes_of };

    ghost may_leave = { leaves };

    ghost moment = { λ m. length (past_of m) };

    ghost left_since = { left_since };

    ghost counts_now = { λ m since left le now. inl now };

    ghost only_now = { λ m left now. only_now (past_of m) (held_of m) left now };

    ghost reads_may_be_left = { λ m yes. inl refl };

    fn len(&mut self) -> Result<u64, DeviceError> {
        burn(&mut self.fuse)?;
        Ok(self.disk.bytes().len() as u64)
    }

    fn read_at(&mut self, at: u64, out: &mut [u8]) -> Result<(), DeviceError> {
        burn(&mut self.fuse)?;
        let bytes = self.disk.bytes();
        let at = at as usize;
        if at > bytes.len() || out.len() > bytes.len() - at {
            return Err(DeviceError::Fault);
        }
        out.copy_from_slice(&bytes[at..at + out.len()]);
        Ok(())
    }

    fn write_at(&mut self, at: u64, bytes: &[u8]) -> Result<(), DeviceError> {
        let torn = torn_byte(&self.fuse);
        if let Err(fault) = burn(&mut self.fuse) {
            let left = torn_bytes(self.alloc, bytes, torn)?;
            overwrite(self.alloc, &mut self.disk, &mut self.past, at, &left)?;
            return Err(fault);
        }
        Ok(overwrite(self.alloc, &mut self.disk, &mut self.past, at, bytes)?)
    }

    fn shorten(&mut self, len: u64) -> Result<(), DeviceError> {
        burn(&mut self.fuse)?;
        let left = shortened(self.alloc, self.disk.bytes(), len)?;
        let next = self
            .disk
            .changed(self.alloc, left, Change::Shorten { len })?;
        Ok(replace(self.alloc, &mut self.disk, &mut self.past, next)?)
    }

    fn sync(&mut self) -> Result<(), DeviceError> {
        burn(&mut self.fuse)?;
        let next = self.disk.after_sync(self.alloc)?;
        Ok(replace(self.alloc, &mut self.disk, &mut self.past, next)?)
    }
}
