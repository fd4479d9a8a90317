//! A store in memory, with a fuse that makes it fail.

ghost use Rattle.std.specs.Prelude.{◌≡◌, ◌+◌, ◌≤◌, length, IfOk, OnOk, OnErr, is_ok, slice_range};
ghost use Rattle.fw_store.specs.Device.{slot_bytes, with_head, written, Torn};
ghost use Rattle.fw_store.specs.Faults.{Keeps, HasCause, Spends};
ghost use Rattle.fw_store.specs.Fuse.{half_torn};
ghost use Rattle.fw_store.specs.Setup.{IsCapacity};
ghost use Rattle.fw_store.specs.Versions.{bytes_of};

use crate::error::{SetupError, StoreFault};
use crate::fuse::{Fuse, burn, overwrite, tear, torn_byte};
use crate::setup::{fresh_bytes, is_setup};
use crate::slot::Slot;
use crate::store::ImageStore;
use crate::version::{HeaderBytes, HeaderVersion};
use std::alloc::{AllocError, Global};

/// A store in memory. It fails only if a fuse makes it fail, and takes memory only when it is made.
pub struct MemoryStore {
    capacity: u32,
    /// In a box, so that the store moves in few words.
    head: Box<HeaderBytes>,
    first: Vec<u8>,
    second: Vec<u8>,
    fault_count: u64,
    fuse: Option<Fuse>,
    ghost first_size: { length first.items ≡ capacity },
    ghost second_size: { length second.items ≡ capacity },
    ghost room: { IsCapacity capacity },
}

// Written out, so that letting go of it is one call in a proof. A derived `Drop` is unfolded there field by field, which takes minutes.
impl Drop for MemoryStore {
    fn drop(self) {
        let MemoryStore {
            capacity: _,
            head: _,
            first: _,
            second: _,
            fault_count: _,
            fuse: _,
        } = self;
    }
}

impl MemoryStore {
    ghost use Rattle.std.specs.Prelude.{◌↔◌, IsTrue, IsErrOf, Some, None};
    ghost use Rattle.fw_store.specs.Setup.{IsSetup};
    ghost use Rattle.fw_store.specs.Fresh.{fresh_device};
    ghost use Rattle.fw_store.specs.Memory.{device_of, capacity_of, faults_of, fuse_of, known_of, KeepsAllButFuse, IsSame};

    /// A new store, with a header of version 2: the factory image is in its first slot, with zeros after it and in the other one.
    /// `capacity` is the size of a slot in bytes, 1 to 16,777,216, and `block_size` that of a block, 1 to 1,024. The image has 1 to
    /// `capacity` bytes. No fuse is set.
    ///
    /// # Errors
    ///
    /// `BadSetup` if one of these doesn't hold, and otherwise `OutOfMemory` alone.
    pub fn new(
        alloc: Global,
        capacity: u32,
        block_size: u32,
        factory: &[u8],
    ) -> Result<MemoryStore, SetupError>
        ensures fresh { IfOk result (λ m. device_of m ≡ fresh_device HeaderVersion.Two block_size capacity factory.now) }
        ensures size { IfOk result (λ m. capacity_of m ≡ capacity) }
        ensures unfused { IfOk result (λ m. fuse_of m ≡ None) }
        ensures faultless { IfOk result (λ m. faults_of m ≡ 0) }
        ensures setup { OnOk result (IsSetup HeaderVersion.Two block_size capacity factory.now) }
        ensures bad_setup { IsErrOf result SetupError.BadSetup → ¬ IsSetup HeaderVersion.Two block_size capacity factory.now }
        ensures memory { IsErrOf result SetupError.OutOfMemory → IsSetup HeaderVersion.Two block_size capacity factory.now }
    {
        MemoryStore::with_header(HeaderVersion::Two, alloc, capacity, block_size, factory)
    }

    /// A new old store, as one was made before there was version 2: its header is of version 1, and `capacity` is 1 to 4,194,304. All
    /// else is as with `new`.
    ///
    /// # Errors
    ///
    /// `BadSetup` if one of these doesn't hold, and otherwise `OutOfMemory` alone.
    pub fn new_old(
        alloc: Global,
        capacity: u32,
        block_size: u32,
        factory: &[u8],
    ) -> Result<MemoryStore, SetupError>
        ensures fresh { IfOk result (λ m. device_of m ≡ fresh_device HeaderVersion.One block_size capacity factory.now) }
        ensures size { IfOk result (λ m. capacity_of m ≡ capacity) }
        ensures unfused { IfOk result (λ m. fuse_of m ≡ None) }
        ensures faultless { IfOk result (λ m. faults_of m ≡ 0) }
        ensures setup { OnOk result (IsSetup HeaderVersion.One block_size capacity factory.now) }
        ensures bad_setup { IsErrOf result SetupError.BadSetup → ¬ IsSetup HeaderVersion.One block_size capacity factory.now }
        ensures memory { IsErrOf result SetupError.OutOfMemory → IsSetup HeaderVersion.One block_size capacity factory.now }
    {
        MemoryStore::with_header(HeaderVersion::One, alloc, capacity, block_size, factory)
    }

    /// A new store with a header of this version.
    fn with_header(
        version: HeaderVersion,
        alloc: Global,
        capacity: u32,
        block_size: u32,
        factory: &[u8],
    ) -> Result<MemoryStore, SetupError>
        ensures fresh { IfOk result (λ m. device_of m ≡ fresh_device version block_size capacity factory.now) }
        ensures size { IfOk result (λ m. capacity_of m ≡ capacity) }
        ensures unfused { IfOk result (λ m. fuse_of m ≡ None) }
        ensures faultless { IfOk result (λ m. faults_of m ≡ 0) }
        ensures setup { OnOk result (IsSetup version block_size capacity factory.now) }
        ensures bad_setup { IsErrOf result SetupError.BadSetup → ¬ IsSetup version block_size capacity factory.now }
        ensures memory { IsErrOf result SetupError.OutOfMemory → IsSetup version block_size capacity factory.now }
    {
        if !is_setup(version, capacity, block_size, factory) {
            return Err(SetupError::BadSetup);
        }
        let bytes = fresh_bytes(version, block_size, factory);
        let head = Box::new(alloc, bytes).map_err(AllocError::from)?;
        let mut first = factory.to_vec(alloc)?;
        first.resize(capacity as usize, 0)?;
        let second = vec![in alloc; 0; capacity as usize]?;
        Ok(MemoryStore {
            capacity,
            head,
            first,
            second,
            fault_count: 0,
            fuse: None,
        })
    }

    /// A store with this header and these slots, each of as many bytes as the capacity. No fuse is set.
    ///
    /// # Errors
    ///
    /// `AllocError` if memory was refused.
    pub fn of(
        alloc: Global,
        capacity: u32,
        head: &HeaderBytes,
        first: &[u8],
        second: &[u8],
    ) -> Result<MemoryStore, AllocError>
        requires room { IsCapacity capacity }
        requires first { length first.now ≡ capacity }
        requires second { length second.now ≡ capacity }
        ensures device { IfOk result (λ m. device_of m
            ≡ record { head = bytes_of head.now; first = first.now; second = second.now }) }
        ensures size { IfOk result (λ m. capacity_of m ≡ capacity) }
        ensures unfused { IfOk result (λ m. fuse_of m ≡ None) }
        ensures faultless { IfOk result (λ m. faults_of m ≡ 0) }
    {
        let head = Box::new(alloc, *head).map_err(AllocError::from)?;
        let first = first.to_vec(alloc)?;
        let second = second.to_vec(alloc)?;
        Ok(MemoryStore {
            capacity,
            head,
            first,
            second,
            fault_count: 0,
            fuse: None,
        })
    }

    /// The same store once more, with its fuse and its count of faults. That is no call of the device.
    ///
    /// # Errors
    ///
    /// `AllocError` if memory was refused.
    pub fn copy(&self, alloc: Global) -> Result<MemoryStore, AllocError>
        ensures { IfOk result (λ copy. known_of copy ≡ known_of self.now) }
    {
        let head = Box::new(alloc, *self.head).map_err(AllocError::from)?;
        let first = self.first.as_slice().to_vec(alloc)?;
        let second = self.second.as_slice().to_vec(alloc)?;
        Ok(MemoryStore {
            capacity: self.capacity,
            head,
            first,
            second,
            fault_count: self.fault_count,
            fuse: self.fuse,
        })
    }

    /// The next `calls` calls of the device succeed, and all later ones fail until `unfuse`: `header`, `write_header`,
    /// `read` and `write` are calls of the device. A `write` that fails leaves the first half of its bytes, rounded down,
    /// and `torn` in the rest of its range.
    pub fn fuse(&mut self, calls: u64, torn: u8)
        ensures set { fuse_of self.new ≡ Some (record { calls = calls; torn = torn }) }
        ensures rest { KeepsAllButFuse self.old self.new }
    {
        self.fuse = Some(Fuse { calls, torn });
    }

    /// From now on no call fails.
    pub fn unfuse(&mut self)
        ensures set { fuse_of self.new ≡ None }
        ensures rest { KeepsAllButFuse self.old self.new }
    {
        self.fuse = None;
    }

    /// The bytes of a slot, as many as the capacity. That is no call of the device, and doesn't fail.
    pub fn slot(&self, slot: Slot) -> &[u8]
        ensures { result.now ≡ slot_bytes (device_of self.now) slot }
    {
        match slot {
            Slot::First => self.first.as_slice(),
            Slot::Second => self.second.as_slice(),
        }
    }

    /// Whether the two have the same capacity, header and slots. Their fuses and counts of faults may differ.
    pub fn same(&self, other: &MemoryStore) -> bool
        ensures { IsTrue result ↔ IsSame self.now other.now }
    {
        self.capacity == other.capacity
            && self.head.as_slice() == other.head.as_slice()
            && self.first == other.first
            && self.second == other.second
    }
}

// Each call of the device has one more clause than any store's: `fused` says exactly when it fails.
impl ImageStore for MemoryStore {
    ghost use Rattle.std.specs.Prelude.{Some};
    ghost use Rattle.fw_store.specs.declared.fuse.Fuse.{Fuse};
    ghost use Rattle.fw_store.specs.Memory.{
      device_of,
      capacity_of,
      faults_of,
      fuse_of,
      is_sound,
      known_of,
      slot_size,
      IsFused,
    };

    ghost known = { known_of };

    ghost sized = { λ m slot _. slot_size m slot };

    fn capacity(&self) -> u32 {
        self.capacity
    }

    fn faults(&self) -> u64 {
        self.fault_count
    }

    fn header(&mut self) -> Result<HeaderBytes, StoreFault>
        ensures done { IfOk result (λ bytes. bytes_of bytes ≡ (device_of self.old).head) }
        ensures same { device_of self.new ≡ device_of self.old }
        ensures kept { Keeps (known_of self.old) (known_of self.new) }
        ensures cause { HasCause (is_sound self.old) (faults_of self.old) (faults_of self.new) result }
        ensures spends { Spends 1 (fuse_of self.old) (fuse_of self.new) (is_ok result) }
        ensures fused { IsFused self.old self.new (is_ok result) }
    {
        burn(&mut self.fuse, &mut self.fault_count)?;
        Ok(*self.head)
    }

    fn write_header(&mut self, bytes: &HeaderBytes) -> Result<(), StoreFault>
        ensures done { OnOk result (device_of self.new ≡ with_head (device_of self.old) (bytes_of bytes.now)) }
        ensures same { OnErr result (device_of self.new ≡ device_of self.old) }
        ensures kept { Keeps (known_of self.old) (known_of self.new) }
        ensures cause { HasCause (is_sound self.old) (faults_of self.old) (faults_of self.new) result }
        ensures spends { Spends 1 (fuse_of self.old) (fuse_of self.new) (is_ok result) }
        ensures fused { IsFused self.old self.new (is_ok result) }
    {
        burn(&mut self.fuse, &mut self.fault_count)?;
        *self.head = *bytes;
        Ok(())
    }

    fn read(&mut self, slot: Slot, at: u32, out: &mut [u8]) -> Result<(), StoreFault>
        requires { at + length out.old ≤ capacity_of self.old }
        ensures done { OnOk result (out.new ≡ slice_range (slot_bytes (device_of self.old) slot) at (at + length out.old)) }
        ensures same { device_of self.new ≡ device_of self.old }
        ensures kept { Keeps (known_of self.old) (known_of self.new) }
        ensures cause { HasCause (is_sound self.old) (faults_of self.old) (faults_of self.new) result }
        ensures spends { Spends 1 (fuse_of self.old) (fuse_of self.new) (is_ok result) }
        ensures fused { IsFused self.old self.new (is_ok result) }
    {
        burn(&mut self.fuse, &mut self.fault_count)?;
        let at = at as usize;
        match slot {
            Slot::First => out.copy_from_slice(&self.first[at..at + out.len()]),
            Slot::Second => out.copy_from_slice(&self.second[at..at + out.len()]),
        }
        Ok(())
    }

    fn write(&mut self, slot: Slot, at: u32, bytes: &[u8]) -> Result<(), StoreFault>
        requires { at + length bytes.now ≤ capacity_of self.old }
        ensures done { OnOk result (device_of self.new ≡ written (device_of self.old) slot at bytes.now) }
        ensures torn { OnErr result (Torn (device_of self.old) slot at (length bytes.now) (device_of self.new)) }
        ensures kept { Keeps (known_of self.old) (known_of self.new) }
        ensures cause { HasCause (is_sound self.old) (faults_of self.old) (faults_of self.new) result }
        ensures spends { Spends 1 (fuse_of self.old) (fuse_of self.new) (is_ok result) }
        ensures fused { IsFused self.old self.new (is_ok result) }
        ensures halves { (set : Fuse) → fuse_of self.old ≡ Some set
            → OnErr result (device_of self.new ≡ written (device_of self.old) slot at (half_torn bytes.now set.torn)) }
    {
        let torn = torn_byte(&self.fuse);
        let passed = burn(&mut self.fuse, &mut self.fault_count);
        let at = at as usize;
        match (slot, passed) {
            (Slot::First, Ok(())) => overwrite(&mut self.first, at, bytes),
            (Slot::First, Err(_)) => tear(&mut self.first, at, bytes, torn),
            (Slot::Second, Ok(())) => overwrite(&mut self.second, at, bytes),
            (Slot::Second, Err(_)) => tear(&mut self.second, at, bytes, torn),
        }
        passed
    }
}
