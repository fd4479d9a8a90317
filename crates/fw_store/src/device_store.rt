//! A store over a device of bytes.

ghost use Rattle.std.specs.Prelude.{
  false,
  ◌≡◌,
  ◌≢◌,
  ◌+◌,
  ◌-◌,
  ◌≤◌,
  ◌++◌,
  ℕ,
  IsTrue,
  IsOk,
  IfOk,
  IfErr,
  IsErrOf,
  IfSome,
  IfNone,
  OnOk,
  OnErr,
  is_ok,
  length,
  replicate,
  slice_range,
  take,
  drop,
};
ghost use Rattle.std.specs.Int.{w32, to_be_bytes};
ghost use Rattle.fw_store.specs.Faults.{count_after};
ghost use Rattle.fw_store.specs.Contents.{KeepsDevice};
ghost use Rattle.fw_store.specs.Setup.{IsCapacity, IsSetup};
ghost use Rattle.fw_store.specs.Refusals.{IsCreateRefusal, IsReopenRefusal};
ghost use Rattle.fw_store.specs.StoreBytes.{
  IsStore,
  HoldsStore,
  device_at,
  has_room,
  known_on,
  old_store_size,
  slot_start,
  store_bytes,
  store_size,
};
ghost use Rattle.fw_store.specs.Sizes.{IsBlank, IsLaidOut, stored_size, tail_of};
ghost use Rattle.fw_store.specs.Device.{padded, with_head};
ghost use Rattle.fw_store.specs.Fresh.{fresh_device};
ghost use Rattle.fw_store.specs.Versions.{bytes_of, version_of};
ghost use Rattle.fw_store.specs.declared.tail.Tail.{Tail};

use crate::device::{ByteDevice, DeviceFault};
use crate::error::{FileStoreError, StoreFault};
use crate::setup::{fresh_bytes, is_setup};
use crate::slot::Slot;
use crate::store::ImageStore;
use crate::tail::{HEADER_AT, SLOTS_AT, Tail, store_size, tail_at};
use crate::version::{HeaderBytes, HeaderVersion, VERSION_ONE_SIZE, VERSION_TWO_SIZE};
use fw_blocks::is_image_size;
use fw_cuts::FRONT_SIZE;

/// A store that a device of bytes holds: its capacity in four bytes, high byte first, the first 614 bytes of the header, the first slot
/// and the second one, and the other bytes of the header: the releases, and in version 2 the marks of the blocks from 4,096 on. A store
/// that ends with its slots has a header of version 1, whose releases are 0. A header write gives the store the length of the version
/// that it writes. The store is honest where the device is, and sound where the device is and has room for a header of version 2.
#[derive(Drop)]
pub struct DeviceStore<D: ByteDevice> {
    device: D,
    capacity: u32,
    /// What stands after the slots.
    tail: Tail,
    fault_count: u64,
    ghost laid_out: { IsTrue (D.honest device) → IsLaidOut tail capacity (D.contents device) },
}

/// What the bytes of a device are: a store of this capacity, with this after its slots.
#[derive(Clone, Copy)]
struct Found {
    capacity: u32,
    tail: Tail,
}

impl Found {
    /// What `len` bytes are that begin with this capacity, if they are a store.
    fn of(capacity: u32, len: u64) -> Option<Found>
        ensures capacity { IfSome result (λ found. found.capacity ≡ capacity) }
        ensures room { IfSome result (λ found. IsCapacity found.capacity) }
        ensures size { IfSome result (λ found. len ≡ stored_size found.tail found.capacity) }
        ensures none { IfNone result (IsCapacity capacity → (tail : Tail) → len ≢ stored_size tail capacity) }
    {
        if !is_image_size(capacity) {
            return None;
        }
        let tail = Tail::of_len(len, capacity)?;
        Some(Found { capacity, tail })
    }
}

impl<D: ByteDevice + Drop> DeviceStore<D> {
    ghost use Rattle.std.specs.Prelude.{◌&&◌};

    /// A new store on a device, in place of what it holds, with a header of version 2: the factory image is in its first slot, with
    /// zeros after it and in the other one. `capacity` is the size of a slot in bytes, 1 to 16,777,216, and `block_size` that of a
    /// block, 1 to 1,024. The image has 1 to `capacity` bytes.
    ///
    /// # Errors
    ///
    /// `BadSetup` if one of these doesn't hold, and the device is as it was. Otherwise `StoreFault` alone, if the
    /// device failed, or has no room for the store. It may then have any bytes.
    pub fn create_on(
        mut device: D,
        capacity: u32,
        block_size: u32,
        factory: &[u8],
    ) -> Result<DeviceStore<D>, FileStoreError>
        ensures fresh { IsTrue (D.honest device) → IfOk result (λ store. (⟦<DeviceStore<D> as ImageStore>⟧.known store).device
            ≡ fresh_device HeaderVersion.Two block_size capacity factory.now) }
        ensures size { IfOk result (λ store. (⟦<DeviceStore<D> as ImageStore>⟧.known store).capacity ≡ capacity) }
        ensures honesty { IfOk result (λ store. (⟦<DeviceStore<D> as ImageStore>⟧.known store).honest ≡ D.honest device) }
        ensures soundness { IsTrue (D.sound device)
            → IfOk result (λ store. IsTrue (⟦<DeviceStore<D> as ImageStore>⟧.known store).sound) }
        ensures faultless { IfOk result (λ store. (⟦<DeviceStore<D> as ImageStore>⟧.known store).faults ≡ 0) }
        ensures setup { OnOk result (IsSetup HeaderVersion.Two block_size capacity factory.now) }
        ensures bad_setup { IsErrOf result FileStoreError.BadSetup → ¬ IsSetup HeaderVersion.Two block_size capacity factory.now }
        ensures fault { IsErrOf result FileStoreError.StoreFault → IsSetup HeaderVersion.Two block_size capacity factory.now }
        ensures refusals { IfErr result IsCreateRefusal }

        // A sound device that has room for the store doesn't fail.
        ensures never { IsTrue (D.sound device) → store_size HeaderVersion.Two capacity ≤ D.room device
            → ¬ IsErrOf result FileStoreError.StoreFault }

        // All of the header is there.
        ensures whole { IsTrue (D.honest device) → IfOk result (λ store. D.contents store.device
            ≡ store_bytes capacity (fresh_device HeaderVersion.Two block_size capacity factory.now)) }
    {
        let version = HeaderVersion::Two;
        if !is_setup(version, capacity, block_size, factory) {
            return Err(FileStoreError::BadSetup);
        }
        let head = fresh_bytes(version, block_size, factory);
        lay_out(&mut device, capacity, &head, factory)?;
        Ok(DeviceStore {
            device,
            capacity,
            tail: Tail::of_version(version),
            fault_count: 0,
        })
    }

    /// The store that was laid out on a device, with a header of version 2.
    pub(crate) fn laid_on(device: D, capacity: u32) -> DeviceStore<D>
        requires { IsTrue (D.honest device) → IsLaidOut Tail.Marks capacity (D.contents device) }
        ensures size { (⟦<DeviceStore<D> as ImageStore>⟧.known result).capacity ≡ capacity }
        ensures faultless { (⟦<DeviceStore<D> as ImageStore>⟧.known result).faults ≡ 0 }
    {
        DeviceStore {
            device,
            capacity,
            tail: Tail::Marks,
            fault_count: 0,
        }
    }

    /// The store that a device holds, with a header of either version, or of version 1 without releases. Its length says which.
    ///
    /// # Errors
    ///
    /// `StoreFault` if the device failed, and `BadFile` if its bytes don't begin with a capacity of 1 to 16,777,216,
    /// or aren't as many as those of a store of that capacity.
    pub fn reopen_on(mut device: D) -> Result<DeviceStore<D>, FileStoreError>
        ensures store { IsTrue (D.honest device)
            → IfOk result (λ store. IsStore (D.contents device) (⟦<DeviceStore<D> as ImageStore>⟧.known store).capacity) }
        ensures device { IsTrue (D.honest device)
            → IfOk result (λ store. (⟦<DeviceStore<D> as ImageStore>⟧.known store).device
            ≡ device_at (⟦<DeviceStore<D> as ImageStore>⟧.known store).capacity (D.contents device)) }
        ensures size { IfOk result (λ store. IsCapacity (⟦<DeviceStore<D> as ImageStore>⟧.known store).capacity) }
        ensures honesty { IfOk result (λ store. (⟦<DeviceStore<D> as ImageStore>⟧.known store).honest ≡ D.honest device) }
        ensures soundness { IsTrue (D.sound device) → IfOk result (λ store. (⟦<DeviceStore<D> as ImageStore>⟧.known store).sound
            ≡ has_room (D.room device) (⟦<DeviceStore<D> as ImageStore>⟧.known store).capacity) }
        ensures faultless { IfOk result (λ store. (⟦<DeviceStore<D> as ImageStore>⟧.known store).faults ≡ 0) }

        // It is refused exactly if these bytes are no store, or if the device failed.
        ensures bad_file { IsErrOf result FileStoreError.BadFile
            → IsTrue (D.honest device) → (capacity : ℕ) → ¬ IsStore (D.contents device) capacity }
        ensures refusals { IfErr result IsReopenRefusal }
        ensures never { IsTrue (D.sound device) → ¬ IsErrOf result FileStoreError.StoreFault }
    {
        let Some(found) = find(&mut device)? else {
            return Err(FileStoreError::BadFile);
        };
        Ok(DeviceStore {
            device,
            capacity: found.capacity,
            tail: found.tail,
            fault_count: 0,
        })
    }

    /// The device, which holds the store.
    pub fn into_device(self) -> D
        ensures store { IsTrue (⟦<DeviceStore<D> as ImageStore>⟧.known self).honest → HoldsStore (D.contents result)
            (⟦<DeviceStore<D> as ImageStore>⟧.known self).capacity (⟦<DeviceStore<D> as ImageStore>⟧.known self).device }
        ensures honesty { D.honest result ≡ (⟦<DeviceStore<D> as ImageStore>⟧.known self).honest }
        ensures soundness { (⟦<DeviceStore<D> as ImageStore>⟧.known self).sound ≡ (D.sound result
            && has_room (D.room result) (⟦<DeviceStore<D> as ImageStore>⟧.known self).capacity) }
    {
        let DeviceStore {
            device,
            capacity: _,
            tail: _,
            fault_count: _,
        } = self;
        device
    }
}

/// The store's answer to a call of its device. A refusal is counted.
fn answer<T>(outcome: Result<T, DeviceFault>, faults: &mut u64) -> Result<T, StoreFault>
    ensures through { is_ok result ≡ is_ok outcome }
    ensures same { IfOk result (λ value. outcome ≡ Ok value) }
    ensures counts { faults.new ≡ count_after (is_ok result) faults.old }
    ensures later { faults.old ≤ faults.new }
{
    match outcome {
        Ok(value) => Ok(value),
        Err(_) => {
            *faults = faults.saturating_add(1);
            Err(StoreFault)
        }
    }
}

/// Where a place in a slot is on the device.
fn place(capacity: u32, slot: Slot, at: u32) -> u64
    ensures { result ≡ slot_start capacity slot + at }
{
    let start = match slot {
        Slot::First => SLOTS_AT,
        Slot::Second => SLOTS_AT + u64::from(capacity),
    };
    start + u64::from(at)
}

/// The store that the bytes of a device are, if they are one.
fn find<D: ByteDevice>(device: &mut D) -> Result<Option<Found>, DeviceFault>
    ensures found { IfOk result (λ answer. IfSome answer (λ found. IsCapacity found.capacity)) }
    ensures store { IsTrue (D.honest device.old) → IfOk result (λ answer.
        IfSome answer (λ found. IsLaidOut found.tail found.capacity (D.contents device.old))) }
    ensures none { IsTrue (D.honest device.old)
        → IfOk result (λ answer. IfNone answer ((capacity : ℕ) → ¬ IsStore (D.contents device.old) capacity)) }
    ensures same { IsTrue (D.honest device.old) → D.contents device.new ≡ D.contents device.old }
    ensures kept { KeepsDevice D.honest D.sound D.room device.old device.new }
    ensures never { IsTrue (D.sound device.old) → IsOk result }
{
    let len = device.len()?;
    if len < SLOTS_AT {
        return Ok(None);
    }
    let mut bytes = [0; 4];
    device.read_at(0, &mut bytes)?;
    let capacity = number(bytes);
    Ok(Found::of(capacity, len))
}

/// Whether `len` bytes that begin with this capacity are a store.
pub(crate) fn is_store(capacity: u32, len: u64) -> bool
    ensures some { IsTrue result → (tail : Tail) × (len ≡ stored_size tail capacity) }
    ensures none { result ≡ false → IsCapacity capacity → (tail : Tail) → len ≢ stored_size tail capacity }
{
    Found::of(capacity, len).is_some()
}

/// The number whose bytes these are, high byte first.
pub(crate) fn number(bytes: [u8; 4]) -> u32
    ensures { to_be_bytes w32 result ≡ bytes }
{
    u32::from_be_bytes(bytes)
}

/// Leaves zeros of this length in bytes on a device, and nothing else.
fn clear<D: ByteDevice>(device: &mut D, len: u64) -> Result<(), DeviceFault>
    ensures done { IsTrue (D.honest device.old) → OnOk result (D.contents device.new ≡ replicate len 0) }
    ensures kept { KeepsDevice D.honest D.sound D.room device.old device.new }
    ensures within { IsTrue (D.sound device.old) → OnOk result (len ≤ D.room device.old) }
    ensures never { IsTrue (D.sound device.old) → len ≤ D.room device.old → IsOk result }
{
    device.set_len(0)?;
    device.set_len(len)
}

/// Lays out a store on a device, in place of what it holds: this header, the image in the first slot, and zeros behind it
/// and in the other slot. The capacity comes last, after all else, so that what is cut short is no store.
fn lay_out<D: ByteDevice>(
    device: &mut D,
    capacity: u32,
    head: &HeaderBytes,
    image: &[u8],
) -> Result<(), DeviceFault>
    requires { length image.now ≤ capacity }
    ensures done { IsTrue (D.honest device.old) → OnOk result (D.contents device.new
        ≡ store_bytes capacity (record { head = bytes_of head.now; first = padded image.now capacity; second = replicate capacity 0 })) }
    ensures kept { KeepsDevice D.honest D.sound D.room device.old device.new }
    ensures within { IsTrue (D.sound device.old)
        → OnOk result (store_size (version_of head.now) capacity ≤ D.room device.old) }
    ensures never { IsTrue (D.sound device.old)
        → store_size (version_of head.now) capacity ≤ D.room device.old → IsOk result }
{
    clear(device, store_size(head.version(), capacity))?;
    write_behind(device, capacity, head, image)?;
    device.replace_at(0, &capacity.to_be_bytes())
}

/// Writes all of a store but its capacity on a device that has as many bytes, with zeros behind the first four: this header, and the
/// image in the first slot.
pub(crate) fn write_behind<D: ByteDevice>(
    device: &mut D,
    capacity: u32,
    head: &HeaderBytes,
    image: &[u8],
) -> Result<(), DeviceFault>
    requires fits { length image.now ≤ capacity }
    requires blank { IsTrue (D.honest device.old) → IsBlank (store_size (version_of head.now) capacity) (D.contents device.old) }
    ensures done { IsTrue (D.honest device.old) → OnOk result (D.contents device.new ≡ take 4 (D.contents device.old) ++ drop 4
        (store_bytes capacity (record { head = bytes_of head.now; first = padded image.now capacity; second = replicate capacity 0 }))) }
    ensures kept { KeepsDevice D.honest D.sound D.room device.old device.new }
    ensures never { IsTrue (D.sound device.old) → IsOk result }
{
    device.write_at(SLOTS_AT, image)?;
    let (front, last) = head.as_slice().split_at(FRONT_SIZE);
    device.write_at(HEADER_AT, front)?;
    device.write_at(tail_at(capacity), last)
}

/// Reads the header of a store on a device.
fn read_header<D: ByteDevice>(
    device: &mut D,
    capacity: u32,
    tail: Tail,
) -> Result<HeaderBytes, DeviceFault>
    requires { IsTrue (D.honest device.old) → IsLaidOut tail capacity (D.contents device.old) }
    ensures done { IsTrue (D.honest device.old)
        → IfOk result (λ bytes. bytes_of bytes ≡ (device_at capacity (D.contents device.old)).head) }
    ensures same { IsTrue (D.honest device.old) → D.contents device.new ≡ D.contents device.old }
    ensures kept { KeepsDevice D.honest D.sound D.room device.old device.new }
    ensures never { IsTrue (D.sound device.old) → IsOk result }
{
    let mut one = [0; VERSION_ONE_SIZE];
    match tail {
        Tail::Empty => {
            device.read_at(HEADER_AT, &mut one[..FRONT_SIZE])?;
            Ok(HeaderBytes::One(one))
        }
        Tail::Releases => {
            read_parts(device, capacity, &mut one)?;
            Ok(HeaderBytes::One(one))
        }
        Tail::Marks => {
            let mut two = [0; VERSION_TWO_SIZE];
            read_parts(device, capacity, &mut two)?;
            Ok(HeaderBytes::Two(two))
        }
    }
}

/// Reads what stands before the slots of a store on a device, except the capacity, and what stands after them.
fn read_parts<D: ByteDevice>(
    device: &mut D,
    capacity: u32,
    out: &mut [u8],
) -> Result<(), DeviceFault>
    requires front { FRONT_SIZE ≤ length out.old }
    requires there { IsTrue (D.honest device.old)
        → old_store_size capacity + (length out.old - FRONT_SIZE) ≤ length (D.contents device.old) }
    ensures done { IsTrue (D.honest device.old) → OnOk result (out.new
        ≡ slice_range (D.contents device.old) HEADER_AT SLOTS_AT
        ++ slice_range (D.contents device.old) (old_store_size capacity) (old_store_size capacity + (length out.old - FRONT_SIZE))) }
    ensures same { IsTrue (D.honest device.old) → D.contents device.new ≡ D.contents device.old }
    ensures kept { KeepsDevice D.honest D.sound D.room device.old device.new }
    ensures never { IsTrue (D.sound device.old) → IsOk result }
{
    let (front, last) = out.split_at_mut(FRONT_SIZE);
    device.read_at(HEADER_AT, front)?;
    device.read_at(tail_at(capacity), last)
}

/// Replaces the header of a store on a device by one of either version.
fn replace_header<D: ByteDevice>(
    device: &mut D,
    capacity: u32,
    bytes: &HeaderBytes,
) -> Result<(), DeviceFault>
    requires { IsTrue (D.honest device.old) → IsStore (D.contents device.old) capacity }
    ensures done { IsTrue (D.honest device.old) → OnOk result (device_at capacity (D.contents device.new)
        ≡ with_head (device_at capacity (D.contents device.old)) (bytes_of bytes.now)) }
    ensures laid_out { IsTrue (D.honest device.old)
        → OnOk result (IsLaidOut (tail_of (version_of bytes.now)) capacity (D.contents device.new)) }
    ensures same { IsTrue (D.honest device.old) → OnErr result (D.contents device.new ≡ D.contents device.old) }
    ensures kept { KeepsDevice D.honest D.sound D.room device.old device.new }
    ensures never { IsTrue (D.sound device.old)
        → store_size (version_of bytes.now) capacity ≤ D.room device.old → IsOk result }
{
    let (front, last) = bytes.as_slice().split_at(FRONT_SIZE);
    device.replace_both(HEADER_AT, front, tail_at(capacity), last)
}

// Of a device no fuse is known.
impl<D: ByteDevice> ImageStore for DeviceStore<D> {
    ghost use Rattle.std.specs.Prelude.{◌&&◌, None};
    ghost use Rattle.fw_store.specs.Faults.{Keeps, HasCause, Spends};
    ghost use Rattle.fw_store.specs.Sizes.{slot_size};

    ghost known = { λ s. known_on (D.honest s.device) (D.sound s.device) (D.room s.device) (D.contents s.device)
        s.capacity s.fault_count };

    ghost sized = { λ s slot h. slot_size s.tail s.capacity (D.contents s.device) (s.laid_out h) slot };

    fn capacity(&self) -> u32 {
        self.capacity
    }

    fn faults(&self) -> u64 {
        self.fault_count
    }

    fn header(&mut self) -> Result<HeaderBytes, StoreFault> {
        let outcome = read_header(&mut self.device, self.capacity, self.tail);
        answer(outcome, &mut self.fault_count)
    }

    fn write_header(&mut self, bytes: &HeaderBytes) -> Result<(), StoreFault>
        ensures done { IsTrue (D.honest self.old.device) → OnOk result (device_at self.new.capacity (D.contents self.new.device)
            ≡ with_head (device_at self.old.capacity (D.contents self.old.device)) (bytes_of bytes.now)) }
        ensures same { IsTrue (D.honest self.old.device) → OnErr result (device_at self.new.capacity (D.contents self.new.device)
            ≡ device_at self.old.capacity (D.contents self.old.device)) }
        ensures kept { Keeps
            (known_on (D.honest self.old.device) (D.sound self.old.device) (D.room self.old.device) (D.contents self.old.device)
            self.old.capacity self.old.fault_count)
            (known_on (D.honest self.new.device) (D.sound self.new.device) (D.room self.new.device) (D.contents self.new.device)
            self.new.capacity self.new.fault_count) }
        ensures cause { HasCause (D.sound self.old.device && has_room (D.room self.old.device) self.old.capacity)
            self.old.fault_count self.new.fault_count result }
        ensures spends { Spends 1 None None (is_ok result) }

        // All of the header is there then, and nothing after it.
        ensures whole { IsTrue (D.honest self.old.device) → OnOk result (D.contents self.new.device
            ≡ store_bytes self.new.capacity (device_at self.new.capacity (D.contents self.new.device))) }
    {
        let outcome = replace_header(&mut self.device, self.capacity, bytes);
        answer(outcome, &mut self.fault_count)?;
        self.tail = Tail::of_version(bytes.version());
        Ok(())
    }

    fn read(&mut self, slot: Slot, at: u32, out: &mut [u8]) -> Result<(), StoreFault> {
        let outcome = self.device.read_at(place(self.capacity, slot, at), out);
        answer(outcome, &mut self.fault_count)
    }

    fn write(&mut self, slot: Slot, at: u32, bytes: &[u8]) -> Result<(), StoreFault> {
        let outcome = self.device.write_at(place(self.capacity, slot, at), bytes);
        answer(outcome, &mut self.fault_count)
    }
}
