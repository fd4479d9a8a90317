//! Stores in memory, from the bytes of a store.

ghost use Rattle.std.specs.Prelude.{◌≡◌, ◌≤◌, ◌+◌, ◌*◌, ◌++◌, ℕ, length, take, IfNone, IfOk, IfSome, IsErrOf};
ghost use Rattle.std.specs.Int.{w32, to_be_bytes};
ghost use Rattle.fw_store.specs.Setup.{IsCapacity};
ghost use Rattle.fw_store.specs.StoreBytes.{IsStore, device_at};
ghost use Rattle.fw_store.specs.Versions.{bytes_of};
ghost use Rattle.fw_stored.specs.Stored.{IsReadFrom};

use crate::error::StoredError;
use fw_blocks::is_image_size;
use fw_cuts::FRONT_SIZE;
use fw_store::{HeaderBytes, MemoryStore, VERSION_ONE_SIZE, VERSION_TWO_SIZE};
use std::alloc::Global;

/// Where the slots of a store begin: after its capacity and the first 614 bytes of its header.
const SLOTS_AT: usize = fw_store::SLOTS_AT as usize;

/// Where the header begins: after the capacity.
const HEADER_AT: usize = fw_store::HEADER_AT as usize;

/// How many bytes of a header of version 1 stand after the slots.
const ONE_BEHIND: usize = VERSION_ONE_SIZE - FRONT_SIZE;

/// How many bytes of a header of version 2 stand there.
const TWO_BEHIND: usize = VERSION_TWO_SIZE - FRONT_SIZE;

/// What the bytes of a store say: the size of a slot, and the header.
#[derive(Clone, Copy)]
struct Found {
    capacity: u32,
    head: HeaderBytes,
}

/// The store that these bytes are, in memory: with a header of either version, or of version 1 without releases, which are 0. No fuse is
/// set.
///
/// # Errors
///
/// `BadFile` just if they are no store, and otherwise `OutOfMemory` alone.
pub fn store_of(alloc: Global, bytes: &[u8]) -> Result<MemoryStore, StoredError>
    ensures read { IfOk result (λ store. IsReadFrom bytes.now store) }
    ensures bad_file { IsErrOf result StoredError.BadFile → (capacity : ℕ) → ¬ IsStore bytes.now capacity }
    ensures memory { IsErrOf result StoredError.OutOfMemory → (capacity : ℕ) × IsStore bytes.now capacity }
{
    let Some(found) = found_in(bytes) else {
        return Err(StoredError::BadFile);
    };
    let size = found.capacity as usize;
    let first = &bytes[SLOTS_AT..SLOTS_AT + size];
    let second = &bytes[SLOTS_AT + size..SLOTS_AT + size + size];
    match MemoryStore::of(alloc, found.capacity, &found.head, first, second) {
        Ok(store) => Ok(store),
        Err(_) => Err(StoredError::OutOfMemory),
    }
}

/// What bytes say, if they are a store.
fn found_in(bytes: &[u8]) -> Option<Found>
    ensures store { IfSome result (λ found. IsStore bytes.now found.capacity) }
    ensures within { IfSome result (λ found. 618 + 2 * found.capacity ≤ length bytes.now) }
    ensures head { IfSome result (λ found. bytes_of found.head ≡ (device_at found.capacity bytes.now).head) }
    ensures none { IfNone result ((capacity : ℕ) → ¬ IsStore bytes.now capacity) }
{
    let Some(capacity) = capacity_in(bytes) else {
        return None;
    };
    match header_in(bytes, capacity) {
        Some(head) => Some(Found { capacity, head }),
        None => None,
    }
}

/// The capacity that bytes begin with, if it is within its limits.
fn capacity_in(bytes: &[u8]) -> Option<u32>
    ensures begins { IfSome result (λ capacity. take 4 bytes.now ≡ to_be_bytes w32 capacity) }
    ensures room { IfSome result IsCapacity }
    ensures none { IfNone result ((capacity : ℕ) → ¬ IsStore bytes.now capacity) }
{
    let [a, b, c, d, ..] = bytes else {
        return None;
    };
    let capacity = u32::from_be_bytes([*a, *b, *c, *d]);
    if is_image_size(capacity) {
        Some(capacity)
    } else {
        None
    }
}

/// The header of a store of this capacity, which the bytes begin with, if they are as many as its own.
fn header_in(bytes: &[u8], capacity: u32) -> Option<HeaderBytes>
    requires begins { take 4 bytes.now ≡ to_be_bytes w32 capacity }
    requires room { IsCapacity capacity }
    ensures store { IfSome result (λ _. IsStore bytes.now capacity) }
    ensures within { IfSome result (λ _. 618 + 2 * capacity ≤ length bytes.now) }
    ensures head { IfSome result (λ head. bytes_of head ≡ (device_at capacity bytes.now).head) }
    ensures none { IfNone result ((other : ℕ) → ¬ IsStore bytes.now other) }
{
    let end = SLOTS_AT + 2 * capacity as usize;
    let len = bytes.len();
    if len == end + TWO_BEHIND {
        let mut two = [0; VERSION_TWO_SIZE];
        put_both(&mut two, &bytes[HEADER_AT..SLOTS_AT], &bytes[end..]);
        return Some(HeaderBytes::Two(two));
    }
    let mut one = [0; VERSION_ONE_SIZE];
    if len == end + ONE_BEHIND {
        put_both(&mut one, &bytes[HEADER_AT..SLOTS_AT], &bytes[end..]);
        return Some(HeaderBytes::One(one));
    }
    if len == end {
        put_both(&mut one, &bytes[HEADER_AT..SLOTS_AT], &[0; ONE_BEHIND]);
        return Some(HeaderBytes::One(one));
    }
    None
}

/// Fills a place with two parts, one after the other.
fn put_both(out: &mut [u8], front: &[u8], last: &[u8])
    requires { length front.now + length last.now ≡ length out.old }
    ensures { out.new ≡ front.now ++ last.now }
{
    let (before, behind) = out.split_at_mut(front.len());
    before.copy_from_slice(front);
    behind.copy_from_slice(last);
}
