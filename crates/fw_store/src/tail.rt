//! What stands after the slots of a store on a device, by which stores of one capacity differ in length.

ghost use Rattle.std.specs.Prelude.{◌≡◌, ◌≢◌, IfNone, IfSome};
ghost use Rattle.fw_store.specs.Sizes.{stored_size, tail_of};
ghost use Rattle.fw_store.specs.StoreBytes.{old_store_size, store_size};
ghost use Rattle.fw_store.specs.declared.tail.Tail.{Tail};

use crate::version::HeaderVersion;
use fw_cuts::FRONT_SIZE;

/// Where the header begins: after the capacity.
pub const HEADER_AT: u64 = 4;

/// Where the first slot begins: after the capacity and the first 614 bytes of the header. The others stand after the slots.
pub const SLOTS_AT: u64 = HEADER_AT + FRONT_SIZE as u64;

/// What stands there.
#[derive(Clone, Copy)]
pub(crate) enum Tail {
    /// Nothing. The header is one of version 1, and its releases are 0.
    Empty,
    /// The releases, which end a header of version 1.
    Releases,
    /// The releases, and the marks that end a header of version 2.
    Marks,
}

impl Tail {
    /// What stands after the slots of a store of this capacity that has `len` bytes.
    pub(crate) fn of_len(len: u64, capacity: u32) -> Option<Tail>
        ensures some { IfSome result (λ tail. len ≡ stored_size tail capacity) }
        ensures none { IfNone result ((tail : Tail) → len ≢ stored_size tail capacity) }
    {
        if len == store_size(HeaderVersion::Two, capacity) {
            return Some(Tail::Marks);
        }
        if len == store_size(HeaderVersion::One, capacity) {
            return Some(Tail::Releases);
        }
        if len == tail_at(capacity) {
            return Some(Tail::Empty);
        }
        None
    }

    /// What stands there where a header of this version was written.
    pub(crate) fn of_version(version: HeaderVersion) -> Tail
        ensures { result ≡ tail_of version }
    {
        match version {
            HeaderVersion::One => Tail::Releases,
            HeaderVersion::Two => Tail::Marks,
        }
    }
}

/// Where it begins: after the slots.
pub(crate) fn tail_at(capacity: u32) -> u64
    ensures { result ≡ old_store_size capacity }
{
    SLOTS_AT + 2 * u64::from(capacity)
}

/// How many bytes a store with a header of this version has.
pub(crate) fn store_size(version: HeaderVersion, capacity: u32) -> u64
    ensures { result ≡ store_size version capacity }
{
    4 + version.size() as u64 + 2 * u64::from(capacity)
}
