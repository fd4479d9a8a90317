//! The fuse of a store in memory.

ghost use Rattle.std.specs.Prelude.{◌≡◌, ◌-◌, ◌≤◌, ◌+◌, length, replicate, is_ok, is_none, IsTrue, IsOk};
ghost use Rattle.fw_store.specs.Device.{splice};
ghost use Rattle.fw_store.specs.Faults.{count_after, Spends};
ghost use Rattle.fw_store.specs.Fuse.{lets_through, burnt, torn_of, half_torn};

use crate::error::StoreFault;

/// What makes a store fail: `calls` calls of it succeed, and all later ones fail. A write that fails leaves the first half of its
/// bytes, rounded down, and `torn` in the rest of its range.
#[derive(Clone, Copy)]
pub struct Fuse {
    pub calls: u64,
    pub torn: u8,
}

/// One call of the device: it burns the fuse, and is counted where it fails.
pub(crate) fn burn(fuse: &mut Option<Fuse>, faults: &mut u64) -> Result<(), StoreFault>
    ensures through { is_ok result ≡ lets_through fuse.old }
    ensures burns { fuse.new ≡ burnt fuse.old }
    ensures counts { faults.new ≡ count_after (is_ok result) faults.old }
    ensures spends { Spends 1 fuse.old fuse.new (is_ok result) }

    // So the count never falls, and without a fuse no call fails.
    ensures later { faults.old ≤ faults.new }
    ensures stays { IsTrue (is_none fuse.old) → IsTrue (is_none fuse.new) }
    ensures never { IsTrue (is_none fuse.old) → IsOk result }
{
    if let Some(set) = *fuse {
        if set.calls == 0 {
            *faults = faults.saturating_add(1);
            return Err(StoreFault);
        }
        *fuse = Some(Fuse {
            calls: set.calls - 1,
            torn: set.torn,
        });
    }
    Ok(())
}

/// The byte that a failing write leaves, if a fuse is set.
pub(crate) fn torn_byte(fuse: &Option<Fuse>) -> u8
    ensures { result ≡ torn_of fuse.now }
{
    fuse.map_or(0, |set| set.torn)
}

/// Writes bytes over those at an offset.
pub(crate) fn overwrite(slot: &mut Vec<u8>, at: usize, bytes: &[u8])
    requires { at + length bytes.now ≤ length slot.old.items }
    ensures { slot.new.items ≡ splice slot.old.items at bytes.now }
{
    slot[at..at + bytes.len()].copy_from_slice(bytes);
}

/// A write that fails half way: the first half of the bytes, rounded down, and then one byte over and over.
pub(crate) fn tear(slot: &mut Vec<u8>, at: usize, bytes: &[u8], torn: u8)
    requires { at + length bytes.now ≤ length slot.old.items }
    ensures { slot.new.items ≡ splice slot.old.items at (half_torn bytes.now torn) }
{
    let half = bytes.len() / 2;
    overwrite(slot, at, &bytes[..half]);
    fill(slot, at + half, bytes.len() - half, torn);
}

/// Fills a range with one byte.
fn fill(slot: &mut Vec<u8>, at: usize, count: usize, byte: u8)
    requires { at + count ≤ length slot.old.items }
    ensures { slot.new.items ≡ splice slot.old.items at (replicate count byte) }
{
    slot[at..at + count].fill(byte);
}
