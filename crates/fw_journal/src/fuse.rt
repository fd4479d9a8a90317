//! The fuse of a device in memory.

ghost use Rattle.std.specs.Prelude.{◌≡◌, is_none, is_ok, IsTrue, IsOk, IfErr, IfOk, length};
ghost use Rattle.fw_journal.specs.declared.error.DeviceError.TheVariants.{Fault, OutOfMemory};
ghost use Rattle.fw_journal.specs.Fuse.{lets_through, burnt, torn_of, half_torn};

use crate::error::DeviceError;
use std::alloc::{AllocError, Global};

/// What makes a device fail: `calls` calls of it succeed, and all later ones fail. A write that fails leaves the first half of its
/// bytes, rounded down, and `torn` in the rest of its range.
#[derive(Clone, Copy)]
pub struct Fuse {
    pub calls: u64,
    pub torn: u8,
}

/// One call of the device, which burns the fuse.
pub(crate) fn burn(fuse: &mut Option<Fuse>) -> Result<(), DeviceError>
    ensures through { is_ok result ≡ lets_through fuse.old }
    ensures burns { fuse.new ≡ burnt fuse.old }
    ensures fault { IfErr result (λ e. e ≡ Fault) }

    // Without a fuse no call fails.
    ensures stays { IsTrue (is_none fuse.old) → IsTrue (is_none fuse.new) }
    ensures never { IsTrue (is_none fuse.old) → IsOk result }
{
    if let Some(set) = *fuse {
        if set.calls == 0 {
            return Err(DeviceError::Fault);
        }
        *fuse = Some(Fuse {
            calls: set.calls - 1,
            torn: set.torn,
        });
    }
    Ok(())
}

/// The byte that a failing write leaves, if a fuse is set.
pub(crate) fn torn_byte(fuse: &Option<Fuse>) -> u8
    ensures { result ≡ torn_of fuse.now }
{
    fuse.map_or(0, |set| set.torn)
}

/// What a write that fails leaves in its range: the first half of the bytes, rounded down, and then one byte over and over.
pub(crate) fn torn_bytes(alloc: Global, bytes: &[u8], torn: u8) -> Result<Vec<u8>, AllocError>
    ensures torn { IfOk result (λ left. left.items ≡ half_torn bytes.now torn) }
{
    let mut left = bytes[..bytes.len() / 2].to_vec(alloc)?;
    left.resize(bytes.len(), torn)?;
    Ok(left)
}
