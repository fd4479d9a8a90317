//! What was done to the files of a store in memory, and what is read after it.

ghost use Rattle.std.specs.Prelude.{◌≡◌, IfOk, reverse};
ghost use Rattle.fw_cuts.specs.Cuts.{splice};
ghost use Rattle.fw_ramfiles.specs.Past.{same_part, bytes_by, bytes_of, fitting};

use fw_cuts::Part;
use std::alloc::{AllocError, Global};

/// What is done to a file.
#[derive(Drop)]
pub(crate) enum Event {
    /// Bytes are written over those from an offset on, as far as the file goes.
    Write { part: Part, at: u64, bytes: Vec<u8> },
    /// It is cut to a length, or gets zeros up to it.
    Resize { part: Part, len: u64 },
    /// What was written to it is brought to the disk.
    Sync { part: Part },
}

/// Whether these are one file.
fn is_same(a: Part, b: Part) -> bool
    ensures { result ≡ same_part a b }
{
    match (a, b) {
        (Part::Store, Part::Store) | (Part::Journal, Part::Journal) => true,
        (Part::Store, Part::Journal) | (Part::Journal, Part::Store) => false,
    }
}

/// The bytes of a file after these events.
pub(crate) fn bytes_after(
    alloc: Global,
    first: &[u8],
    events: &[Event],
    part: Part,
) -> Result<Vec<u8>, AllocError>
    ensures { IfOk result (λ bytes. bytes.items ≡ bytes_of part first.now (reverse events.now)) }
{
    let mut bytes = first.to_vec(alloc)?;
    for event in events {
        bytes = bytes_by(alloc, event, part, bytes)?;
    }
    Ok(bytes)
}

/// What an event makes of the bytes of a file.
fn bytes_by(
    alloc: Global,
    event: &Event,
    part: Part,
    mut bytes: Vec<u8>,
) -> Result<Vec<u8>, AllocError>
    ensures { IfOk result (λ next. next.items ≡ bytes_by event.now part bytes.items) }
{
    match event {
        Event::Write {
            part: of,
            at,
            bytes: written,
        } if is_same(*of, part) => spliced(alloc, &bytes, *at, written),
        Event::Resize { part: of, len } if is_same(*of, part) => {
            bytes.resize(*len as usize, 0)?;
            Ok(bytes)
        }
        _ => Ok(bytes),
    }
}

/// The bytes after a write at an offset, as far as they go.
fn spliced(alloc: Global, old: &[u8], at: u64, bytes: &[u8]) -> Result<Vec<u8>, AllocError>
    ensures { IfOk result (λ next. next.items ≡ splice old.now at (fitting old.now at bytes.now)) }
{
    let at = old.len().min(at as usize);
    let bytes = &bytes[..bytes.len().min(old.len() - at)];
    let mut next = old[..at].to_vec(alloc)?;
    next.extend_from_slice(bytes)?;
    next.extend_from_slice(&old[at + bytes.len()..])?;
    Ok(next)
}
