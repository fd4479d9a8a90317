//! What an opening makes of the bytes of a store, in memory.

ghost use Rattle.std.specs.Prelude.{◌≡◌, ◌+◌, ◌≤◌, ◌↔◌, false, length, take, IfOk, IsErrOf, IsTrue, OnErr, OnOk};
ghost use Rattle.fw_cuts.specs.Write.{IsWrite};
ghost use Rattle.fw_cuts.specs.Sectors.{IsTornIn, Mends, before_of};
ghost use Rattle.fw_cuts.specs.Rest.{IsRecovered};
ghost use Rattle.fw_store.specs.Beside.{IsUndoFile};
ghost use Rattle.fw_store.specs.Device.{splice};
ghost use Rattle.fw_stored.specs.Stored.{IsTornBy};

use crate::error::RecoveryError;
use fw_cuts::undo::{HeaderWrite, MARK, MARK_SIZE, MAX_JOURNAL_SIZE, MAX_PART_SIZE};
use std::alloc::AllocError;

/// The bytes of a store as an opening makes them by those of its undo file: where these are a whole journal and the header write was cut,
/// that is taken back, and otherwise the store's bytes stay. A store without an undo file is one with an empty one.
///
/// # Errors
///
/// `ForeignUndo` just if the bytes beside the store are none that an undo file has, whole or cut by a power cut, and otherwise
/// `OutOfMemory` alone, and that only if something is taken back.
pub fn recovered(store: Vec<u8>, undo: &[u8]) -> Result<Vec<u8>, RecoveryError>
    ensures recovered { IfOk result (λ made. IsRecovered undo.now store.items made.items) }
    ensures own { OnOk result (IsUndoFile undo.now) }
    ensures foreign { IsErrOf result RecoveryError.ForeignUndo → ¬ IsUndoFile undo.now }
    ensures memory { IsErrOf result RecoveryError.OutOfMemory → IsUndoFile undo.now }
    ensures torn { IsErrOf result RecoveryError.OutOfMemory → IsTornBy undo.now store.items }
{
    if !is_undo_file(undo) {
        return Err(RecoveryError::ForeignUndo);
    }
    match HeaderWrite::from_bytes(undo) {
        Some(write) => match mended(store, &write) {
            Ok(made) => Ok(made),
            Err(_) => Err(RecoveryError::OutOfMemory),
        },
        None => Ok(store),
    }
}

/// Whether bytes are those of an undo file, whole, or what a power cut leaves of one.
fn is_undo_file(bytes: &[u8]) -> bool
    ensures { IsTrue result ↔ IsUndoFile bytes.now }
{
    bytes.len() <= MAX_JOURNAL_SIZE
        && (begins_as(bytes, &MARK) || begins_as(bytes, &[0; MARK_SIZE]))
}

/// Whether bytes begin as this form, as far as they go.
fn begins_as(bytes: &[u8], form: &[u8; MARK_SIZE]) -> bool
    ensures { IsTrue result ↔ (take 4 bytes.now ≡ take (length bytes.now) form.now) }
{
    let count = bytes.len().min(MARK_SIZE);
    bytes[..count] == form[..count]
}

/// Puts back the bytes of before where a header write was cut.
fn mended(store: Vec<u8>, write: &HeaderWrite<'_>) -> Result<Vec<u8>, AllocError>
    requires { IsWrite write.now }
    ensures mends { IfOk result (λ made. Mends write.now store.items made.items) }
    ensures memory { OnErr result (IsTornIn write.now store.items) }
{
    if !is_torn(&store, write) {
        return Ok(store);
    }
    let mut made = store;
    put_back(&mut made, write)?;
    Ok(made)
}

/// Whether the header that stands in a store is what a cut left of this write.
fn is_torn(store: &[u8], write: &HeaderWrite<'_>) -> bool
    requires { IsWrite write.now }
    ensures torn { IsTrue result → IsTornIn write.now store.now }
    ensures other { result ≡ false → ¬ IsTornIn write.now store.now }
{
    let last_at = write.last_at as usize;
    if store.len() < last_at {
        return false;
    }
    if store.len() - last_at > MAX_PART_SIZE {
        return false;
    }
    let at = write.at as usize;
    write.is_torn(&store[at..at + write.before.len()], &store[last_at..])
}

/// Puts back what stood in a store before this write.
fn put_back(store: &mut Vec<u8>, write: &HeaderWrite<'_>) -> Result<(), AllocError>
    requires write { IsWrite write.now }
    requires within { write.now.last_at ≤ length store.old.items }
    ensures { OnOk result (store.new.items ≡ before_of write.now store.old.items) }
{
    overwrite(store, write.at as usize, write.before);
    store.truncate(write.last_at as usize);
    store.extend_from_slice(write.last_before)
}

/// Writes bytes over those at an offset.
fn overwrite(store: &mut Vec<u8>, at: usize, bytes: &[u8])
    requires { at + length bytes.now ≤ length store.old.items }
    ensures { store.new.items ≡ splice store.old.items at bytes.now }
{
    store[at..at + bytes.len()].copy_from_slice(bytes);
}
