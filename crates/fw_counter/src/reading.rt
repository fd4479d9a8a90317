//! What the records of a journal reserve.

ghost use Rattle.std.specs.Prelude.{◌≡◌, ◌≢◌, ◌<◌, ◌^◌, ◌∷◌, [], ℕ, List, length, IfOk, IfSome, IfNone};
ghost use Rattle.std.specs.Int.{w32, from_be_bytes, to_be_bytes};
ghost use Rattle.fw_journal.specs.Book.{contents_of, book_bytes};
ghost use Rattle.fw_counter.specs.Reserved.{AreReservations, reserved_by};
ghost use Rattle.fw_counter.specs.Told.{Follow, HasReservation};

use sha2::{Digest, Sha256};
use std::alloc::{AllocError, Global};

/// The number below which these records reserve all counters, if each is a number of four bytes.
pub(crate) fn bound_of(records: &[Vec<u8>]) -> Option<u32>
    ensures fit { IfSome result (λ _. AreReservations (contents_of records.now)) }
    ensures found { IfSome result (λ bound. bound ≡ reserved_by (contents_of records.now)) }
    ensures none { IfNone result (¬ AreReservations (contents_of records.now)) }
{
    let mut bound = 0;
    let mut rest = records;
    while let Some((record, others)) = rest.split_first() {
        bound = bound.max(number_of(record.as_slice())?);
        rest = others;
    }
    Some(bound)
}

/// The number of a record that has four bytes, high byte first.
fn number_of(entry: &[u8]) -> Option<u32>
    ensures size { IfSome result (λ _. length entry.now ≡ 4) }
    ensures found { IfSome result (λ number. number ≡ from_be_bytes w32 entry.now) }
    ensures none { IfNone result (length entry.now ≢ 4) }
{
    let [a, b, c, d] = entry else {
        return None;
    };
    Some(u32::from_be_bytes([*a, *b, *c, *d]))
}

/// The one record that reserves all counters below this number.
pub(crate) fn reservation_of(alloc: Global, bound: u32) -> Result<Vec<Vec<u8>>, AllocError>
    ensures { IfOk result (λ records. (contents_of records.items ≡ to_be_bytes w32 bound ∷ []) × (bound < 2 ^ 32)) }
{
    let mut record = Vec::new(alloc);
    record.extend_from_slice(&bound.to_be_bytes())?;
    let mut records = Vec::new(alloc);
    records.push(record)?;
    Ok(records)
}

/// The greatest number of the records of four bytes that stand here one after another, each behind one byte of any value.
pub(crate) fn told_behind(bytes: &[u8]) -> u32
    ensures { (entries : List (List ℕ)) × Follow entries bytes.now × (result ≡ reserved_by entries) }
{
    let mut bound = 0;
    let mut later = bytes;
    while let Some((number, after)) = reservation_at(later) {
        bound = bound.max(number);
        later = after;
    }
    bound
}

/// The number of a record of four bytes that stands first, behind one byte of any value, and what follows it.
fn reservation_at(bytes: &[u8]) -> Option<(u32, &[u8])>
    ensures found { IfSome result (λ r. (entry : List ℕ) × HasReservation bytes.now entry r.1.now × (r.0 ≡ from_be_bytes w32 entry)) }
    ensures shorter { IfSome result (λ r. length r.1.now < length bytes.now) }
    ensures none { IfNone result ((entry rest : List ℕ) → ¬ HasReservation bytes.now entry rest) }
{
    let (_, behind) = bytes.split_first()?;
    let rest = behind.strip_prefix(&[0, 0, 0, 4])?;
    let (entry, tail) = rest.split_first_chunk::<4>()?;
    let digest = Sha256::digest(entry);
    let after = tail.strip_prefix(digest.as_slice())?;
    Some((u32::from_be_bytes(*entry), after))
}

/// The bytes of a journal of one record, which reserves all counters below this number.
pub(crate) fn journal_of(alloc: Global, bound: u32) -> Result<Vec<u8>, AllocError>
    ensures bytes { IfOk result (λ bytes. bytes.items ≡ book_bytes (to_be_bytes w32 bound ∷ [])) }
    ensures fits { IfOk result (λ _. bound < 2 ^ 32) }
{
    let number = bound.to_be_bytes();
    let mut bytes = [0x46, 0x57, 0x4A, 0x31, 1, 0, 0, 0, 4].to_vec(alloc)?;
    bytes.extend_from_slice(&number)?;
    bytes.extend_from_slice(&Sha256::digest(&number))?;
    bytes.push(0)?;
    Ok(bytes)
}
