//! The records of a journal's bytes.

ghost use Rattle.std.specs.Prelude.{
  ◌≡◌,
  ◌++◌,
  ◌∷◌,
  ◌<◌,
  ◌≤◌,
  ◌^◌,
  ℕ,
  List,
  length,
  drop,
  IsTrue,
  IfOk,
  IfErr,
  IfSome,
  IfNone,
  IsErrOf,
};
ghost use Rattle.std.specs.Int.{w32, to_be_bytes};
ghost use Rattle.fw_journal.specs.Book.{
  mark,
  body,
  book_front,
  contents_of,
  IsShut,
  Stands,
  IsNoBook,
  IsBadBook,
  IsNoBody,
  HasRecord,
  HasBlock,
  HasBlocks,
  Drops,
};
ghost use Rattle.fw_journal.specs.Refusals.{IsOpeningRefusal};

use crate::error::JournalError;
use sha2::{Digest, Sha256};
use std::alloc::Global;

/// What stands after the bytes with which a journal begins.
fn after_mark(bytes: &[u8]) -> Option<&[u8]>
    ensures found { IfSome result (λ rest. bytes.now ≡ mark ++ rest.now) }
    ensures none { IfNone result (IsNoBook bytes.now) }
{
    match bytes {
        [0x46, 0x57, 0x4A, 0x31, ..] => Some(&bytes[4..]),
        _ => None,
    }
}

/// A number of four bytes, high byte first, and what follows it.
fn u32_at(bytes: &[u8]) -> Option<(u32, &[u8])>
    ensures found { IfSome result (λ r. bytes.now ≡ to_be_bytes w32 r.0 ++ r.1.now) }
    ensures fits { IfSome result (λ r. r.0 < 2 ^ 32) }
    ensures none { IfNone result (length bytes.now < 4) }
{
    let [a, b, c, d, rest @ ..] = bytes else {
        return None;
    };
    Some((u32::from_be_bytes([*a, *b, *c, *d]), rest))
}

/// What stands after an open gate, which is some byte at least.
fn after_gate(bytes: &[u8]) -> Option<&[u8]>
    ensures open { IfSome result (λ behind. bytes.now ≡ 1 ∷ behind.now) }
    ensures some { IfSome result (λ behind. 1 ≤ length behind.now) }
    ensures shut { IfNone result (IsShut bytes.now) }
{
    match bytes {
        [1, _, ..] => Some(&bytes[1..]),
        _ => None,
    }
}

/// A record after its gate, and what follows it.
fn body_at(bytes: &[u8]) -> Option<(&[u8], &[u8])>
    ensures found { IfSome result (λ r. bytes.now ≡ body r.0.now ++ r.1.now) }
    ensures fits { IfSome result (λ r. length r.0.now < 2 ^ 32) }
    ensures shorter { IfSome result (λ r. length r.1.now < length bytes.now) }
    ensures none { IfNone result (IsNoBody bytes.now) }
{
    let (size, rest) = u32_at(bytes)?;
    let size = size as usize;
    if size > rest.len() {
        return None;
    }
    let (record, rest) = rest.split_at(size);
    let digest = Sha256::digest(record);
    let Some(after) = rest.strip_prefix(digest.as_slice()) else {
        return None;
    };
    Some((record, after))
}

/// The records of a journal's bytes, and how many bytes it has up to its shut gate. A journal's records stand each after its gate, so that
/// the bytes of a file which are read from front to back while it is written are those of a journal too.
///
/// # Errors
///
/// `BadBook` with an offset where the bytes are no journal's, and otherwise `OutOfMemory` alone, which may come in place of `BadBook`. It
/// comes only if a whole record stands first.
pub fn read_book(alloc: Global, bytes: &[u8]) -> Result<(Vec<Vec<u8>>, u64), JournalError>
    ensures records { IfOk result (λ r. Stands bytes.now (contents_of r.0.items)) }
    ensures end { IfOk result (λ r. r.1 ≡ length (book_front (contents_of r.0.items))) }
    ensures within { IfOk result (λ r. r.1 ≤ length bytes.now) }
    ensures bad { (offset : ℕ) → IsErrOf result (JournalError.BadBook offset) → IsBadBook bytes.now offset }
    ensures memory { IsErrOf result JournalError.OutOfMemory → HasRecord bytes.now }
    ensures no_fault { ¬ IsErrOf result JournalError.BookFault }
    ensures refusals { IfErr result IsOpeningRefusal }
{
    let Some(mut rest) = after_mark(bytes) else {
        return Err(JournalError::BadBook { offset: 0 });
    };
    let mut records = Vec::new(alloc);
    while let Some(behind) = after_gate(rest) {
        let Some((record, after)) = body_at(behind) else {
            return Err(JournalError::BadBook {
                offset: (bytes.len() - rest.len()) as u64,
            });
        };
        records.push(record.to_vec(alloc)?)?;
        rest = after;
    }
    Ok((records, (bytes.len() - rest.len()) as u64))
}

/// How many whole records stand one after another from the shut gate of a journal on, whose records end there: each behind one byte, of any
/// value. They aren't among its records, and an opening cuts them off. A commit that was cut between its two syncs leaves such ones, and so
/// does a gate that turns on the medium.
pub fn count_dropped(bytes: &[u8], end: u64) -> usize
    requires within { end ≤ length bytes.now }
    ensures { (records : List (List ℕ)) → Stands bytes.now records → end ≡ length (book_front records)
        → Drops bytes.now (drop end bytes.now) result }
{
    let (_, rest) = bytes.split_at(end as usize);
    count_blocks(rest)
}

/// How many whole records stand here one after another, each behind one byte of any value.
pub(crate) fn count_blocks(bytes: &[u8]) -> usize
    ensures { HasBlocks result bytes.now }
{
    let mut count = 0;
    let mut later = bytes;
    while let Some(after) = after_block(later) {
        count += 1;
        later = after;
    }
    count
}

/// What follows a whole record that stands first, behind one byte.
fn after_block(bytes: &[u8]) -> Option<&[u8]>
    ensures found { IfSome result (λ after. HasBlock bytes.now after.now) }
    ensures shorter { IfSome result (λ after. length after.now < length bytes.now) }
    ensures none { IfNone result (HasBlocks 0 bytes.now) }
{
    let (_, behind) = bytes.split_first()?;
    let (_, after) = body_at(behind)?;
    Some(after)
}
