//! How the parts of a book are read, from left to right. Nothing here takes memory.

ghost use Rattle.std.specs.Prelude.{◌≡◌, ◌<◌, ◌≤◌, ◌^◌, ◌∷◌, ◌++◌, [], ℕ, List, length, IfSome, IfNone, MatchOption};
ghost use Rattle.std.specs.Int.{w16, w32, to_be_bytes};
ghost use Rattle.fw_book.specs.declared.row.Row.{Row};
ghost use Rattle.fw_book.specs.declared.version.Version.{Version};
ghost use Rattle.fw_book.specs.Format.{
  image_bytes,
  row_bytes,
  rows_bytes,
  counted_bytes,
  numbers_bytes,
  entry_bytes,
  form_bytes,
  head_bytes,
};
ghost use Rattle.fw_book.specs.Private.{
  AreNumbers,
  IsImage,
  IsRows,
  IsEntryIn,
  MetersFit,
  NoNumbers,
  NoRows,
  NoCounted,
  NoEntry,
  SkimsRows,
  Skims,
  rows_in,
  entry_in,
};

use crate::offer::MAX_METERS;
use crate::row::{Row, RowState};
use crate::search::repeats;
use crate::version::Version;
use fw_blocks::MAX_IMAGE_SIZE;
use fw_names::{HeadId, MeterId};

/// The bytes of a row: four of its meter's number, and one of its state.
pub(crate) const ROW_SIZE: usize = 5;

/// What the bytes of a book begin with.
#[derive(Clone, Copy)]
pub(crate) struct Front {
    /// The version in which the rest is spelled.
    pub(crate) version: Version,
    /// The head end whose book it is.
    pub(crate) head: HeadId,
}

/// A campaign as it stands in the bytes of a book.
#[derive(Clone, Copy)]
pub(crate) struct Entry<'a> {
    /// Its serial number.
    pub(crate) serial: u32,
    /// Its release.
    pub(crate) release: u32,
    /// The bytes of its image.
    pub(crate) image: &'a [u8],
    /// Its rows, of five bytes each.
    pub(crate) rows: &'a [u8],
}

/// A number of two bytes, high byte first, and what follows it.
fn u16_at(bytes: &[u8]) -> Option<(u16, &[u8])>
    ensures found { IfSome result (λ r. bytes.now ≡ to_be_bytes w16 r.0 ++ r.1.now) }
    ensures fits { IfSome result (λ r. r.0 < 2 ^ 16) }
    ensures none { IfNone result (length bytes.now < 2) }
{
    let [a, b, rest @ ..] = bytes else {
        return None;
    };
    Some((u16::from_be_bytes([*a, *b]), rest))
}

/// A number of four bytes, high byte first, and what follows it.
fn u32_at(bytes: &[u8]) -> Option<(u32, &[u8])>
    ensures found { IfSome result (λ r. bytes.now ≡ to_be_bytes w32 r.0 ++ r.1.now) }
    ensures fits { IfSome result (λ r. r.0 < 2 ^ 32) }
    ensures none { IfNone result (length bytes.now < 4) }
{
    let [a, b, c, d, rest @ ..] = bytes else {
        return None;
    };
    Some((u32::from_be_bytes([*a, *b, *c, *d]), rest))
}

/// The version of the form, and what follows it.
fn version_at(bytes: &[u8]) -> Option<(Version, &[u8])>
    ensures found { IfSome result (λ r. bytes.now ≡ form_bytes r.0 ++ r.1.now) }
    ensures none { IfNone result ((version : Version) (rest : List ℕ) → ¬ (bytes.now ≡ form_bytes version ++ rest)) }
{
    match bytes {
        [b'F', b'W', b'B', b'1', rest @ ..] => Some((Version::First, rest)),
        [b'F', b'W', b'B', b'2', rest @ ..] => Some((Version::Second, rest)),
        _ => None,
    }
}

/// The version of the form and the head end's number after it, and what follows them.
pub(crate) fn head_at(bytes: &[u8]) -> Option<(Front, &[u8])>
    ensures found { IfSome result (λ r. bytes.now ≡ head_bytes r.0.version r.0.head ++ r.1.now) }
    ensures begins { IfSome result (λ r. 1 ≤ r.0.head) }
    ensures fits { IfSome result (λ r. r.0.head < 2 ^ 32) }
    ensures none { IfNone result ((version : Version) (head : ℕ) (rest : List ℕ)
        → 1 ≤ head → head < 2 ^ 32 → ¬ (bytes.now ≡ head_bytes version head ++ rest)) }
{
    let (version, rest) = version_at(bytes)?;
    let (head, rest) = u32_at(rest)?;
    let head = HeadId::new(head)?;
    Some((Front { version, head }, rest))
}

/// A campaign's serial number and its release, which is 0 if the version has none, and what follows them.
fn numbers_at(version: Version, bytes: &[u8]) -> Option<(u32, u32, &[u8])>
    ensures found { IfSome result (λ r. bytes.now ≡ numbers_bytes version r.0 r.1 ++ r.2.now) }
    ensures fits { IfSome result (λ r. AreNumbers version r.0 r.1) }
    ensures none { IfNone result (NoNumbers version bytes.now) }
{
    let (serial, rest) = u32_at(bytes)?;
    let (release, rest) = match version {
        Version::First => (0, rest),
        Version::Second => u32_at(rest)?,
    };
    Some((serial, release, rest))
}

/// An image after its size, and what follows it.
fn image_at(bytes: &[u8]) -> Option<(&[u8], &[u8])>
    ensures found { IfSome result (λ r. bytes.now ≡ image_bytes r.0.now ++ r.1.now) }
    ensures fits { IfSome result (λ r. IsImage r.0.now) }
    ensures none { IfNone result ((image rest : List ℕ)
        → IsImage image → ¬ (bytes.now ≡ image_bytes image ++ rest)) }
{
    let (size, rest) = u32_at(bytes)?;
    let size = size as usize;
    if size == 0 || size > MAX_IMAGE_SIZE as usize || size > rest.len() {
        return None;
    }
    Some(rest.split_at(size))
}

/// A row, and what follows it.
pub(crate) fn row_at(bytes: &[u8]) -> Option<(Row, &[u8])>
    ensures found { IfSome result (λ r. bytes.now ≡ row_bytes r.0 ++ r.1.now) }
    ensures fits { IfSome result (λ r. r.0.meter < 2 ^ 32) }
    ensures shorter { IfSome result (λ r. length r.1.now < length bytes.now) }
    ensures none { IfNone result ((row : Row) (rest : List ℕ)
        → row.meter < 2 ^ 32 → ¬ (bytes.now ≡ row_bytes row ++ rest)) }
    ensures first { MatchOption result (rows_in bytes.now ≡ [])
        (λ r. rows_in bytes.now ≡ r.0 ∷ rows_in r.1.now) }
{
    let (meter, rest) = u32_at(bytes)?;
    let meter = MeterId::new(meter)?;
    let [number, rest @ ..] = rest else {
        return None;
    };
    let state = RowState::from_number(*number)?;
    Some((Row { meter, state }, rest))
}

/// The bytes of `count` rows, and what follows them.
fn split_rows(count: usize, bytes: &[u8]) -> Option<(&[u8], &[u8])>
    ensures found { IfSome result (λ r. bytes.now ≡ rows_bytes (rows_in r.0.now) ++ r.1.now) }
    ensures count { IfSome result (λ r. length (rows_in r.0.now) ≡ count) }
    ensures fit { IfSome result (λ r. MetersFit (rows_in r.0.now)) }
    ensures none { IfNone result (NoRows count bytes.now) }
{
    let mut rest = bytes;
    for _ in 0..count {
        let Some((_row, after)) = row_at(rest) else {
            return None;
        };
        rest = after;
    }
    Some(bytes.split_at(bytes.len() - rest.len()))
}

/// The bytes of a campaign's rows after their number, and what follows them.
fn rows_at(bytes: &[u8]) -> Option<(&[u8], &[u8])>
    ensures found { IfSome result (λ r. bytes.now ≡ counted_bytes (rows_in r.0.now) ++ r.1.now) }
    ensures fits { IfSome result (λ r. IsRows (rows_in r.0.now)) }
    ensures none { IfNone result (NoCounted bytes.now) }
{
    let (count, rest) = u16_at(bytes)?;
    let count = usize::from(count);
    if count == 0 || count > MAX_METERS {
        return None;
    }
    let (rows, rest) = split_rows(count, rest)?;
    if repeats(rows) {
        return None;
    }
    Some((rows, rest))
}

/// A campaign, and what follows it.
pub(crate) fn entry_at(version: Version, bytes: &[u8]) -> Option<(Entry<'_>, &[u8])>
    ensures found { IfSome result (λ r. bytes.now
        ≡ entry_bytes version (entry_in r.0.serial r.0.release r.0.image.now r.0.rows.now) ++ r.1.now) }
    ensures fits { IfSome result (λ r. IsEntryIn version (entry_in r.0.serial r.0.release r.0.image.now r.0.rows.now)) }
    ensures shorter { IfSome result (λ r. length r.1.now < length bytes.now) }
    ensures none { IfNone result (NoEntry version bytes.now) }
{
    let (serial, release, rest) = numbers_at(version, bytes)?;
    if serial == 0 {
        return None;
    }
    let (image, rest) = image_at(rest)?;
    let (rows, rest) = rows_at(rest)?;
    Some((
        Entry {
            serial,
            release,
            image,
            rows,
        },
        rest,
    ))
}

/// The bytes of rows after their number, and what follows them. No row is looked at.
fn skim_rows(bytes: &[u8]) -> Option<(&[u8], &[u8])>
    ensures found { IfSome result (λ r. SkimsRows bytes.now r.0.now r.1.now) }
    ensures none { IfNone result (NoCounted bytes.now) }
{
    let (count, rest) = u16_at(bytes)?;
    let size = ROW_SIZE * usize::from(count);
    if size > rest.len() {
        return None;
    }
    Some(rest.split_at(size))
}

/// The campaign that the bytes begin with, where they begin with one, and what follows it. No row is looked at, so that a campaign
/// is passed over at the same cost, however many rows it has.
pub(crate) fn skim(version: Version, bytes: &[u8]) -> Option<(Entry<'_>, &[u8])>
    ensures found { IfSome result (λ r. Skims version bytes.now r.0.serial r.0.release r.0.image.now r.0.rows.now r.1.now) }
    ensures shorter { IfSome result (λ r. length r.1.now < length bytes.now) }
    ensures none { IfNone result (NoEntry version bytes.now) }
{
    let (serial, release, rest) = numbers_at(version, bytes)?;
    let (image, rest) = image_at(rest)?;
    let (rows, rest) = skim_rows(rest)?;
    Some((
        Entry {
            serial,
            release,
            image,
            rows,
        },
        rest,
    ))
}
