//! The line of a link, from its last field to its first, which is a name.

ghost use Rattle.std.specs.Prelude.{◌≡◌, ◌≢◌, ◌++◌, ◌∷◌, ℕ, List, length, MatchOption, OnOk};
ghost use Rattle.hex.specs.Hex.{decode_sized, encode_lower};
ghost use Rattle.fw_keys.specs.declared.entry.LinkKeys.{LinkKeys};
ghost use Rattle.fw_keys.specs.KeyFiles.{IsLink};
ghost use Rattle.fw_keys.specs.Private.{EndsWith, IsWritten};
ghost use Rattle.fw_keys.specs.Writing.{link_line};

use crate::entry::{KEY_SIZE, LinkKeys};
use fw_seal::TITLE_SIZE;
use std::alloc::{AllocError, Global};

/// The name of the other end, and the keys of the link, if this is the line of one.
pub(crate) fn parts_of(line: &[u8]) -> Option<(&[u8], LinkKeys)>
    ensures { MatchOption result ((name : List ℕ) (keys : LinkKeys) → ¬ IsLink line.now name keys) (λ r. IsLink line.now r.0.now r.1) }
{
    let mut title = [0u8; TITLE_SIZE];
    let mut encryption = [0u8; KEY_SIZE];
    let mut authentication = [0u8; KEY_SIZE];
    let keyed = take_field(line, &mut authentication)?;
    let titled = take_field(keyed, &mut encryption)?;
    let name = take_field(titled, &mut title)?;
    let keys = LinkKeys {
        title,
        encryption,
        authentication,
    };
    Some((name, keys))
}

/// Takes the last field off a line, if it is the hexadecimal digits of as many bytes as fit into `out`, which has them then.
fn take_field<'a>(line: &'a [u8], out: &mut [u8]) -> Option<&'a [u8]>
    ensures { MatchOption result ((front bytes : List ℕ) → ¬ EndsWith (length out.old) line.now front bytes)
        (λ front. EndsWith (length out.old) line.now front.now out.new) }
{
    let (front, digits) = cut(line, 2 * out.len())?;
    match hex::decode_to_slice(digits, out) {
        Ok(()) => Some(front),
        Err(_) => None,
    }
}

/// The text before the last field of a line, and the field, if it has so many bytes and stands behind a comma.
fn cut(line: &[u8], len: usize) -> Option<(&[u8], &[u8])>
    ensures { MatchOption result ((front field : List ℕ) → length field ≡ len → line.now ≢ front ++ 44 ∷ field)
        (λ r. (length r.1.now ≡ len) × (line.now ≡ r.0.now ++ 44 ∷ r.1.now)) }
{
    let at = line.len().checked_sub(len)?;
    let (text, field) = line.split_at(at);
    let (comma, front) = text.split_last()?;
    if *comma == b',' {
        Some((front, field))
    } else {
        None
    }
}

/// The title that a line is, if it is one alone.
pub(crate) fn title_of(line: &[u8]) -> Option<[u8; TITLE_SIZE]>
    ensures { MatchOption result ((title : List ℕ) → decode_sized line.now 8 ≢ Ok title) (λ title. decode_sized line.now 8 ≡ Ok title) }
{
    let mut title = [0u8; TITLE_SIZE];
    match hex::decode_to_slice(line, &mut title) {
        Ok(()) => Some(title),
        Err(_) => None,
    }
}

/// Appends the line of a link whose other end has this name.
pub(crate) fn put_link(
    alloc: Global,
    out: &mut Vec<u8>,
    name: &[u8],
    keys: &LinkKeys,
) -> Result<(), AllocError>
    ensures line { OnOk result (out.new.items ≡ out.old.items ++ link_line name.now keys.now) }
    ensures written { OnOk result (IsWritten keys.now) }
{
    out.extend_from_slice(name)?;
    put_field(alloc, out, &keys.title)?;
    put_field(alloc, out, &keys.encryption)?;
    put_field(alloc, out, &keys.authentication)?;
    out.push(b'\n')?;
    Ok(())
}

/// Appends a comma, and the digits of these bytes.
fn put_field(alloc: Global, out: &mut Vec<u8>, bytes: &[u8]) -> Result<(), AllocError>
    ensures field { OnOk result (out.new.items ≡ out.old.items ++ 44 ∷ encode_lower bytes.now) }
    ensures written { OnOk result (decode_sized (encode_lower bytes.now) (length bytes.now) ≡ Ok bytes.now) }
{
    out.push(b',')?;
    put_digits(alloc, out, bytes)
}

/// Appends the digits of these bytes.
pub(crate) fn put_digits(alloc: Global, out: &mut Vec<u8>, bytes: &[u8]) -> Result<(), AllocError>
    ensures digits { OnOk result (out.new.items ≡ out.old.items ++ encode_lower bytes.now) }
    ensures written { OnOk result (decode_sized (encode_lower bytes.now) (length bytes.now) ≡ Ok bytes.now) }
{
    let digits = hex::encode(alloc, bytes)?;
    out.extend_from_slice(digits.as_bytes())
}
