//! The parts of a journal, one after the other.

ghost use Rattle.std.specs.Prelude.{◌≡◌, ◌++◌, ◌<◌, ◌≤◌, ◌^◌, ℕ, length, IfSome, IfNone};
ghost use Rattle.std.specs.Int.{w64, w32, to_be_bytes};
ghost use Rattle.sha2.specs.Sha256.{sha256};
ghost use Rattle.fw_cuts.specs.Write.{mark, part};
ghost use Rattle.fw_cuts.specs.Reading.{IsUnmarked, IsNoPart, AreNoTwoParts, IsUnsealed};

use sha2::{Digest, Sha256};

/// What stands before the digest with which a journal ends.
pub(crate) fn before_digest(bytes: &[u8]) -> Option<&[u8]>
    ensures found { IfSome result (λ payload. bytes.now ≡ payload.now ++ sha256 payload.now) }
    ensures none { IfNone result (IsUnsealed bytes.now) }
{
    if bytes.len() < 32 {
        return None;
    }
    let (payload, digest) = bytes.split_at(bytes.len() - 32);
    if digest != Sha256::digest(payload).as_slice() {
        return None;
    }
    Some(payload)
}

/// What stands after the bytes with which a journal begins.
pub(crate) fn after_mark(bytes: &[u8]) -> Option<&[u8]>
    ensures found { IfSome result (λ rest. bytes.now ≡ mark ++ rest.now) }
    ensures none { IfNone result (IsUnmarked bytes.now) }
{
    match bytes {
        [0x46, 0x57, 0x55, 0x31, ..] => Some(&bytes[4..]),
        _ => None,
    }
}

/// A number of eight bytes, high byte first, and what follows it.
pub(crate) fn number(bytes: &[u8]) -> Option<(u64, &[u8])>
    ensures found { IfSome result (λ r. bytes.now ≡ to_be_bytes w64 r.0 ++ r.1.now) }
    ensures fits { IfSome result (λ r. r.0 < 2 ^ 64) }
    ensures none { IfNone result (length bytes.now < 8) }
{
    let [a, b, c, d, e, f, g, h, rest @ ..] = bytes else {
        return None;
    };
    Some((u64::from_be_bytes([*a, *b, *c, *d, *e, *f, *g, *h]), rest))
}

/// A number of four bytes, high byte first, and what follows it.
fn size_at(bytes: &[u8]) -> Option<(u32, &[u8])>
    ensures found { IfSome result (λ r. bytes.now ≡ to_be_bytes w32 r.0 ++ r.1.now) }
    ensures fits { IfSome result (λ r. r.0 < 2 ^ 32) }
    ensures none { IfNone result (length bytes.now < 4) }
{
    let [a, b, c, d, rest @ ..] = bytes else {
        return None;
    };
    Some((u32::from_be_bytes([*a, *b, *c, *d]), rest))
}

/// A part of a write, and what follows it.
fn part_at(bytes: &[u8]) -> Option<(&[u8], &[u8])>
    ensures found { IfSome result (λ r. bytes.now ≡ part r.0.now ++ r.1.now) }
    ensures fits { IfSome result (λ r. length r.0.now < 2 ^ 32) }
    ensures none { IfNone result (IsNoPart bytes.now) }
{
    let (size, rest) = size_at(bytes)?;
    let size = size as usize;
    if size > rest.len() {
        return None;
    }
    Some(rest.split_at(size))
}

/// Two parts of a write, and what follows them.
pub(crate) fn two_parts(bytes: &[u8]) -> Option<(&[u8], &[u8], &[u8])>
    ensures found { IfSome result (λ r. bytes.now ≡ part r.0.now ++ (part r.1.now ++ r.2.now)) }
    ensures first { IfSome result (λ r. length r.0.now < 2 ^ 32) }
    ensures second { IfSome result (λ r. length r.1.now < 2 ^ 32) }
    ensures none { IfNone result (AreNoTwoParts bytes.now) }
{
    let (first, rest) = part_at(bytes)?;
    let (second, rest) = part_at(rest)?;
    Some((first, second, rest))
}
