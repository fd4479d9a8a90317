//! Bytes in hexadecimal, read and written by `hex`. A text is judged whole before it is read, so that no memory is taken for one that isn't
//! hexadecimal.

ghost use Rattle.std.specs.Prelude.{◌≡◌, ◌↔◌, ◌*◌, length, IsTrue, IfOk, IsOk, IsErr, OnErr, MatchOption};
ghost use Rattle.std.specs.Bool.{OnTrue, OnFalse};
ghost use Rattle.std.specs.List.{list_all};
ghost use Rattle.std.specs.Char.{is_ascii_hexdigit};
ghost use Rattle.hex.specs.Hex.{decode_of, encode_lower};

use std::alloc::{AllocError, Global};

/// The bytes that hexadecimal digits spell, if the text is such digits. No memory is taken for any other text.
pub fn bytes_of(alloc: Global, text: &[u8]) -> Result<Option<Vec<u8>>, AllocError>
    ensures bytes { IfOk result (λ r. MatchOption r (IsErr (decode_of text.now)) (λ bytes. decode_of text.now ≡ Ok bytes.items)) }
    ensures memory { OnErr result (IsOk (decode_of text.now)) }
{
    let mut bytes = Vec::new(alloc);
    if put_bytes(&mut bytes, text)? {
        Ok(Some(bytes))
    } else {
        Ok(None)
    }
}

/// Whether a text is hexadecimal digits. Then `out` has the bytes that they spell, in place of all that it had. No memory is taken
/// for any other text.
pub fn put_bytes(out: &mut Vec<u8>, text: &[u8]) -> Result<bool, AllocError>
    ensures bytes { IfOk result (λ are. OnTrue are (decode_of text.now ≡ Ok out.new.items)) }
    ensures none { IfOk result (λ are. OnFalse are (IsErr (decode_of text.now))) }
    ensures memory { OnErr result (IsOk (decode_of text.now)) }
{
    if !is_hexadecimal(text) {
        return Ok(false);
    }
    out.resize(text.len() / 2, 0)?;
    Ok(hex::decode_to_slice(text, out.as_mut_slice()).is_ok())
}

/// Whether a text is pairs of hexadecimal digits.
pub fn is_hexadecimal(text: &[u8]) -> bool
    ensures { IsTrue result ↔ IsOk (decode_of text.now) }
{
    text.len() % 2 == 0 && are_digits(text)
}

fn are_digits(text: &[u8]) -> bool
    ensures { result ≡ list_all is_ascii_hexdigit text.now }
{
    let mut all = true;
    'digits: for byte in text {
        all &= byte.is_ascii_hexdigit();
    }
    all
}

/// Fills `digits` with those of these bytes, two for each, in lower case.
pub fn put_digits(bytes: &[u8], digits: &mut [u8])
    requires { length digits.old ≡ 2 * length bytes.now }
    ensures { digits.new ≡ encode_lower bytes.now }
{
    // the room fits, so it isn't refused
    let _ = hex::encode_to_slice(bytes, digits);
}
