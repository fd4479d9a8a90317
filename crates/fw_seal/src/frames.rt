//! Frames, which are a tag, a length and a content, and the parts of a content.

ghost use Rattle.std.specs.Prelude.{◌≡◌, ◌≤◌, ◌∷◌, ◌++◌, length, OnOk, IfSome, IfNone, MatchOption};
ghost use Rattle.fw_axdr.specs.Spelling.{short_length};
ghost use Rattle.fw_seal.specs.Sealing.{HasCounter, HasForm, IsContent, IsFrame, NoContent, NoFrame};

use fw_aes::TAG_SIZE;
use fw_axdr::reader::Reader;
use std::alloc::AllocError;

/// Suite 0, authenticated and encrypted, with the global unicast key.
pub(crate) const SECURITY_CONTROL: u8 = 0x30;

/// The longest content, in bytes.
const MAX_CONTENT: usize = 0xffff_ffff;

/// The parts of a content.
#[derive(Clone, Copy)]
pub(crate) struct Parts<'a> {
    /// The invocation counter.
    pub(crate) counter: u32,
    /// The ciphertext.
    pub(crate) text: &'a [u8],
    /// The authentication tag.
    pub(crate) mac: &'a [u8; TAG_SIZE],
}

/// The tag and the content of a frame.
pub(crate) fn frame(bytes: &[u8]) -> Option<(u8, &[u8])>
    ensures found { IfSome result (λ f. IsFrame f.0 f.1.now bytes.now) }
    ensures none { IfNone result (NoFrame bytes.now) }
{
    let [tag, rest @ ..] = bytes else {
        return None;
    };
    let mut reader = Reader::new(rest);
    let Ok(len) = reader.length() else {
        return None;
    };
    if len > MAX_CONTENT {
        return None;
    }
    if reader.len() != len {
        return None;
    }
    let Ok(content) = reader.bytes(len) else {
        return None;
    };
    Some((*tag, content))
}

/// The parts of a content.
pub(crate) fn parts_of(bytes: &[u8]) -> Option<Parts<'_>>
    ensures found { IfSome result (λ p. IsContent p.counter p.text.now p.mac.now bytes.now) }
    ensures size { IfSome result (λ p. length p.text.now ≤ length bytes.now) }
    ensures none { IfNone result (NoContent bytes.now) }
{
    let [control, c3, c2, c1, c0, rest @ ..] = bytes else {
        return None;
    };
    if *control != SECURITY_CONTROL {
        return None;
    }
    let Some((text, mac)) = rest.split_last_chunk::<TAG_SIZE>() else {
        return None;
    };
    let counter = u32::from_be_bytes([*c3, *c2, *c1, *c0]);
    Some(Parts { counter, text, mac })
}

/// The invocation counter of bytes that have the form of a sealing, under whatever keys. It is only a claim until they are opened.
pub fn shown_counter(bytes: &[u8]) -> Option<u32>
    ensures { MatchOption result (¬ HasForm bytes.now) (HasCounter bytes.now) }
{
    let Some((_, content)) = frame(bytes) else {
        return None;
    };
    let Some(parts) = parts_of(content) else {
        return None;
    };
    Some(parts.counter)
}

/// Appends a tag, and a length in its shortest form.
pub(crate) fn put_head(out: &mut Vec<u8>, tag: u8, len: u32) -> Result<(), AllocError>
    ensures { OnOk result (out.new.items ≡ out.old.items ++ tag ∷ short_length len) }
{
    let [a, b, c, d] = len.to_be_bytes();
    if len < 0x80 {
        out.extend_from_slice(&[tag, d])?;
    } else if len < 0x100 {
        out.extend_from_slice(&[tag, 0x81, d])?;
    } else if len < 0x1_0000 {
        out.extend_from_slice(&[tag, 0x82, c, d])?;
    } else if len < 0x100_0000 {
        out.extend_from_slice(&[tag, 0x83, b, c, d])?;
    } else {
        out.extend_from_slice(&[tag, 0x84, a, b, c, d])?;
    }
    Ok(())
}
