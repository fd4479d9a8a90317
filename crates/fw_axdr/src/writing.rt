//! Writing a Data in the short spelling.

ghost use Rattle.std.specs.Prelude.{◌≡◌, ◌<◌, ◌≤◌, ◌^◌, ◌∷◌, ◌++◌, Some, None, length, take, OnOk, OnErr, IfErr};
ghost use Rattle.fw_axdr.specs.Value.{count};
ghost use Rattle.fw_axdr.specs.View.{value_of, values_of};
ghost use Rattle.fw_axdr.specs.Spelling.{IsData, max_depth, short, shorts, short_length};
ghost use Rattle.fw_axdr.specs.Fault.{IfFault, IfMemory, unwritable, first_unwritable, counted};
ghost use Rattle.fw_axdr.specs.Laws.{HasNumbers, HaveNumbers};
ghost use Rattle.fw_axdr.specs.Private.{code, Begins};

use crate::data::{Data, Items, MAX_DEPTH};
use crate::error::AxdrError;
use crate::judging::unwritable;
use crate::tag::Tag;
use std::alloc::AllocError;

/// Appends a length in its shortest form.
fn put_length(out: &mut Vec<u8>, n: u32) -> Result<(), AllocError>
    ensures ok { OnOk result (out.new.items ≡ out.old.items ++ short_length n) }
    ensures err { OnErr result (out.new.items ≡ out.old.items) }
{
    let [a, b, c, d] = n.to_be_bytes();
    if n < 0x80 {
        out.extend_from_slice(&[d])?;
    } else if n < 0x100 {
        out.extend_from_slice(&[0x81, d])?;
    } else if n < 0x1_0000 {
        out.extend_from_slice(&[0x82, c, d])?;
    } else if n < 0x100_0000 {
        out.extend_from_slice(&[0x83, b, c, d])?;
    } else {
        out.extend_from_slice(&[0x84, a, b, c, d])?;
    }
    Ok(())
}

/// Appends a tag and the bytes after it.
fn put_bytes(out: &mut Vec<u8>, tag: Tag, bytes: &[u8]) -> Result<(), AllocError>
    ensures ok { OnOk result (out.new.items ≡ out.old.items ++ code tag ∷ bytes.now) }
    ensures front { Begins out.old.items out.new.items }
{
    out.push(tag.byte())?;
    out.extend_from_slice(bytes)?;
    Ok(())
}

/// Appends a tag and a length.
fn put_head(out: &mut Vec<u8>, tag: Tag, len: usize) -> Result<(), AllocError>
    requires { len < 2 ^ 32 }
    ensures ok { OnOk result (out.new.items ≡ out.old.items ++ code tag ∷ short_length len) }
    ensures front { Begins out.old.items out.new.items }
{
    out.push(tag.byte())?;
    put_length(out, len as u32)
}

/// Appends a tag, a length and the bytes after it.
fn put_counted(out: &mut Vec<u8>, tag: Tag, len: usize, bytes: &[u8]) -> Result<(), AllocError>
    requires { len < 2 ^ 32 }
    ensures ok { OnOk result
        (out.new.items ≡ out.old.items ++ (code tag ∷ short_length len ++ bytes.now)) }
    ensures front { Begins out.old.items out.new.items }
{
    put_head(out, tag, len)?;
    out.extend_from_slice(bytes)?;
    Ok(())
}

/// Appends a tag, how many elements there are, and the elements.
#[cycle(writing)]
fn put_items(out: &mut Vec<u8>, tag: Tag, levels: u8, items: &Items) -> Result<(), AllocError>
    requires { counted (count items.now) (first_unwritable items.now levels) ≡ None }
    ensures ok { OnOk result
        (out.new.items ≡ out.old.items
        ++ (code tag ∷ short_length (count items.now) ++ shorts items.now)) }
    ensures numbers { OnOk result (HaveNumbers items.now) }
    ensures front { Begins out.old.items out.new.items }
{
    put_head(out, tag, items.len())?;
    put_each(out, levels, items.as_slice())
}

/// Appends one element after another.
#[cycle(writing)]
fn put_each(out: &mut Vec<u8>, levels: u8, items: &[Data]) -> Result<(), AllocError>
    requires { first_unwritable (values_of items.now) levels ≡ None }
    ensures ok { OnOk result (out.new.items ≡ out.old.items ++ shorts (values_of items.now)) }
    ensures numbers { OnOk result (HaveNumbers (values_of items.now)) }
    ensures front { Begins out.old.items out.new.items }
{
    for item in items {
        put_data(out, levels, item)?;
    }
    Ok(())
}

/// Appends a Data that can be written where `levels` levels are left. After an `Err` a front of it
/// may be there.
#[cycle(writing)]
fn put_data(out: &mut Vec<u8>, levels: u8, value: &Data) -> Result<(), AllocError>
    requires { unwritable (value_of value.now) levels ≡ None }
    ensures ok { OnOk result (out.new.items ≡ out.old.items ++ short (value_of value.now)) }
    ensures numbers { OnOk result (HasNumbers (value_of value.now)) }
    ensures front { Begins out.old.items out.new.items }
{
    match value {
        Data::Null => put_bytes(out, Tag::Null, &[]),
        Data::Array(items) => put_items(out, Tag::Array, levels - 1, items),
        Data::Structure(items) => put_items(out, Tag::Structure, levels - 1, items),
        Data::Boolean(b) => put_bytes(out, Tag::Boolean, &[u8::from(*b)]),
        Data::BitString(bits) => put_counted(out, Tag::BitString, bits.len(), bits.as_bytes()),
        Data::DoubleLong(n) => put_bytes(out, Tag::DoubleLong, &n.to_be_bytes()),
        Data::DoubleLongUnsigned(n) => put_bytes(out, Tag::DoubleLongUnsigned, &n.to_be_bytes()),
        Data::OctetString(o) => put_counted(out, Tag::OctetString, o.len(), o.as_slice()),
        Data::VisibleString(o) => put_counted(out, Tag::VisibleString, o.len(), o.as_slice()),
        Data::Integer(n) => put_bytes(out, Tag::Integer, &n.to_be_bytes()),
        Data::Long(n) => put_bytes(out, Tag::Long, &n.to_be_bytes()),
        Data::Unsigned(n) => put_bytes(out, Tag::Unsigned, &[*n]),
        Data::LongUnsigned(n) => put_bytes(out, Tag::LongUnsigned, &n.to_be_bytes()),
        Data::Long64(n) => put_bytes(out, Tag::Long64, &n.to_be_bytes()),
        Data::Long64Unsigned(n) => put_bytes(out, Tag::Long64Unsigned, &n.to_be_bytes()),
        Data::Enumerated(n) => put_bytes(out, Tag::Enumerated, &[*n]),
    }
}

/// Appends the short spelling of `value` to `out`, whole or not at all: shortest lengths, 01 for
/// true, zero unused bits (IEC 62056-5-3, A-XDR). What stood in `out` stays, also after an `Err`.
///
/// # Errors
///
/// - `BadLength`: a string or a list of elements has a length above 2^32 - 1.
/// - `TooDeep`: a part would have depth 9 (own rule of this profile).
/// - `OutOfMemory`: `out` couldn't grow.
///
/// Of the first two the one further left in the order of writing is given, before any memory is
/// taken.
pub fn write_to(value: &Data, out: &mut Vec<u8>) -> Result<(), AxdrError>
    ensures ok { OnOk result (out.new.items ≡ out.old.items ++ short (value_of value.now)) }
    // What was appended is a Data that spells the value.
    ensures spelled { OnOk result
        (IsData max_depth (short (value_of value.now)) (value_of value.now)) }

    // A fault is the first part, in the order of writing, that can't be written.
    ensures err { OnErr result (out.new.items ≡ out.old.items) }
    ensures fault { IfErr result (λ e. IfFault e
        (unwritable (value_of value.now) max_depth ≡ Some e)) }

    // Memory is taken only for a value that can be written.
    ensures memory { IfErr result (λ e. IfMemory e
        (unwritable (value_of value.now) max_depth ≡ None)) }
{
    if let Some(fault) = unwritable(value) {
        return Err(fault);
    }
    let len = out.len();
    match put_data(out, MAX_DEPTH, value) {
        Ok(()) => Ok(()),
        Err(AllocError) => {
            out.truncate(len);
            Err(AxdrError::OutOfMemory)
        }
    }
}
