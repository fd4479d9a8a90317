//! Reading a Data, from left to right.

ghost use Rattle.std.specs.Prelude.{◌≡◌, ◌≤◌, ◌⊎◌, length, take, IfOk, IfErr, OnErr};
ghost use Rattle.fw_axdr.specs.View.{value_of};
ghost use Rattle.fw_axdr.specs.Spelling.{IsData, NoneBegins, SomeBegins, max_depth};
ghost use Rattle.fw_axdr.specs.Fault.{Fails, IfFault, IfMemory};
ghost use Rattle.fw_axdr.specs.Bits.{bytes_for};
ghost use Rattle.fw_axdr.specs.Memory.{CountedTakes, TaggedTakes, MayTakeMemory};
ghost use Rattle.fw_axdr.specs.Private.{code, Gives, octets_at, bits_at, items_at, contents_at, data_at};

use crate::bits::Bits;
use crate::data::{Data, Items, MAX_DEPTH};
use crate::error::AxdrError;
use crate::octets::Octets;
use crate::reader::Reader;
use crate::tag::Tag;
use std::alloc::{AllocError, Global};

/// A copy of bytes. That of none takes no memory.
fn copied(alloc: Global, bytes: &[u8]) -> Result<Vec<u8>, AllocError>
    ensures same { IfOk result (λ copy. copy.items ≡ bytes.now) }
    ensures memory { OnErr result (1 ≤ length bytes.now) }
{
    let mut copy = Vec::with_capacity(alloc, bytes.len())?;
    copy.extend_from_slice(bytes)?;
    Ok(copy)
}

/// A length, and this number of bytes, which are copied once.
#[tactic(auto, unfolding(crate::specs::Private::octets_at))]
fn octets(alloc: Global, reader: &mut Reader<'_>) -> Result<Octets, AxdrError>
    ensures gives { Gives (λ o. o) result reader.new (octets_at reader.old) }
    ensures memory { IfErr result
        (λ e. IfMemory e (CountedTakes (λ n rest. n ≤ length rest) reader.old)) }
{
    let len = reader.length()?;
    let bytes = reader.bytes(len)?;
    Ok(Octets::from_vec(copied(alloc, bytes)?))
}

/// A length in bits, and the bytes of this number of bits.
#[tactic(auto, unfolding(crate::specs::Private::bits_at))]
fn bits(alloc: Global, reader: &mut Reader<'_>) -> Result<Bits, AxdrError>
    ensures gives { Gives (λ b. b) result reader.new (bits_at reader.old) }
    ensures memory { IfErr result
        (λ e. IfMemory e (CountedTakes (λ n rest. bytes_for n ≤ length rest) reader.old)) }
{
    let len = reader.length()?;
    let bytes = reader.bytes(len.div_ceil(8))?;
    Ok(Bits::from_vec(copied(alloc, bytes)?, len))
}

/// A count, and this number of Data. Room is taken for those that are there, and not for those that
/// the count claims.
#[cycle(reading)]
#[tactic(auto, unfolding(crate::specs::Private::items_at))]
fn items(alloc: Global, levels: u8, reader: &mut Reader<'_>) -> Result<Items, AxdrError>
    ensures gives { Gives (λ a. a) result reader.new (items_at (λ s. data_at levels s) reader.old) }
    ensures memory { IfErr result (λ e. IfMemory e
        (CountedTakes (λ n rest. MayTakeMemory levels rest ⊎ SomeBegins levels rest) reader.old)) }
{
    let count = reader.length()?;
    let mut items = Vec::new(alloc);
    for _ in 0..count {
        items.push(data(alloc, levels, reader)?)?;
    }
    Ok(Items::from_vec(items))
}

/// What stands after a tag.
#[cycle(reading)]
#[tactic(auto, unfolding(crate::specs::Private::contents_at))]
fn contents(alloc: Global, levels: u8, tag: Tag, reader: &mut Reader<'_>) -> Result<Data, AxdrError>
    ensures gives { Gives (λ x. value_of x) result reader.new
        (contents_at (λ s. data_at levels s) tag reader.old) }
    ensures memory { IfErr result (λ e. IfMemory e
        (TaggedTakes (λ s. MayTakeMemory levels s ⊎ SomeBegins levels s) (code tag) reader.old)) }
{
    match tag {
        Tag::Null => Ok(Data::Null),
        Tag::Array => Ok(Data::Array(items(alloc, levels, reader)?)),
        Tag::Structure => Ok(Data::Structure(items(alloc, levels, reader)?)),
        Tag::Boolean => Ok(Data::Boolean(reader.u8()? != 0)),
        Tag::BitString => Ok(Data::BitString(bits(alloc, reader)?)),
        Tag::DoubleLong => Ok(Data::DoubleLong(reader.u32()?.cast_signed())),
        Tag::DoubleLongUnsigned => Ok(Data::DoubleLongUnsigned(reader.u32()?)),
        Tag::OctetString => Ok(Data::OctetString(octets(alloc, reader)?)),
        Tag::VisibleString => Ok(Data::VisibleString(octets(alloc, reader)?)),
        Tag::Integer => Ok(Data::Integer(reader.u8()?.cast_signed())),
        Tag::Long => Ok(Data::Long(reader.u16()?.cast_signed())),
        Tag::Unsigned => Ok(Data::Unsigned(reader.u8()?)),
        Tag::LongUnsigned => Ok(Data::LongUnsigned(reader.u16()?)),
        Tag::Long64 => Ok(Data::Long64(reader.u64()?.cast_signed())),
        Tag::Long64Unsigned => Ok(Data::Long64Unsigned(reader.u64()?)),
        Tag::Enumerated => Ok(Data::Enumerated(reader.u8()?)),
    }
}

/// A Data for which `levels` levels are left.
#[cycle(reading)]
#[tactic(auto, unfolding(crate::specs::Private::data_at))]
fn data(alloc: Global, levels: u8, reader: &mut Reader<'_>) -> Result<Data, AxdrError>
    ensures gives { Gives (λ x. value_of x) result reader.new (data_at levels reader.old) }
    ensures memory { IfErr result (λ e. IfMemory e (MayTakeMemory levels reader.old)) }
{
    let byte = reader.u8()?;
    if levels == 0 {
        return Err(AxdrError::TooDeep);
    }
    let Some(tag) = Tag::from_byte(byte) else {
        return Err(AxdrError::UnknownTag);
    };
    contents(alloc, levels - 1, tag, reader)
}

/// Reads the Data at the front of `bytes` (IEC 62056-5-3, A-XDR): its value, and how many bytes it
/// takes. Anything may follow it.
///
/// Reading is lenient (own rule of this profile): a longer length form than needed is taken, any
/// nonzero boolean byte is true, unused bits of a bit-string are ignored and kept as zero, and
/// elements of an array may differ in type.
///
/// Memory is taken only for elements and bytes that are there, whatever a length claims, and the
/// bytes of a string are copied once.
///
/// # Errors
///
/// The leftmost fault (own rules of this profile), elements in order:
///
/// - `Truncated`: a byte is missing at the place of a Data, in a length or in contents.
/// - `UnknownTag`: a tag stands for none of the sixteen types.
/// - `BadLength`: the first byte of a length is 80 or 85 to ff (hexadecimal).
/// - `TooDeep`: there is a byte at the place of a Data of depth 9.
/// - `OutOfMemory`: memory was refused where a value grew, before any fault further right.
pub fn read(alloc: Global, bytes: &[u8]) -> Result<(Data, usize), AxdrError>
    // The bytes that are taken are a Data and spell the value.
    ensures within { IfOk result (λ x. x.1 ≤ length bytes.now) }
    ensures found { IfOk result (λ x. IsData max_depth (take x.1 bytes.now) (value_of x.0)) }

    // A fault is the leftmost one, and comes only if no front of the bytes is a Data.
    ensures none { IfErr result (λ e. IfFault e (NoneBegins max_depth bytes.now)) }
    ensures fault { IfErr result (λ e. IfFault e (Fails max_depth bytes.now e)) }

    // Memory is taken only for strings and elements that are there.
    ensures memory { IfErr result (λ e. IfMemory e (MayTakeMemory max_depth bytes.now)) }
{
    let mut reader = Reader::new(bytes);
    let value = data(alloc, MAX_DEPTH, &mut reader)?;
    Ok((value, bytes.len() - reader.len()))
}
