//! The value of a Data: sixteen of COSEM's data types.

ghost use Rattle.std.specs.Prelude.{◌≡◌, ◌==◌};
ghost use Rattle.fw_axdr.specs.Value.{count};
ghost use Rattle.fw_axdr.specs.View.{values_of};

use crate::bits::Bits;
use crate::octets::Octets;
use std::marker::Model;

/// The outermost Data has depth 1, and none may have depth 9 (own rule of this profile).
pub(crate) const MAX_DEPTH: u8 = 8;

/// A value of one of sixteen data types (IEC 62056-6-2, Common data types). Contracts see what
/// `value_of` makes of it.
///
/// It is spelled as one tag byte and its contents (IEC 62056-5-3, A-XDR); numbers have their
/// highest byte first.
#[cycle(data)]
#[derive(Debug, Drop)]
pub enum Data {
    /// Tag 0, null-data: no contents.
    Null,
    /// Tag 1, array: a count, then that many Data, of any types (own rule of this profile).
    Array(Items),
    /// Tag 2, structure: a count, then that many Data.
    Structure(Items),
    /// Tag 3, boolean: 1 byte, 00 for false and 01 for true; any nonzero one is read as true.
    Boolean(bool),
    /// Tag 4, bit-string: a length in bits, then the bits, eight per byte.
    BitString(Bits),
    /// Tag 5, double-long: 4 bytes, two's complement.
    DoubleLong(i32),
    /// Tag 6, double-long-unsigned: 4 bytes.
    DoubleLongUnsigned(u32),
    /// Tag 9, octet-string: a length in bytes, then the bytes.
    OctetString(Octets),
    /// Tag 10, visible-string: a length in bytes, then the bytes, which are kept as they are.
    VisibleString(Octets),
    /// Tag 15, integer: 1 byte, two's complement.
    Integer(i8),
    /// Tag 16, long: 2 bytes, two's complement.
    Long(i16),
    /// Tag 17, unsigned: 1 byte.
    Unsigned(u8),
    /// Tag 18, long-unsigned: 2 bytes.
    LongUnsigned(u16),
    /// Tag 20, long64: 8 bytes, two's complement.
    Long64(i64),
    /// Tag 21, long64-unsigned: 8 bytes.
    Long64Unsigned(u64),
    /// Tag 22, enum: 1 byte.
    Enumerated(u8),
}

/// The elements of an array or a structure, which contracts see as the values that they stand for.
#[cycle(data)]
#[derive(Debug, Drop)]
pub struct Items {
    items: Vec<Data>,
}

impl Model for Items {
    ghost use Rattle.fw_axdr.specs.Value.{Values};
    ghost use Rattle.fw_axdr.specs.Stored.{values_code, values_size};

    ghost Value = { Values };

    ghost coded = { values_code };

    ghost use Rattle.fw_axdr.specs.View.{values_of};

    ghost view = { λ a. values_of a.items.items };

    ghost size = { values_size };

    ghost use Rattle.fw_axdr.specs.Falls.{items_falls};

    ghost size_decreases = { λ a h. items_falls a };
}

impl Items {
    /// Elements of a `Vec`, which keeps its memory.
    pub fn from_vec(items: Vec<Data>) -> Items
        ensures { result ≡ values_of items.items }
    {
        Items { items }
    }

    /// The `Vec` of the elements; takes no memory.
    pub fn into_vec(self) -> Vec<Data>
        ensures { values_of result.items ≡ self }
    {
        self.items
    }

    /// The elements in order.
    pub fn as_slice(&self) -> &[Data]
        ensures { values_of result.now ≡ self.now }
    {
        self.items.as_slice()
    }

    /// How many elements there are.
    #[tactic(auto, using(crate::proofs::Counts::count_values_of))]
    pub fn len(&self) -> usize
        ensures { result ≡ count self.now }
    {
        self.items.len()
    }

    /// Whether there is no element.
    pub fn is_empty(&self) -> bool
        ensures { result ≡ (count self.now == 0) }
    {
        self.len() == 0
    }
}
