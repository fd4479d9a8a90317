//! The tags of the types (IEC 62056-6-2, Common data types).

ghost use Rattle.std.specs.Prelude.{◌≡◌};
ghost use Rattle.fw_axdr.specs.Private.{tag_at, code};

/// The type that a Data's first byte stands for.
#[derive(Clone, Copy)]
pub(crate) enum Tag {
    Null = 0,
    Array = 1,
    Structure = 2,
    Boolean = 3,
    BitString = 4,
    DoubleLong = 5,
    DoubleLongUnsigned = 6,
    OctetString = 9,
    VisibleString = 10,
    Integer = 15,
    Long = 16,
    Unsigned = 17,
    LongUnsigned = 18,
    Long64 = 20,
    Long64Unsigned = 21,
    Enumerated = 22,
}

impl Tag {
    /// The tag of a byte, if it stands for a type.
    pub(crate) fn from_byte(byte: u8) -> Option<Tag>
        ensures { result ≡ tag_at byte }
    {
        match byte {
            0 => Some(Tag::Null),
            1 => Some(Tag::Array),
            2 => Some(Tag::Structure),
            3 => Some(Tag::Boolean),
            4 => Some(Tag::BitString),
            5 => Some(Tag::DoubleLong),
            6 => Some(Tag::DoubleLongUnsigned),
            9 => Some(Tag::OctetString),
            10 => Some(Tag::VisibleString),
            15 => Some(Tag::Integer),
            16 => Some(Tag::Long),
            17 => Some(Tag::Unsigned),
            18 => Some(Tag::LongUnsigned),
            20 => Some(Tag::Long64),
            21 => Some(Tag::Long64Unsigned),
            22 => Some(Tag::Enumerated),
            _ => None,
        }
    }

    /// The byte of a tag.
    pub(crate) fn byte(self) -> u8
        ensures { result ≡ code self }
    {
        self as u8
    }
}
