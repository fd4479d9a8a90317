//! Laws of spellings, over the definitions alone. A caller cites a law by calling it, which does
//! nothing.

ghost use Rattle.fw_axdr.specs.Laws.{ShortSpells, OneSpelling, OneFault, BitsPacked, BytesPacked};

/// The short spelling of a value spells it, if no part of the value is unwritable.
pub fn short_spells()
    ensures { ShortSpells }
{}

/// A byte string spells at most one value, and no spelling is a proper front of another. So what
/// was written is read back, whatever follows it.
pub fn one_spelling()
    ensures { OneSpelling }
{}

/// A byte string that has a fault begins with no Data, and has no other fault.
pub fn one_fault()
    ensures { OneFault }
{}

/// Packed bits are as many bytes as the bits need, and the bits come back from them.
pub fn bits_packed()
    ensures { BitsPacked }
{}

/// Whole bytes come back from their bits.
pub fn bytes_packed()
    ensures { BytesPacked }
{}
