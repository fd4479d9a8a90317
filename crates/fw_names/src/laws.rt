//! Laws of names' spellings, over the definitions alone.

ghost use Rattle.fw_names.specs.Laws.{OneName, SpellingsDiffer, SpellingSize};

/// A byte string spells at most one name.
pub fn one_name()
    ensures { OneName }
{}

/// Different names have different spellings.
pub fn spellings_differ()
    ensures { SpellingsDiffer }
{}

/// Every spelling has 41 bytes, or 45.
pub fn spelling_size()
    ensures { SpellingSize }
{}
