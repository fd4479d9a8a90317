//! Laws of header writes over files that may be cut at any moment. They speak of whatever is done to the files.

ghost use Rattle.fw_whole.specs.Laws.{EachCutIsWhole, HeaderStaysAtRest};

use fw_cuts::StoreFiles;

/// Whenever the power is cut in a header write of a store at rest, or after it, and whatever the write answers: the next opening finds the
/// store as before the write, or with all of the new header and the slots as they were read. Or else the journal that was left is neither
/// the old one nor that of the write, and its SHA-256 is right by chance.
pub fn each_cut_is_whole<F: StoreFiles>()
    ensures { EachCutIsWhole F.seen }
{}

/// Whenever the power is cut while a store is at rest, as after a header write that returned `Ok`, the next opening finds its header.
pub fn header_stays_at_rest<F: StoreFiles>()
    ensures { HeaderStaysAtRest F.seen }
{}
