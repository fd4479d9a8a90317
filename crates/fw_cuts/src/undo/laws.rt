//! Laws of the journal and of what a power cut leaves, over the definitions alone.

ghost use Rattle.fw_cuts.specs.Laws.{OneWrite, EachCutIsMended, OneSectorIsWhole};

/// A byte string is at most one write's journal.
pub fn one_write()
    ensures { OneWrite }
{}

/// Whatever sectors of a write are on the disk: what its recovery makes of the file is the file before the write, or the one after it.
pub fn each_cut_is_mended()
    ensures { EachCutIsMended }
{}

/// Whatever sectors of a write that changes one sector are on the disk, the file is the one before the write, or the one after it.
pub fn one_sector_is_whole()
    ensures { OneSectorIsWhole }
{}
