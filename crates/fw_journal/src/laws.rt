//! Laws of the bytes of a journal, over the definitions alone.

ghost use Rattle.fw_journal.specs.Laws.{OneReading, BadIsNone, BookStands, OneCount, EachIsCut, CutMakingsBegin, FirstBytesBegin};

/// Bytes stand for one list of records at most.
pub fn one_reading()
    ensures { OneReading }
{}

/// Bytes with a bad record, or that don't begin as a journal does, stand for none, so no power cut in a call leaves such, but one in `create`.
pub fn bad_is_none()
    ensures { BadIsNone }
{}

/// The bytes of a journal between two calls stand for its records.
pub fn book_stands()
    ensures { BookStands }
{}

/// Bytes have one number of whole records that stand one after another, each behind one byte of any value.
pub fn one_count()
    ensures { OneCount }
{}

/// A file that has the first five bytes of a journal counts as left of a journal that is made, whatever follows them. These are synced
/// before any other is written, so what a cut making leaves is taken by the next one.
pub fn first_bytes_begin()
    ensures { FirstBytesBegin }
{}

/// What a power cut may leave in the making of a journal, of a file without bytes, counts as left of a journal that is made: so the next making
/// takes it.
pub fn cut_makings_begin()
    ensures { CutMakingsBegin }
{}

/// Each byte string that a power cut may leave of a device in memory is what is read, or what a cut leaves where the changes since the last
/// sync have some fates.
pub fn each_is_cut()
    ensures { EachIsCut }
{}
