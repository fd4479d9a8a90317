//! Laws of records, of their book and of their notes, over the definitions alone.

ghost use Rattle.fw_ledger.specs.Laws.{OneRecord, OneBook, FailedHaveNone, FrontsHaveBooks, BooksHaveNotes, NotesGoOn, NothingNoted};

/// A byte string spells at most one record.
pub fn one_record()
    ensures { OneRecord }
{}

/// Records have at most one book.
pub fn one_book()
    ensures { OneBook }
{}

/// Records have no book where one of them makes nothing of the book before it.
pub fn failed_have_none()
    ensures { FailedHaveNone }
{}

/// If records have a book, the first ones of them have one too: that of an earlier moment.
pub fn fronts_have_books()
    ensures { FrontsHaveBooks }
{}

/// From the records of a book one thing is known, and it is of that book: of its campaigns, and of rows that ended so.
pub fn books_have_notes()
    ensures { BooksHaveNotes }
{
    fw_book::laws::notes_say();
    fw_book::laws::images_stay();
    fw_book::laws::states_follow();
    fw_book::laws::admitted_opens();
}

/// What is known with one record more.
pub fn notes_go_on()
    ensures { NotesGoOn }
{
    fw_book::laws::notes_say();
}

/// From records without a note nothing is known: so it is with those of a book that was kept before there were notes.
pub fn nothing_noted()
    ensures { NothingNoted }
{}
