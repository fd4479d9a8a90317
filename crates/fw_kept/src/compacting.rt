//! How the journal of a book is written anew.

ghost use Rattle.std.specs.Prelude.{◌≡◌, false, IsErrOf, IsTrue, OnOk};
ghost use Rattle.fw_journal.specs.Journal.{device_of, is_broken};
ghost use Rattle.fw_kept.specs.Private.{Puts};

use fw_book::{Book, Notes};
use fw_journal::{Journal, JournalDevice, Replacer, RewriteError};
use fw_ledger::write_records;
use std::alloc::Global;

/// Puts records of the book and of what is known of it in the place of all that its journal has, and of all that wait.
pub(crate) fn write_anew<D: JournalDevice, R: Replacer<D>>(
    alloc: Global,
    journal: &mut Journal<D>,
    replacer: &mut R,
    book: &Book,
    notes: &Notes,
) -> Result<(), RewriteError>
    ensures puts { Puts D.JournalDevice RewriteError.BookFault journal.old result journal.new book.now book.now notes.now notes.now }
    ensures anew { OnOk result (R.made replacer.new (device_of journal.new)) }
    ensures goes_on { IsErrOf result RewriteError.NotReplaced → is_broken journal.new ≡ false }
    ensures replaced { IsTrue (D.sound (device_of journal.old)) → ¬ IsErrOf result RewriteError.NotReplaced }
{
    fw_ledger::laws::books_have_notes();
    let Ok(records) = write_records(alloc, book, notes) else {
        return Err(RewriteError::OutOfMemory);
    };
    journal.rewrite(alloc, replacer, &records)
}
