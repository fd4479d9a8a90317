//! The file of a journal while it is made.

ghost use Rattle.std.specs.Prelude.{◌≡◌, ◌↔◌, ℕ, List, IsTrue, take};
ghost use Rattle.fw_journal.specs.Book.{mark};

use crate::journal::{MARK, NEW_BOOK};
use fw_disk::Kind;

/// A journal that is made, whole or in part.
#[derive(Clone, Copy)]
pub(crate) struct BegunJournal;

impl Kind for BegunJournal {
    ghost use Rattle.fw_journal.specs.Begun.{IsBegunJournal, few_are_begun, front_is_begun};

    ghost ours = { λ _. IsBegunJournal };

    ghost first = { λ _. 5 };

    fn is_ours(&self, front: &[u8], len: u64) -> bool {
        len <= NEW_BOOK.len() as u64 || begins_book(front)
    }

    fn first(&self) -> usize {
        NEW_BOOK.len()
    }

    ghost small = { λ _. few_are_begun };

    ghost fronts = { λ _. front_is_begun };
}

/// Whether a file, of which this is the front, begins as a journal does.
fn begins_book(front: &[u8]) -> bool
    ensures { (all : List ℕ) → front.now ≡ take 16 all → (IsTrue result ↔ (take 4 all ≡ mark)) }
{
    front.starts_with(&MARK)
}
