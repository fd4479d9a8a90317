//! The end of a row, as the book notes it.

ghost use Rattle.std.specs.Prelude.{IsOk};

use fw_book::BookError;

/// A row that ends here was live in the book, so that its end is marked.
pub(crate) fn expect_marked(marked: Result<(), BookError>)
    requires { IsOk marked }
    ensures { IsOk marked }
{
    match marked {
        Ok(()) => {}
        Err(_) => unreachable!(),
    }
}
