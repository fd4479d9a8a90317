//! The books that meters are audited with.

ghost use Rattle.std.specs.Prelude.{◌≡◌, All, Contains, IfOk, IfSome, IsTrue};
ghost use Rattle.fw_fleet_audit.specs.Rows.{AreBorneOut};
ghost use Rattle.fw_kept.specs.Kept.{IsReadAs};

use crate::error::Unaudited;
use crate::files::{AuditFault, bytes_of};
use crate::lines::{AuditForm, ToldRow, append_file, append_row, row_name, row_why, write_text};
use crate::options::AuditOptions;
use fw_book::Book;
use fw_fleet_audit::{AuditedMeter, RowDeparture, audit_book};
use fw_kept::read_kept;
use std::alloc::{AllocError, Global};
use std::fs::File;
use std::io::Write;
use std::rt::Files;

/// Books, each with the path of its file.
#[derive(Drop)]
pub(crate) struct Books<'a> {
    pub(crate) books: Vec<Book>,
    pub(crate) paths: Vec<&'a str>,
}

impl<'a> Books<'a> {
    /// Whether one is that of the file at this path.
    fn has(&self, path: &str) -> bool {
        for at in 0..self.paths.len() {
            if self.paths[at] == path {
                return true;
            }
        }
        false
    }

    /// Adds a book with the path of its file. After an error it is unspecified.
    fn add(&mut self, book: Book, path: &'a str) -> Result<(), AllocError> {
        self.books.push(book)?;
        self.paths.push(path)?;
        Ok(())
    }
}

/// The book of the file at this path, among books each of which has the path of its file at its place.
pub(crate) fn book_at<'b>(books: &'b [Book], paths: &[&str], path: &str) -> Option<&'b Book>
    ensures { IfSome result (λ book. Contains books.now book.now) }
{
    for number in 0..books.len() {
        if is_at(paths, number, path) {
            return Some(&books[number]);
        }
    }
    None
}

/// Whether the path at this place is this one.
fn is_at(paths: &[&str], at: usize, path: &str) -> bool {
    match paths.get(at) {
        Some(found) => *found == path,
        None => false,
    }
}

/// The books in the files of the options: those of books, and then those of head ends that aren't among these. Their lines are written. A
/// file without a record has none.
pub(crate) fn books_in<'a, F: Files<File = File>, W: Write>(
    rt: &F,
    alloc: Global,
    writer: &mut W,
    options: &AuditOptions<'a>,
) -> Result<Books<'a>, AuditFault> {
    let form = options.report;
    let mut books = Books {
        books: Vec::new(alloc),
        paths: Vec::new(alloc),
    };
    for at in 0..options.books.len() {
        add_book(rt, alloc, writer, form, options.books[at], &mut books)?;
    }
    for at in 0..options.head_logs.len() {
        let path = options.head_logs[at].book;
        if !books.has(path) {
            add_book(rt, alloc, writer, form, path, &mut books)?;
        }
    }
    Ok(books)
}

/// Adds the book of the file at this path, if that has a record, and writes its line.
fn add_book<'a, F: Files<File = File>, W: Write>(
    rt: &F,
    alloc: Global,
    writer: &mut W,
    form: AuditForm,
    path: &'a str,
    books: &mut Books<'a>,
) -> Result<(), AuditFault> {
    let bytes = bytes_of(rt, alloc, path, Unaudited::BookFault)?;
    let book = book_in(alloc, path, &bytes)?;
    let mut text = String::new(alloc);
    append_file(alloc, &mut text, form, "book", path, &bytes)?;
    write_text(writer, text.as_str())?;
    match book {
        Some(book) => Ok(books.add(book, path)?),
        None => Ok(()),
    }
}

/// The book that these bytes hold, if they have a record.
fn book_in(alloc: Global, path: &str, bytes: &[u8]) -> Result<Option<Book>, AuditFault>
    ensures { IfOk result (IsReadAs bytes.now) }
{
    match read_kept(alloc, bytes) {
        Ok((book, _notes, _untaken)) => Ok(book),
        Err(error) => Err(AuditFault {
            fault: Unaudited::from(error),
            file: String::from_str(alloc, path).ok(),
            reason: None,
        }),
    }
}

/// Writes a line for each book, with its path, that has a row done which these meters don't bear out. It returns for how many books.
pub(crate) fn tell_rows<W: Write>(
    alloc: Global,
    writer: &mut W,
    form: AuditForm,
    paths: &[&str],
    books: &[Book],
    meters: &[AuditedMeter],
) -> Result<u64, AuditFault>
    ensures { IfOk result (λ departed. departed ≡ 0 → All (λ book. AreBorneOut book meters.now) books.now) }
{
    let mut departed = 0u64;
    for at in 0..books.len() {
        let path = match paths.get(at) {
            Some(path) => *path,
            None => "",
        };
        let fits = tell_book(alloc, writer, form, path, &books[at], meters)?;
        departed = departed_with(departed, fits);
    }
    Ok(departed)
}

/// How many departed, with one more of which it is known whether it fits.
pub(crate) fn departed_with(departed: u64, fits: bool) -> u64
    ensures none { result ≡ 0 → departed ≡ 0 }
    ensures fits { result ≡ 0 → IsTrue fits }
{
    if fits {
        departed
    } else {
        departed.saturating_add(1)
    }
}

/// Whether these meters bear out the rows of a book that are done. The line of the first that they don't is written.
fn tell_book<W: Write>(
    alloc: Global,
    writer: &mut W,
    form: AuditForm,
    path: &str,
    book: &Book,
    meters: &[AuditedMeter],
) -> Result<bool, AuditFault>
    ensures { IfOk result (λ fits. IsTrue fits → AreBorneOut book.now meters.now) }
{
    match audit_book(book, meters) {
        Ok(()) => Ok(true),
        Err(departure) => {
            let mut text = String::new(alloc);
            let RowDeparture {
                campaign,
                meter,
                rule,
            } = departure;
            let row = ToldRow { campaign, meter };
            append_row(
                alloc,
                &mut text,
                form,
                row_name(rule),
                path,
                row,
                row_why(rule),
            )?;
            write_text(writer, text.as_str())?;
            Ok(false)
        }
    }
}
