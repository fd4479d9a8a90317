//! Why a list, a book or the waves of a rollout refuse what was to be done: once a command has ended, they are read again for that.

ghost use Rattle.std.specs.Prelude.{◌≢◌, IfSome};
ghost use Rattle.fw_host.specs.Busy.{IsFirstBusy};
ghost use Rattle.fw_plan.specs.Openings.{lacking};
ghost use Rattle.fw_plan.specs.Waves.{wave_rows};
ghost use Rattle.fw_cli.specs.InputCauses.{IsCauseOf, IsCauseOfBook, IsCauseOfKeys, IsOfBook, IsOfText, IsOfWaves, IsStopOf};

use crate::head::{HeadOptions, bytes_of_file, list_of_file};
use crate::head_error::HeadError;
use crate::keys::{KeyMakingError, KeysOptions};
use crate::status::bytes_of_book;
use fw_book::{Book, BookError};
use fw_faults::Fault;
use fw_host::{BusyMeter, ListCause, Opening, busy_meter, line_cause, listed_meters};
use fw_kept::read_kept;
use fw_names::{HeadId, MeterId};
use fw_plan::{Gate, MaxFailed, TooManyFailed, WaveMeter, gate_of, lacking, wave_rows};
use std::alloc::Global;
use std::fmt;
use std::fs::File;
use std::net::{Net, SocketAddr};
use std::rt::Files;

/// Why what was to be done is refused. It prints what the user reads behind the option that it is about.
#[derive(Clone, Copy)]
pub enum InputCause {
    /// Why the line is none of the list.
    Line(ListCause),
    /// A meter of the list is live in this campaign.
    Busy(BusyMeter),
    /// More rows of the waves before this one failed than may.
    Failed(TooManyFailed),
    /// The book is this head end's.
    Owner(HeadId),
}

impl fmt::Display for InputCause {
    fn fmt<W: fmt::Write>(&self, f: &mut fmt::Formatter<W>) -> fmt::Result {
        match self {
            InputCause::Line(cause) => fmt::Display::fmt(cause, f),
            InputCause::Busy(busy) => {
                let meter = busy.meter.number();
                let serial = busy.serial;
                write!(f, "meter {meter} is live in campaign {serial}")
            }
            InputCause::Failed(stop) => {
                let TooManyFailed { wave, failed, rows } = *stop;
                write!(
                    f,
                    "{failed} of {rows} rows before wave {wave} failed; it begins with --max-failed {failed}"
                )
            }
            InputCause::Owner(head) => {
                let head = head.number();
                write!(f, "it is the book of head end {head}")
            }
        }
    }
}

/// Why a head end with these options ended by this error, if that is to be seen in its list or in its book. They are read as they are now.
pub fn head_cause<F: Files<File = File> + Net>(
    rt: &F,
    alloc: Global,
    options: &HeadOptions<'_>,
    error: HeadError,
) -> Option<InputCause>
    ensures { IfSome result (IsCauseOf options.now error) }
{
    match error {
        HeadError::BadList(line) => {
            let cause = cause_in_file(rt, alloc, options.meters, options.listen, line)?;
            Some(InputCause::Line(cause))
        }
        HeadError::OpenRefused(BookError::MeterBusy) => {
            let opening = options.opening?;
            let busy = busy_now(rt, alloc, options, opening)?;
            Some(InputCause::Busy(busy))
        }
        HeadError::TooManyFailed(_) => {
            let stop = failed_now(rt, alloc, options)?;
            Some(InputCause::Failed(stop))
        }
        HeadError::ForeignHead => {
            let owner = owner_now(rt, alloc, options.book.path, options.head)?;
            Some(InputCause::Owner(owner))
        }
        _ => None,
    }
}

/// Why `cancel` or `give-up` of this head end ended by this fault, if that is to be seen in the book at this path. It is read as it is now.
pub fn book_cause<F: Files<File = File>>(
    rt: &F,
    alloc: Global,
    path: &str,
    head: HeadId,
    fault: Fault,
) -> Option<InputCause>
    ensures { IfSome result (IsCauseOfBook head fault) }
{
    match fault {
        Fault::ForeignHead => {
            let owner = owner_now(rt, alloc, path, head)?;
            Some(InputCause::Owner(owner))
        }
        _ => None,
    }
}

/// Why keys weren't made with these options, if that is to be seen in the list. It is read as it is now.
pub fn keys_cause<F: Files<File = File> + Net>(
    rt: &F,
    alloc: Global,
    options: &KeysOptions<'_>,
    error: KeyMakingError,
) -> Option<InputCause>
    ensures { IfSome result (IsCauseOfKeys options.now.listen error) }
{
    match error {
        KeyMakingError::BadList(line) => {
            let cause = cause_in_file(rt, alloc, options.meters, options.listen, line)?;
            Some(InputCause::Line(cause))
        }
        _ => None,
    }
}

/// Why this line of the file is none of a list for a head end at this address.
pub(crate) fn cause_in_file<F: Files<File = File> + Net>(
    rt: &F,
    alloc: Global,
    path: &str,
    own: SocketAddr,
    line: u64,
) -> Option<ListCause>
    ensures { IfSome result (IsOfText own) }
{
    let text = bytes_of_file(rt, alloc, path).ok()?;
    line_cause(rt, alloc, &text, own, line)
}

/// The first meter that this opening is for and that is live in a campaign of the book.
fn busy_now<F: Files<File = File> + Net>(
    rt: &F,
    alloc: Global,
    options: &HeadOptions<'_>,
    opening: Opening<'_>,
) -> Option<BusyMeter>
    ensures { IfSome result (IsOfBook opening.entry) }
{
    let list = list_of_file(rt, alloc, options.meters, options.listen).ok()?;
    let meters = listed_meters(alloc, list.meters().meters()).ok()?;
    let image = bytes_of_file(rt, alloc, opening.image).ok()?;
    let book = book_now(rt, alloc, options.book.path)?;
    busy_in(alloc, &book, opening, &image, &meters)
}

/// The first of these meters that this opening of an image is for and that is live in a campaign of the book.
fn busy_in(
    alloc: Global,
    book: &Book,
    opening: Opening<'_>,
    image: &[u8],
    meters: &[MeterId],
) -> Option<BusyMeter>
    ensures { IfSome result (IsFirstBusy book.now (lacking book.now opening.entry.serial opening.entry.release image.now meters.now)) }
{
    let (serial, release) = (opening.serial, opening.release);
    let Ok(lacking) = lacking(alloc, book, serial, release, image, meters) else {
        return None;
    };
    busy_meter(book, &lacking)
}

/// The wave of the list that doesn't begin, by the book.
fn failed_now<F: Files<File = File> + Net>(
    rt: &F,
    alloc: Global,
    options: &HeadOptions<'_>,
) -> Option<TooManyFailed>
    ensures { IfSome result (IsOfWaves options.now.max_failed) }
{
    let list = list_of_file(rt, alloc, options.meters, options.listen).ok()?;
    let meters = list.waves(alloc).ok()?;
    let book = book_now(rt, alloc, options.book.path)?;
    failed_in(alloc, &book, &meters, options.max_failed)
}

/// The wave of these meters that doesn't begin, by the book.
fn failed_in(
    alloc: Global,
    book: &Book,
    meters: &[WaveMeter],
    max_failed: MaxFailed,
) -> Option<TooManyFailed>
    ensures { IfSome result (IsStopOf max_failed (wave_rows book.now meters.now)) }
{
    let Ok(rows) = wave_rows(alloc, book, meters) else {
        return None;
    };
    match gate_of(&rows, max_failed) {
        Gate::TooManyFailed(stop) => Some(stop),
        Gate::Open(_) | Gate::Over => None,
    }
}

/// The head end whose book is in a file, if it isn't this one.
fn owner_now<F: Files<File = File>>(
    rt: &F,
    alloc: Global,
    path: &str,
    head: HeadId,
) -> Option<HeadId>
    ensures { IfSome result (λ owner. owner ≢ head) }
{
    let book = book_now(rt, alloc, path)?;
    let owner = book.head();
    if owner == head { None } else { Some(owner) }
}

/// The book in a file, if one is there.
fn book_now<F: Files<File = File>>(rt: &F, alloc: Global, path: &str) -> Option<Book> {
    let bytes = bytes_of_book(rt, alloc, path).ok()?;
    let (book, _notes, _untaken) = read_kept(alloc, &bytes).ok()?;
    book
}
