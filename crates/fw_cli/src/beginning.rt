//! What a head end cancels and opens in its book: it is judged before anything is written, and done once datagrams are received.

ghost use Rattle.std.specs.Prelude.{◌≡◌, ◌≢◌, [], All, IfErr, IfOk, OnErr, OnOk, Some};
ghost use Rattle.fw_book.specs.declared.error.BookError.{BookError as Refusal};
ghost use Rattle.fw_head.specs.Head.{opened_head};
ghost use Rattle.fw_kept.specs.Head.{head_of};
ghost use Rattle.fw_host.specs.Openings.{IsTakenBy, RefusesOne};
ghost use Rattle.fw_host.specs.Waves.{listed_in};
ghost use Rattle.fw_cli.specs.Beginning.{AreChanges, AreOpenings, Begins, IsOpeningOf, opened_all};
ghost use Rattle.fw_cli.specs.Cancelling.{cancelled_all};
ghost use Rattle.fw_cli.specs.HeadErrors.{
  IsOfBeginning,
  IsOfJudging,
  IsOfOpened,
  IsOfOpening,
  IsOfOpeningSetup,
  not_cancelled,
  not_opened,
};
ghost use Rattle.fw_cli.specs.Judging.{AreTaken, IsJudged};
ghost use Rattle.fw_cli.specs.Telling.{TellsChanges};

use crate::error::FileError;
use crate::head::{Asked, bytes_of_file, cancel_one};
use crate::head_error::{HeadError, HeadFailure};
use fw_book::{Book, BookError};
use fw_host::{Lines, Opening, cancels_of, check_parts, date, parts_of};
use fw_journal::FileDevice;
use fw_kept::{KeptError, KeptHead};
use fw_plan::{Part, SerialRange};
use fw_rollout::Listed;
use std::alloc::Global;
use std::fs::File;
use std::io::Write;
use std::rt::{Clock, Files};

/// What is opened: campaigns of one image.
#[derive(Drop)]
pub(crate) struct Opened {
    /// The serial number from which on they are opened.
    serial: u32,
    release: u32,
    image: Vec<u8>,
    /// When they are opened, in seconds since 1970 began (UTC).
    at: u64,
}

/// What is cancelled and opened in a book, which refused none of it.
pub(crate) struct Changes {
    /// The serial numbers of the campaigns that are cancelled first.
    cancels: Vec<u32>,
    /// The campaigns that are opened then.
    parts: Vec<Part>,
}

// Written out, so that letting go of it is one call in a proof. A derived `Drop` is unfolded there field by field, which takes minutes.
impl Drop for Changes {
    fn drop(self) {
        let Changes {
            cancels: _,
            parts: _,
        } = self;
    }
}

/// What is opened for the meters of a list, with the image of its file.
pub(crate) fn opened_of<F: Files<File = File> + Clock>(
    rt: &F,
    alloc: Global,
    opening: Opening<'_>,
    list: &[Listed],
) -> Result<Opened, HeadError>
    ensures opened { IfOk result (λ opened. IsOpeningOf (Some opening.entry) (Some opened)) }
    ensures empty { list.now ≡ [] → IfErr result (λ e. e ≡ HeadError.OpenRefused BookError.NoMeters) }
    ensures faults { IfErr result IsOfOpeningSetup }
{
    if list.is_empty() {
        return Err(HeadError::OpenRefused(BookError::NoMeters));
    }
    let image = match bytes_of_file(rt, alloc, opening.image) {
        Ok(image) => image,
        Err(FileError::Unread) => return Err(HeadError::ImageFault),
        Err(FileError::TooLong) => return Err(HeadError::OpenRefused(BookError::ImageTooLong)),
        Err(FileError::OutOfMemory) => return Err(HeadError::OutOfMemory),
    };
    Ok(Opened {
        serial: opening.serial,
        release: opening.release,
        image,
        at: date(rt),
    })
}

/// What is cancelled and opened in a book, which refuses none of it. Campaigns that are cancelled first let go of their meters, so what the
/// book says of openings is asked then once they are.
pub(crate) fn judge(
    alloc: Global,
    book: &Book,
    named: &[SerialRange],
    asked: &Asked,
) -> Result<Changes, HeadError>
    ensures changes { IfOk result (λ changes. AreChanges book.now named.now asked.now.opened (listed_in asked.now.list) changes) }
    ensures judged { IfOk result (λ changes. IsJudged book.now asked.now.opened changes) }
    ensures faults { IfErr result (IsOfJudging named.now asked.now.opened) }
{
    let cancels = cancels_of(alloc, book, named)?;
    let parts = missing_of(alloc, book, asked)?;
    check_opened(book, &cancels, &parts, asked)?;
    Ok(Changes { cancels, parts })
}

/// Checks that a book takes each of these campaigns of this image.
fn check_all(book: &Book, parts: &[Part], image: &[u8]) -> Result<(), HeadError>
    ensures taken { OnOk result (All (IsTakenBy book.now image.now) parts.now) }
    ensures refused { IfErr result (λ e. (refusal : Refusal) × (e ≡ HeadError.OpenRefused refusal) × RefusesOne book.now image.now parts.now refusal) }
{
    match check_parts(book, parts, image) {
        Ok(()) => Ok(()),
        Err(refusal) => Err(HeadError::OpenRefused(refusal)),
    }
}

/// The campaigns of what is opened that a book lacks for the meters of the list. There are none if nothing is opened.
fn missing_of(alloc: Global, book: &Book, asked: &Asked) -> Result<Vec<Part>, HeadError>
    ensures parts { IfOk result (λ parts. AreOpenings asked.now.opened (listed_in asked.now.list) book.now parts.items) }
    ensures faults { IfErr result (IsOfOpened asked.now.opened) }
{
    let list = asked.list.meters().meters();
    let Some(opened) = &asked.opened else {
        return Ok(Vec::new(alloc));
    };
    Ok(parts_of(
        alloc,
        book,
        opened.serial,
        opened.release,
        &opened.image,
        list,
    )?)
}

/// Checks that a book takes each of these campaigns of what is opened, if none is cancelled first.
fn check_opened(
    book: &Book,
    cancels: &[u32],
    parts: &[Part],
    asked: &Asked,
) -> Result<(), HeadError>
    ensures taken { OnOk result (cancels.now ≡ [] → AreTaken book.now asked.now.opened parts.now) }
    ensures faults { IfErr result (IsOfOpened asked.now.opened) }
{
    if !cancels.is_empty() {
        return Ok(());
    }
    match &asked.opened {
        Some(opened) => check_all(book, parts, &opened.image),
        None => Ok(()),
    }
}

/// Cancels and opens these campaigns. A fault of the book has the cause of its device.
pub(crate) fn begin<W: Write>(
    alloc: Global,
    lines: &mut Lines<'_, W>,
    kept: &mut KeptHead<FileDevice>,
    changes: Changes,
    opened: Option<Opened>,
) -> Result<(), HeadFailure>
    ensures begins { OnOk result (Begins changes opened (head_of kept.old) (head_of kept.new)) }
    ensures writer { lines.new.writer.ghost_name ≡ lines.old.writer.ghost_name }
    ensures told { TellsChanges (head_of kept.old) (head_of kept.new) lines.old.lost lines.new.lost (W.contents lines.old.writer.now)
        (W.contents lines.new.writer.now) }
    ensures faults { IfErr result (λ f. IsOfBeginning changes.cancels.items opened f.error) }
{
    match cancel_and_open(alloc, lines, kept, &changes, opened) {
        Ok(()) => Ok(()),
        Err(error) => Err(HeadFailure::from(error).of_book(kept.device())),
    }
}

/// Cancels and opens these campaigns.
fn cancel_and_open<W: Write>(
    alloc: Global,
    lines: &mut Lines<'_, W>,
    kept: &mut KeptHead<FileDevice>,
    changes: &Changes,
    opened: Option<Opened>,
) -> Result<(), HeadError>
    ensures begins { OnOk result (Begins changes.now opened (head_of kept.old) (head_of kept.new)) }
    ensures writer { lines.new.writer.ghost_name ≡ lines.old.writer.ghost_name }
    ensures told { TellsChanges (head_of kept.old) (head_of kept.new) lines.old.lost lines.new.lost (W.contents lines.old.writer.now)
        (W.contents lines.new.writer.now) }
    ensures faults { IfErr result (IsOfBeginning changes.now.cancels.items opened) }
{
    match cancel_each(alloc, lines, kept, &changes.cancels) {
        Ok(()) => {}
        Err(error) => return Err(not_cancelled(error)),
    }
    match opened {
        Some(opened) => open_all(alloc, lines, kept, &changes.parts, &opened),
        None => Ok(()),
    }
}

/// Why nothing is led, if a campaign isn't cancelled.
fn not_cancelled(error: KeptError) -> HeadError
    ensures { result ≡ not_cancelled error }
{
    match error {
        KeptError::Refused(refusal) => HeadError::CancelRefused(refusal),
        KeptError::Full => HeadError::Full,
        KeptError::BookFault => HeadError::BookFault,
        KeptError::OutOfMemory => HeadError::OutOfMemory,
    }
}

/// Cancels the campaigns of these serial numbers in their order, and writes the line of each once that is on the device.
fn cancel_each<W: Write>(
    alloc: Global,
    lines: &mut Lines<'_, W>,
    kept: &mut KeptHead<FileDevice>,
    serials: &[u32],
) -> Result<(), KeptError>
    ensures cancelled { OnOk result (head_of kept.new ≡ cancelled_all serials.now (head_of kept.old)) }
    ensures writer { lines.new.writer.ghost_name ≡ lines.old.writer.ghost_name }
    ensures told { TellsChanges (head_of kept.old) (head_of kept.new) lines.old.lost lines.new.lost (W.contents lines.old.writer.now)
        (W.contents lines.new.writer.now) }
    ensures some { OnErr result (serials.now ≢ []) }
{
    for serial in serials {
        cancel_one(alloc, lines, kept, *serial)?;
    }
    Ok(())
}

/// Opens these campaigns, once it is known that the book takes each of them, and writes a line for each.
fn open_all<W: Write>(
    alloc: Global,
    lines: &mut Lines<'_, W>,
    kept: &mut KeptHead<FileDevice>,
    parts: &[Part],
    opened: &Opened,
) -> Result<(), HeadError>
    ensures opened { OnOk result (head_of kept.new ≡ opened_all opened.now.release opened.now.image.items parts.now (head_of kept.old)) }
    ensures writer { lines.new.writer.ghost_name ≡ lines.old.writer.ghost_name }
    ensures told { TellsChanges (head_of kept.old) (head_of kept.new) lines.old.lost lines.new.lost (W.contents lines.old.writer.now)
        (W.contents lines.new.writer.now) }
    ensures faults { IfErr result IsOfOpening }
{
    let Opened {
        serial: _,
        release,
        image,
        at,
    } = opened;
    check_all(kept.head().view().book, parts, image)?;
    match open_parts(alloc, lines, kept, parts, *release, image, *at) {
        Ok(()) => Ok(()),
        Err(error) => Err(not_opened(error)),
    }
}

/// Why nothing is led, if a campaign isn't opened.
fn not_opened(error: KeptError) -> HeadError
    ensures { result ≡ not_opened error }
{
    match error {
        KeptError::Refused(refusal) => HeadError::OpenRefused(refusal),
        KeptError::Full => HeadError::Full,
        KeptError::BookFault => HeadError::BookFault,
        KeptError::OutOfMemory => HeadError::OutOfMemory,
    }
}

/// Opens these campaigns, in their order.
fn open_parts<W: Write>(
    alloc: Global,
    lines: &mut Lines<'_, W>,
    kept: &mut KeptHead<FileDevice>,
    parts: &[Part],
    release: u32,
    image: &[u8],
    at: u64,
) -> Result<(), KeptError>
    ensures opened { OnOk result (head_of kept.new ≡ opened_all release image.now parts.now (head_of kept.old)) }
    ensures writer { lines.new.writer.ghost_name ≡ lines.old.writer.ghost_name }
    ensures told { TellsChanges (head_of kept.old) (head_of kept.new) lines.old.lost lines.new.lost (W.contents lines.old.writer.now)
        (W.contents lines.new.writer.now) }
{
    for part in parts {
        open_one(alloc, lines, kept, part, release, image, at)?;
    }
    Ok(())
}

/// Opens this campaign, and writes its line once that is on the device.
fn open_one<W: Write>(
    alloc: Global,
    lines: &mut Lines<'_, W>,
    kept: &mut KeptHead<FileDevice>,
    part: &Part,
    release: u32,
    image: &[u8],
    at: u64,
) -> Result<(), KeptError>
    ensures opened { OnOk result (head_of kept.new ≡ opened_head (head_of kept.old) part.now.serial release image.now part.now.meters.items) }
    ensures writer { lines.new.writer.ghost_name ≡ lines.old.writer.ghost_name }
    ensures told { TellsChanges (head_of kept.old) (head_of kept.new) lines.old.lost lines.new.lost (W.contents lines.old.writer.now)
        (W.contents lines.new.writer.now) }
{
    let name = kept.open_campaign(alloc, part.serial, release, image, &part.meters, at)?;
    lines.tell_opened(name);
    Ok(())
}
