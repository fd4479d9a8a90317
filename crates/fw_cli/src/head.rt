//! The command `head`: a head end whose book is in a file leads meters over UDP to the images that they are offered.

ghost use Rattle.std.specs.Prelude.{◌≡◌, ◌≤◌, ◌∷◌, [], ℕ, List, Option, IfErr, IfOk, IsTrue, OnErr, OnOk, None, Some, false, is_some};
ghost use Rattle.std.specs.Io.KnownBytes.{Keeps};
ghost use Rattle.fw_head.specs.Head.{BeginsWith, campaign_at, cancelled_head};
ghost use Rattle.fw_journal.specs.File.{cause_of};
ghost use Rattle.fw_kept.specs.Head.{book_of, head_of};
ghost use Rattle.fw_kept.specs.Refusals.{IsRefusedFor};
ghost use Rattle.fw_rollout.specs.Counting.{counted_of};
ghost use Rattle.fw_rollout.specs.Daemon.{HasRunOut, IsLed, IsOver, meters_of, timing_of};
ghost use Rattle.fw_rollout.specs.Leading.{Leader};
ghost use Rattle.fw_host.specs.Heads.{cancelled_line};
ghost use Rattle.fw_host.specs.Lists.{SpellsList};
ghost use Rattle.fw_host.specs.Waves.{listed_in};
ghost use Rattle.fw_host.specs.Telling.{Told};
ghost use Rattle.fw_host.specs.declared.sealing.SealingOptions.{SealingOptions as Sealed};
ghost use Rattle.fw_book.specs.Changes.{cancel_refusal, empty_book};
ghost use Rattle.fw_cli.specs.Beginning.{AreChanges, HasLedOut, HasLedTo, IsDaemonOf, IsOpeningOf};
ghost use Rattle.fw_cli.specs.HeadErrors.{ComesBeforeLines, IsAskedFor, IsOfLeading, head_of_closing};
ghost use Rattle.fw_cli.specs.Judging.{IsJudged};
ghost use Rattle.fw_cli.specs.Reasons.{book_reason};
ghost use Rattle.fw_cli.specs.Sealing.{IsHeadSealing, links_in, links_of, options_of};
ghost use Rattle.fw_cli.specs.Telling.{TellsChanges, TellsEnded};
ghost use Rattle.fw_cli.specs.Waves.{AreWaves};

use crate::beginning::{Changes, Opened, begin, judge, opened_of};
use crate::capture_file::{CaptureFile, closing, end_capture, failure_of, reason_of, start_head};
use crate::error::{ClosingError, FileError, ListFileError};
use crate::going_on::{tell_going_on, tell_unlisted};
use crate::head_error::{HeadError, HeadFailure};
use crate::head_watch::{HeadTold, Watched};
use crate::meter::{Listening, RecordedPort, tell_listening};
use crate::sealing::{JudgedSealing, Keyed, keyed_head};
use crate::told_files::ToldFiles;
use crate::waves::{WaveStop, Waves};
use fw_blocks::Width;
use fw_book::{Book, BookError};
use fw_disk::{Because, Cause, Reason};
use fw_events::ToldRows;
use fw_faults::{InputError, Reads, read_input};
use fw_host::{
    BookOptions, CapturePort, ClosedBy, DatagramPort, HeadProgress, Lines, Opening, ProgressOutput,
    Sealing, SealingOptions, Strangers, SyncedSink, UdpHeadPort, WaveList, check_absent, make_book,
    open_book, read_list,
};
use fw_journal::{FileDevice, JournalDevice};
use fw_kept::{KeptError, KeptHead};
use fw_names::{CampaignId, HeadId};
use fw_plan::{MaxFailed, SerialRange, UnlistedRow};
use fw_port::UdpPort;
use fw_rollout::{HeadDaemon, Listed, MeterList, Plan, Stop, Timing};
use fw_sealport::SealedPort;
use std::alloc::{AllocError, Global};
use std::fs::File;
use std::io::Write;
use std::net::{Net, SocketAddr};
use std::rt::{Clock, Files};
use std::sync::Wait;

/// How long a receive waits, in milliseconds. It is the least time in which a silence is seen.
const WAIT_LIMIT: u64 = 5;

/// The options of the command.
#[derive(Drop)]
pub struct HeadOptions<'a> {
    /// The head end.
    pub head: HeadId,
    /// Where its book is.
    pub book: BookOptions<'a>,
    /// The path of the list of its meters.
    pub meters: &'a str,
    /// The address that it asks from.
    pub listen: SocketAddr,
    /// The campaigns that are cancelled first.
    pub cancel: Vec<SerialRange>,
    /// What is opened then.
    pub opening: Option<Opening<'a>>,
    /// How many blocks are sent to a meter at a time.
    pub width: Width,
    /// How answers are waited for.
    pub timing: Timing,
    /// From when on images are activated, and how long a meter may be silent.
    pub plan: Plan,
    /// How many rows of the earlier waves may fail, so that the next one begins.
    pub max_failed: MaxFailed,
    /// Whether it goes on if no row is live.
    pub stays: bool,
    /// The path of the file of the capture, if one is asked for.
    pub capture: Option<&'a str>,
    /// Whether it has the datagrams of addresses that are not in the list too.
    pub captures_strangers: bool,
    /// What its links are sealed with, where keys are given.
    pub sealing: Option<SealingOptions<'a>>,
}

/// What a head end led its rows to, once none is live that it leads.
#[derive(Clone, Copy, PartialEq, Eq, Debug)]
pub enum LedOut {
    /// None is live, and none of those that it led failed.
    NoneFailed,
    /// None is live, and one of those that it led failed at least.
    SomeFailed,
    /// One is live at least, since its meter isn't in the list.
    SomeUnlisted,
}

impl LedOut {
    /// What it led them to, if it didn't lead these, and so many of those that it led failed.
    fn of(unlisted: &[UnlistedRow], failed: u64) -> LedOut
        ensures { HasLedTo unlisted.now failed result }
    {
        if !unlisted.is_empty() {
            LedOut::SomeUnlisted
        } else if failed == 0 {
            LedOut::NoneFailed
        } else {
            LedOut::SomeFailed
        }
    }
}

/// The head end leads each live row of its book to its end whose meter is in the list, wave after wave. It may be ended at any moment, and
/// goes on there when it is run again.
///
/// If a capture is asked for, its file is gone on with, or made if no file is there. It gets the start of the head end, once its book is open,
/// and what is received and sent, each before it is handled or sent. What comes from addresses that are not in the list is counted in it,
/// unless that is asked for too. The disk has it about a second later, and at the end.
///
/// With keys each datagram that it takes and sends is sealed, on the link of the file of its keys with that meter. What doesn't open is
/// dropped. The counters of what it sends are in the file of its keys with `.counter` after it, whatever the book is.
///
/// All is judged before a file is made: the list, the image, the keys, the socket, and what is cancelled and opened, as far as the book is
/// known then, and counters that are there. The file of the capture comes next, then a new one of counters, a new book, and those of events
/// and metrics last.
///
/// The writer gets the line `listening ..`, once datagrams are received, `cancelled ..` and `opened ..` for each campaign, `row ..` for each
/// row that ended, each once the disk has it, and `over ..` at the end. Each is flushed. After the first, a line that can't be written is
/// lost. Standard error shows the progress as `progress` says. It is told of records that the book lacks, and of the file that keeps them
/// ([`open_book`]), then of each campaign that has live rows from an earlier run, and of each live row whose meter isn't in the list.
///
/// Events and metrics go where `files` says, which was judged: each line after the first has its event behind it, and each row that ended
/// without one gets it before others are led. One that can't be written is lost.
///
/// # Errors
///
/// With a fault of a file stands why it was refused, if that is known.
///
/// - `ListFault`: the list can't be read. `BadList`: this line is none of a list.
/// - `ImageFault`: the image can't be read. `OpenRefused` with `ImageTooLong`: it has more than 64 MiB.
/// - `KeysFault`, `KeysReadable`, `BadKeys`: the file of the keys can't be opened or read, others than its owner may read it, or this line is
///   none of it. `NoKey`: the meter of this number is in the list, and has no line in that file.
/// - `BadSetup`: the campaigns that are opened need more serial numbers than are free, or begin at 0, which is none.
/// - `Socket`: the address can't be received at. Or the socket failed 1,000 times in a row while the head end led, or the system had no time.
/// - `NoBook`, `BookExists`, `Locked`, `BadBook`, `BadRecord`, `ForeignHead`: the file has no book that this head end may begin with. It is
///   left as it is, or as a journal of the same records.
/// - `NoCounter`, `CounterExists`: no file of counters is there and none is to be made, or one is there and is to be made. `CounterLocked`:
///   another process has it, whatever its book is: one at a time seals with these keys.
/// - `CaptureFault`: the file of the capture can't be made or opened, or another process has it. Or a record can't be written while the
///   head end leads: what it is of wasn't handled or sent. Or the records can't be put on the disk.
/// - `ForeignCapture`: the file holds something else than a capture of a daemon. It is left as it is.
/// - `CounterFault`: the file of the counters can't be made, opened or read, or holds none. Or it can't be written while the head end leads.
///   `CounterSpent`: all counters are used. Nothing is sent from then on.
/// - `CancelRefused`, `OpenRefused`: the book's refusal.
/// - `BookFault`, `Full`: the file can't be made, opened or written. Nothing of what it lacks was reported.
/// - `TooManyFailed`: so many rows of the waves before the next one failed that it doesn't begin. Its rows and the later ones are live.
/// - `Output`: the first line can't be written. Or the file of events or of metrics can't be begun, as `files` has then: nothing was sent.
/// - `OutOfMemory`.
///
/// Up to `ForeignCapture` nothing was sent, the book has the records of before, and no new one is made. So it is at `CancelRefused`, and at
/// `OpenRefused` if nothing is cancelled first. Up to `OpenRefused` nothing was sent.
pub fn run_head<R: Files<File = File> + Clock + Eprint + Net + Wait, W: Write>(
    rt: &R,
    alloc: Global,
    writer: &mut W,
    progress: ProgressOutput,
    files: &mut ToldFiles<'_>,
    options: &HeadOptions<'_>,
) -> Result<LedOut, HeadFailure>
    // If it ends well, what the options ask for was cancelled and opened, and no row is live that a daemon leads. It says whether a row is
    // live whose meter isn't in the list, and else whether one of those that it led failed.
    ensures led { IfOk result (HasLedOut options.now) }

    // If it stays, it ends by a fault alone.
    ensures stays { OnOk result (options.now.stays ≡ false) }
    ensures silent { IfErr result (λ f. ComesBeforeLines f.error → Keeps (W.contents writer.old) (W.contents writer.new)) }
    ensures asked { IfErr result (λ f. IsAskedFor options.now f.error) }
{
    let ready = set_up(rt, alloc, options)?;
    let begun = files.begin_files(rt, alloc)?;
    let told = HeadTold {
        events: begun.events.as_ref(),
        metrics: files.metrics(rt, alloc),
    };
    run_ready(
        rt,
        alloc,
        writer,
        progress,
        &told,
        &begun.rows,
        ready,
        options,
    )
}

/// The same, once all that it needs is there, and its files are begun. These rows have events.
fn run_ready<R: Files<File = File> + Clock + Eprint + Wait, W: Write>(
    rt: &R,
    alloc: Global,
    writer: &mut W,
    progress: ProgressOutput,
    told: &HeadTold<'_, R>,
    rows: &ToldRows,
    ready: Ready,
    options: &HeadOptions<'_>,
) -> Result<LedOut, HeadFailure>
    requires list { (text : List ℕ) × SpellsList options.now.listen text ready.asked.list }
    requires opening { IsOpeningOf options.now.opening ready.asked.opened }
    requires opened { IsTrue (is_some ready.asked.opened) → IsTrue (is_some options.now.opening) }
    requires number { (book_of ready.kept).head ≡ options.now.head }
    requires width { BeginsWith (book_of ready.kept) options.now.width (head_of ready.kept) }
    requires changes { AreChanges (book_of ready.kept) options.now.cancel.items ready.asked.opened (listed_in ready.asked.list) ready.changes }
    requires links { IsHeadSealing options.now.sealing options.now.head (listed_in ready.asked.list) (links_in ready.sealing) }
    ensures led { IfOk result (HasLedOut options.now) }
    ensures stays { OnOk result (options.now.stays ≡ false) }
    ensures silent { IfErr result (λ f. ComesBeforeLines f.error → Keeps (W.contents writer.old) (W.contents writer.new)) }
    ensures asked { IfErr result (λ f. IsAskedFor options.now f.error) }
{
    let Ready {
        port,
        file,
        mut asked,
        mut kept,
        changes,
        sealing,
    } = ready;
    let strangers = strangers_of(alloc, options, asked.list.meters().meters())?;
    tell_listening(alloc, writer, &port)?;
    tell_going_on(rt, kept.head().view().book);
    told.start(kept.head().view().book);
    let mut lines = Lines::new(alloc, writer);
    lines.set_events(told.events);
    begin(alloc, &mut lines, &mut kept, changes, asked.opened.take())?;
    told.catch_up(alloc, rows, kept.head().view().book, kept.notes())?;
    let unlisted = tell_unlisted(rt, alloc, &kept, asked.list.meters())?;
    let waves = Waves::of_list(alloc, &asked.list, options.max_failed)?;
    let mut daemon = daemon_of(alloc, kept, options)?;
    let port = RecordedPort {
        port,
        strangers,
        file,
        capture: options.capture,
        sealing,
    };
    match lead(
        rt,
        alloc,
        &mut lines,
        progress,
        told,
        port,
        &mut daemon,
        &waves,
        options,
    ) {
        Ok(()) => Ok(LedOut::of(&unlisted, daemon.counts().failed)),
        Err(failure) => {
            told.fault(alloc, failure.error);
            Err(failure.of_book(daemon.device()))
        }
    }
}

/// The daemon of a head end, as the options say. It asks no meter yet: each wave has its own list.
fn daemon_of(
    alloc: Global,
    kept: KeptHead<FileDevice>,
    options: &HeadOptions<'_>,
) -> Result<HeadDaemon<FileDevice>, Stop>
    ensures made { IfOk result (IsDaemonOf kept options.now.timing options.now.plan) }
    ensures memory { IfErr result (λ stop. stop ≡ Stop.OutOfMemory) }
{
    let nobody = MeterList::none(alloc);
    Ok(HeadDaemon::new(alloc, kept, &nobody, options.timing, options.plan)?)
}

/// Why the file of the book on this device was refused, if this error is of that.
pub(crate) fn reason_of_book(error: KeptError, device: &FileDevice) -> Option<Reason>
    ensures { result ≡ book_reason error (cause_of device.now) }
{
    match error {
        KeptError::BookFault => reason_of(device.cause()),
        KeptError::Refused(_) | KeptError::Full | KeptError::OutOfMemory => None,
    }
}

/// The strangers to a head end whose meters these are. Without a capture nobody has to know them.
fn strangers_of(
    alloc: Global,
    options: &HeadOptions<'_>,
    list: &[Listed],
) -> Result<Strangers, AllocError> {
    if options.capture.is_some() {
        Strangers::of_head(alloc, list, options.captures_strangers)
    } else {
        Ok(Strangers::none())
    }
}

/// All that the command needs before its first line.
#[derive(Drop)]
struct Ready {
    port: Listening,
    /// The file of the capture, if one is asked for.
    file: Option<CaptureFile>,
    asked: Asked,
    kept: KeptHead<FileDevice>,
    changes: Changes,
    /// What its links are sealed with, if there are keys.
    sealing: Option<Sealing>,
}

/// The meters of the list, and what is opened for them.
pub(crate) struct Asked {
    pub(crate) list: WaveList,
    pub(crate) opened: Option<Opened>,
}

// Written out, so that letting go of it is one call in a proof. A derived `Drop` is unfolded there field by field, which takes minutes.
impl Drop for Asked {
    fn drop(self) {
        let Asked { list: _, opened: _ } = self;
    }
}

/// Reads the list, the image and the keys, binds the socket, and opens the book and the counters. A file is made once all of this is
/// judged: that of the capture, then a new one of counters, and then a new book.
fn set_up<R: Files<File = File> + Clock + Eprint + Net>(
    rt: &R,
    alloc: Global,
    options: &HeadOptions<'_>,
) -> Result<Ready, HeadFailure>
    ensures list { IfOk result (λ ready. (text : List ℕ) × SpellsList options.now.listen text ready.asked.list) }
    ensures opening { IfOk result (λ ready. IsOpeningOf options.now.opening ready.asked.opened) }
    ensures opened { IfOk result (λ ready. IsTrue (is_some ready.asked.opened) → IsTrue (is_some options.now.opening)) }
    ensures number { IfOk result (λ ready. (book_of ready.kept).head ≡ options.now.head) }
    ensures width { IfOk result (λ ready. BeginsWith (book_of ready.kept) options.now.width (head_of ready.kept)) }
    ensures changes { IfOk result (λ ready. AreChanges (book_of ready.kept) options.now.cancel.items ready.asked.opened (listed_in ready.asked.list)
        ready.changes) }
    ensures links { IfOk result (λ ready. IsHeadSealing options.now.sealing options.now.head (listed_in ready.asked.list) (links_in ready.sealing)) }
    ensures asked { IfErr result (λ f. IsAskedFor options.now f.error) }
{
    let asked = asked_of(rt, alloc, options)?;
    let keyed = keyed_head(
        rt,
        alloc,
        options.sealing,
        options.head,
        asked.list.meters().meters(),
    )?;
    let port = Listening::of(UdpPort::bind_for(rt, options.listen, WAIT_LIMIT))?;
    let Led {
        kept,
        changes,
        file,
        sealing,
    } = led_head(rt, alloc, options, &asked, keyed)?;
    Ok(Ready {
        port,
        file,
        asked,
        kept,
        changes,
        sealing,
    })
}

/// Reads the list, and the image where campaigns are opened.
fn asked_of<F: Files<File = File> + Clock + Net>(
    rt: &F,
    alloc: Global,
    options: &HeadOptions<'_>,
) -> Result<Asked, HeadError>
    ensures list { IfOk result (λ asked. (text : List ℕ) × SpellsList options.now.listen text asked.list) }
    ensures opening { IfOk result (λ asked. IsOpeningOf options.now.opening asked.opened) }
    ensures opened { IfOk result (λ asked. IsTrue (is_some asked.opened) → IsTrue (is_some options.now.opening)) }
    ensures asked { IfErr result (IsAskedFor options.now) }
{
    let list = list_of_file(rt, alloc, options.meters, options.listen)?;
    let Some(opening) = options.opening else {
        return Ok(Asked { list, opened: None });
    };
    let opened = opened_of(rt, alloc, opening, list.meters().meters())?;
    Ok(Asked {
        list,
        opened: Some(opened),
    })
}

/// A head end with its book and what is cancelled and opened in it, with the file of the capture, if one is asked for, and with what its
/// links are sealed with, if there are keys.
#[derive(Drop)]
struct Led {
    kept: KeptHead<FileDevice>,
    changes: Changes,
    file: Option<CaptureFile>,
    sealing: Option<Sealing>,
}

/// The head end with its book, which is made last where it is to be new.
fn led_head<R: Files<File = File> + Clock + Eprint>(
    rt: &R,
    alloc: Global,
    options: &HeadOptions<'_>,
    asked: &Asked,
    keyed: Option<Keyed<'_>>,
) -> Result<Led, HeadFailure>
    requires opened { IsTrue (is_some asked.now.opened) → IsTrue (is_some options.now.opening) }
    requires keyed { options_of keyed ≡ options.now.sealing }
    ensures number { IfOk result (λ led. (book_of led.kept).head ≡ options.now.head) }
    ensures width { IfOk result (λ led. BeginsWith (book_of led.kept) options.now.width (head_of led.kept)) }
    ensures changes { IfOk result (λ led. AreChanges (book_of led.kept) options.now.cancel.items asked.now.opened (listed_in asked.now.list) led.changes) }
    ensures links { IfOk result (λ led. links_in led.sealing ≡ links_of keyed.entry) }
    ensures asked { IfErr result (λ f. IsAskedFor options.now f.error) }
{
    if options.book.is_new {
        new_head(rt, alloc, options, asked, keyed)
    } else {
        old_head(rt, alloc, options, asked, keyed)
    }
}

/// The head end with a book that is there.
fn old_head<R: Files<File = File> + Clock + Eprint>(
    rt: &R,
    alloc: Global,
    options: &HeadOptions<'_>,
    asked: &Asked,
    keyed: Option<Keyed<'_>>,
) -> Result<Led, HeadFailure>
    requires is_old { options.now.book.is_new ≡ false }
    requires opened { IsTrue (is_some asked.now.opened) → IsTrue (is_some options.now.opening) }
    requires keyed { options_of keyed ≡ options.now.sealing }
    ensures number { IfOk result (λ led. (book_of led.kept).head ≡ options.now.head) }
    ensures width { IfOk result (λ led. BeginsWith (book_of led.kept) options.now.width (head_of led.kept)) }
    ensures changes { IfOk result (λ led. AreChanges (book_of led.kept) options.now.cancel.items asked.now.opened (listed_in asked.now.list) led.changes) }
    ensures links { IfOk result (λ led. links_in led.sealing ≡ links_of keyed.entry) }
    ensures asked { IfErr result (λ f. IsAskedFor options.now f.error) }
{
    let kept = open_book(rt, alloc, options.book.path, options.head, options.width)?;
    let changes = judge(alloc, kept.head().view().book, &options.cancel, asked)?;
    let links = JudgedSealing::of(rt, alloc, keyed)?;
    let file = CaptureFile::opened(rt, alloc, options.capture)?;
    let sealing = links.made(rt, alloc)?;
    Ok(Led {
        kept,
        changes,
        file,
        sealing,
    })
}

/// The head end with a new book. All that it may refuse is judged before a file is made.
fn new_head<R: Files<File = File> + Clock + Eprint>(
    rt: &R,
    alloc: Global,
    options: &HeadOptions<'_>,
    asked: &Asked,
    keyed: Option<Keyed<'_>>,
) -> Result<Led, HeadFailure>
    requires is_new { IsTrue options.now.book.is_new }
    requires opened { IsTrue (is_some asked.now.opened) → IsTrue (is_some options.now.opening) }
    requires keyed { options_of keyed ≡ options.now.sealing }
    ensures number { IfOk result (λ led. (book_of led.kept).head ≡ options.now.head) }
    ensures width { IfOk result (λ led. BeginsWith (book_of led.kept) options.now.width (head_of led.kept)) }
    ensures changes { IfOk result (λ led. AreChanges (book_of led.kept) options.now.cancel.items asked.now.opened (listed_in asked.now.list) led.changes) }
    ensures links { IfOk result (λ led. links_in led.sealing ≡ links_of keyed.entry) }
    ensures asked { IfErr result (λ f. IsAskedFor options.now f.error) }
{
    check_absent(rt, options.book.path)?;
    let changes = judge(
        alloc,
        &Book::new(alloc, options.head),
        &options.cancel,
        asked,
    )?;
    made_head(rt, alloc, options, asked, changes, keyed)
}

/// The head end with a new book, which takes what is asked of it. Its file is made last.
fn made_head<R: Files<File = File> + Clock + Eprint>(
    rt: &R,
    alloc: Global,
    options: &HeadOptions<'_>,
    asked: &Asked,
    changes: Changes,
    keyed: Option<Keyed<'_>>,
) -> Result<Led, HeadFailure>
    requires is_new { IsTrue options.now.book.is_new }
    requires changes { AreChanges (empty_book options.now.head) options.now.cancel.items asked.now.opened (listed_in asked.now.list) changes }
    requires judged { IsJudged (empty_book options.now.head) asked.now.opened changes }
    requires keyed { options_of keyed ≡ options.now.sealing }
    ensures number { IfOk result (λ led. (book_of led.kept).head ≡ options.now.head) }
    ensures width { IfOk result (λ led. BeginsWith (book_of led.kept) options.now.width (head_of led.kept)) }
    ensures changes { IfOk result (λ led. AreChanges (book_of led.kept) options.now.cancel.items asked.now.opened (listed_in asked.now.list) led.changes) }
    ensures links { IfOk result (λ led. links_in led.sealing ≡ links_of keyed.entry) }
    ensures asked { IfErr result (λ f. IsAskedFor options.now f.error) }
{
    let links = JudgedSealing::of(rt, alloc, keyed)?;
    let file = CaptureFile::opened(rt, alloc, options.capture)?;
    let sealing = links.made(rt, alloc)?;
    let made = make_book(rt, alloc, options.book.path, options.head, options.width)?;
    Ok(Led {
        kept: made,
        changes,
        file,
        sealing,
    })
}

/// The meters of the list in a file, for a head end at this address.
pub(crate) fn list_of_file<F: Files<File = File> + Net>(
    rt: &F,
    alloc: Global,
    path: &str,
    own: SocketAddr,
) -> Result<WaveList, ListFileError>
    ensures list { IfOk result (λ list. (text : List ℕ) × SpellsList own text list) }
{
    let text = bytes_of_file(rt, alloc, path)?;
    Ok(read_list(rt, alloc, &text, own)?)
}

/// All bytes of a file.
pub(crate) fn bytes_of_file<F: Files<File = File>>(
    rt: &F,
    alloc: Global,
    path: &str,
) -> Result<Vec<u8>, FileError> {
    let Ok(mut file) = File::open(rt, path) else {
        return Err(FileError::Unread);
    };
    let mut reads = Reads::none();
    match read_input(alloc, &mut file, &mut reads) {
        Ok(bytes) => Ok(bytes),
        Err(InputError::Input) => Err(FileError::Unread),
        Err(InputError::TooMuchInput) => Err(FileError::TooLong),
        Err(InputError::OutOfMemory) => Err(FileError::OutOfMemory),
    }
}

/// Cancels the campaign of this serial number, and writes its line once that is on the device. A book has no campaign of number 0.
pub(crate) fn cancel_one<W: Write>(
    alloc: Global,
    lines: &mut Lines<'_, W>,
    kept: &mut KeptHead<FileDevice>,
    serial: u32,
) -> Result<(), KeptError>
    ensures cancelled { OnOk result (head_of kept.new ≡ cancelled_head (head_of kept.old) serial) }
    ensures writer { lines.new.writer.ghost_name ≡ lines.old.writer.ghost_name }
    ensures told { TellsChanges (head_of kept.old) (head_of kept.new) lines.old.lost lines.new.lost (W.contents lines.old.writer.now)
        (W.contents lines.new.writer.now) }
    ensures line { OnOk result (Told (cancelled_line (campaign_at (head_of kept.old) serial) ∷ []) lines.old.lost lines.new.lost
        (W.contents lines.old.writer.now) (W.contents lines.new.writer.now)) }
    ensures same { OnErr result (head_of kept.new ≡ head_of kept.old) }
    ensures untold { OnErr result ((lines.new.lost ≡ lines.old.lost) × (W.contents lines.new.writer.now ≡ W.contents lines.old.writer.now)) }
    ensures refused { 1 ≤ serial → IfErr result (IsRefusedFor (cancel_refusal (book_of kept.old) (campaign_at (head_of kept.old) serial))) }
{
    let campaign = CampaignId::new(kept.head().view().book.head(), serial);
    let Some(campaign) = campaign else {
        return Err(KeptError::Refused(BookError::NoSuchCampaign));
    };
    kept.cancel(alloc, serial)?;
    lines.tell_cancelled(campaign);
    Ok(())
}

/// Leads the rows to their ends, wave after wave, and writes how many ended how. It returns `Ok` once none is live and all that ended is on the
/// device, and never where it stays. Why a book failed the device knows.
fn lead<R: Files<File = File> + Clock + Eprint + Wait, W: Write, D: JournalDevice + Drop>(
    rt: &R,
    alloc: Global,
    lines: &mut Lines<'_, W>,
    output: ProgressOutput,
    told: &HeadTold<'_, R>,
    port: RecordedPort<'_>,
    daemon: &mut HeadDaemon<D>,
    waves: &Waves<'_>,
    options: &HeadOptions<'_>,
) -> Result<(), HeadFailure>
    // It waits for answers, and has as many datagrams out, as the options say.
    requires waits { timing_of daemon.old ≡ options.now.timing }

    // As many rows may fail before a wave as the options say.
    requires waves { AreWaves waves.now.list.now options.now.max_failed waves.now }

    // If keys are given, its links are those of their file with its meters. Without keys it has none.
    requires links { IsHeadSealing options.now.sealing options.now.head (listed_in waves.now.list.now) (links_in port.sealing) }
    ensures over { (now : Leader) → IsLed D.honest D.contents D.may_leave daemon.new now → OnOk result (IsOver now) }
    ensures asks { OnOk result (meters_of daemon.new ≡ listed_in waves.now.list.now) }
    ensures ran_out { OnOk result (HasRunOut daemon.new) }
    ensures stays { OnOk result (options.now.stays ≡ false) }
    ensures asked { IfErr result (λ f. IsOfLeading port.entry.capture options.now.sealing f.error) }
{
    let RecordedPort {
        port: Listening {
            port: mut socket,
            at,
        },
        mut strangers,
        mut file,
        capture,
        sealing,
    } = port;
    match begin_recording(rt, alloc, capture, file.as_mut(), options.head) {
        Ok(()) => {}
        Err(failure) => return Err(failure),
    }
    let recorder = file.as_mut();
    let port = CapturePort::of_head(rt, alloc, &mut socket, at, &mut strangers, recorder);
    let clears = output == ProgressOutput::Terminal;
    let led = match sealing {
        Some(Sealing { links, counters }) => {
            let port = SealedPort::new(alloc, port, links, counters);
            let mut port = UdpHeadPort::new(rt, port, lines, clears);
            lead_sealed(rt, alloc, &mut port, output, told, daemon, waves, options)
        }
        None => {
            let mut port = UdpHeadPort::new(rt, port, lines, clears);
            lead_plain(rt, alloc, &mut port, output, told, daemon, waves, options)
        }
    };
    let cause = failure_of(file.as_ref());
    let ended = end_recording(capture, file.as_ref());
    match led {
        Ok(()) => {}
        Err((stop, by)) => return Err(stop_failure(stop, capture, options.sealing, by, cause)),
    }
    match ended {
        Ok(()) => {}
        Err(failure) => return Err(failure),
    }
    let counts = daemon.counts();
    lines.tell_over(counts);
    Ok(())
}

/// Puts the note of a start into the capture, if there is one.
fn begin_recording<C: Clock>(
    rt: &C,
    alloc: Global,
    capture: Option<&str>,
    file: Option<&mut CaptureFile>,
    head: HeadId,
) -> Result<(), HeadFailure>
    ensures { (sealing : Option Sealed) → IfErr result (λ f. IsOfLeading capture.entry sealing f.error) }
{
    match start_head(rt, alloc, capture, file, head) {
        Ok(()) => Ok(()),
        Err(because) => Err(not_recorded(because)),
    }
}

/// Puts the capture on the disk, if there is one.
fn end_recording(capture: Option<&str>, file: Option<&CaptureFile>) -> Result<(), HeadFailure>
    ensures { (sealing : Option Sealed) → IfErr result (λ f. IsOfLeading capture.entry sealing f.error) }
{
    match end_capture(capture, file) {
        Ok(()) => Ok(()),
        Err(because) => Err(not_recorded(because)),
    }
}

/// Why the command ended, if its capture has no note of its start, or isn't put on the disk.
fn not_recorded(because: Because<ClosingError>) -> HeadFailure
    ensures { result ≡ record { error = head_of_closing because.error; reason = because.reason } }
{
    HeadFailure::from(because)
}

/// Why the command ended, if a rollout stopped, with its port closed so.
fn stop_failure(
    stop: WaveStop,
    capture: Option<&str>,
    sealing: Option<SealingOptions<'_>>,
    by: ClosedBy,
    cause: Option<Cause>,
) -> HeadFailure
    ensures { IsOfLeading capture.entry sealing.entry result.error }
{
    match stop {
        WaveStop::Stop(Stop::Closed) => not_recorded(closing(capture, sealing, by, cause)),
        WaveStop::Stop(stop) => HeadFailure::from(stop),
        WaveStop::TooManyFailed(stop) => HeadFailure {
            error: HeadError::TooManyFailed(stop.failed),
            reason: None,
        },
    }
}

/// Leads the rows of a head end without keys to their ends. If it doesn't, it returns why its port is closed too, if it is.
fn lead_plain<
    R: Files<File = File> + Clock + Eprint + Wait,
    W: Write,
    V: SyncedSink + Drop,
    D: JournalDevice + Drop,
>(
    rt: &R,
    alloc: Global,
    port: &mut UdpHeadPort<'_, '_, R, W, CapturePort<'_, R, V>>,
    output: ProgressOutput,
    told: &HeadTold<'_, R>,
    daemon: &mut HeadDaemon<D>,
    waves: &Waves<'_>,
    options: &HeadOptions<'_>,
) -> Result<(), (WaveStop, ClosedBy)>
    requires plain { options.now.sealing ≡ None }
    ensures over { (now : Leader) → IsLed D.honest D.contents D.may_leave daemon.new now → OnOk result (IsOver now) }
    ensures asks { OnOk result (meters_of daemon.new ≡ listed_in waves.now.list.now) }
    ensures ran_out { OnOk result (HasRunOut daemon.new) }
    ensures stays { OnOk result (options.now.stays ≡ false) }
{
    lead_over(rt, alloc, port, output, told, daemon, waves, options.stays)
}

/// Leads the rows of a head end to their ends over the links of its keys alone. If it doesn't, it returns why its port is closed too, if it
/// is.
fn lead_sealed<
    R: Files<File = File> + Clock + Eprint + Wait,
    W: Write,
    V: SyncedSink + Drop,
    D: JournalDevice + Drop,
>(
    rt: &R,
    alloc: Global,
    port: &mut UdpHeadPort<'_, '_, R, W, SealedPort<CapturePort<'_, R, V>, FileDevice>>,
    output: ProgressOutput,
    told: &HeadTold<'_, R>,
    daemon: &mut HeadDaemon<D>,
    waves: &Waves<'_>,
    options: &HeadOptions<'_>,
) -> Result<(), (WaveStop, ClosedBy)>
    requires links { IsHeadSealing options.now.sealing options.now.head (listed_in waves.now.list.now) (Some port.old.port.links) }
    ensures over { (now : Leader) → IsLed D.honest D.contents D.may_leave daemon.new now → OnOk result (IsOver now) }
    ensures asks { OnOk result (meters_of daemon.new ≡ listed_in waves.now.list.now) }
    ensures ran_out { OnOk result (HasRunOut daemon.new) }
    ensures stays { OnOk result (options.now.stays ≡ false) }
{
    lead_over(rt, alloc, port, output, told, daemon, waves, options.stays)
}

/// Leads the rows to their ends over this port, and shows how far they are.
fn lead_over<
    R: Files<File = File> + Clock + Eprint + Wait,
    W: Write,
    P: DatagramPort + Drop,
    D: JournalDevice + Drop,
>(
    rt: &R,
    alloc: Global,
    port: &mut UdpHeadPort<'_, '_, R, W, P>,
    output: ProgressOutput,
    told: &HeadTold<'_, R>,
    daemon: &mut HeadDaemon<D>,
    waves: &Waves<'_>,
    stays: bool,
) -> Result<(), (WaveStop, ClosedBy)>
    ensures over { (now : Leader) → IsLed D.honest D.contents D.may_leave daemon.new now → OnOk result (IsOver now) }
    ensures asks { OnOk result (meters_of daemon.new ≡ listed_in waves.now.list.now) }
    ensures ran_out { OnOk result (HasRunOut daemon.new) }
    ensures stays { OnOk result (stays ≡ false) }
{
    let progress = HeadProgress::new(rt, output);
    let mut watch = Watched::new(rt, alloc, progress, told);
    let led = lead_told(rt, port, daemon, waves, stays, &mut watch);
    watch.finish(daemon.head().view().book);
    match led {
        Ok(()) => Ok(()),
        Err(stop) => Err((stop, port.closed_by())),
    }
}

/// Leads the rows to their ends over this port, and writes the line of each row that ended, once and in order. It returns as
/// `Waves::lead` does.
fn lead_told<
    R: Files<File = File> + Clock + Eprint + Wait,
    W: Write,
    P: DatagramPort + Drop,
    D: JournalDevice + Drop,
>(
    rt: &R,
    port: &mut UdpHeadPort<'_, '_, R, W, P>,
    daemon: &mut HeadDaemon<D>,
    waves: &Waves<'_>,
    stays: bool,
    watch: &mut Watched<'_, R>,
) -> Result<(), WaveStop>
    ensures over { (now : Leader) → IsLed D.honest D.contents D.may_leave daemon.new now → OnOk result (IsOver now) }
    ensures asks { OnOk result (meters_of daemon.new ≡ listed_in waves.now.list.now) }
    ensures ran_out { OnOk result (HasRunOut daemon.new) }
    ensures stays { OnOk result (stays ≡ false) }
    ensures lines { port.new.lines.ghost_name ≡ port.old.lines.ghost_name }
    ensures writer { port.new.lines.now.writer.ghost_name ≡ port.old.lines.now.writer.ghost_name }
    ensures told { TellsEnded (counted_of daemon.old) (counted_of daemon.new) [] port.old.lines.now.lost port.new.lines.now.lost
        (W.contents port.old.lines.now.writer.now) (W.contents port.new.lines.now.writer.now) }
{
    waves.lead(rt, port, daemon, stays, watch)
}
