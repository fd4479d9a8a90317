//! What a fault is about, and why it came, where the fault's name doesn't say it.

ghost use Rattle.std.specs.Prelude.{◌≡◌, ◌≢◌, MatchBool, None, Some};
ghost use Rattle.std.specs.Option.{option_map};
ghost use Rattle.dlmsfw.specs.Places.{TellsReason, TellsBookReason, answer_place_of, book_place_of, book_status, name_in, place_of, store_place_of};
ghost use Rattle.dlmsfw.specs.Refusals.{reason_told};
ghost use Rattle.dlmsfw.specs.Texts.{book_place_text, cause_text, counter_text, file_text, place_text};

use crate::refusal::Refusal;
use crate::{FAULT, TOO_MANY_FAILED, refusal};
use fw_book::BookError;
use fw_cli::{
    CancelOptions, GiveUpOptions, HeadOptions, InputCause, MeterError, MeterFailure, MeterOptions,
    StatusOptions, SurveyOptions,
};
use fw_disk::{Because, Name, Reason};
use fw_faults::Fault;
use fw_host::SealingOptions;
use fw_plan::MaxFailed;
use std::fmt;
use std::net::{Ipv4Addr, Net, SocketAddr, UdpSocket};
use std::rt::Files;

/// Why no wires could be made. It prints what the user reads after the fault's name.
#[derive(Clone, Copy)]
pub(crate) enum Cause {
    /// One socket can be bound, so the system refuses the number of them.
    TooManySockets,
    /// Not even one socket can be bound.
    NoLoopback,
}

impl fmt::Display for Cause {
    ghost output = { λ cause. Some (cause_text cause) };

    fn fmt<W: fmt::Write>(&self, f: &mut fmt::Formatter<W>) -> fmt::Result {
        match self {
            Cause::TooManySockets => f.write_str(
                "too many open files: each link takes two sockets; ulimit -n prints how many open files a process may have",
            ),
            Cause::NoLoopback => f.write_str(
                "no socket can be bound on 127.0.0.1: this system may have no loopback address, or the user no right to it",
            ),
        }
    }
}

/// The cause of a fault, as the system shows it once the command has ended and its sockets are closed. Only `Socket` has one.
pub(crate) fn of(net: &impl Net, fault: Fault) -> Option<Cause>
    ensures faults { fault ≢ Fault.Socket → result ≡ None }
    ensures socket { fault ≡ Fault.Socket → result ≢ None }
{
    match fault {
        Fault::Socket => {
            let probe = UdpSocket::bind(net, (Ipv4Addr::LOCALHOST, 0));
            Some(socket_cause(probe.is_ok()))
        }
        _ => None,
    }
}

/// Why the sockets of a command could not be bound. It depends on whether one can be bound, now that there is no other.
fn socket_cause(one_is_bound: bool) -> Cause
    ensures { MatchBool one_is_bound (result ≡ Cause.TooManySockets) (result ≡ Cause.NoLoopback) }
{
    if one_is_bound {
        Cause::TooManySockets
    } else {
        Cause::NoLoopback
    }
}

/// A file that is named on the command line, or the one beside it that is meant.
#[derive(Clone, Copy)]
pub(crate) struct NamedFile<'a> {
    path: &'a str,
    /// The number of the meter whose file it is, which stands behind the path, if there is a count of them.
    number: Option<u32>,
    /// Which of its names is meant.
    name: Name,
}

impl<'a> NamedFile<'a> {
    /// The file at this path.
    pub(crate) fn of(path: &'a str) -> NamedFile<'a>
        ensures { result ≡ record { path = path.entry; number = None; name = Name.Main } }
    {
        NamedFile {
            path,
            number: None,
            name: Name::Main,
        }
    }

    /// The file that has this name beside the one at this path.
    pub(crate) fn at(path: &'a str, name: Name) -> NamedFile<'a>
        ensures { result ≡ record { path = path.entry; number = None; name = name } }
    {
        NamedFile {
            path,
            number: None,
            name,
        }
    }
}

impl fmt::Display for NamedFile<'_> {
    ghost output = { λ file. Some (file_text file) };

    fn fmt<W: fmt::Write>(&self, f: &mut fmt::Formatter<W>) -> fmt::Result {
        let path = self.path;
        let ending = self.name.ending();
        match (self.number, self.name) {
            (None, Name::Main) => write!(f, "{path}"),
            (None, _) => write!(f, "{path}: {path}{ending}"),
            (Some(number), Name::Main) => write!(f, "{path}.{number}"),
            (Some(number), _) => write!(f, "{path}.{number}: {path}.{number}{ending}"),
        }
    }
}

/// The file of the counters beside the key file at a path, or the one beside that which is meant.
#[derive(Clone, Copy)]
pub(crate) struct CounterFile<'a> {
    path: &'a str,
    /// Which of its names is meant.
    name: Name,
}

impl fmt::Display for CounterFile<'_> {
    ghost output = { λ file. Some (counter_text file) };

    fn fmt<W: fmt::Write>(&self, f: &mut fmt::Formatter<W>) -> fmt::Result {
        let path = self.path;
        let ending = self.name.ending();
        write!(f, "{path}: {path}.counter{ending}")
    }
}

/// The name of a file that a reason is about. Without a reason it is the file itself.
fn name_in(reason: Option<Reason>) -> Name
    ensures { result ≡ name_in reason }
{
    match reason {
        Some(reason) => reason.name,
        None => Name::Main,
    }
}

/// The address, the files and the capacity that a meter is started with.
#[derive(Clone, Copy)]
pub(crate) struct MeterPlaces<'a> {
    listen: SocketAddr,
    store: &'a str,
    factory_file: Option<&'a str>,
    capacity: u32,
    capture: Option<&'a str>,
    keys: Option<&'a str>,
}

impl<'a> MeterPlaces<'a> {
    /// Those of these options.
    pub(crate) fn of(options: &MeterOptions<'a>) -> MeterPlaces<'a>
        ensures listen { result.listen ≡ options.now.listen }
        ensures store { result.store ≡ options.now.store }
        ensures factory_file { result.factory_file ≡ options.now.fresh.factory_file }
        ensures capacity { result.capacity ≡ options.now.fresh.capacity }
        ensures capture { result.capture ≡ options.now.capture }
        ensures keys { result.keys ≡ option_map (λ sealing. sealing.keys) options.now.sealing }
    {
        MeterPlaces {
            listen: options.listen,
            store: options.store,
            factory_file: options.fresh.factory_file,
            capacity: options.fresh.capacity,
            capture: options.capture,
            keys: keys_of(options.sealing),
        }
    }
}

/// The file of the keys, if there are any.
fn keys_of<'a>(sealing: Option<SealingOptions<'a>>) -> Option<&'a str>
    ensures { result ≡ option_map (λ s. s.keys) sealing.entry }
{
    match sealing {
        Some(sealing) => Some(sealing.keys),
        None => None,
    }
}

/// What a fault of a meter is about.
#[derive(Clone, Copy)]
pub(crate) enum Place<'a> {
    /// The address that it listens at.
    Listen(SocketAddr),
    /// The address that the first meter listens at, and the number of the one that is meant.
    ListenOf(SocketAddr, u32),
    /// The file that has it.
    Store(NamedFile<'a>),
    /// The file of its factory image.
    FactoryFile(&'a str),
    /// Its capacity, which the image that it runs without a file doesn't fit.
    Capacity(u32),
    /// The file of its capture.
    Capture(NamedFile<'a>),
    /// The file of its keys.
    Keys(&'a str),
    /// The file of its counters, beside that of its keys.
    Counter(CounterFile<'a>),
}

impl fmt::Display for Place<'_> {
    ghost output = { λ place. Some (place_text place) };

    fn fmt<W: fmt::Write>(&self, f: &mut fmt::Formatter<W>) -> fmt::Result {
        match self {
            Place::Listen(address) => write!(f, "--listen {address}"),
            Place::ListenOf(address, number) => write!(f, "--listen {address}, meter {number}"),
            Place::Store(file) => write!(f, "--store {file}"),
            Place::FactoryFile(file) => write!(f, "--factory-file {file}"),
            Place::Capacity(capacity) => write!(f, "--capacity {capacity}"),
            Place::Capture(file) => write!(f, "--capture {file}"),
            Place::Keys(file) => write!(f, "--keys {file}"),
            Place::Counter(file) => write!(f, "--keys {file}"),
        }
    }
}

/// What the fault of a meter is about, if it is one of these.
pub(crate) fn place_of<'a>(ended: MeterFailure, places: MeterPlaces<'a>) -> Option<Place<'a>>
    ensures { result ≡ place_of ended places.entry }
{
    let name = name_in(ended.reason);
    let store = NamedFile {
        path: places.store,
        number: ended.number,
        name,
    };
    match ended.error {
        MeterError::Socket => Some(match ended.number {
            Some(number) => Place::ListenOf(places.listen, number),
            None => Place::Listen(places.listen),
        }),
        MeterError::FactoryFault => match places.factory_file {
            Some(file) => Some(Place::FactoryFile(file)),
            None => None,
        },
        // The factory image is empty or longer than the capacity; without a file it isn't empty.
        MeterError::BadSetup => Some(match places.factory_file {
            Some(file) => Place::FactoryFile(file),
            None => Place::Capacity(places.capacity),
        }),
        MeterError::CaptureFault | MeterError::ForeignCapture => Some(Place::Capture(NamedFile {
            path: places.capture?,
            number: None,
            name,
        })),
        MeterError::KeysFault | MeterError::KeysReadable | MeterError::BadKeys(_, _) => {
            Some(Place::Keys(places.keys?))
        }
        MeterError::NoCounter
        | MeterError::CounterExists
        | MeterError::CounterLocked
        | MeterError::CounterFault
        | MeterError::CounterSpent => Some(Place::Counter(CounterFile {
            path: places.keys?,
            name,
        })),
        MeterError::StoreFault
        | MeterError::Device
        | MeterError::BadFile
        | MeterError::BadHeader
        | MeterError::BadImage => Some(Place::Store(store)),
        MeterError::Output | MeterError::OutOfMemory => None,
    }
}

/// The file of a store, if the fault is of that.
fn store_place_of<'a>(fault: Fault, file: NamedFile<'a>) -> Option<Place<'a>>
    ensures { result ≡ store_place_of fault file.entry }
{
    match fault {
        Fault::StoreFault | Fault::Device | Fault::BadFile | Fault::BadHeader | Fault::BadImage =>
            Some(Place::Store(file)),
        _ => None,
    }
}

/// What the fault of an answer over the store in this file is about, if it is the file.
pub(crate) fn answer_place_of<'a>(
    because: &Because<Fault>,
    store: NamedFile<'a>,
) -> Option<Place<'a>>
    ensures { result ≡ answer_place_of because.now store.entry }
{
    let name = name_in(because.reason);
    store_place_of(because.error, NamedFile { name, ..store })
}

/// Why what the fault of a meter is about is refused. Of a store, a capture, keys or counters it is the reason that came with the fault. Of
/// an address, or of a file that is read, it is why the system refuses that now, if it does.
pub(crate) fn refusal_of(
    rt: &(impl Net + Files),
    ended: MeterFailure,
    place: Option<Place<'_>>,
) -> Option<Refusal>
    ensures { TellsReason place.entry ended.reason result }
{
    match (ended.error, place?) {
        (_, Place::Store(_)) => refusal::of_reason(ended.reason),
        (_, Place::Capture(_)) => refusal::of_reason(ended.reason),
        (_, Place::Keys(_)) => refusal::of_reason(ended.reason),
        (_, Place::Counter(_)) => refusal::of_reason(ended.reason),
        (MeterError::Socket, Place::Listen(at)) => refusal::of_address(rt, at),
        (MeterError::Socket, Place::ListenOf(first, number)) => {
            refusal::of_addresses(rt, first, number)
        }
        (MeterError::FactoryFault, Place::FactoryFile(path)) => refusal::of_file(rt, path),
        _ => None,
    }
}

/// The address, the files and the serial numbers that a head end is started with, or the file of a command over a book alone.
#[derive(Clone, Copy)]
pub(crate) struct BookPlaces<'a> {
    book: &'a str,
    listen: Option<SocketAddr>,
    meters: Option<&'a str>,
    image: Option<&'a str>,
    opened: Option<u32>,
    /// The campaigns that are cancelled first, as they were given.
    cancel: Option<&'a str>,
    /// The campaign that a cancelling is of.
    campaign: Option<u32>,
    /// How many rows of the earlier waves may fail.
    max_failed: Option<MaxFailed>,
    capture: Option<&'a str>,
    keys: Option<&'a str>,
}

impl<'a> BookPlaces<'a> {
    /// Those of these options, of which the campaigns that are cancelled first were given so.
    pub(crate) fn of_head(options: &HeadOptions<'a>, cancel: Option<&'a str>) -> BookPlaces<'a> {
        let (image, opened) = match options.opening {
            Some(opening) => (Some(opening.image), Some(opening.serial)),
            None => (None, None),
        };
        BookPlaces {
            book: options.book.path,
            listen: Some(options.listen),
            meters: Some(options.meters),
            image,
            opened,
            cancel,
            campaign: None,
            max_failed: Some(options.max_failed),
            capture: options.capture,
            keys: keys_of(options.sealing),
        }
    }

    /// Those of these options, and of the campaign that couldn't be cancelled.
    pub(crate) fn of_cancel(options: &CancelOptions<'a>, campaign: Option<u32>) -> BookPlaces<'a> {
        BookPlaces::of_book(options.book, campaign)
    }

    /// Those of these options.
    pub(crate) fn of_give_up(options: &GiveUpOptions<'a>) -> BookPlaces<'a> {
        BookPlaces::of_book(options.book, None)
    }

    /// Those of these options.
    pub(crate) fn of_status(options: &StatusOptions<'a>) -> BookPlaces<'a> {
        BookPlaces::of_book(options.book, None)
    }

    /// Those of these options, which have no book: no fault of a survey is of one.
    pub(crate) fn of_survey(options: &SurveyOptions<'a>) -> BookPlaces<'a> {
        let image = match options.offer {
            Some(offer) => Some(offer.image),
            None => None,
        };
        BookPlaces {
            book: options.meters,
            listen: Some(options.listen),
            meters: Some(options.meters),
            image,
            opened: None,
            cancel: None,
            campaign: None,
            max_failed: None,
            capture: None,
            keys: None,
        }
    }

    /// Those of a command over this book alone.
    fn of_book(book: &'a str, campaign: Option<u32>) -> BookPlaces<'a> {
        BookPlaces {
            book,
            listen: None,
            meters: None,
            image: None,
            opened: None,
            cancel: None,
            campaign,
            max_failed: None,
            capture: None,
            keys: None,
        }
    }
}

/// What a fault of a book is about.
#[derive(Clone, Copy)]
pub(crate) enum BookPlace<'a> {
    /// The file that has it.
    Book(NamedFile<'a>),
    /// The address that its head end listens at.
    HeadListen(SocketAddr),
    /// The list of meters.
    Meters(&'a str),
    /// The file of an image.
    Image(&'a str),
    /// The first campaign that is opened.
    Open(u32),
    /// The campaigns that are cancelled first.
    Cancel(&'a str),
    /// The campaign that is cancelled.
    Campaign(u32),
    /// How many rows of the earlier waves may fail.
    Threshold(MaxFailed),
    /// The file of the capture.
    HeadCapture(NamedFile<'a>),
    /// The file of the keys.
    HeadKeys(&'a str),
    /// The file of the counters, beside that of the keys.
    HeadCounter(CounterFile<'a>),
}

impl fmt::Display for BookPlace<'_> {
    ghost output = { λ place. Some (book_place_text place) };

    fn fmt<W: fmt::Write>(&self, f: &mut fmt::Formatter<W>) -> fmt::Result {
        match self {
            BookPlace::Book(file) => write!(f, "--book {file}"),
            BookPlace::HeadListen(address) => write!(f, "--listen {address}"),
            BookPlace::Meters(file) => write!(f, "--meters {file}"),
            BookPlace::Image(file) => write!(f, "--image {file}"),
            BookPlace::Open(serial) => write!(f, "--open {serial}"),
            BookPlace::Cancel(serials) => write!(f, "--cancel {serials}"),
            BookPlace::Campaign(serial) => write!(f, "--campaign {serial}"),
            BookPlace::Threshold(MaxFailed::Rows(most)) => write!(f, "--max-failed {most}"),
            BookPlace::Threshold(MaxFailed::Percent(most)) => write!(f, "--max-failed {most}%"),
            BookPlace::HeadCapture(file) => write!(f, "--capture {file}"),
            BookPlace::HeadKeys(file) => write!(f, "--keys {file}"),
            BookPlace::HeadCounter(file) => write!(f, "--keys {file}"),
        }
    }
}

/// What a fault of a book is about, if it is one of these.
pub(crate) fn book_place_of<'a>(
    because: &Because<Fault>,
    places: BookPlaces<'a>,
) -> Option<BookPlace<'a>>
    ensures { result ≡ book_place_of because.now places.entry }
{
    let name = name_in(because.reason);
    match because.error {
        Fault::NoBook
        | Fault::BookExists
        | Fault::Locked
        | Fault::BookFault
        | Fault::BadBook(_)
        | Fault::BadRecord(_)
        | Fault::ForeignHead
        | Fault::Full => Some(BookPlace::Book(NamedFile {
            path: places.book,
            number: None,
            name,
        })),
        Fault::Socket => Some(BookPlace::HeadListen(places.listen?)),
        Fault::ListFault | Fault::BadList(_) => Some(BookPlace::Meters(places.meters?)),
        Fault::ImageFault
        | Fault::EmptyImage
        | Fault::ImageTooLong
        | Fault::OpenRefused(BookError::EmptyImage | BookError::ImageTooLong) => {
            Some(BookPlace::Image(places.image?))
        }
        Fault::BadSetup | Fault::OpenRefused(_) => Some(BookPlace::Open(places.opened?)),
        Fault::CancelRefused(_) => match places.cancel {
            Some(serials) => Some(BookPlace::Cancel(serials)),
            None => Some(BookPlace::Campaign(places.campaign?)),
        },
        Fault::TooManyFailed(_) => Some(BookPlace::Threshold(places.max_failed?)),
        Fault::CaptureFault | Fault::ForeignCapture => Some(BookPlace::HeadCapture(NamedFile {
            path: places.capture?,
            number: None,
            name,
        })),
        Fault::KeysFault | Fault::KeysReadable | Fault::BadKeys(_, _) | Fault::NoKey(_) => {
            Some(BookPlace::HeadKeys(places.keys?))
        }
        Fault::NoCounter
        | Fault::CounterExists
        | Fault::CounterLocked
        | Fault::CounterFault
        | Fault::CounterSpent => Some(BookPlace::HeadCounter(CounterFile {
            path: places.keys?,
            name,
        })),
        _ => None,
    }
}

/// The exit status of a fault of a book. A rollout that stops since too many rows failed has one of its own: another start doesn't mend it.
pub(crate) fn book_status(fault: Fault) -> u8
    ensures { result ≡ book_status fault }
{
    match fault {
        Fault::TooManyFailed(_) => TOO_MANY_FAILED,
        _ => FAULT,
    }
}

/// Why what the fault of a head end is about is refused. Of a book, a capture, keys or counters it is the reason that came with the fault.
/// Of an address, or of a file that is read, it is why the system refuses that now, if it does. Else, and of a book without such a reason,
/// it is what the list or the book shows.
pub(crate) fn book_refusal_of(
    rt: &(impl Net + Files),
    because: &Because<Fault>,
    place: Option<BookPlace<'_>>,
    input: Option<InputCause>,
) -> Option<Refusal>
    ensures { TellsBookReason place.entry because.now.reason input result }
{
    match (because.error, place?) {
        (_, BookPlace::Book(_)) => refusal::of_book(because.reason, input),
        (_, BookPlace::HeadCapture(_)) => refusal::of_reason(because.reason),
        (_, BookPlace::HeadKeys(_)) => refusal::of_reason(because.reason),
        (_, BookPlace::HeadCounter(_)) => refusal::of_reason(because.reason),
        (Fault::Socket, BookPlace::HeadListen(at)) => refusal::of_address(rt, at),
        (Fault::ListFault, BookPlace::Meters(path)) => refusal::of_file(rt, path),
        (Fault::ImageFault, BookPlace::Image(path)) => refusal::of_file(rt, path),
        _ => refusal::of_input(input),
    }
}
