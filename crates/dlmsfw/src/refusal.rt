//! Why an address or a file is refused. If the command doesn't say it, the system is asked once more after it has ended, when all that it had
//! open is closed.

ghost use Rattle.std.specs.Prelude.{◌≡◌};
ghost use Rattle.dlmsfw.specs.Refusals.{book_told, input_told, reason_told, refusal_of};

use fw_auditor::LineCause;
use fw_cli::InputCause;
use fw_disk::{Cause, Reason, TOO_MANY_OPEN};
use std::io::ErrorKind;
use std::net::{Net, SocketAddr, UdpSocket};
use std::rt::Files;
use std::{fmt, fs, io};

/// Why an address or a file is refused. It prints what the user reads behind the option that has it.
#[derive(Clone, Copy)]
pub(crate) enum Refusal {
    /// Another socket has the address.
    InUse,
    /// The machine has no such address.
    NoAddress,
    /// The port would be above 65,535.
    NoPort,
    /// A process may not have that number of sockets.
    TooManySockets,
    /// Another cause of an address, as the system names it.
    Other(ErrorKind),
    /// A cause that files have.
    File(Cause),
    /// What the list or the book holds.
    Input(InputCause),
    /// What a line of the list of an audit holds.
    Line(LineCause),
}

impl fmt::Display for Refusal {
    fn fmt<W: fmt::Write>(&self, f: &mut fmt::Formatter<W>) -> fmt::Result {
        f.write_str(match self {
            Refusal::InUse => "it is in use",
            Refusal::NoAddress => "this machine has no such address",
            Refusal::NoPort => "there is no such port",
            Refusal::TooManySockets => {
                "too many files are open; ulimit -n prints how many a process may have"
            }
            Refusal::Other(kind) => return fmt::Display::fmt(kind, f),
            Refusal::File(cause) => return fmt::Display::fmt(cause, f),
            Refusal::Input(cause) => return fmt::Display::fmt(cause, f),
            Refusal::Line(cause) => return fmt::Display::fmt(cause, f),
        })
    }
}

impl Refusal {
    /// Why the system refuses the address that gave this error.
    fn of(error: &io::Error) -> Refusal {
        match error.raw_os_error() {
            Some(number) if TOO_MANY_OPEN.contains(&number) => Refusal::TooManySockets,
            _ => Refusal::of_kind(error.kind()),
        }
    }

    /// Why it refuses the address that gave an error of this kind.
    fn of_kind(kind: ErrorKind) -> Refusal
        ensures { result ≡ refusal_of kind }
    {
        match kind {
            ErrorKind::AddrInUse => Refusal::InUse,
            ErrorKind::AddrNotAvailable => Refusal::NoAddress,
            ErrorKind::PermissionDenied => Refusal::File(Cause::NoRight),
            other => Refusal::Other(other),
        }
    }
}

/// Why a file was refused, if the command says it.
pub(crate) fn of_reason(reason: Option<Reason>) -> Option<Refusal>
    ensures { result ≡ reason_told reason }
{
    match reason {
        Some(reason) => Some(Refusal::File(reason.cause)),
        None => None,
    }
}

/// Why what was to be done is refused, if the list or the book shows it.
pub(crate) fn of_input(input: Option<InputCause>) -> Option<Refusal>
    ensures { result ≡ input_told input }
{
    match input {
        Some(cause) => Some(Refusal::Input(cause)),
        None => None,
    }
}

/// Why a book is refused: the reason that came with the fault, and without one what the book shows.
pub(crate) fn of_book(reason: Option<Reason>, input: Option<InputCause>) -> Option<Refusal>
    ensures { result ≡ book_told reason input }
{
    match reason {
        Some(reason) => Some(Refusal::File(reason.cause)),
        None => of_input(input),
    }
}

/// Why a socket can't be bound to this address, if it can't now.
pub(crate) fn of_address(net: &impl Net, at: SocketAddr) -> Option<Refusal> {
    match UdpSocket::bind(net, at) {
        Ok(_bound) => None,
        Err(error) => Some(Refusal::of(&error)),
    }
}

/// Why no socket could be bound to the address of the meter of this number, where the first one has this address. Where one can be now that
/// there is no other, the system refused the number of them.
pub(crate) fn of_addresses(net: &impl Net, first: SocketAddr, number: u32) -> Option<Refusal> {
    let mut at = first;
    if first.port() > 0 {
        let port = u64::from(first.port()) + u64::from(number.saturating_sub(1));
        match u16::try_from(port) {
            Ok(port) => at.set_port(port),
            Err(_) => return Some(Refusal::NoPort),
        }
    }
    match of_address(net, at) {
        Some(refusal) => Some(refusal),
        None => Some(Refusal::TooManySockets),
    }
}

/// Why a file can't be read, if it can't be opened now. What is no file and no folder isn't opened, since that may wait or take bytes away.
pub(crate) fn of_file(files: &impl Files, path: &str) -> Option<Refusal> {
    match fs::metadata(files, path) {
        Err(error) => Some(Refusal::File(Cause::from(error))),
        Ok(about) if about.is_dir() => Some(Refusal::File(Cause::IsFolder)),
        Ok(about) if about.is_file() => match fs::open(files, path) {
            Ok(_opened) => None,
            Err(error) => Some(Refusal::File(Cause::from(error))),
        },
        Ok(_) => None,
    }
}
