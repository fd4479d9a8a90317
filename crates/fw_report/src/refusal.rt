//! An event that was refused, and why.

ghost use Rattle.std.specs.Prelude.{◌≡◌, ◌++◌, OnOk, string_bytes};
ghost use Rattle.fw_report.specs.Refusal.{cause_name, refusal_line, refusal_line_if, refusal_name};

use fw_book::BookError;
use fw_world::StepError;
use std::alloc::AllocError;

/// An event that was refused.
#[derive(Clone, Copy)]
pub struct Refusal {
    /// Its number, from 0 on.
    pub at: usize,
    /// Why it was refused.
    pub cause: StepError,
}

/// Appends the line that says which event was refused, and why, if one was.
pub(crate) fn append_refusal(text: &mut String, refusal: Option<Refusal>) -> Result<(), AllocError>
    ensures { OnOk result (string_bytes text.new ≡ string_bytes text.old ++ refusal_line_if refusal) }
{
    match refusal {
        None => Ok(()),
        Some(refusal) => append_refusal_line(text, refusal),
    }
}

/// Appends the line that says which event was refused, and why.
fn append_refusal_line(text: &mut String, refusal: Refusal) -> Result<(), AllocError>
    ensures { OnOk result (string_bytes text.new ≡ string_bytes text.old ++ refusal_line refusal) }
{
    let (at, name) = (refusal.at, cause_name(refusal.cause));
    write!(text, "refused {at} {name}\n")
}

/// The name of what an event was refused for.
pub(crate) fn cause_name(cause: StepError) -> &'static str
    ensures { result.now ≡ cause_name cause }
{
    match cause {
        StepError::NoSuchDatagram => "NoSuchDatagram",
        StepError::NoSuchActor => "NoSuchActor",
        StepError::Book(refusal) => refusal_name(refusal),
        StepError::OutOfMemory => "OutOfMemory",
    }
}

/// The name of a book's refusal.
fn refusal_name(refusal: BookError) -> &'static str
    ensures { result.now ≡ refusal_name refusal }
{
    match refusal {
        BookError::ForeignHead => "ForeignHead",
        BookError::SerialUsed => "SerialUsed",
        BookError::EmptyImage => "EmptyImage",
        BookError::ImageTooLong => "ImageTooLong",
        BookError::NoMeters => "NoMeters",
        BookError::TooManyMeters => "TooManyMeters",
        BookError::MeterTwice => "MeterTwice",
        BookError::MeterBusy => "MeterBusy",
        BookError::NoSuchCampaign => "NoSuchCampaign",
        BookError::WrongCampaign => "WrongCampaign",
        BookError::NotLive => "NotLive",
        BookError::BadBook => "BadBook",
        BookError::OutOfMemory => "OutOfMemory",
    }
}
