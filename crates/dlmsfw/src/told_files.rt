//! The files of a head end's events and metrics, as a fault names them.

ghost use Rattle.std.specs.Prelude.{◌≡◌, Some};
ghost use Rattle.dlmsfw.specs.ToldPlaces.{told_place_of, told_place_text};

use crate::cause::NamedFile;
use crate::options::HeadShown;
use fw_cli::{ToldFile, Untold};
use std::fmt;

/// What can't be written to, by the option that names it.
#[derive(Clone, Copy)]
pub(crate) enum ToldPlace<'a> {
    Events(NamedFile<'a>),
    Metrics(NamedFile<'a>),
}

impl fmt::Display for ToldPlace<'_> {
    ghost output = { λ place. Some (told_place_text place) };

    fn fmt<W: fmt::Write>(&self, f: &mut fmt::Formatter<W>) -> fmt::Result {
        match self {
            ToldPlace::Events(file) => write!(f, "--events {file}"),
            ToldPlace::Metrics(file) => write!(f, "--metrics {file}"),
        }
    }
}

/// The file that can't be made, opened, read or written, or the one beside it that is meant, if its option was given.
pub(crate) fn place_of<'a>(untold: Untold, shown: HeadShown<'a>) -> Option<ToldPlace<'a>>
    ensures { result ≡ told_place_of untold shown.entry }
{
    let name = untold.reason.name;
    match untold.file {
        ToldFile::Events => Some(ToldPlace::Events(NamedFile::at(shown.events?, name))),
        ToldFile::Metrics => Some(ToldPlace::Metrics(NamedFile::at(shown.metrics?, name))),
    }
}
