//! What a fault of the making of keys is about, and why it is refused.

ghost use Rattle.std.specs.Prelude.{◌≡◌, Some};
ghost use Rattle.dlmsfw.specs.KeyPlaces.{key_place_of, key_place_text, TellsKeyReason};

use crate::refusal;
use crate::refusal::Refusal;
use fw_cli::{InputCause, KeyMakingError, KeysFailure, KeysOptions};
use fw_key_files::Owner;
use std::fmt;
use std::rt::Files;

/// The list and the folder that keys are made with.
#[derive(Clone, Copy)]
pub(crate) struct KeyPlaces<'a> {
    meters: &'a str,
    folder: &'a str,
}

impl<'a> KeyPlaces<'a> {
    /// Those of these options.
    pub(crate) fn of(options: &KeysOptions<'a>) -> KeyPlaces<'a>
        ensures meters { result.meters ≡ options.now.meters }
        ensures folder { result.folder ≡ options.now.folder }
    {
        KeyPlaces {
            meters: options.meters,
            folder: options.folder,
        }
    }
}

/// What a fault of the making of keys is about.
#[derive(Clone, Copy)]
pub(crate) enum KeyPlace<'a> {
    /// The list of meters.
    Meters(&'a str),
    /// This end's file in the folder.
    Made(&'a str, Owner),
}

impl fmt::Display for KeyPlace<'_> {
    ghost output = { λ place. Some (key_place_text place) };

    fn fmt<W: fmt::Write>(&self, f: &mut fmt::Formatter<W>) -> fmt::Result {
        match self {
            KeyPlace::Meters(file) => write!(f, "--meters {file}"),
            KeyPlace::Made(folder, owner) => write!(f, "--out {folder}: {folder}/{owner}"),
        }
    }
}

/// What a fault of the making of keys is about, if it is one of these.
pub(crate) fn place_of<'a>(failure: &KeysFailure, places: &KeyPlaces<'a>) -> Option<KeyPlace<'a>>
    ensures { result ≡ key_place_of failure.now places.now }
{
    match failure.error {
        KeyMakingError::ListFault | KeyMakingError::BadList(_) => {
            Some(KeyPlace::Meters(places.meters))
        }
        KeyMakingError::KeysFault => Some(KeyPlace::Made(places.folder, failure.owner?)),
        _ => None,
    }
}

/// Why it is refused. Of a file that can't be made it is the reason that came with the fault. Of a list that can't be read it is why the
/// system refuses that now, if it does. Of a line of the list it is what the list shows.
pub(crate) fn refusal_of(
    files: &impl Files,
    failure: &KeysFailure,
    places: &KeyPlaces<'_>,
    input: Option<InputCause>,
) -> Option<Refusal>
    ensures { TellsKeyReason (key_place_of failure.now places.now) failure.now.reason result }
{
    match failure.error {
        KeyMakingError::KeysFault => refusal::of_reason(failure.reason),
        KeyMakingError::ListFault => refusal::of_file(files, places.meters),
        KeyMakingError::BadList(_) => refusal::of_input(input),
        _ => None,
    }
}
