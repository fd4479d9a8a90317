//! Why a call over a file failed, told with the file's name.

ghost use Rattle.std.specs.Prelude.{◌≡◌, Some, None};

use crate::cause::Cause;
use crate::name::Name;

/// Why a file wasn't opened, made or written, and under which of its names.
#[derive(Clone, Copy, Debug, PartialEq, Eq)]
pub struct Reason {
    /// The name.
    pub name: Name,
    /// Why.
    pub cause: Cause,
}

impl Cause {
    /// The reason that this is of the file with a name.
    pub fn at(self, name: Name) -> Reason
        ensures name { result.name ≡ name }
        ensures cause { result.cause ≡ self }
    {
        Reason { name, cause: self }
    }
}

/// An error, and why, if it is known.
#[derive(Debug, Drop)]
pub struct Because<E> {
    /// The error.
    pub error: E,
    /// Why.
    pub reason: Option<Reason>,
}

impl<E> Because<E> {
    /// An error with its reason.
    pub fn of(error: E, reason: Reason) -> Because<E>
        ensures error { result.error ≡ error }
        ensures reason { result.reason ≡ Some reason }
    {
        Because {
            error,
            reason: Some(reason),
        }
    }
}

impl<E> From<E> for Because<E> {
    ghost from_gives = { λ error because. (because.error ≡ error) × (because.reason ≡ None) };

    fn from(error: E) -> Because<E> {
        Because {
            error,
            reason: None,
        }
    }
}
