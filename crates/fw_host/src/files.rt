//! The files of a command.

ghost use Rattle.std.specs.Prelude.{◌≡◌, ◌↔◌, IsTrue, IfErr, IfSome, Some};
ghost use Rattle.fw_disk.specs.declared.cause.Cause.TheVariants.{Missing};
ghost use Rattle.fw_disk.specs.declared.name.Name.TheVariants.{Main};

use fw_disk::{Because, Cause, Name, Reason, SystemFolder};
use std::fs::File;
use std::rt::Files;

/// The folder of the file at this path.
///
/// # Errors
///
/// This error, with its reason: the path is too long.
pub(crate) fn folder_of<'a, F: Files<File = File>, E: Drop>(
    rt: &'a F,
    path: &'a str,
    error: E,
) -> Result<SystemFolder<'a, F>, Because<E>>
    ensures error { IfErr result (λ b. b.error ≡ error) }
    ensures reason { IfErr result (λ b. IfSome b.reason (λ r. r.name ≡ Main)) }
{
    match SystemFolder::of(rt, path) {
        Ok(folder) => Ok(folder),
        Err(cause) => Err(Because::of(error, cause.at(Name::Main))),
    }
}

/// Whether the reason is that there is no FILE.
pub(crate) fn is_missing(reason: Option<Reason>) -> bool
    ensures { IsTrue result ↔ (reason ≡ Some (record { name = Main; cause = Missing })) }
{
    let missing = Reason {
        name: Name::Main,
        cause: Cause::Missing,
    };
    reason == Some(missing)
}
