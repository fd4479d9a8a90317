//! The file of new events.

ghost use Rattle.std.specs.Prelude.{[], IsTrue, IfOk};
ghost use Rattle.fw_disk.specs.declared.name.Name.TheVariants.{Main};
ghost use Rattle.fw_disk.specs.Ours.{IsNamed};

use fw_disk::{Folder, Kind, Name, Reason, abandon, begin, finish};

/// How many bytes a file of events begins with that others don't.
pub(crate) const FRONT_LEN: usize = 26;

/// What these are: its first event is the start of a head end.
pub(crate) const FRONT: &[u8; FRONT_LEN] = b"{\"event\":\"started\",\"head\":";

/// A file of events that is begun: it has no byte.
#[derive(Clone, Copy)]
struct BegunEvents;

impl Kind for BegunEvents {
    ghost use Rattle.fw_host.specs.Events.{IsEmpty, none_is_empty, front_is_empty};

    ghost ours = { λ _. IsEmpty };

    ghost first = { λ _. 0 };

    fn is_ours(&self, _front: &[u8], len: u64) -> bool {
        len == 0
    }

    fn first(&self) -> usize {
        0
    }

    ghost small = { λ _. none_is_empty };

    ghost fronts = { λ _. front_is_empty };
}

/// Makes a file without bytes, if nothing is FILE: as FILE.new, which is named FILE then.
///
/// # Errors
///
/// `Exists` if something is FILE; of FILE.new `NotAlone` and `Foreign` if it is another program's file, and `Locked` if another process has
/// it; and those of the system. What was begun is taken away then.
pub(crate) fn new_events<F: Folder>(folder: &mut F) -> Result<F::File, Reason>
    ensures named { IsTrue (F.seen folder.old).honest → IfOk result (λ file. IsNamed Main (F.number file) [] (F.seen folder.new).disk) }
{
    let file = match begin(folder, Name::New, &BegunEvents) {
        Ok(file) => file,
        Err(cause) => return Err(cause.at(Name::New)),
    };
    match finish(folder, &file) {
        Ok(()) => Ok(file),
        Err(error) => {
            abandon(folder, Name::New, &file);
            Err(error.cause().at(Name::Main))
        }
    }
}

/// Whether such a file can be made: it is begun as FILE.new, and taken away again.
///
/// # Errors
///
/// Those of `new_events`, but for `Exists`.
pub(crate) fn try_new_events<F: Folder>(folder: &mut F) -> Result<(), Reason> {
    match begin(folder, Name::New, &BegunEvents) {
        Ok(file) => {
            abandon(folder, Name::New, &file);
            Ok(())
        }
        Err(cause) => Err(cause.at(Name::New)),
    }
}
