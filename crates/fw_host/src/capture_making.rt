//! The file of a new capture, which gets its name once the disk has its file header.

ghost use Rattle.std.specs.Prelude.{◌≡◌, ◌↔◌, ℕ, List, [], IsTrue, IfOk, OnOk, length, take};
ghost use Rattle.fw_disk.specs.declared.name.Name.TheVariants.{Main, New};
ghost use Rattle.fw_disk.specs.Disk.{absent, Goes, IsSynced};
ghost use Rattle.fw_disk.specs.Ours.{MayTake, IsNamed, IsKept};
ghost use Rattle.fw_host.specs.BegunCapture.{IsBegunCapture, MakesFile};

use fw_capture::FILE_HEADER_SIZE;
use fw_disk::{FRONT_SIZE, Folder, Kind, Name, Reason, abandon, begin, fill, finish};

/// What the first bytes of a capture are.
const FRONT: [u8; FRONT_SIZE] = [0x4d, 0x3c, 0xb2, 0xa1, 2, 0, 4, 0, 0, 0, 0, 0, 0, 0, 0, 0];

/// The file header of a capture, or what a cut making left of it.
#[derive(Clone, Copy)]
struct BegunCapture;

impl Kind for BegunCapture {
    ghost use Rattle.fw_host.specs.BegunCapture.{IsBegunCapture, none_is_begun, front_is_begun};

    ghost ours = { λ _. IsBegunCapture };

    ghost first = { λ _. 0 };

    fn is_ours(&self, front: &[u8], len: u64) -> bool {
        len <= FILE_HEADER_SIZE as u64
            && (begins_as(front, &FRONT) || begins_as(front, &[0; FRONT_SIZE]))
    }

    fn first(&self) -> usize {
        0
    }

    ghost small = { λ _. none_is_begun };

    ghost fronts = { λ _. front_is_begun };
}

/// Whether a file, of which this is the front, begins as this form, as far as it goes.
pub(crate) fn begins_as(front: &[u8], form: &[u8; FRONT_SIZE]) -> bool
    ensures { (all : List ℕ) → front.now ≡ take 16 all → (IsTrue result ↔ (take 16 all ≡ take (length all) form.now)) }
{
    let count = front.len().min(FRONT_SIZE);
    front[..count] == form[..count]
}

/// Makes the file of a capture with this file header, if nothing is FILE: as FILE.new, which is named FILE once the disk has it.
///
/// # Errors
///
/// `Exists` if something is FILE; `NotAlone` and `Foreign` if another program's file is FILE.new; `Locked` if another process has
/// it; and those of the system. What was begun is taken away then.
pub(crate) fn new_capture<F: Folder>(folder: &mut F, header: &[u8]) -> Result<F::File, Reason>
    ensures absent { IsTrue (F.seen folder.old).honest → OnOk result ((F.seen folder.old).disk.entry Main ≡ absent) }
    ensures named { IsTrue (F.seen folder.old).honest
        → IfOk result (λ file. IsNamed Main (F.number file) header.now (F.seen folder.new).disk) }
    ensures kept { IsTrue (F.seen folder.old).honest
        → IfOk result (λ file. IsKept Main (F.number file) header.now (F.seen folder.new)) }

    // Whatever it answers, and whenever it is cut.
    ensures goes { Goes (MakesFile header.now (MayTake IsBegunCapture (F.seen folder.old).disk New))
        (F.seen folder.old) (F.seen folder.new) }
{
    let file = match begin(folder, Name::New, &BegunCapture) {
        Ok(file) => file,
        Err(cause) => return Err(cause.at(Name::New)),
    };
    match fill_and_name(folder, &file, header) {
        Ok(()) => Ok(file),
        Err(reason) => {
            abandon(folder, Name::New, &file);
            Err(reason)
        }
    }
}

/// Gives FILE.new, which was begun, its bytes, and then the name FILE.
fn fill_and_name<F: Folder>(folder: &mut F, file: &F::File, header: &[u8]) -> Result<(), Reason>
    ensures absent { IsTrue (F.seen folder.old).honest → IsNamed New (F.number file.now) [] (F.seen folder.old).disk
        → IsSynced (F.number file.now) (F.seen folder.old) → OnOk result ((F.seen folder.old).disk.entry Main ≡ absent) }
    ensures named { IsTrue (F.seen folder.old).honest → IsNamed New (F.number file.now) [] (F.seen folder.old).disk
        → IsSynced (F.number file.now) (F.seen folder.old)
        → OnOk result (IsNamed Main (F.number file.now) header.now (F.seen folder.new).disk) }
    ensures kept { IsTrue (F.seen folder.old).honest → IsNamed New (F.number file.now) [] (F.seen folder.old).disk
        → IsSynced (F.number file.now) (F.seen folder.old)
        → OnOk result (IsKept Main (F.number file.now) header.now (F.seen folder.new)) }
    ensures goes { IsNamed New (F.number file.now) [] (F.seen folder.old).disk → IsSynced (F.number file.now) (F.seen folder.old)
        → Goes (MakesFile header.now (λ m. m ≡ F.number file.now)) (F.seen folder.old) (F.seen folder.new) }
{
    match fill(folder, file, &BegunCapture, header) {
        Ok(()) => (),
        Err(cause) => return Err(cause.at(Name::New)),
    }
    match finish(folder, file) {
        Ok(()) => Ok(()),
        Err(error) => Err(error.cause().at(Name::Main)),
    }
}
