//! The files beside a store: FILE.new, which it is while it is made, and FILE.journal, its undo file.

ghost use Rattle.std.specs.Prelude.{◌≡◌, ◌↔◌, ℕ, List, [], IsTrue, IfOk, IfErr, OnOk, length, take};
ghost use Rattle.fw_disk.specs.declared.name.Name.TheVariants.{Main, New, Journal};
ghost use Rattle.fw_disk.specs.Disk.{absent, Goes, IsSynced};
ghost use Rattle.fw_disk.specs.Calls.{Stays};
ghost use Rattle.fw_disk.specs.Ours.{MayTake, Takes, IsNamed};
ghost use Rattle.fw_store.specs.Setup.{IsCapacity};
ghost use Rattle.fw_store.specs.Beside.{BeginsStore, IsBegunStore, IsUndoFile};
ghost use Rattle.fw_store.specs.Making.{IsInTheWay, IsNotOurs, TakesRoom, begun_bytes};

use crate::device_store::number;
use crate::tail::store_size;
use crate::version::HeaderVersion;
use fw_blocks::is_image_size;
use fw_cuts::undo::{MARK, MARK_SIZE, MAX_JOURNAL_SIZE};
use fw_disk::{Cause, Folder, Found, Kind, Name, Reason, abandon, begin, open_companion, reserve};

/// How many bytes of a store are its capacity. They are written and synced before all others.
const CAPACITY_SIZE: usize = 4;

/// A store that is made, whole or in part.
#[derive(Clone, Copy)]
pub(crate) struct BegunStore;

impl Kind for BegunStore {
    ghost use Rattle.fw_store.specs.Beside.{IsBegunStore, few_are_begun, front_is_begun};

    ghost ours = { λ _. IsBegunStore };

    ghost first = { λ _. 4 };

    fn is_ours(&self, front: &[u8], len: u64) -> bool {
        match front {
            [a, b, c, d, _, ..] => begins_store([*a, *b, *c, *d], len),
            _ => true,
        }
    }

    fn first(&self) -> usize {
        CAPACITY_SIZE
    }

    ghost small = { λ _. few_are_begun };

    ghost fronts = { λ _. front_is_begun };
}

/// The undo file of a store, whole, or what a cut write left of it.
#[derive(Clone, Copy)]
pub(crate) struct UndoFile;

impl Kind for UndoFile {
    ghost use Rattle.fw_store.specs.Beside.{IsUndoFile, none_is_undo, front_is_undo};

    ghost ours = { λ _. IsUndoFile };

    ghost first = { λ _. 0 };

    fn is_ours(&self, front: &[u8], len: u64) -> bool {
        len <= MAX_JOURNAL_SIZE as u64 && (begins_as(front, &MARK) || begins_as(front, &[0; 4]))
    }

    fn first(&self) -> usize {
        0
    }

    ghost small = { λ _. none_is_undo };

    ghost fronts = { λ _. front_is_undo };
}

/// Whether a file of so many bytes, of which these are the first ones, begins as a store, and is no longer.
fn begins_store(bytes: [u8; CAPACITY_SIZE], len: u64) -> bool
    ensures { (all : List ℕ) → take 4 all ≡ bytes → len ≡ length all → (IsTrue result ↔ ((capacity : ℕ) × BeginsStore capacity all)) }
{
    let capacity = number(bytes);
    is_image_size(capacity) && len <= store_size(HeaderVersion::Two, capacity)
}

/// Whether a file, of which this is the front, begins as this form, as far as it goes.
fn begins_as(front: &[u8], form: &[u8; MARK_SIZE]) -> bool
    ensures { (all : List ℕ) → front.now ≡ take 16 all → (IsTrue result ↔ (take 4 all ≡ take (length all) form.now)) }
{
    let count = front.len().min(MARK_SIZE);
    front[..count] == form[..count]
}

/// Checks that a store can be made: nothing is FILE, and FILE.new and FILE.journal are what a making may take, or nothing.
pub(crate) fn check_absent<F: Folder>(folder: &mut F) -> Result<(), Reason>
    ensures absent { IsTrue (F.seen folder.old).honest → OnOk result ((F.seen folder.old).disk.entry Main ≡ absent) }
    ensures store { IsTrue (F.seen folder.old).honest
        → OnOk result ((n : ℕ) × MayTake IsBegunStore (F.seen folder.old).disk New n) }
    ensures journal { IsTrue (F.seen folder.old).honest
        → OnOk result ((n : ℕ) × MayTake IsUndoFile (F.seen folder.old).disk Journal n) }
    ensures goes { Goes Stays (F.seen folder.old) (F.seen folder.new) }
    ensures reason { IsTrue (F.seen folder.old).honest → IfErr result (IsInTheWay (F.seen folder.old).disk) }
{
    check_no_file(folder)?;
    check_takable(folder, Name::New, &BegunStore)?;
    check_takable(folder, Name::Journal, &UndoFile)
}

/// Checks that nothing is FILE.
fn check_no_file<F: Folder>(folder: &mut F) -> Result<(), Reason>
    ensures absent { IsTrue (F.seen folder.old).honest → OnOk result ((F.seen folder.old).disk.entry Main ≡ absent) }
    ensures goes { Goes Stays (F.seen folder.old) (F.seen folder.new) }
    ensures reason { IsTrue (F.seen folder.old).honest → IfErr result (IsInTheWay (F.seen folder.old).disk) }
{
    match folder.look(Name::Main) {
        Ok(Found::Absent) => Ok(()),
        Ok(_) => Err(Cause::Exists.at(Name::Main)),
        Err(cause) => Err(cause.at(Name::Main)),
    }
}

/// Checks that a file with this name is what a making may take, if there is one.
fn check_takable<F: Folder, K: Kind>(folder: &mut F, name: Name, kind: &K) -> Result<(), Reason>
    ensures takable { IsTrue (F.seen folder.old).honest
        → OnOk result ((n : ℕ) × MayTake (K.ours kind.now) (F.seen folder.old).disk name n) }
    ensures goes { Goes Stays (F.seen folder.old) (F.seen folder.new) }
    ensures name { IfErr result (λ r. r.name ≡ name) }
    ensures cause { IsTrue (F.seen folder.old).honest
        → IfErr result (λ r. IsNotOurs (K.ours kind.now) (F.seen folder.old).disk name r.cause) }
{
    match open_companion(folder, name, kind) {
        Ok(_) => Ok(()),
        Err(cause) => Err(cause.at(name)),
    }
}

/// Begins FILE.new if nothing is FILE, and takes room in it for a whole store.
///
/// # Errors
///
/// `Exists` if something is FILE, those of `begin`, and those of the system; what was begun is taken away then.
pub(crate) fn begin_store<F: Folder>(folder: &mut F, capacity: u32) -> Result<F::File, Reason>
    ensures absent { IsTrue (F.seen folder.old).honest → OnOk result ((F.seen folder.old).disk.entry Main ≡ absent) }
    ensures room { IsTrue (F.seen folder.old).honest
        → IfOk result (λ file. IsNamed New (F.number file) (begun_bytes capacity) (F.seen folder.new).disk) }

    // Whatever it answers, and whenever it is cut: what is FILE.new then, the next making takes.
    ensures goes { Goes (Takes IsBegunStore (IsCapacity capacity) New (MayTake IsBegunStore (F.seen folder.old).disk New))
        (F.seen folder.old) (F.seen folder.new) }
{
    check_no_file(folder)?;
    match begin_with_room(folder, capacity) {
        Ok(file) => Ok(file),
        Err(cause) => Err(cause.at(Name::New)),
    }
}

/// Begins FILE.new, and takes room in it for a whole store.
fn begin_with_room<F: Folder>(folder: &mut F, capacity: u32) -> Result<F::File, Cause>
    ensures room { IsTrue (F.seen folder.old).honest
        → IfOk result (λ file. IsNamed New (F.number file) (begun_bytes capacity) (F.seen folder.new).disk) }
    ensures goes { Goes (Takes IsBegunStore (IsCapacity capacity) New (MayTake IsBegunStore (F.seen folder.old).disk New))
        (F.seen folder.old) (F.seen folder.new) }
{
    let file = begin(folder, Name::New, &BegunStore)?;
    match take_room(folder, &file, capacity) {
        Ok(()) => Ok(file),
        Err(cause) => {
            abandon(folder, Name::New, &file);
            Err(cause)
        }
    }
}

/// Gives a file that was begun the capacity of a store, which is synced before all else, and room for the whole store: zeros.
fn take_room<F: Folder>(folder: &mut F, file: &F::File, capacity: u32) -> Result<(), Cause>
    ensures done { IsTrue (F.seen folder.old).honest → (F.seen folder.old).disk.bytes (F.number file.now) ≡ []
        → OnOk result ((F.seen folder.new).disk.bytes (F.number file.now) ≡ begun_bytes capacity) }

    // Whatever it answers, and whenever it is cut.
    ensures goes { (F.seen folder.old).disk.bytes (F.number file.now) ≡ [] → IsSynced (F.number file.now) (F.seen folder.old)
        → Goes (TakesRoom capacity (F.number file.now)) (F.seen folder.old) (F.seen folder.new) }
{
    folder.write_at(file, 0, &capacity.to_be_bytes())?;
    folder.sync(file)?;
    let size = store_size(HeaderVersion::Two, capacity);
    reserve(folder, file, CAPACITY_SIZE as u64, size)
}
