//! The counters of a sealer, over a journal of what is reserved of them.

ghost use Rattle.std.specs.Prelude.{
  ◌≡◌,
  ◌≢◌,
  ◌≤◌,
  ◌<◌,
  ◌↔◌,
  ◌⊎◌,
  ◌+◌,
  [],
  ◌∷◌,
  ℕ,
  List,
  IfOk,
  IfErr,
  OnOk,
  OnErr,
  IsOk,
  IsErrOf,
  IsTrue,
  false,
};
ghost use Rattle.fw_journal.specs.Device.{LeavesOnly, Keeps};
ghost use Rattle.fw_journal.specs.Refusals.{IsMakingRefusal};
ghost use Rattle.fw_counter.specs.Moves.{Counter, Goes, MovesLead, uses, reserves, killed, limit, reserved_after, taken};
ghost use Rattle.fw_counter.specs.Reserved.{HasNoCounter, HasReserved, Reserves};
ghost use Rattle.fw_counter.specs.Refusals.{IsOpeningRefusal, IsTakingRefusal};
ghost use Rattle.fw_counter.specs.Told.{ReservesAll, Tells};

use crate::error::{CounterError, OpeningError};
use crate::gathering::gather;
use crate::reading::{bound_of, reservation_of};
use fw_journal::{Journal, JournalDevice, JournalError, MemoryKeeper, Replacer, RewriteError};
use std::alloc::Global;

/// How many counters are reserved at a time.
const RANGE: u32 = 65_536;

/// The invocation counters that one sealer uses under a key (IEC 62056-5-3): each APDU is sealed with the next one, and none is used twice.
/// Each record of the journal is a number of four bytes, high byte first, and reserves all counters below it. A counter is given only once
/// it is reserved, and what is reserved counts as used where the journal is opened. So a kill or a power cut wastes a range at most, and
/// repeats nothing. There are 4,294,967,295 counters, so at most 65,536 ranges, and their records have 2.7 MB.
pub struct KeptCounters<D: JournalDevice> {
    journal: Journal<D>,
    /// The counter that is given next.
    next: u32,
    /// All below it are reserved on the device.
    reserved: u32,
}

// Written out, so that letting go of it is one call in a proof. A derived `Drop` is unfolded there field by field, which takes minutes.
impl<D: JournalDevice + Drop> Drop for KeptCounters<D> {
    fn drop(self) {
        let KeptCounters {
            journal: _,
            next: _,
            reserved: _,
        } = self;
    }
}

impl<D: JournalDevice> KeptCounters<D> {
    ghost use Rattle.fw_counter.specs.Counters.{counter_of, device_of, is_broken, IsFull, IsKept, Holds};

    /// Makes counters of which none is used or reserved, on a device without bytes, and syncs it. A power cut in the call leaves any bytes,
    /// so that a file is made beside, and renamed then.
    ///
    /// # Errors
    ///
    /// `NotEmpty` if there are bytes, which are left as they are and reported before memory is taken; else `BookFault` and
    /// `OutOfMemory`. The device is returned.
    pub fn create(alloc: Global, device: D) -> Result<Self, (JournalError, D)>
        ensures made { IsTrue (D.honest device) → IfOk result (λ counters. Holds D.JournalDevice counters) }
        ensures counter { IfOk result (λ counters. counter_of counters ≡ record { next = 0; reserved = 0 }) }
        ensures empty { IsTrue (D.honest device) → OnOk result (D.contents device ≡ []) }
        ensures not_empty { IsTrue (D.honest device) → IfErr result (λ e. e.0 ≡ JournalError.NotEmpty
            → (D.contents device ≢ []) × (D.contents e.1 ≡ D.contents device)) }
        ensures memory { IsTrue (D.honest device) → IfErr result (λ e. e.0 ≡ JournalError.OutOfMemory → D.contents device ≡ []) }
        ensures never { IsTrue (D.sound device) → IfErr result (λ e. e.0 ≢ JournalError.BookFault) }
        ensures refusals { IfErr result (λ e. IsMakingRefusal e.0) }
        ensures kept { IfOk result (λ counters. Keeps D.honest D.sound device (device_of counters)) }
    {
        match Journal::create(alloc, device) {
            Ok(journal) => Ok(KeptCounters {
                journal,
                next: 0,
                reserved: 0,
            }),
            Err(refused) => Err(refused),
        }
    }

    /// Opens the counters that a power cut, or a process that was killed, may have left. All that are reserved count as used, and all that
    /// the bytes tell are reserved: also those of records that stand from the shut gate on, as a commit that was cut leaves one, and a gate
    /// that turned on the medium all from itself on. If these have the greatest number, the replacer puts a journal of it in the place of
    /// the bytes before anything is cut off. The device is synced.
    ///
    /// # Errors
    ///
    /// `NoCounter` if the bytes are no journal's, or if a record isn't a number of four bytes; the device is as it was. Else
    /// `NotReplaced`, with the device as it was, and `CounterFault` and `OutOfMemory`, of the device or of the replacer, which may come in
    /// place of `NoCounter`. The device is returned.
    pub fn open<R: Replacer<D>>(
        alloc: Global,
        device: D,
        replacer: &mut R,
    ) -> Result<Self, (OpeningError, D)>
        ensures opened { IsTrue (D.honest device) → IfOk result (λ counters. Holds D.JournalDevice counters) }
        ensures reserved { IsTrue (D.honest device)
            → IfOk result (λ counters. Tells (D.contents device) (counter_of counters).reserved) }
        ensures next { IfOk result (λ counters. (counter_of counters).next ≡ (counter_of counters).reserved) }

        // What is opened goes on with the counter of those whose kill or whose cut left the bytes.
        ensures goes { IsTrue (D.honest device) → (used : List ℕ) (before : Counter) → HasReserved (D.contents device) before.reserved
            → IfOk result (λ counters. Goes used before (killed (counter_of counters).reserved) used (counter_of counters)) }
        ensures none { IsTrue (D.honest device)
            → IfErr result (λ e. e.0 ≡ OpeningError.Counter CounterError.NoCounter → HasNoCounter (D.contents device)) }

        // A cut at any moment of the call leaves what one before it might have left, or records that reserve all that the bytes told.
        ensures any_moment { IsTrue (D.honest device) → IfOk result (λ counters. LeavesOnly D.moment D.left_since device (device_of counters)
            (λ left. D.may_leave device left ⊎ ReservesAll (D.contents device) left)) }
        ensures any_moment_err { IsTrue (D.honest device) → IfErr result (λ e. LeavesOnly D.moment D.left_since device e.1
            (λ left. D.may_leave device left ⊎ ReservesAll (D.contents device) left)) }
        ensures never { IsTrue (D.honest device) → IsTrue (D.sound device)
            → IfErr result (λ e. (e.0 ≢ OpeningError.Counter CounterError.CounterFault) × (e.0 ≢ OpeningError.NotReplaced)) }
        ensures refusals { IfErr result (λ e. IsOpeningRefusal e.0) }
        ensures kept { IfOk result (λ counters. Keeps D.honest D.sound device (device_of counters)) }
    {
        fw_journal::laws::one_reading();
        fw_journal::laws::bad_is_none();
        let mut device = device;
        if let Err(refusal) = gather(alloc, &mut device, replacer) {
            return Err((refusal, device));
        }
        // What is cut off now tells nothing more, and needn't be kept.
        match Journal::open(alloc, device, &mut MemoryKeeper::new(alloc)) {
            Ok((journal, records)) => match bound_of(&records) {
                Some(reserved) => Ok(KeptCounters {
                    journal,
                    next: reserved,
                    reserved,
                }),
                None => Err((
                    OpeningError::from(CounterError::NoCounter),
                    journal.into_device(),
                )),
            },
            Err((refusal, device)) => Err((
                OpeningError::from(CounterError::from(refusal)),
                device,
            )),
        }
    }

    /// The device. Every power cut leaves records that reserve just what is reserved here; or that at least, where a commit has failed.
    pub fn device(&self) -> &D
        ensures value { result.now ≡ device_of self.now }
        ensures each_cut { Holds D.JournalDevice self.now → (left : List ℕ) → D.may_leave (device_of self.now) left
            → Reserves left (counter_of self.now).reserved }
        ensures leaves { IsKept D.JournalDevice self.now → (left : List ℕ) → D.may_leave (device_of self.now) left
            → HasReserved left (counter_of self.now).reserved }
    {
        self.journal.device()
    }

    /// The device.
    pub fn into_device(self) -> D
        ensures { result ≡ device_of self }
    {
        let KeptCounters {
            journal,
            next: _,
            reserved: _,
        } = self;
        journal.into_device()
    }

    /// The next counter, which is used by that: it isn't given again, whatever becomes of the caller. If all reserved ones are used, a
    /// range more is reserved and synced first. From `Ok` on every power cut leaves records that reserve it.
    ///
    /// # Errors
    ///
    /// `CounterSpent` if all are used. Else, where a range has to be reserved, `CounterFault`, if the device fails, where it failed in
    /// an earlier call, or if the journal has 2^60 bytes or more; or `OutOfMemory`. The counter is as before then. No more are reserved
    /// from a `CounterFault` on that the device gave.
    pub fn take(&mut self, alloc: Global) -> Result<u32, CounterError>
        ensures given { IfOk result (λ number. number ≡ (counter_of self.old).next) }
        ensures after { OnOk result (counter_of self.new ≡ taken (counter_of self.old)) }
        ensures same { OnErr result (counter_of self.new ≡ counter_of self.old) }

        // It is a reservation, which may be of none, and then a use.
        ensures goes { (used : List ℕ) → IfOk result (λ number. MovesLead used (counter_of self.old)
            (reserves (reserved_after (counter_of self.old)) ∷ uses ∷ []) (number ∷ used) (counter_of self.new)) }

        // From `Ok` on every power cut leaves records that reserve more than this number.
        ensures each_cut { IsKept D.JournalDevice self.old
            → IfOk result (λ number. (left : List ℕ) → D.may_leave (device_of self.new) left → HasReserved left (number + 1)) }

        // A cut at any moment of the call leaves records that reserve what was reserved before, or a range more; and after whatever calls,
        // what was reserved before at least.
        ensures any_moment { Holds D.JournalDevice self.old → LeavesOnly D.moment D.left_since (device_of self.old) (device_of self.new)
            (λ left. Reserves left (counter_of self.old).reserved ⊎ Reserves left (reserved_after (counter_of self.old))) }
        ensures leaves { IsKept D.JournalDevice self.old → LeavesOnly D.moment D.left_since (device_of self.old) (device_of self.new)
            (λ left. HasReserved left (counter_of self.old).reserved) }
        ensures acknowledged { Holds D.JournalDevice self.old → OnOk result (Holds D.JournalDevice self.new) }
        ensures stays { IsKept D.JournalDevice self.old → IsKept D.JournalDevice self.new }

        // Nothing is asked of the device while reserved ones are left.
        ensures idle { (counter_of self.old).next < (counter_of self.old).reserved
            → IsOk result × (device_of self.new ≡ device_of self.old) }
        ensures spent { IsErrOf result CounterError.CounterSpent ↔ ((counter_of self.old).next ≡ limit) }

        // What failed once stays failed.
        ensures breaks { IsErrOf result CounterError.CounterFault → IsTrue (is_broken self.new) ⊎ IsFull self.old }
        ensures broken { IsTrue (is_broken self.old) → OnErr result (self.new ≡ self.old) × IsTrue (is_broken self.new)
            × ¬ IsErrOf result CounterError.OutOfMemory }

        // A sound device gives no `CounterFault`, unless it was so before.
        ensures never { IsTrue (D.sound (device_of self.old)) → IsErrOf result CounterError.CounterFault
            → IsTrue (is_broken self.old) ⊎ IsFull self.old }
        ensures memory { IsErrOf result CounterError.OutOfMemory
            → ((counter_of self.old).reserved ≤ (counter_of self.old).next) × ((counter_of self.old).next < limit) }
        ensures refusals { IfErr result IsTakingRefusal }
        ensures kept { Keeps D.honest D.sound (device_of self.old) (device_of self.new) }
    {
        self.reserve(alloc)?;
        let number = self.next;
        self.next = number + 1;
        Ok(number)
    }

    /// Writes what is reserved anew, as one record, in the place of all records: the new bytes are made beside the old ones. Who had the
    /// device before may have ended since it failed, and then a sync of the old bytes may return `Ok` though a part of them isn't there.
    ///
    /// # Errors
    ///
    /// Those of a journal that is rewritten: `NotReplaced`, `BookFault` and `OutOfMemory`. The counter is as before then.
    pub fn compact<R: Replacer<D>>(
        &mut self,
        alloc: Global,
        replacer: &mut R,
    ) -> Result<(), RewriteError>
        ensures same { counter_of self.new ≡ counter_of self.old }
        ensures anew { OnOk result (R.made replacer.new (device_of self.new)) }
        ensures acknowledged { Holds D.JournalDevice self.old → OnOk result (Holds D.JournalDevice self.new) }

        // A cut at any moment of the call leaves records that reserve what is reserved before it and after it.
        ensures any_moment { Holds D.JournalDevice self.old → LeavesOnly D.moment D.left_since (device_of self.old) (device_of self.new)
            (λ left. Reserves left (counter_of self.old).reserved) }
        ensures stays { IsKept D.JournalDevice self.old → IsKept D.JournalDevice self.new }
        ensures goes_on { IsErrOf result RewriteError.NotReplaced → is_broken self.new ≡ false }
        ensures never { IsTrue (D.sound (device_of self.old)) → IsErrOf result RewriteError.BookFault → IsTrue (is_broken self.old) }
        ensures replaced { IsTrue (D.sound (device_of self.old)) → ¬ IsErrOf result RewriteError.NotReplaced }
    {
        let Ok(records) = reservation_of(alloc, self.reserved) else {
            return Err(RewriteError::OutOfMemory);
        };
        self.journal.rewrite(alloc, replacer, &records)
    }

    /// Reserves a range more, where all reserved counters are used.
    fn reserve(&mut self, alloc: Global) -> Result<(), CounterError>
        ensures after { OnOk result (counter_of self.new
            ≡ record { next = (counter_of self.old).next; reserved = reserved_after (counter_of self.old) }) }
        ensures some { OnOk result ((counter_of self.new).next < (counter_of self.new).reserved) }
        ensures more { (counter_of self.old).reserved ≤ reserved_after (counter_of self.old) }
        ensures same { OnErr result (counter_of self.new ≡ counter_of self.old) }
        ensures any_moment { Holds D.JournalDevice self.old → LeavesOnly D.moment D.left_since (device_of self.old) (device_of self.new)
            (λ left. Reserves left (counter_of self.old).reserved ⊎ Reserves left (reserved_after (counter_of self.old))) }
        ensures leaves { IsKept D.JournalDevice self.old → LeavesOnly D.moment D.left_since (device_of self.old) (device_of self.new)
            (λ left. HasReserved left (counter_of self.old).reserved) }
        ensures acknowledged { Holds D.JournalDevice self.old → OnOk result (Holds D.JournalDevice self.new) }
        ensures stays { IsKept D.JournalDevice self.old → IsKept D.JournalDevice self.new }
        ensures idle { (counter_of self.old).next < (counter_of self.old).reserved → IsOk result × (self.new ≡ self.old) }
        ensures spent { IsErrOf result CounterError.CounterSpent ↔ ((counter_of self.old).next ≡ limit) }
        ensures breaks { IsErrOf result CounterError.CounterFault → IsTrue (is_broken self.new) ⊎ IsFull self.old }
        ensures broken { IsTrue (is_broken self.old) → (self.new ≡ self.old) × ¬ IsErrOf result CounterError.OutOfMemory }
        ensures never { IsTrue (D.sound (device_of self.old)) → IsErrOf result CounterError.CounterFault
            → IsTrue (is_broken self.old) ⊎ IsFull self.old }
        ensures memory { IsErrOf result CounterError.OutOfMemory
            → ((counter_of self.old).reserved ≤ (counter_of self.old).next) × ((counter_of self.old).next < limit) }
        ensures refusals { IfErr result IsTakingRefusal }
        ensures kept { Keeps D.honest D.sound (device_of self.old) (device_of self.new) }
    {
        if self.next < self.reserved {
            return Ok(());
        }
        let bound = self.next.saturating_add(RANGE);
        if bound == self.next {
            return Err(CounterError::CounterSpent);
        }
        self.journal.commit_with(alloc, &bound.to_be_bytes())?;
        self.reserved = bound;
        Ok(())
    }
}
