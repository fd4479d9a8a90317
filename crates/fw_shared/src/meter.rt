//! A meter that workers share.

ghost use Rattle.std.specs.Prelude.{◌≡◌, ◌≤◌, ℕ, MatchBool, IfOk, IfErr, OnErr};
ghost use Rattle.fw_world.specs.Step.{deliver, turn};
ghost use Rattle.fw_world.specs.declared.error.StepError.TheVariants.{OutOfMemory};
ghost use Rattle.fw_shared.specs.Seat.{noted};
ghost use Rattle.fw_shared.specs.Acts.{IsCoreRefusal};

use crate::acts::{GuardedMeter, addressed};
use crate::seat::Seat;
use fw_air::{Sent, SharedLog};
use fw_meter::MeterCore;
use fw_names::MeterId;
use fw_store::ImageStore;
use fw_world::{Actor, StepError};
use std::alloc::Global;
use std::marker::Model;
use std::sync::{Mutex, Wait};

/// A meter under a lock, under which each of its events is made whole. The log's lock is taken inside it, for one append, and no
/// other.
#[derive(Drop)]
pub struct SharedMeter<S: ImageStore + Drop> {
    meter: MeterId,
    core: Mutex<GuardedMeter<S>>,
}

// Contracts see its number.
impl<S: ImageStore + Drop> Model for SharedMeter<S> {
    ghost use Rattle.std.specs.Prelude.{ℕ};

    ghost Value = { ℕ };

    ghost view = { λ m. m.meter };
}

impl<S: ImageStore + Drop> SharedMeter<S> {
    /// This meter with this number. It takes no memory.
    pub fn new(meter: MeterId, core: MeterCore<S>) -> SharedMeter<S>
        ensures { result ≡ meter }
    {
        SharedMeter {
            meter,
            core: Mutex::new(GuardedMeter::new(core)),
        }
    }

    /// The meter. It takes no memory.
    pub fn into_inner(self) -> MeterCore<S> {
        self.core.into_inner().into_inner()
    }

    /// Its number.
    pub fn meter(&self) -> MeterId
        ensures { result ≡ self.now }
    {
        self.meter
    }

    /// Handles the datagram of this number, which is for this meter, and sends its reply: a delivery, for which the seat has a
    /// receipt.
    ///
    /// # Errors
    ///
    /// `NoSuchDatagram`, `NoSuchActor` if the datagram is for another addressee, or `OutOfMemory`. Nothing was changed.
    pub fn serve<R: Wait>(
        &self,
        rt: &R,
        alloc: Global,
        log: &SharedLog,
        seat: &mut Seat,
        number: usize,
    ) -> Result<Sent, StepError>
        ensures served { IfOk result (λ sent. seat.new ≡ noted seat.old sent.event (deliver number)) }
        ensures most { IfOk result (λ sent. sent.count ≤ 1) }
        ensures refused { IfErr result IsCoreRefusal }
        ensures same { OnErr result (seat.new ≡ seat.old) }
    {
        let datagram = addressed(rt, alloc, log, Actor::Meter(self.meter), number)?;
        seat.receipts.reserve(1)?;
        let room = log.reserve(alloc)?;
        let core = self.core.lock(rt);
        let held = GuardedMeter::handle_under(core, alloc, self.meter, number, &datagram, room)?;
        Ok(held.record(rt, log, &mut seat.receipts))
    }

    /// A turn of the meter, where it verifies: the seat has a receipt for it. In every other status nothing is done, and no event
    /// is made; it returns whether one was.
    ///
    /// # Errors
    ///
    /// `OutOfMemory` alone. Nothing was changed.
    pub fn turn<R: Wait>(
        &self,
        rt: &R,
        alloc: Global,
        log: &SharedLog,
        seat: &mut Seat,
    ) -> Result<bool, StepError>
        ensures turned { IfOk result (λ made. MatchBool made ((number : ℕ) × (seat.new ≡ noted seat.old number (turn self.now))) (seat.new ≡ seat.old)) }
        ensures memory { IfErr result (λ e. e ≡ OutOfMemory) }
        ensures same { OnErr result (seat.new ≡ seat.old) }
    {
        seat.receipts.reserve(1)?;
        let room = log.reserve(alloc)?;
        let core = self.core.lock(rt);
        let Some(held) = GuardedMeter::turn_under(core, self.meter, room) else {
            return Ok(false);
        };
        held.record(rt, log, &mut seat.receipts);
        Ok(true)
    }

    /// Whether the meter verifies, so that `turn` goes on with it. Another thread may have ended this since.
    pub fn is_verifying<R: Wait>(&self, rt: &R) -> bool {
        self.core.lock(rt).is_verifying()
    }
}
