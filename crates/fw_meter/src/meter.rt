//! A meter without its wires.

ghost use Rattle.std.specs.Prelude.{
  ◌≡◌,
  ◌≢◌,
  ◌≤◌,
  ◌↔◌,
  IsTrue,
  IfOk,
  IfErr,
  IsOkAnd,
  OnOk,
  OnErr,
  Some,
  None,
  is_ok,
  true,
  false,
  length,
};
ghost use Rattle.fw_store.specs.Faults.{HasCause, Spends, count_after};
ghost use Rattle.fw_store.specs.declared.fuse.Fuse.{Fuse};
ghost use Rattle.fw_server.specs.Meaning as meaning;
ghost use Rattle.fw_server.specs.Meaning.{code_number, meaning_of};
ghost use Rattle.fw_server.specs.View.{operation_meaning};
ghost use Rattle.fw_meter.specs.Private.{IsCalled, Steps};
ghost use Rattle.fw_meter.specs.Step.{got, answer_of, activation_of, coded};
ghost use Rattle.fw_apdu.specs.Request.{is_confirmed};
ghost use Rattle.fw_apdu.specs.View.{request_content, request_invoke};
ghost use Rattle.fw_image.specs.Calls.{verified_size, opening_calls, restart_calls};
ghost use Rattle.fw_image.specs.Meter.{Meter, status_of, reopened, migrated, restarted, IsTrusted};
ghost use Rattle.fw_image.specs.Shown.{shown_of, IsView};
ghost use Rattle.fw_image.specs.Fits.{IsFit};
ghost use Rattle.fw_image.specs.State.{Follows, Counts, Turns, IsOver, stored};
ghost use Rattle.fw_image.specs.Stored.{Holds, IsMeterOf, Opens, Refused, is_opening_faultless};
ghost use Rattle.fw_image.specs.declared.error.OpenError.TheVariants as not_opened;
ghost use Rattle.fw_meter.specs.Handling.{Handles, Responds, MayWantMemory, reply_to, reply_bytes};
ghost use Rattle.fw_meter.specs.Stopping.{CallsStore, StopsAfter};

use crate::attributes::read;
use crate::error::OutOfMemory;
use crate::operation::{activated, block, make};
use crate::serving::{Heard, hear};
use fw_image::{MeterView, OpenError, Phase, TransferStatus};
use fw_names::ImageName;
use fw_server::{Operation, Planned, Reading, ResultCode, plan};
use fw_store::{ImageStore, MemoryStore, StoreFault};
use std::alloc::{AllocError, Global};
use std::marker::Model;

/// A meter over a store.
pub struct MeterCore<S: ImageStore + Drop> {
    /// It moves out and back within a call.
    phase: Option<Phase<S>>,
}

// Written out, so that letting go of it is one call in a proof. A derived `Drop` is unfolded there field by field, which takes minutes.
impl<S: ImageStore + Drop> Drop for MeterCore<S> {
    fn drop(self) {
        let MeterCore { phase: _ } = self;
    }
}

impl<S: ImageStore + Drop> Model for MeterCore<S> {
    ghost use Rattle.std.specs.Coded.{codes};
    ghost use Rattle.fw_image.specs.Meter.{cells_code};
    ghost use Rattle.fw_image.specs.State.{State};
    ghost use Rattle.fw_meter.specs.Private.{IsThere, state_there};

    ghost Value = { State };

    ghost coded = { Prim.hlevel (codes, cells_code) };

    ghost view = { λ m. state_there m.phase };

    ghost invariant = { λ m. IsThere m.phase };
}

/// What a meter did with a datagram.
#[derive(Drop)]
pub struct Handled {
    /// The datagram to send back to where the other came from.
    pub reply: Option<Vec<u8>>,
    /// The name of the image that runs from now on, where the datagram switched to it.
    pub activated: Option<ImageName>,
}

impl<S: ImageStore + Drop> MeterCore<S> {
    /// A meter in the state that a store has. Its header is then written in version 2, with all else kept, if it is one of
    /// version 1.
    ///
    /// # Errors
    ///
    /// `Fault` if the store failed, `BadHeader` if its header is none that it can have, and `BadImage` if the image
    /// that runs, or a verified one, hasn't the digest of its name, in this order. The store is returned, and holds what it
    /// held.
    pub fn open_store(store: S) -> Result<MeterCore<S>, (OpenError, S)>
        ensures opened { IfOk result (λ meter. Opens (S.known store) meter) }

        // No verification goes on.
        ensures begins { IfOk result (λ meter. reopened meter.meter ≡ meter.meter) }
        ensures sound { IfOk result (λ meter. IsTrue (S.known store).sound → IsTrue meter.sound) }
        ensures faultless { IfOk result (λ meter. meter.faults ≡ (S.known store).faults) }
        ensures again { (meter : Meter) → IsMeterOf (S.known store).capacity (S.known store).device meter → IsTrusted meter
            → IsTrue (S.known store).honest → IsTrue (S.known store).sound → IsOkAnd result (λ opened. opened.meter ≡ migrated meter) }

        // An honest store that holds such a meter is refused only if one of these calls fails.
        ensures cut { (meter : Meter) → IsMeterOf (S.known store).capacity (S.known store).device meter → IsTrusted meter
            → IsTrue (S.known store).honest → IfErr result (λ e. Spends (restart_calls meter) (S.known store).fuse (S.known e.1).fuse false) }
        ensures refused { IfErr result (λ e. Refused (S.known store) e.0 (S.known e.1)) }
    {
        let phase = fw_image::open_store(store)?;
        Ok(MeterCore { phase: Some(phase) })
    }

    /// A meter in the state that a store has, whose header stays as it is. While it has version 1, the meter writes headers of
    /// that version, and refuses an image of more blocks than that has marks for, which are 4,096.
    ///
    /// # Errors
    ///
    /// As for `open_store`.
    pub fn open_kept(store: S) -> Result<MeterCore<S>, (OpenError, S)>
        ensures opened { IfOk result (λ meter. Holds (S.known store) meter) }

        // No verification goes on.
        ensures begins { IfOk result (λ meter. reopened meter.meter ≡ meter.meter) }
        ensures sound { IfOk result (λ meter. IsTrue (S.known store).sound → IsTrue meter.sound) }
        ensures faultless { IfOk result (λ meter. meter.faults ≡ (S.known store).faults) }
        ensures spends { IfOk result (λ meter. Spends (opening_calls meter.meter) (S.known store).fuse meter.fuse true) }
        ensures again { (meter : Meter) → IsMeterOf (S.known store).capacity (S.known store).device meter → IsTrusted meter
            → IsTrue (S.known store).honest → IsTrue (S.known store).sound → IsOkAnd result (λ opened. opened.meter ≡ meter) }

        // An honest store that holds such a meter is refused only if one of these calls fails.
        ensures cut { (meter : Meter) → IsMeterOf (S.known store).capacity (S.known store).device meter → IsTrusted meter
            → IsTrue (S.known store).honest → IfErr result (λ e. Spends (opening_calls meter) (S.known store).fuse (S.known e.1).fuse false) }
        ensures refused { IfErr result (λ e. Refused (S.known store) e.0 (S.known e.1)) }
    {
        let phase = fw_image::open_kept(store)?;
        Ok(MeterCore { phase: Some(phase) })
    }

    /// The meter as it is after a restart: its store is opened again, and has a header of version 2 from then on. Of a
    /// verification that goes on the goal is left, which is received, with all its blocks.
    ///
    /// # Errors
    ///
    /// As for `open_store`. An honest store is refused only if it fails. The meter is what `open_kept` gives of it then.
    pub fn restart(self) -> Result<MeterCore<S>, (OpenError, S)>
        ensures same { IsTrue self.honest → IfOk result (λ meter. meter.meter ≡ restarted self.meter) }
        ensures begins { IfOk result (λ meter. reopened meter.meter ≡ meter.meter) }
        ensures follows { IfOk result (λ meter. Follows self meter) }
        ensures again { IsTrue self.honest → IsTrue self.sound → IsOkAnd result (λ meter. meter.meter ≡ restarted self.meter) }
        ensures fault { IsTrue self.honest → IfErr result (λ e. e.0 ≡ not_opened.Fault) }
        ensures faultless { IfOk result (λ meter. meter.faults ≡ self.faults) }

        // Over any store it makes the calls of the meter that is found there, and over an honest one those of this meter.
        ensures spends { IfOk result (λ meter. (was : Meter) × (meter.meter ≡ migrated was)
            × (IsTrue self.honest → restart_calls was ≡ restart_calls self.meter)
            × Spends (restart_calls was) self.fuse meter.fuse true) }

        // An honest store is refused only if one of these calls fails.
        ensures cut { IsTrue self.honest
            → IfErr result (λ e. Spends (restart_calls self.meter) self.fuse (S.known e.1).fuse false) }
        ensures counted { IfErr result (λ e. (S.known e.1).faults ≡ count_after (is_opening_faultless e.0) self.faults) }
        ensures never { IsTrue self.sound → IfErr result (λ e. IsTrue (is_opening_faultless e.0)) }
        ensures back { IfErr result (λ e. Holds (S.known e.1) (stored self)) }
    {
        fw_image::laws::one_meter();
        let MeterCore { phase: held } = self;
        match held {
            Some(phase) => MeterCore::open_store(phase.into_store()),
            None => unreachable!(),
        }
    }

    /// The store, from which `open_kept` gives the meter again. A verification that goes on is not kept: the image is then received, with
    /// all its blocks.
    pub fn into_store(self) -> S
        ensures held { Holds (S.known result) (stored self) }
        ensures sound { (S.known result).sound ≡ self.sound }
        ensures faults { (S.known result).faults ≡ self.faults }
        ensures fuse { (S.known result).fuse ≡ self.fuse }
    {
        let MeterCore { phase: held } = self;
        match held {
            Some(phase) => phase.into_store(),
            None => unreachable!(),
        }
    }

    /// Handles a datagram whole. One that brings no request to wPort 1 changes nothing and has no reply. A request is
    /// served, and its outcome sent back where it asked for a response (IEC 62056-4-7, IEC 62056-5-3). All memory is taken
    /// before the store is called.
    ///
    /// # Errors
    ///
    /// `OutOfMemory`, only if a request asks for a response or an APDU to wPort 1 may hold a Data. The meter and its store
    /// are then as before.
    pub fn handle(&mut self, alloc: Global, datagram: &[u8]) -> Result<Handled, OutOfMemory>
        ensures step { IfOk result (λ h. Handles self.old.honest (Counts self.old self.new) self.old.meter datagram.now
            (reply_bytes h.reply) h.activated self.new.meter) }
        ensures follows { Follows self.old self.new }
        ensures calls { OnOk result (CallsStore self.old datagram.now self.new) }

        // If the calls of an honest store fail after some, this is what they leave.
        ensures cut { IfOk result (λ h. IsTrue self.old.honest → (set : Fuse) → self.old.fuse ≡ Some set
            → StopsAfter set.calls set.torn self.old.meter datagram.now h.activated self.new.meter) }
        ensures err { OnErr result (self.new ≡ self.old) }

        // Any other datagram is handled without memory.
        ensures memory { OnErr result (MayWantMemory datagram.now) }
    {
        fw_names::laws::one_name();
        fw_wrapper::laws::one_frame();
        fw_apdu::laws::one_request();
        match hear(alloc, datagram)? {
            None => Ok(unchanged(None)),
            Some(heard) => self.respond(alloc, &heard),
        }
    }

    /// A turn of the meter, which it takes on its own, whether transfer is enabled or not. While an image is verified, a slice
    /// more of it is read, 4,096 bytes, and after the last one the digest is compared with that of the image's name, and the
    /// result noted by one write of the header. If the store failed, the verification is given up, and the image is
    /// received as before. In every other status nothing is done.
    pub fn turn(&mut self)
        ensures { Turns self.old self.new }
    {
        let Some(phase) = self.phase.take() else {
            unreachable!()
        };
        self.phase = Some(phase.turn());
    }

    /// How many bytes the image has that was verified and is not yet activated, and 0 if there is none.
    pub fn verified_size(&self) -> u32
        ensures size { result ≡ verified_size self.now.meter.phase }

        // It is within the limits of its store.
        ensures fits { IsFit self.now.meter }

        // Over an honest store the images have the digests of their names.
        ensures trusted { IsTrue self.now.honest → IsTrusted self.now.meter }
    {
        match &self.phase {
            Some(phase) => phase.verified_size(),
            None => unreachable!(),
        }
    }

    /// Whether image transfer is enabled, as `view` shows it.
    pub fn enabled(&self) -> bool
        ensures { result ≡ self.now.meter.enabled }
    {
        match &self.phase {
            Some(phase) => phase.enabled(),
            None => unreachable!(),
        }
    }

    /// How far the transfer is, as `view` shows it.
    pub fn status(&self) -> TransferStatus
        ensures { result ≡ status_of self.now.meter.phase }
    {
        match &self.phase {
            Some(phase) => phase.status(),
            None => unreachable!(),
        }
    }

    /// The name of the image that runs, as `view` shows it.
    pub fn active(&self) -> ImageName
        ensures { result ≡ self.now.meter.running.name }
    {
        match &self.phase {
            Some(phase) => phase.active(),
            None => unreachable!(),
        }
    }

    /// What the meter shows of itself.
    pub fn view(&self) -> MeterView
        ensures view { IsView result (shown_of self.now.meter) }

        // It is within the limits of its store.
        ensures fits { IsFit self.now.meter }

        // Over an honest store the images have the digests of their names.
        ensures trusted { IsTrue self.now.honest → IsTrusted self.now.meter }

        // It is over a store of its type: over one in memory it is honest, and sound if no fuse is set.
        ensures over { IsOver S.known self.now }
    {
        match &self.phase {
            Some(phase) => phase.view(),
            None => unreachable!(),
        }
    }

    /// Fills `out`, which has as many bytes as the image that runs, with that image.
    ///
    /// # Errors
    ///
    /// `StoreFault` if the store failed. `out` may then have any bytes.
    pub fn read_running(&mut self, out: &mut [u8]) -> Result<(), StoreFault>
        requires { length out.old ≡ length self.old.meter.running.bytes }
        ensures done { IsTrue self.old.honest → OnOk result (out.new ≡ self.old.meter.running.bytes) }
        ensures same { self.new.meter ≡ self.old.meter }
        ensures follows { Follows self.old self.new }
        ensures cause { HasCause self.old.sound self.old.faults self.new.faults result }
        ensures spends { Spends 1 self.old.fuse self.new.fuse (is_ok result) }
    {
        match &mut self.phase {
            Some(phase) => phase.read_running(out),
            None => unreachable!(),
        }
    }

    /// Serves a request, and replies where it asks for a response.
    fn respond(&mut self, alloc: Global, heard: &Heard) -> Result<Handled, OutOfMemory>
        ensures step { IfOk result (λ h. Responds self.old.honest
            (IsCalled self.old (meaning_of (request_content heard.now.request)) self.new) self.old.meter heard.now.source
            (request_invoke heard.now.request) (request_content heard.now.request) (reply_bytes h.reply) h.activated self.new.meter) }
        ensures follows { Follows self.old self.new }
        ensures err { OnErr result (self.new ≡ self.old) }
        ensures memory { OnErr result (IsTrue (is_confirmed (request_invoke heard.now.request))) }
    {
        fw_server::laws::request_refusals();
        match plan(&heard.request) {
            Planned::Read(reading) => Ok(unchanged(self.tell(alloc, heard, reading)?)),
            Planned::Refused(code) => Ok(unchanged(heard.code(alloc, code)?)),
            Planned::Operate(operation) => self.operate(alloc, heard, operation),
            Planned::Block { number, value } => self.take_block(alloc, heard, number, value),
        }
    }

    /// The reply with the value of an attribute. It is made for a request that asks for a response alone.
    fn tell(
        &self,
        alloc: Global,
        heard: &Heard,
        reading: Reading,
    ) -> Result<Option<Vec<u8>>, OutOfMemory>
        ensures told { IfOk result (λ reply. reply_bytes reply ≡ reply_to heard.now.source (request_invoke heard.now.request)
            (request_content heard.now.request) (got (answer_of self.now.meter reading))) }
        ensures memory { OnErr result (IsTrue (is_confirmed (request_invoke heard.now.request))) }
    {
        if !heard.request.invoke().confirmed() {
            return Ok(None);
        }
        match &self.phase {
            Some(phase) => heard.value(alloc, read(phase, alloc, reading)?),
            None => unreachable!(),
        }
    }

    /// Makes the operation that a request asks for. Room for its reply is taken before.
    fn operate(
        &mut self,
        alloc: Global,
        heard: &Heard,
        operation: Operation<'_>,
    ) -> Result<Handled, OutOfMemory>
        requires { operation_meaning operation ≡ meaning_of (request_content heard.now.request) }
        ensures step { IfOk result (λ h. Responds self.old.honest
            (IsCalled self.old (meaning_of (request_content heard.now.request)) self.new) self.old.meter heard.now.source
            (request_invoke heard.now.request) (request_content heard.now.request) (reply_bytes h.reply) h.activated self.new.meter) }
        ensures follows { Follows self.old self.new }
        ensures err { OnErr result (self.new ≡ self.old) }
        ensures memory { OnErr result (IsTrue (is_confirmed (request_invoke heard.now.request))) }
    {
        let room = heard.room(alloc)?;
        let (code, activated) = self.change(operation);
        Ok(Handled {
            reply: heard.code_in(room, code),
            activated,
        })
    }

    /// Takes the block that a request carries, which leaves the phase where it is. Room for its reply is taken before.
    fn take_block(
        &mut self,
        alloc: Global,
        heard: &Heard,
        number: u32,
        value: &[u8],
    ) -> Result<Handled, OutOfMemory>
        requires { meaning.block number value.now ≡ meaning_of (request_content heard.now.request) }
        ensures step { IfOk result (λ h. Responds self.old.honest
            (IsCalled self.old (meaning_of (request_content heard.now.request)) self.new) self.old.meter heard.now.source
            (request_invoke heard.now.request) (request_content heard.now.request) (reply_bytes h.reply) h.activated self.new.meter) }
        ensures follows { Follows self.old self.new }
        ensures err { OnErr result (self.new ≡ self.old) }
        ensures memory { OnErr result (IsTrue (is_confirmed (request_invoke heard.now.request))) }
    {
        let room = heard.room(alloc)?;
        let code = self.receive(number, value);
        Ok(unchanged(heard.code_in(room, code)))
    }

    /// Receives a block. The phase stays where it is.
    fn receive(&mut self, number: u32, value: &[u8]) -> ResultCode
        ensures { Steps self.old (meaning.block number value.now) (code_number result) self.new }
    {
        match &mut self.phase {
            Some(phase) => block(phase, number, value),
            None => unreachable!(),
        }
    }

    /// Makes an operation that may lead to another phase, and so moves it. Returns its code, and the name of the image that it switched
    /// to, if it did.
    fn change(&mut self, operation: Operation<'_>) -> (ResultCode, Option<ImageName>)
        ensures steps { Steps self.old (operation_meaning operation.entry) (code_number result.0) self.new }
        ensures activated { result.1
            ≡ activation_of (operation_meaning operation.entry) (coded (code_number result.0)) self.new.meter }
    {
        let Some(phase) = self.phase.take() else {
            unreachable!()
        };
        let (code, next) = make(phase, operation);
        let activated = activated(operation, code, &next);
        self.phase = Some(next);
        (code, activated)
    }
}

impl MeterCore<MemoryStore> {
    /// The next `calls` calls of the store succeed, and all later ones fail until `unfuse`, as `MemoryStore::fuse` says.
    pub fn fuse(&mut self, calls: u64, torn: u8)
        ensures { self.new ≡ record self.old { sound = false; fuse = Some (record { calls = calls; torn = torn }) } }
    {
        match &mut self.phase {
            Some(phase) => phase.fuse(calls, torn),
            None => unreachable!(),
        }
    }

    /// From now on no call of the store fails.
    pub fn unfuse(&mut self)
        ensures { self.new ≡ record self.old { sound = true; fuse = None } }
    {
        match &mut self.phase {
            Some(phase) => phase.unfuse(),
            None => unreachable!(),
        }
    }

    /// The same meter once more, over a store of its own.
    ///
    /// # Errors
    ///
    /// `AllocError` if memory was refused.
    pub fn copy(&self, alloc: Global) -> Result<Self, AllocError>
        ensures { IfOk result (λ copy. copy ≡ self.now) }
    {
        match &self.phase {
            Some(phase) => Ok(MeterCore {
                phase: Some(phase.copy(alloc)?),
            }),
            None => unreachable!(),
        }
    }

    /// Whether the two meters are the same: in block size, capacity and the most blocks that an image may have, in what runs with its
    /// bytes, and in the transfer, with how much is digested and the bytes of each block that is there. Other bytes of the slots,
    /// fuses and counts of faults may differ.
    pub fn same(&self, other: &Self) -> bool
        ensures { IsTrue result ↔ (self.now.meter ≡ other.now.meter) }
    {
        match (&self.phase, &other.phase) {
            (Some(phase), Some(other)) => phase.same(other),
            _ => unreachable!(),
        }
    }
}

/// What a meter did that is as it was.
fn unchanged(reply: Option<Vec<u8>>) -> Handled
    ensures { result ≡ record { reply = reply; activated = None } }
{
    Handled {
        reply,
        activated: None,
    }
}
