//! The Image transfer object of a meter, a type for each status. Each value owns its store.

ghost use Rattle.std.specs.Prelude.{◌≡◌, ◌↔◌, true, false, IsTrue, IfOk, IfErr, OnOk, Some, None, is_ok, length};
ghost use Rattle.fw_store.specs.Faults.{HasCause, Spends};
ghost use Rattle.fw_image.specs.Meter.{status_of, IsTrusted};
ghost use Rattle.fw_image.specs.Phases.{state_in, IsInPhase, told_verified, left_verified, IsVerified, IsNotVerified};
ghost use Rattle.fw_image.specs.Shown.{shown_of, IsView};
ghost use Rattle.fw_image.specs.Fits.{IsFit};
ghost use Rattle.fw_image.specs.State.{Makes, Turns, Follows, IsOver, stored, outcome_of, told, left};
ghost use Rattle.fw_image.specs.Step.{enable, initiate, block, verify, activate};
ghost use Rattle.fw_image.specs.Stored.{Holds};
ghost use Rattle.fw_image.specs.declared.status.TransferStatus.TheVariants as status;

use crate::error::Refusal;
use crate::held::Held;
use crate::phase::Phase;
use crate::status::{
    ActivationSuccessful, Initiated, NotInitiated, Status, VerificationFailed,
    VerificationInitiated, VerificationSuccessful,
};
use crate::view::MeterView;
use fw_names::ImageName;
use fw_store::{ImageStore, MemoryStore, StoreFault};
use std::marker::{Model, PhantomData};

/// Image transfer over a store, in a status.
#[derive(Drop)]
pub struct Transfer<S: ImageStore, P: Status> {
    held: Held<S>,
    status: PhantomData<P>,
}

impl<S: ImageStore, P: Status> Model for Transfer<S, P> {
    ghost use Rattle.std.specs.Prelude.{◌≡◌};
    ghost use Rattle.std.specs.Coded.{codes};
    ghost use Rattle.fw_image.specs.Meter.{cells_code, status_of};
    ghost use Rattle.fw_image.specs.State.{State};

    ghost Value = { State };

    ghost coded = { Prim.hlevel (codes, cells_code) };

    ghost view = { λ t. t.held };

    ghost invariant = { λ t. status_of t.held.meter.phase ≡ P.status };
}

/// Nothing was initiated since the meter was made.
pub type Idle<S> = Transfer<S, NotInitiated>;

/// Blocks are being received.
pub type Receiving<S> = Transfer<S, Initiated>;

/// The image is there and is being verified, a slice at each turn.
pub type Verifying<S> = Transfer<S, VerificationInitiated>;

/// The image is there and has its name's digest.
pub type Verified<S> = Transfer<S, VerificationSuccessful>;

/// The image is there and has another digest.
pub type Spoilt<S> = Transfer<S, VerificationFailed>;

/// The image was activated, and runs.
pub type Switched<S> = Transfer<S, ActivationSuccessful>;

impl<S: ImageStore, P: Status> Transfer<S, P> {
    /// The transfer of what is held in this status.
    pub(crate) fn new(held: Held<S>) -> Transfer<S, P>
        requires { status_of held.meter.phase ≡ P.status }
        ensures { result ≡ held }
    {
        Transfer {
            held,
            status: PhantomData,
        }
    }

    /// What is held.
    pub(crate) fn held(&self) -> &Held<S>
        ensures { result.now ≡ self.now }
    {
        &self.held
    }

    /// What is held, on its own.
    pub(crate) fn into_held(self) -> Held<S>
        ensures { result ≡ self }
    {
        self.held
    }

    /// Enables transfer, or disables it, by one write of the header.
    ///
    /// # Errors
    ///
    /// `Fault` alone.
    pub fn set_enabled(self, enabled: bool) -> Result<Self, (Refusal, Self)>
        ensures makes { Makes self (enable enabled) (told result) (left result) }
        ensures status { IfOk result (λ next. status_of next.meter.phase ≡ P.status) }
        ensures back { IfErr result (λ e. status_of e.1.meter.phase ≡ P.status) }
    {
        let mut held = self.held;
        match held.set_enabled(enabled) {
            Ok(()) => Ok(Transfer::new(held)),
            Err(refusal) => Err((refusal, Transfer::new(held))),
        }
    }

    /// Begins to receive an image, whatever was there before, by one write of the header.
    ///
    /// # Errors
    ///
    /// `Disabled`, `BadInitiate` or `Fault`, with the transfer as it was.
    pub fn initiate(self, name: ImageName, size: u32) -> Result<Receiving<S>, (Refusal, Self)>
        ensures makes { Makes self (initiate name size) (told result) (left result) }
        ensures status { IfOk result (λ next. status_of next.meter.phase ≡ status.Initiated) }
        ensures back { IfErr result (λ e. status_of e.1.meter.phase ≡ P.status) }
    {
        let mut held = self.held;
        match held.initiate(name, size) {
            Ok(()) => Ok(Transfer::new(held)),
            Err(refusal) => Err((refusal, Transfer::new(held))),
        }
    }

    /// What the meter shows.
    pub fn view(&self) -> MeterView
        ensures view { IsView result (shown_of self.now.meter) }
        ensures status { status_of self.now.meter.phase ≡ P.status }

        // It is within the limits of its store.
        ensures fits { IsFit self.now.meter }

        // Over an honest store the images have the digests of their names.
        ensures trusted { IsTrue self.now.honest → IsTrusted self.now.meter }

        // It is over a store of its type: over one in memory it is honest, and sound if no fuse is set.
        ensures over { IsOver S.known self.now }
    {
        self.held.view()
    }

    /// Fills a slice, which has as many bytes as the image that runs, with that image.
    ///
    /// # Errors
    ///
    /// `StoreFault` if the store failed. The slice may then have any bytes.
    pub fn read_running(&mut self, out: &mut [u8]) -> Result<(), StoreFault>
        requires { length out.old ≡ length self.old.meter.running.bytes }
        ensures done { IsTrue self.old.honest → OnOk result (out.new ≡ self.old.meter.running.bytes) }
        ensures meter { self.new.meter ≡ self.old.meter }
        ensures device { self.new.device ≡ self.old.device }
        ensures follows { Follows self.old self.new }
        ensures cause { HasCause self.old.sound self.old.faults self.new.faults result }
        ensures spends { Spends 1 self.old.fuse self.new.fuse (is_ok result) }
    {
        self.held.read_running(out)
    }

    /// The store, from which `open_kept` gives the transfer again. A verification that goes on is not kept: the image is
    /// then received, with all its blocks.
    pub fn into_store(self) -> S
        ensures held { Holds (S.known result) (stored self) }
        ensures sound { (S.known result).sound ≡ self.sound }
        ensures faults { (S.known result).faults ≡ self.faults }
        ensures fuse { (S.known result).fuse ≡ self.fuse }
    {
        self.held.into_store()
    }
}

/// Why an image was not verified, and the transfer as it is then.
#[derive(Drop)]
pub enum NotVerified<S: ImageStore> {
    /// It was not judged: `Disabled`, `Missing` or `Fault`.
    Refused(Refusal, Receiving<S>),
    /// Its digest is not that of its name.
    Differs(Spoilt<S>),
}

impl<S: ImageStore> Receiving<S> {
    /// Stores a block of the image in the spare slot, and marks it by a write of the header, which is left out if it is
    /// marked already.
    ///
    /// # Errors
    ///
    /// `Disabled`, `BadBlock` or `Fault`, with the transfer as it was. After a fault the block may have any bytes.
    pub fn block(self, number: u32, value: &[u8]) -> Result<Self, (Refusal, Self)>
        ensures makes { Makes self (block number value.now) (told result) (left result) }
        ensures status { IfOk result (λ next. status_of next.meter.phase ≡ status.Initiated) }
        ensures back { IfErr result (λ e. status_of e.1.meter.phase ≡ status.Initiated) }
    {
        let mut held = self.held;
        match held.block(number, value) {
            Ok(()) => Ok(Transfer::new(held)),
            Err(refusal) => Err((refusal, Transfer::new(held))),
        }
    }

    /// Stores a block as `block` does, where the transfer stands: it doesn't move then.
    ///
    /// # Errors
    ///
    /// As for `block`.
    pub fn put_block(&mut self, number: u32, value: &[u8]) -> Result<(), Refusal>
        ensures makes { Makes self.old (block number value.now) (outcome_of result) self.new }
        ensures status { status_of self.new.meter.phase ≡ status.Initiated }
    {
        self.held.block(number, value)
    }

    /// Reads the first slice of the image, 4,096 bytes, from the spare slot. If that is the whole image, its digest is
    /// compared with that of its name, and the result noted by one write of the header. A larger image is verified from
    /// then on, a slice at each turn.
    ///
    /// # Errors
    ///
    /// `Disabled`, `Missing` or `Fault`, with the transfer as it was, or `Differs`.
    #[inline(never)]
    pub fn verify(self) -> Result<Phase<S>, NotVerified<S>>
        ensures makes { Makes self verify (told_verified result) (left_verified result) }
        ensures status { IfOk result IsVerified }
        ensures back { IfErr result IsNotVerified }
    {
        let mut held = self.held;
        match held.verify() {
            Ok(()) => Ok(Phase::of(held)),
            Err(refusal) => Err(match refusal {
                Refusal::Differs => NotVerified::Differs(Transfer::new(held)),
                other => NotVerified::Refused(other, Transfer::new(held)),
            }),
        }
    }
}

impl<S: ImageStore> Verifying<S> {
    /// Reads the next slice of the image. After the last one the digest is compared with that of the image's name, and the result
    /// noted by one write of the header: the image is verified then, or spoilt. If the store failed, the verification is given up,
    /// and the image received as it is.
    pub fn turn(self) -> Phase<S>
        ensures turns { Turns self (state_in result) }
        ensures phase { IsInPhase result }
    {
        let mut held = self.held;
        held.turn();
        Phase::of(held)
    }
}

impl<S: ImageStore> Verified<S> {
    /// Makes the verified image the one that runs, by one write of the header.
    ///
    /// # Errors
    ///
    /// `Disabled` or `Fault`, with the transfer as it was.
    #[inline(never)]
    pub fn activate(self) -> Result<Switched<S>, (Refusal, Self)>
        ensures makes { Makes self activate (told result) (left result) }
        ensures status { IfOk result (λ next. status_of next.meter.phase ≡ status.ActivationSuccessful) }
        ensures back { IfErr result (λ e. status_of e.1.meter.phase ≡ status.VerificationSuccessful) }
    {
        let mut held = self.held;
        match held.activate() {
            Ok(()) => Ok(Transfer::new(held)),
            Err(refusal) => Err((refusal, Transfer::new(held))),
        }
    }
}

impl<P: Status> Transfer<MemoryStore, P> {
    /// The next `calls` calls of the store succeed, and all later ones fail until `unfuse`, as `MemoryStore::fuse` says.
    pub fn fuse(&mut self, calls: u64, torn: u8)
        ensures { self.new ≡ record self.old { sound = false; fuse = Some (record { calls = calls; torn = torn }) } }
    {
        self.held.fuse(calls, torn);
    }

    /// From now on no call of the store fails.
    pub fn unfuse(&mut self)
        ensures { self.new ≡ record self.old { sound = true; fuse = None } }
    {
        self.held.unfuse();
    }

    /// Whether the two meters are the same: in block size, capacity and the most blocks that an image may have, in what runs with its
    /// bytes, and in the transfer, with how much is digested and the bytes of each block that is there. Other bytes of the slots,
    /// fuses and counts of faults may differ.
    pub fn same(&self, other: &Self) -> bool
        ensures { IsTrue result ↔ (self.now.meter ≡ other.now.meter) }
    {
        self.held.same(&other.held)
    }
}
