//! A transfer, in the status that its store holds.
//!
//! It has 2,600 bytes and more, and what LLVM takes for a function grows with the square of the moves of it there. So what moves it
//! through an operation is not inlined, here and in the modules below.

ghost use Rattle.std.specs.Prelude.{
  ◌≡◌,
  ◌≤◌,
  ◌↔◌,
  true,
  false,
  IsTrue,
  IfOk,
  IfErr,
  IsOkAnd,
  OnOk,
  Some,
  None,
  is_ok,
  length,
  take,
};
ghost use Rattle.fw_blocks.specs.Cuts.{max_blocks};
ghost use Rattle.fw_store.specs.Faults.{HasCause, Spends};
ghost use Rattle.fw_image.specs.Calls.{verified_size, opening_calls, restart_calls};
ghost use Rattle.fw_image.specs.Meter.{Meter, status_of, goal_of, count_of, marks_of, reopened, migrated, IsTrusted};
ghost use Rattle.fw_image.specs.Phases.{state_in, IsInPhase, left_in, left_begun};
ghost use Rattle.fw_image.specs.Shown.{shown_of, IsView};
ghost use Rattle.fw_image.specs.Fits.{IsFit};
ghost use Rattle.fw_image.specs.State.{Makes, Turns, Follows, IsOver, stored, told};
ghost use Rattle.fw_image.specs.Step.{enable, initiate};
ghost use Rattle.fw_image.specs.Stored.{IsMeterOf, Holds, Opens, Refused};
ghost use Rattle.fw_image.specs.declared.status.TransferStatus.TheVariants as status;

use crate::error::{OpenError, Refusal};
use crate::held::Held;
use crate::status::TransferStatus;
use crate::transfer::{Idle, Receiving, Spoilt, Switched, Transfer, Verified, Verifying};
use crate::view::MeterView;
use fw_blocks::Pages;
use fw_names::ImageName;
use fw_store::{Goal, ImageStore, MemoryStore, StoreFault};
use std::alloc::{AllocError, Global};

/// A transfer in one of its statuses. What all of them can do can be asked of it as well.
#[derive(Drop)]
pub enum Phase<S: ImageStore> {
    Idle(Idle<S>),
    Receiving(Receiving<S>),
    Verifying(Verifying<S>),
    Verified(Verified<S>),
    Spoilt(Spoilt<S>),
    Switched(Switched<S>),
}

/// Opens a store: reads its header and checks it, and checks that the image that runs has the digest of its name, and so
/// has the goal where it was verified. Then the header is written in version 2, with all else kept, if it is one of
/// version 1. No memory is taken.
///
/// # Errors
///
/// `Fault`, `BadHeader` or `BadImage`, with the store, whose device is as it was.
pub fn open_store<S: ImageStore>(store: S) -> Result<Phase<S>, (OpenError, S)>
    ensures opened { IfOk result (λ phase. Opens (S.known store) (state_in phase)) }
    ensures phase { IfOk result IsInPhase }

    // No verification goes on.
    ensures begins { IfOk result (λ phase. reopened (state_in phase).meter ≡ (state_in phase).meter) }
    ensures sound { IfOk result (λ phase. IsTrue (S.known store).sound → IsTrue (state_in phase).sound) }
    ensures faultless { IfOk result (λ phase. (state_in phase).faults ≡ (S.known store).faults) }
    ensures refused { IfErr result (λ e. Refused (S.known store) e.0 (S.known e.1)) }

    // An honest, sound store that holds a meter, whose images have their names' digests, is opened as that meter, with a header
    // of version 2.
    ensures again { (meter : Meter) → IsMeterOf (S.known store).capacity (S.known store).device meter → IsTrusted meter
        → IsTrue (S.known store).honest → IsTrue (S.known store).sound → IsOkAnd result (λ phase. (state_in phase).meter ≡ migrated meter) }

    // An honest store that holds such a meter is refused only if one of these calls fails.
    ensures cut { (meter : Meter) → IsMeterOf (S.known store).capacity (S.known store).device meter → IsTrusted meter
        → IsTrue (S.known store).honest → IfErr result (λ e. Spends (restart_calls meter) (S.known store).fuse (S.known e.1).fuse false) }
{
    Ok(Phase::of(Held::open_migrated(store)?))
}

/// Opens a store as `open_store` does, and leaves its header as it is. While it has version 1, the transfer writes headers of that
/// version, and admits no image of more blocks than that has marks for, which are 4,096. No memory is taken.
///
/// # Errors
///
/// As for `open_store`.
pub fn open_kept<S: ImageStore>(store: S) -> Result<Phase<S>, (OpenError, S)>
    ensures opened { IfOk result (λ phase. Holds (S.known store) (state_in phase)) }
    ensures phase { IfOk result IsInPhase }

    // No verification goes on.
    ensures begins { IfOk result (λ phase. reopened (state_in phase).meter ≡ (state_in phase).meter) }
    ensures sound { IfOk result (λ phase. IsTrue (S.known store).sound → IsTrue (state_in phase).sound) }
    ensures faultless { IfOk result (λ phase. (state_in phase).faults ≡ (S.known store).faults) }
    ensures spends { IfOk result (λ phase.
        Spends (opening_calls (state_in phase).meter) (S.known store).fuse (state_in phase).fuse true) }
    ensures refused { IfErr result (λ e. Refused (S.known store) e.0 (S.known e.1)) }

    // An honest, sound store that holds a meter, whose images have their names' digests, is opened as that meter.
    ensures again { (meter : Meter) → IsMeterOf (S.known store).capacity (S.known store).device meter → IsTrusted meter
        → IsTrue (S.known store).honest → IsTrue (S.known store).sound → IsOkAnd result (λ phase. (state_in phase).meter ≡ meter) }

    // An honest store that holds such a meter is refused only if one of these calls fails.
    ensures cut { (meter : Meter) → IsMeterOf (S.known store).capacity (S.known store).device meter → IsTrusted meter
        → IsTrue (S.known store).honest → IfErr result (λ e. Spends (opening_calls meter) (S.known store).fuse (S.known e.1).fuse false) }
{
    Ok(Phase::of(Held::open(store)?))
}

impl<S: ImageStore> Phase<S> {
    /// What is held, in its status.
    #[inline(never)]
    pub(crate) fn of(held: Held<S>) -> Phase<S>
        ensures state { state_in result ≡ held }
        ensures phase { IsInPhase result }
    {
        match held.status() {
            TransferStatus::NotInitiated => Phase::Idle(Transfer::new(held)),
            TransferStatus::Initiated => Phase::Receiving(Transfer::new(held)),
            TransferStatus::VerificationInitiated => Phase::Verifying(Transfer::new(held)),
            TransferStatus::VerificationSuccessful => Phase::Verified(Transfer::new(held)),
            TransferStatus::VerificationFailed => Phase::Spoilt(Transfer::new(held)),
            TransferStatus::ActivationSuccessful => Phase::Switched(Transfer::new(held)),
        }
    }

    /// What is held.
    fn held(&self) -> &Held<S>
        ensures { result.now ≡ state_in self.now }
    {
        match self {
            Phase::Idle(transfer) => transfer.held(),
            Phase::Receiving(transfer) => transfer.held(),
            Phase::Verifying(transfer) => transfer.held(),
            Phase::Verified(transfer) => transfer.held(),
            Phase::Spoilt(transfer) => transfer.held(),
            Phase::Switched(transfer) => transfer.held(),
        }
    }

    /// What is held, on its own.
    #[inline(never)]
    fn into_held(self) -> Held<S>
        ensures { result ≡ state_in self }
    {
        match self {
            Phase::Idle(transfer) => transfer.into_held(),
            Phase::Receiving(transfer) => transfer.into_held(),
            Phase::Verifying(transfer) => transfer.into_held(),
            Phase::Verified(transfer) => transfer.into_held(),
            Phase::Spoilt(transfer) => transfer.into_held(),
            Phase::Switched(transfer) => transfer.into_held(),
        }
    }

    /// Enables transfer, or disables it, by one write of the header.
    ///
    /// # Errors
    ///
    /// `Fault` alone.
    #[inline(never)]
    pub fn set_enabled(self, enabled: bool) -> Result<Self, (Refusal, Self)>
        ensures makes { Makes (state_in self) (enable enabled) (told result) (left_in result) }
        ensures phase { IfOk result IsInPhase }
        ensures back { IfErr result (λ e. IsInPhase e.1) }
    {
        let mut held = self.into_held();
        match held.set_enabled(enabled) {
            Ok(()) => Ok(Phase::of(held)),
            Err(refusal) => Err((refusal, Phase::of(held))),
        }
    }

    /// Begins to receive an image, whatever was there before, by one write of the header.
    ///
    /// # Errors
    ///
    /// `Disabled`, `BadInitiate` or `Fault`, with the transfer as it was.
    #[inline(never)]
    pub fn initiate(self, name: ImageName, size: u32) -> Result<Receiving<S>, (Refusal, Self)>
        ensures makes { Makes (state_in self) (initiate name size) (told result) (left_begun result) }
        ensures status { IfOk result (λ next. status_of next.meter.phase ≡ status.Initiated) }
        ensures back { IfErr result (λ e. IsInPhase e.1) }
    {
        let mut held = self.into_held();
        match held.initiate(name, size) {
            Ok(()) => Ok(Transfer::new(held)),
            Err(refusal) => Err((refusal, Phase::of(held))),
        }
    }

    /// A turn of a verification that goes on, as `Verifying::turn` makes it. In every other status nothing is done.
    #[inline(never)]
    pub fn turn(self) -> Phase<S>
        ensures turns { Turns (state_in self) (state_in result) }
        ensures phase { IsInPhase result }
    {
        let mut held = self.into_held();
        held.turn();
        Phase::of(held)
    }

    /// Whether image transfer is enabled, as `view` shows it (IEC 62056-6-2, image_transfer_enabled).
    pub fn enabled(&self) -> bool
        ensures { result ≡ (state_in self.now).meter.enabled }
    {
        self.held().enabled()
    }

    /// How far the transfer is, as `view` shows it (IEC 62056-6-2, image_transfer_status).
    pub fn status(&self) -> TransferStatus
        ensures { result ≡ status_of (state_in self.now).meter.phase }
    {
        self.held().status()
    }

    /// The name of the image that runs, as `view` shows it.
    pub fn active(&self) -> ImageName
        ensures { result ≡ (state_in self.now).meter.running.name }
    {
        self.held().active()
    }

    /// The image that is to be received, or was received and is not yet activated, as `view` shows it.
    pub fn goal(&self) -> Option<Goal>
        ensures { result ≡ goal_of (state_in self.now).meter.phase }
    {
        self.held().goal()
    }

    /// How many bytes a block has, except the last of an image, which may be shorter (IEC 62056-6-2, image_block_size).
    pub fn block_size(&self) -> u32
        ensures { result ≡ (state_in self.now).meter.block_size }
    {
        self.held().block_size()
    }

    /// How many blocks the image has that is to be received, and 0 if there is none.
    pub fn block_count(&self) -> u32
        ensures value { result ≡ count_of (state_in self.now).meter }
        ensures most { result ≤ max_blocks }
    {
        self.held().block_count()
    }

    /// Which of these blocks are there (IEC 62056-6-2, image_transferred_blocks_status).
    pub fn marks(&self) -> &Pages
        ensures { take (count_of (state_in self.now).meter) result.now
            ≡ marks_of (state_in self.now).meter.cells (count_of (state_in self.now).meter) }
    {
        self.held().marks()
    }

    /// How many bytes the image has that was verified and is not yet activated, and 0 if there is none.
    pub fn verified_size(&self) -> u32
        ensures size { result ≡ verified_size (state_in self.now).meter.phase }

        // It is within the limits of its store.
        ensures fits { IsFit (state_in self.now).meter }

        // Over an honest store the images have the digests of their names.
        ensures trusted { IsTrue (state_in self.now).honest → IsTrusted (state_in self.now).meter }
    {
        self.held().verified_size()
    }

    /// What the meter shows.
    pub fn view(&self) -> MeterView
        ensures view { IsView result (shown_of (state_in self.now).meter) }

        // It is within the limits of its store.
        ensures fits { IsFit (state_in self.now).meter }

        // Over an honest store the images have the digests of their names.
        ensures trusted { IsTrue (state_in self.now).honest → IsTrusted (state_in self.now).meter }

        // It is over a store of its type: over one in memory it is honest, and sound if no fuse is set.
        ensures over { IsOver S.known (state_in self.now) }
    {
        self.held().view()
    }

    /// The store, from which `open_kept` gives the transfer again. A verification that goes on is not kept: the image is
    /// then received, with all its blocks.
    pub fn into_store(self) -> S
        ensures held { Holds (S.known result) (stored (state_in self)) }
        ensures sound { (S.known result).sound ≡ (state_in self).sound }
        ensures faults { (S.known result).faults ≡ (state_in self).faults }
        ensures fuse { (S.known result).fuse ≡ (state_in self).fuse }
    {
        self.into_held().into_store()
    }

    /// Fills a slice, which has as many bytes as the image that runs, with that image.
    ///
    /// # Errors
    ///
    /// `StoreFault` if the store failed. The slice may then have any bytes.
    pub fn read_running(&mut self, out: &mut [u8]) -> Result<(), StoreFault>
        requires { length out.old ≡ length (state_in self.old).meter.running.bytes }
        ensures done { IsTrue (state_in self.old).honest → OnOk result (out.new ≡ (state_in self.old).meter.running.bytes) }
        ensures meter { (state_in self.new).meter ≡ (state_in self.old).meter }
        ensures device { (state_in self.new).device ≡ (state_in self.old).device }
        ensures follows { Follows (state_in self.old) (state_in self.new) }
        ensures cause { HasCause (state_in self.old).sound (state_in self.old).faults (state_in self.new).faults result }
        ensures spends { Spends 1 (state_in self.old).fuse (state_in self.new).fuse (is_ok result) }
        ensures phase { IsInPhase self.old → IsInPhase self.new }
    {
        match self {
            Phase::Idle(transfer) => transfer.read_running(out),
            Phase::Receiving(transfer) => transfer.read_running(out),
            Phase::Verifying(transfer) => transfer.read_running(out),
            Phase::Verified(transfer) => transfer.read_running(out),
            Phase::Spoilt(transfer) => transfer.read_running(out),
            Phase::Switched(transfer) => transfer.read_running(out),
        }
    }
}

impl Phase<MemoryStore> {
    /// The next `calls` calls of the store succeed, and all later ones fail until `unfuse`, as `MemoryStore::fuse` says.
    pub fn fuse(&mut self, calls: u64, torn: u8)
        ensures state { state_in self.new ≡ record (state_in self.old) { sound = false; fuse = Some (record { calls = calls; torn = torn }) } }
        ensures phase { IsInPhase self.old → IsInPhase self.new }
    {
        match self {
            Phase::Idle(transfer) => transfer.fuse(calls, torn),
            Phase::Receiving(transfer) => transfer.fuse(calls, torn),
            Phase::Verifying(transfer) => transfer.fuse(calls, torn),
            Phase::Verified(transfer) => transfer.fuse(calls, torn),
            Phase::Spoilt(transfer) => transfer.fuse(calls, torn),
            Phase::Switched(transfer) => transfer.fuse(calls, torn),
        }
    }

    /// From now on no call of the store fails.
    pub fn unfuse(&mut self)
        ensures state { state_in self.new ≡ record (state_in self.old) { sound = true; fuse = None } }
        ensures phase { IsInPhase self.old → IsInPhase self.new }
    {
        match self {
            Phase::Idle(transfer) => transfer.unfuse(),
            Phase::Receiving(transfer) => transfer.unfuse(),
            Phase::Verifying(transfer) => transfer.unfuse(),
            Phase::Verified(transfer) => transfer.unfuse(),
            Phase::Spoilt(transfer) => transfer.unfuse(),
            Phase::Switched(transfer) => transfer.unfuse(),
        }
    }

    /// The same transfer once more, over a store of its own.
    ///
    /// # Errors
    ///
    /// `AllocError` if memory was refused.
    pub fn copy(&self, alloc: Global) -> Result<Self, AllocError>
        ensures state { IfOk result (λ copy. state_in copy ≡ state_in self.now) }
        ensures phase { IfOk result IsInPhase }
    {
        Ok(Phase::of(self.held().copy(alloc)?))
    }

    /// Whether the two meters are the same: in block size, capacity and the most blocks that an image may have, in what runs with its
    /// bytes, and in the transfer, with how much is digested and the bytes of each block that is there. Other bytes of the slots,
    /// fuses and counts of faults may differ.
    pub fn same(&self, other: &Self) -> bool
        ensures { IsTrue result ↔ ((state_in self.now).meter ≡ (state_in other.now).meter) }
    {
        self.held().same(other.held())
    }
}
