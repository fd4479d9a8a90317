//! The header of a meter beside its store, and what the operations of Image transfer do to the two.

ghost use Rattle.std.specs.Prelude.{
  ◌≡◌,
  ◌≢◌,
  ◌≤◌,
  ◌<◌,
  ◌↔◌,
  IsTrue,
  IfSome,
  IfNone,
  IfOk,
  IfErr,
  OnOk,
  OnErr,
  IsOkAnd,
  Some,
  None,
  is_ok,
  true,
  false,
  ℕ,
  List,
  ◌+◌,
  length,
  take,
};
ghost use Rattle.std.specs.FinMap.{get};
ghost use Rattle.std.specs.Option.{option_copied};
ghost use Rattle.sha2.specs.Sha256.{sha256};
ghost use Rattle.fw_blocks.specs.Cuts.{IsWithinLimits, block_count, max_blocks};
ghost use Rattle.fw_store.specs.Device.{with_head, slot_bytes};
ghost use Rattle.fw_store.specs.Faults.{Keeps, HasCause, Spends};
ghost use Rattle.fw_store.specs.Header.{FieldsFit, IsHeader, migrated as header_migrated};
ghost use Rattle.fw_store.specs.Layout.{header_bytes};
ghost use Rattle.fw_store.specs.Versions.{block_limit};
ghost use Rattle.fw_store.specs.declared.header.Goal.{Goal};
ghost use Rattle.fw_verify.specs.Progress.{IsDigesting};
ghost use Rattle.fw_verify.specs.Slices.{slice_count};
ghost use Rattle.fw_image.specs.Calls.{verified_size, opening_calls, restart_calls};
ghost use Rattle.fw_image.specs.Meter.{Meter, status_of, goal_of, count_of, marks_of, reopened, migrated, IsTrusted};
ghost use Rattle.fw_image.specs.Shown.{shown_of, IsView};
ghost use Rattle.fw_image.specs.Fits.{IsFit};
ghost use Rattle.fw_image.specs.Step.{enable, initiate, block, verify, activate, IsOffer, IsBlock};
ghost use Rattle.fw_image.specs.State.{Makes, Turns, Follows, IsOver, stored, outcome_of};
ghost use Rattle.fw_image.specs.Stored.{meter_of, phase_of, state_of, IsHeld, IsMeterOf, Holds, Opens, Refused};
ghost use Rattle.fw_image.specs.Moves.{
  verify_outcome,
  judged,
  digested_of,
  migrating_writes,
  HaveSameFields,
  IsVerifiedPhase,
  IsPlace,
  with_mark,
  IsWholeGoal,
  LacksBlock,
  IsVerifiedGenuine,
};
ghost use Rattle.fw_image.specs.declared.status.TransferStatus.TheVariants.{
  Initiated,
  VerificationSuccessful,
  VerificationFailed,
  ActivationSuccessful,
};

use crate::error::{OpenError, Refusal};
use crate::status::TransferStatus;
use crate::view::MeterView;
use fw_blocks::{Geometry, Pages, laws};
use fw_names::ImageName;
use fw_store::{
    Goal, Header, HeaderVersion, ImageStore, MemoryStore, Slot, StoreFault, StoredStatus,
    laws as store_laws,
};
use fw_verify::{Digesting, digest};
use std::alloc::{AllocError, Global};
use std::marker::Model;

/// A store, and the header that stands in it.
#[derive(Drop)]
pub(crate) struct Held<S: ImageStore> {
    store: S,
    header: Header,
    /// How far the goal is digested, while it is verified.
    digesting: Option<Digesting>,
}

impl<S: ImageStore> Model for Held<S> {
    ghost use Rattle.std.specs.Coded.{codes};
    ghost use Rattle.fw_image.specs.Meter.{cells_code};
    ghost use Rattle.fw_image.specs.State.{State};

    ghost Value = { State };

    ghost coded = { Prim.hlevel (codes, cells_code) };

    ghost use Rattle.fw_image.specs.Stored.{state_of, IsHolding};

    ghost view = { λ s. state_of (S.known s.store) s.header s.digesting };

    ghost invariant = { λ s. IsHolding (S.known s.store) s.header s.digesting };
}

impl<S: ImageStore> Held<S> {
    /// Enables transfer, or disables it.
    pub(crate) fn set_enabled(&mut self, enabled: bool) -> Result<(), Refusal>
        ensures makes { Makes self.old (enable enabled) (outcome_of result) self.new }
        ensures stays { self.new.meter.phase ≡ self.old.meter.phase }
    {
        let next = Header {
            enabled,
            ..self.header
        };
        replace(&mut self.store, &mut self.header, next)?;
        Ok(())
    }

    /// Begins to receive an image.
    pub(crate) fn initiate(&mut self, name: ImageName, size: u32) -> Result<(), Refusal>
        ensures makes { Makes self.old (initiate name size) (outcome_of result) self.new }
        ensures begins { OnOk result (status_of self.new.meter.phase ≡ Initiated) }
        ensures stays { OnErr result (self.new.meter.phase ≡ self.old.meter.phase) }
    {
        if !self.header.enabled {
            return Err(Refusal::Disabled);
        }
        if !is_offer(&self.header, self.store.capacity(), name, size) {
            return Err(Refusal::BadInitiate);
        }
        let next = Header {
            status: StoredStatus::Initiated,
            goal: Some(Goal { name, size }),
            marks: self.header.version.no_marks(),
            ..self.header
        };
        replace(&mut self.store, &mut self.header, next)?;
        self.digesting = None;
        Ok(())
    }

    /// Stores a block, and marks it. A late block of another campaign that has a place in this image is stored too: only `verify`
    /// finds it out, by the digest.
    pub(crate) fn block(&mut self, number: u32, value: &[u8]) -> Result<(), Refusal>
        requires { status_of self.old.meter.phase ≡ Initiated }
        ensures makes { Makes self.old (block number value.now) (outcome_of result) self.new }
        ensures stays { self.new.meter.phase ≡ self.old.meter.phase }
    {
        laws::other_blocks_stay();
        laws::begins_within();
        store_laws::splice_stands();
        store_laws::torn_size();
        store_laws::calls_add();
        store_laws::calls_end();
        if !self.header.enabled {
            return Err(Refusal::Disabled);
        }
        let Some(start) = place_of(&self.header, number, value) else {
            return Err(Refusal::BadBlock);
        };
        let spare = self.header.running_slot.other();
        self.store.write(spare, start, value)?;
        if self.header.marks.has(number) {
            return Ok(());
        }
        mark_block(&mut self.store, &mut self.header, number)?;
        Ok(())
    }

    /// Judges the image by the digest of what is stored, if one slice holds all of it. Begins to digest a larger one.
    pub(crate) fn verify(&mut self) -> Result<(), Refusal>
        requires { status_of self.old.meter.phase ≡ Initiated }
        ensures makes { Makes self.old verify (verify_outcome result self.new.meter.phase) self.new }
        ensures verified { OnOk result (IsVerifiedPhase self.new.meter.phase) }
        ensures differs { result ≡ Err Refusal.Differs → status_of self.new.meter.phase ≡ VerificationFailed }
        ensures stays { IfErr result (λ r. r ≢ Refusal.Differs → self.new.meter.phase ≡ self.old.meter.phase) }
    {
        laws::cuts_join();
        store_laws::calls_add();
        store_laws::calls_end();
        if !self.header.enabled {
            return Err(Refusal::Disabled);
        }
        let Some(goal) = whole_goal(&self.header) else {
            return Err(Refusal::Missing);
        };
        let mut digesting = Digesting::begin(self.header.running_slot.other(), goal.size);
        if !digesting.step(&mut self.store)? {
            self.digesting = Some(digesting);
            return Ok(());
        }
        if judge(&mut self.store, &mut self.header, goal.name, digesting)? {
            Ok(())
        } else {
            Err(Refusal::Differs)
        }
    }

    /// Digests a slice more of the image that is verified, and judges it by the last one. Where a call of the store fails,
    /// the verification is given up.
    pub(crate) fn turn(&mut self)
        ensures { Turns self.old self.new }
    {
        laws::cuts_join();
        store_laws::calls_add();
        store_laws::calls_end();
        let Some(mut digesting) = self.digesting.take() else {
            return;
        };
        match digesting.step(&mut self.store) {
            Ok(true) => {
                if let Some(goal) = self.header.goal {
                    judge(&mut self.store, &mut self.header, goal.name, digesting).ok();
                }
            }
            Ok(false) => self.digesting = Some(digesting),
            Err(_) => {}
        }
    }

    /// Makes the verified image the one that runs.
    pub(crate) fn activate(&mut self) -> Result<(), Refusal>
        requires { status_of self.old.meter.phase ≡ VerificationSuccessful }
        ensures makes { Makes self.old activate (outcome_of result) self.new }
        ensures switches { OnOk result (status_of self.new.meter.phase ≡ ActivationSuccessful) }
        ensures stays { OnErr result (self.new.meter.phase ≡ self.old.meter.phase) }
    {
        laws::cuts_join();
        if !self.header.enabled {
            return Err(Refusal::Disabled);
        }
        let Some(goal) = self.header.goal else {
            return Err(Refusal::Missing);
        };
        let next = Header {
            running_slot: self.header.running_slot.other(),
            status: StoredStatus::ActivationSuccessful,
            running_size: goal.size,
            running_name: goal.name,
            goal: None,
            marks: self.header.version.no_marks(),
            ..self.header
        };
        replace(&mut self.store, &mut self.header, next)?;
        Ok(())
    }

    /// Opens a store, whose header stays as it is. A store that is refused is returned, and its device is as it was.
    #[inline(never)]
    pub(crate) fn open(mut store: S) -> Result<Held<S>, (OpenError, S)>
        ensures opened { IfOk result (λ next. Holds (S.known store) next) }
        ensures begins { IfOk result (λ next. reopened next.meter ≡ next.meter) }
        ensures sound { IfOk result (λ next. IsTrue (S.known store).sound → IsTrue next.sound) }
        ensures faultless { IfOk result (λ next. next.faults ≡ (S.known store).faults) }
        ensures spends { IfOk result (λ next. Spends (opening_calls next.meter) (S.known store).fuse next.fuse true) }
        ensures refused { IfErr result (λ e. Refused (S.known store) e.0 (S.known e.1)) }
        ensures again { (meter : Meter) → IsMeterOf (S.known store).capacity (S.known store).device meter → IsTrusted meter
            → IsTrue (S.known store).honest → IsTrue (S.known store).sound → IsOkAnd result (λ next. next.meter ≡ meter) }
        ensures cut { (meter : Meter) → IsMeterOf (S.known store).capacity (S.known store).device meter → IsTrusted meter
            → IsTrue (S.known store).honest → IfErr result (λ e. Spends (opening_calls meter) (S.known store).fuse (S.known e.1).fuse false) }
    {
        store_laws::one_header();
        match examine(&mut store) {
            Ok(header) => Ok(Held::of(store, header)),
            Err(error) => Err((error, store)),
        }
    }

    /// Opens a store, and then writes its header in version 2 if it is one of version 1. A store that is refused is returned, and
    /// its device is as it was.
    #[inline(never)]
    pub(crate) fn open_migrated(mut store: S) -> Result<Held<S>, (OpenError, S)>
        ensures opened { IfOk result (λ next. Opens (S.known store) next) }
        ensures begins { IfOk result (λ next. reopened next.meter ≡ next.meter) }
        ensures sound { IfOk result (λ next. IsTrue (S.known store).sound → IsTrue next.sound) }
        ensures faultless { IfOk result (λ next. next.faults ≡ (S.known store).faults) }
        ensures refused { IfErr result (λ e. Refused (S.known store) e.0 (S.known e.1)) }
        ensures again { (meter : Meter) → IsMeterOf (S.known store).capacity (S.known store).device meter → IsTrusted meter
            → IsTrue (S.known store).honest → IsTrue (S.known store).sound → IsOkAnd result (λ next. next.meter ≡ migrated meter) }
        ensures cut { (meter : Meter) → IsMeterOf (S.known store).capacity (S.known store).device meter → IsTrusted meter
            → IsTrue (S.known store).honest → IfErr result (λ e. Spends (restart_calls meter) (S.known store).fuse (S.known e.1).fuse false) }
    {
        store_laws::one_header();
        store_laws::migrated_is_header();
        store_laws::calls_add();
        store_laws::calls_end();
        match examine(&mut store) {
            Ok(mut header) => match migrate(&mut store, &mut header) {
                Ok(()) => Ok(Held::of(store, header)),
                Err(fault) => Err((OpenError::from(fault), store)),
            },
            Err(error) => Err((error, store)),
        }
    }

    /// A store and the header that it holds. Nothing is digested.
    fn of(store: S, header: Header) -> Held<S>
        requires { IsHeld (S.known store) header }
        ensures { result
            ≡ state_of (S.known store) header None }
    {
        Held {
            store,
            header,
            digesting: None,
        }
    }

    /// The status of the transfer.
    pub(crate) fn status(&self) -> TransferStatus
        ensures { result ≡ status_of self.now.meter.phase }
    {
        match self.digesting {
            Some(_) => TransferStatus::VerificationInitiated,
            None => self.header.status.into(),
        }
    }

    /// Whether transfer is enabled.
    pub(crate) fn enabled(&self) -> bool
        ensures { result ≡ self.now.meter.enabled }
    {
        self.header.enabled
    }

    /// The name of the image that runs.
    pub(crate) fn active(&self) -> ImageName
        ensures { result ≡ self.now.meter.running.name }
    {
        self.header.running_name
    }

    /// The image that is received, or was verified.
    pub(crate) fn goal(&self) -> Option<Goal>
        ensures { result ≡ goal_of self.now.meter.phase }
    {
        self.header.goal
    }

    /// How many bytes are digested of an image that is verified, else 0.
    fn digested(&self) -> u32
        ensures { result ≡ digested_of self.now.meter.phase }
    {
        let Some(digesting) = &self.digesting else {
            return 0;
        };
        digesting.taken()
    }

    /// How many bytes a block has.
    pub(crate) fn block_size(&self) -> u32
        ensures { result ≡ self.now.meter.block_size }
    {
        self.header.block_size
    }

    /// How many blocks the goal has, 0 if there is none.
    pub(crate) fn block_count(&self) -> u32
        ensures value { result ≡ count_of self.now.meter }
        ensures most { result ≤ max_blocks }
        ensures past { (number : ℕ) → result ≤ number → get self.now.meter.cells number ≡ None }
    {
        match self.header.goal {
            Some(goal) => goal.size.div_ceil(self.header.block_size),
            None => 0,
        }
    }

    /// The blocks that are there.
    pub(crate) fn marks(&self) -> &Pages
        ensures { take (count_of self.now.meter) result.now ≡ marks_of self.now.meter.cells (count_of self.now.meter) }
    {
        &self.header.marks
    }

    /// How many bytes a verified goal has, else 0.
    pub(crate) fn verified_size(&self) -> u32
        ensures size { result ≡ verified_size self.now.meter.phase }
        ensures fits { IsFit self.now.meter }
        ensures trusted { IsTrue self.now.honest → IsTrusted self.now.meter }
    {
        laws::cut_size();
        match (self.status(), self.header.goal) {
            (TransferStatus::VerificationSuccessful, Some(goal)) => goal.size,
            _ => 0,
        }
    }

    /// What the meter shows.
    pub(crate) fn view(&self) -> MeterView
        ensures view { IsView result (shown_of self.now.meter) }
        ensures fits { IsFit self.now.meter }
        ensures trusted { IsTrue self.now.honest → IsTrusted self.now.meter }
        ensures over { IsOver S.known self.now }
    {
        laws::cut_size();
        let header = &self.header;
        MeterView {
            limit: header.version.block_limit(),
            enabled: header.enabled,
            status: self.status(),
            active: header.running_name,
            active_size: header.running_size,
            goal: header.goal,
            marked: header.marks.to_bytes(),
        }
    }

    /// Reads the image that runs.
    pub(crate) fn read_running(&mut self, out: &mut [u8]) -> Result<(), StoreFault>
        requires { length out.old ≡ length self.old.meter.running.bytes }
        ensures done { IsTrue self.old.honest → OnOk result (out.new ≡ self.old.meter.running.bytes) }
        ensures meter { self.new.meter ≡ self.old.meter }
        ensures device { self.new.device ≡ self.old.device }
        ensures follows { Follows self.old self.new }
        ensures cause { HasCause self.old.sound self.old.faults self.new.faults result }
        ensures spends { Spends 1 self.old.fuse self.new.fuse (is_ok result) }
    {
        self.store.read(self.header.running_slot, 0, out)
    }

    /// The store.
    pub(crate) fn into_store(self) -> S
        ensures held { Holds (S.known result) (stored self) }
        ensures sound { (S.known result).sound ≡ self.sound }
        ensures faults { (S.known result).faults ≡ self.faults }
        ensures fuse { (S.known result).fuse ≡ self.fuse }
    {
        let Held { store, .. } = self;
        store
    }
}

impl Held<MemoryStore> {
    /// Sets the store's fuse.
    pub(crate) fn fuse(&mut self, calls: u64, torn: u8)
        ensures { self.new ≡ record self.old { sound = false; fuse = Some (record { calls = calls; torn = torn }) } }
    {
        self.store.fuse(calls, torn);
    }

    /// Removes the store's fuse.
    pub(crate) fn unfuse(&mut self)
        ensures { self.new ≡ record self.old { sound = true; fuse = None } }
    {
        self.store.unfuse();
    }

    /// The same once more, over a store of its own.
    pub(crate) fn copy(&self, alloc: Global) -> Result<Held<MemoryStore>, AllocError>
        ensures { IfOk result (λ copy. copy ≡ self.now) }
    {
        let store = self.store.copy(alloc)?;
        let digesting = copy_of(&self.digesting)?;
        Ok(Held {
            store,
            header: self.header,
            digesting,
        })
    }

    /// Whether the two meters are the same. Bytes of the stores that belong to no image that runs and to no block may differ.
    pub(crate) fn same(&self, other: &Held<MemoryStore>) -> bool
        ensures { IsTrue result ↔ (self.now.meter ≡ other.now.meter) }
    {
        self.has_same_fields(other)
            && self.has_same_phase(other)
            && self.running() == other.running()
            && self.has_same_cells(other)
    }

    /// Whether both have blocks and slots of the same sizes, headers for as many blocks, and images of one name that run, and are both
    /// enabled or both disabled.
    fn has_same_fields(&self, other: &Held<MemoryStore>) -> bool
        ensures { IsTrue result ↔ HaveSameFields self.now.meter other.now.meter }
    {
        self.header.block_size == other.header.block_size
            && self.store.capacity() == other.store.capacity()
            && self.header.version.block_limit() == other.header.version.block_limit()
            && self.header.enabled == other.header.enabled
            && self.header.running_name == other.header.running_name
    }

    /// Whether both are in one status, with the same goal and as many bytes of it digested.
    fn has_same_phase(&self, other: &Held<MemoryStore>) -> bool
        ensures { IsTrue result ↔ (self.now.meter.phase ≡ other.now.meter.phase) }
    {
        self.status() == other.status()
            && self.goal() == other.goal()
            && self.digested() == other.digested()
    }

    /// Whether both have as many blocks, of which the same ones are there, with the same bytes.
    fn has_same_cells(&self, other: &Held<MemoryStore>) -> bool
        ensures { IsTrue result
            ↔ (count_of self.now.meter ≡ count_of other.now.meter) × (self.now.meter.cells ≡ other.now.meter.cells) }
    {
        let count = self.block_count();
        count == other.block_count() && (0..count).all(|number| self.has_same_cell(other, number))
    }

    /// Whether a block is there in both, with the same bytes, or in neither.
    fn has_same_cell(&self, other: &Held<MemoryStore>, number: u32) -> bool
        ensures { IsTrue result ↔ (get self.now.meter.cells number ≡ get other.now.meter.cells number) }
    {
        self.cell(number) == other.cell(number)
    }

    /// The bytes of a block that is there.
    fn cell(&self, number: u32) -> Option<&[u8]>
        ensures { option_copied result ≡ get self.now.meter.cells number }
    {
        let goal = self.header.goal?;
        if !self.header.marks.has(number) {
            return None;
        }
        let spare = self.store.slot(self.header.running_slot.other());
        let image = &spare[..goal.size as usize];
        Geometry::new(self.header.block_size, goal.size)?.cut(image, number)
    }

    /// The bytes of the image that runs.
    fn running(&self) -> &[u8]
        ensures { result.now ≡ self.now.meter.running.bytes }
    {
        &self.store.slot(self.header.running_slot)[..self.header.running_size as usize]
    }
}

/// A verification that goes on, or none, once more.
fn copy_of(digesting: &Option<Digesting>) -> Result<Option<Digesting>, AllocError>
    ensures { IfOk result (λ copy. copy ≡ digesting.now) }
{
    match digesting {
        Some(digesting) => Ok(Some(digesting.copy()?)),
        None => Ok(None),
    }
}

/// Writes a header to a store, and keeps it where that succeeded.
fn replace<S: ImageStore>(
    store: &mut S,
    header: &mut Header,
    next: Header,
) -> Result<(), StoreFault>
    requires { length next.marks ≡ block_limit next.version }
    ensures done { OnOk result (header.new ≡ next) }
    ensures failed { OnErr result (header.new ≡ header.old) }
    ensures written { IsTrue (S.known store.old).honest
        → OnOk result ((S.known store.new).device ≡ with_head (S.known store.old).device (header_bytes next)) }
    ensures same { IsTrue (S.known store.old).honest → OnErr result ((S.known store.new).device ≡ (S.known store.old).device) }
    ensures fits { FieldsFit next }
    ensures kept { Keeps (S.known store.old) (S.known store.new) }
    ensures cause { HasCause (S.known store.old).sound (S.known store.old).faults (S.known store.new).faults result }
    ensures spends { Spends 1 (S.known store.old).fuse (S.known store.new).fuse (is_ok result) }
{
    store.write_header(&next.to_bytes())?;
    *header = next;
    Ok(())
}

/// Marks a block in the header of a store, and in the one that is held where that succeeded.
fn mark_block<S: ImageStore>(
    store: &mut S,
    header: &mut Header,
    number: u32,
) -> Result<(), StoreFault>
    requires size { length header.old.marks ≡ block_limit header.old.version }
    requires number { number < length header.old.marks }
    ensures done { OnOk result (header.new ≡ with_mark number header.old) }
    ensures failed { OnErr result (header.new ≡ header.old) }
    ensures written { IsTrue (S.known store.old).honest
        → OnOk result ((S.known store.new).device ≡ with_head (S.known store.old).device (header_bytes (with_mark number header.old))) }
    ensures same { IsTrue (S.known store.old).honest → OnErr result ((S.known store.new).device ≡ (S.known store.old).device) }
    ensures fits { FieldsFit (with_mark number header.old) }
    ensures kept { Keeps (S.known store.old) (S.known store.new) }
    ensures cause { HasCause (S.known store.old).sound (S.known store.old).faults (S.known store.new).faults result }
    ensures spends { Spends 1 (S.known store.old).fuse (S.known store.new).fuse (is_ok result) }
{
    let mut next = *header;
    next.marks.mark(number);
    let bytes = next.to_bytes();
    store.write_header(&bytes)?;
    header.marks.mark(number);
    Ok(())
}

/// Whether an image of this name and size can be received. It can't under a release below that of the image that runs, and the header
/// must have a mark for each of its blocks.
fn is_offer(header: &Header, capacity: u32, name: ImageName, size: u32) -> bool
    ensures { IsTrue result
        ↔ IsOffer (block_limit header.now.version) header.now.block_size capacity header.now.running_name.release name size }
{
    let limit = header.version.block_limit();
    let release = header.running_name.release;
    Goal { name, size }.fits(limit, capacity, header.block_size, release)
}

/// Where in the image a block begins, if the goal has that block, and of just this length.
fn place_of(header: &Header, number: u32, value: &[u8]) -> Option<u32>
    requires { IfSome header.now.goal (λ goal. IsWithinLimits header.now.block_size goal.size) }
    ensures found { IfSome result (IsPlace header.now number value.now) }
    ensures none { IfNone result ((goal : Goal) → header.now.goal ≡ Some goal
        → ¬ IsBlock header.now.block_size goal.size number value.now) }
{
    let goal = header.goal?;
    let (start, end) = Geometry::new(header.block_size, goal.size)?.range(number)?;
    if value.len() == (end - start) as usize {
        Some(start)
    } else {
        None
    }
}

/// The goal, if all its blocks are there.
fn whole_goal(header: &Header) -> Option<Goal>
    requires some { 1 ≤ header.now.block_size }
    requires most { IfSome header.now.goal (λ goal. block_count header.now.block_size goal.size ≤ max_blocks) }
    ensures found { IfSome result (IsWholeGoal header.now) }
    ensures none { IfNone result ((goal : Goal) → header.now.goal ≡ Some goal → LacksBlock header.now goal) }
{
    let goal = header.goal?;
    if header.marks.first_missing() < goal.size.div_ceil(header.block_size) {
        return None;
    }
    Some(goal)
}

/// Whether the first bytes of a slot have the digest of a name.
fn is_genuine<S: ImageStore>(
    store: &mut S,
    slot: Slot,
    size: u32,
    name: ImageName,
) -> Result<bool, StoreFault>
    requires { size ≤ (S.known store.old).capacity }
    ensures digest { IsTrue (S.known store.old).honest
        → IfOk result (λ same. IsTrue same ↔ (sha256 (take size (slot_bytes (S.known store.old).device slot)) ≡ name.digest)) }
    ensures same { IsTrue (S.known store.old).honest → (S.known store.new).device ≡ (S.known store.old).device }
    ensures kept { Keeps (S.known store.old) (S.known store.new) }
    ensures cause { HasCause (S.known store.old).sound (S.known store.old).faults (S.known store.new).faults result }
    ensures spends { Spends (slice_count size) (S.known store.old).fuse (S.known store.new).fuse (is_ok result) }
{
    let found = digest(store, slot, size)?;
    Ok(found == name.digest)
}

/// Judges the goal by the digest of its bytes, and notes the result in the header.
fn judge<S: ImageStore>(
    store: &mut S,
    header: &mut Header,
    name: ImageName,
    digesting: Digesting,
) -> Result<bool, StoreFault>
    requires taken { digesting.taken ≡ digesting.size }
    requires marks { length header.old.marks ≡ block_limit header.old.version }
    ensures digest { (contents : List ℕ) → IsDigesting digesting contents
        → IfOk result (λ same. IsTrue same ↔ (sha256 (take digesting.size contents) ≡ name.digest)) }
    ensures done { IfOk result (λ same. header.new ≡ record header.old { status = judged same }) }
    ensures failed { OnErr result (header.new ≡ header.old) }
    ensures written { IsTrue (S.known store.old).honest
        → OnOk result ((S.known store.new).device ≡ with_head (S.known store.old).device (header_bytes header.new)) }
    ensures same { IsTrue (S.known store.old).honest → OnErr result ((S.known store.new).device ≡ (S.known store.old).device) }
    ensures fits { OnOk result (FieldsFit header.new) }
    ensures kept { Keeps (S.known store.old) (S.known store.new) }
    ensures cause { HasCause (S.known store.old).sound (S.known store.old).faults (S.known store.new).faults result }
    ensures spends { Spends 1 (S.known store.old).fuse (S.known store.new).fuse (is_ok result) }
{
    let genuine = digesting.finish() == name.digest;
    let next = Header {
        status: judged(genuine),
        ..*header
    };
    replace(store, header, next)?;
    Ok(genuine)
}

/// The status after the image was judged.
fn judged(genuine: bool) -> StoredStatus
    ensures { result ≡ judged genuine }
{
    if genuine {
        StoredStatus::VerificationSuccessful
    } else {
        StoredStatus::VerificationFailed
    }
}

/// Writes a header that is held in version 2, if it is one of version 1, and keeps it where that succeeded.
fn migrate<S: ImageStore>(store: &mut S, header: &mut Header) -> Result<(), StoreFault>
    requires { IsHeld (S.known store.old) header.old }
    ensures done { OnOk result (header.new ≡ header_migrated header.old) }
    ensures written { IsTrue (S.known store.old).honest
        → OnOk result ((S.known store.new).device ≡ with_head (S.known store.old).device (header_bytes (header_migrated header.old))) }
    ensures same { IsTrue (S.known store.old).honest → OnErr result ((S.known store.new).device ≡ (S.known store.old).device) }
    ensures kept { Keeps (S.known store.old) (S.known store.new) }
    ensures cause { HasCause (S.known store.old).sound (S.known store.old).faults (S.known store.new).faults result }
    ensures spends { Spends (migrating_writes header.old) (S.known store.old).fuse (S.known store.new).fuse (is_ok result) }
{
    match header.version {
        HeaderVersion::One => {
            let next = header.migrated();
            replace(store, header, next)
        }
        HeaderVersion::Two => Ok(()),
    }
}

/// Reads the header of a store, and checks it and the images.
fn examine<S: ImageStore>(store: &mut S) -> Result<Header, OpenError>
    ensures held { IfOk result (IsHeld (S.known store.new)) }
    ensures same { IsTrue (S.known store.old).honest → (S.known store.new).device ≡ (S.known store.old).device }
    ensures kept { Keeps (S.known store.old) (S.known store.new) }
    ensures faultless { OnOk result ((S.known store.new).faults ≡ (S.known store.old).faults) }
    ensures spends { IfOk result (λ header.
        Spends (1 + slice_count header.running_size + slice_count (verified_size (phase_of header.status header.goal)))
        (S.known store.old).fuse (S.known store.new).fuse true) }
    ensures refused { IfErr result (λ e. Refused (S.known store.old) e (S.known store.new)) }
    ensures cut { OnErr result ((meter : Meter) → IsMeterOf (S.known store.old).capacity (S.known store.old).device meter → IsTrusted meter
        → IsTrue (S.known store.old).honest → Spends (opening_calls meter) (S.known store.old).fuse (S.known store.new).fuse false) }
{
    store_laws::one_header();
    store_laws::calls_add();
    store_laws::calls_end();
    let bytes = store.header()?;
    let Some(header) = Header::from_bytes(store.capacity(), &bytes) else {
        return Err(OpenError::BadHeader);
    };
    let slot = header.running_slot;
    if !is_genuine(store, slot, header.running_size, header.running_name)? {
        return Err(OpenError::BadImage);
    }
    if !is_goal_genuine(store, &header)? {
        return Err(OpenError::BadImage);
    }
    Ok(header)
}

/// Whether the goal, where it was verified, has the digest of its name.
fn is_goal_genuine<S: ImageStore>(store: &mut S, header: &Header) -> Result<bool, StoreFault>
    requires { IsHeader (S.known store.old).capacity header.now }
    ensures genuine { IsTrue (S.known store.old).honest → IfOk result (λ genuine. IsTrue genuine
        ↔ IsVerifiedGenuine (meter_of (S.known store.old).capacity header.now (S.known store.old).device)) }
    ensures same { IsTrue (S.known store.old).honest → (S.known store.new).device ≡ (S.known store.old).device }
    ensures kept { Keeps (S.known store.old) (S.known store.new) }
    ensures cause { HasCause (S.known store.old).sound (S.known store.old).faults (S.known store.new).faults result }
    ensures spends { Spends (slice_count (verified_size (phase_of header.now.status header.now.goal)))
        (S.known store.old).fuse (S.known store.new).fuse (is_ok result) }
{
    laws::cuts_join();
    let StoredStatus::VerificationSuccessful = header.status else {
        return Ok(true);
    };
    let Some(goal) = header.goal else {
        return Ok(true);
    };
    is_genuine(store, header.running_slot.other(), goal.size, goal.name)
}
