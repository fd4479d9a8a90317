//! Where an answer leads, by the phase of the row that asked.

ghost use Rattle.std.specs.Prelude.{ℕ, Bool, List, IfOk, OnErr};
ghost use Rattle.fw_names.specs.Name.{Name};
ghost use Rattle.fw_head.specs.Phase.{Leads, TakesMemory};

use crate::stage::{Stage, with_known};
use fw_apdu::cosem::{
    SUCCESS, TEMPORARY_FAILURE, TRANSFER_INITIATED, VERIFICATION_INITIATED, VERIFICATION_SUCCESSFUL,
};
use fw_blocks::{BlockSet, Geometry};
use fw_client::{Asked, Heard};
use fw_names::ImageName;
use std::alloc::{AllocError, Global};

/// Where an answer leads.
#[derive(Drop)]
pub(crate) enum Step {
    /// The row stays in its phase.
    Stay,
    /// The meter took this block.
    Took(u32),
    /// The row moves on.
    Move(Stage),
    /// The row returns to `Start`.
    Return(Geometry),
    /// The row is given up.
    Fail,
}

/// Where an answer leads from a stage of the row of this image.
pub(crate) fn next_step(
    alloc: Global,
    name: ImageName,
    size: u32,
    stage: &Stage,
    heard: Heard,
) -> Result<Step, AllocError>
    ensures leads { IfOk result (λ step. Leads name size stage.now heard step) }
    ensures memory { OnErr result (TakesMemory stage.now heard) }
{
    match stage {
        Stage::Size => Ok(from_size(size, heard)),
        Stage::Enable(geometry) => Ok(from_enable(*geometry, heard)),
        Stage::Start(geometry) => from_start(alloc, *geometry, heard),
        Stage::Blocks(geometry, _) => Ok(from_blocks(*geometry, heard)),
        Stage::Check(geometry) => Ok(from_check(*geometry, heard)),
        Stage::Gaps(geometry) => from_gaps(alloc, *geometry, heard),
        Stage::Verify(geometry) => Ok(from_verify(*geometry, heard)),
        Stage::Poll(geometry) => Ok(from_poll(*geometry, heard)),
        Stage::Info(geometry) => Ok(from_info(name, *geometry, heard)),
        Stage::Activate(geometry) => Ok(Step::Move(Stage::Confirm(*geometry))),
        Stage::Confirm(geometry) => Ok(from_confirm(name, *geometry, heard)),
        Stage::Done(_) | Stage::Failed(_) => Ok(Step::Stay),
    }
}

/// The answer is the block size, by which the image is cut.
fn from_size(size: u32, heard: Heard) -> Step
    ensures { (name : Name) → Leads name size Stage.Size heard result }
{
    match heard {
        Heard::Number(block_size) => match Geometry::new(block_size, size) {
            Some(geometry) => Step::Move(Stage::Enable(geometry)),
            None => Step::Fail,
        },
        _ => Step::Fail,
    }
}

/// The meter takes images from here on.
fn from_enable(geometry: Geometry, heard: Heard) -> Step
    ensures { (name : Name) (size : ℕ) → Leads name size (Stage.Enable geometry) heard result }
{
    match heard {
        Heard::Code { code: SUCCESS, .. } => Step::Move(Stage::Start(geometry)),
        _ => Step::Fail,
    }
}

/// The meter has no block yet, or isn't ready.
fn from_start(alloc: Global, geometry: Geometry, heard: Heard) -> Result<Step, AllocError>
    ensures leads { IfOk result (λ step. (name : Name) (size : ℕ) → Leads name size (Stage.Start geometry) heard step) }
    ensures memory { OnErr result (TakesMemory (Stage.Start geometry) heard) }
{
    Ok(match heard {
        Heard::Code { code: SUCCESS, .. } => {
            let known = BlockSet::empty(alloc, geometry.count())?;
            Step::Move(Stage::Blocks(geometry, known))
        }
        Heard::Code {
            code: TEMPORARY_FAILURE,
            ..
        } => Step::Stay,
        _ => Step::Fail,
    })
}

/// The meter took a block.
fn from_blocks(geometry: Geometry, heard: Heard) -> Step
    ensures { (name : Name) (size : ℕ) (known : List Bool) → Leads name size (Stage.Blocks geometry known) heard result }
{
    match heard {
        Heard::Code {
            asked: Asked::Block { number },
            code: SUCCESS,
        } => Step::Took(number),
        _ => Step::Return(geometry),
    }
}

/// The first block that the meter lacks: a number at or above the count where it has all.
fn from_check(geometry: Geometry, heard: Heard) -> Step
    ensures { (name : Name) (size : ℕ) → Leads name size (Stage.Check geometry) heard result }
{
    match heard {
        Heard::Number(number) if geometry.count() <= number => {
            Step::Move(Stage::Verify(geometry))
        }
        Heard::Number(_) => Step::Move(Stage::Gaps(geometry)),
        _ => Step::Return(geometry),
    }
}

/// The blocks that the meter has.
fn from_gaps(alloc: Global, geometry: Geometry, heard: Heard) -> Result<Step, AllocError>
    ensures leads { IfOk result (λ step. (name : Name) (size : ℕ) → Leads name size (Stage.Gaps geometry) heard step) }
    ensures memory { OnErr result (TakesMemory (Stage.Gaps geometry) heard) }
{
    let Heard::BitSet(bits) = heard else {
        return Ok(Step::Return(geometry));
    };
    match BlockSet::from_bits(alloc, &bits, geometry.count())? {
        Some(known) => Ok(Step::Move(with_known(geometry, known))),
        None => Ok(Step::Return(geometry)),
    }
}

/// The image is verified, or the meter is still at it.
fn from_verify(geometry: Geometry, heard: Heard) -> Step
    ensures { (name : Name) (size : ℕ) → Leads name size (Stage.Verify geometry) heard result }
{
    match heard {
        Heard::Code { code: SUCCESS, .. } => Step::Move(Stage::Info(geometry)),
        Heard::Code {
            code: TEMPORARY_FAILURE,
            ..
        } => Step::Move(Stage::Poll(geometry)),
        _ => Step::Return(geometry),
    }
}

/// How far the meter is.
fn from_poll(geometry: Geometry, heard: Heard) -> Step
    ensures { (name : Name) (size : ℕ) → Leads name size (Stage.Poll geometry) heard result }
{
    match heard {
        Heard::Status(VERIFICATION_SUCCESSFUL) => Step::Move(Stage::Info(geometry)),
        Heard::Status(VERIFICATION_INITIATED) => Step::Stay,
        Heard::Status(TRANSFER_INITIATED) => Step::Move(Stage::Check(geometry)),
        _ => Step::Return(geometry),
    }
}

/// The image that the meter would activate.
fn from_info(name: ImageName, geometry: Geometry, heard: Heard) -> Step
    ensures { (size : ℕ) → Leads name size (Stage.Info geometry) heard result }
{
    match heard {
        Heard::Info(Some(told)) if told == name => Step::Move(Stage::Activate(geometry)),
        _ => Step::Return(geometry),
    }
}

/// The image that runs.
fn from_confirm(name: ImageName, geometry: Geometry, heard: Heard) -> Step
    ensures { (size : ℕ) → Leads name size (Stage.Confirm geometry) heard result }
{
    let Heard::Active(claim) = heard else {
        return Step::Return(geometry);
    };
    if claim.name() == name {
        Step::Move(Stage::Done(claim))
    } else {
        Step::Return(geometry)
    }
}
