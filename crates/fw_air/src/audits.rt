//! Whether the parts that others ended with are those of a run.

ghost use Rattle.std.specs.Prelude.{◌≡◌, IfOk, OnOk, IsErrOf};
ghost use Rattle.fw_air.specs.Audits.{AreSameHeads, Differs};
ghost use Rattle.fw_air.specs.Private.{audit_error_of};
ghost use Rattle.fw_world.specs.Headline.{
  IsFirstName,
  InitiatesAreOffered,
  NamesAreOwn,
  GoalsAreOffered,
  ActivationsAreSafe,
  ActivationsAreEqual,
  ReleasesNeverFall,
};
ghost use Rattle.fw_world.specs.Runs.{events_of};
ghost use Rattle.fw_world.specs.Setup.{IsSetup, opening_state};
ghost use Rattle.fw_world.specs.State.{StateRun, world_of};
ghost use Rattle.fw_world.specs.Step.{Run};

use crate::sameness::are_same_parts;
use fw_head::HeadCore;
use fw_world::{
    Datagram, Event, NumberedMeter, RunError, Setup, SetupError, StepError, World, run,
};
use std::alloc::Global;
use std::fmt;
use thiserror::Error;

/// Why a record was not confirmed.
#[derive(Clone, Copy, Debug, Error)]
pub enum AuditError {
    /// No world can be made with this setup.
    BadSetup,
    /// A part is not as the events leave it, or an event is refused for another cause than memory.
    Mismatch,
    /// Memory was refused.
    OutOfMemory,
}

impl fmt::Display for AuditError {
    fn fmt<W: fmt::Write>(&self, f: &mut fmt::Formatter<W>) -> fmt::Result {
        fmt::Debug::fmt(self, f)
    }
}

/// Runs the events, and compares what they lead to with these parts of a world, in the order of its setup: the books of the head
/// ends and the phases of their live rows, the meters (`MeterCore::same`), and all datagrams that were sent. Returns the world of
/// the run. The comparison takes no memory. Its cost grows with the square of the number of live rows of a head end.
///
/// # Errors
///
/// `BadSetup` if no world can be made with the setup. `Mismatch` if the run is refused an event for another cause than memory,
/// or leads to other parts. Otherwise `OutOfMemory` alone, which is returned where the run was out of memory.
pub fn audit(
    alloc: Global,
    setup: &Setup,
    events: &[Event],
    heads: &[HeadCore],
    meters: &[NumberedMeter],
    sent: &[Datagram],
) -> Result<World, AuditError>
    ensures runs { IfOk result (λ w. StateRun (opening_state setup.now) (events_of events.now) w) }
    ensures world { IfOk result (λ w. Run (world_of (opening_state setup.now)) (events_of events.now) (world_of w)) }
    ensures made { OnOk result (IsSetup setup.now) }
    ensures heads { IfOk result (λ w. AreSameHeads w.heads heads.now) }
    ensures meters { IfOk result (λ w. w.meters ≡ meters.now) }
    ensures sent { IfOk result (λ w. w.sent ≡ sent.now) }
    ensures initiates { IfOk result (λ w. InitiatesAreOffered (world_of w)) }
    ensures names { IfOk result (λ w. NamesAreOwn (IsFirstName (world_of (opening_state setup.now))) (world_of w)) }
    ensures goals { IfOk result (λ w. GoalsAreOffered (world_of w)) }
    ensures activations { IfOk result (λ w. ActivationsAreSafe (world_of w)) }
    ensures equal { IfOk result (λ w. ActivationsAreEqual (world_of w)) }
    ensures releases { IfOk result (λ w. ReleasesNeverFall (world_of w)) }
    ensures bad_setup { IsErrOf result AuditError.BadSetup → ¬ IsSetup setup.now }
    ensures memory { IsErrOf result AuditError.OutOfMemory → IsSetup setup.now }
    ensures mismatch { IsErrOf result AuditError.Mismatch
        → IsSetup setup.now × Differs setup.now (events_of events.now) heads.now meters.now sent.now }
{
    let world = match run(alloc, setup, events) {
        Ok(world) => world,
        Err(error) => return Err(refusal(error)),
    };
    let parts = world.into_parts();
    if !are_same_parts(&parts, heads, meters, sent) {
        return Err(AuditError::Mismatch);
    }
    Ok(World::from_parts(parts))
}

/// What an audit returns where the run was stopped.
fn refusal(error: RunError) -> AuditError
    ensures { result ≡ audit_error_of error }
{
    match error {
        RunError::Setup(SetupError::BadSetup) => AuditError::BadSetup,
        RunError::Setup(SetupError::OutOfMemory)
        | RunError::Event {
            cause: StepError::OutOfMemory,
            ..
        } => AuditError::OutOfMemory,
        RunError::Event { .. } => AuditError::Mismatch,
    }
}
