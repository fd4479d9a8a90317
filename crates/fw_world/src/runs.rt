//! A run of a world over a list of events.

ghost use Rattle.std.specs.Prelude.{◌≡◌, IfErr, IfOk, map, take};
ghost use Rattle.fw_world.specs.Headline.{
  IsFactoryName,
  IsFirstName,
  InitiatesAreOffered,
  NamesAreOwn,
  GoalsAreOffered,
  ActivationsAreSafe,
  ActivationsAreEqual,
  ReleasesNeverFall,
};
ghost use Rattle.fw_world.specs.Laws.{IsSafeWorld};
ghost use Rattle.fw_world.specs.Runs.{EndsIn, IsStopped, IsUnmade, events_of};
ghost use Rattle.fw_world.specs.Setup.{IsSetup, opening_state};
ghost use Rattle.fw_world.specs.State.{StateRun, world_of};
ghost use Rattle.fw_world.specs.Step.{IsOpening, Run};

use crate::error::{SetupError, StepError};
use crate::event::Event;
use crate::laws;
use crate::setup::Setup;
use crate::world::World;
use std::alloc::Global;
use std::fmt;
use thiserror::Error;

/// Why a run did not reach the end of its events.
#[derive(Drop, Error)]
pub enum RunError {
    /// No world was made.
    #[error("{0}")]
    Setup(SetupError),
    /// The event at this place, counted from 0, was refused for this cause. The world is that of the events before it.
    #[error("{cause}")]
    Event {
        at: usize,
        world: World,
        cause: StepError,
    },
}

impl fmt::Debug for RunError {
    fn fmt<W: fmt::Write>(&self, f: &mut fmt::Formatter<W>) -> fmt::Result {
        match self {
            RunError::Setup(error) => f.debug_tuple("Setup").field(error).finish(),
            RunError::Event { at, cause, .. } => f
                .debug_struct("Event")
                .field("at", at)
                .field("cause", cause)
                .finish_non_exhaustive(),
        }
    }
}

/// Makes a world, and all events in it, in their order, up to the first one that is refused.
///
/// The clauses `initiates`, `names`, `goals`, `activations`, `equal` and `releases` are what the product is for. They hold of the
/// world at the end, and of that before the first event that is refused: whatever a meter switched to is the image that the
/// campaign in its name offers, its release is not below that of any image which the meter switched to before, and a meter that is
/// done switched to the image of that campaign.
///
/// # Errors
///
/// `Setup` if no world was made, and `Event` if an event was refused.
pub fn run(alloc: Global, setup: &Setup, events: &[Event]) -> Result<World, RunError>
    ensures runs { IfOk result (λ w. StateRun (opening_state setup.now) (events_of events.now) w) }
    ensures world { IfOk result (λ w. Run (world_of (opening_state setup.now)) (events_of events.now) (world_of w)) }
    ensures made { EndsIn result (λ w. IsSetup setup.now) }
    ensures opening { EndsIn result (λ w. IsOpening (world_of (opening_state setup.now))) }
    ensures stopped { IfErr result (IsStopped setup.now events.now) }
    ensures initiates { EndsIn result (λ w. InitiatesAreOffered (world_of w)) }
    ensures names { EndsIn result (λ w. NamesAreOwn (IsFirstName (world_of (opening_state setup.now))) (world_of w)) }
    ensures goals { EndsIn result (λ w. GoalsAreOffered (world_of w)) }
    ensures activations { EndsIn result (λ w. ActivationsAreSafe (world_of w)) }
    ensures equal { EndsIn result (λ w. ActivationsAreEqual (world_of w)) }
    ensures releases { EndsIn result (λ w. ReleasesNeverFall (world_of w)) }

    // So a step of that world keeps it, by the clause `safe` of `World::step`.
    ensures safe { EndsIn result (λ w. IsSafeWorld IsFactoryName (world_of w)) }
{
    laws::every_run_is_safe();
    let mut world = match World::new(alloc, setup) {
        Ok(world) => world,
        Err(error) => return Err(RunError::Setup(error)),
    };
    for at in 0..events.len() {
        if let Err(cause) = world.step(alloc, &events[at]) {
            return Err(RunError::Event { at, world, cause });
        }
    }
    Ok(world)
}
