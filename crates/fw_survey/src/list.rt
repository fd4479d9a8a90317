//! A survey over a port in memory.

ghost use Rattle.std.specs.Prelude.{◌≡◌, [], OnOk, true};
ghost use Rattle.std.specs.List.{list_all};
ghost use Rattle.fw_port.specs.Lists.{acts_of};
ghost use Rattle.fw_survey.specs.History.{KnowsAll, SendsReads};
ghost use Rattle.fw_survey.specs.Rows.{Row as TheRow, is_over};
ghost use Rattle.fw_survey.specs.Survey.{IsSurvey, KeepsMeters, addresses_of, rows_of};

use crate::error::Stop;
use crate::serving::{Timer, survey_meters};
use crate::survey::Survey;
use fw_port::{Closed, Datagram, Deed, ListPort, NoReport, Rule, TICK};
use std::alloc::Global;
use std::sync::Wait;

/// A clock that is as much later each time as that of a port in memory, a millisecond.
#[derive(Drop)]
struct Ticking {
    time: u64,
}

impl Timer for Ticking {
    fn now(&mut self) -> Result<u64, Closed> {
        self.time = self.time.saturating_add(TICK);
        Ok(self.time)
    }
}

/// The rule of a port that lets through the questions of a survey.
#[derive(Drop)]
struct OfSurvey;

impl Rule<NoReport> for OfSurvey {
    ghost use Rattle.fw_survey.specs.History.{SendsSomeReads};

    ghost allows = { SendsSomeReads };
}

/// Asks the meters of a survey by what comes to a port in memory, and returns what was done, the oldest first, with why the survey ended
/// early, if it did. The port lets through questions alone.
pub fn survey_list<R: Wait>(
    rt: &R,
    alloc: Global,
    coming: Vec<Option<Datagram>>,
    survey: &mut Survey,
) -> (Vec<Deed<NoReport>>, Result<(), Stop>)
    requires survey { IsSurvey survey.old }
    ensures reads { SendsReads (addresses_of (rows_of survey.old)) (acts_of result.0.items) }
    ensures knows { KnowsAll [] (rows_of survey.old) → OnOk result.1 (KnowsAll (acts_of result.0.items) (rows_of survey.new)) }
    ensures meters { KeepsMeters (rows_of survey.old) (rows_of survey.new) }
    ensures over { OnOk result.1 (list_all (λ (row : TheRow). is_over survey.old.timing.tries row) (rows_of survey.new) ≡ true) }
{
    let mut port = ListPort::<R, NoReport, OfSurvey>::new(rt, alloc, coming);
    let mut timer = Ticking { time: 0 };
    let ended = survey_meters(rt, alloc, &mut timer, &mut port, survey);
    (port.into_deeds(), ended)
}
