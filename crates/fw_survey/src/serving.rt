//! The loop of a survey over a port. A port asks at each send whether it may be, so a survey that never ends is held to it too.

ghost use Rattle.std.specs.Prelude.{◌≡◌, IsTrue, OnOk, true};
ghost use Rattle.std.specs.List.{list_all};
ghost use Rattle.fw_survey.specs.Rows.{Row as TheRow, is_over};
ghost use Rattle.fw_survey.specs.Survey.{IsSurvey, MaySurveyOver, SurveysOver, rows_of};

use crate::asking::datagram;
use crate::error::Stop;
use crate::survey::Survey;
use fw_port::{Closed, NoReport, Patience, Port};
use fw_wrapper::MAX_RECEIVED;
use std::alloc::Global;
use std::sync::Wait;

/// The most datagrams that are received between two looks at what is due.
const MAX_RECEIVES: usize = 1_024;

/// A clock, of which nothing is known.
pub trait Timer {
    /// The time, in microseconds since some moment.
    ///
    /// # Errors
    ///
    /// `Closed` if the system has no time.
    fn now(&mut self) -> Result<u64, Closed>;
}

/// Asks the meters of a survey, one question of each at a time, until each answered all, or didn't answer one in time as often as it is asked.
///
/// # Errors
///
/// `Closed` if the port is closed or the time can't be read, and otherwise `OutOfMemory` alone. What is known of the meters is unspecified
/// then.
pub fn survey_meters<R: Wait, T: Timer, P: Port<NoReport>>(
    rt: &R,
    alloc: Global,
    timer: &mut T,
    port: &mut P,
    survey: &mut Survey,
) -> Result<(), Stop>
    requires begins { MaySurveyOver P.Port port.old (rows_of survey.old) }
    requires survey { IsSurvey survey.old }
    ensures surveys { SurveysOver P.Port port.old (rows_of survey.old) result port.new (rows_of survey.new) }
    ensures over { OnOk result (list_all (λ (row : TheRow). is_over survey.old.timing.tries row) (rows_of survey.new) ≡ true) }
    ensures survey { IsSurvey survey.new }
{
    let mut buffer = [0u8; MAX_RECEIVED];
    for _ in rt.forever() {
        if survey.is_over() {
            return Ok(());
        }
        let now = timer.now()?;
        send_due(alloc, port, survey, now)?;
        receive_all(timer, port, survey, &mut buffer)?;
    }
    unreachable!()
}

/// Sends what is due at this time.
fn send_due<P: Port<NoReport>>(
    alloc: Global,
    port: &mut P,
    survey: &mut Survey,
    now: u64,
) -> Result<(), Stop>
    requires begins { MaySurveyOver P.Port port.old (rows_of survey.old) }
    requires survey { IsSurvey survey.old }
    ensures surveys { SurveysOver P.Port port.old (rows_of survey.old) result port.new (rows_of survey.new) }
    ensures timing { survey.new.timing ≡ survey.old.timing }
    ensures survey { IsSurvey survey.new }
{
    for place in 0..survey.count() {
        survey.settle(place, now);
        ask(alloc, port, survey, place, now)?;
    }
    Ok(())
}

/// Asks the meter at a place what is due at this time, if anything is.
fn ask<P: Port<NoReport>>(
    alloc: Global,
    port: &mut P,
    survey: &mut Survey,
    place: usize,
    now: u64,
) -> Result<(), Stop>
    requires begins { MaySurveyOver P.Port port.old (rows_of survey.old) }
    requires survey { IsSurvey survey.old }
    ensures surveys { SurveysOver P.Port port.old (rows_of survey.old) result port.new (rows_of survey.new) }
    ensures timing { survey.new.timing ≡ survey.old.timing }
    ensures survey { IsSurvey survey.new }
{
    let Some(due) = survey.ask(place, now) else {
        return Ok(());
    };
    let question = datagram(alloc, due.question)?;
    port.send(due.to, &question);
    Ok(())
}

/// Receives datagrams and hears them, until none comes: the first is waited for.
fn receive_all<T: Timer, P: Port<NoReport>>(
    timer: &mut T,
    port: &mut P,
    survey: &mut Survey,
    buffer: &mut [u8],
) -> Result<(), Stop>
    requires survey { IsSurvey survey.old }
    ensures surveys { SurveysOver P.Port port.old (rows_of survey.old) result port.new (rows_of survey.new) }
    ensures timing { survey.new.timing ≡ survey.old.timing }
    ensures survey { IsSurvey survey.new }
{
    let mut patience = Patience::Waits;
    for _ in 0..MAX_RECEIVES {
        if !receive(timer, port, survey, patience, buffer)? {
            return Ok(());
        }
        patience = Patience::Polls;
    }
    Ok(())
}

/// Receives a datagram, if one comes in time, and hears it. It returns whether one came.
fn receive<T: Timer, P: Port<NoReport>>(
    timer: &mut T,
    port: &mut P,
    survey: &mut Survey,
    patience: Patience,
    buffer: &mut [u8],
) -> Result<bool, Stop>
    requires survey { IsSurvey survey.old }
    ensures surveys { SurveysOver P.Port port.old (rows_of survey.old) result port.new (rows_of survey.new) }
    ensures timing { survey.new.timing ≡ survey.old.timing }
    ensures survey { IsSurvey survey.new }
{
    let Some(arrival) = port.receive(patience, buffer)? else {
        return Ok(false);
    };
    let now = timer.now()?;
    survey.hear(now, arrival.from, &buffer[..arrival.count])?;
    Ok(true)
}
