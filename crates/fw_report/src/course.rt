//! What the network did with the datagrams of a run.

ghost use Rattle.std.specs.Prelude.{◌≡◌, ◌<◌, ◌++◌, IfOk, OnOk, length, slice_set, string_bytes};
ghost use Rattle.fw_world.specs.Runs.{events_of};
ghost use Rattle.fw_world.specs.View.{event_of};
ghost use Rattle.fw_report.specs.Course.{AreCourses, course_words, times_words, late_words, stops_words};
ghost use Rattle.fw_report.specs.Private.{coming_in, highest_with, with_coming, with_event, with_one_more};

use fw_world::Event;
use std::alloc::{AllocError, Global};

/// What the network did with a datagram.
#[derive(Clone, Copy)]
pub(crate) struct Course {
    /// How often it came to its addressee: 0 if it was lost.
    pub(crate) times: usize,
    /// Whether one that was sent after it came before it.
    pub(crate) late: bool,
    /// In how many of its comings its meter stopped.
    pub(crate) stops: usize,
}

/// That a datagram comes to its addressee.
#[derive(Clone, Copy)]
pub(crate) struct Coming {
    pub(crate) number: usize,
    /// Whether its meter stops in it.
    pub(crate) stopped: bool,
}

/// What the network did with each of the first `count` datagrams, by these events.
pub(crate) fn courses_of(
    alloc: Global,
    events: &[Event],
    count: usize,
) -> Result<Vec<Course>, AllocError>
    ensures { IfOk result (λ courses. AreCourses (events_of events.now) count courses.items) }
{
    let none = Course {
        times: 0,
        late: false,
        stops: 0,
    };
    let mut courses = vec![in alloc; none; count]?;
    let mut highest = 0;
    for at in 0..events.len() {
        highest = note_event(&mut courses, &events[at], highest);
    }
    Ok(courses)
}

/// Notes what an event brings, where the highest number of what came before is this, and gives the highest after it.
fn note_event(courses: &mut Vec<Course>, event: &Event, highest: usize) -> usize
    ensures noted { courses.new.items ≡ with_event courses.old.items highest (coming_in (event_of event.now)) }
    ensures highest { result ≡ highest_with highest (coming_in (event_of event.now)) }
{
    match coming_in(event) {
        Some(coming) => {
            note_coming(courses, coming, highest);
            highest.max(coming.number)
        }
        None => highest,
    }
}

/// Which datagram an event brings to its addressee, if it brings one.
fn coming_in(event: &Event) -> Option<Coming>
    ensures { result ≡ coming_in (event_of event.now) }
{
    match event {
        Event::Deliver(number) => Some(Coming {
            number: *number,
            stopped: false,
        }),
        Event::Stop { datagram, .. } => Some(Coming {
            number: *datagram,
            stopped: true,
        }),
        Event::OpenCampaign { .. }
        | Event::CancelCampaign(_)
        | Event::Tick(..)
        | Event::RestartMeter(_)
        | Event::StopRestart { .. }
        | Event::RestartHead(_)
        | Event::Turn(_) => None,
    }
}

/// Notes that a datagram came, if it is one of those, where the highest number of those that came before is this.
fn note_coming(courses: &mut Vec<Course>, coming: Coming, highest: usize)
    ensures { courses.new.items ≡ with_coming courses.old.items coming highest }
{
    let Coming { number, stopped } = coming;
    if number < courses.len() {
        let course = with_one_more(courses[number], stopped, number < highest);
        put_course(courses, number, course);
    }
}

/// Writes the course of a datagram that is there.
fn put_course(courses: &mut Vec<Course>, number: usize, course: Course)
    requires { number < length courses.old.items }
    ensures { courses.new.items ≡ slice_set courses.old.items number course }
{
    courses[number] = course;
}

/// The course of a datagram that came once more, and at first after one that was sent after it, if it is overtaken.
fn with_one_more(course: Course, stopped: bool, overtaken: bool) -> Course
    ensures { result ≡ with_one_more course stopped overtaken }
{
    let stops = if stopped { 1 } else { 0 };
    let late = if course.times == 0 {
        overtaken
    } else {
        course.late
    };
    Course {
        times: course.times.saturating_add(1),
        late,
        stops: course.stops.saturating_add(stops),
    }
}

/// Appends what the network did with a datagram, and nothing if it came once.
pub(crate) fn append_course(text: &mut String, course: Course) -> Result<(), AllocError>
    ensures { OnOk result (string_bytes text.new ≡ string_bytes text.old ++ course_words course) }
{
    append_times(text, course.times)?;
    append_late(text, course.late)?;
    append_stops(text, course.stops)
}

/// Appends how often a datagram came, except once.
fn append_times(text: &mut String, times: usize) -> Result<(), AllocError>
    ensures { OnOk result (string_bytes text.new ≡ string_bytes text.old ++ times_words times) }
{
    match times {
        0 => text.push_str("  lost"),
        1 => Ok(()),
        2 => text.push_str("  twice"),
        _ => write!(text, "  {times} times"),
    }
}

/// Appends that a datagram came late, if it did.
fn append_late(text: &mut String, late: bool) -> Result<(), AllocError>
    ensures { OnOk result (string_bytes text.new ≡ string_bytes text.old ++ late_words late) }
{
    if late {
        text.push_str("  late")
    } else {
        Ok(())
    }
}

/// Appends that a meter stopped, if it did.
fn append_stops(text: &mut String, stops: usize) -> Result<(), AllocError>
    ensures { OnOk result (string_bytes text.new ≡ string_bytes text.old ++ stops_words stops) }
{
    if stops == 0 {
        return Ok(());
    }
    text.push_str("  stopped")
}
