//! The trace of a run: a line for each datagram that was sent, and what became of it.

ghost use Rattle.std.specs.Prelude.{◌≡◌, ◌<◌, ◌++◌, ℕ, List, codes, length, OnOk, string_bytes};
ghost use Rattle.fw_world.specs.Runs.{events_of};
ghost use Rattle.fw_world.specs.Setup.{IsSetup};
ghost use Rattle.fw_report.specs.Course.{course_words};
ghost use Rattle.fw_report.specs.Reason.{reason_at, reason_words};
ghost use Rattle.fw_report.specs.Message.{Says};
ghost use Rattle.fw_report.specs.Trace.{TellsTrace, IsTrace, line_of, note_of, ends_words, kind_of, number_of, message_words};
ghost use Rattle.fw_report.specs.declared.message.Message.{Message};

use crate::course::{Course, append_course, courses_of};
use crate::message::{Message, message_of};
use crate::reason::{Reason, append_reason, reason_told, reasons_of};
use crate::words::append_message;
use fw_world::{Actor, Datagram, Event, Setup};
use std::alloc::{AllocError, Global};

/// What is known of a datagram beside what it says.
#[derive(Clone, Copy)]
pub(crate) struct Note {
    /// Why an initiate that it answers could not be.
    pub(crate) reason: Option<Reason>,
    /// What the network did with it.
    pub(crate) course: Course,
}

/// Appends the trace of what was sent in a run of these events.
pub fn append_trace_of(
    alloc: Global,
    text: &mut String,
    setup: &Setup,
    events: &[Event],
    sent: &[Datagram],
) -> Result<(), AllocError>
    requires { IsSetup setup.now }
    ensures { OnOk result ((trace : List ℕ) × TellsTrace setup.now (events_of events.now) sent.now trace
        × (string_bytes text.new ≡ string_bytes text.old ++ trace)) }
{
    let courses = courses_of(alloc, events, sent.len())?;
    let reasons = reasons_of(alloc, setup, events)?;
    append_trace(alloc, text, sent, &courses, &reasons)
}

/// Appends the trace of what was sent: for each datagram, by its number from 0 on, who sent it to whom, what it says, and what is known
/// of it beside that.
fn append_trace(
    alloc: Global,
    text: &mut String,
    sent: &[Datagram],
    courses: &[Course],
    reasons: &[Option<Reason>],
) -> Result<(), AllocError>
    requires { length courses.now ≡ length sent.now }
    ensures { OnOk result ((trace : List ℕ) × IsTrace courses.now reasons.now sent.now trace
        × (string_bytes text.new ≡ string_bytes text.old ++ trace)) }
{
    for number in 0..sent.len() {
        let note = note_at(courses, reasons, number);
        append_line(alloc, text, number, &sent[number], note)?;
    }
    Ok(())
}

/// What is known of the datagram of this number beside what it says.
fn note_at(courses: &[Course], reasons: &[Option<Reason>], number: usize) -> Note
    requires { number < length courses.now }
    ensures { result ≡ note_of courses.now reasons.now number }
{
    Note {
        reason: reason_at(reasons, number),
        course: courses[number],
    }
}

/// Why an initiate could not be that the datagram of this number answers.
fn reason_at(reasons: &[Option<Reason>], number: usize) -> Option<Reason>
    ensures { result ≡ reason_at reasons.now number }
{
    if number < reasons.len() {
        reasons[number]
    } else {
        None
    }
}

/// Appends the line of a datagram.
fn append_line(
    alloc: Global,
    text: &mut String,
    number: usize,
    datagram: &Datagram,
    note: Note,
) -> Result<(), AllocError>
    ensures { OnOk result ((s : Message) × Says datagram.now.direction datagram.now.bytes s
        × (string_bytes text.new ≡ string_bytes text.old ++ line_of number datagram.now s note)) }
{
    match message_of(alloc, datagram) {
        Ok(message) => append_message_line(text, number, datagram, message, note),
        Err(error) => Err(error),
    }
}

/// Appends the line of a datagram that says this.
fn append_message_line(
    text: &mut String,
    number: usize,
    datagram: &Datagram,
    message: Message,
    note: Note,
) -> Result<(), AllocError>
    ensures { OnOk result (string_bytes text.new ≡ string_bytes text.old ++ line_of number datagram.now message note) }
{
    let reason = reason_told(&message, note.reason);
    write!(text, "{number} ")?;
    append_ends(text, datagram.from(), datagram.to())?;
    text.push_str("  ")?;
    append_message(text, message)?;
    append_note(text, reason, note.course)
}

/// Appends what is known of a datagram beside what it says, and ends its line.
fn append_note(text: &mut String, reason: Option<Reason>, course: Course) -> Result<(), AllocError>
    ensures { OnOk result (string_bytes text.new
        ≡ string_bytes text.old ++ (reason_words reason ++ (course_words course ++ codes "\n"))) }
{
    append_reason(text, reason)?;
    append_course(text, course)?;
    text.push_str("\n")
}

/// Appends who sends to whom.
pub fn append_ends(text: &mut String, from: Actor, to: Actor) -> Result<(), AllocError>
    ensures { OnOk result (string_bytes text.new ≡ string_bytes text.old ++ ends_words from to) }
{
    let (sender, addressee) = (kind_of(&from), kind_of(&to));
    let (source, target) = (number_of(&from), number_of(&to));
    write!(text, "{sender} {source} -> {addressee} {target}")
}

/// Whether this is a head end or a meter.
fn kind_of(actor: &Actor) -> &'static str
    ensures { result.now ≡ kind_of actor.now }
{
    match actor {
        Actor::Head(_) => "head",
        Actor::Meter(_) => "meter",
    }
}

/// The number of a head end or a meter.
fn number_of(actor: &Actor) -> u32
    ensures { result ≡ number_of actor.now }
{
    match actor {
        Actor::Head(head) => head.number(),
        Actor::Meter(meter) => meter.number(),
    }
}
