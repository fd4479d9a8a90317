//! The lines of a daemon, once it has begun: one that can't be written is lost.

ghost use Rattle.std.specs.Prelude.{
  ◌≡◌,
  ◌≤◌,
  ◌∷◌,
  ℕ,
  [],
  IfOk,
  IfSome,
  IsTrue,
  List,
  MatchOption,
  false,
  length,
  string_bytes,
  take,
};
ghost use Rattle.std.specs.Io.KnownBytes.{Appends, Keeps};
ghost use Rattle.fw_host.specs.Heads.{cancelled_line, ended_line, opened_line, over_line};
ghost use Rattle.fw_host.specs.Meters.{dropped_line, event_line};
ghost use Rattle.fw_host.specs.Telling.{AppendsFront, Told, row_event};

use crate::event_file::EventFile;
use crate::head_lines::{cancelled_line, ended_line, opened_line, over_line, state_after};
use crate::meter_lines::{dropped_line, event_line};
use fw_daemon::{Dropped, MeterEvent};
use fw_events::Event;
use fw_names::{CampaignId, ImageName};
use fw_rollout::{Counts, Ended};
use std::alloc::{AllocError, Global};
use std::io::{ErrorKind, Write};
use std::rt::Clock;

/// The most times that a writer is asked to take a line.
const MAX_WRITES: u64 = 4_294_967_296;

/// A writer of lines. Each is flushed. One that can't be written, or for which there is no memory, is lost: a front of it may be there.
#[derive(Drop)]
pub struct Lines<'a, W: Write> {
    alloc: Global,
    writer: &'a mut W,
    /// Whether a line was lost.
    lost: bool,
    /// The file of events, if one is asked for.
    events: Option<&'a EventFile>,
}

impl<'a, W: Write> Lines<'a, W> {
    /// Nothing is written or lost yet.
    pub fn new(alloc: Global, writer: &'a mut W) -> Lines<'a, W>
        ensures writer { result.writer.ghost_name ≡ writer.entry.ghost_name }
        ensures unwritten { W.contents result.writer.now ≡ W.contents writer.old }
        ensures lost { result.lost ≡ false }
    {
        Lines {
            alloc,
            writer,
            lost: false,
            events: None,
        }
    }

    /// From now on the event of each line of a head end is appended to this file behind it, if there is one.
    pub fn set_events(&mut self, events: Option<&'a EventFile>)
        ensures writer { self.new.writer.ghost_name ≡ self.old.writer.ghost_name }
        ensures unwritten { W.contents self.new.writer.now ≡ W.contents self.old.writer.now }
        ensures lost { self.new.lost ≡ self.old.lost }
        ensures events { self.new.events ≡ events.entry }
    {
        self.events = events;
    }

    /// The events that follow happen now, by the clock of the system.
    pub(crate) fn set_time<C: Clock>(&self, rt: &C) {
        if let Some(events) = self.events {
            events.set_time(rt);
        }
    }

    /// Appends an event, if there is a file for it.
    fn note(&self, event: Event) {
        if let Some(events) = self.events {
            events.tell(event);
        }
    }

    /// The line of a campaign that was opened.
    pub fn tell_opened(&mut self, name: ImageName)
        ensures writer { self.new.writer.ghost_name ≡ self.old.writer.ghost_name }
        ensures told { Told (opened_line name ∷ []) self.old.lost self.new.lost (W.contents self.old.writer.now) (W.contents self.new.writer.now) }
    {
        let line = opened_line(self.alloc, name);
        self.tell(line);
        self.note(Event::Opened { name });
    }

    /// The line of a campaign that was cancelled.
    pub fn tell_cancelled(&mut self, campaign: CampaignId)
        ensures writer { self.new.writer.ghost_name ≡ self.old.writer.ghost_name }
        ensures told { Told (cancelled_line campaign ∷ []) self.old.lost self.new.lost (W.contents self.old.writer.now)
            (W.contents self.new.writer.now) }
    {
        let line = cancelled_line(self.alloc, campaign);
        self.tell(line);
        let serial = campaign.serial();
        self.note(Event::Cancelled { serial });
    }

    /// The line of a row that ended.
    pub fn tell_ended(&mut self, ended: Ended)
        ensures writer { self.new.writer.ghost_name ≡ self.old.writer.ghost_name }
        ensures told { Told (ended_line ended ∷ []) self.old.lost self.new.lost (W.contents self.old.writer.now) (W.contents self.new.writer.now) }
    {
        let event = row_event(&ended);
        let line = ended_line(self.alloc, ended);
        self.tell(line);
        self.note(event);
    }

    /// The line at the end of the command `head`.
    pub fn tell_over(&mut self, counts: Counts)
        ensures writer { self.new.writer.ghost_name ≡ self.old.writer.ghost_name }
        ensures told { Told (over_line counts ∷ []) self.old.lost self.new.lost (W.contents self.old.writer.now) (W.contents self.new.writer.now) }
    {
        let line = over_line(self.alloc, counts);
        self.tell(line);
        let (done, failed) = (counts.done, counts.failed);
        self.note(Event::Over { done, failed });
    }

    /// The line of what there is to tell of a meter, of several the one of this number.
    pub fn tell_event(&mut self, number: Option<usize>, event: MeterEvent)
        ensures writer { self.new.writer.ghost_name ≡ self.old.writer.ghost_name }
        ensures told { Told (event_line number event ∷ []) self.old.lost self.new.lost (W.contents self.old.writer.now)
            (W.contents self.new.writer.now) }
    {
        let line = event_line(self.alloc, number, event);
        self.tell(line);
    }

    /// The line of what was dropped, and of how many events were left out.
    pub fn tell_dropped(&mut self, dropped: Dropped, faults: u64, unopened: u64, untold: u64)
        ensures writer { self.new.writer.ghost_name ≡ self.old.writer.ghost_name }
        ensures told { Told (dropped_line dropped faults unopened untold ∷ []) self.old.lost self.new.lost (W.contents self.old.writer.now)
            (W.contents self.new.writer.now) }
    {
        let line = dropped_line(self.alloc, dropped, faults, unopened, untold);
        self.tell(line);
    }

    /// This line, if there was memory for it.
    fn tell(&mut self, line: Result<String, AllocError>)
        ensures writer { self.new.writer.ghost_name ≡ self.old.writer.ghost_name }
        ensures told { (bytes : List ℕ) → IfOk line (λ text. string_bytes text ≡ bytes)
            → Told (bytes ∷ []) self.old.lost self.new.lost (W.contents self.old.writer.now) (W.contents self.new.writer.now) }
    {
        match line {
            Ok(text) => self.put(text.as_bytes()),
            Err(_) => self.lost = true,
        }
    }

    /// The bytes of a line.
    fn put(&mut self, bytes: &[u8])
        ensures writer { self.new.writer.ghost_name ≡ self.old.writer.ghost_name }
        ensures told { Told (bytes.now ∷ []) self.old.lost self.new.lost (W.contents self.old.writer.now) (W.contents self.new.writer.now) }
    {
        if write_whole(self.writer, bytes) {
            return;
        }
        self.lost = true;
    }
}

/// The event of a row that ended.
fn row_event(ended: &Ended) -> Event
    ensures { result ≡ row_event ended.now }
{
    Event::Row {
        serial: ended.campaign.serial(),
        meter: ended.meter.number(),
        state: state_after(ended.ending),
        end: Some(ended.end),
    }
}

/// Writes all of these bytes, and flushes them. It returns whether that was done.
fn write_whole<W: Write>(writer: &mut W, bytes: &[u8]) -> bool
    ensures front { AppendsFront (W.contents writer.old) (W.contents writer.new) bytes.now }
    ensures whole { IsTrue result → Appends (W.contents writer.old) (W.contents writer.new) bytes.now }
{
    let mut rest = bytes;
    for _ in 0..MAX_WRITES {
        if rest.is_empty() {
            return writer.flush().is_ok();
        }
        match write_some(writer, rest) {
            Some(count) => rest = &rest[count..],
            None => return false,
        }
    }
    false
}

/// Writes some of these bytes, of which there are some, and returns how many: none if the writer was interrupted. `None` if it failed.
fn write_some<W: Write>(writer: &mut W, bytes: &[u8]) -> Option<usize>
    ensures bound { IfSome result (λ count. count ≤ length bytes.now) }
    ensures written { MatchOption result (Keeps (W.contents writer.old) (W.contents writer.new)) (λ count.
        Appends (W.contents writer.old) (W.contents writer.new) (take count bytes.now)) }
{
    match writer.write(bytes) {
        Ok(0) => None,
        Ok(count) => Some(count),
        Err(error) if error.kind() == ErrorKind::Interrupted => Some(0),
        Err(_) => None,
    }
}
