//! How far the command `head` is, for who waits for it.

ghost use Rattle.std.specs.Prelude.{◌≡◌, None};

use crate::head_reach::{Lasting, Short, Since, known_among, needed_among, scaled};
use fw_disk::Cause;
use fw_events::met_after;
use fw_head::HeadCore;
use fw_rollout::{Counts, HeadWatch, MILLISECOND, SECOND, Stuck};
use fw_rows::head_number;
use std::fmt;

/// What clears the line of a terminal from its first column on (ECMA-48, CR and EL).
pub(crate) const CLEARED: &str = "\r\u{1b}[K";

/// What has a terminal cut off what is wider than it is, and wrap it again (DEC private mode 7, autowrap).
const CUT_OFF: &str = "\u{1b}[?7l";

const WRAPPED: &str = "\u{1b}[?7h";

/// Where the command `head` shows how far it is, and how often.
#[derive(Clone, Copy, PartialEq, Eq, Debug)]
pub enum ProgressOutput {
    /// On the terminal that standard error is, in one line that is written anew each second.
    Terminal,
    /// On standard error, in a line each time that so many microseconds went by in which something was sent or came.
    Log { every: u64 },
    /// Nowhere.
    Hidden,
}

impl ProgressOutput {
    /// The microseconds from one line to the next, if there are lines.
    fn every(self) -> Option<u64> {
        match self {
            ProgressOutput::Terminal => Some(SECOND),
            ProgressOutput::Log { every } => Some(every),
            ProgressOutput::Hidden => None,
        }
    }
}

/// What a line says.
#[derive(Drop)]
struct Figures {
    counts: Counts,
    blocks: BlockFigures,
    /// Datagrams a second.
    rate: u64,
    faults: u64,
    /// Datagrams that didn't open.
    unopened: u64,
}

/// What a line says of blocks.
#[derive(Clone, Copy)]
struct BlockFigures {
    /// How many the meters of live rows are known to have.
    known: u64,
    /// How many they need.
    needed: u64,
    /// How many milliseconds the others take, if that can be said.
    time_left: Option<u64>,
}

// A line has 80 characters at most if there are no more than 9,999 rows, and nothing was dropped.
impl fmt::Display for Figures {
    fn fmt<W: fmt::Write>(&self, f: &mut fmt::Formatter<W>) -> fmt::Result {
        let Counts {
            live,
            done,
            failed,
            sent,
            received: _,
            resends,
            strangers,
        } = self.counts;
        let rate = Short(self.rate);
        let blocks = self.blocks;
        write!(
            f,
            "{blocks}, {live} live, {done} done, {failed} failed, {rate}/s"
        )?;
        if let Some(again) = scaled(resends, 100, sent) {
            write!(f, ", {again}% again")?;
        }
        if let Some(millis) = blocks.time_left {
            let time = Lasting(millis / 1_000);
            write!(f, ", ~{time}")?;
        }
        let strangers = Dropped(strangers, "strangers");
        let faults = Dropped(self.faults, "faults");
        let unopened = Dropped(self.unopened, "unopened");
        write!(f, "{strangers}{faults}{unopened}")
    }
}

impl fmt::Display for BlockFigures {
    fn fmt<W: fmt::Write>(&self, f: &mut fmt::Formatter<W>) -> fmt::Result {
        let (known, needed) = (Short(self.known), Short(self.needed));
        write!(f, "{known}/{needed} blocks")?;
        match scaled(self.known, 100, self.needed) {
            Some(percent) => write!(f, " {percent}%"),
            None => Ok(()),
        }
    }
}

/// How much of something was dropped, if anything was.
#[derive(Clone, Copy)]
struct Dropped(u64, &'static str);

impl fmt::Display for Dropped {
    fn fmt<W: fmt::Write>(&self, f: &mut fmt::Formatter<W>) -> fmt::Result {
        let (count, what) = (self.0, self.1);
        match count {
            0 => Ok(()),
            _ => write!(f, ", {count} {what}"),
        }
    }
}

/// The line of a row that got nowhere.
#[derive(Drop)]
struct NoProgress(Stuck);

impl fmt::Display for NoProgress {
    fn fmt<W: fmt::Write>(&self, f: &mut fmt::Formatter<W>) -> fmt::Result {
        let Stuck {
            campaign,
            meter,
            from,
        } = self.0;
        let (head, serial) = (head_number(campaign), campaign.serial());
        let (meter, met) = (meter.number(), met_after(from));
        write!(f, "row {head} {serial} {meter} no progress: {met}")
    }
}

/// The line of what a head end can't write of itself beside its lines, and why.
#[derive(Clone, Copy)]
pub enum Unwritten {
    /// An event.
    Event(Cause),
    /// A page of metrics.
    Page(Cause),
}

impl fmt::Display for Unwritten {
    fn fmt<W: fmt::Write>(&self, f: &mut fmt::Formatter<W>) -> fmt::Result {
        match self {
            Unwritten::Event(cause) => write!(f, "an event can't be written: {cause}"),
            Unwritten::Page(cause) => write!(f, "a page of metrics can't be written: {cause}"),
        }
    }
}

/// How far the command `head` is, as standard error shows it. The progress line of a terminal is cleared when it is dropped. A write that
/// fails is passed over.
pub struct HeadProgress<'a, E: Eprint> {
    rt: &'a E,
    output: ProgressOutput,
    /// When a line was written last.
    shown_at: Option<u64>,
    /// How many datagrams went and came until then.
    datagrams: u64,
    /// Since when the blocks that are left have become fewer.
    since: Option<Since>,
}

impl<'a, E: Eprint> HeadProgress<'a, E> {
    /// Nothing is shown yet.
    pub fn new(rt: &'a E, output: ProgressOutput) -> HeadProgress<'a, E>
        ensures rt { result.rt ≡ rt.entry }
        ensures output { result.output ≡ output }
        ensures shown { result.shown_at ≡ None }
        ensures counted { result.datagrams ≡ 0 }
        ensures since { result.since ≡ None }
    {
        HeadProgress {
            rt,
            output,
            shown_at: None,
            datagrams: 0,
            since: None,
        }
    }

    /// Looks at the blocks of the live rows.
    fn look(&mut self, now: u64, head: &HeadCore) -> BlockFigures {
        let known = known_among(head).unwrap_or(u64::MAX);
        let needed = needed_among(head).unwrap_or(u64::MAX);
        let (now, left) = (now / MILLISECOND, needed.saturating_sub(known));
        let since = match self.since {
            Some(since) => since.or_now(now, left),
            None => Since::new(now, left),
        };
        self.since = Some(since);
        let time_left = match left {
            0 => None,
            _ => since.time_left(now, left),
        };
        BlockFigures {
            known,
            needed,
            time_left,
        }
    }

    /// How many datagrams a second went and came since the last line.
    fn rate(&self, now: u64, datagrams: u64) -> u64 {
        let then = self.shown_at.unwrap_or(0);
        let more = datagrams.saturating_sub(self.datagrams);
        let micros = now.saturating_sub(then).max(1);
        more.saturating_mul(SECOND) / micros
    }

    /// Writes a line.
    fn show(&self, figures: Figures) {
        match self.output {
            ProgressOutput::Terminal => {
                let _ = eprint!(self.rt; "{CLEARED}{CUT_OFF}{figures}{WRAPPED}");
            }
            ProgressOutput::Log { every: _ } => {
                let _ = eprintln!(self.rt; "{figures}");
            }
            ProgressOutput::Hidden => {}
        }
    }

    /// Writes that a row got nowhere.
    fn tell(&self, stuck: Stuck) {
        let line = NoProgress(stuck);
        match self.output {
            ProgressOutput::Terminal => {
                let _ = eprintln!(self.rt; "{CLEARED}{line}");
            }
            ProgressOutput::Log { every: _ } => {
                let _ = eprintln!(self.rt; "{line}");
            }
            ProgressOutput::Hidden => {}
        }
    }

    /// Writes what can't be written elsewhere, also if no progress is shown.
    pub fn tell_unwritten(&self, unwritten: Unwritten) {
        match self.output {
            ProgressOutput::Terminal => {
                let _ = eprintln!(self.rt; "{CLEARED}{unwritten}");
            }
            ProgressOutput::Log { every: _ } | ProgressOutput::Hidden => {
                let _ = eprintln!(self.rt; "{unwritten}");
            }
        }
    }

    /// Whether there is nothing to tell: nothing went or came since the last line, of what isn't a terminal.
    fn is_quiet(&self, datagrams: u64) -> bool {
        self.output != ProgressOutput::Terminal && datagrams == self.datagrams
    }
}

impl<'a, E: Eprint> HeadWatch for HeadProgress<'a, E> {
    fn round(
        &mut self,
        now: u64,
        counts: Counts,
        faults: u64,
        unopened: u64,
        head: &HeadCore,
        stuck: Option<Stuck>,
    ) {
        if let Some(stuck) = stuck {
            self.tell(stuck);
        }
        let Some(every) = self.output.every() else {
            return;
        };
        if now.saturating_sub(self.shown_at.unwrap_or(0)) < every {
            return;
        }
        let datagrams = counts.sent.saturating_add(counts.received);
        if !self.is_quiet(datagrams) {
            let rate = self.rate(now, datagrams);
            let blocks = self.look(now, head);
            self.show(Figures {
                counts,
                blocks,
                rate,
                faults,
                unopened,
            });
        }
        self.shown_at = Some(now);
        self.datagrams = datagrams;
    }
}

impl<'a, E: Eprint> Drop for HeadProgress<'a, E> {
    fn drop(self) {
        let HeadProgress {
            rt,
            output,
            shown_at,
            datagrams: _,
            since: _,
        } = self;
        if let (ProgressOutput::Terminal, Some(_)) = (output, shown_at) {
            let _ = eprint!(rt; "{CLEARED}");
        }
    }
}
