//! How far a command is, on the terminal of who waits for it.

use fw_air::Watch;
use fw_book::{Row, RowState};
use fw_workers::Gate;
use fw_world::{Event, Setup, World};
use std::fmt::Display;
use std::sync::atomic::{AtomicBool, AtomicU64, Ordering};

/// What clears a line.
const CLEARED: &str = "\r                                                            \r";

/// How many of the rounds of a replay are shown at most, besides the last.
const MOST_ROUNDS: u32 = 1000;

/// A line of a terminal, if there is one. It is cleared when it is dropped. A write that fails is passed over.
struct Line<'a, E: Eprint> {
    terminal: Option<&'a E>,
    is_clear: AtomicBool,
}

impl<'a, E: Eprint> Line<'a, E> {
    /// A line that is clear.
    fn of(terminal: Option<&'a E>) -> Line<'a, E> {
        Line {
            terminal,
            is_clear: AtomicBool::new(true),
        }
    }

    /// Shows a text, which is no shorter than the one before.
    fn show<D: Display + Drop>(&self, text: D) {
        if let Some(terminal) = self.terminal {
            self.is_clear.store(false, Ordering::SeqCst);
            let _ = eprint!(terminal; "\r{text}");
        }
    }
}

impl<'a, E: Eprint> Drop for Line<'a, E> {
    fn drop(self) {
        let Line { terminal, is_clear } = self;
        if let Some(terminal) = terminal {
            if !is_clear.load(Ordering::SeqCst) {
                let _ = eprint!(terminal; "{CLEARED}");
            }
        }
    }
}

/// A gate that lets every worker pass, and shows how many rows are done, anew when more are. One worker writes at a time, and no other
/// waits for it.
#[derive(Drop)]
pub(crate) struct RowsGate<'a, E: Eprint> {
    line: Line<'a, E>,
    /// How many rows there are.
    rows: u64,
    /// How many rows are shown as done, and one more. 0 if nothing is shown.
    shown: AtomicU64,
    /// Whether a worker writes.
    is_taken: AtomicBool,
}

impl<'a, E: Eprint> RowsGate<'a, E> {
    /// A gate at which workers go on after these events.
    pub(crate) fn new(terminal: Option<&'a E>, events: &[Event]) -> RowsGate<'a, E> {
        RowsGate {
            line: Line::of(terminal),
            rows: rows_opened(events),
            shown: AtomicU64::new(0),
            is_taken: AtomicBool::new(false),
        }
    }

    /// Shows how many rows are done, unless as many are shown or another worker writes.
    fn show(&self, done: u64) {
        let next = done.saturating_add(1);
        if self.shown.load(Ordering::SeqCst) < next && !self.is_taken.swap(true, Ordering::SeqCst) {
            if self.shown.fetch_max(next, Ordering::SeqCst) < next {
                let rows = self.rows;
                self.line.show(format_args!("{done} of {rows} rows done"));
            }
            self.is_taken.store(false, Ordering::SeqCst);
        }
    }
}

impl<'a, E: Eprint> Gate for RowsGate<'a, E> {
    ghost may_shut = { ⊥ };

    fn pass(&self, _worker: u32, _step: u64, done: u64) -> bool {
        self.show(done);
        true
    }
}

/// How many rows the campaigns of these events have, 2^64 - 1 at most.
fn rows_opened(events: &[Event]) -> u64 {
    let mut rows: u64 = 0;
    for event in events {
        if let Event::OpenCampaign { meters, .. } = event {
            rows = rows.saturating_add(meters.len() as u64);
        }
    }
    rows
}

/// Shows the rounds of a replay, and how many rows are done.
#[derive(Drop)]
pub(crate) struct RoundsWatch<'a, E: Eprint> {
    line: Line<'a, E>,
    setup: &'a Setup,
    /// How many rounds there are.
    rounds: u32,
}

impl<'a, E: Eprint> RoundsWatch<'a, E> {
    /// What is to show this number of rounds.
    pub(crate) fn new(
        terminal: Option<&'a E>,
        setup: &'a Setup,
        rounds: u32,
    ) -> RoundsWatch<'a, E> {
        RoundsWatch {
            line: Line::of(terminal),
            setup,
            rounds,
        }
    }

    /// Whether a round is shown: the last one, and of more than a thousand only some.
    fn shows(&self, made: u32) -> bool {
        made == self.rounds || made % (self.rounds / MOST_ROUNDS + 1) == 0
    }
}

impl<'a, E: Eprint> Watch for RoundsWatch<'a, E> {
    fn round_made(&self, rounds: u32, world: &World) {
        if self.line.terminal.is_some() && self.shows(rounds) {
            let all = self.rounds;
            let Rows { count, done } = rows_of(self.setup, world);
            self.line.show(format_args!("round {rounds} of {all}, {done} of {count} rows done"));
        }
    }
}

/// How many rows there are, and how many of them are done.
#[derive(Clone, Copy)]
struct Rows {
    count: u64,
    done: u64,
}

impl Rows {
    /// With those of a campaign.
    fn with(self, rows: &[Row]) -> Rows {
        let done = rows
            .iter()
            .filter(|row| row.state == RowState::Done)
            .count();
        Rows {
            count: self.count.saturating_add(rows.len() as u64),
            done: self.done.saturating_add(done as u64),
        }
    }
}

/// The rows of a world.
fn rows_of(setup: &Setup, world: &World) -> Rows {
    let mut all = Rows { count: 0, done: 0 };
    for head in &setup.heads {
        if let Some(book) = world.book(head.head) {
            for (_serial, offer) in book.rows() {
                all = all.with(offer.rows());
            }
        }
    }
    all
}
