//! Laps of rows that get nowhere. A lap of a row ends when the row comes to ask its meter whether it has all blocks (`Check`). If the meter took
//! no fewer blocks in it than in the lap before, it lacks as many as before, so that no block is new, and the row rests before it goes on. A
//! meter that says now that it lacks none and now that it lacks some, or that never verifies its blocks, is so asked once a minute in the end.

ghost use Rattle.std.specs.Prelude.{◌≡◌, ◌↔◌, ◌≤◌, IfOk, IsTrue, replicate, slice_set};
ghost use Rattle.fw_rollout.specs.Laps.{
  ends_lap,
  gets_nowhere,
  is_blocks,
  is_check,
  is_start,
  lap_after,
  lap_between,
  lap_ended,
  lap_in,
  laps_gone,
  laps_of,
  longer_rest,
  no_lap,
  nowhere_between,
  starts,
  takes_block,
  with_block,
};

use crate::timing::longer_rest;
use fw_head::Phase;
use std::alloc::{AllocError, Global};

/// Half of the first rest, in microseconds.
const HALF_REST: u64 = 500_000;

/// The laps of a row. Times are in microseconds.
#[derive(Clone, Copy)]
pub(crate) struct Lap {
    /// How many blocks the meter took in this lap.
    taken: u32,
    /// How many it took in the lap before: 2^32 - 1 if there was none.
    before: u32,
    /// How long the row rested last, and half a second if it never did.
    rest: u64,
    /// Until when it rests.
    until: u64,
}

impl Lap {
    /// The first lap of a row.
    pub(crate) const FIRST: Lap = Lap {
        taken: 0,
        before: u32::MAX,
        rest: HALF_REST,
        until: 0,
    };

    /// Whether the row has rested at this time.
    pub(crate) fn has_rested(self, now: u64) -> bool
        ensures { IsTrue result ↔ (self.until ≤ now) }
    {
        self.until <= now
    }

    /// Whether the lap ends by an answer that leads the row from one phase to another, and got nowhere, if the row has a phase.
    pub(crate) fn gets_nowhere(self, from: Option<Phase>, to: Option<Phase>) -> bool
        ensures { result ≡ nowhere_between from to self }
    {
        match from {
            Some(from) => match to {
                Some(to) => self.ends_nowhere(from, to),
                None => false,
            },
            None => false,
        }
    }

    /// Whether it ends so, and got nowhere.
    fn ends_nowhere(self, from: Phase, to: Phase) -> bool
        ensures { result ≡ gets_nowhere from to self }
    {
        let taken = self.with_block(takes_block(from, to)).taken;
        ends_lap(from, to) && self.before <= taken
    }

    /// The lap once an answer led the row from one phase to another at this time, if it has a phase.
    fn between(self, now: u64, from: Option<Phase>, to: Option<Phase>) -> Lap
        ensures { result ≡ lap_between now from to self }
    {
        match from {
            Some(from) => match to {
                Some(to) => self.after(now, from, to),
                None => self,
            },
            None => self,
        }
    }

    /// The lap once an answer led the row from one phase to another at this time.
    fn after(self, now: u64, from: Phase, to: Phase) -> Lap
        ensures { result ≡ lap_after now from to self }
    {
        if starts(from, to) {
            return Lap::FIRST;
        }
        let lap = self.with_block(takes_block(from, to));
        if ends_lap(from, to) {
            lap.ended(now)
        } else {
            lap
        }
    }

    /// With one block more, if the meter took one.
    fn with_block(self, taken: bool) -> Lap
        ensures { result ≡ with_block taken self }
    {
        if !taken {
            return self;
        }
        Lap {
            taken: self.taken.saturating_add(1),
            ..self
        }
    }

    /// The next lap once this one ended at this time.
    fn ended(self, now: u64) -> Lap
        ensures { result ≡ lap_ended now self }
    {
        if self.taken < self.before {
            return Lap {
                taken: 0,
                before: self.taken,
                rest: HALF_REST,
                until: 0,
            };
        }
        let rest = longer_rest(self.rest);
        Lap {
            taken: 0,
            before: self.taken,
            rest,
            until: now.saturating_add(rest),
        }
    }
}

/// Whether a row starts anew by an answer that leads from one phase to another: its meter has no block then.
fn starts(from: Phase, to: Phase) -> bool
    ensures { result ≡ starts from to }
{
    is_start(from) && is_blocks(to)
}

/// Whether the meter took a block by such an answer.
fn takes_block(from: Phase, to: Phase) -> bool
    ensures { result ≡ takes_block from to }
{
    is_blocks(from) && (is_blocks(to) || is_check(to))
}

/// Whether a lap ends by such an answer.
fn ends_lap(from: Phase, to: Phase) -> bool
    ensures { result ≡ ends_lap from to }
{
    !is_check(from) && is_check(to)
}

fn is_start(phase: Phase) -> bool
    ensures { result ≡ is_start phase }
{
    match phase {
        Phase::Start => true,
        _ => false,
    }
}

fn is_blocks(phase: Phase) -> bool
    ensures { result ≡ is_blocks phase }
{
    match phase {
        Phase::Blocks => true,
        _ => false,
    }
}

fn is_check(phase: Phase) -> bool
    ensures { result ≡ is_check phase }
{
    match phase {
        Phase::Check => true,
        _ => false,
    }
}

/// The lap of each row of a list, at the place of its meter.
#[derive(Drop)]
pub(crate) struct Laps {
    items: Vec<Lap>,
}

impl Laps {
    /// The first laps of so many rows.
    pub(crate) fn new(alloc: Global, count: usize) -> Result<Laps, AllocError>
        ensures { IfOk result (λ laps. laps_of laps ≡ replicate count no_lap) }
    {
        let mut items = Vec::new(alloc);
        items.resize(count, Lap::FIRST)?;
        Ok(Laps { items })
    }

    /// That of the row at this place.
    pub(crate) fn at(&self, place: usize) -> Lap
        ensures { result ≡ lap_in (laps_of self.now) place }
    {
        match self.items.get(place) {
            Some(lap) => *lap,
            None => Lap::FIRST,
        }
    }

    /// An answer led the row at this place from one phase to another at this time, if it has a phase.
    pub(crate) fn go(&mut self, place: usize, now: u64, from: Option<Phase>, to: Option<Phase>)
        ensures { laps_of self.new ≡ laps_gone place now from to (laps_of self.old) }
    {
        let lap = self.at(place).between(now, from, to);
        self.set(place, lap);
    }

    /// The lap of the row at this place is this one now.
    fn set(&mut self, place: usize, lap: Lap)
        ensures { laps_of self.new ≡ slice_set (laps_of self.old) place lap }
    {
        if let Some(at) = self.items.get_mut(place) {
            *at = lap;
        }
    }
}
