//! What a head end knows of the link of one meter.

ghost use Rattle.std.specs.Prelude.{◌≡◌, ◌↔◌, IsTrue};
ghost use Rattle.fw_rollout.specs.Link.{
  IsNewLink,
  IsSent,
  IsAnswered,
  IsGivenUp,
  IsHeld,
  IsReady,
  IsLiveLink,
  is_paused,
  answered_of,
  pause_after,
  turn_after,
  until_of,
};

use crate::timing::{FIRST_PAUSE, LONGEST_PAUSE, lengthened, longer, wait_after};
use fw_names::MeterId;
use std::net::SocketAddr;

/// A meter of a list, and the address at which it is asked.
#[derive(Clone, Copy, Debug, PartialEq, Eq)]
pub struct Listed {
    /// The meter.
    pub meter: MeterId,
    /// Its address.
    pub address: SocketAddr,
}

/// Where a link is between two ticks. Times are in microseconds.
#[derive(Clone, Copy)]
pub(crate) enum Turn {
    /// The meter has no live row.
    Over,
    /// Its row may be ticked.
    Ready,
    /// What was sent counts as out until this time.
    Awaited { until: u64 },
    /// What was sent was given up, and nothing at all came. The row is ticked again at this time.
    Silent { until: u64 },
    /// All was answered, and the meter isn't ready for what it was asked, or the row may not be asked what is next. It is looked at again at this
    /// time.
    Paused { until: u64 },
}

/// What an answer leaves of what a row asked.
#[derive(Clone, Copy)]
pub(crate) enum Answer {
    /// Other asks are outstanding.
    Partial,
    /// None is.
    Last,
    /// None is, and the meter isn't ready for what it was asked.
    Early,
}

impl Answer {
    /// How many of the datagrams that are out it answers.
    fn answers(self, out: u64) -> u64
        ensures { result ≡ answered_of self out }
    {
        match self {
            Answer::Partial => out.min(1),
            Answer::Last | Answer::Early => out,
        }
    }

    /// Where the link is then, which pauses until this time if it does. One that may be ticked already doesn't.
    fn turn(self, until: u64, turn: Turn) -> Turn
        ensures { result ≡ turn_after self until turn }
    {
        match self {
            Answer::Partial => turn,
            Answer::Last => Turn::Ready,
            Answer::Early => match turn {
                Turn::Ready => Turn::Ready,
                Turn::Over | Turn::Awaited { .. } | Turn::Silent { .. } | Turn::Paused { .. } => {
                    Turn::Paused { until }
                }
            },
        }
    }

    /// How long the next pause is.
    fn pause(self, pause: u64) -> u64
        ensures { result ≡ pause_after self pause }
    {
        match self {
            Answer::Partial => pause,
            Answer::Last => FIRST_PAUSE,
            Answer::Early => longer(pause),
        }
    }
}

/// A link. All times are in microseconds.
#[derive(Clone, Copy)]
pub(crate) struct Link {
    /// The meter and its address.
    pub(crate) at: Listed,
    /// Where it is between two ticks.
    pub(crate) turn: Turn,
    /// How many of the datagrams of the last tick are out: neither answered nor given up.
    pub(crate) out: u64,
    /// When the last tick was.
    sent_at: u64,
    /// Whether the row took an answer since then.
    is_heard: bool,
    /// How long what is sent counts as out: four times the last round trip, or the first wait.
    wait: u64,
    /// How long nothing at all may come until the row is ticked again. It is no shorter than that.
    patience: u64,
    /// How long the next pause is.
    pause: u64,
}

impl Link {
    /// The link of a meter that was not asked yet.
    pub(crate) fn new(at: Listed, is_live: bool, resend: u64) -> Link
        ensures { IsNewLink at is_live resend result }
    {
        let turn = if is_live { Turn::Ready } else { Turn::Over };
        Link {
            at,
            turn,
            out: 0,
            sent_at: 0,
            is_heard: false,
            wait: resend,
            patience: resend,
            pause: FIRST_PAUSE,
        }
    }

    /// Whether the row may be ticked now.
    pub(crate) fn is_ready(&self) -> bool
        ensures { IsTrue result ↔ IsReady self.now }
    {
        match self.turn {
            Turn::Ready => true,
            Turn::Over | Turn::Awaited { .. } | Turn::Silent { .. } | Turn::Paused { .. } => false,
        }
    }

    /// Whether the meter has a live row.
    pub(crate) fn is_live(&self) -> bool
        ensures { IsTrue result ↔ IsLiveLink self.now }
    {
        match self.turn {
            Turn::Over => false,
            Turn::Ready | Turn::Awaited { .. } | Turn::Silent { .. } | Turn::Paused { .. } => true,
        }
    }

    /// When the link is looked at next, if no answer comes.
    pub(crate) fn until(&self) -> Option<u64>
        ensures { result ≡ until_of self.now.turn }
    {
        match self.turn {
            Turn::Awaited { until } | Turn::Silent { until } | Turn::Paused { until } => Some(
                until,
            ),
            Turn::Over | Turn::Ready => None,
        }
    }

    /// Whether the link pauses.
    pub(crate) fn is_paused(&self) -> bool
        ensures { result ≡ is_paused self.now.turn }
    {
        match self.turn {
            Turn::Paused { .. } => true,
            Turn::Over | Turn::Ready | Turn::Awaited { .. } | Turn::Silent { .. } => false,
        }
    }

    /// The row was ticked, and `count` datagrams were sent.
    pub(crate) fn sent(&mut self, now: u64, count: u64)
        ensures { IsSent now count self.old self.new }
    {
        self.out = count;
        self.sent_at = now;
        self.is_heard = false;
        self.turn = Turn::Awaited {
            until: now.saturating_add(self.wait),
        };
    }

    /// The row may not be asked now. It is looked at again after the longest pause.
    pub(crate) fn held(&mut self, now: u64)
        ensures { IsHeld now self.old self.new }
    {
        self.turn = Turn::Paused {
            until: now.saturating_add(LONGEST_PAUSE),
        };
    }

    /// The row took an answer. If an ask of it is outstanding still, the others are waited for. If the meter isn't ready, it is asked
    /// again after a pause. It returns how many datagrams are out no more.
    pub(crate) fn answered(&mut self, now: u64, resend: u64, answer: Answer) -> u64
        ensures { IsAnswered now resend answer self.old result self.new }
    {
        let answered = answer.answers(self.out);
        self.turn = answer.turn(now.saturating_add(self.pause), self.turn);
        self.out = self.out.saturating_sub(answered);
        self.is_heard = true;
        self.wait = wait_after(resend, now.saturating_sub(self.sent_at));
        self.patience = self.wait;
        self.pause = answer.pause(self.pause);
        answered
    }

    /// The time until which was waited is over. If nothing at all came, it is waited for longer, and a quarter longer at the next tick.
    /// It returns how many datagrams are out no more.
    pub(crate) fn given_up(&mut self, now: u64) -> u64
        ensures { IsGivenUp now self.old result self.new }
    {
        let given_up = self.out;
        self.out = 0;
        if self.is_heard {
            self.turn = Turn::Ready;
            return given_up;
        }
        let until = self.sent_at.saturating_add(self.patience);
        if now < until {
            self.turn = Turn::Silent { until };
            return given_up;
        }
        self.patience = lengthened(self.patience);
        self.turn = Turn::Ready;
        given_up
    }

    /// The row ended. It returns how many datagrams are out no more.
    pub(crate) fn over(&mut self) -> u64
        ensures out { result ≡ self.old.out }
        ensures over { (self.new.out ≡ 0) × ¬ IsLiveLink self.new }
        ensures at { self.new.at ≡ self.old.at }
    {
        let left = self.out;
        self.out = 0;
        self.turn = Turn::Over;
        left
    }
}
