//! Which meters are given up since they are silent.

ghost use Rattle.std.specs.Prelude.{◌≡◌, ◌↔◌, ◌≤◌, ◌+◌, IsTrue};
ghost use Rattle.fw_plan.specs.Silence.{GivesUp, IsSilent, asked_at, heard_at};

use fw_book::RowState;

/// When a meter was asked, and when it was heard, by the caller's clock in seconds.
#[derive(Clone, Copy)]
pub struct Contact {
    /// When it was asked first since it was heard last. `None` if it owes no answer.
    pub asked: Option<u64>,
    /// When it was heard last.
    pub heard: Option<u64>,
}

impl Contact {
    /// That of a meter that was never asked.
    pub const NONE: Contact = Contact {
        asked: None,
        heard: None,
    };

    /// The contact once the meter was asked. One that owes an answer already owes it from when on it did.
    pub fn asked_at(self, now: u64) -> Contact
        ensures { result ≡ asked_at now self }
    {
        match self.asked {
            Some(_) => self,
            None => Contact {
                asked: Some(now),
                ..self
            },
        }
    }

    /// The contact once something was heard of the meter. It owes no answer then.
    pub fn heard_at(self, now: u64) -> Contact
        ensures { result ≡ heard_at now self }
    {
        Contact {
            asked: None,
            heard: Some(now),
        }
    }
}

/// How long a meter may be silent while it is asked.
#[derive(Clone, Copy)]
pub enum Deadline {
    /// For ever.
    Never,
    /// For so many hours.
    Hours(u32),
}

impl Deadline {
    /// Whether a row is given up at this time: it is live, its meter owes an answer for so long, and wasn't heard for so long.
    pub fn gives_up(self, state: RowState, contact: Contact, now: u64) -> bool
        ensures { IsTrue result ↔ GivesUp self state contact now }
    {
        match self {
            Deadline::Never => false,
            Deadline::Hours(hours) => {
                state.is_live() && is_silent(contact, u64::from(hours) * 3_600, now)
            }
        }
    }
}

/// Whether a meter owes an answer for so many seconds, and wasn't heard for so many.
fn is_silent(contact: Contact, seconds: u64, now: u64) -> bool
    ensures { IsTrue result ↔ IsSilent contact seconds now }
{
    match (contact.asked, contact.heard) {
        (Some(asked), Some(heard)) => is_past(asked, seconds, now) && is_past(heard, seconds, now),
        (Some(asked), None) => is_past(asked, seconds, now),
        (None, _) => false,
    }
}

/// Whether a time lies so many seconds back.
fn is_past(time: u64, seconds: u64, now: u64) -> bool
    ensures { IsTrue result ↔ (time + seconds ≤ now) }
{
    time <= now && seconds <= now - time
}
