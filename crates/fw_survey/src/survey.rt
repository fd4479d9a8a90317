//! The meters of a survey, and which of them is asked what next. It has no port and no clock: what comes is passed to it with the time, in
//! microseconds, and what is to be sent is returned.

ghost use Rattle.std.specs.Prelude.{
  ◌≡◌,
  ◌≤◌,
  ◌<◌,
  ◌-◌,
  ◌^◌,
  ◌++◌,
  ◌∷◌,
  [],
  IfOk,
  IfNone,
  IfSome,
  MatchBool,
  MatchOption,
  OnErr,
  OnOk,
  nat_lt,
  slice_get,
  true,
};
ghost use Rattle.std.specs.List.{list_all};
ghost use Rattle.fw_survey.specs.Rows.{Row as TheRow, asked_at, inquiry_of, is_over, new_row, settled_row, taken_row, with_inquiry};
ghost use Rattle.fw_survey.specs.Survey.{
  ChangesAt,
  HasAddress,
  HearsAs,
  IsPlaceOf,
  IsSurvey,
  KeepsMeters,
  due_of,
  most_out,
  rows_of,
};
ghost use Rattle.fw_survey.specs.Private.{HearsAt};

use crate::answer::Answer;
use crate::error::OutOfMemory;
use crate::matching::answer_in;
use crate::question::Question;
use crate::row::Row;
use fw_names::MeterId;
use std::alloc::Global;
use std::collections::HashMap;
use std::net::SocketAddr;

/// How a survey waits for answers.
#[derive(Clone, Copy)]
pub struct Timing {
    /// How long an answer is waited for, in microseconds. Then its question is asked again (a retry).
    pub timeout: u64,
    /// How often a question is asked. A meter that doesn't answer then is asked nothing more.
    pub tries: u32,
    /// How many questions are in flight at once. One always may be.
    pub flight: u64,
}

/// What is asked now.
#[derive(Clone, Copy)]
pub struct Due {
    /// The question.
    pub question: Question,
    /// The address of the meter.
    pub to: SocketAddr,
}

/// The meters of a list, each with what it was asked and what it answered. A place is the index of a row.
pub struct Survey {
    alloc: Global,
    timing: Timing,
    rows: Vec<Row>,
    /// The place of each address.
    places: HashMap<SocketAddr, usize>,
    /// How many questions are in flight.
    out: u64,
}

// Written out, so that letting go of it is one call in a proof.
impl Drop for Survey {
    fn drop(self) {
        let Survey {
            alloc: _,
            timing: _,
            rows: _,
            places: _,
            out: _,
        } = self;
    }
}

impl Survey {
    /// A survey of no meter. It takes no memory.
    pub fn new(alloc: Global, timing: Timing) -> Survey
        ensures rows { rows_of result ≡ [] }
        ensures timing { result.timing ≡ timing }
        ensures survey { IsSurvey result }
    {
        Survey {
            alloc,
            timing,
            rows: Vec::new(alloc),
            places: HashMap::new(alloc),
            out: 0,
        }
    }

    /// Adds a meter at the end, if no other has its address, and returns whether it is added.
    ///
    /// # Errors
    ///
    /// `OutOfMemory` alone. What is left then is unspecified.
    pub fn add(&mut self, meter: MeterId, address: SocketAddr) -> Result<bool, OutOfMemory>
        ensures added { IsSurvey self.old → IfOk result (λ added. MatchBool added
            (rows_of self.new ≡ rows_of self.old ++ new_row meter address ∷ [])
            ((self.new ≡ self.old) × HasAddress (rows_of self.old) address)) }
        ensures timing { OnOk result (self.new.timing ≡ self.old.timing) }
        ensures survey { IsSurvey self.old → OnOk result (IsSurvey self.new) }
    {
        if self.place_of(address).is_some() {
            return Ok(false);
        }
        let place = self.rows.len();
        push_new(&mut self.rows, meter, address)?;
        self.places.insert(address, place)?;
        Ok(true)
    }

    /// The meters in the order in which they were added.
    pub fn rows(&self) -> &[Row]
        ensures { result.now ≡ rows_of self.now }
    {
        self.rows.as_slice()
    }

    /// How many meters there are.
    pub(crate) fn count(&self) -> usize {
        self.rows.len()
    }

    /// Whether nothing more is asked of any meter.
    pub fn is_over(&self) -> bool
        ensures { result ≡ list_all (λ (row : TheRow). is_over self.now.timing.tries row) (rows_of self.now) }
    {
        is_all_over(&self.rows, self.timing.tries)
    }

    /// Waits no more for the next question to the meter at a place, if it is in flight for as long as an answer is waited for.
    pub fn settle(&mut self, place: usize, now: u64)
        ensures settled { ChangesAt place (settled_row self.old.timing.timeout now) (rows_of self.old) (rows_of self.new) }
        ensures timing { self.new.timing ≡ self.old.timing }
        ensures meters { KeepsMeters (rows_of self.old) (rows_of self.new) }
        ensures survey { IsSurvey self.old → IsSurvey self.new }
    {
        let Some(row) = self.rows.get_mut(place) else {
            return;
        };
        let back = row.settle(self.timing.timeout, now);
        self.out = self.out.saturating_sub(back);
    }

    /// What is asked of the meter at a place at this time, if anything is: the first question that it didn't answer, unless that is in flight,
    /// was asked as often as a question is, or too much is in flight. No more is in flight at once than [`Timing`] says.
    pub fn ask(&mut self, place: usize, now: u64) -> Option<Due>
        ensures due { result ≡ due_of self.old.timing self.old.out (slice_get (rows_of self.old) place) }
        ensures asked { MatchOption result (rows_of self.new ≡ rows_of self.old) (λ due. ChangesAt place
            (λ (row : TheRow). with_inquiry row due.question (asked_at now (inquiry_of row due.question))) (rows_of self.old) (rows_of self.new)) }
        ensures flight { IfSome result (λ _. self.new.out ≤ most_out self.old.timing.flight) }
        ensures timing { self.new.timing ≡ self.old.timing }
        ensures meters { KeepsMeters (rows_of self.old) (rows_of self.new) }
        ensures survey { IsSurvey self.old → IsSurvey self.new }
    {
        if !self.has_room() {
            return None;
        }
        let Some(row) = self.rows.get_mut(place) else {
            return None;
        };
        let to = row.address();
        match row.ask(self.timing.tries, now) {
            Some(question) => {
                self.out += 1;
                Some(Due { question, to })
            }
            None => None,
        }
    }

    /// Whether one question more may be in flight.
    fn has_room(&self) -> bool
        ensures room { result ≡ nat_lt self.now.out (most_out self.now.timing.flight) }
        ensures countable { result ≡ true → self.now.out < 2 ^ 64 - 1 }
    {
        self.out < self.timing.flight.max(1)
    }

    /// Takes the answer that a datagram from an address carries, if the meter at that address was asked the question, and didn't answer it
    /// yet. Any other datagram changes nothing.
    ///
    /// # Errors
    ///
    /// `OutOfMemory` alone. Nothing is changed then.
    pub fn hear(&mut self, now: u64, from: SocketAddr, datagram: &[u8]) -> Result<(), OutOfMemory>
        ensures heard { IsSurvey self.old → OnOk result (HearsAs now from datagram.now (rows_of self.old) (rows_of self.new)) }
        ensures same { OnErr result (self.new ≡ self.old) }
        ensures timing { self.new.timing ≡ self.old.timing }
        ensures meters { KeepsMeters (rows_of self.old) (rows_of self.new) }
        ensures survey { IsSurvey self.old → IsSurvey self.new }
    {
        match self.place_of(from) {
            Some(place) => self.hear_at(place, now, datagram),
            None => Ok(()),
        }
    }

    /// The same of a datagram from the address of the meter at a place.
    fn hear_at(&mut self, place: usize, now: u64, datagram: &[u8]) -> Result<(), OutOfMemory>
        ensures heard { OnOk result (HearsAt place now datagram.now (rows_of self.old) (rows_of self.new)) }
        ensures same { OnErr result (self.new ≡ self.old) }
        ensures timing { self.new.timing ≡ self.old.timing }
        ensures meters { KeepsMeters (rows_of self.old) (rows_of self.new) }
        ensures survey { IsSurvey self.old → IsSurvey self.new }
    {
        match answer_in(self.alloc, datagram)? {
            Some(found) => {
                self.take(place, found.0, found.1, now);
                Ok(())
            }
            None => Ok(()),
        }
    }

    /// The meter at a place answered a question.
    fn take(&mut self, place: usize, question: Question, answer: Answer, now: u64)
        ensures taken { ChangesAt place (taken_row question answer now) (rows_of self.old) (rows_of self.new) }
        ensures timing { self.new.timing ≡ self.old.timing }
        ensures meters { KeepsMeters (rows_of self.old) (rows_of self.new) }
        ensures survey { IsSurvey self.old → IsSurvey self.new }
    {
        let Some(row) = self.rows.get_mut(place) else {
            return;
        };
        let back = row.take(question, answer, now);
        self.out = self.out.saturating_sub(back);
    }

    /// The place of the meter with this address.
    fn place_of(&self, address: SocketAddr) -> Option<usize>
        ensures found { IsSurvey self.now → IfSome result (IsPlaceOf (rows_of self.now) address) }
        ensures none { IsSurvey self.now → IfNone result (¬ HasAddress (rows_of self.now) address) }
    {
        self.places.get(&address).copied()
    }
}

/// Adds a meter that was never asked at the end of these.
fn push_new(rows: &mut Vec<Row>, meter: MeterId, address: SocketAddr) -> Result<(), OutOfMemory>
    ensures { OnOk result (rows.new.items ≡ rows.old.items ++ new_row meter address ∷ []) }
{
    rows.push(Row::new(meter, address))?;
    Ok(())
}

/// Whether nothing more is asked of any of these.
fn is_all_over(rows: &[Row], tries: u32) -> bool
    ensures { result ≡ list_all (λ (row : TheRow). is_over tries row) rows.now }
{
    rows.iter().all(|row| row.is_over(tries))
}
