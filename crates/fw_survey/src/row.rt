//! What became of the questions to a meter. Times are in microseconds.

ghost use Rattle.std.specs.Prelude.{◌≡◌, ◌+◌, MatchOption, Some};
ghost use Rattle.fw_survey.specs.Rows.{
  answered_by,
  asked_at,
  asks_at,
  asks_of,
  inquiry_of,
  is_given_up,
  is_late,
  is_open,
  is_over,
  may_ask,
  new_row,
  next_question,
  out_of,
  outs_of,
  settled,
  settled_at,
  settled_row,
  taken_row,
  trip_of,
  with_inquiry,
};

use crate::answer::Answer;
use crate::question::Question;
use fw_names::MeterId;
use std::marker::Model;
use std::net::SocketAddr;

/// What became of a question to a meter.
#[derive(Clone, Copy)]
pub struct Inquiry {
    /// How often it was asked, up to 2^32 - 1.
    pub asked: u32,
    /// Since when it is in flight: asked, and neither answered nor waited for long enough.
    pub since: Option<u64>,
    /// What the meter answered.
    pub answer: Option<Answer>,
    /// How long the answer took, if it came while the question was in flight.
    pub trip: Option<u64>,
}

impl Inquiry {
    /// That of a question that was never asked.
    const UNASKED: Inquiry = Inquiry {
        asked: 0,
        since: None,
        answer: None,
        trip: None,
    };

    /// Whether the question was asked, and not answered.
    pub(crate) fn is_open(&self) -> bool
        ensures { result ≡ is_open self.now }
    {
        self.answer.is_none() && self.asked > 0
    }

    /// Whether it is in flight for as long as an answer is waited for.
    pub(crate) fn is_late(&self, timeout: u64, now: u64) -> bool
        ensures { result ≡ is_late timeout now self.now }
    {
        match self.since {
            Some(since) => timeout <= now.saturating_sub(since),
            None => false,
        }
    }

    /// Whether it may be asked: it isn't in flight, and wasn't asked as often as a question is.
    pub(crate) fn may_ask(&self, tries: u32) -> bool
        ensures { result ≡ may_ask tries self.now }
    {
        self.since.is_none() && self.asked < tries
    }

    /// Whether it was asked as often as a question is, and isn't in flight.
    pub(crate) fn is_given_up(&self, tries: u32) -> bool
        ensures { result ≡ is_given_up tries self.now }
    {
        self.since.is_none() && tries <= self.asked
    }

    /// How many questions it has in flight: one or none.
    pub(crate) fn out(&self) -> u64
        ensures { result ≡ out_of self.now }
    {
        if self.since.is_some() { 1 } else { 0 }
    }

    /// The question once it is asked at this time.
    pub(crate) fn asked_at(&self, now: u64) -> Inquiry
        ensures { result ≡ asked_at now self.now }
    {
        Inquiry {
            asked: self.asked.saturating_add(1),
            since: Some(now),
            answer: self.answer,
            trip: self.trip,
        }
    }

    /// The question once it is waited for no more.
    pub(crate) fn settled(&self) -> Inquiry
        ensures { result ≡ settled self.now }
    {
        Inquiry {
            asked: self.asked,
            since: None,
            answer: self.answer,
            trip: self.trip,
        }
    }

    /// The question once it is answered at this time.
    pub(crate) fn answered_by(&self, answer: Answer, now: u64) -> Inquiry
        ensures { result ≡ answered_by answer now self.now }
    {
        Inquiry {
            asked: self.asked,
            since: None,
            answer: Some(answer),
            trip: trip_of(self.since, now),
        }
    }
}

/// How long it is since a time, if there is one.
fn trip_of(since: Option<u64>, now: u64) -> Option<u64>
    ensures { result ≡ trip_of now since }
{
    match since {
        Some(since) => Some(now.saturating_sub(since)),
        None => None,
    }
}

/// A meter of the list, and what became of the questions to it.
#[derive(Drop)]
pub struct Row {
    /// The meter.
    pub meter: MeterId,
    /// The address at which it is asked.
    pub address: SocketAddr,
    /// What it runs.
    pub active: Inquiry,
    /// image_block_size.
    pub block_size: Inquiry,
    /// image_transfer_enabled.
    pub enabled: Inquiry,
    /// image_transfer_status.
    pub status: Inquiry,
}

// Contracts see the same fields.
impl Model for Row {
    ghost use Rattle.fw_survey.specs.Rows.{Row};

    ghost Value = { Row };

    ghost view = { λ r. record {
      meter = r.meter;
      address = r.address;
      active = r.active;
      block_size = r.block_size;
      enabled = r.enabled;
      status = r.status;
    } };
}

impl Row {
    /// A meter that was never asked.
    pub(crate) fn new(meter: MeterId, address: SocketAddr) -> Row
        ensures { result ≡ new_row meter address }
    {
        Row {
            meter,
            address,
            active: Inquiry::UNASKED,
            block_size: Inquiry::UNASKED,
            enabled: Inquiry::UNASKED,
            status: Inquiry::UNASKED,
        }
    }

    /// The address at which it is asked.
    pub(crate) fn address(&self) -> SocketAddr
        ensures { result ≡ self.now.address }
    {
        self.address
    }

    /// What became of a question.
    pub fn inquiry(&self, question: Question) -> &Inquiry
        ensures { result.now ≡ inquiry_of self.now question }
    {
        match question {
            Question::ActiveName => &self.active,
            Question::BlockSize => &self.block_size,
            Question::Enabled => &self.enabled,
            Question::Status => &self.status,
        }
    }

    /// The first question that the meter didn't answer.
    pub(crate) fn next_question(&self) -> Option<Question>
        ensures { result ≡ next_question self.now }
    {
        if self.active.answer.is_none() {
            Some(Question::ActiveName)
        } else if self.block_size.answer.is_none() {
            Some(Question::BlockSize)
        } else if self.enabled.answer.is_none() {
            Some(Question::Enabled)
        } else if self.status.answer.is_none() {
            Some(Question::Status)
        } else {
            None
        }
    }

    /// Whether nothing more is asked: all is answered, or the next question was asked as often as a question is, and isn't in flight.
    pub(crate) fn is_over(&self, tries: u32) -> bool
        ensures { result ≡ is_over tries self.now }
    {
        match self.next_question() {
            Some(question) => self.inquiry(question).is_given_up(tries),
            None => true,
        }
    }

    /// Waits no more for the next question, if it is in flight for as long as an answer is waited for, and returns how many questions are in
    /// flight no more.
    pub(crate) fn settle(&mut self, timeout: u64, now: u64) -> u64
        ensures settled { self.new ≡ settled_row timeout now self.old }
        ensures same { (self.new.meter ≡ self.old.meter) × (self.new.address ≡ self.old.address) }
        ensures count { outs_of self.old ≡ outs_of self.new + result }
    {
        match self.next_question() {
            Some(question) => self.settle_question(question, timeout, now),
            None => 0,
        }
    }

    /// The same of this question.
    fn settle_question(&mut self, question: Question, timeout: u64, now: u64) -> u64
        ensures settled { self.new ≡ settled_at timeout now self.old (Some question) }
        ensures same { (self.new.meter ≡ self.old.meter) × (self.new.address ≡ self.old.address) }
        ensures count { outs_of self.old ≡ outs_of self.new + result }
    {
        let inquiry = self.inquiry(question);
        if !inquiry.is_late(timeout, now) {
            return 0;
        }
        let out = inquiry.out();
        let settled = inquiry.settled();
        self.put(question, settled);
        out
    }

    /// The next question, if it may be asked. It is asked then.
    pub(crate) fn ask(&mut self, tries: u32, now: u64) -> Option<Question>
        ensures question { result ≡ asks_of tries self.old }
        ensures same { (self.new.meter ≡ self.old.meter) × (self.new.address ≡ self.old.address) }
        ensures asked { MatchOption result (self.new ≡ self.old)
            (λ question. self.new ≡ with_inquiry self.old question (asked_at now (inquiry_of self.old question))) }
        ensures count { MatchOption result (outs_of self.new ≡ outs_of self.old) (λ question. outs_of self.new ≡ outs_of self.old + 1) }
    {
        match self.next_question() {
            Some(question) => self.ask_question(question, tries, now),
            None => None,
        }
    }

    /// This question, if it may be asked. It is asked then.
    fn ask_question(&mut self, question: Question, tries: u32, now: u64) -> Option<Question>
        ensures question { result ≡ asks_at tries self.old (Some question) }
        ensures same { (self.new.meter ≡ self.old.meter) × (self.new.address ≡ self.old.address) }
        ensures asked { MatchOption result (self.new ≡ self.old)
            (λ question. self.new ≡ with_inquiry self.old question (asked_at now (inquiry_of self.old question))) }
        ensures count { MatchOption result (outs_of self.new ≡ outs_of self.old) (λ question. outs_of self.new ≡ outs_of self.old + 1) }
    {
        let inquiry = self.inquiry(question);
        if !inquiry.may_ask(tries) {
            return None;
        }
        let asked = inquiry.asked_at(now);
        self.put(question, asked);
        Some(question)
    }

    /// Takes an answer, if its question was asked and not answered, and returns how many questions are in flight no more.
    pub(crate) fn take(&mut self, question: Question, answer: Answer, now: u64) -> u64
        ensures taken { self.new ≡ taken_row question answer now self.old }
        ensures same { (self.new.meter ≡ self.old.meter) × (self.new.address ≡ self.old.address) }
        ensures count { outs_of self.old ≡ outs_of self.new + result }
    {
        let inquiry = self.inquiry(question);
        if !inquiry.is_open() {
            return 0;
        }
        let out = inquiry.out();
        let answered = inquiry.answered_by(answer, now);
        self.put(question, answered);
        out
    }

    /// This became of a question.
    fn put(&mut self, question: Question, inquiry: Inquiry)
        ensures put { self.new ≡ with_inquiry self.old question inquiry }
        ensures same { (self.new.meter ≡ self.old.meter) × (self.new.address ≡ self.old.address) }
    {
        match question {
            Question::ActiveName => self.active = inquiry,
            Question::BlockSize => self.block_size = inquiry,
            Question::Enabled => self.enabled = inquiry,
            Question::Status => self.status = inquiry,
        }
    }
}
