//! A client of one meter.

ghost use Rattle.std.specs.Prelude.{◌≡◌, ◌↔◌, ◌<◌, IsSome, IfSome, IfOk, OnErr, MatchBool};
ghost use Rattle.std.specs.FinMap.{get};
ghost use Rattle.fw_apdu.specs.Request.{invoke_ids, request_bytes};
ghost use Rattle.fw_apdu.specs.View.{response_content, response_invoke};
ghost use Rattle.fw_wrapper.specs.Wrapper.{wrapped, wport};
ghost use Rattle.fw_client.specs.Claim.{Claim};
ghost use Rattle.fw_client.specs.Ask.{request_of, kind_of, Fits, CarriesRequest};
ghost use Rattle.fw_client.specs.State.{fresh, asking, forgetting, invoke_byte, IsWaiting};
ghost use Rattle.fw_client.specs.Hearing.{Answers, Hears, IsClaimed, MayCarryData};
ghost use Rattle.fw_client.specs.View.{ask_of};
ghost use Rattle.fw_client.specs.Private.{Finds, AnsweredBy};

use crate::ask::{Ask, Asked};
use crate::asking::datagram;
use crate::error::{AskError, OutOfMemory};
use crate::heard::Heard;
use crate::laws;
use crate::matching::{invoke_of, matched, response_in};
use crate::outstanding::Outstanding;
use fw_apdu::{INVOKE_IDS, Invoke, Response};
use fw_names::MeterId;
use std::alloc::Global;
use std::marker::Model;

/// The invoke byte of id 0: confirmed, of high priority (IEC 62056-5-3, Invoke-Id-And-Priority).
const FIRST_INVOKE: u8 = 0xc0;

/// A client of one meter's Image transfer object. It keeps what it asked under each invoke-id, and takes the answer to each ask
/// once.
#[derive(Drop)]
pub struct Client {
    meter: MeterId,
    next: u8,
    outstanding: Outstanding,
}

impl Model for Client {
    ghost use Rattle.std.specs.Prelude.{◌<◌};
    ghost use Rattle.std.specs.Coded.{codes};
    ghost use Rattle.std.specs.FinMap.{code};
    ghost use Rattle.fw_apdu.specs.Request.{invoke_ids};
    ghost use Rattle.fw_client.specs.State.{State};

    ghost Value = { State };

    ghost coded = { Prim.hlevel (codes, code) };

    ghost view = { λ c. record { meter = c.meter; next = c.next; asks = c.outstanding } };

    ghost invariant = { λ c. c.next < invoke_ids };
}

impl Client {
    /// A client of this meter, that has asked nothing yet.
    pub fn new(meter: MeterId) -> Client
        ensures { result ≡ fresh meter }
    {
        Client {
            meter,
            next: 0,
            outstanding: Outstanding::none(),
        }
    }

    /// Whose client it is.
    pub fn meter(&self) -> MeterId
        ensures { result ≡ self.now.meter }
    {
        self.meter
    }

    /// The same client once more. A caller that tries a step on it still has the client before the step.
    pub fn duplicate(&self) -> Client
        ensures { result ≡ self.now }
    {
        Client {
            meter: self.meter,
            next: self.next,
            outstanding: self.outstanding.duplicate(),
        }
    }

    /// Whether an ask is outstanding: no answer to it came yet, and it was not forgotten.
    pub fn is_waiting(&self) -> bool
        ensures { MatchBool result (IsWaiting self.now) (¬ IsWaiting self.now) }
    {
        self.outstanding.has_any()
    }

    /// Asks under the next invoke-id, which rises by one modulo 16, and gives the datagram to send, which goes from and to wPort 1
    /// (IEC 62056-4-7). A block that is asked to be stored has at most 1,024 bytes.
    ///
    /// # Errors
    ///
    /// `AllBusy` if that id is outstanding, and otherwise `OutOfMemory` alone, since each datagram takes memory. The client is
    /// then as before.
    pub fn ask(&mut self, alloc: Global, ask: &Ask<'_>) -> Result<Vec<u8>, AskError>
        requires { Fits (ask_of ask.now) }
        ensures written { IfOk result (λ datagram. datagram.items
            ≡ wrapped wport wport (request_bytes (invoke_byte self.old.next) (request_of (ask_of ask.now)))) }
        ensures carries { IfOk result (λ datagram.
            CarriesRequest datagram.items (invoke_byte self.old.next) (request_of (ask_of ask.now))) }
        ensures id { self.old.next < invoke_ids }
        ensures asked { IfOk result (λ _. self.new ≡ asking self.old (kind_of (ask_of ask.now))) }
        ensures busy { (result ≡ Err AskError.AllBusy) ↔ IsSome (get self.old.asks self.old.next) }
        ensures same { OnErr result (self.new ≡ self.old) }
    {
        let id = self.next;
        if self.outstanding.at(id).is_some() {
            return Err(AskError::AllBusy);
        }
        let datagram = datagram(alloc, Invoke(FIRST_INVOKE + id), ask)?;
        self.outstanding.put(id, ask.kind());
        self.next = (id + 1) % INVOKE_IDS;
        Ok(datagram)
    }

    /// Drops the outstanding asks, so that no answer to them is heard. The next id stays.
    pub fn forget(&mut self)
        ensures { self.new ≡ forgetting self.old }
    {
        self.outstanding = Outstanding::none();
    }

    /// Hears a datagram. It answers an outstanding ask where it carries, from and to wPort 1, a response that has the ask's
    /// invoke byte, its service and, where it is a value, its shape. The ask is then taken out, so that each is answered once.
    /// Any other datagram is a stranger's, and changes nothing.
    ///
    /// # Errors
    ///
    /// `OutOfMemory`, and only for the bytes and elements of a value that a response to a GET or an ACTION returns. The client is
    /// then as before.
    pub fn hear(&mut self, alloc: Global, datagram: &[u8]) -> Result<Heard, OutOfMemory>
        ensures hears { IfOk result (λ heard. Hears self.old datagram.now heard self.new) }
        // A claim is given exactly if the meter's answer spells it.
        ensures claims { IfOk result (λ heard. (claim : Claim)
            → (heard ≡ Heard.Active claim) ↔ IsClaimed self.old datagram.now claim) }
        ensures same { OnErr result (self.new ≡ self.old) }
        ensures memory { OnErr result (MayCarryData datagram.now) }
    {
        laws::only_claimed();
        self.take_answer(alloc, datagram)
    }

    /// Takes out the ask that a datagram answers, if there is one.
    fn take_answer(&mut self, alloc: Global, datagram: &[u8]) -> Result<Heard, OutOfMemory>
        ensures hears { IfOk result (λ heard. Hears self.old datagram.now heard self.new) }
        ensures same { OnErr result (self.new ≡ self.old) }
        ensures memory { OnErr result (MayCarryData datagram.now) }
    {
        match self.answered(alloc, datagram)? {
            Some((id, heard)) => {
                self.outstanding.take_out(id);
                Ok(heard)
            }
            None => Ok(Heard::Stranger),
        }
    }

    /// The id of the ask that a datagram answers, and what is heard by it.
    fn answered(&self, alloc: Global, datagram: &[u8]) -> Result<Option<(u8, Heard)>, OutOfMemory>
        ensures answered { IfOk result (λ found. Finds (λ x. Answers self.now datagram.now x.0 x.1) found) }
        ensures within { IfOk result (λ found. IfSome found (λ x. x.0 < invoke_ids)) }
        ensures memory { OnErr result (MayCarryData datagram.now) }
    {
        fw_wrapper::laws::one_frame();
        fw_apdu::laws::one_response();
        match response_in(alloc, datagram)? {
            Some(response) => Ok(self.answer(response)),
            None => Ok(None),
        }
    }

    /// The id of the ask that a response answers, and what is heard by it.
    fn answer(&self, response: Response) -> Option<(u8, Heard)>
        ensures answered { Finds (λ x. AnsweredBy self.now (response_invoke response) (response_content response) x.0 x.1) result }
        ensures within { IfSome result (λ x. x.0 < invoke_ids) }
    {
        let (id, asked) = self.asked_by(invoke_of(&response))?;
        let heard = matched(self.meter, asked, response)?;
        Some((id, heard))
    }

    /// The id of an invoke byte, and what is outstanding there.
    fn asked_by(&self, invoke: Invoke) -> Option<(u8, Asked)>
        ensures asked { Finds (λ x. (get self.now.asks x.0 ≡ Some x.1) × (invoke.0 ≡ invoke_byte x.0)) result }
        ensures within { IfSome result (λ x. x.0 < invoke_ids) }
    {
        let id = invoke.0.checked_sub(FIRST_INVOKE)?;
        let asked = self.outstanding.at(id)?;
        Some((id, asked))
    }
}
