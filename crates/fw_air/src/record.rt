//! A world, and all events that made it.

ghost use Rattle.std.specs.Prelude.{
  ◌≡◌,
  ◌<◌,
  ◌∷◌,
  [],
  List,
  All,
  None,
  IsTrue,
  false,
  IfErr,
  OnOk,
  OnErr,
  length,
  map,
  replicate,
};
ghost use Rattle.fw_world.specs.declared.error.StepError.TheVariants.{OutOfMemory};
ghost use Rattle.fw_world.specs.declared.runs.RunError.TheVariants as stopped;
ghost use Rattle.fw_world.specs.Refusals.{refusal_of};
ghost use Rattle.fw_world.specs.Runs.{events_of};
ghost use Rattle.fw_world.specs.Step.{Event as Given, deliver, turn};
ghost use Rattle.fw_world.specs.View.{event_of};
ghost use Rattle.fw_air.specs.Private.{Follows, GoesOn};
ghost use Rattle.fw_air.specs.Links.{AreSent, IsThere, link_of, queue_of};
ghost use Rattle.fw_air.specs.Queues.{HasFates, RoundHasFates, RoundsHaveFates};
ghost use Rattle.fw_air.specs.Rounds.{IsLinkRound, IsRound, OneByOne, last_turn};

use crate::fates::Fates;
use crate::links::LinkQueue;
use crate::rounds;
use crate::rounds::LinkSteps;
use crate::watch::Watch;
use fw_image::TransferStatus;
use fw_names::MeterId;
use fw_world::{Event, RunError, StepError, World, laws};
use std::alloc::Global;
use std::marker::Model;

/// A world that events led to, and these events.
pub(crate) struct Record {
    world: World,
    events: Vec<Event>,
}

// Written out, so that letting go of it is one call in a proof. A derived `Drop` is unfolded there field by field, which takes minutes.
impl Drop for Record {
    fn drop(self) {
        let Record {
            world: _,
            events: _,
        } = self;
    }
}

impl Model for Record {
    ghost use Rattle.std.specs.Coded.{codes};
    ghost use Rattle.std.specs.FinMap.{code};
    ghost use Rattle.fw_image.specs.Meter.{cells_code};
    ghost use Rattle.fw_world.specs.Runs.{events_of};
    ghost use Rattle.fw_air.specs.Private.{Recorded};

    ghost Value = { Recorded };

    ghost coded = { Prim.hlevel (codes, code, cells_code) };

    ghost view = { λ r. record { world = r.world; events = events_of r.events.items } };

    ghost use Rattle.fw_world.specs.State.{AreAddressed};

    ghost invariant = { λ r. AreAddressed r.world };
}

impl Record {
    ghost use Rattle.fw_world.specs.State.{AreAddressed};

    /// A world, and the events that led to it. Each datagram was sent between a head end and a meter that are there.
    pub(crate) fn new(world: World, events: Vec<Event>) -> Record
        requires { AreAddressed world }
        ensures { result ≡ record { world = world; events = events_of events.items } }
    {
        Record { world, events }
    }

    /// The world.
    pub(crate) fn world(&self) -> &World
        ensures value { result.now ≡ self.now.world }
        ensures addressed { AreAddressed result.now }
    {
        &self.world
    }

    /// The events.
    pub(crate) fn into_events(self) -> Vec<Event>
        ensures { events_of result.items ≡ self.events }
    {
        let Record { world: _, events } = self;
        events
    }

    /// What is returned where the next event was refused.
    pub(crate) fn refused(self, cause: StepError) -> RunError
        ensures { result ≡ stopped.Event (length self.events) self.world cause }
    {
        let Record { world, events } = self;
        RunError::Event {
            at: events.len(),
            world,
            cause,
        }
    }

    /// An event that is refused only if it is out of memory.
    fn admit(&mut self, alloc: Global, event: Event) -> Result<(), StepError>
        requires { refusal_of self.old.world (event_of event) ≡ None }
        ensures made { OnOk result (Follows self.old (event_of event ∷ []) self.new) }
        ensures memory { IfErr result (λ e. e ≡ OutOfMemory) }
        ensures same { OnErr result (self.new ≡ self.old) }
    {
        laws::sent_stays_addressed();
        self.events.reserve(1)?;
        self.world.step(alloc, &event)?;
        match self.events.push(event) {
            Ok(()) => Ok(()),
            Err(_) => unreachable!(),
        }
    }

    /// These datagrams come.
    fn deliver_all(&mut self, alloc: Global, datagrams: &[usize]) -> Result<(), StepError>
        requires { AreSent self.old.world datagrams.now }
        ensures all { OnOk result (Follows self.old (map deliver datagrams.now) self.new) }
        ensures memory { IfErr result (λ e. e ≡ OutOfMemory) }
        ensures goes_on { GoesOn self.old self.new }
    {
        for datagram in datagrams {
            self.deliver(alloc, *datagram)?;
        }
        Ok(())
    }

    /// A datagram comes.
    fn deliver(&mut self, alloc: Global, datagram: usize) -> Result<(), StepError>
        requires { datagram < length self.old.world.sent }
        ensures made { OnOk result (Follows self.old (deliver datagram ∷ []) self.new) }
        ensures memory { IfErr result (λ e. e ≡ OutOfMemory) }
        ensures same { OnErr result (self.new ≡ self.old) }
    {
        // Called for its clause: both ends of each link on which something was sent are in the world.
        let _world = self.world();
        self.admit(alloc, Event::Deliver(datagram))
    }

    /// `rounds` rounds of all links, each of which is seen once it is made.
    pub(crate) fn rounds<W: Watch>(
        &mut self,
        alloc: Global,
        links: &mut [LinkQueue],
        rounds: u32,
        fates: &Fates<'_>,
        watch: &W,
    ) -> Result<(), StepError>
        requires { All (IsThere self.old.world) links.old }
        ensures all { OnOk result ((events : List Given) × Follows self.old events self.new
            × OneByOne IsRound (replicate rounds (map link_of links.old)) self.old.world events self.new.world
            × RoundsHaveFates fates.now rounds (map queue_of links.old) self.old.world events self.new.world) }
        ensures memory { IfErr result (λ e. e ≡ OutOfMemory) }
        ensures goes_on { GoesOn self.old self.new }
    {
        for round in 0..rounds {
            self.round(alloc, links, fates)?;
            watch.round_made(round.saturating_add(1), &self.world);
        }
        Ok(())
    }

    /// A round of all links.
    fn round(
        &mut self,
        alloc: Global,
        links: &mut [LinkQueue],
        fates: &Fates<'_>,
    ) -> Result<(), StepError>
        requires { All (IsThere self.old.world) links.old }
        ensures all { OnOk result ((events : List Given) × Follows self.old events self.new
            × IsRound (map link_of links.old) self.old.world events self.new.world
            × RoundHasFates fates.now (map queue_of links.old) self.old.world events (map queue_of links.new) self.new.world) }
        ensures there { OnOk result (All (IsThere self.new.world) links.new) }
        ensures links { OnOk result (map link_of links.new ≡ map link_of links.old) }
        ensures memory { IfErr result (λ e. e ≡ OutOfMemory) }
        ensures goes_on { GoesOn self.old self.new }
    {
        laws::actors_stay();
        for link in links.iter_mut() {
            self.link_round(alloc, link, fates)?;
        }
        Ok(())
    }

    /// A round of a link. What a meter replies comes after all that waits, and goes to the head end, which replies nothing.
    fn link_round(
        &mut self,
        alloc: Global,
        link: &mut LinkQueue,
        fates: &Fates<'_>,
    ) -> Result<(), StepError>
        requires { IsThere self.old.world link.old }
        ensures all { OnOk result ((events : List Given) × Follows self.old events self.new
            × IsLinkRound (link_of link.old) self.old.world events self.new.world
            × HasFates fates.now (queue_of link.old) self.old.world events (queue_of link.new) self.new.world) }
        ensures late { OnOk result (AreSent self.new.world link.new.late.items) }
        ensures link { OnOk result (link_of link.new ≡ link_of link.old) }
        ensures memory { IfErr result (λ e. e ≡ OutOfMemory) }
        ensures goes_on { GoesOn self.old self.new }
    {
        rounds::link_round(self, alloc, link, fates)
    }

    /// Whether a meter goes on with a verification.
    fn verifies(&self, meter: MeterId) -> bool
        ensures turn { IsTrue result → last_turn self.now.world meter ≡ turn meter ∷ [] }
        ensures none { result ≡ false → last_turn self.now.world meter ≡ [] }
    {
        match self.world.meter(meter) {
            Some(core) => core.status() == TransferStatus::VerificationInitiated,
            None => false,
        }
    }
}

impl LinkSteps for Record {
    ghost use Rattle.std.specs.Prelude.{◌≡◌};
    ghost use Rattle.fw_world.specs.declared.error.StepError.TheVariants.{OutOfMemory};
    ghost use Rattle.fw_air.specs.Private.{GoesOn, HasBegun, HasPassed, HasTurned};
    ghost use Rattle.fw_air.specs.Links.{IsThere};

    type Link = LinkQueue;

    /// The number from which on it stands.
    type Sent = usize;

    type Refusal = StepError;

    ghost ready = { λ made link. IsThere made.world link };

    ghost begun = { HasBegun };

    ghost passed = { HasPassed };

    ghost turned = { HasTurned };

    ghost goes_on = { GoesOn };

    ghost refuses = { λ e. e ≡ OutOfMemory };

    fn begin(&mut self, alloc: Global, link: &mut LinkQueue) -> Result<usize, StepError> {
        laws::actors_stay();
        let from = self.world.sent().len();
        let late = link.take_late(alloc);
        self.deliver_all(alloc, &late)?;
        self.admit(alloc, Event::Tick(link.head, link.meter))?;
        Ok(from)
    }

    fn pass(
        &mut self,
        alloc: Global,
        link: &mut LinkQueue,
        fates: &Fates<'_>,
        sent: usize,
    ) -> Result<usize, StepError> {
        laws::actors_stay();
        let end = self.world.sent().len();
        let coming = link.pass(alloc, fates, sent, end)?;
        self.deliver_all(alloc, &coming)?;
        Ok(end)
    }

    fn turn(&mut self, alloc: Global, link: &LinkQueue) -> Result<(), StepError> {
        laws::actors_stay();
        if self.verifies(link.meter) {
            self.admit(alloc, Event::Turn(link.meter))?;
        }
        Ok(())
    }
}
