//! Head ends and meters, all datagrams that were ever sent, and all images that meters ever switched to.

ghost use Rattle.std.specs.Prelude.{◌≡◌, ◌≤◌, IsErrOf, IfOk, IfErr, OnOk, OnErr, IfSome, Some, None};
ghost use Rattle.std.specs.Option.{option_map};
ghost use Rattle.fw_names.specs.Name.{IsOpened};

use crate::activation::Activation;
use crate::datagram::{Datagram, Direction};
use crate::error::{SetupError, StepError};
use crate::event::Event;
use crate::heads::Heads;
use crate::laws;
use crate::lists::{
    all_there, note, reply, room_to_note, room_to_reply, room_to_send, send, sent_at,
};
use crate::meters::Meters;
use crate::opening::{heads_of, meters_of};
use crate::parts::Parts;
use crate::setup::Setup;
use fw_book::Book;
use fw_meter::MeterCore;
use fw_names::{CampaignId, HeadId, MeterId};
use fw_store::MemoryStore;
use std::alloc::Global;
use std::marker::Model;

/// Head ends and meters, in the order of their setup, with all that was ever sent and switched to.
pub struct World {
    heads: Heads,
    meters: Meters,
    sent: Vec<Datagram>,
    activations: Vec<Activation>,
}

// Written out, so that letting go of it is one call in a proof. A derived `Drop` is unfolded there field by field, which takes minutes.
impl Drop for World {
    fn drop(self) {
        let World {
            heads: _,
            meters: _,
            sent: _,
            activations: _,
        } = self;
    }
}

impl Model for World {
    ghost use Rattle.std.specs.Coded.{codes};
    ghost use Rattle.std.specs.FinMap.{code};
    ghost use Rattle.fw_image.specs.Meter.{cells_code};
    ghost use Rattle.fw_world.specs.State.{State};
    ghost use Rattle.fw_world.specs.Private.{IsWorld};

    ghost Value = { State };

    ghost coded = { Prim.hlevel (codes, code, cells_code) };

    ghost view = { λ w. record { heads = w.heads; meters = w.meters; sent = w.sent.items; activations = w.activations.items } };

    ghost invariant = { λ w. IsWorld (record { heads = w.heads; meters = w.meters; sent = w.sent.items; activations = w.activations.items }) };
}

impl World {
    ghost use Rattle.fw_world.specs.Laws.{IsSafeWorld};
    ghost use Rattle.fw_world.specs.Headline.{IsFactoryName};
    ghost use Rattle.fw_world.specs.Refusals.{IsRefused, refusal_of};
    ghost use Rattle.fw_world.specs.Parts.{IsOnce, state_of};
    ghost use Rattle.fw_world.specs.Setup.{IsSetup, opening_state};
    ghost use Rattle.fw_world.specs.State.{IsState, StateStep, head_at, meter_at, world_of};
    ghost use Rattle.fw_world.specs.Step.{
      WorldStep,
      open_campaign,
      cancel_campaign,
      tick,
      deliver,
      stop,
      restart_meter,
      stop_restart,
      restart_head,
      turn,
    };
    ghost use Rattle.fw_world.specs.View.{event_of};
    ghost use Rattle.fw_world.specs.Private.{IsSound, IsSentTo};
    ghost use Rattle.fw_world.specs.declared.datagram.Direction.TheVariants.{ToMeter, ToHead};

    /// A world of new head ends and meters: nothing was opened, sent or switched to.
    ///
    /// # Errors
    ///
    /// `BadSetup` if a world can't be made so, and otherwise `OutOfMemory` alone.
    pub fn new(alloc: Global, setup: &Setup) -> Result<World, SetupError>
        ensures opening { IfOk result (λ w. w ≡ opening_state setup.now) }
        ensures setup { OnOk result (IsSetup setup.now) }
        ensures bad_setup { IsErrOf result SetupError.BadSetup → ¬ IsSetup setup.now }
        ensures memory { IsErrOf result SetupError.OutOfMemory → IsSetup setup.now }
    {
        if !setup.is_valid() {
            return Err(SetupError::BadSetup);
        }
        Ok(World {
            heads: heads_of(alloc, &setup.heads)?,
            meters: meters_of(alloc, &setup.meters)?,
            sent: Vec::new(alloc),
            activations: Vec::new(alloc),
        })
    }

    /// An event.
    ///
    /// # Errors
    ///
    /// `NoSuchDatagram`, `NoSuchActor` or `Book`, the first that applies. Otherwise `OutOfMemory` alone, and only of an opening; of
    /// a tick for a meter with a live row; of a delivery to a head end where the sender's live row may take memory for it; and of a
    /// delivery to a meter, or a stop, where the meter may take memory for the datagram, or holds a verified image. The world is
    /// then as it was.
    pub fn step(&mut self, alloc: Global, event: &Event) -> Result<(), StepError>
        ensures stepped { OnOk result (StateStep self.old (event_of event.now) self.new) }
        ensures world { OnOk result (WorldStep (world_of self.old) (event_of event.now) (world_of self.new)) }
        ensures safe { OnOk result (IsSafeWorld IsFactoryName (world_of self.old) → IsSafeWorld IsFactoryName (world_of self.new)) }
        ensures admitted { OnOk result (refusal_of self.old (event_of event.now) ≡ None) }
        ensures refused { IfErr result (IsRefused self.old (event_of event.now)) }
        ensures same { OnErr result (self.new ≡ self.old) }
    {
        laws::state_steps_as_world();
        laws::every_step_is_safe();
        // For its clauses alone: each head end has its own number.
        let _sent = self.sent();
        self.make(alloc, event)
    }

    /// An event, as the head end or the meter makes it.
    fn make(&mut self, alloc: Global, event: &Event) -> Result<(), StepError>
        ensures stepped { OnOk result (StateStep self.old (event_of event.now) self.new) }
        ensures admitted { OnOk result (refusal_of self.old (event_of event.now) ≡ None) }
        ensures refused { IfErr result (IsRefused self.old (event_of event.now)) }
        ensures same { OnErr result (self.new ≡ self.old) }
    {
        match event {
            Event::OpenCampaign {
                campaign,
                release,
                image,
                meters,
            } => self.open_campaign(alloc, *campaign, *release, image, meters),
            Event::CancelCampaign(campaign) => self.cancel_campaign(*campaign),
            Event::Tick(head, meter) => self.tick(alloc, *head, *meter),
            Event::Deliver(datagram) => self.deliver(alloc, *datagram),
            Event::Stop {
                datagram,
                calls,
                torn,
            } => self.stop(alloc, *datagram, *calls, *torn),
            Event::RestartMeter(meter) => self.restart_meter(*meter),
            Event::StopRestart { meter, calls, torn } => self.stop_restart(*meter, *calls, *torn),
            Event::RestartHead(head) => self.restart_head(*head),
            Event::Turn(meter) => self.turn(*meter),
        }
    }

    /// A head end opens a campaign of its own.
    fn open_campaign(
        &mut self,
        alloc: Global,
        campaign: CampaignId,
        release: u32,
        image: &[u8],
        meters: &[MeterId],
    ) -> Result<(), StepError>
        ensures stepped { OnOk result (StateStep self.old (open_campaign campaign release image.now meters.now) self.new) }
        ensures admitted { OnOk result (refusal_of self.old (open_campaign campaign release image.now meters.now) ≡ None) }
        ensures refused { IfErr result (IsRefused self.old (open_campaign campaign release image.now meters.now)) }
        ensures same { OnErr result (self.new ≡ self.old) }
    {
        let Some(head) = self.heads.get_mut(head_number(campaign)) else {
            return Err(StepError::NoSuchActor);
        };
        if !all_there(&self.meters, meters) {
            return Err(StepError::NoSuchActor);
        }
        // For its clauses alone: the number of a head end begins at 1, and so the campaign is one.
        let _view = head.view();
        head.open_campaign(alloc, campaign.serial(), release, image, meters)?;
        Ok(())
    }

    /// A head end cancels a campaign of its own.
    fn cancel_campaign(&mut self, campaign: CampaignId) -> Result<(), StepError>
        ensures stepped { OnOk result (StateStep self.old (cancel_campaign campaign) self.new) }
        ensures admitted { OnOk result (refusal_of self.old (cancel_campaign campaign) ≡ None) }
        ensures refused { IfErr result (IsRefused self.old (cancel_campaign campaign)) }
        ensures same { OnErr result (self.new ≡ self.old) }
    {
        let Some(head) = self.heads.get_mut(head_number(campaign)) else {
            return Err(StepError::NoSuchActor);
        };
        // For its clauses alone: the number of a head end begins at 1, and so the campaign is one.
        let _view = head.view();
        head.cancel(campaign.serial())?;
        Ok(())
    }

    /// A head end sends to a meter what it has for it now.
    fn tick(&mut self, alloc: Global, head: HeadId, meter: MeterId) -> Result<(), StepError>
        ensures stepped { OnOk result (StateStep self.old (tick head meter) self.new) }
        ensures admitted { OnOk result (refusal_of self.old (tick head meter) ≡ None) }
        ensures refused { IfErr result (IsRefused self.old (tick head meter)) }
        ensures same { OnErr result (self.new ≡ self.old) }
    {
        let Some(core) = self.heads.get_mut(head.number()) else {
            return Err(StepError::NoSuchActor);
        };
        if !self.meters.contains_key(meter.number()) {
            return Err(StepError::NoSuchActor);
        }
        room_to_send(&mut self.sent, core, meter)?;
        let sends = core.tick(alloc, meter)?;
        send(&mut self.sent, head, meter, sends);
        Ok(())
    }

    /// A datagram comes to its addressee.
    fn deliver(&mut self, alloc: Global, number: usize) -> Result<(), StepError>
        ensures stepped { OnOk result (StateStep self.old (deliver number) self.new) }
        ensures admitted { OnOk result (refusal_of self.old (deliver number) ≡ None) }
        ensures refused { IfErr result (IsRefused self.old (deliver number)) }
        ensures same { OnErr result (self.new ≡ self.old) }
    {
        let Some(datagram) = sent_at(&self.sent, number) else {
            return Err(StepError::NoSuchDatagram);
        };
        match datagram.direction {
            Direction::ToMeter => self.serve(alloc, number),
            Direction::ToHead => self.hear(alloc, number),
        }
    }

    /// A meter handles a datagram: its reply is sent, and an image that it switches to is noted.
    fn serve(&mut self, alloc: Global, number: usize) -> Result<(), StepError>
        requires { IsSentTo self.old.sent number ToMeter }
        ensures stepped { OnOk result (StateStep self.old (deliver number) self.new) }
        ensures admitted { OnOk result (refusal_of self.old (deliver number) ≡ None) }
        ensures refused { IfErr result (IsRefused self.old (deliver number)) }
        ensures same { OnErr result (self.new ≡ self.old) }
    {
        let Some(datagram) = sent_at(&self.sent, number) else {
            unreachable!()
        };
        let (head, meter) = (datagram.head, datagram.meter);
        let Some(seat) = self.meters.get_mut(meter.number()) else {
            return Err(StepError::NoSuchActor);
        };
        room_to_reply(alloc, &mut self.sent, number)?;
        room_to_note(&mut self.activations, seat)?;
        let Some(datagram) = sent_at(&self.sent, number) else {
            unreachable!()
        };
        let served = seat.handle(alloc, &datagram.bytes)?;
        reply(&mut self.sent, head, meter, served.reply);
        note(&mut self.activations, meter, served.switched);
        Ok(())
    }

    /// A head end hears a datagram of a meter.
    fn hear(&mut self, alloc: Global, number: usize) -> Result<(), StepError>
        requires { IsSentTo self.old.sent number ToHead }
        ensures stepped { OnOk result (StateStep self.old (deliver number) self.new) }
        ensures admitted { OnOk result (refusal_of self.old (deliver number) ≡ None) }
        ensures refused { IfErr result (IsRefused self.old (deliver number)) }
        ensures same { OnErr result (self.new ≡ self.old) }
    {
        let Some(datagram) = sent_at(&self.sent, number) else {
            unreachable!()
        };
        let Some(head) = self.heads.get_mut(datagram.head.number()) else {
            return Err(StepError::NoSuchActor);
        };
        // For its clauses alone: the live rows are those of the book.
        let _view = head.view();
        head.hear(alloc, datagram.meter, &datagram.bytes)?;
        Ok(())
    }

    /// A meter stops while it handles a datagram, and starts again: an image that it switched to is noted.
    fn stop(&mut self, alloc: Global, number: usize, calls: u64, torn: u8) -> Result<(), StepError>
        ensures stepped { OnOk result (StateStep self.old (stop number calls torn) self.new) }
        ensures admitted { OnOk result (refusal_of self.old (stop number calls torn) ≡ None) }
        ensures refused { IfErr result (IsRefused self.old (stop number calls torn)) }
        ensures same { OnErr result (self.new ≡ self.old) }
    {
        let Some(datagram) = sent_at(&self.sent, number) else {
            return Err(StepError::NoSuchDatagram);
        };
        let Direction::ToMeter = datagram.direction else {
            return Err(StepError::NoSuchActor);
        };
        let meter = datagram.meter;
        let Some(seat) = self.meters.get_mut(meter.number()) else {
            return Err(StepError::NoSuchActor);
        };
        room_to_note(&mut self.activations, seat)?;
        let switched = seat.stop(alloc, &datagram.bytes, calls, torn)?;
        note(&mut self.activations, meter, switched);
        Ok(())
    }

    /// A meter starts again.
    fn restart_meter(&mut self, meter: MeterId) -> Result<(), StepError>
        ensures stepped { OnOk result (StateStep self.old (restart_meter meter) self.new) }
        ensures admitted { OnOk result (refusal_of self.old (restart_meter meter) ≡ None) }
        ensures refused { IfErr result (IsRefused self.old (restart_meter meter)) }
        ensures same { OnErr result (self.new ≡ self.old) }
    {
        let Some(seat) = self.meters.get_mut(meter.number()) else {
            return Err(StepError::NoSuchActor);
        };
        seat.restart();
        Ok(())
    }

    /// A meter starts again and stops in it.
    fn stop_restart(&mut self, meter: MeterId, calls: u64, torn: u8) -> Result<(), StepError>
        ensures stepped { OnOk result (StateStep self.old (stop_restart meter calls torn) self.new) }
        ensures admitted { OnOk result (refusal_of self.old (stop_restart meter calls torn) ≡ None) }
        ensures refused { IfErr result (IsRefused self.old (stop_restart meter calls torn)) }
        ensures same { OnErr result (self.new ≡ self.old) }
    {
        let Some(seat) = self.meters.get_mut(meter.number()) else {
            return Err(StepError::NoSuchActor);
        };
        seat.stop_restart(calls, torn);
        Ok(())
    }

    /// A head end starts again.
    fn restart_head(&mut self, head: HeadId) -> Result<(), StepError>
        ensures stepped { OnOk result (StateStep self.old (restart_head head) self.new) }
        ensures admitted { OnOk result (refusal_of self.old (restart_head head) ≡ None) }
        ensures refused { IfErr result (IsRefused self.old (restart_head head)) }
        ensures same { OnErr result (self.new ≡ self.old) }
    {
        let Some(core) = self.heads.get_mut(head.number()) else {
            return Err(StepError::NoSuchActor);
        };
        core.restart();
        Ok(())
    }

    /// A meter goes on with what it verifies.
    fn turn(&mut self, meter: MeterId) -> Result<(), StepError>
        ensures stepped { OnOk result (StateStep self.old (turn meter) self.new) }
        ensures admitted { OnOk result (refusal_of self.old (turn meter) ≡ None) }
        ensures refused { IfErr result (IsRefused self.old (turn meter)) }
        ensures same { OnErr result (self.new ≡ self.old) }
    {
        let Some(seat) = self.meters.get_mut(meter.number()) else {
            return Err(StepError::NoSuchActor);
        };
        seat.turn();
        Ok(())
    }

    /// The meter of this number, if there is one. Its store gives what was written, and doesn't fail.
    pub fn meter(&self, meter: MeterId) -> Option<&MeterCore<MemoryStore>>
        ensures value { option_map (λ core. core.now.meter) result ≡ meter_at self.now meter }
        ensures sound { IfSome result (λ core. IsSound core.now) }
    {
        let seat = self.meters.get(meter.number())?;
        Some(seat.core())
    }

    /// The book of the head end of this number, if there is one.
    pub fn book(&self, head: HeadId) -> Option<&Book>
        ensures { option_map (λ book. book.now) result ≡ option_map (λ h. h.book) (head_at self.now head) }
    {
        let core = self.heads.get(head.number())?;
        Some(core.view().book)
    }

    /// All datagrams that were ever sent, in order.
    pub fn sent(&self) -> &[Datagram]
        ensures sent { result.now ≡ self.now.sent }

        // Each head end has its own number.
        ensures state { IsState self.now }
    {
        self.sent.as_slice()
    }

    /// The world of these parts. It takes no memory. Of the parts that `into_parts` returns it makes the same world again.
    pub fn from_parts(parts: Parts) -> World
        requires once { IsOnce (state_of parts) }
        ensures { result ≡ state_of parts }
    {
        World {
            heads: Heads::new(parts.heads),
            meters: Meters::new(parts.meters),
            sent: parts.sent,
            activations: parts.activations,
        }
    }

    /// Takes the world apart. It takes no memory.
    pub fn into_parts(self) -> Parts
        ensures parts { state_of result ≡ self }

        // No two head ends have one number, and no two meters.
        ensures once { IsOnce (state_of result) }
    {
        let World {
            heads,
            meters,
            sent,
            activations,
        } = self;
        Parts {
            heads: heads.into_vec(),
            meters: meters.into_vec(),
            sent,
            activations,
        }
    }

    /// All images that meters ever switched to, in order.
    pub fn activations(&self) -> &[Activation]
        ensures { result.now ≡ self.now.activations }
    {
        self.activations.as_slice()
    }
}

/// The number of the head end that opens a campaign, and 0 for the factory's, which none opens.
fn head_number(campaign: CampaignId) -> u32
    ensures value { result ≡ campaign.head }
    ensures opened { 1 ≤ result → IsOpened campaign }
{
    match campaign.head() {
        Some(head) => head.number(),
        None => 0,
    }
}
