//! The rounds of a worker of a rehearsal, in which datagrams come by their fates.

ghost use Rattle.std.specs.Prelude.{◌≡◌, IfErr};
ghost use Rattle.fw_workers.specs.Ends.{EndsUnder};

use crate::error::RoundsError;
use crate::gate::Gate;
use crate::shared_world::SharedWorld;
use crate::worker::Worker;
use fw_air::{Fates, LinkQueue, LinkSteps, Sent, link_round};
use std::alloc::Global;
use std::sync::Wait;

/// A link that was dealt to a worker.
#[derive(Drop)]
pub(crate) struct FatedLink {
    queue: LinkQueue,
    /// What the head end sent when it last ticked the meter. All else that comes on the link are replies.
    asked: Sent,
}

impl FatedLink {
    /// A link on which nothing was sent.
    pub(crate) fn new(queue: LinkQueue) -> FatedLink {
        FatedLink {
            queue,
            asked: Sent {
                event: 0,
                first: 0,
                count: 0,
            },
        }
    }

    /// Whether the datagram of this number is for the meter.
    fn is_for_meter(&self, number: usize) -> bool {
        self.asked.first <= number && number - self.asked.first < self.asked.count
    }

    /// Of the datagrams that were sent, those that come now by these fates, each as often as it comes.
    fn pass(
        &mut self,
        alloc: Global,
        fates: &Fates<'_>,
        sent: &[Sent],
    ) -> Result<Vec<usize>, RoundsError>
        ensures { IfErr result (λ e. e ≡ RoundsError.OutOfMemory) }
    {
        let mut all = Vec::new(alloc);
        for part in sent {
            let end = part.first.saturating_add(part.count);
            let coming = self.queue.pass(alloc, fates, part.first, end)?;
            all.extend_from_slice(&coming)?;
        }
        Ok(all)
    }
}

/// A worker, and the world that it shares with the others: it makes the steps of its rounds there.
#[derive(Drop)]
pub(crate) struct FatedSteps<'a, 'w, R: Wait, G: Gate> {
    pub(crate) rt: &'a R,
    pub(crate) shared: &'a SharedWorld,
    pub(crate) worker: &'a mut Worker<'w, G>,
}

impl<'a, 'w, R: Wait, G: Gate> FatedSteps<'a, 'w, R, G> {
    /// `rounds` rounds of these links.
    pub(crate) fn rounds(
        &mut self,
        alloc: Global,
        links: &mut [FatedLink],
        rounds: u32,
        fates: &Fates<'_>,
    ) -> Result<(), RoundsError>
        requires { self.old.worker.now.board ≡ self.old.shared.now.board.id }
        ensures worker { self.new.worker.ghost_name ≡ self.old.worker.ghost_name }
        ensures board { self.new.worker.now.board ≡ self.old.worker.now.board }
        ensures end { EndsUnder G.may_shut result }
    {
        'rounds: for _ in 0..rounds {
            'links: for link in links.iter_mut() {
                link_round(self, alloc, link, fates)?;
            }
        }
        Ok(())
    }

    /// These datagrams come: what was sent by it, in order.
    fn deliver_all(
        &mut self,
        alloc: Global,
        link: &FatedLink,
        numbers: &[usize],
    ) -> Result<Vec<Sent>, RoundsError>
        requires { self.old.worker.now.board ≡ self.old.shared.now.board.id }
        ensures shared { self.new.shared ≡ self.old.shared }
        ensures worker { self.new.worker.ghost_name ≡ self.old.worker.ghost_name }
        ensures board { self.new.worker.now.board ≡ self.old.worker.now.board }
        ensures end { EndsUnder G.may_shut result }
    {
        let mut sent = Vec::new(alloc);
        for number in numbers {
            if link.is_for_meter(*number) {
                let meter = link.queue.meter();
                sent.push(
                    self.shared
                        .serve(self.rt, alloc, self.worker, meter, *number)?,
                )?;
            } else {
                let head = link.queue.head();
                self.shared
                    .hear(self.rt, alloc, self.worker, head, *number)?;
            }
        }
        Ok(sent)
    }
}

impl<'a, 'w, R: Wait, G: Gate> LinkSteps for FatedSteps<'a, 'w, R, G> {
    ghost use Rattle.std.specs.Prelude.{◌≡◌};
    ghost use Rattle.fw_workers.specs.Ends.{IsOfEvent};
    ghost use Rattle.fw_workers.specs.declared.error.RoundsError.TheVariants as unaccounted;

    type Link = FatedLink;

    /// What was sent by each of its events.
    type Sent = Vec<Sent>;

    type Refusal = RoundsError;

    ghost ready = { λ steps _. steps.worker.now.board ≡ steps.shared.now.board.id };

    ghost goes_on = { λ start steps.
        (steps.worker.ghost_name ≡ start.worker.ghost_name) × (steps.worker.now.board ≡ start.worker.now.board) };

    ghost refuses = { λ e. IsOfEvent e × (e ≡ unaccounted.GateShut → G.may_shut) };

    fn begin(&mut self, alloc: Global, link: &mut FatedLink) -> Result<Vec<Sent>, RoundsError> {
        let late = link.queue.take_late(alloc);
        let mut sent = self.deliver_all(alloc, link, &late)?;
        let (head, meter) = (link.queue.head(), link.queue.meter());
        let asked = self.shared.tick(self.rt, alloc, self.worker, head, meter)?;
        link.asked = asked;
        sent.push(asked)?;
        Ok(sent)
    }

    fn pass(
        &mut self,
        alloc: Global,
        link: &mut FatedLink,
        fates: &Fates<'_>,
        sent: Vec<Sent>,
    ) -> Result<Vec<Sent>, RoundsError> {
        let coming = link.pass(alloc, fates, &sent)?;
        self.deliver_all(alloc, link, &coming)
    }

    fn turn(&mut self, alloc: Global, link: &FatedLink) -> Result<(), RoundsError> {
        self.shared
            .turn(self.rt, alloc, self.worker, link.queue.meter())
    }
}
