//! A worker at its gate.

ghost use Rattle.std.specs.Prelude.{◌≡◌, IfErr};
ghost use Rattle.fw_workers.specs.Seated.{HasLooked};

use crate::begun::Begun;
use crate::error::RoundsError;
use crate::gate::Gate;
use crate::seating::Job;
use fw_shared::{Board, Seat};
use std::marker::Model;

/// A worker: its number, its seat, and the gate that it asks before each event.
#[derive(Drop)]
pub struct Worker<'a, G: Gate> {
    number: u32,
    pub(crate) seat: Seat,
    gate: &'a G,
    /// How often it was at the gate.
    step: u64,
}

// Contracts see its seat.
impl<'a, G: Gate> Model for Worker<'a, G> {
    ghost use Rattle.fw_shared.specs.Seat as seating;

    ghost Value = { seating.Seat };

    ghost view = { λ w. w.seat };
}

impl<'a, G: Gate> Worker<'a, G> {
    /// The worker of this job, which was not at this gate yet, and its share. It asks that as many threads are there as there are workers.
    pub(crate) fn of<H: Drop>(job: Job<H>, gate: &'a G, begun: Begun) -> (Worker<'a, G>, H)
        requires { begun.threads ≡ job.workers }
        ensures seat { result.0 ≡ job.seat }
        ensures share { result.1 ≡ job.share }
    {
        let _threads = begun;
        let Job {
            number,
            seat,
            share,
            ..
        } = job;
        let worker = Worker {
            number,
            seat,
            gate,
            step: 0,
        };
        (worker, share)
    }

    /// Asks the gate whether it may make its next event.
    pub(crate) fn enter(&mut self, board: &Board) -> Result<(), RoundsError>
        requires { self.old.board ≡ board.now.id }
        ensures looked { HasLooked self.old self.new }
        ensures shut { IfErr result (λ e. (e ≡ RoundsError.GateShut) × G.may_shut) }
    {
        let done = board.seen(&mut self.seat);
        let is_open = self.gate.pass(self.number, self.step, done);
        self.step = self.step.saturating_add(1);
        if is_open {
            Ok(())
        } else {
            Err(RoundsError::GateShut)
        }
    }

    /// Its seat.
    pub(crate) fn into_seat(self) -> Seat
        ensures { result ≡ self.entry }
    {
        self.seat
    }
}
