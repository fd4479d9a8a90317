//! The start of the workers, for which each of them waits.

ghost use Rattle.std.specs.Prelude.{◌≡◌, [], IfSome};

use crate::begun::Begun;
use crate::error::RoundsError;
use crate::seating::{Job, Outcome};
use std::sync::{Condvar, Mutex, Wait};
use std::thread::{Promise, PromisedHandle};

/// Whether the workers begin, and with how many threads, once this is decided.
#[derive(Drop)]
pub(crate) struct Start {
    told: Mutex<Option<Option<Begun>>>,
    changed: Condvar,
}

impl Start {
    /// Nothing is decided yet.
    pub(crate) fn new() -> Start {
        Start {
            told: Mutex::new(None),
            changed: Condvar::new(),
        }
    }

    /// Decides whether the workers begin, and wakes them.
    fn tell<R: Wait>(&self, rt: &R, begun: Option<Begun>) {
        *self.told.lock(rt) = Some(begun);
        self.changed.notify_all();
    }

    /// Waits until it is decided whether the workers begin: they do where as many threads are there as there are workers.
    pub(crate) fn waits<R: Wait>(&self, rt: &R, workers: usize) -> Option<Begun>
        ensures { IfSome result (λ begun. begun.threads ≡ workers) }
    {
        let told = self
            .changed
            .wait_while(rt, self.told.lock(rt), |told| told.is_none());
        match *told {
            Some(Some(begun)) if begun.threads() == workers => Some(begun),
            _ => None,
        }
    }
}

/// The duty to decide whether the workers begin. It can't be dropped without that, so that none waits for ever.
pub(crate) struct Starter<'a> {
    start: &'a Start,
}

impl<'a> Starter<'a> {
    /// Of this start.
    pub(crate) fn of(start: &'a Start) -> Starter<'a> {
        Starter { start }
    }

    /// Decides that the workers begin, whose threads these are. It asks that none is left whose thread is not there.
    pub(crate) fn begin<R: Wait, H: Drop, P: Promise<Outcome>>(
        self,
        rt: &R,
        _left: &[Job<H>],
        threads: &Vec<PromisedHandle<Outcome, P>>,
    )
        requires { _left.now ≡ [] }
    {
        let Starter { start } = self;
        start.tell(rt, Some(Begun::with(threads)));
    }

    /// Decides that the workers don't begin, and returns why.
    pub(crate) fn refuse<R: Wait>(self, rt: &R, why: RoundsError) -> RoundsError
        ensures { result ≡ why }
    {
        let Starter { start } = self;
        start.tell(rt, None);
        why
    }
}
