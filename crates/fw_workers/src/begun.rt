//! How many threads are there.

ghost use Rattle.std.specs.Prelude.{◌≡◌};
ghost use Rattle.std.specs.Vec.{vec_len};

use crate::seating::Outcome;
use std::thread::{Promise, PromisedHandle};

/// That this many threads of workers are there. It is made of their handles alone, and no worker is made without one.
#[derive(Clone, Copy)]
pub(crate) struct Begun {
    threads: usize,
}

impl Begun {
    /// With these threads, each of which will leave what a worker leaves.
    pub(crate) fn with<P: Promise<Outcome>>(threads: &Vec<PromisedHandle<Outcome, P>>) -> Begun
        ensures { result.threads ≡ vec_len threads.now }
    {
        Begun {
            threads: threads.len(),
        }
    }

    /// How many threads are there.
    pub(crate) fn threads(self) -> usize
        ensures { result ≡ self.threads }
    {
        self.threads
    }
}
