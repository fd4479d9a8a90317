//! Why nothing is let through of a datagram that came, and how many datagrams were dropped.

ghost use Rattle.std.specs.Prelude.{◌≡◌};
ghost use Rattle.fw_sealport.specs.Counts.{one_more, opening_error, refused, unopened, unsealed};

use fw_seal::OpenError;
use std::alloc::AllocError;

/// Why nothing is let through of a datagram that came. If several would apply, the first of them comes, or `OutOfMemory` in place of
/// `NotSealed` or `Repeated`.
#[derive(Clone, Copy, Debug)]
pub enum Unopened {
    /// There is no link with the address that it came from.
    Stranger,
    /// It carries no sealing by the other end of the link: it is plain, forged, changed, of another link, or no datagram.
    NotSealed,
    /// The counter isn't new.
    Repeated,
    /// Memory was refused.
    OutOfMemory,
}

impl From<OpenError> for Unopened {
    ghost from_gives = { λ error e. e ≡ opening_error error };

    fn from(error: OpenError) -> Unopened {
        match error {
            OpenError::NotSealed => Unopened::NotSealed,
            OpenError::OutOfMemory => Unopened::OutOfMemory,
        }
    }
}

impl From<AllocError> for Unopened {
    ghost use Rattle.fw_sealport.specs.declared.dropped.Unopened.TheVariants as unopened_for;

    ghost from_gives = { λ _ e. e ≡ unopened_for.OutOfMemory };

    fn from(_error: AllocError) -> Unopened {
        Unopened::OutOfMemory
    }
}

/// How many datagrams a port dropped since it was made, each number up to 2^64 - 1.
#[derive(Clone, Copy, Debug, PartialEq, Eq)]
pub struct Dropped {
    /// Those that came from addresses without a link.
    pub strangers: u64,
    /// Those that came and didn't open.
    pub unopened: u64,
    /// Those that came and opened, with a counter that isn't new.
    pub repeated: u64,
    /// Those that came, for which memory was refused.
    pub unserved: u64,
    /// Those that were to be sent.
    pub unsealed: u64,
}

impl Dropped {
    /// None was dropped.
    pub(crate) fn none() -> Dropped
        ensures { result ≡ record { strangers = 0; unopened = 0; repeated = 0; unserved = 0; unsealed = 0 } }
    {
        Dropped {
            strangers: 0,
            unopened: 0,
            repeated: 0,
            unserved: 0,
            unsealed: 0,
        }
    }

    /// How many came and weren't let through for another reason than memory, up to 2^64 - 1.
    pub(crate) fn refused(&self) -> u64
        ensures { result ≡ refused self.now }
    {
        let unlinked = self.strangers.saturating_add(self.unopened);
        unlinked.saturating_add(self.repeated)
    }

    /// Counts a datagram that came.
    pub(crate) fn count_unopened(&mut self, reason: Unopened)
        ensures { self.new ≡ unopened reason self.old }
    {
        match reason {
            Unopened::Stranger => count(&mut self.strangers),
            Unopened::NotSealed => count(&mut self.unopened),
            Unopened::Repeated => count(&mut self.repeated),
            Unopened::OutOfMemory => count(&mut self.unserved),
        }
    }

    /// Counts a datagram that was to be sent.
    pub(crate) fn count_unsealed(&mut self)
        ensures { self.new ≡ unsealed self.old }
    {
        count(&mut self.unsealed);
    }
}

/// Counts one more.
fn count(counter: &mut u64)
    ensures { counter.new ≡ one_more counter.old }
{
    *counter = counter.saturating_add(1);
}
