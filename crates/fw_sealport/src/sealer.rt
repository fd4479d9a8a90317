//! What an end seals with.

ghost use Rattle.std.specs.Prelude.{◌≡◌, ◌<◌, IfErr, IfOk, OnErr, OnOk, None};
ghost use Rattle.fw_counter.specs.Counters.{IsKept, counter_of};
ghost use Rattle.fw_counter.specs.Moves.{limit};
ghost use Rattle.fw_sealport.specs.Sealed.{SealsPlain};
ghost use Rattle.fw_sealport.specs.Sealing.{Unused, UsesCounter, WhyNoCounter, WhyUnsealed, fault_after, next_of};

use crate::unsealed::Unsealed;
use crate::wire::{plain_apdu, seal_apdu};
use fw_counter::{CounterError, KeptCounters};
use fw_journal::JournalDevice;
use fw_seal::Link;
use std::alloc::Global;

/// What an end seals with: one series of counters for all of its links, each of which is reserved on a device before it is used, and used
/// once.
#[derive(Drop)]
pub(crate) struct Sealer<D: JournalDevice + Drop> {
    counters: KeptCounters<D>,
    /// Why no counter is given any more.
    fault: Option<CounterError>,
}

impl<D: JournalDevice + Drop> Sealer<D> {
    /// It seals with these counters.
    pub(crate) fn new(counters: KeptCounters<D>) -> Sealer<D>
        ensures { result ≡ record { counters = counters; fault = None } }
    {
        Sealer {
            counters,
            fault: None,
        }
    }

    /// Why no counter is given any more, if it is so.
    pub(crate) fn fault(&self) -> Option<CounterError>
        ensures { result ≡ self.now.fault }
    {
        self.fault
    }

    /// The datagram that is sent in place of a plain one, under this link, with the next counter, which is used by that.
    ///
    /// # Errors
    ///
    /// Those of [`Unsealed`], but for `Stranger`. A counter may be used all the same. If none was given, the sealer has that fault from
    /// then on, unless it was for memory.
    pub(crate) fn seal(
        &mut self,
        alloc: Global,
        link: &Link,
        datagram: &[u8],
    ) -> Result<Vec<u8>, Unsealed>
        ensures sealed { IfOk result (λ wire. SealsPlain link.now (next_of self.old) datagram.now wire.items) }
        ensures uses { OnOk result (UsesCounter D.JournalDevice self.old self.new) }
        ensures refused { IfErr result (λ e. WhyUnsealed D.JournalDevice link.now self.old datagram.now e) }
        ensures unused { IfErr result (λ e. Unused D.JournalDevice self.old e self.new) }
    {
        fw_wrapper::laws::one_frame();
        let Some(apdu) = plain_apdu(datagram) else {
            return Err(Unsealed::NotPlain);
        };
        let number = self.take(alloc)?;
        seal_apdu(link, alloc, number, apdu)
    }

    /// The next counter, which is used by that.
    fn take(&mut self, alloc: Global) -> Result<u32, CounterError>
        ensures given { IfOk result (λ number. number ≡ next_of self.old) }
        ensures below { IfOk result (λ number. number < limit) }
        ensures uses { OnOk result (UsesCounter D.JournalDevice self.old self.new) }
        ensures why { IfErr result (λ e. WhyNoCounter D.JournalDevice self.old.counters e) }
        ensures same { OnErr result (counter_of self.new.counters ≡ counter_of self.old.counters) }
        ensures kept { IsKept D.JournalDevice self.old.counters → IsKept D.JournalDevice self.new.counters }
        ensures fault { IfErr result (λ e. self.new.fault ≡ fault_after e self.old.fault) }
    {
        match self.counters.take(alloc) {
            Ok(number) => Ok(number),
            Err(error) => {
                self.fault = fault_after(error, self.fault);
                Err(error)
            }
        }
    }
}

/// The fault of a sealer that had this one, after no counter was given.
fn fault_after(error: CounterError, fault: Option<CounterError>) -> Option<CounterError>
    ensures { result ≡ fault_after error fault }
{
    match error {
        CounterError::NoCounter | CounterError::CounterFault | CounterError::CounterSpent => {
            Some(error)
        }
        CounterError::OutOfMemory => fault,
    }
}
