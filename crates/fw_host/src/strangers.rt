//! Strangers of a daemon, whose datagrams its capture counts.

ghost use Rattle.std.specs.Prelude.{◌≡◌, IfOk, IsSome, None, not};
ghost use Rattle.fw_daemon.specs.Daemon.{one_more};
ghost use Rattle.fw_host.specs.Strangers.{AreAddresses, AreAddressesOf, is_listed_at, is_stranger, is_strange};

use fw_rollout::Listed;
use std::alloc::{AllocError, Global};
use std::collections::HashSet;
use std::net::SocketAddr;

/// Who is a stranger to a daemon, and how many datagrams of strangers came since the last record of its capture.
#[derive(Drop)]
pub struct Strangers {
    /// The addresses that are none of a stranger. Without them nobody is one.
    known: Option<HashSet<SocketAddr>>,
    /// Whether datagrams of strangers are recorded too.
    are_recorded: bool,
    /// How many of them came since the last record, and have none.
    count: u64,
}

impl Strangers {
    /// Nobody is a stranger.
    pub fn none() -> Strangers
        ensures known { result.known ≡ None }
        ensures count { result.count ≡ 0 }
    {
        Strangers {
            known: None,
            are_recorded: false,
            count: 0,
        }
    }

    /// Those to a meter: who hasn't one of these addresses, if there are any.
    ///
    /// # Errors
    ///
    /// `AllocError` if memory was refused.
    pub fn of_meter(
        alloc: Global,
        heads: &[SocketAddr],
        are_recorded: bool,
    ) -> Result<Strangers, AllocError>
        ensures known { IfOk result (λ s. (address : SocketAddr) → is_stranger s.known address ≡ is_strange heads.now address) }
        ensures recorded { IfOk result (λ s. s.count ≡ 0) }
        ensures option { IfOk result (λ s. IsSome s.known → s.are_recorded ≡ are_recorded) }
    {
        if heads.is_empty() {
            return Ok(Strangers::none());
        }
        Ok(Strangers {
            known: Some(addresses(alloc, heads)?),
            are_recorded,
            count: 0,
        })
    }

    /// Those to a head end: who hasn't the address of one of these meters.
    ///
    /// # Errors
    ///
    /// `AllocError` if memory was refused.
    pub fn of_head(
        alloc: Global,
        list: &[Listed],
        are_recorded: bool,
    ) -> Result<Strangers, AllocError>
        ensures known { IfOk result (λ s. (address : SocketAddr) → is_stranger s.known address ≡ not (is_listed_at list.now address)) }
        ensures recorded { IfOk result (λ s. s.count ≡ 0) }
        ensures option { IfOk result (λ s. s.are_recorded ≡ are_recorded) }
    {
        Ok(Strangers {
            known: Some(addresses_of(alloc, list)?),
            are_recorded,
            count: 0,
        })
    }

    /// Whether who has this address is one.
    pub(crate) fn has(&self, address: SocketAddr) -> bool
        ensures { result ≡ is_stranger self.now.known address }
    {
        match &self.known {
            Some(known) => !known.contains(&address),
            None => false,
        }
    }

    /// Whether their datagrams are recorded.
    pub(crate) fn are_recorded(&self) -> bool
        ensures { result ≡ self.now.are_recorded }
    {
        self.are_recorded
    }

    /// How many of their datagrams have no record since the last one.
    pub(crate) fn count(&self) -> u64
        ensures { result ≡ self.now.count }
    {
        self.count
    }

    /// Counts a datagram of one, which gets no record.
    pub(crate) fn count_one(&mut self)
        ensures { self.new ≡ record self.old { count = one_more self.old.count } }
    {
        self.count = self.count.saturating_add(1);
    }

    /// Counts from none on, since the capture says how many came.
    pub(crate) fn count_anew(&mut self)
        ensures { self.new ≡ record self.old { count = 0 } }
    {
        self.count = 0;
    }
}

/// The set of these addresses.
fn addresses(alloc: Global, heads: &[SocketAddr]) -> Result<HashSet<SocketAddr>, AllocError>
    ensures { IfOk result (λ known. AreAddresses known heads.now) }
{
    let mut known = HashSet::new(alloc);
    for address in heads {
        known.insert(*address)?;
    }
    Ok(known)
}

/// The set of the addresses of these meters.
fn addresses_of(alloc: Global, list: &[Listed]) -> Result<HashSet<SocketAddr>, AllocError>
    ensures { IfOk result (λ known. AreAddressesOf known list.now) }
{
    let mut known = HashSet::new(alloc);
    for at in list {
        known.insert(at.address)?;
    }
    Ok(known)
}
