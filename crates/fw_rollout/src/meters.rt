//! Lists of meters, each number and each address once.

ghost use Rattle.std.specs.Prelude.{◌≡◌, ◌++◌, ◌∷◌, [], IfOk, MatchBool, OnErr};
ghost use Rattle.fw_rollout.specs.Daemon.{IsList};

use crate::link::Listed;
use std::alloc::{AllocError, Global};
use std::collections::HashSet;
use std::marker::Model;
use std::net::SocketAddr;

/// The meters that a head end asks, each number and each address once. Contracts see the list of them.
#[derive(Drop)]
pub struct MeterList {
    list: Vec<Listed>,
    numbers: HashSet<u32>,
    addresses: HashSet<SocketAddr>,
}

impl Model for MeterList {
    ghost use Rattle.std.specs.Prelude.{List};
    ghost use Rattle.fw_rollout.specs.declared.link.Listed as declared;
    ghost use Rattle.fw_rollout.specs.Listing.{AreKnown};

    ghost Value = { List declared.Listed };

    ghost view = { λ l. l.list.items };

    ghost invariant = { λ l. AreKnown l.list.items l.numbers l.addresses };
}

impl MeterList {
    /// No meter. It keeps the allocator, and takes no memory.
    pub fn none(alloc: Global) -> MeterList
        ensures { result ≡ [] }
    {
        MeterList {
            list: Vec::new(alloc),
            numbers: HashSet::new(alloc),
            addresses: HashSet::new(alloc),
        }
    }

    /// Adds a meter at the end, if its number and its address are new, and returns whether they are.
    ///
    /// # Errors
    ///
    /// `AllocError` if memory was refused. The list is as it was then.
    pub fn add(&mut self, at: Listed) -> Result<bool, AllocError>
        ensures added { IfOk result (λ added. MatchBool added (self.new ≡ self.old ++ at ∷ [])
            ((self.new ≡ self.old) × ¬ IsList (self.old ++ at ∷ []))) }
        ensures same { OnErr result (self.new ≡ self.old) }
    {
        let number = at.meter.number();
        if self.numbers.contains(&number) || self.addresses.contains(&at.address) {
            return Ok(false);
        }
        self.list.reserve(1)?;
        self.numbers.reserve(1)?;
        self.addresses.reserve(1)?;
        self.numbers.insert(number)?;
        self.addresses.insert(at.address)?;
        self.list.push(at)?;
        Ok(true)
    }

    /// The meters in the order in which they were added.
    pub fn meters(&self) -> &[Listed]
        ensures meters { result.now ≡ self.now }
        ensures list { IsList self.now }
    {
        self.list.as_slice()
    }
}
