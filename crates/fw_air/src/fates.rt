//! What becomes of datagrams.

ghost use Rattle.std.specs.Prelude.{◌≡◌, ◌%◌, Some, SomeIff, length, slice_get};
ghost use Rattle.fw_air.specs.Fates.{IsFates};

use std::marker::Model;

/// The most fates of a list.
pub const MAX_FATES: usize = 4096;

/// What becomes of a datagram on its link.
#[derive(Clone, Copy)]
pub enum Fate {
    /// It comes.
    Deliver,
    /// It is lost.
    Drop,
    /// It comes twice, at once.
    Twice,
    /// It comes a round late, at the beginning of the next one.
    Late,
}

/// The fates of the datagrams of each link, by their numbers there: a list of 1 to 4,096, which is repeated.
#[derive(Drop)]
pub struct Fates<'a> {
    list: &'a [Fate],
}

impl<'a> Model for Fates<'a> {
    ghost use Rattle.std.specs.Prelude.{List};
    ghost use Rattle.fw_air.specs.Fates.{IsFates};
    ghost use Rattle.fw_air.specs.declared.fates.Fate.{Fate};

    ghost Value = { List Fate };

    ghost view = { λ f. f.list.now };

    ghost invariant = { λ f. IsFates f.list.now };
}

impl<'a> Fates<'a> {
    /// The fates of this list, and `None` for an empty one and for one of more than 4,096.
    pub fn new(list: &'a [Fate]) -> Option<Fates<'a>>
        ensures { SomeIff result (IsFates list.now) list.now }
    {
        if (1..=MAX_FATES).contains(&list.len()) {
            Some(Fates { list })
        } else {
            None
        }
    }

    /// The list.
    pub fn as_slice(&self) -> &'a [Fate]
        ensures value { result.now ≡ self.now }
        ensures fates { IsFates result.now }
    {
        self.list
    }

    /// The fate of the datagram of this number, from 0 on.
    pub fn of(&self, number: u64) -> Fate
        ensures { slice_get self.now (number % length self.now) ≡ Some result }
    {
        self.list[(number % self.list.len() as u64) as usize]
    }
}
