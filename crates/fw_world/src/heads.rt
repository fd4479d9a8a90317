//! The head ends of a world, each with its own number.

ghost use Rattle.std.specs.Prelude.{◌≡◌, nat_eq, is_some, map, position};
ghost use Rattle.std.specs.Borrow.{sem};
ghost use Rattle.std.specs.Map.{lookup};
ghost use Rattle.std.specs.Option.{option_copied, option_copied_mut};
ghost use Rattle.fw_world.specs.Parts.{head_behind};

use fw_head::HeadCore;
use std::marker::Model;

/// At most 16 head ends, in the order of their setup: one is found by passing those before it.
#[derive(Drop)]
pub(crate) struct Heads {
    items: Vec<HeadCore>,
}

// Contracts see each with the number in its book.
impl Model for Heads {
    ghost use Rattle.std.specs.Prelude.{ℕ, List, map};
    ghost use Rattle.std.specs.Coded.{codes};
    ghost use Rattle.std.specs.FinMap.{code};
    ghost use Rattle.fw_head.specs.Head.{Head};
    ghost use Rattle.fw_world.specs.Parts.{head_behind};

    ghost Value = { List (ℕ × Head) };

    ghost coded = { Prim.hlevel (codes, code) };

    ghost view = { λ h. map head_behind h.items.items };
}

impl Heads {
    ghost use Rattle.fw_world.specs.Lends.{lends_head};

    /// These head ends.
    pub(crate) fn new(items: Vec<HeadCore>) -> Heads
        ensures { result ≡ map head_behind items.items }
    {
        Heads { items }
    }

    /// The head ends.
    pub(crate) fn into_vec(self) -> Vec<HeadCore>
        ensures { map head_behind result.items ≡ self }
    {
        self.items
    }

    /// The head end of this number, if there is one.
    pub(crate) fn get(&self, number: u32) -> Option<&HeadCore>
        ensures { option_copied result ≡ lookup (nat_eq number) self.now }
    {
        match place(&self.items, number) {
            Some(at) => Some(&self.items[at]),
            None => None,
        }
    }

    /// The head end of this number, if there is one, to change it.
    pub(crate) fn get_mut(&mut self, number: u32) -> Option<&mut HeadCore>
        ensures* writes_back { sem 𝓛 (lends_head self.entry number result) }
        ensures value { option_copied_mut result ≡ lookup (nat_eq number) self.old }
    {
        match place(&self.items, number) {
            Some(at) => Some(&mut self.items[at]),
            None => None,
        }
    }
}

/// Where the head end of this number stands.
fn place(heads: &[HeadCore], number: u32) -> Option<usize>
    ensures { result ≡ position (λ head. nat_eq number head.book.head) heads.now }
{
    heads
        .iter()
        .position(|head| number == head.view().book.head().number())
}
