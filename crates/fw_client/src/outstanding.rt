//! The asks that no answer came to yet.

ghost use Rattle.std.specs.Prelude.{◌≡◌, ◌<◌, ℕ, None, is_some, IsSome, IfSome, MatchBool, Option};
ghost use Rattle.std.specs.List.{list_any};
ghost use Rattle.std.specs.FinMap.{empty, get, insert, remove};
ghost use Rattle.fw_apdu.specs.Request.{invoke_ids};

use crate::ask::Asked;
use fw_apdu::INVOKE_IDS;
use std::marker::Model;

/// A place for each invoke-id.
const PLACES: usize = INVOKE_IDS as usize;

/// The outstanding asks, each at the place of its invoke-id.
#[derive(Drop)]
pub(crate) struct Outstanding {
    places: [Option<Asked>; PLACES],
}

// Contracts see a finite map from ids.
impl Model for Outstanding {
    ghost use Rattle.std.specs.Prelude.{◌≡◌, length};
    ghost use Rattle.std.specs.Coded.{codes};
    ghost use Rattle.std.specs.FinMap.{code};
    ghost use Rattle.fw_apdu.specs.Request.{invoke_ids};
    ghost use Rattle.fw_client.specs.State.{Asks};

    ghost Value = { Asks };

    ghost coded = { Prim.hlevel (codes, code) };

    ghost use Rattle.fw_client.specs.Private.{asks_from};

    ghost view = { λ o. asks_from 0 o.places };

    // So no id past the last has a place.
    ghost invariant = { λ o. length o.places ≡ invoke_ids };
}

impl Outstanding {
    /// Nothing is outstanding.
    pub(crate) fn none() -> Outstanding
        ensures { result ≡ empty }
    {
        Outstanding {
            places: [None; PLACES],
        }
    }

    /// The same asks once more.
    pub(crate) fn duplicate(&self) -> Outstanding
        ensures { result ≡ self.now }
    {
        Outstanding {
            places: self.places,
        }
    }

    /// What is outstanding at this id.
    #[tactic(auto, using(crate::proofs::Places::get_asks))]
    pub(crate) fn at(&self, id: u8) -> Option<Asked>
        ensures asked { result ≡ get self.now id }
        ensures within { IfSome result (λ _. id < invoke_ids) }
    {
        if id < INVOKE_IDS {
            self.places[usize::from(id)]
        } else {
            None
        }
    }

    /// Whether anything is outstanding.
    pub(crate) fn has_any(&self) -> bool
        ensures { MatchBool result ((id : ℕ) × IsSome (get self.now id)) ((id : ℕ) → get self.now id ≡ None) }
    {
        is_any_asked(&self.places)
    }

    /// The ask is outstanding at this id, in place of any other.
    #[tactic(auto, using(crate::proofs::Places::asks_put))]
    pub(crate) fn put(&mut self, id: u8, asked: Asked)
        requires { id < invoke_ids }
        ensures { self.new ≡ insert self.old id asked }
    {
        self.places[usize::from(id)] = Some(asked);
    }

    /// Nothing is outstanding at this id.
    #[tactic(auto, using(crate::proofs::Places::asks_out))]
    pub(crate) fn take_out(&mut self, id: u8)
        requires { id < invoke_ids }
        ensures { self.new ≡ remove self.old id }
    {
        self.places[usize::from(id)] = None;
    }
}

/// Whether there is an ask at any of the places.
fn is_any_asked(places: &[Option<Asked>]) -> bool
    ensures { result ≡ list_any (λ (place : Option Asked). is_some place) places.now }
{
    places.iter().any(|place| place.is_some())
}
