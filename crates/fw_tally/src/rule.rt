//! What the tally's word and its shares always meet, and what the share that makes a step knows by each kind of it. All of this is
//! for proofs: no value of these types is made.

use atomic_table::{Join, Play, Split, TableRule};
use std::marker::{Brand, PhantomData};

/// What a share knows of the tally.
pub(crate) struct View {
    /// How often it marked the tally.
    pub(crate) own: u64,
    /// A count that the tally has reached.
    pub(crate) seen: u64,
    /// How many marks are left to it.
    pub(crate) allowance: u64,
}

/// The tally invariant.
pub(crate) struct Counted;

impl TableRule<(), View, u64> for Counted {
    ghost use Rattle.fw_tally.specs.Counted.{IsTallyTable, first_view};

    ghost holds = { IsTallyTable };

    ghost first = { first_view };
}

/// A mark.
pub(crate) struct Marks;

impl Play<(), View> for Marks {
    ghost use Rattle.fw_tally.specs.Counted.{Marked};

    ghost then = { Marked };
}

/// A look at the count.
pub(crate) struct Looks;

impl Play<(), View> for Looks {
    ghost use Rattle.fw_tally.specs.Counted.{Looked};

    ghost then = { Looked };
}

/// A look that shows only that the marks which are left to the share fit the word.
pub(crate) struct Fits;

impl Play<(), View> for Fits {
    ghost use Rattle.fw_tally.specs.Counted.{Fitted};

    ghost then = { Fitted };
}

/// How many marks a new share is given. Each call picks it.
pub(crate) trait Portion {
    ghost use Rattle.std.specs.Prelude.{ℕ};

    ghost portion: { ℕ };
}

impl Portion for Brand {
    ghost portion = { 0 };
}

/// A share that is split.
pub(crate) struct Parts<M: Portion> {
    portion: PhantomData<M>,
}

impl<M: Portion> Split<View> for Parts<M> {
    ghost use Rattle.fw_tally.specs.Counted.{view};
    ghost use Rattle.std.specs.Prelude.{◌-◌};

    ghost left = { λ v. view v.own v.seen (v.allowance - M.portion) };

    ghost right = { λ v. view 0 v.seen M.portion };
}

/// Two shares that are joined.
pub(crate) struct Joins;

impl Join<View> for Joins {
    ghost use Rattle.fw_tally.specs.Counted.{joined, spent};

    ghost both = { joined };

    ghost spent = { spent };
}
