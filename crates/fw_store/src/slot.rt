//! The two slots of a store.

ghost use Rattle.std.specs.Prelude.{◌≡◌};
ghost use Rattle.fw_store.specs.Slot.{other};

/// A place for an image: of the two, one has the image that runs, and the other is the spare one.
#[derive(Clone, Copy, Debug, PartialEq, Eq)]
pub enum Slot {
    First,
    Second,
}

impl Slot {
    /// The slot that is not this one.
    pub fn other(self) -> Slot
        ensures { result ≡ other self }
    {
        match self {
            Slot::First => Slot::Second,
            Slot::Second => Slot::First,
        }
    }
}
