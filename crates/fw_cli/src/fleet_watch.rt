//! What looks at several meters in one process.

ghost use Rattle.std.specs.Prelude.{◌++◌, List, Some, ⊤};
ghost use Rattle.fw_daemon.specs.Rounds.{listed};
ghost use Rattle.fw_cli.specs.Telling.{Happening, happenings_by};

use fw_daemon::{Dropped, MeterEvent};

/// What looks at meters while they serve, as `Watch` does at one.
pub(crate) trait FleetWatch {
    /// From one moment to another it was told that this happened, the oldest first, and this came of it.
    ghost tells: { Self → List Happening → Self → Type 0 } = { λ _ _ _. ⊤ };

    /// It is called after each round of the meter of this number, from 1 on, with what there is to tell of it, with how many datagrams of all
    /// meters were dropped up to the last pass, with how often their ports failed, and with how many datagrams the port of this one didn't open.
    fn round_of(
        &mut self,
        number: usize,
        event: Option<MeterEvent>,
        dropped: Dropped,
        faults: u64,
        unopened: u64,
    )
        ensures tells { (start : Self) (happenings : List Happening) → tells start happenings self.old
            → tells start (happenings ++ happenings_by (Some number) (listed event)) self.new };
}
