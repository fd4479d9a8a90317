//! A rollout, wave after wave.

ghost use Rattle.std.specs.Prelude.{◌≡◌, IfErr, IfOk, OnOk, false};
ghost use Rattle.fw_host.specs.Waves.{listed_in, up_to_wave};
ghost use Rattle.fw_kept.specs.Head.{book_of};
ghost use Rattle.fw_rollout.specs.Counting.{counted_of};
ghost use Rattle.fw_rollout.specs.Daemon.{HasRunOut, IsLed, IsOver, kept_of, meters_of};
ghost use Rattle.fw_rollout.specs.Leading.{Leader};
ghost use Rattle.fw_rollout.specs.Plans.{with_meters};
ghost use Rattle.fw_rollout.specs.Rollout.{MayRollOutOver, RollsOutOver, no_other};
ghost use Rattle.fw_cli.specs.Waves.{AreWaves, AsksNow, IsGateOf, IsWaveStop, wave_lists};
ghost use Rattle.fw_cli.specs.declared.waves.WaveStop.TheVariants as stopped;

use fw_host::WaveList;
use fw_journal::JournalDevice;
use fw_plan::{Gate, MaxFailed, TooManyFailed, WaveMeter, gate_of, wave_rows};
use fw_rollout::{HeadDaemon, HeadPort, HeadWatch, Stop, serve_plan};
use std::alloc::{AllocError, Global};
use std::sync::Wait;

/// The waves of a rollout: the meters of a list, each with its wave, and how many rows may fail.
#[derive(Drop)]
pub(crate) struct Waves<'a> {
    alloc: Global,
    list: &'a WaveList,
    meters: Vec<WaveMeter>,
    max_failed: MaxFailed,
}

/// Why a rollout stops before all rows have ended.
#[derive(Clone, Copy)]
pub(crate) enum WaveStop {
    /// The head end stopped.
    Stop(Stop),
    /// Too many rows of the earlier waves failed. No row of this wave or a later one was asked.
    TooManyFailed(TooManyFailed),
}

impl From<Stop> for WaveStop {
    ghost from_gives = { λ stop e. e ≡ stopped.Stop stop };

    fn from(stop: Stop) -> WaveStop {
        WaveStop::Stop(stop)
    }
}

impl<'a> Waves<'a> {
    /// Those of the meters of this list, where so many rows may fail.
    pub(crate) fn of_list(
        alloc: Global,
        list: &'a WaveList,
        max_failed: MaxFailed,
    ) -> Result<Waves<'a>, AllocError>
        ensures waves { IfOk result (AreWaves list.now max_failed) }
    {
        let meters = list.waves(alloc)?;
        Ok(Waves {
            alloc,
            list,
            meters,
            max_failed,
        })
    }

    /// How far the waves are, by the book of the daemon.
    fn gate<D: JournalDevice + Drop>(&self, daemon: &HeadDaemon<D>) -> Result<Gate, Stop>
        ensures gate { IfOk result (IsGateOf self.now (book_of (kept_of daemon.now))) }
        ensures memory { IfErr result (λ stop. stop ≡ Stop.OutOfMemory) }
    {
        let rows = wave_rows(self.alloc, daemon.head().view().book, &self.meters)?;
        Ok(gate_of(&rows, self.max_failed))
    }

    /// Has the daemon ask the meters of this wave and of those before it, whose rows have ended.
    fn begin<D: JournalDevice + Drop>(
        &self,
        daemon: &mut HeadDaemon<D>,
        wave: u8,
    ) -> Result<(), Stop>
        ensures asks { OnOk result (meters_of daemon.new ≡ up_to_wave wave self.now.list.now) }
        ensures led { (leader : Leader) → IsLed D.honest D.contents D.may_leave daemon.old leader
            → OnOk result (IsLed D.honest D.contents D.may_leave daemon.new (with_meters (meters_of daemon.new) leader)) }
        ensures kept { kept_of daemon.new ≡ kept_of daemon.old }
        ensures counts { counted_of daemon.new ≡ counted_of daemon.old }
        ensures memory { IfErr result (λ stop. stop ≡ Stop.OutOfMemory) }
    {
        let list = self.list.up_to(self.alloc, wave)?;
        daemon.relist(&list)
    }

    /// Has the daemon ask the meters whose time has come, and returns their wave. That is none once no row is live: it asks all meters then.
    ///
    /// # Errors
    ///
    /// `TooManyFailed`, and `Stop` for want of memory.
    fn begin_next<D: JournalDevice + Drop>(
        &self,
        daemon: &mut HeadDaemon<D>,
    ) -> Result<Option<u8>, WaveStop>
        ensures asks { IfOk result (λ next. AsksNow self.now next daemon.new) }
        ensures led { (leader : Leader) → IsLed D.honest D.contents D.may_leave daemon.old leader
            → OnOk result (IsLed D.honest D.contents D.may_leave daemon.new (with_meters (meters_of daemon.new) leader)) }
        ensures kept { kept_of daemon.new ≡ kept_of daemon.old }
        ensures counts { counted_of daemon.new ≡ counted_of daemon.old }
        ensures stops { IfErr result (IsWaveStop self.now (book_of (kept_of daemon.new))) }
    {
        match self.gate(daemon)? {
            Gate::Open(wave) => {
                self.begin(daemon, wave)?;
                Ok(Some(wave))
            }
            Gate::TooManyFailed(stop) => Err(WaveStop::TooManyFailed(stop)),
            Gate::Over => {
                daemon.relist(self.list.meters())?;
                Ok(None)
            }
        }
    }

    /// Leads the rows of the meters that the daemon asks, whose time has come, to their ends. If no row is live, it returns at once, unless it
    /// stays.
    fn lead_asked<R: Wait, P: HeadPort, D: JournalDevice + Drop, V: HeadWatch>(
        &self,
        rt: &R,
        port: &mut P,
        daemon: &mut HeadDaemon<D>,
        next: Option<u8>,
        stays: bool,
        watch: &mut V,
    ) -> Result<(), Stop>
        requires asks { AsksNow self.now next daemon.old }
        requires begins { MayRollOutOver no_other P.Port D.JournalDevice port.old daemon.old }
        ensures rolls { RollsOutOver no_other P.Port D.JournalDevice port.old daemon.old result port.new daemon.new }
    {
        serve_plan(rt, port, daemon, stays && next.is_none(), watch)
    }

    /// Leads the rows to their ends, wave after wave: no row of a later wave is asked before those of the earlier ones have ended, and at most so
    /// many of them failed. It returns `Ok` once none is live and all that ended is on the device, and never if it stays.
    ///
    /// # Errors
    ///
    /// Those of `serve_plan`, and `TooManyFailed`.
    pub(crate) fn lead<R: Wait, P: HeadPort, D: JournalDevice + Drop, V: HeadWatch>(
        &self,
        rt: &R,
        port: &mut P,
        daemon: &mut HeadDaemon<D>,
        stays: bool,
        watch: &mut V,
    ) -> Result<(), WaveStop>
        requires begins { MayRollOutOver (wave_lists self.now.list.now) P.Port D.JournalDevice port.old daemon.old }

        // What it does over an honest port is a rollout that comes to ask the meters of its waves.
        ensures rolls { RollsOutOver (wave_lists self.now.list.now) P.Port D.JournalDevice port.old daemon.old result port.new daemon.new }

        // It ends well only if no row of the list is live, and all that ended is on the device.
        ensures asks { OnOk result (meters_of daemon.new ≡ listed_in self.now.list.now) }
        ensures over { (now : Leader) → IsLed D.honest D.contents D.may_leave daemon.new now → OnOk result (IsOver now) }
        ensures ran_out { OnOk result (HasRunOut daemon.new) }
        ensures stays { OnOk result (stays ≡ false) }

        // It stops before a wave only if the gate says so.
        ensures stops { IfErr result (IsWaveStop self.now (book_of (kept_of daemon.new))) }
    {
        for _ in rt.forever() {
            let next = self.begin_next(daemon)?;
            if next.is_none() && daemon.is_over() && !stays {
                return Ok(());
            }
            self.lead_asked(rt, port, daemon, next, stays, watch)?;
        }
        unreachable!()
    }
}
