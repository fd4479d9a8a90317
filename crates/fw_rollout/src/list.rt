//! The daemon of a head end over a port in memory.

ghost use Rattle.std.specs.Prelude.{[], IfOk, OnOk};
ghost use Rattle.fw_port.specs.Lists.{acts_of};
ghost use Rattle.fw_rollout.specs.Leading.{HasLed, Leader};
ghost use Rattle.fw_rollout.specs.Daemon.{GoesOn, IsLed, IsOver, Rests};
ghost use Rattle.fw_rollout.specs.Legs.{IfOver};

use crate::daemon::HeadDaemon;
use crate::ended::Ended;
use crate::error::Stop;
use crate::port::HeadPort;
use crate::serving::{HeadWatch, Leg, serve_head};
use fw_journal::JournalDevice;
use fw_port::{Datagram, Deed, ListPort, Rule};
use std::alloc::Global;
use std::sync::Wait;

/// A port in memory reports what it is told. Its time began with 1970.
impl<'a, R: Wait, L: Rule<Ended>> HeadPort for ListPort<'a, R, Ended, L> {
    ghost time = { λ p. p.time };

    fn now(&self) -> u64 {
        self.time()
    }

    fn date(&self) -> u64 {
        self.time() / 1_000_000
    }

    fn tell(&mut self, ended: Ended) {
        self.report(ended);
    }
}

/// The rule of a port that lets through what some head end does.
#[derive(Drop)]
struct OfHead;

impl Rule<Ended> for OfHead {
    ghost use Rattle.fw_rollout.specs.Lists.{IsOfSome};

    ghost allows = { IsOfSome };
}

/// Leads rows by what comes to a port in memory, and returns what was done, the oldest first, with why the head end leads no further. The port
/// lets through what some head end does.
pub fn lead_list<R: Wait, D: JournalDevice + Drop, W: HeadWatch>(
    rt: &R,
    alloc: Global,
    coming: Vec<Option<Datagram>>,
    daemon: &mut HeadDaemon<D>,
    watch: &mut W,
) -> (Vec<Deed<Ended>>, Result<Leg, Stop>)
    requires { (start : Leader) × IsLed D.honest D.contents D.may_leave daemon.old start × Rests start }
    ensures leads { (start : Leader) → IsLed D.honest D.contents D.may_leave daemon.old start → Rests start
        → HasLed start [] (acts_of result.0.items) }
    ensures goes_on { (start : Leader) → IsLed D.honest D.contents D.may_leave daemon.old start → Rests start
        → OnOk result.1 (GoesOn D.honest D.contents D.may_leave start [] (acts_of result.0.items) daemon.new) }
    ensures over { (now : Leader) → IsLed D.honest D.contents D.may_leave daemon.new now → IfOk result.1 (λ leg. IfOver leg (IsOver now)) }
{
    let mut port = ListPort::<R, Ended, OfHead>::new(rt, alloc, coming);
    let led = serve_head(rt, &mut port, daemon, false, watch);
    (port.into_deeds(), led)
}
