//! A daemon over a port in memory.

ghost use Rattle.fw_daemon.specs.Daemon.{daemon_of};
ghost use Rattle.fw_daemon.specs.Serving.{Serving};
ghost use Rattle.fw_port.specs.Lists.{acts_of};

use crate::daemon::MeterDaemon;
use crate::serving::{Watch, serve};
use fw_port::{Closed, Datagram, Deed, ListPort, NoReport, Rule};
use fw_store::ImageStore;
use std::alloc::Global;
use std::sync::Wait;

/// The rule of a port that lets through what the daemon of some meter does.
#[derive(Drop)]
struct OfMeter;

impl Rule<NoReport> for OfMeter {
    ghost use Rattle.fw_daemon.specs.Lists.{IsOfSome};

    ghost allows = { IsOfSome };
}

/// Serves what comes to a port in memory, and returns what was done, the oldest first. The port lets through what the daemon of some meter
/// does.
pub fn serve_list<R: Wait, S: ImageStore + Drop, W: Watch>(
    rt: &R,
    alloc: Global,
    coming: Vec<Option<Datagram>>,
    daemon: &mut MeterDaemon<S>,
    watch: &mut W,
) -> Vec<Deed<NoReport>>
    ensures { Serving (daemon_of daemon.old) (acts_of result.items) (daemon_of daemon.new) }
{
    let mut port = ListPort::<R, NoReport, OfMeter>::new(rt, alloc, coming);
    let Closed = serve(rt, alloc, &mut port, daemon, watch);
    port.into_deeds()
}
