//! The loop of a meter's daemon whose port notes what it can't serve.

ghost use Rattle.std.specs.Prelude.{◌≡◌, IfOk, OnErr, false};
ghost use Rattle.fw_daemon.specs.Daemon.{daemon_of};
ghost use Rattle.fw_daemon.specs.Rounds.{GoesRound, IsWatched};

use fw_daemon::{MeterDaemon, MeterEvent, Watch, step};
use fw_host::DatagramPort;
use fw_port::Closed;
use fw_store::ImageStore;
use std::alloc::Global;
use std::sync::Wait;

/// A round of a meter, as [`step`] makes it. If memory was refused for the datagram that came, its port notes that.
///
/// # Errors
///
/// `Closed` if the port is closed. Nothing was done then.
pub(crate) fn step_noted<P: DatagramPort, S: ImageStore + Drop>(
    alloc: Global,
    port: &mut P,
    daemon: &mut MeterDaemon<S>,
) -> Result<Option<MeterEvent>, Closed>
    // It isn't known what comes, and what becomes of what is sent.
    requires unknown { P.honest port.old ≡ false }
    ensures goes { IfOk result (λ told. GoesRound (daemon_of daemon.old) told (daemon_of daemon.new)) }
    ensures closed { OnErr result (daemon_of daemon.new ≡ daemon_of daemon.old) }
    ensures unknown { P.honest port.new ≡ false }
{
    let unserved = daemon.dropped().unserved;
    let event = step(alloc, port, daemon)?;
    if daemon.dropped().unserved != unserved {
        port.note_unserved();
    }
    Ok(event)
}

/// Serves until the port is closed, as [`fw_daemon::serve`] does, by such rounds. It may wait for ever.
pub(crate) fn serve_noted<R: Wait, P: DatagramPort, S: ImageStore + Drop, W: Watch>(
    rt: &R,
    alloc: Global,
    port: &mut P,
    daemon: &mut MeterDaemon<S>,
    watch: &mut W,
) -> Closed
    requires unknown { P.honest port.old ≡ false }

    // Who watches is told of each event, once and in order, and of no other.
    ensures watched { IsWatched W.tells (daemon_of daemon.old) watch.old (daemon_of daemon.new) watch.new }
{
    for _ in rt.forever() {
        match step_noted(alloc, port, daemon) {
            Ok(event) => {
                watch.round(event, daemon.dropped(), port.faults(), port.unopened());
            }
            Err(closed) => return closed,
        }
    }
    unreachable!()
}
