//! The loop of a meter's daemon over a port. A port asks at each send whether it may be, so a loop that never ends is held to it too.

ghost use Rattle.std.specs.Prelude.{◌≡◌, ◌++◌, IfOk, IsTrue, List, OnErr, ⊤};
ghost use Rattle.fw_daemon.specs.Acts.{Act};
ghost use Rattle.fw_daemon.specs.Daemon.{Daemon, daemon_of};
ghost use Rattle.fw_daemon.specs.Rounds.{GoesRound, IsRound, IsWatched, listed};
ghost use Rattle.fw_daemon.specs.Serving.{Serving, Serves};
ghost use Rattle.fw_daemon.specs.declared.event.MeterEvent.{MeterEvent as Event};

use crate::daemon::{Dropped, Heard, MeterDaemon};
use crate::event::MeterEvent;
use fw_meter::Handled;
use fw_port::{Closed, NoReport, Patience, Port};
use fw_store::ImageStore;
use fw_wrapper::MAX_RECEIVED;
use std::alloc::Global;
use std::sync::Wait;

/// What looks at a daemon while it serves.
pub trait Watch {
    /// From one moment to another it was told of these events, the oldest first, and this came of them.
    ghost tells: { Self → List Event → Self → Type 0 } = { λ _ _ _. ⊤ };

    /// It is called after each round, with what there is to tell of it, with how many datagrams were dropped so far, with how often the
    /// port failed, and with how many datagrams it didn't open.
    fn round(&mut self, event: Option<MeterEvent>, dropped: Dropped, faults: u64, unopened: u64)
        ensures tells { (start : Self) (events : List Event) → tells start events self.old → tells start (events ++ listed event) self.new };
}

/// One round: what comes is handled and replied to. If nothing came, or a stranger's datagram did, the meter takes a turn. While an
/// image is verified nothing is waited for. It returns what there is to tell of the round.
///
/// # Errors
///
/// `Closed` if the port is closed. Nothing was done then.
pub fn step<P: Port<NoReport>, S: ImageStore + Drop>(
    alloc: Global,
    port: &mut P,
    daemon: &mut MeterDaemon<S>,
) -> Result<Option<MeterEvent>, Closed>
    // What a daemon does that is as this one may be done.
    requires { IsTrue (P.honest port.old) → (done : List Act) (now : Daemon) → Serving (daemon_of daemon.old) done now
        → P.legal port.old (done ++ P.acts port.old) }
    ensures serves { IsTrue (P.honest port.old)
        → Serves (daemon_of daemon.old) (P.acts port.old) (P.acts port.new) (daemon_of daemon.new) }
    ensures round { IsTrue (P.honest port.old) → IfOk result (λ told. IsRound (daemon_of daemon.old)
        (P.acts port.old) (P.acts port.new) told (daemon_of daemon.new)) }
    ensures goes { IfOk result (λ told. GoesRound (daemon_of daemon.old) told (daemon_of daemon.new)) }
    ensures closed { OnErr result (daemon_of daemon.new ≡ daemon_of daemon.old) }
    ensures honesty { P.honest port.new ≡ P.honest port.old }
    ensures law { (done : List Act) → P.legal port.old done → P.legal port.new done }
{
    let mut buffer = [0u8; MAX_RECEIVED];
    let patience = if daemon.is_verifying() {
        Patience::Polls
    } else {
        Patience::Waits
    };
    let Some(arrival) = port.receive(patience, &mut buffer)? else {
        return Ok(daemon.turn());
    };
    match daemon.heard(alloc, arrival.from, &buffer[..arrival.count]) {
        Heard::Handled(handled, event) => {
            let Handled {
                reply,
                activated: _,
            } = handled;
            match reply {
                Some(reply) => {
                    port.send(arrival.from, &reply);
                    Ok(event)
                }
                None => Ok(event),
            }
        }
        Heard::Stranger => Ok(daemon.turn()),
        Heard::OutOfMemory => Ok(None),
    }
}

/// Serves until the port is closed. It may wait for ever.
pub fn serve<R: Wait, P: Port<NoReport>, S: ImageStore + Drop, W: Watch>(
    rt: &R,
    alloc: Global,
    port: &mut P,
    daemon: &mut MeterDaemon<S>,
    watch: &mut W,
) -> Closed
    // What a daemon does that is as this one may be done.
    requires { IsTrue (P.honest port.old) → (done : List Act) (now : Daemon) → Serving (daemon_of daemon.old) done now
        → P.legal port.old (done ++ P.acts port.old) }
    ensures serves { IsTrue (P.honest port.old)
        → Serves (daemon_of daemon.old) (P.acts port.old) (P.acts port.new) (daemon_of daemon.new) }

    // Who watches is told of each event, once and in order, and of no other.
    ensures watched { IsWatched W.tells (daemon_of daemon.old) watch.old (daemon_of daemon.new) watch.new }
    ensures honesty { P.honest port.new ≡ P.honest port.old }
{
    for _ in rt.forever() {
        match step(alloc, port, daemon) {
            Ok(event) => {
                watch.round(event, daemon.dropped(), port.faults(), port.unopened());
            }
            Err(closed) => return closed,
        }
    }
    unreachable!()
}
