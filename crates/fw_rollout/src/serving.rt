//! The loop of a head end over a port. A port asks at each send and each report whether it may be, so a loop that never ends is held to it
//! too.

ghost use Rattle.std.specs.Prelude.{◌≡◌, ◌++◌, ◌∷◌, [], List, None, IfOk, IfSome, IsTrue, OnOk, false, if◌then◌else◌};
ghost use Rattle.fw_port.specs.Acts.{quiet};
ghost use Rattle.fw_head.specs.Row.{bytes_of};
ghost use Rattle.fw_rollout.specs.Acts.{Act};
ghost use Rattle.fw_rollout.specs.Counting.{TellsRows, told_in};
ghost use Rattle.fw_rollout.specs.Leading.{IsAboutToSend, IsAboutToTell, Leader, Leads, MayLead};
ghost use Rattle.fw_rollout.specs.Daemon.{HasRunOut, IsLed, IsOver, LeadsOver, MayLeadOver, NoneDue};
ghost use Rattle.fw_rollout.specs.Legs.{IfOver, IfSilent, WasSilent};
ghost use Rattle.fw_rollout.specs.Plans.{KnowsSame};
ghost use Rattle.fw_rollout.specs.Rollout.{MayRollOutOver, RollsOutOver, no_other};

use crate::daemon::{Counts, HeadDaemon, Next};
use crate::ended::Ended;
use crate::error::Stop;
use crate::link::Listed;
use crate::port::HeadPort;
use crate::stuck::Stuck;
use fw_head::HeadCore;
use fw_journal::JournalDevice;
use fw_port::Patience;
use fw_wrapper::MAX_RECEIVED;
use std::net::SocketAddr;
use std::sync::Wait;

/// The most rows that are ticked between two receives.
const MAX_TICKS: usize = 64;

/// Why a head end leads no further for now.
#[derive(Clone, Copy, Debug)]
pub enum Leg {
    /// No row is live, and all that ended is on the device.
    Over,
    /// This meter is silent for too long, and nothing came in time. Its row is to be given up.
    Silent(Listed),
}

/// What comes of the rows that are due.
#[derive(Clone, Copy)]
struct Sent {
    /// Whether a datagram may be waited for.
    patience: Patience,
    /// The meter that is silent for too long, if one is. No further row was asked then.
    silent: Option<Listed>,
}

impl Sent {
    /// The meter that is silent for too long, if one is and no datagram came.
    fn silent_unless(self, came: bool) -> Option<Listed>
        ensures { result ≡ (if came then None else self.silent) }
    {
        if came { None } else { self.silent }
    }
}

/// What looks at a head end while it leads.
pub trait HeadWatch {
    /// It is called after each round, with the time in microseconds, how far the head end is, how often the port failed,
    /// how many datagrams it didn't open, the head end in memory, and the row that got nowhere by the datagram of the round, if one did.
    fn round(
        &mut self,
        now: u64,
        counts: Counts,
        faults: u64,
        unopened: u64,
        head: &HeadCore,
        stuck: Option<Stuck>,
    );
}

/// One round: what is due is sent, of [`MAX_TICKS`] rows at most, a datagram is received and heard, and the rows that ended are put on the
/// device and reported, where it is time. If nothing else is due, it is waited for the datagram. It returns the meter that is silent for too
/// long, if one is and no datagram came: nothing that it may have sent waits in the port then.
///
/// # Errors
///
/// `Closed` if the port is closed; `Full`, `BookFault` or `OutOfMemory` of the head end. Of a row that isn't on the device nothing is
/// reported.
pub fn step_head<P: HeadPort, D: JournalDevice + Drop>(
    port: &mut P,
    daemon: &mut HeadDaemon<D>,
) -> Result<Option<Listed>, Stop>
    requires begins { MayLeadOver P.Port D.JournalDevice port.old daemon.old }
    ensures leads { LeadsOver P.Port D.JournalDevice port.old daemon.old result port.new daemon.new }

    // By the time of the port, no marks wait that are due.
    ensures saves { IsTrue (P.honest port.old) → OnOk result (NoneDue D.JournalDevice (P.time port.new) daemon.new) }
    ensures silent { IfOk result (λ silent. IfSome silent (WasSilent daemon.new)) }
{
    let mut now = port.now();
    let mut buffer = [0u8; MAX_RECEIVED];
    step_with(port, daemon, &mut now, &mut buffer)
}

/// One round, as `step_head`, with the time of the last receive, and a buffer that datagrams are received into. The clock is read
/// once, and once more where marks were put on the device.
fn step_with<P: HeadPort, D: JournalDevice + Drop>(
    port: &mut P,
    daemon: &mut HeadDaemon<D>,
    now: &mut u64,
    buffer: &mut [u8],
) -> Result<Option<Listed>, Stop>
    requires begins { MayLeadOver P.Port D.JournalDevice port.old daemon.old }
    ensures leads { LeadsOver P.Port D.JournalDevice port.old daemon.old result port.new daemon.new }

    // By the time of the port, no marks wait that are due.
    ensures saves { IsTrue (P.honest port.old) → OnOk result (NoneDue D.JournalDevice (P.time port.new) daemon.new) }
    ensures silent { IfOk result (λ silent. IfSome silent (WasSilent daemon.new)) }
{
    let sent = send_due(port, daemon, *now)?;
    let came = receive(port, daemon, sent.patience, now, buffer)?;
    tell_saved(port, daemon, now)?;
    Ok(sent.silent_unless(came))
}

/// Sends what is due at this time, of [`MAX_TICKS`] rows at most, up to a meter that is silent for too long.
fn send_due<P: HeadPort, D: JournalDevice + Drop>(
    port: &mut P,
    daemon: &mut HeadDaemon<D>,
    now: u64,
) -> Result<Sent, Stop>
    requires begins { MayLeadOver P.Port D.JournalDevice port.old daemon.old }
    ensures leads { LeadsOver P.Port D.JournalDevice port.old daemon.old result port.new daemon.new }
    ensures silent { IfOk result (λ sent. IfSome sent.silent (WasSilent daemon.new)) }
{
    let date = port.date();
    for _ in 0..MAX_TICKS {
        let next = daemon.due(now, date)?;
        match next {
            Next::Silent(at) => {
                return Ok(Sent {
                    patience: Patience::Polls,
                    silent: Some(at),
                });
            }
            Next::Nobody => {
                return Ok(Sent {
                    patience: Patience::Waits,
                    silent: None,
                });
            }
            Next::Asks(due) => send_all(port, due.to, &due.datagrams),
            Next::Waits => continue,
        }
    }
    Ok(Sent {
        patience: Patience::Polls,
        silent: None,
    })
}

/// Sends these datagrams to an address, in their order.
fn send_all<P: HeadPort>(port: &mut P, to: SocketAddr, datagrams: &[Vec<u8>])
    requires { IsTrue (P.honest port.old) → (start : Leader) × IsAboutToSend start to (bytes_of datagrams.now)
        × MayLead (P.legal port.old) start (P.acts port.old) }
    ensures sends { IsTrue (P.honest port.old) → (start : Leader) → IsAboutToSend start to (bytes_of datagrams.now)
        → Leads start (P.acts port.old) (P.acts port.new) (record start { going = [] }) }
    ensures told { IsTrue (P.honest port.old) → told_in (P.acts port.new) ≡ told_in (P.acts port.old) }
    ensures honesty { P.honest port.new ≡ P.honest port.old }
    ensures law { (done : List Act) → P.legal port.old done → P.legal port.new done }
    ensures untold { TellsRows P.tells [] port.old port.new }
{
    for datagram in datagrams {
        port.send(to, datagram);
    }
}

/// Receives a datagram, if one comes in time, and hears it. The time is that of the receive then. It returns whether one came.
fn receive<P: HeadPort, D: JournalDevice + Drop>(
    port: &mut P,
    daemon: &mut HeadDaemon<D>,
    patience: Patience,
    now: &mut u64,
    buffer: &mut [u8],
) -> Result<bool, Stop>
    requires begins { MayLeadOver P.Port D.JournalDevice port.old daemon.old }
    ensures leads { LeadsOver P.Port D.JournalDevice port.old daemon.old result port.new daemon.new }
    ensures time { IsTrue (P.honest port.old) → OnOk result (now.new ≡ P.time port.new) }

    // What came to an honest port is the last act, or else that nothing came.
    ensures came { IsTrue (P.honest port.old) → IfOk result (λ came. came ≡ false → P.acts port.new ≡ quiet ∷ P.acts port.old) }
    ensures nothing { IfOk result (λ came. came ≡ false → daemon.new ≡ daemon.old) }
{
    let Some(arrival) = port.receive(patience, buffer)? else {
        *now = port.now();
        return Ok(false);
    };
    *now = port.now();
    let date = port.date();
    daemon.heard(*now, date, arrival.from, &buffer[..arrival.count])?;
    Ok(true)
}

/// Puts the rows that ended on the device, where this is the time for it, and reports them then. That takes its time, so the clock is read
/// again.
fn tell_saved<P: HeadPort, D: JournalDevice + Drop>(
    port: &mut P,
    daemon: &mut HeadDaemon<D>,
    now: &mut u64,
) -> Result<(), Stop>
    requires begins { MayLeadOver P.Port D.JournalDevice port.old daemon.old }
    requires time { IsTrue (P.honest port.old) → now.old ≡ P.time port.old }
    ensures leads { LeadsOver P.Port D.JournalDevice port.old daemon.old result port.new daemon.new }
    ensures saves { OnOk result (NoneDue D.JournalDevice now.new daemon.new) }
    ensures knows { KnowsSame daemon.old daemon.new }
    ensures time { IsTrue (P.honest port.old) → OnOk result (now.new ≡ P.time port.new) }
{
    if !daemon.is_save_due(*now) {
        return Ok(());
    }
    let saved = daemon.saved()?;
    tell_all(port, &saved);
    *now = port.now();
    Ok(())
}

/// Reports these rows, in their order.
fn tell_all<P: HeadPort>(port: &mut P, saved: &[Ended])
    requires { IsTrue (P.honest port.old) → (start : Leader) × IsAboutToTell start saved.now
        × MayLead (P.legal port.old) start (P.acts port.old) }
    ensures tells { IsTrue (P.honest port.old) → (start : Leader) → IsAboutToTell start saved.now
        → Leads start (P.acts port.old) (P.acts port.new) (record start { untold = [] }) }
    ensures told { IsTrue (P.honest port.old) → told_in (P.acts port.new) ≡ told_in (P.acts port.old) ++ saved.now }
    ensures honesty { P.honest port.new ≡ P.honest port.old }
    ensures law { (done : List Act) → P.legal port.old done → P.legal port.new done }
    ensures rows { TellsRows P.tells saved.now port.old port.new }
{
    for ended in saved {
        port.tell(*ended);
    }
}

/// Leads the rows to their ends. It returns `Over` once none is live and all that ended is on the device, and never if it stays, and `Silent`
/// once a meter is silent for too long.
///
/// # Errors
///
/// Those of `step_head`.
pub fn serve_head<R: Wait, P: HeadPort, D: JournalDevice + Drop, W: HeadWatch>(
    rt: &R,
    port: &mut P,
    daemon: &mut HeadDaemon<D>,
    stays: bool,
    watch: &mut W,
) -> Result<Leg, Stop>
    requires begins { MayLeadOver P.Port D.JournalDevice port.old daemon.old }
    ensures leads { LeadsOver P.Port D.JournalDevice port.old daemon.old result port.new daemon.new }

    // All is over only once no row is live and all that ended is on the device, and never if it stays.
    ensures over { (now : Leader) → IsLed D.honest D.contents D.may_leave daemon.new now → IfOk result (λ leg. IfOver leg (IsOver now)) }
    ensures stays { IfOk result (λ leg. IfOver leg (stays ≡ false)) }
    ensures silent { IfOk result (λ leg. IfSilent leg (WasSilent daemon.new)) }

    // Whatever is known of the device: no link is live, and nothing waits to be put on it.
    ensures ran_out { IfOk result (λ leg. IfOver leg (HasRunOut daemon.new)) }
{
    let mut now = port.now();
    let mut buffer = [0u8; MAX_RECEIVED];
    for _ in rt.forever() {
        if daemon.is_over() && !stays {
            return Ok(Leg::Over);
        }
        let silent = step_with(port, daemon, &mut now, &mut buffer)?;
        let (counts, stuck) = (daemon.counts(), daemon.stuck());
        let (faults, unopened) = (port.faults(), port.unopened());
        watch.round(now, counts, faults, unopened, daemon.head(), stuck);
        if let Some(at) = silent {
            return Ok(Leg::Silent(at));
        }
    }
    unreachable!()
}

/// Leads the rows to their ends, as `serve_head`, and gives up each whose meter is silent for too long. It returns `Ok` once none is live and
/// all that ended is on the device, and never if it stays.
///
/// # Errors
///
/// Those of `step_head`.
pub fn serve_plan<R: Wait, P: HeadPort, D: JournalDevice + Drop, W: HeadWatch>(
    rt: &R,
    port: &mut P,
    daemon: &mut HeadDaemon<D>,
    stays: bool,
    watch: &mut W,
) -> Result<(), Stop>
    requires begins { MayRollOutOver no_other P.Port D.JournalDevice port.old daemon.old }
    ensures rolls { RollsOutOver no_other P.Port D.JournalDevice port.old daemon.old result port.new daemon.new }
    ensures over { (now : Leader) → IsLed D.honest D.contents D.may_leave daemon.new now → OnOk result (IsOver now) }
    ensures stays { OnOk result (stays ≡ false) }
    ensures ran_out { OnOk result (HasRunOut daemon.new) }
{
    for _ in rt.forever() {
        let Leg::Silent(at) = serve_head(rt, port, daemon, stays, watch)? else {
            return Ok(());
        };
        daemon.give_up(port.now(), port.date(), at.address)?;
    }
    unreachable!()
}
