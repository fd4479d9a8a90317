//! A head end, the meters that it asks, and when it asks which.

ghost use Rattle.std.specs.Prelude.{
  ◌≡◌,
  ◌≤◌,
  ◌+◌,
  ◌↔◌,
  ℕ,
  [],
  ◌∷◌,
  ◌++◌,
  ◌⊎◌,
  All,
  Contains,
  None,
  Some,
  false,
  IsTrue,
  IfOk,
  IfErr,
  IfNone,
  IfSome,
  IsErrOf,
  MatchBool,
  OnErr,
  OnOk,
  is_some,
  length,
  min,
  replicate,
  slice_get,
};
ghost use Rattle.fw_head.specs.Row.{bytes_of};
ghost use Rattle.fw_head.specs.Head.{IsOfferedIn, row_of};
ghost use Rattle.fw_book.specs.Contents.{Contents};
ghost use Rattle.fw_kept.specs.Head.{Holds, device_of, head_of, is_broken, journal_of};
ghost use Rattle.fw_kept.specs.Kept.{IsFull};
ghost use Rattle.fw_rollout.specs.Early.{IsAnswerOf};
ghost use Rattle.fw_rollout.specs.Timing.{HasRoom, most_out};
ghost use Rattle.fw_rollout.specs.Stopping.{IsSaveStop};
ghost use Rattle.fw_rollout.specs.Counting.{
  CountsJust,
  IsMore,
  counted_of,
  greatest,
  none_counted,
  one_more,
  with_heard,
  with_row,
};
ghost use Rattle.fw_rollout.specs.Leading.{HasLiveRow, HearsAs, IsAboutToSend, IsAboutToTell, IsListed, Leader, SavesAll, TicksMeter};
ghost use Rattle.fw_rollout.specs.Plans.{
  GivesUpAt,
  GivesUpNone,
  IfAsks,
  IfNobody,
  IfSilent,
  IfWaits,
  IsAskedAs,
  IsLet,
  IsRestedAt,
  IsSilent,
  IsSilentAt,
  IsWaitedFor,
  KnowsSame,
  MatchNext,
  NotesContact,
  NotesLap,
  contacts_of,
  laps_of,
  phase_at,
  stuck_by,
  stuck_of,
  plan_of,
  with_meters,
};
ghost use Rattle.fw_plan.specs.Silence.{no_contact};
ghost use Rattle.fw_rollout.specs.Laps.{lap_in, no_lap};
ghost use Rattle.fw_rollout.specs.Daemon.{
  EndsOneAt,
  HasRunOut,
  IsAskedBy,
  IsDueBy,
  IsDueNow,
  IsLed,
  IsList,
  IsOutSince,
  IsOver,
  IsSaveDue,
  TakesAnswer,
  counts_of,
  ended_of,
  flight_of,
  kept_of,
  live_of,
  live_rows,
  meters_of,
  new_leader,
  out_at,
  out_of,
  queue_of,
  resent_at,
  since_after,
  since_of,
  since_with,
  timing_of,
};
ghost use Rattle.fw_rollout.specs.Schedule.{EndsMeter, IsSchedule, listed_of, lives_of, times};

use crate::contacts::{Contacts, seconds_of};
use crate::early::is_early;
use crate::ended::Ended;
use crate::error::Stop;
use crate::laps::Laps;
use crate::link::{Answer, Listed};
use crate::meters::MeterList;
use crate::plan::Plan;
use crate::schedule::Schedule;
use crate::stuck::Stuck;
use crate::timing::Timing;
use fw_book::{End, RowState};
use fw_head::{HeadCore, News, OutOfMemory, Phase, Told, WhyGivenUp};
use fw_journal::JournalDevice;
use fw_kept::KeptHead;
use fw_ledger::Ending;
use fw_names::{CampaignId, MeterId};
use std::alloc::{AllocError, Global};
use std::net::SocketAddr;

/// How long the mark of a row that ended waits for others, in microseconds.
const HOLD: u64 = 100_000;

/// How far a head end is, since its daemon was made. Each number is 2^64 - 1 at most.
#[derive(Clone, Copy, Debug)]
pub struct Counts {
    /// The rows that are live.
    pub live: u64,
    /// Those that are done, and are on the device.
    pub done: u64,
    /// Those that were given up, and are on the device.
    pub failed: u64,
    /// The datagrams that were made to be sent.
    pub sent: u64,
    /// Those that came from meters of the list.
    pub received: u64,
    /// How often a row was ticked again since no answer came (retries, each a retransmission).
    pub resends: u64,
    /// The datagrams that came from other addresses.
    pub strangers: u64,
}

/// What is sent now.
#[derive(Drop)]
pub struct Due {
    /// The meter.
    pub meter: MeterId,
    /// Its address.
    pub to: SocketAddr,
    /// The datagrams that its row sends, in this order.
    pub datagrams: Vec<Vec<u8>>,
}

/// What comes of the row that may be asked next.
#[derive(Drop)]
pub enum Next {
    /// It is asked.
    Asks(Due),
    /// It waits, since its next request would activate the image, and that may not be at this time, or since it rests after a lap that got
    /// nowhere.
    Waits,
    /// It isn't asked, since its meter is silent for too long. It is to be given up, and stays the next until then.
    Silent(Listed),
    /// No row may be asked now, or too much is out.
    Nobody,
}

/// What comes of a datagram.
#[derive(Clone, Copy, Debug)]
pub enum Heard {
    /// It is dropped, since it came from an address that isn't in the list.
    Stranger,
    /// It answers nothing that was asked.
    Nothing,
    /// The meter's row took it and is live.
    Moved,
    /// The meter's row ended. That is reported once it is on the device.
    Ended,
}

/// A head end whose book outlives a power cut, with the meters that it asks. It has no port and no clock: what comes is passed to it with
/// the time, and what is to be sent is returned.
pub struct HeadDaemon<D: JournalDevice + Drop> {
    alloc: Global,
    kept: KeptHead<D>,
    plan: Plan,
    schedule: Schedule,
    /// When each meter of the list was asked and heard.
    contacts: Contacts,
    /// How the row of each of them is getting on.
    laps: Laps,
    /// The row that got nowhere, if one did by the datagram that came last. It is told before the next row is asked.
    stuck: Option<Stuck>,
    /// The rows that ended and are not on the device yet, the oldest first.
    ended: Vec<Ended>,
    /// When the oldest of them ended.
    held_since: u64,
    counts: Counts,
}

// Written out, so that letting go of it is one call in a proof. A derived `Drop` is unfolded there field by field, which takes minutes.
impl<D: JournalDevice + Drop> Drop for HeadDaemon<D> {
    fn drop(self) {
        let HeadDaemon {
            alloc: _,
            kept: _,
            plan: _,
            schedule: _,
            contacts: _,
            laps: _,
            stuck: _,
            ended: _,
            held_since: _,
            counts: _,
        } = self;
    }
}

impl<D: JournalDevice + Drop> HeadDaemon<D> {
    /// The daemon of a head end that asks the meters of this list. A live row of a meter that isn't in it is never ticked.
    ///
    /// # Errors
    ///
    /// `OutOfMemory` alone.
    pub fn new(
        alloc: Global,
        kept: KeptHead<D>,
        meters: &MeterList,
        timing: Timing,
        plan: Plan,
    ) -> Result<HeadDaemon<D>, Stop>
        ensures kept { IfOk result (λ daemon. kept_of daemon ≡ kept) }
        ensures meters { IfOk result (λ daemon. meters_of daemon ≡ meters.now) }
        ensures timing { IfOk result (λ daemon. timing_of daemon ≡ timing) }
        ensures plan { IfOk result (λ daemon. plan_of daemon ≡ plan) }
        ensures contacts { IfOk result (λ daemon. contacts_of daemon ≡ replicate (length meters.now) no_contact) }
        ensures laps { IfOk result (λ daemon. laps_of daemon ≡ replicate (length meters.now) no_lap) }
        ensures counts { IfOk result (λ daemon. counted_of daemon ≡ none_counted) }
        ensures led { (synced : Contents) → Holds D.honest D.contents D.may_leave kept synced
            → IfOk result (λ daemon. IsLed D.honest D.contents D.may_leave daemon (new_leader meters.now (head_of kept) synced)) }
        ensures memory { IfErr result (λ stop. stop ≡ Stop.OutOfMemory) }
    {
        let list = meters.meters();
        let schedule = schedule_of(alloc, kept.head(), list, timing)?;
        let contacts = Contacts::new(alloc, list.len())?;
        let laps = Laps::new(alloc, list.len())?;
        Ok(HeadDaemon {
            alloc,
            kept,
            plan,
            schedule,
            contacts,
            laps,
            stuck: None,
            ended: Vec::new(alloc),
            held_since: 0,
            counts: Counts {
                live: 0,
                done: 0,
                failed: 0,
                sent: 0,
                received: 0,
                resends: 0,
                strangers: 0,
            },
        })
    }

    /// What comes of the row that may be asked next at this time, of which nothing is outstanding, or whose answers were waited for long enough:
    /// what it sends, or that it waits by the plan, where `date` is the time in seconds since 1970, or rests, or that its meter is silent. No
    /// more is out at once than the flight, or one tick. Each datagram is one that a head end may send of the book on the device.
    ///
    /// # Errors
    ///
    /// `OutOfMemory` alone. What was to be sent may be lost then.
    pub fn due(&mut self, now: u64, date: u64) -> Result<Next, Stop>
        ensures ticks { (leader : Leader) → IsLed D.honest D.contents D.may_leave self.old leader → leader.going ≡ []
            → IfOk result (λ r. MatchNext r
            (λ due. (next : Leader) × TicksMeter leader due.meter next × IsLed D.honest D.contents D.may_leave self.new next
            × IsAboutToSend next due.to (bytes_of due.datagrams.items))
            (IsLed D.honest D.contents D.may_leave self.new leader)) }

        // It asks only rows that the plan lets it ask, and that have rested.
        ensures plan { (leader : Leader) → IsLed D.honest D.contents D.may_leave self.old leader
            → IfOk result (λ r. IfAsks r (λ due. IsAskedAs self.old now date due self.new)) }

        // A row waits only by the plan or since it rests, and a meter is silent only by the plan.
        ensures held { IfOk result (λ r. IfWaits r (IsWaitedFor self.new now date)) }
        ensures silent { IfOk result (λ r. IfSilent r (IsSilent self.new now)) }
        ensures contacts { IfOk result (λ r. MatchNext r (λ due. Unit {0}) (contacts_of self.new ≡ contacts_of self.old)) }
        ensures laps { laps_of self.new ≡ laps_of self.old }
        ensures stuck { stuck_of self.new ≡ None }
        ensures same_plan { plan_of self.new ≡ plan_of self.old }

        // Nothing is sent that the book on the device doesn't offer.
        ensures permitted { (synced : Contents) → Holds D.honest D.contents D.may_leave (kept_of self.old) synced
            → IfOk result (λ r. IfAsks r (λ due. All (IsOfferedIn synced) (bytes_of due.datagrams.items))) }
        ensures flight { IfOk result (λ r. IfAsks r (λ due. out_of self.new ≤ most_out (flight_of self.old))) }

        // A meter is asked that may be asked at this time.
        ensures asked { (leader : Leader) → IsLed D.honest D.contents D.may_leave self.old leader
            → IfOk result (λ r. IfAsks r (λ due. IsAskedBy now self.old (record { meter = due.meter; address = due.to }))) }

        // And it is waited for an answer since then.
        ensures waits { (leader : Leader) → IsLed D.honest D.contents D.may_leave self.old leader → IfOk result (λ r. IfAsks r (λ due.
            IsOutSince now (length due.datagrams.items) self.new (record { meter = due.meter; address = due.to }))) }
        ensures counts { IfOk result (λ r. MatchNext r (λ due. counted_of self.new
            ≡ record (counted_of self.old) { sent = min ((counted_of self.old).sent + length due.datagrams.items) greatest })
            (counted_of self.new ≡ counted_of self.old)) }
        ensures counts_err { OnErr result (counted_of self.new ≡ counted_of self.old) }
        ensures since { since_of self.new ≡ since_of self.old }

        // A row that is ticked again since no answer came is counted as a resend.
        ensures resends { (leader : Leader) → IsLed D.honest D.contents D.may_leave self.old leader
            → OnOk result (IsMore (counts_of self.old).resends (resent_at now self.old) (counts_of self.new).resends) }

        // No row is the next only if no meter may be asked at this time, or too much is out.
        ensures none { (leader : Leader) → IsLed D.honest D.contents D.may_leave self.old leader
            → IfOk result (λ r. IfNobody r (((place : ℕ) → ¬ IsDueBy now self.old place) ⊎ ¬ HasRoom (out_at now self.old) (flight_of self.old))) }
        ensures queue { IfOk result (λ r. IfNobody r ((queue_of self.new ≡ []) ⊎ ¬ HasRoom (out_of self.new) (flight_of self.new))) }

        // A meter that may be asked is in the queue, once.
        ensures queued { (leader : Leader) → IsLed D.honest D.contents D.may_leave self.old leader
            → OnOk result ((place : ℕ) → IsDueNow self.new place → times place (queue_of self.new) ≡ 1) }

        // Memory is wanted only if a row is live.
        ensures wanted { (leader : Leader) → IsLed D.honest D.contents D.may_leave self.old leader → OnErr result (¬ IsOver leader) }
        ensures memory { IfErr result (λ stop. stop ≡ Stop.OutOfMemory) }
    {
        self.stuck = None;
        let Some(place) = self.schedule.next(now)? else {
            return Ok(Next::Nobody);
        };
        let Some(listed) = self.schedule.at(place) else {
            unreachable!();
        };
        if self.is_silent(place, now) {
            return Ok(Next::Silent(listed));
        }
        if !self.may_ask(place, listed.meter, now, date) {
            self.schedule.hold(place, now)?;
            return Ok(Next::Waits);
        }
        let datagrams = self.kept.tick(self.alloc, listed.meter)?;
        let count = datagrams.len() as u64;
        self.schedule.sent(place, now, count)?;
        self.contacts.asked(place, now);
        add(&mut self.counts.sent, count);
        Ok(Next::Asks(Due {
            meter: listed.meter,
            to: listed.address,
            datagrams,
        }))
    }

    /// Whether the row of the meter at this place may be asked: the window lets it be asked, and it has rested.
    fn may_ask(&self, place: usize, meter: MeterId, now: u64, date: u64) -> bool
        ensures { IsTrue result ↔ (IsLet self.now date meter × IsRestedAt self.now now place) }
    {
        if !self.is_let(meter, date) {
            return false;
        }
        self.laps.at(place).has_rested(now)
    }

    /// Whether the window lets the row of a meter be asked at this date.
    fn is_let(&self, meter: MeterId, date: u64) -> bool
        ensures { IsTrue result ↔ IsLet self.now date meter }
    {
        let activates = self.kept.head().activates(meter);
        self.plan.window.lets(date, activates)
    }

    /// Whether the meter at this place of the list is silent for too long.
    fn is_silent(&self, place: usize, now: u64) -> bool
        ensures { IsTrue result ↔ IsSilentAt self.now now place }
    {
        let contact = self.contacts.at(place);
        self.plan
            .deadline
            .gives_up(RowState::Live, contact, seconds_of(now))
    }

    /// Gives up the live row of the meter at this address, if the meter is silent for too long at this time, and returns whether it was given
    /// up. It ended `at` these seconds since 1970 began (UTC), and is put on the device and reported as one that failed.
    ///
    /// # Errors
    ///
    /// `OutOfMemory` alone. A row may have ended then whose mark isn't on the device and never will be.
    pub fn give_up(&mut self, now: u64, at: u64, address: SocketAddr) -> Result<bool, Stop>
        ensures gives_up { (leader : Leader) → IsLed D.honest D.contents D.may_leave self.old leader → IfOk result (λ given_up. MatchBool given_up
            ((next : Leader) × GivesUpAt leader address at next × IsLed D.honest D.contents D.may_leave self.new next)
            (self.new ≡ self.old)) }

        // Only a meter that is silent for too long, and each such one.
        ensures silent { (leader : Leader) → IsLed D.honest D.contents D.may_leave self.old leader
            → IfOk result (λ given_up. IsTrue given_up → (meter : ℕ) × IsSilent self.old now (record { meter = meter; address = address })) }
        ensures none { (leader : Leader) → IsLed D.honest D.contents D.may_leave self.old leader
            → IfOk result (λ given_up. given_up ≡ false → GivesUpNone self.old now address) }

        // That it ended at this time, and since its meter is silent, is noted beside the book.
        ensures ended { OnOk result (EndsOneAt at self.old self.new) }
        ensures since { IfOk result (λ given_up. IsTrue given_up → since_of self.new ≡ since_with now (ended_of self.old) (since_of self.old)) }
        ensures counts { counted_of self.new ≡ counted_of self.old }
        ensures resends { OnOk result ((counts_of self.new).resends ≡ (counts_of self.old).resends) }
        ensures contacts { contacts_of self.new ≡ contacts_of self.old }
        ensures laps { laps_of self.new ≡ laps_of self.old }
        ensures plan { plan_of self.new ≡ plan_of self.old }
        ensures memory { IfErr result (λ stop. stop ≡ Stop.OutOfMemory) }
    {
        fw_book::laws::states_follow();
        // For its clauses alone: the live rows are those of the book.
        let _view = self.kept.head().view();
        let Some((place, meter)) = place_of(&self.schedule, address) else {
            return Ok(false);
        };
        if !self.is_silent(place, now) || !self.has_row(meter) {
            return Ok(false);
        }
        make_room(&mut self.ended, true)?;
        let why = WhyGivenUp::Silent;
        let Some(given) = self.kept.give_up(self.alloc, meter, why, at)? else {
            unreachable!();
        };
        let end = End {
            at,
            reason: Some(given.reason),
        };
        self.end_row(place, now, given.campaign, meter, Ending::Failed, end)?;
        Ok(true)
    }

    /// Asks the meters of another list from now on, of which none was asked yet. What ended meanwhile and what was counted stays.
    ///
    /// # Errors
    ///
    /// `OutOfMemory` alone. All is as it was then.
    pub fn relist(&mut self, meters: &MeterList) -> Result<(), Stop>
        ensures led { (leader : Leader) → IsLed D.honest D.contents D.may_leave self.old leader
            → OnOk result (IsLed D.honest D.contents D.may_leave self.new (with_meters meters.now leader)) }
        ensures meters { OnOk result (meters_of self.new ≡ meters.now) }
        ensures contacts { OnOk result (contacts_of self.new ≡ replicate (length meters.now) no_contact) }
        ensures laps { OnOk result (laps_of self.new ≡ replicate (length meters.now) no_lap) }
        ensures kept { kept_of self.new ≡ kept_of self.old }
        ensures timing { timing_of self.new ≡ timing_of self.old }
        ensures plan { plan_of self.new ≡ plan_of self.old }
        ensures ended { ended_of self.new ≡ ended_of self.old }
        ensures since { since_of self.new ≡ since_of self.old }
        ensures counts { counted_of self.new ≡ counted_of self.old }
        ensures resends { (counts_of self.new).resends ≡ (counts_of self.old).resends }
        ensures same { OnErr result (self.new ≡ self.old) }
        ensures memory { IfErr result (λ stop. stop ≡ Stop.OutOfMemory) }
    {
        let list = meters.meters();
        let timing = self.schedule.timing();
        let mut schedule = schedule_of(self.alloc, self.kept.head(), list, timing)?;
        let contacts = Contacts::new(self.alloc, list.len())?;
        let laps = Laps::new(self.alloc, list.len())?;
        schedule.count_on(self.schedule.resends());
        self.schedule = schedule;
        self.contacts = contacts;
        self.laps = laps;
        Ok(())
    }

    /// Hears a datagram that came from an address at this time, as from the meter that has the address in the list. A row that it ends did so
    /// `at` these seconds since 1970 began (UTC).
    ///
    /// # Errors
    ///
    /// `OutOfMemory` alone. A row may have ended then whose mark isn't on the device and never will be.
    pub fn heard(
        &mut self,
        now: u64,
        at: u64,
        from: SocketAddr,
        datagram: &[u8],
    ) -> Result<Heard, Stop>
        ensures hears { (leader : Leader) → IsLed D.honest D.contents D.may_leave self.old leader
            → IfOk result (λ heard. (next : Leader) × HearsAs leader from datagram.now heard next
            × IsLed D.honest D.contents D.may_leave self.new next) }

        // When a meter that answered is asked again follows from what the answer leaves of what was asked: a meter that isn't ready pauses.
        ensures takes { (leader : Leader) → IsLed D.honest D.contents D.may_leave self.old leader
            → IfOk result (λ heard. heard ≡ Heard.Moved → TakesAnswer now from datagram.now self.old self.new) }

        // A row that ends did so at that time, and this and the reason are noted beside the book.
        ensures ended { OnOk result (EndsOneAt at self.old self.new) }

        // The rows that ended wait since the first of them did.
        ensures since { IfOk result (λ what. since_of self.new ≡ since_after what now (ended_of self.old) (since_of self.old)) }
        ensures counts { IfOk result (λ what. counted_of self.new ≡ with_heard what (counted_of self.old)) }
        ensures counts_err { OnErr result (counted_of self.new
            ≡ record (counted_of self.old) { received = one_more (counted_of self.old).received }) }
        ensures resends { OnOk result ((counts_of self.new).resends ≡ (counts_of self.old).resends) }

        // Whatever its bytes are, a datagram of a meter of the list says that it isn't silent.
        ensures contacts { (leader : Leader) → IsLed D.honest D.contents D.may_leave self.old leader
            → IfOk result (λ what. NotesContact what now from self.old self.new) }

        // An answer tells how its row is getting on, by the phases that it led from and to.
        ensures laps { (leader : Leader) → IsLed D.honest D.contents D.may_leave self.old leader
            → IfOk result (λ what. NotesLap what now from self.old self.new) }
        ensures plan { plan_of self.new ≡ plan_of self.old }

        // Memory is refused for a datagram of a listed meter alone, which has a live row.
        ensures listed { (leader : Leader) → IsLed D.honest D.contents D.may_leave self.old leader
            → OnErr result ((meter : ℕ) × IsListed leader meter from × HasLiveRow leader meter) }
        ensures memory { IfErr result (λ stop. stop ≡ Stop.OutOfMemory) }
    {
        fw_book::laws::states_follow();
        fw_head::laws::row_keeps_goal();
        // For its clauses alone: the live rows are those of the book.
        let _view = self.kept.head().view();
        self.stuck = None;
        let Some((place, meter)) = place_of(&self.schedule, from) else {
            count(&mut self.counts.strangers);
            return Ok(Heard::Stranger);
        };
        count(&mut self.counts.received);
        self.contacts.heard(place, now);
        let was = self.phase_of(meter);
        let has_row = self.has_row(meter);
        make_room(&mut self.ended, has_row)?;
        let Told { news, reason } = self.kept.hear(self.alloc, meter, datagram, at)?;
        let end = End { at, reason };
        match news {
            News::Nothing => Ok(Heard::Nothing),
            News::Moved => {
                let answer = self.answer_of(meter, datagram)?;
                self.schedule.answered(place, now, answer)?;
                let is = self.phase_of(meter);
                self.stuck = self.stuck_row(place, meter, was, is);
                self.laps.go(place, now, was, is);
                Ok(Heard::Moved)
            }
            News::Done(campaign, meter) => {
                self.end_row(place, now, campaign, meter, Ending::Done, end)?;
                Ok(Heard::Ended)
            }
            News::Failed(campaign, meter) => {
                self.end_row(place, now, campaign, meter, Ending::Failed, end)?;
                Ok(Heard::Ended)
            }
        }
    }

    /// Whether a meter has a live row.
    fn has_row(&self, meter: MeterId) -> bool
        ensures { result ≡ is_some (row_of (head_of (kept_of self.now)).rows meter) }
    {
        self.kept.head().has_row(meter)
    }

    /// Where the live row of a meter is, if the meter has one.
    fn phase_of(&self, meter: MeterId) -> Option<Phase>
        ensures { result ≡ phase_at (head_of (kept_of self.now)) meter }
    {
        match self.kept.head().row(meter) {
            Some(row) => Some(row.phase()),
            None => None,
        }
    }

    /// The row of the meter at this place, if its lap ends by an answer that led it from one phase to another, and got nowhere.
    fn stuck_row(
        &self,
        place: usize,
        meter: MeterId,
        was: Option<Phase>,
        is: Option<Phase>,
    ) -> Option<Stuck>
        ensures { result ≡ stuck_by (lap_in (laps_of self.now) place) (head_of (kept_of self.now)) meter was is }
    {
        if !self.laps.at(place).gets_nowhere(was, is) {
            return None;
        }
        match was {
            Some(from) => Stuck::of(self.kept.head(), meter, from),
            None => None,
        }
    }

    /// What an answer of a meter leaves of what its row asked.
    ///
    /// # Errors
    ///
    /// `OutOfMemory` alone.
    fn answer_of(&self, meter: MeterId, datagram: &[u8]) -> Result<Answer, OutOfMemory>
        ensures { IfOk result (IsAnswerOf (head_of (kept_of self.now)) meter datagram.now) }
    {
        if self.kept.head().is_waiting(meter) {
            return Ok(Answer::Partial);
        }
        if is_early(self.alloc, datagram)? {
            return Ok(Answer::Early);
        }
        Ok(Answer::Last)
    }

    /// The row of the meter at this place ended.
    fn end_row(
        &mut self,
        place: usize,
        now: u64,
        campaign: CampaignId,
        meter: MeterId,
        ending: Ending,
        end: End,
    ) -> Result<(), Stop>
        ensures kept { kept_of self.new ≡ kept_of self.old }
        ensures ended { OnOk result (ended_of self.new
            ≡ ended_of self.old ++ record { campaign = campaign; meter = meter; ending = ending; end = end } ∷ []) }
        ensures since { since_of self.new ≡ since_with now (ended_of self.old) (since_of self.old) }
        ensures counts { counted_of self.new ≡ counted_of self.old }
        ensures resends { self.new.schedule.resends ≡ self.old.schedule.resends }
        ensures meters { EndsMeter place self.old.schedule self.new.schedule }
        ensures schedule { IsSchedule self.old.schedule → IsSchedule self.new.schedule }
        ensures contacts { contacts_of self.new ≡ contacts_of self.old }
        ensures laps { laps_of self.new ≡ laps_of self.old }
        ensures stuck { stuck_of self.new ≡ stuck_of self.old }
        ensures plan { plan_of self.new ≡ plan_of self.old }
        ensures memory { IfErr result (λ stop. stop ≡ Stop.OutOfMemory) }
    {
        self.schedule.end(place);
        self.held_since = since_first(&self.ended, now, self.held_since);
        self.ended.push(Ended {
            campaign,
            meter,
            ending,
            end,
        })?;
        Ok(())
    }

    /// Whether the rows that ended are to be put on the device at this time: they waited for a tenth of a second, or no row is live.
    pub fn is_save_due(&self, now: u64) -> bool
        ensures { (leader : Leader) → IsLed D.honest D.contents D.may_leave self.now leader
            → IsTrue result ↔ IsSaveDue now (since_of self.now) leader }
    {
        if self.ended.is_empty() {
            return false;
        }
        self.schedule.live() == 0 || now.saturating_sub(self.held_since) >= HOLD
    }

    /// Puts the rows that ended on the device, and returns them, the oldest first: they may be reported now.
    ///
    /// # Errors
    ///
    /// `Full`, `BookFault` or `OutOfMemory`, as `KeptHead::commit_and_take`. None of them may be reported then.
    pub fn saved(&mut self) -> Result<Vec<Ended>, Stop>
        ensures saves { (leader : Leader) → IsLed D.honest D.contents D.may_leave self.old leader → leader.untold ≡ []
            → IfOk result (λ ended. (next : Leader) × SavesAll leader next × IsLed D.honest D.contents D.may_leave self.new next
            × IsAboutToTell next ended.items) }
        ensures returned { IfOk result (λ ended. ended.items ≡ ended_of self.old) }
        ensures emptied { OnOk result (ended_of self.new ≡ []) }
        ensures counts { IfOk result (λ ended. CountsJust ended.items (counted_of self.old) (counted_of self.new)) }
        ensures counts_err { OnErr result (counted_of self.new ≡ counted_of self.old) }
        ensures resends { (counts_of self.new).resends ≡ (counts_of self.old).resends }
        ensures since { since_of self.new ≡ since_of self.old }
        ensures knows { KnowsSame self.old self.new }
        ensures stops { IfErr result IsSaveStop }

        // The causes of a commit that is refused.
        ensures broken { IsTrue (is_broken (kept_of self.old))
            → IsErrOf result Stop.BookFault × (kept_of self.new ≡ kept_of self.old) }
        ensures breaks { IsErrOf result Stop.BookFault → IsTrue (is_broken (kept_of self.new)) }
        ensures never { IsTrue (D.sound (device_of (kept_of self.old))) → IsErrOf result Stop.BookFault
            → IsTrue (is_broken (kept_of self.old)) }
        ensures full { IsErrOf result Stop.Full → IsFull (journal_of (kept_of self.old)) }
    {
        let ended = self.kept.commit_and_take(self.alloc, &mut self.ended)?;
        count_ended(&mut self.counts, &ended);
        Ok(ended)
    }

    /// Whether no row is live, and all that ended is on the device.
    pub fn is_over(&self) -> bool
        ensures over { (leader : Leader) → IsLed D.honest D.contents D.may_leave self.now leader → IsTrue result ↔ IsOver leader }

        // Whatever is known of the device.
        ensures ran_out { IsTrue result ↔ HasRunOut self.now }
    {
        self.schedule.live() == 0 && self.ended.is_empty()
    }

    /// The row that got nowhere in its lap, if one did by the datagram that came last, and no row was asked since then.
    pub fn stuck(&self) -> Option<Stuck>
        ensures { result ≡ stuck_of self.now }
    {
        self.stuck
    }

    /// The head end in memory, with the marks that wait.
    pub fn head(&self) -> &HeadCore
        ensures { result.now ≡ head_of (kept_of self.now) }
    {
        self.kept.head()
    }

    /// The device that the book is on.
    pub fn device(&self) -> &D
        ensures { result.now ≡ device_of (kept_of self.now) }
    {
        self.kept.device()
    }

    /// How far the head end is.
    pub fn counts(&self) -> Counts
        ensures counts { result ≡ counts_of self.now }
        ensures live { (leader : Leader) → IsLed D.honest D.contents D.may_leave self.now leader → result.live ≡ live_rows leader }
    {
        Counts {
            live: self.schedule.live(),
            resends: self.schedule.resends(),
            ..self.counts
        }
    }
}

/// The schedule of a head end that asks these meters, of which none was asked yet.
fn schedule_of(
    alloc: Global,
    head: &HeadCore,
    meters: &[Listed],
    timing: Timing,
) -> Result<Schedule, AllocError>
    requires { IsList meters.now }
    ensures listed { IfOk result (λ schedule. listed_of schedule ≡ meters.now) }
    ensures timing { IfOk result (λ schedule. schedule.timing ≡ timing) }
    ensures lives { IfOk result (λ schedule. lives_of schedule ≡ live_of head.now meters.now) }
    ensures schedule { IfOk result IsSchedule }
{
    let mut schedule = Schedule::new(alloc, timing);
    for at in meters {
        schedule.add(*at, head.has_row(at.meter))?;
    }
    Ok(schedule)
}

/// The place of the meter with this address, and its number.
fn place_of(schedule: &Schedule, address: SocketAddr) -> Option<(usize, MeterId)>
    ensures found { IsSchedule schedule.now → IfSome result (λ found. slice_get (listed_of schedule.now) found.0
        ≡ Some (record { meter = found.1; address = address })) }
    ensures none { IsSchedule schedule.now → IfNone result ((meter : ℕ)
        → ¬ Contains (listed_of schedule.now) (record { meter = meter; address = address })) }
{
    let place = schedule.place_of(address)?;
    let at = schedule.at(place)?;
    Some((place, at.meter))
}

/// Takes memory for a row that may end, if there is one.
///
/// # Errors
///
/// `AllocError` if memory was refused.
fn make_room(ended: &mut Vec<Ended>, has_row: bool) -> Result<(), AllocError>
    ensures items { ended.new.items ≡ ended.old.items }
    ensures row { OnErr result (IsTrue has_row) }
{
    if has_row {
        return ended.reserve(1);
    }
    Ok(())
}

/// Since when rows wait, once one ended now besides these.
fn since_first(ended: &[Ended], now: u64, since: u64) -> u64
    ensures { result ≡ since_with now ended.now since }
{
    if ended.is_empty() { now } else { since }
}

/// Counts these rows, by how they ended.
fn count_ended(counts: &mut Counts, ended: &[Ended])
    ensures { CountsJust ended.now counts.old counts.new }
{
    for one in ended {
        count_row(counts, one.ending);
    }
}

/// Counts a row that ended so.
fn count_row(counts: &mut Counts, ending: Ending)
    ensures { counts.new ≡ with_row ending counts.old }
{
    match ending {
        Ending::Done => count(&mut counts.done),
        Ending::Failed => count(&mut counts.failed),
    }
}

/// Counts so many more.
fn add(counter: &mut u64, more: u64)
    ensures { counter.new ≡ min (counter.old + more) greatest }
{
    *counter = counter.saturating_add(more);
}

/// Counts one more.
fn count(counter: &mut u64)
    ensures { counter.new ≡ one_more counter.old }
{
    *counter = counter.saturating_add(1);
}
