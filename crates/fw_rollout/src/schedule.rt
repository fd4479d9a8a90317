//! Which meter is asked next, by the times of all links. No call goes over all of them.

ghost use Rattle.std.specs.Prelude.{
  ℕ,
  ◌≡◌,
  ◌↔◌,
  ◌≤◌,
  ◌+◌,
  [],
  ◌∷◌,
  ◌++◌,
  ◌⊎◌,
  false,
  All,
  IfNone,
  IfOk,
  IfSome,
  IsTrue,
  OnErr,
  OnOk,
  slice_get,
};
ghost use Rattle.std.specs.Option.{option_map};
ghost use Rattle.fw_rollout.specs.Schedule.{
  Adds,
  Answers,
  CountsResend,
  EndsAt,
  EndsMeter,
  GivesUp,
  HasAddress,
  Holds,
  IsDueAt,
  IsFirst,
  IsLiveAt,
  IsPlaceOf,
  IsSchedule,
  IsWaitingAt,
  SameMeters,
  Sends,
  Settles,
  Turns,
  Waits,
  WaitsNoMore,
  links_of,
  listed_of,
  lives_of,
  resends_after,
  resent_in,
};
ghost use Rattle.fw_rollout.specs.declared.link.Link.{Link as TheLink};
ghost use Rattle.fw_rollout.specs.Counting.{IsMore};
ghost use Rattle.fw_rollout.specs.Timing.{HasRoom, max_tick};

use crate::link::{Answer, Link, Listed};
use crate::timing::{Timing, has_room};
use std::alloc::{AllocError, Global};
use std::collections::{BTreeSet, HashMap, VecDeque};
use std::net::SocketAddr;

/// The links of all meters of a list. A place is the index of a link.
#[derive(Drop)]
pub(crate) struct Schedule {
    timing: Timing,
    links: Vec<Link>,
    /// The place of each address.
    places: HashMap<SocketAddr, usize>,
    /// The places of the links that may be ticked, each once, the next one first, and perhaps some that ended meanwhile.
    ready: VecDeque<usize>,
    /// The places of the links that wait, each with the time until which it does, the earliest first.
    waiting: BTreeSet<(u64, usize)>,
    /// How many datagrams are out.
    out: u64,
    /// How many links have a live row.
    live: u64,
    /// How often a row was ticked again since no answer came.
    resends: u64,
}

impl Schedule {
    /// No link. It takes no memory.
    pub(crate) fn new(alloc: Global, timing: Timing) -> Schedule
        ensures empty { links_of result ≡ [] }
        ensures timing { result.timing ≡ timing }
        ensures schedule { IsSchedule result }
    {
        Schedule {
            timing,
            links: Vec::new(alloc),
            places: HashMap::new(alloc),
            ready: VecDeque::new(alloc),
            waiting: BTreeSet::new(alloc),
            out: 0,
            live: 0,
            resends: 0,
        }
    }

    /// Adds the link of a meter, which is asked at an address that no other link has.
    ///
    /// # Errors
    ///
    /// `AllocError` if memory was refused. What is left then is unspecified.
    pub(crate) fn add(&mut self, at: Listed, is_live: bool) -> Result<(), AllocError>
        requires { ¬ HasAddress (links_of self.old) at.address }
        ensures added { OnOk result (Adds at is_live self.old self.new) }
        ensures listed { OnOk result (listed_of self.new ≡ listed_of self.old ++ at ∷ []) }
        ensures lives { OnOk result (lives_of self.new ≡ lives_of self.old ++ is_live ∷ []) }
        ensures timing { OnOk result (self.new.timing ≡ self.old.timing) }
        ensures schedule { IsSchedule self.old → OnOk result (IsSchedule self.new) }
    {
        let place = self.links.len();
        let address = at.address;
        let link = Link::new(at, is_live, self.timing.resend);
        self.links.push(link)?;
        self.places.insert(address, place)?;
        if is_live {
            self.ready.push_back(place)?;
            self.live = self.live.saturating_add(1);
        }
        Ok(())
    }

    /// How many links have a live row.
    pub(crate) fn live(&self) -> u64
        ensures live { result ≡ self.now.live }
        ensures none { IsSchedule self.now → (result ≡ 0) ↔ All (λ live. live ≡ false) (lives_of self.now) }
    {
        self.live
    }

    /// How often a row was ticked again since no answer came.
    pub(crate) fn resends(&self) -> u64
        ensures { result ≡ self.now.resends }
    {
        self.resends
    }

    /// Goes on counting from so many times that a row was ticked again.
    pub(crate) fn count_on(&mut self, resends: u64)
        ensures others { self.new ≡ record self.old { resends = resends } }
        ensures schedule { IsSchedule self.old → IsSchedule self.new }
    {
        self.resends = resends;
    }

    /// How it waits for answers.
    pub(crate) fn timing(&self) -> Timing
        ensures { result ≡ self.now.timing }
    {
        self.timing
    }

    /// The place of the link with this address.
    pub(crate) fn place_of(&self, address: SocketAddr) -> Option<usize>
        ensures found { IsSchedule self.now → IfSome result (IsPlaceOf (links_of self.now) address) }
        ensures none { IsSchedule self.now → IfNone result (¬ HasAddress (links_of self.now) address) }
    {
        self.places.get(&address).copied()
    }

    /// The meter of a link and its address.
    pub(crate) fn at(&self, place: usize) -> Option<Listed>
        ensures { result ≡ option_map (λ (link : TheLink). link.at) (slice_get (links_of self.now) place) }
    {
        match self.links.get(place) {
            Some(link) => Some(link.at),
            None => None,
        }
    }

    /// Gives up what was waited for until now, and returns the place of the link that is ticked next, if one may be ticked now. It stays the
    /// next until it is ticked.
    ///
    /// # Errors
    ///
    /// `AllocError` if memory was refused, and only if a link is live. What is left then is unspecified.
    pub(crate) fn next(&mut self, now: u64) -> Result<Option<usize>, AllocError>
        ensures due { IfOk result (λ r. IfSome r (IsDueAt self.new)) }
        ensures first { IfOk result (λ r. IfSome r (IsFirst self.new)) }
        ensures none { IfOk result (λ r. IfNone r ((self.new.ready.items ≡ []) ⊎ ¬ HasRoom self.new.out self.new.timing.flight)) }
        ensures resends { IsSchedule self.old → OnOk result (IsMore self.old.resends (resent_in now (links_of self.old)) self.new.resends) }
        ensures room { IfOk result (λ r. IfSome r (λ place. HasRoom self.new.out self.new.timing.flight)) }
        ensures timing { OnOk result (self.new.timing ≡ self.old.timing) }
        ensures settles { IsSchedule self.old → OnOk result (Settles now self.old self.new) }
        ensures same { IsSchedule self.old → OnOk result (SameMeters self.old self.new) }
        ensures schedule { IsSchedule self.old → OnOk result (IsSchedule self.new) }
        ensures live { IsSchedule self.old → OnErr result (¬ All (λ live. live ≡ false) (lives_of self.old)) }
    {
        self.give_up(now)?;
        if !has_room(self.out, self.timing.flight) {
            return Ok(None);
        }
        Ok(self.next_ready())
    }

    /// The place of the first link that may be ticked. Those before it have ended, and are taken out of the queue.
    fn next_ready(&mut self) -> Option<usize>
        ensures due { IfSome result (IsDueAt self.new) }
        ensures first { IfSome result (IsFirst self.new) }
        ensures none { IfNone result (self.new.ready.items ≡ []) }
        ensures others { self.new ≡ record self.old { ready = self.new.ready } }
        ensures schedule { IsSchedule self.old → IsSchedule self.new }
    {
        while let Some(place) = self.ready.front().copied() {
            if self.is_ready(place) {
                return Some(place);
            }
            self.ready.pop_front();
        }
        None
    }

    /// Gives up what was waited for until now.
    fn give_up(&mut self, now: u64) -> Result<(), AllocError>
        ensures timing { OnOk result (self.new.timing ≡ self.old.timing) }
        ensures settles { IsSchedule self.old → OnOk result (Settles now self.old self.new) }
        ensures resends { IsSchedule self.old → OnOk result (IsMore self.old.resends (resent_in now (links_of self.old)) self.new.resends) }
        ensures same { IsSchedule self.old → OnOk result (SameMeters self.old self.new) }
        ensures schedule { IsSchedule self.old → OnOk result (IsSchedule self.new) }
        ensures live { IsSchedule self.old → OnErr result (¬ All (λ live. live ≡ false) (lives_of self.old)) }
    {
        let most = self.links.len();
        for given_up in 0..most {
            let Some((until, place)) = self.waiting.first().copied() else {
                return Ok(());
            };
            if now < until {
                return Ok(());
            }
            self.give_up_at(place, now)?;
        }
        Ok(())
    }

    /// Gives up what was waited for at a place.
    fn give_up_at(&mut self, place: usize, now: u64) -> Result<(), AllocError>
        ensures given_up { OnOk result (GivesUp place now self.old self.new) }
        ensures resends { OnOk result (CountsResend place now self.old self.new) }
        ensures timing { OnOk result (self.new.timing ≡ self.old.timing) }
        ensures same { IsLiveAt self.old place → OnOk result (SameMeters self.old self.new) }
        ensures schedule { (until : ℕ) → IsSchedule self.old → IsWaitingAt (links_of self.old) place until → OnOk result (IsSchedule self.new) }
    {
        let Some(link) = self.links.get_mut(place) else {
            return Ok(());
        };
        let was_until = link.until();
        let was_paused = link.is_paused();
        let given_up = link.given_up(now);
        let until = link.until();
        self.out = self.out.saturating_sub(given_up);
        self.count_resend(was_paused, until);
        self.turn(place, was_until, until)?;
        Ok(())
    }

    /// Counts a row that is ticked again since no answer came: one that didn't pause, and waits no more.
    fn count_resend(&mut self, was_paused: bool, until: Option<u64>)
        ensures { self.new ≡ record self.old { resends = resends_after was_paused until self.old.resends } }
    {
        if was_paused {
            return;
        }
        if until.is_none() {
            self.resends = self.resends.saturating_add(1);
        }
    }

    /// Whether the link at this place may be ticked.
    fn is_ready(&self, place: usize) -> bool
        ensures { IsTrue result ↔ IsDueAt self.now place }
    {
        match self.links.get(place) {
            Some(link) => link.is_ready(),
            None => false,
        }
    }

    /// The row of the link at this place was ticked, and `count` datagrams were sent. It was the next.
    ///
    /// # Errors
    ///
    /// `AllocError` if memory was refused. What is left then is unspecified.
    pub(crate) fn sent(&mut self, place: usize, now: u64, count: u64) -> Result<(), AllocError>
        ensures sent { OnOk result (Sends place now count self.old self.new) }
        ensures timing { OnOk result (self.new.timing ≡ self.old.timing) }
        ensures out { OnOk result (self.new.out ≤ self.old.out + count) }
        ensures resends { OnOk result (self.new.resends ≡ self.old.resends) }
        ensures same { IsDueAt self.old place → OnOk result (SameMeters self.old self.new) }
        ensures schedule { IsSchedule self.old → IsDueAt self.old place → IsFirst self.old place → HasRoom self.old.out self.old.timing.flight
            → count ≤ max_tick → OnOk result (IsSchedule self.new) }
    {
        let Some(link) = self.links.get_mut(place) else {
            return Ok(());
        };
        link.sent(now, count);
        let until = link.until();
        self.ready.pop_front();
        self.out = self.out.saturating_add(count);
        self.wait(place, until)?;
        Ok(())
    }

    /// The row of the link at this place, which is the next, may not be asked now. It waits.
    ///
    /// # Errors
    ///
    /// `AllocError` if memory was refused. What is left then is unspecified.
    pub(crate) fn hold(&mut self, place: usize, now: u64) -> Result<(), AllocError>
        ensures held { OnOk result (Holds place now self.old self.new) }
        ensures timing { OnOk result (self.new.timing ≡ self.old.timing) }
        ensures out { OnOk result (self.new.out ≡ self.old.out) }
        ensures resends { OnOk result (self.new.resends ≡ self.old.resends) }
        ensures same { IsDueAt self.old place → OnOk result (SameMeters self.old self.new) }
        ensures schedule { IsSchedule self.old → IsDueAt self.old place → IsFirst self.old place → OnOk result (IsSchedule self.new) }
    {
        let Some(link) = self.links.get_mut(place) else {
            return Ok(());
        };
        link.held(now);
        let until = link.until();
        self.ready.pop_front();
        self.wait(place, until)?;
        Ok(())
    }

    /// The row of the link at this place took an answer.
    ///
    /// # Errors
    ///
    /// `AllocError` if memory was refused. What is left then is unspecified.
    pub(crate) fn answered(
        &mut self,
        place: usize,
        now: u64,
        answer: Answer,
    ) -> Result<(), AllocError>
        ensures answered { OnOk result (Answers place now answer self.old self.new) }
        ensures resends { OnOk result (self.new.resends ≡ self.old.resends) }
        ensures same { IsLiveAt self.old place → OnOk result (SameMeters self.old self.new) }
        ensures schedule { IsSchedule self.old → IsLiveAt self.old place → OnOk result (IsSchedule self.new) }
    {
        let Some(link) = self.links.get_mut(place) else {
            return Ok(());
        };
        let was_until = link.until();
        let answered = link.answered(now, self.timing.resend, answer);
        let until = link.until();
        self.out = self.out.saturating_sub(answered);
        if is_same(until, was_until) {
            return Ok(());
        }
        self.turn(place, was_until, until)?;
        Ok(())
    }

    /// The row of the link at this place ended.
    pub(crate) fn end(&mut self, place: usize)
        ensures ended { EndsAt place self.old self.new }
        ensures resends { self.new.resends ≡ self.old.resends }
        ensures meters { EndsMeter place self.old self.new }
        ensures schedule { IsSchedule self.old → IsSchedule self.new }
    {
        let Some(link) = self.links.get_mut(place) else {
            return;
        };
        let was_until = link.until();
        let was_live = link.is_live();
        let left = link.over();
        self.out = self.out.saturating_sub(left);
        self.live = self.live.saturating_sub(u64::from(was_live));
        self.wait_no_more(place, was_until);
    }

    /// The link at this place, which waited until a time if there was one, waits until another, or may be ticked.
    fn turn(
        &mut self,
        place: usize,
        was_until: Option<u64>,
        until: Option<u64>,
    ) -> Result<(), AllocError>
        ensures { OnOk result (Turns place was_until until self.old self.new) }
    {
        self.wait_no_more(place, was_until);
        self.wait(place, until)?;
        if until.is_none() {
            self.ready.push_back(place)?;
        }
        Ok(())
    }

    /// The link at this place waits until this time, if there is one.
    fn wait(&mut self, place: usize, until: Option<u64>) -> Result<(), AllocError>
        ensures { OnOk result (Waits place until self.old self.new) }
    {
        if let Some(until) = until {
            self.waiting.insert((until, place))?;
        }
        Ok(())
    }

    /// The link at this place waits no more.
    fn wait_no_more(&mut self, place: usize, was_until: Option<u64>)
        ensures { WaitsNoMore place was_until self.old self.new }
    {
        if let Some(until) = was_until {
            self.waiting.remove(&(until, place));
        }
    }
}

/// Whether two times are the same, or neither is one.
fn is_same(one: Option<u64>, other: Option<u64>) -> bool
    ensures { IsTrue result ↔ (one ≡ other) }
{
    match (one, other) {
        (Some(one), Some(other)) => one == other,
        (None, None) => true,
        (Some(_), None) | (None, Some(_)) => false,
    }
}
