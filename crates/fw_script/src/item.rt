//! What a line of a script says.

ghost use Rattle.std.specs.Prelude.{
  ◌≡◌,
  ◌≤◌,
  ℕ,
  List,
  IfSome,
  ◌∷◌,
  [],
  Some,
  None,
  map,
  option_map,
  IfOk,
  OnErr,
  IsSome,
  MatchOption,
};
ghost use Rattle.fw_names.specs.Name.{Campaign};
ghost use Rattle.fw_world.specs.Step.{deliver, open_campaign};
ghost use Rattle.fw_world.specs.View.{event_of};
ghost use Rattle.fw_world.specs.Runs.{events_of};
ghost use Rattle.fw_text.specs.Words.{words_of, at_end, numbers_of, bytes_said, words_behind};
ghost use Rattle.fw_script.specs.Script.{
  head_item,
  meter_item,
  events_item,
  head_line,
  old_said,
  meter_line,
  opening,
  open_line,
  open_release_line,
  deliver_line,
  cancel_line,
  tick_line,
  stop_line,
  restart_meter_line,
  stop_restart_line,
  restart_head_line,
  turn_line,
  item_of,
  event_line,
  head_of,
  meter_of,
};
ghost use Rattle.fw_script.specs.Private.{item_read};

use fw_names::{CampaignId, HeadId, MeterId};
use fw_text::words::{
    are_numbers, byte, bytes, bytes_said, first_word, from_one, is, keyword, next_word, number,
};
use fw_world::{Event, HeadSetup, MeterSetup};
use std::alloc::{AllocError, Global};

/// What a line says.
#[derive(Drop)]
pub(crate) enum Item {
    Head(HeadSetup),
    Meter(MeterSetup),
    Event(Event),
    /// One or more, each of a datagram.
    Deliveries(Vec<Event>),
}

/// What a line says, if it says anything. Memory is taken only for what is said.
pub(crate) fn item_of(alloc: Global, line: &[u8]) -> Result<Option<Item>, AllocError>
    ensures ok { IfOk result (λ item. option_map item_read item ≡ item_of (words_of line.now)) }
    ensures memory { OnErr result (IsSome (item_of (words_of line.now))) }
{
    let (first, rest) = first_word(line);
    if is(first, b"head") {
        return Ok(head_line(rest).map(Item::Head));
    }
    if is(first, b"meter") {
        return Ok(meter_line(alloc, rest)?.map(Item::Meter));
    }
    if is(first, b"open") {
        return Ok(open_line(alloc, rest)?.map(Item::Event));
    }
    if is(first, b"open-release") {
        return Ok(open_release_line(alloc, rest)?.map(Item::Event));
    }
    if is(first, b"deliver") {
        return Ok(deliver_line(alloc, rest)?.map(Item::Deliveries));
    }
    Ok(event_line(first, rest).map(Item::Event))
}

/// The event that a line says, if its words say one that holds no list.
fn event_line(first: &[u8], rest: &[u8]) -> Option<Event>
    ensures { option_map (λ event. events_item (event_of event ∷ [])) result ≡ event_line first.now (words_behind rest.now) }
{
    if is(first, b"cancel") {
        return cancel_line(rest);
    }
    if is(first, b"tick") {
        return tick_line(rest);
    }
    if is(first, b"stop") {
        return stop_line(rest);
    }
    if is(first, b"restart-meter") {
        return restart_meter_line(rest);
    }
    if is(first, b"stop-restart") {
        return stop_restart_line(rest);
    }
    if is(first, b"restart-head") {
        return restart_head_line(rest);
    }
    if is(first, b"turn") {
        return turn_line(rest);
    }
    None
}

/// `head H width W`.
fn head_line(rest: &[u8]) -> Option<HeadSetup>
    ensures { option_map (λ head. head_item (head_of head)) result ≡ head_line (words_behind rest.now) }
{
    let (head, rest) = from_one(rest)?;
    let rest = keyword(rest, b"width")?;
    let (width, rest) = number(rest)?;
    ends(rest)?;
    let head = head_id(head);
    Some(HeadSetup { head, width })
}

/// `meter M block B capacity C factory HEX`, with or without `old` after it.
fn meter_line(alloc: Global, rest: &[u8]) -> Result<Option<MeterSetup>, AllocError>
    ensures ok { IfOk result (λ said. option_map (λ meter. meter_item (meter_of meter)) said ≡ meter_line (words_behind rest.now)) }
    ensures memory { OnErr result (IsSome (meter_line (words_behind rest.now))) }
{
    let Some((meter, block_size, capacity, word, old)) = meter_words(rest) else {
        return Ok(None);
    };
    let factory = bytes_said(alloc, word)?;
    Ok(Some(MeterSetup {
        meter: meter_id(meter),
        block_size,
        capacity,
        factory,
        old,
    }))
}

/// `M block B capacity C factory HEX`, with the word of the factory image, and whether `old` stands after it.
fn meter_words(rest: &[u8]) -> Option<(u32, u32, u32, &[u8], bool)>
    ensures { MatchOption result (meter_line (words_behind rest.now) ≡ None) (λ r. (factory : List ℕ) × (bytes_said r.3.now ≡ Some factory)
        × (meter_line (words_behind rest.now)
        ≡ Some (meter_item (record { number = r.0; block_size = r.1; capacity = r.2; factory = factory; old = r.4 })))) }
{
    let (meter, rest) = number(rest)?;
    let rest = keyword(rest, b"block")?;
    let (block_size, rest) = number(rest)?;
    let rest = keyword(rest, b"capacity")?;
    let (capacity, rest) = number(rest)?;
    let rest = keyword(rest, b"factory")?;
    let (word, rest) = bytes(rest)?;
    let old = is_old(rest)?;
    Some((meter, block_size, capacity, word, old))
}

/// Whether the word `old` is left, and nothing else is.
fn is_old(rest: &[u8]) -> Option<bool>
    ensures { result ≡ old_said (words_behind rest.now) }
{
    let Some((word, rest)) = next_word(rest) else {
        return Some(false);
    };
    if is(word, b"old") {
        ends(rest)?;
        Some(true)
    } else {
        None
    }
}

/// `open H S HEX M M ..`.
fn open_line(alloc: Global, rest: &[u8]) -> Result<Option<Event>, AllocError>
    ensures ok { IfOk result (λ said. option_map (λ event. events_item (event_of event ∷ [])) said ≡ open_line (words_behind rest.now)) }
    ensures memory { OnErr result (IsSome (open_line (words_behind rest.now))) }
{
    let Some((campaign, rest)) = open_words(rest) else {
        return Ok(None);
    };
    opening(alloc, campaign, 0, rest)
}

/// `H S`, with the text after it.
fn open_words(rest: &[u8]) -> Option<(CampaignId, &[u8])>
    ensures { MatchOption result (open_line (words_behind rest.now) ≡ None)
        (λ r. open_line (words_behind rest.now) ≡ opening r.0 0 (words_behind r.1.now)) }
{
    let (head, rest) = from_one(rest)?;
    let (serial, rest) = from_one(rest)?;
    Some((campaign_id(head, serial), rest))
}

/// `open-release H S R HEX M M ..`.
fn open_release_line(alloc: Global, rest: &[u8]) -> Result<Option<Event>, AllocError>
    ensures ok { IfOk result (λ said. option_map (λ event. events_item (event_of event ∷ [])) said
        ≡ open_release_line (words_behind rest.now)) }
    ensures memory { OnErr result (IsSome (open_release_line (words_behind rest.now))) }
{
    let Some((campaign, release, rest)) = release_words(rest) else {
        return Ok(None);
    };
    opening(alloc, campaign, release, rest)
}

/// `H S R`, with the text after it.
fn release_words(rest: &[u8]) -> Option<(CampaignId, u32, &[u8])>
    ensures { MatchOption result (open_release_line (words_behind rest.now) ≡ None)
        (λ r. open_release_line (words_behind rest.now) ≡ opening r.0 r.1 (words_behind r.2.now)) }
{
    let (head, rest) = from_one(rest)?;
    let (serial, rest) = from_one(rest)?;
    let (release, rest) = number(rest)?;
    Some((campaign_id(head, serial), release, rest))
}

/// `HEX M M ..`, after the words of the campaign and the release.
fn opening(
    alloc: Global,
    campaign: CampaignId,
    release: u32,
    rest: &[u8],
) -> Result<Option<Event>, AllocError>
    ensures ok { IfOk result (λ said. option_map (λ event. events_item (event_of event ∷ [])) said
        ≡ opening campaign release (words_behind rest.now)) }
    ensures memory { OnErr result (IsSome (opening campaign release (words_behind rest.now))) }
{
    let Some((word, rest)) = image_words(rest) else {
        return Ok(None);
    };
    let image = bytes_said(alloc, word)?;
    let meters = meters_of(alloc, rest)?;
    Ok(Some(Event::OpenCampaign {
        campaign,
        release,
        image,
        meters,
    }))
}

/// `HEX`, with its word and the text after it, which is numbers.
fn image_words(rest: &[u8]) -> Option<(&[u8], &[u8])>
    ensures { MatchOption result ((campaign : Campaign) (release : ℕ) → opening campaign release (words_behind rest.now) ≡ None) (λ r.
        (image : List ℕ) × (meters : List ℕ) × (bytes_said r.0.now ≡ Some image) × (numbers_of (words_behind r.1.now) ≡ Some meters)
        × ((campaign : Campaign) (release : ℕ) → opening campaign release (words_behind rest.now)
        ≡ Some (events_item (open_campaign campaign release image meters ∷ [])))) }
{
    let (word, rest) = bytes(rest)?;
    if are_numbers(rest) {
        Some((word, rest))
    } else {
        None
    }
}

/// The meters whose numbers are left.
fn meters_of(alloc: Global, rest: &[u8]) -> Result<Vec<MeterId>, AllocError>
    requires { IsSome (numbers_of (words_behind rest.now)) }
    ensures { IfOk result (λ meters. numbers_of (words_behind rest.now) ≡ Some meters.items) }
{
    let mut meters = Vec::new(alloc);
    let mut left = rest;
    while let Some((meter, after)) = number(left) {
        meters.push(meter_id(meter))?;
        left = after;
    }
    Ok(meters)
}

/// `deliver K K ..`.
fn deliver_line(alloc: Global, rest: &[u8]) -> Result<Option<Vec<Event>>, AllocError>
    ensures ok { IfOk result (λ said. option_map (λ events. events_item (events_of events.items)) said
        ≡ deliver_line (words_behind rest.now)) }
    ensures memory { OnErr result (IsSome (deliver_line (words_behind rest.now))) }
{
    if rest.is_empty() || !are_numbers(rest) {
        return Ok(None);
    }
    Ok(Some(deliveries_of(alloc, rest)?))
}

/// A delivery for each number that is left.
fn deliveries_of(alloc: Global, rest: &[u8]) -> Result<Vec<Event>, AllocError>
    requires { IsSome (numbers_of (words_behind rest.now)) }
    ensures { IfOk result (λ events. option_map (map deliver) (numbers_of (words_behind rest.now)) ≡ Some (events_of events.items)) }
{
    let mut events = Vec::new(alloc);
    let mut left = rest;
    while let Some((datagram, after)) = number(left) {
        events.push(Event::Deliver(datagram as usize))?;
        left = after;
    }
    Ok(events)
}

/// `cancel H S`.
fn cancel_line(rest: &[u8]) -> Option<Event>
    ensures { option_map (λ event. events_item (event_of event ∷ [])) result ≡ cancel_line (words_behind rest.now) }
{
    let (head, rest) = from_one(rest)?;
    let (serial, rest) = from_one(rest)?;
    ends(rest)?;
    Some(Event::CancelCampaign(campaign_id(head, serial)))
}

/// `tick H M`.
fn tick_line(rest: &[u8]) -> Option<Event>
    ensures { option_map (λ event. events_item (event_of event ∷ [])) result ≡ tick_line (words_behind rest.now) }
{
    let (head, rest) = from_one(rest)?;
    let (meter, rest) = number(rest)?;
    ends(rest)?;
    Some(Event::Tick(head_id(head), meter_id(meter)))
}

/// `stop K CALLS TORN`.
fn stop_line(rest: &[u8]) -> Option<Event>
    ensures { option_map (λ event. events_item (event_of event ∷ [])) result ≡ stop_line (words_behind rest.now) }
{
    let (datagram, rest) = number(rest)?;
    let (calls, rest) = number(rest)?;
    let (torn, rest) = byte(rest)?;
    ends(rest)?;
    Some(Event::Stop {
        datagram: datagram as usize,
        calls: u64::from(calls),
        torn,
    })
}

/// `restart-meter M`.
fn restart_meter_line(rest: &[u8]) -> Option<Event>
    ensures { option_map (λ event. events_item (event_of event ∷ [])) result ≡ restart_meter_line (words_behind rest.now) }
{
    let (meter, rest) = number(rest)?;
    ends(rest)?;
    Some(Event::RestartMeter(meter_id(meter)))
}

/// `stop-restart M CALLS TORN`.
fn stop_restart_line(rest: &[u8]) -> Option<Event>
    ensures { option_map (λ event. events_item (event_of event ∷ [])) result ≡ stop_restart_line (words_behind rest.now) }
{
    let (meter, rest) = number(rest)?;
    let (calls, rest) = number(rest)?;
    let (torn, rest) = byte(rest)?;
    ends(rest)?;
    let meter = meter_id(meter);
    let calls = u64::from(calls);
    Some(Event::StopRestart { meter, calls, torn })
}

/// `restart-head H`.
fn restart_head_line(rest: &[u8]) -> Option<Event>
    ensures { option_map (λ event. events_item (event_of event ∷ [])) result ≡ restart_head_line (words_behind rest.now) }
{
    let (head, rest) = from_one(rest)?;
    ends(rest)?;
    Some(Event::RestartHead(head_id(head)))
}

/// `turn M`.
fn turn_line(rest: &[u8]) -> Option<Event>
    ensures { option_map (λ event. events_item (event_of event ∷ [])) result ≡ turn_line (words_behind rest.now) }
{
    let (meter, rest) = number(rest)?;
    ends(rest)?;
    Some(Event::Turn(meter_id(meter)))
}

/// Nothing, if no word is left.
fn ends(rest: &[u8]) -> Option<()>
    ensures { result ≡ at_end (words_behind rest.now) }
{
    if rest.is_empty() { Some(()) } else { None }
}

/// The head end with this number.
fn head_id(number: u32) -> HeadId
    requires { 1 ≤ number }
    ensures { result ≡ number }
{
    match HeadId::new(number) {
        Some(head) => head,
        None => unreachable!(),
    }
}

/// The meter with this number.
fn meter_id(number: u32) -> MeterId
    ensures { result ≡ number }
{
    match MeterId::new(number) {
        Some(meter) => meter,
        None => unreachable!(),
    }
}

/// The campaign with these numbers.
fn campaign_id(head: u32, serial: u32) -> CampaignId
    requires head { 1 ≤ head }
    requires serial { 1 ≤ serial }
    ensures { result ≡ record { head = head; serial = serial } }
{
    match CampaignId::new(head_id(head), serial) {
        Some(campaign) => campaign,
        None => unreachable!(),
    }
}
