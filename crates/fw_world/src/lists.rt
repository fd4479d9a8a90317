//! What is appended to the lists of a world, for which there is room, and what is looked up among its meters.

ghost use Rattle.std.specs.Prelude.{◌≡◌, ◌+◌, ◌≤◌, ◌<◌, ◌++◌, ◌∷◌, [], IfSome, IfOk, IsSomeAnd, IsTrue, OnOk, OnErr, is_some, nat_eq, length, slice_get};
ghost use Rattle.std.specs.List.{list_all};
ghost use Rattle.std.specs.Map.{lookup};
ghost use Rattle.std.specs.Option.{option_copied};
ghost use Rattle.std.specs.Vec.{vec_len, vec_capacity};
ghost use Rattle.fw_blocks.specs.Width.{max_width};
ghost use Rattle.fw_head.specs.Head.{sends_to};
ghost use Rattle.fw_head.specs.Row.{bytes_of};
ghost use Rattle.fw_meter.specs.Handling.{AsksForResponse, MayBringData, MayWantMemory, reply_bytes};
ghost use Rattle.fw_world.specs.Private.{noted, replied};
ghost use Rattle.fw_world.specs.Refusals.{HasLiveRow, HoldsVerified};
ghost use Rattle.fw_world.specs.State.{sent_to};

use crate::activation::Activation;
use crate::datagram::{Datagram, Direction};
use crate::meters::Meters;
use crate::world_meter::{Switched, WorldMeter};
use fw_blocks::MAX_WIDTH;
use fw_head::HeadCore;
use fw_meter::{OutOfMemory, asks_for_response};
use fw_names::{HeadId, MeterId};
use std::alloc::{AllocError, Global};

/// The most datagrams that a tick sends.
const MAX_SENDS: usize = MAX_WIDTH as usize;

/// Whether each of these meters is there.
pub(crate) fn all_there(there: &Meters, meters: &[MeterId]) -> bool
    ensures { result ≡ list_all (λ meter. is_some (lookup (nat_eq meter) there.now)) meters.now }
{
    meters
        .iter()
        .all(|meter| there.contains_key(meter.number()))
}

/// The datagram of this number, if one was sent.
pub(crate) fn sent_at(sent: &[Datagram], number: usize) -> Option<&Datagram>
    ensures { option_copied result ≡ slice_get sent.now number }
{
    sent.get(number)
}

/// Makes room for what a head end sends to a meter at a tick: none if the meter has no live row.
pub(crate) fn room_to_send(
    sent: &mut Vec<Datagram>,
    head: &HeadCore,
    meter: MeterId,
) -> Result<(), AllocError>
    ensures items { sent.new.items ≡ sent.old.items }
    ensures room { OnOk result (length (sends_to head.now meter) ≤ max_width
        → vec_len sent.new + length (sends_to head.now meter) ≤ vec_capacity sent.new) }
    ensures memory { OnErr result (HasLiveRow head.now meter) }
{
    if !head.has_row(meter) {
        return Ok(());
    }
    sent.reserve(MAX_SENDS)
}

/// Makes room for the reply to the datagram of this number: none if it asks for no response. It is read only if the list is
/// full.
pub(crate) fn room_to_reply(
    alloc: Global,
    sent: &mut Vec<Datagram>,
    number: usize,
) -> Result<(), OutOfMemory>
    ensures items { sent.new.items ≡ sent.old.items }
    ensures room { OnOk result (IfSome (slice_get sent.old.items number)
        (λ d. AsksForResponse d.bytes → vec_len sent.new < vec_capacity sent.new)) }
    ensures memory { OnErr result (IsSomeAnd (slice_get sent.old.items number) (λ d. MayWantMemory d.bytes)) }
{
    if sent.len() < sent.capacity() {
        return Ok(());
    }
    if !asks(alloc, sent, number)? {
        return Ok(());
    }
    sent.reserve(1)?;
    Ok(())
}

/// Whether the datagram of this number asks a meter for a response.
fn asks(alloc: Global, sent: &[Datagram], number: usize) -> Result<bool, OutOfMemory>
    ensures asks { IfOk result (λ asks. IsTrue asks → IsSomeAnd (slice_get sent.now number) (λ d. AsksForResponse d.bytes)) }
    ensures told { IfSome (slice_get sent.now number) (λ d. AsksForResponse d.bytes → IfOk result IsTrue) }
    ensures memory { OnErr result (IsSomeAnd (slice_get sent.now number) (λ d. MayBringData d.bytes)) }
{
    match sent_at(sent, number) {
        Some(datagram) => asks_for_response(alloc, &datagram.bytes),
        None => Ok(false),
    }
}

/// Makes room for a note of the image that a meter may switch to: none if it holds no verified one.
pub(crate) fn room_to_note(
    activations: &mut Vec<Activation>,
    seat: &WorldMeter,
) -> Result<(), AllocError>
    ensures items { activations.new.items ≡ activations.old.items }
    ensures room { OnOk result (HoldsVerified seat.now → vec_len activations.new < vec_capacity activations.new) }
    ensures memory { OnErr result (HoldsVerified seat.now) }
{
    if seat.core().verified_size() == 0 {
        return Ok(());
    }
    activations.reserve(1)
}

/// Appends one, for which there is room.
fn append<T>(list: &mut Vec<T>, item: T)
    requires { vec_len list.old < vec_capacity list.old }
    ensures items { list.new.items ≡ list.old.items ++ item ∷ [] }
    ensures len { vec_len list.new ≡ vec_len list.old + 1 }
    ensures capacity { vec_capacity list.old ≤ vec_capacity list.new }
{
    match list.push(item) {
        Ok(()) => {}
        Err(_) => unreachable!(),
    }
}

/// Notes what a head end sends to a meter.
pub(crate) fn send(sent: &mut Vec<Datagram>, head: HeadId, meter: MeterId, sends: Vec<Vec<u8>>)
    requires { vec_len sent.old + length sends.items ≤ vec_capacity sent.old }
    ensures { sent.new.items ≡ sent.old.items ++ sent_to head meter (bytes_of sends.items) }
{
    for bytes in sends {
        append(
            sent,
            Datagram {
                head,
                meter,
                direction: Direction::ToMeter,
                bytes,
            },
        );
    }
}

/// Notes what a meter replies to a head end, if it does. There is room then.
pub(crate) fn reply(sent: &mut Vec<Datagram>, head: HeadId, meter: MeterId, reply: Option<Vec<u8>>)
    requires { IfSome reply (λ _. vec_len sent.old < vec_capacity sent.old) }
    ensures { sent.new.items ≡ sent.old.items ++ replied head meter (reply_bytes reply) }
{
    let Some(bytes) = reply else {
        return;
    };
    append(
        sent,
        Datagram {
            head,
            meter,
            direction: Direction::ToHead,
            bytes,
        },
    );
}

/// Notes the image that a meter switched to, if it did. There is room then.
pub(crate) fn note(activations: &mut Vec<Activation>, meter: MeterId, switched: Option<Switched>)
    requires { IfSome switched (λ _. vec_len activations.old < vec_capacity activations.old) }
    ensures { activations.new.items ≡ activations.old.items ++ noted meter switched }
{
    let Some(Switched { name, bytes }) = switched else {
        return;
    };
    append(activations, Activation { meter, name, bytes });
}
