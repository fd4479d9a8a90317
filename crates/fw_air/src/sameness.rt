//! Whether the parts of a world are those that others ended with. Nothing here takes memory.

ghost use Rattle.std.specs.Prelude.{◌≡◌, ◌↔◌, false, All, IsTrue};
ghost use Rattle.std.specs.List.{AllZip, Any};
ghost use Rattle.fw_air.specs.Audits.{AreOtherParts, AreSameHeads, IsSameHead};
ghost use Rattle.fw_air.specs.Private.{IsInPhase};
ghost use Rattle.fw_world.specs.Parts.{state_of};

use fw_book::{Book, Campaigns, Offer};
use fw_head::{HeadCore, RowCore};
use fw_world::{Datagram, NumberedMeter, Parts};

/// Whether the parts of a world are these: the books and the live rows' phases of its head ends, its meters, and what was sent.
pub(crate) fn are_same_parts(
    parts: &Parts,
    heads: &[HeadCore],
    meters: &[NumberedMeter],
    sent: &[Datagram],
) -> bool
    ensures heads { IsTrue result → AreSameHeads (state_of parts.now).heads heads.now }
    ensures meters { IsTrue result → parts.now.meters.items ≡ meters.now }
    ensures sent { IsTrue result → parts.now.sent.items ≡ sent.now }
    ensures other { result ≡ false → AreOtherParts (state_of parts.now) heads.now meters.now sent.now }
{
    are_same_heads(&parts.heads, heads)
        && are_same_meters(&parts.meters, meters)
        && are_same_datagrams(&parts.sent, sent)
}

/// Whether each head end is as the other at its place.
fn are_same_heads(ones: &[HeadCore], others: &[HeadCore]) -> bool
    ensures { IsTrue result ↔ AllZip IsSameHead ones.now others.now }
{
    ones.len() == others.len()
        && ones
            .iter()
            .zip(others)
            .all(|(one, other)| is_same_head(one, other))
}

/// Whether two head ends have one book, and live rows of the same meters in the same phases. The cost for the rows grows with the
/// square of their number.
fn is_same_head(one: &HeadCore, other: &HeadCore) -> bool
    ensures { IsTrue result ↔ IsSameHead one.now other.now }
{
    let (one, other) = (one.view(), other.view());
    is_same_book(one.book, other.book) && are_in_phases(one.rows.as_slice(), other.rows.as_slice())
}

/// Whether each of the rows is among the others in its phase.
fn are_in_phases(rows: &[RowCore], others: &[RowCore]) -> bool
    ensures { IsTrue result ↔ All (λ row. Any (IsInPhase row) others.now) rows.now }
{
    rows.iter().all(|row| has_phase(others, row))
}

/// Whether the row's meter has a row among these that is in the same phase.
fn has_phase(rows: &[RowCore], row: &RowCore) -> bool
    ensures { IsTrue result ↔ Any (IsInPhase row.now) rows.now }
{
    rows.iter().any(|other| is_in_phase(row, other))
}

/// Whether the other row is of the same meter and in the same phase.
fn is_in_phase(row: &RowCore, other: &RowCore) -> bool
    ensures { IsTrue result ↔ IsInPhase row.now other.now }
{
    row.meter() == other.meter() && row.phase() == other.phase()
}

/// Whether two books are of one head end, and have the same campaigns in the same order.
fn is_same_book(one: &Book, other: &Book) -> bool
    ensures { IsTrue result ↔ (one.now ≡ other.now) }
{
    one.head() == other.head() && are_same_campaigns(one.rows(), other.rows())
}

/// Whether each campaign is as the other at its place, and has the same serial number.
fn are_same_campaigns(ones: Campaigns<'_>, others: Campaigns<'_>) -> bool
    ensures { IsTrue result ↔ (ones.entry ≡ others.entry) }
{
    ones.len() == others.len()
        && ones.zip(others).all(|(one, other)| one.0 == other.0 && is_same_offer(one.1, other.1))
}

/// Whether two campaigns offer one image of one release, and have the same rows in the same order.
fn is_same_offer(one: &Offer, other: &Offer) -> bool
    ensures { IsTrue result ↔ (one.now ≡ other.now) }
{
    one.release() == other.release() && one.image() == other.image() && one.rows() == other.rows()
}

/// Whether each meter is as the other at its place.
fn are_same_meters(ones: &[NumberedMeter], others: &[NumberedMeter]) -> bool
    ensures { IsTrue result ↔ (ones.now ≡ others.now) }
{
    ones.len() == others.len()
        && ones
            .iter()
            .zip(others)
            .all(|(one, other)| is_same_meter(one, other))
}

/// Whether two meters have one number and are the same.
fn is_same_meter(one: &NumberedMeter, other: &NumberedMeter) -> bool
    ensures { IsTrue result ↔ (one.now ≡ other.now) }
{
    one.meter() == other.meter() && one.core().same(other.core())
}

/// Whether each datagram is as the other at its place.
fn are_same_datagrams(ones: &[Datagram], others: &[Datagram]) -> bool
    ensures { IsTrue result ↔ (ones.now ≡ others.now) }
{
    ones.len() == others.len()
        && ones
            .iter()
            .zip(others)
            .all(|(one, other)| is_same_datagram(one, other))
}

/// Whether two datagrams went the same way on one link, and have the same bytes.
fn is_same_datagram(one: &Datagram, other: &Datagram) -> bool
    ensures { IsTrue result ↔ (one.now ≡ other.now) }
{
    one.head == other.head
        && one.meter == other.meter
        && one.direction == other.direction
        && one.bytes.as_slice() == other.bytes.as_slice()
}
