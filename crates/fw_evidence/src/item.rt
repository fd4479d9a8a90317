//! What a record says in the log of a meter.

ghost use Rattle.fw_audit.specs.Log.{item_of};
ghost use Rattle.fw_capture.specs.View.{endpoint_of, ipv4, ipv6, told_in, told_of};
ghost use Rattle.fw_evidence.specs.Entries.{asking_at, at_port, entries_at, entry_of, exchange_at, noted, noted_by, noted_of_head, some_turn, start_at};
ghost use Rattle.fw_evidence.specs.Private.{Gives};

use crate::error::Stray;
use crate::site::{Side, Site};
use fw_audit::LogItem;
use fw_capture::{Content, Note};
use std::net::SocketAddr;

/// The item that a record is in the log of the end at this site. There is none if it counts datagrams of strangers, names an address that may
/// ask, or is another meter's.
///
/// # Errors
///
/// Why it is none of these meters'.
pub(crate) fn item_in<'a>(
    site: Site<'_>,
    content: Option<Content<'a>>,
) -> Result<Option<LogItem<'a>>, Stray>
    ensures { Gives result (entries_at site.entry (told_in content.entry)) }
{
    match content {
        Some(content) => item_of(site, content),
        None => Err(Stray::NoEntry),
    }
}

/// The item of a datagram or of a note.
fn item_of<'a>(site: Site<'_>, content: Content<'a>) -> Result<Option<LogItem<'a>>, Stray>
    ensures { Gives result (entries_at site.entry (told_of content.entry)) }
{
    match content {
        Content::Datagram { from, to, bytes } => exchanged(site, from, to, bytes),
        Content::Note(note) => item_of_note(site, note),
    }
}

/// The item of a note.
fn item_of_note<'a>(site: Site<'_>, note: Note) -> Result<Option<LogItem<'a>>, Stray>
    ensures { Gives result (noted_by site.entry.side site.entry note) }
{
    match site.side {
        Side::Meter => note_of_meter(site, note),
        Side::Head => note_of_head(note),
    }
}

/// The item of a note to a head end.
fn note_of_head<'a>(note: Note) -> Result<Option<LogItem<'a>>, Stray>
    ensures { Gives result (noted_of_head note) }
{
    match note {
        Note::Start | Note::HeadStart(_) => Ok(Some(LogItem::Started)),
        Note::MeterStart { .. } | Note::MayAskV4(_, _) | Note::MayAskV6(_, _) => {
            Err(Stray::StartedAsMeter)
        }
        Note::Turn | Note::TurnAt(_) | Note::UnservedAt(_) => Err(Stray::NoteOfMeter),
        Note::Strangers(_count) => Ok(None),
    }
}

/// The item of a note to a meter.
fn note_of_meter<'a>(site: Site<'_>, note: Note) -> Result<Option<LogItem<'a>>, Stray>
    ensures { Gives result (noted site.entry note) }
{
    match note {
        Note::Start => Ok(Some(LogItem::Started)),
        Note::MeterStart { count: _, heads } => start_with(site, heads),
        Note::HeadStart(_) => Err(Stray::StartedAsHead),
        Note::MayAskV4(octets, port) => asking_v4(site, &octets, port),
        Note::MayAskV6(octets, port) => asking_v6(site, &octets, port),
        Note::Turn => some_turn(site),
        Note::TurnAt(port) => at_port(site, port, LogItem::Turned),
        Note::UnservedAt(port) => at_port(site, port, LogItem::Started),
        Note::Strangers(_) => Ok(None),
    }
}

/// The item of a start of meters that so many addresses may ask.
fn start_with<'a>(site: Site<'_>, heads: u64) -> Result<Option<LogItem<'a>>, Stray>
    ensures { Gives result (start_at site.entry heads) }
{
    if site.heads.len() as u64 == heads {
        Ok(Some(LogItem::Started))
    } else {
        Err(Stray::OtherHeads)
    }
}

/// The item of an address of IPv4 that may ask: none, if it is one of those at a site.
fn asking_v4<'a>(site: Site<'_>, octets: &[u8], port: u16) -> Result<Option<LogItem<'a>>, Stray>
    ensures { Gives result (asking_at site.entry (ipv4 octets.now port)) }
{
    if site.has_head_v4(octets, port) {
        Ok(None)
    } else {
        Err(Stray::OtherHeads)
    }
}

/// The item of one of IPv6.
fn asking_v6<'a>(site: Site<'_>, octets: &[u8], port: u16) -> Result<Option<LogItem<'a>>, Stray>
    ensures { Gives result (asking_at site.entry (ipv6 octets.now port)) }
{
    if site.has_head_v6(octets, port) {
        Ok(None)
    } else {
        Err(Stray::OtherHeads)
    }
}

/// The item of a turn of a meter that isn't named.
fn some_turn<'a>(site: Site<'_>) -> Result<Option<LogItem<'a>>, Stray>
    ensures { Gives result (some_turn site.entry) }
{
    if site.others.is_empty() {
        Ok(Some(LogItem::Turned))
    } else {
        Err(Stray::UnnamedTurn)
    }
}

/// This item of the meter that has this port.
fn at_port<'a>(site: Site<'_>, port: u16, item: LogItem<'a>) -> Result<Option<LogItem<'a>>, Stray>
    ensures { Gives result (at_port site.entry port (entry_of (item_of item.entry))) }
{
    if site.at.port() == port {
        return Ok(Some(item));
    }
    if site.has_other_port(port) {
        return Ok(None);
    }
    Err(Stray::Elsewhere)
}

/// The item of a datagram: it came to the address of the meter, or was sent from there.
fn exchanged<'a>(
    site: Site<'_>,
    from: SocketAddr,
    to: SocketAddr,
    bytes: &'a [u8],
) -> Result<Option<LogItem<'a>>, Stray>
    ensures { Gives result (exchange_at site.entry (endpoint_of from) (endpoint_of to) bytes.now) }
{
    if site.is_own(from) {
        if site.is_own(to) || site.is_other(to) {
            return Err(Stray::ToItself);
        }
        return Ok(Some(LogItem::Sent { to, bytes }));
    }
    if site.is_own(to) {
        if site.is_other(from) {
            return Err(Stray::ToItself);
        }
        return Ok(Some(LogItem::Came { from, bytes }));
    }
    if site.is_other(from) || site.is_other(to) {
        return Ok(None);
    }
    Err(Stray::Elsewhere)
}
