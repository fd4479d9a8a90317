//! Notes, as packets have them.

ghost use Rattle.std.specs.Prelude.{◌≡◌, ◌<◌, ◌^◌, ◌++◌, length, OnOk};
ghost use Rattle.std.specs.Int.{w16, to_be_bytes};
ghost use Rattle.fw_capture.specs.Private.{Begins};
ghost use Rattle.fw_capture.specs.Reading.{asking_at, numbered_at, start_at, strangers_at, unserved_at};
ghost use Rattle.fw_capture.specs.Spelling.{asking_words, head_start_words, meter_start_words, note_text, strangers_words, turn_words, unserved_words};
ghost use Rattle.fw_capture.specs.View.{IsNote, told_in};

use crate::number::{four_at, long_at, short_at, sixteen_at, word_at};
use crate::packet::{Content, Note};
use std::alloc::AllocError;

/// The protocol of a note, which is for experiments (RFC 3692, section 2.1).
pub(crate) const NOTE_PROTOCOL: u8 = 253;

/// The text of a note of a start, of whatever command.
pub(crate) fn start_text() -> &'static [u8]
    ensures { result.now ≡ note_text Note.Start }
{
    b"dlmsfw start"
}

/// The words of a note of a start of meters. Their count follows, in four bytes, and how many addresses may ask, in eight.
fn meter_start_words() -> &'static [u8]
    ensures { result.now ≡ meter_start_words }
{
    b"dlmsfw start meter "
}

/// The words of a note of a start of a head end. Its number follows, in four bytes.
fn head_start_words() -> &'static [u8]
    ensures { result.now ≡ head_start_words }
{
    b"dlmsfw start head "
}

/// The words of a note of an address that may ask. It follows, in four or sixteen bytes, and its port, in two.
fn asking_words() -> &'static [u8]
    ensures { result.now ≡ asking_words }
{
    b"dlmsfw may ask "
}

/// The text of a note of a turn, of whatever meter.
pub(crate) fn turn_text() -> &'static [u8]
    ensures { result.now ≡ note_text Note.Turn }
{
    b"dlmsfw turn"
}

/// The words of a note of a turn of one meter. Its port follows, in two bytes.
fn turn_words() -> &'static [u8]
    ensures { result.now ≡ turn_words }
{
    b"dlmsfw turn "
}

/// The words of a note that memory was refused. The port of the meter follows, in two bytes.
fn unserved_words() -> &'static [u8]
    ensures { result.now ≡ unserved_words }
{
    b"dlmsfw unserved "
}

/// The words of a note of strangers. Their number follows, in eight bytes.
fn strangers_words() -> &'static [u8]
    ensures { result.now ≡ strangers_words }
{
    b"dlmsfw strangers "
}

/// How many bytes the text of a note has.
pub(crate) fn note_size(note: Note) -> usize
    ensures size { result ≡ length (note_text note) }
    ensures bound { result < 2 ^ 8 }
    ensures told { IsNote note }
{
    match note {
        Note::Start => 12,
        Note::MeterStart { count: _, heads: _ } => 31,
        Note::HeadStart(_) => 22,
        Note::MayAskV4(_, _) => 21,
        Note::MayAskV6(_, _) => 33,
        Note::Turn => 11,
        Note::TurnAt(_) => 14,
        Note::UnservedAt(_) => 18,
        Note::Strangers(_) => 25,
    }
}

/// Appends the text of a note.
pub(crate) fn put_note_text(out: &mut Vec<u8>, note: Note) -> Result<(), AllocError>
    ensures ok { OnOk result (out.new.items ≡ out.old.items ++ note_text note) }
    ensures front { Begins out.old.items out.new.items }
{
    match note {
        Note::Start => out.extend_from_slice(start_text()),
        Note::MeterStart { count, heads } => put_meter_start(out, count, heads),
        Note::HeadStart(head) => put_head_start(out, head),
        Note::MayAskV4(octets, port) => put_asking(out, &octets, port),
        Note::MayAskV6(octets, port) => put_asking(out, &octets, port),
        Note::Turn => out.extend_from_slice(turn_text()),
        Note::TurnAt(port) => put_turn(out, port),
        Note::UnservedAt(port) => put_unserved(out, port),
        Note::Strangers(count) => put_strangers(out, count),
    }
}

/// Appends the text of a note of a start of meters.
fn put_meter_start(out: &mut Vec<u8>, count: u32, heads: u64) -> Result<(), AllocError>
    ensures ok { OnOk result (out.new.items ≡ out.old.items ++ note_text (Note.MeterStart count heads)) }
    ensures front { Begins out.old.items out.new.items }
{
    out.extend_from_slice(meter_start_words())?;
    out.extend_from_slice(&count.to_be_bytes())?;
    out.extend_from_slice(&heads.to_be_bytes())?;
    Ok(())
}

/// Appends the text of a note of a start of a head end.
fn put_head_start(out: &mut Vec<u8>, head: u32) -> Result<(), AllocError>
    ensures ok { OnOk result (out.new.items ≡ out.old.items ++ note_text (Note.HeadStart head)) }
    ensures front { Begins out.old.items out.new.items }
{
    out.extend_from_slice(head_start_words())?;
    out.extend_from_slice(&head.to_be_bytes())?;
    Ok(())
}

/// Appends the text of a note of an address that may ask, of these bytes.
fn put_asking(out: &mut Vec<u8>, octets: &[u8], port: u16) -> Result<(), AllocError>
    ensures ok { OnOk result (out.new.items ≡ out.old.items ++ (asking_words ++ octets.now ++ to_be_bytes w16 port)) }
    ensures front { Begins out.old.items out.new.items }
{
    out.extend_from_slice(asking_words())?;
    out.extend_from_slice(octets)?;
    out.extend_from_slice(&port.to_be_bytes())?;
    Ok(())
}

/// Appends the text of a note of a turn of one meter.
fn put_turn(out: &mut Vec<u8>, port: u16) -> Result<(), AllocError>
    ensures ok { OnOk result (out.new.items ≡ out.old.items ++ note_text (Note.TurnAt port)) }
    ensures front { Begins out.old.items out.new.items }
{
    out.extend_from_slice(turn_words())?;
    out.extend_from_slice(&port.to_be_bytes())?;
    Ok(())
}

/// Appends the text of a note that memory was refused.
fn put_unserved(out: &mut Vec<u8>, port: u16) -> Result<(), AllocError>
    ensures ok { OnOk result (out.new.items ≡ out.old.items ++ note_text (Note.UnservedAt port)) }
    ensures front { Begins out.old.items out.new.items }
{
    out.extend_from_slice(unserved_words())?;
    out.extend_from_slice(&port.to_be_bytes())?;
    Ok(())
}

/// Appends the text of a note of strangers.
fn put_strangers(out: &mut Vec<u8>, count: u64) -> Result<(), AllocError>
    ensures ok { OnOk result (out.new.items ≡ out.old.items ++ note_text (Note.Strangers count)) }
    ensures front { Begins out.old.items out.new.items }
{
    out.extend_from_slice(strangers_words())?;
    out.extend_from_slice(&count.to_be_bytes())?;
    Ok(())
}

/// The note of an address that may ask that has this text, or one with a number.
pub(crate) fn note_behind_words(payload: &[u8]) -> Option<Content<'_>>
    ensures { told_in result ≡ asking_at payload.now }
{
    if payload.len() == 21 && &payload[..15] == asking_words() {
        let (octets, port) = (four_at(15, payload), short_at(19, payload));
        Some(Content::Note(Note::MayAskV4(octets, port)))
    } else if payload.len() == 33 && &payload[..15] == asking_words() {
        let (octets, port) = (sixteen_at(15, payload), short_at(31, payload));
        Some(Content::Note(Note::MayAskV6(octets, port)))
    } else {
        note_with_number(payload)
    }
}

/// The note with a number that has this text: of a turn of one meter, of strangers, of a start, or that memory was refused.
fn note_with_number(payload: &[u8]) -> Option<Content<'_>>
    ensures { told_in result ≡ numbered_at payload.now }
{
    if payload.len() == 14 && &payload[..12] == turn_words() {
        Some(Content::Note(Note::TurnAt(short_at(12, payload))))
    } else {
        strangers(payload)
    }
}

/// The note of strangers that has this text, or of a start.
fn strangers(payload: &[u8]) -> Option<Content<'_>>
    ensures { told_in result ≡ strangers_at payload.now }
{
    if payload.len() == 25 && &payload[..17] == strangers_words() {
        Some(Content::Note(Note::Strangers(long_at(17, payload))))
    } else {
        start(payload)
    }
}

/// The note of a start of meters or of a head end that has this text, or that memory was refused.
fn start(payload: &[u8]) -> Option<Content<'_>>
    ensures { told_in result ≡ start_at payload.now }
{
    if payload.len() == 31 && &payload[..19] == meter_start_words() {
        let (count, heads) = (word_at(19, payload), long_at(23, payload));
        Some(Content::Note(Note::MeterStart { count, heads }))
    } else if payload.len() == 22 && &payload[..18] == head_start_words() {
        Some(Content::Note(Note::HeadStart(word_at(18, payload))))
    } else {
        unserved_note(payload)
    }
}

/// The note that memory was refused that has this text.
fn unserved_note(payload: &[u8]) -> Option<Content<'_>>
    ensures { told_in result ≡ unserved_at payload.now }
{
    if payload.len() == 18 && &payload[..16] == unserved_words() {
        Some(Content::Note(Note::UnservedAt(short_at(16, payload))))
    } else {
        None
    }
}
