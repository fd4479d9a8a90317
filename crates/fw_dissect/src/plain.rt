//! A capture in plain words.

ghost use Rattle.std.specs.Prelude.{◌≡◌, ◌⊎◌, ◌++◌, ◌∷◌, [], ℕ, List, IfErr, IfOk, IsTrue, OnErr, OnOk, is_some};
ghost use Rattle.std.specs.Io.KnownBytes.{Appends};
ghost use Rattle.std.specs.Option.{option_map};
ghost use Rattle.fw_capture.specs.Refusal.{IsRefusal, refusal_of};
ghost use Rattle.fw_capture.specs.Spelling.{file_header};
ghost use Rattle.fw_capture.specs.View.{Told, datagram, endpoint_of, note as note_told, told_in};
ghost use Rattle.fw_recording.specs.Recording.{records_bytes};
ghost use Rattle.fw_dissect.specs.Captures.{Plain, PlainRecord, RefusesPlain};
ghost use Rattle.fw_dissect.specs.Private.{IsOfNoRecord, KeepsIf, NoneIf, PutsIf, PutsRecord, PutsRecordIf};

use crate::error::DissectError;
use fw_capture::{AppendError, Captured, Content, Note, Packet, append_packet, file_header};
use fw_seal::Link;
use fw_unseal::unseal;
use std::alloc::{AllocError, Global};
use std::io::Write;
use std::net::SocketAddr;

/// Puts the file header of a capture, if there is a writer for one.
pub(crate) fn put_file_header<C: Write>(
    alloc: Global,
    plain: &mut Option<C>,
) -> Result<(), DissectError>
    ensures put { OnOk result (PutsIf (option_map C.contents plain.old) (option_map C.contents plain.new) file_header) }
    ensures asked { OnErr result (IsTrue (is_some plain.old)) }
    ensures present { is_some plain.new ≡ is_some plain.old }
    ensures faults { IfErr result IsOfNoRecord }
{
    match plain {
        Some(writer) => put_header(alloc, writer),
        None => Ok(()),
    }
}

/// Puts what stands in the place of the record of a packet, if there is a writer of captures.
pub(crate) fn put_plain<C: Write>(
    alloc: Global,
    links: &[Link],
    packet: &Packet<'_>,
    plain: &mut Option<C>,
) -> Result<(), DissectError>
    ensures put { OnOk result (PutsRecordIf links.now packet.now.nanoseconds (told_in packet.now.content)
        (option_map C.contents plain.old) (option_map C.contents plain.new)) }
    ensures none { IfErr result (λ e. NoneIf e links.now packet.now.nanoseconds (told_in packet.now.content)) }
    ensures asked { OnErr result (IsTrue (is_some plain.old)) }
    ensures present { is_some plain.new ≡ is_some plain.old }
{
    match plain {
        Some(writer) => put_record(alloc, links, packet, writer),
        None => Ok(()),
    }
}

/// Flushes the writer of captures, if there is one.
pub(crate) fn flush_plain<C: Write>(plain: &mut Option<C>) -> Result<(), DissectError>
    ensures kept { KeepsIf (option_map C.contents plain.old) (option_map C.contents plain.new) }
    ensures asked { OnErr result (IsTrue (is_some plain.old)) }
    ensures faults { IfErr result IsOfNoRecord }
{
    match plain {
        Some(writer) => match writer.flush() {
            Ok(()) => Ok(()),
            Err(_) => Err(DissectError::Plain),
        },
        None => Ok(()),
    }
}

/// Puts the file header of a capture.
fn put_header<C: Write>(alloc: Global, writer: &mut C) -> Result<(), DissectError>
    ensures put { OnOk result (Appends (C.contents writer.old) (C.contents writer.new) file_header) }
    ensures faults { IfErr result IsOfNoRecord }
{
    let header = file_header(alloc)?;
    put(writer, &header)
}

/// Puts what stands in the place of the record of a packet.
fn put_record<C: Write>(
    alloc: Global,
    links: &[Link],
    packet: &Packet<'_>,
    writer: &mut C,
) -> Result<(), DissectError>
    ensures put { OnOk result (PutsRecord links.now packet.now.nanoseconds (told_in packet.now.content)
        (C.contents writer.old) (C.contents writer.new)) }
    ensures none { IfErr result (λ e. NoneIf e links.now packet.now.nanoseconds (told_in packet.now.content)) }
{
    let bytes = record_of(alloc, links, packet)?;
    put(writer, &bytes)
}

/// Puts bytes.
fn put<C: Write>(writer: &mut C, bytes: &[u8]) -> Result<(), DissectError>
    ensures put { OnOk result (Appends (C.contents writer.old) (C.contents writer.new) bytes.now) }
    ensures faults { IfErr result (λ e. e ≡ DissectError.Plain) }
{
    match writer.write_all(bytes) {
        Ok(()) => Ok(()),
        Err(_) => Err(DissectError::Plain),
    }
}

/// What stands in the place of the record of a packet.
fn record_of(alloc: Global, links: &[Link], packet: &Packet<'_>) -> Result<Vec<u8>, DissectError>
    ensures record { IfOk result (λ bytes. (plain : List (ℕ × Told))
        × PlainRecord links.now packet.now.nanoseconds (told_in packet.now.content) plain × (bytes.items ≡ records_bytes plain)) }
    ensures none { IfErr result (λ e. NoneIf e links.now packet.now.nanoseconds (told_in packet.now.content)) }
{
    let mut bytes = Vec::new(alloc);
    append_record(alloc, links, &mut bytes, packet)?;
    Ok(bytes)
}

/// Appends what stands in the place of the record of a packet.
fn append_record(
    alloc: Global,
    links: &[Link],
    out: &mut Vec<u8>,
    packet: &Packet<'_>,
) -> Result<(), AppendError>
    ensures record { OnOk result ((plain : List (ℕ × Told)) × PlainRecord links.now packet.now.nanoseconds (told_in packet.now.content) plain
        × (out.new.items ≡ out.old.items ++ records_bytes plain)) }
    ensures refused { IfErr result (λ e. (e ≡ AppendError.OutOfMemory)
        ⊎ RefusesPlain links.now packet.now.nanoseconds (told_in packet.now.content) e) }
{
    let time = packet.nanoseconds;
    match packet.content {
        None => Ok(()),
        Some(Content::Note(note)) => append_note(out, time, note),
        Some(Content::Datagram { from, to, bytes }) => {
            append_datagram(alloc, links, out, time, from, to, bytes)
        }
    }
}

/// Appends the record of a note.
fn append_note(out: &mut Vec<u8>, time: u64, note: Note) -> Result<(), AppendError>
    ensures record { OnOk result (out.new.items ≡ out.old.items ++ records_bytes ((time, note_told note) ∷ [])) }
    ensures refused { IfErr result (IsRefusal (refusal_of time (note_told note))) }
{
    let captured = Captured {
        nanoseconds: time,
        content: Content::Note(note),
    };
    append_packet(out, &captured)
}

/// Appends what stands in the place of a datagram.
fn append_datagram(
    alloc: Global,
    links: &[Link],
    out: &mut Vec<u8>,
    time: u64,
    from: SocketAddr,
    to: SocketAddr,
    wire: &[u8],
) -> Result<(), AppendError>
    ensures record { OnOk result ((plain : List (ℕ × Told))
        × PlainRecord links.now time (datagram (endpoint_of from) (endpoint_of to) wire.now) plain
        × (out.new.items ≡ out.old.items ++ records_bytes plain)) }
    ensures refused { IfErr result (λ e. (e ≡ AppendError.OutOfMemory)
        ⊎ RefusesPlain links.now time (datagram (endpoint_of from) (endpoint_of to) wire.now) e) }
{
    let plain = plain_of(alloc, links, wire)?;
    append_plain(out, time, from, to, &plain)
}

/// Appends the record of a datagram.
fn append_plain(
    out: &mut Vec<u8>,
    time: u64,
    from: SocketAddr,
    to: SocketAddr,
    bytes: &[u8],
) -> Result<(), AppendError>
    ensures record { OnOk result (out.new.items
        ≡ out.old.items ++ records_bytes ((time, datagram (endpoint_of from) (endpoint_of to) bytes.now) ∷ [])) }
    ensures refused { IfErr result (IsRefusal (refusal_of time (datagram (endpoint_of from) (endpoint_of to) bytes.now))) }
{
    let captured = Captured {
        nanoseconds: time,
        content: Content::Datagram { from, to, bytes },
    };
    append_packet(out, &captured)
}

/// What stands in the place of a datagram.
fn plain_of(alloc: Global, links: &[Link], wire: &[u8]) -> Result<Vec<u8>, AllocError>
    ensures { IfOk result (λ plain. Plain links.now wire.now plain.items) }
{
    match unseal(alloc, links, wire) {
        Ok(Some(unsealed)) => Ok(unsealed.plain),
        Ok(None) => Vec::from_slice(alloc, wire),
        Err(error) => Err(error),
    }
}
