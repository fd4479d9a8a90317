//! What a datagram says, in words.

ghost use Rattle.std.specs.Prelude.{◌≡◌, ◌++◌, ℕ, List, IfOk, OnOk, string_bytes};
ghost use Rattle.fw_report.specs.Message.{Says};
ghost use Rattle.fw_dissect.specs.Lines.{AreWords, PlainWords, direction_of, opened_words, unopened_words};

use fw_report::{Message, answered, append_message, asked};
use fw_seal::Link;
use fw_unseal::{Unsealed, counter_of, unseal};
use fw_world::Direction;
use std::alloc::{AllocError, Global};

/// Appends what a datagram says, opened if the other end of one of these links sealed it.
pub(crate) fn append_words(
    alloc: Global,
    links: &[Link],
    text: &mut String,
    bytes: &[u8],
) -> Result<(), AllocError>
    ensures { OnOk result ((words : List ℕ) × AreWords links.now bytes.now words
        × (string_bytes text.new ≡ string_bytes text.old ++ words)) }
{
    if let Some(unsealed) = unseal(alloc, links, bytes)? {
        return append_unsealed(alloc, text, &unsealed);
    }
    match counter_of(bytes) {
        Some(counter) => append_unopened(text, counter, bytes.len()),
        None => append_plain(alloc, text, bytes),
    }
}

/// Appends what a datagram says that was opened.
fn append_unsealed(alloc: Global, text: &mut String, unsealed: &Unsealed) -> Result<(), AllocError>
    ensures { OnOk result ((said : List ℕ) × PlainWords unsealed.now.plain.items said
        × (string_bytes text.new ≡ string_bytes text.old ++ opened_words unsealed.now.counter said)) }
{
    let counter = unsealed.counter;
    write!(text, "sealed {counter} ")?;
    append_plain(alloc, text, &unsealed.plain)
}

/// Appends what is told of a datagram of so many bytes that looks sealed, with this counter, and isn't opened.
fn append_unopened(text: &mut String, counter: u32, size: usize) -> Result<(), AllocError>
    ensures { OnOk result (string_bytes text.new ≡ string_bytes text.old ++ unopened_words counter size) }
{
    write!(text, "sealed {counter} unopened ({size} bytes)")
}

/// Appends what the bytes of a datagram say as they are.
fn append_plain(alloc: Global, text: &mut String, bytes: &[u8]) -> Result<(), AllocError>
    ensures { OnOk result ((words : List ℕ) × PlainWords bytes.now words
        × (string_bytes text.new ≡ string_bytes text.old ++ words)) }
{
    match said(alloc, bytes) {
        Ok(message) => append_message(text, message),
        Err(error) => Err(error),
    }
}

/// What they say.
fn said(alloc: Global, bytes: &[u8]) -> Result<Message, AllocError>
    ensures { IfOk result (Says (direction_of bytes.now) bytes.now) }
{
    match direction_of(bytes) {
        Direction::ToMeter => asked(alloc, bytes),
        Direction::ToHead => answered(alloc, bytes),
    }
}

/// Which way a datagram goes.
fn direction_of(bytes: &[u8]) -> Direction
    ensures { result ≡ direction_of bytes.now }
{
    match bytes.get(8) {
        Some(0xc0 | 0xc1 | 0xc3) => Direction::ToMeter,
        _ => Direction::ToHead,
    }
}
