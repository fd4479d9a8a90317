//! Scripts: a setup, and what happens in the world.

ghost use Rattle.std.specs.Prelude.{◌≡◌, false, ℕ, Some, None, IfOk, if◌then◌else◌, OnErr, IsSome};
ghost use Rattle.fw_script.specs.Script.{is_skipped, item_of, with_line, with_item, script_of, SpellsScript, IsBadLine, BeginsScript};
ghost use Rattle.fw_text.specs.Words.{words_of};
ghost use Rattle.fw_script.specs.Private.{item_read, names_setup};

use crate::error::ScriptError;
use crate::item::{Item, item_of};
use fw_text::first_line;
use fw_text::words::{first_word, is};
use fw_world::{Event, Setup};
use std::alloc::{AllocError, Global};

/// What a script says: what a world is made with, and what happens in it.
#[derive(Drop)]
pub struct Script {
    pub setup: Setup,
    pub events: Vec<Event>,
}

/// The script that the input spells.
///
/// # Errors
///
/// - `BadLine`: the lines before this one begin a script, and this one can't go on with it.
/// - `OutOfMemory`.
pub fn read_script(alloc: Global, input: &[u8]) -> Result<Script, ScriptError>
    ensures ok { IfOk result (λ script. SpellsScript input.now (script_of script.setup script.events.items)) }
    ensures bad_line { (number : ℕ) → result ≡ Err (ScriptError.BadLine number) → IsBadLine input.now number }
    ensures memory { result ≡ Err ScriptError.OutOfMemory → BeginsScript input.now }
{
    let mut script = Script {
        setup: Setup {
            heads: Vec::new(alloc),
            meters: Vec::new(alloc),
        },
        events: Vec::new(alloc),
    };
    let mut rest = input;
    let mut number = 1u64;
    while let Some((line, after)) = first_line(rest) {
        if !script.add_line(alloc, line)? {
            return Err(ScriptError::BadLine(number));
        }
        rest = after;
        number += 1;
    }
    Ok(script)
}

/// Whether a line is skipped: an empty one, and one that begins with `#`.
fn is_skipped(line: &[u8]) -> bool
    ensures { result ≡ is_skipped line.now }
{
    match line.first() {
        None => true,
        Some(byte) => *byte == b'#',
    }
}

/// Whether the first word of a line is that of a setup line.
fn names_setup(line: &[u8]) -> bool
    ensures { result ≡ names_setup (words_of line.now) }
{
    let (first, _) = first_word(line);
    is(first, b"head") || is(first, b"meter")
}

impl Script {
    /// Adds one line, and returns whether the script goes on with it.
    fn add_line(&mut self, alloc: Global, line: &[u8]) -> Result<bool, AllocError>
        ensures ok { IfOk result (λ good. with_line (script_of self.old.setup self.old.events.items) line.now
            ≡ (if good then Some (script_of self.new.setup self.new.events.items) else None)) }
        ensures memory { OnErr result (IsSome (with_line (script_of self.old.setup self.old.events.items) line.now)) }
        ensures kept { OnErr result (is_skipped line.now ≡ false) }
    {
        if is_skipped(line) {
            return Ok(true);
        }
        // A setup line after an event is bad, whether or not there is memory for what it says.
        if !self.events.is_empty() && names_setup(line) {
            return Ok(false);
        }
        match item_of(alloc, line)? {
            Some(item) => self.add(item),
            None => Ok(false),
        }
    }

    /// Adds what a line says, and returns whether it may stand there: a setup line stands before all events.
    fn add(&mut self, item: Item) -> Result<bool, AllocError>
        ensures ok { IfOk result (λ added. with_item (script_of self.old.setup self.old.events.items) (item_read item)
            ≡ (if added then Some (script_of self.new.setup self.new.events.items) else None)) }
        ensures memory { OnErr result (IsSome (with_item (script_of self.old.setup self.old.events.items) (item_read item))) }
    {
        match item {
            Item::Event(event) => self.events.push(event)?,
            Item::Deliveries(mut events) => self.events.append(&mut events)?,
            Item::Head(_) | Item::Meter(_) if !self.events.is_empty() => return Ok(false),
            Item::Head(head) => self.setup.heads.push(head)?,
            Item::Meter(meter) => self.setup.meters.push(meter)?,
        }
        Ok(true)
    }
}
