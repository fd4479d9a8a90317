//! The reading of key files.

ghost use Rattle.std.specs.Prelude.{◌≡◌, ◌≤◌, ◌+◌, ℕ, IfOk, MatchResult};
ghost use Rattle.std.specs.List.{AllZip};
ghost use Rattle.std.specs.Net.Grammar.{IsSocketText};
ghost use Rattle.fw_text.specs.Lines.{lines_of};
ghost use Rattle.fw_keys.specs.declared.error.BadLine.{BadLine};
ghost use Rattle.fw_keys.specs.Links.{IsNew};
ghost use Rattle.fw_keys.specs.KeyFiles.{Spells, SpellsHeadKeys, SpellsMeterKeys};
ghost use Rattle.fw_keys.specs.Refusals.{AreNoLinks, IsBad, NoHeadKeys, NoMeterKeys};

use crate::entry::Entry;
use crate::error::{BadLine, KeysError};
use crate::file::KeyFile;
use crate::line::{parts_of, title_of};
use crate::names::EndName;
use crate::titles::head_title;
use fw_names::{HeadId, MeterId};
use fw_seal::TITLE_SIZE;
use fw_text::first_line;
use std::alloc::Global;
use std::net::SocketAddr;

/// The key file that a text is, of the head end with this number.
///
/// # Errors
///
/// - `BadKeys`: the first line with which the text is no key file, and what is wrong with it.
/// - `OutOfMemory`.
pub fn read_head_keys(
    alloc: Global,
    text: &[u8],
    head: HeadId,
) -> Result<KeyFile<MeterId>, KeysError>
    ensures spells { IfOk result (λ file. SpellsHeadKeys text.now head file) }
    ensures refused { (number : ℕ) (why : BadLine) → result ≡ Err (KeysError.BadKeys number why) → NoHeadKeys text.now head number why }
{
    read_links(alloc, head_title(head), text, 0)
}

/// The key file that a text is, of a meter.
///
/// # Errors
///
/// - `BadKeys`: the first line with which the text is no key file, and what is wrong with it. Of an empty text that is line 1.
/// - `OutOfMemory`.
pub fn read_meter_keys(alloc: Global, text: &[u8]) -> Result<KeyFile<SocketAddr>, KeysError>
    ensures spells { IfOk result (λ file. SpellsMeterKeys text.now file) }
    ensures refused { (number : ℕ) (why : BadLine) → result ≡ Err (KeysError.BadKeys number why) → NoMeterKeys text.now number why }
{
    let Some((first, others)) = first_line(text) else {
        return Err(KeysError::BadKeys(1, BadLine::BadTitle));
    };
    let Some(own) = title_of(first) else {
        return Err(KeysError::BadKeys(1, BadLine::BadTitle));
    };
    read_links(alloc, own, others, 1)
}

/// The key file of the end with this title whose links the lines of a text are, behind so many other lines.
fn read_links<N: EndName>(
    alloc: Global,
    own: [u8; TITLE_SIZE],
    text: &[u8],
    before: u64,
) -> Result<KeyFile<N>, KeysError>
    requires { before ≤ 1 }
    ensures own { IfOk result (λ file. file.own ≡ own) }
    ensures spells { IfOk result (λ file. AllZip (λ line entry. Spells N.names line entry) (lines_of text.now) file.entries) }
    ensures refused { (number : ℕ) (why : BadLine) → result ≡ Err (KeysError.BadKeys number why)
        → AreNoLinks N.names own (before + 1) (lines_of text.now) number why }
{
    let mut file = KeyFile::none(alloc, own);
    let mut rest = text;
    let mut number = before;
    while let Some((line, after)) = first_line(rest) {
        number += 1;
        match link_of(&file, line) {
            Ok(entry) => file.add(entry)?,
            Err(why) => return Err(KeysError::BadKeys(number, why)),
        }
        rest = after;
    }
    Ok(file)
}

/// The link whose line this is, behind those of the file.
fn link_of<N: EndName>(file: &KeyFile<N>, line: &[u8]) -> Result<Entry<N>, BadLine>
    ensures { MatchResult result (λ entry. Spells N.names line.now entry × IsNew file.now.own file.now.entries entry)
        (IsBad N.names file.now.own file.now.entries line.now) }
{
    let Some((name, keys)) = parts_of(line) else {
        return Err(BadLine::BadFields);
    };
    let Some(end) = N::read(name) else {
        return Err(BadLine::BadName);
    };
    let entry = Entry { end, keys };
    match file.check(&entry) {
        Ok(()) => Ok(entry),
        Err(why) => Err(why),
    }
}
