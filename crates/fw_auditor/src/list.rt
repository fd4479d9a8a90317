//! Lists of what is audited. A line has the number of a meter, the address at which it receives, as its capture has it, the path of its
//! capture and that of its store, and, if it didn't begin new, the path of the store at rest that it began from. Between them stand commas, and
//! none in a path. Empty lines say nothing.

ghost use Rattle.std.specs.Prelude.{◌≡◌, ◌⊎◌, ℕ, IfErr};
ghost use Rattle.fw_auditor.specs.declared.error.LineCause.{LineCause as TheCause};

use crate::error::{LineCause, Unaudited};
use fw_names::MeterId;
use std::alloc::Global;
use std::net::SocketAddr;

/// A meter that is audited.
#[derive(Clone, Copy)]
pub(crate) struct Subject<'a> {
    /// The number of its line, counted from 1.
    line: u64,
    pub(crate) meter: MeterId,
    /// The address at which it receives.
    pub(crate) address: SocketAddr,
    /// The path of its capture.
    pub(crate) capture: &'a str,
    /// The path of its store.
    pub(crate) store: &'a str,
    /// The path of the store that it began from, if it didn't begin new.
    pub(crate) began: Option<&'a str>,
}

/// The meters of a list, each once.
///
/// # Errors
///
/// - `ListFault`: the list is no text.
/// - `BadList`: this line has no meter's number, address and paths, or an earlier line has its number, as the cause says.
/// - `OutOfMemory`.
pub(crate) fn subjects_in(alloc: Global, list: &[u8]) -> Result<Vec<Subject<'_>>, Unaudited>
    ensures faults { IfErr result (λ f. (f ≡ Unaudited.ListFault) ⊎ ((f ≡ Unaudited.OutOfMemory)
        ⊎ ((line : ℕ) × (why : TheCause) × (f ≡ Unaudited.BadList line why)))) }
{
    let Ok(text) = str::from_utf8(list) else {
        return Err(Unaudited::ListFault);
    };
    let mut subjects = Vec::new(alloc);
    let mut number = 0u64;
    for line in text.lines() {
        number = number.saturating_add(1);
        if !line.is_empty() {
            let subject = match subject_in(number, line) {
                Ok(subject) => subject,
                Err(why) => return Err(Unaudited::BadList(number, why)),
            };
            if let Some(first) = line_of(&subjects, subject.meter) {
                return Err(Unaudited::BadList(number, LineCause::NumberTwice(first)));
            }
            if subjects.push(subject).is_err() {
                return Err(Unaudited::OutOfMemory);
            }
        }
    }
    Ok(subjects)
}

/// The meter of the line of this number, if it has the fields of one.
fn subject_in(at: u64, line: &str) -> Result<Subject<'_>, LineCause> {
    let (number, rest) = field_of(line)?;
    let (address, rest) = field_of(rest)?;
    let (capture, rest) = field_of(rest)?;
    let (store, began) = match rest.split_once(',') {
        Some((store, began)) => (store, Some(path_in(began)?)),
        None => (rest, None),
    };
    Ok(Subject {
        line: at,
        meter: meter_of(number)?,
        address: address_of(address)?,
        capture: path_in(capture)?,
        store: path_in(store)?,
        began,
    })
}

/// The first field of a line, of which another follows, and what stands behind it.
fn field_of(line: &str) -> Result<(&str, &str), LineCause> {
    match line.split_once(',') {
        Some(both) => Ok(both),
        None => Err(LineCause::FewFields),
    }
}

/// The meter of a number.
fn meter_of(text: &str) -> Result<MeterId, LineCause> {
    match text.parse::<u32>() {
        Ok(number) => match MeterId::new(number) {
            Some(meter) => Ok(meter),
            None => Err(LineCause::NoNumber),
        },
        Err(_) => Err(LineCause::NoNumber),
    }
}

/// The address that a text spells.
pub(crate) fn address_of(text: &str) -> Result<SocketAddr, LineCause> {
    match text.parse::<SocketAddr>() {
        Ok(address) => Ok(address),
        Err(_) => Err(LineCause::NoAddress),
    }
}

/// The path in a last or only field.
pub(crate) fn path_in(text: &str) -> Result<&str, LineCause> {
    if text.is_empty() {
        Err(LineCause::NoPath)
    } else if text.contains(',') {
        Err(LineCause::MoreFields)
    } else {
        Ok(text)
    }
}

/// The line of a meter, if it is among these.
fn line_of(subjects: &[Subject<'_>], meter: MeterId) -> Option<u64> {
    for at in 0..subjects.len() {
        if subjects[at].meter == meter {
            return Some(subjects[at].line);
        }
    }
    None
}
