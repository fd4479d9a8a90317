//! A capture, read as the log of a meter.

ghost use Rattle.std.specs.Prelude.{◌≡◌, ◌++◌, [], IfErr, IfOk, IsSome, OnErr, OnOk, option_to_list};
ghost use Rattle.fw_audit.specs.Log.{log_of};
ghost use Rattle.fw_capture.specs.View.{told_in};
ghost use Rattle.fw_evidence.specs.Captures.{IsLogOf, IsNoLog};
ghost use Rattle.fw_evidence.specs.Private.{IsStrayAt, Takes, marks_in};

use crate::error::{LogError, Mark};
use crate::item::item_in;
use crate::site::Site;
use fw_audit::LogItem;
use fw_capture::{Content, Reader};
use std::alloc::{AllocError, Global};

/// The log of a meter or of a head end, as a capture has it.
#[derive(Drop)]
pub struct Log<'a> {
    pub items: Vec<LogItem<'a>>,
    /// The record of each item, at its place.
    pub marks: Vec<Mark>,
}

impl<'a> Log<'a> {
    /// A log without an item.
    pub(crate) fn new(alloc: Global) -> Log<'a>
        ensures items { result.items.items ≡ [] }
        ensures marks { result.marks.items ≡ [] }
    {
        Log {
            items: Vec::new(alloc),
            marks: Vec::new(alloc),
        }
    }

    /// Appends an item, if there is one, with its record. After an error it is unspecified.
    pub(crate) fn add(&mut self, mark: Mark, item: Option<LogItem<'a>>) -> Result<(), AllocError>
        ensures items { OnOk result (self.new.items.items ≡ self.old.items.items ++ option_to_list item.entry) }
        ensures marks { OnOk result (self.new.marks.items ≡ self.old.marks.items ++ marks_in mark item.entry) }
        ensures memory { OnErr result (IsSome item.entry) }
    {
        match item {
            Some(item) => {
                self.items.push(item)?;
                self.marks.push(mark)?;
                Ok(())
            }
            None => Ok(()),
        }
    }

    /// Appends what this record says to the meter at this site. After an error it is unspecified.
    ///
    /// # Errors
    ///
    /// `Stray` just if the record is of no meter there, and otherwise `OutOfMemory` alone, if it says an item.
    fn take(
        &mut self,
        site: Site<'_>,
        mark: Mark,
        content: Option<Content<'a>>,
    ) -> Result<(), LogError>
        ensures taken { OnOk result (Takes site.entry mark (told_in content.entry) self.old.items.items self.old.marks.items
            self.new.items.items self.new.marks.items) }
        ensures stray { IfErr result (λ error. IsStrayAt site.entry mark (told_in content.entry) error) }
    {
        let item = match item_in(site, content) {
            Ok(item) => item,
            Err(stray) => return Err(LogError::Stray(mark, stray)),
        };
        match self.add(mark, item) {
            Ok(()) => Ok(()),
            Err(_) => Err(LogError::OutOfMemory),
        }
    }
}

/// The log of the meter at this site, if all records of this capture are of the meters there: each start, each turn of its own, each datagram
/// that came to its address and each that was sent from there, in their order, with the record of each. A note that counts datagrams of
/// strangers says nothing in it, nor does a record of another meter.
///
/// # Errors
///
/// - `Fault` or `Stray`, whichever comes first in the capture.
/// - `OutOfMemory`: memory was refused for an item. The records before it are those of meters there.
pub fn read_log<'a>(alloc: Global, site: Site<'_>, capture: &'a [u8]) -> Result<Log<'a>, LogError>
    ensures log { IfOk result (λ log. IsLogOf site.entry capture.now (log_of log.items.items) log.marks.items) }
    ensures none { IfErr result (λ error. IsNoLog site.entry capture.now error) }
{
    let mut reader = match Reader::new(capture) {
        Ok(reader) => reader,
        Err(error) => return Err(LogError::Fault(error)),
    };
    let mut log = Log::new(alloc);
    // A record has a byte at least, so there are no more of them than bytes.
    for number in 0..capture.len() {
        let packet = match reader.next() {
            Ok(Some(packet)) => packet,
            Ok(None) => return Ok(log),
            Err(error) => return Err(LogError::Fault(error)),
        };
        let mark = Mark {
            number,
            offset: packet.offset,
        };
        match log.take(site, mark, packet.content) {
            Ok(()) => {}
            Err(error) => return Err(error),
        }
    }
    Ok(log)
}
