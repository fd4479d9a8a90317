//! A log that was opened, which has its datagrams itself.

ghost use Rattle.std.specs.Prelude.{◌≡◌, ◌++◌, ◌-◌, ◌<◌, [], IfOk, OnErr, OnOk, length, map};
ghost use Rattle.fw_audit.specs.Log.{Item, item_of, log_of};
ghost use Rattle.fw_evidence.specs.Private.{said_in};
ghost use Rattle.fw_evidence.specs.Sealed.{items_in, marks_in, opened_item};

use crate::error::Mark;
use crate::log::Log;
use fw_audit::LogItem;
use std::alloc::{AllocError, Global};
use std::net::SocketAddr;

/// An item in plain words.
#[derive(Drop)]
pub(crate) enum OpenedItem {
    Started,
    Came { from: SocketAddr, bytes: Vec<u8> },
    Sent { to: SocketAddr, bytes: Vec<u8> },
    Turned,
}

impl OpenedItem {
    /// The item, as a log has it.
    fn to_item(&self) -> LogItem<'_>
        ensures { item_of result ≡ opened_item self.now }
    {
        match self {
            OpenedItem::Started => LogItem::Started,
            OpenedItem::Came { from, bytes } => LogItem::Came {
                from: *from,
                bytes: bytes.as_slice(),
            },
            OpenedItem::Sent { to, bytes } => LogItem::Sent {
                to: *to,
                bytes: bytes.as_slice(),
            },
            OpenedItem::Turned => LogItem::Turned,
        }
    }
}

/// An item in plain words, with the record that it is of.
#[derive(Drop)]
struct OpenedEntry {
    item: OpenedItem,
    mark: Mark,
}

/// The log of an end whose links are sealed, in plain words.
#[derive(Drop)]
pub struct OpenedLog {
    entries: Vec<OpenedEntry>,
    /// How many items it was opened from.
    count: usize,
}

impl OpenedLog {
    /// A log without an item, to be opened from so many.
    pub(crate) fn new(alloc: Global, count: usize) -> OpenedLog
        ensures items { result.entries.items ≡ [] }
        ensures count { result.count ≡ count }
    {
        OpenedLog {
            entries: Vec::new(alloc),
            count,
        }
    }

    /// Appends an item, if there is one, with its record. After an error it is unspecified.
    pub(crate) fn add(&mut self, mark: Mark, said: Option<OpenedItem>) -> Result<(), AllocError>
        ensures items { OnOk result (items_in self.new ≡ items_in self.old ++ said_in said) }
        ensures marks { OnOk result (marks_in self.new ≡ marks_in self.old ++ map (λ (_ : Item). mark) (said_in said)) }
        ensures count { OnOk result (self.new.count ≡ self.old.count) }
    {
        match said {
            Some(item) => {
                self.entries.push(OpenedEntry { item, mark })?;
                Ok(())
            }
            None => Ok(()),
        }
    }

    /// How many datagrams say nothing in it, of those that came.
    pub fn count_of_passed(&self) -> usize
        ensures { result ≡ self.now.count - length (items_in self.now) }
    {
        self.count.saturating_sub(self.entries.len())
    }

    /// The log, as an audit has it.
    ///
    /// # Errors
    ///
    /// `AllocError` if memory was refused, which isn't wanted if there is no item.
    pub fn to_log(&self, alloc: Global) -> Result<Log<'_>, AllocError>
        ensures items { IfOk result (λ log. log_of log.items.items ≡ items_in self.now) }
        ensures marks { IfOk result (λ log. log.marks.items ≡ marks_in self.now) }
        ensures memory { OnErr result (0 < length (items_in self.now)) }
    {
        let mut log = Log::new(alloc);
        for at in 0..self.entries.len() {
            let entry = &self.entries[at];
            log.add(entry.mark, Some(entry.item.to_item()))?;
        }
        Ok(log)
    }
}
