//! What puts into a capture what a port receives and sends.

ghost use Rattle.std.specs.Prelude.{◌≡◌, ◌≤◌, IfSome, IsTrue, OnErr, OnOk, false, length};
ghost use Rattle.fw_capture.specs.View.{datagram, endpoint_of, told_of};
ghost use Rattle.fw_host.specs.Captures.{Captures, CapturesAll, CapturesArrival, CapturesNoted, IsRecorded, count_after, is_of_stranger, stranger_count, stranger_told, turn_told, unserved_told};

use crate::capture_file::{now, put_record};
use crate::strangers::Strangers;
use crate::synced_sink::SyncedSink;
use fw_capture::{Content, Note};
use fw_port::{Arrival, Closed, Patience};
use std::alloc::Global;
use std::net::SocketAddr;
use std::rt::Clock;

/// The sink of a capture, if one is asked for. None is put after one that failed, of which a part may be there. Of a meter each turn of a
/// verification has a note. A datagram of a stranger has no record, unless those are asked for: before the next record a note says how many
/// came.
#[derive(Drop)]
pub struct Recorder<'a, C: Clock, S: SyncedSink + Drop> {
    rt: &'a C,
    alloc: Global,
    /// The address that the port has.
    at: SocketAddr,
    strangers: &'a mut Strangers,
    sink: Option<S>,
    /// Whether nothing coming in time, where it isn't waited, is a turn.
    has_turns: bool,
    /// Whether a record could not be put.
    failed: bool,
}

impl<'a, C: Clock, S: SyncedSink + Drop> Recorder<'a, C, S> {
    /// The recorder of a port with this address, with turns or without. None has failed yet.
    pub(crate) fn new(
        rt: &'a C,
        alloc: Global,
        at: SocketAddr,
        strangers: &'a mut Strangers,
        sink: Option<S>,
        has_turns: bool,
    ) -> Recorder<'a, C, S>
        ensures at { result.at ≡ at }
        ensures sink { result.sink ≡ sink }
        ensures strangers { result.strangers.ghost_name ≡ strangers.entry.ghost_name }
        ensures known { result.strangers.now ≡ strangers.old }
        ensures turns { result.has_turns ≡ has_turns }
        ensures failed { result.failed ≡ false }
    {
        Recorder {
            rt,
            alloc,
            at,
            strangers,
            sink,
            has_turns,
            failed: false,
        }
    }

    /// Whether a record could not be put.
    pub(crate) fn has_failed(&self) -> bool
        ensures { result ≡ self.now.failed }
    {
        self.failed
    }

    /// Puts what was recorded on the disk, if that is due.
    pub(crate) fn settle(&mut self) -> Result<(), Closed>
        ensures same { OnOk result (self.new ≡ self.old) }
        ensures failed { OnErr result (IsTrue self.new.failed) }
    {
        let Some(sink) = &self.sink else {
            return Ok(());
        };
        match sink.settle(self.rt) {
            Ok(()) => Ok(()),
            Err(_) => {
                self.failed = true;
                Err(Closed)
            }
        }
    }

    /// Puts a record into the capture, if there is one.
    fn put_one(&mut self, content: Content<'_>) -> Result<(), Closed>
        ensures put { OnOk result (Captures S.takes self.old.sink self.new.sink (told_of content.entry)) }
        ensures recorded { OnOk result (IsRecorded S.takes self.new.sink (told_of content.entry)) }
        ensures whole { OnOk result (self.old.failed ≡ false) }
        ensures open { OnOk result (self.new.failed ≡ self.old.failed) }
        ensures strangers { self.new.strangers.now ≡ self.old.strangers.now }
        ensures turns { self.new.has_turns ≡ self.old.has_turns }
        ensures at { self.new.at ≡ self.old.at }
        ensures failed { OnErr result (IsTrue self.new.failed) }
    {
        if self.failed {
            return Err(Closed);
        }
        let Some(sink) = &mut self.sink else {
            return Ok(());
        };
        match put_record(self.alloc, sink, now(self.rt), content) {
            Ok(()) => Ok(()),
            Err(_) => {
                self.failed = true;
                Err(Closed)
            }
        }
    }

    /// Puts a record, after the note of strangers whose datagrams came since the last one, if there were any.
    fn put(&mut self, content: Content<'_>) -> Result<(), Closed>
        ensures put { OnOk result (CapturesNoted S.takes self.old.strangers.now.count self.old.sink self.new.sink (told_of content.entry)) }
        ensures recorded { OnOk result (IsRecorded S.takes self.new.sink (told_of content.entry)) }
        ensures count { OnOk result (self.new.strangers.now ≡ record self.old.strangers.now { count = 0 }) }
        ensures whole { OnOk result (self.old.failed ≡ false) }
        ensures open { OnOk result (self.new.failed ≡ self.old.failed) }
        ensures turns { self.new.has_turns ≡ self.old.has_turns }
        ensures at { self.new.at ≡ self.old.at }
        ensures failed { OnErr result (IsTrue self.new.failed) }
    {
        let count = self.strangers.count();
        if count > 0 {
            self.put_one(Content::Note(Note::Strangers(count)))?;
        }
        self.strangers.count_anew();
        self.put_one(content)
    }

    /// Puts the note of the turn of this meter that follows where nothing came, or a stranger's datagram did, and it isn't waited.
    pub(crate) fn put_turn(&mut self, patience: Patience) -> Result<(), Closed>
        ensures put { OnOk result (CapturesAll S.takes self.old.strangers.now.count self.old.sink self.new.sink
            (turn_told self.old.has_turns self.old.at patience)) }
        ensures count { OnOk result (self.new.strangers.now
            ≡ record self.old.strangers.now { count = count_after self.old.strangers.now.count (turn_told self.old.has_turns self.old.at patience) }) }
        ensures open { OnOk result (self.new.failed ≡ self.old.failed) }
        ensures failed { OnErr result (IsTrue self.new.failed) }
    {
        if self.has_turns && patience == Patience::Polls {
            let port = self.at.port();
            self.put(Content::Note(Note::TurnAt(port)))
        } else {
            Ok(())
        }
    }

    /// Whether what came is a stranger's.
    pub(crate) fn is_of_stranger(&self, came: Option<Arrival>) -> bool
        ensures { result ≡ is_of_stranger self.now.strangers.now.known came }
    {
        match came {
            Some(arrival) => self.strangers.has(arrival.from),
            None => false,
        }
    }

    /// Puts what is recorded of a stranger's datagram, or counts it, and then the turn that follows.
    fn put_stranger(
        &mut self,
        patience: Patience,
        from: SocketAddr,
        bytes: &[u8],
    ) -> Result<(), Closed>
        ensures put { OnOk result (CapturesAll S.takes (stranger_count self.old.strangers.now) self.old.sink self.new.sink
            (stranger_told self.old.strangers.now.are_recorded self.old.has_turns self.old.at patience from bytes.now)) }
        ensures open { OnOk result (self.new.failed ≡ self.old.failed) }
        ensures failed { OnErr result (IsTrue self.new.failed) }
    {
        if self.strangers.are_recorded() {
            self.put(Content::Datagram {
                from,
                to: self.at,
                bytes,
            })?;
        } else {
            self.strangers.count_one();
        }
        self.put_turn(patience)
    }

    /// Puts the records of what came: a datagram, and the turn that follows if nothing did, or a stranger's.
    pub(crate) fn put_arrival(
        &mut self,
        patience: Patience,
        came: Option<Arrival>,
        buffer: &[u8],
    ) -> Result<(), Closed>
        requires { IfSome came (λ a. a.count ≤ length buffer.now) }
        ensures put { OnOk result (CapturesArrival S.takes self.old.strangers.now self.old.has_turns self.old.at patience came buffer.now
            self.old.sink self.new.sink) }
        ensures open { OnOk result (self.new.failed ≡ self.old.failed) }
        ensures failed { OnErr result (IsTrue self.new.failed) }
    {
        match came {
            Some(arrival) if self.strangers.has(arrival.from) => {
                self.put_stranger(patience, arrival.from, &buffer[..arrival.count])
            }
            Some(arrival) => self.put(Content::Datagram {
                from: arrival.from,
                to: self.at,
                bytes: &buffer[..arrival.count],
            }),
            None => self.put_turn(patience),
        }
    }

    /// Puts the note that memory was refused for the datagram that came last.
    pub(crate) fn put_unserved(&mut self) -> Result<(), Closed>
        ensures put { OnOk result (CapturesNoted S.takes self.old.strangers.now.count self.old.sink self.new.sink
            (unserved_told self.old.at)) }
        ensures failed { OnErr result (IsTrue self.new.failed) }
    {
        let port = self.at.port();
        self.put(Content::Note(Note::UnservedAt(port)))
    }

    /// Puts the record of a datagram that is sent next.
    pub(crate) fn put_sending(&mut self, to: SocketAddr, bytes: &[u8]) -> Result<(), Closed>
        ensures put { OnOk result (CapturesNoted S.takes self.old.strangers.now.count self.old.sink self.new.sink
            (datagram (endpoint_of self.old.at) (endpoint_of to) bytes.now)) }
        ensures recorded { OnOk result (IsRecorded S.takes self.new.sink
            (datagram (endpoint_of self.new.at) (endpoint_of to) bytes.now)) }
        ensures open { OnOk result (self.new.failed ≡ false) }
        ensures failed { OnErr result (IsTrue self.new.failed) }
    {
        self.put(Content::Datagram {
            from: self.at,
            to,
            bytes,
        })
    }
}
