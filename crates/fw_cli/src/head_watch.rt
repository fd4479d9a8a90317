//! What a head end writes of itself beside its lines and its progress: events, and metrics.

use crate::going_on::count_in;
use crate::head_error::HeadError;
use fw_book::{Book, Notes, RowState};
use fw_disk::Cause;
use fw_events::{Event, Figures, ToldRows, untold_events};
use fw_head::HeadCore;
use fw_host::{EventFile, HeadProgress, MetricsFile, Unwritten};
use fw_names::CampaignId;
use fw_rollout::{Counts, HeadWatch, SECOND, Stuck};
use fw_status::push_campaigns;
use std::alloc::{AllocError, Global};
use std::fs::File;
use std::rt::{Clock, Files};

/// The microseconds from one page of metrics to the next.
const PAGE: u64 = 15 * SECOND;

/// The microseconds from one event of progress to the next.
const MINUTE: u64 = 60 * SECOND;

/// Where the events and the metrics of a head end go, once their files are begun.
#[derive(Drop)]
pub(crate) struct HeadTold<'a, R> {
    /// The file of events, if they are asked for.
    pub(crate) events: Option<&'a EventFile>,
    /// The file of metrics, if they are asked for.
    pub(crate) metrics: Option<MetricsFile<'a, R>>,
}

impl<'a, R: Files<File = File>> HeadTold<'a, R> {
    /// Tells that a head end begins, and with which campaigns it goes on.
    pub(crate) fn start(&self, book: &Book) {
        let Some(events) = self.events else {
            return;
        };
        events.tell(Event::Started);
        for (serial, offer) in book.rows() {
            let rows = offer.rows();
            let live = count_in(rows, RowState::Live) as u64;
            if live > 0 {
                events.tell(Event::GoingOn {
                    serial: *serial,
                    live,
                    done: count_in(rows, RowState::Done) as u64,
                    failed: count_in(rows, RowState::Failed) as u64,
                });
            }
        }
    }

    /// Tells of each row that ended and isn't among these, of which events told: a kill may come between a commit and an event, and `cancel`
    /// and `give-up` end rows without one. The events of one campaign at most are in memory.
    pub(crate) fn catch_up(
        &self,
        alloc: Global,
        told: &ToldRows,
        book: &Book,
        notes: &Notes,
    ) -> Result<(), AllocError> {
        let Some(events) = self.events else {
            return Ok(());
        };
        let head = book.head();
        for (serial, offer) in book.rows() {
            let Some(campaign) = CampaignId::new(head, *serial) else {
                continue;
            };
            for event in &untold_events(alloc, told, notes, campaign, offer.rows())? {
                events.tell(*event);
            }
        }
        events.sync();
        Ok(())
    }

    /// Tells that an error ended a head end, if there is memory for its name.
    pub(crate) fn fault(&self, alloc: Global, error: HeadError) {
        if let (Some(events), Ok(name)) = (self.events, error.to_string(alloc)) {
            events.tell_fault(name.as_str());
        }
    }
}

/// What looks at a head end while it leads. If an event or a page of metrics can't be written, standard error is told so, of each once.
#[derive(Drop)]
pub(crate) struct Watched<'a, R: Clock + Eprint> {
    rt: &'a R,
    alloc: Global,
    progress: HeadProgress<'a, R>,
    told: &'a HeadTold<'a, R>,
    /// What was counted last.
    figures: Figures,
    synced_at: u64,
    told_at: u64,
    written_at: u64,
    /// Whether standard error was told that an event was lost.
    has_told_event: bool,
    /// Whether it was told that a page wasn't written.
    has_told_page: bool,
}

impl<'a, R: Files<File = File> + Clock + Eprint> Watched<'a, R> {
    /// What shows the progress so, and writes there. Nothing is counted yet.
    pub(crate) fn new(
        rt: &'a R,
        alloc: Global,
        progress: HeadProgress<'a, R>,
        told: &'a HeadTold<'a, R>,
    ) -> Watched<'a, R> {
        Watched {
            rt,
            alloc,
            progress,
            told,
            figures: Figures::NONE,
            synced_at: 0,
            told_at: 0,
            written_at: 0,
            has_told_event: false,
            has_told_page: false,
        }
    }

    /// Writes the last page of metrics, and puts events on the disk.
    pub(crate) fn finish(&mut self, book: &Book) {
        self.write(book);
        if let Some(events) = self.told.events {
            events.sync();
        }
        self.tell_lost_event();
    }

    /// Writes a page of metrics, if they are asked for. If it can't be written, that is said once.
    fn write(&mut self, book: &Book) {
        match self.write_page(book) {
            Err(cause) if !self.has_told_page => {
                self.has_told_page = true;
                self.progress.tell_unwritten(Unwritten::Page(cause));
            }
            _ => {}
        }
    }

    /// Writes a page of metrics, if they are asked for.
    fn write_page(&self, book: &Book) -> Result<(), Cause> {
        let Some(metrics) = &self.told.metrics else {
            return Ok(());
        };
        let mut campaigns = Vec::new(self.alloc);
        // Of when they were opened a page says nothing.
        push_campaigns(&mut campaigns, book, &Notes::none(self.alloc))?;
        metrics.write(&campaigns, self.figures)
    }

    /// If an event was lost, that is said once.
    fn tell_lost_event(&mut self) {
        let Some(events) = self.told.events else {
            return;
        };
        match events.cause() {
            Some(cause) if !self.has_told_event => {
                self.has_told_event = true;
                self.progress.tell_unwritten(Unwritten::Event(cause));
            }
            _ => {}
        }
    }

    /// Tells of a row that got nowhere.
    fn tell_stuck(&self, stuck: &Stuck) {
        if let Some(events) = self.told.events {
            events.set_time(self.rt);
            events.tell(event_of(stuck));
        }
    }

    /// Puts events on the disk each second, and tells of the progress each minute.
    fn tell(&mut self, now: u64) {
        let Some(events) = self.told.events else {
            return;
        };
        if is_over(&mut self.told_at, now, MINUTE) {
            events.set_time(self.rt);
            events.tell(Event::Progress {
                figures: self.figures,
            });
        }
        if is_over(&mut self.synced_at, now, SECOND) {
            events.sync();
        }
    }
}

impl<'a, R: Files<File = File> + Clock + Eprint> HeadWatch for Watched<'a, R> {
    fn round(
        &mut self,
        now: u64,
        counts: Counts,
        faults: u64,
        unopened: u64,
        head: &HeadCore,
        stuck: Option<Stuck>,
    ) {
        if let Some(stuck) = &stuck {
            self.tell_stuck(stuck);
        }
        self.progress
            .round(now, counts, faults, unopened, head, stuck);
        self.figures = figures_of(counts, faults, unopened);
        self.tell(now);
        self.tell_lost_event();
        if is_over(&mut self.written_at, now, PAGE) {
            self.write(head.view().book);
        }
    }
}

/// The event of a row that got nowhere.
fn event_of(stuck: &Stuck) -> Event {
    Event::Stuck {
        serial: stuck.campaign.serial(),
        meter: stuck.meter.number(),
        from: stuck.from,
    }
}

/// Whether so much time went by since another, which is now then.
fn is_over(since: &mut u64, now: u64, time: u64) -> bool {
    let over = now.saturating_sub(*since) >= time;
    if over {
        *since = now;
    }
    over
}

/// What a head end counted.
fn figures_of(counts: Counts, faults: u64, unopened: u64) -> Figures {
    let Counts {
        live,
        done,
        failed,
        sent,
        received,
        resends,
        strangers,
    } = counts;
    Figures {
        live,
        done,
        failed,
        sent,
        received,
        resends,
        strangers,
        faults,
        unopened,
    }
}
