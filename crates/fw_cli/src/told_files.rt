//! The files in which a head end tells of itself beside its lines. They are judged before all else, and begun once all else is judged.

ghost use Rattle.std.specs.Prelude.{◌≡◌, IfErr, IsTrue, OnErr, is_some};

use crate::head_error::HeadError;
use fw_disk::{Name, Reason};
use fw_events::{Figures, ToldRows};
use fw_host::{EventFile, MetricsFile};
use fw_names::HeadId;
use std::alloc::Global;
use std::fs::File;
use std::rt::{Clock, Files};

/// A file in which a head end tells of itself.
#[derive(Clone, Copy, Debug, PartialEq, Eq)]
pub enum ToldFile {
    /// The file of events.
    Events,
    /// The file of metrics.
    Metrics,
}

/// Which of these files can't be made, opened, read or written, and why.
#[derive(Clone, Copy)]
pub struct Untold {
    /// The file.
    pub file: ToldFile,
    /// Why.
    pub reason: Reason,
}

/// Where the events and the metrics of a head end go, by the paths of the files.
pub struct ToldFiles<'a> {
    head: HeadId,
    /// The path of its book.
    book: &'a str,
    events: Option<&'a str>,
    metrics: Option<&'a str>,
    /// Which couldn't be begun, once one couldn't.
    pub untold: Option<Untold>,
}

// Written out, so that letting go of it is one call in a proof. A derived `Drop` is unfolded there field by field, which takes minutes.
impl Drop for ToldFiles<'_> {
    fn drop(self) {
        let ToldFiles {
            head: _,
            book: _,
            events: _,
            metrics: _,
            untold: _,
        } = self;
    }
}

impl<'a> ToldFiles<'a> {
    /// The files at these paths of a head end with this book, as far as they are asked for. None is made or written: each can be.
    ///
    /// # Errors
    ///
    /// Which can't be made or gone on with.
    pub fn new<R: Files<File = File>>(
        rt: &R,
        alloc: Global,
        head: HeadId,
        book: &'a str,
        events: Option<&'a str>,
        metrics: Option<&'a str>,
    ) -> Result<ToldFiles<'a>, Untold> {
        let files = ToldFiles {
            head,
            book,
            events,
            metrics,
            untold: None,
        };
        files.check_events(rt)?;
        files.check_metrics(rt, alloc)?;
        Ok(files)
    }

    /// The file of metrics, if they are asked for.
    pub(crate) fn metrics<'r, R: Files<File = File>>(
        &'r self,
        rt: &'r R,
        alloc: Global,
    ) -> Option<MetricsFile<'r, R>> {
        match self.metrics {
            Some(path) => Some(MetricsFile::new(rt, alloc, path, self.head, self.book)),
            None => None,
        }
    }

    /// Begins what a head end tells in these files that counted nothing yet.
    ///
    /// # Errors
    ///
    /// `Output`: one can't be made, opened, read or written. `untold` says which.
    pub(crate) fn begin_files<R: Files<File = File> + Clock>(
        &mut self,
        rt: &R,
        alloc: Global,
    ) -> Result<BegunFiles, HeadError>
        ensures untold { OnErr result (IsTrue (is_some self.new.untold)) }
        ensures output { IfErr result (λ e. e ≡ HeadError.Output) }
    {
        match self.begin_both(rt, alloc) {
            Ok(begun) => Ok(begun),
            Err(untold) => {
                self.untold = Some(untold);
                Err(HeadError::Output)
            }
        }
    }

    /// The same, with the file that can't be begun.
    fn begin_both<R: Files<File = File> + Clock>(
        &self,
        rt: &R,
        alloc: Global,
    ) -> Result<BegunFiles, Untold> {
        self.begin_metrics(rt, alloc)?;
        self.open_events(rt, alloc)
    }

    /// Checks that events can be told, if they are asked for.
    fn check_events<R: Files<File = File>>(&self, rt: &R) -> Result<(), Untold> {
        let Some(path) = self.events else {
            return Ok(());
        };
        match EventFile::check(rt, path) {
            Ok(()) => Ok(()),
            Err(reason) => Err(Untold {
                file: ToldFile::Events,
                reason,
            }),
        }
    }

    /// Checks that a page of metrics can be written, if they are asked for.
    fn check_metrics<R: Files<File = File>>(&self, rt: &R, alloc: Global) -> Result<(), Untold> {
        let Some(metrics) = self.metrics(rt, alloc) else {
            return Ok(());
        };
        match metrics.check() {
            Ok(()) => Ok(()),
            Err(reason) => Err(Untold {
                file: ToldFile::Metrics,
                reason,
            }),
        }
    }

    /// Opens the file of events, if they are asked for.
    fn open_events<R: Files<File = File> + Clock>(
        &self,
        rt: &R,
        alloc: Global,
    ) -> Result<BegunFiles, Untold> {
        let Some(path) = self.events else {
            return Ok(BegunFiles {
                events: None,
                rows: ToldRows::none(alloc, self.head),
            });
        };
        match EventFile::open(rt, alloc, path, self.head) {
            Ok((events, rows)) => Ok(BegunFiles {
                events: Some(events),
                rows,
            }),
            Err(reason) => Err(Untold {
                file: ToldFile::Events,
                reason,
            }),
        }
    }

    /// Writes a page of metrics of a head end that counted nothing yet, if they are asked for.
    fn begin_metrics<R: Files<File = File>>(&self, rt: &R, alloc: Global) -> Result<(), Untold> {
        let Some(metrics) = self.metrics(rt, alloc) else {
            return Ok(());
        };
        match metrics.write(&[], Figures::NONE) {
            Ok(()) => Ok(()),
            Err(cause) => Err(Untold {
                file: ToldFile::Metrics,
                reason: cause.at(Name::Main),
            }),
        }
    }
}

/// What was begun: the file of events, if they are asked for, and the rows of which it tells.
pub(crate) struct BegunFiles {
    pub(crate) events: Option<EventFile>,
    pub(crate) rows: ToldRows,
}

// Written out, so that letting go of it is one call in a proof. A derived `Drop` is unfolded there field by field, which takes minutes.
impl Drop for BegunFiles {
    fn drop(self) {
        let BegunFiles { events: _, rows: _ } = self;
    }
}
