//! The file of a head end's metrics, which is replaced whole.

ghost use Rattle.std.specs.Prelude.{IsTrue, OnOk};
ghost use Rattle.fw_host.specs.Events.{MayHavePage};

use crate::capture_making::begins_as;
use fw_disk::{
    Cause, FRONT_SIZE, Folder, Kind, Name, Reason, SystemFolder, abandon, begin, fill, finish,
    open_companion, replace,
};
use fw_events::{Figures, metrics_page};
use fw_names::HeadId;
use fw_status::CampaignStatus;
use std::alloc::Global;
use std::fs::File;
use std::rt::Files;

/// What the first bytes of a page are.
const FRONT: [u8; FRONT_SIZE] = *b"# HELP dlmsfw_bo";

/// A page of metrics, or what a cut making left of it.
#[derive(Clone, Copy)]
struct Page;

impl Kind for Page {
    ghost use Rattle.fw_host.specs.Events.{IsPage, none_is_page, front_is_page};

    ghost ours = { λ _. IsPage };

    ghost first = { λ _. 0 };

    fn is_ours(&self, front: &[u8], _len: u64) -> bool {
        begins_as(front, &FRONT)
    }

    fn first(&self) -> usize {
        0
    }

    ghost small = { λ _. none_is_page };

    ghost fronts = { λ _. front_is_page };
}

/// Where the metrics of a head end go. Nothing is known of what the file holds.
#[derive(Drop)]
pub struct MetricsFile<'a, R> {
    rt: &'a R,
    alloc: Global,
    path: &'a str,
    head: HeadId,
    /// The path of its book.
    book: &'a str,
}

impl<'a, R: Files<File = File>> MetricsFile<'a, R> {
    /// The file at this path, of a head end with this book.
    pub fn new(
        rt: &'a R,
        alloc: Global,
        path: &'a str,
        head: HeadId,
        book: &'a str,
    ) -> MetricsFile<'a, R> {
        MetricsFile {
            rt,
            alloc,
            path,
            head,
            book,
        }
    }

    /// Whether a page can be put in the place of the one that is there, or made if nothing is there. None is.
    ///
    /// # Errors
    ///
    /// Those of `write`. With `Name::New` it is the file beside it, as which a page is made.
    pub fn check(&self) -> Result<(), Reason> {
        match SystemFolder::of(self.rt, self.path) {
            Ok(mut folder) => try_page(&mut folder),
            Err(cause) => Err(cause.at(Name::Main)),
        }
    }

    /// Puts a page in the place of the one that is there: it is made as FILE.new, and named FILE once the disk has it.
    ///
    /// # Errors
    ///
    /// Why the file can't be made or written, or that it is another program's, which is left as it is.
    pub fn write(&self, campaigns: &[CampaignStatus], figures: Figures) -> Result<(), Cause> {
        let page = metrics_page(self.alloc, self.head, self.book, campaigns, figures)?;
        let mut folder = SystemFolder::of(self.rt, self.path)?;
        put(&mut folder, page.as_bytes())
    }
}

/// Whether a page can be put in the place of FILE: that is a page, or nothing, and one is begun as FILE.new, and taken away again.
fn try_page<F: Folder>(folder: &mut F) -> Result<(), Reason>
    ensures page { IsTrue (F.seen folder.old).honest → OnOk result (MayHavePage (F.seen folder.old).disk) }
{
    match open_companion(folder, Name::Main, &Page) {
        Ok(_page) => try_new_page(folder),
        Err(cause) => Err(cause.at(Name::Main)),
    }
}

/// Whether FILE.new can be begun, which is taken away again.
fn try_new_page<F: Folder>(folder: &mut F) -> Result<(), Reason> {
    match begin(folder, Name::New, &Page) {
        Ok(file) => {
            abandon(folder, Name::New, &file);
            Ok(())
        }
        Err(cause) => Err(cause.at(Name::New)),
    }
}

/// Puts these bytes in the place of FILE.
fn put<F: Folder>(folder: &mut F, bytes: &[u8]) -> Result<(), Cause> {
    match open_companion(folder, Name::Main, &Page)? {
        Some(old) => match replace(folder, &old, &Page, bytes) {
            Ok(_) => Ok(()),
            Err(error) => Err(error.cause()),
        },
        None => make(folder, bytes),
    }
}

/// Makes FILE with these bytes, where nothing is.
fn make<F: Folder>(folder: &mut F, bytes: &[u8]) -> Result<(), Cause> {
    let file = begin(folder, Name::New, &Page)?;
    match fill_and_name(folder, &file, bytes) {
        Ok(()) => Ok(()),
        Err(cause) => {
            abandon(folder, Name::New, &file);
            Err(cause)
        }
    }
}

/// Gives FILE.new, which was begun, its bytes, and then the name FILE.
fn fill_and_name<F: Folder>(folder: &mut F, file: &F::File, bytes: &[u8]) -> Result<(), Cause> {
    fill(folder, file, &Page, bytes)?;
    match finish(folder, file) {
        Ok(()) => Ok(()),
        Err(error) => Err(error.cause()),
    }
}
