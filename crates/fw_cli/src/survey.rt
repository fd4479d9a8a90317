//! The command `survey`: what each meter of a list runs, asked by GET alone.

ghost use Rattle.std.specs.Prelude.{◌≡◌, ◌≢◌, IfErr, IfOk, IfSome, OnOk};
ghost use Rattle.std.specs.Io.KnownBytes.{Appends, Keeps};
ghost use Rattle.fw_inventory.specs.Inventories.{inventory_in};
ghost use Rattle.fw_rollout.specs.Daemon.{IsList};
ghost use Rattle.fw_survey.specs.Survey.{IsSurvey, rows_of};
ghost use Rattle.fw_cli.specs.Private.{fault_of_list_file};
ghost use Rattle.fw_cli.specs.Surveying.{AreOfList, HasEnded, IsCauseOfSurvey, IsImage, IsOfferOf, TellsSurvey, fault_of_survey};
ghost use Rattle.fw_cli.specs.declared.survey.SurveyError.TheVariants as refused;

use crate::error::{FileError, ListFileError};
use crate::head::{bytes_of_file, list_of_file};
use crate::input_cause::{InputCause, cause_in_file};
use fw_blocks::MAX_IMAGE_SIZE;
use fw_faults::{Fault, write_text};
use fw_inventory::{InventoryForm, Offer, append_inventory};
use fw_names::digest_of;
use fw_port::{Closed, UdpPort};
use fw_rollout::Listed;
use fw_survey::{Row, Stop, Survey, Timer, Timing, survey_meters};
use std::alloc::{AllocError, Global};
use std::fmt;
use std::fs::File;
use std::io::Write;
use std::net::{Net, SocketAddr};
use std::rt::{Clock, Files};
use std::sync::Wait;
use std::time::Instant;
use thiserror::Error;

/// How long a receive waits, in milliseconds. It is the least time in which a silence is seen.
const WAIT_LIMIT: u64 = 5;

/// The image of which it is asked who would refuse it.
#[derive(Clone, Copy)]
pub struct SurveyOffer<'a> {
    /// Its release, and 0 if it has none.
    pub release: u32,
    /// The path of the file whose bytes are the image.
    pub image: &'a str,
}

/// The options of the command.
#[derive(Clone, Copy)]
pub struct SurveyOptions<'a> {
    /// The path of the list of the meters.
    pub meters: &'a str,
    /// The address that they are asked from.
    pub listen: SocketAddr,
    /// How answers are waited for.
    pub timing: Timing,
    /// The image of which it is asked who would refuse it, if one is given.
    pub offer: Option<SurveyOffer<'a>>,
    /// The form of the report.
    pub report: InventoryForm,
}

/// Why the command ended early. It prints its name, and of a bad line the number too.
#[derive(Clone, Copy, Debug, Error)]
pub enum SurveyError {
    /// The list of meters can't be read.
    ListFault,
    /// The line of this number, counted from 1, is none of a list.
    BadList(u64),
    /// The image can't be read.
    ImageFault,
    /// The image has no byte.
    EmptyImage,
    /// The image has more than 16,777,216 bytes.
    ImageTooLong,
    /// The address can't be received at. Or the socket failed 1,000 times in a row, or the system had no time.
    Socket,
    /// The writer failed.
    Output,
    /// Memory was refused.
    OutOfMemory,
}

impl fmt::Display for SurveyError {
    fn fmt<W: fmt::Write>(&self, f: &mut fmt::Formatter<W>) -> fmt::Result {
        match self {
            SurveyError::BadList(number) => write!(f, "BadList {number}"),
            other => fmt::Debug::fmt(other, f),
        }
    }
}

impl From<AllocError> for SurveyError {
    ghost from_gives = { λ _ e. e ≡ refused.OutOfMemory };

    fn from(_error: AllocError) -> SurveyError {
        SurveyError::OutOfMemory
    }
}

impl From<ListFileError> for SurveyError {
    ghost from_gives = { λ error e. fault_of_survey e ≡ fault_of_list_file error };

    fn from(error: ListFileError) -> SurveyError {
        match error {
            ListFileError::ListFault => SurveyError::ListFault,
            ListFileError::BadList(number) => SurveyError::BadList(number),
            ListFileError::OutOfMemory => SurveyError::OutOfMemory,
        }
    }
}

impl From<SurveyError> for Fault {
    ghost from_gives = { λ error fault. fault ≡ fault_of_survey error };

    fn from(error: SurveyError) -> Fault {
        match error {
            SurveyError::ListFault => Fault::ListFault,
            SurveyError::BadList(number) => Fault::BadList(number),
            SurveyError::ImageFault => Fault::ImageFault,
            SurveyError::EmptyImage => Fault::EmptyImage,
            SurveyError::ImageTooLong => Fault::ImageTooLong,
            SurveyError::Socket => Fault::Socket,
            SurveyError::Output => Fault::Output,
            SurveyError::OutOfMemory => Fault::OutOfMemory,
        }
    }
}

/// Asks each meter of the list what it runs, its block size, whether transfer is enabled, and its status, by GET alone, and writes what they
/// answered. A meter that doesn't answer is told as silent. No meter is changed.
///
/// # Errors
///
/// - `ListFault`: the list can't be read. `BadList`: this line is none of a list.
/// - `ImageFault`: the image can't be read. `EmptyImage`, `ImageTooLong`: it has no byte, or more than 16,777,216.
/// - `Socket`: the address can't be received at. Or the socket failed 1,000 times in a row, or the system had no time.
/// - `Output`: the writer failed. What it holds then is unspecified.
/// - `OutOfMemory`.
pub fn run_survey<R: Files<File = File> + Clock + Net + Wait, W: Write>(
    rt: &R,
    alloc: Global,
    writer: &mut W,
    options: &SurveyOptions<'_>,
) -> Result<(), SurveyError>
    // Of the files nothing is known here, so the list and the image are some. Of what a network brings nothing is known either.
    ensures told { OnOk result (TellsSurvey options.now (W.contents writer.old) (W.contents writer.new)) }
    ensures silent { IfErr result (λ e. e ≢ SurveyError.Output → Keeps (W.contents writer.old) (W.contents writer.new)) }
{
    let list = list_of_file(rt, alloc, options.meters, options.listen)?;
    let offer = offer_of(rt, alloc, options.offer)?;
    let mut survey = survey_of(alloc, list.meters().meters(), options.timing)?;
    ask_all(rt, alloc, options.listen, &mut survey)?;
    tell(alloc, writer, options.report, survey.rows(), offer)
}

/// Why a survey with these options ended so, if that is to be seen in the list. It is read as it is now.
pub fn survey_cause<F: Files<File = File> + Net>(
    rt: &F,
    alloc: Global,
    options: &SurveyOptions<'_>,
    error: SurveyError,
) -> Option<InputCause>
    ensures { IfSome result (IsCauseOfSurvey options.now.listen error) }
{
    match error {
        SurveyError::BadList(line) => {
            let cause = cause_in_file(rt, alloc, options.meters, options.listen, line)?;
            Some(InputCause::Line(cause))
        }
        _ => None,
    }
}

/// Writes what is known of each meter.
fn tell<W: Write>(
    alloc: Global,
    writer: &mut W,
    report: InventoryForm,
    rows: &[Row],
    offer: Option<Offer>,
) -> Result<(), SurveyError>
    ensures written { OnOk result (Appends (W.contents writer.old) (W.contents writer.new) (inventory_in report rows.now offer)) }
    ensures silent { IfErr result (λ e. e ≢ SurveyError.Output → Keeps (W.contents writer.old) (W.contents writer.new)) }
{
    let mut text = String::new(alloc);
    append_inventory(alloc, &mut text, report, rows, offer)?;
    write_text(writer, text.as_str()).map_err(|_| SurveyError::Output)
}

/// The image that is offered, as its file has it.
fn offer_of<F: Files<File = File>>(
    rt: &F,
    alloc: Global,
    offer: Option<SurveyOffer<'_>>,
) -> Result<Option<Offer>, SurveyError>
    ensures offer { IfOk result (IsOfferOf offer.entry) }
{
    let Some(offer) = offer else {
        return Ok(None);
    };
    let image = image_of(rt, alloc, offer.image)?;
    Ok(Some(Offer {
        release: offer.release,
        size: image.len() as u64,
        digest: digest_of(&image),
    }))
}

/// The bytes of a file, if they are an image that a campaign may offer.
fn image_of<F: Files<File = File>>(
    rt: &F,
    alloc: Global,
    path: &str,
) -> Result<Vec<u8>, SurveyError>
    ensures image { IfOk result (λ image. IsImage image.items) }
{
    let image = match bytes_of_file(rt, alloc, path) {
        Ok(image) => image,
        Err(FileError::Unread) => return Err(SurveyError::ImageFault),
        Err(FileError::TooLong) => return Err(SurveyError::ImageTooLong),
        Err(FileError::OutOfMemory) => return Err(SurveyError::OutOfMemory),
    };
    if image.is_empty() {
        return Err(SurveyError::EmptyImage);
    }
    if image.len() > MAX_IMAGE_SIZE as usize {
        return Err(SurveyError::ImageTooLong);
    }
    Ok(image)
}

/// A survey of the meters of a list.
fn survey_of(alloc: Global, list: &[Listed], timing: Timing) -> Result<Survey, AllocError>
    requires { IsList list.now }
    ensures rows { IfOk result (λ survey. AreOfList list.now (rows_of survey)) }
    ensures timing { IfOk result (λ survey. survey.timing ≡ timing) }
    ensures survey { IfOk result IsSurvey }
{
    let mut survey = Survey::new(alloc, timing);
    for at in list {
        // Each address of a list stands once, so it is added.
        let Ok(_) = survey.add(at.meter, at.address) else {
            return Err(AllocError);
        };
    }
    Ok(survey)
}

/// Asks the meters of a survey from this address, until nothing more is asked.
fn ask_all<R: Clock + Net + Wait>(
    rt: &R,
    alloc: Global,
    listen: SocketAddr,
    survey: &mut Survey,
) -> Result<(), SurveyError>
    requires { IsSurvey survey.old }
    ensures over { OnOk result (HasEnded survey.old.timing.tries (rows_of survey.old) (rows_of survey.new)) }
{
    let Ok(mut port) = UdpPort::bind_for(rt, listen, WAIT_LIMIT) else {
        return Err(SurveyError::Socket);
    };
    let mut timer = ClockTimer::new(rt);
    match survey_meters(rt, alloc, &mut timer, &mut port, survey) {
        Ok(()) => Ok(()),
        Err(Stop::Closed) => Err(SurveyError::Socket),
        Err(Stop::OutOfMemory) => Err(SurveyError::OutOfMemory),
    }
}

/// The clock of the system.
#[derive(Drop)]
struct ClockTimer<'a, C: Clock> {
    rt: &'a C,
    /// When it began, if the system had a time then.
    began: Option<Instant>,
}

impl<'a, C: Clock> ClockTimer<'a, C> {
    /// A clock that begins now.
    fn new(rt: &'a C) -> ClockTimer<'a, C> {
        ClockTimer {
            rt,
            began: Instant::now(rt).ok(),
        }
    }
}

impl<'a, C: Clock> Timer for ClockTimer<'a, C> {
    /// The microseconds since the clock began.
    fn now(&mut self) -> Result<u64, Closed> {
        let now = Instant::now(self.rt).ok();
        let (Some(began), Some(now)) = (self.began, now) else {
            return Err(Closed);
        };
        let since = now.saturating_duration_since(began).as_micros();
        Ok(u64::try_from(since).unwrap_or(u64::MAX))
    }
}
