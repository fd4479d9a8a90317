//! The campaigns that an opening lacks.

ghost use Rattle.std.specs.Prelude.{◌≤◌, IfOk, IfErr, IfSome};
ghost use Rattle.fw_plan.specs.Openings.{AreParts, PartsRefused, lacking};
ghost use Rattle.fw_plan.specs.Private.{IsNextFrom};

use crate::error::PlanError;
use crate::free::next_free;
use crate::missing::lacking;
use crate::part::Part;
use fw_book::{Book, MAX_METERS};
use fw_names::MeterId;
use std::alloc::Global;

/// The campaigns that a book lacks for the meters of a list, from a serial number on, each for the next 256 meters at most that lack one, under
/// the next free serial numbers. None if no meter lacks one.
///
/// # Errors
///
/// `NoSerial` if the serial number is 0, which is none, or too few are free from it on. Otherwise `OutOfMemory` alone.
pub fn missing_parts(
    alloc: Global,
    book: &Book,
    serial: u32,
    release: u32,
    image: &[u8],
    meters: &[MeterId],
) -> Result<Vec<Part>, PlanError>
    ensures parts { IfOk result (λ parts. AreParts book.now serial (lacking book.now serial release image.now meters.now) parts.items) }
    ensures refused { IfErr result (PartsRefused book.now serial (lacking book.now serial release image.now meters.now)) }
{
    if serial == 0 {
        return Err(PlanError::NoSerial);
    }
    let lacking = lacking(alloc, book, serial, release, image, meters)?;
    divided(alloc, book, serial, &lacking)
}

/// Campaigns for these meters, under the next free serial numbers.
fn divided(
    alloc: Global,
    book: &Book,
    serial: u32,
    meters: &[MeterId],
) -> Result<Vec<Part>, PlanError>
    requires { 1 ≤ serial }
    ensures parts { IfOk result (λ parts. AreParts book.now serial meters.now parts.items) }
    ensures refused { IfErr result (PartsRefused book.now serial meters.now) }
{
    let mut parts = Vec::new(alloc);
    let mut next = Some(serial);
    for chunk in meters.chunks(MAX_METERS) {
        let Some(free) = next_from(book, next) else {
            return Err(PlanError::NoSerial);
        };
        let meters = chunk.to_vec(alloc)?;
        parts.push(Part {
            serial: free,
            meters,
        })?;
        next = free.checked_add(1);
    }
    Ok(parts)
}

/// The first free serial number from this one on, if there is one to begin with.
fn next_from(book: &Book, serial: Option<u32>) -> Option<u32>
    requires { IfSome serial (λ n. 1 ≤ n) }
    ensures { IsNextFrom book.now serial result }
{
    next_free(book, serial?)
}
