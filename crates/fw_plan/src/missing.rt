//! The meters of a list that a book has no row of, for an image and its release.

ghost use Rattle.std.specs.Prelude.{◌≡◌, ◌↔◌, ◌||◌, ◌++◌, ℕ, false, filter, nat_eq, not, Contains, IfOk, OnOk};
ghost use Rattle.std.specs.HashSet.{contains};
ghost use Rattle.fw_book.specs.Rows.{repeats};
ghost use Rattle.fw_plan.specs.Openings.{has_meter, has_row, is_of, lacking};

use fw_book::{Book, Offer, Row};
use fw_names::MeterId;
use std::alloc::{AllocError, Global};
use std::collections::HashSet;

/// The meters, in the order given, that have no row in a campaign of the book with this serial number or a later one that offers this image with
/// this release. However their row ended, those that have one aren't among them.
pub fn lacking(
    alloc: Global,
    book: &Book,
    serial: u32,
    release: u32,
    image: &[u8],
    meters: &[MeterId],
) -> Result<Vec<MeterId>, AllocError>
    ensures lacking { IfOk result (λ r. r.items ≡ lacking book.now serial release image.now meters.now) }

    // Whatever the order.
    ensures exact { IfOk result (λ r. (meter : ℕ) → Contains r.items meter
        ↔ (Contains meters.now meter × (has_row book.now serial release image.now meter ≡ false))) }
    ensures once { repeats meters.now ≡ false → IfOk result (λ r. repeats r.items ≡ false) }
{
    let have = having(alloc, book, serial, release, image)?;
    let mut lacking = Vec::new(alloc);
    push_lacking(&mut lacking, &have, meters)?;
    Ok(lacking)
}

/// Appends the meters whose numbers aren't among these.
fn push_lacking(
    lacking: &mut Vec<MeterId>,
    have: &HashSet<u32>,
    meters: &[MeterId],
) -> Result<(), AllocError>
    ensures { OnOk result (lacking.new.items ≡ lacking.old.items ++ filter (λ meter. not (contains nat_eq have.now meter)) meters.now) }
{
    for meter in meters {
        if !have.contains(&meter.number()) {
            lacking.push(*meter)?;
        }
    }
    Ok(())
}

/// The numbers of the meters that have such a row.
fn having(
    alloc: Global,
    book: &Book,
    serial: u32,
    release: u32,
    image: &[u8],
) -> Result<HashSet<u32>, AllocError>
    ensures { IfOk result (λ numbers. (meter : ℕ) → contains nat_eq numbers meter ≡ has_row book.now serial release image.now meter) }
{
    let mut numbers = HashSet::new(alloc);
    for (number, offer) in book.rows() {
        if is_of(*number, offer, serial, release, image) {
            add_meters(&mut numbers, offer.rows())?;
        }
    }
    Ok(numbers)
}

/// Whether a campaign is one of this serial number or a later one, and offers this image with this release.
fn is_of(number: u32, offer: &Offer, serial: u32, release: u32, image: &[u8]) -> bool
    ensures { result ≡ is_of serial release image.now number offer.now }
{
    serial <= number && offer.release() == release && offer.image() == image
}

/// Adds the numbers of the meters of these rows.
fn add_meters(numbers: &mut HashSet<u32>, rows: &[Row]) -> Result<(), AllocError>
    ensures { OnOk result ((meter : ℕ) → contains nat_eq numbers.new meter
        ≡ (contains nat_eq numbers.old meter || has_meter rows.now meter)) }
{
    for row in rows {
        numbers.insert(row.meter.number())?;
    }
    Ok(())
}
