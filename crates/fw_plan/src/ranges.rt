//! The campaigns of a book that serial numbers and ranges of them name.

ghost use Rattle.std.specs.Prelude.{◌≡◌, ◌++◌, IfOk, OnOk};
ghost use Rattle.fw_plan.specs.Private.{with_new};
ghost use Rattle.fw_plan.specs.Ranges.{all_named, each_once, is_within, serials_named, serials_of};

use fw_book::{Book, Offer};
use std::alloc::{AllocError, Global};

/// The campaigns of one serial number or of a range.
#[derive(Clone, Copy)]
pub enum SerialRange {
    /// The campaign of this serial number, whether it is there or not.
    One(u32),
    /// Those that have a live row, from the first number to the last.
    Span(u32, u32),
}

/// The serial numbers of the campaigns that these name, in their order, each once.
pub fn serials_of(alloc: Global, book: &Book, named: &[SerialRange]) -> Result<Vec<u32>, AllocError>
    ensures { IfOk result (λ serials. serials.items ≡ serials_of book.now named.now) }
{
    let all = all_named(alloc, book, named)?;
    each_once(alloc, &all)
}

/// The serial numbers of the campaigns that these name, in their order.
fn all_named(alloc: Global, book: &Book, named: &[SerialRange]) -> Result<Vec<u32>, AllocError>
    ensures { IfOk result (λ serials. serials.items ≡ all_named book.now named.now) }
{
    let mut serials = Vec::new(alloc);
    for one in named {
        push_named(&mut serials, book, *one)?;
    }
    Ok(serials)
}

/// These numbers, each where it stands first.
fn each_once(alloc: Global, numbers: &[u32]) -> Result<Vec<u32>, AllocError>
    ensures { IfOk result (λ once. once.items ≡ each_once numbers.now) }
{
    let mut once = Vec::new(alloc);
    for number in numbers {
        push_new(&mut once, *number)?;
    }
    Ok(once)
}

/// Appends a number, unless it is there.
fn push_new(numbers: &mut Vec<u32>, number: u32) -> Result<(), AllocError>
    ensures { OnOk result (numbers.new.items ≡ with_new numbers.old.items number) }
{
    if numbers.contains(&number) {
        return Ok(());
    }
    Ok(numbers.push(number)?)
}

/// Appends the serial numbers of the campaigns that this names.
fn push_named(serials: &mut Vec<u32>, book: &Book, named: SerialRange) -> Result<(), AllocError>
    ensures { OnOk result (serials.new.items ≡ serials.old.items ++ serials_named book.now named) }
{
    match named {
        SerialRange::One(serial) => Ok(serials.push(serial)?),
        SerialRange::Span(first, last) => push_range(serials, book, first, last),
    }
}

/// Appends the serial numbers of the campaigns from `first` to `last` that have a live row.
fn push_range(serials: &mut Vec<u32>, book: &Book, first: u32, last: u32) -> Result<(), AllocError>
    ensures { OnOk result (serials.new.items ≡ serials.old.items ++ serials_named book.now (SerialRange.Span first last)) }
{
    for (serial, offer) in book.rows() {
        if is_within(*serial, offer, first, last) {
            serials.push(*serial)?;
        }
    }
    Ok(())
}

/// Whether a campaign is one from `first` to `last` that has a live row.
fn is_within(serial: u32, offer: &Offer, first: u32, last: u32) -> bool
    ensures { result ≡ is_within first last serial offer.now }
{
    first <= serial && serial <= last && offer.has_live()
}
