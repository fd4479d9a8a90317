//! The serial numbers that a book hasn't used.

ghost use Rattle.std.specs.Prelude.{◌≡◌, ◌≤◌, IfSome, MatchOption};
ghost use Rattle.fw_book.specs.Contents.{has_serial};
ghost use Rattle.fw_plan.specs.Openings.{IsNextFree, NoneFree};
ghost use Rattle.fw_plan.specs.Private.{IsAfter, is_used};

use fw_book::Book;
use fw_names::CampaignId;

/// The first serial number, from this one on, of which the book has no campaign.
pub fn next_free(book: &Book, serial: u32) -> Option<u32>
    requires { 1 ≤ serial }
    ensures { MatchOption result (NoneFree book.now serial) (λ free. IsNextFree book.now serial free) }
{
    let mut free = Some(serial);
    while is_used(book, free) {
        free = after(free);
    }
    free
}

/// Whether this is a serial number of which the book has a campaign.
fn is_used(book: &Book, serial: Option<u32>) -> bool
    requires { IfSome serial (λ n. 1 ≤ n) }
    ensures { result ≡ is_used book.now serial }
{
    match serial {
        Some(serial) => has_serial(book, serial),
        None => false,
    }
}

/// The number after this one, if both are there.
fn after(serial: Option<u32>) -> Option<u32>
    ensures { IsAfter serial result }
{
    match serial {
        Some(serial) => serial.checked_add(1),
        None => None,
    }
}

/// Whether the book has a campaign of this serial number.
fn has_serial(book: &Book, serial: u32) -> bool
    requires { 1 ≤ serial }
    ensures { result ≡ has_serial book.now serial }
{
    match CampaignId::new(book.head(), serial) {
        Some(campaign) => book.offer(campaign).is_some(),
        None => unreachable!(),
    }
}
