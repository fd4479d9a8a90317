//! How far the live rows of a head end are: their blocks, and when the rest may be there.

ghost use Rattle.std.specs.Prelude.{◌≡◌, ◌-◌, ◌*◌, ◌/◌, ◌<◌, ◌≤◌, ◌^◌, SomeIff, nat_le, if◌then◌else◌};
ghost use Rattle.std.specs.Map.{values_of};
ghost use Rattle.fw_host.specs.Progress.{known_among, needed_among, needed_of};

use fw_head::{HeadCore, RowCore};
use std::fmt;

/// How many blocks the meters of the live rows are known to have, if that is below 2^64.
pub(crate) fn known_among(head: &HeadCore) -> Option<u64>
    ensures { SomeIff result (known_among (values_of head.now.rows) < 2 ^ 64) (known_among (values_of head.now.rows)) }
{
    let mut known = 0u64;
    for row in head.view().rows {
        known = known.checked_add(u64::from(row.known_blocks()))?;
    }
    Some(known)
}

/// How many blocks the live rows need, if that is below 2^64. A row isn't counted before its meter told its block size.
pub(crate) fn needed_among(head: &HeadCore) -> Option<u64>
    ensures { SomeIff result (needed_among (values_of head.now.rows) < 2 ^ 64) (needed_among (values_of head.now.rows)) }
{
    let mut needed = 0u64;
    for row in head.view().rows {
        needed = needed.checked_add(needed_of(row))?;
    }
    Some(needed)
}

/// How many blocks a row needs.
fn needed_of(row: &RowCore) -> u64
    ensures { result ≡ needed_of row.now }
{
    match row.block_count() {
        Some(count) => u64::from(count),
        None => 0,
    }
}

/// A number times another by a third, rounded down: none by 0, nor if the product has more than 64 bits.
pub(crate) fn scaled(number: u64, factor: u64, divisor: u64) -> Option<u64>
    ensures { SomeIff result ((number * factor < 2 ^ 64) × (1 ≤ divisor)) (number * factor / divisor) }
{
    let product = number.checked_mul(factor)?;
    if divisor == 0 {
        None
    } else {
        Some(product / divisor)
    }
}

/// A time since which the blocks that are left have become fewer.
#[derive(Clone, Copy)]
pub(crate) struct Since {
    /// The time in milliseconds.
    at: u64,
    /// How many blocks were left then.
    left: u64,
}

impl Since {
    /// So many blocks are left at this time.
    pub(crate) fn new(at: u64, left: u64) -> Since
        ensures at { result.at ≡ at }
        ensures left { result.left ≡ left }
    {
        Since { at, left }
    }

    /// It is this time if no fewer blocks are left now: rows were added, meters told their block sizes, or nothing was sent.
    pub(crate) fn or_now(self, now: u64, left: u64) -> Since
        ensures at { result.at ≡ (if nat_le self.left left then now else self.at) }
        ensures left { result.left ≡ (if nat_le self.left left then left else self.left) }
    {
        if self.left <= left {
            Since::new(now, left)
        } else {
            self
        }
    }

    /// How many milliseconds it takes until no block is left, if they go on becoming fewer as since then. There is none if they don't.
    pub(crate) fn time_left(self, now: u64, left: u64) -> Option<u64>
        ensures { SomeIff result ((left * (now - self.at) < 2 ^ 64) × (1 ≤ self.left - left)) (left * (now - self.at) / (self.left - left)) }
    {
        let gained = self.left.saturating_sub(left);
        let time = now.saturating_sub(self.at);
        scaled(left, time, gained)
    }
}

/// A number in four digits at most: below 10,000 as it is, then whole thousands, and from a million on whole millions.
#[derive(Clone, Copy)]
pub(crate) struct Short(pub(crate) u64);

impl fmt::Display for Short {
    fn fmt<W: fmt::Write>(&self, f: &mut fmt::Formatter<W>) -> fmt::Result {
        let number = self.0;
        let (thousands, millions) = (number / 1_000, number / 1_000_000);
        match number {
            0..=9_999 => write!(f, "{number}"),
            10_000..=999_999 => write!(f, "{thousands}k"),
            _ => write!(f, "{millions}M"),
        }
    }
}

/// A time of so many seconds in whole ones of its unit: up to 99 seconds, minutes or hours, and then days.
#[derive(Clone, Copy)]
pub(crate) struct Lasting(pub(crate) u64);

impl fmt::Display for Lasting {
    fn fmt<W: fmt::Write>(&self, f: &mut fmt::Formatter<W>) -> fmt::Result {
        let seconds = self.0;
        let (minutes, hours, days) = (seconds / 60, seconds / 3_600, seconds / 86_400);
        match seconds {
            0..=99 => write!(f, "{seconds}s"),
            100..=5_999 => write!(f, "{minutes}m"),
            6_000..=359_999 => write!(f, "{hours}h"),
            _ => write!(f, "{days}d"),
        }
    }
}
