//! Whether bytes are a book's. Its rows and campaigns are looked through where they stand, so that no memory is taken.

ghost use Rattle.std.specs.Prelude.{◌≡◌, ◌==◌, ◌<◌, ◌≤◌, ◌^◌, ℕ, nat_eq, is_some, List, IfSome, IfNone, MatchBool};
ghost use Rattle.std.specs.List.{list_any};
ghost use Rattle.std.specs.Map.{lookup};
ghost use Rattle.fw_book.specs.declared.row.Row.{Row};
ghost use Rattle.fw_book.specs.Rows.{is_live_in, meters_of, repeats};
ghost use Rattle.fw_book.specs.Contents.{Offered, Contents, is_busy};
ghost use Rattle.fw_book.specs.Private.{clashes, rows_in, AreEntries, Campaigns, NoCampaigns, Parts};
ghost use Rattle.fw_book.specs.Format.{IsReadAs};

use crate::reading::{Front, entry_at, head_at, row_at, skim};
use crate::version::Version;
use fw_names::{HeadId, MeterId};

/// Whether a row in these bytes is the meter's.
fn has_meter(rows: &[u8], meter: MeterId) -> bool
    ensures { result ≡ list_any (λ (row : Row). row.meter == meter) (rows_in rows.now) }
{
    let mut rest = rows;
    while let Some((row, after)) = row_at(rest) {
        if row.meter == meter {
            return true;
        }
        rest = after;
    }
    false
}

/// Whether a meter stands in two of the rows in these bytes.
#[tactic(auto, using(crate::proofs::Lists::meters_any))]
pub(crate) fn repeats(rows: &[u8]) -> bool
    ensures { result ≡ repeats (meters_of (rows_in rows.now)) }
{
    let mut rest = rows;
    while let Some((row, after)) = row_at(rest) {
        if has_meter(after, row.meter) {
            return true;
        }
        rest = after;
    }
    false
}

/// Whether a row of the meter in these bytes is live.
fn is_live(rows: &[u8], meter: MeterId) -> bool
    ensures { result ≡ is_live_in (rows_in rows.now) meter }
{
    let mut rest = rows;
    while let Some((row, after)) = row_at(rest) {
        if row.meter == meter && row.state.is_live() {
            return true;
        }
        rest = after;
    }
    false
}

/// Whether a campaign in these bytes has the serial number.
fn has_serial(version: Version, entries: &[u8], serial: u32) -> bool
    ensures { (list : List (ℕ × Offered)) → AreEntries version entries.now list
        → result ≡ is_some (lookup (nat_eq serial) list) }
{
    let mut rest = entries;
    while let Some((entry, after)) = skim(version, rest) {
        if entry.serial == serial {
            return true;
        }
        rest = after;
    }
    false
}

/// Whether the meter is live in a campaign in these bytes.
fn is_busy(version: Version, entries: &[u8], meter: MeterId) -> bool
    ensures { (list : List (ℕ × Offered)) → AreEntries version entries.now list
        → result ≡ is_busy list meter }
{
    let mut rest = entries;
    while let Some((entry, after)) = skim(version, rest) {
        if is_live(entry.rows, meter) {
            return true;
        }
        rest = after;
    }
    false
}

/// Whether a meter that is live in the rows is live in a campaign in these bytes.
fn clashes(version: Version, entries: &[u8], rows: &[u8]) -> bool
    ensures { (list : List (ℕ × Offered)) → AreEntries version entries.now list
        → result ≡ clashes list (rows_in rows.now) }
{
    let mut rest = rows;
    while let Some((row, after)) = row_at(rest) {
        if row.state.is_live() && is_busy(version, entries, row.meter) {
            return true;
        }
        rest = after;
    }
    false
}

/// Whether the bytes are those of the campaigns of a book of this head end. Each campaign is compared with those before it.
fn are_campaigns(version: Version, head: HeadId, entries: &[u8]) -> bool
    requires begins { 1 ≤ head }
    requires fits { head < 2 ^ 32 }
    ensures { MatchBool result (Campaigns version head entries.now) (NoCampaigns version head entries.now) }
{
    let mut rest = entries;
    while !rest.is_empty() {
        let Some((entry, after)) = entry_at(version, rest) else {
            return false;
        };
        let (before, _) = entries.split_at(entries.len() - rest.len());
        if has_serial(version, before, entry.serial) || clashes(version, before, entry.rows) {
            return false;
        }
        rest = after;
    }
    true
}

/// What the bytes begin with, if they are a book's, and the bytes of its campaigns.
pub(crate) fn parts_of(bytes: &[u8]) -> Option<(Front, &[u8])>
    ensures found { IfSome result (λ r. Parts r.0.version bytes.now r.0.head r.1.now) }
    ensures none { IfNone result ((book : Contents) → ¬ IsReadAs bytes.now book) }
{
    let Some((front, entries)) = head_at(bytes) else {
        return None;
    };
    if !are_campaigns(front.version, front.head, entries) {
        return None;
    }
    Some((front, entries))
}
