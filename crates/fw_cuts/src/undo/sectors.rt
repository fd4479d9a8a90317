//! What a power cut leaves of a part of a write, sector by sector.

ghost use Rattle.std.specs.Prelude.{◌≡◌, ◌≢◌, ◌≤◌, ◌<◌, ◌+◌, ◌-◌, ◌*◌, ◌/◌, ◌^◌, ℕ, List, min, false, IsTrue, IfSome, IfNone, length, slice_range};
ghost use Rattle.fw_cuts.specs.Write.{max_part};
ghost use Rattle.fw_cuts.specs.Sectors.{IsEither, IsCut, IsCutAtEnd, DifferInOneSector, in_sector, resized};
ghost use Rattle.fw_cuts.specs.Change.{IsDifference};

use crate::undo::write::MAX_PART_SIZE;

/// How many bytes a disk writes at once.
pub(crate) const SECTOR_SIZE: u64 = 512;

/// No part of a write has a byte in this sector, or in a later one.
pub(crate) const LAST_SECTOR: u64 = (1 << 54) + 5;

/// In what the bytes of a part before a write and after it differ.
#[derive(Clone, Copy)]
pub(crate) enum Difference {
    /// In nothing.
    Nothing,
    /// In this sector of the file alone.
    OneSector(u64),
    /// In more.
    More,
}

/// The bytes of a part that stand in a sector of the disk, where the part begins at this offset of the file.
fn in_sector(at: u64, sector: u64, part: &[u8]) -> &[u8]
    requires most { length part.now ≤ max_part }
    requires sector { sector < 2 ^ 54 + 5 }
    ensures { result.now ≡ in_sector at sector part.now }
{
    let (start, end) = bounds(at, sector, part.len());
    &part[start..end]
}

/// Whether a sector of what stands there now is the one before the write or the one after it.
fn is_either(at: u64, sector: u64, now: &[u8], before: &[u8], after: &[u8]) -> bool
    requires now { length now.now ≤ max_part }
    requires before { length before.now ≤ max_part }
    requires after { length after.now ≤ max_part }
    requires sector { sector < 2 ^ 54 + 5 }
    ensures either { IsTrue result → IsEither at now.now before.now after.now sector }
    ensures neither { result ≡ false → ¬ IsEither at now.now before.now after.now sector }
{
    let found = in_sector(at, sector, now);
    found == in_sector(at, sector, before) || found == in_sector(at, sector, after)
}

/// Whether each sector of what stands there now is the one before the write or the one after it. All three have the same number of bytes.
pub(crate) fn is_cut(at: u64, now: &[u8], before: &[u8], after: &[u8]) -> bool
    requires place { at < 2 ^ 63 }
    requires most { length now.now ≤ max_part }
    requires before { length before.now ≡ length now.now }
    requires after { length after.now ≡ length now.now }
    ensures cut { IsTrue result → IsCut at now.now before.now after.now }
    ensures other { result ≡ false → ¬ IsCut at now.now before.now after.now }
{
    let first = at / SECTOR_SIZE;
    for sector in first..first + 5 {
        if !is_either(at, sector, now, before, after) {
            return false;
        }
    }
    true
}

/// The same of a part with which the file ends: its length, too, is the one before the write or the one after it. Where one of them has
/// fewer bytes, zeros stand for those that it lacks.
pub(crate) fn is_cut_at_end(at: u64, now: &[u8], before: &[u8], after: &[u8]) -> bool
    requires place { at < 2 ^ 63 }
    requires most { length now.now ≤ max_part }
    requires before { length before.now ≤ max_part }
    requires after { length after.now ≤ max_part }
    ensures cut { IsTrue result → IsCutAtEnd at now.now before.now after.now }
    ensures other { result ≡ false → ¬ IsCutAtEnd at now.now before.now after.now }
{
    if now.len() != before.len() && now.len() != after.len() {
        return false;
    }
    let mut old = [0; MAX_PART_SIZE];
    let mut new = [0; MAX_PART_SIZE];
    let old = &mut old[..now.len()];
    let new = &mut new[..now.len()];
    fill(old, before);
    fill(new, after);
    is_cut(at, now, old, new)
}

/// Fills a part with the first bytes of another, and with zeros if that has fewer.
fn fill(out: &mut [u8], part: &[u8])
    ensures { out.new ≡ resized part.now (length out.old) }
{
    let size = out.len().min(part.len());
    out[..size].copy_from_slice(&part[..size]);
    out[size..].fill(0);
}

/// Whether the bytes of a part before a write and after it are the same outside a sector. There are as many of both.
pub(crate) fn differ_only_in(at: u64, sector: u64, before: &[u8], after: &[u8]) -> bool
    requires most { length before.now ≤ max_part }
    requires after { length after.now ≡ length before.now }
    requires sector { sector < 2 ^ 54 + 5 }
    ensures { IsTrue result → DifferInOneSector at before.now after.now }
{
    let (start, end) = bounds(at, sector, before.len());
    before[end..] == after[end..] && before[..start] == after[..start]
}

/// In what the bytes of a part before a write and after it differ. There are as many of both.
pub(crate) fn compare(at: u64, before: &[u8], after: &[u8]) -> Difference
    requires place { at < 2 ^ 63 }
    requires most { length before.now ≤ max_part }
    requires after { length after.now ≡ length before.now }
    ensures { IsDifference result at before.now after.now }
{
    let Some(sector) = differing_sector(at, before, after) else {
        return Difference::Nothing;
    };
    let (_start, end) = bounds(at, sector, before.len());
    if before[end..] == after[end..] {
        Difference::OneSector(sector)
    } else {
        Difference::More
    }
}

/// Where in a part of this length the bytes of a sector begin and end, where the part begins at this offset of the file.
fn bounds(at: u64, sector: u64, len: usize) -> (usize, usize)
    requires most { len ≤ max_part }
    requires sector { sector < 2 ^ 54 + 5 }
    ensures order { result.0 ≤ result.1 }
    ensures within { result.1 ≤ len }
    ensures start { result.0 ≡ min (512 * sector - at) len }
    ensures end { result.1 ≡ min (512 * sector + 512 - at) len }
    ensures value { (part : List ℕ) → length part ≡ len → slice_range part result.0 result.1 ≡ in_sector at sector part }
{
    let from = (sector * SECTOR_SIZE).saturating_sub(at);
    let to = (sector * SECTOR_SIZE + SECTOR_SIZE).saturating_sub(at);
    let end = to.min(len as u64);
    (from.min(end) as usize, end as usize)
}

/// The first sector in which they differ.
fn differing_sector(at: u64, before: &[u8], after: &[u8]) -> Option<u64>
    requires place { at < 2 ^ 63 }
    requires most { length before.now ≤ max_part }
    requires size { length after.now ≡ length before.now }
    ensures differ { IfSome result (λ sector. in_sector at sector before.now ≢ in_sector at sector after.now) }
    ensures first { IfSome result (λ sector. (k : ℕ) → at / SECTOR_SIZE ≤ k → k < sector → in_sector at k before.now ≡ in_sector at k after.now) }
    ensures within { IfSome result (λ sector. sector < 2 ^ 54 + 4) }
    ensures none { IfNone result ((k : ℕ) → at / SECTOR_SIZE ≤ k → in_sector at k before.now ≡ in_sector at k after.now) }
{
    let first = at / SECTOR_SIZE;
    for sector in first..(at + before.len() as u64).div_ceil(SECTOR_SIZE) {
        let (start, end) = bounds(at, sector, before.len());
        if before[start..end] != after[start..end] {
            return Some(sector);
        }
    }
    None
}
