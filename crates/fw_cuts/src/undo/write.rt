//! A write to two places of a file.

ghost use Rattle.std.specs.Prelude.{◌≡◌, ◌≢◌, ◌↔◌, ◌++◌, ◌≤◌, false, IsTrue, IfSome, IfNone, length};
ghost use Rattle.fw_cuts.specs.Write.{Write, IsWrite, part, payload, journal_bytes, max_part};
ghost use Rattle.fw_cuts.specs.Reading.{HasSizes, IsNoPayload};
ghost use Rattle.fw_cuts.specs.Sectors.{IsTorn};
ghost use Rattle.fw_cuts.specs.Change.{IsChange};

use crate::undo::bytes::JournalBytes;
use crate::undo::reading::{after_mark, before_digest, number, two_parts};
use crate::undo::sectors::{
    Difference, LAST_SECTOR, SECTOR_SIZE, compare, differ_only_in, is_cut, is_cut_at_end,
};
use sha2::{Digest, Sha256};
use std::marker::Model;

/// How many bytes a journal is told by.
pub const MARK_SIZE: usize = 4;

/// What a journal begins with.
pub const MARK: [u8; MARK_SIZE] = *b"FWU1";

/// The most bytes that a part of a write has.
pub const MAX_PART_SIZE: usize = 2048;

/// What a write of a store's header changes. A disk has all of a write that changes one sector or nothing, so that it needs no journal.
#[derive(Clone, Copy)]
pub enum Change {
    /// One sector of the first part at most. The last part stays.
    FirstPart,
    /// One sector of the last part at most, whose length stays. The first part stays.
    LastPart,
    /// More than one sector, or the file's length.
    More,
}

/// A write of a store's header to two places of its file: what stood there before, and what stands there after it.
#[derive(Drop)]
pub struct HeaderWrite<'a> {
    /// Where the first part begins, in bytes from the start of the file.
    pub at: u64,
    /// The bytes that stood there.
    pub before: &'a [u8],
    /// Those that are written in their place, as many.
    pub after: &'a [u8],
    /// Where the last part begins, which ends with the file.
    pub last_at: u64,
    /// The bytes that stood there, up to the end.
    pub last_before: &'a [u8],
    /// Those that are written in their place, with which the file ends.
    pub last_after: &'a [u8],
}

impl<'a> Model for HeaderWrite<'a> {
    ghost use Rattle.fw_cuts.specs.Write.{Write};

    ghost Value = { Write };

    ghost view = { λ w. record {
      at = w.at;
      before = w.before.now;
      after = w.after.now;
      last_at = w.last_at;
      last_before = w.last_before.now;
      last_after = w.last_after.now;
    } };
}

impl<'a> HeaderWrite<'a> {
    /// Whether a journal can have the write: no part has more than 2,048 bytes, the first one is as long after the write as before, and
    /// it ends where the last one begins, or before.
    pub fn fits(&self) -> bool
        ensures { IsTrue result ↔ IsWrite self.now }
    {
        let size = self.before.len();
        if size > MAX_PART_SIZE || self.after.len() != size {
            return false;
        }
        if self.last_before.len() > MAX_PART_SIZE || self.last_after.len() > MAX_PART_SIZE {
            return false;
        }
        if self.last_at >= 1 << 63 {
            return false;
        }
        size as u64 <= self.last_at && self.at <= self.last_at - size as u64
    }

    /// The bytes of the journal of the write, and `None` if no journal can have it.
    pub fn to_bytes(&self) -> Option<JournalBytes>
        ensures some { IfSome result (λ bytes. bytes ≡ journal_bytes self.now) }
        ensures fits { IfSome result (λ _. IsWrite self.now) }
        ensures none { IfNone result (¬ IsWrite self.now) }
    {
        if !self.fits() {
            return None;
        }
        let mut bytes = self.payload();
        let digest = Sha256::digest(bytes.as_slice());
        bytes.put(&digest);
        Some(bytes)
    }

    /// The bytes of the journal before its digest.
    fn payload(&self) -> JournalBytes
        requires { IsWrite self.now }
        ensures value { result ≡ payload self.now }
        ensures most { length result ≤ 8228 }
    {
        let mut bytes = JournalBytes::new();
        bytes.put(&MARK);
        bytes.put(&self.at.to_be_bytes());
        bytes.put(&self.last_at.to_be_bytes());
        put_part(&mut bytes, self.before);
        put_part(&mut bytes, self.after);
        put_part(&mut bytes, self.last_before);
        put_part(&mut bytes, self.last_after);
        bytes
    }

    /// The write whose journal has these bytes, and `None` if they are no whole journal.
    pub fn from_bytes(bytes: &'a [u8]) -> Option<HeaderWrite<'a>>
        ensures some { IfSome result (λ write. bytes.now ≡ journal_bytes write) }
        ensures fits { IfSome result IsWrite }
        ensures none { IfNone result ((write : Write) → IsWrite write → bytes.now ≢ journal_bytes write) }
    {
        let write = HeaderWrite::of_payload(before_digest(bytes)?)?;
        if write.fits() { Some(write) } else { None }
    }

    /// The write whose journal has these bytes before its digest.
    fn of_payload(bytes: &'a [u8]) -> Option<HeaderWrite<'a>>
        ensures some { IfSome result (λ write. bytes.now ≡ payload write) }
        ensures sizes { IfSome result HasSizes }
        ensures none { IfNone result (IsNoPayload bytes.now) }
    {
        let (at, rest) = number(after_mark(bytes)?)?;
        let (last_at, rest) = number(rest)?;
        let (before, after, rest) = two_parts(rest)?;
        let (last_before, last_after, rest) = two_parts(rest)?;
        if !rest.is_empty() {
            return None;
        }
        Some(HeaderWrite {
            at,
            before,
            after,
            last_at,
            last_before,
            last_after,
        })
    }

    /// Whether this is a torn header: a power cut in the write may have left these bytes in the places of its parts, and they aren't those
    /// after the write, so each sector is the one before the write or the one after it. `now` has as many bytes as the first part.
    pub fn is_torn(&self, now: &[u8], last_now: &[u8]) -> bool
        requires write { IsWrite self.now }
        requires size { length now.now ≡ length self.now.before }
        requires last { length last_now.now ≤ max_part }
        ensures torn { IsTrue result → IsTorn self.now now.now last_now.now }
        ensures other { result ≡ false → ¬ IsTorn self.now now.now last_now.now }
    {
        is_cut(self.at, now, self.before, self.after)
            && is_cut_at_end(self.last_at, last_now, self.last_before, self.last_after)
            && !(now == self.after && last_now == self.last_after)
    }

    /// What the write changes. `likely` is the sector of the file that may be the one that changes, and then it is that one, if one alone
    /// does. The result is the same for each, but it is soonest found where it is the right one.
    pub fn change(&self, likely: &mut u64) -> Change
        requires { IsWrite self.now }
        ensures { IsChange result self.now }
    {
        if self.last_after.len() != self.last_before.len() {
            return Change::More;
        }
        match self.change_in(*likely) {
            Some(change) => change,
            None => self.change_of_parts(likely),
        }
    }

    /// What it changes if nothing outside a sector does. The length of the last part stays.
    fn change_in(&self, sector: u64) -> Option<Change>
        requires write { IsWrite self.now }
        requires size { length self.now.last_after ≡ length self.now.last_before }
        ensures { IfSome result (λ change. IsChange change self.now) }
    {
        if sector >= LAST_SECTOR {
            return None;
        }
        if sector < self.last_at / SECTOR_SIZE {
            if differ_only_in(self.at, sector, self.before, self.after)
                && self.last_after == self.last_before
            {
                return Some(Change::FirstPart);
            }
            return None;
        }
        if self.after == self.before
            && differ_only_in(self.last_at, sector, self.last_before, self.last_after)
        {
            return Some(Change::LastPart);
        }
        None
    }

    /// What it changes, as each sector is compared. The length of the last part stays.
    fn change_of_parts(&self, likely: &mut u64) -> Change
        requires write { IsWrite self.now }
        requires size { length self.now.last_after ≡ length self.now.last_before }
        ensures { IsChange result self.now }
    {
        match compare(self.at, self.before, self.after) {
            Difference::Nothing => self.change_of_last(likely),
            Difference::OneSector(sector) if self.last_after == self.last_before => {
                *likely = sector;
                Change::FirstPart
            }
            Difference::OneSector(_) | Difference::More => Change::More,
        }
    }

    /// What it changes if its first part stays, and the length of the last one.
    fn change_of_last(&self, likely: &mut u64) -> Change
        requires write { IsWrite self.now }
        requires same { self.now.after ≡ self.now.before }
        requires size { length self.now.last_after ≡ length self.now.last_before }
        ensures { IsChange result self.now }
    {
        match compare(self.last_at, self.last_before, self.last_after) {
            Difference::Nothing => Change::LastPart,
            Difference::OneSector(sector) => {
                *likely = sector;
                Change::LastPart
            }
            Difference::More => Change::More,
        }
    }
}

/// Puts a part of a write after what is there: its length, and itself.
fn put_part(bytes: &mut JournalBytes, given: &[u8])
    requires most { length given.now ≤ max_part }
    requires room { length bytes.old ≤ 6208 }
    ensures { bytes.new ≡ bytes.old ++ part given.now }
{
    bytes.put(&(given.len() as u32).to_be_bytes());
    bytes.put(given);
}
