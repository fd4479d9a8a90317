//! What a device in memory holds, and what a power cut may leave of it.

ghost use Rattle.std.specs.Prelude.{◌≡◌, ◌+◌, ◌≤◌, ◌++◌, [], ◌∷◌, List, ℕ, length, min, take, drop, IfOk};
ghost use Rattle.fw_journal.specs.Book.{contents_of};
ghost use Rattle.fw_journal.specs.Device.{splice};
ghost use Rattle.fw_journal.specs.Past.{LeavesOf, LeavesOfAll, fated, fated_all, first_fate};

use std::alloc::{AllocError, Global};
use std::marker::Model;

/// A change of bytes that isn't synced yet.
#[derive(Clone, Copy)]
pub enum Change {
    /// `size` bytes were written from position `at` on. A power cut leaves any bytes in that range, and some or all of those past the end.
    Write { at: u64, size: u64 },
    /// The bytes were cut to a length. A power cut leaves that length or more of them.
    Shorten { len: u64 },
}

/// What a device in memory holds at a moment: what reads give, what they gave at the last sync, and how that was changed since then.
#[derive(Drop)]
pub struct Disk {
    bytes: Vec<u8>,
    synced: Vec<u8>,
    changes: Vec<Change>,
}

impl Model for Disk {
    ghost use Rattle.fw_journal.specs.Past.{Held};

    ghost Value = { Held };

    ghost view = { λ d. record { bytes = d.bytes.items; synced = d.synced.items; changes = d.changes.items } };
}

impl Disk {
    ghost use Rattle.fw_journal.specs.Past.{MayLeave, cut_of};

    /// A disk with these bytes, all of them synced.
    pub(crate) fn new(alloc: Global, bytes: Vec<u8>) -> Result<Disk, AllocError>
        ensures { IfOk result (λ d. d ≡ record { bytes = bytes.items; synced = bytes.items; changes = [] }) }
    {
        let synced = bytes.to_vec(alloc)?;
        Ok(Disk {
            bytes,
            synced,
            changes: Vec::new(alloc),
        })
    }

    /// What reads give.
    pub fn bytes(&self) -> &[u8]
        ensures { result.now ≡ self.now.bytes }
    {
        &self.bytes
    }

    /// What reads gave at the last sync.
    pub fn synced(&self) -> &[u8]
        ensures { result.now ≡ self.now.synced }
    {
        &self.synced
    }

    /// How that was changed since then.
    pub fn changes(&self) -> &[Change]
        ensures { result.now ≡ self.now.changes }
    {
        &self.changes
    }

    /// One of the byte strings that a power cut may leave. Each change since the last sync takes the next fate: a write leaves its bytes in
    /// the front of its range, and what was there in the rest; a shortening leaves as many bytes past its length as the fate has. Where no
    /// fate is left, a write leaves what was there, and a shortening is whole. So does a write after the end of what is left. Each byte
    /// string that may be left is that of some fates, or what is read (`laws::each_is_cut`).
    ///
    /// # Errors
    ///
    /// `AllocError` if memory was refused.
    pub fn cut(&self, alloc: Global, fates: &[Vec<u8>]) -> Result<Vec<u8>, AllocError>
        ensures may { IfOk result (λ left. MayLeave self.now left.items) }
        ensures chosen { IfOk result (λ left. left.items ≡ cut_of self.now (contents_of fates.now)) }
    {
        left_of_all(alloc, &self.synced, &self.changes, fates)
    }

    /// The disk after a change that leaves these bytes.
    pub(crate) fn changed(
        &self,
        alloc: Global,
        bytes: Vec<u8>,
        change: Change,
    ) -> Result<Disk, AllocError>
        ensures { IfOk result (λ d. d ≡ record {
          bytes = bytes.items;
          synced = self.now.synced;
          changes = self.now.changes ++ change ∷ [];
        }) }
    {
        let mut changes = self.changes.to_vec(alloc)?;
        changes.push(change)?;
        Ok(Disk {
            bytes,
            synced: self.synced.to_vec(alloc)?,
            changes,
        })
    }

    /// The disk after a sync.
    pub(crate) fn after_sync(&self, alloc: Global) -> Result<Disk, AllocError>
        ensures { IfOk result (λ d. d ≡ record { bytes = self.now.bytes; synced = self.now.bytes; changes = [] }) }
    {
        Disk::new(alloc, self.bytes.to_vec(alloc)?)
    }

    /// The disk where these bytes are under the name of the old ones, which isn't synced yet: a power cut leaves what it might have left
    /// of the old ones, or the new ones whole.
    pub(crate) fn renamed(&self, alloc: Global, bytes: &[u8]) -> Result<Disk, AllocError>
        ensures { IfOk result (λ d. d ≡ record { bytes = bytes.now; synced = self.now.synced; changes = self.now.changes }) }
    {
        Ok(Disk {
            bytes: bytes.to_vec(alloc)?,
            synced: self.synced.to_vec(alloc)?,
            changes: self.changes.to_vec(alloc)?,
        })
    }

    /// The same once more.
    pub(crate) fn copied(&self, alloc: Global) -> Result<Disk, AllocError>
        ensures { IfOk result (λ d. d ≡ self.now) }
    {
        Ok(Disk {
            bytes: self.bytes.to_vec(alloc)?,
            synced: self.synced.to_vec(alloc)?,
            changes: self.changes.to_vec(alloc)?,
        })
    }
}

/// What is left of changes in their order, each with its fate.
fn left_of_all(
    alloc: Global,
    synced: &[u8],
    changes: &[Change],
    fates: &[Vec<u8>],
) -> Result<Vec<u8>, AllocError>
    ensures may { IfOk result (λ left. LeavesOfAll changes.now synced.now left.items) }
    ensures chosen { IfOk result (λ left. left.items ≡ fated_all changes.now (contents_of fates.now) synced.now) }
{
    let mut left = synced.to_vec(alloc)?;
    let mut later = changes;
    let mut rest = fates;
    while let Some((change, others)) = later.split_first() {
        let next = left_of(alloc, *change, &left, first_fate(rest))?;
        left = next;
        later = others;
        rest = other_fates(rest);
    }
    Ok(left)
}

/// The first fate. If there is none, it is empty.
fn first_fate(fates: &[Vec<u8>]) -> &[u8]
    ensures { result.now ≡ first_fate (contents_of fates.now) }
{
    match fates.split_first() {
        Some((fate, _)) => fate.as_slice(),
        None => &[],
    }
}

/// The fates after the first one.
fn other_fates(fates: &[Vec<u8>]) -> &[Vec<u8>]
    ensures { contents_of result.now ≡ drop 1 (contents_of fates.now) }
{
    match fates.split_first() {
        Some((_, others)) => others,
        None => fates,
    }
}

/// What is left of a change with this fate.
fn left_of(alloc: Global, change: Change, old: &[u8], fate: &[u8]) -> Result<Vec<u8>, AllocError>
    ensures may { IfOk result (λ left. LeavesOf change old.now left.items) }
    ensures chosen { IfOk result (λ left. left.items ≡ fated change fate.now old.now) }
{
    match change {
        Change::Write { at, size } => torn(alloc, at, size, old, fate),
        Change::Shorten { len } => partly_shortened(alloc, len, old, fate.len()),
    }
}

/// What is left of a write of `size` bytes: the first bytes of its fate, no more than that, in the front of its range.
fn torn(alloc: Global, at: u64, size: u64, old: &[u8], fate: &[u8]) -> Result<Vec<u8>, AllocError>
    ensures may { IfOk result (λ left. LeavesOf (Change.Write at size) old.now left.items) }
    ensures chosen { IfOk result (λ left. left.items ≡ fated (Change.Write at size) fate.now old.now) }
{
    if at > old.len() as u64 {
        return old.to_vec(alloc);
    }
    spliced(alloc, old, at, at_most(fate, size))
}

/// The first bytes, `size` at most.
fn at_most(bytes: &[u8], size: u64) -> &[u8]
    ensures front { result.now ≡ take size bytes.now }
    ensures short { length result.now ≤ size }
{
    &bytes[..bytes.len().min(size as usize)]
}

/// What is left of a shortening where up to `more` bytes past its length stay.
fn partly_shortened(alloc: Global, len: u64, old: &[u8], more: usize) -> Result<Vec<u8>, AllocError>
    ensures may { IfOk result (λ left. LeavesOf (Change.Shorten len) old.now left.items) }
    ensures chosen { IfOk result (λ left. left.items ≡ take (min len (length old.now) + more) old.now) }
{
    let kept = shortened(alloc, old, len)?;
    let stay = more.min(old.len() - kept.len());
    old[..kept.len() + stay].to_vec(alloc)
}

/// The bytes after a write at an offset, which isn't after their end.
pub(crate) fn spliced(
    alloc: Global,
    old: &[u8],
    at: u64,
    bytes: &[u8],
) -> Result<Vec<u8>, AllocError>
    ensures { at ≤ length old.now → IfOk result (λ next. next.items ≡ splice old.now at bytes.now) }
{
    let at = old.len().min(at as usize);
    let mut next = old[..at].to_vec(alloc)?;
    next.extend_from_slice(bytes)?;
    if bytes.len() < old.len() - at {
        next.extend_from_slice(&old[at + bytes.len()..])?;
    }
    Ok(next)
}

/// The first bytes, as many as there are up to a length.
pub(crate) fn shortened(alloc: Global, old: &[u8], len: u64) -> Result<Vec<u8>, AllocError>
    ensures { IfOk result (λ next. next.items ≡ take len old.now) }
{
    let len = old.len().min(len as usize);
    old[..len].to_vec(alloc)
}
