//! The digest of an image as a store has it (FIPS 180-4).
#![tactic(auto)]

ghost use Rattle.std.specs.Prelude.{◌≡◌, ◌+◌, ◌≤◌, ◌++◌, ◌↔◌, ℕ, List, IsTrue, IfOk, OnOk, OnErr, is_ok, min, take, slice_range};
ghost use Rattle.sha2.specs.Hashers.{Holds256};
ghost use Rattle.sha2.specs.Sha256.{sha256};
ghost use Rattle.fw_store.specs.Device.{slot_bytes};
ghost use Rattle.fw_store.specs.Faults.{Keeps, HasCause, Spends};
ghost use Rattle.fw_verify.specs.Progress.{IsDigesting, reads_left};
ghost use Rattle.fw_verify.specs.Slices.{slice_size, slice_count};

use fw_store::{ImageStore, Slot, StoreFault, laws};
use sha2::{Digest, Sha256};
use std::alloc::AllocError;
use std::marker::Model;

/// The most bytes of a slot that are read at once.
pub const SLICE_SIZE: u32 = 4096;

/// The digest of the first bytes of a slot, of which some are taken. It holds no store: what it has taken is what the slot
/// held then, and so what the slot holds as long as these bytes stay.
#[derive(Drop)]
pub struct Digesting {
    slot: Slot,
    size: u32,
    taken: u32,
    hasher: Sha256,
}

impl Model for Digesting {
    ghost use Rattle.std.specs.Prelude.{◌≤◌};
    ghost use Rattle.fw_verify.specs.Progress.{Progress};

    ghost Value = { Progress };

    ghost view = { λ d. record { slot = d.slot; size = d.size; taken = d.taken; state = d.hasher } };

    ghost invariant = { λ d. d.taken ≤ d.size };
}

impl Digesting {
    /// The digest of the first `size` bytes of a slot, of which none is taken yet.
    pub fn begin(slot: Slot, size: u32) -> Digesting
        ensures slot { result.slot ≡ slot }
        ensures size { result.size ≡ size }
        ensures taken { result.taken ≡ 0 }
        ensures begun { (contents : List ℕ) → IsDigesting result contents }
    {
        Digesting {
            slot,
            size,
            taken: 0,
            hasher: Sha256::new(),
        }
    }

    /// The same digest once more.
    ///
    /// # Errors
    ///
    /// `AllocError` if the copy of the hasher was refused.
    pub fn copy(&self) -> Result<Digesting, AllocError>
        ensures { IfOk result (λ copy. copy ≡ self.now) }
    {
        Ok(Digesting {
            slot: self.slot,
            size: self.size,
            taken: self.taken,
            hasher: self.hasher.clone()?,
        })
    }

    /// How many bytes are taken.
    pub fn taken(&self) -> u32
        ensures value { result ≡ self.now.taken }
        ensures within { self.now.taken ≤ self.now.size }
    {
        self.taken
    }

    /// Takes the next slice: at most 4,096 bytes, in one read. If all bytes are taken, nothing is read. Returns whether
    /// all are taken then. No memory is taken.
    ///
    /// # Errors
    ///
    /// `StoreFault` if the device failed. As many bytes as before are then taken.
    pub fn step<S: ImageStore>(&mut self, store: &mut S) -> Result<bool, StoreFault>
        requires { self.old.size ≤ (S.known store.old).capacity }
        ensures slot { self.new.slot ≡ self.old.slot }
        ensures size { self.new.size ≡ self.old.size }
        ensures taken { OnOk result (self.new.taken ≡ min (self.old.taken + slice_size) self.old.size) }
        ensures all { IfOk result (λ all. IsTrue all ↔ (self.new.taken ≡ self.new.size)) }
        ensures err { OnErr result (self.new ≡ self.old) }

        // Of an honest store it is the digest of what the slot holds, if it was that before.
        ensures fed { IsTrue (S.known store.old).honest → IsDigesting self.old (slot_bytes (S.known store.old).device self.old.slot)
            → IsDigesting self.new (slot_bytes (S.known store.old).device self.old.slot) }
        ensures same { IsTrue (S.known store.old).honest → (S.known store.new).device ≡ (S.known store.old).device }
        ensures kept { Keeps (S.known store.old) (S.known store.new) }
        ensures cause { HasCause (S.known store.old).sound (S.known store.old).faults (S.known store.new).faults result }
        ensures spends { Spends (reads_left self.old) (S.known store.old).fuse (S.known store.new).fuse (is_ok result) }
    {
        if self.taken == self.size {
            return Ok(true);
        }
        let count = SLICE_SIZE.min(self.size - self.taken);
        take_slice(store, self.slot, self.taken, count, &mut self.hasher)?;
        self.taken += count;
        Ok(self.taken == self.size)
    }

    /// The SHA-256 of the bytes, which are all taken.
    pub fn finish(self) -> [u8; 32]
        requires { self.taken ≡ self.size }
        ensures { (contents : List ℕ) → IsDigesting self contents → result ≡ sha256 (take self.size contents) }
    {
        self.hasher.finalize()
    }
}

/// The SHA-256 of the first `size` bytes of a slot, as they are stored. They are read in slices of 4,096 bytes, of which the
/// last may be shorter, and no memory is taken.
///
/// # Errors
///
/// `StoreFault` if the device failed. It is not asked again then.
pub fn digest<S: ImageStore>(store: &mut S, slot: Slot, size: u32) -> Result<[u8; 32], StoreFault>
    requires { size ≤ (S.known store.old).capacity }

    // Of an honest store it is the digest of what the slot holds.
    ensures digest { IsTrue (S.known store.old).honest
        → IfOk result (λ digest. digest ≡ sha256 (take size (slot_bytes (S.known store.old).device slot))) }
    ensures same { IsTrue (S.known store.old).honest → (S.known store.new).device ≡ (S.known store.old).device }
    ensures kept { Keeps (S.known store.old) (S.known store.new) }
    ensures cause { HasCause (S.known store.old).sound (S.known store.old).faults (S.known store.new).faults result }

    // Each slice is read once.
    ensures spends { Spends (slice_count size) (S.known store.old).fuse (S.known store.new).fuse (is_ok result) }
{
    laws::calls_add();
    laws::calls_end();
    let mut digesting = Digesting::begin(slot, size);
    while !digesting.step(store)? {}
    Ok(digesting.finish())
}

/// Feeds the hasher, which has the first bytes of a slot, with the next `count` bytes.
fn take_slice<S: ImageStore>(
    store: &mut S,
    slot: Slot,
    at: u32,
    count: u32,
    hasher: &mut Sha256,
) -> Result<(), StoreFault>
    requires short { count ≤ SLICE_SIZE }
    requires within { at + count ≤ (S.known store.old).capacity }
    ensures fed { IsTrue (S.known store.old).honest
        → OnOk result (Holds256 hasher.old (take at (slot_bytes (S.known store.old).device slot))
        → Holds256 hasher.new (take (at + count) (slot_bytes (S.known store.old).device slot))) }
    ensures err { OnErr result (hasher.new ≡ hasher.old) }
    ensures same { IsTrue (S.known store.old).honest → (S.known store.new).device ≡ (S.known store.old).device }
    ensures kept { Keeps (S.known store.old) (S.known store.new) }
    ensures cause { HasCause (S.known store.old).sound (S.known store.old).faults (S.known store.new).faults result }
    ensures spends { Spends 1 (S.known store.old).fuse (S.known store.new).fuse (is_ok result) }
{
    let mut buffer = [0; SLICE_SIZE as usize];
    let slice = &mut buffer[..count as usize];
    store.read(slot, at, slice)?;
    hasher.update(&*slice);
    Ok(())
}
