//! Sets of block numbers.

ghost use Rattle.std.specs.Prelude.{
  ◌≡◌,
  ◌==◌,
  ◌||◌,
  ℕ,
  Some,
  slice_get,
  ◌≢◌,
  ◌+◌,
  ◌<◌,
  ◌≤◌,
  ◌^◌,
  true,
  false,
  length,
  drop,
  insert,
  replicate,
  slice_set,
  IsTrue,
  IfOk,
  OnErr,
  SomeIff,
  nat_lt,
  vec_len,
  vec_capacity,
  if◌then◌else◌,
};
ghost use Rattle.std.specs.List.{AllWithin, HoldsAt};
ghost use Rattle.std.specs.List.Sorted.{IsPartitionedBy};
ghost use Rattle.fw_axdr.specs.Bits.{packed, byte_of};
ghost use Rattle.fw_blocks.specs.Members.{has, first_missing, IsFirstMissing};
ghost use Rattle.fw_blocks.specs.Private.{IsKept, Puts};
ghost use Rattle.fw_blocks.specs.Runs.{is_of, is_in_any, AreParted, AreRuns};

use crate::runs::Run;
use fw_axdr::{Bits, laws};
use std::alloc::{AllocError, Global};
use std::marker::Model;

/// A set of block numbers below a count, such as the blocks of an image that a meter has
/// (IEC 62056-6-2, Image transfer: image_transferred_blocks_status).
///
/// It is kept as runs of numbers, so it costs what its runs cost, however many numbers they have. Marking a
/// number, looking one up and finding the least that is missing take no memory: the room for all runs that there
/// can be is taken before.
#[derive(Drop)]
pub struct BlockSet {
    /// The number of blocks.
    count: u32,
    /// The numbers that are in the set, as runs that ascend and lie apart.
    runs: Vec<Run>,
}

// Contracts see the list of the members' bits and nothing else. So every clause is one equation of
// lists, `Bits` is seen as the same list, the count is its length, and a body may keep the set in any
// other form, as in runs or in pages, under the same clauses.
impl Model for BlockSet {
    ghost use Rattle.std.specs.Prelude.{Bool, List, vec_capacity};
    ghost use Rattle.fw_blocks.specs.Private.{set_of, IsKept};

    ghost Value = { List Bool };

    ghost view = { λ s. set_of s.count s.runs.items };

    ghost invariant = { λ s. IsKept s.count s.runs.items (vec_capacity s.runs) };
}

impl BlockSet {
    /// The set with no number, below this count. Its one error is out of memory.
    pub fn empty(alloc: Global, count: u32) -> Result<BlockSet, AllocError>
        ensures { IfOk result (λ set. set ≡ replicate count false) }
    {
        none_of(alloc, count)
    }

    /// The number of blocks: each number in the set is below it.
    pub fn count(&self) -> u32
        ensures { result ≡ length self.now }
    {
        self.count
    }

    /// Puts a number into the set, if it isn't there.
    pub fn mark(&mut self, number: u32)
        requires { number < length self.old }
        ensures { self.new ≡ slice_set self.old number true }
    {
        put(&mut self.runs, number);
    }

    /// Whether a number is in the set; none at or above the count is.
    pub fn has(&self, number: u32) -> bool
        ensures { result ≡ has self.now number }
    {
        let runs = self.runs.as_slice();
        match run_at(runs, place_of(runs, number)) {
            None => false,
            Some(run) => is_of(number, run),
        }
    }

    /// The least number below the count that is not in the set, or the count if all are.
    pub fn first_missing(&self) -> u32
        ensures value { result ≡ first_missing self.now }
        ensures least { IsFirstMissing self.now result }
    {
        match run_at(self.runs.as_slice(), 0) {
            None => 0,
            Some(run) => end_from_0(run),
        }
    }

    /// The set's numbers as runs, ascending, each as long as it can be.
    pub fn runs(&self) -> &[Run]
        ensures { AreRuns self.now result.now }
    {
        self.runs.as_slice()
    }

    /// The set as a bit-string, as a meter shows it (IEC 62056-6-2, image_transferred_blocks_status): bit i is 1
    /// where number i is in it, and there are as many bits as blocks. Its one error is out of memory, and only
    /// where there is a block.
    pub fn to_bits(&self, alloc: Global) -> Result<Bits, AllocError>
        ensures bits { IfOk result (λ bits. bits ≡ self.now) }
        ensures memory { OnErr result (1 ≤ length self.now) }
    {
        laws::bits_packed();
        let count = self.count() as usize;
        Ok(Bits::from_vec(packed_bytes(alloc, self)?, count))
    }

    /// The set that a bit-string shows, and `None` if it has not as many bits as there are blocks. Its one
    /// error is out of memory, and only for as many bits as blocks, and at least one.
    pub fn from_bits(alloc: Global, bits: &Bits, count: u32) -> Result<Option<BlockSet>, AllocError>
        ensures answer { IfOk result (λ answer. SomeIff answer (length bits.now ≡ count) bits.now) }
        ensures memory { OnErr result ((length bits.now ≡ count) × (1 ≤ count)) }
    {
        if bits.len() != count as usize {
            return Ok(None);
        }
        let mut set = none_of(alloc, count)?;
        for number in 0..count {
            if bits.get(number as usize).unwrap_or(false) {
                set.mark(number);
            }
        }
        Ok(Some(set))
    }
}

/// The set with no number, below this count.
fn none_of(alloc: Global, count: u32) -> Result<BlockSet, AllocError>
    ensures none { IfOk result (λ set. set ≡ replicate count false) }
    ensures memory { OnErr result (1 ≤ count) }
{
    let runs = Vec::with_capacity(alloc, (count as usize).div_ceil(2))?;
    Ok(BlockSet { count, runs })
}

/// Puts a number into runs that have room for it: as a run of its own, or into those that it touches.
fn put(runs: &mut Vec<Run>, number: u32)
    requires { (count : ℕ) × (number < count) × IsKept count runs.old.items (vec_capacity runs.old) }
    ensures puts { Puts number runs.old.items runs.new.items }
    ensures room { vec_capacity runs.old ≤ vec_capacity runs.new }
{
    let at = place_of(runs.as_slice(), number);
    let Some(run) = run_at(runs.as_slice(), at) else {
        put_alone(runs, at, number);
        return;
    };
    if run.end == number {
        put_behind(runs, at, run, number);
    } else if number + 1 == run.start {
        runs[at] = Run {
            start: number,
            end: run.end,
        };
    } else if number < run.start {
        put_alone(runs, at, number);
    }
}

/// Adds the number that comes right after the run at a place. That run becomes one with the next run, if this one
/// starts right after the number.
fn put_behind(runs: &mut Vec<Run>, at: usize, run: Run, number: u32)
    requires apart { (count : ℕ) × (number < count) × (count < 2 ^ 32) × AreParted count runs.old.items }
    requires there { slice_get runs.old.items at ≡ Some run }
    requires ends { run.end ≡ number }
    ensures puts { Puts number runs.old.items runs.new.items }
    ensures room { vec_capacity runs.new ≡ vec_capacity runs.old }
{
    if starts_at(runs.as_slice(), at + 1, number + 1) {
        let next = runs.remove(at + 1);
        runs[at] = Run {
            start: run.start,
            end: next.end,
        };
    } else {
        runs[at] = Run {
            start: run.start,
            end: number + 1,
        };
    }
}

/// Whether there is a run at a place, and starts at a number.
fn starts_at(runs: &[Run], at: usize, number: u32) -> bool
    ensures within { IsTrue result → at < length runs.now }
    ensures starts { IsTrue result → HoldsAt (λ run. run.start ≡ number) runs.now at }
    ensures other { result ≡ false → at < length runs.now → HoldsAt (λ run. run.start ≢ number) runs.now at }
{
    match runs.get(at) {
        None => false,
        Some(run) => run.start == number,
    }
}

/// The run at a place.
fn run_at(runs: &[Run], at: usize) -> Option<Run>
    ensures { result ≡ slice_get runs.now at }
{
    runs.get(at).copied()
}

/// Whether a number is one of a run's.
fn is_of(number: u32, run: Run) -> bool
    ensures { result ≡ is_of number run }
{
    run.start <= number && number < run.end
}

/// The least number that the first run doesn't have.
fn end_from_0(run: Run) -> u32
    ensures { result ≡ (if run.start == 0 then run.end else 0) }
{
    if run.start == 0 { run.end } else { 0 }
}

/// Where those runs begin that don't end below a number.
fn place_of(runs: &[Run], number: u32) -> usize
    requires { IsPartitionedBy (λ run. nat_lt run.end number) runs.now }
    ensures within { result ≤ length runs.now }
    ensures before { AllWithin (λ run. run.end < number) runs.now 0 result }
    ensures behind { AllWithin (λ run. number ≤ run.end) runs.now result (length runs.now) }
{
    runs.partition_point(|run| run.end < number)
}

/// Puts a run of one number at a place, if there is room for one more.
fn put_alone(runs: &mut Vec<Run>, at: usize, number: u32)
    requires within { at ≤ vec_len runs.old }
    requires room { vec_len runs.old < vec_capacity runs.old }
    requires fits { number + 1 < 2 ^ 32 }
    ensures runs { runs.new.items ≡ insert runs.old.items at (record { start = number; end = number + 1 }) }
    ensures room { vec_capacity runs.old ≤ vec_capacity runs.new }
{
    let alone = Run {
        start: number,
        end: number + 1,
    };
    let _ = runs.insert(at, alone);
}

/// The bytes that hold a set's bits, no more than are needed, with zeros in the unused bits.
fn packed_bytes(alloc: Global, set: &BlockSet) -> Result<Vec<u8>, AllocError>
    ensures bytes { IfOk result (λ bytes. bytes.items ≡ packed set.now) }
    ensures memory { OnErr result (1 ≤ length set.now) }
{
    let count = set.count().div_ceil(8);
    let mut bytes = Vec::with_capacity(alloc, count as usize)?;
    for i in 0..count {
        bytes.push(byte_at(set, 8 * i))?;
    }
    Ok(bytes)
}

/// The byte of the eight numbers from `from` on: the first one at the top bit, and zeros if there are fewer.
fn byte_at(set: &BlockSet, from: u32) -> u8
    requires { from + 7 < 2 ^ 32 }
    ensures { result ≡ byte_of (drop from set.now) }
{
    worth_of(set, from, 128)
        + worth_of(set, from + 1, 64)
        + worth_of(set, from + 2, 32)
        + worth_of(set, from + 3, 16)
        + worth_of(set, from + 4, 8)
        + worth_of(set, from + 5, 4)
        + worth_of(set, from + 6, 2)
        + worth_of(set, from + 7, 1)
}

/// What a number adds to its byte: `worth` if it is in the set, and otherwise 0.
fn worth_of(set: &BlockSet, number: u32, worth: u8) -> u8
    ensures value { result ≡ (if has set.now number then worth else 0) }
    ensures most { result ≤ worth }
{
    if set.has(number) { worth } else { 0 }
}
