//! Sets of block numbers as pages of marks: a fixed number of words, and no memory beside them.

ghost use Rattle.std.specs.Prelude.{
  ◌≡◌,
  ℕ,
  ◌+◌,
  ◌*◌,
  ◌/◌,
  ◌%◌,
  ◌<◌,
  ◌≤◌,
  ◌||◌,
  ◌==◌,
  ◌++◌,
  Bool,
  List,
  true,
  false,
  length,
  take,
  replicate,
  slice_index,
  slice_set,
  slice_range,
  SomeIff,
  IfOk,
};
ghost use Rattle.std.specs.Int.{w64, to_be_bytes};
ghost use Rattle.std.specs.List.{flat_map};
ghost use Rattle.fw_axdr.specs.Bits.{bits, packed};
ghost use Rattle.fw_blocks.specs.Cuts.{max_blocks};
ghost use Rattle.fw_blocks.specs.Private.{is_marked, page_size};
ghost use Rattle.fw_blocks.specs.Members.{has, first_missing, IsFirstMissing, all_marks, resized_marks};

use crate::geometry::MAX_BLOCKS;
use fw_axdr::{Bits, laws};
use std::alloc::{AllocError, Global};
use std::marker::Model;

/// The pages of a set.
const PAGES: usize = 256;

/// The marks of a page.
const PAGE_SIZE: u8 = 64;

/// The bytes of all pages: eight marks each.
pub const MARKS_SIZE: usize = 2048;

/// The blocks that are there, of at most the 16,384 that an image can have: a set of numbers below a count (own form of what
/// IEC 62056-6-2 calls image_transferred_blocks_status). It has room for all of them in itself, and takes no memory.
///
/// A page has 64 marks and knows how many of them are set. So to mark a number and to look one up take the same time
/// at every number, and a page whose marks are all set is passed at once where the least one missing is looked for.
#[derive(Clone, Copy, PartialEq, Eq)]
pub struct Pages {
    /// The marks of each page, the first one the top bit.
    words: [u64; PAGES],
    /// How many marks of each page are set.
    counts: [u8; PAGES],
    /// The number of blocks.
    count: u32,
}

// Contracts see the list of the bits below the count, as they see a `BlockSet`.
impl Model for Pages {
    ghost use Rattle.std.specs.Prelude.{Bool, List, length};
    ghost use Rattle.fw_blocks.specs.Private.{marks_of, words_of, counts_of, HoldsPages};

    ghost Value = { List Bool };

    ghost view = { λ p. marks_of p.count p.words };

    ghost invariant = { λ p. HoldsPages p.words p.counts p.count };

    ghost inverse = { λ marks. record { words = words_of marks; counts = counts_of marks; count = length marks } };

    ghost inverse_ok = { λ p h i. record { words = h.words_again i; counts = h.counts_again i; count = h.size i } };
}

impl Pages {
    /// Pages of `count` numbers, of which none is marked. `None` above 16,384.
    pub fn new(count: u32) -> Option<Pages>
        ensures { SomeIff result (count ≤ max_blocks) (replicate count false) }
    {
        if MAX_BLOCKS < count {
            return None;
        }
        Some(Pages::unmarked(count))
    }

    /// Pages of the 16,384 numbers that an image can have, of which none is marked.
    pub fn none() -> Pages
        ensures { result ≡ replicate max_blocks false }
    {
        Pages::unmarked(MAX_BLOCKS)
    }

    /// Pages of `count` numbers, of which none is marked.
    fn unmarked(count: u32) -> Pages
        requires { count ≤ max_blocks }
        ensures { result ≡ replicate count false }
    {
        Pages {
            words: [0; PAGES],
            counts: [0; PAGES],
            count,
        }
    }

    /// The number of blocks: each number that can be marked is below it.
    pub fn count(&self) -> u32
        ensures value { result ≡ length self.now }
        ensures most { result ≤ max_blocks }
    {
        self.count
    }

    /// Marks a number, if it isn't marked.
    pub fn mark(&mut self, number: u32)
        requires { number < length self.old }
        ensures { self.new ≡ slice_set self.old number true }
    {
        if !has_bit(&self.words, number) {
            let page = number as usize / 64;
            self.words[page] = with_bit(&self.words, number);
            self.counts[page] += 1;
        }
    }

    /// Whether a number is marked; none at or above the count is.
    pub fn has(&self, number: u32) -> bool
        ensures { result ≡ has self.now number }
    {
        has_bit(&self.words, number)
    }

    /// The least number below the count that is not marked, or the count if all are.
    pub fn first_missing(&self) -> u32
        ensures value { result ≡ first_missing self.now }
        ensures least { IsFirstMissing self.now result }
    {
        first_unmarked(&self.words, 64 * full_pages(&self.counts))
    }

    /// No number is marked any more.
    pub fn clear(&mut self)
        ensures { self.new ≡ replicate (length self.old) false }
    {
        *self = Pages::unmarked(self.count);
    }

    /// The set with another count, which takes no memory: numbers that are marked and below it stay so, and no others are
    /// marked. With a lower count each number below it is looked at, with any other count none.
    pub fn resized(self, count: u32) -> Pages
        requires { count ≤ max_blocks }
        ensures { result ≡ resized_marks count self }
    {
        if count < self.count {
            return self.below(count);
        }
        Pages {
            words: self.words,
            counts: self.counts,
            count,
        }
    }

    /// The marks of the numbers below a count that is no greater, as a set of these numbers.
    fn below(&self, count: u32) -> Pages
        requires most { count ≤ max_blocks }
        requires within { count ≤ length self.now }
        ensures { result ≡ take count self.now }
    {
        let mut set = Pages::unmarked(count);
        for number in 0..count {
            if self.has(number) {
                set.mark(number);
            }
        }
        set
    }

    /// The least number below a count that is not marked, or the count where all below it are.
    pub fn first_missing_below(&self, count: u32) -> u32
        ensures { result ≡ first_missing (take count self.now) }
    {
        self.first_missing().min(count)
    }

    /// The marks of the numbers below a count as a bit-string, as a meter shows them (IEC 62056-6-2,
    /// image_transferred_blocks_status). Its one error is out of memory.
    pub fn to_bits(&self, alloc: Global, count: u32) -> Result<Bits, AllocError>
        ensures { IfOk result (λ bits. bits ≡ take count self.now) }
    {
        laws::bits_packed();
        let count = count.min(self.count());
        let size = count.div_ceil(8) as usize;
        let all = self.to_bytes();
        let bytes = all[..size].to_vec(alloc)?;
        Ok(Bits::from_vec(bytes, count as usize))
    }

    /// The marks as bytes, of all numbers that an image can have: number i at bit i, the first bit the top bit of the
    /// first byte.
    pub fn to_bytes(&self) -> [u8; MARKS_SIZE]
        ensures value { result ≡ packed (all_marks self.now) }
        ensures size { length (all_marks self.now) ≡ max_blocks }

        // If the pages count all these numbers, they are their own marks.
        ensures whole { length self.now ≡ max_blocks → all_marks self.now ≡ self.now }
    {
        laws::bytes_packed();
        let mut bytes = [0; MARKS_SIZE];
        put_words(&mut bytes, &self.words);
        bytes
    }

    /// Fills `out` with some of these bytes, those of whole pages, of 8 bytes each: from the page `first` on, as many as there
    /// is room for.
    pub fn put_bytes(&self, first: usize, out: &mut [u8])
        requires whole { length out.old % 8 ≡ 0 }
        requires within { 8 * first + length out.old ≤ MARKS_SIZE }
        ensures value { out.new ≡ slice_range (packed (all_marks self.now)) (8 * first) (8 * first + length out.old) }
        ensures size { length (all_marks self.now) ≡ max_blocks }
    {
        laws::bytes_packed();
        let end = first + out.len() / 8;
        put_words(out, &self.words[first..end]);
    }

    /// The pages that have these bytes, of all numbers that an image can have. Any bytes are those of some pages.
    pub fn from_bytes(bytes: &[u8; MARKS_SIZE]) -> Pages
        ensures value { result ≡ bits bytes.now }
        ensures packs { packed result ≡ bytes.now }
        ensures size { length result ≡ max_blocks }

        // Bytes that hold marks are read as those marks.
        ensures unique { (marks : List Bool) → length marks ≡ max_blocks → packed marks ≡ bytes.now → result ≡ marks }
    {
        laws::bytes_packed();
        laws::bits_packed();
        let mut words = [0; PAGES];
        let mut counts = [0; PAGES];
        for page in 0..PAGES {
            let word = word_at(bytes, page);
            words[page] = word;
            counts[page] = word.count_ones() as u8;
        }
        Pages {
            words,
            counts,
            count: MAX_BLOCKS,
        }
    }
}

/// Whether a number is marked, of all that the pages have.
fn has_bit(words: &[u64; PAGES], number: u32) -> bool
    ensures { result ≡ is_marked words.now number }
{
    number < MAX_BLOCKS && (words[number as usize / 64] >> (63 - number % 64)) % 2 == 1
}

/// The word that a number's mark stands in, with the mark set.
fn with_bit(words: &[u64; PAGES], number: u32) -> u64
    requires { number < MAX_BLOCKS }
    ensures { (i : ℕ) → is_marked (slice_set words.now (number / 64) result) i ≡ ((i == number) || is_marked words.now i) }
{
    words[number as usize / 64] | 1 << (63 - number % 64)
}

/// How many pages stand before the first one that lacks a mark.
fn full_pages(counts: &[u8; PAGES]) -> u32
    ensures most { result ≤ PAGES }
    ensures full { (page : ℕ) → page < result → page_size ≤ slice_index counts.now page }
{
    for (page, count) in counts.iter().enumerate() {
        if *count < PAGE_SIZE {
            return page as u32;
        }
    }
    PAGES as u32
}

/// The least number that isn't marked. It is looked for from `from` on: all numbers before are marked.
fn first_unmarked(words: &[u64; PAGES], from: u32) -> u32
    requires { (i : ℕ) → i < from → is_marked words.now i ≡ true }
    ensures before { (i : ℕ) → i < result → is_marked words.now i ≡ true }
    ensures here { is_marked words.now result ≡ false }
{
    let mut first = from;
    while has_bit(words, first) {
        first += 1;
    }
    first
}

/// Writes the words of pages as bytes.
fn put_words(bytes: &mut [u8], words: &[u64])
    requires { length bytes.old ≡ 8 * length words.now }
    ensures { bytes.new ≡ flat_map (to_be_bytes w64) words.now }
{
    for page in 0..words.len() {
        put_word(bytes, page, words[page]);
    }
}

/// Writes a page's word as bytes.
fn put_word(bytes: &mut [u8], page: usize, word: u64)
    requires { 8 * (page + 1) ≤ length bytes.old }
    ensures { take (8 * (page + 1)) bytes.new ≡ take (8 * page) bytes.old ++ to_be_bytes w64 word }
{
    let at = 8 * page;
    bytes[at..at + 8].copy_from_slice(&word.to_be_bytes());
}

/// The word that a page's bytes are read as.
fn word_at(bytes: &[u8; MARKS_SIZE], page: usize) -> u64
    requires { page < PAGES }
    ensures { to_be_bytes w64 result ≡ slice_range bytes.now (8 * page) (8 * page + 8) }
{
    let at = 8 * page;
    u64::from_be_bytes([
        bytes[at],
        bytes[at + 1],
        bytes[at + 2],
        bytes[at + 3],
        bytes[at + 4],
        bytes[at + 5],
        bytes[at + 6],
        bytes[at + 7],
    ])
}
