//! Windows: the blocks to be sent next.

ghost use Rattle.std.specs.Prelude.{◌≡◌, ℕ, ◌-◌, ◌<◌, ◌≤◌, List, ◌++◌, length, SomeIff, All, Contains};
ghost use Rattle.std.specs.List.{range_with_len};
ghost use Rattle.std.specs.List.Sorted.{IsStrictlyIncreasing};
ghost use Rattle.fw_blocks.specs.Private.{Lists};
ghost use Rattle.fw_blocks.specs.Members.{IsAbsent, window};
ghost use Rattle.fw_blocks.specs.Width.{IsWidth, max_width};

use crate::block_set::BlockSet;
use std::marker::Model;

/// The most numbers that a window has.
pub const MAX_WIDTH: u8 = 15;

/// The places in the array of a window.
const PLACES: usize = MAX_WIDTH as usize;

/// How many numbers a window has at most: 1 to 15.
#[derive(Clone, Copy, PartialEq, Eq, PartialOrd, Ord)]
pub struct Width {
    number: u8,
}

impl Model for Width {
    ghost use Rattle.std.specs.Prelude.{ℕ};
    ghost use Rattle.fw_blocks.specs.Width.{IsWidth};

    ghost Value = { ℕ };

    ghost view = { λ w. w.number };

    ghost invariant = { λ w. IsWidth w.number };

    ghost inverse = { λ n. record { number = n } };
}

impl Width {
    /// A width of this number, and `None` for 0 and above 15.
    pub fn new(number: u8) -> Option<Width>
        ensures { SomeIff result (IsWidth number) number }
    {
        if number == 0 || MAX_WIDTH < number {
            return None;
        }
        Some(Width { number })
    }

    /// The number: 1 to 15.
    pub fn number(self) -> u8
        ensures value { result ≡ self }
        ensures limits { IsWidth result }
    {
        self.number
    }
}

/// The numbers of the blocks that are sent next, lowest first. It has room for 15 in itself, and takes
/// no memory.
#[derive(Clone, Copy)]
pub struct Window {
    numbers: [u32; PLACES],
    len: usize,
}

// Contracts see the list of the numbers.
impl Model for Window {
    ghost use Rattle.std.specs.Prelude.{ℕ, ◌++◌, ◌-◌, List, length, refl, replicate, take};
    ghost use Rattle.fw_blocks.specs.Private.{HoldsFew};
    ghost use Rattle.fw_blocks.specs.Width.{max_width};

    ghost Value = { List ℕ };

    ghost view = { λ w. take w.len w.numbers };

    ghost invariant = { λ w. HoldsFew w.numbers w.len };

    ghost inverse = { λ numbers. record { numbers = numbers ++ replicate (max_width - length numbers) 0; len = length numbers } };

    ghost inverse_ok = { λ w h. rw (h.count, ← h.rest) refl };
}

impl Window {
    /// The lowest numbers that are not in the set, ascending, at most as many as the width.
    pub fn next(set: &BlockSet, width: Width) -> Window
        ensures value { result ≡ window set.now width }
        ensures ascending { IsStrictlyIncreasing result }
        ensures absent { All (IsAbsent set.now) result }
        ensures most { length result ≤ width }

        // If an absent number isn't in the window, the window is full, and all its numbers are below that one.
        ensures lowest { (number : ℕ) → IsAbsent set.now number → ¬ Contains result number →
            (length result ≡ width) × All (λ lower. lower < number) result }
    {
        lowest_absent(set, usize::from(width.number()))
    }

    /// The numbers, ascending: 15 at most.
    pub fn as_slice(&self) -> &[u32]
        ensures value { result.now ≡ self.now }
        ensures most { length result.now ≤ max_width }
    {
        &self.numbers[..self.len]
    }
}

/// The lowest absent numbers, as many as the width: those before a run, and then those after it, run by run.
fn lowest_absent(set: &BlockSet, width: usize) -> Window
    requires { width ≤ PLACES }
    ensures { result ≡ window set.now width }
{
    let mut numbers = [0; PLACES];
    let mut len = 0;
    let mut from = 0;
    for run in set.runs() {
        if len == width {
            return Window { numbers, len };
        }
        len = list(&mut numbers, len, width, from, run.start);
        from = run.end;
    }
    len = list(&mut numbers, len, width, from, set.count());
    Window { numbers, len }
}

/// Appends the numbers from `from` on and below `to` to those that are listed, until there are as many as the width.
fn list(numbers: &mut [u32; PLACES], listed: usize, width: usize, from: u32, to: u32) -> usize
    requires most { listed ≤ width }
    requires fits { width ≤ PLACES }
    ensures most { result ≤ width }
    ensures lists { (before : List ℕ) → Lists before width numbers.old listed → Lists (before ++ range_with_len from (to - from)) width numbers.new result }
{
    let mut len = listed;
    for number in from..to {
        if len == width {
            break;
        }
        numbers[len] = number;
        len += 1;
    }
    len
}
