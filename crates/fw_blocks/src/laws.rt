//! Laws of block cuts and of sets of block numbers, over the definitions alone.

ghost use Rattle.fw_blocks.specs.Laws.{
  NonemptyBelowCount,
  BeginsWithin,
  CutsJoin,
  NextJoins,
  WholeButTheLast,
  CutSize,
  CutOfFront,
  OtherBlocksStay,
  OneFirstMissing,
  CompleteWithoutMissing,
  OneSetForBytes,
};

use fw_axdr::laws;

/// A cut has a byte exactly if its number is below the count.
pub fn nonempty_below_count()
    ensures { NonemptyBelowCount }
{}

/// A block begins within the image exactly if its number is below the count.
pub fn begins_within()
    ensures { BeginsWithin }
{}

/// The cuts below the count, joined in order, are the byte string.
pub fn cuts_join()
    ensures { CutsJoin }
{}

/// The bytes before a block, and then the block, are the bytes before the next one.
pub fn next_joins()
    ensures { NextJoins }
{}

/// Each block except the last has exactly the block size.
pub fn whole_but_the_last()
    ensures { WholeButTheLast }
{}

/// A block has as many bytes as lie between its ends.
pub fn cut_size()
    ensures { CutSize }
{}

/// A block of the front of a longer byte string lies there between the same ends.
pub fn cut_of_front()
    ensures { CutOfFront }
{}

/// If a byte string is written within one block alone, every other block stays as it was.
pub fn other_blocks_stay()
    ensures { OtherBlocksStay }
{}

/// The first missing number is the least absent one, or the count if none is absent.
pub fn one_first_missing()
    ensures { OneFirstMissing }
{}

/// Every number is in the set exactly if the first missing one is the count.
pub fn complete_without_missing()
    ensures { CompleteWithoutMissing }
{}

/// Two sets with the same count are the same where the same bytes hold their bits.
pub fn one_set_for_bytes()
    ensures { OneSetForBytes }
{
    laws::bits_packed();
}
