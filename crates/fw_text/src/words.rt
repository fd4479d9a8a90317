//! The words of a line, and what they say.

ghost use Rattle.std.specs.Prelude.{
  ◌≡◌,
  true,
  List,
  IsSome,
  IfOk,
  ◌∷◌,
  [],
  ◌<◌,
  ◌≤◌,
  ◌==◌,
  ℕ,
  Some,
  None,
  length,
  is_some,
  bytes_eq,
  if◌then◌else◌,
  nat_lt,
  MatchOption,
  IfSome,
  position,
};
ghost use Rattle.std.specs.List.{list_all, position_or_len};
ghost use Rattle.std.specs.Char.{is_ascii_digit};
ghost use Rattle.std.specs.Str.Parse.{digits_value};
ghost use Rattle.fw_text.specs.Words.{words_of, number_of, bytes_said, keyword, first_says, numbers_of, byte_of, from_one, words_behind};

use crate::hexadecimal::{bytes_of, is_hexadecimal};
use std::alloc::{AllocError, Global};

/// The first word of a line, and the text after it: none, or a space and the other words.
pub fn first_word(text: &[u8]) -> (&[u8], &[u8])
    ensures words { words_of text.now ≡ result.0.now ∷ words_behind result.1.now }
    ensures shorter { length result.1.now ≤ length text.now }
{
    text.split_at(word_end(text))
}

/// Where the first word ends.
fn word_end(text: &[u8]) -> usize
    ensures { result ≡ position_or_len (λ byte. byte == 32) text.now }
{
    first_space(text).unwrap_or(text.len())
}

/// Where the first space stands.
fn first_space(text: &[u8]) -> Option<usize>
    ensures { result ≡ position (λ byte. byte == 32) text.now }
{
    text.iter().position(|byte| *byte == b' ')
}

/// The next word, and the text after it, if a word is left.
pub fn next_word(rest: &[u8]) -> Option<(&[u8], &[u8])>
    ensures words { MatchOption result (words_behind rest.now ≡ []) (λ r. words_behind rest.now ≡ r.0.now ∷ words_behind r.1.now) }
    ensures shorter { IfSome result (λ r. length r.1.now < length rest.now) }
{
    let (_space, text) = rest.split_first()?;
    Some(first_word(text))
}

/// The number that a word says, if it says one.
pub fn number_of(word: &[u8]) -> Option<u32>
    ensures { result ≡ number_of word.now }
{
    if (1..=10).contains(&word.len()) && are_digits(word) {
        value_of(word)
    } else {
        None
    }
}

/// Whether all bytes are decimal digits.
fn are_digits(word: &[u8]) -> bool
    ensures { result ≡ list_all is_ascii_digit word.now }
{
    word.iter().all(|byte| byte.is_ascii_digit())
}

/// The value of decimal digits, if it is below 2^32.
fn value_of(digits: &[u8]) -> Option<u32>
    requires { list_all is_ascii_digit digits.now ≡ true }
    ensures { result ≡ (if nat_lt (digits_value 10 digits.now) 4294967296 then Some (digits_value 10 digits.now) else None) }
{
    let mut value = 0u32;
    let mut rest = digits;
    while let Some((digit, others)) = rest.split_first() {
        value = value
            .checked_mul(10)?
            .checked_add(u32::from(*digit - b'0'))?;
        rest = others;
    }
    Some(value)
}

/// The number that the next word says, and the text after it.
pub fn number(rest: &[u8]) -> Option<(u32, &[u8])>
    ensures shorter { IfSome result (λ r. length r.1.now < length rest.now) }
    ensures says { MatchOption result (first_says number_of (words_behind rest.now) ≡ None)
        (λ r. first_says number_of (words_behind rest.now) ≡ Some (r.0, words_behind r.1.now)) }
{
    let (word, rest) = next_word(rest)?;
    Some((number_of(word)?, rest))
}

/// The number from 1 on that the next word says, and the text after it.
pub fn from_one(rest: &[u8]) -> Option<(u32, &[u8])>
    ensures says { MatchOption result (first_says from_one (words_behind rest.now) ≡ None)
        (λ r. first_says from_one (words_behind rest.now) ≡ Some (r.0, words_behind r.1.now)) }
    ensures begins { IfSome result (λ r. 1 ≤ r.0) }
{
    let (word, rest) = next_word(rest)?;
    match number_of(word)? {
        0 => None,
        number => Some((number, rest)),
    }
}

/// The byte whose number the next word says, and the text after it.
pub fn byte(rest: &[u8]) -> Option<(u8, &[u8])>
    ensures { MatchOption result (first_says byte_of (words_behind rest.now) ≡ None)
        (λ r. first_says byte_of (words_behind rest.now) ≡ Some (r.0, words_behind r.1.now)) }
{
    let (word, rest) = next_word(rest)?;
    Some((u8::try_from(number_of(word)?).ok()?, rest))
}

/// The text after the next word, if this is that word.
pub fn keyword<'a>(rest: &'a [u8], text: &[u8]) -> Option<&'a [u8]>
    ensures { MatchOption result (first_says (keyword text.now) (words_behind rest.now) ≡ None)
        (λ r. first_says (keyword text.now) (words_behind rest.now) ≡ Some (tt, words_behind r.now)) }
{
    let (word, rest) = next_word(rest)?;
    if is(word, text) { Some(rest) } else { None }
}

/// Whether a word is this text.
pub fn is(word: &[u8], text: &[u8]) -> bool
    ensures { result ≡ bytes_eq word.now text.now }
{
    word == text
}

/// The next word, which says bytes, and the text after it.
pub fn bytes(rest: &[u8]) -> Option<(&[u8], &[u8])>
    ensures { MatchOption result (first_says bytes_said (words_behind rest.now) ≡ None)
        (λ r. (said : List ℕ) × (bytes_said r.0.now ≡ Some said)
        × (first_says bytes_said (words_behind rest.now) ≡ Some (said, words_behind r.1.now))) }
{
    let (word, rest) = next_word(rest)?;
    if says_bytes(word) {
        Some((word, rest))
    } else {
        None
    }
}

/// Whether a word says bytes.
fn says_bytes(word: &[u8]) -> bool
    ensures { result ≡ is_some (bytes_said word.now) }
{
    is(word, b"-") || (!word.is_empty() && is_hexadecimal(word))
}

/// The bytes that a word says.
pub fn bytes_said(alloc: Global, word: &[u8]) -> Result<Vec<u8>, AllocError>
    requires { IsSome (bytes_said word.now) }
    ensures { IfOk result (λ bytes. bytes_said word.now ≡ Some bytes.items) }
{
    if is(word, b"-") {
        return Ok(Vec::new(alloc));
    }
    match bytes_of(alloc, word)? {
        Some(bytes) => Ok(bytes),
        None => unreachable!(),
    }
}

/// Whether all words that are left are numbers.
pub fn are_numbers(rest: &[u8]) -> bool
    ensures { result ≡ is_some (numbers_of (words_behind rest.now)) }
{
    let mut left = rest;
    while let Some((word, after)) = next_word(left) {
        if number_of(word).is_none() {
            return false;
        }
        left = after;
    }
    true
}
