//! Tables as texts: a line a row, `what => report`.

use crate::expected::{expect, expect_at, present};
use std::alloc::Global;
use std::fmt::Display;
use std::test::Fail;

/// Something that reads what stands in a row, and reports what it makes of it.
pub trait Reads {
    fn told(&mut self, alloc: Global, what: &str) -> Result<String, Fail>;
}

/// Each row reports what stands after its arrow. Empty lines and those that begin with `//` are no rows. A table has one row at least.
pub fn each_line<R: Reads>(alloc: Global, subject: &mut R, table: &str) -> Result<(), Fail> {
    let mut has_rows = false;
    for line in table.lines() {
        has_rows |= row(alloc, subject, line.trim())?;
    }
    if !has_rows {
        return Err("a table without rows".into());
    }
    Ok(())
}

/// The same of several tables, one after another.
pub fn each_part<R: Reads>(alloc: Global, subject: &mut R, tables: &[&str]) -> Result<(), Fail> {
    for table in tables {
        each_line(alloc, subject, table)?;
    }
    Ok(())
}

/// The same of several tables, each beside its subject.
pub fn each_table<R: Reads + Copy>(alloc: Global, tables: &[(R, &str)]) -> Result<(), Fail> {
    for (subject, table) in tables {
        let mut subject = *subject;
        each_line(alloc, &mut subject, table)?;
    }
    Ok(())
}

/// Whether the line is a row, which then reports what stands after its arrow.
fn row<R: Reads>(alloc: Global, subject: &mut R, line: &str) -> Result<bool, Fail> {
    if line.is_empty() || line.starts_with("//") {
        return Ok(false);
    }
    let (what, want) = present(line.split_once("=>"), "a row without an arrow")?;
    let told = subject.told(alloc, what.trim())?;
    expect_at(alloc, line, told.as_str(), want.trim())?;
    Ok(true)
}

/// Each fault prints what stands beside it. There is one at least.
pub fn each_prints<E: Display>(alloc: Global, rows: &[(E, &str)]) -> Result<(), Fail> {
    if rows.is_empty() {
        return Err("a table without rows".into());
    }
    for (at, (fault, want)) in rows.iter().enumerate() {
        let printed = format!(in alloc; "{fault}")?;
        expect(alloc, at, printed.as_str(), want)?;
    }
    Ok(())
}

/// The text of this name among lines `name = text`.
pub fn named<'a>(names: &'a str, name: &str) -> Option<&'a str> {
    for line in names.lines() {
        if let Some((key, text)) = line.split_once(" = ") {
            if key.trim() == name {
                return Some(text.trim());
            }
        }
    }
    None
}

/// A value that is read from the next words of a line, as `let (name, [from, to]): (&str, [u32; 2]) = words.read()?;` does it.
pub trait FromWords<'a>: Copy {
    fn from_words(words: &mut Words<'a>) -> Result<Self, Fail>;
}

impl<'a> FromWords<'a> for &'a str {
    fn from_words(words: &mut Words<'a>) -> Result<&'a str, Fail> {
        words.word()
    }
}

impl<'a> FromWords<'a> for u8 {
    fn from_words(words: &mut Words<'a>) -> Result<u8, Fail> {
        Ok(words.word()?.parse::<u8>()?)
    }
}

impl<'a> FromWords<'a> for u16 {
    fn from_words(words: &mut Words<'a>) -> Result<u16, Fail> {
        Ok(words.word()?.parse::<u16>()?)
    }
}

impl<'a> FromWords<'a> for u32 {
    fn from_words(words: &mut Words<'a>) -> Result<u32, Fail> {
        words.number()
    }
}

impl<'a> FromWords<'a> for u64 {
    fn from_words(words: &mut Words<'a>) -> Result<u64, Fail> {
        Ok(words.word()?.parse::<u64>()?)
    }
}

impl<'a, T: FromWords<'a> + Default, const N: usize> FromWords<'a> for [T; N] {
    fn from_words(words: &mut Words<'a>) -> Result<[T; N], Fail> {
        let mut values = [T::default(); N];
        for value in &mut values {
            *value = T::from_words(words)?;
        }
        Ok(values)
    }
}

impl<'a, T: FromWords<'a>, U: FromWords<'a>> FromWords<'a> for (T, U) {
    fn from_words(words: &mut Words<'a>) -> Result<(T, U), Fail> {
        Ok((T::from_words(words)?, U::from_words(words)?))
    }
}

impl<'a, T: FromWords<'a>, U: FromWords<'a>, V: FromWords<'a>> FromWords<'a> for (T, U, V) {
    fn from_words(words: &mut Words<'a>) -> Result<(T, U, V), Fail> {
        Ok((
            T::from_words(words)?,
            U::from_words(words)?,
            V::from_words(words)?,
        ))
    }
}

/// The words of a line, one after another.
#[derive(Clone, Copy)]
pub struct Words<'a>(&'a str);

impl<'a> Words<'a> {
    pub fn new(line: &'a str) -> Words<'a> {
        Words(line.trim())
    }

    /// The next word, if one is left.
    pub fn next(&mut self) -> Option<&'a str> {
        if self.0.is_empty() {
            return None;
        }
        let (word, rest) = self.0.split_once(' ').unwrap_or((self.0, ""));
        self.0 = rest.trim_start();
        Some(word)
    }

    /// The next word.
    pub fn word(&mut self) -> Result<&'a str, Fail> {
        present(self.next(), "a word is lacking")
    }

    /// The next word as a number.
    pub fn number(&mut self) -> Result<u32, Fail> {
        Ok(self.word()?.parse::<u32>()?)
    }

    /// The next words as a value.
    pub fn read<T: FromWords<'a>>(&mut self) -> Result<T, Fail> {
        T::from_words(self)
    }

    /// What is left of the line.
    pub fn rest(&self) -> &'a str {
        self.0
    }
}
