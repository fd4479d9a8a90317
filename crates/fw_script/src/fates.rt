//! Fates as they are given on a command line, a letter each.

ghost use Rattle.std.specs.Prelude.{◌≡◌, ◌↔◌, IsTrue, Some, IfOk};
ghost use Rattle.std.specs.List.{list_all};
ghost use Rattle.fw_air.specs.declared.fates.Fate.{Fate};
ghost use Rattle.fw_script.specs.Fates.{SpellsFates, SpellsSome, letter_of, is_letter};

use crate::error::FatesError;
use fw_air::{Fate, MAX_FATES};
use std::alloc::Global;

/// The fates that these letters spell: `d` a datagram comes, `x` it is lost, `t` it comes twice, `l` it comes late. Where memory is
/// refused, the letters are judged without it.
///
/// # Errors
///
/// `BadFates` if they aren't 1 to 4,096 of these letters, and `OutOfMemory`.
pub fn read_fates(alloc: Global, letters: &[u8]) -> Result<Vec<Fate>, FatesError>
    ensures ok { IfOk result (λ fates. SpellsFates letters.now fates.items) }
    ensures bad_fates { result ≡ Err FatesError.BadFates → ¬ SpellsSome letters.now }
    ensures memory { result ≡ Err FatesError.OutOfMemory → SpellsSome letters.now }
{
    if !are_fates(letters) {
        return Err(FatesError::BadFates);
    }
    let mut fates = Vec::with_capacity(alloc, letters.len())?;
    for letter in letters {
        match fate_of(*letter) {
            Some(fate) => fates.push(fate)?,
            None => return Err(FatesError::BadFates),
        }
    }
    Ok(fates)
}

/// Whether the letters spell 1 to 4,096 fates.
fn are_fates(letters: &[u8]) -> bool
    ensures { IsTrue result ↔ SpellsSome letters.now }
{
    (1..=MAX_FATES).contains(&letters.len()) && are_letters(letters)
}

fn are_letters(letters: &[u8]) -> bool
    ensures { result ≡ list_all is_letter letters.now }
{
    letters.iter().all(|letter| is_letter(*letter))
}

/// Whether a letter stands for a fate.
fn is_letter(letter: u8) -> bool
    ensures { result ≡ is_letter letter }
{
    matches!(letter, b'd' | b'x' | b't' | b'l')
}

/// The fate that a letter stands for.
fn fate_of(letter: u8) -> Option<Fate>
    ensures { (fate : Fate) → (result ≡ Some fate) ↔ (letter_of fate ≡ letter) }
{
    match letter {
        b'd' => Some(Fate::Deliver),
        b'x' => Some(Fate::Drop),
        b't' => Some(Fate::Twice),
        b'l' => Some(Fate::Late),
        _ => None,
    }
}
