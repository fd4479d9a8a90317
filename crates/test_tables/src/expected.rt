//! What is found, and what is wanted.

ghost use Rattle.std.specs.Prelude.{◌≡◌, IfOk, Some};

use std::alloc::Global;
use std::test::Fail;

/// What is found in a row is what is wanted there.
pub fn expect(alloc: Global, row: usize, found: &str, want: &str) -> Result<(), Fail> {
    if found == want {
        return Ok(());
    }
    let told = format!(in alloc; "row {row}: {found} in place of {want}")?;
    Err(Fail::from(told))
}

/// What is found at a place is what is wanted there.
pub fn expect_at(alloc: Global, place: &str, found: &str, want: &str) -> Result<(), Fail> {
    if found == want {
        return Ok(());
    }
    let told = format!(in alloc; "{place}: {found} in place of {want}")?;
    Err(Fail::from(told))
}

/// What is there, or a failure that names what is lacking.
pub fn present<T>(option: Option<T>, lacking: &str) -> Result<T, Fail>
    ensures { IfOk result (λ value. option ≡ Some value) }
{
    match option {
        Some(value) => Ok(value),
        None => Err(lacking.into()),
    }
}
