//! Cells of tables, in columns of equal width.

ghost use Rattle.std.specs.Prelude.{◌≡◌, ◌++◌, replicate, OnOk, string_bytes};
ghost use Rattle.fw_rows.specs.Table.{number_cell};

use std::alloc::AllocError;

/// The width of a column of numbers, which have 10 digits at most.
const COLUMN: usize = 12;

/// The headings of the rows.
pub const ROW_HEADINGS: &str = "head end    campaign    meter       state\n";

/// Appends a number, and spaces to the end of its column.
pub fn append_number(text: &mut String, number: u32) -> Result<(), AllocError>
    ensures { OnOk result (string_bytes text.new ≡ string_bytes text.old ++ number_cell number) }
{
    let start = text.len();
    write!(text, "{number}")?;
    let filled = text.len() - start;
    append_spaces(text, COLUMN.saturating_sub(filled))
}

/// Appends this number of spaces.
fn append_spaces(text: &mut String, count: usize) -> Result<(), AllocError>
    ensures { OnOk result (string_bytes text.new ≡ string_bytes text.old ++ replicate count 32) }
{
    for _ in 0..count {
        text.push_str(" ")?;
    }
    Ok(())
}
