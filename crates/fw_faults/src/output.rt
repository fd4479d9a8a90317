//! Writing what a command prints.

ghost use Rattle.std.specs.Prelude.{OnOk};
ghost use Rattle.std.specs.Io.KnownBytes.{Appends};

use std::io;
use std::io::Write;

/// Writes all of a text, and flushes it.
///
/// # Errors
///
/// The writer's. What it holds then is unspecified.
pub fn write_text<W: Write>(writer: &mut W, text: &str) -> io::Result<()>
    ensures written { OnOk result (Appends (W.contents writer.old) (W.contents writer.new) text.now) }
{
    writer.write_all(text.as_bytes())?;
    writer.flush()
}
