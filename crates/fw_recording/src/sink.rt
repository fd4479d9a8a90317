//! Where the records of a capture go.

ghost use Rattle.std.specs.Prelude.{ℕ, List, OnOk};

use std::io;
use std::io::Write;

/// What takes the file header and the records of a capture, each whole, by a call of its own. Of one call nothing is known but that it took
/// these bytes, so a record that was put by two is none.
pub trait Sink {
    /// What it is before and after a call that took these bytes.
    ghost takes: { Self → Self → List ℕ → Type 0 };

    /// Takes these bytes, all of them.
    ///
    /// # Errors
    ///
    /// What the system says. What the sink has then is unspecified.
    fn put(&mut self, bytes: &[u8]) -> io::Result<()>
        ensures { OnOk result (takes self.old self.new bytes.now) };
}

/// A writer takes them by one `write_all`, and is flushed then.
impl<W: Write> Sink for W {
    ghost use Rattle.std.specs.Io.KnownBytes.{Appends};

    ghost takes = { λ first last bytes. Appends (W.contents first) (W.contents last) bytes };

    fn put(&mut self, bytes: &[u8]) -> io::Result<()> {
        self.write_all(bytes)?;
        self.flush()
    }
}
