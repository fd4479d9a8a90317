//! A sink with a disk behind it.

use fw_recording::Sink;
use std::io;
use std::rt::Clock;

/// A sink whose disk has what it took, about a second later, as long as it is asked again and again.
pub trait SyncedSink: Sink {
    /// Puts what was taken on the disk, if that is due.
    ///
    /// # Errors
    ///
    /// What the system says. The disk may lack then what was taken since it was done last.
    fn settle<C: Clock>(&self, rt: &C) -> io::Result<()>;
}
