//! The forms of a capture, by its file header.

ghost use Rattle.std.specs.Prelude.{◌≡◌, ◌*◌, ◌≤◌};
ghost use Rattle.fw_capture.specs.Reading.{fractions, fraction_nanoseconds};

/// What the packets of a capture begin with.
#[derive(Clone, Copy)]
pub enum Link {
    /// A header of Ethernet, which may have a tag of a virtual network.
    Ethernet,
    /// A header of Linux cooked capture, version 1.
    Cooked,
    /// A header of Linux cooked capture, version 2.
    CookedTwo,
    /// The IP packet itself.
    Raw,
}

/// How the records of a capture are written.
#[derive(Clone, Copy)]
pub struct Format {
    /// The lowest byte of each number is the first.
    pub little: bool,
    /// Fractions are nanoseconds, and not microseconds.
    pub nano: bool,
    pub link: Link,
}

impl Format {
    /// How many fractions a second has.
    pub(crate) fn fractions(self) -> u32
        ensures { result ≡ fractions self }
    {
        if self.nano { 1_000_000_000 } else { 1_000_000 }
    }

    /// The nanoseconds of N fractions.
    pub(crate) fn nanoseconds(self, count: u32) -> u64
        ensures value { result ≡ count * fraction_nanoseconds self }
        ensures bound { result ≤ 1000 * count }
    {
        let count = u64::from(count);
        if self.nano { count } else { count * 1000 }
    }
}
