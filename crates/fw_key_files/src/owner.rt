//! Whose file of keys it is.

ghost use Rattle.std.specs.Prelude.{Some};
ghost use Rattle.fw_key_files.specs.Making.{file_name};

use fw_names::MeterId;
use std::fmt;

/// Whose file of keys it is. It prints the name that the file is made with.
#[derive(Clone, Copy, Debug)]
pub enum Owner {
    /// The head end's: `head.keys`.
    Head,
    /// This meter's: `meter.NUMBER.keys`.
    Meter(MeterId),
}

impl fmt::Display for Owner {
    ghost output = { λ owner. Some (file_name owner) };

    fn fmt<W: fmt::Write>(&self, f: &mut fmt::Formatter<W>) -> fmt::Result {
        match self {
            Owner::Head => f.write_str("head.keys"),
            Owner::Meter(meter) => {
                let number = meter.number();
                write!(f, "meter.{number}.keys")
            }
        }
    }
}
