//! System titles that are made of numbers.

ghost use Rattle.std.specs.Prelude.{◌≡◌};
ghost use Rattle.fw_keys.specs.Titles.{head_title, meter_title};

use fw_names::{HeadId, MeterId};
use fw_seal::TITLE_SIZE;

/// The system title of a head end: `KZBH`, and its number.
pub fn head_title(head: HeadId) -> [u8; TITLE_SIZE]
    ensures { result ≡ head_title head }
{
    let [a, b, c, d] = head.number().to_be_bytes();
    [b'K', b'Z', b'B', b'H', a, b, c, d]
}

/// The system title that a new key file gives a meter: `KZBM`, and its number.
pub fn meter_title(meter: MeterId) -> [u8; TITLE_SIZE]
    ensures { result ≡ meter_title meter }
{
    let [a, b, c, d] = meter.number().to_be_bytes();
    [b'K', b'Z', b'B', b'M', a, b, c, d]
}
