//! The numbers of headers.

ghost use Rattle.std.specs.Prelude.{◌≡◌, ◌+◌, ◌≤◌, drop, length, take};
ghost use Rattle.fw_capture.specs.Reading.{short_at, word_at, long_at, half_at, number_at};

/// The number of two bytes at a place, high byte first.
pub(crate) fn short_at(place: usize, bytes: &[u8]) -> u16
    requires { place + 2 ≤ length bytes.now }
    ensures { result ≡ short_at place bytes.now }
{
    let [high, low, ..] = &bytes[place..] else {
        unreachable!()
    };
    u16::from_be_bytes([*high, *low])
}

/// The number of four bytes at a place, high byte first.
pub(crate) fn word_at(place: usize, bytes: &[u8]) -> u32
    requires { place + 4 ≤ length bytes.now }
    ensures { result ≡ word_at place bytes.now }
{
    let [a, b, c, d, ..] = &bytes[place..] else {
        unreachable!()
    };
    u32::from_be_bytes([*a, *b, *c, *d])
}

/// The number of eight bytes at a place, high byte first.
pub(crate) fn long_at(place: usize, bytes: &[u8]) -> u64
    requires { place + 8 ≤ length bytes.now }
    ensures { result ≡ long_at place bytes.now }
{
    let [a, b, c, d, e, f, g, h, ..] = &bytes[place..] else {
        unreachable!()
    };
    u64::from_be_bytes([*a, *b, *c, *d, *e, *f, *g, *h])
}

/// The number of two bytes at a place, in the order of the file.
pub(crate) fn half_at(little: bool, place: usize, bytes: &[u8]) -> u16
    requires { place + 2 ≤ length bytes.now }
    ensures { result ≡ half_at little place bytes.now }
{
    let [a, b, ..] = &bytes[place..] else {
        unreachable!()
    };
    if little {
        u16::from_le_bytes([*a, *b])
    } else {
        u16::from_be_bytes([*a, *b])
    }
}

/// The number of four bytes at a place, in the order of the file.
pub(crate) fn number_at(little: bool, place: usize, bytes: &[u8]) -> u32
    requires { place + 4 ≤ length bytes.now }
    ensures { result ≡ number_at little place bytes.now }
{
    let [a, b, c, d, ..] = &bytes[place..] else {
        unreachable!()
    };
    let number = [*a, *b, *c, *d];
    if little {
        u32::from_le_bytes(number)
    } else {
        u32::from_be_bytes(number)
    }
}

/// The four bytes at a place.
pub(crate) fn four_at(place: usize, bytes: &[u8]) -> [u8; 4]
    requires { place + 4 ≤ length bytes.now }
    ensures { result ≡ take 4 (drop place bytes.now) }
{
    let [a, b, c, d, ..] = &bytes[place..] else {
        unreachable!()
    };
    [*a, *b, *c, *d]
}

/// The sixteen bytes at a place.
pub(crate) fn sixteen_at(place: usize, bytes: &[u8]) -> [u8; 16]
    requires { place + 16 ≤ length bytes.now }
    ensures { result ≡ take 16 (drop place bytes.now) }
{
    let mut octets = [0; 16];
    octets.copy_from_slice(&bytes[place..place + 16]);
    octets
}
