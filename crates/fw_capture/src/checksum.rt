//! The checksum of IPv4 and UDP (RFC 1071).

ghost use Rattle.std.specs.Prelude.{◌≡◌, ◌+◌, ◌*◌, ◌<◌, ◌≤◌, ◌^◌, length};
ghost use Rattle.fw_capture.specs.Checksum.{word_sum, checksum_of};

/// `start` and the sum of the 16 bit words that bytes are. An odd byte at the end is the high one of its word.
pub(crate) fn word_sum(start: u64, bytes: &[u8]) -> u64
    requires { start + 65535 * length bytes.now < 2 ^ 64 }
    ensures sum { result ≡ start + word_sum bytes.now }
    ensures bound { result ≤ start + 65535 * length bytes.now }
{
    let mut total = start;
    let mut left = bytes;
    while let [high, low, rest @ ..] = left {
        total += u64::from(*high) * 256 + u64::from(*low);
        left = rest;
    }
    if let [high] = left {
        total += u64::from(*high) * 256;
    }
    total
}

/// The checksum of words with this sum. A sum with end-around carry is the sum modulo 65,535, but is 0 only for 0.
pub(crate) fn checksum_of(sum: u64) -> u16
    ensures { result ≡ checksum_of sum }
{
    if sum == 0 {
        0xffff
    } else {
        0xfffe - ((sum - 1) % 0xffff) as u16
    }
}
