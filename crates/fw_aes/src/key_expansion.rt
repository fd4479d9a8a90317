//! KEYEXPANSION, a round key of four words at a time (FIPS 197, 5.2).

ghost use Rattle.std.specs.Prelude.{◌≡◌, ◌+◌, ◌≤◌};
ghost use Rattle.fw_aes.specs.Aes.{first_word, later_word, next_key};

use crate::sub_bytes::sub_bytes;
use std::simd::prelude::*;

/// The first word of the round key after `k`.
fn first_word(k: &[u8; 16], constant: u8) -> [u8; 4]
    ensures { result ≡ first_word k.now constant }
{
    let s = sub_bytes(u8x16::from_array(*k)).to_array();
    [
        k[0] ^ (s[13] ^ constant),
        k[1] ^ s[14],
        k[2] ^ s[15],
        k[3] ^ s[12],
    ]
}

/// The word of the round key after `k` at byte `n`, after the word `w`.
fn later_word(k: &[u8; 16], n: usize, w: [u8; 4]) -> [u8; 4]
    requires { n ≤ 12 }
    ensures { result ≡ later_word k.now n w }
{
    [
        k[n] ^ w[0],
        k[n + 1] ^ w[1],
        k[n + 2] ^ w[2],
        k[n + 3] ^ w[3],
    ]
}

/// The round key after `k`.
pub(crate) fn next_key(k: &[u8; 16], constant: u8) -> [u8; 16]
    ensures { result ≡ next_key k.now constant }
{
    let a = first_word(k, constant);
    let b = later_word(k, 4, a);
    let c = later_word(k, 8, b);
    let d = later_word(k, 12, c);
    [
        a[0], a[1], a[2], a[3], b[0], b[1], b[2], b[3], c[0], c[1], c[2], c[3], d[0], d[1], d[2],
        d[3],
    ]
}
