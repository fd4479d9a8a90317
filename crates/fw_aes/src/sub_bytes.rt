//! SUBBYTES of a block (FIPS 197, 5.1.1).
//!
//! GF(2^8) is seen as the plane over GF(2^4) with the basis u and u^16, where u = x, and a is (u + u^16)^2 / u^17. A byte is
//! i u + j u^16, and k = i + j. With r = 1 / (1/i + a/k) + j and s = 1 / (1/j + a/k) + i, the inverse of the byte is a sum of multiples
//! of 1/r and of 1/s. 1/0 is 128, if no table has an entry, which counts as 0.

ghost use Rattle.std.specs.Prelude.{◌≡◌};
ghost use Rattle.fw_aes.specs.Aes.{sub_bytes};

use crate::entries::{entries, entries_by_halves};
use std::simd::prelude::*;

/// i, by the halves of a byte.
const I_LOW: [u8; 16] = [0, 9, 1, 8, 1, 8, 0, 9, 4, 13, 5, 12, 5, 12, 4, 13];

const I_HIGH: [u8; 16] = [0, 14, 4, 10, 10, 4, 14, 0, 12, 2, 8, 6, 6, 8, 2, 12];

/// k, by the halves of a byte.
const K_LOW: [u8; 16] = [0, 0, 1, 1, 2, 2, 3, 3, 2, 2, 3, 3, 0, 0, 1, 1];

const K_HIGH: [u8; 16] = [0, 8, 15, 7, 8, 0, 7, 15, 7, 15, 8, 0, 15, 7, 0, 8];

/// 1 over an element of GF(2^4).
const INVERSE: [u8; 16] = [128, 1, 9, 14, 13, 11, 7, 6, 15, 2, 12, 5, 10, 4, 3, 8];

/// a over an element of GF(2^4).
const A_OVER: [u8; 16] = [128, 15, 14, 5, 7, 3, 11, 4, 10, 13, 8, 6, 12, 9, 2, 1];

/// The multiples of 1/r and of 1/s, after the affine transformation without its constant.
const FROM_R: [u8; 16] = [
    0x00, 0xb0, 0x67, 0x8d, 0x46, 0x1c, 0xea, 0x5a, 0x3d, 0x7b, 0xf6, 0x91, 0xac, 0x21, 0xcb, 0xd7,
];

const FROM_S: [u8; 16] = [
    0x00, 0x99, 0xe5, 0x8b, 0x76, 0x81, 0x6e, 0xf7, 0x12, 0x64, 0xef, 0x0a, 0x18, 0x93, 0xfd, 0x7c,
];

/// The constant of the affine transformation.
const AFFINE: u8 = 0x63;

/// SUBBYTES (5.1.1).
#[inline(always)]
pub(crate) fn sub_bytes(block: u8x16) -> u8x16
    ensures { result ≡ sub_bytes block }
{
    let i = entries_by_halves(&I_LOW, &I_HIGH, block);
    let k = entries_by_halves(&K_LOW, &K_HIGH, block);
    let j = i ^ k;
    let over_k = entries(&A_OVER, k);
    let r = entries(&INVERSE, entries(&INVERSE, i) ^ over_k) ^ j;
    let s = entries(&INVERSE, entries(&INVERSE, j) ^ over_k) ^ i;
    entries(&FROM_R, r) ^ entries(&FROM_S, s) ^ u8x16::splat(AFFINE)
}
