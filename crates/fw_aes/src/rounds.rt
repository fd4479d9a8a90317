//! The steps of AES's cipher, on a block in a vector (FIPS 197, 5.1).

ghost use Rattle.std.specs.Prelude.{◌≡◌, map};
ghost use Rattle.fw_aes.specs.Field.{times};
ghost use Rattle.fw_aes.specs.Aes.{add_round_key, mix_columns, shift_rows, sub_bytes};

use crate::sub_bytes::sub_bytes;
use std::simd::prelude::*;

/// x^8 without its top term, modulo the polynomial of GF(2^8) (4.2).
const FEEDBACK: u8 = 0x1b;

/// XTIMES of each byte, the product with x (4.2).
#[inline(always)]
fn x_times(bytes: u8x16) -> u8x16
    ensures { result ≡ map (times 2) bytes }
{
    let has_top = bytes.simd_ge(u8x16::splat(0x80));
    (bytes + bytes) ^ has_top.select(u8x16::splat(FEEDBACK), u8x16::splat(0))
}

/// SHIFTROWS (5.1.2).
#[inline(always)]
fn shift_rows(state: u8x16) -> u8x16
    ensures { result ≡ shift_rows state }
{
    state.swizzle([0, 5, 10, 15, 4, 9, 14, 3, 8, 13, 2, 7, 12, 1, 6, 11])
}

/// MIXCOLUMNS (5.1.3): of a column a, b, c, d the first byte is x (a + b) + b + (c + d).
#[inline(always)]
fn mix_columns(state: u8x16) -> u8x16
    ensures { result ≡ mix_columns state }
{
    let next = state.swizzle([1, 2, 3, 0, 5, 6, 7, 4, 9, 10, 11, 8, 13, 14, 15, 12]);
    let sums = state ^ next;
    let other_sums = sums.swizzle([2, 3, 0, 1, 6, 7, 4, 5, 10, 11, 8, 9, 14, 15, 12, 13]);
    x_times(sums) ^ next ^ other_sums
}

/// ADDROUNDKEY (5.1.4).
#[inline(always)]
pub(crate) fn add_round_key(state: u8x16, key: u8x16) -> u8x16
    ensures { result ≡ add_round_key state key }
{
    state ^ key
}

/// A round with MIXCOLUMNS.
#[inline(always)]
pub(crate) fn round(state: u8x16, key: u8x16) -> u8x16
    ensures { result ≡ add_round_key (mix_columns (shift_rows (sub_bytes state))) key }
{
    add_round_key(mix_columns(shift_rows(sub_bytes(state))), key)
}

/// The last round.
#[inline(always)]
pub(crate) fn last_round(state: u8x16, key: u8x16) -> u8x16
    ensures { result ≡ add_round_key (shift_rows (sub_bytes state)) key }
{
    add_round_key(shift_rows(sub_bytes(state)), key)
}
