//! GHASH under one hash subkey (SP 800-38D, 6.3 and 6.4).
//!
//! Row t of a table has byte t of each multiple of the subkey by half a byte. So the bytes of a block select 16 bytes of a row at once, and
//! the product is the sum of what the rows give, each shifted by a byte more than the one before.

ghost use Rattle.std.specs.Prelude.{◌≡◌, ℕ, ◌+◌, ◌*◌, ◌^◌, ◌<◌, ◌≤◌, length, fold, slice_index};
ghost use Rattle.std.specs.Int.{bit_at, byte_at};
ghost use Rattle.fw_aes.specs.Gcm.{block_of, blocks_of, dot, hash_step, next_v, v_after};
ghost use Rattle.fw_aes.specs.Multiples.{AreRows, first_four, sum_of};

use crate::entries::entries_by_halves;
use std::marker::Model;
use std::simd::prelude::*;

/// R (6.3).
const FEEDBACK: u128 = 0xe100_0000_0000_0000_0000_0000_0000_0000;

/// A hash subkey, with the multiples of it by the low and by the high halves of bytes. Clauses see it as the block that it is.
#[derive(Drop)]
pub(crate) struct HashKey {
    subkey: u128,
    low: [[u8; 16]; 16],
    high: [[u8; 16]; 16],
}

impl Model for HashKey {
    ghost use Rattle.std.specs.Prelude.{ℕ};
    ghost use Rattle.fw_aes.specs.Multiples.{AreMultiples};

    ghost Value = { ℕ };

    ghost view = { λ k. k.subkey };

    ghost invariant = { λ k. AreMultiples k.subkey k.low k.high };
}

/// V_(i + 1), from V_i (6.3).
#[inline(always)]
fn next_v(v: u128) -> u128
    ensures { result ≡ next_v v }
{
    (v >> 1) ^ (FEEDBACK & (v & 1).wrapping_neg())
}

/// V_0 to V_3 of a block.
fn first_four(v: u128) -> [u128; 4]
    ensures { result ≡ first_four v }
{
    let v1 = next_v(v);
    let v2 = next_v(v1);
    [v, v1, v2, next_v(v2)]
}

/// V_8 of a block.
#[inline(always)]
fn eighth_v(v: u128) -> u128
    ensures { result ≡ v_after v 8 }
{
    let low = v & 0xff;
    (v >> 8) ^ ((low << 120) ^ (low << 119) ^ (low << 118) ^ (low << 113))
}

/// The block, if bit `i` of `n` is set, and otherwise 0.
fn if_bit(n: usize, i: u32, v: u128) -> u128
    requires { i < 4 }
    ensures { result ≡ bit_at n i * v }
{
    if (n >> i) & 1 == 1 { v } else { 0 }
}

/// The sum of those of four blocks that the bits of `n` choose.
fn sum_of(vs: &[u128; 4], n: usize) -> u128
    ensures { result ≡ sum_of vs.now n }
{
    if_bit(n, 3, vs[0]) ^ if_bit(n, 2, vs[1]) ^ if_bit(n, 1, vs[2]) ^ if_bit(n, 0, vs[3])
}

/// Byte `t` of each sum of four blocks.
fn row(vs: &[u128; 4], t: usize) -> [u8; 16]
    requires { t < 16 }
    ensures { (n : ℕ) → n < 16 → slice_index result n ≡ byte_at t (sum_of vs.now n) }
{
    let mut row = [0u8; 16];
    for n in 0..16 {
        row[n] = sum_of(vs, n).to_le_bytes()[t];
    }
    row
}

/// All bytes of each sum of four blocks.
fn rows(vs: &[u128; 4]) -> [[u8; 16]; 16]
    ensures { AreRows vs.now result }
{
    let mut rows = [[0u8; 16]; 16];
    for t in 0..16 {
        rows[t] = row(vs, t);
    }
    rows
}

/// A block of these bytes, and zeros after them.
fn block_of(bytes: &[u8]) -> [u8; 16]
    requires { length bytes.now ≤ 16 }
    ensures { result ≡ block_of bytes.now }
{
    let mut block = [0u8; 16];
    block[..bytes.len()].copy_from_slice(bytes);
    block
}

impl HashKey {
    /// The tables of a hash subkey.
    pub(crate) fn new(subkey: u128) -> HashKey
        ensures { result ≡ subkey }
    {
        let high = first_four(subkey);
        let low = first_four(next_v(high[3]));
        HashKey {
            subkey,
            low: rows(&low),
            high: rows(&high),
        }
    }

    /// The product with the hash subkey (6.3).
    pub(crate) fn dot(&self, x: u128) -> u128
        ensures { result ≡ dot x self.now }
    {
        let bytes = u8x16::from_array(x.to_le_bytes());
        let mut z = 0u128;
        for t in 0..16 {
            let row = entries_by_halves(&self.low[t], &self.high[t], bytes);
            z = eighth_v(z) ^ u128::from_le_bytes(row.to_array());
        }
        z
    }

    /// GHASH `y` with the blocks of a string taken in (6.4).
    pub(crate) fn hash(&self, y: u128, bytes: &[u8]) -> u128
        requires { length bytes.now < 2 ^ 60 }
        ensures { result ≡ fold (hash_step self.now) y (blocks_of bytes.now) }
    {
        let mut y = y;
        for i in 0..(bytes.len() + 15) / 16 {
            let start = 16 * i;
            let end = (start + 16).min(bytes.len());
            let block = block_of(&bytes[start..end]);
            y = self.dot(y ^ u128::from_be_bytes(block));
        }
        y
    }
}
