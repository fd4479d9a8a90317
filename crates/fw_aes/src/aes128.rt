//! AES-128 under one key (FIPS 197).

use crate::key_expansion::next_key;
use crate::rounds::{add_round_key, last_round, round};
use std::marker::Model;
use std::simd::prelude::*;

/// The first bytes of Rcon (FIPS 197, 5.2).
const ROUND_CONSTANTS: [u8; 10] = [0x01, 0x02, 0x04, 0x08, 0x10, 0x20, 0x40, 0x80, 0x1b, 0x36];

/// The key schedule of AES-128. Clauses see it as the key's 16 bytes. It has no `Debug`, so that no key is printed.
#[derive(Drop)]
pub struct Aes128 {
    keys: [[u8; 16]; 11],
}

impl Model for Aes128 {
    ghost use Rattle.std.specs.Prelude.{ℕ, List, [], slice_index_or};
    ghost use Rattle.fw_aes.specs.Schedule.{IsExpanded};

    ghost Value = { List ℕ };

    ghost view = { λ a. slice_index_or a.keys 0 [] };

    ghost invariant = { λ a. IsExpanded a.keys };
}

impl Aes128 {
    ghost use Rattle.std.specs.Prelude.{◌≡◌};
    ghost use Rattle.fw_aes.specs.Aes.{cipher};
    ghost use Rattle.fw_aes.specs.Schedule.{AreCiphers};

    /// The schedule of a key (FIPS 197, 5.2).
    pub fn new(key: &[u8; 16]) -> Aes128
        ensures { result ≡ key.now }
    {
        let mut keys = [[0u8; 16]; 11];
        keys[0] = *key;
        for n in 0..10 {
            keys[n + 1] = next_key(&keys[n], ROUND_CONSTANTS[n]);
        }
        Aes128 { keys }
    }

    /// CIPHER of a block (FIPS 197, 5.1).
    pub fn cipher(&self, block: &[u8; 16]) -> [u8; 16]
        ensures { result ≡ cipher self.now block.now }
    {
        let mut s = add_round_key(u8x16::from_array(*block), u8x16::from_array(self.keys[0]));
        for n in 0..9 {
            s = round(s, u8x16::from_array(self.keys[n + 1]));
        }
        last_round(s, u8x16::from_array(self.keys[10])).to_array()
    }

    /// CIPHER of each of four blocks.
    pub(crate) fn cipher_four(&self, blocks: &[[u8; 16]; 4]) -> [[u8; 16]; 4]
        ensures { AreCiphers self.now blocks.now result }
    {
        let first = u8x16::from_array(self.keys[0]);
        let mut a = add_round_key(u8x16::from_array(blocks[0]), first);
        let mut b = add_round_key(u8x16::from_array(blocks[1]), first);
        let mut c = add_round_key(u8x16::from_array(blocks[2]), first);
        let mut d = add_round_key(u8x16::from_array(blocks[3]), first);
        for n in 0..9 {
            let key = u8x16::from_array(self.keys[n + 1]);
            a = round(a, key);
            b = round(b, key);
            c = round(c, key);
            d = round(d, key);
        }
        let last = u8x16::from_array(self.keys[10]);
        [
            last_round(a, last).to_array(),
            last_round(b, last).to_array(),
            last_round(c, last).to_array(),
            last_round(d, last).to_array(),
        ]
    }
}
