//! GCM over AES-128, with 12 bytes of IV and 12 bytes of tag, in place (SP 800-38D, 7.1 and 7.2).

ghost use Rattle.std.specs.Prelude.{◌≡◌, ℕ, ◌+◌, ◌-◌, ◌*◌, ◌^◌, ◌<◌, ◌≤◌, ◌↔◌, length, take, IsTrue, IsOk, OnOk, OnErr};
ghost use Rattle.fw_aes.specs.Aes.{add_round_key};
ghost use Rattle.fw_aes.specs.Gcm.{ciphertext_of, counter_block, plaintext_of, tag_of};
ghost use Rattle.fw_aes.specs.Schedule.{IsStream};

use crate::aes128::Aes128;
use crate::error::OpenError;
use crate::ghash::HashKey;
use std::marker::Model;

/// How many bytes a tag has.
pub const TAG_SIZE: usize = 12;

/// The block of the counter that the first bytes of a text are added to: inc_32 of J_0, which is block 1.
const FIRST_BLOCK: u32 = 2;

/// A key, with its key schedule and the multiples of its hash subkey. Clauses see it as its 16 bytes. It has no `Debug`, so that no key is
/// printed, and it isn't wiped if it is let go.
#[derive(Drop)]
pub struct Key {
    cipher: Aes128,
    hash_key: HashKey,
}

impl Model for Key {
    ghost use Rattle.std.specs.Prelude.{◌≡◌, ℕ, List};
    ghost use Rattle.fw_aes.specs.Gcm.{hash_subkey};

    ghost Value = { List ℕ };

    ghost view = { λ k. k.cipher };

    ghost invariant = { λ k. k.hash_key ≡ hash_subkey k.cipher };
}

/// Block `n` of the counter.
fn counter_block(iv: &[u8; 12], n: u32) -> [u8; 16]
    ensures { result ≡ counter_block iv.now n }
{
    let mut block = [0u8; 16];
    block[..12].copy_from_slice(iv);
    block[12..].copy_from_slice(&n.to_be_bytes());
    block
}

/// The key stream's four blocks from block `n` of the counter on.
fn key_stream(cipher: &Aes128, iv: &[u8; 12], n: u32) -> [[u8; 16]; 4]
    ensures { IsStream cipher.now iv.now n result }
{
    cipher.cipher_four(&[
        counter_block(iv, n),
        counter_block(iv, n.wrapping_add(1)),
        counter_block(iv, n.wrapping_add(2)),
        counter_block(iv, n.wrapping_add(3)),
    ])
}

/// Adds the key stream to a text (GCTR, 6.5).
fn add_stream(cipher: &Aes128, iv: &[u8; 12], text: &mut [u8])
    requires { length text.old < 2 ^ 36 - 32 }
    ensures { text.new ≡ ciphertext_of cipher.now iv.now text.old }
{
    let mut stream = [[0u8; 16]; 4];
    for k in 0..text.len() {
        if k % 64 == 0 {
            stream = key_stream(cipher, iv, 4 * (k / 64) as u32 + FIRST_BLOCK);
        }
        text[k] ^= stream[k / 16 % 4][k % 16];
    }
}

/// The first bytes of a block, added to those of another one.
fn tag_bytes(s: &[u8; 16], mask: &[u8; 16]) -> [u8; 12]
    ensures { result ≡ take 12 (add_round_key s.now mask.now) }
{
    [
        s[0] ^ mask[0],
        s[1] ^ mask[1],
        s[2] ^ mask[2],
        s[3] ^ mask[3],
        s[4] ^ mask[4],
        s[5] ^ mask[5],
        s[6] ^ mask[6],
        s[7] ^ mask[7],
        s[8] ^ mask[8],
        s[9] ^ mask[9],
        s[10] ^ mask[10],
        s[11] ^ mask[11],
    ]
}

/// Whether two tags are the same. How long it takes doesn't depend on where they differ.
fn is_same(a: &[u8; 12], b: &[u8; 12]) -> bool
    ensures { IsTrue result ↔ (a.now ≡ b.now) }
{
    let mut difference = 0u8;
    for i in 0..12 {
        difference |= a[i] ^ b[i];
    }
    difference == 0
}

impl Key {
    /// The key of these bytes.
    pub fn new(key: &[u8; 16]) -> Key
        ensures { result ≡ key.now }
    {
        let cipher = Aes128::new(key);
        let hash_key = HashKey::new(u128::from_be_bytes(cipher.cipher(&[0u8; 16])));
        Key { cipher, hash_key }
    }

    /// The tag of a ciphertext with its additional data.
    fn tag(&self, iv: &[u8; 12], aad: &[u8], text: &[u8]) -> [u8; 12]
        requires aad { length aad.now < 2 ^ 60 }
        requires text { length text.now < 2 ^ 60 }
        ensures { result ≡ tag_of self.now iv.now aad.now text.now }
    {
        let y = self.hash_key.hash(self.hash_key.hash(0, aad), text);
        let lengths = ((8 * aad.len() as u128) << 64) + 8 * text.len() as u128;
        let s = self.hash_key.dot(y ^ lengths).to_be_bytes();
        let mask = self.cipher.cipher(&counter_block(iv, 1));
        tag_bytes(&s, &mask)
    }

    /// Enciphers a plaintext in place, and gives the tag of its ciphertext and the additional data (GCM-AE, 7.1). An IV is never to be used
    /// twice under a key (8). It asks that the text has less than 2^36 - 32 bytes, which are the most that GCM takes (5.2.1.1), and the
    /// additional data less than 2^60.
    pub fn seal(&self, iv: &[u8; 12], aad: &[u8], text: &mut [u8]) -> [u8; TAG_SIZE]
        requires aad { length aad.now < 2 ^ 60 }
        requires text { length text.old < 2 ^ 36 - 32 }
        ensures text { text.new ≡ ciphertext_of self.now iv.now text.old }
        ensures tag { result ≡ tag_of self.now iv.now aad.now text.new }
    {
        add_stream(&self.cipher, iv, text);
        self.tag(iv, aad, text)
    }

    /// Deciphers a ciphertext in place, if its tag is right (GCM-AD, 7.2). It asks for what `seal` does.
    ///
    /// # Errors
    ///
    /// `WrongTag`: it isn't. The ciphertext is as it was then.
    pub fn open(
        &self,
        iv: &[u8; 12],
        aad: &[u8],
        text: &mut [u8],
        tag: &[u8; TAG_SIZE],
    ) -> Result<(), OpenError>
        requires aad { length aad.now < 2 ^ 60 }
        requires text { length text.old < 2 ^ 36 - 32 }
        ensures opens { IsOk result ↔ (tag.now ≡ tag_of self.now iv.now aad.now text.old) }
        ensures text { OnOk result (text.new ≡ plaintext_of self.now iv.now text.old) }
        ensures refused { OnErr result (text.new ≡ text.old) }
    {
        if !is_same(&self.tag(iv, aad, text), tag) {
            return Err(OpenError::WrongTag);
        }
        add_stream(&self.cipher, iv, text);
        Ok(())
    }
}
