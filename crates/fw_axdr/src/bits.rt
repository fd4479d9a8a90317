//! The bits of a bit-string.

ghost use Rattle.std.specs.Prelude.{
  ◌≡◌,
  ◌≢◌,
  ◌==◌,
  ◌-◌,
  ◌*◌,
  ◌%◌,
  ◌^◌,
  ◌<◌,
  ◌≤◌,
  false,
  length,
  take,
  slice_get,
  slice_index_or,
  slice_set,
};
ghost use Rattle.fw_axdr.specs.Bits.{bits, bytes_for, packed};
ghost use Rattle.fw_axdr.specs.Private.{Keeps};

use std::marker::Model;

/// Bits, eight per byte, the first one the top bit of the first byte, as a bit-string holds them
/// (IEC 62056-5-3, A-XDR). Contracts see the list of them.
///
/// There are as many bytes as the bits need, and the unused bits of the last one are zero.
#[derive(Debug, Drop)]
pub struct Bits {
    bytes: Vec<u8>,
    len: usize,
}

impl Model for Bits {
    ghost use Rattle.std.specs.Prelude.{◌≡◌, Bool, List, length, take};
    ghost use Rattle.fw_axdr.specs.Bits.{bits, bytes_for, packed};

    ghost Value = { List Bool };

    ghost view = { λ b. take b.len (bits b.bytes.items) };

    // The bytes are those of `len` bits, and their unused bits are zero.
    ghost invariant = { λ b. (length (take b.len (bits b.bytes.items)) ≡ b.len)
        × (b.bytes.items ≡ packed (take b.len (bits b.bytes.items))) };
}

impl Bits {
    /// The first `len` bits of the bytes, which must be as many as these need: `len.div_ceil(8)`.
    /// The `Vec` keeps its memory, and its unused bits are cleared.
    pub fn from_vec(mut bytes: Vec<u8>, len: usize) -> Bits
        requires { length bytes.items ≡ bytes_for len }
        ensures { result ≡ take len (bits bytes.items) }
    {
        clear_unused(bytes.as_mut_slice(), len);
        Bits { bytes, len }
    }

    /// The `Vec` of the bytes, the unused bits zero; takes no memory.
    pub fn into_vec(self) -> Vec<u8>
        ensures { result.items ≡ packed self }
    {
        self.bytes
    }

    /// The bytes, the unused bits zero.
    pub fn as_bytes(&self) -> &[u8]
        ensures { result.now ≡ packed self.now }
    {
        self.bytes.as_slice()
    }

    /// The bit at `index`, counted from 0. `None` if there are no more than `index` bits.
    pub fn get(&self, index: usize) -> Option<bool>
        ensures { result ≡ slice_get self.now index }
    {
        if self.len <= index {
            return None;
        }
        Some(bit_at(self.bytes.as_slice(), index))
    }

    /// How many bits there are.
    pub fn len(&self) -> usize
        ensures { result ≡ length self.now }
    {
        self.len
    }

    /// Whether there is no bit.
    pub fn is_empty(&self) -> bool
        ensures { result ≡ (length self.now == 0) }
    {
        self.len == 0
    }
}

/// A bit of bytes.
fn bit_at(bytes: &[u8], index: usize) -> bool
    requires { index < 8 * length bytes.now }
    ensures { result ≡ slice_index_or (bits bytes.now) index false }
{
    (bytes[index / 8] >> (7 - index % 8)) % 2 == 1
}

/// Clears the bits of the last byte that come after the first `len` bits of all.
fn clear_unused(bytes: &mut [u8], len: usize)
    requires { length bytes.old ≡ bytes_for len }
    ensures { Keeps len bytes.old bytes.new }
{
    if len % 8 == 0 {
        return;
    }
    let cut = cut_byte(bytes, len);
    let last = bytes.len() - 1;
    bytes[last] = cut;
}

/// The last byte, with zeros after the first `len` bits of all.
fn cut_byte(bytes: &[u8], len: usize) -> u8
    requires room { length bytes.now ≡ bytes_for len }
    requires some { len % 8 ≢ 0 }
    ensures { Keeps len bytes.now (slice_set bytes.now (length bytes.now - 1) result) }
{
    first_bits(bytes[bytes.len() - 1], len % 8)
}

/// The first `used` bits of a byte, and zeros after them.
fn first_bits(byte: u8, used: usize) -> u8
    requires some { 1 ≤ used }
    requires below { used < 8 }
    ensures { result ≡ byte - byte % 2 ^ (8 - used) }
{
    byte - byte % (1 << (8 - used))
}
