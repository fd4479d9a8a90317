//! Where the blocks of an image lie.

ghost use Rattle.std.specs.Prelude.{◌≡◌, ℕ, ◌-◌, ◌<◌, ◌≤◌, ◌↔◌, List, [], length, slice_range, IsTrue, SomeIff, IfSome, IfNone};
ghost use Rattle.std.specs.Option.{option_copied};
ghost use Rattle.fw_blocks.specs.Cuts.{IsImageSize, IsWithinLimits, cut, block_count, block_start, block_end, max_block_size, max_blocks};

use std::marker::Model;

/// The most bytes that a block has.
pub const MAX_BLOCK_SIZE: u32 = 1024;

/// The most blocks that an image has.
pub const MAX_BLOCKS: u32 = 16384;

/// The most bytes that an image has: 16 MiB, those of the most blocks of the most bytes.
pub const MAX_IMAGE_SIZE: u32 = MAX_BLOCKS * MAX_BLOCK_SIZE;

/// Whether an image can have so many bytes: 1 to 16,777,216. A slot for images can have them too.
pub fn is_image_size(size: u32) -> bool
    ensures { IsTrue result ↔ IsImageSize size }
{
    (1..=MAX_IMAGE_SIZE).contains(&size)
}

/// The size of an image in bytes and the size of the blocks that it is cut into, both within the
/// limits (IEC 62056-6-2, Image transfer: image_block_size).
#[derive(Clone, Copy)]
pub struct Geometry {
    block_size: u32,
    size: u32,
}

impl Model for Geometry {
    ghost use Rattle.fw_blocks.specs.Cuts.{Partition, IsWithinLimits};

    ghost Value = { Partition };

    ghost view = { λ g. record { block_size = g.block_size; size = g.size } };

    ghost invariant = { λ g. IsWithinLimits g.block_size g.size };

    ghost inverse = { λ p. record { block_size = p.block_size; size = p.size } };
}

impl Geometry {
    /// An image of `size` bytes in blocks of `block_size` bytes. `None` for blocks of 0 or more than
    /// 1,024 bytes, for an image of 0 bytes, and for more than 16,384 blocks.
    pub fn new(block_size: u32, size: u32) -> Option<Geometry>
        ensures value { SomeIff result (IsWithinLimits block_size size) (record { block_size = block_size; size = size }) }
    {
        if block_size == 0 || MAX_BLOCK_SIZE < block_size || size == 0 {
            return None;
        }
        if MAX_BLOCKS < size.div_ceil(block_size) {
            return None;
        }
        Some(Geometry { block_size, size })
    }

    /// The bytes of each block except the last, which may have fewer: 1 to 1,024.
    pub fn block_size(self) -> u32
        ensures value { result ≡ self.block_size }
        ensures limits { IsWithinLimits self.block_size self.size }
    {
        self.block_size
    }

    /// The bytes of the image: 1 to 16,777,216.
    pub fn size(self) -> u32
        ensures value { result ≡ self.size }
        ensures limits { IsWithinLimits self.block_size self.size }
    {
        self.size
    }

    /// How many blocks the image has: 1 to 16,384. They are numbered from 0.
    pub fn count(self) -> u32
        ensures value { result ≡ block_count self.block_size self.size }
        ensures some { 1 ≤ result }
        ensures most { result ≤ max_blocks }
    {
        self.size.div_ceil(self.block_size)
    }

    /// If block `number` begins in the image and where it ends, in bytes: the end is that of its
    /// last byte, plus one. `None` if there is no such block.
    pub fn range(self, number: u32) -> Option<(u32, u32)>
        ensures value { SomeIff result (number < block_count self.block_size self.size)
            (block_start self.block_size number, block_end self.block_size self.size number) }

        // They delimit that block of every image of this size.
        ensures cut { IfSome result (λ range. (image : List ℕ) → length image ≡ self.size →
            slice_range image range.0 range.1 ≡ cut self.block_size image number) }

        // The block has a byte at least, and lies within the image.
        ensures some { IfSome result (λ range. range.0 < range.1) }
        ensures within { IfSome result (λ range. range.1 ≤ self.size) }
        ensures short { IfSome result (λ range. range.1 - range.0 ≤ self.block_size) }
    {
        if self.count() <= number {
            return None;
        }
        let start = number * self.block_size;
        let end = self.size.min(start + self.block_size);
        Some((start, end))
    }

    /// The bytes of block `number` of an image that is cut into blocks of this size. `None` if it has no
    /// such block.
    pub fn cut(self, image: &[u8], number: u32) -> Option<&[u8]>
        ensures value { SomeIff (option_copied result) (number < block_count self.block_size (length image.now))
            (cut self.block_size image.now number) }
        ensures none { IfNone result (cut self.block_size image.now number ≡ []) }
        ensures short { IfSome result (λ block. length block.now ≤ max_block_size) }
    {
        let block_size = self.block_size as usize;
        let start = number as usize * block_size;
        if image.len() <= start {
            return None;
        }
        let end = image.len().min(start + block_size);
        Some(&image[start..end])
    }
}
