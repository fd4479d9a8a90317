//! The two versions of a header, and the bytes of either.

ghost use Rattle.std.specs.Prelude.{◌≡◌, ◌+◌, ◌≤◌, false, length, take, drop, replicate};
ghost use Rattle.fw_blocks.specs.Cuts.{max_blocks};
ghost use Rattle.fw_store.specs.Layout.{form};
ghost use Rattle.fw_store.specs.Setup.{capacity_limit};
ghost use Rattle.fw_store.specs.Versions.{block_limit, bytes_of, header_size, version_of};

use fw_blocks::{MAX_BLOCK_SIZE, MAX_BLOCKS, Pages};

/// The number of bytes of a header of version 1.
pub const VERSION_ONE_SIZE: usize = 622;

/// The number of bytes of a header of version 2.
pub const VERSION_TWO_SIZE: usize = 2158;

/// The most bytes that a header has.
pub const MAX_HEADER_SIZE: usize = VERSION_TWO_SIZE;

/// How many blocks version 1 has marks for.
const FIRST_LIMIT: u32 = 4096;

/// The version of a header. A store with one of version 1 is an old one.
#[derive(Clone, Copy, PartialEq, Eq)]
pub enum HeaderVersion {
    /// Version 1, of 622 bytes, which has marks for 4,096 blocks.
    One,
    /// Version 2, of 2,158 bytes, which has marks for 16,384 blocks.
    Two,
}

impl HeaderVersion {
    /// How many blocks it has marks for: the most that an image may have in a store with such a header.
    pub fn block_limit(self) -> u32
        ensures value { result ≡ block_limit self }
        ensures most { result ≤ max_blocks }
    {
        match self {
            HeaderVersion::One => FIRST_LIMIT,
            HeaderVersion::Two => MAX_BLOCKS,
        }
    }

    /// How many bytes its headers have.
    pub fn size(self) -> usize
        ensures value { result ≡ header_size self }
        ensures most { result ≤ MAX_HEADER_SIZE }
    {
        match self {
            HeaderVersion::One => VERSION_ONE_SIZE,
            HeaderVersion::Two => VERSION_TWO_SIZE,
        }
    }

    /// What its headers begin with.
    pub(crate) fn form(self) -> [u8; 4]
        ensures { result ≡ form self }
    {
        match self {
            HeaderVersion::One => *b"FWH1",
            HeaderVersion::Two => *b"FWH2",
        }
    }

    /// No block is marked, of as many as it has marks for.
    pub fn no_marks(self) -> Pages
        ensures { result ≡ replicate (block_limit self) false }
    {
        Pages::none().resized(self.block_limit())
    }

    /// The largest capacity that a new store with such a header has, in bytes a slot.
    pub(crate) fn capacity_limit(self) -> u32
        ensures { result ≡ capacity_limit self }
    {
        self.block_limit() * MAX_BLOCK_SIZE
    }
}

/// The bytes of a store's header, in either version, whether they are a header's or not. It takes no memory.
#[derive(Clone, Copy, PartialEq, Eq)]
pub enum HeaderBytes {
    /// As many as a header of version 1 has.
    One([u8; VERSION_ONE_SIZE]),
    /// As many as one of version 2 has.
    Two([u8; VERSION_TWO_SIZE]),
}

impl HeaderBytes {
    /// As many zeros as a header of this version has bytes.
    pub(crate) fn zeros(version: HeaderVersion) -> HeaderBytes
        ensures value { bytes_of result ≡ replicate (header_size version) 0 }
        ensures version { version_of result ≡ version }
    {
        match version {
            HeaderVersion::One => HeaderBytes::One([0; VERSION_ONE_SIZE]),
            HeaderVersion::Two => HeaderBytes::Two([0; VERSION_TWO_SIZE]),
        }
    }

    /// The bytes.
    pub fn as_slice(&self) -> &[u8]
        ensures value { result.now ≡ bytes_of self.now }
        ensures size { length result.now ≡ header_size (version_of self.now) }
        ensures least { VERSION_ONE_SIZE ≤ length result.now }
        ensures most { length result.now ≤ MAX_HEADER_SIZE }
    {
        match self {
            HeaderBytes::One(bytes) => bytes,
            HeaderBytes::Two(bytes) => bytes,
        }
    }

    /// The version whose headers have this number of bytes.
    pub fn version(&self) -> HeaderVersion
        ensures { result ≡ version_of self.now }
    {
        match self {
            HeaderBytes::One(_) => HeaderVersion::One,
            HeaderBytes::Two(_) => HeaderVersion::Two,
        }
    }

    /// The first 622 bytes: both versions have the same fields there.
    pub(crate) fn front(&self) -> &[u8]
        ensures value { result.now ≡ take VERSION_ONE_SIZE (bytes_of self.now) }
        ensures size { length result.now ≡ VERSION_ONE_SIZE }
        ensures all { length (bytes_of self.now) ≡ header_size (version_of self.now) }
    {
        &self.as_slice()[..VERSION_ONE_SIZE]
    }

    /// The others, of which version 1 has none.
    pub(crate) fn rest(&self) -> &[u8]
        ensures value { result.now ≡ drop VERSION_ONE_SIZE (bytes_of self.now) }
        ensures most { VERSION_ONE_SIZE + length result.now ≤ VERSION_TWO_SIZE }
    {
        &self.as_slice()[VERSION_ONE_SIZE..]
    }
}
