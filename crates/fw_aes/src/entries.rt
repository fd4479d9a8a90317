//! Tables of 16 bytes that lie in a vector: bytes of a block select its lanes, and none is an address.

ghost use Rattle.std.specs.Prelude.{◌≡◌, map};
ghost use Rattle.fw_aes.specs.Entries.{ArePlaces, entry, entry_by_halves};

use std::simd::prelude::*;

/// What a table has at these places, and 0 at those from 128 on.
#[inline(always)]
pub(crate) fn entries(table: &[u8; 16], places: u8x16) -> u8x16
    requires { ArePlaces places }
    ensures { result ≡ map (entry table.now) places }
{
    u8x16::from_array(*table).swizzle_dyn(places)
}

/// What one table has for the low half of each byte, added to what another one has for its high half.
#[inline(always)]
pub(crate) fn entries_by_halves(low: &[u8; 16], high: &[u8; 16], bytes: u8x16) -> u8x16
    ensures { result ≡ map (entry_by_halves low.now high.now) bytes }
{
    entries(low, bytes & u8x16::splat(0x0f)) ^ entries(high, bytes >> u8x16::splat(4))
}
