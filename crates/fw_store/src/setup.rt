//! What a store can be made with, and its first header.

ghost use Rattle.std.specs.Prelude.{◌≡◌, ◌<◌, ◌^◌, ◌↔◌, IsTrue, length};
ghost use Rattle.fw_names.specs.Name.{factory_name};
ghost use Rattle.fw_store.specs.Header.{fresh_header};
ghost use Rattle.fw_store.specs.Layout.{header_bytes};
ghost use Rattle.fw_store.specs.Setup.{IsSetup};
ghost use Rattle.fw_store.specs.Versions.{bytes_of, header_size, version_of};

use crate::header::Header;
use crate::version::{HeaderBytes, HeaderVersion};
use fw_blocks::{MAX_BLOCK_SIZE, is_image_size};
use fw_names::factory_name;

/// Whether a store with a header of this version can be made with slots of `capacity` bytes, blocks of `block_size`, and this factory image,
/// as `MemoryStore::new` and `MemoryStore::new_old` say.
pub fn is_setup(version: HeaderVersion, capacity: u32, block_size: u32, factory: &[u8]) -> bool
    ensures { IsTrue result ↔ IsSetup version block_size capacity factory.now }
{
    let block_fits = (1..=MAX_BLOCK_SIZE).contains(&block_size);
    let room_fits = is_image_size(capacity) && capacity <= version.capacity_limit();
    block_fits && room_fits && !factory.is_empty() && factory.len() <= capacity as usize
}

/// The bytes of the header of this version of a new store with this factory image.
pub(crate) fn fresh_bytes(version: HeaderVersion, block_size: u32, factory: &[u8]) -> HeaderBytes
    requires { length factory.now < 2 ^ 32 }
    ensures value { bytes_of result
        ≡ header_bytes (fresh_header version block_size (length factory.now) (factory_name factory.now)) }
    ensures version { version_of result ≡ version }
    ensures size { length (bytes_of result) ≡ header_size version }
{
    let name = factory_name(factory);
    Header::fresh(version, block_size, factory.len() as u32, name).to_bytes()
}
