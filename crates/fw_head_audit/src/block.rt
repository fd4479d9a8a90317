//! Blocks of an image, of whatever size.

ghost use Rattle.std.specs.Prelude.{◌≡◌, ◌<◌, ◌^◌, false, IsTrue, length};
ghost use Rattle.fw_head.specs.Row.{IsBlockOf};
ghost use Rattle.fw_head_audit.specs.Private.{IsCutBy};

use fw_blocks::Geometry;

/// Whether these bytes are the block of this number of an image, under some block size within the limits. Each block has that size except
/// the last, which tells it by what stands before it.
pub(crate) fn is_block_of(image: &[u8], number: u32, value: &[u8]) -> bool
    requires { length image.now < 2 ^ 32 }
    ensures some { IsTrue result → IsBlockOf image.now number value.now }
    ensures none { result ≡ false → IsBlockOf image.now number value.now → ⊥ }
{
    fw_blocks::laws::begins_within();
    fw_blocks::laws::cut_size();
    if image.len() < value.len() {
        return false;
    }
    let size = value.len() as u32;
    if is_cut(image, size, number, value) {
        return true;
    }
    if number == 0 {
        return false;
    }
    let before = image.len() as u32 - size;
    is_cut(image, before / number, number, value)
}

/// Whether these bytes are the block of this number of an image that is cut into blocks of this size.
fn is_cut(image: &[u8], block_size: u32, number: u32, value: &[u8]) -> bool
    requires { length image.now < 2 ^ 32 }
    ensures some { IsTrue result → IsCutBy block_size image.now number value.now }
    ensures none { result ≡ false → IsCutBy block_size image.now number value.now → ⊥ }
{
    let Some(geometry) = Geometry::new(block_size, image.len() as u32) else {
        return false;
    };
    match geometry.cut(image, number) {
        Some(block) => block == value,
        None => false,
    }
}
