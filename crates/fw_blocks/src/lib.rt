//! Blocks of an image under COSEM Image transfer (IEC 62056-6-2): where they lie, which of them are there, and which come next.
//!
//! An image is cut into blocks of one size, numbered from 0, of which only the last may be shorter
//! (specs/Cuts.antt). Sets of their numbers are those of specs/Members.antt.
//!
//! Own limits of this profile: a block has 1 to 1,024 bytes, an image 1 to 16,384 blocks, so at most
//! 16 MiB, and a window 1 to 15 numbers.
#![tactic(auto)]

mod block_set;
mod geometry;
pub mod laws;
mod pages;
mod runs;
mod window;

pub use block_set::BlockSet;
pub use geometry::{Geometry, MAX_BLOCK_SIZE, MAX_BLOCKS, MAX_IMAGE_SIZE, is_image_size};
pub use pages::{MARKS_SIZE, Pages};
pub use runs::Run;
pub use window::{MAX_WIDTH, Width, Window};
