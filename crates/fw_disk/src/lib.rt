//! A file of ours: under its lock, with its own name alone, made beside and renamed, so that a power cut leaves it whole or not at all.
//!
//! What a program asks of the folder of a file is the trait [`Folder`], with the operating system behind it, or memory (`fw_ramdisk`). What
//! is made of its calls are [`begin`], [`fill`], [`finish`], [`replace`], [`open`] and [`abandon`]. All other crates that have files stand
//! on these. A file that isn't ours is never changed.
#![tactic(auto)]

mod cause;
mod filling;
mod folder;
mod kind;
mod making;
mod name;
mod opening;
mod place;
mod reason;
mod replacing;
mod system;

pub use cause::{Cause, NamingError, TOO_MANY_OPEN};
pub use filling::{fill, reserve};
pub use folder::Folder;
pub use kind::{FRONT_SIZE, Kind};
pub use making::{abandon, begin};
pub use name::{Found, Name};
pub use opening::{open, open_companion};
pub use place::Place;
pub use reason::{Because, Reason};
pub use replacing::{finish, replace};
pub use system::SystemFolder;
