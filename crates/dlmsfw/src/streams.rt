//! The standard streams that the program was started without.

use std::fs::File;
use std::io;
use std::rt::Files;

/// A folder that each system has. It can be neither read nor written as a file is.
const FOLDER: &str = "/";

/// Files in place of the closed ones among the three standard streams, as long as they are kept. A file or a socket gets the lowest
/// descriptor that is free. That would be the one of a closed stream: a store would be read as standard input, or written as standard
/// output.
pub(crate) fn stand_ins<R: Files<File = File>>(rt: &R) -> [io::Result<File>; 3] {
    [
        File::open(rt, FOLDER),
        File::open(rt, FOLDER),
        File::open(rt, FOLDER),
    ]
}
