//! Stores in files if something fails or is changed: with each byte of their header turned, cut at each length, and on disks that are full or
//! only read. Each harness counts what it tried, and fails if that isn't what was worked out by hand. So many openings take a compiled program:
//! the gate proves these tests, and runs them as LLVM builds them.
#![tactic(auto)]

#[cfg(test)]
mod disk;
#[cfg(test)]
mod files;
#[cfg(test)]
mod full_disks;
#[cfg(test)]
mod support;
