//! Captures that stay in memory, each file once.

use crate::error::Unaudited;
use crate::files::{AuditFault, bytes_of};
use crate::verdict::Given;
use std::alloc::{AllocError, Global};
use std::fs::File;
use std::rt::Files;

/// Captures, each with the path of its file at its place.
#[derive(Drop)]
pub(crate) struct Captures<'p> {
    captures: Vec<Vec<u8>>,
    paths: Vec<&'p str>,
}

impl<'p> Captures<'p> {
    /// The place of the capture of this file.
    fn place_of(&self, path: &str) -> Option<usize> {
        for at in 0..self.paths.len() {
            if self.paths[at] == path {
                return Some(at);
            }
        }
        None
    }

    /// The bytes of the capture of this file.
    pub(crate) fn at_path(&self, path: &str) -> Option<&[u8]> {
        let at = self.place_of(path)?;
        let capture = self.captures.get(at)?;
        Some(capture.as_slice())
    }

    /// Adds the capture of a file. After an error it is unspecified.
    fn add(&mut self, path: &'p str, capture: Vec<u8>) -> Result<(), AllocError> {
        self.captures.push(capture)?;
        self.paths.push(path)?;
        Ok(())
    }

    /// Reads the capture of a file, if it isn't there. After an error it is unspecified.
    fn read<F: Files<File = File>>(
        &mut self,
        rt: &F,
        alloc: Global,
        path: &'p str,
    ) -> Result<(), AuditFault> {
        match self.place_of(path) {
            Some(_) => Ok(()),
            None => {
                let capture = bytes_of(rt, alloc, path, Unaudited::CaptureFault)?;
                Ok(self.add(path, capture)?)
            }
        }
    }
}

/// The captures of all meters and head ends.
pub(crate) fn captures_in<'p, F: Files<File = File>>(
    rt: &F,
    alloc: Global,
    given: &'p Given<'_, '_>,
) -> Result<Captures<'p>, AuditFault> {
    let mut captures = Captures {
        captures: Vec::new(alloc),
        paths: Vec::new(alloc),
    };
    for at in 0..given.subjects.len() {
        captures.read(rt, alloc, given.subjects[at].capture)?;
    }
    for at in 0..given.options.head_logs.len() {
        captures.read(rt, alloc, given.options.head_logs[at].capture)?;
    }
    Ok(captures)
}
