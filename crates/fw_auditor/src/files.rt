//! The files of an audit, read alone.

ghost use Rattle.std.specs.Prelude.{◌≡◌, None};
ghost use Rattle.fw_auditor.specs.declared.error.Unaudited.TheVariants.{OutOfMemory};

use crate::error::Unaudited;
use crate::list::Subject;
use fw_disk::{Cause, Name, Reason};
use std::alloc::{AllocError, Global};
use std::fs::File;
use std::io;
use std::io::{ErrorKind, Read};
use std::rt::Files;

/// Why the command ended early.
#[derive(Drop)]
pub struct AuditFault {
    /// The fault.
    pub fault: Unaudited,
    /// The path of the file that can't be read, if that is the fault.
    pub file: Option<String>,
    /// Why, if that is known.
    pub reason: Option<Reason>,
}

impl From<Unaudited> for AuditFault {
    ghost from_gives = { λ fault made. made ≡ record { fault = fault; file = None; reason = None } };

    fn from(fault: Unaudited) -> AuditFault {
        AuditFault {
            fault,
            file: None,
            reason: None,
        }
    }
}

impl From<AllocError> for AuditFault {
    ghost from_gives = { λ _ made. made ≡ record { fault = OutOfMemory; file = None; reason = None } };

    fn from(_error: AllocError) -> AuditFault {
        AuditFault::from(Unaudited::OutOfMemory)
    }
}

/// The bytes of a store, and those of the undo file beside it, if one is there.
#[derive(Drop)]
pub(crate) struct StoreFiles {
    pub(crate) store: Vec<u8>,
    pub(crate) journal: Option<Vec<u8>>,
}

/// The stores that are found of a meter.
#[derive(Drop)]
pub(crate) struct FoundStores {
    pub(crate) last: StoreFiles,
    /// The store that it began from, if it didn't begin new.
    pub(crate) began: Option<StoreFiles>,
}

/// What the stores of a meter hold.
///
/// # Errors
///
/// `StoreFault`, with the file and why it can't be read, and `OutOfMemory`.
pub(crate) fn found_stores<F: Files<File = File>>(
    rt: &F,
    alloc: Global,
    subject: &Subject<'_>,
) -> Result<FoundStores, AuditFault> {
    let last = store_files(rt, alloc, subject.store)?;
    let began = match subject.began {
        Some(path) => Some(store_files(rt, alloc, path)?),
        None => None,
    };
    Ok(FoundStores { last, began })
}

/// The bytes of the store at this path, and those beside it.
fn store_files<F: Files<File = File>>(
    rt: &F,
    alloc: Global,
    path: &str,
) -> Result<StoreFiles, AuditFault> {
    let store = bytes_of(rt, alloc, path, Unaudited::StoreFault)?;
    let beside = journal_path(alloc, path)?;
    let journal = match read_file(rt, alloc, beside.as_str()) {
        Ok(bytes) => Some(bytes),
        Err(error) => {
            if error.kind() != ErrorKind::NotFound {
                return Err(unread(alloc, beside.as_str(), Unaudited::StoreFault, error));
            }
            None
        }
    };
    Ok(StoreFiles { store, journal })
}

/// The path of the undo file beside a store.
pub(crate) fn journal_path(alloc: Global, path: &str) -> Result<String, AllocError> {
    format!(in alloc; "{path}.journal")
}

/// All bytes of a file. If it can't be read, that is this fault.
pub(crate) fn bytes_of<F: Files<File = File>>(
    rt: &F,
    alloc: Global,
    path: &str,
    fault: Unaudited,
) -> Result<Vec<u8>, AuditFault> {
    match read_file(rt, alloc, path) {
        Ok(bytes) => Ok(bytes),
        Err(error) => Err(unread(alloc, path, fault, error)),
    }
}

/// All bytes of a file.
fn read_file<F: Files<File = File>>(rt: &F, alloc: Global, path: &str) -> io::Result<Vec<u8>> {
    let mut file = File::open(rt, path)?;
    let mut bytes = Vec::new(alloc);
    file.read_to_end(&mut bytes)?;
    Ok(bytes)
}

/// Why a file can't be read.
fn unread(alloc: Global, path: &str, fault: Unaudited, error: io::Error) -> AuditFault {
    if error.kind() == ErrorKind::OutOfMemory {
        return AuditFault::from(Unaudited::OutOfMemory);
    }
    AuditFault {
        fault,
        file: String::from_str(alloc, path).ok(),
        reason: Some(Cause::from(error).at(Name::Main)),
    }
}
