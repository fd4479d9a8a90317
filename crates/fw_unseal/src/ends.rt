//! The links of a key file, as both of their ends have them.

ghost use Rattle.std.specs.Prelude.{◌≡◌, Contains, IfOk};
ghost use Rattle.fw_keys.specs.Links.{AreLinks, ends_of};
ghost use Rattle.fw_unseal.specs.Unsealing.{both_ends, turned};

use fw_keys::{Entry, KeyFile};
use fw_names::MeterId;
use fw_seal::Link;
use std::alloc::{AllocError, Global};
use std::net::{Ipv4Addr, SocketAddr};

/// The links of a head end's file, each twice: as the head end has it, and then as the meter has it. So whichever of the two sealed something,
/// one of them opens it.
///
/// # Errors
///
/// Out of memory.
pub fn both_ends(alloc: Global, file: &KeyFile<MeterId>) -> Result<Vec<Link>, AllocError>
    ensures { IfOk result (λ links. links.items ≡ both_ends file.now.own file.now.entries) }
{
    let mut links = Vec::new(alloc);
    let entries = file.entries();
    for entry in entries {
        links.push(link_of_head(file, entry))?;
        links.push(link_of_meter(alloc, file, entry)?)?;
    }
    Ok(links)
}

/// A link of the file, as the head end has it.
fn link_of_head(file: &KeyFile<MeterId>, entry: &Entry<MeterId>) -> Link
    requires links { AreLinks file.now.own file.now.entries }
    requires within { Contains file.now.entries entry.now }
    ensures { result ≡ ends_of file.now.own entry.now.keys }
{
    match file.link_with(entry.end()) {
        Some(link) => link,
        None => unreachable!(),
    }
}

/// The same, as the meter has it.
fn link_of_meter(
    alloc: Global,
    file: &KeyFile<MeterId>,
    entry: &Entry<MeterId>,
) -> Result<Link, AllocError>
    requires links { AreLinks file.now.own file.now.entries }
    requires within { Contains file.now.entries entry.now }
    ensures { IfOk result (λ link. link ≡ turned (ends_of file.now.own entry.now.keys)) }
{
    // The name that the head end has in the meter's file. It is no part of a link.
    let name = SocketAddr::from((Ipv4Addr::LOCALHOST, 0));
    match file.file_of(alloc, *entry.end(), name)? {
        Some(other) => match other.link_with(&name) {
            Some(link) => Ok(link),
            None => unreachable!(),
        },
        None => unreachable!(),
    }
}
