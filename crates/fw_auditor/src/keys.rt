//! The links of meters, by the key files of head ends.

ghost use Rattle.std.specs.Prelude.{◌≡◌, IfOk, MatchOption, false, true};
ghost use Rattle.std.specs.List.{AllZip};
ghost use Rattle.fw_sealport.specs.declared.window.Order.TheVariants.{Strict};
ghost use Rattle.fw_keys.specs.Links.{HasNoEnd};
ghost use Rattle.fw_auditor.specs.Keyed.{AreLinksBy, HasNoLink, IsKeyFileOf, as_it_is, turned};
ghost use Rattle.fw_auditor.specs.Private.{IsLinkBy};

use crate::error::Unaudited;
use crate::files::AuditFault;
use crate::options::KeyOption;
use fw_disk::Because;
use fw_evidence::EndKeys;
use fw_key_files::{KeyFileError, head_keys};
use fw_keys::KeyFile;
use fw_names::MeterId;
use fw_seal::Link;
use fw_sealport::{Links, Order};
use std::alloc::{AllocError, Global};
use std::fs::File;
use std::net::SocketAddr;
use std::rt::Files;

/// A head end whose links are sealed, with its address, as captures have it, and its key file.
#[derive(Drop)]
pub(crate) struct KeyedHead {
    at: SocketAddr,
    file: KeyFile<MeterId>,
}

/// The keys of a meter: of each file that has a link with it, that one.
#[derive(Clone, Copy)]
pub(crate) struct MeterKeys<'k> {
    pub(crate) heads: &'k [KeyedHead],
    pub(crate) meter: MeterId,
    /// The order in which the counters of what came were taken.
    pub(crate) order: Order,
}

impl<'k> EndKeys for MeterKeys<'k> {
    ghost hears = { λ keys links. AreLinksBy turned keys.order keys.heads.now keys.meter links };

    ghost seals = { λ keys links. AreLinksBy as_it_is Strict keys.heads.now keys.meter links };

    fn links(&self, alloc: Global) -> Result<Links, AllocError> {
        links_of_meter(alloc, self.heads, self.meter, self.order)
    }

    fn links_of_others(&self, alloc: Global) -> Result<Links, AllocError> {
        links_of_heads(alloc, self.heads, self.meter)
    }
}

/// The links of a meter with these head ends, as it has them.
fn links_of_meter(
    alloc: Global,
    heads: &[KeyedHead],
    meter: MeterId,
    order: Order,
) -> Result<Links, AllocError>
    ensures { IfOk result (λ links. AreLinksBy turned order heads.now meter links) }
{
    let mut links = Links::new(alloc, order);
    for head in heads {
        if let Some(link) = link_of_meter(alloc, head, meter)? {
            links.add(head.at, link)?;
        }
    }
    Ok(links)
}

/// The same links, as the head ends have them. Their counters are taken in the order in which they are used.
fn links_of_heads(alloc: Global, heads: &[KeyedHead], meter: MeterId) -> Result<Links, AllocError>
    ensures { IfOk result (λ links. AreLinksBy as_it_is Strict heads.now meter links) }
{
    let mut links = Links::new(alloc, Order::Strict);
    for head in heads {
        if let Some(link) = head.file.link_with(&meter) {
            links.add(head.at, link)?;
        }
    }
    Ok(links)
}

/// The link of a meter with a head end, as the meter has it, if the file has one.
fn link_of_meter(
    alloc: Global,
    head: &KeyedHead,
    meter: MeterId,
) -> Result<Option<Link>, AllocError>
    ensures { IfOk result (λ found. MatchOption found (HasNoEnd head.now.file.entries meter) (λ link. IsLinkBy turned head.now.file meter link)) }
{
    match head.file.file_of(alloc, meter, head.at)? {
        Some(file) => match file.link_with(&head.at) {
            Some(link) => Ok(Some(link)),
            // The file has just this link.
            None => unreachable!(),
        },
        None => Ok(None),
    }
}

/// Whether a file has a link with this meter.
pub(crate) fn has_link(heads: &[KeyedHead], meter: MeterId) -> bool
    ensures none { result ≡ false → HasNoLink heads.now meter }
    ensures some { result ≡ true → ¬ HasNoLink heads.now meter }
{
    for head in heads {
        match head.file.link_with(&meter) {
            Some(_) => return true,
            None => {}
        }
    }
    false
}

/// The key files of these head ends.
///
/// # Errors
///
/// `KeysFault`, `KeysReadable` or `BadKeys`, with the file and why it isn't read, and `OutOfMemory`.
pub(crate) fn keyed_heads<F: Files<File = File>>(
    rt: &F,
    alloc: Global,
    options: &[KeyOption<'_>],
) -> Result<Vec<KeyedHead>, AuditFault>
    ensures { IfOk result (λ heads. AllZip IsKeyFileOf options.now heads.items) }
{
    let mut heads = Vec::new(alloc);
    for option in options {
        let head = keyed_head(rt, alloc, option)?;
        match heads.push(head) {
            Ok(()) => {}
            Err(_) => return Err(AuditFault::from(Unaudited::OutOfMemory)),
        }
    }
    Ok(heads)
}

/// The key file of this head end.
fn keyed_head<F: Files<File = File>>(
    rt: &F,
    alloc: Global,
    option: &KeyOption<'_>,
) -> Result<KeyedHead, AuditFault>
    ensures { IfOk result (IsKeyFileOf option.now) }
{
    match head_keys(rt, alloc, option.path, option.head) {
        Ok(file) => Ok(KeyedHead {
            at: option.address,
            file,
        }),
        Err(because) => Err(not_read(alloc, option.path, because)),
    }
}

/// Why a key file isn't read.
fn not_read(alloc: Global, path: &str, because: Because<KeyFileError>) -> AuditFault {
    let Because { error, reason } = because;
    let fault = match error {
        KeyFileError::KeysReadable => Unaudited::KeysReadable,
        KeyFileError::BadKeys(line, why) => Unaudited::BadKeys(line, why),
        KeyFileError::OutOfMemory => return AuditFault::from(Unaudited::OutOfMemory),
        KeyFileError::KeysFault | KeyFileError::NoRandomness => Unaudited::KeysFault,
    };
    AuditFault {
        fault,
        file: String::from_str(alloc, path).ok(),
        reason,
    }
}
