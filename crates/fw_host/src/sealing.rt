//! The links of a daemon whose datagrams are sealed, from its key file.

ghost use Rattle.std.specs.Prelude.{◌≡◌, ℕ, List, IfErr, IfOk};
ghost use Rattle.fw_key_files.specs.Refusals.{IsOfReading};
ghost use Rattle.fw_keys.specs.declared.error.BadLine.{BadLine as Why};
ghost use Rattle.fw_keys.specs.Refusals.{NoHeadKeys, NoMeterKeys};
ghost use Rattle.fw_host.specs.Errors.{key_file_error};
ghost use Rattle.fw_host.specs.Sealings.{
  AreLinksOf,
  HasHeadLinks,
  HasMeterLinks,
  IsFirstWithout,
  IsListedAt,
  IsNamed,
  LacksKey,
  Shows,
};

use crate::error::{HeadKeysError, MeterKeysError};
use fw_counter::KeptCounters;
use fw_disk::Because;
use fw_journal::FileDevice;
use fw_key_files::{KeyFileError, head_keys, meter_keys};
use fw_keys::KeyFile;
use fw_names::{HeadId, MeterId};
use fw_rollout::Listed;
use fw_sealport::{Links, Order};
use std::alloc::{AllocError, Global};
use std::fs::File;
use std::net::{IpAddr, SocketAddr};
use std::rt::Files;

/// How the datagrams of a daemon are sealed.
#[derive(Clone, Copy)]
pub struct SealingOptions<'a> {
    /// The path of its key file, beside which that of its counter is.
    pub keys: &'a str,
    /// Whether the file of its counter is to be made. Otherwise it is there.
    pub makes_counter: bool,
    /// The order in which the counters of what comes are taken.
    pub order: Order,
}

/// What a daemon opens and seals with.
#[derive(Drop)]
pub struct Sealing {
    /// Its links.
    pub links: Links,
    /// The counters that it seals with.
    pub counters: KeptCounters<FileDevice>,
}

/// The links of the head end of this number with the meters of a list, each at its address, as its key file has them. No other meter of the
/// file has a link.
///
/// # Errors
///
/// - `KeysFault`, with its cause if that is known: the file can't be opened or read, is a link or no regular file, has another name as well,
///   or has more than 64 MiB.
/// - `KeysReadable`: others than its owner may read or write it.
/// - `BadKeys`: the first line with which it is no key file of this head end, and what is wrong with it.
/// - `NoKey`: the first meter of the list that the file has no link with.
/// - `OutOfMemory`.
pub fn head_links<F: Files<File = File>>(
    rt: &F,
    alloc: Global,
    options: &SealingOptions<'_>,
    head: HeadId,
    list: &[Listed],
) -> Result<Links, Because<HeadKeysError>>
    ensures links { IfOk result (HasHeadLinks options.now.order head list.now) }
    ensures no_key { IfErr result (λ b. (meter : ℕ) → b.error ≡ HeadKeysError.NoKey meter → LacksKey head list.now meter) }
    ensures bad { IfErr result (λ b. (line : ℕ) (why : Why) → b.error ≡ HeadKeysError.BadKeys line why
        → (text : List ℕ) × NoHeadKeys text head line why) }
{
    let file = match head_keys(rt, alloc, options.keys, head) {
        Ok(file) => file,
        Err(because) => return Err(not_read_by_head(because)),
    };
    match links_with_meters(alloc, &file, options.order, list) {
        Ok(links) => Ok(links),
        Err(error) => Err(Because::from(error)),
    }
}

/// The links of a meter that listens at `own` with all head ends of its key file, each at the address that it shows there: that is its name in
/// the file, or at a socket of IPv6 the IPv4-mapped address of that.
///
/// # Errors
///
/// As of [`head_links`], but for `NoKey`.
pub fn meter_links<F: Files<File = File>>(
    rt: &F,
    alloc: Global,
    options: &SealingOptions<'_>,
    own: SocketAddr,
) -> Result<Links, Because<MeterKeysError>>
    ensures links { IfOk result (HasMeterLinks own options.now.order) }
    ensures bad { IfErr result (λ b. (line : ℕ) (why : Why) → b.error ≡ MeterKeysError.BadKeys line why
        → (text : List ℕ) × NoMeterKeys text line why) }
{
    let file = match meter_keys(rt, alloc, options.keys) {
        Ok(file) => file,
        Err(because) => return Err(not_read(because)),
    };
    match links_with_heads(alloc, own, &file, options.order) {
        Ok(links) => Ok(links),
        Err(_) => Err(Because::from(MeterKeysError::OutOfMemory)),
    }
}

/// The links of a key file with the meters of a list.
fn links_with_meters(
    alloc: Global,
    file: &KeyFile<MeterId>,
    order: Order,
    list: &[Listed],
) -> Result<Links, HeadKeysError>
    ensures links { IfOk result (AreLinksOf order file.now (IsListedAt list.now)) }
    ensures no_key { IfErr result (λ e. (meter : ℕ) → e ≡ HeadKeysError.NoKey meter → IsFirstWithout file.now list.now meter) }
    ensures no_line { IfErr result (λ e. (line : ℕ) (why : Why) → ¬ (e ≡ HeadKeysError.BadKeys line why)) }
{
    let mut links = Links::new(alloc, order);
    for at in list {
        let Some(link) = file.link_with(&at.meter) else {
            return Err(HeadKeysError::NoKey(at.meter.number()));
        };
        links.add(at.address, link)?;
    }
    Ok(links)
}

/// The links of a key file with all head ends that it has, for a meter that listens at `own`.
fn links_with_heads(
    alloc: Global,
    own: SocketAddr,
    file: &KeyFile<SocketAddr>,
    order: Order,
) -> Result<Links, AllocError>
    ensures { IfOk result (AreLinksOf order file.now (IsNamed own file.now.entries)) }
{
    let mut links = Links::new(alloc, order);
    for entry in file.entries() {
        let head = *entry.end();
        match file.link_with(&head) {
            Some(link) => links.add(shown_to(own, head), link)?,
            // The entry is one of the file's.
            None => unreachable!(),
        }
    }
    Ok(links)
}

/// The address that what comes from this end shows to a socket at `own`. To one of IPv6 an IPv4 end shows its IPv4-mapped address (RFC 4291,
/// 2.5.5.2).
fn shown_to(own: SocketAddr, end: SocketAddr) -> SocketAddr
    ensures { Shows own end result }
{
    match (own, end) {
        (SocketAddr::V6(_), SocketAddr::V4(v4)) => {
            SocketAddr::new(IpAddr::V6(v4.ip().to_ipv6_mapped()), v4.port())
        }
        (SocketAddr::V4(_), _) | (_, SocketAddr::V6(_)) => end,
    }
}

/// What the refusal of a key file is to a meter, with its reason.
fn not_read(because: Because<KeyFileError>) -> Because<MeterKeysError>
    requires { IsOfReading because.error }
    ensures error { because.error ≡ key_file_error result.error }
    ensures reason { result.reason ≡ because.reason }
{
    let error = match because.error {
        KeyFileError::KeysFault => MeterKeysError::KeysFault,
        KeyFileError::KeysReadable => MeterKeysError::KeysReadable,
        KeyFileError::BadKeys(line, why) => MeterKeysError::BadKeys(line, why),
        KeyFileError::OutOfMemory => MeterKeysError::OutOfMemory,
        // No key is made.
        KeyFileError::NoRandomness => unreachable!(),
    };
    Because {
        error,
        reason: because.reason,
    }
}

/// And to a head end.
fn not_read_by_head(because: Because<KeyFileError>) -> Because<HeadKeysError>
    requires { IsOfReading because.error }
    ensures fault { result.error ≡ HeadKeysError.KeysFault → because.error ≡ KeyFileError.KeysFault }
    ensures readable { result.error ≡ HeadKeysError.KeysReadable → because.error ≡ KeyFileError.KeysReadable }
    ensures memory { result.error ≡ HeadKeysError.OutOfMemory → because.error ≡ KeyFileError.OutOfMemory }
    ensures bad { (line : ℕ) (why : Why) → result.error ≡ HeadKeysError.BadKeys line why → because.error ≡ KeyFileError.BadKeys line why }
    ensures no_key { (meter : ℕ) → ¬ (result.error ≡ HeadKeysError.NoKey meter) }
    ensures reason { result.reason ≡ because.reason }
{
    let error = match because.error {
        KeyFileError::KeysFault => HeadKeysError::KeysFault,
        KeyFileError::KeysReadable => HeadKeysError::KeysReadable,
        KeyFileError::BadKeys(line, why) => HeadKeysError::BadKeys(line, why),
        KeyFileError::OutOfMemory => HeadKeysError::OutOfMemory,
        KeyFileError::NoRandomness => unreachable!(),
    };
    Because {
        error,
        reason: because.reason,
    }
}
