//! Lists of meters: comma-separated values (RFC 4180) without a header line. A line has the number of a meter, its address, as
//! `127.0.0.1:4059`, `[::1]:4059` or `meter.example:4059`, and perhaps its wave, 0 to 255. Without one it is of wave 0.

ghost use Rattle.std.specs.Prelude.{
  ◌≡◌,
  ◌↔◌,
  ◌⊎◌,
  ◌++◌,
  ◌∷◌,
  [],
  ℕ,
  IfOk,
  IfSome,
  OnOk,
  IsTrue,
  IsUtf8,
  MatchOption,
  Some,
  length,
  true,
};
ghost use Rattle.csv.specs.Reading.{error_kind, stops_reader};
ghost use Rattle.csv.specs.Records.{field_at, fields_of};
ghost use Rattle.fw_host.specs.declared.wave_list.Planned.{Planned};
ghost use Rattle.fw_rollout.specs.Daemon.{IsList};
ghost use Rattle.fw_host.specs.Lists.{
  CanBeAsked,
  IsAddressOf,
  IsHost,
  IsNoAddress,
  IsNoList,
  NamesHost,
  SpellsList,
  SpellsNumber,
  SpellsPlanned,
};
ghost use Rattle.fw_host.specs.Private.{HasWave};
ghost use Rattle.fw_host.specs.Waves.{listed_in};

use crate::error::ListError;
use crate::wave_list::{Planned, WaveList};
use csv::{ByteRecord, Error, ReaderBuilder};
use fw_names::MeterId;
use fw_rollout::Listed;
use std::alloc::Global;
use std::net::{IpAddr, Net, SocketAddr, ToSocketAddrs};

/// The meters of a list with their waves, each number and each address once, for a head end at `own`. In place of an address may stand the name
/// of a host: its first address that can be asked from there is taken, as the system has it now.
///
/// An address can be asked if it is of the family of `own`, IPv4 or IPv6, is that of one host, and has a port.
///
/// # Errors
///
/// - `BadList`: this line has no meter's number and address, or no wave as its third field, or more fields, or a number or an address that
///   an earlier line has, or an address that can't be asked; or the system has none for the name that can.
/// - `OutOfMemory`.
pub fn read_list<N: Net>(
    net: &N,
    alloc: Global,
    text: &[u8],
    own: SocketAddr,
) -> Result<WaveList, ListError>
    ensures ok { IfOk result (λ list. SpellsList own text.now list) }
    ensures bad_list { (line : ℕ) → result ≡ Err (ListError.BadList line) → IsNoList own text.now }
{
    let mut reader = ReaderBuilder::new()
        .has_headers(false)
        .flexible(true)
        .from_reader(alloc, text);
    let mut record = ByteRecord::new(alloc);
    let mut meters = WaveList::none(alloc);
    for _ in 0..u64::MAX {
        match reader.read_byte_record(&mut record) {
            Ok(true) => take(net, own, text, &mut meters, &record)?,
            Ok(false) => return Ok(meters),
            Err(error) => return Err(stopped(&error)),
        }
    }
    // There is no memory for that number of meters.
    Err(ListError::OutOfMemory)
}

/// Why bytes in memory aren't read further. Only out of memory stops that, since a record may have any number of fields.
fn stopped(_error: &Error) -> ListError
    requires { stops_reader (error_kind _error.now) ≡ true }
    ensures { result ≡ ListError.OutOfMemory }
{
    ListError::OutOfMemory
}

/// Adds the meter of a record of this text.
fn take<N: Net>(
    net: &N,
    own: SocketAddr,
    text: &[u8],
    meters: &mut WaveList,
    fields: &ByteRecord,
) -> Result<(), ListError>
    ensures once { OnOk result (IsList (listed_in meters.new)) }
    ensures taken { OnOk result ((planned : Planned) × SpellsPlanned own (fields_of fields.now) planned
        × (meters.new ≡ meters.old ++ planned ∷ [])) }
    ensures bad_list { (line : ℕ) → result ≡ Err (ListError.BadList line) → NamesHost (fields_of fields.now)
        ⊎ ((planned : Planned) → SpellsPlanned own (fields_of fields.now) planned → ¬ IsList (listed_in (meters.old ++ planned ∷ []))) }

    // Memory is wanted for a meter alone.
    ensures memory { result ≡ Err ListError.OutOfMemory → (planned : Planned) × SpellsPlanned own (fields_of fields.now) planned }
{
    let Some(planned) = planned(net, own, fields) else {
        return Err(ListError::BadList(line_of(text, fields)));
    };
    let is_new = meters.add(planned)?;
    // For its clause alone: each number and each address stands once.
    let _meters = meters.meters();
    if is_new {
        Ok(())
    } else {
        Err(ListError::BadList(line_of(text, fields)))
    }
}

/// The line of this text at which a record begins. The reader says where it stood before: the end of a line, and empty lines, may come first.
pub(crate) fn line_of(text: &[u8], fields: &ByteRecord) -> u64 {
    let Some(position) = fields.position() else {
        return 0;
    };
    let mut line = position.line();
    for byte in text.get(position.byte() as usize..).unwrap_or(&[]) {
        match *byte {
            b'\n' => line = line.saturating_add(1),
            b'\r' => {}
            _ => return line,
        }
    }
    line
}

/// The meter of a record with its wave, if it has the fields of one.
pub(crate) fn planned<N: Net>(net: &N, own: SocketAddr, fields: &ByteRecord) -> Option<Planned>
    ensures { MatchOption result (NamesHost (fields_of fields.now)
        ⊎ ((planned : Planned) → ¬ SpellsPlanned own (fields_of fields.now) planned))
        (λ planned. SpellsPlanned own (fields_of fields.now) planned) }
{
    let Some(wave) = wave_of(fields) else {
        return None;
    };
    let Some(number) = text_at(fields, 0) else {
        return None;
    };
    let Some(address) = text_at(fields, 1) else {
        return None;
    };
    let Some(meter) = meter_of(number) else {
        return None;
    };
    let Some(address) = address_of(net, own, address) else {
        return None;
    };
    Some(Planned {
        at: Listed { meter, address },
        wave,
    })
}

/// The wave of a record: that of its third field, or the first one if it has two fields.
fn wave_of(fields: &ByteRecord) -> Option<u8>
    ensures { MatchOption result ((wave : ℕ) → ¬ HasWave (fields_of fields.now) wave) (λ wave. HasWave (fields_of fields.now) wave) }
{
    match fields.len() {
        2 => Some(0),
        3 => third_wave(fields),
        _ => None,
    }
}

/// The wave of a record of three fields.
fn third_wave(fields: &ByteRecord) -> Option<u8>
    requires { length (fields_of fields.now) ≡ 3 }
    ensures { MatchOption result ((wave : ℕ) → ¬ HasWave (fields_of fields.now) wave) (λ wave. HasWave (fields_of fields.now) wave) }
{
    let Some(text) = text_at(fields, 2) else {
        return None;
    };
    wave_named(text)
}

/// The wave of this number.
pub(crate) fn wave_named(text: &str) -> Option<u8>
    ensures { MatchOption result ((wave : ℕ) → ¬ SpellsNumber 8 text.now wave) (λ wave. SpellsNumber 8 text.now wave) }
{
    match text.parse::<u8>() {
        Ok(wave) => Some(wave),
        Err(_) => None,
    }
}

/// The meter of a number.
pub(crate) fn meter_of(text: &str) -> Option<MeterId>
    ensures { MatchOption result ((number : ℕ) → ¬ SpellsNumber 32 text.now number) (λ meter. SpellsNumber 32 text.now meter) }
{
    match text.parse::<u32>() {
        Ok(number) => MeterId::new(number),
        Err(_) => None,
    }
}

/// The address of a text at which a head end at `own` can ask a meter: the one that it spells, or one of the host that it names.
fn address_of<N: Net>(net: &N, own: SocketAddr, text: &str) -> Option<SocketAddr>
    ensures { MatchOption result (IsNoAddress text.now ⊎ ((address : SocketAddr) → IsAddressOf text.now address → ¬ CanBeAsked own address))
        (λ address. IsAddressOf text.now address × CanBeAsked own address) }
{
    match text.parse::<SocketAddr>() {
        Ok(address) if can_be_asked(own, address) => Some(address),
        Ok(_) => None,
        Err(_) => host_address(net, own, text),
    }
}

/// The first address that the system has for the name of a host with a port, and that a head end at `own` can ask.
fn host_address<N: Net>(net: &N, own: SocketAddr, text: &str) -> Option<SocketAddr>
    ensures { IfSome result (CanBeAsked own) }
{
    for address in text.to_socket_addrs(net).ok()? {
        if can_be_asked(own, address) {
            return Some(address);
        }
    }
    None
}

/// Whether a head end at `own` can ask a meter at this address.
fn can_be_asked(own: SocketAddr, address: SocketAddr) -> bool
    ensures { IsTrue result ↔ CanBeAsked own address }
{
    address.port() != 0 && address.is_ipv4() == own.is_ipv4() && is_host(address.ip())
}

/// Whether an address is that of one host.
pub(crate) fn is_host(ip: IpAddr) -> bool
    ensures { IsTrue result ↔ IsHost ip }
{
    match ip {
        IpAddr::V4(ip) => !(ip.is_unspecified() || ip.is_multicast() || ip.is_broadcast()),
        IpAddr::V6(ip) => !(ip.is_unspecified() || ip.is_multicast()),
    }
}

/// The text of a field.
fn text_at(fields: &ByteRecord, at: usize) -> Option<&str>
    ensures found { IfSome result (λ text. (field_at (fields_of fields.now) at ≡ Some text.now) × IsUtf8 text.now) }
    ensures none { MatchOption result (IfSome (field_at (fields_of fields.now) at) (λ field. ¬ IsUtf8 field)) (λ _. Unit {0}) }
{
    str::from_utf8(fields.get(at)?).ok()
}
