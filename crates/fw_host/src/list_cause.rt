//! Why a line is none of a list of meters, as who wrote the list can mend it.

ghost use Rattle.std.specs.Prelude.{◌≡◌, ◌++◌, ◌∷◌, [], ℕ, IfErr, IfSome, OnOk};
ghost use Rattle.csv.specs.Records.{fields_of};
ghost use Rattle.fw_rollout.specs.Daemon.{IsList};
ghost use Rattle.fw_host.specs.declared.wave_list.Planned.{Planned as ThePlanned};
ghost use Rattle.fw_host.specs.ListCauses.{
  CantBeAsked,
  Explains,
  HasAddress,
  HasCause,
  HasField,
  HasNumber,
  RefusesAddress,
  RefusesCount,
  RefusesFields,
  RefusesNumber,
  RefusesWave,
  SpellsNone,
  StandsIn,
};
ghost use Rattle.fw_host.specs.Lists.{IsNoAddress, SpellsNumber, SpellsPlanned};
ghost use Rattle.fw_host.specs.Waves.{listed_in};

use crate::meter_list::{is_host, line_of, meter_of, planned, wave_named};
use crate::wave_list::WaveList;
use csv::{ByteRecord, ReaderBuilder};
use fw_names::MeterId;
use fw_rollout::Listed;
use std::alloc::Global;
use std::fmt;
use std::net::{Net, SocketAddr};

/// Why a line is none of a list. It prints what its reader is told.
#[derive(Clone, Copy)]
pub enum ListCause {
    /// It has one field.
    OneField,
    /// It has more than three.
    MoreFields,
    /// A field isn't UTF-8 text.
    NoText,
    /// The first field is no number of a meter.
    NoNumber,
    /// The first field is a number, and none of a meter.
    NumberTooLarge,
    /// The line of this number, which stands before, has the meter.
    NumberTwice(u64),
    /// The second field is neither an address with a port nor the name of a host with one.
    NoAddress,
    /// The system has no address for the name of the host, or none that can be asked.
    UnknownHost,
    /// The port is 0.
    NoPort,
    /// The address is IPv4, and the head end asks from one of IPv6, or the other way round.
    OtherFamily,
    /// The address isn't that of one host.
    NoHost,
    /// The line of this number, which stands before, has the address.
    AddressTwice(u64),
    /// The third field is no wave.
    NoWave,
}

impl fmt::Display for ListCause {
    fn fmt<W: fmt::Write>(&self, f: &mut fmt::Formatter<W>) -> fmt::Result {
        f.write_str(match self {
            ListCause::OneField => "the line has one field, and lacks the address of the meter",
            ListCause::MoreFields => "the line has more than three fields",
            ListCause::NoText => "a field of the line isn't UTF-8",
            ListCause::NoNumber => "the first field is no number from 0 to 4294967295",
            ListCause::NumberTooLarge => "the number of the meter is above 4294967295",
            ListCause::NumberTwice(line) => {
                return write!(f, "line {line} has the same meter");
            }
            ListCause::NoAddress => {
                "the second field is no address with a port, as 10.0.0.7:4059, [fd00::7]:4059 or meter.example:4059"
            }
            ListCause::UnknownHost => {
                "the system has no address for the name in the second field that --listen can ask"
            }
            ListCause::NoPort => "the port is 0, which can't be asked",
            ListCause::OtherFamily => {
                "the address is of another family than that of --listen: both are IPv4, or both IPv6"
            }
            ListCause::NoHost => {
                "the address can't be asked, since it is unspecified, multicast or broadcast"
            }
            ListCause::AddressTwice(line) => {
                return write!(f, "line {line} has the same address");
            }
            ListCause::NoWave => "the third field is no wave, a number from 0 to 255",
        })
    }
}

/// Why this line of a text, the first that is none of a list for a head end at `own`, is none.
///
/// It isn't known if memory runs out, or the system has other addresses for names than it had when this line was found.
pub fn line_cause<N: Net>(
    net: &N,
    alloc: Global,
    text: &[u8],
    own: SocketAddr,
    line: u64,
) -> Option<ListCause>
    ensures { IfSome result (HasCause own text.now) }
{
    let mut reader = ReaderBuilder::new()
        .has_headers(false)
        .flexible(true)
        .from_reader(alloc, text);
    let mut record = ByteRecord::new(alloc);
    let mut meters = WaveList::none(alloc);
    let mut lines = Vec::new(alloc);
    for _ in 0..u64::MAX {
        let Ok(true) = reader.read_byte_record(&mut record) else {
            return None;
        };
        let at = line_of(text, &record);
        match note(net, own, at, &mut meters, &mut lines, &record) {
            Ok(()) => {}
            Err(why) if at == line => return why,
            Err(_) => return None,
        }
    }
    None
}

/// Adds the meter of the record at this line, or says why it can't be added, if that is known.
fn note<N: Net>(
    net: &N,
    own: SocketAddr,
    line: u64,
    meters: &mut WaveList,
    lines: &mut Vec<u64>,
    fields: &ByteRecord,
) -> Result<(), Option<ListCause>>
    ensures once { OnOk result (IsList (listed_in meters.new)) }
    ensures taken { OnOk result ((planned : ThePlanned) × SpellsPlanned own (fields_of fields.now) planned
        × (meters.new ≡ meters.old ++ planned ∷ [])) }
    ensures why { IfErr result (λ why. IfSome why (Explains own meters.old (fields_of fields.now))) }
{
    let Some(planned) = planned(net, own, fields) else {
        return Err(fields_cause(own, fields));
    };
    if lines.push(line).is_err() {
        return Err(None);
    }
    let at = planned.at;
    match meters.add(planned) {
        Ok(true) => {
            // For its clause alone: each number and each address stands once.
            let _meters = meters.meters();
            Ok(())
        }
        Ok(false) => Err(twice_cause(meters.meters().meters(), lines, at)),
        Err(_) => Err(None),
    }
}

/// Why a meter with its address can't follow these, which stand in these lines.
fn twice_cause(list: &[Listed], lines: &[u64], at: Listed) -> Option<ListCause>
    ensures { IfSome result (StandsIn list.now at) }
{
    if let Some(line) = line_of_number(list, lines, at.meter) {
        return Some(ListCause::NumberTwice(line));
    }
    let line = line_of_address(list, lines, at.address)?;
    Some(ListCause::AddressTwice(line))
}

/// The line of the meter of this number.
fn line_of_number(list: &[Listed], lines: &[u64], meter: MeterId) -> Option<u64>
    ensures { IfSome result (λ _. HasNumber list.now meter) }
{
    for (place, other) in list.iter().enumerate() {
        if other.meter == meter {
            let line = lines.get(place)?;
            return Some(*line);
        }
    }
    None
}

/// The line of the meter at this address.
fn line_of_address(list: &[Listed], lines: &[u64], address: SocketAddr) -> Option<u64>
    ensures { IfSome result (λ _. HasAddress list.now address) }
{
    for (place, other) in list.iter().enumerate() {
        if other.address == address {
            let line = lines.get(place)?;
            return Some(*line);
        }
    }
    None
}

/// Why a record spells no meter of a list. Of an address it is asked last: nobody knows what the system has for a name.
fn fields_cause(own: SocketAddr, fields: &ByteRecord) -> Option<ListCause>
    ensures { IfSome result (RefusesFields own (fields_of fields.now)) }
{
    if let Some(cause) = count_cause(fields) {
        return Some(cause);
    }
    if let Some(cause) = number_cause(fields) {
        return Some(cause);
    }
    if let Some(cause) = wave_cause(fields) {
        return Some(cause);
    }
    address_cause(own, fields)
}

/// Why a record hasn't as many fields as it must.
fn count_cause(fields: &ByteRecord) -> Option<ListCause>
    ensures { IfSome result (RefusesCount (fields_of fields.now)) }
{
    match fields.len() {
        0 | 1 => Some(ListCause::OneField),
        2 | 3 => None,
        _ => Some(ListCause::MoreFields),
    }
}

/// Why the first field of a record is no number of a meter.
fn number_cause(fields: &ByteRecord) -> Option<ListCause>
    ensures { IfSome result (λ cause. HasField (fields_of fields.now) 0 (λ field. RefusesNumber field cause)) }
{
    let field = fields.get(0)?;
    number_refusal(field)
}

/// Why a field is no number of a meter.
fn number_refusal(field: &[u8]) -> Option<ListCause>
    ensures { IfSome result (RefusesNumber field.now) }
{
    let Ok(text) = str::from_utf8(field) else {
        return Some(ListCause::NoText);
    };
    match meter_of(text) {
        Some(_) => None,
        None => Some(no_number(text)),
    }
}

/// Why a text is no number of a meter, if it is none.
fn no_number(text: &str) -> ListCause
    requires { (number : ℕ) → ¬ SpellsNumber 32 text.now number }
    ensures { RefusesNumber text.now result }
{
    match text.parse::<u64>() {
        Ok(_) => ListCause::NumberTooLarge,
        Err(_) => ListCause::NoNumber,
    }
}

/// Why the third field of a record is no wave. There may be none.
fn wave_cause(fields: &ByteRecord) -> Option<ListCause>
    ensures { IfSome result (λ cause. HasField (fields_of fields.now) 2 (λ field. RefusesWave field cause)) }
{
    let field = fields.get(2)?;
    wave_refusal(field)
}

/// Why a field is no wave.
fn wave_refusal(field: &[u8]) -> Option<ListCause>
    ensures { IfSome result (RefusesWave field.now) }
{
    let Ok(text) = str::from_utf8(field) else {
        return Some(ListCause::NoText);
    };
    match wave_named(text) {
        Some(_) => None,
        None => Some(ListCause::NoWave),
    }
}

/// Why the second field of a record is no address that a head end at `own` can ask.
fn address_cause(own: SocketAddr, fields: &ByteRecord) -> Option<ListCause>
    ensures { IfSome result (λ cause. HasField (fields_of fields.now) 1 (λ field. RefusesAddress own field cause)) }
{
    let field = fields.get(1)?;
    address_refusal(own, field)
}

/// Why a field is no address that a head end at `own` can ask.
fn address_refusal(own: SocketAddr, field: &[u8]) -> Option<ListCause>
    ensures { IfSome result (RefusesAddress own field.now) }
{
    let Ok(text) = str::from_utf8(field) else {
        return Some(ListCause::NoText);
    };
    match text.parse::<SocketAddr>() {
        Ok(address) => asking_refusal(own, address),
        Err(_) => Some(no_address(text)),
    }
}

/// Why a head end at `own` can't ask a meter at this address.
fn asking_refusal(own: SocketAddr, address: SocketAddr) -> Option<ListCause>
    ensures { IfSome result (CantBeAsked own address) }
{
    if address.port() == 0 {
        Some(ListCause::NoPort)
    } else if address.is_ipv4() != own.is_ipv4() {
        Some(ListCause::OtherFamily)
    } else if is_host(address.ip()) {
        None
    } else {
        Some(ListCause::NoHost)
    }
}

/// Why a text that spells no address gives none.
fn no_address(text: &str) -> ListCause
    requires { IsNoAddress text.now }
    ensures { SpellsNone text.now result }
{
    match text.rsplit_once(':') {
        Some((_, port)) if port.parse::<u16>().is_ok() => ListCause::UnknownHost,
        _ => ListCause::NoAddress,
    }
}
