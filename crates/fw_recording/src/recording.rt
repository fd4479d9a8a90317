//! The capture of a run.

ghost use Rattle.std.specs.Prelude.{◌≡◌, ◌≢◌, ◌≤◌, ◌⊎◌, ◌*◌, ◌++◌, ℕ, Some, length, drop, IfErr, IfOk, OnErr, OnOk};
ghost use Rattle.fw_capture.specs.Refusal.{refusal_of};
ghost use Rattle.fw_capture.specs.Spelling.{packet_bytes};
ghost use Rattle.fw_capture.specs.View.{endpoint_of};
ghost use Rattle.fw_capture.specs.declared.error.AppendError.{AppendError};
ghost use Rattle.fw_recording.specs.Recording.{SomeRefused, capture_bytes, endpoint_at, millisecond, record_of, records_bytes, records_from, run_records};

use fw_capture::{AppendError, Captured, Content, append_packet, file_header};
use fw_world::{Actor, Datagram};
use std::alloc::Global;
use std::net::{Ipv6Addr, SocketAddr, SocketAddrV6};

/// The port of DLMS/COSEM.
const COSEM_PORT: u16 = 4059;

/// The nanoseconds of a millisecond.
const MILLISECOND: u64 = 1_000_000;

/// The capture of datagrams that were sent. Each has a record, in order: the first at the start of 1970, and each further one a millisecond
/// later. Head end H has the address 2001:db8:0:1::H, and meter M 2001:db8:0:2::M, both with the port 4059.
///
/// # Errors
///
/// `TimePast` or `TooLong`, of the first datagram that makes no record. `OutOfMemory` also if none does.
pub fn capture_of(alloc: Global, sent: &[Datagram]) -> Result<Vec<u8>, AppendError>
    ensures capture { IfOk result (λ capture. capture.items ≡ capture_bytes (run_records sent.now)) }
    ensures refused { IfErr result (λ e. (e ≡ AppendError.OutOfMemory) ⊎ SomeRefused (run_records sent.now) e) }
{
    let mut capture = file_header(alloc)?;
    append_records(&mut capture, sent)?;
    Ok(capture)
}

/// Appends the records of datagrams.
fn append_records(capture: &mut Vec<u8>, sent: &[Datagram]) -> Result<(), AppendError>
    ensures records { OnOk result (capture.new.items ≡ capture.old.items ++ records_bytes (run_records sent.now)) }
    ensures refused { IfErr result (λ e. (e ≡ AppendError.OutOfMemory) ⊎ SomeRefused (run_records sent.now) e) }
{
    'records: for number in 0..sent.len() {
        append_record(capture, number, &sent[number])?;
    }
    Ok(())
}

/// Appends the record of a datagram.
fn append_record(
    capture: &mut Vec<u8>,
    number: usize,
    datagram: &Datagram,
) -> Result<(), AppendError>
    ensures record { OnOk result (capture.new.items ≡ capture.old.items
        ++ packet_bytes (record_of number datagram.now).0 (record_of number datagram.now).1) }
    ensures refused { IfErr result (λ e. (e ≡ AppendError.OutOfMemory)
        ⊎ (refusal_of (record_of number datagram.now).0 (record_of number datagram.now).1 ≡ Some e)) }
{
    let Some(nanoseconds) = (number as u64).checked_mul(MILLISECOND) else {
        return Err(AppendError::TimePast);
    };
    let captured = Captured {
        nanoseconds,
        content: Content::Datagram {
            from: address_of(datagram.from()),
            to: address_of(datagram.to()),
            bytes: &datagram.bytes,
        },
    };
    append_packet(capture, &captured)
}

/// The made-up address of a head end or a meter.
fn address_of(actor: Actor) -> SocketAddr
    ensures { endpoint_of result ≡ endpoint_at actor }
{
    let (net, number) = match actor {
        Actor::Head(head) => (1, head.number()),
        Actor::Meter(meter) => (2, meter.number()),
    };
    let [high, low] = [(number / 65_536) as u16, (number % 65_536) as u16];
    let ip = Ipv6Addr::new(0x2001, 0x0db8, 0, net, 0, 0, high, low);
    SocketAddr::V6(SocketAddrV6::new(ip, COSEM_PORT, 0, 0))
}
