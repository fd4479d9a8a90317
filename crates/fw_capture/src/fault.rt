//! What is wrong with a capture.

use std::fmt;
use thiserror::Error;

/// The faults of a capture. If several would apply to a packet, the first of them comes.
#[derive(Clone, Copy, Debug, Drop, PartialEq, Eq, Error)]
pub enum CaptureFault {
    /// The file header lacks a byte.
    ShortHeader,
    /// The file begins as one in the form pcapng.
    Pcapng,
    /// The file doesn't begin with a magic number of pcap.
    BadMagic,
    /// The version is not 2.4.
    BadVersion,
    /// The link type is none of those that are read.
    UnknownLink,
    /// The header of a record lacks a byte.
    ShortRecord,
    /// The fraction is a whole second or more.
    BadFraction,
    /// A packet lacks a byte.
    CutPacket,
    /// The header of the link lacks a byte.
    ShortLink,
    /// The version of IP is not that which the link says, or is neither 4 nor 6.
    BadIpVersion,
    /// The header of IP lacks a byte.
    ShortIp,
    /// The length of an IPv4 header is less than five words, or more than there is.
    BadIpHeader,
    /// The length of an IP packet is less than its header, or more than was captured.
    BadIpLength,
    /// The header of UDP lacks a byte, or its length is not that of the packet.
    BadUdpLength,
}

impl fmt::Display for CaptureFault {
    fn fmt<W: fmt::Write>(&self, f: &mut fmt::Formatter<W>) -> fmt::Result {
        fmt::Debug::fmt(self, f)
    }
}

/// The first fault of a capture, and where the record begins that has it, or the file header.
#[derive(Clone, Copy, Debug, Drop, PartialEq, Eq, Error)]
#[error("{fault} {offset}")]
pub struct CaptureError {
    pub fault: CaptureFault,
    pub offset: usize,
}
