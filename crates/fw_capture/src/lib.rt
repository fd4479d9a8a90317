//! Captures of what went over the wire, in the classic form of pcap: a file header, and a record for each packet.
//!
//! What is written has nanoseconds and the link type of raw IP, and each checksum is right, so that field tools read it. A process
//! adds notes of what it did, which are IP packets of a protocol for experiments, and which those tools pass over.
//!
//! What is read may have either order of bytes, either fraction of a second and one of four links, so that captures of field tools
//! are read too, and what a record tells is a UDP datagram, a note, or nothing. What was written is read back ([`laws`]).
#![tactic(auto)]

mod checksum;
mod datagram;
mod error;
mod fault;
mod format;
mod internet;
pub mod laws;
mod link;
mod note;
mod number;
mod packet;
mod reader;
mod reading;
mod stream;
mod whole;
mod writing;

pub use error::{AppendError, StreamError, WholeError};
pub use fault::{CaptureError, CaptureFault};
pub use format::{Format, Link};
pub use packet::{Captured, Content, Note, Packet};
pub use reader::Reader;
pub use reading::FILE_HEADER_SIZE;
pub use stream::{take_header, take_record};
pub use whole::whole_len;
pub use writing::{append_packet, file_header};
