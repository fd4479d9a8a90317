//! Laws of captures, over the definitions alone: what is written is read back.

ghost use Rattle.fw_capture.specs.Laws.{HeaderIsRead, PacketIsRead, NextIsRead};

/// The file header that is written is read as its form, whatever follows it.
pub fn header_is_read()
    ensures { HeaderIsRead }
{}

/// The record of a packet that isn't refused is read as the packet at its time, whatever follows it, and all of it is passed.
pub fn packet_is_read()
    ensures { PacketIsRead }
{}

/// If a capture that is written goes on with such a record, the next packet of a reader there is that packet, and the reader goes on
/// with what follows the record.
pub fn next_is_read()
    ensures { NextIsRead }
{}
