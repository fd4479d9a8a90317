//! Laws of captures. A caller cites one by calling it: nothing is done.

ghost use Rattle.fw_recording.specs.Laws.{OneReading, WrittenIsHeld};

/// A capture of records that have spellings has these records, and ends with the last.
pub fn written_is_held()
    ensures { WrittenIsHeld }
{
    fw_capture::laws::header_is_read();
    fw_capture::laws::packet_is_read();
}

/// A capture has one list of records at most, and one end.
pub fn one_reading()
    ensures { OneReading }
{}
