//! Laws of headers, of what stores hold and of faults, over the definitions alone.

ghost use Rattle.fw_store.specs.Laws.{OneHeader, HeaderSize, FreshIsHeader, VerifiedIsComplete, MigratedIsHeader};
ghost use Rattle.fw_store.specs.StoreLaws.{
  SpliceStands,
  WrittenIsRead,
  OthersAreRead,
  OtherSlotStays,
  HeaderStays,
  SlotsStay,
  FieldsJoin,
  DeviceIsRead,
  FaultsShow,
  TornSize,
  CallsAdd,
  CallsEnd,
};

/// A byte string is at most one header's.
pub fn one_header()
    ensures { OneHeader }
{
    fw_axdr::laws::bits_packed();
    fw_names::laws::one_name();
    fw_blocks::laws::one_set_for_bytes();
}

/// Every header has 622 bytes in version 1, and 2,158 in version 2.
pub fn header_size()
    ensures { HeaderSize }
{
    fw_axdr::laws::bits_packed();
}

/// A new store can have its header, where block size and running size are within their limits.
pub fn fresh_is_header()
    ensures { FreshIsHeader }
{}

/// Of a goal that was verified, no block is missing.
pub fn verified_is_complete()
    ensures { VerifiedIsComplete }
{
    fw_blocks::laws::one_first_missing();
}

/// What a store can have in version 1, it can have in version 2.
pub fn migrated_is_header()
    ensures { MigratedIsHeader }
{}

/// What a write into a byte string leaves of it, and what it makes of it.
pub fn splice_stands()
    ensures { SpliceStands }
{}

/// What was written into a slot is read there.
pub fn written_is_read()
    ensures { WrittenIsRead }
{}

/// What is read before a write, or after it, is as it was.
pub fn others_are_read()
    ensures { OthersAreRead }
{}

/// A write into one slot leaves the other.
pub fn other_slot_stays()
    ensures { OtherSlotStays }
{}

/// A write into a slot leaves the header.
pub fn header_stays()
    ensures { HeaderStays }
{}

/// A header write leaves the slots.
pub fn slots_stay()
    ensures { SlotsStay }
{}

/// The bytes of a store are its capacity, the first 614 bytes of its header, its slots, and the other bytes of its header, one after
/// the other. A store without releases ends with its slots.
pub fn fields_join()
    ensures { FieldsJoin }
{}

/// From a store's bytes its device is read back.
pub fn device_is_read()
    ensures { DeviceIsRead }
{}

/// A failure that is counted shows: the count rose, or stood at its greatest number.
pub fn faults_show()
    ensures { FaultsShow }
{}

/// A write that failed half way leaves as many bytes as were to be written.
pub fn torn_size()
    ensures { TornSize }
{}

/// Calls after others are counted together with them.
pub fn calls_add()
    ensures { CallsAdd }
{}

/// Calls that a failure ended are counted as many as there would have been.
pub fn calls_end()
    ensures { CallsEnd }
{}
