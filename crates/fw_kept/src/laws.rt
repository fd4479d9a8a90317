//! Laws of a book in bytes, over the definitions alone.

ghost use Rattle.fw_kept.specs.Laws.{OneBook, RefusedHaveNone, ForeignHaveNone, BadRecordsHaveNone};

/// Bytes have one book of a head end at most.
pub fn one_book()
    ensures { OneBook }
{
    fw_journal::laws::one_reading();
    fw_ledger::laws::one_book();
}

/// Bytes that are no journal's, or a journal's with a record that has no place in the book of those before it, have none.
pub fn refused_have_none()
    ensures { RefusedHaveNone }
{
    fw_journal::laws::one_reading();
    fw_journal::laws::bad_is_none();
    fw_ledger::laws::failed_have_none();
}

/// Bytes of which the first record is of another head end's campaign have no book of this head end.
pub fn foreign_have_none()
    ensures { ForeignHaveNone }
{
    fw_journal::laws::one_reading();
    fw_ledger::laws::one_record();
    fw_book::laws::admitted_opens();
}

/// Bytes with a record that has no place in the book of those before it have no book of any head end.
pub fn bad_records_have_none()
    ensures { BadRecordsHaveNone }
{
    fw_journal::laws::one_reading();
    fw_ledger::laws::failed_have_none();
    fw_book::laws::admitted_opens();
}
