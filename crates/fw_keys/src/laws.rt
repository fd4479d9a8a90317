//! Laws of key files, over the definitions alone.

ghost use Rattle.fw_keys.specs.Laws.{OneHeadFile, OneMeterFile};

/// A text is at most one key file of a head end, and none if a line refuses it.
pub fn one_head_file()
    ensures { OneHeadFile }
{}

/// A text is at most one key file of a meter, and none if a line refuses it.
pub fn one_meter_file()
    ensures { OneMeterFile }
{}
