//! Laws of the logs of head ends, over the definitions alone. A caller cites a law by calling it: nothing is done.

ghost use Rattle.fw_head_audit.specs.Laws.{HeadDeparts, OfferedInBook};

/// Where a log departs, it is none of a head end with this book. So the audit is `Ok` wherever it is one, if memory isn't refused.
pub fn head_departs()
    ensures { HeadDeparts }
{}

/// What is offered to a meter is what a head end may send in the world.
pub fn offered_in_book()
    ensures { OfferedInBook }
{}
