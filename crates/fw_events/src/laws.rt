//! Laws of the definitions.

ghost use Rattle.fw_events.specs.Laws.{CampaignsLackAll, RowsAreFound};

/// Of a row whose event was written its line tells.
pub fn rows_are_found()
    ensures { RowsAreFound }
{}

/// Who tells what each campaign of a book lacks, in their order, tells of each row of the book that ended and of which no event tells.
pub fn campaigns_lack_all()
    ensures { CampaignsLackAll }
{}
