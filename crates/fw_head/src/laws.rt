//! Laws of a row and of a head end, over the definitions alone. A caller cites a law by calling it: nothing is done.

ghost use Rattle.fw_head.specs.Laws.{OneRow, RowKeepsGoal, DoneByClaim, FailedByAnswer, ReportedByClaim, ReportedByAnswer, PutBack, PutBackInOrder, EndsAreMarked, BeginsRestarted, HeadsStay};

/// A row and a datagram determine what is reported, and the row afterwards.
pub fn one_row()
    ensures { OneRow }
{
    fw_client::laws::one_hearing();
}

/// Whatever a row hears, it stays a row of its meter, for the image of its name and size.
pub fn row_keeps_goal()
    ensures { RowKeepsGoal }
{}

/// A row becomes done exactly if it waits in `Confirm` and the datagram is its meter's claim under the row's own name.
pub fn done_by_claim()
    ensures { DoneByClaim }
{
    fw_client::laws::only_claimed();
}

/// A row that hasn't failed becomes so exactly if its meter's answer ends it, and for that reason: the phase that the row is in,
/// and the answer.
pub fn failed_by_answer()
    ensures { FailedByAnswer }
{
    fw_client::laws::one_hearing();
}

/// Whatever a head end hears, it reports a meter as done exactly if that meter's own answer claims what the campaign offers.
pub fn reported_by_claim()
    ensures { ReportedByClaim }
{
    done_by_claim();
}

/// Whatever a head end hears, it reports a meter as failed exactly if that meter's own answer ends its row.
pub fn reported_by_answer()
    ensures { ReportedByAnswer }
{
    failed_by_answer();
}

/// A head end that is put together of its own book, width and live rows is as before, in whatever order the rows come: the book with
/// no row marked, the width, and each meter's row.
pub fn put_back()
    ensures { PutBack }
{}

/// Put together of its rows in their order it is the same value.
pub fn put_back_in_order()
    ensures { PutBackInOrder }
{}

/// A head end that is put together marks the ends of its rows in the book, and nothing else: no image changes, no name under which
/// one is offered, and no state of a meter that was not live.
pub fn ends_are_marked()
    ensures { EndsAreMarked }
{
    fw_book::laws::states_follow();
    fw_book::laws::images_stay();
}

/// A head end that begins with the book of another one, under the same width, is that one once it has started again, except for the
/// order of its live rows, and that each of them asks first what its meter has.
pub fn begins_restarted()
    ensures { BeginsRestarted }
{}

/// The live rows of a head end are those of its book, each meter's once: of a new one, and after each call.
pub fn heads_stay()
    ensures { HeadsStay }
{
    fw_book::laws::states_follow();
    fw_book::laws::images_stay();
    fw_book::laws::opening_offers();
    fw_book::laws::admitted_opens();
}
