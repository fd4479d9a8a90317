//! Laws of books and meters, over the definitions alone. A caller cites a law by calling it: nothing is done.

ghost use Rattle.fw_fleet_audit.specs.Laws.{DoneHasSwitched, EachMayStand, HeadlineByLooking, OneImage, RowDeparts, SwitchDeparts};

/// Where a switch departs, not all are as they should be. So the audit of a meter's switches is `Ok` wherever they are.
pub fn switch_departs()
    ensures { SwitchDeparts }
{}

/// Where a row departs, not all are borne out. So the audit of a book is `Ok` wherever they are.
pub fn row_departs()
    ensures { RowDeparts }
{}

/// The campaign in its name settles what an image is that a meter may have switched to.
pub fn one_image()
    ensures { OneImage }
{}

/// A switch that stands among others is to an image that is offered, and of a release not below one before it.
pub fn each_may_stand()
    ensures { EachMayStand }
{}

/// A row that is done has its switch.
pub fn done_has_switched()
    ensures { DoneHasSwitched }
{}

/// If the logs are those of the meters, and no meter and no book departs, the headline holds of what was found. It needs no world, and
/// nothing of SHA-256.
pub fn headline_by_looking()
    ensures { HeadlineByLooking }
{
    fw_audit::laws::runs_the_last();
}
