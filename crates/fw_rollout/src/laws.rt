//! Laws of what a head end does, over the definitions alone. A caller cites a law by calling it: nothing is done.

ghost use Rattle.fw_rollout.specs.Laws.{AsksListed, OthersNeverActivate, RestsAreShort, ShorterLapsGoOn, ShorterListsLead};

/// A head end sends to addresses of its list alone.
pub fn asks_listed()
    ensures { AsksListed }
{}

/// What a head end does that asks some of the meters of a list is what one may do that asks all of them.
pub fn shorter_lists_lead()
    ensures { ShorterListsLead }
{}

/// An answer lets its row rest a minute at most.
pub fn rests_are_short()
    ensures { RestsAreShort }
{}

/// A row whose meter took fewer blocks in a lap than in the one before, since it lacked fewer, goes on at once.
pub fn shorter_laps_go_on()
    ensures { ShorterLapsGoOn }
{}

/// A row that doesn't activate never asks its meter to activate the image.
pub fn others_never_activate()
    ensures { OthersNeverActivate }
{}
