//! Laws of a book, over the definitions alone.

ghost use Rattle.fw_book.specs.Laws.{OneBook, OneReading, ImagesStay, OpeningOffers, StatesFollowCalls, AdmittedOpens};
ghost use Rattle.fw_book.specs.Notes.{NotesSay};

/// A byte string spells at most one book.
pub fn one_book()
    ensures { OneBook }
{}

/// A byte string is read as at most one book.
pub fn one_reading()
    ensures { OneReading }
{}

/// What a campaign offers it offers after every call: no image is changed or removed. Marks and cancelling leave the offered
/// images as they are.
pub fn images_stay()
    ensures { ImagesStay }
{}

/// An opening adds its image under its campaign, and nothing else.
pub fn opening_offers()
    ensures { OpeningOffers }
{}

/// An opening makes its meters live in its campaign, a mark changes the state of one meter in one campaign, cancelling turns the live
/// rows of one campaign, and no state changes beside these.
pub fn states_follow()
    ensures { StatesFollowCalls }
{}

/// An opening is refused for nothing exactly if the campaign is of the book's head end and its serial number is new, the image
/// has 1 to 16,777,216 bytes, and the meters are 1 to 256, of which none stands twice and none is live in a campaign of the book.
pub fn admitted_opens()
    ensures { AdmittedOpens }
{}

/// What is noted of an opening, or of a row's end, is known from then on, and all else that was known.
pub fn notes_say()
    ensures { NotesSay }
{}
