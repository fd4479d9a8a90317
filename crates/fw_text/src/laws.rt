//! A law of the lines of a text. A caller cites it by calling it: nothing is done.

ghost use Rattle.fw_text.specs.Laws.{LinesAreCut};

/// A text is cut into the lines that it was made of, whether or not a line feed ends the last.
pub fn lines_are_cut()
    ensures { LinesAreCut }
{}
