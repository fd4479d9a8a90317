//! A law of scripts. A caller cites it by calling it: nothing is done.

ghost use Rattle.fw_script.specs.Laws.{OneScript};

/// An input is one script, or it has one bad line.
pub fn one_script()
    ensures { OneScript }
{}
