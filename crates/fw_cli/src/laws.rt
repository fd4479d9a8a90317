//! A law of the command `answer`. A caller cites it by calling it: nothing is done.

ghost use Rattle.fw_cli.specs.Laws.{OneAnswer};

/// The options and the input determine the text that answers it, and the line that ends it.
pub fn one_answer()
    ensures { OneAnswer }
{
    fw_meter::laws::one_answer();
}
