//! Laws of schedules, over the definitions alone. A caller cites a law by calling it: nothing is done.

ghost use Rattle.fw_air.specs.Laws.{NoneRefused, OneWorld, SentGrows, TicksEach};

/// After the given events of a schedule each link has as many ticks as there are rounds, and any other two numbers have none.
pub fn ticks_each()
    ensures { TicksEach }
{}

/// Each run over a schedule, as `run` makes it, ends in the world of the run in which no event is refused.
pub fn one_world()
    ensures { OneWorld }
{
    fw_head::laws::one_row();
    fw_image::laws::one_turn();
    fw_meter::laws::one_answer();
    fw_meter::laws::one_stop();
}

/// `run` over a schedule is refused at no event, except if it is out of memory.
pub fn none_refused()
    ensures { NoneRefused }
{
    fw_head::laws::one_row();
    fw_image::laws::one_turn();
    fw_meter::laws::one_answer();
    fw_meter::laws::one_stop();
}

/// A run in which no event is refused leaves no fewer datagrams sent than there were.
pub fn sent_grows()
    ensures { SentGrows }
{}
