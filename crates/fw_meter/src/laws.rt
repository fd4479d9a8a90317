//! Laws of a meter, over the definitions alone. A caller cites a law by calling it: nothing is done.

ghost use Rattle.fw_meter.specs.Laws.{OneAnswer, KeepsSize, Faultless, FaultIsStop, StopAfterIsStop, OneStop, TurnFaultIsStop, TellsRunning};

/// Over an honest store that doesn't fail, a meter and a datagram determine the reply, the activation and the meter
/// afterwards.
pub fn one_answer()
    ensures { OneAnswer }
{
    fw_names::laws::one_name();
    fw_wrapper::laws::one_frame();
    fw_apdu::laws::one_request();
    fw_image::laws::one_step();
}

/// Over an honest store that doesn't fail, whatever a meter does with a datagram leaves it its capacity.
pub fn keeps_size()
    ensures { KeepsSize }
{
    fw_image::laws::step_keeps_size();
}

/// Over an honest store that doesn't fail, a datagram is handled without a hardware fault.
pub fn faultless()
    ensures { Faultless }
{}

/// Over an honest store, a stop at any of its calls leaves the meter before the datagram, or before it except for the block
/// that it writes, or after it. Opening a meter again from an honest store that doesn't fail changes it only while an image
/// is verified. That image is then received, as the clause `again` of `MeterCore::restart` says.
pub fn fault_is_stop()
    ensures { FaultIsStop }
{}

/// What is left where the calls of an honest store fail after some is what a stop may leave, as `fault_is_stop` has it.
pub fn stop_after_is_stop()
    ensures { StopAfterIsStop }
{
    fw_store::laws::torn_size();
}

/// Over an honest store, a meter, a datagram, the number of calls before all fail, and the byte that a failing write leaves determine
/// what is left, and what was activated.
pub fn one_stop()
    ensures { OneStop }
{
    fw_names::laws::one_name();
    fw_wrapper::laws::one_frame();
    fw_apdu::laws::one_request();
    fw_image::laws::one_step();
}

/// Over an honest store, a stop at any call of a turn leaves the meter after the turn, or the one before it, except that no
/// verification goes on.
pub fn turn_fault_is_stop()
    ensures { TurnFaultIsStop }
{}

/// Of all that a meter replies to a GET, an octet-string of 41 or 45 bytes spells the name of the image that runs, over any
/// store of which no call failed. That name has a spelling, as the clause `fits` of `MeterCore::view` says.
pub fn tells_running()
    ensures { TellsRunning }
{
    fw_names::laws::spelling_size();
    fw_axdr::laws::short_spells();
    fw_axdr::laws::one_spelling();
}
