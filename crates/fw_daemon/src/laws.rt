//! Laws of what a daemon does.

ghost use Rattle.fw_daemon.specs.Laws.{EventsAreTrue, GoesOn, IgnoresStrangers, RepliesOnly, SwitchesAreTold};

/// What a daemon does after what it did is what it does from its beginning on.
pub fn goes_on()
    ensures { GoesOn }
{}

/// Each datagram that a daemon sent is its reply to the one that came just before, from an address that may ask, and goes to that
/// address.
pub fn replies_only()
    ensures { RepliesOnly }
{}

/// What strangers send changes nothing but how many of their datagrams are counted: without them the meter does the same.
pub fn ignores_strangers()
    ensures { IgnoresStrangers }
{}

/// Of what a daemon hears just a switch of its meter is told as one, and of a turn none.
pub fn switches_are_told()
    ensures { SwitchesAreTold }
{}

/// Over any store, the cause of a refusal that is told is one that the meter had, and where a failure is told, of a datagram or of a turn, a
/// call of the store failed.
pub fn events_are_true()
    ensures { EventsAreTrue }
{
    fw_names::laws::one_name();
    fw_wrapper::laws::one_frame();
    fw_apdu::laws::one_request();
}
