//! Laws of sealing ports, over the definitions alone. They speak of whatever a daemon does behind such a port, call after call.

ghost use Rattle.fw_sealport.specs.Histories.{CountersRise, OnlySealings, OnlyWhatOpened, WhatIsSentOpens};

use crate::wire_port::WirePort;
use fw_journal::JournalDevice;

/// Over an honest port each datagram that came to the daemon was opened, under the link of the address that it came from, of one that came from
/// there to the port below.
pub fn only_what_opened<P: WirePort, D: JournalDevice>()
    ensures { OnlyWhatOpened P.honest P.acts D.JournalDevice }
{}

/// Over an honest port each datagram that the port below sent is the sealing, under the link of the address that it goes to, of one that the
/// daemon sent there.
pub fn only_sealings<P: WirePort, D: JournalDevice>()
    ensures { OnlySealings P.honest P.acts D.JournalDevice }
{}

/// Of the datagrams that the port below sent, each has a greater counter than all before it.
pub fn counters_rise<P: WirePort, D: JournalDevice>()
    ensures { CountersRise P.honest P.acts D.JournalDevice }
{}

/// What an end sends in place of a datagram opens to just that datagram at the other end.
pub fn what_is_sent_opens()
    ensures { WhatIsSentOpens }
{
    fw_seal::laws::short_is_sealing();
}
