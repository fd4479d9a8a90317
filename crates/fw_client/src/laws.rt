//! Laws of a client, over the definitions alone. A caller cites a law by calling it: nothing is done.

ghost use Rattle.fw_client.specs.Laws.{OneHearing, OnlyClaimed};

/// A client and a datagram determine what is heard, and the client afterwards.
pub fn one_hearing()
    ensures { OneHearing }
{
    fw_names::laws::one_name();
    fw_wrapper::laws::one_frame();
    fw_apdu::laws::one_response();
}

/// A claim is heard exactly if the meter answered an ask for its active name by an octet-string that spells the claim's name.
pub fn only_claimed()
    ensures { OnlyClaimed }
{
    one_hearing();
}
