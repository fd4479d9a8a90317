//! Laws of orders, over the definitions alone. A caller cites a law by calling it: nothing is done.

ghost use Rattle.fw_order.specs.Laws.{EachWasSent, OneBegins, OrderDeparts};

/// Where an end can't go on, there is no order. So [`join`](crate::join) is `Ok` wherever there is one, if memory isn't refused.
pub fn order_departs()
    ensures { OrderDeparts }
{}

/// Each datagram that came, and shows the address of an end, is in the log of one that sent it.
pub fn each_was_sent()
    ensures { EachWasSent }
{}

/// One end begins with something else than a datagram of an end.
pub fn one_begins()
    ensures { OneBegins }
{}
