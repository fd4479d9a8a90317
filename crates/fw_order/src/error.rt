//! Why logs don't agree.

use std::fmt;
use thiserror::Error;

/// What is wrong with a datagram that came, and shows the address of an end.
#[derive(Clone, Copy, Debug)]
pub enum OrderRule {
    /// No end of that address sends it there at any time.
    NeverSent,
    /// An end of that address sends it there, and only after something that needs this datagram.
    SentLater,
}

/// The item up to which an end comes in an order, and no further in any.
#[derive(Clone, Copy, Debug)]
pub struct OrderDeparture {
    /// The number of the end, from 0 on.
    pub end: usize,
    /// The number of the item in its log, from 0 on.
    pub at: usize,
    pub rule: OrderRule,
}

/// What is wrong with logs, or why nothing was found out.
#[derive(Clone, Copy, Debug, Error)]
pub enum OrderError {
    /// There is no order: no end gets past this item before the datagram that came in it was sent.
    Departs(OrderDeparture),
    /// Memory was refused, which is wanted only if there is an end. Nothing is said of the logs.
    OutOfMemory,
}

impl fmt::Display for OrderError {
    fn fmt<W: fmt::Write>(&self, f: &mut fmt::Formatter<W>) -> fmt::Result {
        fmt::Debug::fmt(self, f)
    }
}
