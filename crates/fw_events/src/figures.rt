//! How far a head end is, in numbers.

/// What a head end counted since it began. Each number is 2^64 - 1 at most.
#[derive(Clone, Copy)]
pub struct Figures {
    /// The rows that are live.
    pub live: u64,
    /// Those that are done.
    pub done: u64,
    /// Those that failed.
    pub failed: u64,
    /// The datagrams that it sent.
    pub sent: u64,
    /// Those that came from meters of its list.
    pub received: u64,
    /// How often a row was asked again since no answer came.
    pub resends: u64,
    /// The datagrams that came from other addresses.
    pub strangers: u64,
    /// How often its socket failed.
    pub faults: u64,
    /// The datagrams that didn't open, of sealed links.
    pub unopened: u64,
}

impl Figures {
    /// Nothing is counted yet.
    pub const NONE: Figures = Figures {
        live: 0,
        done: 0,
        failed: 0,
        sent: 0,
        received: 0,
        resends: 0,
        strangers: 0,
        faults: 0,
        unopened: 0,
    };
}
