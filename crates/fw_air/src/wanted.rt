//! What a log is searched for.

ghost use Rattle.std.specs.Prelude.{◌≡◌, ◌<◌, length, MatchBool, IfSome};
ghost use Rattle.fw_air.specs.Logs.{FindsLast, IsSent};

use fw_world::{Actor, Datagram};

/// A datagram with these bytes, by this sender for this addressee.
#[derive(Clone, Copy)]
pub(crate) struct Wanted<'a> {
    pub(crate) from: Actor,
    pub(crate) to: Actor,
    pub(crate) bytes: &'a [u8],
}

impl<'a> Wanted<'a> {
    /// Whether this is a datagram that is looked for.
    fn is(&self, datagram: &Datagram) -> bool
        ensures { MatchBool result (IsSent self.now.from self.now.to self.now.bytes.now datagram.now)
            (¬ IsSent self.now.from self.now.to self.now.bytes.now datagram.now) }
    {
        datagram.from() == self.from && datagram.to() == self.to && *datagram.bytes == *self.bytes
    }

    /// The greatest number of such a datagram in a list, from 0 on.
    pub(crate) fn last_in(&self, list: &[Datagram]) -> Option<usize>
        ensures last { FindsLast result list.now (IsSent self.now.from self.now.to self.now.bytes.now) }
        ensures bound { IfSome result (λ at. at < length list.now) }
    {
        let mut rest = list;
        'back: while let Some((last, before)) = rest.split_last() {
            if self.is(last) {
                return Some(before.len());
            }
            rest = before;
        }
        None
    }
}
