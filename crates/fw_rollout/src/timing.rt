//! How long an answer is waited for: the timeout of a request, after which it is sent again (a retry), and the backoff from one retry to the
//! next. All times are in microseconds.

ghost use Rattle.std.specs.Prelude.{◌≡◌, ◌↔◌, IsTrue};
ghost use Rattle.fw_rollout.specs.Timing.{HasRoom, lengthened, longer, wait_after};
ghost use Rattle.fw_rollout.specs.Laps.{longer_rest};

use fw_blocks::MAX_WIDTH;

/// The microseconds of a second.
pub const SECOND: u64 = 1_000_000;

/// Those of a millisecond.
pub const MILLISECOND: u64 = 1_000;

/// The longest wait, a minute.
pub const LONGEST_WAIT: u64 = 60_000_000;

/// The first pause before a meter is asked again that isn't ready for what it was asked.
pub const FIRST_PAUSE: u64 = 5_000;

/// The longest pause, half a second.
pub const LONGEST_PAUSE: u64 = 500_000;

/// The most datagrams that one tick of a row makes: those of a whole window.
const MAX_TICK: u64 = MAX_WIDTH as u64;

/// How a head end waits for answers.
#[derive(Clone, Copy)]
pub struct Timing {
    /// How long the first answer of a meter is waited for, in microseconds. No later wait is shorter.
    pub resend: u64,
    /// How many datagrams are out at once (in flight): sent, and neither answered nor given up. One tick is always let out.
    pub flight: u64,
}

/// How long an answer is waited for once one took this long: four times as long, within the limits.
pub(crate) fn wait_after(resend: u64, trip: u64) -> u64
    ensures { result ≡ wait_after resend trip }
{
    trip.saturating_mul(4).max(resend).min(LONGEST_WAIT)
}

/// The retry wait after a silence of this time (backoff): a quarter longer. If a fifth is lost in each direction, of many
/// meters some are silent seven times in a row, and twice as long each time would be the longest wait then.
pub(crate) fn lengthened(wait: u64) -> u64
    ensures { result ≡ lengthened wait }
{
    wait.saturating_add(wait / 4).min(LONGEST_WAIT)
}

/// The pause after one of this time, where the meter isn't ready still.
pub(crate) fn longer(pause: u64) -> u64
    ensures { result ≡ longer pause }
{
    pause.saturating_mul(2).min(LONGEST_PAUSE)
}

/// How long a row rests after a lap that got nowhere, if it rested this long after the last one (backoff).
pub(crate) fn longer_rest(rest: u64) -> u64
    ensures { result ≡ longer_rest rest }
{
    rest.saturating_mul(2).min(LONGEST_WAIT)
}

/// Whether another tick may be sent where `out` datagrams are out.
pub(crate) fn has_room(out: u64, flight: u64) -> bool
    ensures { IsTrue result ↔ HasRoom out flight }
{
    out == 0 || (out <= flight && MAX_TICK <= flight - out)
}
