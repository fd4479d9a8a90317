//! The date of the system.

ghost use Rattle.std.specs.Prelude.{◌≡◌};
ghost use Rattle.fw_host.specs.Clocks.{date_of};

use std::rt::Clock;
use std::time::{SystemTime, UNIX_EPOCH};

/// The seconds since 1970 began (UTC), as the clock of the system has them, and 0 if it has no time, or an earlier one.
pub fn date<C: Clock>(rt: &C) -> u64 {
    seconds(SystemTime::now(rt).ok())
}

/// The seconds since 1970 began, of what the system says that it is, if it has a time.
fn seconds(now: Option<SystemTime>) -> u64
    ensures { result ≡ date_of now }
{
    let Some(now) = now else {
        return 0;
    };
    match now.duration_since(UNIX_EPOCH) {
        Ok(since) => since.as_secs(),
        Err(_) => 0,
    }
}
