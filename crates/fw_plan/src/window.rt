//! From when on meters are activated.

ghost use Rattle.std.specs.Prelude.{◌↔◌, IsTrue};
ghost use Rattle.fw_plan.specs.Window.{IsLetBy};

/// When a verified image may be activated. Times are in seconds since 1970, as the caller's clock has them.
#[derive(Clone, Copy)]
pub enum Window {
    /// At any time.
    Always,
    /// From this time on.
    From(u64),
}

impl Window {
    /// Whether a row may be asked at this time, whose next request would activate its image or not. The time of the moment alone decides: where
    /// the clock was set back before the window, rows wait again.
    pub fn lets(self, now: u64, activates: bool) -> bool
        ensures { IsTrue result ↔ IsLetBy self now activates }
    {
        match self {
            Window::Always => true,
            Window::From(time) => !activates || time <= now,
        }
    }
}
