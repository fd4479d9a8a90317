//! What a head end is told of a rollout, beside its meters.

use fw_plan::{Deadline, Window};

/// From when on rows are activated, and how long a meter may be silent.
#[derive(Clone, Copy)]
pub struct Plan {
    /// When a verified image may be activated.
    pub window: Window,
    /// How long a meter may be silent while it is asked, until its row is given up.
    pub deadline: Deadline,
}

impl Plan {
    /// Rows are activated at any time, and none is given up.
    pub const FREE: Plan = Plan {
        window: Window::Always,
        deadline: Deadline::Never,
    };
}
