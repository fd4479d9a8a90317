//! How many rows may fail before a rollout stops.

ghost use Rattle.std.specs.Prelude.{◌↔◌, IsTrue};
ghost use Rattle.fw_plan.specs.Waves.{IsWithin};

/// The threshold of a rollout: how many rows of the waves before one may fail, so that it begins.
#[derive(Clone, Copy)]
pub enum MaxFailed {
    /// So many rows.
    Rows(u32),
    /// So many in a hundred of all rows of these waves. Nothing is rounded: of 30 rows 3 may fail at 10 %, and of 29 rows 2.
    Percent(u8),
}

impl MaxFailed {
    /// Whether so many may fail of so many rows.
    pub fn admits(self, failed: u64, rows: u64) -> bool
        ensures { IsTrue result ↔ IsWithin self failed rows }
    {
        match self {
            MaxFailed::Rows(most) => failed <= u64::from(most),
            MaxFailed::Percent(most) => 100 * u128::from(failed)
                <= u128::from(most) * u128::from(rows),
        }
    }
}
