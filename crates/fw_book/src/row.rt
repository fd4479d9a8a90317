//! Rows: how far a meter is in a campaign.

ghost use Rattle.std.specs.Prelude.{◌≡◌, ◌<◌, IfSome, IfNone};
ghost use Rattle.fw_book.specs.Format.{state_number};
ghost use Rattle.fw_book.specs.Rows.{is_live, marked_row, with_state, cancelled_row, cancelled_rows};

use fw_names::MeterId;

/// How far a meter is in a campaign. A row begins live, and ends once.
#[derive(Clone, Copy, Debug, PartialEq, Eq)]
pub enum RowState {
    /// The head end works on it.
    Live,
    /// The meter claimed to run the campaign's image.
    Done,
    /// The head end gave it up.
    Failed,
    /// The campaign was cancelled before the row ended.
    Cancelled,
}

/// A meter of a campaign.
#[derive(Clone, Copy, Debug, PartialEq, Eq)]
pub struct Row {
    /// The meter.
    pub meter: MeterId,
    /// How far it is.
    pub state: RowState,
}

impl RowState {
    /// Whether the row hasn't ended.
    pub fn is_live(self) -> bool
        ensures { result ≡ is_live self }
    {
        match self {
            RowState::Live => true,
            RowState::Done | RowState::Failed | RowState::Cancelled => false,
        }
    }

    /// The number that a book's bytes have for it.
    pub(crate) fn number(self) -> u8
        ensures { result ≡ state_number self }
    {
        match self {
            RowState::Live => 0,
            RowState::Done => 1,
            RowState::Failed => 2,
            RowState::Cancelled => 3,
        }
    }

    /// The state with this number, if there is one.
    pub(crate) fn from_number(number: u8) -> Option<RowState>
        ensures found { IfSome result (λ state. state_number state ≡ number) }
        ensures none { IfNone result (3 < number) }
    {
        match number {
            0 => Some(RowState::Live),
            1 => Some(RowState::Done),
            2 => Some(RowState::Failed),
            3 => Some(RowState::Cancelled),
            _ => None,
        }
    }
}

/// The row, in this state where it is the meter's.
fn marked_row(row: Row, meter: MeterId, state: RowState) -> Row
    ensures { result ≡ marked_row meter state row }
{
    if row.meter == meter {
        Row { state, ..row }
    } else {
        row
    }
}

/// The row, cancelled where it is live.
fn cancelled_row(row: Row) -> Row
    ensures { result ≡ cancelled_row row }
{
    if row.state.is_live() {
        Row {
            state: RowState::Cancelled,
            ..row
        }
    } else {
        row
    }
}

/// Gives the row of a meter this state.
pub(crate) fn mark_row(rows: &mut [Row], meter: MeterId, state: RowState)
    ensures { rows.new ≡ with_state meter state rows.old }
{
    for row in rows.iter_mut() {
        *row = marked_row(*row, meter, state);
    }
}

/// Cancels the rows that are live.
pub(crate) fn cancel_rows(rows: &mut [Row])
    ensures { rows.new ≡ cancelled_rows rows.old }
{
    for row in rows.iter_mut() {
        *row = cancelled_row(*row);
    }
}
