//! The rows of a rollout, as a book and a list of meters have them.

ghost use Rattle.std.specs.Prelude.{◌≡◌, ◌++◌, ℕ, nat_eq, IfOk, OnOk};
ghost use Rattle.std.specs.HashMap.{get};
ghost use Rattle.fw_plan.specs.Waves.{own_state, row_in_wave, wave_rows};
ghost use Rattle.fw_plan.specs.Private.{after_row, after_rows, is_live_state};

use crate::gate::WaveRow;
use fw_book::{Book, Row, RowState};
use fw_names::MeterId;
use std::alloc::{AllocError, Global};
use std::collections::HashMap;

/// A meter of a list, and its wave.
#[derive(Clone, Copy)]
pub struct WaveMeter {
    /// The meter.
    pub meter: MeterId,
    /// Its wave.
    pub wave: u8,
}

/// Of each of these meters that has a row in the book, its wave and how far its own row is, in their order. That is its live row, if it has one,
/// and else the one in the campaign that was opened last.
pub fn wave_rows(
    alloc: Global,
    book: &Book,
    meters: &[WaveMeter],
) -> Result<Vec<WaveRow>, AllocError>
    ensures { IfOk result (λ r. r.items ≡ wave_rows book.now meters.now) }
{
    let states = own_states(alloc, book)?;
    let mut rows = Vec::new(alloc);
    for of in meters {
        let state = state_at(&states, of.meter.number());
        push_row(&mut rows, of.wave, state)?;
    }
    Ok(rows)
}

/// Appends the row of a meter of this wave, if it has one.
fn push_row(rows: &mut Vec<WaveRow>, wave: u8, state: Option<RowState>) -> Result<(), AllocError>
    ensures { OnOk result (rows.new.items ≡ rows.old.items ++ row_in_wave wave state) }
{
    if let Some(state) = state {
        rows.push(WaveRow { wave, state })?;
    }
    Ok(())
}

/// How far the row of a meter is, if one is noted.
fn state_at(states: &HashMap<u32, RowState>, meter: u32) -> Option<RowState>
    ensures { result ≡ get nat_eq states.now meter }
{
    states.get(&meter).copied()
}

/// How far the own row of each meter is that has one in the book.
fn own_states(alloc: Global, book: &Book) -> Result<HashMap<u32, RowState>, AllocError>
    ensures { IfOk result (λ states. (meter : ℕ) → get nat_eq states meter ≡ own_state book.now meter) }
{
    let mut states = HashMap::new(alloc);
    for (_serial, offer) in book.rows() {
        note_rows(&mut states, offer.rows())?;
    }
    Ok(states)
}

/// Notes how far these rows are, which stand in the book behind those that were noted.
fn note_rows(states: &mut HashMap<u32, RowState>, rows: &[Row]) -> Result<(), AllocError>
    ensures { OnOk result ((meter : ℕ) → get nat_eq states.new meter ≡ after_rows (get nat_eq states.old meter) rows.now meter) }
{
    for row in rows {
        note_row(states, *row)?;
    }
    Ok(())
}

/// Notes how far a row is, unless its meter has a live row.
fn note_row(states: &mut HashMap<u32, RowState>, row: Row) -> Result<(), AllocError>
    ensures { OnOk result ((meter : ℕ) → get nat_eq states.new meter ≡ after_row (get nat_eq states.old meter) row meter) }
{
    let meter = row.meter.number();
    if is_live_at(states, meter) {
        return Ok(());
    }
    states.insert(meter, row.state)?;
    Ok(())
}

/// Whether a live row of a meter is noted.
fn is_live_at(states: &HashMap<u32, RowState>, meter: u32) -> bool
    ensures { result ≡ is_live_state (get nat_eq states.now meter) }
{
    match state_at(states, meter) {
        Some(state) => state.is_live(),
        None => false,
    }
}
