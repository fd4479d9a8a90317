//! The waves of a rollout, and which of its rows may be asked.

ghost use Rattle.std.specs.Prelude.{◌≡◌, ◌↔◌, false, All, Contains, IsTrue};
ghost use Rattle.fw_book.specs.Rows.{is_live};
ghost use Rattle.fw_plan.specs.declared.gate.WaveRow.{WaveRow as TheRow};
ghost use Rattle.fw_plan.specs.Waves.{Asks, IsFirst, IsGate, MayAsk, failed_before, rows_before};
ghost use Rattle.fw_plan.specs.Private.{next_after};

use crate::threshold::MaxFailed;
use fw_book::RowState;

/// A row of a rollout: the wave of its meter, and how far it is.
#[derive(Clone, Copy)]
pub struct WaveRow {
    /// The wave of the meter. The rows of wave 0 are asked first.
    pub wave: u8,
    /// How far the row is.
    pub state: RowState,
}

/// Why no row is asked though some are live.
#[derive(Clone, Copy, Debug)]
pub struct TooManyFailed {
    /// The wave that doesn't begin.
    pub wave: u8,
    /// How many rows of the waves before it failed.
    pub failed: u64,
    /// How many rows these waves have.
    pub rows: u64,
}

/// How far the waves of a rollout are.
#[derive(Clone, Copy, Debug)]
pub enum Gate {
    /// All waves before this one are over, and its live rows may be asked.
    Open(u8),
    /// All waves before the next one are over, and too many of their rows failed.
    TooManyFailed(TooManyFailed),
    /// No row is live.
    Over,
}

impl Gate {
    /// Whether a row of the rollout may be asked.
    pub fn may_ask(self, row: WaveRow) -> bool
        ensures { IsTrue result ↔ Asks self row }
    {
        match self {
            Gate::Open(wave) => row.wave == wave && row.state.is_live(),
            Gate::TooManyFailed(_) | Gate::Over => false,
        }
    }
}

/// How far the waves of these rows are, where so many may fail. A row that was cancelled has ended and didn't fail.
pub fn gate_of(rows: &[WaveRow], max_failed: MaxFailed) -> Gate
    ensures gate { IsGate max_failed rows.now result }

    // The gate lets a row be asked exactly if its wave's time has come.
    ensures asks { (row : TheRow) → Contains rows.now row → Asks result row ↔ MayAsk max_failed rows.now row }
{
    gate_at(rows, max_failed, next_wave(rows))
}

/// The same, where this is the first wave with a live row.
fn gate_at(rows: &[WaveRow], max_failed: MaxFailed, next: Option<u8>) -> Gate
    requires { IsFirst rows.now next }
    ensures { IsGate max_failed rows.now result }
{
    let Some(wave) = next else {
        return Gate::Over;
    };
    let failed = failed_before(rows, wave);
    let of = rows_before(rows, wave);
    if max_failed.admits(failed, of) {
        Gate::Open(wave)
    } else {
        Gate::TooManyFailed(TooManyFailed {
            wave,
            failed,
            rows: of,
        })
    }
}

/// Whether a wave is over: each of its rows has ended.
pub fn is_over(rows: &[WaveRow], wave: u8) -> bool
    ensures { IsTrue result ↔ All (λ (row : TheRow). row.wave ≡ wave → is_live row.state ≡ false) rows.now }
{
    rows.iter()
        .all(|row| row.wave != wave || !row.state.is_live())
}

/// The first wave with a live row.
fn next_wave(rows: &[WaveRow]) -> Option<u8>
    ensures { IsFirst rows.now result }
{
    let mut next = None;
    for row in rows {
        next = next_after(next, *row);
    }
    next
}

/// The first of these waves with a live row, with one row more.
fn next_after(next: Option<u8>, row: WaveRow) -> Option<u8>
    ensures { result ≡ next_after next row }
{
    match next {
        Some(wave) if wave <= row.wave => next,
        _ if row.state.is_live() => Some(row.wave),
        _ => next,
    }
}

/// How many rows the waves before this one have.
fn rows_before(rows: &[WaveRow], wave: u8) -> u64
    ensures { result ≡ rows_before wave rows.now }
{
    rows.iter().filter(|row| row.wave < wave).count() as u64
}

/// How many of them failed.
fn failed_before(rows: &[WaveRow], wave: u8) -> u64
    ensures { result ≡ failed_before wave rows.now }
{
    rows.iter()
        .filter(|row| row.wave < wave && row.state == RowState::Failed)
        .count() as u64
}
