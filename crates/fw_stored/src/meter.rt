//! Meters over stores in memory: stopped, and started twice.

ghost use Rattle.std.specs.Prelude.{◌≡◌, IfOk, IsTrue, None};
ghost use Rattle.fw_image.specs.Meter.{Meter, IsTrusted, migrated, reopened, restarted};
ghost use Rattle.fw_image.specs.Stored.{IsMeterOf};
ghost use Rattle.fw_store.specs.Memory.{capacity_of, device_of, fuse_of};
ghost use Rattle.fw_stored.specs.Stored.{IsSound};

use fw_meter::MeterCore;
use fw_store::MemoryStore;
use std::alloc::{AllocError, Global};

/// The store that a meter leaves which is stopped between two datagrams. It holds the meter, except that no verification goes on: of one
/// the goal is left, which is received, with all its blocks. No fuse is set.
pub fn into_store(meter: MeterCore<MemoryStore>) -> MemoryStore
    ensures meter { IsMeterOf (capacity_of result) (device_of result) (reopened meter.meter) }
    ensures trusted { IsTrusted (reopened meter.meter) }
    ensures size { capacity_of result ≡ meter.meter.capacity }
    ensures unfused { fuse_of result ≡ None }
{
    let mut store = meter.into_store();
    store.unfuse();
    store
}

/// The meter in the store that a stopped meter leaves, as it lies there: its header stays in its version.
pub fn at_rest(meter: MeterCore<MemoryStore>) -> MeterCore<MemoryStore>
    ensures meter { result.meter ≡ reopened meter.meter }
    ensures sound { IsSound result }
{
    match MeterCore::open_kept(into_store(meter)) {
        Ok(kept) => kept,
        Err(_) => unreachable!(),
    }
}

/// A meter that is stopped, and started again. In place of `MeterCore::restart` it needs no store that doesn't fail: here none does.
pub fn started_again(meter: MeterCore<MemoryStore>) -> MeterCore<MemoryStore>
    ensures meter { result.meter ≡ restarted meter.meter }
    ensures sound { IsSound result }
{
    started(into_store(meter))
}

/// A meter that is stopped, and started again, twice from the same store: two meters, each over a store of its own.
///
/// # Errors
///
/// `AllocError` if memory was refused.
pub fn started_twice(
    alloc: Global,
    meter: MeterCore<MemoryStore>,
) -> Result<(MeterCore<MemoryStore>, MeterCore<MemoryStore>), AllocError>
    ensures first { IfOk result (λ both. both.0.meter ≡ restarted meter.meter) }
    ensures second { IfOk result (λ both. both.1.meter ≡ restarted meter.meter) }
    ensures first_sound { IfOk result (λ both. IsSound both.0) }
    ensures second_sound { IfOk result (λ both. IsSound both.1) }
{
    let store = into_store(meter);
    let copy = store.copy(alloc)?;
    Ok((started(store), started(copy)))
}

/// The meter in a store in which no fuse is set, once it is opened.
fn started(store: MemoryStore) -> MeterCore<MemoryStore>
    requires unfused { fuse_of store ≡ None }
    requires there { (meter : Meter) × IsMeterOf (capacity_of store) (device_of store) meter × IsTrusted meter }
    ensures meter { (meter : Meter) → IsMeterOf (capacity_of store) (device_of store) meter → IsTrusted meter
        → result.meter ≡ migrated meter }
    ensures sound { IsSound result }
{
    match MeterCore::open_store(store) {
        Ok(meter) => meter,
        Err(_) => unreachable!(),
    }
}
