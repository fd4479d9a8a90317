//! Meters in the bytes of stores.

ghost use Rattle.std.specs.Prelude.{◌≡◌, ◌≢◌, IfErr, IfOk, IsErrOf};
ghost use Rattle.fw_store.specs.Setup.{IsSetup};
ghost use Rattle.fw_store.specs.declared.version.HeaderVersion.TheVariants.{Two};
ghost use Rattle.fw_image.specs.Fresh.{fresh_meter};
ghost use Rattle.fw_image.specs.Meter.{reopened};
ghost use Rattle.fw_image.specs.declared.error.OpenError.TheVariants.{Fault};
ghost use Rattle.fw_evidence.specs.Stores.{HoldsMeter, HoldsNone, IsAtRest, IsNoMeter};
ghost use Rattle.fw_evidence.specs.Private.{refusal_of};

use crate::error::StoreRefusal;
use fw_image::OpenError;
use fw_meter::MeterCore;
use fw_store::{MemoryStore, SetupError};
use fw_stored::{RecoveryError, StoredError, recovered, store_of};
use std::alloc::Global;

/// The meter in the bytes of a store, as it lies there, with a header of either version. If a power cut left a header write half done, it is
/// taken back first, by the bytes of the undo file beside the store. A store without such a file is one with an empty one.
///
/// # Errors
///
/// The bytes hold no meter, and this says why. `OutOfMemory` says only that they are a store's, or that something is to be taken back.
pub fn meter_at_rest(
    alloc: Global,
    store: Vec<u8>,
    undo: &[u8],
) -> Result<MeterCore<MemoryStore>, StoreRefusal>
    ensures meter { IfOk result (λ meter. IsAtRest store.items undo.now meter.meter) }

    // As an audit begins with it.
    ensures rests { IfOk result (λ meter. reopened meter.meter ≡ meter.meter) }
    ensures refused { IfErr result (λ error. IsNoMeter store.items undo.now error) }
{
    let made = match recovered(store, undo) {
        Ok(made) => made,
        Err(RecoveryError::ForeignUndo) => return Err(StoreRefusal::ForeignUndo),
        Err(RecoveryError::OutOfMemory) => return Err(StoreRefusal::OutOfMemory),
    };
    meter_in(alloc, &made)
}

/// The meter in the bytes of a store in which nothing is half done.
fn meter_in(alloc: Global, bytes: &[u8]) -> Result<MeterCore<MemoryStore>, StoreRefusal>
    ensures meter { IfOk result (λ meter. HoldsMeter bytes.now meter.meter) }
    ensures rests { IfOk result (λ meter. reopened meter.meter ≡ meter.meter) }
    ensures refused { IfErr result (λ error. HoldsNone bytes.now error) }
{
    let store = match store_of(alloc, bytes) {
        Ok(store) => store,
        Err(StoredError::BadFile) => return Err(StoreRefusal::BadFile),
        Err(StoredError::OutOfMemory) => return Err(StoreRefusal::OutOfMemory),
    };
    match MeterCore::open_kept(store) {
        Ok(meter) => Ok(meter),
        Err((error, _store)) => Err(refusal_of(error)),
    }
}

/// Why a store in which no call fails is refused.
fn refusal_of(error: OpenError) -> StoreRefusal
    requires { error ≢ Fault }
    ensures { result ≡ refusal_of error }
{
    match error {
        OpenError::BadHeader => StoreRefusal::BadHeader,
        OpenError::BadImage => StoreRefusal::BadImage,
        OpenError::Fault => unreachable!(),
    }
}

/// A new meter: its store has room for images of `capacity` bytes, of blocks of `block_size` bytes, and it runs this image, with a factory's
/// name.
///
/// # Errors
///
/// `BadSetup` just if no store can be made with these, and otherwise `OutOfMemory` alone.
pub fn new_meter(
    alloc: Global,
    block_size: u32,
    capacity: u32,
    factory: &[u8],
) -> Result<MeterCore<MemoryStore>, SetupError>
    ensures new { IfOk result (λ meter. meter.meter ≡ fresh_meter Two block_size capacity factory.now) }
    ensures bad_setup { IsErrOf result SetupError.BadSetup → ¬ IsSetup Two block_size capacity factory.now }
    ensures memory { IsErrOf result SetupError.OutOfMemory → IsSetup Two block_size capacity factory.now }
{
    fw_image::laws::fresh_is_meter();
    let store = match MemoryStore::new(alloc, capacity, block_size, factory) {
        Ok(store) => store,
        Err(error) => return Err(error),
    };
    match MeterCore::open_kept(store) {
        Ok(meter) => Ok(meter),
        Err(_) => unreachable!(),
    }
}
