//! The head ends and meters of a new world.

ghost use Rattle.std.specs.Prelude.{◌≡◌, IfOk, OnOk, OnErr, IfErr, map, All};
ghost use Rattle.fw_world.specs.Setup.{head_entry, meter_entry, HasWidth, IsStored};
ghost use Rattle.fw_world.specs.declared.error.SetupError.TheVariants.{OutOfMemory};

use crate::error::SetupError;
use crate::heads::Heads;
use crate::meters::{Meters, NumberedMeter};
use crate::setup::{HeadSetup, MeterSetup, width_of};
use crate::world_meter::WorldMeter;
use fw_head::HeadCore;
use std::alloc::Global;

/// New head ends, with their numbers.
pub(crate) fn heads_of(alloc: Global, heads: &[HeadSetup]) -> Result<Heads, SetupError>
    requires widths { All HasWidth heads.now }
    ensures made { IfOk result (λ made. made ≡ map head_entry heads.now) }
    ensures memory { IfErr result (λ e. e ≡ OutOfMemory) }
{
    let mut made = Vec::with_capacity(alloc, heads.len())?;
    for head in heads {
        let Some(width) = width_of(head.width) else {
            unreachable!()
        };
        let core = HeadCore::new(alloc, head.head, width);
        if made.push(core).is_err() {
            return Err(SetupError::OutOfMemory);
        }
    }
    Ok(Heads::new(made))
}

/// New meters, with their numbers.
pub(crate) fn meters_of(alloc: Global, meters: &[MeterSetup]) -> Result<Meters, SetupError>
    requires stored { All IsStored meters.now }
    ensures made { IfOk result (λ made. made ≡ map meter_entry meters.now) }
    ensures memory { IfErr result (λ e. e ≡ OutOfMemory) }
{
    let mut made = Vec::with_capacity(alloc, meters.len())?;
    for meter in meters {
        let seat = WorldMeter::new(
            alloc,
            meter.version(),
            meter.block_size,
            meter.capacity,
            &meter.factory,
        )?;
        if made.push(NumberedMeter::seated(meter.meter, seat)).is_err() {
            return Err(SetupError::OutOfMemory);
        }
    }
    Ok(Meters::new(made))
}
