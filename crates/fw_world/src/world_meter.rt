//! The meters of a world, which stop and start again.

ghost use Rattle.std.specs.Prelude.{◌≡◌, true, None, IsTrue, IsErrOf, IfSome, IfOk, OnOk, OnErr, length};
ghost use Rattle.fw_image.specs.Fits.{IsFit};
ghost use Rattle.fw_image.specs.Fresh.{fresh_meter};
ghost use Rattle.fw_image.specs.Meter.{Meter, restarted, IsTrusted};
ghost use Rattle.fw_image.specs.Step.{Turn};
ghost use Rattle.fw_store.specs.Fresh.{fresh_device};
ghost use Rattle.fw_store.specs.Memory.{device_of, capacity_of, fuse_of};
ghost use Rattle.fw_store.specs.Setup.{IsSetup};
ghost use Rattle.fw_store.specs.declared.error.SetupError.TheVariants as not_made;
ghost use Rattle.fw_meter.specs.Handling.{AsksForResponse, Handles, reply_bytes};
ghost use Rattle.fw_meter.specs.Stopping.{StopsAfter};
ghost use Rattle.fw_world.specs.State.{restarted_within};
ghost use Rattle.fw_world.specs.Private.{IsSound, HasRoom, IsRunning, switched_name};
ghost use Rattle.fw_world.specs.Refusals.{HoldsVerified, MeterMayWant};

use crate::error::SetupError;
use fw_meter::{MeterCore, OutOfMemory};
use fw_names::ImageName;
use fw_store::{HeaderVersion, MemoryStore};
use std::alloc::Global;
use std::marker::Model;

/// An image that a meter switched to.
#[derive(Drop)]
pub(crate) struct Switched {
    pub(crate) name: ImageName,
    pub(crate) bytes: Vec<u8>,
}

impl Model for Switched {
    ghost use Rattle.fw_image.specs.Meter.{Image};

    ghost Value = { Image };

    ghost view = { λ s. record { name = s.name; bytes = s.bytes.items } };
}

/// What a meter did with a datagram.
#[derive(Drop)]
pub(crate) struct Served {
    /// The datagram to send back to where the other came from.
    pub(crate) reply: Option<Vec<u8>>,
    /// The image that runs from now on, where the datagram switched to it.
    pub(crate) switched: Option<Switched>,
}

/// A meter over a store in memory, which fails only while the meter is being stopped.
#[derive(Drop)]
pub(crate) struct WorldMeter {
    /// It moves out and back while it starts again.
    core: Option<MeterCore<MemoryStore>>,
}

impl Model for WorldMeter {
    ghost use Rattle.std.specs.Coded.{codes};
    ghost use Rattle.fw_image.specs.Meter.{Meter, cells_code};
    ghost use Rattle.fw_world.specs.Private.{IsSeated, meter_in};

    ghost Value = { Meter };

    ghost coded = { Prim.hlevel (codes, cells_code) };

    ghost view = { λ s. meter_in s.core };

    ghost invariant = { λ s. IsSeated s.core };
}

impl WorldMeter {
    /// A new meter, which runs its factory image, over a store with a header of this version, which is kept.
    pub(crate) fn new(
        alloc: Global,
        version: HeaderVersion,
        block_size: u32,
        capacity: u32,
        factory: &[u8],
    ) -> Result<WorldMeter, SetupError>
        ensures fresh { IfOk result (λ meter. meter ≡ fresh_meter version block_size capacity factory.now) }
        ensures setup { OnOk result (IsSetup version block_size capacity factory.now) }
        ensures bad_setup { IsErrOf result SetupError.BadSetup → ¬ IsSetup version block_size capacity factory.now }
    {
        fw_image::laws::fresh_is_meter();
        let store = match new_store(alloc, version, capacity, block_size, factory) {
            Ok(store) => store,
            Err(fw_store::SetupError::BadSetup) => return Err(SetupError::BadSetup),
            Err(fw_store::SetupError::OutOfMemory) => return Err(SetupError::OutOfMemory),
        };
        match MeterCore::open_kept(store) {
            Ok(core) => Ok(WorldMeter { core: Some(core) }),
            Err(_) => unreachable!(),
        }
    }

    /// This meter, in whose store no fuse is set.
    pub(crate) fn of(core: MeterCore<MemoryStore>) -> WorldMeter
        requires unfused { IsTrue core.sound }
        ensures { result ≡ core.meter }
    {
        // For its clauses alone: a store in memory is honest.
        let _view = core.view();
        WorldMeter { core: Some(core) }
    }

    /// The meter.
    pub(crate) fn into_core(self) -> MeterCore<MemoryStore>
        ensures meter { result.meter ≡ self }
        ensures sound { IsSound result }
    {
        match self.core {
            Some(core) => core,
            None => unreachable!(),
        }
    }

    /// The meter.
    pub(crate) fn core(&self) -> &MeterCore<MemoryStore>
        ensures meter { result.now.meter ≡ self.now }
        ensures sound { IsSound result.now }
    {
        match &self.core {
            Some(core) => core,
            None => unreachable!(),
        }
    }

    /// Handles a datagram whole. All memory is taken before the meter is changed.
    pub(crate) fn handle(&mut self, alloc: Global, datagram: &[u8]) -> Result<Served, OutOfMemory>
        ensures handled { IfOk result (λ s. Handles true IsTrue self.old datagram.now (reply_bytes s.reply) (switched_name s.switched) self.new) }
        ensures switched { IfOk result (λ s. IsRunning s.switched self.new) }
        ensures asked { IfOk result (λ s. IfSome s.reply (λ _. AsksForResponse datagram.now)) }
        ensures held { IfOk result (λ s. IfSome s.switched (λ _. HoldsVerified self.old)) }
        ensures same { OnErr result (self.new ≡ self.old) }
        ensures memory { OnErr result (MeterMayWant self.old datagram.now) }
    {
        fw_meter::laws::faultless();
        fw_image::laws::joined_size();
        match &mut self.core {
            Some(core) => {
                let room = room_for(alloc, core)?;
                let handled = core.handle(alloc, datagram)?;
                Ok(Served {
                    reply: handled.reply,
                    switched: running(core, handled.activated, room),
                })
            }
            None => unreachable!(),
        }
    }

    /// Goes on with what it verifies.
    pub(crate) fn turn(&mut self)
        ensures { Turn true self.old true self.new }
    {
        match &mut self.core {
            Some(core) => core.turn(),
            None => unreachable!(),
        }
    }

    /// Starts again.
    pub(crate) fn restart(&mut self)
        ensures { self.new ≡ restarted self.old }
    {
        let Some(core) = self.core.take() else {
            unreachable!()
        };
        match core.restart() {
            Ok(core) => self.core = Some(core),
            Err(_) => unreachable!(),
        }
    }

    /// Starts again and stops in it, after `calls` calls of its store. Then it is opened with the header that is there.
    pub(crate) fn stop_restart(&mut self, calls: u64, torn: u8)
        ensures { self.new ≡ restarted_within calls self.old }
    {
        fw_image::laws::one_meter();
        let Some(mut core) = self.core.take() else {
            unreachable!()
        };
        core.fuse(calls, torn);
        match core.restart() {
            Ok(mut core) => {
                core.unfuse();
                self.core = Some(core);
            }
            Err((_, mut store)) => {
                store.unfuse();
                match MeterCore::open_kept(store) {
                    Ok(core) => self.core = Some(core),
                    Err(_) => unreachable!(),
                }
            }
        }
    }

    /// Stops while it handles a datagram, after `calls` calls of its store, and starts again. Returns the image that it switched to
    /// before it stopped. All memory is taken before the meter is changed.
    pub(crate) fn stop(
        &mut self,
        alloc: Global,
        datagram: &[u8],
        calls: u64,
        torn: u8,
    ) -> Result<Option<Switched>, OutOfMemory>
        ensures stopped { IfOk result (λ switched. (after : Meter)
            × StopsAfter calls torn self.old datagram.now (switched_name switched) after × (self.new ≡ restarted after)) }
        ensures switched { IfOk result (λ switched. IsRunning switched self.new) }
        ensures held { IfOk result (λ switched. IfSome switched (λ _. HoldsVerified self.old)) }
        ensures same { OnErr result (self.new ≡ self.old) }
        ensures memory { OnErr result (MeterMayWant self.old datagram.now) }
    {
        let switched = self.cut(alloc, datagram, calls, torn)?;
        self.restart();
        Ok(switched)
    }

    /// Handles a datagram as far as the first `calls` calls of the store go.
    fn cut(
        &mut self,
        alloc: Global,
        datagram: &[u8],
        calls: u64,
        torn: u8,
    ) -> Result<Option<Switched>, OutOfMemory>
        ensures stopped { IfOk result (λ switched. StopsAfter calls torn self.old datagram.now (switched_name switched) self.new) }
        ensures switched { IfOk result (λ switched. IsRunning switched self.new) }
        ensures held { IfOk result (λ switched. IfSome switched (λ _. HoldsVerified self.old)) }
        ensures same { OnErr result (self.new ≡ self.old) }
        ensures memory { OnErr result (MeterMayWant self.old datagram.now) }
    {
        fw_image::laws::joined_size();
        match &mut self.core {
            Some(core) => {
                let room = room_for(alloc, core)?;
                core.fuse(calls, torn);
                let handled = core.handle(alloc, datagram);
                core.unfuse();
                Ok(running(core, handled?.activated, room))
            }
            None => unreachable!(),
        }
    }
}

/// A new store with a header of this version.
fn new_store(
    alloc: Global,
    version: HeaderVersion,
    capacity: u32,
    block_size: u32,
    factory: &[u8],
) -> Result<MemoryStore, fw_store::SetupError>
    ensures fresh { IfOk result (λ m. device_of m ≡ fresh_device version block_size capacity factory.now) }
    ensures size { IfOk result (λ m. capacity_of m ≡ capacity) }
    ensures unfused { IfOk result (λ m. fuse_of m ≡ None) }
    ensures setup { OnOk result (IsSetup version block_size capacity factory.now) }
    ensures bad_setup { IsErrOf result not_made.BadSetup → ¬ IsSetup version block_size capacity factory.now }
{
    match version {
        HeaderVersion::One => MemoryStore::new_old(alloc, capacity, block_size, factory),
        HeaderVersion::Two => MemoryStore::new(alloc, capacity, block_size, factory),
    }
}

/// Room for the image that a meter may switch to: as many bytes as it has if it is verified, and none if not.
fn room_for(alloc: Global, core: &MeterCore<MemoryStore>) -> Result<Vec<u8>, OutOfMemory>
    ensures room { IfOk result (λ room. HasRoom core.now.meter room.items) }
    ensures fits { IsFit core.now.meter }
    ensures trusted { IsTrue core.now.honest → IsTrusted core.now.meter }
    ensures memory { OnErr result (HoldsVerified core.now.meter) }
{
    let size = core.verified_size();
    if size == 0 {
        return Ok(Vec::new(alloc));
    }
    Ok(vec![in alloc; 0; size as usize]?)
}

/// The image that a meter switched to, if it did, in room of its size.
fn running(
    core: &mut MeterCore<MemoryStore>,
    activated: Option<ImageName>,
    mut room: Vec<u8>,
) -> Option<Switched>
    requires sound { IsSound core.old }
    requires room { IfSome activated (λ name. length room.items ≡ length core.old.meter.running.bytes) }
    ensures name { switched_name result ≡ activated }
    ensures bytes { IfSome result (λ image. image.bytes ≡ core.old.meter.running.bytes) }
    ensures meter { core.new.meter ≡ core.old.meter }
    ensures sound { IsSound core.new }
{
    let name = activated?;
    match core.read_running(&mut room) {
        Ok(()) => Some(Switched { name, bytes: room }),
        Err(_) => unreachable!(),
    }
}
