//! Lists of meters, each number and each address once, each meter with its wave.

ghost use Rattle.std.specs.Prelude.{◌≡◌, ◌++◌, ◌∷◌, [], IfOk, MatchBool, OnErr, OnOk};
ghost use Rattle.fw_rollout.specs.Daemon.{IsList};
ghost use Rattle.fw_host.specs.Waves.{listed_in, up_to_wave, wave_meters};

use fw_plan::WaveMeter;
use fw_rollout::{Listed, MeterList};
use std::alloc::{AllocError, Global};
use std::marker::Model;

/// A meter of a list, its address, and its wave.
#[derive(Clone, Copy)]
pub struct Planned {
    /// The meter and its address.
    pub at: Listed,
    /// Its wave. The rows of wave 0 are asked first.
    pub wave: u8,
}

/// The meters of a list, each with its wave. Contracts see the list of them.
#[derive(Drop)]
pub struct WaveList {
    planned: Vec<Planned>,
    meters: MeterList,
}

impl Model for WaveList {
    ghost use Rattle.std.specs.Prelude.{◌≡◌, List};
    ghost use Rattle.fw_host.specs.declared.wave_list.Planned as declared;
    ghost use Rattle.fw_host.specs.Waves.{listed_in};

    ghost Value = { List declared.Planned };

    ghost view = { λ l. l.planned.items };

    ghost invariant = { λ l. l.meters ≡ listed_in l.planned.items };
}

impl WaveList {
    /// No meter. It keeps the allocator, and takes no memory.
    pub fn none(alloc: Global) -> WaveList
        ensures { result ≡ [] }
    {
        WaveList {
            planned: Vec::new(alloc),
            meters: MeterList::none(alloc),
        }
    }

    /// Adds a meter at the end, if its number and its address are new, and returns whether they are.
    ///
    /// # Errors
    ///
    /// `AllocError` if memory was refused. The list is as it was then.
    pub fn add(&mut self, planned: Planned) -> Result<bool, AllocError>
        ensures added { IfOk result (λ added. MatchBool added (self.new ≡ self.old ++ planned ∷ [])
            ((self.new ≡ self.old) × ¬ IsList (listed_in (self.old ++ planned ∷ [])))) }
        ensures same { OnErr result (self.new ≡ self.old) }
    {
        self.planned.reserve(1)?;
        let is_new = self.meters.add(planned.at)?;
        if is_new {
            self.planned.push(planned)?;
            Ok(true)
        } else {
            Ok(false)
        }
    }

    /// The meters and their addresses, in the order in which they were added.
    pub fn meters(&self) -> &MeterList
        ensures meters { result.now ≡ listed_in self.now }
        ensures list { IsList (listed_in self.now) }
    {
        // For its clause alone: each number and each address stands once.
        let _list = self.meters.meters();
        &self.meters
    }

    /// The meters of this wave and of those before it, in their order. The rows of the earlier waves have ended while this one is led, but their
    /// late answers are no stranger's.
    ///
    /// # Errors
    ///
    /// `AllocError` if memory was refused.
    pub fn up_to(&self, alloc: Global, wave: u8) -> Result<MeterList, AllocError>
        ensures { IfOk result (λ meters. meters ≡ up_to_wave wave self.now) }
    {
        // For its clause alone: each number and each address stands once.
        let _meters = self.meters();
        meters_up_to(alloc, &self.planned, wave)
    }

    /// Each meter with its wave.
    ///
    /// # Errors
    ///
    /// `AllocError` if memory was refused.
    pub fn waves(&self, alloc: Global) -> Result<Vec<WaveMeter>, AllocError>
        ensures { IfOk result (λ waves. waves.items ≡ wave_meters self.now) }
    {
        waves_of(alloc, &self.planned)
    }
}

/// The meters of a list that are of this wave or of one before it.
fn meters_up_to(alloc: Global, list: &[Planned], wave: u8) -> Result<MeterList, AllocError>
    requires { IsList (listed_in list.now) }
    ensures { IfOk result (λ meters. meters ≡ up_to_wave wave list.now) }
{
    let mut meters = MeterList::none(alloc);
    for planned in list {
        add_up_to(&mut meters, wave, *planned)?;
    }
    Ok(meters)
}

/// Adds a meter, if it is of this wave or of one before it.
fn add_up_to(meters: &mut MeterList, wave: u8, planned: Planned) -> Result<(), AllocError>
    requires { IsList (meters.old ++ up_to_wave wave (planned ∷ [])) }
    ensures { OnOk result (meters.new ≡ meters.old ++ up_to_wave wave (planned ∷ [])) }
{
    if wave < planned.wave {
        return Ok(());
    }
    meters.add(planned.at)?;
    Ok(())
}

/// Each meter of a list with its wave.
fn waves_of(alloc: Global, list: &[Planned]) -> Result<Vec<WaveMeter>, AllocError>
    ensures { IfOk result (λ waves. waves.items ≡ wave_meters list.now) }
{
    list.iter()
        .map(|planned| WaveMeter {
            meter: planned.at.meter,
            wave: planned.wave,
        })
        .collect(alloc)
}
