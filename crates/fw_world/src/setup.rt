//! What a world is made with.

ghost use Rattle.std.specs.Prelude.{◌≡◌, ◌↔◌, ◌==◌, IsTrue, SomeIff};
ghost use Rattle.std.specs.List.{list_any};
ghost use Rattle.fw_blocks.specs.Width.{IsWidth};
ghost use Rattle.fw_world.specs.Setup.{IsSetup, IsStored, number_of_head, number_of_meter, repeats, version_of};

use fw_blocks::Width;
use fw_book::MAX_METERS;
use fw_names::{HeadId, MeterId};
use fw_store::{HeaderVersion, is_setup};

/// The most head ends of a world.
pub const MAX_HEADS: usize = 16;

/// A head end of a world.
#[derive(Clone, Copy, Drop)]
pub struct HeadSetup {
    /// Its number.
    pub head: HeadId,
    /// How many blocks it sends at a time, 1 to 15.
    pub width: u32,
}

/// A meter of a world.
#[derive(Drop)]
pub struct MeterSetup {
    /// Its number.
    pub meter: MeterId,
    /// The bytes of a block, 1 to 1,024.
    pub block_size: u32,
    /// The bytes of a slot of its store, 1 to 16,777,216, and of an old one 1 to 4,194,304.
    pub capacity: u32,
    /// The image that it is made with, of 1 to `capacity` bytes.
    pub factory: Vec<u8>,
    /// Whether its store is an old one, with a header of version 1, until it starts again.
    pub old: bool,
}

impl MeterSetup {
    /// The version of the header that its store is made with.
    pub(crate) fn version(&self) -> HeaderVersion
        ensures { result ≡ version_of self.now }
    {
        if self.old {
            HeaderVersion::One
        } else {
            HeaderVersion::Two
        }
    }

    /// Whether a store can be made for it.
    fn is_stored(&self) -> bool
        ensures { IsTrue result ↔ IsStored self.now }
    {
        is_setup(
            self.version(),
            self.capacity,
            self.block_size,
            &self.factory,
        )
    }
}

/// What a world is made with: 1 to 16 head ends and 1 to 256 meters, as many as a campaign can have, in their order. The numbers of the
/// head ends are distinct, and so are those of the meters.
#[derive(Drop)]
pub struct Setup {
    pub heads: Vec<HeadSetup>,
    pub meters: Vec<MeterSetup>,
}

impl Setup {
    /// Whether a world can be made so.
    pub(crate) fn is_valid(&self) -> bool
        ensures { IsTrue result ↔ IsSetup self.now }
    {
        let heads = self.heads.as_slice();
        let meters = self.meters.as_slice();
        (1..=MAX_HEADS).contains(&heads.len())
            && (1..=MAX_METERS).contains(&meters.len())
            && heads.iter().all(|head| width_of(head.width).is_some())
            && !heads_repeat(heads)
            && !meters_repeat(meters)
            && meters.iter().all(|meter| meter.is_stored())
    }
}

/// The width of this number, and `None` for 0 and above 15.
pub(crate) fn width_of(number: u32) -> Option<Width>
    ensures { SomeIff result (IsWidth number) number }
{
    Width::new(u8::try_from(number).ok()?)
}

/// Whether two head ends have one number.
fn heads_repeat(heads: &[HeadSetup]) -> bool
    ensures { result ≡ repeats number_of_head heads.now }
{
    let mut rest = heads;
    while let Some((first, others)) = rest.split_first() {
        if has_head(others, first.head) {
            return true;
        }
        rest = others;
    }
    false
}

/// Whether two meters have one number.
fn meters_repeat(meters: &[MeterSetup]) -> bool
    ensures { result ≡ repeats number_of_meter meters.now }
{
    let mut rest = meters;
    while let Some((first, others)) = rest.split_first() {
        if has_meter(others, first.meter) {
            return true;
        }
        rest = others;
    }
    false
}

/// Whether a head end has this number.
fn has_head(heads: &[HeadSetup], number: HeadId) -> bool
    ensures { result ≡ list_any (λ head. number_of_head head == number) heads.now }
{
    heads.iter().any(|head| head.head == number)
}

/// Whether a meter has this number.
fn has_meter(meters: &[MeterSetup], number: MeterId) -> bool
    ensures { result ≡ list_any (λ meter. number_of_meter meter == number) meters.now }
{
    meters.iter().any(|meter| meter.meter == number)
}
