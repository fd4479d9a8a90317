//! Meters that were audited.

ghost use Rattle.std.specs.Prelude.{◌≡◌, ◌≤◌, ◌↔◌, Contains, IfOk, IsTrue, OnErr, length};
ghost use Rattle.fw_fleet_audit.specs.Rows.{HasSwitchedTo, audited_of, names_of};

use fw_audit::Switched;
use fw_names::{ImageName, MeterId};
use std::alloc::{AllocError, Global};
use std::marker::Model;

/// A meter whose log was audited: what a book's rows are compared with. It has no bytes of images.
#[derive(Drop)]
pub struct AuditedMeter {
    /// Which meter.
    pub meter: MeterId,
    /// The names of the images that it switched to, in order.
    pub names: Vec<ImageName>,
}

impl Model for AuditedMeter {
    ghost use Rattle.fw_fleet_audit.specs.Rows.{Audited};

    ghost Value = { Audited };

    ghost view = { λ a. record { meter = a.meter; names = a.names.items } };
}

impl AuditedMeter {
    /// A meter that switched to these images.
    ///
    /// # Errors
    ///
    /// `AllocError` if memory was refused, which is wanted only if there are images.
    pub fn new(
        alloc: Global,
        meter: MeterId,
        images: &[Switched],
    ) -> Result<AuditedMeter, AllocError>
        ensures made { IfOk result (λ made. made ≡ audited_of meter (names_of images.now)) }
        ensures memory { OnErr result (1 ≤ length images.now) }
    {
        let mut names = Vec::with_capacity(alloc, images.len())?;
        for image in images {
            names.push(image.name())?;
        }
        Ok(AuditedMeter { meter, names })
    }

    /// Its number.
    pub(crate) fn number(&self) -> MeterId
        ensures { result ≡ self.now.meter }
    {
        self.meter
    }

    /// Whether it is the meter of this number, and switched to an image of this name.
    pub(crate) fn switched_to(&self, meter: MeterId, name: ImageName) -> bool
        ensures { IsTrue result ↔ HasSwitchedTo meter name self.now }
    {
        self.meter == meter && is_one_of(&self.names, name)
    }
}

/// Whether a name is among these.
fn is_one_of(names: &[ImageName], name: ImageName) -> bool
    ensures { IsTrue result ↔ Contains names.now name }
{
    names.contains(&name)
}
