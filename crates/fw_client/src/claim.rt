//! What a meter said of the image that it runs.

ghost use Rattle.std.specs.Prelude.{◌≡◌};

use fw_names::{ImageName, MeterId};
use std::marker::Model;

/// A meter answered that it runs the image of this name. A claim is made only by `Client::hear`, from the response to a GET
/// of the active firmware identifier.
#[derive(Clone, Copy, Debug)]
pub struct ActiveClaim {
    meter: MeterId,
    name: ImageName,
}

// Contracts see the two parts.
impl Model for ActiveClaim {
    ghost use Rattle.fw_client.specs.Claim.{Claim};

    ghost Value = { Claim };

    ghost view = { λ c. record { meter = c.meter; name = c.name } };

    ghost inverse = { λ c. record { meter = c.meter; name = c.name } };
}

impl ActiveClaim {
    /// The claim of a meter.
    pub(crate) fn new(meter: MeterId, name: ImageName) -> ActiveClaim
        ensures { result ≡ record { meter = meter; name = name } }
    {
        ActiveClaim { meter, name }
    }

    /// Which meter said so.
    pub fn meter(&self) -> MeterId
        ensures { result ≡ self.now.meter }
    {
        self.meter
    }

    /// The name of the image that it runs.
    pub fn name(&self) -> ImageName
        ensures { result ≡ self.now.name }
    {
        self.name
    }
}
