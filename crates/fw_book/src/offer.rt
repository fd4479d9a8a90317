//! What a campaign offers, and its rows.

ghost use Rattle.std.specs.Prelude.{◌≡◌, ◌<◌, ◌^◌, IfOk, IfErr, IfSome};
ghost use Rattle.fw_names.specs.Name.{name_of, IsOpened};
ghost use Rattle.fw_book.specs.Rows.{state_of, is_live_in, has_live, with_state, cancelled_rows};

use crate::error::BookError;
use crate::image::Image;
use crate::row::{Row, RowState, cancel_rows, mark_row};
use fw_names::{CampaignId, ImageName, MeterId};
use std::alloc::Global;
use std::marker::Model;
use std::sync::Arc;

/// The most meters that a campaign can have (own limit of this profile).
pub const MAX_METERS: usize = 256;

/// The image of a campaign with its release, and a row for each of its meters in the order given. Campaigns of one book that offer
/// the same image share one copy of it.
#[derive(Drop)]
pub struct Offer {
    release: u32,
    image: Arc<Image>,
    rows: Vec<Row>,
}

impl Model for Offer {
    ghost use Rattle.std.specs.Arc.{arc_value};
    ghost use Rattle.fw_book.specs.Contents.{Offered};

    ghost Value = { Offered };

    ghost view = { λ o. record { release = o.release; image = arc_value o.image; rows = o.rows.items } };
}

impl Offer {
    ghost use Rattle.fw_book.specs.Contents.{Offered};

    /// What a campaign offers, with a copy of the image, or with that of an earlier offer, which is neither copied nor digested.
    pub(crate) fn new(
        alloc: Global,
        release: u32,
        image: &[u8],
        rows: Vec<Row>,
        earlier: Option<&Offer>,
    ) -> Result<Offer, BookError>
        requires same { IfSome earlier (λ offer. offer.now.image ≡ image.now) }
        ensures offer { IfOk result (λ offer. offer ≡ record { release = release; image = image.now; rows = rows.items }) }
        ensures memory { IfErr result (λ e. e ≡ BookError.OutOfMemory) }
    {
        let image = match earlier {
            Some(offer) => Arc::try_clone(&offer.image)?,
            None => Image::shared(alloc, image)?,
        };
        Ok(Offer {
            release,
            image,
            rows,
        })
    }

    /// The release of the image, and 0 if it has none.
    pub fn release(&self) -> u32
        ensures value { result ≡ self.now.release }
        ensures fits { self.now.release < 2 ^ 32 }
    {
        self.release
    }

    /// The bytes of the image.
    pub fn image(&self) -> &[u8]
        ensures { result.now ≡ self.now.image }
    {
        self.image.bytes()
    }

    /// The name of the image, where this campaign offers it, which a head end opened. No byte of the image is read.
    pub fn name(&self, campaign: CampaignId) -> ImageName
        requires { IsOpened campaign }
        ensures { result ≡ name_of campaign self.now.release self.now.image }
    {
        ImageName {
            campaign,
            release: self.release,
            digest: self.image.digest(),
        }
    }

    /// A row for each meter, in the order given.
    pub fn rows(&self) -> &[Row]
        ensures { result.now ≡ self.now.rows }
    {
        self.rows.as_slice()
    }

    /// The state of a meter, and `None` if the campaign doesn't have it. The rows are looked through.
    pub fn state(&self, meter: MeterId) -> Option<RowState>
        ensures { result ≡ state_of self.now.rows meter }
    {
        let row = self.rows.iter().find(|row| row.meter == meter)?;
        Some(row.state)
    }

    /// Whether the meter's row is live. The rows are looked through.
    pub fn is_live(&self, meter: MeterId) -> bool
        ensures { result ≡ is_live_in self.now.rows meter }
    {
        self.rows
            .iter()
            .any(|row| row.meter == meter && row.state.is_live())
    }

    /// Whether any row is live.
    pub fn has_live(&self) -> bool
        ensures { result ≡ has_live self.now.rows }
    {
        self.rows.iter().any(|row| row.state.is_live())
    }

    /// Gives the meter's row this state.
    pub(crate) fn mark(&mut self, meter: MeterId, state: RowState)
        ensures { self.new ≡ record { release = self.old.release; image = self.old.image; rows = with_state meter state self.old.rows } }
    {
        mark_row(&mut self.rows, meter, state);
    }

    /// Cancels the rows that are live.
    pub(crate) fn cancel(&mut self)
        ensures { self.new ≡ record { release = self.old.release; image = self.old.image; rows = cancelled_rows self.old.rows } }
    {
        cancel_rows(&mut self.rows);
    }
}
