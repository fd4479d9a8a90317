//! Campaigns of head ends.

ghost use Rattle.std.specs.Prelude.{◌≡◌, ◌≤◌, ◌↔◌, SomeIff, IfSome, IfNone, IsTrue};
ghost use Rattle.std.specs.Bool.{OnFalse};
ghost use Rattle.fw_names.specs.Name.{Campaign, IsOpened, IsCampaign, factory};

use crate::head::HeadId;
use std::marker::Model;

/// A campaign: a head end's, with its serial number there from 1 on, or the factory's, which has
/// neither.
#[derive(Clone, Copy, Debug, PartialEq, Eq)]
pub struct CampaignId {
    head: u32,
    serial: u32,
}

impl Model for CampaignId {
    ghost Value = { Campaign };

    ghost view = { λ c. record { head = c.head; serial = c.serial } };

    ghost invariant = { λ c. IsCampaign (record { head = c.head; serial = c.serial }) };

    ghost inverse = { λ c. record { head = c.head; serial = c.serial } };
}

impl CampaignId {
    /// The campaign of the images that meters are made with. No head end opens it.
    pub const FACTORY: CampaignId = CampaignId { head: 0, serial: 0 };

    /// The campaign with this serial number at this head end, and `None` for 0 alone.
    pub fn new(head: HeadId, serial: u32) -> Option<CampaignId>
        ensures value { SomeIff result (1 ≤ serial) (record { head = head; serial = serial }) }
        ensures opened { IfSome result IsOpened }
    {
        if serial == 0 {
            return None;
        }
        let head = head.number();
        Some(CampaignId { head, serial })
    }

    /// The campaign with these two numbers, if they are a campaign's.
    pub(crate) fn from_numbers(head: u32, serial: u32) -> Option<CampaignId>
        ensures { let campaign : Campaign = record { head = head; serial = serial } in
            SomeIff result (IsCampaign campaign) campaign }
    {
        if (head == 0) == (serial == 0) {
            Some(CampaignId { head, serial })
        } else {
            None
        }
    }

    /// The head end's number, and 0 for the factory's.
    pub(crate) fn head_number(self) -> u32
        ensures value { result ≡ self.head }
        ensures is_campaign { IsCampaign self }
    {
        self.head
    }

    /// The head end that opened the campaign, and `None` for the factory's.
    pub fn head(self) -> Option<HeadId>
        ensures opened { SomeIff result (IsOpened self) self.head }
        ensures otherwise { IfNone result (self ≡ factory) }
    {
        HeadId::new(self.head)
    }

    /// The serial number, and 0 for the factory's.
    pub fn serial(self) -> u32
        ensures { result ≡ self.serial }
    {
        self.serial
    }

    /// Whether this is the campaign of the images that meters are made with.
    pub fn is_factory(self) -> bool
        ensures exact { IsTrue result ↔ (self ≡ factory) }
        ensures otherwise { OnFalse result (IsOpened self) }
    {
        self == CampaignId::FACTORY
    }
}
