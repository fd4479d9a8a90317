//! Names of images, and their spelling.

ghost use Rattle.std.specs.Prelude.{◌≡◌, ◌≢◌, ◌↔◌, ◌++◌, IsTrue, IfSome, SomeIff};
ghost use Rattle.std.specs.Int.{w32, from_be_bytes, to_be_bytes};
ghost use Rattle.sha2.specs.Sha256.{sha256};
ghost use Rattle.fw_names.specs.Name.{
  Campaign,
  Name,
  IsCampaign,
  IsName,
  IsRelease,
  IsRisen,
  is_risen,
  SpellsName,
  campaign_bytes,
  factory,
  factory_name,
  name_of,
};

use crate::bytes::NameBytes;
use crate::campaign::CampaignId;
use sha2::{Digest, Sha256};
use std::marker::Model;

/// The byte that the spelling of a name without a release begins with.
const UNRELEASED: u8 = 1;

/// The byte that the spelling of a name with a release begins with.
const RELEASED: u8 = 2;

/// The name of a firmware image.
#[derive(Clone, Copy, Debug, PartialEq, Eq)]
pub struct ImageName {
    /// The campaign that offers the image.
    pub campaign: CampaignId,
    /// The image's release, and 0 if it has none, as those have that meters are made with. A meter that runs a release takes no
    /// lower one.
    pub release: u32,
    /// The SHA-256 of the image's bytes.
    pub digest: [u8; 32],
}

impl Model for ImageName {
    ghost use Rattle.std.specs.Prelude.{◌≡◌};
    ghost use Rattle.fw_names.specs.Name.{Name, factory};

    ghost Value = { Name };

    ghost view = { λ n. record { campaign = n.campaign; release = n.release; digest = n.digest } };

    ghost invariant = { λ n. n.campaign ≡ factory → n.release ≡ 0 };

    ghost inverse = { λ n. record { campaign = n.campaign; release = n.release; digest = n.digest } };
}

impl ImageName {
    /// The one spelling of the name: 01, the head end's number and the campaign's serial number in four bytes each, high byte first,
    /// and the digest; where it has a release, 02 in place of 01, and the release in four bytes before the digest. The factory's two
    /// numbers are 0.
    pub fn to_bytes(&self) -> NameBytes
        ensures { SpellsName result self.now }
    {
        let mut bytes = NameBytes::new();
        let form = if self.release == 0 {
            UNRELEASED
        } else {
            RELEASED
        };
        bytes.put(&[form]);
        bytes.put(&self.campaign.head_number().to_be_bytes());
        bytes.put(&self.campaign.serial().to_be_bytes());
        if self.release != 0 {
            bytes.put(&self.release.to_be_bytes());
        }
        bytes.put(&self.digest);
        bytes
    }

    /// The name that these bytes spell, and `None` if they spell none.
    pub fn from_bytes(bytes: &[u8]) -> Option<ImageName>
        ensures found { IfSome result (SpellsName bytes.now) }

        // Bytes that spell a name are read as that name.
        ensures unique { (name : Name) → SpellsName bytes.now name → result ≡ Some name }
    {
        match bytes {
            [UNRELEASED, parts @ ..] => unreleased(parts),
            [RELEASED, parts @ ..] => released(parts),
            _ => None,
        }
    }

    /// The name without its release.
    pub fn without_release(self) -> ImageName
        ensures value { result ≡ record self { release = 0 } }
        ensures is_name { IsName self }
    {
        if self.campaign.is_factory() {
            return self;
        }
        ImageName { release: 0, ..self }
    }

    /// The name with this release in place of its own, and `None` if its campaign can't have it, as the factory's has 0 alone.
    pub fn with_release(self, release: u32) -> Option<ImageName>
        ensures { SomeIff result (IsRelease self.campaign release) (record self { release = release }) }
    {
        if self.campaign.is_factory() && release != 0 {
            return None;
        }
        Some(ImageName { release, ..self })
    }
}

/// Whether an image of a release may follow one that runs: no downgrade (anti-rollback), so not if its release is below that one's.
pub fn is_risen(running: u32, release: u32) -> bool
    ensures value { result ≡ is_risen running release }
    ensures meaning { IsTrue result ↔ IsRisen running release }
{
    running <= release
}

/// The name without a release that these bytes spell after the first, if they spell one.
fn unreleased(parts: &[u8]) -> Option<ImageName>
    ensures found { IfSome result (λ name. IsName name × (name.release ≡ 0)
        × (parts.now ≡ campaign_bytes name.campaign ++ name.digest)) }
    ensures unique { (name : Name) → IsName name → name.release ≡ 0 → parts.now ≡ campaign_bytes name.campaign ++ name.digest
        → result ≡ Some name }
{
    let [h3, h2, h1, h0, s3, s2, s1, s0, digest @ ..] = parts else {
        return None;
    };
    let campaign = campaign_of([*h3, *h2, *h1, *h0], [*s3, *s2, *s1, *s0])?;
    let digest = digest.try_into().ok()?;
    Some(ImageName {
        campaign,
        release: 0,
        digest,
    })
}

/// The name with a release that these bytes spell after the first, if they spell one.
fn released(parts: &[u8]) -> Option<ImageName>
    ensures found { IfSome result (λ name. IsName name × (name.release ≢ 0)
        × (parts.now ≡ campaign_bytes name.campaign ++ to_be_bytes w32 name.release ++ name.digest)) }
    ensures unique { (name : Name) → IsName name → name.release ≢ 0
        → parts.now ≡ campaign_bytes name.campaign ++ to_be_bytes w32 name.release ++ name.digest → result ≡ Some name }
{
    let [h3, h2, h1, h0, s3, s2, s1, s0, r3, r2, r1, r0, digest @ ..] = parts else {
        return None;
    };
    let campaign = campaign_of([*h3, *h2, *h1, *h0], [*s3, *s2, *s1, *s0])?;
    let release = number_of([*r3, *r2, *r1, *r0]);
    if release == 0 || campaign.is_factory() {
        return None;
    }
    let digest = digest.try_into().ok()?;
    Some(ImageName {
        campaign,
        release,
        digest,
    })
}

/// The campaign whose two numbers these bytes spell, if they are a campaign's.
fn campaign_of(head: [u8; 4], serial: [u8; 4]) -> Option<CampaignId>
    ensures value { let campaign : Campaign = record { head = from_be_bytes w32 head; serial = from_be_bytes w32 serial } in
        SomeIff result (IsCampaign campaign) campaign }
    ensures spelled { IfSome result (λ campaign. campaign_bytes campaign ≡ head ++ serial) }
{
    CampaignId::from_numbers(number_of(head), number_of(serial))
}

/// The number that these bytes spell.
fn number_of(bytes: [u8; 4]) -> u32
    ensures value { result ≡ from_be_bytes w32 bytes }
    ensures spelled { to_be_bytes w32 result ≡ bytes }
{
    u32::from_be_bytes(bytes)
}

/// The SHA-256 of an image.
pub fn digest_of(image: &[u8]) -> [u8; 32]
    ensures { result ≡ sha256 image.now }
{
    Sha256::digest(image)
}

/// The name under which a campaign offers an image of this release, which has to be 0 if the campaign is the factory's.
pub fn name_of(campaign: CampaignId, release: u32, image: &[u8]) -> ImageName
    requires { campaign ≡ factory → release ≡ 0 }
    ensures value { result ≡ name_of campaign release image.now }
    ensures is_name { IsName result }
{
    ImageName {
        campaign,
        release,
        digest: digest_of(image),
    }
}

/// The name of an image that a meter is made with.
pub fn factory_name(image: &[u8]) -> ImageName
    ensures value { result ≡ factory_name image.now }
    ensures is_name { IsName result }
{
    name_of(CampaignId::FACTORY, 0, image)
}
