//! The services whose APDUs are sealed (IEC 62056-5-3).

ghost use Rattle.std.specs.Prelude.{◌≡◌};
ghost use Rattle.fw_seal.specs.Sealing.{sealed_tag, tag_for};

/// The tag of the sealings of APDUs with this tag, if they are sealed.
fn sealed_tag(tag: u8) -> Option<u8>
    ensures { result ≡ sealed_tag tag }
{
    match tag {
        0xc0 => Some(0xc8),
        0xc1 => Some(0xc9),
        0xc3 => Some(0xcb),
        0xc4 => Some(0xcc),
        0xc5 => Some(0xcd),
        0xc7 => Some(0xcf),
        _ => None,
    }
}

/// The tag of the sealings of an APDU, if it is sealed.
pub(crate) fn tag_for(apdu: &[u8]) -> Option<u8>
    ensures { result ≡ tag_for apdu.now }
{
    match apdu {
        [tag, ..] => sealed_tag(*tag),
        [] => None,
    }
}
