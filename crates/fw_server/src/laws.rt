//! Laws of what requests ask and of what is read of a meter, over the definitions alone.

ghost use Rattle.fw_server.specs.Laws.{OnlyActiveName, OnlyIdentifier, RequestRefusals};

/// A request alone, whatever the meter's state, is refused by one of four codes: object-undefined, object-class-inconsistent,
/// read-write-denied or type-unmatched.
pub fn request_refusals()
    ensures { RequestRefusals }
{}

/// Of what can be read, the active name and nothing else has an octet-string of 41 or 45 bytes for its value.
pub fn only_active_name()
    ensures { OnlyActiveName }
{}

/// A GET reads the active name exactly if it is of attribute 2, value, of the active firmware identifier.
pub fn only_identifier()
    ensures { OnlyIdentifier }
{}
