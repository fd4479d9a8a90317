//! Laws of wrapped APDUs, over the definitions alone, and that the constants are those of the definitions.

ghost use Rattle.std.specs.Prelude.{◌≡◌};
ghost use Rattle.fw_wrapper.specs.Laws.{CutIsNone, OneFrame, WrappedHasNoFault, FaultlessWraps};
ghost use Rattle.fw_wrapper.specs.Wrapper.{header_size, max_received, wport};

use crate::frame::{HEADER_SIZE, MAX_RECEIVED, WPORT};

/// The numbers of the code are those of the definitions.
pub fn one_number_each()
    ensures header { HEADER_SIZE ≡ header_size }
    ensures received { MAX_RECEIVED ≡ max_received }
    ensures port { WPORT ≡ wport }
{}

/// A byte string wraps at most one APDU, between one pair of wPorts.
pub fn one_frame()
    ensures { OneFrame }
{}

/// What wraps an APDU has no fault, so that what has a fault wraps nothing.
pub fn wrapped_has_no_fault()
    ensures { WrappedHasNoFault }
{}

/// Bytes that have no fault wrap an APDU.
pub fn faultless_wraps()
    ensures { FaultlessWraps }
{}

/// A datagram that fills the buffer, as one that was cut does, wraps no APDU.
pub fn cut_is_none()
    ensures { CutIsNone }
{}
