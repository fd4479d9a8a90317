//! From a datagram of the wire, which carries a sealing, to the plain one that a daemon has, and back.

ghost use Rattle.std.specs.Prelude.{◌≡◌, ◌≤◌, ◌<◌, ℕ, List, IfErr, IfNone, IfOk, IfSome, length};
ghost use Rattle.fw_counter.specs.Moves.{limit};
ghost use Rattle.fw_seal.specs.Refusal.{IfRefused};
ghost use Rattle.fw_wrapper.specs.Wrapper.{Wraps, max_apdu, wport};
ghost use Rattle.fw_sealport.specs.Counts.{IfUnsealed};
ghost use Rattle.fw_sealport.specs.Sealed.{MayOpen, NoneSeals, Opens, OpensNot, Seals, plain_of};

use crate::unsealed::Unsealed;
use fw_seal::{Counters, Link, OpenError, Opened};
use fw_wrapper::{HEADER_SIZE, WPORT, join, join_in, split};
use std::alloc::{AllocError, Global};

/// The APDU that bytes carry, from and to whatever wPorts, in a sealing by the other end of this link.
///
/// # Errors
///
/// `NotSealed` if they carry none. `OutOfMemory` only if they have the form of one.
pub(crate) fn open_wire(link: &Link, alloc: Global, wire: &[u8]) -> Result<Opened, OpenError>
    ensures opens { IfOk result (λ o. Opens link.now.keys link.now.other o.counter o.apdu.items wire.now) }
    ensures short { IfOk result (λ o. length o.apdu.items ≤ max_apdu) }
    ensures fits { IfOk result (λ o. length (plain_of o.apdu.items) ≤ length wire.now) }
    ensures refused { IfErr result (λ e. IfRefused e (OpensNot link.now.keys link.now.other wire.now) (MayOpen wire.now)) }
{
    let Ok(frame) = split(wire) else {
        return Err(OpenError::NotSealed);
    };
    link.open(alloc, frame.apdu)
}

/// The plain datagram of an APDU.
pub(crate) fn plain_datagram(alloc: Global, apdu: &[u8]) -> Result<Vec<u8>, AllocError>
    requires { length apdu.now ≤ max_apdu }
    ensures { IfOk result (λ plain. plain.items ≡ plain_of apdu.now) }
{
    let mut plain = Vec::with_capacity(alloc, HEADER_SIZE + apdu.len())?;
    join_in(&mut plain, WPORT, WPORT, apdu);
    Ok(plain)
}

/// The APDU of a datagram, if it is a plain one.
pub(crate) fn plain_apdu(datagram: &[u8]) -> Option<&[u8]>
    ensures found { IfSome result (λ apdu. Wraps datagram.now wport wport apdu.now) }
    ensures none { IfNone result ((apdu : List ℕ) → ¬ Wraps datagram.now wport wport apdu) }
{
    let Ok(frame) = split(datagram) else {
        return None;
    };
    if frame.source != WPORT || frame.dest != WPORT {
        return None;
    }
    Some(frame.apdu)
}

/// The datagram that is sent of an APDU: its sealing under this link with this counter. The caller has reserved it, and uses it for nothing
/// else, over restarts and power cuts too.
///
/// # Errors
///
/// `NotPlain` if it has none, whatever the counter, and otherwise `OutOfMemory` alone.
pub(crate) fn seal_apdu(
    link: &Link,
    alloc: Global,
    number: u32,
    apdu: &[u8],
) -> Result<Vec<u8>, Unsealed>
    requires { number < limit }
    ensures sealed { IfOk result (λ wire. Seals link.now number apdu.now wire.items) }
    ensures refused { IfErr result (λ e. IfUnsealed e (NoneSeals link.now apdu.now)) }
{
    let mut counters = Counters::reserved(number, number + 1);
    let sealing = link.seal(alloc, &mut counters, apdu)?;
    let wire = join(alloc, WPORT, WPORT, &sealing)?;
    Ok(wire)
}
