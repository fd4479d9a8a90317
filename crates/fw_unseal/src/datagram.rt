//! A datagram, opened.

ghost use Rattle.std.specs.Prelude.{◌≡◌, ◌≤◌, ℕ, All, Contains, IfOk, MatchOption, length};
ghost use Rattle.fw_seal.specs.Sealing.{Ends, IsSealing, NoSealing};
ghost use Rattle.fw_wrapper.specs.Wrapper.{max_apdu, wrapped};
ghost use Rattle.fw_unseal.specs.Unsealing.{LooksPlain, LooksSealed, OpensNot, OpensTo};

use fw_seal::{Link, OpenError, Opened, shown_counter};
use fw_wrapper::{HEADER_SIZE, join_in, split};
use std::alloc::{AllocError, Global};

/// A sealed datagram that was opened.
#[derive(Drop)]
pub struct Unsealed {
    /// The invocation counter that it was sealed with.
    pub counter: u32,
    /// The datagram of the APDU in plain words.
    pub plain: Vec<u8>,
}

/// The plain datagram of one that the other end of one of these links sealed, between the same wPorts; `None` if none of them opens it. The
/// links are tried in their order, each at the cost of an opening.
///
/// # Errors
///
/// Out of memory.
pub fn unseal(alloc: Global, links: &[Link], wire: &[u8]) -> Result<Option<Unsealed>, AllocError>
    ensures { IfOk result (λ found. MatchOption found (OpensNot links.now wire.now)
        (λ u. OpensTo links.now wire.now u.counter u.plain.items)) }
{
    let Ok(frame) = split(wire) else {
        return Ok(None);
    };
    let Some(opened) = open(alloc, links, frame.apdu)? else {
        return Ok(None);
    };
    let Opened { counter, apdu } = opened;
    let plain = joined(alloc, frame.source, frame.dest, &apdu)?;
    Ok(Some(Unsealed { counter, plain }))
}

/// The APDU of what the other end of one of these links sealed.
fn open(alloc: Global, links: &[Link], sealing: &[u8]) -> Result<Option<Opened>, AllocError>
    ensures { IfOk result (λ found. MatchOption found
        (All (λ ends. NoSealing ends.keys ends.other sealing.now) links.now)
        (λ o. (ends : Ends) × Contains links.now ends × IsSealing ends.keys ends.other o.counter o.apdu.items sealing.now)) }
{
    for link in links {
        match link.open(alloc, sealing) {
            Ok(opened) => return Ok(Some(opened)),
            Err(OpenError::NotSealed) => {}
            Err(OpenError::OutOfMemory) => return Err(AllocError),
        }
    }
    Ok(None)
}

/// The datagram of an APDU between two wPorts.
fn joined(alloc: Global, source: u16, dest: u16, apdu: &[u8]) -> Result<Vec<u8>, AllocError>
    requires { length apdu.now ≤ max_apdu }
    ensures { IfOk result (λ datagram. datagram.items ≡ wrapped source dest apdu.now) }
{
    let mut datagram = Vec::with_capacity(alloc, HEADER_SIZE + apdu.len())?;
    join_in(&mut datagram, source, dest, apdu);
    Ok(datagram)
}

/// The invocation counter of a datagram that has the form of a sealed one, under whatever keys. It is only a claim until it is opened.
pub fn counter_of(wire: &[u8]) -> Option<u32>
    ensures { MatchOption result (LooksPlain wire.now) (LooksSealed wire.now) }
{
    let Ok(frame) = split(wire) else {
        return None;
    };
    shown_counter(frame.apdu)
}
