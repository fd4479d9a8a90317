//! Datagrams of one wrapped APDU each (IEC 62056-4-7).

ghost use Rattle.std.specs.Prelude.{
  ◌≡◌,
  ℕ,
  ◌+◌,
  ◌<◌,
  ◌≤◌,
  ◌⊎◌,
  ◌↔◌,
  List,
  ◌++◌,
  length,
  IfOk,
  IfErr,
  IsOkAnd,
  vec_len,
  vec_capacity,
};
ghost use Rattle.std.specs.Result.{result_err};
ghost use Rattle.fw_wrapper.specs.Wrapper.{header_size, max_apdu, Wraps, wrapped, fault_of};

use crate::error::WrapError;
use std::alloc::Global;

/// The longest APDU that either end takes, in bytes.
pub const MAX_APDU: usize = 2304;

/// The bytes of a header.
pub const HEADER_SIZE: usize = 8;

/// The bytes of a buffer that datagrams are received into: one more than a datagram of this profile can have, so that a longer one,
/// which is cut, is none.
pub const MAX_RECEIVED: usize = HEADER_SIZE + MAX_APDU + 1;

/// The wPort of both ends: of the management process of a head end, and of that of a meter.
pub const WPORT: u16 = 1;

/// The version that every header has.
const VERSION: u16 = 1;

/// What a datagram carries: an APDU, and the wPorts that it goes between.
#[derive(Clone, Copy)]
pub struct Frame<'a> {
    /// The wPort of the sender.
    pub source: u16,
    /// The wPort that the APDU is for.
    pub dest: u16,
    /// At most `MAX_APDU` bytes of the datagram.
    pub apdu: &'a [u8],
}

/// The frame that a datagram is. It borrows its APDU from the datagram.
///
/// # Errors
///
/// `Short`, `Version`, `Length` or `TooLong`: the first that applies.
pub fn split(datagram: &[u8]) -> Result<Frame<'_>, WrapError>
    ensures found { IfOk result (λ f. Wraps datagram.now f.source f.dest f.apdu.now) }

    // A datagram that wraps an APDU is split, and in one way only.
    ensures unique { (source dest : ℕ) (apdu : List ℕ) → Wraps datagram.now source dest apdu
        → IsOkAnd result (λ f. (f.source ≡ source) × (f.dest ≡ dest) × (f.apdu.now ≡ apdu)) }

    ensures refused { result_err result ≡ fault_of datagram.now }
{
    let [v1, v0, s1, s0, d1, d0, l1, l0, apdu @ ..] = datagram else {
        return Err(WrapError::Short);
    };
    if u16::from_be_bytes([*v1, *v0]) != VERSION {
        return Err(WrapError::Version);
    }
    if u16::from_be_bytes([*l1, *l0]) as usize != apdu.len() {
        return Err(WrapError::Length);
    }
    if apdu.len() > MAX_APDU {
        return Err(WrapError::TooLong);
    }
    let source = u16::from_be_bytes([*s1, *s0]);
    let dest = u16::from_be_bytes([*d1, *d0]);
    Ok(Frame { source, dest, apdu })
}

/// The datagram that carries the APDU from one wPort to another.
///
/// # Errors
///
/// `TooLong` for an APDU of more than `MAX_APDU` bytes, and otherwise `OutOfMemory` alone.
pub fn join(alloc: Global, source: u16, dest: u16, apdu: &[u8]) -> Result<Vec<u8>, WrapError>
    ensures joined { IfOk result (λ datagram. datagram.items ≡ wrapped source dest apdu.now) }
    ensures too_long { (result ≡ Err WrapError.TooLong) ↔ (max_apdu < length apdu.now) }
    ensures refused { IfErr result (λ e. (e ≡ WrapError.TooLong) ⊎ (e ≡ WrapError.OutOfMemory)) }
{
    if apdu.len() > MAX_APDU {
        return Err(WrapError::TooLong);
    }
    let mut datagram = Vec::with_capacity(alloc, HEADER_SIZE + apdu.len())?;
    join_in(&mut datagram, source, dest, apdu);
    Ok(datagram)
}

/// Puts the datagram that carries the APDU from one wPort to another into room that was taken before, after what is there. It
/// asks that the APDU has at most `MAX_APDU` bytes, and that there is room for eight bytes more than it has. No memory is
/// taken.
pub fn join_in(room: &mut Vec<u8>, source: u16, dest: u16, apdu: &[u8])
    requires size { length apdu.now ≤ max_apdu }
    requires room { vec_len room.old + header_size + length apdu.now ≤ vec_capacity room.old }
    ensures { room.new.items ≡ room.old.items ++ wrapped source dest apdu.now }
{
    // There is room for each.
    let _ = room.extend_from_slice(&VERSION.to_be_bytes());
    let _ = room.extend_from_slice(&source.to_be_bytes());
    let _ = room.extend_from_slice(&dest.to_be_bytes());
    let _ = room.extend_from_slice(&(apdu.len() as u16).to_be_bytes());
    let _ = room.extend_from_slice(apdu);
}
